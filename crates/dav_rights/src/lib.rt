//! Access rights: which resources a caller may list, read and write.
#![tactic(auto)]

mod access;
mod rights;
mod rule;
mod rules;

pub use access::Access;
pub use rights::{Explanation, Rights};
pub use rule::{Allowed, Rule};
pub use rules::{Rules, Who, WrittenRule};
