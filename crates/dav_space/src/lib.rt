//! Which parts of a data file no block uses.
#![tactic(auto)]

mod gaps;
mod range;
mod space;

pub use gaps::outside;
pub use range::{LIMIT, Range};
pub use space::Space;
