//! The properties that a PROPFIND reports, and the resources that it reports them for (RFC 4918, section
//! 9.1).
#![tactic(auto)]

mod asked;
mod asked_list;
mod declaring;
mod finding;
mod names;
mod refusal;
mod reporting;
mod responding;
mod search;
mod server_list;
mod visiting;

pub use asked::AskedProperty;
pub use declaring::declare_prefixes;
pub use finding::{Finder, Found};
pub use search::{FindKind, Search, read_search};
