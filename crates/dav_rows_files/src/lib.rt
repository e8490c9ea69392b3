//! Opens the rows of a store in files, and says what a crash leaves there.
#![tactic(auto)]

mod judging;
mod starting;
mod stopping;

pub use judging::{Unjudged, judge};
pub use starting::start;
pub use stopping::{close, into_files, save_to_the_end};
