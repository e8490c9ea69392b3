//! Recursive deletion and copying over a store that may fail any call.
#![tactic(auto)]

mod copy_frame;
mod copying;
mod deletion;
mod frame;
mod listing;

pub use copying::CopyTask;
pub use deletion::delete_items;
pub use listing::{Resource, add_members, take_next};
