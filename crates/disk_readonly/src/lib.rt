//! Disks by which files are looked at and not changed: a copy in memory, and a disk that refuses each change.
#![tactic(auto)]

mod copied;
mod error;
mod read_only;

pub use copied::Copied;
pub use error::CopyError;
pub use read_only::ReadOnly;
