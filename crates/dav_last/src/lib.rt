//! The number of the last batch that a store kept, in two small files beside its database.
//!
//! SQLite's log ends at its first wrong frame. So when the end of the log is lost, the database goes back to an earlier
//! batch, and reports nothing. To notice this, a store writes the number of each batch that it kept into a file of its
//! own, and compares the two at its next start.
//!
//! There are two such files, the slots. A write goes to the unsynced slot, and the synced slot stays as it is until the
//! other one is on the disk. Then the two swap roles. So a crash tears at most one slot, and the other one names the
//! number that was synced last.
#![tactic(auto)]

mod image;
mod last_batch;
mod reading;
mod replace;

pub use last_batch::LastBatch;
pub use reading::{Last, read_last};
pub use replace::replace_both;
