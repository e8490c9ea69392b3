//! Tells a damaged write-ahead log from one that a crash left.
//!
//! Recovery takes the frames of a log up to its last whole commit, and ignores the rest. So a log that is damaged in the
//! middle looks to it like one that a crash cut off, and all commits behind the damage are lost without an error. This
//! crate finds the marks of such a loss: bytes that the engine writes only when all earlier commits are on the disk.
//!
//! A log that a crash of the engine left has none of them. This supposes a crash as `sqlite_disk` describes it, that a
//! crash makes no frame with the salt and the checksum of the log, and a database of fewer than 0xff00_0000 pages. It is
//! argued in specs/Damage.antt and not proved. Some damage leaves none of them either: a log without its last commits, or
//! with damage in the last one, may look like one that a crash cut off.
#![tactic(auto)]

mod bytes;
mod frames;
mod judging;
mod losing;

pub use judging::{has_wrong_header, is_damaged};
pub use losing::loses_frames;
