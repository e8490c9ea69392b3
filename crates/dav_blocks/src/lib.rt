//! Runs of bytes in one data file on a disk.
#![tactic(auto)]

mod block_file;
mod run;
mod settle;

pub use block_file::BlockFile;
pub use run::Run;
