//! A medium whose bodies are in one data file.
#![tactic(auto)]

mod claim;
mod claimed_file;
mod claimed_medium;
mod data_file;
mod hash;
mod medium;
mod sip;

pub use claim::{Claim, Unclaimed};
pub use claimed_file::ClaimedFile;
pub use data_file::DataFile;
pub use dav_pieces::{Block, Body, Piece};
