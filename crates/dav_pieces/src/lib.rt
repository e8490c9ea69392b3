//! What files contain, as pieces of blocks of one data file.
#![tactic(auto)]

mod body;
mod edits;
mod piece;

pub use body::Body;
pub use piece::{Block, Piece};
