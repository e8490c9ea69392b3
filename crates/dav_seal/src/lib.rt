//! A seal over all rows of a store: the sum of their digests under a key. A start compares it with the rows that it reads, and
//! so finds a damaged row.
#![tactic(auto)]

mod laws;
mod pages;
mod row_bytes;
mod sealed_row;
mod seals;
mod table_seal;

pub use laws::{show_bytes, show_collision};
pub use seals::Seals;
