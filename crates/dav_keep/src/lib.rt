//! Keeps a store and its locks in a database, so that a crash loses nothing of what was kept.
#![tactic(auto)]

mod ends;
mod error;
mod first;
mod keeping;
mod loading;
mod numbers;

pub use error::KeepError;
pub use first::first_changes;
pub use keeping::Keeping;
pub use loading::{Known, Loaded, load};
pub use numbers::Numbers;
