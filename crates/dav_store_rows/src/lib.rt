//! The rows of a store: how its resources stand in the tables, and how they are saved and loaded.
#![tactic(auto)]

mod loading;
mod locks;
mod part_key;
mod saving;

pub use loading::{LoadError, load_resources};
pub use locks::{SavedLocks, load_locks};
pub use saving::{Counts, SaveError, SavedCounts, save_changes};
