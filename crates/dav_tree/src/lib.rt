//! A store with its tree in memory, over any medium for what files contain.
#![tactic(auto)]

mod entries;
mod entry;
mod in_memory;
mod medium;
mod properties;
mod tree_fs;

pub use dav_nodes::{Changes, NumberedValue, PlacedValue, RowsError};
pub use entry::{Content, Entry};
pub use in_memory::{Bytes, InMemory};
pub use medium::Medium;
pub use properties::Properties;
pub use tree_fs::TreeFs;

/// A store in memory.
pub type MemFs = TreeFs<InMemory>;
