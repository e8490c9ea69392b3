//! A lock system in memory.
#![tactic(auto)]

mod memory_locks;

pub use memory_locks::MemLs;
