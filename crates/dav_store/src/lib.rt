//! The contracts that a store and a lock system fulfil for the engine.
#![tactic(auto)]

mod lock;
mod lock_system;
mod paths;
mod store;

pub use lock::{DavLock, LockError, clone_owner, timeout_end};
pub use lock_system::DavLockSystem;
pub use paths::{one_path, two_paths};
pub use store::GuardedFileSystem;
