//! The stores over a medium and the lock system in memory, as a server needs them.
use crate::{ExpiringLocks, TimedStore};
use dav_memls::MemLs;
use dav_resource::{DavPath, FsResult, Items};
use dav_store::{DavLock, LockError};
use dav_tree::{Medium, TreeFs};

impl<M: Medium> TimedStore for TreeFs<M> {
    fn set_now(&mut self, now: u64) {
        TreeFs::set_now(self, now);
    }

    fn set_modified(&mut self, path: &DavPath, time: u64) -> FsResult<()> {
        TreeFs::set_modified(self, path, time)
    }
}

impl ExpiringLocks for MemLs {
    fn next_expiry(&self) -> Option<u64> {
        MemLs::next_expiry(self)
    }

    fn expire(&mut self, now: u64) {
        MemLs::expire(self, now);
    }

    fn with_token(&self, token: &str) -> Option<&DavLock> {
        MemLs::with_token(self, token)
    }

    fn all(&self) -> Result<Items<DavLock>, LockError> {
        MemLs::all(self)
    }

    fn count(&self) -> usize {
        MemLs::len(self)
    }
}
