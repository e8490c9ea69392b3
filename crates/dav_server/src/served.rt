//! What a server needs of a store and of a lock system beside their contracts.
ghost use Rattle.std.specs.Prelude.{◌≡◌, ◌⊎◌, length, None, IfOk, IfErr, OnOk, OnErr};
ghost use Rattle.std.specs.FinMap.{get};
ghost use Rattle.std.specs.List.{find};
ghost use Rattle.std.specs.Option.{option_copied};
ghost use Rattle.dav_memls.specs.Expiry.{earliest_expiry};
ghost use Rattle.dav_store.specs.Locks.{has_token};
ghost use Rattle.dav_tree.specs.Modified.{SetsModified};
ghost use Rattle.dav_server.specs.State.{without_expired};

use dav_resource::{DavPath, FsError, FsResult, Items};
use dav_store::{DavLock, DavLockSystem, GuardedFileSystem, LockError};

/// A store that gets the current time from its server.
pub trait TimedStore: GuardedFileSystem<()> {
    /// Sets the current time, in whole seconds since 1970. Nothing that contracts see changes.
    fn set_now(&mut self, now: u64)
        ensures { Self.seen self.new ≡ Self.seen self.old };

    /// Sets when the resource at a path was last modified, in whole seconds since 1970. Nothing else changes, and the call
    /// leaves no record.
    ///
    /// `NotFound`: nothing exists at the path. The only other error is `Memory`. After an error nothing has changed.
    fn set_modified(&mut self, path: &DavPath, time: u64) -> FsResult<()>
        ensures ok { OnOk result (SetsModified path.now.key time (Self.seen self.old) (Self.seen self.new)) }
        ensures err { OnErr result (Self.seen self.new ≡ Self.seen self.old) }
        ensures cause { IfErr result (λ e. (e ≡ FsError.Memory) ⊎ ((e ≡ FsError.NotFound) × (get (Self.seen self.old).contents.tree path.now.key ≡ None))) };
}

/// A lock system whose locks expire when the server says so.
pub trait ExpiringLocks: DavLockSystem {
    /// Returns the earliest time at which a lock expires, in whole seconds since 1970. Returns `None` if no lock has
    /// a timeout.
    fn next_expiry(&self) -> Option<u64>
        ensures { result ≡ earliest_expiry (Self.seen self.now).list };

    /// Removes each lock that has expired: whose `timeout_at` is `now` or earlier. `now` is in whole seconds since
    /// 1970.
    fn expire(&mut self, now: u64)
        ensures { Self.seen self.new ≡ without_expired now (Self.seen self.old) };

    /// Returns the lock with this token.
    fn with_token(&self, token: &str) -> Option<&DavLock>
        ensures { option_copied result ≡ find (has_token token.now) (Self.seen self.now).list };

    /// Returns copies of the locks, the oldest first. The only error is `Memory`.
    fn all(&self) -> Result<Items<DavLock>, LockError>
        ensures ok { IfOk result (λ locks. locks ≡ (Self.seen self.now).list) }
        ensures err { IfErr result (λ e. e ≡ LockError.Memory) };

    /// Returns the number of locks.
    fn count(&self) -> usize
        ensures { result ≡ length (Self.seen self.now).list };
}
