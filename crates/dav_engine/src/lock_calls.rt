//! What LOCK, for a new lock or a refresh, and UNLOCK share.
ghost use Rattle.std.specs.Prelude.{◌≡◌, true, false, OnOk};
ghost use Rattle.dav_store.specs.LockCalls.{RemovesLock, KeepsNamed};
ghost use Rattle.dav_engine.specs.DavInner.{lent_locks, state_by, has_locks};
ghost use Rattle.dav_engine.specs.Locking.{locks_verdict, look_up_to_lock as look_up_to_lock_of, lock_error as lock_error_of};
ghost use Rattle.dav_engine.specs.ByEngine.{IsSameEngine, JudgesBy, LocksChange, LocksKept};

use crate::DavInner;
use dav_resource::{DavError, DavPath, DavRequest, DavResult, Meta};
use dav_store::{DavLockSystem, GuardedFileSystem, LockError};
use http::StatusCode;

impl<'a, C: Drop, F: GuardedFileSystem<C>, L: DavLockSystem> DavInner<'a, C, F, L> {
    /// Looks up the path if there is a lock system; else rejects the request with 405. A failed lookup counts
    /// as nothing there.
    pub(crate) fn look_up_to_lock(&mut self, request: &DavRequest) -> DavResult<Option<Meta>>
        ensures same_engine { IsSameEngine self.old self.new }
        ensures same_locks { lent_locks self.new ≡ lent_locks self.old }
        ensures locks { OnOk result (has_locks self.old ≡ true) }
        ensures rules { JudgesBy F.seen L.seen (look_up_to_lock_of request.entry.now) self.old result self.new }
    {
        self.judge_locks()?;
        self.look_up(&request.path)
    }

    /// Rejects a request about locks with 405 if there is no lock system.
    pub(crate) fn judge_locks(&self) -> DavResult<()>
        ensures { result ≡ locks_verdict (state_by F.seen L.seen self.now) }
    {
        match self.ls {
            Some(_) => Ok(()),
            None => Err(DavError::Status(StatusCode::METHOD_NOT_ALLOWED)),
        }
    }

    /// Removes the lock of this token, at the path or above it, and returns whether it did. If not, nothing
    /// has changed: there is no such lock, or a lock system whose `unlock` is not reliable has kept it.
    pub(crate) fn remove_lock(&mut self, path: &DavPath, token: &str) -> bool
        requires locks { has_locks self.old ≡ true }
        ensures same_engine { IsSameEngine self.old self.new }
        ensures removed { result ≡ true → LocksChange F.seen L.seen (RemovesLock path.now.key token.now) self.old self.new }
        ensures kept { result ≡ false → LocksKept F.seen L.seen (KeepsNamed path.now.key token.now) self.old self.new }
    {
        match &mut self.ls {
            Some(ls) => ls.unlock(path, token).is_ok(),
            None => false,
        }
    }
}

/// Returns an error of this status, or `Memory` if memory ran out.
pub(crate) fn lock_error(status: StatusCode, error: LockError) -> DavError
    ensures { result ≡ lock_error_of status error }
{
    match error {
        LockError::Memory => DavError::Memory,
        _ => DavError::Status(status),
    }
}
