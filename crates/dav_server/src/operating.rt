//! What a host asks for its operator: which locks there are, to remove a lock, and to set when a resource was last
//! modified.
ghost use Rattle.std.specs.Prelude.{◌≡◌, IfOk, Some, map, option_map};
ghost use Rattle.dav_wire.specs.Frames as frames;
ghost use Rattle.dav_wire.specs.Views.{unlock_frame_of, modified_frame_of, lock_frame_of};
ghost use Rattle.dav_server.specs.Operating.{lock_value, lock_status_of};

use crate::replies::{encode, failed};
use crate::server::Server;
use crate::{ExpiringLocks, TimedStore};
use dav_resource::{DavPath, FsError, FsResult, Items};
use dav_store::{DavLock, LockError};
use dav_wire::{LockFrame, ModifiedFrame, Reply, UnlockFrame};
use http::StatusCode;
use std::alloc::{AllocError, Global};

impl<'a, F: TimedStore, L: ExpiringLocks> Server<'a, F, L> {
    ghost use Rattle.dav_server.specs.State.{HasEmptyLog, state_of, rules_of, loans_of};
    ghost use Rattle.dav_server.specs.Frames.{Reacts};
    ghost use Rattle.dav_server.specs.Operating.{locks_in, Unlocks};

    /// Returns the encoded reply with all locks.
    pub(crate) fn list_locks(&self) -> Option<Vec<u8>>
        ensures reacts { Reacts F.seen F.reads (rules_of self.entry.now) (Some frames.ListLocks) (state_of F.seen L.seen self.entry.now) (option_map (λ v. v.items) result) (state_of F.seen L.seen self.entry.now) }
    {
        let alloc = self.alloc;
        let Ok(locks) = self.locks() else {
            return encode(alloc, &failed(StatusCode::INSUFFICIENT_STORAGE));
        };
        match lock_frames(alloc, locks.as_slice()) {
            Ok(frames) => encode(alloc, &Reply::Locks(frames)),
            Err(_) => encode(alloc, &failed(StatusCode::INSUFFICIENT_STORAGE)),
        }
    }

    /// Returns copies of all locks, the oldest first. Fails only if memory runs out.
    fn locks(&self) -> Result<Items<DavLock>, LockError>
        ensures { IfOk result (λ locks. locks ≡ locks_in (state_of F.seen L.seen self.entry.now)) }
    {
        match &self.engine.ls {
            Some(locks) => locks.all(),
            None => Ok(Items::from_vec(Vec::new(self.alloc))),
        }
    }

    /// Removes the lock with a token whose resource is at a path or above it, and returns the encoded reply.
    pub(crate) fn remove_lock(&mut self, asked: UnlockFrame<'_>) -> Option<Vec<u8>>
        ensures rules { rules_of self.new ≡ rules_of self.old }
        ensures loans { loans_of self.new ≡ loans_of self.old }
        ensures reacts { Reacts F.seen F.reads (rules_of self.old) (Some (frames.RemoveLock (unlock_frame_of asked.entry))) (state_of F.seen L.seen self.old) (option_map (λ v. v.items) result) (state_of F.seen L.seen self.new) }
        ensures log { HasEmptyLog F.seen self.old → HasEmptyLog F.seen self.new }
    {
        let alloc = self.alloc;
        let path = match DavPath::from_str_and_prefix(alloc, asked.path, self.engine.prefix()) {
            Ok(path) => path,
            Err(error) => return encode(alloc, &failed(error.statuscode())),
        };
        match self.unlock(&path, asked.token) {
            Ok(()) => encode(alloc, &Reply::Done),
            Err(error) => encode(alloc, &failed(lock_status(error))),
        }
    }

    /// Removes the lock with a token whose resource is at a path or above it.
    fn unlock(&mut self, path: &DavPath, token: &str) -> Result<(), LockError>
        ensures rules { rules_of self.new ≡ rules_of self.old }
        ensures loans { loans_of self.new ≡ loans_of self.old }
        ensures removed { Unlocks path.now.key token.now result (state_of F.seen L.seen self.old) (state_of F.seen L.seen self.new) }
        ensures log { HasEmptyLog F.seen self.old → HasEmptyLog F.seen self.new }
    {
        match &mut self.engine.ls {
            Some(locks) => locks.unlock(path, token),
            None => Err(LockError::NotFound),
        }
    }

    /// Sets when the resource at a path was last modified, and returns the encoded reply.
    pub(crate) fn set_modified(&mut self, asked: ModifiedFrame<'_>) -> Option<Vec<u8>>
        ensures rules { rules_of self.new ≡ rules_of self.old }
        ensures loans { loans_of self.new ≡ loans_of self.old }
        ensures reacts { Reacts F.seen F.reads (rules_of self.old) (Some (frames.SetModified (modified_frame_of asked.entry))) (state_of F.seen L.seen self.old) (option_map (λ v. v.items) result) (state_of F.seen L.seen self.new) }
        ensures log { HasEmptyLog F.seen self.old → HasEmptyLog F.seen self.new }
    {
        let alloc = self.alloc;
        let path = match DavPath::from_str_and_prefix(alloc, asked.path, self.engine.prefix()) {
            Ok(path) => path,
            Err(error) => return encode(alloc, &failed(error.statuscode())),
        };
        match self.engine.fs.inner_mut().set_modified(&path, asked.time) {
            Ok(()) => encode(alloc, &Reply::Done),
            Err(error) => encode(alloc, &failed(error.statuscode())),
        }
    }
}

/// Returns the locks as a reply has them. Fails only if memory runs out.
fn lock_frames<'l>(alloc: Global, locks: &'l [DavLock]) -> Result<Vec<LockFrame<'l>>, AllocError>
    ensures { IfOk result (λ frames. map lock_frame_of frames.items ≡ map lock_value locks.now) }
{
    let mut frames = Vec::new(alloc);
    for lock in locks {
        frames.push(lock_frame(lock)?)?;
    }
    Ok(frames)
}

/// Returns a lock as a reply has it. Fails only if memory runs out.
fn lock_frame(lock: &DavLock) -> Result<LockFrame<'_>, AllocError>
    ensures { IfOk result (λ frame. lock_frame_of frame ≡ lock_value lock.now) }
{
    Ok(LockFrame {
        token: lock.token.as_str(),
        path: lock.path.with_prefix()?.as_url_string()?,
        principal: match &lock.principal {
            Some(principal) => Some(principal.as_str()),
            None => None,
        },
        deep: lock.deep,
        shared: lock.shared,
        expires: lock.timeout_at,
    })
}

/// Returns the status of the reply where a lock is not removed.
fn lock_status(error: LockError) -> StatusCode
    ensures { result ≡ lock_status_of error }
{
    match error {
        LockError::NotFound => StatusCode::NOT_FOUND,
        _ => StatusCode::INTERNAL_SERVER_ERROR,
    }
}
