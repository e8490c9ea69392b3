//! LOCK for a new lock (RFC 4918, section 9.10).
ghost use Rattle.std.specs.Prelude.{◌≡◌, true, false, IfOk, IfErr, OnOk, Ok, Err, Some};
ghost use Rattle.dav_resource.specs.declared.error.DavError.TheVariants.{Memory, Status};
ghost use Rattle.dav_resource.specs.declared.method.DavMethod.TheVariants.{Lock};
ghost use Rattle.dav_headers.specs.Timeout.{timeout_of};
ghost use Rattle.dav_store.specs.LockCalls.{AddsLock};
ghost use Rattle.dav_messages.specs.Reply.{answer_of};
ghost use Rattle.dav_engine.specs.Answered.{Unbegun};
ghost use Rattle.dav_engine.specs.DavInner.{lent_locks, bodies_by, has_locks};
ghost use Rattle.dav_engine.specs.Served.{IsServed};
ghost use Rattle.dav_engine.specs.LockInfo.{lock_info_of};
ghost use Rattle.dav_engine.specs.Locking.{greatest_timeout as greatest_timeout_of, timeout_for, is_refresh as is_refresh_body, new_lock_rules, lock_asked, DeniesAsked, lock_open_error as error_of_open, AnswersLock, NewLockWork, NewLockCut};
ghost use Rattle.dav_engine.specs.Rules.{found_in};
ghost use Rattle.dav_engine.specs.ByEngine.{IsSameEngine, StoreWorkBy, JudgesBy, WorkBy, LocksChange, LocksRefuse};

use crate::DavInner;
use crate::inner::fixed_path;
use crate::judge::{depth_or_all, is_deep, judge_depth, principal};
use crate::lock_calls::lock_error;
use crate::lock_info::{LockInfo, read_lock_info};
use crate::lock_reply::granted_reply;
use crate::opening::{making_options, misplaced_status};
use dav_headers::{DavTimeout, read_timeout};
use dav_messages::is_empty_body;
use dav_resource::{
    Body, DavError, DavPath, DavRequest, DavResult, Depth, FsError, Meta, OpenOptions,
};
use dav_store::{DavLock, DavLockSystem, GuardedFileSystem, LockError};
use http::{Response, StatusCode};

impl<'a, C: Drop, F: GuardedFileSystem<C>, L: DavLockSystem> DavInner<'a, C, F, L> {
    /// Locks a resource with the request's token and returns 200 with the lock in full, or refreshes a lock.
    /// Executes any request as LOCK, whatever its method.
    ///
    /// If the lookup finds nothing, a new lock gets 201, and an empty file is created unless there is one
    /// (RFC 4918, section 7.3). The body says whether the lock is shared or exclusive. With Depth 0 it covers
    /// only the path, else also everything below it. It lasts as long as `get_timeout` says. A request
    /// without a body, or with an empty one (which the store may hold), refreshes the lock whose token is in
    /// its header `If`, and returns 200. Its conditions are not checked. The new timeout is that of an
    /// exclusive lock, even if the lock is shared.
    ///
    /// Errors of a new lock, checked in this order. After each of them, and after `Memory`, no file has been
    /// created and no lock added, except that a lock system whose `unlock` is not reliable may keep the new
    /// lock.
    /// - 405 without a lock system.
    /// - 400 for Depth 1.
    /// - The status of a condition that does not hold (RFC 7232; RFC 4918, section 10.4).
    /// - `XmlParseError` for a body that is not a valid `lockinfo`.
    /// - 423 if a conflicting lock exists, or if the request's token is in use.
    /// - If the file cannot be opened: with If-None-Match `*`, 412 if its parent is not a collection or if
    ///   something is there after all; without it, 409 if its parent is not a collection; else the store's
    ///   error.
    ///
    /// Errors of a refresh, checked in this order. After each of them nothing has changed. After `Memory` the
    /// lock may have been refreshed.
    /// - 405 without a lock system.
    /// - 400 unless the header `If` has exactly one token.
    /// - 412 if the locks do not permit the request to write at the path, or if no lock of that token is
    ///   there or above.
    pub fn handle_lock(&mut self, request: &DavRequest) -> DavResult<Response<Body>>
        ensures same_engine { IsSameEngine self.old self.new }
        ensures step { IsServed F.seen L.seen (Some Lock) self.old request.entry.now (answer_of result) self.new }
    {
        if is_empty_body::<C, F>(&*self.fs, &request.body) {
            self.refresh(request)
        } else {
            self.new_lock(request)
        }
    }

    /// Executes a LOCK for a new lock: first the rules, and then the work.
    fn new_lock(&mut self, request: &DavRequest) -> DavResult<Response<Body>>
        requires body { is_refresh_body (bodies_by F.seen self.old) request.now.body ≡ false }
        ensures same_engine { IsSameEngine self.old self.new }
        ensures step { IsServed F.seen L.seen (Some Lock) self.old request.entry.now (answer_of result) self.new }
    {
        let (found, info) = self.judge_new_lock(request)?;
        self.grant_lock(request, found, &info)
    }

    /// Checks the rules of a new lock: looks up the path, and checks the Depth, the conditions and the body.
    /// Returns what was found, and what the body asks for.
    fn judge_new_lock(&mut self, request: &DavRequest) -> DavResult<(Option<Meta>, LockInfo)>
        ensures same_engine { IsSameEngine self.old self.new }
        ensures same_locks { lent_locks self.new ≡ lent_locks self.old }
        ensures locks { OnOk result (has_locks self.old ≡ true) }
        ensures info { IfOk result (λ passed. lock_info_of request.entry.now.body ≡ Some passed.1) }
        ensures rules { JudgesBy F.seen L.seen (new_lock_rules request.entry.now) self.old (found_in result) self.new }
    {
        let found = self.look_up_to_lock(request)?;
        judge_depth(depth_or_all(request))?;
        self.judge_holding(request, found.as_ref())?;
        let info = read_lock_info(*self.prefix.allocator(), &request.body)?;
        Ok((found, info))
    }

    /// The work of a new lock: has the lock system add it, makes the response and, if nothing was found,
    /// creates the file. If that fails, removes the lock again.
    fn grant_lock(
        &mut self,
        request: &DavRequest,
        found: Option<Meta>,
        info: &LockInfo,
    ) -> DavResult<Response<Body>>
        requires locks { has_locks self.old ≡ true }
        requires info { lock_info_of request.now.body ≡ Some info.now }
        ensures same_engine { IsSameEngine self.old self.new }
        ensures work { WorkBy F.seen L.seen (NewLockWork self.old.profile request.entry.now found) (NewLockCut request.entry.now found) self.old (answer_of result) self.new }
    {
        let lock = self.add_lock(request, &found, info)?;
        match self.answer_lock(request, &found, &lock) {
            Ok(reply) => Ok(reply),
            Err(error) => {
                self.remove_lock(&lock.path, lock.token.as_str());
                Err(error)
            }
        }
    }

    /// Has the lock system grant the lock.
    fn add_lock(
        &mut self,
        request: &DavRequest,
        found: &Option<Meta>,
        info: &LockInfo,
    ) -> DavResult<DavLock>
        requires locks { has_locks self.old ≡ true }
        ensures same_engine { IsSameEngine self.old self.new }
        ensures lock { IfOk result (λ lock. lock ≡ lock_asked request.entry.now found.now info.now) }
        ensures granted { OnOk result (LocksChange F.seen L.seen (AddsLock (lock_asked request.entry.now found.now info.now)) self.old self.new) }
        ensures refused { IfErr result (λ e. LocksRefuse F.seen L.seen (DeniesAsked request.entry.now found.now info.now) 423 e self.old self.new) }
    {
        let path = fixed_path(&request.path, found.as_ref())?;
        let Some(ls) = &mut self.ls else {
            return Err(DavError::Status(StatusCode::LOCKED));
        };
        match ls.lock(
            &path,
            principal(request),
            info.owner.as_ref(),
            get_timeout(request, false, info.shared),
            info.shared,
            is_deep(depth_or_all(request)),
            request.token.as_str(),
            request.now,
        ) {
            Ok(lock) => Ok(lock),
            Err(error) => Err(lock_error(StatusCode::LOCKED, error)),
        }
    }

    /// Makes the response, and then creates the file if nothing was found.
    fn answer_lock(
        &mut self,
        request: &DavRequest,
        found: &Option<Meta>,
        lock: &DavLock,
    ) -> DavResult<Response<Body>>
        ensures same_engine { IsSameEngine self.old self.new }
        ensures same_locks { lent_locks self.new ≡ lent_locks self.old }
        ensures work { StoreWorkBy F.seen (AnswersLock self.old.profile request.entry.now found.now lock.now) Unbegun self.old (answer_of result) self.new }
    {
        let alloc = *self.prefix.allocator();
        let reply = granted_reply(alloc, self.profile, request, found, lock)?;
        if found.is_some() {
            return Ok(reply);
        }
        let options = making_options(alloc, request)?;
        match self.fs.open(&request.path, &options, &self.credentials) {
            Ok(_) => Ok(reply),
            Err(error) => Err(lock_open_error(&options, error)),
        }
    }
}

/// Returns how long a lock of this request lasts, in seconds, or `None` for no end (RFC 4918, section 10.7).
///
/// The first value of the header `Timeout` counts, up to 86400 for a shared lock and up to 600 for an
/// exclusive one. `Infinite` gives this maximum to a new lock, and no end to a refreshed one. Without a
/// header `Timeout`, or if one of its values cannot be read, there is no end.
pub fn get_timeout(req: &DavRequest, refresh: bool, shared: bool) -> Option<u64>
    ensures { result ≡ timeout_for (timeout_of req.entry.now.headers) refresh shared }
{
    let greatest = greatest_timeout(shared);
    match read_timeout(&req.headers) {
        Ok(Some(DavTimeout::Infinite)) => { if refresh { None } else { Some(greatest) } }
        Ok(Some(DavTimeout::Seconds(seconds))) => Some((seconds as u64).min(greatest)),
        _ => None,
    }
}

/// Returns the maximum timeout in seconds: a day for a shared lock, ten minutes for an exclusive one.
fn greatest_timeout(shared: bool) -> u64
    ensures { result ≡ greatest_timeout_of shared }
{
    if shared { 86400 } else { 600 }
}

fn lock_open_error(options: &OpenOptions, error: FsError) -> DavError
    ensures { result ≡ error_of_open options.now error }
{
    match error {
        FsError::NotFound | FsError::Exists => DavError::Status(misplaced_status(options)),
        error => error.into(),
    }
}
