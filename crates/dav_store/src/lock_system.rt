//! The contract of a lock system.
ghost use Rattle.std.specs.Prelude.{◌≡◌, IfOk, IfErr, OnOk, OnErr};
ghost use Rattle.std.specs.Option.{option_copied};
ghost use Rattle.dav_store.specs.Locks.{Locks, permits, covering};
ghost use Rattle.dav_store.specs.LockCalls.{HasDistinctTokens, asked_lock, AddsLock, RefusesLock, RemovesLock, RefusesUnlock, RefreshesLock, RefusesRefresh, RemovesLocks, RefusesDelete};

use crate::{DavLock, LockError};
use dav_resource::{DavPath, Element, Items, Text};

/// A lock system: a list of locks with distinct tokens (RFC 4918, section 6), the oldest first.
///
/// Locks do not expire. A lock stays, also after its timeout, until a call removes it. A call that returns an
/// error changes nothing.
///
/// Two of its calls may be reliable, and no call changes that. A reliable `delete` always succeeds. A reliable
/// `unlock` returns an error only if there is no such lock.
pub trait DavLockSystem {
    /// What the contracts see of the lock system: its locks, and which of its calls are reliable.
    ghost seen: { Self → Locks };

    /// Whether the locks allow a request at this path that submits these tokens as this principal (RFC 4918,
    /// section 7).
    ///
    /// A lock is submitted if its token is one of these and its principal is this one (or both are `None`).
    /// With `ignore_principal` the token suffices. The request is allowed if all of these conditions are met:
    ///
    /// - Each exclusive lock that covers the path is submitted.
    /// - If any lock covers the path, at least one lock that covers it is submitted.
    /// - If the request is deep, each lock at or below the path is submitted, shared or exclusive.
    fn check(
        &self,
        path: &DavPath,
        principal: Option<&str>,
        ignore_principal: bool,
        deep: bool,
        tokens: &[Text],
    ) -> bool
        ensures { result ≡ permits (seen self.now).list path.now.key (option_copied principal.entry) ignore_principal deep tokens.now };

    /// Grants a lock and returns a copy of it (RFC 4918, section 9.10). The timeout is in seconds, and `now`
    /// is in whole seconds since 1970. The lock has the values passed here, and `timeout_at` is as
    /// `timeout_end` computes it. It is added at the end of the list.
    ///
    /// `Conflict`: the token is in use, or the lock conflicts with a lock that covers its path or, if it is
    /// deep, with a lock at or below its path. Two locks conflict unless both are shared. The only other
    /// error is `Memory`.
    fn lock(
        &mut self,
        path: &DavPath,
        principal: Option<&str>,
        owner: Option<&Element>,
        timeout: Option<u64>,
        shared: bool,
        deep: bool,
        token: &str,
        now: u64,
    ) -> Result<DavLock, LockError>
        ensures lock { IfOk result (λ lock. lock ≡ asked_lock path.now (option_copied principal.entry) (option_copied owner.entry) timeout shared deep token.now now) }
        ensures granted { IfOk result (λ lock. AddsLock lock (seen self.old) (seen self.new)) }
        ensures err { OnErr result (seen self.new ≡ seen self.old) }
        ensures cause { IfErr result (RefusesLock (seen self.old) (asked_lock path.now (option_copied principal.entry) (option_copied owner.entry) timeout shared deep token.now now)) };

    /// Removes the lock with this token, if its path is this path or above it (RFC 4918, section 9.11). The
    /// lock need not be deep.
    ///
    /// `NotFound`: there is no such lock. `Failed`: `unlock` is not reliable, or there is no such lock.
    fn unlock(&mut self, path: &DavPath, token: &str) -> Result<(), LockError>
        ensures removed { OnOk result (RemovesLock path.now.key token.now (seen self.old) (seen self.new)) }
        ensures err { OnErr result (seen self.new ≡ seen self.old) }
        ensures cause { IfErr result (RefusesUnlock path.now.key token.now (seen self.old)) };

    /// Gives the lock with this token a timeout that begins at `now`, and returns a copy of the lock (RFC
    /// 4918, section 9.10.2). The lock is found as in `unlock`.
    ///
    /// `NotFound`: there is no such lock. The only other error is `Memory`.
    fn refresh(
        &mut self,
        path: &DavPath,
        token: &str,
        timeout: Option<u64>,
        now: u64,
    ) -> Result<DavLock, LockError>
        ensures refreshed { IfOk result (λ lock. RefreshesLock path.now.key token.now timeout now lock (seen self.old) (seen self.new)) }
        ensures err { OnErr result (seen self.new ≡ seen self.old) }
        ensures cause { IfErr result (RefusesRefresh path.now.key token.now (seen self.old)) };

    /// Returns copies of the locks that cover the path, in the order of the list (RFC 4918, section 15.8).
    /// The only error is `Memory`.
    fn discover(&self, path: &DavPath) -> Result<Items<DavLock>, LockError>
        ensures ok { IfOk result (λ locks. locks ≡ covering (seen self.now).list path.now.key) }
        ensures err { IfErr result (λ e. e ≡ LockError.Memory) };

    /// Removes the locks at and below the path. `Failed`: `delete` is not reliable. There is no other error.
    fn delete(&mut self, path: &DavPath) -> Result<(), LockError>
        ensures removed { OnOk result (RemovesLocks path.now.key (seen self.old) (seen self.new)) }
        ensures err { OnErr result (seen self.new ≡ seen self.old) }
        ensures cause { IfErr result (RefusesDelete (seen self.old)) };

    /// No two locks have the same token.
    ghost distinct: { (locks : Self) → HasDistinctTokens (seen locks).list };
}
