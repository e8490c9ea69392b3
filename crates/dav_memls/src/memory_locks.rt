//! A lock system in memory.
ghost use Rattle.std.specs.Prelude.{◌≡◌, ◌↔◌, false, [], length, IsTrue, IfOk, IfErr, OnOk, OnErr};
ghost use Rattle.std.specs.List.{find};
ghost use Rattle.std.specs.Option.{option_copied};
ghost use Rattle.dav_memls.specs.IndexedLocks.{locks_in};
ghost use Rattle.dav_memls.specs.Expiry.{unexpired, earliest_expiry};
ghost use Rattle.dav_store.specs.Locks.{AreCompatible, has_token};
ghost use Rattle.dav_store.specs.LockCalls.{HasDistinctTokens, RemovesLock, has_named, RemovesLocks};
ghost use Rattle.std.proofs.Props.{props};
ghost use Rattle.std.specs.List.{IsDistinct-prop};

mod by_key;
mod expiries;
mod index;
mod indexed;
mod key_text;
mod list;
mod numbers;
mod submitted;

use dav_resource::{DavPath, Element, Items, Text};
use dav_store::{DavLock, DavLockSystem, LockError, clone_owner, timeout_end};
use indexed::IndexedLocks;
use std::alloc::{AllocError, Global};
use std::collections::btree_map::Values;
use submitted::Submitted;

/// A lock system in memory. Its `unlock` and `delete` are reliable: neither fails when memory runs out. Nor
/// do `check` and `expire`.
///
/// The locks are stored in these maps:
///
/// - A hash map finds the number of a lock by its token.
/// - Three maps find the numbers of the locks at a path: one of all locks, one of the deep and one of the
///   exclusive locks. They are ordered by path, segment by segment.
/// - A set, ordered by time, has the number of each lock that has a timeout, beside the time when it expires.
/// - A map, ordered by the numbers, finds a lock by its number.
///
/// A lookup of a path takes as many comparisons of paths as the logarithm of the number of locked paths. A
/// lookup of a number or of a time takes as many comparisons as the logarithm of the number of locks. Except
/// for these logarithms, the cost of a call does not depend on how many locks exist elsewhere. No lookup
/// allocates memory.
///
/// - `check` and `lock` look up any lock at the path, and then a deep lock at each path above it, from the
///   root down, until they find one that covers the path. One lock decides, because an exclusive lock that
///   covers a path is the only lock that covers it. If that lock is shared, `check` looks up the tokens.
/// - A deep `lock` makes one lookup below the path. A deep `check` tests each lock at or below the path until
///   one is not submitted.
/// - `check` sorts the tokens if there are many. Without memory for that it is only slower.
/// - `discover` looks up the path and each path above it, and copies the locks that cover the path.
/// - `unlock`, `refresh` and `with_token` look up the token.
/// - `delete` makes one lookup below the path for each lock that it removes, in no promised order.
/// - `next_expiry` reads the first entry of the set of times, without a comparison. `expire` reads it once,
///   and once more for each lock that it removes.
///
/// Lookups above a path end at the length of the longest path ever locked. `unlock`, `delete` and `expire` do
/// not change the numbers of other locks.
///
/// `lock`, `refresh` and `discover` return `Memory` if memory runs out, and then nothing changes. `lock`
/// allocates memory for the lock, for a second copy of its token, for its number in each map that has it and
/// in the set of times. The maps of paths share the text of its path. Each new lock gets the number after that
/// of the newest lock. If that number does not fit in 64 bits, `lock` returns `Memory`. `refresh` allocates
/// memory for the copy that it returns, and for the lock's new entry in the set of times, if the time changes.
#[derive(Debug, Drop)]
pub struct MemLs {
    locks: IndexedLocks,
    ghost distinct_tokens: { HasDistinctTokens (locks_in locks) } by { Prim.hlevel (props, IsDistinct-prop) },
    ghost compatible: { AreCompatible (locks_in locks) } by { Prim.hlevel props },
}

impl MemLs {
    ghost use Rattle.dav_memls.specs.MemLs.{list_of, locks_of};
    ghost use Rattle.dav_store.specs.LockCalls.{AddsLock, RefusesLock};

    /// Creates a lock system without locks.
    pub fn new(alloc: Global) -> MemLs
        ensures { list_of result ≡ [] }
    {
        MemLs {
            locks: IndexedLocks::new(alloc),
        }
    }

    /// Returns the locks, the oldest first. If one of two locks covers the path of the other, both are shared
    /// (RFC 4918, section 6.2).
    pub fn locks(&self) -> Values<'_, u64, DavLock>
        ensures value { result ≡ list_of self.now }
        ensures compatible { AreCompatible (list_of self.now) }
    {
        self.locks.values()
    }

    /// Returns copies of the locks, the oldest first. The only error is `Memory`.
    pub fn all(&self) -> Result<Items<DavLock>, LockError>
        ensures ok { IfOk result (λ locks. locks ≡ list_of self.now) }
        ensures err { IfErr result (λ e. e ≡ LockError.Memory) }
    {
        let mut copies = Vec::new(self.locks.allocator());
        for lock in self.locks() {
            copies.push(lock.clone()?)?;
        }
        Ok(Items::from_vec(copies))
    }

    /// Returns the number of locks.
    pub fn len(&self) -> usize
        ensures { result ≡ length (list_of self.now) }
    {
        self.locks.len()
    }

    /// Whether there are no locks.
    pub fn is_empty(&self) -> bool
        ensures { IsTrue result ↔ (list_of self.now ≡ []) }
    {
        self.locks.is_empty()
    }

    /// Returns the lock with this token, if there is one. It looks up the token once.
    pub fn with_token(&self, token: &str) -> Option<&DavLock>
        ensures { option_copied result ≡ find (has_token token.now) (list_of self.now) }
    {
        self.locks.with_token(token)
    }

    /// Returns the earliest time at which a lock expires, in whole seconds since 1970: the least `timeout_at`
    /// of all locks. Returns `None` if no lock has a timeout. It reads the first entry of the set of times.
    pub fn next_expiry(&self) -> Option<u64>
        ensures { result ≡ earliest_expiry (list_of self.now) }
    {
        self.locks.next_expiry()
    }

    /// Adds a lock at the end of the list, such as one that was granted in an earlier run. After an error nothing
    /// has changed. `Conflict`: the token is in use, or the lock conflicts with another one, as in `lock`. The only
    /// other error is `Memory`.
    pub fn add(&mut self, lock: DavLock) -> Result<(), LockError>
        ensures granted { OnOk result (AddsLock lock (locks_of self.old) (locks_of self.new)) }
        ensures err { OnErr result (locks_of self.new ≡ locks_of self.old) }
        ensures cause { IfErr result (RefusesLock (locks_of self.old) lock) }
    {
        if !list::grants(&self.locks, &lock) {
            return Err(LockError::Conflict);
        }
        self.locks.push(lock)?;
        Ok(())
    }

    /// Removes each lock that has expired: whose `timeout_at` is `now` or earlier. `now` is in whole seconds
    /// since 1970. The other locks stay, in the same order. It allocates no memory. If no lock has expired,
    /// it only reads the first entry of the set of times.
    pub fn expire(&mut self, now: u64)
        ensures { list_of self.new ≡ unexpired now (list_of self.old) }
    {
        self.locks.expire(now);
    }
}

impl DavLockSystem for MemLs {
    ghost use Rattle.dav_memls.specs.MemLs.{list_of, locks_of};

    ghost seen = { locks_of };

    ghost distinct = { λ system. system.distinct_tokens };

    fn check(
        &self,
        path: &DavPath,
        principal: Option<&str>,
        ignore_principal: bool,
        deep: bool,
        tokens: &[Text],
    ) -> bool {
        let submitted = Submitted::new(self.locks.allocator(), principal, ignore_principal, tokens);
        list::permits_at(&self.locks, path, &submitted)
            && (!deep || list::permits_below(&self.locks, path, &submitted))
    }

    fn lock(
        &mut self,
        path: &DavPath,
        principal: Option<&str>,
        owner: Option<&Element>,
        timeout: Option<u64>,
        shared: bool,
        deep: bool,
        token: &str,
        now: u64,
    ) -> Result<DavLock, LockError> {
        let alloc = self.locks.allocator();
        let lock = DavLock {
            token: Text::from_string(String::from_str(alloc, token)?),
            path: path.clone()?,
            principal: copy_principal(alloc, principal)?,
            owner: clone_owner(owner)?,
            timeout,
            timeout_at: timeout_end(now, timeout),
            shared,
            deep,
        };
        let copy = lock.clone()?;
        self.add(lock)?;
        Ok(copy)
    }

    fn unlock(&mut self, path: &DavPath, token: &str) -> Result<(), LockError>
        ensures removed { OnOk result (RemovesLock path.now.key token.now (locks_of self.old) (locks_of self.new)) }
        ensures err { OnErr result (locks_of self.new ≡ locks_of self.old) }
        ensures cause { IfErr result (λ e. (e ≡ LockError.NotFound) × (has_named path.now.key token.now (list_of self.old) ≡ false)) }
    {
        let Some((number, _)) = self.locks.named(path, token) else {
            return Err(LockError::NotFound);
        };
        self.locks.remove(number);
        Ok(())
    }

    fn refresh(
        &mut self,
        path: &DavPath,
        token: &str,
        timeout: Option<u64>,
        now: u64,
    ) -> Result<DavLock, LockError> {
        let Some((number, lock)) = self.locks.named(path, token) else {
            return Err(LockError::NotFound);
        };
        let mut copy = lock.clone()?;
        copy.refresh(timeout, now);
        self.locks.refresh(number, timeout, now)?;
        Ok(copy)
    }

    fn discover(&self, path: &DavPath) -> Result<Items<DavLock>, LockError> {
        let found = self.locks.covering(path)?;
        Ok(Items::from_vec(found))
    }

    fn delete(&mut self, path: &DavPath) -> Result<(), LockError>
        ensures removed { RemovesLocks path.now.key (locks_of self.old) (locks_of self.new) }
        ensures ok { result ≡ Ok tt }
    {
        while let Some(below) = self.locks.some_below(path) {
            self.locks.remove(below);
        }
        Ok(())
    }
}

/// Returns a copy of the principal, if there is one. Fails only if memory runs out.
fn copy_principal(alloc: Global, principal: Option<&str>) -> Result<Option<Text>, AllocError>
    ensures { IfOk result (λ copy. copy ≡ option_copied principal.entry) }
{
    match principal {
        Some(principal) => Ok(Some(Text::from_string(String::from_str(alloc, principal)?))),
        None => Ok(None),
    }
}
