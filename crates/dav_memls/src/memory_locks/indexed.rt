//! Locks by number, with an index.
ghost use Rattle.std.specs.Prelude.{◌≡◌, ◌≤◌, ◌^◌, ℕ, true, false, [], ◌∷◌, ◌++◌, ◌↔◌, length, None, IfOk, IfSome, IsTrue, MatchOption, OnOk, OnErr};
ghost use Rattle.std.specs.BTreeMap.{IsOrdered};
ghost use Rattle.std.specs.List.{filter, find, list_any};
ghost use Rattle.std.specs.List.Sorted.{IsStrictlySortedBy-prop};
ghost use Rattle.std.specs.Map.{keys_of};
ghost use Rattle.std.specs.Option.{option_copied, option_to_list};
ghost use Rattle.std.specs.Ordering.{nat_cmp};
ghost use Rattle.std.proofs.Props.{props};
ghost use Rattle.dav_key.specs.Flat.{segments_of, IsFlatText};
ghost use Rattle.dav_store.specs.declared.lock.DavLock.{DavLock};
ghost use Rattle.dav_store.specs.Locks.{has_token, covers, covering, at_or_below};
ghost use Rattle.dav_store.specs.Members.{IsIn};
ghost use Rattle.dav_memls.specs.Numbers.{IsAbove};
ghost use Rattle.dav_memls.specs.KeyEntries.{listed};
ghost use Rattle.dav_memls.specs.Expiry.{unexpired, earliest_expiry};
ghost use Rattle.dav_memls.specs.LockIndex.{IsIndexed, among, are_within, is_of_key, lock_of, locks_of_numbers, numbers_of, locks_without, locks_refreshed, IsAnyBy, IsAnyAmong, StandsBelow, HasExpired, HasNumbers, AddsNumbers};

use super::index::{LockIndex, Register};
use super::key_text;
use super::numbers::Numbers;
use dav_resource::DavPath;
use dav_store::{DavLock, timeout_end};
use std::alloc::{AllocError, Global};
use std::collections::btree_map::Values;
use std::collections::{BTreeMap, BTreeSet};

/// Locks by number, with an index that finds the numbers by token, by key and by the time when a lock
/// expires. A newer lock has a greater number, and a lock keeps its number while it exists. To find, change
/// or remove the lock of a number takes as many comparisons of numbers as the logarithm of the number of
/// locks. Lookups above a path end at the length of the longest path ever locked: the text of each lock's own
/// key is shorter than `reach`.
#[derive(Debug, Drop)]
pub struct IndexedLocks {
    locks: BTreeMap<u64, DavLock>,
    index: LockIndex,
    alloc: Global,
    reach: usize,
    ghost ordered: { IsOrdered nat_cmp locks } by { Prim.hlevel (props, IsStrictlySortedBy-prop) },
    ghost indexed: { IsIndexed index locks.entries } by { Prim.hlevel props },
    ghost reached: { are_within reach locks.entries ≡ true } by { Prim.hlevel props },
}

impl IndexedLocks {
    ghost use Rattle.dav_memls.specs.IndexedLocks.{locks_in, FindsNamed};

    /// Creates an empty list of locks.
    pub fn new(alloc: Global) -> IndexedLocks
        ensures { locks_in result ≡ [] }
    {
        IndexedLocks {
            locks: BTreeMap::new(alloc),
            index: LockIndex::new(alloc),
            alloc,
            reach: 0,
        }
    }

    /// Returns the locks, the oldest first.
    pub fn values(&self) -> Values<'_, u64, DavLock>
        ensures { result ≡ locks_in self.now }
    {
        self.locks.values()
    }

    /// Returns the number of locks.
    pub fn len(&self) -> usize
        ensures { result ≡ length (locks_in self.now) }
    {
        self.locks.len()
    }

    /// Whether there are no locks.
    pub fn is_empty(&self) -> bool
        ensures { IsTrue result ↔ (locks_in self.now ≡ []) }
    {
        self.locks.is_empty()
    }

    /// Returns the allocator of the locks.
    pub fn allocator(&self) -> Global {
        self.alloc
    }

    // ---- lookups

    /// Whether a lock has this token. It makes one lookup in the index.
    pub fn has_token(&self, token: &str) -> bool
        ensures { result ≡ list_any (has_token token.now) (locks_in self.now) }
    {
        self.index.number(token).is_some()
    }

    /// Returns the lock with this token and its number, if its own path is this path or above it. It makes
    /// one lookup in the index.
    pub fn named(&self, path: &DavPath, token: &str) -> Option<(u64, &DavLock)>
        ensures { FindsNamed path.now.key token.now self.now result }
    {
        let number = self.index.number(token)?;
        let lock = self.of_number(number)?;
        if lock.is_named(path, token) {
            Some((number, lock))
        } else {
            None
        }
    }

    /// Returns the lock with this token. It makes one lookup in the index.
    pub fn with_token(&self, token: &str) -> Option<&DavLock>
        ensures { option_to_list (option_copied result) ≡ filter (has_token token.now) (locks_in self.now) }
    {
        let number = self.index.number(token)?;
        self.of_number(number)
    }

    /// Returns the earliest time at which a lock expires, if one does. It reads the index once.
    pub fn next_expiry(&self) -> Option<u64>
        ensures { result ≡ earliest_expiry (locks_in self.now) }
    {
        let (at, _) = self.index.first_expiry()?;
        Some(at)
    }

    /// Returns the number of a lock that has expired at this time, if there is one. It reads the index once.
    fn expired(&self, now: u64) -> Option<u64>
        ensures { MatchOption result (unexpired now (locks_in self.now) ≡ locks_in self.now) (HasExpired now self.now.locks.entries) }
    {
        let (at, number) = self.index.first_expiry()?;
        if at <= now { Some(number) } else { None }
    }

    /// Returns a lock that covers the path, if there is one: the oldest at the path, or else the oldest deep
    /// one at the first path above it, from the root down, that has one. It makes one lookup in the index for
    /// each path that it tries.
    pub fn some_covering(&self, path: &DavPath) -> Option<&DavLock>
        ensures { MatchOption result (covering (locks_in self.now) path.now.key ≡ []) (λ lock. IsIn lock.now (covering (locks_in self.now) path.now.key)) }
    {
        let key = key_text::of(path);
        if let Some(lock) = self.first_at(Register::All, key) {
            return Some(lock);
        }
        for end in 0..key.len().min(self.reach) {
            if let Some(above) = key_text::above(key, end) {
                if let Some(lock) = self.first_at(Register::Deep, above) {
                    return Some(lock);
                }
            }
        }
        None
    }

    /// Returns the oldest lock of the register whose own key has this text. It makes one lookup in the index.
    fn first_at(&self, register: Register, key: &str) -> Option<&DavLock>
        requires { IsFlatText key.now }
        ensures { option_copied result ≡ find (among register (is_of_key (segments_of key.now))) (locks_in self.now) }
    {
        let number = self.index.at(register, key)?.first()?;
        self.of_number(number)
    }

    /// Whether a lock of the register, at or below the path, passes the test. It makes one lookup in the
    /// index, and tests these locks.
    pub fn any_below<F: Fn(&DavLock) -> bool>(
        &self,
        register: Register,
        path: &DavPath,
        test: F,
    ) -> bool
        requires { F.IsAlwaysCallable test }
        ensures { IsAnyAmong (F.post test) register (at_or_below (locks_in self.now) path.now.key) result }
    {
        let key = key_text::shared(path);
        for (own, numbers) in self.index.run(register, key) {
            if !key_text::is_at_or_below(own.as_str(), key.as_str()) {
                break;
            }
            if self.any_of(numbers, &test) {
                return true;
            }
        }
        false
    }

    /// Returns the number of a lock at or below the path, if there is one. The search is that of `any_below`.
    /// The lock is the oldest at the first key that has one, which no contract promises.
    pub fn some_below(&self, path: &DavPath) -> Option<u64>
        ensures { MatchOption result (at_or_below (locks_in self.now) path.now.key ≡ []) (StandsBelow path.now.key self.now.locks.entries) }
    {
        let key = key_text::shared(path);
        for (own, numbers) in self.index.run(Register::All, key) {
            if !key_text::is_at_or_below(own.as_str(), key.as_str()) {
                break;
            }
            if let Some(number) = numbers.first() {
                return Some(number);
            }
        }
        None
    }

    /// Whether a lock with one of these numbers passes the test.
    fn any_of<F: Fn(&DavLock) -> bool>(&self, numbers: &Numbers, test: &F) -> bool
        requires { F.IsAlwaysCallable test.now }
        ensures { IsAnyBy (F.post test.now) (locks_of_numbers numbers.now.set.keys self.now.locks.entries) result }
    {
        for number in numbers.iter() {
            if let Some(lock) = self.of_number(*number) {
                if test(lock) {
                    return true;
                }
            }
        }
        false
    }

    /// Returns the lock of this number.
    fn of_number(&self, number: u64) -> Option<&DavLock>
        ensures { option_copied result ≡ lock_of number self.now.locks.entries }
    {
        self.locks.get(&number)
    }

    // ---- the locks that cover a path

    /// Returns copies of the locks that cover the path, the oldest first. It makes one lookup in the index
    /// for the path and for each path above it, and sorts the numbers found.
    pub fn covering(&self, path: &DavPath) -> Result<Vec<DavLock>, AllocError>
        ensures { IfOk result (λ copies. copies.items ≡ covering (locks_in self.now) path.now.key) }
    {
        let found = self.covering_numbers(path)?;
        let mut copies = Vec::new(self.allocator());
        for number in &found {
            if let Some(lock) = self.of_number(*number) {
                copies.push(lock.clone()?)?;
            }
        }
        Ok(copies)
    }

    /// Returns the numbers of the locks that cover the path: all locks at the path, and the deep ones above
    /// it.
    fn covering_numbers(&self, path: &DavPath) -> Result<BTreeSet<u64>, AllocError>
        ensures { IfOk result (λ found. HasNumbers found (numbers_of (λ lock. covers lock path.now.key) self.now.locks.entries)) }
    {
        let key = key_text::of(path);
        let mut found = BTreeSet::new(self.allocator());
        add(&mut found, self.index.at(Register::All, key))?;
        for end in 0..key.len().min(self.reach) {
            if let Some(above) = key_text::above(key, end) {
                add(&mut found, self.index.at(Register::Deep, above))?;
            }
        }
        Ok(found)
    }

    // ---- changes

    /// Adds a lock as the newest one. Its token must not be in use. Fails only if memory runs out or no
    /// greater `u64` is left for its number, and then nothing changes.
    pub fn push(&mut self, lock: DavLock) -> Result<(), AllocError>
        requires { list_any (has_token lock.token) (locks_in self.old) ≡ false }
        ensures ok { OnOk result (locks_in self.new ≡ locks_in self.old ++ lock ∷ []) }
        ensures err { OnErr result (locks_in self.new ≡ locks_in self.old) }
    {
        let alloc = self.allocator();
        let Some(number) = self.next_number() else {
            return Err(AllocError);
        };
        self.index.enter(alloc, &lock, number)?;
        self.reach = self.reach.max(key_text::of(&lock.path).len() + 1);
        if let Err(refused) = self.locks.insert(number, lock) {
            let (_, lock) = refused.value;
            self.index.leave(&lock, number);
            return Err(AllocError);
        }
        Ok(())
    }

    /// Returns a number greater than those of all locks, or `None` if no `u64` is.
    fn next_number(&self) -> Option<u64>
        ensures above { IfSome result (λ n. IsAbove n (keys_of self.now.locks.entries)) }
        ensures full { result ≡ None → (n : ℕ) → IsAbove n (keys_of self.now.locks.entries) → 2 ^ 64 ≤ n }
    {
        match self.locks.last_key_value() {
            Some((last, _)) => last.checked_add(1),
            None => Some(0),
        }
    }

    /// Removes the lock of a number, if there is one.
    pub fn remove(&mut self, number: u64)
        ensures { locks_in self.new ≡ locks_without number self.old.locks.entries }
    {
        if let Some(lock) = self.locks.remove(&number) {
            self.index.leave(&lock, number);
        }
    }

    /// Removes each lock that has expired at this time. The other locks stay, in the same order.
    pub fn expire(&mut self, now: u64)
        ensures { locks_in self.new ≡ unexpired now (locks_in self.old) }
    {
        while let Some(number) = self.expired(now) {
            self.remove(number);
        }
    }

    /// Gives the lock of a number, if there is one, a timeout that begins at `now`. Fails only if memory runs
    /// out, and then nothing changes.
    pub fn refresh(&mut self, number: u64, timeout: Option<u64>, now: u64) -> Result<(), AllocError>
        ensures ok { OnOk result (locks_in self.new ≡ locks_refreshed number timeout now self.old.locks.entries) }
        ensures err { OnErr result (locks_in self.new ≡ locks_in self.old) }
    {
        if let Some(lock) = self.locks.get_mut(&number) {
            self.index
                .refresh(number, lock.timeout_at, timeout_end(now, timeout))?;
            lock.refresh(timeout, now);
        }
        Ok(())
    }
}

/// Adds the numbers at a key, if it has any, to those found. Fails only if memory runs out.
fn add(found: &mut BTreeSet<u64>, numbers: Option<&Numbers>) -> Result<(), AllocError>
    ensures { OnOk result (AddsNumbers (listed (option_copied numbers.entry)) found.old found.new) }
{
    if let Some(numbers) = numbers {
        found.extend(numbers.iter())?;
    }
    Ok(())
}
