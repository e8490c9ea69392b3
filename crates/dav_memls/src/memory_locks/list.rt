//! Whether the locks allow a request, and whether a lock is granted.
ghost use Rattle.std.specs.Prelude.{◌≡◌, ◌&&◌, ◌||◌};
ghost use Rattle.std.specs.List.{filter, list_all, list_any};
ghost use Rattle.dav_store.specs.Locks.{covers, covering, at_or_below, has_token, permits_at, conflicts, grants, AreCompatible};
ghost use Rattle.dav_memls.specs.IndexedLocks.{locks_in};
ghost use Rattle.dav_memls.specs.Submitted.{is_from, passes};

use super::index::Register;
use super::indexed::IndexedLocks;
use super::submitted::Submitted;
use dav_resource::DavPath;
use dav_store::DavLock;

// ---- whether the locks permit a request

/// Whether the locks that cover the path allow a request. An exclusive lock that covers a path is the only
/// one that covers it, so one covering lock decides. If it is exclusive, it must be submitted. If it is
/// shared, some lock that covers the path must be.
pub fn permits_at(locks: &IndexedLocks, path: &DavPath, submitted: &Submitted) -> bool
    requires { AreCompatible (locks_in locks.now) }
    ensures { result ≡ permits_at (covering (locks_in locks.now) path.now.key) (passes submitted.now) }
{
    let Some(lock) = locks.some_covering(path) else {
        return true;
    };
    if lock.shared {
        one_is_submitted(locks, path, submitted)
    } else {
        submitted.has(lock)
    }
}

/// Whether each lock at or below the path is submitted.
pub fn permits_below(locks: &IndexedLocks, path: &DavPath, submitted: &Submitted) -> bool
    ensures { result ≡ list_all (passes submitted.now) (at_or_below (locks_in locks.now) path.now.key) }
{
    !locks.any_below(Register::All, path, |lock| !submitted.has(lock))
}

/// Whether a lock that covers the path is submitted. It makes one lookup for each token, however many locks
/// exist.
fn one_is_submitted(locks: &IndexedLocks, path: &DavPath, submitted: &Submitted) -> bool
    ensures { result ≡ list_any (passes submitted.now) (covering (locks_in locks.now) path.now.key) }
{
    submitted
        .tokens()
        .iter()
        .any(|token| lets_on(locks, path, submitted, token.as_str()))
}

/// Whether the lock with this token covers the path and its principal is that of the request or is ignored.
fn lets_on(locks: &IndexedLocks, path: &DavPath, submitted: &Submitted, token: &str) -> bool
    ensures { result ≡ list_any (λ lock. covers lock path.now.key && is_from submitted.now lock) (filter (has_token token.now) (locks_in locks.now)) }
{
    match locks.with_token(token) {
        Some(lock) => lock.covers(path) && submitted.is_from(lock),
        None => false,
    }
}

// ---- whether a lock is granted

/// Whether the lock can be granted beside these locks.
pub fn grants(locks: &IndexedLocks, lock: &DavLock) -> bool
    requires { AreCompatible (locks_in locks.now) }
    ensures { result ≡ grants (locks_in locks.now) lock.now }
{
    !locks.has_token(lock.token.as_str())
        && !conflicts_above(locks, lock)
        && !(lock.deep && conflicts_below(locks, lock))
}

/// Whether the lock conflicts with a lock that covers its path. It conflicts with all of these or with none,
/// so it is enough to find one.
fn conflicts_above(locks: &IndexedLocks, lock: &DavLock) -> bool
    requires { AreCompatible (locks_in locks.now) }
    ensures { result ≡ list_any (conflicts lock.now) (covering (locks_in locks.now) lock.now.path.key) }
{
    match locks.some_covering(&lock.path) {
        Some(other) => lock.conflicts(other),
        None => false,
    }
}

/// Whether the lock conflicts with a lock at or below its path. A shared lock conflicts with exclusive ones,
/// and an exclusive lock with all.
fn conflicts_below(locks: &IndexedLocks, lock: &DavLock) -> bool
    ensures { result ≡ list_any (conflicts lock.now) (at_or_below (locks_in locks.now) lock.now.path.key) }
{
    let register = if lock.shared {
        Register::Exclusive
    } else {
        Register::All
    };
    locks.any_below(register, &lock.path, |other| lock.conflicts(other))
}
