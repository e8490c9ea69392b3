//! Locks on resources (RFC 4918, section 6).
ghost use Rattle.std.specs.Prelude.{◌≡◌, IfOk, bytes_eq};
ghost use Rattle.std.specs.List.{list_any};
ghost use Rattle.std.specs.Option.{option_copied, option_eq};
ghost use Rattle.dav_store.specs.Locks.{covers, is_at_or_below, is_submitted, conflicts, has_token};
ghost use Rattle.dav_store.specs.LockCalls.{timeout_end, is_named, refreshed};

use dav_resource::{DavPath, Element, Text};
use std::alloc::{AllocError, AllocFailed};
use thiserror::Error;

/// A write lock (RFC 4918, section 7). It covers the key of its path and, if it is deep, all keys below that.
#[derive(Drop, Debug)]
pub struct DavLock {
    /// The lock token (RFC 4918, section 6.5).
    pub token: Text,
    /// The path that was locked (RFC 4918, section 14.12).
    pub path: DavPath,
    /// The principal that created the lock, if it is known.
    pub principal: Option<Text>,
    /// The `owner` element, with what the client says about the lock's creator (RFC 4918, section 14.17).
    pub owner: Option<Element>,
    /// The timeout in seconds (RFC 4918, section 10.7). `None` means no timeout.
    pub timeout: Option<u64>,
    /// When the timeout ends, in whole seconds since 1970 and at most `u64::MAX`.
    pub timeout_at: Option<u64>,
    /// Whether the lock is shared, which allows other shared locks beside it (RFC 4918, section 6.2).
    pub shared: bool,
    /// Whether the lock also covers all keys below its own (RFC 4918, section 7.4).
    pub deep: bool,
}

impl DavLock {
    /// Returns a copy of the lock. Fails only if memory runs out.
    pub fn clone(&self) -> Result<DavLock, AllocError>
        ensures { IfOk result (λ copy. copy ≡ self.now) }
    {
        Ok(DavLock {
            token: self.token.clone()?,
            path: self.path.clone()?,
            principal: clone_principal(self.principal.as_ref())?,
            owner: clone_owner(self.owner.as_ref())?,
            timeout: self.timeout,
            timeout_at: self.timeout_at,
            shared: self.shared,
            deep: self.deep,
        })
    }

    /// Whether the lock covers the path.
    pub fn covers(&self, path: &DavPath) -> bool
        ensures { result ≡ covers self.now path.now.key }
    {
        if self.deep {
            path.is_at_or_below(&self.path)
        } else {
            path.same_key(&self.path)
        }
    }

    /// Whether the lock's own path is at or below this path.
    pub fn is_at_or_below(&self, path: &DavPath) -> bool
        ensures { result ≡ is_at_or_below self.now.path.key path.now.key }
    {
        self.path.is_at_or_below(path)
    }

    /// Whether the lock's token is one of these and its principal is this one. With `ignore_principal` the
    /// token suffices.
    pub fn is_submitted(
        &self,
        principal: Option<&str>,
        ignore_principal: bool,
        tokens: &[Text],
    ) -> bool
        ensures { result ≡ is_submitted (option_copied principal.entry) ignore_principal tokens.now self.now }
    {
        self.is_among(tokens) && (ignore_principal || is_text(self.principal.as_ref(), principal))
    }

    /// Whether the lock's token is one of these.
    fn is_among(&self, tokens: &[Text]) -> bool
        ensures { result ≡ list_any (bytes_eq self.now.token) tokens.now }
    {
        tokens
            .iter()
            .any(|token| self.token.as_str() == token.as_str())
    }

    /// Whether the two locks conflict: they do unless both are shared.
    pub fn conflicts(&self, other: &DavLock) -> bool
        ensures { result ≡ conflicts self.now other.now }
    {
        !(self.shared && other.shared)
    }

    /// Whether the lock has this token.
    pub fn has_token(&self, token: &str) -> bool
        ensures { result ≡ has_token token.now self.now }
    {
        token == self.token.as_str()
    }

    /// Whether the lock has this token and its own path is this path or above it.
    pub fn is_named(&self, path: &DavPath, token: &str) -> bool
        ensures { result ≡ is_named path.now.key token.now self.now }
    {
        self.has_token(token) && path.is_at_or_below(&self.path)
    }

    /// Gives the lock a timeout that begins at `now`.
    pub fn refresh(&mut self, timeout: Option<u64>, now: u64)
        ensures { self.new ≡ refreshed timeout now self.old }
    {
        self.timeout = timeout;
        self.timeout_at = timeout_end(now, timeout);
    }
}

/// Returns when a timeout that begins at `now` ends, at most `u64::MAX`. Without a timeout it returns `None`.
pub fn timeout_end(now: u64, timeout: Option<u64>) -> Option<u64>
    ensures { result ≡ timeout_end now timeout }
{
    timeout.map(|seconds| now.saturating_add(seconds))
}

/// Whether both are `None`, or both are the same string.
fn is_text(text: Option<&Text>, other: Option<&str>) -> bool
    ensures { result ≡ option_eq bytes_eq (option_copied text.entry) (option_copied other.entry) }
{
    match (text, other) {
        (Some(text), Some(other)) => text.as_str() == other,
        (None, None) => true,
        _ => false,
    }
}

/// Returns a copy of the principal, if there is one. Fails only if memory runs out.
fn clone_principal(principal: Option<&Text>) -> Result<Option<Text>, AllocError>
    ensures { IfOk result (λ copy. copy ≡ option_copied principal.entry) }
{
    match principal {
        Some(principal) => Ok(Some(principal.clone()?)),
        None => Ok(None),
    }
}

/// Returns a copy of the owner, if there is one. Fails only if memory runs out.
pub fn clone_owner(owner: Option<&Element>) -> Result<Option<Element>, AllocError>
    ensures { IfOk result (λ copy. copy ≡ option_copied owner.entry) }
{
    match owner {
        Some(owner) => Ok(Some(owner.clone()?)),
        None => Ok(None),
    }
}

/// Why a call of a lock system failed.
#[derive(Clone, Copy, Debug, PartialEq, Eq, Error)]
pub enum LockError {
    /// The lock conflicts with another one, or its token is in use.
    #[error("a lock conflicts")]
    Conflict,
    /// No lock at or above the path has the token.
    #[error("no such lock")]
    NotFound,
    /// The lock system failed.
    #[error("the lock system failed")]
    Failed,
    /// Memory ran out, and nothing changed.
    #[error("out of memory")]
    Memory,
}

/// A failed allocation becomes `LockError::Memory`.
impl From<AllocError> for LockError {
    ghost use Rattle.dav_store.specs.declared.lock.LockError.TheVariants.{Memory};

    ghost from_gives = { λ _ e. e ≡ Memory };

    fn from(_: AllocError) -> LockError {
        LockError::Memory
    }
}

/// A failed allocation becomes `LockError::Memory`.
impl<T: Drop> From<AllocFailed<T>> for LockError {
    ghost use Rattle.dav_store.specs.declared.lock.LockError.TheVariants.{Memory};

    ghost from_gives = { λ _ e. e ≡ Memory };

    fn from(_: AllocFailed<T>) -> LockError {
        LockError::Memory
    }
}
