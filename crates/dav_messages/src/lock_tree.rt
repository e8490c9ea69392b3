//! XML elements that describe locks (RFC 4918, sections 14.1 to 14.13, 15.8 and 15.10).
ghost use Rattle.std.specs.Prelude.{◌≡◌, IfOk, IfErr, option_copied, string_bytes};
ghost use Rattle.dav_resource.specs.declared.error.DavError.TheVariants.{Memory};
ghost use Rattle.dav_resource.specs.declared.profile.Profile.TheVariants.{Crate};
ghost use Rattle.dav_messages.specs.Conditions.{locks_in};
ghost use Rattle.dav_messages.specs.LockTree.{lock_scope as scope_of_lock, lock_type as type_of_lock, depth_text as text_of_depth, timeout_text as text_of_timeout, token_element as element_of_token, lock_root as element_of_root, active_lock as tree_of_lock, lock_discovery as tree_of_locks, covering_in, lock_prop as shown_lock, lock_entry as entry_of_scope, supported_lock as tree_of_entries};

use crate::dav_element::{declaring_element, href_element, outer_element, text_element};
use dav_resource::{DavError, DavPath, DavResult, Element, ElementName, LiveName, Profile, Text};
use dav_store::{DavLock, DavLockSystem};
use std::alloc::{AllocError, Global};

/// Returns the XML that describes a lock (RFC 4918, sections 9.10.1, 14.1 and 15.8). With `full`, as in the
/// response to LOCK, it is a `D:prop` that declares the prefix and holds the property `D:lockdiscovery` with
/// this lock only. Otherwise it is only the lock's `D:activelock`. The profile is `Crate`. The only error is `Memory`.
pub fn build_lock_prop(alloc: Global, lock: &DavLock, full: bool) -> DavResult<Element>
    ensures ok { IfOk result (λ tree. tree ≡ shown_lock Crate lock.now full) }
    ensures err { IfErr result (λ e. e ≡ Memory) }
{
    lock_prop(alloc, Profile::Crate, lock, full)
}

/// Returns the XML that describes a lock, as [`build_lock_prop`] does, in this profile.
pub fn lock_prop(alloc: Global, profile: Profile, lock: &DavLock, full: bool) -> DavResult<Element>
    ensures ok { IfOk result (λ tree. tree ≡ shown_lock profile lock.now full) }
    ensures err { IfErr result (λ e. e ≡ Memory) }
{
    Ok(lock_tree(alloc, profile, lock, full)?)
}

/// Returns the property `D:lockdiscovery` of a path (RFC 4918, section 15.8): a `D:activelock` for each lock
/// that covers the path, the oldest first. Without a lock system it is empty. The profile is `Crate`. The only error is
/// `Memory`.
pub fn list_lockdiscovery<L: DavLockSystem>(
    alloc: Global,
    ls: Option<&L>,
    path: &DavPath,
) -> DavResult<Element>
    ensures ok { IfOk result (λ tree. tree ≡ tree_of_locks Crate (covering_in (locks_in L.seen (option_copied ls.entry)) path.now.key)) }
    ensures err { IfErr result (λ e. e ≡ Memory) }
{
    lockdiscovery(alloc, Profile::Crate, ls, path)
}

/// Returns the property `D:lockdiscovery` of a path, as [`list_lockdiscovery`] does, in this profile.
pub fn lockdiscovery<L: DavLockSystem>(
    alloc: Global,
    profile: Profile,
    ls: Option<&L>,
    path: &DavPath,
) -> DavResult<Element>
    ensures ok { IfOk result (λ tree. tree ≡ tree_of_locks profile (covering_in (locks_in L.seen (option_copied ls.entry)) path.now.key)) }
    ensures err { IfErr result (λ e. e ≡ Memory) }
{
    let Some(ls) = ls else {
        return Ok(lock_discovery(alloc, profile, &[])?);
    };
    match ls.discover(path) {
        Ok(locks) => Ok(lock_discovery(alloc, profile, locks.as_slice())?),
        Err(_) => Err(DavError::Memory),
    }
}

/// Returns the property `D:supportedlock` (RFC 4918, section 15.10): exclusive and then shared write locks if
/// a lock system is present, else nothing. The only error is `Memory`.
pub fn list_supportedlock(alloc: Global, present: bool) -> DavResult<Element>
    ensures ok { IfOk result (λ tree. tree ≡ tree_of_entries present) }
    ensures err { IfErr result (λ e. e ≡ Memory) }
{
    Ok(supported_lock(alloc, present)?)
}

/// Formats a timeout in seconds (RFC 4918, sections 10.7 and 14.29). `None` is infinite. Fails only if memory
/// runs out.
pub fn timeout_text(alloc: Global, timeout: Option<u64>) -> Result<String, AllocError>
    ensures { IfOk result (λ text. string_bytes text ≡ text_of_timeout timeout) }
{
    match timeout {
        Some(seconds) => format!(in alloc; "Second-{seconds}"),
        None => String::from_str(alloc, "Infinite"),
    }
}

fn lock_tree(
    alloc: Global,
    profile: Profile,
    lock: &DavLock,
    full: bool,
) -> Result<Element, AllocError>
    ensures { IfOk result (λ tree. tree ≡ shown_lock profile lock.now full) }
{
    let active = active_lock(alloc, profile, lock)?;
    if !full {
        return Ok(active);
    }
    let mut prop = declaring_element(alloc, ElementName::Prop)?;
    prop.push_element(outer_element(alloc, ElementName::Live(LiveName::LockDiscovery), active)?)?;
    Ok(prop)
}

/// Returns a `D:lockdiscovery` with a `D:activelock` for each lock, in order.
fn lock_discovery(alloc: Global, profile: Profile, locks: &[DavLock]) -> Result<Element, AllocError>
    ensures { IfOk result (λ tree. tree ≡ tree_of_locks profile locks.now) }
{
    let mut tree = Element::constant(alloc, ElementName::Live(LiveName::LockDiscovery));
    for lock in locks {
        tree.push_element(active_lock(alloc, profile, lock)?)?;
    }
    Ok(tree)
}

/// Returns the `D:activelock` of a lock, with its owner last, if it has one.
fn active_lock(alloc: Global, profile: Profile, lock: &DavLock) -> Result<Element, AllocError>
    ensures { IfOk result (λ tree. tree ≡ tree_of_lock profile lock.now) }
{
    let depth = Text::from_str(alloc, depth_text(profile, lock.deep))?;
    let timeout = Text::from_string(timeout_text(alloc, lock.timeout)?);
    let mut tree = Element::constant(alloc, ElementName::ActiveLock);
    tree.push_element(lock_scope(alloc, lock.shared)?)?;
    tree.push_element(lock_type(alloc)?)?;
    tree.push_element(text_element(alloc, ElementName::Depth, depth)?)?;
    tree.push_element(text_element(alloc, ElementName::Timeout, timeout)?)?;
    tree.push_element(lock_token(alloc, lock.token.clone()?)?)?;
    tree.push_element(lock_root(alloc, profile, &lock.path)?)?;
    if let Some(owner) = &lock.owner {
        tree.push_element(owner.clone()?)?;
    }
    Ok(tree)
}

/// Returns the scope of a lock: shared, so that others may hold shared locks too, or exclusive.
fn lock_scope(alloc: Global, shared: bool) -> Result<Element, AllocError>
    ensures { IfOk result (λ scope. scope ≡ scope_of_lock shared) }
{
    let name = if shared {
        ElementName::Shared
    } else {
        ElementName::Exclusive
    };
    outer_element(
        alloc,
        ElementName::LockScope,
        Element::constant(alloc, name),
    )
}

/// Returns the type of a lock: each is a write lock.
fn lock_type(alloc: Global) -> Result<Element, AllocError>
    ensures { IfOk result (λ kind. kind ≡ type_of_lock) }
{
    outer_element(
        alloc,
        ElementName::LockType,
        Element::constant(alloc, ElementName::Write),
    )
}

/// Returns the depth of a lock: whether it covers everything below its path.
fn depth_text(profile: Profile, deep: bool) -> &'static str
    ensures { result.now ≡ text_of_depth profile deep }
{
    if deep { profile.depth_word() } else { "0" }
}

/// Returns the token, as it is.
fn lock_token(alloc: Global, token: Text) -> Result<Element, AllocError>
    ensures { IfOk result (λ element. element ≡ element_of_token token) }
{
    let href = text_element(alloc, ElementName::Href, token)?;
    outer_element(alloc, ElementName::LockToken, href)
}

/// Returns the path that was locked.
fn lock_root(alloc: Global, profile: Profile, path: &DavPath) -> Result<Element, AllocError>
    ensures { IfOk result (λ element. element ≡ element_of_root profile path.now) }
{
    outer_element(
        alloc,
        ElementName::LockRoot,
        href_element(alloc, profile, path)?,
    )
}

/// Returns a `D:supportedlock` with exclusive and then shared locks, if a lock system is present.
fn supported_lock(alloc: Global, present: bool) -> Result<Element, AllocError>
    ensures { IfOk result (λ tree. tree ≡ tree_of_entries present) }
{
    let mut tree = Element::constant(alloc, ElementName::Live(LiveName::SupportedLock));
    if present {
        tree.push_element(lock_entry(alloc, false)?)?;
        tree.push_element(lock_entry(alloc, true)?)?;
    }
    Ok(tree)
}

/// Returns a `D:lockentry` for locks of one scope.
fn lock_entry(alloc: Global, shared: bool) -> Result<Element, AllocError>
    ensures { IfOk result (λ entry. entry ≡ entry_of_scope shared) }
{
    let mut entry = Element::constant(alloc, ElementName::LockEntry);
    entry.push_element(lock_scope(alloc, shared)?)?;
    entry.push_element(lock_type(alloc)?)?;
    Ok(entry)
}
