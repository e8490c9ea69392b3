//! What the body of a LOCK asks for (RFC 4918, section 14.11).
ghost use Rattle.std.specs.Prelude.{◌≡◌, IfOk, option_copied};
ghost use Rattle.std.specs.List.{list_all, list_any};
ghost use Rattle.dav_resource.specs.Gives.{GivesBy};
ghost use Rattle.dav_resource.specs.Tree.{elements_of};
ghost use Rattle.dav_engine.specs.LockInfo.{begins_with as tree_begins_with, is_scope as is_scope_tree, is_write as is_write_tree, is_part as is_part_tree, is_lock_info as is_lock_info_tree, last_named as last_named_in, asks_shared as tree_asks_shared, under_dav as tree_under_dav, owner_in, lock_info_verdict};

use dav_messages::is_named;
use dav_resource::{DavError, DavResult, Element, ReqBody, Text};
use std::alloc::{AllocError, Global};

/// The lock that a request asks for.
#[derive(Drop, Debug)]
pub(crate) struct LockInfo {
    /// Whether the lock is shared, so that others may hold shared locks too (RFC 4918, section 14.13).
    pub(crate) shared: bool,
    /// What the client says about the holder of the lock (RFC 4918, section 14.17).
    pub(crate) owner: Option<Element>,
}

/// Reads what the body asks for. Elements are recognized by their local names only, and of several scopes or
/// owners the last one counts. The owner gets the prefix `D`.
///
/// Errors: `XmlParseError` if the body is not a `lockinfo` with a scope and a type, if a scope is neither
/// `exclusive` nor `shared`, if a type is not `write`, or if there is another element than these and owners;
/// `Memory`.
pub(crate) fn read_lock_info(alloc: Global, body: &ReqBody) -> DavResult<LockInfo>
    ensures { GivesBy (λ info. info) result (lock_info_verdict body.now) }
{
    match body {
        ReqBody::Tree(tree) if is_lock_info(tree) => Ok(LockInfo {
            shared: asks_shared(tree),
            owner: owner(tree)?,
        }),
        _ => Err(DavError::XmlParseError),
    }
}

fn is_lock_info(tree: &Element) -> bool
    ensures { result ≡ is_lock_info_tree tree.now }
{
    is_named(tree, "lockinfo") && has_parts_alone(tree) && has_scope(tree) && has_write(tree)
}

/// Returns whether each child element is a scope, a type or an owner.
fn has_parts_alone(tree: &Element) -> bool
    ensures { result ≡ list_all is_part_tree (elements_of tree.now.children) }
{
    tree.child_elems_iter().all(is_part)
}

fn has_scope(tree: &Element) -> bool
    ensures { result ≡ list_any is_scope_tree (elements_of tree.now.children) }
{
    tree.child_elems_iter().any(is_scope)
}

fn has_write(tree: &Element) -> bool
    ensures { result ≡ list_any is_write_tree (elements_of tree.now.children) }
{
    tree.child_elems_iter().any(is_write)
}

fn is_part(element: &Element) -> bool
    ensures { result ≡ is_part_tree element.now }
{
    is_scope(element) || is_write(element) || is_named(element, "owner")
}

fn is_scope(element: &Element) -> bool
    ensures { result ≡ is_scope_tree element.now }
{
    is_named(element, "lockscope")
        && (begins_with(element, "exclusive") || begins_with(element, "shared"))
}

fn is_write(element: &Element) -> bool
    ensures { result ≡ is_write_tree element.now }
{
    is_named(element, "locktype") && begins_with(element, "write")
}

/// Returns whether the first child element has this name.
fn begins_with(element: &Element, name: &str) -> bool
    ensures { result ≡ tree_begins_with name.now element.now }
{
    match element.child_elems_iter().next() {
        Some(first) => is_named(first, name),
        None => false,
    }
}

/// Returns the last child element of this name.
fn last_named<'a>(tree: &'a Element, name: &str) -> Option<&'a Element>
    ensures { option_copied result ≡ last_named_in name.now tree.now }
{
    tree.child_elems_iter()
        .filter(|element| is_named(element, name))
        .last()
}

/// Returns whether the body asks for a shared lock.
fn asks_shared(tree: &Element) -> bool
    ensures { result ≡ tree_asks_shared tree.now }
{
    match last_named(tree, "lockscope") {
        Some(scope) => begins_with(scope, "shared"),
        None => false,
    }
}

/// Returns the owner element, which says who holds the lock, if there is one.
fn owner(tree: &Element) -> Result<Option<Element>, AllocError>
    ensures { IfOk result (λ owner. owner ≡ owner_in tree.now) }
{
    match last_named(tree, "owner") {
        Some(owner) => Ok(Some(under_dav(owner)?)),
        None => Ok(None),
    }
}

/// Returns a copy of the element with the prefix `D`, which the responses declare.
fn under_dav(element: &Element) -> Result<Element, AllocError>
    ensures { IfOk result (λ copy. copy ≡ tree_under_dav element.now) }
{
    let mut tag = element.start_tag()?;
    tag.prefix = Some(Text::from_str(*element.children.allocator(), "D")?);
    element.clone()?.with_tag(tag)
}
