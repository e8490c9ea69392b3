//! Changes of the nodes of a tree, which refer to their members by number.
ghost use Rattle.std.specs.Prelude.{◌≡◌, ◌≢◌, ℕ, List, IsSome, IfOk, OnOk, OnErr, Some, None, string_bytes};
ghost use Rattle.slab.specs.Slab.{get};
ghost use Rattle.std.specs.Option.{option_map};
ghost use Rattle.dav_nodes.specs.Links.{place, value_at, member_at, spot_at};
ghost use Rattle.dav_nodes.specs.NodeChanges.{AddsNode, SetsValue, RemovesNode, MovesNode, SetsMember, SetsSpot, SameNodes};

use crate::node::Node;
use dav_key::Segments;
use slab::Slab;
use std::alloc::{AllocError, Global};
use std::mem::swap;

/// Returns the number of the node at these names below the root.
pub(crate) fn find<R>(nodes: &Slab<Node<R>>, key: Segments<'_>) -> Option<usize>
    ensures { result ≡ place (member_at (get nodes.now)) key.entry }
{
    let mut number = 0;
    for name in key {
        number = member(nodes, number, name)?;
    }
    Some(number)
}

/// Returns the number of the member with this name of the node `above`.
pub(crate) fn member<R>(nodes: &Slab<Node<R>>, above: usize, name: &str) -> Option<usize>
    ensures { result ≡ member_at (get nodes.now) name.now above }
{
    nodes.get(above)?.members.get(name).copied()
}

/// Returns the number of the parent of a node.
pub(crate) fn parent_of<R>(nodes: &Slab<Node<R>>, number: usize) -> Option<usize>
    ensures { result ≡ option_map (λ (spot : ℕ × List ℕ). spot.0) (spot_at (get nodes.now) number) }
{
    Some(nodes.get(number)?.above)
}

/// Exchanges the value of a node with another one.
pub(crate) fn exchange<R>(nodes: &mut Slab<Node<R>>, number: usize, value: &mut R)
    requires { IsSome (get nodes.old number) }
    ensures value { value_at (get nodes.old) number ≡ Some value.new }
    ensures nodes { SetsValue (get nodes.old) (get nodes.new) number value.old }
{
    if let Some(node) = nodes.get_mut(number) {
        swap(&mut node.value, value);
    }
}

/// Makes a node the member with this name of the node `above`. Fails only if memory runs out, and then
/// nothing changes.
pub(crate) fn enter<R>(
    nodes: &mut Slab<Node<R>>,
    above: usize,
    name: String,
    number: usize,
) -> Result<(), AllocError>
    requires { IsSome (get nodes.old above) }
    ensures ok { OnOk result (SetsMember (get nodes.old) (get nodes.new) above (string_bytes name) (Some number)) }
    ensures err { OnErr result (SameNodes (get nodes.old) (get nodes.new)) }
{
    if let Some(node) = nodes.get_mut(above) {
        node.members.insert(name, number)?;
    }
    Ok(())
}

/// Removes the member with this name from the node `above`. The member's node stays.
fn leave<R>(nodes: &mut Slab<Node<R>>, above: usize, name: &str)
    ensures { SetsMember (get nodes.old) (get nodes.new) above name.now None }
{
    if let Some(node) = nodes.get_mut(above) {
        node.members.remove(name);
    }
}

/// Writes the number of the parent, and the name there, into a node.
fn set_spot<R>(nodes: &mut Slab<Node<R>>, number: usize, above: usize, name: String)
    ensures { SetsSpot (get nodes.old) (get nodes.new) number above (string_bytes name) }
{
    if let Some(node) = nodes.get_mut(number) {
        node.above = above;
        node.name = name;
    }
}

/// Adds a node as the member with this name of the node `above`, and returns its number. Fails only if memory
/// runs out, and then no node changes.
pub(crate) fn add<R: Drop>(
    nodes: &mut Slab<Node<R>>,
    alloc: Global,
    above: usize,
    name: &str,
    value: R,
) -> Result<usize, AllocError>
    requires { IsSome (get nodes.old above) }
    ensures ok { IfOk result (λ number. AddsNode (get nodes.old) (get nodes.new) above name.now number value) }
    ensures err { OnErr result (SameNodes (get nodes.old) (get nodes.new)) }
{
    let own_name = String::from_str(alloc, name)?;
    let name = String::from_str(alloc, name)?;
    let number = nodes.insert(Node::new(alloc, above, own_name, value))?;
    if enter(nodes, above, name, number).is_err() {
        nodes.try_remove(number);
        return Err(AllocError);
    }
    Ok(number)
}

/// Removes the member with this name from the node `above`, and its node, which must not be `above`.
/// Returns its value.
pub(crate) fn remove<R: Drop>(
    nodes: &mut Slab<Node<R>>,
    above: usize,
    name: &str,
    number: usize,
) -> Option<R>
    requires { above ≢ number }
    ensures value { result ≡ value_at (get nodes.old) number }
    ensures nodes { RemovesNode (get nodes.old) (get nodes.new) above name.now number }
{
    leave(nodes, above, name);
    let node = nodes.try_remove(number)?;
    Some(node.value)
}

/// Makes the node of the member with this name of the node `from` a member of the node `to`, under another
/// name. Fails only if memory runs out, and then no node changes.
pub(crate) fn relink<R>(
    nodes: &mut Slab<Node<R>>,
    alloc: Global,
    from: usize,
    name: &str,
    to: usize,
    new_name: &str,
) -> Result<(), AllocError>
    requires there { IsSome (member_at (get nodes.old) name.now from) }
    requires above { IsSome (get nodes.old to) }
    requires apart { from ≡ to → name.now ≢ new_name.now }
    ensures ok { OnOk result (MovesNode (get nodes.old) (get nodes.new) from name.now to new_name.now) }
    ensures err { OnErr result (SameNodes (get nodes.old) (get nodes.new)) }
{
    let own_name = String::from_str(alloc, new_name)?;
    let new_name = String::from_str(alloc, new_name)?;
    if let Some(number) = member(nodes, from, name) {
        enter(nodes, to, new_name, number)?;
        leave(nodes, from, name);
        set_spot(nodes, number, to, own_name);
    }
    Ok(())
}
