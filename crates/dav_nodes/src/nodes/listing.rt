//! The members of keys, and all keys with their values.
ghost use Rattle.std.specs.Prelude.{◌≡◌, ◌<◌, ◌^◌, ◌==◌, false, [], ◌∷◌, ◌++◌, not, length, map, reverse, Some, All, IfOk};
ghost use Rattle.std.specs.Option.{option_copied};
ghost use Rattle.std.specs.FinMap as fin;
ghost use Rattle.slab.specs.Slab.{get};
ghost use Rattle.dav_key.specs.Members.{names_among};
ghost use Rattle.dav_nodes.specs.Tree.{HasNoMember};
ghost use Rattle.dav_nodes.specs.Links.{place, member_at};
ghost use Rattle.dav_nodes.specs.Memo.{AreKnown};
ghost use Rattle.dav_nodes.specs.Listing.{members_of, seen, children, node_members, HasFlatKeys, HasFlatNames};

use crate::lookup;
use crate::members::Members;
use crate::memo::Memo;
use crate::node::Node;
use crate::nodes::Nodes;
use dav_key::FlatKey;
use slab::Slab;
use std::alloc::{AllocError, Global};
use std::collections::BTreeMap;
use std::collections::btree_map::Iter;

impl<R> Nodes<R> {
    /// The members of a key, each with its name and its value, in the byte order of their names. There are none
    /// if the key has no value.
    pub fn members(&self, key: &FlatKey) -> Members<'_, R>
        ensures members { result ≡ members_of key.now self.now.values }
        ensures names { map (λ m. m.0) result ≡ names_among (fin.keys self.now.values) key.now }
        ensures bound { length result < 2 ^ 63 }
        ensures values { All (λ m. fin.get self.now.values (key.now ++ m.0 ∷ []) ≡ Some m.1) result }
    {
        let nodes = &self.nodes;
        let left = match members_at(nodes, &self.memo, key) {
            Some(members) => Some(members.iter()),
            None => None,
        };
        Members { nodes, left }
    }

    /// Whether the key has a member. It costs the same however many members the key has.
    pub fn has_members(&self, key: &FlatKey) -> bool
        ensures members { result ≡ not (length (names_among (fin.keys self.now.values) key.now) == 0) }
        ensures none { result ≡ false → HasNoMember key.now self.now }
    {
        match members_at(&self.nodes, &self.memo, key) {
            Some(members) => members.len() > 0,
            None => false,
        }
    }

    /// Returns all keys with their values, in the order of the keys. The elements of each key must be such that
    /// a `FlatKey` can have them. Fails only if memory runs out.
    pub fn entries(&self, alloc: Global) -> Result<Vec<(FlatKey, &R)>, AllocError>
        requires { HasFlatKeys self.now.values }
        ensures { IfOk result (λ list. map (λ e. (e.0, e.1.now)) list.items ≡ fin.entries self.now.values) }
    {
        let mut list = Vec::with_capacity(alloc, self.nodes.len())?;
        let mut pending = Vec::new(alloc);
        pending.push((FlatKey::root(alloc)?, 0))?;
        while let Some((key, number)) = pending.pop() {
            let Some(node) = self.nodes.get(number) else {
                unreachable!()
            };
            push_members(&mut pending, &key, node.members.iter())?;
            list.push((key, &node.value))?;
        }
        Ok(list)
    }
}

/// Returns the members of the node at a key.
fn members_at<'a, R>(
    nodes: &'a Slab<Node<R>>,
    memo: &Memo,
    key: &FlatKey,
) -> Option<&'a BTreeMap<String, usize>>
    requires { AreKnown (place (member_at (get nodes.now))) memo.now }
    ensures { option_copied result ≡ node_members (get nodes.now) key.now }
{
    let number = lookup::number_at(nodes, memo, key)?;
    let node = nodes.get(number)?;
    Some(&node.members)
}

/// Pushes the keys of these members of a key, each with its number, last to first. Fails only if memory runs
/// out.
fn push_members(
    pending: &mut Vec<(FlatKey, usize)>,
    key: &FlatKey,
    mut left: Iter<'_, String, usize>,
) -> Result<(), AllocError>
    requires { HasFlatNames (seen left) }
    ensures { IfOk result (λ _. reverse pending.new.items ≡ children key.now (seen left.entry) ++ reverse pending.old.items) }
{
    while let Some((name, number)) = left.next_back() {
        pending.push((key.child(name.as_str())?, *number))?;
    }
    Ok(())
}
