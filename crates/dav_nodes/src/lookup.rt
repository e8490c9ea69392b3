//! Lookups of keys, which first try the places that were looked up last.
ghost use Rattle.std.specs.Prelude.{◌≡◌};
ghost use Rattle.slab.specs.Slab.{get};
ghost use Rattle.dav_key.specs.Key.{parent};
ghost use Rattle.dav_nodes.specs.Links.{place, member_at, spot_at, AreSpots};
ghost use Rattle.dav_nodes.specs.Memo.{AreKnown};

use crate::links;
use crate::memo::Memo;
use crate::node::Node;
use dav_key::FlatKey;
use slab::Slab;

/// Returns the number of a key, and remembers its place.
pub(crate) fn find<R>(nodes: &Slab<Node<R>>, memo: &mut Memo, key: &FlatKey) -> Option<usize>
    requires known { AreKnown (place (member_at (get nodes.now))) memo.old }
    requires spots { AreSpots (member_at (get nodes.now)) (spot_at (get nodes.now)) }
    ensures number { result ≡ place (member_at (get nodes.now)) key.now }
    ensures known { AreKnown (place (member_at (get nodes.now))) memo.new }
{
    if let Some(number) = memo.number_of(key) {
        return Some(number);
    }
    let Some(name) = key.name() else {
        return Some(0);
    };
    let above = find_above(nodes, memo, key)?;
    let number = links::member(nodes, above, name);
    memo.note_at(key, above, number);
    number
}

/// Returns the number of a key's parent. Where the memo knows the key, its node has it, so that who goes up from key to
/// key never begins at the root.
pub(crate) fn find_above<R>(nodes: &Slab<Node<R>>, memo: &Memo, key: &FlatKey) -> Option<usize>
    requires known { AreKnown (place (member_at (get nodes.now))) memo.now }
    requires spots { AreSpots (member_at (get nodes.now)) (spot_at (get nodes.now)) }
    ensures { result ≡ place (member_at (get nodes.now)) (parent key.now) }
{
    if let Some(number) = memo.number_above(key) {
        return Some(number);
    }
    match memo.number_of(key) {
        Some(number) => links::parent_of(nodes, number),
        None => links::find(nodes, key.parent_segments()),
    }
}

/// Returns the number of a key, as `find` does, but remembers no place.
pub(crate) fn number_at<R>(nodes: &Slab<Node<R>>, memo: &Memo, key: &FlatKey) -> Option<usize>
    requires { AreKnown (place (member_at (get nodes.now))) memo.now }
    ensures { result ≡ place (member_at (get nodes.now)) key.now }
{
    match memo.number_of(key) {
        Some(number) => Some(number),
        None => links::find(nodes, key.segments()),
    }
}
