//! One node of a tree.
ghost use Rattle.std.specs.Prelude.{◌≡◌};
ghost use Rattle.std.specs.BTreeMap.{IsEmpty};

use std::alloc::Global;
use std::collections::BTreeMap;

/// A value, where it is, and the numbers of its members by their names.
#[derive(Debug, Drop)]
pub(crate) struct Node<R> {
    pub value: R,
    /// The number of the parent. The root is its own parent.
    pub above: usize,
    /// The name there. The root's name is empty.
    pub name: String,
    pub members: BTreeMap<String, usize>,
}

impl<R> Node<R> {
    /// Creates a node without members.
    pub fn new(alloc: Global, above: usize, name: String, value: R) -> Node<R>
        ensures value { result.value ≡ value }
        ensures above { result.above ≡ above }
        ensures name { result.name ≡ name }
        ensures members { IsEmpty result.members }
    {
        Node {
            value,
            above,
            name,
            members: BTreeMap::new(alloc),
        }
    }
}
