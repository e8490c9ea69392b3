//! Values by key, in nodes that refer to their members by number.
ghost use Rattle.std.specs.Prelude.{◌≡◌, ◌≢◌, ◌<◌, ◌≤◌, ℕ, [], Some, None, is_some, IsSome, IfOk, OnOk, OnErr};
ghost use Rattle.std.specs.Option.{option_copied};
ghost use Rattle.std.specs.FinMap as map;
ghost use Rattle.slab.specs.Slab.{get};
ghost use Rattle.dav_key.specs.Key.{Key, parent};
ghost use Rattle.dav_key.specs.Below.{AreApart};
ghost use Rattle.dav_nodes.specs.Tree.{root_tree, IsAdded, IsReplaced, IsRemoved, IsTreeMoved, HasNoMember};
ghost use Rattle.dav_nodes.specs.Links.{place, member_at, spot_at, HoldsTree, HoldsTree-prop, AreSpots, AreSpots-prop};
ghost use Rattle.dav_nodes.specs.Memo.{AreKnown, AreKnown-prop};

mod listing;
mod loading;
mod rows;

use crate::memo::Memo;
use crate::node::Node;
use crate::{links, lookup};
use dav_key::FlatKey;
pub use loading::{NumberedValue, RowsError};
pub use rows::PlacedValue;
use slab::Slab;
use std::alloc::{AllocError, Global};
use std::marker::Model;

/// A map from keys to values. The root has a value, and so has the parent of each key that has one.
#[derive(Drop)]
pub struct Nodes<R> {
    alloc: Global,
    nodes: Slab<Node<R>>,
    memo: Memo,
    ghost tree: { HoldsTree (get nodes) } by { HoldsTree-prop (get nodes) R.code },
    ghost known: { AreKnown (place (member_at (get nodes))) memo } by { AreKnown-prop (place (member_at (get nodes))) memo },
    ghost spots: { AreSpots (member_at (get nodes)) (spot_at (get nodes)) } by { AreSpots-prop (member_at (get nodes)) (spot_at (get nodes)) },
}

impl<R> Model for Nodes<R> {
    ghost use Rattle.dav_nodes.specs.Tree.{Tree};
    ghost use Rattle.dav_nodes.specs.Codes.{tree_code};

    ghost Value = { Tree R };

    ghost coded = { tree_code R.code };

    ghost view = { λ n. n.tree.0 };
}

impl<R> Nodes<R> {
    ghost use Rattle.dav_nodes.specs.Rows.{AreDistinct, AreJoined};

    /// Creates a tree with this value at the root, under the number 0. Fails only if memory runs out.
    pub fn new(alloc: Global, value: R) -> Result<Nodes<R>, AllocError>
    where
        R: Drop,
        ensures { IfOk result (λ nodes. nodes ≡ root_tree value) }
    {
        let mut nodes = Slab::new(alloc);
        nodes.insert(Node::new(alloc, 0, String::new(alloc), value))?;
        Ok(Nodes {
            alloc,
            nodes,
            memo: Memo::new(),
        })
    }

    /// Returns the number of the value at a key. It remembers the last two places that were looked up, and
    /// finds them, their parents and their parents' members without a search from the root.
    pub fn find(&mut self, key: &FlatKey) -> Option<usize>
        ensures number { result ≡ map.get self.old.numbers key.now }
        ensures there { is_some result ≡ is_some (map.get self.old.values key.now) }
        ensures same { self.new ≡ self.old }
    {
        lookup::find(&self.nodes, &mut self.memo, key)
    }

    /// Returns the number of the value at the parent of a key. The root's parent is the root.
    pub fn find_above(&self, key: &FlatKey) -> Option<usize>
        ensures number { result ≡ map.get self.now.numbers (parent key.now) }
        ensures there { is_some result ≡ is_some (map.get self.now.values (parent key.now)) }
    {
        lookup::find_above(&self.nodes, &self.memo, key)
    }

    /// No two keys have the same number, no key has one below a key that has none, and the keys with a number are
    /// those with a value. It does nothing: callers learn this of the tree.
    pub fn show_linked(&self)
        ensures distinct { AreDistinct self.now }
        ensures joined { AreJoined self.now }
        ensures numbered { (key : Key) → is_some (map.get self.now.numbers key) ≡ is_some (map.get self.now.values key) }
    {
        let _ = &self.nodes;
    }

    /// The number of the root is 0. It does nothing: callers learn this of the tree.
    pub fn show_root(&self)
        ensures { map.get self.now.numbers [] ≡ Some 0 }
    {
        let _ = &self.nodes;
    }

    /// A number that is greater than the number of each key, and not less than how many keys have a value.
    pub fn max_len(&self) -> usize
        ensures len { map.len self.now.values ≤ result }
        ensures numbers { (key : Key) (number : ℕ) → map.get self.now.numbers key ≡ Some number → number < result }
    {
        self.nodes.capacity()
    }

    /// Returns the value with a number.
    pub fn at(&self, number: usize) -> Option<&R>
        ensures { (key : Key) → map.get self.now.numbers key ≡ Some number → option_copied result ≡ map.get self.now.values key }
    {
        Some(&self.nodes.get(number)?.value)
    }

    /// Exchanges the value with a number with another one.
    pub fn exchange(&mut self, number: usize, value: &mut R)
        requires { (key : Key) × (map.get self.old.numbers key ≡ Some number) }
        ensures { (key : Key) → map.get self.old.numbers key ≡ Some number → IsReplaced key value.new value.old self.old self.new }
    {
        links::exchange(&mut self.nodes, number, value);
    }

    /// Adds a value at a key that has none, and whose parent has one. Returns its number. Fails only if memory
    /// runs out, and then nothing changes.
    pub fn add(&mut self, key: &FlatKey, value: R) -> Result<usize, AllocError>
    where
        R: Drop,
        requires absent { map.get self.old.numbers key.now ≡ None }
        requires above { IsSome (map.get self.old.numbers (parent key.now)) }
        ensures ok { IfOk result (λ number. IsAdded key.now number value self.old self.new) }
        ensures err { OnErr result (self.new ≡ self.old) }
    {
        let Some(above) = lookup::find_above(&self.nodes, &self.memo, key) else {
            unreachable!()
        };
        let Some(name) = key.name() else {
            unreachable!()
        };
        let added = links::add(&mut self.nodes, self.alloc, above, name, value);
        if let Ok(number) = &added {
            self.memo.note_at(key, above, Some(*number));
        }
        added
    }

    /// Removes the value at a key, which has one, and returns it. The key must not be the root, and no key
    /// below it may have a value. Its parent stays known, so a removal of that one does not begin at the root.
    pub fn remove(&mut self, key: &FlatKey) -> Option<R>
    where
        R: Drop,
        requires there { IsSome (map.get self.old.numbers key.now) }
        requires root { key.now ≢ [] }
        requires childless { HasNoMember key.now self.old }
        ensures value { result ≡ map.get self.old.values key.now }
        ensures removed { IsRemoved key.now self.old self.new }
    {
        let Some(name) = key.name() else {
            unreachable!()
        };
        let Some(above) = lookup::find_above(&self.nodes, &self.memo, key) else {
            unreachable!()
        };
        let Some(number) = links::member(&self.nodes, above, name) else {
            unreachable!()
        };
        self.memo.forget(number);
        let value = links::remove(&mut self.nodes, above, name, number);
        self.memo.note_at(key, above, None);
        value
    }

    /// Moves the value at a key, and the values of all keys below it, to another key, which has none, and
    /// whose parent has one. Neither key may be at or below the other. Fails only if memory runs out, and
    /// then nothing changes. It costs the same however many values it moves.
    pub fn rename(&mut self, from: &FlatKey, to: &FlatKey) -> Result<(), AllocError>
        requires there { IsSome (map.get self.old.numbers from.now) }
        requires apart { AreApart from.now to.now }
        requires free { map.get self.old.numbers to.now ≡ None }
        requires above { IsSome (map.get self.old.numbers (parent to.now)) }
        ensures ok { OnOk result (IsTreeMoved from.now to.now self.old self.new) }
        ensures err { OnErr result (self.new ≡ self.old) }
    {
        let (Some(name), Some(new_name)) = (from.name(), to.name()) else {
            unreachable!()
        };
        let Some(above) = lookup::find_above(&self.nodes, &self.memo, from) else {
            unreachable!()
        };
        let Some(new_above) = lookup::find_above(&self.nodes, &self.memo, to) else {
            unreachable!()
        };
        self.memo.clear();
        links::relink(
            &mut self.nodes,
            self.alloc,
            above,
            name,
            new_above,
            new_name,
        )
    }
}
