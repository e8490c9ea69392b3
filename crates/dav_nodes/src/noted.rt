//! Values by key, whose changes are noted.
ghost use Rattle.std.specs.Prelude.{◌≡◌, ◌≢◌, ℕ, true, false, [], Some, None, IsSome, IfOk, OnOk, OnErr, is_some};
ghost use Rattle.std.specs.Option.{option_map};
ghost use Rattle.std.specs.FinMap as map;
ghost use Rattle.dav_key.specs.Key.{Key, parent};
ghost use Rattle.dav_key.specs.Below.{AreApart};
ghost use Rattle.dav_nodes.specs.Rows.{AreNoted};
ghost use Rattle.dav_nodes.specs.RowProps.{AreNoted-prop};

use crate::{Changes, Nodes};
use dav_key::FlatKey;
use std::alloc::{AllocError, Global};
use std::mem;
use std::snapshot::Snapshot;

/// A tree of values by key that notes which numbers have changed since it was last asked. Until it is asked for
/// the first time, every number counts as changed, and noting costs nothing.
#[derive(Drop)]
pub struct NotedNodes<R> {
    alloc: Global,
    /// The values and the numbers, to look up.
    pub nodes: Nodes<R>,
    changes: Changes,
    /// The tree when it was last asked, for contracts only.
    before: Option<Snapshot<Nodes<R>>>,
    ghost noted: { AreNoted changes (option_map (λ s. s.value) before) nodes } by { AreNoted-prop R.code changes (option_map (λ s. s.value) before) nodes },
}

impl<R> NotedNodes<R> {
    ghost use Rattle.dav_nodes.specs.Noted.{tree_of, before_of, IsSame, IsReplacedAt};
    ghost use Rattle.dav_nodes.specs.Rows.{is_noted, AreDistinct};
    ghost use Rattle.dav_nodes.specs.Tree.{root_tree, IsAdded, IsRemoved, IsTreeMoved, HasNoMember};

    /// Creates a tree with this value at the root, under the number 0. Fails only if memory runs out.
    pub fn new(alloc: Global, value: R) -> Result<NotedNodes<R>, AllocError>
    where
        R: Drop,
        ensures tree { IfOk result (λ noted. tree_of noted ≡ root_tree value) }
        ensures before { IfOk result (λ noted. before_of noted ≡ None) }
    {
        Ok(NotedNodes {
            alloc,
            nodes: Nodes::new(alloc, value)?,
            changes: Changes::All,
            before: None,
        })
    }

    /// Takes a tree that counts as just asked: nothing is noted.
    pub fn saved(alloc: Global, nodes: Nodes<R>) -> NotedNodes<R>
        ensures tree { tree_of result ≡ nodes }
        ensures before { before_of result ≡ Some nodes }
        ensures none { (number : ℕ) → is_noted result.changes number ≡ false }
    {
        nodes.show_linked();
        let before = Snapshot::of(&nodes);
        NotedNodes {
            alloc,
            nodes,
            changes: Changes::none(alloc),
            before: Some(before),
        }
    }

    /// Returns the number of the value at a key, as `Nodes::find` does.
    pub fn find(&mut self, key: &FlatKey) -> Option<usize>
        ensures number { result ≡ map.get (tree_of self.old).numbers key.now }
        ensures there { is_some result ≡ is_some (map.get (tree_of self.old).values key.now) }
        ensures same { IsSame self.old self.new }
    {
        self.nodes.find(key)
    }

    /// Exchanges the value with a number with another one, and notes the number.
    pub fn exchange(&mut self, number: usize, value: &mut R)
        requires { (key : Key) × (map.get (tree_of self.old).numbers key ≡ Some number) }
        ensures replaced { IsReplacedAt number value.new value.old self.old self.new }
        ensures before { before_of self.new ≡ before_of self.old }
    {
        self.nodes.show_linked();
        self.changes.note(number);
        self.nodes.exchange(number, value);
    }

    /// Adds a value at a key that has none, and whose parent has one, and notes its number, which it returns.
    /// Fails only if memory runs out, and then nothing changes.
    pub fn add(&mut self, key: &FlatKey, value: R) -> Result<usize, AllocError>
    where
        R: Drop,
        requires absent { map.get (tree_of self.old).numbers key.now ≡ None }
        requires above { IsSome (map.get (tree_of self.old).numbers (parent key.now)) }
        ensures ok { IfOk result (λ number. IsAdded key.now number value (tree_of self.old) (tree_of self.new)) }
        ensures err { OnErr result (tree_of self.new ≡ tree_of self.old) }
        ensures before { before_of self.new ≡ before_of self.old }
    {
        self.nodes.show_linked();
        let number = self.nodes.add(key, value)?;
        self.changes.note(number);
        Ok(number)
    }

    /// Removes the value at a key, as `Nodes::remove` does, and notes its number.
    pub fn remove(&mut self, key: &FlatKey) -> Option<R>
    where
        R: Drop,
        requires there { IsSome (map.get (tree_of self.old).numbers key.now) }
        requires root { key.now ≢ [] }
        requires childless { HasNoMember key.now (tree_of self.old) }
        ensures value { result ≡ map.get (tree_of self.old).values key.now }
        ensures removed { IsRemoved key.now (tree_of self.old) (tree_of self.new) }
        ensures before { before_of self.new ≡ before_of self.old }
    {
        self.note_at(key);
        self.nodes.show_linked();
        self.nodes.remove(key)
    }

    /// Moves the value at a key, and the values of all keys below it, to another key, as `Nodes::rename` does,
    /// and notes the number of the one that was moved. Fails only if memory runs out, and then nothing changes.
    pub fn rename(&mut self, from: &FlatKey, to: &FlatKey) -> Result<(), AllocError>
        requires there { IsSome (map.get (tree_of self.old).numbers from.now) }
        requires apart { AreApart from.now to.now }
        requires free { map.get (tree_of self.old).numbers to.now ≡ None }
        requires above { IsSome (map.get (tree_of self.old).numbers (parent to.now)) }
        ensures ok { OnOk result (IsTreeMoved from.now to.now (tree_of self.old) (tree_of self.new)) }
        ensures err { OnErr result (tree_of self.new ≡ tree_of self.old) }
        ensures before { before_of self.new ≡ before_of self.old }
    {
        self.note_at(from);
        self.nodes.show_linked();
        self.nodes.rename(from, to)
    }

    /// Notes the number of a key. Costs nothing where every number is noted.
    fn note_at(&mut self, key: &FlatKey)
        requires { IsSome (map.get (tree_of self.old).numbers key.now) }
        ensures tree { tree_of self.new ≡ tree_of self.old }
        ensures before { before_of self.new ≡ before_of self.old }
        ensures noted { (number : ℕ) → map.get (tree_of self.old).numbers key.now ≡ Some number → is_noted self.new.changes number ≡ true }
    {
        if matches!(self.changes, Changes::All) {
            return;
        }
        if let Some(number) = self.nodes.find(key) {
            self.changes.note(number);
        }
    }

    /// Whether a number may have been noted since the tree was last asked. If not, the tree is as it was then.
    pub fn has_changes(&self) -> bool
        ensures { result ≡ false → before_of self.now ≡ Some (tree_of self.now) }
    {
        self.nodes.show_linked();
        !self.changes.is_empty()
    }

    /// Returns the numbers that were noted since the tree was last asked, and begins to note anew. A number that
    /// is not among them has the same row as then. The second part is the tree as it was then, for contracts only.
    pub fn take_changes(&mut self) -> (Changes, Option<Snapshot<Nodes<R>>>)
        ensures kept { AreNoted result.0 (before_of self.old) (tree_of self.old) }
        ensures older { option_map (λ s. s.value) result.1 ≡ before_of self.old }
        ensures distinct { AreDistinct (tree_of self.old) }
        ensures tree { tree_of self.new ≡ tree_of self.old }
        ensures before { before_of self.new ≡ Some (tree_of self.old) }
        ensures none { (number : ℕ) → is_noted self.new.changes number ≡ false }
    {
        self.nodes.show_linked();
        let changes = mem::replace(&mut self.changes, Changes::none(self.alloc));
        let older = mem::replace(&mut self.before, Some(Snapshot::of(&self.nodes)));
        (changes, older)
    }
}
