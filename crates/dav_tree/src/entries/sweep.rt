//! A sweep of the medium: what no file and no stored body has is given up.
ghost use Rattle.std.specs.Prelude.{◌≡◌, ◌⊎◌, true};
ghost use base.Stored.{gnil};
ghost use Rattle.dav_tree.specs.Before.{IsSaved};
ghost use Rattle.dav_tree.specs.Bodies.{KeepsBodies, KeepsMarks};
ghost use Rattle.dav_tree.specs.Entry.{is_held};
ghost use Rattle.dav_tree.specs.Kept.{AreHeld, AreStored, IsMarkedAt};
ghost use Rattle.dav_tree.specs.KeptCalls.{IsUnchanged};

use super::Entries;
use crate::entry::{Content, Entry};
use crate::medium::Medium;
use dav_nodes::Nodes;
use std::collections::BTreeMap;

impl<M: Medium> Entries<M> {
    /// Has the medium give up the bodies that neither a file has nor a request waits for, so that their room can
    /// be used again. Passes each body to the medium once. What is saved elsewhere must be all that there is now.
    /// What was saved before is given up.
    pub fn sweep(&mut self)
        requires { (self.old.before ≡ gnil) ⊎ IsSaved self.old }
        ensures same { IsUnchanged self.old self.new }
        ensures tree { self.new.tree ≡ self.old.tree }
        ensures older { self.new.older ≡ gnil }
    {
        let tree = &self.tree;
        self.medium.begin_sweep();
        keep_files(&mut self.medium, &tree.nodes);
        keep_stored(&mut self.medium, &self.bodies);
        self.medium.end_sweep();
        self.older = None;
    }
}

/// Marks the bodies of all files.
fn keep_files<M: Medium>(medium: &mut M, tree: &Nodes<Entry<M::Body>>)
    requires { AreHeld (M.holds medium.old) tree.now }
    ensures marked { AreHeld (M.marked medium.new) tree.now }
    ensures marks { KeepsMarks M.marked medium.old medium.new }
    ensures kept { KeepsBodies M.bytes M.holds M.safe medium.old medium.new }
{
    tree.show_linked();
    for number in 0..tree.max_len() {
        keep_file(medium, tree, number);
    }
}

/// Marks the body of the file with a number, if it is a file.
fn keep_file<M: Medium>(medium: &mut M, tree: &Nodes<Entry<M::Body>>, number: usize)
    requires { AreHeld (M.holds medium.old) tree.now }
    ensures marked { IsMarkedAt (M.marked medium.new) tree.now number }
    ensures marks { KeepsMarks M.marked medium.old medium.new }
    ensures kept { KeepsBodies M.bytes M.holds M.safe medium.old medium.new }
{
    if let Some(entry) = tree.at(number) {
        keep_content(medium, &entry.content);
    }
}

/// Marks the body of a file. A directory has none.
fn keep_content<M: Medium>(medium: &mut M, content: &Content<M::Body>)
    ensures marked { is_held (M.holds medium.old) content.now ≡ true → is_held (M.marked medium.new) content.now ≡ true }
    ensures marks { KeepsMarks M.marked medium.old medium.new }
    ensures kept { KeepsBodies M.bytes M.holds M.safe medium.old medium.new }
{
    if let Content::File(body) = content {
        medium.keep(body);
    }
}

/// Marks the bodies that wait for requests.
fn keep_stored<M: Medium>(medium: &mut M, bodies: &BTreeMap<u64, M::Body>)
    requires { AreStored (M.holds medium.old) bodies.now }
    ensures marked { AreStored (M.marked medium.new) bodies.now }
    ensures marks { KeepsMarks M.marked medium.old medium.new }
    ensures kept { KeepsBodies M.bytes M.holds M.safe medium.old medium.new }
{
    for (_, body) in bodies {
        medium.keep(body);
    }
}
