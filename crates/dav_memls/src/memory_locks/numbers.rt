//! Ascending numbers.
ghost use Rattle.std.specs.Prelude.{◌≡◌, ◌∷◌, ◌++◌, [], true, OnOk, OnErr, IsTrue, ◌↔◌, slice_get};
ghost use Rattle.std.specs.BTreeSet.{IsOrdered};
ghost use Rattle.std.specs.List.Sorted.{IsStrictlySortedBy-prop};
ghost use Rattle.std.specs.Ordering.{nat_cmp};
ghost use Rattle.std.proofs.Props.{props};
ghost use Rattle.dav_memls.specs.Numbers.{IsAbove, without};

use std::alloc::{AllocError, Global};
use std::collections::BTreeSet;
use std::collections::btree_set::Iter;

/// A set of numbers in ascending order. To add or remove a number takes as many comparisons as the logarithm
/// of the size of the set.
#[derive(Debug, Drop)]
pub struct Numbers {
    set: BTreeSet<u64>,
    ghost rising: { IsOrdered nat_cmp set } by { Prim.hlevel (props, IsStrictlySortedBy-prop) },
}

impl Numbers {
    /// Creates an empty set.
    pub fn new(alloc: Global) -> Numbers
        ensures { result.set.keys ≡ [] }
    {
        Numbers {
            set: BTreeSet::new(alloc),
        }
    }

    /// Returns the numbers, the least first.
    pub fn iter(&self) -> Iter<'_, u64>
        ensures { result ≡ self.now.set.keys }
    {
        self.set.iter()
    }

    /// Returns the least number.
    pub fn first(&self) -> Option<u64>
        ensures { result ≡ slice_get self.now.set.keys 0 }
    {
        self.set.first().copied()
    }

    /// Whether the set is empty.
    pub fn is_empty(&self) -> bool
        ensures { IsTrue result ↔ (self.now.set.keys ≡ []) }
    {
        self.set.is_empty()
    }

    /// Adds a number that is greater than all others. Fails only if memory runs out, and then nothing
    /// changes.
    pub fn push(&mut self, number: u64) -> Result<(), AllocError>
        requires { IsAbove number self.old.set.keys }
        ensures ok { OnOk result (self.new.set.keys ≡ self.old.set.keys ++ number ∷ []) }
        ensures err { OnErr result (self.new.set.keys ≡ self.old.set.keys) }
    {
        self.set.insert(number)?;
        Ok(())
    }

    /// Removes a number, if it is in the set.
    pub fn remove(&mut self, number: u64)
        ensures { self.new.set.keys ≡ without number self.old.set.keys }
    {
        self.set.remove(&number);
    }
}
