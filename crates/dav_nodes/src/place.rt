//! A place of a tree that was looked up.
ghost use Rattle.std.specs.Prelude.{◌≡◌, ℕ, Option, Some, IfSome};
ghost use Rattle.dav_key.specs.Key.{Key, parent};
ghost use Rattle.dav_nodes.specs.Memo.{IsKnown};

use dav_key::FlatKey;

/// A key, the number of its parent, and its own number, if it is known to have one.
#[derive(Debug, Drop)]
pub(crate) struct Place {
    pub key: FlatKey,
    pub above: usize,
    pub number: Option<usize>,
}

impl Place {
    /// Returns the number of a key, if the key is that of this place or its parent.
    pub fn number_of(&self, key: &FlatKey) -> Option<usize>
        ensures { (numbers : Key → Option ℕ) → IsKnown numbers self.now → IfSome result (λ n. numbers key.now ≡ Some n) }
    {
        if self.key.same(key) {
            self.number
        } else if key.is_parent_of(&self.key) {
            Some(self.above)
        } else {
            None
        }
    }

    /// Returns the number of a key's parent, if the parent is that of this place or its key.
    pub fn number_above(&self, key: &FlatKey) -> Option<usize>
        ensures { (numbers : Key → Option ℕ) → IsKnown numbers self.now → IfSome result (λ n. numbers (parent key.now) ≡ Some n) }
    {
        if self.key.has_parent_of(key) {
            Some(self.above)
        } else if self.key.is_parent_of(key) {
            self.number
        } else {
            None
        }
    }
}
