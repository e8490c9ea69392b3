//! The places of a tree that were looked up last.
ghost use Rattle.std.specs.Prelude.{◌≡◌, ℕ, Option, Some, IfSome};
ghost use Rattle.dav_key.specs.Key.{Key, parent};
ghost use Rattle.dav_nodes.specs.Memo.{IsKnown, IsKnownAt, AreKnown, ArePlaces, KeepsOthers};

use crate::place::Place;
use dav_key::FlatKey;

/// The two places that were looked up last. They never say that a key has no number.
#[derive(Debug, Drop)]
pub(crate) struct Memo {
    pub last: Option<Place>,
    pub other: Option<Place>,
}

impl Memo {
    /// Creates a memo without places.
    pub fn new() -> Memo
        ensures { (numbers : Key → Option ℕ) → AreKnown numbers result }
    {
        Memo {
            last: None,
            other: None,
        }
    }

    /// Returns the number of a key, if it is known.
    pub fn number_of(&self, key: &FlatKey) -> Option<usize>
        ensures { (numbers : Key → Option ℕ) → AreKnown numbers self.now → IfSome result (λ n. numbers key.now ≡ Some n) }
    {
        if let Some(place) = &self.last {
            let number = place.number_of(key);
            if number.is_some() {
                return number;
            }
        }
        match &self.other {
            Some(place) => place.number_of(key),
            None => None,
        }
    }

    /// Returns the number of a key's parent, if it is known.
    pub fn number_above(&self, key: &FlatKey) -> Option<usize>
        ensures { (numbers : Key → Option ℕ) → AreKnown numbers self.now → IfSome result (λ n. numbers (parent key.now) ≡ Some n) }
    {
        if let Some(place) = &self.last {
            let number = place.number_above(key);
            if number.is_some() {
                return number;
            }
        }
        match &self.other {
            Some(place) => place.number_above(key),
            None => None,
        }
    }

    /// Makes this the place that was looked up last. It replaces a place with the same parent, so that two
    /// collections are known when requests alternate between them.
    fn note(&mut self, place: Place)
        ensures { (numbers : Key → Option ℕ) → AreKnown numbers self.old → IsKnown numbers place → AreKnown numbers self.new }
    {
        let beside = match &self.last {
            Some(last) => last.key.has_parent_of(&place.key),
            None => true,
        };
        if !beside {
            self.other = self.last.take();
        }
        self.last = Some(place);
    }

    /// Makes this the place that was looked up last, as `note` does, unless there are already as many copies of
    /// the key as a `usize` counts.
    pub fn note_at(&mut self, key: &FlatKey, above: usize, number: Option<usize>)
        ensures { (numbers : Key → Option ℕ) → AreKnown numbers self.old → IsKnownAt numbers key.now above number → AreKnown numbers self.new }
    {
        if let Ok(key) = key.clone() {
            self.note(Place { key, above, number });
        }
    }

    /// Forgets the places that name a number.
    pub fn forget(&mut self, number: usize)
        ensures { (old new : Key → Option ℕ) → AreKnown old self.old → KeepsOthers number old new → AreKnown new self.new }
    {
        self.last = without(self.last.take(), number);
        self.other = without(self.other.take(), number);
    }

    /// Forgets all places.
    pub fn clear(&mut self)
        ensures { (numbers : Key → Option ℕ) → AreKnown numbers self.new }
    {
        self.last = None;
        self.other = None;
    }
}

/// Returns what the place says without this number.
fn without(place: Option<Place>, number: usize) -> Option<Place>
    ensures { (old new : Key → Option ℕ) → ArePlaces old place → KeepsOthers number old new → ArePlaces new result }
{
    let Place {
        key,
        above,
        number: own,
    } = place?;
    if above == number {
        return None;
    }
    let own = match own {
        Some(n) if n != number => Some(n),
        _ => None,
    };
    Some(Place {
        key,
        above,
        number: own,
    })
}
