//! Which numbers have changed.
ghost use Rattle.std.specs.Prelude.{◌≡◌, ℕ, true, false};
ghost use Rattle.dav_nodes.specs.Rows.{is_noted};

use std::alloc::Global;
use std::collections::BTreeSet;

/// The numbers that are noted as changed.
#[derive(Debug, Drop)]
pub enum Changes {
    /// Every number.
    All,
    /// These numbers.
    Numbers(BTreeSet<usize>),
}

impl Changes {
    /// Creates a set of no numbers.
    pub fn none(alloc: Global) -> Changes
        ensures { (number : ℕ) → is_noted result number ≡ false }
    {
        Changes::Numbers(BTreeSet::new(alloc))
    }

    /// Whether a number is noted.
    pub fn contains(&self, number: usize) -> bool
        ensures { result ≡ is_noted self.now number }
    {
        match self {
            Changes::All => true,
            Changes::Numbers(numbers) => numbers.contains(&number),
        }
    }

    /// Whether no number is noted.
    pub fn is_empty(&self) -> bool
        ensures { result ≡ true → (number : ℕ) → is_noted self.now number ≡ false }
    {
        match self {
            Changes::All => false,
            Changes::Numbers(numbers) => numbers.is_empty(),
        }
    }

    /// Notes a number. If memory runs out, every number is noted.
    pub(crate) fn note(&mut self, number: usize)
        ensures noted { is_noted self.new number ≡ true }
        ensures kept { (n : ℕ) → is_noted self.old n ≡ true → is_noted self.new n ≡ true }
    {
        let Changes::Numbers(numbers) = self else {
            return;
        };
        if numbers.insert(number).is_err() {
            *self = Changes::All;
        }
    }
}
