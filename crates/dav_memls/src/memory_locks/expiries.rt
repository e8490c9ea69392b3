//! Numbers by the time when their locks expire.
ghost use Rattle.std.specs.Prelude.{◌≡◌, ℕ, false, MatchOption, OnOk, OnErr};
ghost use Rattle.dav_memls.specs.Expiries.{is_due, is_time};

use std::alloc::{AllocError, Global};
use std::collections::BTreeSet;

/// The numbers of locks, ordered by the time when each lock expires. To add or remove a number takes as many
/// comparisons as the logarithm of the size of the set. A lock without a timeout is never in it.
#[derive(Debug, Drop)]
pub struct Expiries {
    set: BTreeSet<(u64, u64)>,
}

impl Expiries {
    ghost use Rattle.dav_memls.specs.Expiries.{KeepsExpiries, AddsExpiry, RemovesExpiry, MovesExpiry, IsFirst};

    /// Creates an empty set.
    pub fn new(alloc: Global) -> Expiries
        ensures { (time n : ℕ) → is_due result time n ≡ false }
    {
        Expiries {
            set: BTreeSet::new(alloc),
        }
    }

    /// Returns the earliest time, and a number that has it.
    pub fn first(&self) -> Option<(u64, u64)>
        ensures { MatchOption result ((time n : ℕ) → is_due self.now time n ≡ false) (IsFirst self.now) }
    {
        self.set.first().copied()
    }

    /// Adds a number at a time, if there is one. Fails only if memory runs out, and then nothing changes.
    pub fn insert(&mut self, at: Option<u64>, number: u64) -> Result<(), AllocError>
        ensures ok { OnOk result (AddsExpiry at number self.old self.new) }
        ensures err { OnErr result (KeepsExpiries self.old self.new) }
    {
        if let Some(at) = at {
            self.set.insert((at, number))?;
        }
        Ok(())
    }

    /// Removes a number at a time, if there is one.
    pub fn remove(&mut self, at: Option<u64>, number: u64)
        ensures { RemovesExpiry at number self.old self.new }
    {
        if let Some(at) = at {
            self.set.remove(&(at, number));
        }
    }

    /// Gives a number another time, or none. Its time so far must be `old`. Fails only if memory runs out,
    /// and then nothing changes.
    pub fn change(
        &mut self,
        number: u64,
        old: Option<u64>,
        new: Option<u64>,
    ) -> Result<(), AllocError>
        requires { (time : ℕ) → is_due self.old time number ≡ is_time old time }
        ensures ok { OnOk result (MovesExpiry new number self.old self.new) }
        ensures err { OnErr result (KeepsExpiries self.old self.new) }
    {
        if new != old {
            self.insert(new, number)?;
            self.remove(old, number);
        }
        Ok(())
    }
}
