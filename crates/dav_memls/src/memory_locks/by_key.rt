//! Numbers by key.
ghost use Rattle.std.specs.Prelude.{◌≡◌, ◌&&◌, [], OnOk, OnErr};
ghost use Rattle.std.specs.Map.{keys_of};
ghost use Rattle.std.specs.Option.{option_copied};
ghost use Rattle.std.specs.Rc.{rc_str_bytes};
ghost use Rattle.std.proofs.Props.{props};
ghost use Rattle.dav_key.specs.Key.{Key, is_same_key};
ghost use Rattle.dav_key.specs.Flat.{segments_of, IsFlatText};
ghost use Rattle.dav_memls.specs.Numbers.{IsAbove};
ghost use Rattle.dav_memls.specs.KeyEntries.{AreFlat, IsTidy, listed};
ghost use Rattle.dav_memls.specs.TextProps.{IsFlatText-prop};

use super::numbers::Numbers;
use std::alloc::{AllocError, Global};
use std::collections::BTreeMap;
use std::collections::btree_map::Range;
use std::rc::RcStr;

/// Ascending numbers for each key. A key is its text, with a NUL before each segment. It has an entry only
/// while it has numbers. The entries are ordered by key, segment by segment, which is the order of the texts.
/// So those at or below a key are adjacent. A lookup takes as many comparisons of texts as the logarithm of
/// the number of entries, and allocates no memory.
#[derive(Debug, Drop)]
pub struct ByKey {
    map: BTreeMap<RcStr, Numbers>,
    ghost tidy: { IsTidy map.entries } by { Prim.hlevel props },
    ghost flat: { AreFlat (keys_of map.entries) } by { Prim.hlevel (props, IsFlatText-prop) },
}

impl ByKey {
    ghost use Rattle.dav_memls.specs.ByKey.{numbers_at, HasRun, KeepsNumbers, JoinsNumber, LeavesNumber};

    /// Creates a map without numbers.
    pub fn new(alloc: Global) -> ByKey
        ensures { (key : Key) → numbers_at result key ≡ [] }
    {
        ByKey {
            map: BTreeMap::new(alloc),
        }
    }

    /// Returns the numbers of the key with this text, if it has any.
    pub fn get(&self, key: &str) -> Option<&Numbers>
        requires { IsFlatText key.now }
        ensures { listed (option_copied result) ≡ numbers_at self.now (segments_of key.now) }
    {
        self.map.get(key)
    }

    /// Returns the entries from the key with this text on, in the order of their keys. All at or below the key
    /// are the first of them.
    pub fn run(&self, key: &RcStr) -> Range<'_, RcStr, Numbers>
        requires { IsFlatText (rc_str_bytes key.now) }
        ensures { HasRun (segments_of (rc_str_bytes key.now)) self.now result }
    {
        self.map.range(key..)
    }

    /// Adds a number after those of the key with this text. It must be greater than they are. An entry that
    /// it makes shares the text. Fails only if memory runs out, and then nothing changes.
    pub fn join(&mut self, alloc: Global, key: &RcStr, number: u64) -> Result<(), AllocError>
        requires flat { IsFlatText (rc_str_bytes key.now) }
        requires above { IsAbove number (numbers_at self.old (segments_of (rc_str_bytes key.now))) }
        ensures ok { OnOk result (JoinsNumber (λ k. is_same_key k (segments_of (rc_str_bytes key.now))) number self.old self.new) }
        ensures err { OnErr result (KeepsNumbers self.old self.new) }
    {
        if let Some(numbers) = self.map.get_mut(key) {
            numbers.push(number)?;
            return Ok(());
        }
        let mut numbers = Numbers::new(alloc);
        numbers.push(number)?;
        let key = key.clone()?;
        self.map.insert(key, numbers)?;
        Ok(())
    }

    /// Adds a number after those of a key, as `join` does, if it belongs there. Fails only if memory runs
    /// out, and then nothing changes.
    pub fn join_if(
        &mut self,
        belongs: bool,
        alloc: Global,
        key: &RcStr,
        number: u64,
    ) -> Result<(), AllocError>
        requires flat { IsFlatText (rc_str_bytes key.now) }
        requires above { IsAbove number (numbers_at self.old (segments_of (rc_str_bytes key.now))) }
        ensures ok { OnOk result (JoinsNumber (λ k. belongs && is_same_key k (segments_of (rc_str_bytes key.now))) number self.old self.new) }
        ensures err { OnErr result (KeepsNumbers self.old self.new) }
    {
        if belongs {
            self.join(alloc, key, number)?;
        }
        Ok(())
    }

    /// Removes a number from those of the key with this text.
    pub fn leave(&mut self, key: &RcStr, number: u64)
        requires { IsFlatText (rc_str_bytes key.now) }
        ensures { LeavesNumber (λ k. is_same_key k (segments_of (rc_str_bytes key.now))) number self.old self.new }
    {
        let Some(numbers) = self.map.get_mut(key) else {
            return;
        };
        numbers.remove(number);
        if numbers.is_empty() {
            self.map.remove(key);
        }
    }

    /// Removes a number from those of the key with this text, if it belongs there.
    pub fn leave_if(&mut self, belongs: bool, key: &RcStr, number: u64)
        requires { IsFlatText (rc_str_bytes key.now) }
        ensures { LeavesNumber (λ k. belongs && is_same_key k (segments_of (rc_str_bytes key.now))) number self.old self.new }
    {
        if belongs {
            self.leave(key, number);
        }
    }
}
