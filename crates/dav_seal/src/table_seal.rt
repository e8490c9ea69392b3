//! The digests of a table's rows by number, and their sum.
ghost use Rattle.std.specs.Prelude.{◌≡◌, [], OnOk};
ghost use Rattle.dav_seal.specs.Held.{HasDigests, Puts, Removes, place_of};

use crate::pages::Pages;
use std::alloc::{AllocError, Global};

/// What divides a number of 64 bits into its halves.
const HALF: u64 = 1 << 32;

/// How the rows of a table are numbered.
#[derive(Clone, Copy)]
pub(crate) enum Numbering {
    /// One after the other.
    Plain,
    /// As parts of resources: the number of the resource in the upper 32 bits, and the index of the part in the lower ones.
    Parts,
}

/// The digest of each row of a table, and the sum of the digests, mod 2^64.
#[derive(Drop)]
pub(crate) struct TableSeal {
    numbering: Numbering,
    digests: Pages,
    sum: u64,
}

impl TableSeal {
    /// Returns the seal of no rows.
    pub fn new(alloc: Global, numbering: Numbering) -> TableSeal
        ensures { HasDigests result [] }
    {
        TableSeal {
            numbering,
            digests: Pages::new(alloc),
            sum: 0,
        }
    }

    /// Puts the digest of the row with this number, in place of any that is there. Fails only if memory runs out.
    pub fn put(&mut self, number: i64, digest: u64) -> Result<(), AllocError>
        ensures { OnOk result (Puts number digest self.old self.new) }
    {
        let old = self.digests.put(place_of(self.numbering, number), digest)?;
        self.sum = self.sum.wrapping_sub(old).wrapping_add(digest);
        Ok(())
    }

    /// Removes the digest of the row with this number, if there is one.
    pub fn remove(&mut self, number: &i64)
        ensures { Removes number.now self.old self.new }
    {
        let old = self.digests.clear(place_of(self.numbering, *number));
        self.sum = self.sum.wrapping_sub(old);
    }

    /// Returns the sum of the digests, mod 2^64.
    pub fn sum(&self) -> u64
        ensures { result ≡ self.now.sum }
    {
        self.sum
    }
}

/// Returns the place of a row's digest. Rows that are numbered one after the other have places in a row, and so have the
/// first parts of such resources.
fn place_of(numbering: Numbering, number: i64) -> u64
    ensures { result ≡ place_of numbering number }
{
    let number = number.cast_unsigned();
    match numbering {
        Numbering::Plain => number,
        Numbering::Parts => number % HALF * HALF + number / HALF,
    }
}
