//! How the rows of a resource's parts are numbered.
ghost use Rattle.std.specs.Prelude.{◌≡◌, ◌<◌, IfOk, IfErr, OnOk};
ghost use Rattle.dav_store_rows.specs.Parts.{MOST, part_key};
ghost use Rattle.dav_store_rows.specs.SaveErrors.{FailsUnless, HasPartKeys};

use crate::SaveError;

/// How many parts a resource has at most.
const MOST_PARTS: usize = 1 << 32;

/// How many resources have numbers for the rows of their parts.
const MOST_RESOURCES: usize = 1 << 31;

/// Returns the number of the row of a part of a resource. Returns `TooLarge` if it does not fit in 63 bits, or
/// if the index is too large for a part.
pub(crate) fn key_of_part(number: usize, index: usize) -> Result<i64, SaveError>
    ensures key { IfOk result (λ key. key ≡ part_key number index) }
    ensures few { OnOk result (index < MOST) }
    ensures err { IfErr result (FailsUnless (HasPartKeys number × (index < MOST)) (Unit {0})) }
{
    if index >= MOST_PARTS || number >= MOST_RESOURCES {
        return Err(SaveError::TooLarge);
    }
    Ok((number * MOST_PARTS + index) as i64)
}
