//! What is kept of a store beside its resources and its locks.
ghost use Rattle.std.specs.Prelude.{◌≡◌, ℕ, [], ◌∷◌, pos, map, Ok, IfOk};
ghost use Rattle.dav_rows.specs.Changes.{state_entry};
ghost use Rattle.dav_keep.specs.Images.{values_of};
ghost use Rattle.dav_keep.specs.declared.numbers.Numbers.{Numbers as TheNumbers};

use dav_rows::StateRow;
use dav_store_rows::{LoadError, SaveError};

/// What is kept of a store beside its resources and its locks.
#[derive(Clone, Copy, Debug)]
pub struct Numbers {
    /// How many changes the store has had.
    pub counter: u64,
    /// The time of the last batch that changed something, in whole seconds since 1970.
    pub time: u64,
    /// The number of that batch.
    pub batch: u64,
    /// The key of the digests.
    pub key: u64,
}

/// Returns the row of the state. Fails with `TooLarge` if a number does not fit in 63 bits.
pub(crate) fn row_of(numbers: Numbers) -> Result<StateRow, SaveError>
    ensures { IfOk result (λ row. state_entry row ≡ (pos 0, values_of numbers)) }
{
    Ok(StateRow {
        number: 0,
        counter: i64::try_from(numbers.counter)?,
        time: i64::try_from(numbers.time)?,
        batch: i64::try_from(numbers.batch)?,
        digest_key: i64::try_from(numbers.key)?,
    })
}

/// Returns the numbers in the first row of the state. Returns `Damaged` if there is none, or if a number is negative.
pub(crate) fn numbers_of(rows: &[StateRow]) -> Result<Numbers, LoadError>
    ensures { (numbers : TheNumbers) (rest : _) → map state_entry rows.now ≡ (pos 0, values_of numbers) ∷ rest → result ≡ Ok numbers }
{
    match rows {
        [row, ..] => Ok(Numbers {
            counter: unsigned(row.counter)?,
            time: unsigned(row.time)?,
            batch: unsigned(row.batch)?,
            key: unsigned(row.digest_key)?,
        }),
        [] => Err(LoadError::Damaged),
    }
}

/// Returns a number of a row. Returns `Damaged` if it is negative.
fn unsigned(value: i64) -> Result<u64, LoadError>
    ensures { (n : ℕ) → value ≡ pos n → result ≡ Ok n }
{
    match u64::try_from(value) {
        Ok(number) => Ok(number),
        Err(_) => Err(LoadError::Damaged),
    }
}
