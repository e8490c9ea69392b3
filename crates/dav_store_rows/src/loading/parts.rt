//! Which rows are parts of a resource.
ghost use Rattle.std.specs.Prelude.{◌≡◌, length};
ghost use Rattle.std.specs.List.{take_while};
ghost use Rattle.dav_rows.specs.Changes.{extent_entry, property_entry};
ghost use Rattle.dav_store_rows.specs.Loads.{is_part};

use dav_rows::{ExtentRow, PropertyRow};

/// How many parts a resource has at most.
const MOST_PARTS: u64 = 1 << 32;

/// Returns whether a row with this key is of a part of the resource with this number.
fn is_part(key: i64, number: u64) -> bool
    ensures { result ≡ is_part number key }
{
    match u64::try_from(key) {
        Ok(key) => key / MOST_PARTS == number,
        Err(_) => false,
    }
}

/// Returns how many rows at the front are of extents of the resource with this number.
pub(crate) fn extents_len(rows: &[ExtentRow], number: u64) -> usize
    ensures { result ≡ length (take_while (λ row. is_part number (extent_entry row).0) rows.now) }
{
    rows.iter()
        .take_while(|row| is_part(row.number, number))
        .count()
}

/// Returns how many rows at the front are of properties of the resource with this number.
pub(crate) fn properties_len(rows: &[PropertyRow], number: u64) -> usize
    ensures { result ≡ length (take_while (λ row. is_part number (property_entry row).0) rows.now) }
{
    rows.iter()
        .take_while(|row| is_part(row.number, number))
        .count()
}
