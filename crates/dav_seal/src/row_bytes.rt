//! The bytes of a row, over which its digest is taken.
ghost use Rattle.std.specs.Prelude.{◌≡◌, ◌++◌, ◌∷◌, map, OnOk, IfOk};
ghost use Rattle.sqlite_disk.specs.Digest.{digest};
ghost use Rattle.dav_seal.specs.RowBytes.{value_of, number_bytes, with_length, cell_bytes, row_bytes, IsCell, AreCells};

use sqlite_disk::digest_of;
use std::alloc::{AllocError, Global};

/// How many bytes a row has at most, if its name is short or its pieces are few.
const USUAL: usize = 256;

/// A cell of a row, with its bytes borrowed.
#[derive(Clone, Copy)]
pub(crate) enum Cell<'a> {
    Int(&'a i64),
    Text(&'a [u8]),
    Blob(&'a [u8]),
}

/// Returns the digest of a row of the table at this place, under the key.
pub(crate) fn row_digest(
    alloc: Global,
    key: u64,
    table: u8,
    cells: &[Cell],
) -> Result<u64, AllocError>
    ensures digest { IfOk result (λ d. d ≡ digest key (row_bytes table (map value_of cells.now))) }
    ensures cells { OnOk result (AreCells (map value_of cells.now)) }
{
    let mut bytes = Vec::with_capacity(alloc, USUAL)?;
    bytes.push(table)?;
    'cells: for cell in cells {
        push_cell(&mut bytes, *cell)?;
    }
    Ok(digest_of(key, &bytes))
}

#[tactic(auto, unfolding(crate::specs::RowBytes::cell_bytes))]
/// Appends the bytes of a cell.
fn push_cell(bytes: &mut Vec<u8>, cell: Cell) -> Result<(), AllocError>
    ensures bytes { OnOk result (bytes.new.items ≡ bytes.old.items ++ cell_bytes (value_of cell.entry)) }
    ensures cell { IsCell (value_of cell.entry) }
{
    match cell {
        Cell::Int(number) => push_number(bytes, 1, number.cast_unsigned()),
        Cell::Text(text) => push_bytes(bytes, 2, text),
        Cell::Blob(blob) => push_bytes(bytes, 3, blob),
    }
}

/// Appends what a cell holds, and its bytes behind their length.
fn push_bytes(bytes: &mut Vec<u8>, kind: u8, more: &[u8]) -> Result<(), AllocError>
    ensures { OnOk result (bytes.new.items ≡ bytes.old.items ++ kind ∷ with_length more.now) }
{
    push_number(bytes, kind, more.len() as u64)?;
    bytes.extend_from_slice(more)
}

#[tactic(auto, unfolding(crate::specs::RowBytes::number_bytes), using(std::proofs::lemmas::Grind::common_steps))]
/// Appends what a cell holds, and a number as 8 bytes, the highest first.
fn push_number(bytes: &mut Vec<u8>, kind: u8, number: u64) -> Result<(), AllocError>
    ensures { OnOk result (bytes.new.items ≡ bytes.old.items ++ kind ∷ number_bytes number) }
{
    bytes.push(kind)?;
    bytes.extend_from_slice(&number.to_be_bytes())
}
