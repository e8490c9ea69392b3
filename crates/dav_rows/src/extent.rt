//! The rows of the pieces of files.
ghost use Rattle.std.specs.Prelude.{◌≡◌, ℤ, false, map};
ghost use Rattle.std.specs.FinMap.{entries};
ghost use Rattle.sqlite.specs.State.{HasCleanDisk, KeepsCommit, Survives};
ghost use Rattle.sqlite.specs.Held.{state};
ghost use Rattle.dav_rows.specs.Contents.{extent_cells};
ghost use Rattle.dav_rows.specs.Changes.{extent_entry, put_extent};
ghost use Rattle.dav_rows.specs.Saving.{Applies};
ghost use Rattle.dav_rows.specs.Loading.{Reads, extent_in};
ghost use Rattle.dav_rows.specs.Failing.{IsTooLong, FailsToApply, FailsExcused};

use crate::execute::execute;
use crate::reading::{TableRow, read_rows, value_of};
use sqlite::{Alter, Connection, Error, Row, Transaction, params};
use std::alloc::Global;

/// The pieces of a part of a file, from a place on.
#[derive(Debug, Drop)]
pub struct ExtentRow {
    pub number: i64,
    pub resource: i64,
    pub place: i64,
    pub pieces: Vec<u8>,
}

impl TableRow for ExtentRow {
    ghost use Rattle.dav_rows.specs.Contents.{ExtentValues};
    ghost use Rattle.dav_rows.specs.Failing.{HasNoText, IsShownBy};

    ghost Entry = { ℤ × ExtentValues };

    ghost entry = { extent_entry };

    ghost entry_in = { extent_in };

    ghost IsReadable = { IsShownBy extent_cells HasNoText };

    fn from_row(row: &Row) -> Result<ExtentRow, Error> {
        Ok(ExtentRow {
            number: value_of(row, 0)?,
            resource: value_of(row, 1)?,
            place: value_of(row, 2)?,
            pieces: value_of(row, 3)?,
        })
    }
}

pub(crate) fn put<S: Alter>(tx: &mut Transaction<'_, S>, row: &ExtentRow) -> Result<usize, Error>
    ensures same_reference { tx.new.conn.ghost_name ≡ tx.old.conn.ghost_name }
    ensures row { Applies (state S.Store tx.old.conn.now) (state S.Store tx.new.conn.now) (put_extent row.now) result }
    ensures err { FailsToApply (state S.Store tx.old.conn.now) (state S.Store tx.new.conn.now)
        (IsTooLong extent_cells (extent_entry row.now)) result }
    ensures kept { HasCleanDisk (state S.Store tx.new.conn.now) → KeepsCommit (state S.Store tx.old.conn.now) (state S.Store tx.new.conn.now) }
    ensures survives { Survives (state S.Store tx.old.conn.now) (state S.Store tx.new.conn.now) (λ _. ⊥) }
{
    // The proof needs that it is an `i64`, which is known once it is read.
    let _number = row.number;
    execute(
        tx,
        "INSERT OR REPLACE INTO extent (number, resource, place, pieces) VALUES (?1, ?2, ?3, ?4)",
        params![&row.number, &row.resource, &row.place, &row.pieces],
    )
}

/// Reads the whole table, in the order of the numbers.
pub(crate) fn load_all<S: Alter>(
    conn: &mut Connection<S>,
    alloc: Global,
) -> Result<Vec<ExtentRow>, Error>
    requires { conn.old.in_transaction ≡ false }
    ensures idle { conn.new.in_transaction ≡ false }
    ensures reads { Reads (state S.Store conn.old) (state S.Store conn.new) result (λ all m. map extent_entry all.items ≡ entries m.extents) }
    ensures err { FailsExcused (state S.Store conn.old) (state S.Store conn.new) result }
{
    read_rows(
        conn,
        alloc,
        "SELECT number, resource, place, pieces FROM extent ORDER BY number",
    )
}
