//! The rows of what later versions keep beside the other tables.
ghost use Rattle.std.specs.Prelude.{◌≡◌, ℤ, false, map};
ghost use Rattle.std.specs.FinMap.{entries};
ghost use Rattle.sqlite.specs.State.{HasCleanDisk, KeepsCommit, Survives};
ghost use Rattle.sqlite.specs.Held.{state};
ghost use Rattle.dav_rows.specs.Contents.{note_cells};
ghost use Rattle.dav_rows.specs.Changes.{note_entry, put_note};
ghost use Rattle.dav_rows.specs.Saving.{Applies};
ghost use Rattle.dav_rows.specs.Loading.{Reads, note_in};
ghost use Rattle.dav_rows.specs.Failing.{IsTooLong, FailsToApply, FailsExcused};

use crate::execute::execute;
use crate::reading::{TableRow, read_rows, value_of};
use sqlite::{Alter, Connection, Error, Row, Transaction, params};
use std::alloc::Global;

/// A note of some kind about its owner, as bytes.
#[derive(Debug, Drop)]
pub struct NoteRow {
    pub number: i64,
    pub kind: i64,
    pub owner: i64,
    pub value: Vec<u8>,
}

impl TableRow for NoteRow {
    ghost use Rattle.dav_rows.specs.Contents.{NoteValues};
    ghost use Rattle.dav_rows.specs.Failing.{HasNoText, IsShownBy};

    ghost Entry = { ℤ × NoteValues };

    ghost entry = { note_entry };

    ghost entry_in = { note_in };

    ghost IsReadable = { IsShownBy note_cells HasNoText };

    fn from_row(row: &Row) -> Result<NoteRow, Error> {
        Ok(NoteRow {
            number: value_of(row, 0)?,
            kind: value_of(row, 1)?,
            owner: value_of(row, 2)?,
            value: value_of(row, 3)?,
        })
    }
}

pub(crate) fn put<S: Alter>(tx: &mut Transaction<'_, S>, row: &NoteRow) -> Result<usize, Error>
    ensures same_reference { tx.new.conn.ghost_name ≡ tx.old.conn.ghost_name }
    ensures row { Applies (state S.Store tx.old.conn.now) (state S.Store tx.new.conn.now) (put_note row.now) result }
    ensures err { FailsToApply (state S.Store tx.old.conn.now) (state S.Store tx.new.conn.now) (IsTooLong note_cells (note_entry row.now)) result }
    ensures kept { HasCleanDisk (state S.Store tx.new.conn.now) → KeepsCommit (state S.Store tx.old.conn.now) (state S.Store tx.new.conn.now) }
    ensures survives { Survives (state S.Store tx.old.conn.now) (state S.Store tx.new.conn.now) (λ _. ⊥) }
{
    // The proof needs that it is an `i64`, which is known once it is read.
    let _number = row.number;
    execute(
        tx,
        "INSERT OR REPLACE INTO note (number, kind, owner, value) VALUES (?1, ?2, ?3, ?4)",
        params![&row.number, &row.kind, &row.owner, &row.value],
    )
}

/// Reads the whole table, in the order of the numbers.
pub(crate) fn load_all<S: Alter>(
    conn: &mut Connection<S>,
    alloc: Global,
) -> Result<Vec<NoteRow>, Error>
    requires { conn.old.in_transaction ≡ false }
    ensures idle { conn.new.in_transaction ≡ false }
    ensures reads { Reads (state S.Store conn.old) (state S.Store conn.new) result (λ all m. map note_entry all.items ≡ entries m.notes) }
    ensures err { FailsExcused (state S.Store conn.old) (state S.Store conn.new) result }
{
    read_rows(
        conn,
        alloc,
        "SELECT number, kind, owner, value FROM note ORDER BY number",
    )
}
