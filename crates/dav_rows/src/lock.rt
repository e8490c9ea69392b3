//! The rows of locks.
ghost use Rattle.std.specs.Prelude.{◌≡◌, ℤ, false, map};
ghost use Rattle.std.specs.FinMap.{entries};
ghost use Rattle.sqlite.specs.State.{HasCleanDisk, KeepsCommit, Survives};
ghost use Rattle.sqlite.specs.Held.{state};
ghost use Rattle.dav_rows.specs.Contents.{lock_cells};
ghost use Rattle.dav_rows.specs.Changes.{lock_entry, put_lock};
ghost use Rattle.dav_rows.specs.Saving.{Applies};
ghost use Rattle.dav_rows.specs.Loading.{Reads, lock_in};
ghost use Rattle.dav_rows.specs.Failing.{IsTooLong, FailsToApply, FailsExcused};

use crate::execute::execute;
use crate::reading::{TableRow, read_rows, value_of};
use sqlite::{Alter, Connection, Error, Row, Transaction, params};
use std::alloc::Global;

/// A lock under its token, at a path.
#[derive(Debug, Drop)]
pub struct LockRow {
    pub number: i64,
    pub token: String,
    pub path: String,
    pub lock: Vec<u8>,
}

impl TableRow for LockRow {
    ghost use Rattle.dav_rows.specs.Contents.{LockValues};
    ghost use Rattle.dav_rows.specs.Failing.{IsUtf8Lock, IsShownBy};

    ghost Entry = { ℤ × LockValues };

    ghost entry = { lock_entry };

    ghost entry_in = { lock_in };

    ghost IsReadable = { IsShownBy lock_cells IsUtf8Lock };

    fn from_row(row: &Row) -> Result<LockRow, Error> {
        Ok(LockRow {
            number: value_of(row, 0)?,
            token: value_of(row, 1)?,
            path: value_of(row, 2)?,
            lock: value_of(row, 3)?,
        })
    }
}

pub(crate) fn put<S: Alter>(tx: &mut Transaction<'_, S>, row: &LockRow) -> Result<usize, Error>
    ensures same_reference { tx.new.conn.ghost_name ≡ tx.old.conn.ghost_name }
    ensures row { Applies (state S.Store tx.old.conn.now) (state S.Store tx.new.conn.now) (put_lock row.now) result }
    ensures err { FailsToApply (state S.Store tx.old.conn.now) (state S.Store tx.new.conn.now) (IsTooLong lock_cells (lock_entry row.now)) result }
    ensures kept { HasCleanDisk (state S.Store tx.new.conn.now) → KeepsCommit (state S.Store tx.old.conn.now) (state S.Store tx.new.conn.now) }
    ensures survives { Survives (state S.Store tx.old.conn.now) (state S.Store tx.new.conn.now) (λ _. ⊥) }
{
    // The proof needs that it is an `i64`, which is known once it is read.
    let _number = row.number;
    execute(
        tx,
        "INSERT OR REPLACE INTO lock (number, token, path, lock) VALUES (?1, ?2, ?3, ?4)",
        params![&row.number, &row.token, &row.path, &row.lock],
    )
}

/// Reads the whole table, in the order of the numbers.
pub(crate) fn load_all<S: Alter>(
    conn: &mut Connection<S>,
    alloc: Global,
) -> Result<Vec<LockRow>, Error>
    requires { conn.old.in_transaction ≡ false }
    ensures idle { conn.new.in_transaction ≡ false }
    ensures reads { Reads (state S.Store conn.old) (state S.Store conn.new) result (λ all m. map lock_entry all.items ≡ entries m.locks) }
    ensures err { FailsExcused (state S.Store conn.old) (state S.Store conn.new) result }
{
    read_rows(
        conn,
        alloc,
        "SELECT number, token, path, lock FROM lock ORDER BY number",
    )
}
