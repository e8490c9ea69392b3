//! The row of what a store has beside its resources.
ghost use Rattle.std.specs.Prelude.{◌≡◌, ◌⊎◌, ℤ, false, map};
ghost use Rattle.std.specs.FinMap.{entries};
ghost use Rattle.sqlite.specs.State.{HasCleanDisk, KeepsCommit, Survives};
ghost use Rattle.sqlite.specs.Held.{state};
ghost use Rattle.dav_rows.specs.Contents.{state_cells};
ghost use Rattle.dav_rows.specs.Changes.{state_entry, put_state, put_two_states};
ghost use Rattle.dav_rows.specs.Saving.{Applies};
ghost use Rattle.dav_rows.specs.Loading.{Reads, state_in};
ghost use Rattle.dav_rows.specs.Failing.{IsTooLong, FailsToApply, FailsExcused};

use crate::execute::execute;
use crate::reading::{TableRow, read_rows, value_of};
use sqlite::{Alter, Connection, Error, Row, Transaction, params};
use std::alloc::Global;

/// What the store counts. Its one row has number 0.
#[derive(Debug, Drop)]
pub struct StateRow {
    pub number: i64,
    pub counter: i64,
    pub time: i64,
    pub batch: i64,
    pub digest_key: i64,
}

impl TableRow for StateRow {
    ghost use Rattle.dav_rows.specs.Contents.{StateValues};
    ghost use Rattle.dav_rows.specs.Failing.{HasNoText, IsShownBy};

    ghost Entry = { ℤ × StateValues };

    ghost entry = { state_entry };

    ghost entry_in = { state_in };

    ghost IsReadable = { IsShownBy state_cells HasNoText };

    fn from_row(row: &Row) -> Result<StateRow, Error> {
        Ok(StateRow {
            number: value_of(row, 0)?,
            counter: value_of(row, 1)?,
            time: value_of(row, 2)?,
            batch: value_of(row, 3)?,
            digest_key: value_of(row, 4)?,
        })
    }
}

pub(crate) fn put<S: Alter>(tx: &mut Transaction<'_, S>, row: &StateRow) -> Result<usize, Error>
    ensures same_reference { tx.new.conn.ghost_name ≡ tx.old.conn.ghost_name }
    ensures row { Applies (state S.Store tx.old.conn.now) (state S.Store tx.new.conn.now) (put_state row.now) result }
    ensures err { FailsToApply (state S.Store tx.old.conn.now) (state S.Store tx.new.conn.now) (IsTooLong state_cells (state_entry row.now)) result }
    ensures kept { HasCleanDisk (state S.Store tx.new.conn.now) → KeepsCommit (state S.Store tx.old.conn.now) (state S.Store tx.new.conn.now) }
    ensures survives { Survives (state S.Store tx.old.conn.now) (state S.Store tx.new.conn.now) (λ _. ⊥) }
{
    // The proof needs that it is an `i64`, which is known once it is read.
    let _number = row.number;
    execute(
        tx,
        "INSERT OR REPLACE INTO state (number, counter, time, batch, digest_key) VALUES (?1, ?2, ?3, ?4, ?5)",
        params![
            &row.number,
            &row.counter,
            &row.time,
            &row.batch,
            &row.digest_key
        ],
    )
}

/// Puts two rows, the first of them first. One statement costs less than two.
pub(crate) fn put_two<S: Alter>(
    tx: &mut Transaction<'_, S>,
    first: &StateRow,
    second: &StateRow,
) -> Result<usize, Error>
    ensures same_reference { tx.new.conn.ghost_name ≡ tx.old.conn.ghost_name }
    ensures rows { Applies (state S.Store tx.old.conn.now) (state S.Store tx.new.conn.now) (put_two_states first.now second.now) result }
    ensures err { FailsToApply (state S.Store tx.old.conn.now) (state S.Store tx.new.conn.now)
        (IsTooLong state_cells (state_entry first.now) ⊎ IsTooLong state_cells (state_entry second.now)) result }
    ensures kept { HasCleanDisk (state S.Store tx.new.conn.now) → KeepsCommit (state S.Store tx.old.conn.now) (state S.Store tx.new.conn.now) }
    ensures survives { Survives (state S.Store tx.old.conn.now) (state S.Store tx.new.conn.now) (λ _. ⊥) }
{
    // The proof needs that they are `i64`, which is known once they are read.
    let _numbers = (first.number, second.number);
    execute(
        tx,
        "INSERT OR REPLACE INTO state (number, counter, time, batch, digest_key) VALUES (?1, ?2, ?3, ?4, ?5), (?6, ?7, ?8, ?9, ?10)",
        params![
            &first.number,
            &first.counter,
            &first.time,
            &first.batch,
            &first.digest_key,
            &second.number,
            &second.counter,
            &second.time,
            &second.batch,
            &second.digest_key
        ],
    )
}

/// Reads the whole table, in the order of the numbers.
pub(crate) fn load_all<S: Alter>(
    conn: &mut Connection<S>,
    alloc: Global,
) -> Result<Vec<StateRow>, Error>
    requires { conn.old.in_transaction ≡ false }
    ensures idle { conn.new.in_transaction ≡ false }
    ensures reads { Reads (state S.Store conn.old) (state S.Store conn.new) result (λ all m. map state_entry all.items ≡ entries m.states) }
    ensures err { FailsExcused (state S.Store conn.old) (state S.Store conn.new) result }
{
    read_rows(
        conn,
        alloc,
        "SELECT number, counter, time, batch, digest_key FROM state ORDER BY number",
    )
}
