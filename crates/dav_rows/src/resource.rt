//! The rows of resources.
ghost use Rattle.std.specs.Prelude.{◌≡◌, ℤ, false, map};
ghost use Rattle.std.specs.FinMap.{entries};
ghost use Rattle.sqlite.specs.State.{HasCleanDisk, KeepsCommit, Survives};
ghost use Rattle.sqlite.specs.Held.{state};
ghost use Rattle.dav_rows.specs.Contents.{resource_cells};
ghost use Rattle.dav_rows.specs.Changes.{resource_entry, put_resource};
ghost use Rattle.dav_rows.specs.Saving.{Applies};
ghost use Rattle.dav_rows.specs.Loading.{Reads, resource_in};
ghost use Rattle.dav_rows.specs.Failing.{IsTooLong, FailsToApply, FailsExcused};

use crate::execute::execute;
use crate::reading::{TableRow, read_rows, value_of};
use sqlite::{Alter, Connection, Error, Row, Transaction, params};
use std::alloc::Global;

/// A file or a directory of the tree, under the number of its parent.
#[derive(Debug, Drop)]
pub struct ResourceRow {
    pub number: i64,
    pub parent: i64,
    pub name: String,
    pub directory: bool,
    pub size: i64,
    pub version: i64,
    pub created: i64,
    pub modified: i64,
}

impl TableRow for ResourceRow {
    ghost use Rattle.dav_rows.specs.Contents.{ResourceValues};
    ghost use Rattle.dav_rows.specs.Failing.{IsUtf8Resource, IsShownBy};

    ghost Entry = { ℤ × ResourceValues };

    ghost entry = { resource_entry };

    ghost entry_in = { resource_in };

    ghost IsReadable = { IsShownBy resource_cells IsUtf8Resource };

    fn from_row(row: &Row) -> Result<ResourceRow, Error> {
        Ok(ResourceRow {
            number: value_of(row, 0)?,
            parent: value_of(row, 1)?,
            name: value_of(row, 2)?,
            directory: value_of(row, 3)?,
            size: value_of(row, 4)?,
            version: value_of(row, 5)?,
            created: value_of(row, 6)?,
            modified: value_of(row, 7)?,
        })
    }
}

pub(crate) fn put<S: Alter>(tx: &mut Transaction<'_, S>, row: &ResourceRow) -> Result<usize, Error>
    ensures same_reference { tx.new.conn.ghost_name ≡ tx.old.conn.ghost_name }
    ensures row { Applies (state S.Store tx.old.conn.now) (state S.Store tx.new.conn.now) (put_resource row.now) result }
    ensures err { FailsToApply (state S.Store tx.old.conn.now) (state S.Store tx.new.conn.now)
        (IsTooLong resource_cells (resource_entry row.now)) result }
    ensures kept { HasCleanDisk (state S.Store tx.new.conn.now) → KeepsCommit (state S.Store tx.old.conn.now) (state S.Store tx.new.conn.now) }
    ensures survives { Survives (state S.Store tx.old.conn.now) (state S.Store tx.new.conn.now) (λ _. ⊥) }
{
    // The proof needs that it is an `i64`, which is known once it is read.
    let _number = row.number;
    execute(
        tx,
        "INSERT OR REPLACE INTO resource (number, parent, name, directory, size, version, created, modified) VALUES (?1, ?2, ?3, ?4, ?5, ?6, ?7, ?8)",
        params![
            &row.number,
            &row.parent,
            &row.name,
            row.directory,
            &row.size,
            &row.version,
            &row.created,
            &row.modified
        ],
    )
}

/// Reads the whole table, in the order of the numbers.
pub(crate) fn load_all<S: Alter>(
    conn: &mut Connection<S>,
    alloc: Global,
) -> Result<Vec<ResourceRow>, Error>
    requires { conn.old.in_transaction ≡ false }
    ensures idle { conn.new.in_transaction ≡ false }
    ensures reads { Reads (state S.Store conn.old) (state S.Store conn.new) result (λ all m. map resource_entry all.items ≡ entries m.resources) }
    ensures err { FailsExcused (state S.Store conn.old) (state S.Store conn.new) result }
{
    read_rows(
        conn,
        alloc,
        "SELECT number, parent, name, directory, size, version, created, modified FROM resource ORDER BY number",
    )
}
