//! The rows of dead properties.
ghost use Rattle.std.specs.Prelude.{◌≡◌, ℤ, false, map};
ghost use Rattle.std.specs.FinMap.{entries};
ghost use Rattle.sqlite.specs.State.{HasCleanDisk, KeepsCommit, Survives};
ghost use Rattle.sqlite.specs.Held.{state};
ghost use Rattle.dav_rows.specs.Contents.{property_cells};
ghost use Rattle.dav_rows.specs.Changes.{property_entry, put_property};
ghost use Rattle.dav_rows.specs.Saving.{Applies};
ghost use Rattle.dav_rows.specs.Loading.{Reads, property_in};
ghost use Rattle.dav_rows.specs.Failing.{IsTooLong, FailsToApply, FailsExcused};

use crate::execute::execute;
use crate::reading::{TableRow, read_rows, value_of};
use sqlite::{Alter, Connection, Error, Row, Transaction, params};
use std::alloc::Global;

/// A property of a resource, as the element that was set.
#[derive(Debug, Drop)]
pub struct PropertyRow {
    pub number: i64,
    pub resource: i64,
    pub namespace: String,
    pub name: String,
    pub element: Vec<u8>,
}

impl TableRow for PropertyRow {
    ghost use Rattle.dav_rows.specs.Contents.{PropertyValues};
    ghost use Rattle.dav_rows.specs.Failing.{IsUtf8Property, IsShownBy};

    ghost Entry = { ℤ × PropertyValues };

    ghost entry = { property_entry };

    ghost entry_in = { property_in };

    ghost IsReadable = { IsShownBy property_cells IsUtf8Property };

    fn from_row(row: &Row) -> Result<PropertyRow, Error> {
        Ok(PropertyRow {
            number: value_of(row, 0)?,
            resource: value_of(row, 1)?,
            namespace: value_of(row, 2)?,
            name: value_of(row, 3)?,
            element: value_of(row, 4)?,
        })
    }
}

pub(crate) fn put<S: Alter>(tx: &mut Transaction<'_, S>, row: &PropertyRow) -> Result<usize, Error>
    ensures same_reference { tx.new.conn.ghost_name ≡ tx.old.conn.ghost_name }
    ensures row { Applies (state S.Store tx.old.conn.now) (state S.Store tx.new.conn.now) (put_property row.now) result }
    ensures err { FailsToApply (state S.Store tx.old.conn.now) (state S.Store tx.new.conn.now)
        (IsTooLong property_cells (property_entry row.now)) result }
    ensures kept { HasCleanDisk (state S.Store tx.new.conn.now) → KeepsCommit (state S.Store tx.old.conn.now) (state S.Store tx.new.conn.now) }
    ensures survives { Survives (state S.Store tx.old.conn.now) (state S.Store tx.new.conn.now) (λ _. ⊥) }
{
    // The proof needs that it is an `i64`, which is known once it is read.
    let _number = row.number;
    execute(
        tx,
        "INSERT OR REPLACE INTO property (number, resource, namespace, name, element) VALUES (?1, ?2, ?3, ?4, ?5)",
        params![
            &row.number,
            &row.resource,
            &row.namespace,
            &row.name,
            &row.element
        ],
    )
}

/// Reads the whole table, in the order of the numbers.
pub(crate) fn load_all<S: Alter>(
    conn: &mut Connection<S>,
    alloc: Global,
) -> Result<Vec<PropertyRow>, Error>
    requires { conn.old.in_transaction ≡ false }
    ensures idle { conn.new.in_transaction ≡ false }
    ensures reads { Reads (state S.Store conn.old) (state S.Store conn.new) result (λ all m. map property_entry all.items ≡ entries m.properties) }
    ensures err { FailsExcused (state S.Store conn.old) (state S.Store conn.new) result }
{
    read_rows(
        conn,
        alloc,
        "SELECT number, resource, namespace, name, element FROM property ORDER BY number",
    )
}
