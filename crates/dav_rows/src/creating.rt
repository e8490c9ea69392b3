//! Makes the tables of an empty database, with the first rows.
ghost use Rattle.std.specs.Prelude.{◌≡◌, ◌≤◌, ◌+◌, false, OnOk, OnErr};
ghost use Rattle.sqlite_trees.specs.View.{doubt};
ghost use Rattle.sqlite.specs.State.{HasCleanDisk, KeepsCommit, Survives};
ghost use Rattle.sqlite.specs.Held.{state};
ghost use Rattle.dav_rows.specs.Texts.{creation};
ghost use Rattle.dav_rows.specs.Failing.{FailsToBuild, FailsToFill, FailsToCreate, FailsToFillNotes, FailsToUpgrade};
ghost use Rattle.dav_rows.specs.Tables.{older_schema};
ghost use Rattle.dav_rows.specs.Contents.{Contents};
ghost use Rattle.dav_rows.specs.Changes.{after};
ghost use Rattle.dav_rows.specs.Upgrading.{HoldsOlder, Upgrades, LeavesOlderOr};
ghost use Rattle.dav_rows.specs.Creating.{place, first, schema_of, IsInside, IsBare, Adds, Builds, Makes, IsFilled, StaysBlank, LeavesBlankOr};

use crate::change::{Change, Table};
use crate::execute::execute;
use crate::saving::apply_all;
use sqlite::{Alter, Connection, Error, Transaction};

pub(crate) fn creation_of(table: Table) -> &'static str
    ensures { result.now ≡ creation table }
{
    match table {
        Table::Resource => {
            "CREATE TABLE resource (number INTEGER PRIMARY KEY, parent INTEGER NOT NULL, name TEXT NOT NULL, directory INTEGER NOT NULL, size INTEGER NOT NULL, version INTEGER NOT NULL, created INTEGER NOT NULL, modified INTEGER NOT NULL) STRICT"
        }
        Table::Extent => {
            "CREATE TABLE extent (number INTEGER PRIMARY KEY, resource INTEGER NOT NULL, place INTEGER NOT NULL, pieces BLOB NOT NULL) STRICT"
        }
        Table::Property => {
            "CREATE TABLE property (number INTEGER PRIMARY KEY, resource INTEGER NOT NULL, namespace TEXT NOT NULL, name TEXT NOT NULL, element BLOB NOT NULL) STRICT"
        }
        Table::Lock => {
            "CREATE TABLE lock (number INTEGER PRIMARY KEY, token TEXT NOT NULL, path TEXT NOT NULL, lock BLOB NOT NULL) STRICT"
        }
        Table::State => {
            "CREATE TABLE state (number INTEGER PRIMARY KEY, counter INTEGER NOT NULL, time INTEGER NOT NULL, batch INTEGER NOT NULL, digest_key INTEGER NOT NULL) STRICT"
        }
        Table::Note => {
            "CREATE TABLE note (number INTEGER PRIMARY KEY, kind INTEGER NOT NULL, owner INTEGER NOT NULL, value BLOB NOT NULL) STRICT"
        }
    }
}

/// Makes a table behind those that are there.
fn create_table<S: Alter>(tx: &mut Transaction<'_, S>, table: Table) -> Result<usize, Error>
    ensures same_reference { tx.new.conn.ghost_name ≡ tx.old.conn.ghost_name }
    ensures made { Builds (state S.Store tx.old.conn.now) (state S.Store tx.new.conn.now) (place table) (place table + 1) result }
    ensures added { HasCleanDisk (state S.Store tx.new.conn.now) → IsInside (schema_of (place table)) (state S.Store tx.old.conn.now)
        → OnOk result (Adds (place table) (state S.Store tx.old.conn.now) (state S.Store tx.new.conn.now)) }
    ensures err { FailsToBuild (place table) (state S.Store tx.old.conn.now) (state S.Store tx.new.conn.now) result }
    ensures kept { HasCleanDisk (state S.Store tx.new.conn.now) → KeepsCommit (state S.Store tx.old.conn.now) (state S.Store tx.new.conn.now) }
    ensures survives { Survives (state S.Store tx.old.conn.now) (state S.Store tx.new.conn.now) (λ _. ⊥) }
{
    let sql = creation_of(table);
    execute(tx, sql, &[])
}

fn create_tables<S: Alter>(tx: &mut Transaction<'_, S>) -> Result<(), Error>
    ensures same_reference { tx.new.conn.ghost_name ≡ tx.old.conn.ghost_name }
    ensures made { Builds (state S.Store tx.old.conn.now) (state S.Store tx.new.conn.now) 0 6 result }
    ensures err { FailsToBuild 0 (state S.Store tx.old.conn.now) (state S.Store tx.new.conn.now) result }
    ensures kept { HasCleanDisk (state S.Store tx.new.conn.now) → KeepsCommit (state S.Store tx.old.conn.now) (state S.Store tx.new.conn.now) }
    ensures survives { Survives (state S.Store tx.old.conn.now) (state S.Store tx.new.conn.now) (λ _. ⊥) }
{
    let tables = [
        Table::Resource,
        Table::Extent,
        Table::Property,
        Table::Lock,
        Table::State,
        Table::Note,
    ];
    'tables: for table in &tables {
        create_table(tx, *table)?;
    }
    Ok(())
}

fn fill<S: Alter>(tx: &mut Transaction<'_, S>, changes: &[Change]) -> Result<(), Error>
    ensures same_reference { tx.new.conn.ghost_name ≡ tx.old.conn.ghost_name }
    ensures made { HasCleanDisk (state S.Store tx.new.conn.now) → IsBare (state S.Store tx.old.conn.now)
        → OnOk result (IsFilled (state S.Store tx.old.conn.now) (state S.Store tx.new.conn.now) (first changes.now)) }
    ensures err { FailsToFill (state S.Store tx.old.conn.now) (state S.Store tx.new.conn.now) changes.now result }
    ensures kept { HasCleanDisk (state S.Store tx.new.conn.now) → KeepsCommit (state S.Store tx.old.conn.now) (state S.Store tx.new.conn.now) }
    ensures survives { Survives (state S.Store tx.old.conn.now) (state S.Store tx.new.conn.now) (λ _. ⊥) }
{
    create_tables(tx)?;
    apply_all(tx, changes)
}

/// Makes the tables of an empty database and applies the changes to them, in one transaction.
/// A crash leaves the tables with all of the changes, or an empty database.
/// It fails if SQLite fails, as when the database has such a table already, memory runs out or the disk fails.
/// In an empty database it fails only if memory runs out, the disk reports a fault, a query reaches the caller's step limit, or a row is too long.
/// After an `Err` the database is still empty, or the connection is closed.
pub fn create<S: Alter>(conn: &mut Connection<S>, changes: &[Change]) -> Result<(), Error>
    requires { conn.old.in_transaction ≡ false }
    ensures idle { conn.new.in_transaction ≡ false }
    ensures ok { HasCleanDisk (state S.Store conn.new) → OnOk result (Makes (state S.Store conn.old) (state S.Store conn.new) (first changes.now)) }
    ensures err { HasCleanDisk (state S.Store conn.new) → OnErr result (StaysBlank (state S.Store conn.old) (state S.Store conn.new)) }
    ensures crash { HasCleanDisk (state S.Store conn.new) → LeavesBlankOr (state S.Store conn.old) (state S.Store conn.new) (first changes.now) }
    ensures faults { (state S.Store conn.old).faults ≤ (state S.Store conn.new).faults }
    ensures limit { (state S.Store conn.new).step_limit ≡ (state S.Store conn.old).step_limit }
    ensures cause { FailsToCreate (state S.Store conn.old) (state S.Store conn.new) changes.now result }
    ensures clean { doubt (state S.Store conn.old).is_clean ≤ doubt (state S.Store conn.new).is_clean }
{
    let mut tx = conn.transaction();
    fill(&mut tx, changes)?;
    tx.commit()
}

/// Makes the table of the notes behind those of version 1, and applies the changes.
fn fill_notes<S: Alter>(tx: &mut Transaction<'_, S>, changes: &[Change]) -> Result<(), Error>
    ensures same_reference { tx.new.conn.ghost_name ≡ tx.old.conn.ghost_name }
    ensures made { HasCleanDisk (state S.Store tx.new.conn.now) → IsInside older_schema (state S.Store tx.old.conn.now)
        → (m : Contents) → HoldsOlder (state S.Store tx.old.conn.now).now.trees m
        → OnOk result (IsFilled (state S.Store tx.old.conn.now) (state S.Store tx.new.conn.now) (after changes.now m)) }
    ensures err { FailsToFillNotes (state S.Store tx.old.conn.now) (state S.Store tx.new.conn.now) changes.now result }
    ensures kept { HasCleanDisk (state S.Store tx.new.conn.now) → KeepsCommit (state S.Store tx.old.conn.now) (state S.Store tx.new.conn.now) }
    ensures survives { Survives (state S.Store tx.old.conn.now) (state S.Store tx.new.conn.now) (λ _. ⊥) }
{
    create_table(tx, Table::Note)?;
    apply_all(tx, changes)
}

/// Makes the table of the notes behind those of version 1 and applies the changes, in one transaction.
/// A crash leaves the old tables as they were, or all tables with all of the changes.
/// Over the tables of version 1 it fails only if memory runs out, the disk reports a fault, a query reaches the caller's step limit,
/// or a row is too long.
pub(crate) fn add_notes<S: Alter>(conn: &mut Connection<S>, changes: &[Change]) -> Result<(), Error>
    requires { conn.old.in_transaction ≡ false }
    ensures idle { conn.new.in_transaction ≡ false }
    ensures ok { HasCleanDisk (state S.Store conn.new) → OnOk result (Upgrades (state S.Store conn.old) (state S.Store conn.new) (after changes.now)) }
    ensures crash { HasCleanDisk (state S.Store conn.new) → LeavesOlderOr (state S.Store conn.old) (state S.Store conn.new) (after changes.now) }
    ensures err { FailsToUpgrade (state S.Store conn.old) (state S.Store conn.new) changes.now result }
    ensures clean { doubt (state S.Store conn.old).is_clean ≤ doubt (state S.Store conn.new).is_clean }
{
    let mut tx = conn.transaction();
    fill_notes(&mut tx, changes)?;
    tx.commit()
}
