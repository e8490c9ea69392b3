//! Loads the rows of a database, or makes its tables.
ghost use Rattle.std.specs.Prelude.{◌≡◌, ◌↔◌, ◌≤◌, [], false, IfOk, IfErr, OnOk, IsErrOf};
ghost use Rattle.sqlite_trees.specs.View.{doubt};
ghost use Rattle.sqlite.specs.State.{HasCleanDisk};
ghost use Rattle.sqlite.specs.Held.{state};
ghost use Rattle.dav_rows.specs.Tables.{rows_schema, older_schema, no_schema};
ghost use Rattle.dav_rows.specs.Changes.{after};
ghost use Rattle.dav_rows.specs.Saving.{IsAt, Stays, LeavesNoOther};
ghost use Rattle.dav_rows.specs.Creating.{first, IsBlank, Makes, LeavesBlankOr};
ghost use Rattle.dav_rows.specs.Upgrading.{IsOlder, Upgrades, LeavesOlderOr};
ghost use Rattle.dav_rows.specs.Loading.{IsVersion, IsNoneOrOurs, Reads, ReadsBlank, AreHeld, AreNew, LeavesAlone, StaysAt};
ghost use Rattle.dav_rows.specs.Failing.{IsExcusedStart, IsExcusedFirst, HasUtf8, FailsToCreate, FailsExcused, FailsExcusedBlank};
ghost use Rattle.dav_rows.specs.declared.opening.StartError.TheVariants.{Foreign, Sqlite};

use crate::change::Change;
use crate::creating::{add_notes, create};
use crate::loading::{Rows, read_all, read_older};
use crate::recognizing::{is_blank, is_older, is_ours};
use sqlite::{Alter, Connection, Error, Row};
use std::alloc::Global;

/// Why no rows were loaded.
#[derive(Debug, Drop, thiserror::Error)]
pub enum StartError {
    /// The database has other tables, and was left as it is.
    #[error("the database is not one of this store")]
    Foreign,
    /// The database failed.
    #[error("{0}")]
    Sqlite(Error),
}

impl From<Error> for StartError {
    ghost from_gives = { λ error e. e ≡ Sqlite error };

    fn from(error: Error) -> StartError {
        StartError::Sqlite(error)
    }
}

/// What a database has.
#[derive(Clone, Copy, Debug, Drop)]
enum Found {
    Nothing,
    Older,
    Ours,
    Other,
}

/// The version of the tables that a database had.
#[derive(Clone, Copy, PartialEq, Eq, Debug, Drop)]
pub enum Version {
    /// There was no table, index or view.
    New,
    /// All tables but that of the notes were there, which is version 1.
    Older,
    /// All tables were there.
    Current,
}

/// All rows of a database.
#[derive(Debug, Drop)]
pub struct Loaded {
    pub rows: Rows,
    /// The version of the tables before the load.
    pub version: Version,
}

/// Loads all rows of a database with this store's tables. In an empty database it makes the tables and applies the changes to them,
/// in one transaction, and loads the rows that these make. In a database with the tables it applies no change.
/// The tables of version 1 stay as they are too, and are loaded with no notes.
/// It fails with `Foreign` if the database has other tables, and changes nothing then.
/// Where the database has this store's tables or none, it fails only if memory runs out, the disk reports a fault, a query reaches
/// the caller's step limit, or a row of the changes is too long.
/// It fails with `Sqlite` if SQLite fails, as when memory runs out or the disk fails. Then the rows stay as they were, a database that was empty
/// has no table or the tables with all of the changes, or the connection is closed.
pub fn load_or_create<S: Alter>(
    conn: &mut Connection<S>,
    alloc: Global,
    changes: &[Change],
) -> Result<Loaded, StartError>
    requires { conn.old.in_transaction ≡ false }
    ensures idle { conn.new.in_transaction ≡ false }
    ensures ours { HasCleanDisk (state S.Store conn.new)
        → IfOk result (λ loaded. AreHeld (state S.Store conn.old) (state S.Store conn.new) loaded.rows) }
    ensures blank { HasCleanDisk (state S.Store conn.new)
        → IfOk result (λ loaded. AreNew (state S.Store conn.old) (state S.Store conn.new) (first changes.now) loaded.rows) }
    ensures version { IfOk result (λ loaded. IsVersion (state S.Store conn.old).now.schema loaded.version) }
    ensures at { HasCleanDisk (state S.Store conn.new) → Stays (state S.Store conn.old) (state S.Store conn.new) }
    ensures crash { HasCleanDisk (state S.Store conn.new) → LeavesNoOther (state S.Store conn.old) (state S.Store conn.new) }
    ensures blank_crash { HasCleanDisk (state S.Store conn.new) → LeavesBlankOr (state S.Store conn.old) (state S.Store conn.new) (first changes.now) }
    ensures foreign { HasCleanDisk (state S.Store conn.new) → IsErrOf result Foreign → LeavesAlone (state S.Store conn.old) (state S.Store conn.new) }
    ensures foreign_has_tables { HasCleanDisk (state S.Store conn.new) → IsErrOf result Foreign → IsBlank (state S.Store conn.old) → ⊥ }
    ensures clean { doubt (state S.Store conn.old).is_clean ≤ doubt (state S.Store conn.new).is_clean }
    ensures err { HasCleanDisk (state S.Store conn.new) → IfErr result (λ e. (m : _) → IsAt (state S.Store conn.old) m → HasUtf8 m
        → IsExcusedStart (state S.Store conn.old) (state S.Store conn.new) e) }
    ensures err_blank { HasCleanDisk (state S.Store conn.new) → IfErr result (λ e. IsBlank (state S.Store conn.old)
        → IsExcusedFirst (state S.Store conn.old) (state S.Store conn.new) changes.now e) }
{
    match found_in(conn)? {
        Found::Nothing => Ok(Loaded {
            rows: create_and_load(conn, alloc, changes)?,
            version: Version::New,
        }),
        Found::Older => Ok(Loaded {
            rows: read_older(conn, alloc)?,
            version: Version::Older,
        }),
        Found::Ours => Ok(Loaded {
            rows: read_all(conn, alloc)?,
            version: Version::Current,
        }),
        Found::Other => Err(StartError::Foreign),
    }
}

/// Brings a database to the current version of the tables, in one transaction. In an empty database it makes the tables and applies
/// `changes` to them. To the tables of version 1 it adds that of the notes and applies `upgrade`. The current tables stay as they are.
/// It fails with `Foreign` if the database has other tables, and changes nothing then. It fails with `Sqlite` if SQLite fails,
/// for the causes of `load_or_create`.
pub fn bring_up_to_date<S: Alter>(
    conn: &mut Connection<S>,
    changes: &[Change],
    upgrade: &[Change],
) -> Result<(), StartError>
    requires { conn.old.in_transaction ≡ false }
    ensures idle { conn.new.in_transaction ≡ false }
    ensures older { HasCleanDisk (state S.Store conn.new) → OnOk result (Upgrades (state S.Store conn.old) (state S.Store conn.new) (after upgrade.now)) }
    ensures err_older { HasCleanDisk (state S.Store conn.new) → IfErr result (λ e. (m : _) → IsOlder (state S.Store conn.old) m
        → IsExcusedFirst (state S.Store conn.old) (state S.Store conn.new) upgrade.now e) }
    ensures older_crash { HasCleanDisk (state S.Store conn.new) → LeavesOlderOr (state S.Store conn.old) (state S.Store conn.new) (after upgrade.now) }
    ensures crash { HasCleanDisk (state S.Store conn.new) → LeavesNoOther (state S.Store conn.old) (state S.Store conn.new) }
    ensures blank_crash { HasCleanDisk (state S.Store conn.new) → LeavesBlankOr (state S.Store conn.old) (state S.Store conn.new) (first changes.now) }
    ensures ours { HasCleanDisk (state S.Store conn.new) → OnOk result (StaysAt (state S.Store conn.old) (state S.Store conn.new)) }
    ensures blank { HasCleanDisk (state S.Store conn.new) → OnOk result (Makes (state S.Store conn.old) (state S.Store conn.new) (first changes.now)) }
    ensures known { OnOk result (IsNoneOrOurs (state S.Store conn.old).now.schema) }
    ensures foreign { HasCleanDisk (state S.Store conn.new) → IsErrOf result Foreign → LeavesAlone (state S.Store conn.old) (state S.Store conn.new) }
    ensures clean { doubt (state S.Store conn.old).is_clean ≤ doubt (state S.Store conn.new).is_clean }
    ensures err { HasCleanDisk (state S.Store conn.new) → IfErr result (λ e. (m : _) → IsAt (state S.Store conn.old) m → HasUtf8 m
        → IsExcusedStart (state S.Store conn.old) (state S.Store conn.new) e) }
    ensures err_blank { HasCleanDisk (state S.Store conn.new) → IfErr result (λ e. IsBlank (state S.Store conn.old)
        → IsExcusedFirst (state S.Store conn.old) (state S.Store conn.new) changes.now e) }
{
    match found_in(conn)? {
        Found::Nothing => Ok(create(conn, changes)?),
        Found::Older => Ok(add_notes(conn, upgrade)?),
        Found::Ours => Ok(()),
        Found::Other => Err(StartError::Foreign),
    }
}

fn create_and_load<S: Alter>(
    conn: &mut Connection<S>,
    alloc: Global,
    changes: &[Change],
) -> Result<Rows, Error>
    requires { conn.old.in_transaction ≡ false }
    ensures idle { conn.new.in_transaction ≡ false }
    ensures ok { HasCleanDisk (state S.Store conn.new) → IfOk result (AreNew (state S.Store conn.old) (state S.Store conn.new) (first changes.now)) }
    ensures crash { HasCleanDisk (state S.Store conn.new) → LeavesBlankOr (state S.Store conn.old) (state S.Store conn.new) (first changes.now) }
    ensures clean { doubt (state S.Store conn.old).is_clean ≤ doubt (state S.Store conn.new).is_clean }
    ensures err { FailsToCreate (state S.Store conn.old) (state S.Store conn.new) changes.now result }
{
    create(conn, changes)?;
    read_all(conn, alloc)
}

fn found_in<S: Alter>(conn: &mut Connection<S>) -> Result<Found, Error>
    requires { conn.old.in_transaction ≡ false }
    ensures idle { conn.new.in_transaction ≡ false }
    ensures reads { Reads (state S.Store conn.old) (state S.Store conn.new) result (λ found m. found ≡ Found.Ours) }
    ensures ours { IfOk result (λ found. (found ≡ Found.Ours) ↔ ((state S.Store conn.old).now.schema ≡ rows_schema)) }
    ensures older { IfOk result (λ found. (found ≡ Found.Older) ↔ ((state S.Store conn.old).now.schema ≡ older_schema)) }
    ensures unread { (state S.Store conn.old).now.schema ≡ older_schema → (result ≡ Ok Found.Older) × (conn.new ≡ conn.old) }
    ensures blank { ReadsBlank (state S.Store conn.old) (state S.Store conn.new) result (λ found. found ≡ Found.Nothing) }
    ensures only_blank { IfOk result (λ found. found ≡ Found.Nothing → (state S.Store conn.old).now.schema ≡ no_schema) }
    ensures alone { HasCleanDisk (state S.Store conn.new) → IfOk result (λ found. found ≡ Found.Other
        → LeavesAlone (state S.Store conn.old) (state S.Store conn.new)) }
    ensures err { FailsExcused (state S.Store conn.old) (state S.Store conn.new) result }
    ensures err_blank { FailsExcusedBlank (state S.Store conn.old) (state S.Store conn.new) result }
{
    if is_ours(conn.schema()) {
        return Ok(Found::Ours);
    }
    if is_older(conn.schema()) {
        return Ok(Found::Older);
    }
    let is_blank = is_blank(conn.schema());
    let rows = listing_of(conn)?;
    if is_blank && rows.is_empty() {
        Ok(Found::Nothing)
    } else {
        Ok(Found::Other)
    }
}

/// Reads the names of all objects of the database.
fn listing_of<S: Alter>(conn: &mut Connection<S>) -> Result<Vec<Row>, Error>
    requires { conn.old.in_transaction ≡ false }
    ensures idle { conn.new.in_transaction ≡ false }
    ensures blank { ReadsBlank (state S.Store conn.old) (state S.Store conn.new) result (λ rows. rows.items ≡ []) }
    ensures alone { HasCleanDisk (state S.Store conn.new) → IfOk result (λ _. LeavesAlone (state S.Store conn.old) (state S.Store conn.new)) }
    ensures err_blank { FailsExcusedBlank (state S.Store conn.old) (state S.Store conn.new) result }
{
    conn.query_all("SELECT name FROM sqlite_schema", &[])
}
