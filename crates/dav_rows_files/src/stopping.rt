//! Gives up the files, and says what a crash leaves there.
ghost use Rattle.std.specs.Prelude.{◌≡◌, true, false, IsTrue, OnOk};
ghost use Rattle.sqlite.specs.Files.{file_state};
ghost use Rattle.sqlite.specs.State.{HasCleanDisk};
ghost use Rattle.sqlite_store.specs.FileStore.{view};
ghost use Rattle.sqlite_trees.specs.View.{IsClean};
ghost use Rattle.dav_rows.specs.Changes.{after};
ghost use Rattle.dav_rows_files.specs.Starting.{LeavesDatabases, LeavesNoOther, LeavesWhole, NextKeeps, NextKeepsEither};

use dav_rows::{Change, save};
use sqlite::{Connection, Error, FileStore};
use sqlite_disk::Disk;
use sqlite_trees::store::Store;

/// Gives up the connection, so that what the files hold can be said of the store.
pub fn into_files<D: Disk + Drop>(conn: Connection<FileStore<D>>) -> FileStore<D>
    ensures clean { IsClean (view result) → HasCleanDisk (file_state conn) }
    ensures left { LeavesDatabases (file_state conn) result }
{
    conn.into_store()
}

/// Copies the log into the database file, and gives up the connection. Returns whether the log was copied. If it was, the
/// database file is whole without it, whatever a crash leaves. If it was not, as when the disk is full, the log is needed.
/// Either way a crash leaves a database that it might have left before, unless the store stopped in a state in which it does
/// not number its tables: SQLite's clauses do not exclude that.
pub fn close<D: Disk + Drop>(conn: Connection<FileStore<D>>) -> (bool, FileStore<D>)
    ensures clean { IsClean (view result.1) → HasCleanDisk (file_state conn) }
    ensures whole { result.0 ≡ true → LeavesWhole (file_state conn) result.1 }
    ensures no_other { LeavesNoOther (file_state conn) result.1 }
    ensures left { IsTrue (view result.1).is_numbered → LeavesDatabases (file_state conn) result.1 }
{
    let mut store = conn.into_store();
    store.rollback();
    let copied = store.checkpoint().is_ok();
    (copied, store)
}

/// Saves the changes and gives up the connection, so that what the files hold can be said of the store.
/// Whatever moment a crash comes, the next start finds the old maps or the new ones, and after `Ok` the new ones.
pub fn save_to_the_end<D: Disk + Drop>(
    mut conn: Connection<FileStore<D>>,
    changes: &[Change],
) -> (Result<(), Error>, FileStore<D>)
    requires { conn.in_transaction ≡ false }
    ensures next { NextKeepsEither (file_state conn) result.1 (after changes.now) }
    ensures durable { OnOk result.0 (NextKeeps (file_state conn) result.1 (after changes.now)) }
{
    let saved = save(&mut conn, changes);
    (saved, conn.into_store())
}
