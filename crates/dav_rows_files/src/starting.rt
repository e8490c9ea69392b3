//! Opens the rows of a store in files that were judged.
ghost use Rattle.std.specs.Prelude.{◌≡◌, false, Some, IsTrue, IfOk, IfErr};
ghost use Rattle.sqlite.specs.Files.{file_state, image_of};
ghost use Rattle.sqlite.specs.State.{HasCleanDisk};
ghost use Rattle.sqlite_wal.specs.Reads.{AreClean};
ghost use Rattle.dav_rows.specs.Changes.{after};
ghost use Rattle.dav_rows.specs.Creating.{first};
ghost use Rattle.dav_rows_files.specs.Starting.{BeginsAt, BeginsFirst, BeginsUpgraded, HoldsNoneOrOurs, FailsToStart, FailsToStartFirst, FailsToStartOlder, FailsUnharmed, FailsUnharmedFirst, FailsUnharmedOlder};

use dav_rows::{Change, StartError, bring_up_to_date};
use sqlite::{Connection, FileStore, Leftover};
use sqlite_disk::{Disk, Files};
use sqlite_pager::Options;
use std::alloc::Global;

/// Opens the files of a database. If they have no table, it makes the tables and applies `changes` to them, in one
/// transaction. To the tables of version 1 it adds that of the notes and applies `upgrade`, in one transaction too. To the
/// current tables it applies no change, and it succeeds over no others. Tables of a store stand for the maps that the files
/// keep, whatever a crash made of them. `seed` is a random number.
///
/// It fails with `Foreign` if the database has other tables, and changes none of them, and with `Sqlite` if SQLite fails.
/// If the files keep the tables of a store, or none, it fails only if memory runs out, the disk reports a fault, a file has
/// the largest size that SQLite allows, or a row of the changes has more than a billion bytes. An error comes with what is
/// left of the files.
///
/// After an error, if the disk did what its calls promise, a crash leaves files that it might have left before the start, or
/// files that keep what these kept: the maps of a store, the tables of version 1, or no table. In place of the last two they
/// may keep all that the start was to make of them. `IsExempt` names two exceptions.
pub fn start<D: Disk + Drop>(
    alloc: Global,
    files: Files<D>,
    seed: u64,
    changes: &[Change],
    upgrade: &[Change],
) -> Result<Connection<FileStore<D>>, (StartError, Leftover<D>)>
    requires log_usable { IsTrue (D.Disk.is_usable files.log) }
    requires db_usable { IsTrue (D.Disk.is_usable files.db) }
    ensures honest { IfOk result (λ conn. HasCleanDisk (file_state conn) → AreClean D.Disk files.log files.db) }
    ensures at { IfOk result (λ conn. BeginsAt (image_of D.Disk files) (file_state conn)) }
    ensures new { IfOk result (λ conn. BeginsFirst (image_of D.Disk files) (file_state conn) (first changes.now)) }
    ensures upgraded { IfOk result (λ conn. BeginsUpgraded (image_of D.Disk files) (file_state conn) (after upgrade.now)) }
    ensures known { IfOk result (λ conn. HasCleanDisk (file_state conn) → HoldsNoneOrOurs (image_of D.Disk files)) }
    ensures idle { IfOk result (λ conn. conn.in_transaction ≡ false) }
    ensures err { IfErr result (FailsToStart (image_of D.Disk files)) }
    ensures err_first { IfErr result (FailsToStartFirst (image_of D.Disk files) changes.now) }
    ensures err_older { IfErr result (FailsToStartOlder (image_of D.Disk files) upgrade.now) }
    ensures unharmed { IfErr result (λ e. FailsUnharmed files e.1) }
    ensures unharmed_first { IfErr result (λ e. FailsUnharmedFirst files (first changes.now) e.1) }
    ensures unharmed_older { IfErr result (λ e. FailsUnharmedOlder files (after upgrade.now) e.1) }
{
    let mut conn = match Connection::open_files(alloc, files, Options::new(seed)) {
        Ok(conn) => conn,
        Err((error, left)) => return Err((StartError::Sqlite(error), left)),
    };
    match bring_up_to_date(&mut conn, changes, upgrade) {
        Ok(()) => Ok(conn),
        Err(error) => Err((error, Leftover::Store(conn.into_store()))),
    }
}
