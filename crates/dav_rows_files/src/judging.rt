//! Judges the files of a store before anything is written to them.
ghost use Rattle.std.specs.Prelude.{◌≡◌, IsTrue, IfOk, IfErr, OnOk};
ghost use Rattle.sqlite.specs.Files.{image_of, faults_of};
ghost use Rattle.sqlite_wal.specs.Reads.{AreClean, OnlyReads};
ghost use Rattle.dav_rows.specs.Creating.{first};
ghost use Rattle.dav_log.specs.Damage.{IsDamaged};
ghost use Rattle.disk_readonly.specs.Copies.{contents_of, IsExcused};
ghost use Rattle.dav_rows_files.specs.Judging.{IsJudged, IsLogFault, FailsToJudge};

use dav_log::is_damaged;
use dav_rows::{Change, Loaded, StartError, load_or_create};
use disk_readonly::{Copied, CopyError};
use sqlite::{Connection, Leftover};
use sqlite_disk::{Disk, Files};
use sqlite_pager::Options;
use sqlite_wal::Error;
use std::alloc::Global;

/// Why the files of a store are not judged, or refused.
#[derive(Drop)]
pub enum Unjudged {
    /// A file cannot be copied.
    Copy(CopyError),
    /// The log is damaged: it has commits that no recovery would take.
    Log,
    /// The copies are not those of a store, or memory ran out. They come with the error.
    Start(StartError, Leftover<Copied>),
}

impl From<CopyError> for Unjudged {
    ghost use Rattle.dav_rows_files.specs.declared.judging.Unjudged.TheVariants.{Copy};

    ghost from_gives = { λ error e. e ≡ Copy error };

    fn from(error: CopyError) -> Unjudged {
        Unjudged::Copy(error)
    }
}

/// Loads all rows from copies of the files of a database in memory. It only reads the files themselves. The rows stand for
/// the maps that the files keep, whatever a crash made of them. If the files have no table, they are the rows of new tables
/// after these changes, and the version is `New`, which it is in no other case. If they have the tables of version 1, there are
/// no notes.
///
/// - `Copy`: memory runs out, or a file cannot be read.
/// - `Log`: the log is damaged.
/// - `Start`: the copies have other tables or hold no database, or memory runs out.
///
/// If the files keep the tables of a store, or none, it fails only if memory runs out, a disk reports a fault, the log is
/// damaged, a file has the largest size that SQLite allows, or a row of the changes has more than a billion bytes.
pub fn judge<D: Disk>(
    alloc: Global,
    files: &mut Files<D>,
    changes: &[Change],
) -> Result<Loaded, Unjudged>
    requires log_usable { IsTrue (D.Disk.is_usable files.old.log) }
    requires db_usable { IsTrue (D.Disk.is_usable files.old.db) }
    ensures log { OnlyReads D.Disk files.old.log files.new.log }
    ensures db { OnlyReads D.Disk files.old.db files.new.db }
    ensures sound { IfOk result (λ _. AreClean D.Disk files.new.log files.new.db → ¬ IsDamaged (image_of D.Disk files.old).log) }
    ensures found { IfOk result (λ loaded. AreClean D.Disk files.new.log files.new.db → IsJudged (image_of D.Disk files.old) (first changes.now) loaded) }
    ensures err { IfErr result (λ e. AreClean D.Disk files.new.log files.new.db
        → FailsToJudge (image_of D.Disk files.old) changes.now (faults_of D.Disk files.old) (faults_of D.Disk files.new) e) }
{
    let mut copies = copy_files(alloc, files)?;
    expect_sound(alloc, &mut copies.log)?;
    let mut conn = match Connection::open_files(alloc, copies, Options::new(0)) {
        Ok(conn) => conn,
        Err((error, left)) => return Err(Unjudged::Start(StartError::Sqlite(error), left)),
    };
    match load_or_create(&mut conn, alloc, changes) {
        Ok(loaded) => Ok(loaded),
        Err(error) => Err(Unjudged::Start(error, Leftover::Store(conn.into_store()))),
    }
}

/// Checks that the copy of a log is not damaged.
///
/// - `Log`: it is.
/// - `Copy`: memory runs out.
fn expect_sound(alloc: Global, log: &mut Copied) -> Result<(), Unjudged>
    ensures sound { OnOk result (¬ IsDamaged (contents_of log.old)) }
    ensures same { contents_of log.new ≡ contents_of log.old }
    ensures err { IfErr result (IsLogFault (contents_of log.old)) }
{
    match is_damaged(alloc, log) {
        Ok(true) => Err(Unjudged::Log),
        Ok(false) => Ok(()),
        // Recovery takes no frames of such a log, and refuses it.
        Err(Error::Corrupt) => Ok(()),
        // A copy in memory fails only if that runs out.
        Err(_) => Err(Unjudged::Copy(CopyError::Memory)),
    }
}

/// Copies a log and its database file into memory. Errors are those of [`Copied::of`].
fn copy_files<D: Disk>(alloc: Global, files: &mut Files<D>) -> Result<Files<Copied>, CopyError>
    requires log_usable { IsTrue (D.Disk.is_usable files.old.log) }
    requires db_usable { IsTrue (D.Disk.is_usable files.old.db) }
    ensures log { OnlyReads D.Disk files.old.log files.new.log }
    ensures db { OnlyReads D.Disk files.old.db files.new.db }
    ensures same { IfOk result (λ copies. AreClean D.Disk files.new.log files.new.db → image_of ⟦<Copied as Disk>⟧ copies ≡ image_of D.Disk files.old) }
    ensures err { IfErr result (IsExcused (faults_of D.Disk files.old) (faults_of D.Disk files.new)) }
{
    let log = Copied::of(alloc, &mut files.log)?;
    let db = Copied::of(alloc, &mut files.db)?;
    Ok(Files { log, db })
}
