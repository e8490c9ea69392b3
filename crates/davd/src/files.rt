//! The files of a folder: which there are, before any is opened.
ghost use Rattle.std.specs.Prelude.{◌≡◌, false, IfErr, IfSome};
ghost use Rattle.davd.specs.Present.{missing_of, may_be_first, may_lack_tables};
ghost use Rattle.davd.specs.Program.{IsNotUsage, is_by_content, is_judged};

use crate::program::{Refusal, Stopped};
use std::fs::{self, OpenOptions};
use std::io::{self, ErrorKind};
use std::os::unix::fs::MetadataExt;

/// The database of a store.
pub const DATABASE: &str = "meta.db";

/// The data file of a store.
pub const DATA: &str = "data";

/// The number of the last batch of a store. The file that comes with it has the number a second time.
pub const LAST: &str = "last";

/// The log of the database.
const LOG: &str = "meta.db-wal";

/// The directory in which a backup has its files until all of them are there.
const PARTIAL: &str = "partial";

/// How many bytes the log has that has no batch. A first start brings them to the disk before the database has a byte, and
/// it has more of them only if the database has bytes.
const LOG_HEADER: u64 = 41;

/// Makes a folder, unless there is something of this name, and brings its name to the disk.
pub fn make_folder(rt: &HostRuntime, folder: &str) -> Result<(), Stopped>
    ensures err { IfErr result IsNotUsage }
    ensures early { IfErr result (λ e. is_judged e ≡ false) }
{
    match fs::create_dir(rt, folder) {
        Ok(()) => sync_parent(rt, folder),
        Err(error) if error.kind() == ErrorKind::AlreadyExists => Ok(()),
        Err(error) => Err(Stopped::Disk(error)),
    }
}

/// Brings the name of a folder to the disk.
fn sync_parent(rt: &HostRuntime, folder: &str) -> Result<(), Stopped>
    ensures err { IfErr result IsNotUsage }
    ensures early { IfErr result (λ e. is_judged e ≡ false) }
{
    let parent = format!(in rt.alloc(); "{folder}/..")?;
    match fs::open(rt, parent.as_str()) {
        Ok(opened) => by_disk(opened.sync_all()),
        Err(error) => Err(Stopped::Disk(error)),
    }
}

/// Checks that no file of a store is missing that was there: a database has its data file, a data file with bytes and a
/// number have their database, and of the two files of the last number there is none without the other, unless the loss of
/// batches is accepted. Files of a backup that did not end have no database. A log with more than its header has its database,
/// too.
///
/// Errors: `Refused` if one is missing; `Disk`; `Memory`.
pub fn expect_files(rt: &HostRuntime, folder: &str, accepts_loss: bool) -> Result<(), Stopped>
    ensures err { IfErr result IsNotUsage }
    ensures early { IfErr result (λ e. is_judged e ≡ false) }
{
    let database = size_of(rt, folder, DATABASE)?;
    let file = size_of(rt, folder, DATA)?;
    let last = size_of(rt, folder, LAST)?;
    let other = size_of(rt, folder, "last-wal")?;
    let log = size_of(rt, folder, LOG)?;
    let is_partial = size_of(rt, folder, PARTIAL)?.is_some();
    match missing((database, log), file, (last, other), is_partial) {
        Some(Refusal::HalfNumber) if accepts_loss => Ok(()),
        Some(refusal) => Err(Stopped::Refused(refusal)),
        None => Ok(()),
    }
}

/// Returns what is missing beside files with so many bytes, if something is. A file that is not there has no size.
/// `database` is the database and its log, `number` are the two files of the last number, and `is_partial` says whether there
/// is the directory of a backup.
fn missing(
    database: (Option<u64>, Option<u64>),
    file: Option<u64>,
    number: (Option<u64>, Option<u64>),
    is_partial: bool,
) -> Option<Refusal>
    ensures missing { result ≡ missing_of database file number is_partial }
    ensures early { IfSome result (λ refusal. is_by_content refusal ≡ false) }
{
    let has_database = database.0.unwrap_or(0) > 0;
    let has_number = number.0.unwrap_or(0) > 0 || number.1.unwrap_or(0) > 0;
    let has_rest = file.unwrap_or(0) > 0 || has_number || database.1.unwrap_or(0) > LOG_HEADER;
    if has_database && file.is_none() {
        Some(Refusal::NoData)
    } else if !has_database && is_partial {
        Some(Refusal::Unfinished)
    } else if !has_database && has_rest {
        Some(Refusal::NoDatabase)
    } else if has_number && number.0.is_none() != number.1.is_none() {
        Some(Refusal::HalfNumber)
    } else {
        None
    }
}

/// What may be missing in a folder whose first start did not end.
#[derive(Clone, Copy)]
pub struct FirstStart {
    /// Whether the tables may be missing. The number is written after them.
    pub may_lack_tables: bool,
    /// Whether the number may be missing. The data file has no byte before it.
    pub may_lack_number: bool,
}

impl FirstStart {
    /// Finds what may be missing. Errors: `Disk`; `Memory`.
    pub fn find(rt: &HostRuntime, folder: &str) -> Result<FirstStart, Stopped>
        ensures err { IfErr result IsNotUsage }
        ensures early { IfErr result (λ e. is_judged e ≡ false) }
    {
        let database = size_of(rt, folder, DATABASE)?;
        let log = size_of(rt, folder, LOG)?;
        let file = size_of(rt, folder, DATA)?;
        let last = size_of(rt, folder, LAST)?;
        let other = size_of(rt, folder, "last-wal")?;
        Ok(FirstStart::of((database, log), file, (last, other)))
    }

    /// Returns what may be missing beside files with so many bytes. A file that is not there has no size. `database` is the
    /// database and its log, and `number` are the two files of the last number.
    fn of(
        database: (Option<u64>, Option<u64>),
        file: Option<u64>,
        number: (Option<u64>, Option<u64>),
    ) -> FirstStart
        ensures tables { result.may_lack_tables ≡ may_lack_tables database file number }
        ensures number { result.may_lack_number ≡ may_be_first database file }
    {
        let has_database = database.0.unwrap_or(0) > 0;
        let has_header = database.1.unwrap_or(0) >= LOG_HEADER;
        let may_be_first = file.unwrap_or(0) == 0 && (has_header || !has_database);
        let has_number = number.0.unwrap_or(0) > 0 || number.1.unwrap_or(0) > 0;
        FirstStart {
            may_lack_tables: may_be_first && !has_number,
            may_lack_number: may_be_first,
        }
    }
}

/// Returns how many bytes a file of the folder has, if it is there.
fn size_of(rt: &HostRuntime, folder: &str, name: &str) -> Result<Option<u64>, Stopped>
    ensures err { IfErr result IsNotUsage }
    ensures early { IfErr result (λ e. is_judged e ≡ false) }
{
    let path = format!(in rt.alloc(); "{folder}/{name}")?;
    match fs::metadata(rt, path.as_str()) {
        Ok(found) => Ok(Some(found.len())),
        Err(error) if error.kind() == ErrorKind::NotFound => Ok(None),
        Err(error) => Err(Stopped::Disk(error)),
    }
}

/// Empties the file that keeps room back, so that a database that is opened next has that room.
pub fn empty_reserve(rt: &HostRuntime, folder: &str) -> Result<(), Stopped>
    ensures err { IfErr result IsNotUsage }
    ensures early { IfErr result (λ e. is_judged e ≡ false) }
{
    let path = format!(in rt.alloc(); "{folder}/data-wal")?;
    match OpenOptions::new().write(true).open(rt, path.as_str()) {
        Ok(reserve) => by_disk(reserve.set_len(0)),
        Err(error) => Err(Stopped::Disk(error)),
    }
}

/// Returns an error of the disk as why the program ends.
fn by_disk(ended: io::Result<()>) -> Result<(), Stopped>
    ensures err { IfErr result IsNotUsage }
    ensures early { IfErr result (λ e. is_judged e ≡ false) }
{
    match ended {
        Ok(()) => Ok(()),
        Err(error) => Err(Stopped::Disk(error)),
    }
}

/// Checks that there is a database with bytes, and that no file of its store is missing.
///
/// Errors: `Refused` if one is missing, or there is no database; `Disk` if the folder cannot be read; `Memory`.
pub fn expect_database(rt: &HostRuntime, folder: &str) -> Result<(), Stopped>
    ensures err { IfErr result IsNotUsage }
    ensures early { IfErr result (λ e. is_judged e ≡ false) }
{
    expect_files(rt, folder, false)?;
    match size_of(rt, folder, DATABASE)? {
        None | Some(0) => Err(Stopped::Refused(Refusal::NoStore)),
        Some(_) => Ok(()),
    }
}

/// The files beside a database and a data file that are not there. To open these makes them, without a byte.
#[derive(Clone, Copy)]
pub struct Absent {
    log: bool,
    reserve: bool,
    last: bool,
    other: bool,
}

impl Absent {
    /// Finds which are missing. Errors: `Disk`; `Memory`.
    pub fn find(rt: &HostRuntime, folder: &str) -> Result<Absent, Stopped>
        ensures err { IfErr result IsNotUsage }
        ensures early { IfErr result (λ e. is_judged e ≡ false) }
    {
        Ok(Absent {
            log: size_of(rt, folder, LOG)?.is_none(),
            reserve: size_of(rt, folder, "data-wal")?.is_none(),
            last: size_of(rt, folder, LAST)?.is_none(),
            other: size_of(rt, folder, "last-wal")?.is_none(),
        })
    }

    /// Removes the log and the file that keeps room back, if they were missing and are there now without a byte. The
    /// caller holds the lock of the database meanwhile, so no other process serves them. Errors: `Disk`; `Memory`.
    pub fn remove(self, rt: &HostRuntime, folder: &str) -> Result<(), Stopped>
        ensures err { IfErr result IsNotUsage }
        ensures early { IfErr result (λ e. is_judged e ≡ false) }
    {
        if self.log {
            remove_empty(rt, folder, LOG)?;
        }
        self.remove_reserve(rt, folder)
    }

    /// The same, of the file that keeps room back alone. The caller holds the lock of the data file meanwhile.
    pub fn remove_reserve(self, rt: &HostRuntime, folder: &str) -> Result<(), Stopped>
        ensures err { IfErr result IsNotUsage }
        ensures early { IfErr result (λ e. is_judged e ≡ false) }
    {
        if self.reserve {
            remove_empty(rt, folder, "data-wal")?;
        }
        Ok(())
    }

    /// The same, of the files of the last number, unless one of them has bytes: it needs the other. The caller holds their
    /// locks meanwhile.
    pub fn remove_last(self, rt: &HostRuntime, folder: &str) -> Result<(), Stopped>
        ensures err { IfErr result IsNotUsage }
        ensures early { IfErr result (λ e. is_judged e ≡ false) }
    {
        let number = size_of(rt, folder, LAST)?.unwrap_or(0);
        let other = size_of(rt, folder, "last-wal")?.unwrap_or(0);
        if number > 0 || other > 0 {
            return Ok(());
        }
        if self.last {
            remove_empty(rt, folder, LAST)?;
        }
        if self.other {
            remove_empty(rt, folder, "last-wal")?;
        }
        Ok(())
    }
}

/// Removes a file that has no byte.
fn remove_empty(rt: &HostRuntime, folder: &str, name: &str) -> Result<(), Stopped>
    ensures err { IfErr result IsNotUsage }
    ensures early { IfErr result (λ e. is_judged e ≡ false) }
{
    if size_of(rt, folder, name)? != Some(0) {
        return Ok(());
    }
    let path = format!(in rt.alloc(); "{folder}/{name}")?;
    by_disk(fs::remove_file(rt, path.as_str()))
}
