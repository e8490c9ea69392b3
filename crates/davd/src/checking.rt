//! A check of a folder.
ghost use Rattle.std.specs.Prelude.{◌≡◌, ◌≢◌, ◌⊎◌, [], IsTrue, IfOk, IfErr, OnOk};
ghost use Rattle.sqlite.specs.Files.{image_of};
ghost use Rattle.sqlite.specs.WalFiles.{image_at};
ghost use Rattle.dav_check.specs.Checking.{IsFile, IsNamed};
ghost use Rattle.dav_check.specs.Reading.{IsRead};
ghost use Rattle.dav_folder.specs.Opening.{AreOnlyRead};
ghost use Rattle.dav_key.specs.Key.{Key};
ghost use Rattle.dav_rows.specs.declared.opening.Version.TheVariants.{New};
ghost use Rattle.dav_tree.specs.TreeFs.{store_of, reads_of};
ghost use Rattle.davd.specs.Checking.{IsVerified, ChecksFolder};
ghost use Rattle.davd.specs.Program.{IsNotUsage};

use crate::files::{Absent, DATA, DATABASE, FirstStart, LAST, expect_database};
use crate::folder::{Held, expect_up_to_date, open_pair};
use crate::program::{Refusal, Stopped};
use dav_check::{Checked, check};
use dav_data::{ClaimedFile, Unclaimed};
use dav_folder::{Found, read_files};
use dav_keep::first_changes;
use dav_resource::FsError;
use dav_rows::Version;
use dav_tree::{Medium, TreeFs};
use disk_readonly::ReadOnly;
use sqlite::{FileFrom, Start};
use sqlite_disk::{Disk, Files};
use std::alloc::Global;
use std::io::Write;

/// The data file of a folder that is only read.
pub type CheckedData<T> = CheckedFile<FileFrom<T>>;

/// The same, over such a disk.
type CheckedFile<E> = ClaimedFile<ReadOnly<E>, Unclaimed>;

/// Reads the store of a folder, all its rows and every byte of every file. It writes a line for each file that cannot be
/// read, and a last line with the number of rows, of files, of the bytes in those that can be read, and of those that
/// cannot. It changes nothing in the folder. `held` stands for what the files held.
///
/// Errors: `Damaged` if a file cannot be read; `Refused` as for `open_folder`, and if there is no store; `Disk` if the folder
/// cannot be read; `Memory`; `Stream` if the output fails.
pub fn check_folder<R: Start, T: Start, N: Start, C: Drop, O: Write>(
    rt: &HostRuntime,
    folder: &str,
    held: Held<R, T, N, C>,
    output: &mut O,
) -> Result<(), Stopped>
    ensures whole { OnOk result (ChecksFolder ⟦<FileFrom<R> as Disk>⟧ ⟦<FileFrom<T> as Disk>⟧ ⟦<FileFrom<N> as Disk>⟧ ⟦<CheckedData<T> as Medium>⟧
        (image_at R.Start) T.Start.db (image_at N.Start)) }
    ensures err { IfErr result IsNotUsage }
{
    expect_database(rt, folder)?;
    let absent = Absent::find(rt, folder)?;
    let first = FirstStart::find(rt, folder)?;
    let (left, file, number, _claim) = held;
    let mut last = open_pair(rt, folder, LAST, number)?;
    let held = (left, file);
    let checked = check_pairs(rt, folder, absent, first, held, &mut last, output);
    absent.remove_last(rt, folder)?;
    checked
}

/// The same, over the files that are there. `absent` are those that are missing, and `first` says what else may be.
fn check_pairs<R: Start, T: Start, L: Disk, O: Write>(
    rt: &HostRuntime,
    folder: &str,
    absent: Absent,
    first: FirstStart,
    held: (R, T),
    last: &mut Files<L>,
    output: &mut O,
) -> Result<(), Stopped>
    requires other { IsTrue (L.Disk.is_usable last.old.log) }
    requires last { IsTrue (L.Disk.is_usable last.old.db) }
    ensures whole { OnOk result (ChecksFolder ⟦<FileFrom<R> as Disk>⟧ ⟦<FileFrom<T> as Disk>⟧ L.Disk ⟦<CheckedData<T> as Medium>⟧
        (image_at R.Start) T.Start.db (image_of L.Disk last.old)) }
    ensures err { IfErr result IsNotUsage }
{
    let (left, file) = held;
    let data = open_pair(rt, folder, DATA, file)?;
    let mut files = match open_pair(rt, folder, DATABASE, left) {
        Ok(files) => files,
        Err(stopped) => {
            absent.remove_reserve(rt, folder)?;
            return Err(stopped);
        }
    };
    let checked = check_files(rt.alloc(), &mut files, data.db, first, last, output);
    // The database is still locked, so nobody serves the files that are removed.
    absent.remove(rt, folder)?;
    checked
}

/// The same, over the files of the database, the data file and those of the last number, from which it only reads.
fn check_files<D: Disk, E: Disk + Drop, L: Disk, O: Write>(
    alloc: Global,
    files: &mut Files<D>,
    file: E,
    first: FirstStart,
    last: &mut Files<L>,
    output: &mut O,
) -> Result<(), Stopped>
    requires log_usable { IsTrue (D.Disk.is_usable files.old.log) }
    requires db_usable { IsTrue (D.Disk.is_usable files.old.db) }
    requires usable { IsTrue (E.Disk.is_usable file) }
    requires other { IsTrue (L.Disk.is_usable last.old.log) }
    requires last { IsTrue (L.Disk.is_usable last.old.db) }
    ensures whole { OnOk result (IsVerified D.Disk E.Disk L.Disk ⟦<CheckedFile<E> as Medium>⟧
        (image_of D.Disk files.old) (E.Disk.seen file) (image_of L.Disk last.old) files.new last.new) }
    ensures only { AreOnlyRead D.Disk files.old files.new }
    ensures only_last { AreOnlyRead L.Disk last.old last.new }
    ensures err { IfErr result IsNotUsage }
{
    let disk = match ReadOnly::new(file) {
        Ok(disk) => disk,
        Err(error) => return Err(Stopped::Disk(error)),
    };
    let changes = first_changes(alloc, 0)?;
    let read = read_files::<D, ReadOnly<E>, Unclaimed>(alloc, files, disk, &changes, None, None);
    let mut found = match read {
        Ok(found) => found,
        Err((error, _)) => return Err(error.into()),
    };
    expect_up_to_date(last, &found, first, false)?;
    expect_store(&found)?;
    let checked = check_store(alloc, &mut found.store)?;
    report_checked(output, found.rows, &checked)
}

/// Checks that the store that was read is not a new one. Errors: `Refused`.
fn expect_store<M: Medium>(found: &Found<M>) -> Result<(), Stopped>
    ensures ok { OnOk result (found.entry.now.version ≢ New) }
    ensures err { IfErr result IsNotUsage }
{
    if found.version == Version::New {
        return Err(Stopped::Refused(Refusal::NoStore));
    }
    Ok(())
}

/// Reads every byte of every file of a store. Errors: `Memory`; `Damaged` if a directory cannot be listed.
fn check_store<M: Medium>(alloc: Global, store: &mut TreeFs<M>) -> Result<Checked, Stopped>
    ensures read { IfOk result (λ checked. (key : Key) → IsFile (store_of store.old).contents key
        → IsNamed checked key ⊎ IsRead (store_of {g = M.Medium}) (reads_of {g = M.Medium}) (store_of store.old).contents key) }
    ensures err { IfErr result IsNotUsage }
{
    match check(alloc, store) {
        Ok(checked) => Ok(checked),
        Err(error) => Err(check_error(error)),
    }
}

/// Writes what a check of a store with so many rows has found. Errors: `Stream`; `Memory`; `Damaged` if there is a file that
/// cannot be read.
fn report_checked<O: Write>(output: &mut O, rows: u128, checked: &Checked) -> Result<(), Stopped>
    ensures none { OnOk result (checked.now.damaged.items ≡ []) }
    ensures err { IfErr result IsNotUsage }
{
    write_checked(output, rows, checked)?;
    if checked.damaged.is_empty() {
        Ok(())
    } else {
        Err(Stopped::Damaged)
    }
}

/// Returns why a check ends before its end.
fn check_error(error: FsError) -> Stopped
    ensures { IsNotUsage result }
{
    match error {
        FsError::Memory => Stopped::Memory,
        _ => Stopped::Damaged,
    }
}

/// Writes what a check of a store with so many rows has found.
fn write_checked<O: Write>(output: &mut O, rows: u128, checked: &Checked) -> Result<(), Stopped>
    ensures { IfErr result IsNotUsage }
{
    for path in &checked.damaged {
        let path = path.as_url_string()?;
        writeln!(output, "damaged: {path}")?;
    }
    let (files, bytes, damaged) = (checked.files, checked.bytes, checked.damaged.len());
    writeln!(
        output,
        "{rows} rows, {files} files, {bytes} bytes, {damaged} damaged"
    )?;
    output.flush()?;
    Ok(())
}
