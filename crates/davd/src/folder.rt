//! A store in a folder.
ghost use Rattle.std.specs.Prelude.{◌≡◌, ◌≢◌, ◌⊎◌, ℕ, true, false, Some, IsTrue, IfOk, IfErr, OnOk};
ghost use Rattle.sqlite_disk.specs.Disk.{Only};
ghost use Rattle.std.specs.Option.{option_map};
ghost use Rattle.sqlite.specs.Files.{image_of};
ghost use Rattle.sqlite.specs.WalFiles.{image_at};
ghost use Rattle.sqlite_wal.specs.Reads.{AreClean, OnlyReadsBoth};
ghost use Rattle.sqlite_std_file.specs.File.{IsFresh, file_is_usable};
ghost use Rattle.dav_folder.specs.Claims.{IsKeyed};
ghost use Rattle.dav_folder.specs.Failing.{LeavesAsBefore, IsOnlyRead};
ghost use Rattle.dav_folder.specs.Folders.{batch_of};
ghost use Rattle.dav_folder.specs.Lasting.{HasCleanDatabase};
ghost use Rattle.dav_folder.specs.Opening.{AreOnlyRead};
ghost use Rattle.dav_folder.specs.Reading.{ReadsAs, IsEmptyIfHonest};
ghost use Rattle.dav_keep.specs.Images.{Image};
ghost use Rattle.dav_last.specs.Batches.{number_of, key_of, Names, IsInBoth};
ghost use Rattle.dav_rows.specs.Contents.{Contents};
ghost use Rattle.dav_rows.specs.Creating.{first};
ghost use Rattle.dav_rows.specs.declared.opening.Version.TheVariants.{New, Older, Current};
ghost use Rattle.dav_rows_files.specs.Starting.{Keeps, IsVacant};
ghost use Rattle.dav_seal.specs.Seals.{IsSealed};
ghost use Rattle.dav_tree.specs.TreeFs.{memory_of};
ghost use Rattle.davd.specs.Failing.{HoldsFound, HoldsFoundLeft, HoldsOnIfOpened, HoldsOnLeft, HasOnly, KeepsNumber, KeepsOrNames, HaveNumber};
ghost use Rattle.davd.specs.Failing.{AreOnlyJudged, StaysAsHeldLeft, IsUntouched};
ghost use Rattle.davd.specs.Folder.{FindsKept, FindsFirst, FindsHeld, FindsNew, HeldSealed, MakesFirst, IsNotOlder, OpensUpToDate};
ghost use Rattle.davd.specs.Folder.{IsNumbered, IsNamed, FoundNumbered, FoundNamed, HeldNumbered, HeldNamed, OpensNumbered};
ghost use Rattle.davd.specs.Program.{IsNotUsage, is_judged};
ghost use Rattle.davd.specs.declared.program.Stopped.TheVariants as Stopped;

use crate::files::{
    Absent, DATA, DATABASE, FirstStart, LAST, empty_reserve, expect_files, make_folder,
};
use crate::program::{Refusal, Stopped};
use dav_data::{Claim, ClaimedFile};
use dav_folder::{Confirm, DataLeft, Found, OpenError, Opened, Remains, give_up, read_files};
use dav_keep::first_changes;
use dav_last::{Last, LastBatch, read_last, replace_both};
use dav_reserve::{ROOM, Reserved};
use dav_rows::{Change, Version};
use dav_store_rows::SaveError;
use dav_tree::Medium;
use sqlite::{FileFrom, FileStore, Leftover, Start};
use sqlite_disk::{Disk, Files};
use std::alloc::Global;
use std::io::{self, ErrorKind};

/// A store in the files of a database and a data file, beside which a third one keeps room back.
pub type OpenedFiles<R, T, C> = OpenedOver<FileFrom<R>, FileFrom<T>, C>;

/// A store in a database and a data file, beside which room is kept back on such a disk.
type OpenedOver<D, E, C> = Opened<FileStore<D>, ClaimedFile<Reserved<E, E>, C>>;

/// What is left of the files of a database and a data file, beside which room is kept back on such a disk.
type RemainsOver<D, E, C> = Remains<D, Reserved<E, E>, C>;

/// Why a folder is not served.
#[derive(Drop)]
pub struct Unstarted<D: Disk, E: Disk, C: Claim> {
    /// Why the program ends.
    pub stopped: Stopped,
    /// What is left of the files of the database and the data file, if they were opened.
    pub left: Option<Remains<D, E, C>>,
}

/// The same, if room is kept back beside the data file.
pub type UnstartedOver<D, E, C> = Unstarted<D, Reserved<E, E>, C>;

/// Not both of the database and the data file were opened.
impl<D: Disk, E: Disk, C: Claim> From<Stopped> for Unstarted<D, E, C> {
    ghost use Rattle.std.specs.Prelude.{◌≡◌, None};

    ghost from_gives = { λ stopped e. (e.stopped ≡ stopped) × (e.left ≡ None) };

    fn from(stopped: Stopped) -> Unstarted<D, E, C> {
        Unstarted {
            stopped,
            left: None,
        }
    }
}

/// Why a folder is not served, and what is left of all its files.
#[derive(Drop)]
pub struct Unserved<D: Disk, E: Disk, L: Disk, C: Claim> {
    /// Why, with what is left of the files of the database and the data file.
    pub start: Unstarted<D, E, C>,
    /// What is left of the files of the number of the last batch, if they were opened.
    pub last: Option<Files<L>>,
}

/// The same, if room is kept back beside the data file.
pub type UnservedOver<D, E, L, C> = Unserved<D, Reserved<E, E>, L, C>;

/// No file was opened, or not both of the number.
impl<D: Disk, E: Disk, L: Disk, C: Claim> From<Stopped> for Unserved<D, E, L, C> {
    ghost use Rattle.std.specs.Prelude.{◌≡◌, None};

    ghost from_gives = { λ stopped e. (e.start.stopped ≡ stopped) × (e.start.left ≡ None) × (e.last ≡ None) };

    fn from(stopped: Stopped) -> Unserved<D, E, L, C> {
        Unserved {
            start: Unstarted {
                stopped,
                left: None,
            },
            last: None,
        }
    }
}

impl<D: Disk + Drop, E: Disk + Drop, L: Disk + Drop, C: Claim> From<Unserved<D, E, L, C>>
    for Stopped {
    ghost use Rattle.std.specs.Prelude.{◌≡◌};

    ghost from_gives = { λ unserved e. e ≡ unserved.start.stopped };

    fn from(unserved: Unserved<D, E, L, C>) -> Stopped {
        unserved.start.stopped
    }
}

/// What is supposed of the files of a folder: those of the database, the data file, and those of the last number; and what is
/// claimed of the digests in the data file.
pub type Held<R, T, N, C> = (R, T, N, C);

/// How a folder is opened.
#[derive(Clone, Copy)]
pub struct StartOptions {
    /// The quota of the store, or none.
    pub quota: Option<u64>,
    /// Whether a store is opened that has lost its last batches.
    pub accepts_loss: bool,
    /// The key of the digests of a new store, below 2^63.
    pub key: u64,
    /// A number of this start, from which the salts of the database's log are made.
    pub seed: u64,
    /// The part of this start in each entity tag, or none.
    pub tag_part: Option<u128>,
}

/// How the files of a folder are opened.
#[derive(Clone, Copy)]
struct Opening {
    /// The limit of the store.
    limit: Option<Option<u64>>,
    /// Whether a store is opened that has lost its last batches.
    accepts_loss: bool,
    /// The seed of the start.
    seed: u64,
    /// The part of the start in each entity tag, or none.
    tag_part: Option<u128>,
    /// The files that are missing.
    absent: Absent,
    /// What may be missing, if the first start of the folder did not end.
    first: FirstStart,
}

/// Opens the store of a folder. If the folder is not there, or has neither a database nor bytes in its data file, it makes
/// a new store there. The database is `meta.db`, and the data file is `data`. Beside that, `data-wal` keeps room back: when
/// the disk is full, it is emptied, and the database has its room. `last` and `last-wal` have the number of the last batch.
/// `held` stands for what the files held.
///
/// If they held a store, it is found, and its rows have the seal that was kept with them. If they held no table, a new store
/// is found, where no file says that there was one. Everything is read and judged before anything is written. A store of an
/// earlier batch than that number is opened only if `accepts_loss`, and so is one without a number, unless it is of version 1
/// or no batch was kept. Then each of the files has the number of the store's last batch.
///
/// Errors: `Refused` if a file of the store is missing, or the folder is not one of a store, is damaged or has lost
/// batches; `InUse` if another process has it open; `Disk` if it cannot be read or written; `Memory`. A folder that is refused
/// for what its files hold stays as it was. After another error, if the disks have done what their calls promise, whatever a
/// crash leaves of the database and the data file holds the store that they held; `IsExempt` names two exceptions.
pub fn open_folder<R: Start, T: Start, N: Start, C: Confirm>(
    rt: &HostRuntime,
    folder: &str,
    options: StartOptions,
    held: Held<R, T, N, C>,
) -> Result<
    (OpenedFiles<R, T, C>, LastBatch<FileFrom<N>>),
    UnservedOver<FileFrom<R>, FileFrom<T>, FileFrom<N>, C>,
>
    ensures kept { IfOk result (λ found. FindsKept (image_at R.Start) T.Start.db options.quota found.0) }
    ensures new { IfOk result (λ found. FindsFirst (image_at R.Start) T.Start.db options.quota options.key found.0) }
    ensures sealed { IfOk result (λ found. HeldSealed (image_at R.Start) found.0) }
    ensures keyed { IfOk result (λ found. IsKeyed C.Claim found.0.key) }
    ensures tags { IfOk result (λ found. (memory_of found.0.store).tag_part ≡ options.tag_part) }
    ensures marks { IfOk result (λ found. (memory_of found.0.store).marks ≡ true) }
    ensures last { IfOk result (λ found. number_of found.1 ≡ batch_of found.0.folder) }
    ensures key { IfOk result (λ found. key_of found.1 ≡ found.0.key) }
    ensures named { IfOk result (λ found. Names (batch_of found.0.folder) found.1) }
    ensures both { IfOk result (λ found. IsInBoth (batch_of found.0.folder) found.1) }
    ensures up_to_date { IfOk result (λ found. options.accepts_loss ≡ false → OpensUpToDate (image_at N.Start) found.0 found.1) }
    ensures numbered { IfOk result (λ found. options.accepts_loss ≡ false → OpensNumbered (image_at R.Start) (image_at N.Start) found.0 found.1) }
    ensures left { IfErr result (λ e. HoldsOnIfOpened (image_at R.Start) T.Start.db e.start.left) }
    ensures refused { IfErr result (λ e. is_judged e.start.stopped ≡ true → IsUntouched ⟦<FileFrom<N> as Disk>⟧ (image_at R.Start) T.Start.db (image_at N.Start) e) }
    ensures err { IfErr result (λ e. IsNotUsage e.start.stopped) }
{
    make_folder(rt, folder)?;
    expect_files(rt, folder, options.accepts_loss)?;
    let absent = Absent::find(rt, folder)?;
    let first = FirstStart::find(rt, folder)?;
    let (left, file, number, _claim) = held;
    let mut last = open_pair(rt, folder, LAST, number)?;
    let how = Opening {
        limit: limit_of(options.quota),
        accepts_loss: options.accepts_loss,
        seed: options.seed,
        tag_part: options.tag_part,
        absent,
        first,
    };
    let opened = match open_pairs(rt, folder, how, options.key, (left, file), &mut last) {
        Ok(opened) => opened,
        Err(mut start) => {
            if let Err(stopped) = absent.remove_last(rt, folder) {
                start.stopped = stopped;
            }
            let last = Some(last);
            return Err(Unserved { start, last });
        }
    };
    match LastBatch::begin(last, opened.key, opened.last) {
        Ok(last) => Ok((opened, last)),
        Err((error, last)) => Err(unnumbered(error, opened, last)),
    }
}

/// Returns why a folder is not served whose number could not be written, and gives up the store that was opened.
fn unnumbered<D: Disk + Drop, E: Disk + Drop, L: Disk, C: Claim>(
    error: io::Error,
    opened: OpenedOver<D, E, C>,
    last: Files<L>,
) -> UnservedOver<D, E, L, C>
    ensures left { HoldsFoundLeft opened result.start.left }
    ensures err { result.start.stopped ≡ Stopped.Disk error }
{
    Unserved {
        start: Unstarted {
            stopped: Stopped::Disk(error),
            left: Some(close_opened(opened)),
        },
        last: Some(last),
    }
}

/// Gives up a store that was opened. Nothing is written.
fn close_opened<D: Disk + Drop, E: Disk + Drop, C: Claim>(
    opened: OpenedOver<D, E, C>,
) -> RemainsOver<D, E, C>
    ensures { HoldsFound opened result }
{
    let (files, data_file) = give_up(opened.folder, opened.store);
    Remains {
        database: Leftover::Store(files),
        data_file: DataLeft::File(data_file),
    }
}

/// Opens the store over the files that are there. `last` are those of the number of the last batch, which are only read, unless
/// the tables are of version 1. `key` is that of a new store.
fn open_pairs<R: Start, T: Start, L: Disk, C: Confirm>(
    rt: &HostRuntime,
    folder: &str,
    how: Opening,
    key: u64,
    held: (R, T),
    last: &mut Files<L>,
) -> Result<OpenedFiles<R, T, C>, UnstartedOver<FileFrom<R>, FileFrom<T>, C>>
    requires other { IsTrue (L.Disk.is_usable last.old.log) }
    requires last { IsTrue (L.Disk.is_usable last.old.db) }
    ensures kept { IfOk result (FindsHeld (image_at R.Start) T.Start.db how.limit) }
    ensures new { IfOk result (FindsNew (image_at R.Start) T.Start.db how.limit key) }
    ensures sealed { IfOk result (HeldSealed (image_at R.Start)) }
    ensures keyed { IfOk result (λ opened. IsKeyed C.Claim opened.key) }
    ensures tags { IfOk result (λ opened. (memory_of opened.store).tag_part ≡ how.tag_part) }
    ensures marks { IfOk result (λ opened. (memory_of opened.store).marks ≡ true) }
    ensures batch { IfOk result (λ opened. batch_of opened.folder ≡ opened.last) }
    ensures up_to_date { IfOk result (λ opened. how.accepts_loss ≡ false → AreClean L.Disk last.new.log last.new.db
        → IsNotOlder opened.key opened.last (L.Disk.seen last.old.log) (L.Disk.seen last.old.db)) }
    ensures numbered { IfOk result (λ opened. how.accepts_loss ≡ false → AreClean L.Disk last.new.log last.new.db
        → HeldNumbered (image_at R.Start) (image_of L.Disk last.old) opened) }
    ensures last_log { IfOk result (λ _. IsTrue (L.Disk.is_usable last.new.log)) }
    ensures last_db { IfOk result (λ _. IsTrue (L.Disk.is_usable last.new.db)) }
    ensures last_clean { AreClean L.Disk last.new.log last.new.db → AreClean L.Disk last.old.log last.old.db }
    ensures last_kept { KeepsNumber L.Disk last.old last.new }
    ensures made { IsVacant (image_at R.Start) → IfOk result (λ opened. HasCleanDatabase opened.folder → how.first.may_lack_tables ≡ true) }
    ensures started { IfOk result (λ opened. how.accepts_loss ≡ false → how.first.may_lack_number ≡ false → AreClean L.Disk last.new.log last.new.db
        → HeldNamed (image_at R.Start) (image_of L.Disk last.old) opened) }
    ensures left { IfErr result (λ e. HoldsOnIfOpened (image_at R.Start) T.Start.db e.left) }
    ensures refused { IfErr result (λ e. is_judged e.stopped ≡ true → StaysAsHeldLeft (image_at R.Start) T.Start.db e.left) }
    ensures refused_last { IfErr result (λ e. is_judged e.stopped ≡ true
        → OnlyReadsBoth L.Disk (last.old.log, last.old.db) (last.new.log, last.new.db)) }
    ensures err { IfErr result (λ e. IsNotUsage e.stopped) }
{
    let changes = new_tables(rt.alloc(), key)?;
    let pairs = open_both(rt, folder, how.absent, held)?;
    open_over(rt, folder, how, pairs, last, &changes)
}

/// Returns the changes that make the tables of a new store with this key. Fails only if memory runs out.
fn new_tables(alloc: Global, key: u64) -> Result<Vec<Change>, Stopped>
    ensures made { IfOk result (λ changes. MakesFirst key changes.items) }
    ensures err { IfErr result IsNotUsage }
    ensures early { IfErr result (λ e. is_judged e ≡ false) }
{
    Ok(first_changes(alloc, key)?)
}

/// Opens the files of the database and the data file, with the one that keeps room back.
///
/// Errors: `InUse` if another process has them open; `Refused` if an old journal is beside them; `Disk`; `Memory`.
fn open_both<R: Start, T: Start>(
    rt: &HostRuntime,
    folder: &str,
    absent: Absent,
    held: (R, T),
) -> Result<(Files<FileFrom<R>>, Files<FileFrom<T>>), Stopped>
    ensures log { IfOk result (λ pairs. IsTrue (file_is_usable R.Start pairs.0.log)) }
    ensures db { IfOk result (λ pairs. IsTrue (file_is_usable R.Start pairs.0.db)) }
    ensures reserve { IfOk result (λ pairs. IsTrue (file_is_usable T.Start pairs.1.log)) }
    ensures data_file { IfOk result (λ pairs. IsTrue (file_is_usable T.Start pairs.1.db)) }
    ensures fresh { IfOk result (λ pairs. IsFresh true pairs.0.log × IsFresh false pairs.0.db) }
    ensures fresh_data { IfOk result (λ pairs. IsFresh false pairs.1.db) }
    ensures err { IfErr result IsNotUsage }
    ensures early { IfErr result (λ e. is_judged e ≡ false) }
{
    let (left, file) = held;
    // The data file is made first: a database without one is not that of a store that was just made.
    let pair = open_pair(rt, folder, DATA, file)?;
    match open_pair(rt, folder, DATABASE, left) {
        Ok(files) => Ok((files, pair)),
        Err(stopped) => {
            absent.remove_reserve(rt, folder)?;
            Err(stopped)
        }
    }
}

/// Opens the store over the files of a database and a data file. The file that comes with it keeps room back.
///
/// Errors: `Refused`, `Disk` and `Memory`, as for `open_folder`.
fn open_over<D: Disk + Drop, E: Disk + Drop, L: Disk, C: Confirm>(
    rt: &HostRuntime,
    folder: &str,
    how: Opening,
    pairs: (Files<D>, Files<E>),
    last: &mut Files<L>,
    changes: &[Change],
) -> Result<OpenedOver<D, E, C>, UnstartedOver<D, E, C>>
    requires log_usable { IsTrue (D.Disk.is_usable pairs.0.log) }
    requires db_usable { IsTrue (D.Disk.is_usable pairs.0.db) }
    requires usable { E.Disk.is_usable pairs.1.db ≡ true }
    requires reserve { E.Disk.is_usable pairs.1.log ≡ true }
    requires other { IsTrue (L.Disk.is_usable last.old.log) }
    requires last { IsTrue (L.Disk.is_usable last.old.db) }
    ensures kept { IfOk result (FindsHeld (image_of D.Disk pairs.0) (E.Disk.seen pairs.1.db) how.limit) }
    ensures new { (key : ℕ) → MakesFirst key changes.now → IfOk result (FindsNew (image_of D.Disk pairs.0) (E.Disk.seen pairs.1.db) how.limit key) }
    ensures sealed { IfOk result (HeldSealed (image_of D.Disk pairs.0)) }
    ensures keyed { IfOk result (λ opened. IsKeyed C.Claim opened.key) }
    ensures tags { IfOk result (λ opened. (memory_of opened.store).tag_part ≡ how.tag_part) }
    ensures marks { IfOk result (λ opened. (memory_of opened.store).marks ≡ true) }
    ensures batch { IfOk result (λ opened. batch_of opened.folder ≡ opened.last) }
    ensures up_to_date { IfOk result (λ opened. how.accepts_loss ≡ false → AreClean L.Disk last.new.log last.new.db
        → IsNotOlder opened.key opened.last (L.Disk.seen last.old.log) (L.Disk.seen last.old.db)) }
    ensures numbered { IfOk result (λ opened. how.accepts_loss ≡ false → AreClean L.Disk last.new.log last.new.db
        → HeldNumbered (image_of D.Disk pairs.0) (image_of L.Disk last.old) opened) }
    ensures last_log { IfOk result (λ _. IsTrue (L.Disk.is_usable last.new.log)) }
    ensures last_db { IfOk result (λ _. IsTrue (L.Disk.is_usable last.new.db)) }
    ensures last_clean { AreClean L.Disk last.new.log last.new.db → AreClean L.Disk last.old.log last.old.db }
    ensures last_kept { KeepsNumber L.Disk last.old last.new }
    ensures made { IsVacant (image_of D.Disk pairs.0) → IfOk result (λ opened. HasCleanDatabase opened.folder → how.first.may_lack_tables ≡ true) }
    ensures started { IfOk result (λ opened. how.accepts_loss ≡ false → how.first.may_lack_number ≡ false → AreClean L.Disk last.new.log last.new.db
        → HeldNamed (image_of D.Disk pairs.0) (image_of L.Disk last.old) opened) }
    ensures refused { IfErr result (λ e. is_judged e.stopped ≡ true → AreOnlyJudged E.Disk pairs.0 pairs.1.db e.left) }
    ensures refused_last { IfErr result (λ e. is_judged e.stopped ≡ true
        → OnlyReadsBoth L.Disk (last.old.log, last.old.db) (last.new.log, last.new.db)) }
    ensures left { HasOnly D.Disk pairs.0 → Only (E.Disk.seen pairs.1.db) (E.Disk.may_leave pairs.1.db)
        → IfErr result (λ e. HoldsOnLeft (image_of D.Disk pairs.0) (E.Disk.seen pairs.1.db) e.left) }
    ensures err { IfErr result (λ e. IsNotUsage e.stopped) }
{
    let (mut files, pair) = pairs;
    let disk = Reserved::new(pair.db, pair.log, ROOM);
    let found = match read_up_to_date(rt.alloc(), &mut files, disk, last, changes, how) {
        Ok(found) => found,
        Err((error, data_file)) => {
            // The database is still locked, so nobody serves the files that are removed.
            let stopped = first_error(how.absent.remove(rt, folder), error);
            return Err(failed_start(stopped, Leftover::Files(files), data_file));
        }
    };
    if let Err(stopped) = make_ready(rt, folder, last, &found) {
        return Err(failed_start(stopped, Leftover::Files(files), found.give_up()));
    }
    match found.open(rt.alloc(), files, how.seed, changes) {
        Ok(opened) => Ok(opened),
        Err((error, left)) => Err(failed_start(error.into(), left.database, left.data_file)),
    }
}

/// Makes a folder ready for the store that was found in it: it gives the files the room that is kept back, and writes the
/// number as [`number_older`] does.
///
/// Errors: `Disk`; `Memory`.
fn make_ready<L: Disk, M: Medium>(
    rt: &HostRuntime,
    folder: &str,
    last: &mut Files<L>,
    found: &Found<M>,
) -> Result<(), Stopped>
    requires other { IsTrue (L.Disk.is_usable last.old.log) }
    requires last { IsTrue (L.Disk.is_usable last.old.db) }
    ensures log { OnOk result (IsTrue (L.Disk.is_usable last.new.log)) }
    ensures db { OnOk result (IsTrue (L.Disk.is_usable last.new.db)) }
    ensures clean { AreClean L.Disk last.new.log last.new.db → AreClean L.Disk last.old.log last.old.db }
    ensures kept { KeepsOrNames L.Disk found.entry.now.key found.entry.now.last last.old last.new }
    ensures older { found.entry.now.version ≡ Older → OnOk result (HaveNumber L.Disk found.entry.now.key found.entry.now.last last.new) }
    ensures newer { found.entry.now.version ≢ Older → last.new ≡ last.old }
    ensures err { IfErr result IsNotUsage }
    ensures early { IfErr result (λ e. is_judged e ≡ false) }
{
    empty_reserve(rt, folder)?;
    number_older(last, found)
}

/// Writes the number of the last batch of tables of version 1, so that a crash leaves it once they are of the next version.
/// For other tables it writes nothing. Errors: `Disk`.
fn number_older<L: Disk, M: Medium>(last: &mut Files<L>, found: &Found<M>) -> Result<(), Stopped>
    requires other { IsTrue (L.Disk.is_usable last.old.log) }
    requires last { IsTrue (L.Disk.is_usable last.old.db) }
    ensures log { OnOk result (IsTrue (L.Disk.is_usable last.new.log)) }
    ensures db { OnOk result (IsTrue (L.Disk.is_usable last.new.db)) }
    ensures clean { AreClean L.Disk last.new.log last.new.db → AreClean L.Disk last.old.log last.old.db }
    ensures kept { KeepsOrNames L.Disk found.entry.now.key found.entry.now.last last.old last.new }
    ensures older { found.entry.now.version ≡ Older → OnOk result (HaveNumber L.Disk found.entry.now.key found.entry.now.last last.new) }
    ensures newer { found.entry.now.version ≢ Older → last.new ≡ last.old }
    ensures err { IfErr result IsNotUsage }
    ensures early { IfErr result (λ e. is_judged e ≡ false) }
{
    if found.version != Version::Older {
        return Ok(());
    }
    match replace_both(last, found.key, found.last) {
        Ok(()) => Ok(()),
        Err(error) => Err(Stopped::Disk(error)),
    }
}

/// Returns why a folder is not served, of which this is left.
fn failed_start<D: Disk, E: Disk, C: Claim>(
    stopped: Stopped,
    database: Leftover<D>,
    data_file: DataLeft<E, C>,
) -> Unstarted<D, E, C>
    ensures { result ≡ record { stopped = stopped; left = Some (record { database = database; data_file = data_file }) } }
{
    Unstarted {
        stopped,
        left: Some(Remains {
            database,
            data_file,
        }),
    }
}

/// Returns the error of removing files, if there is one, or else that for which they are removed.
fn first_error(removed: Result<(), Stopped>, stopped: Stopped) -> Stopped
    requires removed { IfErr removed IsNotUsage }
    requires stopped { IsNotUsage stopped }
    ensures { IsNotUsage result }
{
    match removed {
        Ok(()) => stopped,
        Err(error) => error,
    }
}

/// Reads the store of a folder, and checks that it has lost no batch. It only reads the files.
///
/// Errors: `Refused`, `Disk` and `Memory`, as for `open_folder`.
fn read_up_to_date<D: Disk, E: Disk + Drop, L: Disk, C: Confirm>(
    alloc: Global,
    files: &mut Files<D>,
    disk: E,
    last: &mut Files<L>,
    changes: &[Change],
    how: Opening,
) -> Result<Found<ClaimedFile<E, C>>, (Stopped, DataLeft<E, C>)>
    requires log_usable { IsTrue (D.Disk.is_usable files.old.log) }
    requires db_usable { IsTrue (D.Disk.is_usable files.old.db) }
    requires usable { E.Disk.is_usable disk ≡ true }
    requires other { IsTrue (L.Disk.is_usable last.old.log) }
    requires last { IsTrue (L.Disk.is_usable last.old.db) }
    ensures kept { (image : Image) (tables : Contents) → Keeps (image_of D.Disk files.old) tables
        → ReadsAs (E.Disk.seen disk) how.limit (AreClean D.Disk files.new.log files.new.db) image tables result }
    ensures new { (image : Image) → IsVacant (image_of D.Disk files.old)
        → ReadsAs (E.Disk.seen disk) how.limit (AreClean D.Disk files.new.log files.new.db) image (first changes.now) result }
    ensures empty { IsVacant (image_of D.Disk files.old)
        → IfOk result (λ found. AreClean D.Disk files.new.log files.new.db → IsEmptyIfHonest found (E.Disk.seen disk)) }
    ensures sealed { (tables : Contents) → Keeps (image_of D.Disk files.old) tables
        → IfOk result (λ found. AreClean D.Disk files.new.log files.new.db → IsSealed found.key tables) }
    ensures keyed { IfOk result (λ found. IsKeyed C.Claim found.key) }
    ensures tags { IfOk result (λ found. (memory_of found.store).tag_part ≡ how.tag_part) }
    ensures marks { IfOk result (λ found. (memory_of found.store).marks ≡ true) }
    ensures only { AreOnlyRead D.Disk files.old files.new }
    ensures up_to_date { IfOk result (λ found. how.accepts_loss ≡ false → AreClean L.Disk last.new.log last.new.db
        → IsNotOlder found.key found.last (L.Disk.seen last.old.log) (L.Disk.seen last.old.db)) }
    ensures numbered { IfOk result (λ found. how.accepts_loss ≡ false → AreClean L.Disk last.new.log last.new.db
        → AreClean D.Disk files.new.log files.new.db → FoundNumbered (image_of D.Disk files.old) (image_of L.Disk last.old) found) }
    ensures made { IfOk result (λ found. found.version ≡ New → how.first.may_lack_tables ≡ true) }
    ensures made_if { IsVacant (image_of D.Disk files.old)
        → IfOk result (λ found. AreClean D.Disk files.new.log files.new.db → how.first.may_lack_tables ≡ true) }
    ensures started { IfOk result (λ found. how.accepts_loss ≡ false → how.first.may_lack_number ≡ false → AreClean L.Disk last.new.log last.new.db
        → AreClean D.Disk files.new.log files.new.db → FoundNamed (image_of D.Disk files.old) (image_of L.Disk last.old) found) }
    ensures only_last { OnlyReadsBoth L.Disk (last.old.log, last.old.db) (last.new.log, last.new.db) }
    ensures only_data { IfOk result (IsOnlyRead (E.Disk.seen disk)) }
    ensures unharmed { IfErr result (λ e. LeavesAsBefore disk e.1) }
    ensures err { IfErr result (λ e. IsNotUsage e.0) }
{
    let found = match read_files(alloc, files, disk, changes, how.limit, how.tag_part) {
        Ok(found) => found,
        Err((error, data_file)) => return Err((error.into(), data_file)),
    };
    match expect_up_to_date(last, &found, how.first, how.accepts_loss) {
        Ok(()) => Ok(found),
        Err(stopped) => Err((stopped, found.give_up())),
    }
}

/// Checks that the store that was found has lost no batch. It only reads the files of the number. `first` says what may be
/// missing.
///
/// Errors: `Refused` if it is a new one where there have to be tables; if the files say a greater number than that of the last
/// batch, or none where there has to be one, unless `accepts_loss`; `Disk` if they cannot be read.
pub(crate) fn expect_up_to_date<L: Disk, M: Medium>(
    files: &mut Files<L>,
    found: &Found<M>,
    first: FirstStart,
    accepts_loss: bool,
) -> Result<(), Stopped>
    requires other { IsTrue (L.Disk.is_usable files.old.log) }
    requires last { IsTrue (L.Disk.is_usable files.old.db) }
    ensures only { OnlyReadsBoth L.Disk (files.old.log, files.old.db) (files.new.log, files.new.db) }
    ensures tables { OnOk result (found.entry.now.version ≡ New → first.may_lack_tables ≡ true) }
    ensures up_to_date { OnOk result (accepts_loss ≡ false → AreClean L.Disk files.new.log files.new.db
        → IsNotOlder found.entry.now.key found.entry.now.last (L.Disk.seen files.old.log) (L.Disk.seen files.old.db)) }
    ensures numbered { OnOk result (accepts_loss ≡ false → AreClean L.Disk files.new.log files.new.db
        → found.entry.now.version ≡ Current → IsNumbered found.entry.now.key found.entry.now.last (image_of L.Disk files.old)) }
    ensures started { OnOk result (accepts_loss ≡ false → first.may_lack_number ≡ false → AreClean L.Disk files.new.log files.new.db
        → found.entry.now.version ≡ Current → IsNamed found.entry.now.key (image_of L.Disk files.old)) }
    ensures err { IfErr result IsNotUsage }
{
    match read_last(files, found.key) {
        Ok(_) if lacks_tables(found, first) => Err(Stopped::Refused(Refusal::NoTables)),
        Ok(_) if accepts_loss => Ok(()),
        Ok(Last::Number(number)) if number > found.last => Err(Stopped::Refused(Refusal::Older)),
        Ok(Last::Number(_)) => Ok(()),
        Ok(Last::Nothing) if may_lack_number(found, first) => Ok(()),
        Ok(_) => Err(Stopped::Refused(Refusal::NoNumber)),
        Err(error) => Err(Stopped::Disk(error)),
    }
}

/// Returns whether the database has no table where there have to be some.
fn lacks_tables<M: Medium>(found: &Found<M>, first: FirstStart) -> bool
    ensures { result ≡ false → found.entry.now.version ≡ New → first.may_lack_tables ≡ true }
{
    found.version == Version::New && !first.may_lack_tables
}

/// Returns whether the store that was found may have no number. One of version 1 may have none. A new one gets it when its
/// tables are there, and before its first batch.
fn may_lack_number<M: Medium>(found: &Found<M>, first: FirstStart) -> bool
    ensures last { result ≡ true → found.entry.now.version ≡ Current → found.entry.now.last ≡ 0 }
    ensures first { result ≡ true → found.entry.now.version ≡ Current → first.may_lack_number ≡ true }
{
    found.version == Version::Older || (found.last == 0 && first.may_lack_number)
}

/// Opens a file of the folder, and the one that comes with it.
///
/// Errors: `InUse` if another process has it open; `Refused` if an old journal is beside it; `Disk`; `Memory`.
pub(crate) fn open_pair<S: Start>(
    rt: &HostRuntime,
    folder: &str,
    name: &str,
    start: S,
) -> Result<Files<FileFrom<S>>, Stopped>
    ensures log { IfOk result (λ files. IsTrue (file_is_usable S.Start files.log)) }
    ensures db { IfOk result (λ files. IsTrue (file_is_usable S.Start files.db)) }
    ensures fresh { IfOk result (λ files. IsFresh true files.log × IsFresh false files.db) }
    ensures err { IfErr result IsNotUsage }
    ensures early { IfErr result (λ e. is_judged e ≡ false) }
{
    let path = format!(in rt.alloc(); "{folder}/{name}")?;
    Ok(sqlite_std_file::open(rt, path.as_str(), start)?)
}

/// Returns the limit of a store with this quota, or of one without.
fn limit_of(quota: Option<u64>) -> Option<Option<u64>>
    ensures { result ≡ option_map Some quota }
{
    match quota {
        Some(bytes) => Some(Some(bytes)),
        None => None,
    }
}

impl From<sqlite_std_file::OpenError> for Stopped {
    ghost use Rattle.std.specs.Prelude.{◌≡◌, false};
    ghost use Rattle.davd.specs.Program.{IsNotUsage, is_judged};

    ghost from_gives = { λ _ e. IsNotUsage e × (is_judged e ≡ false) };

    fn from(error: sqlite_std_file::OpenError) -> Stopped {
        match error {
            sqlite_std_file::OpenError::Io(error) => Stopped::Disk(error),
            sqlite_std_file::OpenError::OutOfMemory => Stopped::Memory,
            sqlite_std_file::OpenError::Busy => Stopped::InUse,
            sqlite_std_file::OpenError::HotJournal => Stopped::Refused(Refusal::Journal),
        }
    }
}

impl From<OpenError> for Stopped {
    ghost use Rattle.std.specs.Prelude.{◌≡◌, false};
    ghost use Rattle.dav_folder.specs.Errors.{IsLate};
    ghost use Rattle.davd.specs.Program.{IsNotUsage, is_judged};

    ghost from_gives = { λ error e. IsNotUsage e × (IsLate error → is_judged e ≡ false) };

    fn from(error: OpenError) -> Stopped {
        match error {
            OpenError::Damaged => Stopped::Refused(Refusal::Damaged),
            OpenError::Foreign => Stopped::Refused(Refusal::Foreign),
            OpenError::NoDatabase => Stopped::Refused(Refusal::NoTables),
            OpenError::Data(error) if error.kind() == ErrorKind::InvalidData => {
                Stopped::Refused(Refusal::ShortData)
            }
            OpenError::Data(error) | OpenError::Database(error) => Stopped::Disk(error),
            OpenError::Memory => Stopped::Memory,
        }
    }
}

/// The first rows of a store fit, so only memory can have run out.
impl From<SaveError> for Stopped {
    ghost use Rattle.davd.specs.declared.program.Stopped.TheVariants.{Memory};

    ghost from_gives = { λ _ e. e ≡ Memory };

    fn from(_: SaveError) -> Stopped {
        Stopped::Memory
    }
}
