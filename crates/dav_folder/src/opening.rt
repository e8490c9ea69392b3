//! Opens the store of a folder.
ghost use Rattle.std.specs.Prelude.{◌≡◌, ℕ, List, [], true, false, IsTrue, IfOk, IfErr, OnOk};
ghost use Rattle.sqlite.specs.Files.{image_of};
ghost use Rattle.sqlite.specs.Held.{state};
ghost use Rattle.sqlite.specs.State.{HasCleanDisk};
ghost use Rattle.sqlite_wal.specs.Reads.{AreClean, OnlyReads};
ghost use Rattle.dav_log.specs.Damage.{IsDamaged};
ghost use Rattle.dav_tree.specs.TreeFs.{memory_of, store_of};
ghost use Rattle.dav_keep.specs.Images.{Image};
ghost use Rattle.dav_keep.specs.Keeping.{connection_of};
ghost use Rattle.dav_rows.specs.Contents.{Contents};
ghost use Rattle.dav_rows.specs.Creating.{first};
ghost use Rattle.dav_rows.specs.Saving.{IsAt};
ghost use Rattle.dav_rows.specs.declared.opening.Version.TheVariants.{New, Older, Current};
ghost use Rattle.dav_rows_files.specs.Starting.{Keeps, KeepsOlder, IsVacant, FailsUnharmed, FailsUnharmedFirst};
ghost use Rattle.dav_seal.specs.Seals.{IsSealed};
ghost use Rattle.dav_folder.specs.Claims.{IsKeyed};
ghost use Rattle.dav_folder.specs.Errors.{IsLate};
ghost use Rattle.dav_folder.specs.Failing.{LeavesOnly, LeavesAsBefore, IsOnlyRead};
ghost use Rattle.dav_folder.specs.Folders.{keeping_of, batch_of};
ghost use Rattle.dav_folder.specs.Lasting.{HasCleanDatabase};
ghost use Rattle.dav_folder.specs.Reading.{IsReadFrom, ReadsAs, IsEmptyIfHonest};
ghost use Rattle.dav_folder.specs.Opening.{Opens, OpensImage, AreOnlyRead};

use crate::error::opening_error;
use crate::reading::read_store;
use crate::{Confirm, DataLeft, Folder, Found, OpenError, Remains};
use dav_data::{Claim, ClaimedFile};
use dav_keep::Keeping;
use dav_memls::MemLs;
use dav_rows::{Change, Version};
use dav_rows_files::{judge, start};
use dav_tree::{Medium, TreeFs};
use sqlite::{Alter, Connection, FileStore, Leftover};
use sqlite_disk::{Disk, Files};
use std::alloc::Global;

/// The store of a folder and its locks, as they were kept.
#[derive(Drop)]
pub struct Opened<S: Alter, M: Medium> {
    /// Keeps the store and the locks.
    pub folder: Folder<S>,
    /// The store.
    pub store: TreeFs<M>,
    /// The locks.
    pub locks: MemLs,
    /// The time of the last batch that changed something, in whole seconds since 1970.
    pub now: u64,
    /// The number of that batch.
    pub last: u64,
    /// The key of the digests.
    pub key: u64,
}

/// Reads the store of a folder, over the files of its database and over its data file. It changes none of them. If there
/// is nothing, it returns a new store, whose tables these changes make of none. It returns a new store in no other case.
/// `limit` is the store's quota. The rows have the seal that was kept with them, unless they are of version 1, which has none.
///
/// - `Damaged`: the database is damaged, or its rows are not those of a store that was kept, or have another seal, or are
///   others than those that are claimed.
/// - `Foreign`: the database has other tables.
/// - `NoDatabase`: the database has no table, but the data file has bytes.
/// - `Data`: the data file cannot be read, or it is shorter than the rows say.
/// - `Database`: the database cannot be read.
/// - `Memory`: memory runs out.
///
/// The data file comes back with the error. Nothing was written to it, so a crash leaves what it left before.
pub fn read_files<D: Disk, E: Disk + Drop, C: Confirm>(
    alloc: Global,
    files: &mut Files<D>,
    disk: E,
    changes: &[Change],
    limit: Option<Option<u64>>,
    tag_part: Option<u128>,
) -> Result<Found<ClaimedFile<E, C>>, (OpenError, DataLeft<E, C>)>
    requires log_usable { IsTrue (D.Disk.is_usable files.old.log) }
    requires db_usable { IsTrue (D.Disk.is_usable files.old.db) }
    requires usable { E.Disk.is_usable disk ≡ true }
    ensures kept { (image : Image) (tables : Contents) → Keeps (image_of D.Disk files.old) tables
        → ReadsAs (E.Disk.seen disk) limit (AreClean D.Disk files.new.log files.new.db) image tables result }
    ensures new { (image : Image) → IsVacant (image_of D.Disk files.old)
        → ReadsAs (E.Disk.seen disk) limit (AreClean D.Disk files.new.log files.new.db) image (first changes.now) result }
    ensures vacant { IsVacant (image_of D.Disk files.old)
        → IfOk result (λ found. AreClean D.Disk files.new.log files.new.db → found.version ≡ New) }
    ensures only_new { IfOk result (λ found. found.version ≡ New
        → AreClean D.Disk files.new.log files.new.db → IsVacant (image_of D.Disk files.old)) }
    ensures empty { IfOk result (λ found. found.version ≡ New → IsEmptyIfHonest found (E.Disk.seen disk)) }
    ensures sealed { (tables : Contents) → Keeps (image_of D.Disk files.old) tables
        → IfOk result (λ found. AreClean D.Disk files.new.log files.new.db → IsSealed found.key tables) }
    ensures current { (tables : Contents) → Keeps (image_of D.Disk files.old) tables
        → IfOk result (λ found. AreClean D.Disk files.new.log files.new.db → found.version ≡ Current) }
    ensures older { (tables : Contents) → KeepsOlder (image_of D.Disk files.old) tables
        → IfOk result (λ found. AreClean D.Disk files.new.log files.new.db → found.version ≡ Older) }
    ensures keyed { IfOk result (λ found. IsKeyed C.Claim found.key) }
    ensures tags { IfOk result (λ found. (memory_of found.store).tag_part ≡ tag_part) }
    ensures marks { IfOk result (λ found. (memory_of found.store).marks ≡ true) }
    ensures log { IfOk result (λ found. (store_of found.store).log ≡ []) }
    ensures sound { IfOk result (λ _. AreClean D.Disk files.new.log files.new.db → ¬ IsDamaged (image_of D.Disk files.old).log) }
    ensures only { AreOnlyRead D.Disk files.old files.new }
    ensures only_data { IfOk result (IsOnlyRead (E.Disk.seen disk)) }
    ensures unharmed { IfErr result (λ e. LeavesAsBefore disk e.1) }
{
    let mut disk = disk;
    let loaded = match judge(alloc, files, changes) {
        Ok(loaded) => loaded,
        Err(error) => return Err((error.into(), DataLeft::Disk(disk))),
    };
    if let Err(error) = expect_empty(loaded.version, &mut disk) {
        return Err((error, DataLeft::Disk(disk)));
    }
    read_store(alloc, loaded.rows, loaded.version, disk, limit, tag_part)
}

/// Checks that a data file has no byte if the database beside it, of this version, is new. It only reads the file.
///
/// - `NoDatabase`: the database is new, and the data file has bytes.
/// - `Data`: the data file cannot be read.
fn expect_empty<E: Disk>(version: Version, file: &mut E) -> Result<(), OpenError>
    requires { E.Disk.is_usable file.old ≡ true }
    ensures file { OnlyReads E.Disk file.old file.new }
    ensures empty { OnOk result (version ≡ New → E.Disk.is_clean file.new ≡ true → E.Disk.seen file.old ≡ []) }
{
    if version == Version::New && file.len()? > 0 {
        return Err(OpenError::NoDatabase);
    }
    Ok(())
}

impl<E: Disk + Drop, C: Claim> Found<ClaimedFile<E, C>> {
    /// Opens the database from whose files this was read, and goes on from there. If the database has no table, its tables
    /// are made with these changes. Tables of version 1 are sealed. `seed` is a random number.
    ///
    /// - `Database`: the database cannot be read or written.
    /// - `Memory`: memory runs out.
    ///
    /// The files come back with the error. What a crash leaves of a database that kept a store keeps it still, and what it
    /// leaves of one without tables has none, or the new ones; [`start`] says this more exactly, also of version 1. The
    /// contents of the data file stayed the same.
    pub fn open<D: Disk + Drop>(
        self,
        alloc: Global,
        files: Files<D>,
        seed: u64,
        changes: &[Change],
    ) -> Result<Opened<FileStore<D>, ClaimedFile<E, C>>, (OpenError, Remains<D, E, C>)>
        requires log_usable { IsTrue (D.Disk.is_usable files.log) }
        requires db_usable { IsTrue (D.Disk.is_usable files.db) }
        requires keyed { IsKeyed C.Claim self.key }
        ensures kept { (image : Image) (tables : Contents) → Keeps (image_of D.Disk files) tables
            → (AreClean D.Disk files.log files.db → IsReadFrom image tables self) → IfOk result (OpensImage C.Claim image) }
        ensures new { (image : Image) → IsVacant (image_of D.Disk files)
            → (AreClean D.Disk files.log files.db → IsReadFrom image (first changes.now) self) → IfOk result (OpensImage C.Claim image) }
        ensures clean { IfOk result (λ opened. HasCleanDatabase opened.folder → AreClean D.Disk files.log files.db) }
        ensures store { IfOk result (λ opened. opened.store ≡ self.store) }
        ensures last { IfOk result (λ opened. opened.last ≡ self.last) }
        ensures batch { IfOk result (λ opened. batch_of opened.folder ≡ opened.last) }
        ensures key { IfOk result (λ opened. opened.key ≡ self.key) }
        ensures err { IfErr result (λ e. IsLate e.0) }
        ensures unharmed { IfErr result (λ e. FailsUnharmed files e.1.database) }
        ensures unharmed_first { IfErr result (λ e. FailsUnharmedFirst files (first changes.now) e.1.database) }
        ensures unwritten { IfErr result (λ e. (contents : List ℕ) → IsOnlyRead contents self → LeavesOnly contents e.1.data_file) }
    {
        let (error, database) = match self.known.sealing(alloc) {
            Ok(upgrade) => match start(alloc, files, seed, changes, &upgrade) {
                Ok(conn) => return Ok(self.keep_in(alloc, conn)),
                Err((error, left)) => (opening_error(error), left),
            },
            Err(_) => (OpenError::Memory, Leftover::Files(files)),
        };
        let data_file = self.give_up();
        Err((
            error,
            Remains {
                database,
                data_file,
            },
        ))
    }

    /// Gives up what was read, and returns the data file. Nothing is written.
    pub fn give_up(self) -> DataLeft<E, C>
        ensures { (contents : List ℕ) → IsOnlyRead contents self → LeavesOnly contents result }
    {
        let file = self.store.into_medium();
        file.show_right();
        DataLeft::File(file)
    }

    /// Goes on from what was read, and keeps it in this database.
    fn keep_in<S: Alter + Drop>(
        self,
        alloc: Global,
        conn: Connection<S>,
    ) -> Opened<S, ClaimedFile<E, C>>
        requires idle { conn.in_transaction ≡ false }
        requires keyed { IsKeyed C.Claim self.key }
        ensures same { connection_of (keeping_of result.folder) ≡ conn }
        ensures store { result.store ≡ self.store }
        ensures last { result.last ≡ self.last }
        ensures batch { batch_of result.folder ≡ result.last }
        ensures key { result.key ≡ self.key }
        ensures opened { (image : Image) (tables : Contents) → IsReadFrom image tables self
            → (HasCleanDisk (state S.Store conn) → IsAt (state S.Store conn) tables) → Opens C.Claim image result }
    {
        let Found {
            known,
            store,
            locks,
            now,
            last,
            key,
            rows: _,
            version: _,
        } = self;
        Opened {
            folder: Folder::new(Keeping::new(alloc, conn, known), last),
            store,
            locks,
            now,
            last,
            key,
        }
    }
}
