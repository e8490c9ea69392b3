//! Reads the store of a folder, and writes nothing.
ghost use Rattle.std.specs.Prelude.{◌≡◌, ◌≢◌, true, [], IfOk, IfErr};
ghost use Rattle.dav_keep.specs.Images.{Image};
ghost use Rattle.dav_keep.specs.Loading.{AreRowsOfImage, AreSealed};
ghost use Rattle.dav_rows.specs.Contents.{Contents};
ghost use Rattle.dav_rows.specs.declared.opening.Version.TheVariants.{Older};
ghost use Rattle.dav_tree.specs.TreeFs.{memory_of, store_of, honest_of};
ghost use Rattle.dav_folder.specs.Claims.{IsKeyed};
ghost use Rattle.dav_folder.specs.Reading.{row_count, IsReadFrom, ReadsBytesOf};
ghost use Rattle.dav_folder.specs.Failing.{LeavesAsBefore, IsOnlyRead};
ghost use Rattle.dav_folder.specs.Opening.{HasFiles, IsMemoryOrDisk};

use crate::{Confirm, DataLeft, OpenError};
use dav_data::ClaimedFile;
use dav_keep::{Known, load};
use dav_memls::MemLs;
use dav_rows::{Rows, Version};
use dav_tree::{Medium, TreeFs};
use sqlite_disk::Disk;
use std::alloc::Global;

/// The store of a folder and its locks, as they were read.
#[derive(Drop)]
pub struct Found<M: Medium> {
    /// What is known of the tables.
    pub(crate) known: Known,
    /// The store.
    pub store: TreeFs<M>,
    /// The locks.
    pub locks: MemLs,
    /// The time of the last batch that changed something, in whole seconds since 1970.
    pub now: u64,
    /// The number of that batch.
    pub last: u64,
    /// The key of the digests.
    pub key: u64,
    /// How many rows the tables have, with those of the state.
    pub rows: u128,
    /// The version that the tables had.
    pub version: Version,
}

/// Reads the store of a folder from these rows of its database, over its data file. `limit` is the store's quota, and
/// `tag_part` the part of its entity tags that comes before the version, if there is one. The store marks each directory that
/// gains or loses a member. The contents of the data file stay the same. The rows have the seal that was kept with them, unless they are of version 1, which has none.
///
/// - `Damaged`: the rows are not those of a store that was kept, or have another seal, or are others than those that are
///   claimed.
/// - `Data`: the data file cannot be read, or it is shorter than the rows say.
/// - `Memory`: memory runs out.
///
/// The data file comes back with the error. Nothing was written to it, so a crash leaves what it left before.
///
/// On the rows of a store whose files the data file has, as claimed, it fails only if memory runs out, or if the disk fails.
/// If the claim holds, the blocks of the store's files have their digests from then on, under the key of the rows.
pub fn read_store<D: Disk + Drop, C: Confirm>(
    alloc: Global,
    rows: Rows,
    version: Version,
    disk: D,
    limit: Option<Option<u64>>,
    tag_part: Option<u128>,
) -> Result<Found<ClaimedFile<D, C>>, (OpenError, DataLeft<D, C>)>
    requires { D.Disk.is_usable disk ≡ true }
    ensures found { (image : Image) (tables : Contents) → AreRowsOfImage rows image tables → IfOk result (IsReadFrom image tables) }
    ensures bytes { ReadsBytesOf rows (D.Disk.seen disk) result }
    ensures limit { (image : Image) (tables : Contents) → AreRowsOfImage rows image tables → IfOk result (λ found. (memory_of found.store).limit ≡ limit) }
    ensures keyed { IfOk result (λ found. IsKeyed C.Claim found.key) }
    ensures tags { IfOk result (λ found. (memory_of found.store).tag_part ≡ tag_part) }
    ensures marks { IfOk result (λ found. (memory_of found.store).marks ≡ true) }
    ensures sealed { version ≢ Older → IfOk result (λ found. AreSealed found.key rows) }
    ensures rows { IfOk result (λ found. found.rows ≡ row_count rows) }
    ensures version { IfOk result (λ found. found.version ≡ version) }
    ensures log { IfOk result (λ found. (store_of found.store).log ≡ []) }
    ensures honest { IfOk result (λ found. honest_of found.store ≡ true → D.Disk.is_clean disk ≡ true) }
    ensures err { (image : Image) (tables : Contents) (are : AreRowsOfImage rows image tables) → HasFiles C.Claim (D.Disk.seen disk) image are.whole
        → IfErr result (λ e. IsMemoryOrDisk D.Disk disk e.0) }
    ensures only { IfOk result (IsOnlyRead (D.Disk.seen disk)) }
    ensures unharmed { IfErr result (λ e. LeavesAsBefore disk e.1) }
{
    let count = count_rows(&rows);
    let (known, loaded) = match load(alloc, rows, version) {
        Ok(parts) => parts,
        Err(error) => return Err((error.into(), DataLeft::Disk(disk))),
    };
    let numbers = loaded.numbers;
    if !C::confirms(&disk, numbers.key, loaded.end, &loaded.values) {
        return Err((OpenError::Damaged, DataLeft::Disk(disk)));
    }
    let medium = match ClaimedFile::open(alloc, disk, numbers.key, loaded.end) {
        Ok(medium) => medium,
        Err((error, disk)) => return Err((OpenError::Data(error), DataLeft::Disk(disk))),
    };
    medium.show_right();
    let stored = TreeFs::load(alloc, medium, loaded.values, numbers.counter, limit);
    let mut store = match stored {
        Ok(store) => store,
        Err((error, medium)) => return Err((error.into(), DataLeft::File(medium))),
    };
    store.set_tag_part(tag_part);
    store.set_marks_parents(true);
    store.show_sound();
    Ok(Found {
        known,
        store,
        locks: loaded.locks,
        now: numbers.time,
        last: numbers.batch,
        key: numbers.key,
        rows: count,
        version,
    })
}

/// Returns how many rows there are in all tables.
fn count_rows(rows: &Rows) -> u128
    ensures { result ≡ row_count rows.now }
{
    rows.resources.len() as u128
        + rows.extents.len() as u128
        + rows.properties.len() as u128
        + rows.locks.len() as u128
        + rows.states.len() as u128
        + rows.notes.len() as u128
}
