//! What is loaded of a store that was kept.
ghost use Rattle.std.specs.Prelude.{◌≡◌, ◌≢◌, ◌↔◌, ℕ, List, [], ◌∷◌, map, pos, false, IsTrue, IfOk, IfErr, OnOk};
ghost use Rattle.std.specs.FinMap.{entries};
ghost use Rattle.sqlite.specs.Held.{state};
ghost use Rattle.sqlite.specs.State.{HasCleanDisk};
ghost use Rattle.dav_cells.specs.Locks.{kept_lock};
ghost use Rattle.dav_memls.specs.MemLs.{list_of};
ghost use Rattle.dav_rows.specs.Changes.{state_entry};
ghost use Rattle.dav_rows.specs.Contents.{Contents};
ghost use Rattle.dav_rows.specs.Loading.{AreAll};
ghost use Rattle.dav_rows.specs.Saving.{IsAt};
ghost use Rattle.dav_rows.specs.declared.opening.Version.TheVariants.{Older};
ghost use Rattle.dav_seal.specs.Seals.{AreSealsOf, AreTables, IsSealed};
ghost use Rattle.dav_store.specs.LockCalls.{HasDistinctTokens};
ghost use Rattle.dav_store.specs.Locks.{AreCompatible};
ghost use Rattle.dav_store.specs.declared.lock.DavLock.{DavLock as TheLock};
ghost use Rattle.dav_store_rows.specs.LockRows.{AreLockRows};
ghost use Rattle.dav_store_rows.specs.Loads.{IsMemory};
ghost use Rattle.dav_keep.specs.Images.{Image};
ghost use Rattle.dav_keep.specs.Keeping.{IsKnown, Knows, connection_of};
ghost use Rattle.dav_keep.specs.Ends.{IsEnd, AreBelow};
ghost use Rattle.dav_keep.specs.Loading.{AreRowsOfImage, IsLoaded, AreSealed, HasTwo, Seal};

use crate::Keeping;
use crate::ends::end_of;
use crate::numbers::{Numbers, numbers_of};
use dav_memls::MemLs;
use dav_nodes::NumberedValue;
use dav_pieces::Body;
use dav_rows::{Change, LockRow, Rows, StateRow, Version};
use dav_seal::Seals;
use dav_store::{DavLock, LockError};
use dav_store_rows::{LoadError, SavedCounts, SavedLocks, load_locks, load_resources};
use dav_tree::Entry;
use sqlite::{Alter, Connection};
use std::alloc::{AllocError, Global};

/// What was kept of a store and a lock system.
#[derive(Drop)]
pub struct Loaded {
    /// The resources, in ascending order of their numbers.
    pub values: Vec<NumberedValue<Entry<Body>>>,
    /// The locks.
    pub locks: MemLs,
    /// What is kept beside them.
    pub numbers: Numbers,
    /// Where the last block of a file ends in the data file.
    pub end: usize,
}

/// What a keeper knows of the tables that it goes on from.
#[derive(Drop)]
pub struct Known {
    /// How many rows each resource has.
    pub(crate) counts: SavedCounts,
    /// The rows of the locks.
    pub(crate) locks: SavedLocks,
    /// How many changes the store had when it was last kept.
    pub(crate) version: u64,
    /// The key of the digests.
    pub(crate) key: u64,
    /// The seals of all rows.
    pub(crate) seals: Seals,
}

impl Known {
    /// Returns the changes that seal tables of version 1, which have no seal. Fails only if memory runs out.
    pub fn sealing(&self, alloc: Global) -> Result<Vec<Change>, AllocError>
        ensures { (key : ℕ) (m : Contents) → AreSealsOf key m self.now.seals → IfOk result (λ changes. Seal key m changes.items) }
    {
        let mut changes = Vec::new(alloc);
        changes.push(Change::PutState(self.seals.row()))?;
        Ok(changes)
    }
}

/// Loads what was kept from the rows of a database of this version. The rows have the seal that is kept with them, unless they
/// are of version 1, which has none.
///
/// - `Damaged`: the rows are not those of a store that was kept, or have another seal.
/// - `Memory`: memory runs out.
pub fn load(alloc: Global, rows: Rows, version: Version) -> Result<(Known, Loaded), LoadError>
    ensures end { IfOk result (λ r. IsEnd (AreBelow r.1.values.items) r.1.end) }
    ensures seals { (m : Contents) → AreTables rows m → IfOk result (λ r. AreSealsOf r.1.numbers.key m r.0.seals) }
    ensures sealed { version ≢ Older → IfOk result (λ r. AreSealed r.1.numbers.key rows) }
    ensures loaded { (image : Image) (tables : Contents) → AreRowsOfImage rows image tables → IfOk result (λ r. IsLoaded image r.1) }
    ensures known { (image : Image) (tables : Contents) → AreRowsOfImage rows image tables → IfOk result (λ r. Knows r.0 image tables) }
    ensures err { (image : Image) (tables : Contents) → AreRowsOfImage rows image tables → IfErr result IsMemory }
{
    let loaded = loaded_of(alloc, &rows)?;
    let seals = seals_of(alloc, loaded.numbers.key, &rows, version)?;
    let counts = SavedCounts::from_rows(alloc, &rows)?;
    let known = Known {
        counts,
        locks: SavedLocks::from_rows(rows.locks),
        version: loaded.numbers.counter,
        key: loaded.numbers.key,
        seals,
    };
    Ok((known, loaded))
}

/// Returns the seals of the rows under the key. The state has a row of numbers, and then that of the seal, which is the one
/// that the rows have. Only rows of version 1 may have none.
///
/// - `Damaged`: the state has other rows, or the rows have another seal.
/// - `Memory`: memory runs out.
fn seals_of(alloc: Global, key: u64, rows: &Rows, version: Version) -> Result<Seals, LoadError>
    ensures seals { (m : Contents) → AreTables rows.now m → IfOk result (AreSealsOf key m) }
    ensures sealed { version ≢ Older → OnOk result (AreSealed key rows.now) }
    ensures err { (m : Contents) → AreAll rows.now m → IsSealed key m → IfErr result IsMemory }
{
    match rows.states.as_slice() {
        [state] => without_seal(alloc, key, rows, state, version),
        [state, seal] => with_seal(alloc, key, rows, state, seal),
        _ => Err(LoadError::Damaged),
    }
}

/// The same, of rows that have no seal.
fn without_seal(
    alloc: Global,
    key: u64,
    rows: &Rows,
    state: &StateRow,
    version: Version,
) -> Result<Seals, LoadError>
    ensures seals { (m : Contents) → AreTables rows.now m → entries m.states ≡ state_entry state.now ∷ [] → IfOk result (AreSealsOf key m) }
    ensures older { OnOk result (version ≡ Older) }
{
    if version != Version::Older {
        return Err(LoadError::Damaged);
    }
    if !has_number(state, 0) {
        return Err(LoadError::Damaged);
    }
    Ok(Seals::of_rows(alloc, key, rows, state)?)
}

/// The same, of rows with a row of the state and one of a seal.
fn with_seal(
    alloc: Global,
    key: u64,
    rows: &Rows,
    state: &StateRow,
    seal: &StateRow,
) -> Result<Seals, LoadError>
    ensures seals { (m : Contents) → AreTables rows.now m → HasTwo state.now seal.now m → IfOk result (AreSealsOf key m) }
    ensures sealed { (m : Contents) → AreTables rows.now m → HasTwo state.now seal.now m → OnOk result (IsSealed key m) }
    ensures err { (m : Contents) → AreTables rows.now m → HasTwo state.now seal.now m → IsSealed key m → IfErr result IsMemory }
{
    if !has_number(state, 0) {
        return Err(LoadError::Damaged);
    }
    if !has_number(seal, 1) {
        return Err(LoadError::Damaged);
    }
    if !has_key(state, key) {
        return Err(LoadError::Damaged);
    }
    let seals = Seals::of_rows(alloc, key, rows, state)?;
    if !seals.check(seal) {
        return Err(LoadError::Damaged);
    }
    Ok(seals)
}

/// Returns whether a row of the state has this key.
fn has_key(row: &StateRow, key: u64) -> bool
    ensures { IsTrue result ↔ (row.now.digest_key ≡ pos key) }
{
    match u64::try_from(row.digest_key) {
        Ok(found) => found == key,
        Err(_) => false,
    }
}

/// Returns whether a row of the state has this number.
fn has_number(row: &StateRow, number: i64) -> bool
    ensures { IsTrue result ↔ (row.now.number ≡ number) }
{
    row.number == number
}

impl<S: Alter + Drop> Keeping<S> {
    /// Keeps in this database, of whose tables this is known.
    pub fn new(alloc: Global, conn: Connection<S>, known: Known) -> Keeping<S>
        requires { conn.in_transaction ≡ false }
        ensures same { connection_of result ≡ conn }
        ensures known { (image : Image) (tables : Contents) → Knows known image tables
            → (HasCleanDisk (state S.Store conn) → IsAt (state S.Store conn) tables) → IsKnown result image }
    {
        let Known {
            counts,
            locks,
            version,
            key,
            seals,
        } = known;
        Keeping {
            alloc,
            conn,
            counts,
            locks,
            version,
            key,
            seals,
        }
    }
}

/// Returns what the rows say. Errors are as for `load`.
fn loaded_of(alloc: Global, rows: &Rows) -> Result<Loaded, LoadError>
    ensures end { IfOk result (λ loaded. IsEnd (AreBelow loaded.values.items) loaded.end) }
    ensures loaded { (image : Image) (tables : Contents) → AreRowsOfImage rows.now image tables → IfOk result (IsLoaded image) }
    ensures err { (image : Image) (tables : Contents) → AreRowsOfImage rows.now image tables → IfErr result IsMemory }
{
    let numbers = numbers_of(&rows.states)?;
    let locks = locks_of(alloc, &rows.locks)?;
    let values = load_resources(alloc, rows)?;
    let Some(end) = end_of(&values) else {
        return Err(LoadError::Damaged);
    };
    Ok(Loaded {
        values,
        locks,
        numbers,
        end,
    })
}

/// Returns a lock system with the locks of these rows.
///
/// - `Damaged`: the rows are not those of locks of one system.
/// - `Memory`: memory runs out.
fn locks_of(alloc: Global, rows: &[LockRow]) -> Result<MemLs, LoadError>
    ensures ok { (locks : List TheLock) → AreLockRows rows.now locks → IfOk result (λ system. list_of system ≡ map kept_lock locks) }
    ensures err { (locks : List TheLock) → AreLockRows rows.now locks → HasDistinctTokens locks → AreCompatible locks → IfErr result IsMemory }
{
    let mut system = MemLs::new(alloc);
    add_all(&mut system, load_locks(alloc, rows)?)?;
    Ok(system)
}

/// Adds locks to a system without locks.
///
/// - `Damaged`: two of them have the same token, or conflict.
/// - `Memory`: memory runs out.
fn add_all(system: &mut MemLs, locks: Vec<DavLock>) -> Result<(), LoadError>
    requires { list_of system.old ≡ [] }
    ensures ok { OnOk result (list_of system.new ≡ locks.items) }
    ensures err { HasDistinctTokens locks.items → AreCompatible locks.items → IfErr result IsMemory }
{
    'locks: for lock in locks {
        if let Err(error) = system.add(lock) {
            return Err(cause_of(error));
        }
    }
    Ok(())
}

/// Returns why locks are not loaded if one of them is not added for this error.
fn cause_of(error: LockError) -> LoadError
    ensures { error ≡ LockError.Memory → result ≡ LoadError.Memory }
{
    match error {
        LockError::Memory => LoadError::Memory,
        _ => LoadError::Damaged,
    }
}
