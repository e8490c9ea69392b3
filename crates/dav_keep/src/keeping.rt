//! A keeper of a store over pieces of a data file.
ghost use Rattle.std.specs.Prelude.{◌≡◌, false};

use crate::KeepError;
use crate::numbers::{Numbers, row_of};
use dav_memls::MemLs;
use dav_pieces::Body;
use dav_rows::{Change, save};
use dav_seal::Seals;
use dav_store_rows::{SavedCounts, SavedLocks, save_changes};
use dav_tree::{Medium, TreeFs};
use sqlite::{Alter, Connection};
use std::alloc::Global;

/// Keeps a store and a lock system in the tables of a database.
#[derive(Drop)]
pub struct Keeping<S: Alter> {
    pub(crate) alloc: Global,
    pub(crate) conn: Connection<S>,
    /// How many rows each resource has.
    pub(crate) counts: SavedCounts,
    /// The rows of the locks.
    pub(crate) locks: SavedLocks,
    /// How many changes the store had when it was last kept.
    pub(crate) version: u64,
    /// The key of the digests.
    pub(crate) key: u64,
    /// The seals of all rows. After an error they may be of other rows.
    pub(crate) seals: Seals,
    ghost idle: { conn.in_transaction ≡ false },
}

impl<S: Alter> Keeping<S> {
    ghost use Rattle.std.specs.Prelude.{◌≡◌, ◌≢◌, ◌≤◌, false, None, IfOk, OnOk, OnErr};
    ghost use Rattle.sqlite_trees.specs.View.{doubt};
    ghost use Rattle.dav_tree.specs.Before.{IsSaved};
    ghost use Rattle.dav_tree.specs.Memory.{asked, with_held};
    ghost use Rattle.dav_tree.specs.TreeFs.{memory_of, records_of, before_of, older_of, entries_of};
    ghost use Rattle.dav_keep.specs.Images.{Image};
    ghost use Rattle.dav_keep.specs.Keeping.{connection_of, database, IsKept, KeepsNow, Stops};
    ghost use Rattle.dav_keep.specs.Steps.{Prepares, OnlyRowsDiffer, OnlyDatabaseDiffers, IsAskedOrNot, Follows, Commits, MayCommit};

    /// Makes safe what files contain, and saves what has changed since the last call, with this time and the number of
    /// this batch. Returns whether anything has changed. If nothing has, it neither syncs nor commits, and the time and the
    /// number stay as they were.
    ///
    /// After an error a crash leaves what was kept before, or what was to be kept, and the keeper must be dropped.
    ///
    /// - `Data`: the medium cannot make its bodies safe.
    /// - `Rows`: something does not fit in a row, or memory runs out.
    /// - `Database`: the database fails.
    pub fn keep<M: Medium<Body = Body>>(
        &mut self,
        store: &mut TreeFs<M>,
        locks: &MemLs,
        now: u64,
        batch: u64,
    ) -> Result<bool, KeepError>
        ensures kept { (image : Image) → IsKept M.body_code self.old (before_of store.old) image
            → IfOk result (λ changed. KeepsNow changed image self.new store.new locks.now now batch) }
        ensures stopped { (image : Image) → IsKept M.body_code self.old (before_of store.old) image
            → OnErr result (Stops image self.new store.old store.new locks.now now batch) }
        ensures saved { OnOk result (IsSaved store.new.entries) }
        ensures clean { doubt (database self.old).is_clean ≤ doubt (database self.new).is_clean }
        ensures unchanged { IfOk result (λ changed. changed ≡ false → before_of store.new ≡ before_of store.old) }
        ensures memory { memory_of store.new ≡ with_held (asked (before_of store.new)) (memory_of store.old) }
        ensures entries { entries_of store.new ≡ entries_of store.old }
        ensures records { records_of store.new ≡ records_of store.old }
    {
        match self.prepare(store, locks)? {
            Some(changes) => {
                let numbers = Numbers {
                    counter: store.version(),
                    time: now,
                    batch,
                    key: self.key,
                };
                self.commit(changes, numbers)?;
                Ok(true)
            }
            None => Ok(false),
        }
    }

    /// Returns the connection to the database.
    pub fn into_connection(self) -> Connection<S>
        ensures { result ≡ connection_of self }
    {
        self.conn
    }

    /// Makes safe what files contain, and returns the changes after which the tables of resources and of locks are those of
    /// what there is now. Returns `None` if nothing has changed since the last call of `keep`. Errors are as for `keep`.
    fn prepare<M: Medium<Body = Body>>(
        &mut self,
        store: &mut TreeFs<M>,
        locks: &MemLs,
    ) -> Result<Option<Vec<Change>>, KeepError>
        ensures same { OnlyRowsDiffer self.old self.new }
        ensures prepared { IfOk result (λ changes. Prepares self.old self.new store.old store.new locks.now changes) }
        ensures older { IfOk result (λ changes. changes ≡ None → before_of store.new ≡ before_of store.old) }
        ensures took { IfOk result (λ changes. changes ≢ None → older_of store.new ≡ before_of store.old) }
        ensures stopped { OnErr result (IsAskedOrNot store.old store.new) }
        ensures saved { OnOk result (IsSaved store.new.entries) }
        ensures memory { memory_of store.new ≡ with_held (asked (before_of store.new)) (memory_of store.old) }
        ensures entries { entries_of store.new ≡ entries_of store.old }
        ensures records { records_of store.new ≡ records_of store.old }
    {
        let mut changes = Vec::new(self.alloc);
        self.locks.save(&mut changes, locks.locks())?;
        if changes.is_empty() && store.version() == self.version && !store.has_changes() {
            return Ok(None);
        }
        let noted = store.take_changes()?;
        store.show_entries();
        save_changes(store, &noted, &mut self.counts, &mut changes)?;
        Ok(Some(changes))
    }

    /// Saves the changes, and with them these numbers and the seal.
    ///
    /// - `Rows`: a number does not fit in 63 bits, or memory runs out.
    /// - `Database`: the database fails.
    fn commit(&mut self, mut changes: Vec<Change>, numbers: Numbers) -> Result<(), KeepError>
        ensures same { OnlyDatabaseDiffers self.old self.new }
        ensures version { OnOk result (self.new.version ≡ numbers.counter) }
        ensures follows { OnOk result (Follows self.old self.new changes.items numbers) }
        ensures ok { OnOk result (Commits self.old self.new changes.items numbers) }
        ensures crash { MayCommit self.old self.new changes.items numbers }
        ensures clean { doubt (database self.old).is_clean ≤ doubt (database self.new).is_clean }
    {
        changes.push(Change::PutState(row_of(numbers)?))?;
        let changes = self.seals.with_seal(changes)?;
        save(&mut self.conn, &changes)?;
        self.version = numbers.counter;
        Ok(())
    }
}
