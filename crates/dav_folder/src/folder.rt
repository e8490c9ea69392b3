//! The keeper of a folder.
use dav_data::{Claim, ClaimedFile};
use dav_keep::{KeepError, Keeping};
use dav_memls::MemLs;
use dav_reserve::Roomy;
use dav_tree::{Medium, TreeFs};
use sqlite::{Alter, Connection};
use std::io::{self, ErrorKind};

/// Keeps a store over the data file of a folder, and its locks, in the folder's database. Blocks of the data file that
/// nothing needs any more are used again: those that a sweep finds, which follows a batch when it is time for it, and
/// never while somebody copies the files.
#[derive(Drop)]
pub struct Folder<S: Alter> {
    keeping: Keeping<S>,
    /// The number of the last batch that changed something.
    batch: u64,
    /// Why the last call failed.
    failure: Option<KeepError>,
    /// Whether there was a sweep since the folder was opened.
    has_swept: bool,
    /// How many writes to the data file had found no room at the last sweep.
    refused: u64,
}

impl<S: Alter> Folder<S> {
    ghost use Rattle.std.specs.Prelude.{◌≡◌, true};
    ghost use Rattle.dav_keep.specs.Keeping.{connection_of};
    ghost use Rattle.dav_tree.specs.Before.{IsSaved};
    ghost use Rattle.dav_tree.specs.TreeFs.{memory_of, entries_of, records_of};
    ghost use Rattle.dav_folder.specs.Folders.{keeping_of, batch_of};

    /// Keeps with this keeper. `batch` is the number of the last batch that changed something.
    pub fn new(keeping: Keeping<S>, batch: u64) -> Folder<S>
        ensures keeping { keeping_of result ≡ keeping }
        ensures batch { batch_of result ≡ batch }
    {
        Folder {
            keeping,
            batch,
            failure: None,
            has_swept: false,
            refused: 0,
        }
    }

    /// Returns why a batch could not be kept, if one could not.
    pub fn failure(&self) -> Option<&KeepError> {
        self.failure.as_ref()
    }

    /// Returns the number of the last batch that changed something.
    pub fn batch(&self) -> u64
        ensures { result ≡ batch_of self.now }
    {
        self.batch
    }

    /// Has the data file use again what nothing needs any more, if it is time for that and nobody copies the files.
    /// `changed` says whether something that is kept has changed since the last call.
    fn reuse<D: Roomy + Drop, C: Claim>(
        &mut self,
        store: &mut TreeFs<ClaimedFile<D, C>>,
        changed: bool,
        in_backup: bool,
    )
        requires { IsSaved store.old.entries }
        ensures keeping { keeping_of self.new ≡ keeping_of self.old }
        ensures batch { batch_of self.new ≡ batch_of self.old }
        ensures memory { memory_of store.new ≡ memory_of store.old }
        ensures entries { entries_of store.new ≡ entries_of store.old }
        ensures records { records_of store.new ≡ records_of store.old }
        ensures backup { in_backup ≡ true → store.new ≡ store.old }
    {
        if in_backup || !self.wants_sweep(store, changed) {
            return;
        }
        self.has_swept = true;
        self.refused = store.medium().file().disk().tally().refused;
        // A sweep gives nothing up before what was written is on the disk.
        if changed || store.take_changes().is_ok() {
            store.sweep();
        }
    }

    /// Returns whether it is time for a sweep. If something has changed, the data file says so; or its disk is full, so that
    /// what a DELETE gave up is there for the next PUT; or there was none yet, and so nobody knows what was lost when the
    /// program ended. Otherwise a write has found no room since the last sweep, so that what a PUT wrote before it failed is
    /// there again.
    fn wants_sweep<D: Roomy + Drop, C: Claim>(
        &self,
        store: &TreeFs<ClaimedFile<D, C>>,
        changed: bool,
    ) -> bool {
        let file = store.medium().file();
        let disk = file.disk();
        if changed {
            !self.has_swept || file.wants_sweep() || disk.is_full()
        } else {
            disk.tally().refused != self.refused
        }
    }

    /// Returns the connection to the database.
    pub fn into_connection(self) -> Connection<S>
        ensures { result ≡ connection_of (keeping_of self) }
    {
        self.keeping.into_connection()
    }
}

impl<S: Alter> Folder<S> {
    ghost use Rattle.std.specs.Prelude.{◌≡◌, ◌≤◌, OnOk, OnErr};
    ghost use Rattle.dav_pieces.specs.declared.piece.Piece.{Piece};
    ghost use Rattle.dav_server.specs.Snapshots.{snapshot_at, OnlySavedDiffers, KeepsOne};
    ghost use Rattle.dav_tree.specs.TreeFs.{store_of, before_of};
    ghost use Rattle.dav_folder.specs.Folders.{batch_of};
    ghost use Rattle.dav_folder.specs.Lasting.{At, Lasts, LastsEither, IsSameKept, HasCleanDatabase};

    /// Keeps what a batch has changed, as [`dav_server::Keeper`] wants it. The number of a batch is not less than that of
    /// an earlier one.
    ///
    /// - `InvalidInput`: the number is less. Nothing has changed.
    /// - `Other`: the batch cannot be kept, for the reason that `failure` returns.
    pub fn keep_batch<D: Roomy + Drop, C: Claim>(
        &mut self,
        store: &mut TreeFs<ClaimedFile<D, C>>,
        locks: &MemLs,
        now: u64,
        last: u64,
        in_backup: bool,
    ) -> io::Result<()>
        ensures seen { OnlySavedDiffers (store_of store.old) (store_of store.new) }
        ensures clean { HasCleanDatabase self.new → HasCleanDatabase self.old }
        ensures rises { batch_of self.old ≤ batch_of self.new }
        ensures failed { OnErr result (batch_of self.new ≡ batch_of self.old) }
        ensures ok { OnOk result ((before : At ⟦<ClaimedFile<D, C> as Medium>⟧) → Lasts C.Claim self.old (before_of store.old) before
            → KeepsOne (Lasts C.Claim) IsSameKept self.new (before_of store.new) before (snapshot_at store.new locks.now now last)) }
        ensures err { OnErr result ((before : At ⟦<ClaimedFile<D, C> as Medium>⟧) → Lasts C.Claim self.old (before_of store.old) before
            → LastsEither C.Claim self.new (before_of store.new) before (snapshot_at store.new locks.now now last)) }
    {
        if last < self.batch {
            return Err(io::Error::from(ErrorKind::InvalidInput));
        }
        match self.keeping.keep(store, locks, now, last) {
            Ok(changed) => {
                store.show_sound();
                if changed {
                    self.batch = last;
                }
                self.reuse(store, changed, in_backup);
                Ok(())
            }
            Err(error) => {
                store.show_sound();
                self.failure = Some(error);
                Err(io::Error::from(ErrorKind::Other))
            }
        }
    }
}
