//! The rows of locks: what is saved of them, and how they are loaded.
ghost use Rattle.std.specs.Prelude.{◌≡◌, [], map, IfErr, OnOk};
ghost use Rattle.dav_rows.specs.Changes.{lock_entry};
ghost use Rattle.dav_store_rows.specs.LockRows.{SavesLocks};
ghost use Rattle.dav_store_rows.specs.SaveErrors.{FailsToSaveLocks};

mod diff;
mod loads;
mod values;

use crate::SaveError;
use dav_rows::{Change, LockRow};
use dav_store::DavLock;
use diff::save_rows;
pub use loads::load_locks;
use std::alloc::Global;
use std::collections::btree_map::Values;
use std::marker::Model;
use values::rows_of_locks;

/// The rows that are saved of the locks. In contracts its value is the list of them by number.
#[derive(Debug, Drop)]
pub struct SavedLocks {
    rows: Vec<LockRow>,
}

impl Model for SavedLocks {
    ghost use Rattle.std.specs.Prelude.{List, ℤ, map};
    ghost use Rattle.dav_rows.specs.Contents.{LockValues};
    ghost use Rattle.dav_rows.specs.Changes.{lock_entry};

    ghost Value = { List (ℤ × LockValues) };

    ghost view = { λ s. map lock_entry s.rows.items };
}

impl SavedLocks {
    /// Creates saved locks of no rows.
    pub fn new(alloc: Global) -> SavedLocks
        ensures { result ≡ [] }
    {
        SavedLocks {
            rows: Vec::new(alloc),
        }
    }

    /// Creates saved locks of loaded rows.
    pub fn from_rows(rows: Vec<LockRow>) -> SavedLocks
        ensures { result ≡ map lock_entry rows.items }
    {
        SavedLocks { rows }
    }

    /// Appends the changes after which the table of locks has these locks in order. A lock that is saved already
    /// keeps its row, and has no change if it is the same. After an error the list and the saved locks must be
    /// dropped.
    ///
    /// - `TooLarge`: the number of a new row does not fit in 63 bits.
    /// - `TooDeep`: an owner has more levels of elements than a cell holds.
    /// - `Memory`: memory runs out.
    pub fn save(
        &mut self,
        changes: &mut Vec<Change>,
        locks: Values<'_, u64, DavLock>,
    ) -> Result<(), SaveError>
        ensures ok { OnOk result (SavesLocks locks.entry self.old changes.old.items self.new changes.new.items) }
        ensures err { IfErr result (FailsToSaveLocks self.old locks.entry) }
    {
        let alloc = *changes.allocator();
        let wanted = rows_of_locks(alloc, locks)?;
        let rows = save_rows(alloc, changes, &self.rows, &wanted)?;
        self.rows = rows;
        Ok(())
    }
}
