//! The rows of which digests are made.
ghost use Rattle.std.specs.Prelude.{◌≡◌, ℕ, ℤ, IfOk, OnOk};
ghost use Rattle.dav_rows.specs.declared.change.Table.TheVariants.{Resource, Extent, Property, Lock, State};
ghost use Rattle.dav_rows.specs.Contents.{flag as flag_cell, resource_cells, extent_cells, property_cells, lock_cells, state_cells};
ghost use Rattle.dav_rows.specs.Changes.{resource_entry, extent_entry, property_entry, lock_entry, state_entry};
ghost use Rattle.dav_rows.specs.Stored.{shown};
ghost use Rattle.dav_seal.specs.RowBytes.{AreCells};
ghost use Rattle.dav_seal.specs.Digests.{entry_digest};

use crate::row_bytes::{Cell, row_digest};
use dav_rows::{ExtentRow, LockRow, PropertyRow, ResourceRow, StateRow};
use std::alloc::{AllocError, Global};

/// A row with a number and a digest.
pub(crate) trait SealedRow {
    ghost number_of: { Self → ℤ };

    ghost digest_of: { ℕ → Self → ℕ };

    /// Cells that its bytes determine.
    ghost HasCells: { Self → Type 0 };

    /// Returns the number of the row.
    fn number(&self) -> i64
        ensures { result ≡ number_of self.now };

    /// Returns the digest of the row under the key. Fails only if memory runs out.
    fn digest(&self, alloc: Global, key: u64) -> Result<u64, AllocError>
        ensures digest { IfOk result (λ d. d ≡ digest_of key self.now) }
        ensures whole { OnOk result (HasCells self.now) };
}

/// Returns a flag as the integer that its cell holds.
fn flag_of(flag: bool) -> i64
    ensures { result ≡ flag_cell flag }
{
    if flag { 1 } else { 0 }
}

impl SealedRow for ResourceRow {
    ghost number_of = { λ r. r.number };

    ghost digest_of = { λ key r. entry_digest key Resource resource_cells (resource_entry r) };

    ghost HasCells = { λ r. AreCells (shown resource_cells (resource_entry r)) };

    fn number(&self) -> i64 {
        self.number
    }

    fn digest(&self, alloc: Global, key: u64) -> Result<u64, AllocError> {
        let directory = flag_of(self.directory);
        row_digest(
            alloc,
            key,
            0,
            &[
                Cell::Int(&self.number),
                Cell::Int(&self.parent),
                Cell::Text(self.name.as_bytes()),
                Cell::Int(&directory),
                Cell::Int(&self.size),
                Cell::Int(&self.version),
                Cell::Int(&self.created),
                Cell::Int(&self.modified),
            ],
        )
    }
}

impl SealedRow for ExtentRow {
    ghost number_of = { λ r. r.number };

    ghost digest_of = { λ key r. entry_digest key Extent extent_cells (extent_entry r) };

    ghost HasCells = { λ r. AreCells (shown extent_cells (extent_entry r)) };

    fn number(&self) -> i64 {
        self.number
    }

    fn digest(&self, alloc: Global, key: u64) -> Result<u64, AllocError> {
        row_digest(
            alloc,
            key,
            1,
            &[
                Cell::Int(&self.number),
                Cell::Int(&self.resource),
                Cell::Int(&self.place),
                Cell::Blob(self.pieces.as_slice()),
            ],
        )
    }
}

impl SealedRow for PropertyRow {
    ghost number_of = { λ r. r.number };

    ghost digest_of = { λ key r. entry_digest key Property property_cells (property_entry r) };

    ghost HasCells = { λ r. AreCells (shown property_cells (property_entry r)) };

    fn number(&self) -> i64 {
        self.number
    }

    fn digest(&self, alloc: Global, key: u64) -> Result<u64, AllocError> {
        row_digest(
            alloc,
            key,
            2,
            &[
                Cell::Int(&self.number),
                Cell::Int(&self.resource),
                Cell::Text(self.namespace.as_bytes()),
                Cell::Text(self.name.as_bytes()),
                Cell::Blob(self.element.as_slice()),
            ],
        )
    }
}

impl SealedRow for LockRow {
    ghost number_of = { λ r. r.number };

    ghost digest_of = { λ key r. entry_digest key Lock lock_cells (lock_entry r) };

    ghost HasCells = { λ r. AreCells (shown lock_cells (lock_entry r)) };

    fn number(&self) -> i64 {
        self.number
    }

    fn digest(&self, alloc: Global, key: u64) -> Result<u64, AllocError> {
        row_digest(
            alloc,
            key,
            3,
            &[
                Cell::Int(&self.number),
                Cell::Text(self.token.as_bytes()),
                Cell::Text(self.path.as_bytes()),
                Cell::Blob(self.lock.as_slice()),
            ],
        )
    }
}

impl SealedRow for StateRow {
    ghost number_of = { λ r. r.number };

    ghost digest_of = { λ key r. entry_digest key State state_cells (state_entry r) };

    ghost HasCells = { λ r. AreCells (shown state_cells (state_entry r)) };

    fn number(&self) -> i64 {
        self.number
    }

    fn digest(&self, alloc: Global, key: u64) -> Result<u64, AllocError> {
        row_digest(
            alloc,
            key,
            4,
            &[
                Cell::Int(&self.number),
                Cell::Int(&self.counter),
                Cell::Int(&self.time),
                Cell::Int(&self.batch),
                Cell::Int(&self.digest_key),
            ],
        )
    }
}
