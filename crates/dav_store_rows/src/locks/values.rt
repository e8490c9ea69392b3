//! The rows of locks that have no numbers yet.
ghost use Rattle.std.specs.Prelude.{◌≡◌, map, IfOk, IfErr};
ghost use Rattle.dav_cells.specs.Locks.{lock_codec, kept_lock};
ghost use Rattle.dav_wire.specs.Writes.{IsEncoding};
ghost use Rattle.dav_store_rows.specs.LockRows.{lock_values, row_values, IsValidLock, AreValuesOf};
ghost use Rattle.dav_store_rows.specs.SaveErrors.{FailsUnless, IsFlatLock, AreFlatLocks};

use crate::SaveError;
use dav_cells::{CellError, encode_lock};
use dav_rows::LockRow;
use dav_store::DavLock;
use std::alloc::Global;
use std::collections::btree_map::Values;

/// Returns the rows of these locks, each with the number 0.
///
/// - `TooDeep`: an owner has more levels of elements than a cell holds.
/// - `Memory`: memory runs out.
pub(super) fn rows_of_locks(
    alloc: Global,
    locks: Values<'_, u64, DavLock>,
) -> Result<Vec<LockRow>, SaveError>
    ensures ok { IfOk result (λ rows. AreValuesOf (map row_values rows.items) locks.entry) }
    ensures err { IfErr result (FailsUnless (Unit {0}) (AreFlatLocks locks.entry)) }
{
    let mut rows = Vec::new(alloc);
    'locks: for lock in locks {
        let row = row_of_lock(alloc, lock)?;
        rows.push(row)?;
    }
    Ok(rows)
}

/// Returns the row of a lock, with the number 0.
///
/// - `TooDeep`: the owner has more levels of elements than a cell holds.
/// - `Memory`: memory runs out.
fn row_of_lock(alloc: Global, lock: &DavLock) -> Result<LockRow, SaveError>
    ensures values { IfOk result (λ row. row_values row ≡ lock_values lock.now) }
    ensures valid { IfOk result (λ row. IsValidLock lock.now) }
    ensures err { IfErr result (FailsUnless (Unit {0}) (IsFlatLock lock.now)) }
{
    let bytes = encoded(alloc, lock)?;
    Ok(LockRow {
        number: 0,
        token: String::from_str(alloc, lock.token.as_str())?,
        path: lock.path.as_url_string()?,
        lock: bytes,
    })
}

/// Encodes a lock as a cell. Returns `TooDeep` if its owner has more levels of elements than a cell holds, and
/// `Memory` if memory runs out.
fn encoded(alloc: Global, lock: &DavLock) -> Result<Vec<u8>, SaveError>
    ensures ok { IfOk result (λ bytes. IsEncoding lock_codec (kept_lock lock.now) bytes.items) }
    ensures err { IfErr result (FailsUnless (Unit {0}) (IsFlatLock lock.now)) }
{
    match encode_lock(alloc, lock) {
        Ok(bytes) => Ok(bytes),
        Err(CellError::TooDeep) => Err(SaveError::TooDeep),
        Err(_) => Err(SaveError::Memory),
    }
}
