//! Locks made from loaded rows.
ghost use Rattle.std.specs.Prelude.{◌≡◌, ◌⊎◌, Some, None, List, map, IfOk, IfErr};
ghost use Rattle.dav_cells.specs.Locks.{lock_codec, kept_lock};
ghost use Rattle.dav_wire.specs.Codec.{decode};
ghost use Rattle.dav_store.specs.declared.lock.DavLock.{DavLock as TheLock};
ghost use Rattle.dav_store_rows.specs.LockRows.{AreLockRows};

use crate::LoadError;
use dav_cells::{CellError, decode_lock};
use dav_rows::LockRow;
use dav_store::DavLock;
use std::alloc::Global;

/// Returns the locks of these rows, in order. If a lock was saved whose path is the root without a trailing
/// slash, the slash is added.
///
/// - `Damaged`: the rows are not those of locks.
/// - `Memory`: memory runs out.
pub fn load_locks(alloc: Global, rows: &[LockRow]) -> Result<Vec<DavLock>, LoadError>
    ensures ok { (locks : List TheLock) → AreLockRows rows.now locks → IfOk result (λ all. all.items ≡ map kept_lock locks) }
    ensures err { (locks : List TheLock) → AreLockRows rows.now locks → IfErr result (λ e. e ≡ LoadError.Memory) }
{
    let mut all = Vec::new(alloc);
    'rows: for row in rows {
        let lock = load_lock(alloc, row)?;
        all.push(lock)?;
    }
    Ok(all)
}

/// Decodes the lock of a row.
fn load_lock(alloc: Global, row: &LockRow) -> Result<DavLock, LoadError>
    ensures ok { IfOk result (λ lock. decode lock_codec row.now.lock.items ≡ Some lock) }
    ensures err { IfErr result (λ e. (e ≡ LoadError.Memory) ⊎ (decode lock_codec row.now.lock.items ≡ None)) }
{
    match decode_lock(alloc, &row.lock) {
        Ok(lock) => Ok(lock),
        Err(CellError::Malformed) => Err(LoadError::Damaged),
        Err(_) => Err(LoadError::Memory),
    }
}
