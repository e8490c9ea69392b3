//! The changes from the rows of locks that are saved to those that are wanted.
ghost use Rattle.std.specs.Prelude.{◌≡◌, ◌≤◌, ◌≤ℤ◌, ◌<ℤ◌, ◌+ℤ◌, ◌^◌, ℕ, ℤ, pos, [], ◌∷◌, ◌++◌, map, length, IfOk, IfErr, OnOk, IsTrue};
ghost use Rattle.std.specs.List.{AllByRecursion};
ghost use Rattle.dav_rows.specs.Changes.{lock_entry};
ghost use Rattle.dav_store_rows.specs.LockRows.{row_values, values_in, BringsLocks, ReplacesRow, RenewsRow};
ghost use Rattle.dav_store_rows.specs.SaveErrors.{FailsUnless, IsOutOfMemory, AreUpTo, HaveRoom, StaysUpTo};

use crate::SaveError;
use dav_rows::{Change, LockRow, Table};
use std::alloc::{AllocError, Global};

/// Appends the changes from the saved rows to the wanted ones, and returns the new rows with their numbers.
///
/// - `TooLarge`: the number of a new row does not fit in 63 bits.
/// - `Memory`: memory runs out.
pub(super) fn save_rows(
    alloc: Global,
    changes: &mut Vec<Change>,
    saved: &[LockRow],
    wanted: &[LockRow],
) -> Result<Vec<LockRow>, SaveError>
    ensures brings { IfOk result (λ rows. BringsLocks (map lock_entry saved.now) (map lock_entry rows.items) changes.old.items changes.new.items) }
    ensures values { IfOk result (λ rows. map row_values rows.items ≡ map row_values wanted.now) }
    ensures err { IfErr result (FailsUnless (HaveRoom (map lock_entry saved.now) (length wanted.now)) (Unit {0})) }
{
    let mut rows = Vec::new(alloc);
    let mut left = wanted;
    'saved: for row in saved {
        left = save_row(changes, &mut rows, row, left)?;
    }
    add_rows(changes, &mut rows, left)?;
    Ok(rows)
}

/// Keeps a saved row if it has the token of the first wanted one, or removes it. Returns the wanted rows that are
/// left.
fn save_row<'a>(
    changes: &mut Vec<Change>,
    rows: &mut Vec<LockRow>,
    row: &LockRow,
    wanted: &'a [LockRow],
) -> Result<&'a [LockRow], SaveError>
    ensures brings { IfOk result (λ _. ReplacesRow rows.old.items row.now rows.new.items changes.old.items changes.new.items) }
    ensures values { IfOk result (λ left. values_in rows.new.items ++ values_in left.now ≡ values_in rows.old.items ++ values_in wanted.now) }
    ensures fewer { IfOk result (λ left. length left.now ≤ length wanted.now) }
    ensures low { OnOk result (StaysUpTo row.now rows.old.items rows.new.items) }
    ensures err { IfErr result IsOutOfMemory }
{
    if let Some((lock, left)) = wanted.split_first() {
        if row.token.as_str() == lock.token.as_str() {
            keep_row(changes, rows, row, lock)?;
            return Ok(left);
        }
    }
    changes.push(Change::Remove(Table::Lock, row.number))?;
    Ok(wanted)
}

/// Puts a wanted row under the number of a saved one, unless they are the same.
fn keep_row(
    changes: &mut Vec<Change>,
    rows: &mut Vec<LockRow>,
    row: &LockRow,
    lock: &LockRow,
) -> Result<(), SaveError>
    ensures brings { IfOk result (λ _. ReplacesRow rows.old.items row.now rows.new.items changes.old.items changes.new.items) }
    ensures values { IfOk result (λ _. map row_values rows.new.items ≡ map row_values rows.old.items ++ row_values lock.now ∷ []) }
    ensures low { OnOk result (StaysUpTo row.now rows.old.items rows.new.items) }
    ensures err { IfErr result IsOutOfMemory }
{
    put_row(changes, row, lock)?;
    let copy = numbered(lock, row.number)?;
    rows.push(copy)?;
    Ok(())
}

/// Appends the change that puts a wanted row under the number of a saved one, unless they are the same.
fn put_row(changes: &mut Vec<Change>, row: &LockRow, lock: &LockRow) -> Result<(), SaveError>
    ensures ok { OnOk result (RenewsRow row.now lock.now changes.old.items changes.new.items) }
    ensures err { IfErr result IsOutOfMemory }
{
    if is_same(row, lock) {
        return Ok(());
    }
    let put = numbered(lock, row.number)?;
    changes.push(Change::PutLock(put))?;
    Ok(())
}

/// Appends the wanted rows under new numbers.
fn add_rows(
    changes: &mut Vec<Change>,
    rows: &mut Vec<LockRow>,
    wanted: &[LockRow],
) -> Result<(), SaveError>
    ensures brings { IfOk result (λ _. BringsLocks (map lock_entry rows.old.items) (map lock_entry rows.new.items) changes.old.items changes.new.items) }
    ensures values { IfOk result (λ _. map row_values rows.new.items ≡ map row_values rows.old.items ++ map row_values wanted.now) }
    ensures err { IfErr result (FailsUnless (HaveRoom (map lock_entry rows.old.items) (length wanted.now)) (Unit {0})) }
{
    let mut number = greatest_number(rows);
    'wanted: for lock in wanted {
        let next = next_number(number)?;
        let put = numbered(lock, next)?;
        changes.push(Change::PutLock(put))?;
        let copy = numbered(lock, next)?;
        rows.push(copy)?;
        number = next;
    }
    Ok(())
}

/// Returns a greater number. Returns `TooLarge` if it does not fit in 63 bits.
fn next_number(number: i64) -> Result<i64, SaveError>
    ensures greater { IfOk result (λ next. next ≡ number +ℤ pos 1) }
    ensures err { IfErr result (FailsUnless ((number +ℤ pos 1) <ℤ pos (2 ^ 63)) (Unit {0})) }
{
    match number.checked_add(1) {
        Some(next) => Ok(next),
        None => Err(SaveError::TooLarge),
    }
}

/// Returns the greatest number of the rows, or 0 if none is greater.
fn greatest_number(rows: &[LockRow]) -> i64
    ensures greatest { AllByRecursion (λ e. e.0 ≤ℤ result) (map lock_entry rows.now) }
    ensures least { (top : ℕ) → AreUpTo top (map lock_entry rows.now) → result ≤ℤ pos top }
{
    let mut greatest = 0;
    'rows: for row in rows {
        greatest = greater(greatest, row.number);
    }
    greatest
}

/// Returns the greater of two numbers.
fn greater(number: i64, other: i64) -> i64
    ensures number { number ≤ℤ result }
    ensures other { other ≤ℤ result }
    ensures least { (top : ℤ) → number ≤ℤ top → other ≤ℤ top → result ≤ℤ top }
{
    if number < other { other } else { number }
}

/// Whether two rows are of the same lock.
fn is_same(row: &LockRow, other: &LockRow) -> bool
    ensures { IsTrue result → row_values row.now ≡ row_values other.now }
{
    row.token.as_str() == other.token.as_str()
        && row.path.as_str() == other.path.as_str()
        && row.lock.as_slice() == other.lock.as_slice()
}

/// Copies a row under a number. Fails only if memory runs out.
fn numbered(row: &LockRow, number: i64) -> Result<LockRow, AllocError>
    ensures { IfOk result (λ copy. lock_entry copy ≡ (number, row_values row.now)) }
{
    Ok(LockRow {
        number,
        token: row.token.clone()?,
        path: row.path.clone()?,
        lock: Vec::from_slice(*row.lock.allocator(), &row.lock)?,
    })
}
