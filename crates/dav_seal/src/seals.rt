//! The seals of all tables.
ghost use Rattle.std.specs.Prelude.{◌≡◌, ◌↔◌, ℤ, ℕ, pos, [], ◌∷◌, IsTrue, IfOk, OnOk};
ghost use Rattle.std.specs.List.{AllByRecursion};
ghost use Rattle.dav_rows.specs.Changes.{state_entry, after, after_one, put_state, removed};
ghost use Rattle.dav_rows.specs.Creating.{nothing};
ghost use Rattle.dav_seal.specs.Puts.{put_all};
ghost use Rattle.dav_seal.specs.Held.{HasDigests, Puts};
ghost use Rattle.dav_seal.specs.SealRow.{row_with};

use crate::sealed_row::SealedRow;
use crate::table_seal::{Numbering, TableSeal};
use dav_rows::{Change, Rows, StateRow, Table};
use std::alloc::{AllocError, Global};

/// The row of the state that holds the seal.
const SEAL: i64 = 1;

/// The digests of all rows of a store under a key, and their sums. After an error they have to be dropped: part of a change
/// may be in them.
#[derive(Drop)]
pub struct Seals {
    alloc: Global,
    key: u64,
    resources: TableSeal,
    extents: TableSeal,
    properties: TableSeal,
    locks: TableSeal,
    states: TableSeal,
}

impl Seals {
    ghost use Rattle.dav_seal.specs.Seals.{seal_of, seal_row, sealed_after, AreSealsOf, AreTables, IsOnly};

    /// Returns the seals of no rows.
    pub fn new(alloc: Global, key: u64) -> Seals
        ensures { AreSealsOf key nothing result }
    {
        Seals {
            alloc,
            key,
            resources: TableSeal::new(alloc, Numbering::Plain),
            extents: TableSeal::new(alloc, Numbering::Parts),
            properties: TableSeal::new(alloc, Numbering::Parts),
            locks: TableSeal::new(alloc, Numbering::Plain),
            states: TableSeal::new(alloc, Numbering::Plain),
        }
    }

    /// Returns the seals of these rows, with this one as the only row of the state. Fails only if memory runs out.
    pub fn of_rows(
        alloc: Global,
        key: u64,
        rows: &Rows,
        state: &StateRow,
    ) -> Result<Seals, AllocError>
        ensures { (m : _) → AreTables rows.now m → IsOnly state.now m → IfOk result (AreSealsOf key m) }
    {
        let mut states = TableSeal::new(alloc, Numbering::Plain);
        put_row(&mut states, alloc, key, state)?;
        Ok(Seals {
            alloc,
            key,
            resources: seal_of_rows(alloc, Numbering::Plain, key, rows.resources.as_slice())?,
            extents: seal_of_rows(alloc, Numbering::Parts, key, rows.extents.as_slice())?,
            properties: seal_of_rows(alloc, Numbering::Parts, key, rows.properties.as_slice())?,
            locks: seal_of_rows(alloc, Numbering::Plain, key, rows.locks.as_slice())?,
            states,
        })
    }

    /// Changes the seals as the change changes the rows. Fails only if memory runs out.
    pub fn apply(&mut self, change: &Change) -> Result<(), AllocError>
        ensures { (key : _) (m : _) → AreSealsOf key m self.old → OnOk result (AreSealsOf key (after_one change.now m) self.new) }
    {
        let alloc = self.alloc;
        let key = self.key;
        match change {
            Change::PutResource(row) => put_row(&mut self.resources, alloc, key, row),
            Change::PutExtent(row) => put_row(&mut self.extents, alloc, key, row),
            Change::PutProperty(row) => put_row(&mut self.properties, alloc, key, row),
            Change::PutLock(row) => put_row(&mut self.locks, alloc, key, row),
            Change::PutState(row) => self.put_state_row(row),
            Change::PutNote(_) => Ok(()),
            Change::Remove(table, number) => {
                self.remove(*table, number);
                Ok(())
            }
        }
    }

    /// Puts the digest of a row of the state, unless it is that of the seal.
    fn put_state_row(&mut self, row: &StateRow) -> Result<(), AllocError>
        ensures { (key : _) (m : _) → AreSealsOf key m self.old → OnOk result (AreSealsOf key (put_state row.now m) self.new) }
    {
        if is_seal(row) {
            return Ok(());
        }
        put_row(&mut self.states, self.alloc, self.key, row)
    }

    /// Changes the seals as the changes change the rows, the first of them first. Fails only if memory runs out.
    pub fn apply_all(&mut self, changes: &[Change]) -> Result<(), AllocError>
        ensures { (key : _) (m : _) → AreSealsOf key m self.old → OnOk result (AreSealsOf key (after changes.now m) self.new) }
    {
        'changes: for change in changes {
            self.apply(change)?;
        }
        Ok(())
    }

    /// Changes the seals as these changes change the rows, and returns the changes with one more behind them, which puts the
    /// row of the seal that there is then. Fails only if memory runs out.
    pub fn with_seal(&mut self, mut changes: Vec<Change>) -> Result<Vec<Change>, AllocError>
        ensures seals { (key : _) (m : _) → AreSealsOf key m self.old → OnOk result (AreSealsOf key (sealed_after key changes.items m) self.new) }
        ensures sealed { (key : _) (m : _) → AreSealsOf key m self.old → IfOk result (λ all. after all.items m ≡ sealed_after key changes.items m) }
    {
        self.apply_all(&changes)?;
        changes.push(Change::PutState(self.row()))?;
        Ok(changes)
    }

    /// Removes the digest of a row.
    fn remove(&mut self, table: Table, number: &i64)
        ensures { (key : _) (m : _) → AreSealsOf key m self.old → AreSealsOf key (removed table number.now m) self.new }
    {
        match table {
            Table::Resource => self.resources.remove(number),
            Table::Extent => self.extents.remove(number),
            Table::Property => self.properties.remove(number),
            Table::Lock => self.locks.remove(number),
            Table::State => self.states.remove(number),
            Table::Note => {}
        }
    }

    /// Returns the row of the state that holds the seal.
    pub fn row(&self) -> StateRow
        ensures { (key : _) (m : _) → AreSealsOf key m self.now → state_entry result ≡ seal_row key m }
    {
        StateRow {
            number: SEAL,
            counter: self.sum().cast_signed(),
            time: 0,
            batch: 0,
            digest_key: 0,
        }
    }

    /// Returns whether this is the row of the state that holds the seal.
    pub fn check(&self, row: &StateRow) -> bool
        ensures { (key : _) (m : _) → AreSealsOf key m self.now → IsTrue result ↔ (state_entry row.now ≡ seal_row key m) }
    {
        is_row_of(row, self.sum())
    }

    /// Returns the sum of the digests of all rows, mod 2^64.
    fn sum(&self) -> u64
        ensures { (key : _) (m : _) → AreSealsOf key m self.now → result ≡ seal_of key m }
    {
        self.resources
            .sum()
            .wrapping_add(self.extents.sum())
            .wrapping_add(self.properties.sum())
            .wrapping_add(self.locks.sum())
            .wrapping_add(self.states.sum())
    }
}

/// Returns whether a row of the state is that of the seal.
fn is_seal(row: &StateRow) -> bool
    ensures { IsTrue result ↔ (row.now.number ≡ pos 1) }
{
    row.number == SEAL
}

/// Returns whether a row is the one that holds this seal.
fn is_row_of(row: &StateRow, seal: u64) -> bool
    ensures { IsTrue result ↔ (state_entry row.now ≡ row_with seal) }
{
    is_seal(row)
        && row.counter == seal.cast_signed()
        && row.time == 0
        && row.batch == 0
        && row.digest_key == 0
}

/// Returns the seal of these rows.
fn seal_of_rows<R: SealedRow>(
    alloc: Global,
    numbering: Numbering,
    key: u64,
    rows: &[R],
) -> Result<TableSeal, AllocError>
    ensures digests { IfOk result (λ seal. HasDigests seal (put_all R.number_of (R.digest_of key) rows.now)) }
    ensures whole { OnOk result (AllByRecursion R.HasCells rows.now) }
{
    let mut seal = TableSeal::new(alloc, numbering);
    'rows: for row in rows {
        put_row(&mut seal, alloc, key, row)?;
    }
    Ok(seal)
}

/// Puts the digest of a row.
fn put_row<R: SealedRow>(
    seal: &mut TableSeal,
    alloc: Global,
    key: u64,
    row: &R,
) -> Result<(), AllocError>
    ensures digest { OnOk result (Puts (R.number_of row.now) (R.digest_of key row.now) seal.old seal.new) }
    ensures whole { OnOk result (R.HasCells row.now) }
{
    let digest = row.digest(alloc, key)?;
    seal.put(row.number(), digest)
}
