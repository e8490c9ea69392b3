//! Saves changes in one transaction.
ghost use Rattle.std.specs.Prelude.{◌≡◌, ◌≤◌, ◌++◌, ◌∷◌, [], false, Any, IfSome, OnOk, OnErr};
ghost use Rattle.sqlite_trees.specs.View.{doubt};
ghost use Rattle.sqlite.specs.State.{HasCleanDisk, KeepsCommit, Survives};
ghost use Rattle.sqlite.specs.Held.{state};
ghost use Rattle.dav_rows.specs.declared.change.Change.TheVariants.{PutState};
ghost use Rattle.dav_rows.specs.Texts.{removal};
ghost use Rattle.dav_rows.specs.Changes.{removed, after_one, after};
ghost use Rattle.dav_rows.specs.Failing.{PutsTooLong, FailsToApply, FailsToSave};
ghost use Rattle.dav_rows.specs.Saving.{Applies, Moves, Stays, Leaves, LeavesEither};

use crate::change::{Change, Table};
use crate::execute::execute;
use crate::state::StateRow;
use crate::{extent, lock, note, property, resource, state};
use sqlite::{Alter, Connection, Error, Transaction, params};

fn removal_of(table: Table) -> &'static str
    ensures { result.now ≡ removal table }
{
    match table {
        Table::Resource => "DELETE FROM resource WHERE number = ?1",
        Table::Extent => "DELETE FROM extent WHERE number = ?1",
        Table::Property => "DELETE FROM property WHERE number = ?1",
        Table::Lock => "DELETE FROM lock WHERE number = ?1",
        Table::State => "DELETE FROM state WHERE number = ?1",
        Table::Note => "DELETE FROM note WHERE number = ?1",
    }
}

fn remove<S: Alter>(tx: &mut Transaction<'_, S>, table: Table, number: &i64) -> Result<usize, Error>
    ensures same_reference { tx.new.conn.ghost_name ≡ tx.old.conn.ghost_name }
    ensures row { Applies (state S.Store tx.old.conn.now) (state S.Store tx.new.conn.now) (removed table number.now) result }
    ensures err { FailsToApply (state S.Store tx.old.conn.now) (state S.Store tx.new.conn.now) ⊥ result }
    ensures kept { HasCleanDisk (state S.Store tx.new.conn.now) → KeepsCommit (state S.Store tx.old.conn.now) (state S.Store tx.new.conn.now) }
    ensures survives { Survives (state S.Store tx.old.conn.now) (state S.Store tx.new.conn.now) (λ _. ⊥) }
{
    let sql = removal_of(table);
    execute(tx, sql, params![number])
}

fn apply<S: Alter>(tx: &mut Transaction<'_, S>, change: &Change) -> Result<usize, Error>
    ensures same_reference { tx.new.conn.ghost_name ≡ tx.old.conn.ghost_name }
    ensures row { Applies (state S.Store tx.old.conn.now) (state S.Store tx.new.conn.now) (after_one change.now) result }
    ensures err { FailsToApply (state S.Store tx.old.conn.now) (state S.Store tx.new.conn.now) (PutsTooLong change.now) result }
    ensures kept { HasCleanDisk (state S.Store tx.new.conn.now) → KeepsCommit (state S.Store tx.old.conn.now) (state S.Store tx.new.conn.now) }
    ensures survives { Survives (state S.Store tx.old.conn.now) (state S.Store tx.new.conn.now) (λ _. ⊥) }
{
    match change {
        Change::PutResource(row) => resource::put(tx, row),
        Change::PutExtent(row) => extent::put(tx, row),
        Change::PutProperty(row) => property::put(tx, row),
        Change::PutLock(row) => lock::put(tx, row),
        Change::PutState(row) => state::put(tx, row),
        Change::PutNote(row) => note::put(tx, row),
        Change::Remove(table, number) => remove(tx, *table, number),
    }
}

fn apply_each<S: Alter>(tx: &mut Transaction<'_, S>, changes: &[Change]) -> Result<(), Error>
    ensures same_reference { tx.new.conn.ghost_name ≡ tx.old.conn.ghost_name }
    ensures rows { Applies (state S.Store tx.old.conn.now) (state S.Store tx.new.conn.now) (after changes.now) result }
    ensures err { FailsToApply (state S.Store tx.old.conn.now) (state S.Store tx.new.conn.now) (Any PutsTooLong changes.now) result }
    ensures kept { HasCleanDisk (state S.Store tx.new.conn.now) → KeepsCommit (state S.Store tx.old.conn.now) (state S.Store tx.new.conn.now) }
    ensures survives { Survives (state S.Store tx.old.conn.now) (state S.Store tx.new.conn.now) (λ _. ⊥) }
{
    'changes: for change in changes {
        apply(tx, change)?;
    }
    Ok(())
}

/// Returns the changes before the last two, and those two, if both put a row of the state.
fn two_last(changes: &[Change]) -> Option<(&[Change], &StateRow, &StateRow)>
    ensures { IfSome result (λ r. changes.now ≡ r.0.now ++ PutState r.1.now ∷ PutState r.2.now ∷ []) }
{
    match changes {
        [
            others @ ..,
            Change::PutState(first),
            Change::PutState(second),
        ] => Some((others, first, second)),
        _ => None,
    }
}

/// Applies the changes, the first of them first. Two rows of the state at the end are put at once.
pub(crate) fn apply_all<S: Alter>(
    tx: &mut Transaction<'_, S>,
    changes: &[Change],
) -> Result<(), Error>
    ensures same_reference { tx.new.conn.ghost_name ≡ tx.old.conn.ghost_name }
    ensures rows { Applies (state S.Store tx.old.conn.now) (state S.Store tx.new.conn.now) (after changes.now) result }
    ensures err { FailsToApply (state S.Store tx.old.conn.now) (state S.Store tx.new.conn.now) (Any PutsTooLong changes.now) result }
    ensures kept { HasCleanDisk (state S.Store tx.new.conn.now) → KeepsCommit (state S.Store tx.old.conn.now) (state S.Store tx.new.conn.now) }
    ensures survives { Survives (state S.Store tx.old.conn.now) (state S.Store tx.new.conn.now) (λ _. ⊥) }
{
    match two_last(changes) {
        Some((others, first, second)) => {
            apply_each(tx, others)?;
            state::put_two(tx, first, second)?;
            Ok(())
        }
        None => apply_each(tx, changes),
    }
}

/// Saves the changes in one transaction. After an `Err` the tables are as they were, or the connection is shut and a crash may find either.
/// Over the store's tables it fails only if memory runs out, the disk reports a fault, a query reaches the caller's step limit, or a row is too long.
pub fn save<S: Alter>(conn: &mut Connection<S>, changes: &[Change]) -> Result<(), Error>
    requires { conn.old.in_transaction ≡ false }
    ensures idle { conn.new.in_transaction ≡ false }
    ensures ok { HasCleanDisk (state S.Store conn.new) → OnOk result (Moves (state S.Store conn.old) (state S.Store conn.new) (after changes.now)) }
    ensures durable { HasCleanDisk (state S.Store conn.new) → OnOk result (Leaves (state S.Store conn.old) (state S.Store conn.new) (after changes.now)) }
    ensures cause { FailsToSave (state S.Store conn.old) (state S.Store conn.new) changes.now result }
    ensures err { HasCleanDisk (state S.Store conn.new) → OnErr result (Stays (state S.Store conn.old) (state S.Store conn.new)) }
    ensures crash { HasCleanDisk (state S.Store conn.new) → LeavesEither (state S.Store conn.old) (state S.Store conn.new) (after changes.now) }
    ensures clean { doubt (state S.Store conn.old).is_clean ≤ doubt (state S.Store conn.new).is_clean }
{
    let mut tx = conn.transaction();
    apply_all(&mut tx, changes)?;
    tx.commit()
}
