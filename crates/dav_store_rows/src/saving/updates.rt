//! The changes of a store since it was last saved.
ghost use Rattle.std.specs.Prelude.{OnOk};
ghost use Rattle.dav_tree.specs.TreeFs.{entries_of};
ghost use Rattle.dav_store_rows.specs.Updates.{Updates, Renews, RenewsNumbers};

use crate::{SaveError, SavedCounts};
use dav_nodes::Changes;
use dav_pieces::Body;
use dav_rows::Change;
use dav_tree::{Medium, TreeFs};
use std::collections::BTreeSet;

/// Appends the changes after which the tables stand for what is in a store. The tables must stand for what was in
/// it at some time before, `saved` must count their rows, and `noted` must have each number whose resource has
/// changed since. The tables of locks and of the state stay as they are. After an error the list and the counts
/// must be dropped.
///
/// - `TooLarge`: a number, a size, a time or a count does not fit in a row.
/// - `TooDeep`: the element of a property has more levels than a cell holds.
/// - `Memory`: memory runs out.
pub fn save_changes<M: Medium<Body = Body>>(
    store: &TreeFs<M>,
    noted: &Changes,
    saved: &mut SavedCounts,
    changes: &mut Vec<Change>,
) -> Result<(), SaveError>
    ensures { OnOk result (Updates M.body_code noted.now (entries_of store.now) saved.old changes.old.items saved.new changes.new.items) }
{
    match noted {
        Changes::All => save_all(store, saved, changes)?,
        Changes::Numbers(numbers) => save_numbers(store, numbers, saved, changes)?,
    }
    Ok(())
}

/// Appends the changes of all numbers.
fn save_all<M: Medium<Body = Body>>(
    store: &TreeFs<M>,
    saved: &mut SavedCounts,
    changes: &mut Vec<Change>,
) -> Result<(), SaveError>
    ensures { OnOk result (Renews M.body_code (entries_of store.now) Changes.All saved.old changes.old.items saved.new changes.new.items) }
{
    let limit = store.number_limit().max(saved.len());
    'numbers: for number in 0..limit {
        saved.save_resource(changes, number, store.resource(number))?;
    }
    Ok(())
}

/// Appends the changes of these numbers.
fn save_numbers<M: Medium<Body = Body>>(
    store: &TreeFs<M>,
    numbers: &BTreeSet<usize>,
    saved: &mut SavedCounts,
    changes: &mut Vec<Change>,
) -> Result<(), SaveError>
    ensures { OnOk result (RenewsNumbers M.body_code (entries_of store.now) numbers.now saved.old changes.old.items saved.new changes.new.items) }
{
    'numbers: for number in numbers {
        saved.save_resource(changes, *number, store.resource(*number))?;
    }
    Ok(())
}
