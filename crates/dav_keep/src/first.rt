//! The tables of a new store.
ghost use Rattle.std.specs.Prelude.{IfOk};
ghost use Rattle.dav_rows.specs.Creating.{first};
ghost use Rattle.dav_keep.specs.Images.{StandForImage};
ghost use Rattle.dav_keep.specs.Loading.{first_image};

use crate::numbers::{Numbers, row_of};
use dav_nodes::PlacedValue;
use dav_rows::Change;
use dav_seal::Seals;
use dav_store_rows::{SaveError, SavedCounts};
use dav_tree::{Content, Entry};
use std::alloc::Global;

/// Returns the changes that make tables of a new store of no tables: it has the root, made at time 0, and no locks, and no
/// batch has changed it. `key` is the key of the digests.
///
/// - `TooLarge`: the key does not fit in 63 bits.
/// - `Memory`: memory runs out.
pub fn first_changes(alloc: Global, key: u64) -> Result<Vec<Change>, SaveError>
    ensures { IfOk result (λ changes. StandForImage (first changes.items) (first_image key)) }
{
    let root = Entry::new(alloc, Content::Directory, 0, 0);
    let placed = PlacedValue {
        above: 0,
        name: None,
        value: &root,
    };
    let mut changes = Vec::new(alloc);
    SavedCounts::new(alloc).save_resource(&mut changes, 0, Some(placed))?;
    let numbers = Numbers {
        counter: 0,
        time: 0,
        batch: 0,
        key,
    };
    changes.push(Change::PutState(row_of(numbers)?))?;
    Ok(Seals::new(alloc, key).with_seal(changes)?)
}
