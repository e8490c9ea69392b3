//! A database in memory: what is saved is loaded.
ghost use Rattle.std.specs.Prelude.{IfOk};
ghost use Rattle.dav_rows.specs.Changes.{after};
ghost use Rattle.dav_rows.specs.Creating.{first};
ghost use Rattle.dav_rows.specs.Loading.{AreAll};

use crate::change::Change;
use crate::creating::create;
use crate::loading::{Rows, load};
use crate::saving::save;
use sqlite::{Connection, Error};
use std::alloc::Global;

/// Makes tables in memory with the initial changes, saves the other changes, and loads all rows. The rows are those after all changes.
/// It has no assumption, so those of `create`, `save` and `load` can be met. It fails if memory runs out.
pub fn round_trip(alloc: Global, initial: &[Change], changes: &[Change]) -> Result<Rows, Error>
    ensures { IfOk result (λ rows. AreAll rows (after changes.now (first initial.now))) }
{
    let mut conn = Connection::open_in_memory(alloc)?;
    create(&mut conn, initial)?;
    save(&mut conn, changes)?;
    load(&mut conn, alloc)
}
