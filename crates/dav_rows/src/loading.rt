//! Loads all rows.
ghost use Rattle.std.specs.Prelude.{◌≡◌, ◌≤◌, false, IfOk};
ghost use Rattle.sqlite_trees.specs.View.{doubt};
ghost use Rattle.sqlite.specs.State.{HasCleanDisk};
ghost use Rattle.sqlite.specs.Held.{state};
ghost use Rattle.dav_rows.specs.Saving.{Stays, LeavesNoOther};
ghost use Rattle.dav_rows.specs.Loading.{Reads, AreAll, AreOlder, AreHeld};
ghost use Rattle.dav_rows.specs.Failing.{FailsExcused};

use crate::extent::{self, ExtentRow};
use crate::lock::{self, LockRow};
use crate::note::{self, NoteRow};
use crate::property::{self, PropertyRow};
use crate::resource::{self, ResourceRow};
use crate::state::{self, StateRow};
use sqlite::{Alter, Connection, Error};
use std::alloc::Global;

/// The rows of all tables, each in the order of the numbers.
#[derive(Debug, Drop)]
pub struct Rows {
    pub resources: Vec<ResourceRow>,
    pub extents: Vec<ExtentRow>,
    pub properties: Vec<PropertyRow>,
    pub locks: Vec<LockRow>,
    pub states: Vec<StateRow>,
    pub notes: Vec<NoteRow>,
}

/// Reads all tables, each in the order of the numbers.
pub fn load<S: Alter>(conn: &mut Connection<S>, alloc: Global) -> Result<Rows, Error>
    requires { conn.old.in_transaction ≡ false }
    ensures idle { conn.new.in_transaction ≡ false }
    ensures ok { HasCleanDisk (state S.Store conn.new) → IfOk result (AreHeld (state S.Store conn.old) (state S.Store conn.new)) }
    ensures at { HasCleanDisk (state S.Store conn.new) → Stays (state S.Store conn.old) (state S.Store conn.new) }
    ensures crash { HasCleanDisk (state S.Store conn.new) → LeavesNoOther (state S.Store conn.old) (state S.Store conn.new) }
    ensures clean { doubt (state S.Store conn.old).is_clean ≤ doubt (state S.Store conn.new).is_clean }
    ensures err { FailsExcused (state S.Store conn.old) (state S.Store conn.new) result }
{
    read_all(conn, alloc)
}

pub(crate) fn read_all<S: Alter>(conn: &mut Connection<S>, alloc: Global) -> Result<Rows, Error>
    requires { conn.old.in_transaction ≡ false }
    ensures idle { conn.new.in_transaction ≡ false }
    ensures reads { Reads (state S.Store conn.old) (state S.Store conn.new) result AreAll }
    ensures err { FailsExcused (state S.Store conn.old) (state S.Store conn.new) result }
{
    let mut rows = read_older(conn, alloc)?;
    rows.notes = note::load_all(conn, alloc)?;
    Ok(rows)
}

/// Reads the tables of version 1, which are all but the notes.
pub(crate) fn read_older<S: Alter>(conn: &mut Connection<S>, alloc: Global) -> Result<Rows, Error>
    requires { conn.old.in_transaction ≡ false }
    ensures idle { conn.new.in_transaction ≡ false }
    ensures reads { Reads (state S.Store conn.old) (state S.Store conn.new) result AreOlder }
    ensures err { FailsExcused (state S.Store conn.old) (state S.Store conn.new) result }
{
    let resources = resource::load_all(conn, alloc)?;
    let extents = extent::load_all(conn, alloc)?;
    let properties = property::load_all(conn, alloc)?;
    let locks = lock::load_all(conn, alloc)?;
    let states = state::load_all(conn, alloc)?;
    Ok(Rows {
        resources,
        extents,
        properties,
        locks,
        states,
        notes: Vec::new(alloc),
    })
}
