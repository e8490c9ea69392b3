//! A change of the rows.
use crate::extent::ExtentRow;
use crate::lock::LockRow;
use crate::note::NoteRow;
use crate::property::PropertyRow;
use crate::resource::ResourceRow;
use crate::state::StateRow;

/// The tables of the store.
#[derive(Clone, Copy, Debug, Drop)]
pub enum Table {
    Resource,
    Extent,
    Property,
    Lock,
    State,
    Note,
}

/// A row to be put under its number, in place of any that is there, or a number to be removed from a table.
#[derive(Debug, Drop)]
pub enum Change {
    PutResource(ResourceRow),
    PutExtent(ExtentRow),
    PutProperty(PropertyRow),
    PutLock(LockRow),
    PutState(StateRow),
    PutNote(NoteRow),
    Remove(Table, i64),
}
