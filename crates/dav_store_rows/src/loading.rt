//! Resources made from loaded rows.
ghost use Rattle.std.specs.Prelude.{◌≡◌, IfOk, IfErr};
ghost use Rattle.dav_nodes.specs.Tree.{Tree};
ghost use Rattle.dav_nodes.specs.TreeRows.{AreRowsOf};
ghost use Rattle.dav_store_rows.specs.Resources.{Kept};
ghost use Rattle.dav_store_rows.specs.Loads.{AreRowsFor, IsMemory};

mod counts;
mod parts;
mod resources;

use crate::loading::parts::{extents_len, properties_len};
use crate::loading::resources::{load_one, unsigned};
use dav_cells::CellError;
use dav_nodes::NumberedValue;
use dav_pieces::Body;
use dav_rows::Rows;
use dav_tree::Entry;
use std::alloc::{AllocError, AllocFailed, Global};
use thiserror::Error;

/// Why rows were not loaded.
#[derive(Clone, Copy, Debug, PartialEq, Eq, Error)]
pub enum LoadError {
    /// The rows are not those of a store.
    #[error("the rows are not those of a store")]
    Damaged,
    /// Memory ran out.
    #[error("out of memory")]
    Memory,
}

/// A failed allocation becomes `Memory`.
impl From<AllocError> for LoadError {
    ghost use Rattle.dav_store_rows.specs.declared.loading.LoadError.TheVariants.{Memory};

    ghost from_gives = { λ _ e. e ≡ Memory };

    fn from(_: AllocError) -> LoadError {
        LoadError::Memory
    }
}

/// A failed allocation becomes `Memory`.
impl<T: Drop> From<AllocFailed<T>> for LoadError {
    ghost use Rattle.dav_store_rows.specs.declared.loading.LoadError.TheVariants.{Memory};

    ghost from_gives = { λ _ e. e ≡ Memory };

    fn from(_: AllocFailed<T>) -> LoadError {
        LoadError::Memory
    }
}

/// A cell that does not decode is damaged.
impl From<CellError> for LoadError {
    ghost use Rattle.dav_store_rows.specs.LoadErrors.{from_cell};

    ghost from_gives = { λ error e. e ≡ from_cell error };

    fn from(error: CellError) -> LoadError {
        match error {
            CellError::Memory => LoadError::Memory,
            _ => LoadError::Damaged,
        }
    }
}

/// Returns the resources of these rows, in ascending order of their numbers.
///
/// - `Damaged`: the rows are not those of a store.
/// - `Memory`: memory runs out.
pub fn load_resources(
    alloc: Global,
    rows: &Rows,
) -> Result<Vec<NumberedValue<Entry<Body>>>, LoadError>
    ensures ok { (tree : Tree Kept) → AreRowsFor rows.now tree → IfOk result (λ values. AreRowsOf values.items tree) }
    ensures err { (tree : Tree Kept) → AreRowsFor rows.now tree → IfErr result IsMemory }
{
    let mut values = Vec::new(alloc);
    let mut extents = rows.extents.as_slice();
    let mut properties = rows.properties.as_slice();
    'rows: for row in &rows.resources {
        let number = unsigned(row.number)?;
        let (own_extents, other_extents) = extents.split_at(extents_len(extents, number));
        let (own_properties, other_properties) = properties.split_at(properties_len(
            properties, number,
        ));
        values.push(load_one(alloc, row, own_extents, own_properties)?)?;
        extents = other_extents;
        properties = other_properties;
    }
    if extents.is_empty() && properties.is_empty() {
        Ok(values)
    } else {
        Err(LoadError::Damaged)
    }
}
