//! Errors of cells.
ghost use Rattle.std.specs.Prelude.{◌≡◌};
ghost use Rattle.dav_cells.specs.Errors.{from_write};

use dav_wire::WireError;
use std::alloc::{AllocError, AllocFailed};
use thiserror::Error;

/// Why a value was not encoded, or a cell was not decoded.
#[derive(Clone, Copy, Debug, PartialEq, Eq, Error)]
pub enum CellError {
    /// The bytes are not the encoding of such a value.
    #[error("malformed")]
    Malformed,
    /// An element to encode has more than `ELEMENT_LEVELS` levels.
    #[error("too many levels of elements")]
    TooDeep,
    /// Memory ran out.
    #[error("out of memory")]
    Memory,
}

/// Returns the error of a write, in the words of cells.
pub(crate) fn write_error(error: WireError) -> CellError
    ensures { result ≡ from_write error }
{
    match error {
        WireError::Malformed => CellError::TooDeep,
        WireError::Memory => CellError::Memory,
    }
}

/// The error of a read, in the words of cells.
impl From<WireError> for CellError {
    ghost use Rattle.dav_cells.specs.Errors.{from_wire};

    ghost from_gives = { λ error e. e ≡ from_wire error };

    fn from(error: WireError) -> CellError {
        match error {
            WireError::Malformed => CellError::Malformed,
            WireError::Memory => CellError::Memory,
        }
    }
}

/// A failed allocation becomes `Memory`.
impl From<AllocError> for CellError {
    ghost use Rattle.dav_cells.specs.declared.error.CellError.TheVariants.{Memory};

    ghost from_gives = { λ _ e. e ≡ Memory };

    fn from(_: AllocError) -> CellError {
        CellError::Memory
    }
}

/// A failed allocation becomes `Memory`.
impl<T: Drop> From<AllocFailed<T>> for CellError {
    ghost use Rattle.dav_cells.specs.declared.error.CellError.TheVariants.{Memory};

    ghost from_gives = { λ _ e. e ≡ Memory };

    fn from(_: AllocFailed<T>) -> CellError {
        CellError::Memory
    }
}
