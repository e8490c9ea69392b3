//! Errors of saving.
ghost use Rattle.std.specs.Prelude.{◌≡◌};

use std::alloc::{AllocError, AllocFailed};
use std::num::TryFromIntError;
use thiserror::Error;

/// Why changes cannot be saved.
#[derive(Clone, Copy, Debug, PartialEq, Eq, Error)]
pub enum SaveError {
    /// A number, a size, a time or a count does not fit in a row.
    #[error("too large for a row")]
    TooLarge,
    /// The element of a property has more levels than a cell holds.
    #[error("too many levels of elements")]
    TooDeep,
    /// Memory ran out.
    #[error("out of memory")]
    Memory,
}

/// A failed conversion becomes `TooLarge`.
impl From<TryFromIntError> for SaveError {
    ghost use Rattle.dav_store_rows.specs.declared.saving.error.SaveError.TheVariants.{TooLarge};

    ghost from_gives = { λ _ e. e ≡ TooLarge };

    fn from(_: TryFromIntError) -> SaveError {
        SaveError::TooLarge
    }
}

/// A failed allocation becomes `Memory`.
impl From<AllocError> for SaveError {
    ghost use Rattle.dav_store_rows.specs.declared.saving.error.SaveError.TheVariants.{Memory};

    ghost from_gives = { λ _ e. e ≡ Memory };

    fn from(_: AllocError) -> SaveError {
        SaveError::Memory
    }
}

/// A failed allocation becomes `Memory`.
impl<T: Drop> From<AllocFailed<T>> for SaveError {
    ghost use Rattle.dav_store_rows.specs.declared.saving.error.SaveError.TheVariants.{Memory};

    ghost from_gives = { λ _ e. e ≡ Memory };

    fn from(_: AllocFailed<T>) -> SaveError {
        SaveError::Memory
    }
}
