//! Errors of reads and writes.
ghost use Rattle.std.specs.Prelude.{◌≡◌};

use std::alloc::{AllocError, AllocFailed};
use thiserror::Error;

/// Why a value was not read or written.
#[derive(Clone, Copy, Debug, PartialEq, Eq, Error)]
pub enum WireError {
    /// The bytes do not begin with an encoding of such a value, other bytes follow one that must be the whole
    /// input, or a value to write is deeper than allowed.
    #[error("malformed")]
    Malformed,
    /// Memory ran out.
    #[error("out of memory")]
    Memory,
}

/// A failed allocation becomes `Memory`.
impl From<AllocError> for WireError {
    ghost use Rattle.dav_wire.specs.declared.error.WireError.TheVariants.{Memory};

    ghost from_gives = { λ _ e. e ≡ Memory };

    fn from(_: AllocError) -> WireError {
        WireError::Memory
    }
}

/// A failed allocation becomes `Memory`.
impl<T: Drop> From<AllocFailed<T>> for WireError {
    ghost use Rattle.dav_wire.specs.declared.error.WireError.TheVariants.{Memory};

    ghost from_gives = { λ _ e. e ≡ Memory };

    fn from(_: AllocFailed<T>) -> WireError {
        WireError::Memory
    }
}
