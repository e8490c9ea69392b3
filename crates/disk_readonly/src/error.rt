//! Errors of copying.
use std::alloc::AllocError;
use std::io;
use thiserror::Error;

/// Why a file is not copied.
#[derive(Debug, Drop, Error)]
pub enum CopyError {
    /// Memory ran out.
    #[error("out of memory")]
    Memory,
    /// The file cannot be read.
    #[error("the file cannot be read")]
    Disk(io::Error),
}

impl From<AllocError> for CopyError {
    ghost use Rattle.std.specs.Prelude.{◌≡◌};
    ghost use Rattle.disk_readonly.specs.declared.error.CopyError.TheVariants.{Memory};

    ghost from_gives = { λ _ e. e ≡ Memory };

    fn from(_: AllocError) -> CopyError {
        CopyError::Memory
    }
}

impl From<io::Error> for CopyError {
    ghost use Rattle.std.specs.Prelude.{◌≡◌};
    ghost use Rattle.disk_readonly.specs.declared.error.CopyError.TheVariants.{Disk};

    ghost from_gives = { λ error e. e ≡ Disk error };

    fn from(error: io::Error) -> CopyError {
        CopyError::Disk(error)
    }
}
