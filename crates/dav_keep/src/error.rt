//! Errors of keeping.
ghost use Rattle.std.specs.Prelude.{◌≡◌};

use dav_resource::FsError;
use dav_store_rows::SaveError;
use std::alloc::{AllocError, AllocFailed};
use thiserror::Error;

/// Why a store is not kept.
#[derive(Debug, Drop, Error)]
pub enum KeepError {
    /// What files contain could not be made safe.
    #[error("what files contain cannot be made safe")]
    Data(FsError),
    /// What has changed cannot be saved as rows.
    #[error("what has changed cannot be saved: {0}")]
    Rows(SaveError),
    /// The database failed.
    #[error("the database failed: {0}")]
    Database(sqlite::Error),
}

impl From<FsError> for KeepError {
    ghost use Rattle.dav_keep.specs.declared.error.KeepError.TheVariants.{Data};

    ghost from_gives = { λ error e. e ≡ Data error };

    fn from(error: FsError) -> KeepError {
        KeepError::Data(error)
    }
}

impl From<SaveError> for KeepError {
    ghost use Rattle.dav_keep.specs.declared.error.KeepError.TheVariants.{Rows};

    ghost from_gives = { λ error e. e ≡ Rows error };

    fn from(error: SaveError) -> KeepError {
        KeepError::Rows(error)
    }
}

impl From<sqlite::Error> for KeepError {
    ghost use Rattle.dav_keep.specs.declared.error.KeepError.TheVariants.{Database};

    ghost from_gives = { λ error e. e ≡ Database error };

    fn from(error: sqlite::Error) -> KeepError {
        KeepError::Database(error)
    }
}

/// A failed allocation is one of saving.
impl From<AllocError> for KeepError {
    ghost use Rattle.dav_store_rows.specs.declared.saving.error.SaveError.TheVariants.{Memory};
    ghost use Rattle.dav_keep.specs.declared.error.KeepError.TheVariants.{Rows};

    ghost from_gives = { λ _ e. e ≡ Rows Memory };

    fn from(_: AllocError) -> KeepError {
        KeepError::Rows(SaveError::Memory)
    }
}

/// A failed allocation is one of saving.
impl<T: Drop> From<AllocFailed<T>> for KeepError {
    ghost use Rattle.dav_store_rows.specs.declared.saving.error.SaveError.TheVariants.{Memory};
    ghost use Rattle.dav_keep.specs.declared.error.KeepError.TheVariants.{Rows};

    ghost from_gives = { λ _ e. e ≡ Rows Memory };

    fn from(_: AllocFailed<T>) -> KeepError {
        KeepError::Rows(SaveError::Memory)
    }
}
