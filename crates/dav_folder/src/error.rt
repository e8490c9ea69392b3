//! Why the store of a folder is not opened.
ghost use Rattle.dav_folder.specs.Errors.{IsLate};

use dav_nodes::RowsError;
use dav_rows::StartError;
use dav_rows_files::Unjudged;
use dav_store_rows::LoadError;
use disk_readonly::{Copied, CopyError};
use sqlite::{Error, ErrorCode, Leftover};
use std::io::{self, ErrorKind};

/// Why the store of a folder is not opened.
#[derive(Debug, Drop, thiserror::Error)]
pub enum OpenError {
    /// The database is damaged, or its rows are not those of a store.
    #[error("the database is damaged")]
    Damaged,
    /// The database has other tables.
    #[error("the database is not one of a store")]
    Foreign,
    /// The database has no table and the data file has bytes, or the log has pages: there was a database.
    #[error("the database is missing")]
    NoDatabase,
    /// The data file cannot be read, or it is shorter than the rows say.
    #[error("the data file cannot be opened")]
    Data(io::Error),
    /// The database cannot be read or written.
    #[error("the database cannot be opened")]
    Database(io::Error),
    /// Memory ran out.
    #[error("out of memory")]
    Memory,
}

impl From<LoadError> for OpenError {
    ghost use Rattle.std.specs.Prelude.{◌≡◌};
    ghost use Rattle.dav_store_rows.specs.Loads.{IsMemory};
    ghost use Rattle.dav_folder.specs.declared.error.OpenError.TheVariants.{Memory};

    ghost from_gives = { λ error e. IsMemory error → e ≡ Memory };

    fn from(error: LoadError) -> OpenError {
        match error {
            LoadError::Damaged => OpenError::Damaged,
            LoadError::Memory => OpenError::Memory,
        }
    }
}

impl From<RowsError> for OpenError {
    ghost use Rattle.std.specs.Prelude.{◌≡◌};
    ghost use Rattle.dav_nodes.specs.declared.nodes.loading.RowsError.TheVariants as causes;
    ghost use Rattle.dav_folder.specs.declared.error.OpenError.TheVariants.{Memory};

    ghost from_gives = { λ error e. error ≡ causes.Memory → e ≡ Memory };

    fn from(error: RowsError) -> OpenError {
        match error {
            RowsError::NotATree => OpenError::Damaged,
            RowsError::Memory => OpenError::Memory,
        }
    }
}

impl From<io::Error> for OpenError {
    ghost use Rattle.std.specs.Prelude.{◌≡◌};
    ghost use Rattle.dav_folder.specs.declared.error.OpenError.TheVariants.{Data};

    ghost from_gives = { λ error e. e ≡ Data error };

    fn from(error: io::Error) -> OpenError {
        OpenError::Data(error)
    }
}

impl From<Unjudged> for OpenError {
    fn from(error: Unjudged) -> OpenError {
        match error {
            Unjudged::Copy(CopyError::Memory) => OpenError::Memory,
            Unjudged::Copy(CopyError::Disk(error)) => OpenError::Database(error),
            Unjudged::Log => OpenError::Damaged,
            Unjudged::Start(StartError::Foreign, _) => OpenError::Foreign,
            Unjudged::Start(StartError::Sqlite(error), left) => {
                if is_out_of_memory(error) || has_failed(left) {
                    OpenError::Memory
                } else {
                    OpenError::Damaged
                }
            }
        }
    }
}

fn is_out_of_memory(error: Error) -> bool {
    matches!(error, Error::SqliteFailure(ErrorCode::OutOfMemory))
}

/// Whether a call on the copies has failed, as it does when memory runs out.
fn has_failed(left: Leftover<Copied>) -> bool {
    let files = left.into_files();
    files.log.has_failed() || files.db.has_failed()
}

/// Returns why a database that was judged is not opened: memory ran out, or it cannot be read or written.
pub(crate) fn opening_error(error: StartError) -> OpenError
    ensures { IsLate result }
{
    match error {
        StartError::Sqlite(error) if is_out_of_memory(error) => OpenError::Memory,
        _ => OpenError::Database(ErrorKind::Other.into()),
    }
}
