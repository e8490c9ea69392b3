//! The status of a store's failed call.
ghost use Rattle.std.specs.Prelude.{◌≡◌, IfErr};
ghost use Rattle.dav_resource.specs.declared.error.DavError.TheVariants.{Memory};
ghost use Rattle.dav_store.specs.Logged.{Logged};
ghost use Rattle.dav_find.specs.Finder.{ReturnsAnswer, IsLast, refusal_of};

use dav_resource::{DavError, DavResult, FsError, FsResult, Outcome};
use dav_store::GuardedFileSystem;
use http::StatusCode;

/// Returns the value of the store's last call, or the status for which the call failed.
///
/// The status comes from the log's last record: that of the error if the store refused the call, 404 if the
/// call was barred. The only error is `Memory`, if the call failed with `Memory`.
pub(crate) fn returned_by<C, F: GuardedFileSystem<C>, T: Drop>(
    fs: &F,
    answer: FsResult<T>,
) -> DavResult<Result<T, StatusCode>>
    ensures returned { ReturnsAnswer (F.seen fs.now).log answer result }
    ensures err { IfErr result (λ e. e ≡ Memory) }
{
    match answer {
        Ok(value) => Ok(Ok(value)),
        Err(error) => match error {
            FsError::Memory => Err(DavError::Memory),
            _ => Ok(Err(refusal_status(fs))),
        },
    }
}

/// Returns the status of the log's last record: that of the error if the call was refused, otherwise 404.
fn refusal_status<C, F: GuardedFileSystem<C>>(fs: &F) -> StatusCode
    ensures { (last : Logged) → IsLast last (F.seen fs.now).log → result ≡ refusal_of last.outcome }
{
    match fs.records().last() {
        Some(record) => outcome_status(record.outcome),
        None => StatusCode::NOT_FOUND,
    }
}

fn outcome_status(outcome: Outcome) -> StatusCode
    ensures { result ≡ refusal_of outcome }
{
    match outcome {
        Outcome::Refused(error) => error.statuscode(),
        Outcome::Granted | Outcome::Barred(_) => StatusCode::NOT_FOUND,
    }
}
