//! Tests the texts of errors, which no contract says.
use dav_resource::{DavError, FsError};
use dav_store::LockError;
use http::StatusCode;
use std::alloc::{AllocError, Global};
use std::test::Fail;

/// Shows two errors of the engine, and those of a lock system.
fn show_errors(alloc: Global) -> Result<String, AllocError> {
    let refusal = DavError::FsError(FsError::NotFound);
    let closing = DavError::StatusClose(StatusCode::BAD_REQUEST);
    let conflict = LockError::Conflict;
    let missing = LockError::NotFound;
    let failed = LockError::Failed;
    let memory = LockError::Memory;
    format!(in alloc; "{refusal}; {closing}; {conflict}; {missing}; {failed}; {memory}")
}

#[test]
fn texts_of_errors(rt: HostRuntime) -> Result<(), Fail> {
    let shown = show_errors(rt.alloc())?;
    assert_eq!(rt;
        shown.as_str(),
        "not found; status 400 Bad Request, and the connection closes; \
         a lock conflicts; no such lock; the lock system failed; out of memory"
    );
    Ok(())
}
