//! Errors of stores and of the engine.
ghost use Rattle.std.specs.Prelude.{◌≡◌, IsTrue, ◌↔◌};
ghost use Rattle.dav_resource.specs.Errors.{fs_status, dav_status, closes};

use http::StatusCode;
use http_header::{HeaderMapError, HeaderValueError};
use std::alloc::{AllocError, AllocFailed};
use thiserror::Error;

/// Why a store call failed.
#[derive(Clone, Copy, Debug, PartialEq, Eq, Error)]
pub enum FsError {
    /// The store does not implement the call.
    #[error("not implemented")]
    NotImplemented,
    /// The store failed.
    #[error("the store failed")]
    GeneralFailure,
    /// A resource exists that must not exist.
    #[error("it exists already")]
    Exists,
    /// A resource does not exist that must exist.
    #[error("not found")]
    NotFound,
    /// The existing resource does not allow the call, or the store forbids it.
    #[error("forbidden")]
    Forbidden,
    /// The store has no space left (RFC 4918, section 11.5).
    #[error("no room is left")]
    InsufficientStorage,
    /// The store's links form a loop (RFC 5842, section 7.2).
    #[error("a loop was found")]
    LoopDetected,
    /// The path is longer than the store supports.
    #[error("the path is too long")]
    PathTooLong,
    /// The file is larger than the store supports.
    #[error("it is too large")]
    TooLarge,
    /// The resource is on another server.
    #[error("it is on another server")]
    IsRemote,
    /// Memory ran out, and the call changed nothing.
    #[error("out of memory")]
    Memory,
}

/// Why a request failed.
#[derive(Debug, Drop, Error)]
pub enum DavError {
    /// The response has this status.
    #[error("status {0}")]
    Status(StatusCode),
    /// The response has this status, and the HTTP server must close the connection after it.
    #[error("status {0}, and the connection closes")]
    StatusClose(StatusCode),
    /// A store call failed, for any reason except memory.
    #[error("{0}")]
    FsError(FsError),
    /// The request body is not an XML tree that the method accepts.
    #[error("the body is no tree that the method knows")]
    XmlParseError,
    /// The path cannot be parsed.
    #[error("the path cannot be read")]
    InvalidPath,
    /// A `..` in the path leaves the root.
    #[error("the path leaves the root")]
    ForbiddenPath,
    /// The path is not below the server's prefix.
    #[error("the path is not below the prefix")]
    IllegalPath,
    /// There was nothing to report in the response.
    #[error("nothing was answered")]
    ChanError,
    /// Memory ran out.
    #[error("out of memory")]
    Memory,
}

/// The result of a store call.
pub type FsResult<T> = Result<T, FsError>;

/// The result of an engine call.
pub type DavResult<T> = Result<T, DavError>;

impl FsError {
    /// The status of the response when a store call fails with this error.
    pub fn statuscode(self) -> StatusCode
        ensures { result ≡ fs_status self }
    {
        match self {
            FsError::NotImplemented => StatusCode::NOT_IMPLEMENTED,
            FsError::GeneralFailure => StatusCode::INTERNAL_SERVER_ERROR,
            FsError::Exists => StatusCode::METHOD_NOT_ALLOWED,
            FsError::NotFound => StatusCode::NOT_FOUND,
            FsError::Forbidden => StatusCode::FORBIDDEN,
            FsError::InsufficientStorage | FsError::Memory => StatusCode::INSUFFICIENT_STORAGE,
            FsError::LoopDetected => StatusCode::LOOP_DETECTED,
            FsError::PathTooLong => StatusCode::URI_TOO_LONG,
            FsError::TooLarge => StatusCode::PAYLOAD_TOO_LARGE,
            FsError::IsRemote => StatusCode::BAD_GATEWAY,
        }
    }
}

/// A failed allocation becomes `Memory`.
impl From<AllocError> for FsError {
    ghost use Rattle.dav_resource.specs.declared.error.FsError.TheVariants.{Memory};

    ghost from_gives = { λ _ e. e ≡ Memory };

    fn from(_: AllocError) -> FsError {
        FsError::Memory
    }
}

/// A failed allocation becomes `Memory`.
impl<T: Drop> From<AllocFailed<T>> for FsError {
    ghost use Rattle.dav_resource.specs.declared.error.FsError.TheVariants.{Memory};

    ghost from_gives = { λ _ e. e ≡ Memory };

    fn from(_: AllocFailed<T>) -> FsError {
        FsError::Memory
    }
}

impl DavError {
    /// The status of the response for this error.
    pub fn statuscode(&self) -> StatusCode
        ensures { result ≡ dav_status self.now }
    {
        match self {
            DavError::Status(status) | DavError::StatusClose(status) => *status,
            DavError::FsError(error) => error.statuscode(),
            DavError::XmlParseError | DavError::InvalidPath => StatusCode::BAD_REQUEST,
            DavError::ForbiddenPath => StatusCode::FORBIDDEN,
            DavError::IllegalPath => StatusCode::BAD_GATEWAY,
            DavError::ChanError => StatusCode::INTERNAL_SERVER_ERROR,
            DavError::Memory => StatusCode::INSUFFICIENT_STORAGE,
        }
    }

    /// Whether the HTTP server must close the connection after the response.
    pub fn must_close(&self) -> bool
        ensures { IsTrue result ↔ closes self.now }
    {
        matches!(self, DavError::StatusClose(_))
    }
}

/// Converts a status into an error with that status. The connection stays open.
impl From<StatusCode> for DavError {
    ghost use Rattle.dav_resource.specs.declared.error.DavError.TheVariants.{Status};

    ghost from_gives = { λ status e. e ≡ Status status };

    fn from(status: StatusCode) -> DavError {
        DavError::Status(status)
    }
}

/// `FsError::Memory` becomes `DavError::Memory`. Every other store error is kept as `DavError::FsError`.
impl From<FsError> for DavError {
    ghost use Rattle.dav_resource.specs.Errors.{from_fs};

    ghost from_gives = { λ error e. e ≡ from_fs error };

    fn from(error: FsError) -> DavError {
        match error {
            FsError::Memory => DavError::Memory,
            error => DavError::FsError(error),
        }
    }
}

/// A failed allocation becomes `Memory`.
impl From<AllocError> for DavError {
    ghost use Rattle.dav_resource.specs.declared.error.DavError.TheVariants.{Memory};

    ghost from_gives = { λ _ e. e ≡ Memory };

    fn from(_: AllocError) -> DavError {
        DavError::Memory
    }
}

/// A failed allocation becomes `Memory`.
impl<T: Drop> From<AllocFailed<T>> for DavError {
    ghost use Rattle.dav_resource.specs.declared.error.DavError.TheVariants.{Memory};

    ghost from_gives = { λ _ e. e ≡ Memory };

    fn from(_: AllocFailed<T>) -> DavError {
        DavError::Memory
    }
}

/// A response with too many header fields is the server's fault: status 500 (RFC 9110, section 15.6.1). A
/// failed allocation becomes `Memory`.
impl From<HeaderMapError> for DavError {
    ghost use Rattle.dav_resource.specs.Errors.{from_map};

    ghost from_gives = { λ error e. e ≡ from_map error };

    fn from(error: HeaderMapError) -> DavError {
        match error {
            HeaderMapError::MaxSizeReached => DavError::Status(StatusCode::INTERNAL_SERVER_ERROR),
            HeaderMapError::OutOfMemory => DavError::Memory,
        }
    }
}

/// An invalid header value for a response is the server's fault: status 500 (RFC 9110, section 15.6.1). A
/// failed allocation becomes `Memory`.
impl From<HeaderValueError> for DavError {
    ghost use Rattle.dav_resource.specs.Errors.{from_value};

    ghost from_gives = { λ error e. e ≡ from_value error };

    fn from(error: HeaderValueError) -> DavError {
        match error {
            HeaderValueError::Invalid => DavError::Status(StatusCode::INTERNAL_SERVER_ERROR),
            HeaderValueError::OutOfMemory => DavError::Memory,
        }
    }
}
