//! The header Destination.
ghost use Rattle.std.specs.Prelude.{Ok};
ghost use Rattle.dav_resource.specs.Gives.{GivesBy};
ghost use Rattle.dav_headers.specs.Destination.{destination_of, destination_place};

use crate::place::read_place;
use crate::values::first_text;
use dav_resource::{DavError, DavPath, DavResult, Text};
use http::StatusCode;
use http_header::{HeaderMap, HeaderValue};
use std::alloc::Global;

/// Reads Destination (RFC 4918, section 10.3): the path of the destination, below the prefix of a server.
///
/// Errors:
///
/// - `Status` with 400: there is no such header, or its first value is not readable, or is neither a path nor
///   an http or https URL (`read_place`).
/// - Those of `DavPath::from_str_and_prefix` for that path.
/// - `Memory`, as in `read_place`.
pub fn read_destination(
    alloc: Global,
    headers: &HeaderMap<HeaderValue>,
    prefix: &str,
) -> DavResult<DavPath>
    ensures value { GivesBy (λ path. path) result (destination_of headers.now prefix.now) }
{
    match place_named(alloc, headers)? {
        Some(path) => DavPath::from_str_and_prefix(alloc, path.as_str(), prefix),
        None => Err(DavError::Status(StatusCode::BAD_REQUEST)),
    }
}

/// Finds the path in the header's first value, as a string. The only error is `Memory`, as in `read_place`.
fn place_named(alloc: Global, headers: &HeaderMap<HeaderValue>) -> DavResult<Option<Text>>
    ensures { GivesBy (λ place. place) result (Ok (destination_place headers.now)) }
{
    match first_text(headers, "destination") {
        Some(text) => read_place(alloc, text),
        None => Ok(None),
    }
}
