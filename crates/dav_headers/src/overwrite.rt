//! The header Overwrite.
ghost use Rattle.std.specs.Prelude.{◌≡◌, Ok};
ghost use Rattle.dav_headers.specs.Overwrite.{overwrite_in, overwrite_of};

use crate::values::{first_text, is_word};
use dav_resource::DavResult;
use http_header::{HeaderMap, HeaderValue};

/// Reads Overwrite (RFC 4918, section 10.6): whether COPY or MOVE may replace a resource at the destination.
/// Returns `None` if there is no such header, or its first value cannot be parsed. Never returns an error,
/// because it allocates nothing. The result type is that of all readers.
pub fn read_overwrite(headers: &HeaderMap<HeaderValue>) -> DavResult<Option<bool>>
    ensures { result ≡ Ok (overwrite_of headers.now) }
{
    match first_text(headers, "overwrite") {
        Some(text) => Ok(overwrite_in(text)),
        None => Ok(None),
    }
}

/// Parses `T` or `F`, in any ASCII case.
fn overwrite_in(text: &str) -> Option<bool>
    ensures { result ≡ overwrite_in text.now }
{
    if is_word(text, "T") {
        Some(true)
    } else if is_word(text, "F") {
        Some(false)
    } else {
        None
    }
}
