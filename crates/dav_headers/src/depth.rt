//! The header Depth.
ghost use Rattle.std.specs.Prelude.{◌≡◌, Ok};
ghost use Rattle.dav_headers.specs.Depth.{depth_in, depth_of};

use crate::values::{first_text, is_word};
use dav_resource::{DavResult, Depth};
use http_header::{HeaderMap, HeaderValue};

/// Reads Depth (RFC 4918, section 10.2): how far below its resource a request applies. Returns `None` if
/// there is no such header, or its first value cannot be parsed. `Depth::Default` is never returned. Never
/// returns an error, because it allocates nothing. The result type is that of all readers.
pub fn read_depth(headers: &HeaderMap<HeaderValue>) -> DavResult<Option<Depth>>
    ensures { result ≡ Ok (depth_of headers.now) }
{
    match first_text(headers, "depth") {
        Some(text) => Ok(depth_in(text)),
        None => Ok(None),
    }
}

/// Parses `0`, `1`, or `infinity` in any ASCII case.
fn depth_in(text: &str) -> Option<Depth>
    ensures { result ≡ depth_in text.now }
{
    match text {
        "0" => Some(Depth::Zero),
        "1" => Some(Depth::One),
        _ if is_word(text, "infinity") => Some(Depth::Infinity),
        _ => None,
    }
}
