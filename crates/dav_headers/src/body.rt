//! The headers that describe the body: Content-Length, X-Expected-Entity-Length, Content-Type and
//! OC-Checksum.
ghost use Rattle.std.specs.Prelude.{◌≡◌, Ok, IsOkAnd, option_copied, option_and_then};
ghost use Rattle.http_header.specs.Token.{lowercase};
ghost use Rattle.dav_headers.specs.Values.{first_text};
ghost use Rattle.dav_headers.specs.Number.{number_in};
ghost use Rattle.dav_headers.specs.Body.{content_length_of, expected_length_of, content_type_of, checksum_of};

use crate::number::read_number;
use crate::values::first_text;
use dav_resource::DavResult;
use http_header::{HeaderMap, HeaderValue};

/// Parses the first value of a header, by its name in lower case, as a number.
fn first_number(headers: &HeaderMap<HeaderValue>, name: &'static str) -> Option<u64>
    requires { lowercase name.now ≡ name.now }
    ensures { result ≡ option_and_then number_in (first_text headers.now name.now) }
{
    read_number(first_text(headers, name)?)
}

/// Reads Content-Length (RFC 7230, section 3.3.2): the length of the body in bytes. Returns `None` if there
/// is no such header, or its first value is not a decimal number that fits in 64 bits. Never returns an
/// error.
pub fn read_content_length(headers: &HeaderMap<HeaderValue>) -> DavResult<Option<u64>>
    ensures { result ≡ Ok (content_length_of headers.now) }
{
    Ok(first_number(headers, "content-length"))
}

/// Reads X-Expected-Entity-Length, by which the WebDAV client of macOS announces the length of a body without
/// Content-Length. It is parsed as Content-Length is. Never returns an error.
pub fn read_expected_entity_length(headers: &HeaderMap<HeaderValue>) -> DavResult<Option<u64>>
    ensures { result ≡ Ok (expected_length_of headers.now) }
{
    Ok(first_number(headers, "x-expected-entity-length"))
}

/// Reads Content-Type (RFC 7231, section 3.1.1.5), without spaces and tabs at its ends. Returns `None` if
/// there is no such header, or its first value is not readable. Never returns an error.
pub fn read_content_type(headers: &HeaderMap<HeaderValue>) -> DavResult<Option<&str>>
    ensures { IsOkAnd result (λ text. option_copied text ≡ content_type_of headers.now) }
{
    Ok(first_text(headers, "content-type"))
}

/// Reads OC-Checksum, by which an ownCloud client sends the checksum of the body, as Content-Type is read.
/// Never returns an error.
pub fn read_checksum(headers: &HeaderMap<HeaderValue>) -> DavResult<Option<&str>>
    ensures { IsOkAnd result (λ text. option_copied text ≡ checksum_of headers.now) }
{
    Ok(first_text(headers, "oc-checksum"))
}
