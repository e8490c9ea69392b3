//! The header Lock-Token.
ghost use Rattle.std.specs.Prelude.{◌≡◌, IsOkAnd, option_copied};
ghost use Rattle.dav_headers.specs.LockToken.{drop_angles, trim_angles, lock_token_of};

use crate::text::{after_first, before_last};
use crate::values::first_text;
use dav_resource::DavResult;
use http_header::{HeaderMap, HeaderValue};

/// Reads Lock-Token (RFC 4918, section 10.5): the token of the lock that the request is about. All `<` and
/// `>` at both ends are removed, and blanks inside them stay. Returns `None` if there is no such header,
/// or its first value is not readable. An empty token is returned as the empty string. Never returns an
/// error.
pub fn read_lock_token(headers: &HeaderMap<HeaderValue>) -> DavResult<Option<&str>>
    ensures { IsOkAnd result (λ text. option_copied text ≡ lock_token_of headers.now) }
{
    match first_text(headers, "lock-token") {
        Some(text) => Ok(Some(trim_angles(text))),
        None => Ok(None),
    }
}

/// The string without the angle brackets at its front.
fn drop_angles(text: &str) -> &str
    ensures { result.now ≡ drop_angles text.now }
{
    let mut rest = text;
    while rest.starts_with('<') || rest.starts_with('>') {
        rest = after_first(rest);
    }
    rest
}

/// The string without the angle brackets at both ends.
fn trim_angles(text: &str) -> &str
    ensures { result.now ≡ trim_angles text.now }
{
    let mut rest = drop_angles(text);
    while rest.ends_with('<') || rest.ends_with('>') {
        rest = before_last(rest);
    }
    rest
}
