//! The header Timeout.
ghost use Rattle.std.specs.Prelude.{◌≡◌, Ok};
ghost use Rattle.dav_headers.specs.Timeout.{seconds_in, wish_in, place_in, timeout_in, timeout_of};

use crate::number::read_number;
use crate::text::{cut_at, trim_blanks};
use crate::values::{first_text, is_word};
use dav_resource::DavResult;
use http_header::{HeaderMap, HeaderValue};

/// A timeout that a client requests for its lock.
#[derive(Clone, Copy, Debug, PartialEq, Eq)]
pub enum DavTimeout {
    /// No end.
    Infinite,
    /// A number of seconds.
    Seconds(u32),
}

/// Reads Timeout (RFC 4918, section 10.7): the timeout that the client prefers for its lock, the first of a
/// list.
///
/// The elements of the list are separated by commas. Each is `Infinite`, or `Second-` and a number that fits
/// in 32 bits, in any ASCII case, with blanks around it or none. Returns `None` if there is no such header,
/// or any element of its first value cannot be parsed. Never returns an error.
pub fn read_timeout(headers: &HeaderMap<HeaderValue>) -> DavResult<Option<DavTimeout>>
    ensures { result ≡ Ok (timeout_of headers.now) }
{
    match first_text(headers, "timeout") {
        Some(text) => Ok(timeout_in(text)),
        None => Ok(None),
    }
}

/// The first timeout of a list, if every element of the list can be parsed.
fn timeout_in(text: &str) -> Option<DavTimeout>
    ensures { result ≡ timeout_in text.now }
{
    let first = text.split(',').next()?;
    if !text.split(',').all(|place| place_in(place).is_some()) {
        return None;
    }
    place_in(first)
}

/// Parses an element of the list, without the blanks at its ends.
fn place_in(text: &str) -> Option<DavTimeout>
    ensures { result ≡ place_in text.now }
{
    wish_in(trim_blanks(text))
}

/// Parses `Infinite`, or seconds.
fn wish_in(text: &str) -> Option<DavTimeout>
    ensures { result ≡ wish_in text.now }
{
    if is_word(text, "infinite") {
        return Some(DavTimeout::Infinite);
    }
    seconds_in(text)
}

/// Parses `Second-` and a number.
fn seconds_in(text: &str) -> Option<DavTimeout>
    ensures { result ≡ seconds_in text.now }
{
    let (unit, number) = cut_at(text, '-')?;
    if !is_word(unit, "second") {
        return None;
    }
    let seconds = u32::try_from(read_number(number)?).ok()?;
    Some(DavTimeout::Seconds(seconds))
}
