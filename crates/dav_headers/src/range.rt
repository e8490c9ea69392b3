//! The headers X-Update-Range and Content-Range.
ghost use Rattle.std.specs.Prelude.{◌≡◌, Ok, ◌<◌, option_copied, option_map};
ghost use Rattle.dav_headers.specs.Range.{of_bytes, both_numbers, range_between, update_range_in, update_range_of, ends_in, is_length, range_of_length, content_range_in, content_range_of};

use crate::number::read_number;
use crate::text::cut_at;
use crate::values::{first_text, first_value, readable_text};
use dav_resource::{DavError, DavResult};
use http::StatusCode;
use http_header::{HeaderMap, HeaderValue};

/// Where X-Update-Range says that the body of a PATCH is written. Bytes are counted from 0.
#[derive(Clone, Copy, Debug, PartialEq, Eq)]
pub enum UpdateRange {
    /// From the first of these bytes to the last.
    FromTo(u64, u64),
    /// From this byte on.
    AllFrom(u64),
    /// From this many bytes before the end on.
    Last(u64),
    /// After the last byte.
    Append,
}

/// The bytes of a file that Content-Range gives for the body, counted from 0. The last may be less than the
/// first.
#[derive(Clone, Copy, Debug, PartialEq, Eq)]
pub struct ContentRange {
    /// The offset of the first byte.
    pub first: u64,
    /// The offset of the last byte.
    pub last: u64,
}

/// What follows the unit `bytes` and this ASCII character.
fn of_bytes(text: &str, mark: char) -> Option<&str>
    requires { mark < 128 }
    ensures { option_copied result ≡ of_bytes mark text.now }
{
    match cut_at(text, mark)? {
        ("bytes", rest) => Some(rest),
        _ => None,
    }
}

/// Parses both strings as numbers.
fn both_numbers(first: &str, last: &str) -> Option<(u64, u64)>
    ensures { result ≡ both_numbers (first.now, last.now) }
{
    Some((read_number(first)?, read_number(last)?))
}

/// Reads X-Update-Range of SabreDAV's partial update: `append`, or `bytes=b-e`, `bytes=b-` or `bytes=-n`,
/// where b, e and n are decimal numbers. They are not compared. Returns `None` if there is no such header, or
/// its first value cannot be parsed. Never returns an error.
pub fn read_update_range(headers: &HeaderMap<HeaderValue>) -> DavResult<Option<UpdateRange>>
    ensures { result ≡ Ok (update_range_of headers.now) }
{
    match first_text(headers, "x-update-range") {
        Some(text) => Ok(update_range_in(text)),
        None => Ok(None),
    }
}

/// Parses `append`, or `bytes=` and a range.
fn update_range_in(text: &str) -> Option<UpdateRange>
    ensures { result ≡ update_range_in text.now }
{
    if text == "append" {
        return Some(UpdateRange::Append);
    }
    let (first, last) = cut_at(of_bytes(text, '=')?, '-')?;
    range_between(first, last)
}

/// The range from the strings before and after the `-`, one of which may be empty.
fn range_between(first: &str, last: &str) -> Option<UpdateRange>
    ensures { result ≡ range_between (first.now, last.now) }
{
    if first.is_empty() {
        return Some(UpdateRange::Last(read_number(last)?));
    }
    if last.is_empty() {
        return Some(UpdateRange::AllFrom(read_number(first)?));
    }
    let (first, last) = both_numbers(first, last)?;
    Some(UpdateRange::FromTo(first, last))
}

/// Reads Content-Range (RFC 7233, section 4.2): which bytes of a file the body is. The value is `bytes`, one
/// space, `b-e`, a `/`, and a length that is a number or `*`. Numbers are not compared. Returns `None` if
/// there is no such header, or its first value is `bytes */n`, which gives no range.
///
/// The only error is `StatusClose(400)`: the first value is anything else.
pub fn read_content_range(headers: &HeaderMap<HeaderValue>) -> DavResult<Option<ContentRange>>
    ensures { result ≡ content_range_of headers.now }
{
    let Some(value) = first_value(headers, "content-range") else {
        return Ok(None);
    };
    readable_text(value)
        .and_then(content_range_in)
        .ok_or(DavError::StatusClose(StatusCode::BAD_REQUEST))
}

/// Parses `bytes`, one space, a range, `/` and a length.
fn content_range_in(text: &str) -> Option<Option<ContentRange>>
    ensures { result ≡ content_range_in text.now }
{
    let (range, length) = cut_at(of_bytes(text, ' ')?, '/')?;
    range_of_length(range, length)
}

/// The range from the strings before and after the `/`. A `*` with a known length is no range.
fn range_of_length(range: &str, length: &str) -> Option<Option<ContentRange>>
    ensures { result ≡ range_of_length (range.now, length.now) }
{
    if range == "*" {
        read_number(length)?;
        return Some(None);
    }
    if !is_length(length) {
        return None;
    }
    Some(Some(ends_in(range)?))
}

/// Whether the string is `*` or a number.
fn is_length(text: &str) -> bool
    ensures { result ≡ is_length text.now }
{
    text == "*" || read_number(text).is_some()
}

/// Parses the offsets of a first and a last byte.
fn ends_in(text: &str) -> Option<ContentRange>
    ensures { result ≡ ends_in text.now }
{
    let (first, last) = cut_at(text, '-')?;
    let (first, last) = both_numbers(first, last)?;
    Some(ContentRange { first, last })
}
