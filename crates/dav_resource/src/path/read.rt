//! Parses the path of a URL.
ghost use Rattle.std.specs.Prelude.{◌≡◌, ◌<◌, ◌⊎◌, true, All, Ok, Err, IfOk, OnOk, IfErr, if◌then◌else◌};
ghost use Rattle.std.specs.Str.{is_utf8};
ghost use Rattle.std.specs.List.{list_all};
ghost use Rattle.std.specs.Cow.{cow_str_bytes};
ghost use Rattle.percent_encoding.specs.Percent.{percent_decode};
ghost use Rattle.dav_key.specs.Flat.{IsFlatSegment};
ghost use Rattle.dav_resource.specs.Gives.{GivesBy};
ghost use Rattle.dav_resource.specs.PathText.{starts_with_two_digits, has_whole_escapes, is_literal_byte, is_plain_byte, is_segment, enter, enter_part, read_part, read_key, read_prefix, path_part, below_prefix, IsKey, IsSegment, IsSegmentText};

use super::{DavPath, is_collection};
use crate::error::{DavError, DavResult};
use dav_key::{FlatKey, KeyBuilder};
use percent_encoding::{DecodeError, percent_decode_str};
use std::alloc::Global;
use std::borrow::CowStr;

/// The part of the string before its first `?` or `#`.
pub(crate) fn path_part(text: &str) -> &str
    ensures { result.now ≡ path_part text.now }
{
    let text = text.split_once('?').map_or(text, |(before, _)| before);
    text.split_once('#').map_or(text, |(before, _)| before)
}

/// Parses a prefix into a key. An empty prefix is the root.
pub(crate) fn read_prefix(alloc: Global, prefix: &str) -> DavResult<FlatKey>
    ensures value { GivesBy (λ key. key) result (read_prefix prefix.now) }
    ensures key { IfOk result IsKey }
{
    if prefix.is_empty() {
        return Ok(FlatKey::root(alloc)?);
    }
    read_key(alloc, prefix)
}

/// Makes the path with this key, below this prefix. Errors: `IllegalPath` if the key does not begin with the
/// prefix, and `Memory`.
pub(crate) fn below_prefix(slash: bool, key: &FlatKey, prefix: FlatKey) -> DavResult<DavPath>
    requires key { IsKey key.now }
    requires prefix { IsKey prefix }
    ensures { GivesBy (λ path. path) result (below_prefix slash key.now prefix) }
{
    let Some(key) = key.strip(&prefix)? else {
        return Err(DavError::IllegalPath);
    };
    Ok(DavPath {
        star: false,
        slash: is_collection(slash, &key),
        prefix,
        key,
    })
}

/// Whether the bytes begin with two hexadecimal digits.
fn starts_with_two_digits(bytes: &[u8]) -> bool
    ensures { result ≡ starts_with_two_digits bytes.now }
{
    match bytes {
        [high, low, ..] => high.is_ascii_hexdigit() && low.is_ascii_hexdigit(),
        _ => false,
    }
}

/// Whether every `%` is followed by two hexadecimal digits.
fn has_whole_escapes(part: &[u8]) -> bool
    ensures { result ≡ has_whole_escapes part.now }
{
    let mut rest = part;
    while let [first, tail @ ..] = rest {
        rest = tail;
        if *first == b'%' && !starts_with_two_digits(tail) {
            return false;
        }
    }
    true
}

/// Whether a string may be a segment of a path. It is neither empty, `.` nor `..`, and contains neither NUL
/// nor `/`.
pub fn is_segment(text: &str) -> bool
    ensures value { result ≡ is_segment text.now }
    ensures segment { result ≡ true → IsSegment text.now }
{
    match text {
        "" | "." | ".." => false,
        _ => is_plain(text.as_bytes()),
    }
}

/// Whether the bytes contain neither NUL nor `/`.
fn is_plain(bytes: &[u8]) -> bool
    ensures { result ≡ list_all is_plain_byte bytes.now }
{
    bytes.iter().all(|b| *b != 0 && *b != b'/')
}

/// Whether each byte stands for itself in a part of a path: none is NUL, `/` or `%`.
fn is_literal(bytes: &[u8]) -> bool
    ensures { result ≡ list_all is_literal_byte bytes.now }
{
    bytes.iter().all(|b| *b != 0 && *b != b'/' && *b != b'%')
}

/// Percent-decodes one part of a path. A part without a `%` is not copied. Errors: `InvalidPath` if the part
/// is malformed, and `Memory`.
fn decode_part(alloc: Global, part: &str) -> DavResult<CowStr<'_>>
    ensures value { GivesBy cow_str_bytes result (read_part part.now) }
    ensures text { IfOk result (λ text. IsSegmentText (cow_str_bytes text)) }
{
    if is_literal(part.as_bytes()) {
        return Ok(CowStr::Borrowed(part));
    }
    if !has_whole_escapes(part.as_bytes()) {
        return Err(DavError::InvalidPath);
    }
    let text = decode_utf8(alloc, part)?;
    if !is_plain(text.as_bytes()) {
        return Err(DavError::InvalidPath);
    }
    Ok(text)
}

/// Percent-decodes a string. Errors: `InvalidPath` if the decoded bytes are not UTF-8, and `Memory`.
fn decode_utf8(alloc: Global, part: &str) -> DavResult<CowStr<'_>>
    ensures value { GivesBy cow_str_bytes result (let bytes = percent_decode part.now in if is_utf8 bytes then Ok bytes else Err DavError.InvalidPath) }
    ensures bytes { IfOk result (λ text. All (λ b. b < 256) (cow_str_bytes text)) }
{
    match percent_decode_str(part).decode_utf8(alloc) {
        Ok(text) => Ok(text),
        Err(DecodeError::Utf8(_)) => Err(DavError::InvalidPath),
        Err(DecodeError::OutOfMemory) => Err(DavError::Memory),
    }
}

/// Applies one decoded segment to the key, as `cd` does.
fn enter(key: &mut KeyBuilder, segment: &str) -> DavResult<()>
    requires { IsFlatSegment segment.now }
    ensures ok { OnOk result (enter key.old segment.now ≡ Ok key.new) }
    ensures err { IfErr result (λ e. (enter key.old segment.now ≡ Err e) ⊎ (e ≡ DavError.Memory)) }
{
    match segment {
        "" | "." => {}
        ".." => {
            if !key.pop() {
                return Err(DavError::ForbiddenPath);
            }
        }
        _ => key.push(segment)?,
    }
    Ok(())
}

/// Decodes one part of a path and applies it to the key.
fn enter_part(alloc: Global, key: &mut KeyBuilder, part: &str) -> DavResult<()>
    ensures key { IsKey key.old → OnOk result (IsKey key.new) }
    ensures ok { OnOk result (enter_part key.old part.now ≡ Ok key.new) }
    ensures err { IfErr result (λ e. (enter_part key.old part.now ≡ Err e) ⊎ (e ≡ DavError.Memory)) }
{
    let segment = decode_part(alloc, part)?;
    enter(key, &segment)
}

/// Parses a string that begins with `/` into a key. Any other string is an `InvalidPath`.
pub(crate) fn read_key(alloc: Global, text: &str) -> DavResult<FlatKey>
    ensures value { GivesBy (λ key. key) result (read_key text.now) }
    ensures key { IfOk result IsKey }
{
    if !text.starts_with('/') {
        return Err(DavError::InvalidPath);
    }
    let mut key = KeyBuilder::with_capacity(alloc, text.len())?;
    for part in text.split('/') {
        enter_part(alloc, &mut key, part)?;
    }
    Ok(key.finish()?)
}
