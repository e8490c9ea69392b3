//! Where in the file a PUT or a PATCH writes, and how many bytes.
ghost use Rattle.std.specs.Prelude.{◌≡◌, Ok, option_map};
ghost use Rattle.dav_engine.specs.Target.{stated_length as length_stated_by, spans as is_span, from_to as part_from_to, last_bytes as part_of_last, named_part as part_named, update_target as target_of_update, is_update as is_update_type, patch_target as target_of_patch, whole as whole_by, in_range as target_in_range, within_reach as target_within_reach, first_target as first_target_of, target_of};

use dav_headers::{
    ContentRange, UpdateRange, read_content_length, read_content_range, read_content_type,
    read_expected_entity_length, read_update_range,
};
use dav_resource::{DavError, DavResult, FsError, FsResult, Meta};
use http::StatusCode;
use http_header::{HeaderMap, HeaderValue};

/// Where the body is written in the file, and how long it must be.
#[derive(Debug, Clone, Copy)]
pub(crate) struct Target {
    /// The offset in the file, in bytes from its start.
    pub(crate) start: u64,
    /// Whether the body is written at the end of the file, whatever the offset is.
    pub(crate) append: bool,
    /// Whether the rest of the file is kept.
    pub(crate) part: bool,
    /// The length in bytes that the body must have, if a header or a range says one.
    pub(crate) length: Option<u64>,
    /// The length in bytes that a header states for the body, if one does.
    pub(crate) stated: Option<u64>,
}

/// Finds where a PUT, or a PATCH if `partial`, writes, by its headers and the lookup of its path.
///
/// Errors, each of which closes the connection except the last:
/// - Only for a PATCH: 415 for a Content-Type other than that of a partial update, 411 without a length, 400
///   without a range that can be read.
/// - 400 for a Content-Range that cannot be read.
/// - 416 for a range that is none, that does not have the stated length, or whose end does not fit in a
///   `u64`.
/// - The lookup's error, if the range counts from the end of the file. That nothing is there is not an error.
pub(crate) fn find_target(
    partial: bool,
    headers: &HeaderMap<HeaderValue>,
    found: &FsResult<Meta>,
) -> DavResult<Target>
    ensures { result ≡ target_of partial headers.now found.now }
{
    let target = first_target(partial, headers, found)?;
    let range = read_content_range(headers)?;
    within_reach(in_range(target, range)?)
}

fn first_target(
    partial: bool,
    headers: &HeaderMap<HeaderValue>,
    found: &FsResult<Meta>,
) -> DavResult<Target>
    ensures { result ≡ first_target_of partial headers.now found.now }
{
    if partial {
        patch_target(headers, found)
    } else {
        whole(headers)
    }
}

/// Targets the whole file.
fn whole(headers: &HeaderMap<HeaderValue>) -> DavResult<Target>
    ensures { result ≡ Ok (whole_by headers.now) }
{
    let stated = stated_length(headers)?;
    Ok(Target {
        start: 0,
        append: false,
        part: false,
        length: stated,
        stated,
    })
}

/// Finds the part of the file that a PATCH writes.
fn patch_target(headers: &HeaderMap<HeaderValue>, found: &FsResult<Meta>) -> DavResult<Target>
    ensures { result ≡ target_of_patch headers.now found.now }
{
    if !is_update(read_content_type(headers)?) {
        return Err(DavError::StatusClose(StatusCode::UNSUPPORTED_MEDIA_TYPE));
    }
    update_target(stated_length(headers)?, read_update_range(headers)?, found)
}

/// Returns whether the Content-Type is that of a partial update (SabreDAV).
fn is_update(content_type: Option<&str>) -> bool
    ensures { result ≡ is_update_type (option_map (λ text. text.now) content_type.entry) }
{
    match content_type {
        Some(text) => text == "application/x-sabredav-partialupdate",
        None => false,
    }
}

/// Returns the length that a header states for the body: that of Content-Length, else of
/// X-Expected-Entity-Length.
fn stated_length(headers: &HeaderMap<HeaderValue>) -> DavResult<Option<u64>>
    ensures { result ≡ Ok (length_stated_by headers.now) }
{
    match read_content_length(headers)? {
        Some(length) => Ok(Some(length)),
        None => read_expected_entity_length(headers),
    }
}

fn update_target(
    length: Option<u64>,
    range: Option<UpdateRange>,
    found: &FsResult<Meta>,
) -> DavResult<Target>
    ensures { result ≡ target_of_update length range found.now }
{
    let Some(length) = length else {
        return Err(DavError::StatusClose(StatusCode::LENGTH_REQUIRED));
    };
    let Some(range) = range else {
        return Err(DavError::StatusClose(StatusCode::BAD_REQUEST));
    };
    let target = Target {
        start: 0,
        append: false,
        part: true,
        length: Some(length),
        stated: Some(length),
    };
    named_part(target, range, found)
}

/// Targets the part of the file that an update range names.
fn named_part(target: Target, range: UpdateRange, found: &FsResult<Meta>) -> DavResult<Target>
    ensures { result ≡ part_named target range found.now }
{
    match range {
        UpdateRange::FromTo(first, last) => from_to(target, first, last),
        UpdateRange::AllFrom(first) => Ok(Target {
            start: first,
            ..target
        }),
        UpdateRange::Last(count) => last_bytes(target, count, found),
        UpdateRange::Append => Ok(Target {
            append: true,
            ..target
        }),
    }
}

/// Targets the part that begins `count` bytes before the end of the file that was found. If nothing was
/// found, returns the target as it is.
fn last_bytes(target: Target, count: u64, found: &FsResult<Meta>) -> DavResult<Target>
    ensures { result ≡ part_of_last target count found.now }
{
    match found {
        Ok(meta) => match meta.len.checked_sub(count) {
            Some(start) => Ok(Target { start, ..target }),
            None => Err(DavError::StatusClose(StatusCode::RANGE_NOT_SATISFIABLE)),
        },
        Err(FsError::NotFound) => Ok(target),
        Err(error) => Err((*error).into()),
    }
}

/// Targets the part that Content-Range names, if it names one (RFC 9110, section 14.5).
fn in_range(target: Target, range: Option<ContentRange>) -> DavResult<Target>
    ensures { result ≡ target_in_range target (Ok range) }
{
    match range {
        None => Ok(target),
        Some(range) => from_to(target, range.first, range.last),
    }
}

/// Targets the part from the byte `first` to the byte `last`, both included.
fn from_to(target: Target, first: u64, last: u64) -> DavResult<Target>
    ensures { result ≡ part_from_to target first last }
{
    if !spans(target.length, first, last) {
        return Err(DavError::StatusClose(StatusCode::RANGE_NOT_SATISFIABLE));
    }
    Ok(Target {
        start: first,
        part: true,
        length: Some(last - first + 1),
        ..target
    })
}

/// Returns whether `first` to `last` is a range, whose length fits in a `u64` and is the stated length, if
/// one is stated.
fn spans(stated: Option<u64>, first: u64, last: u64) -> bool
    ensures { result ≡ is_span stated first last }
{
    let Some(more) = last.checked_sub(first) else {
        return false;
    };
    match (more.checked_add(1), stated) {
        (None, _) => false,
        (Some(_), None) => true,
        (Some(length), Some(stated)) => length == stated,
    }
}

/// Rejects with 416 a target whose end, its offset plus its length, does not fit in a `u64`.
fn within_reach(target: Target) -> DavResult<Target>
    ensures { result ≡ target_within_reach target }
{
    match target.start.checked_add(target.length.unwrap_or(0)) {
        Some(_) => Ok(target),
        None => Err(DavError::StatusClose(StatusCode::RANGE_NOT_SATISFIABLE)),
    }
}
