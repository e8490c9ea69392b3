//! The path of a string that is a path, or an http or https URL.
ghost use Rattle.std.specs.Prelude.{Ok};
ghost use Rattle.dav_resource.specs.Gives.{GivesBy};
ghost use Rattle.dav_headers.specs.Place.{place_path, tagged_path};

use crate::text::text_of;
use dav_resource::{DavError, DavPath, DavResult, Text};
use std::alloc::Global;
use url::{ParseError, Url};

/// Finds the path in a path or URL. A string that begins with `/` is the path itself. For an http or https
/// URL the result is its path, as the URL Standard serializes it. Any other string gives `None`.
///
/// The only error is `Memory`: memory runs out, or the URL is too long for its parser.
pub fn read_place(alloc: Global, text: &str) -> DavResult<Option<Text>>
    ensures value { GivesBy (λ path. path) result (Ok (place_path text.now)) }
{
    if text.starts_with('/') {
        return Ok(Some(text_of(alloc, text)?));
    }
    match Url::parse(alloc, text) {
        Ok(url) if matches!(url.scheme(), "http" | "https") => {
            Ok(Some(text_of(alloc, url.path())?))
        }
        Err(ParseError::OutOfMemory | ParseError::Overflow) => Err(DavError::Memory),
        _ => Ok(None),
    }
}

/// Parses the path of a resource tag of the If header (RFC 4918, section 10.4.2), below the prefix of the
/// request's path. Returns `None` if the tag is neither a path nor an http or https URL, or if its path
/// cannot be parsed or is not below the prefix.
///
/// The only error is `Memory`, as in `read_place`.
pub fn read_tagged_path(alloc: Global, tag: &str, path: &DavPath) -> DavResult<Option<DavPath>>
    ensures value { GivesBy (λ p. p) result (Ok (tagged_path tag.now path.now.prefix)) }
{
    let Some(place) = read_place(alloc, tag)? else {
        return Ok(None);
    };
    match DavPath::from_str_beside(alloc, place.as_str(), path) {
        Ok(path) => Ok(Some(path)),
        Err(DavError::Memory) => Err(DavError::Memory),
        Err(_) => Ok(None),
    }
}
