//! The header `content-location` for a directory whose request path lacks the trailing slash.
ghost use Rattle.std.specs.Prelude.{◌≡◌, ◌++◌, codes, IfOk, OnOk, IfErr};
ghost use Rattle.dav_resource.specs.declared.error.DavError.TheVariants.{Memory};
ghost use Rattle.dav_messages.specs.ReplyHeader.{HasRoomFor};
ghost use Rattle.dav_engine.specs.Location.{fixed_location as location_of_fixed, location_fields};

use crate::inner::{fixed_path, is_directory};
use dav_messages::{add_header, header_value};
use dav_resource::{DavPath, DavResult, Meta};
use http_header::{CONTENT_LOCATION, HeaderMap, HeaderValue};

/// Adds `content-location` if a directory was found and the path lacks its trailing slash. The only error is
/// `Memory`.
pub(crate) fn add_location(
    headers: &mut HeaderMap<HeaderValue>,
    path: &DavPath,
    found: &Option<Meta>,
) -> DavResult<()>
    requires { HasRoomFor headers.old (codes "content-location") }
    ensures ok { OnOk result (headers.new ≡ headers.old ++ location_fields path.now found.now) }
    ensures err { IfErr result (λ e. e ≡ Memory) }
{
    add_header(headers, CONTENT_LOCATION, fixed_location(path, found)?)
}

/// Returns the directory's path, with its trailing slash and the prefix, if a directory was found and the
/// request's path lacks the slash.
fn fixed_location(path: &DavPath, found: &Option<Meta>) -> DavResult<Option<HeaderValue>>
    ensures ok { IfOk result (λ value. value ≡ location_of_fixed path.now found.now) }
    ensures err { IfErr result (λ e. e ≡ Memory) }
{
    if path.is_collection() || !is_directory(found.as_ref()) {
        return Ok(None);
    }
    let fixed = fixed_path(path, found.as_ref())?;
    Ok(Some(header_value(fixed.with_prefix()?.as_url_string()?)?))
}
