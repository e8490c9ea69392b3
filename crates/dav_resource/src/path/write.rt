//! Writes a path as the path of a URL.
ghost use Rattle.std.specs.Prelude.{◌≡◌, [], IfOk, string_bytes};
ghost use Rattle.dav_resource.specs.Escapes.{key_text_with, url_text_with, IsSetBut};
ghost use Rattle.dav_resource.specs.Profile.{is_kept_in_href};

use crate::Profile;
use dav_key::FlatKey;
use percent_encoding::{AsciiSet, NON_ALPHANUMERIC, ascii_set, utf8_percent_encode};
use std::alloc::AllocError;

/// The bytes that are percent-encoded: all except the unreserved characters of RFC 3986, section 2.3.
pub(crate) const ESCAPED: AsciiSet = ascii_set!(
    NON_ALPHANUMERIC
        .remove(b'-')
        .remove(b'.')
        .remove(b'_')
        .remove(b'~')
);

/// The bytes that a `D:href` of the profile `Standard` has percent-encoded: all that may not stand in a segment (RFC 3986,
/// section 3.3), `&` and `;`.
pub(crate) const ESCAPED_IN_HREF: AsciiSet = ascii_set!(
    ESCAPED
        .remove(b'!')
        .remove(b'$')
        .remove(b'\'')
        .remove(b'(')
        .remove(b')')
        .remove(b'*')
        .remove(b'+')
        .remove(b',')
        .remove(b':')
        .remove(b'=')
        .remove(b'@')
);

/// Returns the bytes that a `D:href` has percent-encoded.
pub(crate) fn escaped_in_href(profile: Profile) -> AsciiSet
    ensures { IsSetBut result (is_kept_in_href profile) }
{
    match profile {
        Profile::Crate => ESCAPED,
        Profile::Standard => ESCAPED_IN_HREF,
    }
}

/// Writes a slash and the segment with these bytes percent-encoded, for each segment.
pub(crate) fn key_text(escaped: AsciiSet, key: &FlatKey) -> Result<String, AllocError>
    ensures { IfOk result (λ text. string_bytes text ≡ key_text_with escaped key.now) }
{
    let mut text = String::new(key.allocator());
    for segment in key.segments() {
        text.push('/')?;
        utf8_percent_encode(segment, escaped).append_to(&mut text)?;
    }
    Ok(text)
}

/// Writes the path with this key, with these bytes of its segments percent-encoded.
pub(crate) fn path_text(
    escaped: AsciiSet,
    star: bool,
    slash: bool,
    key: &FlatKey,
) -> Result<String, AllocError>
    ensures { IfOk result (λ text. string_bytes text ≡ url_text_with escaped (record { star = star; slash = slash; prefix = []; key = key.now })) }
{
    if star {
        return String::from_str(key.allocator(), "*");
    }
    let mut text = key_text(escaped, key)?;
    if slash || key.is_root() {
        text.push('/')?;
    }
    Ok(text)
}
