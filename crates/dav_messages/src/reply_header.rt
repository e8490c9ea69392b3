//! Sets the header fields of a response, one after the other.
ghost use Rattle.std.specs.Prelude.{◌≡◌, ◌++◌, OnOk, OnErr, IfOk, IfErr, string_bytes};
ghost use Rattle.http_header.specs.FieldValue.{IsFieldValue, plain_value};
ghost use Rattle.dav_resource.specs.declared.error.DavError.TheVariants.{Memory};
ghost use Rattle.dav_messages.specs.ReplyHeader.{HasRoomFor, optional_field};

use bytes::Bytes;
use dav_resource::DavResult;
use http_header::{HeaderMap, HeaderName, HeaderValue};

/// Appends a header field if there is a value for it, else leaves the fields unchanged. The caller ensures that
/// the name is not set yet, and that there are at most 100 names and 100 values. The only error is `Memory`, and
/// then the fields are unchanged.
pub fn add_header(
    headers: &mut HeaderMap<HeaderValue>,
    name: HeaderName,
    value: Option<HeaderValue>,
) -> DavResult<()>
    requires { HasRoomFor headers.old name }
    ensures ok { OnOk result (headers.new ≡ headers.old ++ optional_field name value) }
    ensures unset { OnErr result (headers.new ≡ headers.old) }
    ensures err { IfErr result (λ e. e ≡ Memory) }
{
    let Some(value) = value else {
        return Ok(());
    };
    headers.insert(name, value)?;
    Ok(())
}

/// Returns the value of a header field with this string. The caller ensures that it is a valid value. The only
/// error is `Memory`.
pub fn header_value(text: String) -> DavResult<HeaderValue>
    requires { IsFieldValue (string_bytes text) }
    ensures ok { IfOk result (λ value. value ≡ plain_value (string_bytes text)) }
    ensures err { IfErr result (λ e. e ≡ Memory) }
{
    Ok(HeaderValue::from_known_valid(Bytes::from_string(text)?))
}
