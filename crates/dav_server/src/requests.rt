//! The requests that frames carry.
ghost use Rattle.std.specs.Prelude.{◌≡◌, ◌≤◌, ◌⊎◌, length, true, false, All, IfOk, IfErr, OnOk, OnErr, map, option_map};
ghost use Rattle.http_header.specs.FieldName.{IsFieldName};
ghost use Rattle.http_header.specs.FieldValue.{IsFieldValue, plain_value};
ghost use Rattle.http_header.specs.HeaderMap.{RefusesAppend as Refuses, append as with_field};
ghost use Rattle.http_header.specs.Token.{IsToken, lowercase};
ghost use Rattle.dav_resource.specs.LockToken.{is_lock_token};
ghost use Rattle.dav_resource.specs.declared.error.DavError.TheVariants.{Memory, Status};
ghost use Rattle.dav_wire.specs.Views.{request_frame_of, field_of};
ghost use Rattle.dav_server.specs.Requests.{IsField, headers_of, IsRequest, IsUnfit, most_names};

use dav_resource::{DavError, DavPath, DavRequest, DavResult, LockToken, Text};
use dav_wire::RequestFrame;
use http::method::MethodError;
use http::{Method, StatusCode};
use http_header::{
    HeaderMap, HeaderMapError, HeaderName, HeaderNameError, HeaderValue, HeaderValueError,
};
use std::alloc::{AllocError, Global};

/// Returns the request that a frame carries, at this time. `prefix` is the path prefix of the server's URLs.
///
/// Errors: `Memory`; 400 if the method, a header field or the lock token is not valid; the error of the path
/// (`DavPath::from_str_and_prefix`); 431 if there are more names of header fields than a map holds.
pub fn request_of(
    alloc: Global,
    prefix: &str,
    now: u64,
    frame: RequestFrame<'_>,
) -> DavResult<DavRequest>
    ensures ok { IfOk result (IsRequest prefix.now now (request_frame_of frame.entry)) }
    ensures err { IfErr result (λ e. (e ≡ Memory) ⊎ IsUnfit prefix.now (request_frame_of frame.entry) e) }
{
    Ok(DavRequest {
        method: read_method(alloc, frame.method)?,
        path: DavPath::from_str_and_prefix(alloc, frame.path, prefix)?,
        headers: read_headers(alloc, &frame.fields)?,
        principal: copy_principal(alloc, frame.principal)?,
        token: read_token(alloc, frame.token)?,
        body: frame.body,
        now,
    })
}

/// Returns the method of this name. Errors: `Memory`, or 400 if it is not a token (RFC 9110, section 9.1).
fn read_method(alloc: Global, name: &[u8]) -> DavResult<Method>
    ensures ok { IfOk result (λ method. method ≡ name.now) }
    ensures err { IfErr result (λ e. (e ≡ Memory) ⊎ (e ≡ Status 400 × ¬ (IsToken name.now))) }
{
    match Method::from_bytes(alloc, name) {
        Ok(method) => Ok(method),
        Err(MethodError::Invalid) => Err(DavError::Status(StatusCode::BAD_REQUEST)),
        Err(MethodError::OutOfMemory) => Err(DavError::Memory),
    }
}

/// Returns the header fields, in order.
///
/// Errors: `Memory`; 400 if one is not valid; 431 if there are more names than a map holds.
fn read_headers(alloc: Global, fields: &[(&[u8], &[u8])]) -> DavResult<HeaderMap<HeaderValue>>
    ensures ok { IfOk result (λ headers. headers ≡ headers_of (map field_of fields.now)) }
    ensures err { IfErr result (λ e. (e ≡ Memory) ⊎ (e ≡ Status 400 × ¬ (All IsField (map field_of fields.now))) ⊎ (e ≡ Status 431 × most_names ≤ length fields.now)) }
{
    let mut headers = HeaderMap::new(alloc);
    for (name, value) in fields {
        append(alloc, &mut headers, name, value)?;
    }
    Ok(headers)
}

/// Appends a header field. After an error the map is as before.
///
/// Errors: `Memory`; 400 if the field is not valid; 431 if there are more names than a map holds.
fn append(
    alloc: Global,
    headers: &mut HeaderMap<HeaderValue>,
    name: &[u8],
    value: &[u8],
) -> DavResult<()>
    ensures ok { OnOk result (headers.new ≡ with_field headers.old (lowercase name.now) (plain_value value.now)) }
    ensures kept { OnErr result (headers.new ≡ headers.old) }
    ensures err { IfErr result (λ e. (e ≡ Memory) ⊎ (e ≡ Status 400 × ¬ (IsField (name.now, value.now))) ⊎ (e ≡ Status 431 × Refuses headers.old (lowercase name.now))) }
{
    let name = read_name(alloc, name)?;
    let value = read_value(alloc, value)?;
    match headers.append(name, value) {
        Ok(_) => Ok(()),
        Err(HeaderMapError::MaxSizeReached) => Err(DavError::Status(
            StatusCode::REQUEST_HEADER_FIELDS_TOO_LARGE,
        )),
        Err(HeaderMapError::OutOfMemory) => Err(DavError::Memory),
    }
}

/// Returns the name of a header field. Errors: `Memory`, or 400 if it is not one.
fn read_name(alloc: Global, name: &[u8]) -> DavResult<HeaderName>
    ensures ok { IfOk result (λ field_name. field_name ≡ lowercase name.now) }
    ensures err { IfErr result (λ e. (e ≡ Memory) ⊎ (e ≡ Status 400 × ¬ (IsFieldName name.now))) }
{
    match HeaderName::from_bytes(alloc, name) {
        Ok(name) => Ok(name),
        Err(HeaderNameError::Invalid) => Err(DavError::Status(StatusCode::BAD_REQUEST)),
        Err(HeaderNameError::OutOfMemory) => Err(DavError::Memory),
    }
}

/// Returns the value of a header field. Errors: `Memory`, or 400 if it is not one.
fn read_value(alloc: Global, value: &[u8]) -> DavResult<HeaderValue>
    ensures ok { IfOk result (λ field_value. field_value ≡ plain_value value.now) }
    ensures err { IfErr result (λ e. (e ≡ Memory) ⊎ (e ≡ Status 400 × ¬ (IsFieldValue value.now))) }
{
    match HeaderValue::from_bytes(alloc, value) {
        Ok(value) => Ok(value),
        Err(HeaderValueError::Invalid) => Err(DavError::Status(StatusCode::BAD_REQUEST)),
        Err(HeaderValueError::OutOfMemory) => Err(DavError::Memory),
    }
}

/// Returns a copy of the principal, if there is one. Fails only if memory runs out.
fn copy_principal(alloc: Global, principal: Option<&str>) -> Result<Option<Text>, AllocError>
    ensures { IfOk result (λ copy. copy ≡ option_map (λ s. s.now) principal.entry) }
{
    match principal {
        Some(principal) => Ok(Some(Text::from_string(String::from_str(alloc, principal)?))),
        None => Ok(None),
    }
}

/// Returns the lock token of this string. Errors: `Memory`, or 400 if it is not one.
fn read_token(alloc: Global, text: &str) -> DavResult<LockToken>
    ensures ok { IfOk result (λ token. token ≡ text.now) }
    ensures valid { IfOk result (λ _. is_lock_token text.now ≡ true) }
    ensures err { IfErr result (λ e. (e ≡ Memory) ⊎ (e ≡ Status 400 × (is_lock_token text.now ≡ false))) }
{
    match LockToken::from_string(String::from_str(alloc, text)?) {
        Some(token) => Ok(token),
        None => Err(DavError::Status(StatusCode::BAD_REQUEST)),
    }
}
