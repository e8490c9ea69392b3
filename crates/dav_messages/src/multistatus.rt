//! Responses that report statuses, and the XML in them (RFC 4918, sections 11.1, 13 and 14).
ghost use Rattle.std.specs.Prelude.{◌≡◌, ◌++◌, codes, [], ◌∷◌, IfOk, OnOk, OnErr, IfErr, string_bytes};
ghost use Rattle.dav_resource.specs.declared.error.DavError.TheVariants.{Memory};
ghost use Rattle.dav_messages.specs.Reply.{reply_of, bare_reply as reply_without_body, field};
ghost use Rattle.dav_messages.specs.ReplyHeader.{HasRoomFor};
ghost use Rattle.http_header.specs.FieldValue.{plain_value};
ghost use Rattle.dav_messages.specs.Multistatus.{status_line as line_of_status, status_element as element_of_status, shown_status as status_shown_for, response_element as element_of_item, multistatus as tree_of_items, multistatus_reply as reply_of_items};
ghost use Rattle.dav_resource.specs.Profile.{xml_type};

use crate::dav_element::{declaring_element, href_element, text_element};
use crate::reply_header::add_header;
use dav_resource::{Body, DavPath, DavResult, Element, ElementName, Profile, Text};
use http::{Response, StatusCode};
use http_header::{CONTENT_TYPE, HeaderMap, HeaderValue};
use std::alloc::{AllocError, Global};

/// The length of the usual status lines: those of 200, 404 and 424 have less.
const USUAL_LINE: usize = 32;

/// Returns a response with this status, no header fields and no body.
pub(crate) fn bare_reply(alloc: Global, status: StatusCode) -> Response<Body>
    ensures { reply_of result ≡ reply_without_body status [] }
{
    let mut reply = Response::new(alloc, Body::Empty);
    *reply.status_mut() = status;
    reply
}

/// Returns a 207 with a `response` for each item, in order. The only error is `Memory`.
pub(crate) fn multistatus_reply(
    alloc: Global,
    profile: Profile,
    items: &[(DavPath, StatusCode)],
) -> DavResult<Response<Body>>
    ensures ok { IfOk result (λ reply. reply_of reply ≡ reply_of_items profile items.now) }
    ensures err { IfErr result (λ e. e ≡ Memory) }
{
    let tree = multistatus(alloc, profile, items)?;
    let headers = xml_headers(alloc, profile)?;
    let mut reply = Response::new(alloc, Body::Tree(tree));
    *reply.status_mut() = StatusCode::MULTI_STATUS;
    *reply.headers_mut() = headers;
    Ok(reply)
}

/// Returns the header fields of a response with an XML body: only `content-type`, for XML in UTF-8 (RFC 4918,
/// section 8.2). The only error is `Memory`.
pub fn xml_headers(alloc: Global, profile: Profile) -> DavResult<HeaderMap<HeaderValue>>
    ensures ok { IfOk result (λ headers. headers ≡ field (codes "content-type") (xml_type profile) ∷ []) }
    ensures err { IfErr result (λ e. e ≡ Memory) }
{
    let mut headers = HeaderMap::new(alloc);
    add_xml_type(&mut headers, profile)?;
    Ok(headers)
}

/// Appends the header field `content-type` for XML in UTF-8 (RFC 4918, section 8.2). The caller ensures that it
/// is not set yet, as for `add_header`. The only error is `Memory`, and then the fields are unchanged.
pub fn add_xml_type(headers: &mut HeaderMap<HeaderValue>, profile: Profile) -> DavResult<()>
    requires { HasRoomFor headers.old (codes "content-type") }
    ensures ok { OnOk result (headers.new ≡ headers.old ++ field (codes "content-type") (xml_type profile) ∷ []) }
    ensures unset { OnErr result (headers.new ≡ headers.old) }
    ensures err { IfErr result (λ e. e ≡ Memory) }
{
    add_header(headers, CONTENT_TYPE, Some(xml_value(profile)))
}

/// Returns the media type of a response with an XML body, as the value of a header field. RFC 4918 says `application/xml`,
/// and has each client accept `text/xml` too, the only one that some read.
fn xml_value(profile: Profile) -> HeaderValue
    ensures { result ≡ plain_value (xml_type profile) }
{
    match profile {
        Profile::Crate => HeaderValue::from_static("application/xml; charset=utf-8"),
        Profile::Standard => HeaderValue::from_static("text/xml; charset=\"utf-8\""),
    }
}

/// Returns a `multistatus` with a `response` for each item, in order.
fn multistatus(
    alloc: Global,
    profile: Profile,
    items: &[(DavPath, StatusCode)],
) -> Result<Element, AllocError>
    ensures { IfOk result (λ tree. tree ≡ tree_of_items profile items.now) }
{
    let mut tree = declaring_element(alloc, ElementName::Multistatus)?;
    for (path, status) in items {
        tree.push_element(response_element(alloc, profile, path, *status)?)?;
    }
    Ok(tree)
}

/// Returns a `response` with the resource's path, including its prefix, and its status.
fn response_element(
    alloc: Global,
    profile: Profile,
    path: &DavPath,
    status: StatusCode,
) -> Result<Element, AllocError>
    ensures { IfOk result (λ response. response ≡ element_of_item profile (path.now, status)) }
{
    let mut response = Element::constant(alloc, ElementName::Response);
    response.push_element(href_element(alloc, profile, path)?)?;
    response.push_element(status_element(alloc, shown_status(status))?)?;
    Ok(response)
}

/// Returns the status as in the first line of an HTTP response, with its reason phrase if it has one (RFC
/// 4918, section 14.28). Fails only if memory runs out.
pub fn status_line(alloc: Global, status: StatusCode) -> Result<String, AllocError>
    ensures { IfOk result (λ line. string_bytes line ≡ line_of_status status) }
{
    let mut line = String::with_capacity(alloc, USUAL_LINE)?;
    line.push_str("HTTP/1.1 ")?;
    line.push_str(status.as_str())?;
    if let Some(phrase) = status.canonical_reason() {
        line.push(' ')?;
        line.push_str(phrase)?;
    }
    Ok(line)
}

/// Returns the element `D:status` of a status (RFC 4918, section 14.28). Fails only if memory runs out.
pub fn status_element(alloc: Global, status: StatusCode) -> Result<Element, AllocError>
    ensures { IfOk result (λ element. element ≡ element_of_status status) }
{
    let line = Text::from_string(status_line(alloc, status)?);
    text_element(alloc, ElementName::Status, line)
}

/// Returns the status that a multistatus shows: 200 in place of 204, since an item has no content of its own,
/// and every other status as it is.
fn shown_status(status: StatusCode) -> StatusCode
    ensures { result ≡ status_shown_for status }
{
    if status == StatusCode::NO_CONTENT {
        StatusCode::OK
    } else {
        status
    }
}
