//! The response to a PUT.
ghost use Rattle.std.specs.Prelude.{◌≡◌, if◌then◌else◌, IfOk, IfErr, is_some, option_map, string_bytes};
ghost use Rattle.std.specs.Option.{ForSome, option_and_then};
ghost use Rattle.http_header.specs.FieldValue.{plain_value};
ghost use Rattle.dav_resource.specs.declared.error.DavError.TheVariants.{Memory};
ghost use Rattle.dav_store.specs.Store.{IsTagText};
ghost use Rattle.dav_messages.specs.Reply.{reply_of};
ghost use Rattle.dav_dates.specs.HttpDate.{http_date_text};
ghost use Rattle.dav_engine.specs.PutReply.{put_reply as reply_to_put, put_headers as headers_of_put, quoted as quoted_tag, shown_tag, shown_change, empty_length};

use dav_dates::{LAST_SHOWN, http_date_value};
use dav_messages::{add_header, header_value};
use dav_resource::{Body, DavResult, Meta};
use http::{Response, StatusCode};
use http_header::{ACCEPT_RANGES, CONTENT_LENGTH, ETAG, HeaderMap, HeaderValue, LAST_MODIFIED};
use std::alloc::{AllocError, Global};

/// How many header fields the response has at most.
const MOST_FIELDS: usize = 4;

/// Makes the response, from what was found before and what is known of the file now (RFC 9110, section
/// 9.3.4): 204 or 201, with `Accept-Ranges`, `Content-Length` if the file is new, and `ETag` and
/// `Last-Modified` if known (sections 8.8.2 and 8.8.3). The only error is `Memory`.
pub(crate) fn put_reply(
    alloc: Global,
    found: Option<Meta>,
    meta: Option<Meta>,
) -> DavResult<Response<Body>>
    requires { ForSome meta (λ m. ForSome m.etag IsTagText) }
    ensures ok { IfOk result (λ reply. reply_of reply ≡ reply_to_put found meta) }
    ensures err { IfErr result (λ e. e ≡ Memory) }
{
    let headers = put_headers(alloc, &found, &meta)?;
    let mut reply = Response::new(alloc, Body::Empty);
    *reply.status_mut() = put_status(&found);
    *reply.headers_mut() = headers;
    Ok(reply)
}

/// Returns 204 if something was there, else 201.
fn put_status(found: &Option<Meta>) -> StatusCode
    ensures { result ≡ (if is_some found.now then 204 else 201) }
{
    match found {
        Some(_) => StatusCode::NO_CONTENT,
        None => StatusCode::CREATED,
    }
}

/// Returns the header fields of the response, in the order in which they are set.
fn put_headers(
    alloc: Global,
    found: &Option<Meta>,
    meta: &Option<Meta>,
) -> DavResult<HeaderMap<HeaderValue>>
    requires { ForSome meta.now (λ m. ForSome m.etag IsTagText) }
    ensures ok { IfOk result (λ headers. headers ≡ headers_of_put found.now meta.now) }
    ensures err { IfErr result (λ e. e ≡ Memory) }
{
    let mut headers = HeaderMap::with_capacity(alloc, MOST_FIELDS)?;
    let ranges = HeaderValue::from_static("bytes");
    add_header(&mut headers, ACCEPT_RANGES, Some(ranges))?;
    add_header(&mut headers, CONTENT_LENGTH, length_value(found))?;
    add_header(&mut headers, ETAG, tag_value(alloc, meta)?)?;
    add_header(&mut headers, LAST_MODIFIED, change_value(alloc, meta)?)?;
    Ok(headers)
}

/// Returns the length of the response's body, which is empty, if the file is new.
fn length_value(found: &Option<Meta>) -> Option<HeaderValue>
    ensures { result ≡ empty_length found.now }
{
    match found {
        Some(_) => None,
        None => Some(HeaderValue::from_static("0")),
    }
}

/// Returns the entity tag, if one is known.
fn tag_value(alloc: Global, meta: &Option<Meta>) -> DavResult<Option<HeaderValue>>
    requires { ForSome meta.now (λ m. ForSome m.etag IsTagText) }
    ensures ok { IfOk result (λ value. value ≡ option_map (λ tag. plain_value (quoted_tag tag)) (shown_tag meta.now)) }
    ensures err { IfErr result (λ e. e ≡ Memory) }
{
    let Some(meta) = meta else {
        return Ok(None);
    };
    match &meta.etag {
        Some(tag) => Ok(Some(quoted(alloc, tag.as_str())?)),
        None => Ok(None),
    }
}

/// Returns the time of the last change, if it is known and can be written as an HTTP date.
fn change_value(alloc: Global, meta: &Option<Meta>) -> DavResult<Option<HeaderValue>>
    ensures ok { IfOk result (λ value. value ≡ option_map (λ secs. plain_value (http_date_text secs)) (option_and_then shown_change meta.now)) }
    ensures err { IfErr result (λ e. e ≡ Memory) }
{
    let Some(meta) = meta else {
        return Ok(None);
    };
    let changed = meta.modified;
    match changed {
        Some(secs) if secs <= LAST_SHOWN => Ok(Some(http_date_value(alloc, secs)?)),
        _ => Ok(None),
    }
}

/// Returns the strong entity tag, as a header field has it.
fn quoted(alloc: Global, tag: &str) -> DavResult<HeaderValue>
    requires { IsTagText tag.now }
    ensures ok { IfOk result (λ value. value ≡ plain_value (quoted_tag tag.now)) }
    ensures err { IfErr result (λ e. e ≡ Memory) }
{
    let text = in_quotes(alloc, tag)?;
    header_value(text)
}

/// Returns the string in double quotes.
fn in_quotes(alloc: Global, text: &str) -> Result<String, AllocError>
    ensures { IfOk result (λ quoted. string_bytes quoted ≡ quoted_tag text.now) }
{
    let mut quoted = String::with_capacity(alloc, text.len().saturating_add(2))?;
    quoted.push('"')?;
    quoted.push_str(text)?;
    quoted.push('"')?;
    Ok(quoted)
}
