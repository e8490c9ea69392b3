//! The responses to LOCK and UNLOCK.
ghost use Rattle.std.specs.Prelude.{◌≡◌, if◌then◌else◌, is_some, [], IfOk, IfErr};
ghost use Rattle.dav_resource.specs.declared.error.DavError.TheVariants.{Memory};
ghost use Rattle.dav_messages.specs.Reply.{reply_of};
ghost use Rattle.dav_engine.specs.LockReply.{lock_reply as reply_of_lock, granted_reply as reply_of_granted, refreshed_reply as reply_of_refreshed, unlocked_reply as reply_of_unlocked};

use crate::location::add_location;
use dav_messages::{add_header, header_value, lock_prop, xml_headers};
use dav_resource::{Body, DavPath, DavRequest, DavResult, Meta, Profile};
use dav_store::DavLock;
use http::{Response, StatusCode};
use http_header::{HeaderMap, HeaderName, HeaderValue};
use std::alloc::Global;

/// Makes the response to a LOCK that was granted (RFC 4918, section 9.10.1): 200 if something was found, else
/// 201, with the request's token in `Lock-Token`. The only error is `Memory`.
pub(crate) fn granted_reply(
    alloc: Global,
    profile: Profile,
    request: &DavRequest,
    found: &Option<Meta>,
    lock: &DavLock,
) -> DavResult<Response<Body>>
    ensures ok { IfOk result (λ reply. reply_of reply ≡ reply_of_granted profile request.entry.now found.now lock.now) }
    ensures err { IfErr result (λ e. e ≡ Memory) }
{
    let mut headers = xml_headers(alloc, profile)?;
    let token = header_value(request.token.coded()?)?;
    add_header(
        &mut headers,
        HeaderName::from_static("lock-token"),
        Some(token),
    )?;
    add_location(&mut headers, &request.path, found)?;
    lock_reply(alloc, profile, granted_status(found), headers, lock)
}

/// Returns 200 if something was found, else 201.
fn granted_status(found: &Option<Meta>) -> StatusCode
    ensures { result ≡ (if is_some found.now then 200 else 201) }
{
    match found {
        Some(_) => StatusCode::OK,
        None => StatusCode::CREATED,
    }
}

/// Makes the response to a LOCK that refreshed a lock (RFC 4918, section 9.10.2). The only error is `Memory`.
pub(crate) fn refreshed_reply(
    alloc: Global,
    profile: Profile,
    path: &DavPath,
    found: &Option<Meta>,
    lock: &DavLock,
) -> DavResult<Response<Body>>
    ensures ok { IfOk result (λ reply. reply_of reply ≡ reply_of_refreshed profile path.now found.now lock.now) }
    ensures err { IfErr result (λ e. e ≡ Memory) }
{
    let mut headers = xml_headers(alloc, profile)?;
    add_location(&mut headers, path, found)?;
    lock_reply(alloc, profile, StatusCode::OK, headers, lock)
}

/// Makes the response to an UNLOCK (RFC 4918, section 9.11). The only error is `Memory`.
pub(crate) fn unlocked_reply(
    alloc: Global,
    path: &DavPath,
    found: &Option<Meta>,
) -> DavResult<Response<Body>>
    ensures ok { IfOk result (λ reply. reply_of reply ≡ reply_of_unlocked path.now found.now) }
    ensures err { IfErr result (λ e. e ≡ Memory) }
{
    let mut headers = HeaderMap::new(alloc);
    add_location(&mut headers, path, found)?;
    let mut reply = Response::new(alloc, Body::Empty);
    *reply.status_mut() = StatusCode::NO_CONTENT;
    *reply.headers_mut() = headers;
    Ok(reply)
}

/// Makes a response of this status and with these header fields, whose body has the lock in full. The only
/// error is `Memory`.
fn lock_reply(
    alloc: Global,
    profile: Profile,
    status: StatusCode,
    headers: HeaderMap<HeaderValue>,
    lock: &DavLock,
) -> DavResult<Response<Body>>
    ensures ok { IfOk result (λ reply. reply_of reply ≡ record (reply_of_lock profile status [] lock.now) { headers = headers }) }
    ensures err { IfErr result (λ e. e ≡ Memory) }
{
    let tree = lock_prop(alloc, profile, lock, true)?;
    let mut reply = Response::new(alloc, Body::Tree(tree));
    *reply.status_mut() = status;
    *reply.headers_mut() = headers;
    Ok(reply)
}
