//! Replies to frames.
ghost use Rattle.std.specs.Prelude.{◌≡◌, IfOk, map, option_map};
ghost use Rattle.http_header.specs.HeaderMap.{pairs};
ghost use Rattle.dav_messages.specs.Reply.{answer_of};
ghost use Rattle.dav_wire.specs.Views.{reply_of as value_of, response_frame_of, behind, field_of as borrowed_field};
ghost use Rattle.dav_wire.specs.Replies as replies;
ghost use Rattle.dav_server.specs.Events.{started_reply};
ghost use Rattle.dav_server.specs.Frames.{Encodes};
ghost use Rattle.dav_server.specs.Replies.{response_of, field_of, tree_of as tree_in};

use dav_resource::{Body, BodyNumber, DavResult, Element, FsResult};
use dav_wire::{Reply, ResponseFrame};
use http::{Response, StatusCode};
use http_header::{HeaderMap, HeaderValue};
use std::alloc::{AllocError, Global};

/// Returns the encoding of a reply. Returns `None` if memory runs out, or if the reply's tree has too many levels.
pub fn encode(alloc: Global, reply: &Reply<'_>) -> Option<Vec<u8>>
    ensures { Encodes (value_of reply.now) (option_map (λ bytes. bytes.items) result) }
{
    match reply.encode(alloc) {
        Ok(bytes) => Some(bytes),
        Err(_) => None,
    }
}

/// Returns the reply to a frame that failed with this status.
pub fn failed(status: StatusCode) -> Reply<'static>
    ensures { value_of result ≡ replies.Failed status }
{
    Reply::Failed(status.as_u16())
}

/// Returns the reply after a body is started.
pub fn started(begun: FsResult<BodyNumber>) -> Reply<'static>
    ensures { value_of result ≡ started_reply begun }
{
    match begun {
        Ok(number) => Reply::BodyStarted(number),
        Err(error) => failed(error.statuscode()),
    }
}

/// Returns the encoding of the reply to a request. Returns `None` as `encode` does.
pub fn encode_answer(alloc: Global, answer: &DavResult<Response<Body>>) -> Option<Vec<u8>>
    ensures { Encodes (replies.Response (response_of (answer_of answer.now))) (option_map (λ bytes. bytes.items) result) }
{
    let reply = response_frame(alloc, answer).ok()?;
    encode(alloc, &Reply::Response(reply))
}

/// Returns the frame of a response, or of an error. Fails only if memory runs out.
fn response_frame<'r>(
    alloc: Global,
    answer: &'r DavResult<Response<Body>>,
) -> Result<ResponseFrame<'r>, AllocError>
    ensures { IfOk result (λ frame. response_frame_of frame ≡ response_of (answer_of answer.now)) }
{
    match answer {
        Ok(response) => Ok(ResponseFrame {
            status: response.status().as_u16(),
            close: false,
            fields: fields_of(alloc, response.headers())?,
            tree: tree_of(response.body()),
        }),
        Err(error) => Ok(ResponseFrame {
            status: error.statuscode().as_u16(),
            close: error.must_close(),
            fields: Vec::new(alloc),
            tree: None,
        }),
    }
}

/// Returns the header fields, in order. Fails only if memory runs out.
fn fields_of<'r>(
    alloc: Global,
    headers: &'r HeaderMap<HeaderValue>,
) -> Result<Vec<(&'r [u8], &'r [u8])>, AllocError>
    ensures { IfOk result (λ fields. map borrowed_field fields.items ≡ map field_of (pairs headers.now)) }
{
    let mut fields = Vec::with_capacity(alloc, headers.len())?;
    for (name, value) in headers.iter() {
        fields.push((name.as_str().as_bytes(), value.as_bytes()))?;
    }
    Ok(fields)
}

/// Returns the root of a body's tree, if there is one.
fn tree_of(body: &Body) -> Option<&Element>
    ensures { behind result ≡ tree_in body.now }
{
    match body {
        Body::Tree(tree) => Some(tree),
        Body::Empty => None,
    }
}
