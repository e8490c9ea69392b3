//! Tests that what a host calls of the frames succeeds, with the bytes that the grammar gives. What `davd` calls is
//! tried with its bytes by `tools/replay`.
use dav_resource::{Items, ReqBody};
use dav_wire::{Frame, ReadFrame, ReplyHeader, RequestFrame, WireError};
use std::alloc::{AllocError, Global};
use std::test::Fail;

/// A read of at most 3 bytes from the byte 258 on of `/a`, by the principal `p`, at the version `v`.
const READ: [u8; 47] = [
    4, 1, 0, 0, 0, 0, 0, 0, 0, 1, 112, 0, 0, 0, 0, 0, 0, 0, 2, 47, 97, 0, 0, 0, 0, 0, 0, 1, 2, 0,
    0, 0, 0, 0, 0, 0, 3, 1, 0, 0, 0, 0, 0, 0, 0, 1, 118,
];

/// `PUT /` with the token `t`, the field `A: b` and the body `x`, by nobody.
const PUT: [u8; 67] = [
    0, 0, 0, 0, 0, 0, 0, 0, 3, 80, 85, 84, 0, 0, 0, 0, 0, 0, 0, 1, 47, 0, 0, 0, 0, 0, 0, 0, 0, 1,
    116, 0, 0, 0, 0, 0, 0, 0, 1, 0, 0, 0, 0, 0, 0, 0, 1, 65, 0, 0, 0, 0, 0, 0, 0, 1, 98, 1, 0, 0,
    0, 0, 0, 0, 0, 1, 120,
];

/// Whether the frame is written as these bytes, and they are read as a frame that is written as the same.
fn is_written_as(alloc: Global, frame: &Frame, bytes: &[u8]) -> Result<bool, WireError> {
    let written = frame.encode(alloc)?;
    let read = Frame::decode(alloc, bytes)?;
    let again = read.encode(alloc)?;
    Ok(written.as_slice() == bytes && again.as_slice() == bytes)
}

#[test]
fn a_read_is_written_as_the_grammar_says(rt: HostRuntime) -> Result<(), Fail> {
    let frame = Frame::Read(ReadFrame {
        principal: Some("p"),
        path: "/a",
        place: 258,
        length: 3,
        version: Some("v"),
    });
    assert!(rt; is_written_as(rt.alloc(), &frame, &READ)?);
    Ok(())
}

/// A request with one field and these bytes as its body.
fn put<'a>(alloc: Global, body: &[u8]) -> Result<Frame<'a>, AllocError> {
    let mut fields: Vec<(&'a [u8], &'a [u8])> = Vec::new(alloc);
    fields.push((b"A", b"b"))?;
    let body = ReqBody::Bytes(Items::from_vec(body.to_vec(alloc)?));
    Ok(Frame::Request(RequestFrame {
        method: b"PUT",
        path: "/",
        principal: None,
        token: "t",
        fields,
        body,
    }))
}

#[test]
fn a_request_is_written_as_the_grammar_says(rt: HostRuntime) -> Result<(), Fail> {
    let frame = put(rt.alloc(), b"x")?;
    assert!(rt; is_written_as(rt.alloc(), &frame, &PUT)?);
    Ok(())
}

#[test]
fn the_header_of_replies_is_read(rt: HostRuntime) {
    let header = ReplyHeader {
        number: 258,
        status: 503,
        count: 3,
    };
    let bytes = [
        0, 0, 0, 0, 0, 0, 1, 2, 0, 0, 0, 0, 0, 0, 1, 247, 0, 0, 0, 0, 0, 0, 0, 3,
    ];
    assert!(rt; ReplyHeader::from_bytes(&bytes) == Ok(header));
}
