//! A program that calls the engine directly (`library`), and then serves HTTP/1.1 requests with it: bytes to requests,
//! responses to bytes, locks that expire. docs/EMBEDDING.md explains it part by part.
#![tactic(auto)]

mod library;
mod message;
mod server;
mod tree_builder;
mod xml;

use anyhow::{Context, Result};
use dav_engine::{Element, Items, LockToken, ReqBody};
use message::{Arrival, read_request, write_response};
use server::Server;
use std::alloc::Global;
use std::io::Write;
use tree_builder::TreeBuilder;

const PUT: &[u8] = b"PUT /a HTTP/1.1\r\nHost: h\r\nContent-Length: 2\r\n\r\n";

const PROPFIND: &[u8] = b"PROPFIND / HTTP/1.1\r\nHost: h\r\nDepth: 0\r\n\r\n";

const LOCK: &[u8] = b"LOCK /a HTTP/1.1\r\nHost: h\r\nTimeout: Second-60\r\n\r\n";

const DELETE: &[u8] = b"DELETE /a HTTP/1.1\r\nHost: h\r\n\r\n";

fn main(rt: HostRuntime) -> Result<()> {
    library::run(&rt)?;
    println!(rt; "")?;
    let alloc = rt.alloc();
    let mut server = Server::new(alloc)?;
    let hi = Items::from_vec(b"hi".to_vec(alloc)?);
    let lock = lock_body(alloc)?;
    exchange(&rt, &mut server, 0, PUT, ReqBody::Bytes(hi))?;
    exchange(&rt, &mut server, 0, PROPFIND, ReqBody::None)?;
    exchange(&rt, &mut server, 0, LOCK, lock)?;
    // The lock lasts 60 seconds: a request without its token fails at 59 seconds, and succeeds at 60.
    exchange(&rt, &mut server, 59, DELETE, ReqBody::None)?;
    exchange(&rt, &mut server, 60, DELETE, ReqBody::None)
}

/// Reads a request that arrives at this time, serves it, and prints the response.
fn exchange(
    rt: &HostRuntime,
    server: &mut Server,
    now: u64,
    head: &[u8],
    body: ReqBody,
) -> Result<()> {
    let alloc = rt.alloc();
    let response = match read_request(alloc, head, body, arrival(alloc, now)?) {
        Ok(request) => server.serve(&request),
        Err(error) => Err(error),
    };
    let message = write_response(alloc, &response)?;
    rt.stdout().write_all(message.as_slice())?;
    Ok(())
}

/// What the server supplies with each request. No user has signed in here.
fn arrival(alloc: Global, now: u64) -> Result<Arrival> {
    // Only one lock is created here. A server generates a new random token for each request.
    let token = String::from_str(alloc, "urn:uuid:0f4b2f6e-1f0a-4a0b-9a53-5d1f6c1f2a01")?;
    Ok(Arrival {
        principal: None,
        token: LockToken::from_string(token).context("no lock token")?,
        now,
    })
}

/// Builds the body of a LOCK for an exclusive write lock, from the events that an XML parser would report.
fn lock_body(alloc: Global) -> Result<ReqBody> {
    let mut builder = TreeBuilder::new(alloc);
    builder.start(dav(alloc, "lockinfo")?)?;
    for (name, choice) in [("lockscope", "exclusive"), ("locktype", "write")] {
        builder.start(dav(alloc, name)?)?;
        builder.start(dav(alloc, choice)?)?;
        builder.end()?;
        builder.end()?;
    }
    builder.end()?;
    Ok(builder.finish())
}

/// Creates an element of the namespace `DAV:`.
fn dav(alloc: Global, name: &str) -> Result<Element> {
    Ok(Element::new(alloc, name)?.with_namespace("DAV:")?)
}
