//! Prints a response, and what the store and the lock system hold at the end.
use crate::blocks::Block;
use crate::outline_write::outline;
use crate::quote::push_quoted_bytes;
use crate::trouble::Stopped;
use dav_memls::MemLs;
use dav_messages::timeout_text;
use dav_resource::{Body, DavProp, DavResult};
use dav_store::DavLock;
use dav_tree::MemFs;
use http::{Response, StatusCode};
use http_header::{HeaderMap, HeaderName, HeaderValue};
use std::alloc::{AllocError, Global};
use std::io::Write;

/// Returns the line that is printed for a block: its request line, as written in the script.
pub fn request_line(alloc: Global, block: &Block) -> Result<String, AllocError> {
    let method = block.method.as_str();
    let path = block.path.as_str();
    format!(in alloc; "> {method} {path}")
}

/// Prints a response: its status, its headers in the order of their names, and the outline of its tree. Of an
/// error only the status is printed.
pub fn print_reply<O: Write>(
    alloc: Global,
    output: &mut O,
    reply: &DavResult<Response<Body>>,
) -> Result<(), Stopped> {
    match reply {
        Ok(reply) => {
            print_status(output, reply.status())?;
            print_headers(alloc, output, reply.headers())?;
            if let Body::Tree(tree) = reply.body() {
                output.write_all(outline(alloc, tree)?.as_bytes())?;
            }
        }
        Err(error) => print_status(output, error.statuscode())?,
    }
    Ok(())
}

/// Prints a status with its reason phrase, if it has one.
fn print_status<O: Write>(output: &mut O, status: StatusCode) -> Result<(), Stopped> {
    let code = status.as_u16();
    match status.canonical_reason() {
        Some(phrase) => writeln!(output, "{code} {phrase}")?,
        None => writeln!(output, "{code}")?,
    }
    Ok(())
}

/// Prints the headers in the order of their names, and the values of one name in their own order.
fn print_headers<O: Write>(
    alloc: Global,
    output: &mut O,
    headers: &HeaderMap<HeaderValue>,
) -> Result<(), Stopped> {
    let mut fields: Vec<(&HeaderName, &HeaderValue)> = headers.iter().collect(alloc)?;
    fields.sort_by(|one, other| one.0.as_str().cmp(other.0.as_str()))?;
    for (name, value) in &fields {
        output.write_all(name.as_bytes())?;
        output.write_all(b": ")?;
        output.write_all(value.as_bytes())?;
        output.write_all(b"\n")?;
    }
    Ok(())
}

/// Prints the resources, in the order of their paths as printed, and then the locks, in the order of their
/// tokens.
pub fn print_end<O: Write>(
    alloc: Global,
    output: &mut O,
    store: &MemFs,
    locks: &MemLs,
) -> Result<(), Stopped> {
    output.write_all(b"resources\n")?;
    let mut lines = resource_lines(alloc, store)?;
    lines.sort_by(|one, other| one.0.as_str().cmp(other.0.as_str()))?;
    for (path, rest) in &lines {
        output.write_all(path.as_bytes())?;
        output.write_all(rest.as_bytes())?;
    }
    print_locks(alloc, output, locks)
}

/// Prints a line for each lock, in the order of their tokens.
fn print_locks<O: Write>(alloc: Global, output: &mut O, locks: &MemLs) -> Result<(), Stopped> {
    output.write_all(b"locks\n")?;
    let mut locks: Vec<&DavLock> = locks.locks().collect(alloc)?;
    locks.sort_by(|one, other| one.token.as_str().cmp(other.token.as_str()))?;
    for lock in &locks {
        let text = lock_text(alloc, lock)?;
        writeln!(output, "{text}")?;
    }
    Ok(())
}

/// Returns the line that is printed for a lock: its token, whether it is exclusive or shared, its depth, its
/// path and its timeout.
pub fn lock_text(alloc: Global, lock: &DavLock) -> Result<String, AllocError> {
    let token = lock.token.as_str();
    let scope = if lock.shared { "shared" } else { "exclusive" };
    let depth = if lock.deep { "infinity" } else { "0" };
    let path = lock.path.as_url_string()?;
    let timeout = timeout_text(alloc, lock.timeout)?;
    format!(in alloc; "{token} {scope} {depth} {path} {timeout}")
}

/// Returns each resource's path as printed, and the rest of its lines: a file's bytes, and the names of the
/// properties.
fn resource_lines(alloc: Global, store: &MemFs) -> Result<Vec<(String, String)>, Stopped> {
    let mut lines = Vec::new(alloc);
    for (path, bytes, properties) in store.dump()? {
        let mut rest = String::new(alloc);
        if let Some(bytes) = bytes {
            rest.push(' ')?;
            push_quoted_bytes(&mut rest, bytes.as_slice())?;
        }
        rest.push('\n')?;
        for property in &properties {
            push_property(&mut rest, property)?;
        }
        lines.push((path.as_url_string()?, rest))?;
    }
    Ok(lines)
}

/// Appends the line of a property: its namespace and its name.
fn push_property(lines: &mut String, property: &DavProp) -> Result<(), AllocError> {
    lines.push_str("  {")?;
    if let Some(namespace) = &property.namespace {
        lines.push_str(namespace.as_str())?;
    }
    lines.push('}')?;
    lines.push_str(property.name.as_str())?;
    lines.push('\n')
}
