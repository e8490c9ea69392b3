//! Executes four WebDAV requests against a store and a lock system in memory, and prints the responses and
//! what is left. Then executes four without a lock system.
use crate::dav;
use crate::xml::document;
use anyhow::{Context, Result};
use dav_engine::{
    Body, DavInner, DavPath, DavRequest, DavResult, Element, Items, LockToken, ReqBody,
};
use dav_memls::MemLs;
use dav_tree::MemFs;
use http::{Method, Response};
use http_header::{HeaderMap, HeaderName, HeaderValue};
use std::alloc::Global;

/// Executes the requests of this file, and prints what the engine returns.
pub fn run(rt: &HostRuntime) -> Result<()> {
    let requests = requests(rt.alloc())?;
    let mut store = MemFs::new(rt.alloc())?;
    let mut locks = MemLs::new(rt.alloc());
    serve(rt, &mut store, &mut locks, requests.as_slice())?;
    println!(rt; "")?;
    let requests = requests_without_locks(rt.alloc())?;
    let mut store = MemFs::new(rt.alloc())?;
    serve_without_locks(rt, &mut store, requests.as_slice())
}

fn requests(alloc: Global) -> Result<Vec<DavRequest>> {
    let hi = b"hi".to_vec(alloc)?;
    let mut requests = Vec::new(alloc);
    requests.push(request(alloc, "MKCOL", "/d/", ReqBody::None)?)?;
    requests.push(request(alloc, "PUT", "/d/a", ReqBody::Bytes(Items::from_vec(hi)))?)?;
    requests.push(request(alloc, "LOCK", "/d/a", ReqBody::Tree(lock_info(alloc)?))?)?;
    requests.push(propfind(alloc, "/d/")?)?;
    Ok(requests)
}

/// Executes the requests. The engine borrows the store and the lock system for one lifetime.
fn serve<'a>(
    rt: &HostRuntime,
    store: &'a mut MemFs,
    locks: &'a mut MemLs,
    requests: &[DavRequest],
) -> Result<()> {
    // No prefix, all methods enabled, no credentials.
    let mut engine = DavInner::new(store, Some(locks), String::new(rt.alloc()), None, ());
    let replies = engine.run(requests)?;
    print_replies(rt, replies.as_slice())?;
    // Returns both, as the requests left them.
    let (store, _) = engine.finish();
    print_left(rt, store)
}

/// The LOCK of these fails with 405, without a lock system.
fn requests_without_locks(alloc: Global) -> Result<Vec<DavRequest>> {
    let hi = b"hi".to_vec(alloc)?;
    let mut requests = Vec::new(alloc);
    requests.push(request(alloc, "PUT", "/a", ReqBody::Bytes(Items::from_vec(hi)))?)?;
    requests.push(request(alloc, "LOCK", "/a", ReqBody::Tree(lock_info(alloc)?))?)?;
    requests.push(propfind(alloc, "/")?)?;
    requests.push(request(alloc, "DELETE", "/a", ReqBody::None)?)?;
    Ok(requests)
}

fn serve_without_locks<'a>(
    rt: &HostRuntime,
    store: &'a mut MemFs,
    requests: &[DavRequest],
) -> Result<()> {
    let mut engine = DavInner::new(
        store,
        None::<&'a mut MemLs>,
        String::new(rt.alloc()),
        None,
        (),
    );
    let replies = engine.run(requests)?;
    print_replies(rt, replies.as_slice())
}

fn request(alloc: Global, method: &str, path: &str, body: ReqBody) -> Result<DavRequest> {
    // The token of the lock that this request creates. A server makes a new one for each request.
    let token = String::from_str(alloc, "urn:lock:1")?;
    Ok(DavRequest {
        method: Method::from_bytes(alloc, method.as_bytes())?,
        path: DavPath::from_str_and_prefix(alloc, path, "")?,
        headers: HeaderMap::new(alloc),
        body,
        principal: None,
        token: LockToken::from_string(token).context("no lock token")?,
        now: 0,
    })
}

/// Builds the body of a LOCK that asks for an exclusive write lock. A server reads it from XML.
fn lock_info(alloc: Global) -> Result<Element> {
    let mut info = dav(alloc, "lockinfo")?;
    for (name, choice) in [("lockscope", "exclusive"), ("locktype", "write")] {
        let mut part = dav(alloc, name)?;
        part.push_element(dav(alloc, choice)?)?;
        info.push_element(part)?;
    }
    Ok(info)
}

/// Asks for two properties of a collection and of its members.
fn propfind(alloc: Global, path: &str) -> Result<DavRequest> {
    let mut request = request(alloc, "PROPFIND", path, ReqBody::Tree(asked(alloc)?))?;
    let depth = HeaderName::from_bytes(alloc, b"depth")?;
    request
        .headers
        .append(depth, HeaderValue::from_str(alloc, "1")?)?;
    Ok(request)
}

fn asked(alloc: Global) -> Result<Element> {
    let mut names = dav(alloc, "prop")?;
    for name in ["getcontentlength", "getetag"] {
        names.push_element(dav(alloc, name)?)?;
    }
    let mut asked = dav(alloc, "propfind")?;
    asked.push_element(names)?;
    Ok(asked)
}

fn print_replies(rt: &HostRuntime, replies: &[DavResult<Response<Body>>]) -> Result<()> {
    for reply in replies {
        match reply {
            Ok(reply) => print_reply(rt, reply)?,
            Err(error) => println!(rt; "{}", error.statuscode())?,
        }
    }
    Ok(())
}

fn print_left(rt: &HostRuntime, store: &MemFs) -> Result<()> {
    for (path, _, _) in &store.dump()? {
        println!(rt; "left: {}", path.as_url_string()?)?;
    }
    Ok(())
}

fn print_reply(rt: &HostRuntime, reply: &Response<Body>) -> Result<()> {
    println!(rt; "{}", reply.status())?;
    if let Some(token) = reply.headers().get("lock-token") {
        println!(rt; "lock-token: {}", token.to_str()?)?;
    }
    if let Body::Tree(tree) = reply.body() {
        print!(rt; "{}", document(rt.alloc(), tree)?)?;
    }
    Ok(())
}
