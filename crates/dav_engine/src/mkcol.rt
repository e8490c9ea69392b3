//! MKCOL (RFC 4918, section 9.3).
ghost use Rattle.std.specs.Prelude.{◌≡◌, IfOk, IfErr, Some};
ghost use Rattle.dav_resource.specs.declared.method.DavMethod.TheVariants.{MkCol};
ghost use Rattle.dav_engine.specs.DavInner.{lent_locks};
ghost use Rattle.dav_engine.specs.Served.{IsServed};
ghost use Rattle.dav_messages.specs.Reply.{reply_of, answer_of};
ghost use Rattle.dav_engine.specs.Mkcol.{mkcol_error as error_of_mkcol, mkcol_reply as reply_of_mkcol, mkcol_location as location_of_mkcol, MkcolWork};
ghost use Rattle.dav_engine.specs.Answered.{Unbegun};
ghost use Rattle.dav_engine.specs.ByEngine.{IsSameEngine, StoreWorkBy};

use crate::DavInner;
use dav_messages::{add_header, header_value};
use dav_resource::{Body, DavError, DavPath, DavRequest, DavResult, FsError};
use dav_store::{DavLockSystem, GuardedFileSystem};
use http::{Response, StatusCode};
use http_header::{CONTENT_LOCATION, HeaderMap, HeaderValue};
use std::alloc::Global;

impl<'a, C: Drop, F: GuardedFileSystem<C>, L: DavLockSystem> DavInner<'a, C, F, L> {
    /// Creates a collection and returns 201, with its path in `content-location` if the request's path ended
    /// in a slash. The body is not checked. Executes any request as MKCOL, whatever its method.
    ///
    /// Errors, checked in this order. After each of them, and after `Memory`, the store's contents and the
    /// locks are as before.
    /// - The status of a condition that does not hold (RFC 7232; RFC 4918, section 10.4).
    /// - 423 if the locks do not permit the request.
    /// - 405 if something is at the path, 409 if its parent is not a collection, else the store's error.
    pub fn handle_mkcol(&mut self, request: &DavRequest) -> DavResult<Response<Body>>
        ensures same_engine { IsSameEngine self.old self.new }
        ensures step { IsServed F.seen L.seen (Some MkCol) self.old request.entry.now (answer_of result) self.new }
    {
        self.judge_shallow(request)?;
        self.make_collection(request)
    }

    /// The work. The response is made first, so that memory cannot run out after the collection was created.
    fn make_collection(&mut self, request: &DavRequest) -> DavResult<Response<Body>>
        ensures same_engine { IsSameEngine self.old self.new }
        ensures same_locks { lent_locks self.new ≡ lent_locks self.old }
        ensures work { StoreWorkBy F.seen (MkcolWork request.entry.now) Unbegun self.old (answer_of result) self.new }
    {
        let reply = mkcol_reply(*self.prefix.allocator(), &request.path)?;
        match self.fs.create_dir(&request.path, &self.credentials) {
            Ok(()) => Ok(reply),
            Err(error) => Err(mkcol_error(error)),
        }
    }
}

fn mkcol_error(error: FsError) -> DavError
    ensures { result ≡ error_of_mkcol error }
{
    match error {
        FsError::Exists => DavError::Status(StatusCode::METHOD_NOT_ALLOWED),
        FsError::NotFound => DavError::Status(StatusCode::CONFLICT),
        error => error.into(),
    }
}

fn mkcol_reply(alloc: Global, path: &DavPath) -> DavResult<Response<Body>>
    ensures ok { IfOk result (λ reply. reply_of reply ≡ reply_of_mkcol path.now) }
    ensures err { IfErr result (λ e. e ≡ DavError.Memory) }
{
    let mut headers = HeaderMap::new(alloc);
    add_header(&mut headers, CONTENT_LOCATION, collection_location(path)?)?;
    let mut reply = Response::new(alloc, Body::Empty);
    *reply.status_mut() = StatusCode::CREATED;
    *reply.headers_mut() = headers;
    Ok(reply)
}

/// Returns the path with its prefix, if it ends in a slash.
fn collection_location(path: &DavPath) -> DavResult<Option<HeaderValue>>
    ensures ok { IfOk result (λ value. value ≡ location_of_mkcol path.now) }
    ensures err { IfErr result (λ e. e ≡ DavError.Memory) }
{
    if path.is_collection() {
        Ok(Some(header_value(path.with_prefix()?.as_url_string()?)?))
    } else {
        Ok(None)
    }
}
