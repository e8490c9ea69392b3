//! A server's state, and how it serves one request after another.
use dav_engine::{
    Body, DavError, DavInner, DavMethod, DavRequest, DavResult, FsResult, GuardedFileSystem,
    UpdateRange, read_content_range, read_update_range,
};
use dav_memls::MemLs;
use dav_tree::MemFs;
use http::{Response, StatusCode};
use std::alloc::Global;

/// The largest offset, in bytes, at which a partial update may begin. A write past the end of a file fills the
/// gap with zeros, and a store in memory allocates them.
const MAX_OFFSET: u64 = 1 << 30;

/// The state of a server: the documents and the locks.
#[derive(Drop)]
pub struct Server {
    alloc: Global,
    store: MemFs,
    locks: MemLs,
}

impl Server {
    /// Creates a server that has only the root collection. Fails only if memory runs out.
    pub fn new(alloc: Global) -> FsResult<Server> {
        Ok(Server {
            alloc,
            store: MemFs::new(alloc)?,
            locks: MemLs::new(alloc),
        })
    }

    /// Executes one request. Removes the locks that have expired by its time first, and empties the log afterwards.
    ///
    /// A partial update past `MAX_OFFSET` fails with 507. Every other error is the engine's.
    pub fn serve(&mut self, request: &DavRequest) -> DavResult<Response<Body>> {
        self.store.set_now(request.now);
        self.locks.expire(request.now);
        if writes_too_far(request) {
            return Err(DavError::StatusClose(StatusCode::INSUFFICIENT_STORAGE));
        }
        let result = answer(self.alloc, &mut self.store, &mut self.locks, request);
        GuardedFileSystem::<()>::clear_log(&mut self.store);
        result
    }
}

/// Executes a request. The engine borrows the store and the lock system for one lifetime.
fn answer<'a>(
    alloc: Global,
    store: &'a mut MemFs,
    locks: &'a mut MemLs,
    request: &DavRequest,
) -> DavResult<Response<Body>> {
    // No prefix, `Allow` may list all methods, no credentials for the store.
    let mut engine = DavInner::new(store, Some(locks), String::new(alloc), None, ());
    engine.serve(request)
}

/// Whether the request is a partial update that begins past `MAX_OFFSET`. Headers that cannot be parsed are left to
/// the engine, which rejects them.
fn writes_too_far(request: &DavRequest) -> bool {
    let method = DavMethod::from_method(&request.method);
    if !matches!(method, Some(DavMethod::Put | DavMethod::Patch)) {
        return false;
    }
    let first = match (
        read_content_range(&request.headers),
        read_update_range(&request.headers),
    ) {
        (Ok(Some(range)), _) => range.first,
        (_, Ok(Some(UpdateRange::FromTo(first, _) | UpdateRange::AllFrom(first)))) => first,
        _ => 0,
    };
    first > MAX_OFFSET
}
