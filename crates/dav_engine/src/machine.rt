//! Executes one request by its method, or several requests in order.
ghost use Rattle.std.specs.Prelude.{◌≡◌, Err, map, IfOk, OnErr};
ghost use Rattle.dav_resource.specs.Methods.{method_of};
ghost use Rattle.dav_engine.specs.DavInner.{seen_by};
ghost use Rattle.dav_engine.specs.Served.{IsServed, AreServed};
ghost use Rattle.dav_messages.specs.Reply.{answer_of};
ghost use Rattle.dav_engine.specs.ByEngine.{IsSameEngine};

use crate::DavInner;
use dav_resource::{Body, DavError, DavMethod, DavRequest, DavResult};
use dav_store::{DavLockSystem, GuardedFileSystem};
use http::{Response, StatusCode};

impl<'a, C: Drop, F: GuardedFileSystem<C>, L: DavLockSystem> DavInner<'a, C, F, L> {
    /// Executes a request by its method and returns the result. GET, HEAD and every method that `DavMethod`
    /// does not know give the error `Status` 501, and then nothing is called and nothing changes. The other
    /// errors are those of the method's own function. The methods passed to `new` do not restrict this
    /// function.
    pub fn serve(&mut self, request: &DavRequest) -> DavResult<Response<Body>>
        ensures same_engine { IsSameEngine self.old self.new }
        ensures step { IsServed F.seen L.seen (method_of request.entry.now.method) self.old request.entry.now (answer_of result) self.new }
    {
        let Some(method) = DavMethod::from_method(&request.method) else {
            return Err(DavError::Status(StatusCode::NOT_IMPLEMENTED));
        };
        match method {
            DavMethod::MkCol => self.handle_mkcol(request),
            DavMethod::Put | DavMethod::Patch => self.handle_put(request),
            DavMethod::Delete => self.handle_delete(request),
            DavMethod::Copy => self.handle_copy(request),
            DavMethod::Move => self.handle_move(request),
            DavMethod::Lock => self.handle_lock(request),
            DavMethod::Unlock => self.handle_unlock(request),
            DavMethod::PropPatch => self.handle_proppatch(request),
            DavMethod::Options => self.handle_options(request),
            DavMethod::PropFind => self.handle_propfind(request),
            _ => Err(DavError::Status(StatusCode::NOT_IMPLEMENTED)),
        }
    }

    /// Executes the requests in order and returns one result for each. The vector of results is allocated
    /// first: the only error is `Memory`, and then no request was executed.
    pub fn run(&mut self, requests: &[DavRequest]) -> DavResult<Vec<DavResult<Response<Body>>>>
        ensures same_engine { IsSameEngine self.old self.new }
        ensures run { IfOk result (λ replies. AreServed F.seen L.seen self.old requests.now (map answer_of replies.items) self.new) }
        ensures memory { OnErr result ((result ≡ Err DavError.Memory) × (seen_by F.seen L.seen self.new ≡ seen_by F.seen L.seen self.old)) }
    {
        let mut replies = Vec::with_capacity(*self.prefix.allocator(), requests.len())?;
        for request in requests {
            replies.push(self.serve(request)).unwrap();
        }
        Ok(replies)
    }
}
