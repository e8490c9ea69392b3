//! UNLOCK (RFC 4918, section 9.11).
ghost use Rattle.std.specs.Prelude.{◌≡◌, true, IfOk, IfErr, OnOk, Some, None};
ghost use Rattle.dav_resource.specs.declared.error.DavError.TheVariants.{Status};
ghost use Rattle.dav_resource.specs.declared.method.DavMethod.TheVariants.{Unlock};
ghost use Rattle.dav_headers.specs.LockToken.{lock_token_of};
ghost use Rattle.dav_messages.specs.Reply.{answer_of};
ghost use Rattle.dav_engine.specs.DavInner.{lent_locks, has_locks};
ghost use Rattle.dav_engine.specs.Served.{IsServed};
ghost use Rattle.dav_engine.specs.Rules.{found_in};
ghost use Rattle.dav_engine.specs.Unlocking.{unlock_rules};
ghost use Rattle.dav_engine.specs.ByEngine.{IsSameEngine, JudgesBy, DoesWork};
ghost use Rattle.dav_engine.specs.Methods.{unlock_method};

use crate::DavInner;
use crate::lock_reply::unlocked_reply;
use dav_headers::read_lock_token;
use dav_resource::{Body, DavError, DavRequest, DavResult, Meta};
use dav_store::{DavLockSystem, GuardedFileSystem};
use http::{Response, StatusCode};
use http_header::{HeaderMap, HeaderValue};

impl<'a, C: Drop, F: GuardedFileSystem<C>, L: DavLockSystem> DavInner<'a, C, F, L> {
    /// Removes the lock that `Lock-Token` names, at the path or above it, and returns 204. Conditions, the
    /// principal and Depth are not checked. Executes any request as UNLOCK, whatever its method.
    ///
    /// Errors: 405 without a lock system, 400 without a `Lock-Token` that can be read, 409 if there is no
    /// such lock or if a lock system whose `unlock` is not reliable fails to remove it, and `Memory`. After
    /// each of them nothing has changed.
    pub fn handle_unlock(&mut self, request: &DavRequest) -> DavResult<Response<Body>>
        ensures same_engine { IsSameEngine self.old self.new }
        ensures step { IsServed F.seen L.seen (Some Unlock) self.old request.entry.now (answer_of result) self.new }
    {
        let (found, token) = self.judge_unlock(request)?;
        self.unlock(request, found, token)
    }

    /// Checks the rules: whether there is a lock system, and the token. Then looks up the path. Returns what
    /// was found, and the token.
    fn judge_unlock<'r>(&mut self, request: &'r DavRequest) -> DavResult<(Option<Meta>, &'r str)>
        ensures same_engine { IsSameEngine self.old self.new }
        ensures same_locks { lent_locks self.new ≡ lent_locks self.old }
        ensures locks { OnOk result (has_locks self.old ≡ true) }
        ensures token { IfOk result (λ passed. lock_token_of request.entry.now.headers ≡ Some passed.1.now) }
        ensures rules { JudgesBy F.seen L.seen (unlock_rules request.entry.now) self.old (found_in result) self.new }
    {
        self.judge_locks()?;
        let token = named_token(&request.headers)?;
        Ok((self.look_up(&request.path)?, token))
    }

    /// The work. The response is made first, so that memory cannot run out after the lock was removed.
    fn unlock(
        &mut self,
        request: &DavRequest,
        found: Option<Meta>,
        token: &str,
    ) -> DavResult<Response<Body>>
        requires locks { has_locks self.old ≡ true }
        requires token { lock_token_of request.now.headers ≡ Some token.now }
        ensures same_engine { IsSameEngine self.old self.new }
        ensures work { DoesWork F.seen L.seen unlock_method request.entry.now found self.old (answer_of result) self.new }
    {
        let reply = unlocked_reply(*self.prefix.allocator(), &request.path, &found)?;
        if self.remove_lock(&request.path, token) {
            Ok(reply)
        } else {
            Err(DavError::Status(StatusCode::CONFLICT))
        }
    }
}

/// Returns the token that `Lock-Token` names. Without one the request is rejected with 400.
fn named_token(headers: &HeaderMap<HeaderValue>) -> DavResult<&str>
    ensures ok { IfOk result (λ token. lock_token_of headers.now ≡ Some token.now) }
    ensures err { IfErr result (λ e. (e ≡ Status 400) × (lock_token_of headers.now ≡ None)) }
{
    match read_lock_token(headers)? {
        Some(token) => Ok(token),
        None => Err(DavError::Status(StatusCode::BAD_REQUEST)),
    }
}
