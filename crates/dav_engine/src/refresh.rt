//! LOCK that refreshes a lock (RFC 4918, section 9.10.2).
ghost use Rattle.std.specs.Prelude.{◌≡◌, ◌∷◌, [], true, false, if◌then◌else◌, IfOk, IfErr, OnOk, Ok, Err, Some};
ghost use Rattle.dav_resource.specs.declared.error.DavError.TheVariants.{Status};
ghost use Rattle.dav_resource.specs.declared.method.DavMethod.TheVariants.{Lock};
ghost use Rattle.dav_messages.specs.Conditions.{submitted_tokens};
ghost use Rattle.dav_messages.specs.Reply.{answer_of};
ghost use Rattle.dav_engine.specs.DavInner.{lent_locks, bodies_by, has_locks};
ghost use Rattle.dav_engine.specs.Served.{IsServed};
ghost use Rattle.dav_engine.specs.Locking.{is_refresh as is_refresh_body, one_token as one_token_of, refresh_rules, RefreshesAsked, LacksLock, RefreshWork, RefreshCut};
ghost use Rattle.dav_engine.specs.Rules.{found_in};
ghost use Rattle.dav_engine.specs.ByEngine.{IsSameEngine, JudgesBy, WorkBy, LocksChange, LocksRefuse};

use crate::DavInner;
use crate::judge::where_permitted;
use crate::lock::get_timeout;
use crate::lock_calls::lock_error;
use crate::lock_reply::refreshed_reply;
use dav_resource::{Body, DavError, DavRequest, DavResult, Meta, Text};
use dav_store::{DavLock, DavLockSystem, GuardedFileSystem};
use http::{Response, StatusCode};

impl<'a, C: Drop, F: GuardedFileSystem<C>, L: DavLockSystem> DavInner<'a, C, F, L> {
    /// Executes a refresh: first the rules, and then the work.
    pub(crate) fn refresh(&mut self, request: &DavRequest) -> DavResult<Response<Body>>
        requires body { is_refresh_body (bodies_by F.seen self.old) request.now.body ≡ true }
        ensures same_engine { IsSameEngine self.old self.new }
        ensures step { IsServed F.seen L.seen (Some Lock) self.old request.entry.now (answer_of result) self.new }
    {
        let (found, token) = self.judge_refresh(request)?;
        self.refresh_lock(request, found, &token)
    }

    /// Checks the rules of a refresh: looks up the path, reads the header `If`, and checks the locks of the
    /// path. Returns what was found, and the token.
    fn judge_refresh(&mut self, request: &DavRequest) -> DavResult<(Option<Meta>, Text)>
        ensures same_engine { IsSameEngine self.old self.new }
        ensures same_locks { lent_locks self.new ≡ lent_locks self.old }
        ensures locks { OnOk result (has_locks self.old ≡ true) }
        ensures token { IfOk result (λ passed. submitted_tokens request.entry.now ≡ passed.1 ∷ []) }
        ensures rules { JudgesBy F.seen L.seen (refresh_rules request.entry.now) self.old (found_in result) self.new }
    {
        let found = self.look_up_to_lock(request)?;
        let (_, tokens) = self.judge_if(request)?;
        let token = one_token(tokens.as_slice())?;
        let permitted = self.is_permitted(request, tokens.as_slice(), &request.path, false);
        Ok((
            where_permitted(StatusCode::PRECONDITION_FAILED, permitted, found)?,
            token.clone()?,
        ))
    }

    /// The work of a refresh: renews the lock and makes the response.
    fn refresh_lock(
        &mut self,
        request: &DavRequest,
        found: Option<Meta>,
        token: &Text,
    ) -> DavResult<Response<Body>>
        requires locks { has_locks self.old ≡ true }
        requires token { submitted_tokens request.now ≡ token.now ∷ [] }
        ensures same_engine { IsSameEngine self.old self.new }
        ensures work { WorkBy F.seen L.seen (RefreshWork self.old.profile request.entry.now found) (RefreshCut request.entry.now) self.old (answer_of result) self.new }
    {
        let lock = self.renew_lock(request, token)?;
        let alloc = *self.prefix.allocator();
        refreshed_reply(alloc, self.profile, &request.path, &found, &lock)
    }

    /// Has the lock system give the lock its new timeout, which is that of an exclusive lock, whatever the
    /// lock is.
    fn renew_lock(&mut self, request: &DavRequest, token: &Text) -> DavResult<DavLock>
        requires locks { has_locks self.old ≡ true }
        ensures same_engine { IsSameEngine self.old self.new }
        ensures refreshed { IfOk result (λ lock. LocksChange F.seen L.seen (RefreshesAsked request.entry.now token.now lock) self.old self.new) }
        ensures refused { IfErr result (λ e. LocksRefuse F.seen L.seen (LacksLock request.entry.now token.now) 412 e self.old self.new) }
    {
        let timeout = get_timeout(request, true, false);
        let Some(ls) = &mut self.ls else {
            return Err(DavError::Status(StatusCode::PRECONDITION_FAILED));
        };
        match ls.refresh(&request.path, token.as_str(), timeout, request.now) {
            Ok(lock) => Ok(lock),
            Err(error) => Err(lock_error(StatusCode::PRECONDITION_FAILED, error)),
        }
    }
}

/// Returns the only token. Without one, or with several, rejects the request with 400.
fn one_token(tokens: &[Text]) -> DavResult<&Text>
    ensures ok { IfOk result (λ token. one_token_of tokens.now ≡ Ok token.now) }
    ensures err { IfErr result (λ e. one_token_of tokens.now ≡ Err e) }
{
    match tokens {
        [token] => Ok(token),
        _ => Err(DavError::Status(StatusCode::BAD_REQUEST)),
    }
}
