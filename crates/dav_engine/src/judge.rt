//! The checks before a request changes anything: its conditions and the locks.
ghost use Rattle.std.specs.Prelude.{◌≡◌, if◌then◌else◌, Ok, Err, IfOk, option_map, option_copied};
ghost use Rattle.dav_resource.specs.declared.error.DavError.TheVariants.{Status};
ghost use Rattle.dav_messages.specs.Dialogue.{map_error};
ghost use Rattle.dav_messages.specs.Conditions.{submitted_tokens};
ghost use Rattle.dav_engine.specs.DavInner.{lent_locks, state_by};
ghost use Rattle.dav_engine.specs.Rules.{permits_by, own_conditions, own_if_match, own_if, path_rules, shallow_rules, holding, depth_or_all as depth_or_all_of, depth_verdict, is_deep as includes_all, closing as closing_error};
ghost use Rattle.dav_engine.specs.ByEngine.{IsSameEngine, JudgesBy};

use crate::DavInner;
use dav_headers::read_depth;
use dav_messages::{dav_if_match, if_match, if_match_get_tokens};
use dav_resource::{DavError, DavPath, DavRequest, DavResult, Depth, Items, Meta, Text};
use dav_store::{DavLockSystem, GuardedFileSystem};
use http::StatusCode;

impl<'a, C: Drop, F: GuardedFileSystem<C>, L: DavLockSystem> DavInner<'a, C, F, L> {
    /// Checks the rules of a request that changes only the resource at its path: looks up the path, then
    /// checks the conditions and the locks of the path. A failed lookup counts as nothing there. Returns what
    /// was found.
    pub(crate) fn judge_shallow(&mut self, request: &DavRequest) -> DavResult<Option<Meta>>
        ensures same_engine { IsSameEngine self.old self.new }
        ensures same_locks { lent_locks self.new ≡ lent_locks self.old }
        ensures rules { JudgesBy F.seen L.seen (shallow_rules request.entry.now) self.old result self.new }
    {
        let found = self.look_up(&request.path)?;
        self.judge_path(request, found)
    }

    /// Checks the conditions of the request, and then the locks of its path (423). Returns `found`.
    pub(crate) fn judge_path(
        &mut self,
        request: &DavRequest,
        found: Option<Meta>,
    ) -> DavResult<Option<Meta>>
        ensures same_engine { IsSameEngine self.old self.new }
        ensures same_locks { lent_locks self.new ≡ lent_locks self.old }
        ensures found { IfOk result (λ passed. passed ≡ found) }
        ensures rules { JudgesBy F.seen L.seen (λ state. path_rules request.entry.now state found) self.old result self.new }
    {
        let tokens = self.judge_conditions(request, found.as_ref())?;
        let permitted = self.is_permitted(request, tokens.as_slice(), &request.path, false);
        where_permitted(StatusCode::LOCKED, permitted, found)
    }

    /// Checks the conditions of the request. If they hold, returns the state tokens that it submits in `If`.
    pub(crate) fn judge_conditions(
        &mut self,
        request: &DavRequest,
        found: Option<&Meta>,
    ) -> DavResult<Items<Text>>
        ensures same_engine { IsSameEngine self.old self.new }
        ensures same_locks { lent_locks self.new ≡ lent_locks self.old }
        ensures tokens { IfOk result (λ tokens. tokens ≡ submitted_tokens request.entry.now) }
        ensures rules { JudgesBy F.seen L.seen (λ state. own_conditions request.entry.now state (option_copied found.entry)) self.old result self.new }
    {
        let alloc = *self.prefix.allocator();
        if_match_get_tokens(
            alloc,
            request,
            found,
            self.fs,
            shared(&self.ls),
            &request.path,
            &self.credentials,
        )
    }

    /// Checks the conditions of the request, without returning its tokens. If one does not hold, the error is
    /// its status.
    pub(crate) fn judge_holding(
        &mut self,
        request: &DavRequest,
        found: Option<&Meta>,
    ) -> DavResult<()>
        ensures same_engine { IsSameEngine self.old self.new }
        ensures same_locks { lent_locks self.new ≡ lent_locks self.old }
        ensures rules { JudgesBy F.seen L.seen (λ state. holding request.entry.now state (option_copied found.entry)) self.old result self.new }
    {
        match self.judge_if_match(request, found)? {
            Some(status) => Err(DavError::Status(status)),
            None => Ok(()),
        }
    }

    /// Returns the status that rejects the request if its conditions do not hold.
    fn judge_if_match(
        &mut self,
        request: &DavRequest,
        found: Option<&Meta>,
    ) -> DavResult<Option<StatusCode>>
        ensures same_engine { IsSameEngine self.old self.new }
        ensures same_locks { lent_locks self.new ≡ lent_locks self.old }
        ensures rules { JudgesBy F.seen L.seen (λ state. own_if_match request.entry.now state (option_copied found.entry)) self.old result self.new }
    {
        if_match(
            *self.prefix.allocator(),
            request,
            found,
            self.fs,
            shared(&self.ls),
            &request.path,
            &self.credentials,
        )
    }

    /// Returns whether the header `If` holds, and the state tokens that the request submits in it.
    pub(crate) fn judge_if(&mut self, request: &DavRequest) -> DavResult<(bool, Items<Text>)>
        ensures same_engine { IsSameEngine self.old self.new }
        ensures same_locks { lent_locks self.new ≡ lent_locks self.old }
        ensures tokens { IfOk result (λ held. held.1 ≡ submitted_tokens request.entry.now) }
        ensures rules { JudgesBy F.seen L.seen (own_if request.entry.now) self.old result self.new }
    {
        dav_if_match(
            *self.prefix.allocator(),
            request,
            self.fs,
            shared(&self.ls),
            &request.path,
            &self.credentials,
        )
    }

    /// Returns whether the locks allow the request, with these tokens, to write at the path or, if `deep`, at
    /// and below it. Without a lock system everything is permitted.
    pub(crate) fn is_permitted(
        &self,
        request: &DavRequest,
        tokens: &[Text],
        path: &DavPath,
        deep: bool,
    ) -> bool
        ensures { result ≡ permits_by (state_by F.seen L.seen self.now).locks path.now.key request.entry.now.principal deep tokens.now }
    {
        match &self.ls {
            Some(ls) => ls.check(path, principal(request), false, deep, tokens),
            None => true,
        }
    }
}

/// Returns the Depth of the request, or infinity without a Depth that can be read.
pub(crate) fn depth_or_all(request: &DavRequest) -> Depth
    ensures { result ≡ depth_or_all_of request.entry.now }
{
    match read_depth(&request.headers) {
        Ok(Some(depth)) => depth,
        _ => Depth::Infinity,
    }
}

/// Returns whether everything below a resource is included: with any Depth but 0.
pub(crate) fn is_deep(depth: Depth) -> bool
    ensures { result ≡ includes_all depth }
{
    depth != Depth::Zero
}

/// Rejects Depth 1 with 400.
pub(crate) fn judge_depth(depth: Depth) -> DavResult<()>
    ensures { result ≡ depth_verdict depth }
{
    if depth == Depth::One {
        return Err(DavError::Status(StatusCode::BAD_REQUEST));
    }
    Ok(())
}

/// Borrows the lock system for reading.
pub(crate) fn shared<'b, L>(ls: &'b Option<&mut L>) -> Option<&'b L>
    ensures { option_copied result ≡ option_map (λ l. l.now) ls.now }
{
    match ls {
        Some(ls) => Some(&**ls),
        None => None,
    }
}

/// Returns the principal that sends the request, if it is known.
pub(crate) fn principal(request: &DavRequest) -> Option<&str>
    ensures { option_copied result ≡ request.entry.now.principal }
{
    match &request.principal {
        Some(principal) => Some(principal.as_str()),
        None => None,
    }
}

/// Returns the value if `permitted`; else rejects the request with this status, 423 (RFC 4918, section 11.3)
/// or, for a refresh, 412 (section 9.10.2).
pub(crate) fn where_permitted<T: Drop>(
    status: StatusCode,
    permitted: bool,
    value: T,
) -> DavResult<T>
    ensures { result ≡ (if permitted then Ok value else Err (Status status)) }
{
    if permitted {
        Ok(value)
    } else {
        Err(DavError::Status(status))
    }
}

/// Returns the same result, in which a `Status` error also closes the connection.
pub(crate) fn closed(verdict: DavResult<Option<Meta>>) -> DavResult<Option<Meta>>
    ensures { result ≡ map_error closing_error verdict }
{
    verdict.map_err(closing)
}

/// Turns a `Status` error into `StatusClose`, after which the HTTP server closes the connection. Other errors
/// stay as they are.
fn closing(error: DavError) -> DavError
    ensures { result ≡ closing_error error }
{
    match error {
        DavError::Status(status) => DavError::StatusClose(status),
        error => error,
    }
}
