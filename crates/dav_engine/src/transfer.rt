//! What COPY and MOVE share (RFC 4918, sections 9.8 and 9.9): their rules, and clearing the destination.
ghost use Rattle.std.specs.Prelude.{◌≡◌, true, Some, is_some, if◌then◌else◌, option_copied};
ghost use Rattle.std.specs.Option.{ForSome};
ghost use Rattle.dav_resource.specs.Gives.{GivesBy};
ghost use Rattle.dav_key.specs.Key.{is_same_key};
ghost use Rattle.dav_engine.specs.DavInner.{lent, lent_locks, state_by, settings_by};
ghost use Rattle.dav_engine.specs.Transferring.{transfer_rules, asked_destination as asked_destination_of, reach_verdict, parent_verdict, must_have_parent as must_have_parent_of, look_up_destination as look_up_destination_of, see_destination as see_destination_of, found_or_absent as found_or_absent_of, place_verdict, is_misplaced as is_misplaced_by, may_overwrite as may_overwrite_by, permits_transfer as permits_transfer_by};
ghost use Rattle.dav_engine.specs.ByEngine.{IsSameEngine, JudgesBy, ClearedBy};

use crate::DavInner;
use crate::inner::is_directory;
use crate::judge::{depth_or_all, is_deep, judge_depth, where_permitted};
use dav_headers::{read_destination, read_overwrite};
use dav_messages::MultiError;
use dav_resource::{
    DavError, DavPath, DavRequest, DavResult, Depth, FsError, FsResult, Meta, Text,
};
use dav_store::{DavLockSystem, GuardedFileSystem};
use http::StatusCode;

/// What the rules of a COPY or a MOVE have found.
#[derive(Drop)]
pub(crate) struct Transfer {
    /// The metadata of the source.
    pub(crate) meta: Meta,
    /// The path that the source is copied or moved to.
    pub(crate) destination: DavPath,
    /// The metadata of what is at the destination, if something is.
    pub(crate) there: Option<Meta>,
}

impl<'a, C: Drop, F: GuardedFileSystem<C>, L: DavLockSystem> DavInner<'a, C, F, L> {
    /// Checks the rules in this order: the Depth, the destination, the lookups of the source, of the
    /// destination's parent and of the destination, whether the source may go there, the conditions, and the
    /// locks. Returns what was found.
    pub(crate) fn judge_transfer(
        &mut self,
        moving: bool,
        request: &DavRequest,
    ) -> DavResult<Transfer>
        ensures same_engine { IsSameEngine self.old self.new }
        ensures same_locks { lent_locks self.new ≡ lent_locks self.old }
        ensures rules { JudgesBy F.seen L.seen (transfer_rules moving (settings_by F.seen self.old) request.entry.now) self.old result self.new }
    {
        let destination = self.asked_destination(moving, request)?;
        let meta = self.fs.metadata(&request.path, &self.credentials)?;
        let there = self.see_destination(&destination)?;
        judge_place(moving, request, &destination, there.as_ref())?;
        let tokens = self.judge_conditions(request, Some(&meta))?;
        let permitted = self.permits_transfer(moving, request, tokens.as_slice(), &destination);
        let found = Transfer {
            meta,
            destination,
            there,
        };
        where_permitted(StatusCode::LOCKED, permitted, found)
    }

    /// Checks the Depth, and then reads the destination, below the engine's prefix.
    fn asked_destination(&self, moving: bool, request: &DavRequest) -> DavResult<DavPath>
        ensures { GivesBy (λ path. path) result (asked_destination_of moving (settings_by F.seen self.now) request.entry.now) }
    {
        judge_reach(moving, depth_or_all(request))?;
        read_destination(
            *self.prefix.allocator(),
            &request.headers,
            self.prefix.as_str(),
        )
    }

    /// Looks up the destination, which has to be below a directory.
    fn see_destination(&mut self, destination: &DavPath) -> DavResult<Option<Meta>>
        ensures same_engine { IsSameEngine self.old self.new }
        ensures same_locks { lent_locks self.new ≡ lent_locks self.old }
        ensures rules { JudgesBy F.seen L.seen (λ state. see_destination_of state.contents destination.now.key) self.old result self.new }
    {
        self.must_have_parent(destination)?;
        self.look_up_destination(destination)
    }

    /// Rejects a destination with 409 if no directory is found above it. A failed lookup counts as nothing
    /// there.
    fn must_have_parent(&mut self, destination: &DavPath) -> DavResult<()>
        ensures same_engine { IsSameEngine self.old self.new }
        ensures same_locks { lent_locks self.new ≡ lent_locks self.old }
        ensures rules { JudgesBy F.seen L.seen (λ state. must_have_parent_of state.contents destination.now.key) self.old result self.new }
    {
        let parent = destination.parent()?;
        let above = self.look_up(&parent)?;
        judge_parent(above.as_ref())
    }

    /// Looks up the destination. It is no error if nothing is there, but each other error of the store is.
    fn look_up_destination(&mut self, destination: &DavPath) -> DavResult<Option<Meta>>
        ensures same_engine { IsSameEngine self.old self.new }
        ensures same_locks { lent_locks self.new ≡ lent_locks self.old }
        ensures rules { JudgesBy F.seen L.seen (λ state. look_up_destination_of state.contents destination.now.key) self.old result self.new }
    {
        let found = self.look_up_result(destination)?;
        found_or_absent(found)
    }

    /// Returns whether the locks allow the request, with these tokens, to replace everything at the
    /// destination and, in a move, to remove everything at its path.
    fn permits_transfer(
        &self,
        moving: bool,
        request: &DavRequest,
        tokens: &[Text],
        destination: &DavPath,
    ) -> bool
        ensures { result ≡ permits_transfer_by moving (state_by F.seen L.seen self.now).locks request.entry.now tokens.now destination.now.key }
    {
        if moving && !self.is_permitted(request, tokens, &request.path, true) {
            return false;
        }
        self.is_permitted(request, tokens, destination, true)
    }

    /// Removes what is at the destination and below it, if something is there (RFC 4918, section 9.9.3), and
    /// adds each failure to `res`. If something was there and no failure is added, drops the locks there.
    ///
    /// Errors: `Status` of the first failure, if there was one; `Memory`. What was removed stays removed.
    pub(crate) fn clear_destination(
        &mut self,
        destination: &DavPath,
        there: Option<&Meta>,
        res: &mut MultiError,
    ) -> DavResult<()>
        requires { ForSome (option_copied there) (λ meta. (F.seen (lent self.old)).contents.metas destination.now.key ≡ Some meta) }
        ensures same_engine { IsSameEngine self.old self.new }
        ensures cleared { ClearedBy F.seen L.seen (is_some there.entry) destination.now self.old res.old res.new result self.new }
    {
        match there {
            Some(meta) => self.clear_found(destination, meta, res),
            None => Ok(()),
        }
    }

    /// Does the same for what was found there.
    fn clear_found(
        &mut self,
        destination: &DavPath,
        meta: &Meta,
        res: &mut MultiError,
    ) -> DavResult<()>
        requires { (F.seen (lent self.old)).contents.metas destination.now.key ≡ Some meta.now }
        ensures same_engine { IsSameEngine self.old self.new }
        ensures cleared { ClearedBy F.seen L.seen true destination.now self.old res.old res.new result self.new }
    {
        self.delete_items(res, Depth::Infinity, meta, destination)?;
        self.drop_locks(destination);
        Ok(())
    }
}

/// Rejects with 400 a Depth that the method does not allow.
fn judge_reach(moving: bool, depth: Depth) -> DavResult<()>
    ensures { result ≡ reach_verdict moving depth }
{
    if moving && depth == Depth::Zero {
        return Err(DavError::Status(StatusCode::BAD_REQUEST));
    }
    judge_depth(depth)
}

/// Rejects a destination with 409 if no directory was found above it.
fn judge_parent(above: Option<&Meta>) -> DavResult<()>
    ensures { result ≡ parent_verdict (option_copied above.entry) }
{
    if is_directory(above) {
        Ok(())
    } else {
        Err(DavError::Status(StatusCode::CONFLICT))
    }
}

/// Returns what a lookup found. It is no error if nothing is there.
fn found_or_absent(found: FsResult<Meta>) -> DavResult<Option<Meta>>
    ensures { result ≡ found_or_absent_of found }
{
    match found {
        Ok(meta) => Ok(Some(meta)),
        Err(FsError::NotFound) => Ok(None),
        Err(error) => Err(error.into()),
    }
}

/// Rejects a destination with 412 if something is there that may not be replaced, and else with 403 if the
/// source may not go there.
fn judge_place(
    moving: bool,
    request: &DavRequest,
    destination: &DavPath,
    there: Option<&Meta>,
) -> DavResult<()>
    ensures { result ≡ place_verdict moving request.entry.now destination.now.key (option_copied there.entry) }
{
    if there.is_some() && !may_overwrite(request) {
        return Err(DavError::Status(StatusCode::PRECONDITION_FAILED));
    }
    if is_misplaced(moving, depth_or_all(request), &request.path, destination) {
        return Err(DavError::Status(StatusCode::FORBIDDEN));
    }
    Ok(())
}

/// Returns whether the request may replace what is at the destination.
fn may_overwrite(request: &DavRequest) -> bool
    ensures { result ≡ may_overwrite_by request.entry.now }
{
    match read_overwrite(&request.headers) {
        Ok(Some(overwrite)) => overwrite,
        _ => true,
    }
}

/// Returns whether the source may not go to the destination: to itself, in a move to below itself, or, unless
/// Depth is 0, to a path above itself.
fn is_misplaced(moving: bool, depth: Depth, source: &DavPath, destination: &DavPath) -> bool
    ensures { result ≡ is_misplaced_by moving depth source.now.key destination.now.key }
{
    if is_same_place(source, destination) {
        return true;
    }
    if moving && destination.is_at_or_below(source) {
        return true;
    }
    is_deep(depth) && source.is_at_or_below(destination)
}

/// Returns whether both paths have the same key.
fn is_same_place(source: &DavPath, destination: &DavPath) -> bool
    ensures { result ≡ is_same_key source.now.key destination.now.key }
{
    source.same_key(destination)
}

/// Returns 204 if something was at the destination, else 201.
pub(crate) fn transferred_status(there: Option<&Meta>) -> StatusCode
    ensures { result ≡ (if is_some there.entry then 204 else 201) }
{
    match there {
        Some(_) => StatusCode::NO_CONTENT,
        None => StatusCode::CREATED,
    }
}
