//! DELETE (RFC 4918, section 9.6).
ghost use Rattle.std.specs.Prelude.{◌≡◌, Some, IfOk};
ghost use Rattle.dav_resource.specs.declared.method.DavMethod.TheVariants.{Delete};
ghost use Rattle.dav_messages.specs.Reply.{answer_of};
ghost use Rattle.dav_walks.specs.Deletion.{Removal};
ghost use Rattle.dav_engine.specs.DavInner.{lent, lent_locks, seen_by};
ghost use Rattle.dav_engine.specs.Served.{IsServed};
ghost use Rattle.dav_engine.specs.State.{DropsSeen};
ghost use Rattle.dav_engine.specs.Delete.{delete_rules};
ghost use Rattle.dav_engine.specs.ByEngine.{IsSameEngine, JudgesBy, DoesWork};
ghost use Rattle.dav_engine.specs.Methods.{delete_method};

use crate::DavInner;
use crate::inner::fixed_path;
use crate::judge::{depth_or_all, judge_depth, where_permitted};
use dav_messages::{MultiError, multi_error};
use dav_resource::{Body, DavError, DavPath, DavRequest, DavResult, Depth, Meta};
use dav_store::{DavLockSystem, GuardedFileSystem};
use http::{Response, StatusCode};

impl<'a, C: Drop, F: GuardedFileSystem<C>, L: DavLockSystem> DavInner<'a, C, F, L> {
    /// Deletes a resource, with everything below it unless Depth is 0, and the locks there. Returns 204. (A
    /// lock system whose `delete` is not reliable may keep the locks.) Executes any request as DELETE,
    /// whatever its method.
    ///
    /// If the store fails to remove something, a 207 lists the failures (RFC 4918, section 9.6.1). If there
    /// is only one, and it is reported for the resource itself, the response has its status instead. No lock
    /// is dropped then. With Depth 0 nothing has been removed. Otherwise exactly these resources stay:
    /// - the resources that the response lists, and the directories above them, up to the path;
    /// - members that the store did not list, and everything below them.
    ///
    /// Errors, checked in this order. After each of them the store's contents and the locks are as before.
    /// - 400 for Depth 1.
    /// - The store's error if the lookup of the path fails.
    /// - The status of a condition that does not hold (RFC 7232; RFC 4918, section 10.4).
    /// - 423 if the locks that cover the path, or are below it, do not permit the request.
    ///
    /// `Memory` can come at any time. What was removed by then stays removed. The locks are dropped only
    /// after everything was removed.
    pub fn handle_delete(&mut self, request: &DavRequest) -> DavResult<Response<Body>>
        ensures same_engine { IsSameEngine self.old self.new }
        ensures step { IsServed F.seen L.seen (Some Delete) self.old request.entry.now (answer_of result) self.new }
    {
        let meta = self.judge_delete(request)?;
        self.delete_found(request, &meta)
    }

    /// Checks the rules: the Depth, the lookup of the path, the conditions, and the locks that cover the path
    /// or are below it. Returns what was found.
    fn judge_delete(&mut self, request: &DavRequest) -> DavResult<Meta>
        ensures same_engine { IsSameEngine self.old self.new }
        ensures same_locks { lent_locks self.new ≡ lent_locks self.old }
        ensures found { IfOk result (λ meta. (F.seen (lent self.old)).contents.metas request.entry.now.path.key ≡ Some meta) }
        ensures rules { JudgesBy F.seen L.seen (delete_rules request.entry.now) self.old result self.new }
    {
        judge_depth(depth_or_all(request))?;
        let meta = self.fs.metadata(&request.path, &self.credentials)?;
        let tokens = self.judge_conditions(request, Some(&meta))?;
        let permitted = self.is_permitted(request, tokens.as_slice(), &request.path, true);
        where_permitted(StatusCode::LOCKED, permitted, meta)
    }

    /// The work: removes what was found and then, if nothing failed, its locks. Makes the response.
    fn delete_found(&mut self, request: &DavRequest, meta: &Meta) -> DavResult<Response<Body>>
        requires { (F.seen (lent self.old)).contents.metas request.now.path.key ≡ Some meta.now }
        ensures same_engine { IsSameEngine self.old self.new }
        ensures work { DoesWork F.seen L.seen delete_method request.entry.now meta.now self.old (answer_of result) self.new }
    {
        let alloc = *self.prefix.allocator();
        let profile = self.profile;
        let path = fixed_path(&request.path, Some(meta))?;
        let mut res = MultiError::new(alloc);
        match self.delete_items(&mut res, depth_or_all(request), meta, &path) {
            Ok(()) => {
                self.drop_locks(&path);
                res.add_status(&path, StatusCode::NO_CONTENT)?;
            }
            Err(DavError::Memory) => return Err(DavError::Memory),
            // `res` has the failures.
            Err(_) => {}
        }
        multi_error(alloc, profile, &path, res.into_items())
    }

    /// Removes the resource at a path, with everything below it unless Depth is 0 (RFC 4918, section 9.6),
    /// and adds a status to `res` for each failure. Any Depth but 0 is taken as infinity. `meta` is the
    /// path's own metadata. Locks are not checked.
    ///
    /// Errors: `Status` of the first failure, if there was one; `Memory`. What was removed stays removed.
    /// After `Memory` statuses may be missing in `res`.
    pub fn delete_items(
        &mut self,
        res: &mut MultiError,
        depth: Depth,
        meta: &Meta,
        path: &DavPath,
    ) -> DavResult<()>
        requires { (F.seen (lent self.old)).contents.metas path.now.key ≡ Some meta.now }
        ensures same_engine { IsSameEngine self.old self.new }
        ensures same_locks { lent_locks self.new ≡ lent_locks self.old }
        ensures removal { Removal depth path.now (F.seen (lent self.old)) (F.seen (lent self.new)) res.old res.new result }
    {
        let alloc = *self.prefix.allocator();
        dav_walks::delete_items(alloc, self.fs, &self.credentials, res, depth, meta, path)
    }

    /// Drops the locks at a path and below it. An error of the lock system is ignored.
    pub(crate) fn drop_locks(&mut self, path: &DavPath)
        ensures same_engine { IsSameEngine self.old self.new }
        ensures same_store { lent self.new ≡ lent self.old }
        ensures dropped { DropsSeen path.now.key (seen_by F.seen L.seen self.old) (seen_by F.seen L.seen self.new) }
    {
        if let Some(ls) = &mut self.ls {
            let _ = ls.delete(path);
        }
    }
}
