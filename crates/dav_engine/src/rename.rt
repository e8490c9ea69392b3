//! MOVE (RFC 4918, section 9.9).
ghost use Rattle.std.specs.Prelude.{◌≡◌, Some, None, if◌then◌else◌};
ghost use Rattle.dav_resource.specs.declared.method.DavMethod.TheVariants.{Move};
ghost use Rattle.dav_store.specs.Transfers.{rename_call};
ghost use Rattle.dav_messages.specs.Reply.{answer_of};
ghost use Rattle.dav_engine.specs.DavInner.{lent, lent_locks};
ghost use Rattle.dav_engine.specs.Served.{IsServed};
ghost use Rattle.dav_engine.specs.Move.{MayMove, Renaming, Moves};
ghost use Rattle.dav_engine.specs.ByEngine.{IsSameEngine, DoesWork, MovedBy, SourceMovedBy};
ghost use Rattle.dav_engine.specs.Methods.{move_method};

use crate::DavInner;
use crate::inner::fixed_path;
use crate::transfer::{Transfer, transferred_status};
use dav_messages::{MultiError, multi_error};
use dav_resource::{Body, DavError, DavPath, DavRequest, DavResult, FsError};
use dav_store::{DavLockSystem, GuardedFileSystem};
use http::Response;

impl<'a, C: Drop, F: GuardedFileSystem<C>, L: DavLockSystem> DavInner<'a, C, F, L> {
    /// Moves a resource, with everything below it and all properties, to the path in `Destination`. Returns
    /// 201, or 204 if something was at the destination. The locks at the source and below it are dropped (RFC
    /// 4918, section 7.5). (A lock system whose `delete` is not reliable may keep locks that are dropped.)
    /// Executes any request as MOVE, whatever its method.
    ///
    /// First the resource at the destination is removed, with everything below it and the locks there. If the
    /// store fails to remove something, a 207 lists the failures, nothing is moved, and no lock is dropped.
    /// What then stays at the destination is as after a failed DELETE.
    ///
    /// If the store refuses to move the source, the response is the status of that error, and everything
    /// stays at the source. What was at the destination has been removed by then, with its locks.
    ///
    /// Errors, checked in this order. After each of them the store's contents and the locks are as before.
    /// - 400 for a Depth other than infinity.
    /// - 400 without a `Destination` that is a path or an http(s) URL. If its path cannot be read, the error
    ///   of `DavPath::from_str_and_prefix`.
    /// - The store's error if the lookup of the source fails.
    /// - 409 if no directory is found above the destination.
    /// - The store's error if the lookup of the destination fails, unless nothing is there.
    /// - 412 if something is there and Overwrite is `F`.
    /// - 403 if source and destination are the same, or if one is below the other.
    /// - The status of a condition that does not hold (RFC 7232; RFC 4918, section 10.4).
    /// - 423 if the locks that cover the source or the destination, or are below one of them, do not permit
    ///   the request.
    ///
    /// `Memory` can come at any time. What was removed by then stays removed, and the source may have been
    /// moved. Locks at the destination are dropped only after everything there was removed, and locks at the
    /// source only after the move.
    pub fn handle_move(&mut self, request: &DavRequest) -> DavResult<Response<Body>>
        ensures same_engine { IsSameEngine self.old self.new }
        ensures step { IsServed F.seen L.seen (Some Move) self.old request.entry.now (answer_of result) self.new }
    {
        let found = self.judge_transfer(true, request)?;
        self.move_found(request, &found)
    }

    /// The work: moves the source and makes the response.
    fn move_found(&mut self, request: &DavRequest, found: &Transfer) -> DavResult<Response<Body>>
        requires { MayMove request.now.path.key found.now (F.seen (lent self.old)).contents }
        ensures same_engine { IsSameEngine self.old self.new }
        ensures work { DoesWork F.seen L.seen move_method request.entry.now found.now self.old (answer_of result) self.new }
    {
        let alloc = *self.prefix.allocator();
        let profile = self.profile;
        let path = fixed_path(&request.path, Some(&found.meta))?;
        let mut res = MultiError::new(alloc);
        match self.move_to_destination(&path, found, &mut res) {
            Ok(()) => res.add_status(&path, transferred_status(found.there.as_ref()))?,
            Err(DavError::Memory) => return Err(DavError::Memory),
            // `res` has the failures.
            Err(_) => {}
        }
        multi_error(alloc, profile, &path, res.into_items())
    }

    /// Removes what is at the destination, and then moves the source there, unless the removal failed. Adds
    /// the failures to `res`.
    ///
    /// Errors: `Status` of the first failure, if there was one; `Memory`. What was removed or moved stays so.
    fn move_to_destination(
        &mut self,
        source: &DavPath,
        found: &Transfer,
        res: &mut MultiError,
    ) -> DavResult<()>
        requires { MayMove source.now.key found.now (F.seen (lent self.old)).contents }
        ensures same_engine { IsSameEngine self.old self.new }
        ensures moved { MovedBy F.seen L.seen source.now found.now self.old res.old res.new result self.new }
    {
        self.clear_destination(&found.destination, found.there.as_ref(), res)?;
        self.move_source(source, &found.destination, res)
    }

    /// Renames the source, with everything below it, and then drops the locks there. If the store refuses the
    /// rename, adds the source with that status to `res`. The store's contents and the locks are then as
    /// before.
    ///
    /// Errors: `Status` of the refused rename; `Memory`. After `Memory` the contract allows two cases:
    /// nothing was renamed and no lock dropped, or the source was renamed and its locks dropped.
    fn move_source(
        &mut self,
        source: &DavPath,
        destination: &DavPath,
        res: &mut MultiError,
    ) -> DavResult<()>
        requires { (rename_call (F.seen (lent self.old)).contents source.now.key destination.now.key).bar ≡ None }
        ensures same_engine { IsSameEngine self.old self.new }
        ensures moved { SourceMovedBy F.seen L.seen source.now destination.now self.old res.old res.new result self.new }
    {
        self.do_move(source, destination, res)?;
        self.drop_locks(source);
        Ok(())
    }

    /// Renames the source, with everything below it and all properties, by one call of the store. If the
    /// store refuses it, adds the source with that status to `res`. Locks are not checked.
    ///
    /// Errors: `Status` of the refused rename; `Memory`. After either of them the store's contents and the
    /// locks are as before. After `Memory` `res` is, too.
    pub fn do_move(
        &mut self,
        source: &DavPath,
        dest: &DavPath,
        res: &mut MultiError,
    ) -> DavResult<()>
        ensures same_engine { IsSameEngine self.old self.new }
        ensures same_locks { lent_locks self.new ≡ lent_locks self.old }
        ensures renaming { Renaming source.now dest.now (F.seen (lent self.old)) (F.seen (lent self.new)) res.old res.new result }
    {
        match self.fs.rename(source, dest, &self.credentials) {
            Ok(()) => Ok(()),
            Err(FsError::Memory) => Err(DavError::Memory),
            Err(error) => {
                res.add_status(source, error)?;
                Err(DavError::Status(error.statuscode()))
            }
        }
    }
}
