//! COPY (RFC 4918, section 9.8).
ghost use Rattle.std.specs.Prelude.{◌≡◌, ◌≢◌, Ok, Some, option_copied};
ghost use Rattle.dav_resource.specs.declared.method.DavMethod.TheVariants.{Copy};
ghost use Rattle.dav_messages.specs.Reply.{answer_of};
ghost use Rattle.dav_engine.specs.DavInner.{lent, lent_locks};
ghost use Rattle.dav_engine.specs.Rules.{depth_or_all as depth_or_all_of};
ghost use Rattle.dav_engine.specs.Served.{IsServed};
ghost use Rattle.dav_engine.specs.Copy.{MayCopy, replaced as replaced_by};
ghost use Rattle.dav_engine.specs.ByEngine.{IsSameEngine, CopyingBy, HasRoomToCopy, DoesWork, CopiedBy};
ghost use Rattle.dav_engine.specs.Methods.{copy_method};
ghost use Rattle.dav_walks.specs.CopyTask.{DoesNothing};

use crate::DavInner;
use crate::inner::fixed_path;
use crate::judge::{depth_or_all, is_deep};
use crate::transfer::{Transfer, transferred_status};
use dav_messages::{MultiError, multi_error};
use dav_resource::{Body, DavError, DavPath, DavRequest, DavResult, Depth, Meta};
use dav_store::{DavLockSystem, GuardedFileSystem};
use dav_walks::CopyTask;
use http::Response;

impl<'a, C: Drop, F: GuardedFileSystem<C>, L: DavLockSystem> DavInner<'a, C, F, L> {
    /// Copies a resource, with everything below it unless Depth is 0, to the path in `Destination`. Returns
    /// 201, or 204 if something was at the destination. Files are copied with their properties, directories
    /// are created without. Executes any request as COPY, whatever its method.
    ///
    /// First the resource at the destination is removed, with everything below it and the locks there. (A
    /// lock system whose `delete` is not reliable may keep them.) With Depth 0 a directory at the destination
    /// stays instead. If the store fails to remove something, a 207 lists the failures, nothing is copied, and
    /// no lock is dropped. What then stays at the destination is as after a failed DELETE.
    ///
    /// If the store fails to copy something, a 207 lists the failures. If there is only one, and it is
    /// reported for the source itself, the response has its status instead. If the destination is below the
    /// source, what was at or below the destination is not copied.
    ///
    /// If the removal succeeded and Depth is not 0, each other resource that is not copied is reported: the
    /// response lists its path, its destination, or a path above one of these. With Depth 0, a directory that
    /// is copied onto a directory leaves it as it is, and that it exists is not reported.
    ///
    /// Errors, checked in this order. After each of them the store's contents and the locks are as before.
    /// - 400 for Depth 1.
    /// - 400 without a `Destination` that is a path or an http(s) URL. If its path cannot be read, the error
    ///   of `DavPath::from_str_and_prefix`.
    /// - The store's error if the lookup of the source fails.
    /// - 409 if no directory is found above the destination.
    /// - The store's error if the lookup of the destination fails, unless nothing is there.
    /// - 412 if something is there and Overwrite is `F`.
    /// - 403 if source and destination are the same or, unless Depth is 0, if the source is below the
    ///   destination.
    /// - The status of a condition that does not hold (RFC 7232; RFC 4918, section 10.4).
    /// - 423 if the locks that cover the destination, or are below it, do not permit the request.
    ///
    /// `Memory` can come at any time. What was removed or copied by then stays so. The locks at the
    /// destination are dropped only after everything there was removed.
    pub fn handle_copy(&mut self, request: &DavRequest) -> DavResult<Response<Body>>
        ensures same_engine { IsSameEngine self.old self.new }
        ensures step { IsServed F.seen L.seen (Some Copy) self.old request.entry.now (answer_of result) self.new }
    {
        let found = self.judge_transfer(false, request)?;
        self.copy_found(request, &found)
    }

    /// The work: copies the source and makes the response.
    fn copy_found(&mut self, request: &DavRequest, found: &Transfer) -> DavResult<Response<Body>>
        requires { MayCopy (depth_or_all_of request.now) request.now.path.key found.now (F.seen (lent self.old)).contents }
        ensures same_engine { IsSameEngine self.old self.new }
        ensures work { DoesWork F.seen L.seen copy_method request.entry.now found.now self.old (answer_of result) self.new }
    {
        let alloc = *self.prefix.allocator();
        let profile = self.profile;
        let path = fixed_path(&request.path, Some(&found.meta))?;
        let mut res = MultiError::new(alloc);
        match self.copy_to_destination(&path, found, depth_or_all(request), &mut res) {
            Ok(()) => res.add_status(&path, transferred_status(found.there.as_ref()))?,
            Err(DavError::Memory) => return Err(DavError::Memory),
            // `res` has the failures.
            Err(_) => {}
        }
        multi_error(alloc, profile, &path, res.into_items())
    }

    /// Removes what is at the destination, except a directory if Depth is 0, and then copies the source
    /// there, unless the removal failed. Adds the failures to `res`.
    ///
    /// Errors: `Status` of the first failure, if there was one; `Memory`. What was removed or copied stays
    /// so.
    fn copy_to_destination(
        &mut self,
        source: &DavPath,
        found: &Transfer,
        depth: Depth,
        res: &mut MultiError,
    ) -> DavResult<()>
        requires { MayCopy depth source.now.key found.now (F.seen (lent self.old)).contents }
        ensures same_engine { IsSameEngine self.old self.new }
        ensures copied { CopiedBy F.seen L.seen depth source.now found.now self.old res.old res.new result self.new }
    {
        let there = replaced(depth, found.there.as_ref());
        self.clear_destination(&found.destination, there, res)?;
        self.do_copy(source, &found.destination, &found.destination, depth, res)
    }

    /// Copies the resource at `source`, with everything below it unless Depth is 0, to `dest` (RFC 4918,
    /// section 9.8), and adds the failures to `res`. Any Depth but 0 is taken as infinity. What is at or
    /// below `topdest` is not copied. If that is the source itself, nothing is done. Locks are not checked.
    ///
    /// A failed call adds a status for the path that is copied, or for its destination if a directory cannot
    /// be created. With Depth 0 it is no failure that the directory already exists. If the store does not
    /// list a member, a status is added for the directory, and other members of it may be left uncopied.
    ///
    /// Unless Depth is 0 or `source` is `topdest`, the caller ensures that the source exists and is not at or
    /// below `topdest`, that `dest` is at or below `topdest`, that nothing exists at `dest`, and that its
    /// parent is a directory.
    ///
    /// Errors: `Status` of the first failure, if one was added; `Memory`. What was copied stays so.
    pub fn do_copy(
        &mut self,
        source: &DavPath,
        topdest: &DavPath,
        dest: &DavPath,
        depth: Depth,
        res: &mut MultiError,
    ) -> DavResult<()>
        requires room { HasRoomToCopy depth source.now topdest.now dest.now (F.seen (lent self.old)).contents }
        ensures same_engine { IsSameEngine self.old self.new }
        ensures same_locks { lent_locks self.new ≡ lent_locks self.old }
        ensures passed { source.now.key ≡ topdest.now.key → DoesNothing (F.seen (lent self.old)) (F.seen (lent self.new)) res.old res.new result }
        ensures copied { CopyingBy F.seen depth source.now dest.now topdest.now self.old res.old res.new result self.new }
    {
        let task = CopyTask {
            alloc: *self.prefix.allocator(),
            credentials: &self.credentials,
            source,
            topdest,
            dest,
            depth,
        };
        task.do_copy(self.fs, res)
    }
}

/// Returns what a copy removes first: the resource at the destination, except a directory if Depth is 0.
fn replaced(depth: Depth, there: Option<&Meta>) -> Option<&Meta>
    ensures { option_copied result ≡ replaced_by depth (option_copied there.entry) }
{
    match there {
        Some(meta) => {
            if is_deep(depth) || !meta.dir {
                Some(meta)
            } else {
                None
            }
        }
        None => None,
    }
}
