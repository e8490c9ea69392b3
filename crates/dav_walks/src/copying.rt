//! Copying of a resource and everything below it.
ghost use Rattle.std.specs.Prelude.{◌≡◌, ◌≢◌, IfErr, IfOk, OnOk, OnErr, Ok};
ghost use Rattle.dav_resource.specs.declared.request.Depth.TheVariants.{Zero, Infinity};
ghost use Rattle.dav_walks.specs.CopyTask.{DoesNothing, IsOntoItself, HasRoomFor, CopiesTask, CopiesToDepth, BreaksOffAtDepth};

use crate::copy_frame::{CopyFrame, copy_file, enter_copy, look_up, visit_member};
use dav_messages::MultiError;
use dav_resource::{DavError, DavPath, DavResult, Depth, FsError};
use dav_store::GuardedFileSystem;
use std::alloc::Global;

/// A copy of a resource to another path (RFC 4918, section 9.8), and the credentials for its calls.
#[derive(Clone, Copy, Debug)]
pub struct CopyTask<'c, C> {
    /// The allocator.
    pub alloc: Global,
    /// The credentials that are passed to each call of the store.
    pub credentials: &'c C,
    /// The resource that is copied.
    pub source: &'c DavPath,
    /// The path that is left out, with everything below it.
    pub topdest: &'c DavPath,
    /// The path that the resource is copied to, at or below `topdest`.
    pub dest: &'c DavPath,
    /// What is copied: with 0 only the resource, with any other Depth everything below it too.
    pub depth: Depth,
}

impl<'c, C> CopyTask<'c, C> {
    /// Copies the resource at `source` and, unless Depth is 0, everything below it, to `dest`. Every Depth
    /// other than 0 is treated as infinity, and then `topdest` and everything below it are left out. If
    /// `source` and `topdest` have the same key, nothing is done.
    ///
    /// It continues after a failure. It adds a status to `res` for each call that fails. The status is added
    /// at the destination if a directory could not be made, else at the resource's own path. With Depth 0, a
    /// directory whose destination already exists adds none. A member that the store does not list adds one
    /// for its directory (one for each unbroken sequence of such members), and ends the copying of that
    /// directory. Which of its other members are copied is not promised. A file is copied with its dead
    /// properties. The copy of a directory has none.
    ///
    /// Unless Depth is 0 or nothing is done, the caller ensures that `source` exists and is not at or below
    /// `topdest`, that `dest` is at or below `topdest`, that nothing exists at `dest`, and that its parent is
    /// a directory.
    ///
    /// With Depth infinity, unless memory runs out, every resource that should have been copied and was not
    /// has a status: at its path, at its destination, or at a path above one of these, up to `source` or
    /// `dest`.
    ///
    /// Errors: `Status` with the first status added, if any was added, or `Memory` if memory runs out. After
    /// an error a part of the copy may exist, and the kind, bytes and properties of no other resource have
    /// changed. With Depth 0 nothing has changed except the log. After `Memory` statuses may be missing, each
    /// status that was added is that of a failure, and with Depth 0 none was added.
    pub fn do_copy<F: GuardedFileSystem<C>>(
        &self,
        fs: &mut F,
        res: &mut MultiError,
    ) -> DavResult<()>
        requires room { (IsOntoItself self.now → ⊥) → self.now.depth ≢ Zero → HasRoomFor self.now (F.seen fs.old).contents }
        ensures passed { IsOntoItself self.now → DoesNothing (F.seen fs.old) (F.seen fs.new) res.old res.new result }
        ensures copied { (IsOntoItself self.now → ⊥) → CopiesTask self.now (F.seen fs.old) (F.seen fs.new) res.old res.new result }
    {
        if self.source.same_key(self.topdest) {
            return Ok(());
        }
        let named = res.len();
        self.copy_to_depth(fs, res)?;
        match res.first_status_after(named) {
            None => Ok(()),
            Some(status) => Err(DavError::Status(status)),
        }
    }

    /// Copies the resource and, unless Depth is 0, everything below it, and adds the statuses of failures.
    /// The only error is `Memory`.
    fn copy_to_depth<F: GuardedFileSystem<C>>(
        &self,
        fs: &mut F,
        res: &mut MultiError,
    ) -> DavResult<()>
        requires room { self.now.depth ≢ Zero → HasRoomFor self.now (F.seen fs.old).contents }
        ensures done { OnOk result (CopiesToDepth self.now.depth self.now (F.seen fs.old) (F.seen fs.new) res.old res.new) }
        ensures err { IfErr result (λ e. e ≡ DavError.Memory) }
        ensures stopped { OnErr result (BreaksOffAtDepth self.now.depth self.now (F.seen fs.old) (F.seen fs.new) res.old res.new) }
    {
        match self.depth {
            Depth::Zero => self.copy_alone(fs, res),
            Depth::One | Depth::Infinity | Depth::Default => self.copy_tree(fs, res),
        }
    }

    /// Copies only the resource, and adds a status if a call fails. A directory whose destination already
    /// exists is neither made nor reported. The only error is `Memory`.
    fn copy_alone<F: GuardedFileSystem<C>>(&self, fs: &mut F, res: &mut MultiError) -> DavResult<()>
        ensures done { OnOk result (CopiesToDepth Zero self.now (F.seen fs.old) (F.seen fs.new) res.old res.new) }
        ensures err { IfErr result (λ e. e ≡ DavError.Memory) }
        ensures stopped { OnErr result (BreaksOffAtDepth Zero self.now (F.seen fs.old) (F.seen fs.new) res.old res.new) }
    {
        let meta = match look_up(fs, self.credentials, res, self.source)? {
            None => return Ok(()),
            Some(meta) => meta,
        };
        if !meta.dir {
            copy_file(fs, self.credentials, res, self.source, self.dest)?;
            return Ok(());
        }
        match fs.create_dir(self.dest, self.credentials) {
            Ok(()) => Ok(()),
            Err(error) => match error {
                FsError::Exists => Ok(()),
                FsError::Memory => Err(DavError::Memory),
                _ => {
                    res.add_status(self.dest, error)?;
                    Ok(())
                }
            },
        }
    }

    /// Copies the resource and everything below it, and adds the statuses of failures. It keeps a list of
    /// the open directories instead of recursing. The only error is `Memory`.
    fn copy_tree<F: GuardedFileSystem<C>>(&self, fs: &mut F, res: &mut MultiError) -> DavResult<()>
        requires room { HasRoomFor self.now (F.seen fs.old).contents }
        ensures done { OnOk result (CopiesToDepth Infinity self.now (F.seen fs.old) (F.seen fs.new) res.old res.new) }
        ensures err { IfErr result (λ e. e ≡ DavError.Memory) }
        ensures stopped { OnErr result (BreaksOffAtDepth Infinity self.now (F.seen fs.old) (F.seen fs.new) res.old res.new) }
    {
        let mut frame = match enter_copy(
            fs,
            self.credentials,
            res,
            self.source.clone()?,
            self.dest.clone()?,
        )? {
            None => return Ok(()),
            Some(frame) => frame,
        };
        let mut parents: Vec<CopyFrame> = Vec::new(self.alloc);
        'walk: loop {
            if frame.next < frame.listing.len() {
                if let Some(inner) = visit_member(
                    fs,
                    self.credentials,
                    res,
                    self.topdest,
                    &mut frame,
                )? {
                    parents.push(frame)?;
                    frame = inner;
                }
            } else {
                match parents.pop() {
                    None => return Ok(()),
                    Some(parent) => frame = parent,
                }
            }
        }
    }
}
