//! Deletion of a resource and everything below it.
ghost use Rattle.std.specs.Prelude.{◌≡◌, IfOk, IfErr, OnOk, OnErr, Some};
ghost use Rattle.std.specs.FinMap.{get};
ghost use Rattle.dav_resource.specs.declared.request.Depth.TheVariants.{Infinity};
ghost use Rattle.dav_walks.specs.Deletion.{Removal};
ghost use Rattle.dav_walks.specs.Frames.{RemovesAll, BreaksOff};
ghost use Rattle.dav_walks.specs.Trace.{HasKind};

use crate::frame::{Entered, Frame, close, enter, remove, visit};
use dav_messages::MultiError;
use dav_resource::{DavError, DavPath, DavResult, Depth, Meta};
use dav_store::GuardedFileSystem;
use std::alloc::Global;

/// Deletes the resource at a path and, unless Depth is 0, everything below it (RFC 4918, section 9.6). Every
/// Depth other than 0 is treated as infinity. `meta` is the metadata of the path.
///
/// It continues after a failure. It adds a status to `res` for each call that fails, at the call's own path,
/// and for each member that the store does not list, at the path of its directory. A directory in which
/// something failed is not removed, and adds no status for that.
///
/// Errors: `Status` with the first status added, if any was added, or `Memory` if memory runs out. After an
/// error each resource at or below the path is unchanged or removed, and the kind, bytes and properties of no
/// other resource have changed. With Depth 0 nothing has changed except the log. After `Memory` statuses may
/// be missing, each status that was added is that of a failure, and with Depth 0 none was added.
pub fn delete_items<C, F: GuardedFileSystem<C>>(
    alloc: Global,
    fs: &mut F,
    credentials: &C,
    res: &mut MultiError,
    depth: Depth,
    meta: &Meta,
    path: &DavPath,
) -> DavResult<()>
    requires there { (F.seen fs.old).contents.metas path.now.key ≡ Some meta.now }
    ensures { Removal depth path.now (F.seen fs.old) (F.seen fs.new) res.old res.new result }
{
    let named = res.len();
    delete_to_depth(alloc, fs, credentials, res, depth, meta.dir, path)?;
    match res.first_status_after(named) {
        None => Ok(()),
        Some(status) => Err(DavError::Status(status)),
    }
}

/// Deletes the resource at a path and, unless Depth is 0, everything below it. Adds a status for each
/// failure. The only error is `Memory`.
fn delete_to_depth<C, F: GuardedFileSystem<C>>(
    alloc: Global,
    fs: &mut F,
    credentials: &C,
    res: &mut MultiError,
    depth: Depth,
    dir: bool,
    path: &DavPath,
) -> DavResult<()>
    requires there { HasKind dir (get (F.seen fs.old).contents.tree path.now.key) }
    ensures done { OnOk result (RemovesAll depth path.now (F.seen fs.old) (F.seen fs.new) res.old res.new) }
    ensures err { IfErr result (λ e. e ≡ DavError.Memory) }
    ensures stopped { OnErr result (BreaksOff depth path.now (F.seen fs.old) (F.seen fs.new) res.old res.new) }
{
    match depth {
        Depth::Zero => {
            remove(fs, credentials, res, dir, path)?;
            Ok(())
        }
        Depth::One | Depth::Infinity | Depth::Default => {
            delete_tree(alloc, fs, credentials, res, dir, path)
        }
    }
}

/// Deletes the resource at a path and everything below it, and adds a status for each failure. It keeps a
/// list of the open directories instead of recursing. The only error is `Memory`.
fn delete_tree<C, F: GuardedFileSystem<C>>(
    alloc: Global,
    fs: &mut F,
    credentials: &C,
    res: &mut MultiError,
    dir: bool,
    path: &DavPath,
) -> DavResult<()>
    requires there { HasKind dir (get (F.seen fs.old).contents.tree path.now.key) }
    ensures done { OnOk result (RemovesAll Infinity path.now (F.seen fs.old) (F.seen fs.new) res.old res.new) }
    ensures err { IfErr result (λ e. e ≡ DavError.Memory) }
    ensures stopped { OnErr result (BreaksOff Infinity path.now (F.seen fs.old) (F.seen fs.new) res.old res.new) }
{
    let mut frame = match enter(fs, credentials, res, dir, path.clone()?)? {
        Entered::Over(_) => return Ok(()),
        Entered::Opened(frame) => frame,
    };
    let mut parents: Vec<Frame> = Vec::new(alloc);
    'walk: loop {
        if frame.next < frame.listing.len() {
            if let Some(inner) = visit(fs, credentials, res, &mut frame)? {
                parents.push(frame)?;
                frame = inner;
            }
        } else {
            let clean = close(fs, credentials, res, &frame)?;
            match parents.pop() {
                None => return Ok(()),
                Some(parent) => {
                    frame = parent;
                    frame.clean &= clean;
                }
            }
        }
    }
}
