//! The steps of a recursive deletion that keeps a list of open directories.
ghost use Rattle.std.specs.Prelude.{◌≡◌, ◌<◌, true, length, Ok, IfOk, IfErr, OnErr};
ghost use Rattle.dav_resource.specs.PathText.{IsSegment};
ghost use Rattle.dav_walks.specs.Frames.{RemovesOne, Enters, IsNext, Visits, Closes, IsCut, IsCutNext, removal_by, entering_call, path_of_entry};

use dav_messages::MultiError;
use dav_resource::{DavError, DavPath, DavResult, DirEntry, FsError, FsResult};
use dav_store::GuardedFileSystem;
use std::alloc::AllocError;

/// A directory whose members are being deleted, and how far the walk has come.
#[derive(Debug, Drop)]
pub(crate) struct Frame {
    /// The directory's path.
    pub(crate) path: DavPath,
    /// The entries of its listing.
    pub(crate) listing: Vec<FsResult<DirEntry>>,
    /// The index in the listing of the next entry.
    pub(crate) next: usize,
    /// Whether nothing in the directory has failed so far.
    pub(crate) clean: bool,
}

/// The result of entering a path. `Over`: its walk is finished, with whether nothing in it failed. `Opened`:
/// a directory was listed, and its members come next.
#[derive(Debug, Drop)]
pub(crate) enum Entered {
    Over(bool),
    Opened(Frame),
}

/// Removes a directory (`dir`) or a file, and adds a status for the path if the call fails. Returns whether
/// it was removed. The only error is `Memory`, and then no status was added.
pub(crate) fn remove<C, F: GuardedFileSystem<C>>(
    fs: &mut F,
    credentials: &C,
    res: &mut MultiError,
    dir: bool,
    path: &DavPath,
) -> DavResult<bool>
    ensures done { IfOk result (RemovesOne dir path.now (F.seen fs.old) (F.seen fs.new) res.old res.new) }
    ensures fixed { (F.seen fs.new).facts ≡ (F.seen fs.old).facts }
    ensures err { IfErr result (λ e. e ≡ DavError.Memory) }
    ensures unnamed { OnErr result (res.new ≡ res.old) }
    ensures stopped { OnErr result (IsCut (removal_by dir (F.seen fs.old).contents path.now.key) (F.seen fs.old) (F.seen fs.new)) }
{
    let removed = if dir {
        fs.remove_dir(path, credentials)
    } else {
        fs.remove_file(path, credentials)
    };
    match removed {
        Ok(()) => Ok(true),
        Err(FsError::Memory) => Err(DavError::Memory),
        Err(error) => {
            res.add_status(path, error)?;
            Ok(false)
        }
    }
}

/// Begins the deletion of a path: lists a directory (`dir`), or removes a file. If the call fails, it adds a
/// status for the path. The only error is `Memory`, and then no status was added.
pub(crate) fn enter<C, F: GuardedFileSystem<C>>(
    fs: &mut F,
    credentials: &C,
    res: &mut MultiError,
    dir: bool,
    path: DavPath,
) -> DavResult<Entered>
    ensures done { IfOk result (Enters dir path (F.seen fs.old) (F.seen fs.new) res.old res.new) }
    ensures fixed { (F.seen fs.new).facts ≡ (F.seen fs.old).facts }
    ensures err { IfErr result (λ e. e ≡ DavError.Memory) }
    ensures unnamed { OnErr result (res.new ≡ res.old) }
    ensures stopped { OnErr result (IsCut (entering_call dir (F.seen fs.old).contents path.key) (F.seen fs.old) (F.seen fs.new)) }
{
    if !dir {
        return Ok(Entered::Over(remove(fs, credentials, res, false, &path)?));
    }
    match fs.read_dir(&path, credentials) {
        Ok(listing) => Ok(Entered::Opened(Frame {
            path,
            listing,
            next: 0,
            clean: true,
        })),
        Err(FsError::Memory) => Err(DavError::Memory),
        Err(error) => {
            res.add_status(&path, error)?;
            Ok(Entered::Over(false))
        }
    }
}

/// Visits the next entry of a directory. A member that the store does not list adds a status for the
/// directory. Every other member is entered, and a directory opened by that is returned. The only error is
/// `Memory`, and then no status was added.
pub(crate) fn visit<C, F: GuardedFileSystem<C>>(
    fs: &mut F,
    credentials: &C,
    res: &mut MultiError,
    frame: &mut Frame,
) -> DavResult<Option<Frame>>
    requires more { frame.old.next < length frame.old.listing.items }
    requires names { (entry : DirEntry) → IsNext frame.old (Ok entry) → IsSegment entry.name }
    ensures done { IfOk result (Visits frame.old frame.new (F.seen fs.old) (F.seen fs.new) res.old res.new) }
    ensures fixed { (F.seen fs.new).facts ≡ (F.seen fs.old).facts }
    ensures err { IfErr result (λ e. e ≡ DavError.Memory) }
    ensures unnamed { OnErr result (res.new ≡ res.old) }
    ensures stopped { OnErr result (IsCutNext frame.old (F.seen fs.old) (F.seen fs.new)) }
{
    match &frame.listing[frame.next] {
        Err(error) => {
            res.add_status(&frame.path, *error)?;
            frame.next += 1;
            frame.clean = false;
            Ok(None)
        }
        Ok(entry) => {
            let path = member_path(&frame.path, entry)?;
            let entered = enter(fs, credentials, res, entry.meta.dir, path)?;
            frame.next += 1;
            match entered {
                Entered::Over(clean) => {
                    frame.clean &= clean;
                    Ok(None)
                }
                Entered::Opened(inner) => Ok(Some(inner)),
            }
        }
    }
}

/// Removes a directory whose members were visited, unless something in it failed. Adds a status for the
/// directory if the removal fails. Returns whether it was removed. The only error is `Memory`, and then no
/// status was added.
pub(crate) fn close<C, F: GuardedFileSystem<C>>(
    fs: &mut F,
    credentials: &C,
    res: &mut MultiError,
    frame: &Frame,
) -> DavResult<bool>
    ensures done { IfOk result (Closes frame.now.clean frame.now.path (F.seen fs.old) (F.seen fs.new) res.old res.new) }
    ensures fixed { (F.seen fs.new).facts ≡ (F.seen fs.old).facts }
    ensures err { IfErr result (λ e. e ≡ DavError.Memory) }
    ensures unnamed { OnErr result (res.new ≡ res.old) }
    ensures clean { OnErr result (frame.now.clean ≡ true) }
    ensures stopped { OnErr result (IsCut (removal_by true (F.seen fs.old).contents frame.now.path.key) (F.seen fs.old) (F.seen fs.new)) }
{
    if !frame.clean {
        return Ok(false);
    }
    remove(fs, credentials, res, true, &frame.path)
}

/// Returns the path of a directory's member, with a trailing slash for a directory. Fails only if memory runs
/// out.
pub(crate) fn member_path(directory: &DavPath, entry: &DirEntry) -> Result<DavPath, AllocError>
    requires { IsSegment entry.now.name }
    ensures { IfOk result (λ path. path ≡ path_of_entry directory.now entry.now) }
{
    let mut path = directory.clone()?;
    path.push_segment(entry.name.as_str())?;
    path.add_slash_if(entry.meta.dir);
    Ok(path)
}
