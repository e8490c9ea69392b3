//! The steps of a recursive copy that keeps a list of open directories.
ghost use Rattle.std.specs.Prelude.{◌≡◌, ◌<◌, length, Ok, Some, IfOk, IfErr, OnErr};
ghost use Rattle.dav_resource.specs.PathText.{IsSegment};
ghost use Rattle.dav_store.specs.Calls.{metadata_call, create_dir_call};
ghost use Rattle.dav_store.specs.Members.{read_dir_call};
ghost use Rattle.dav_store.specs.Transfers.{copy_call};
ghost use Rattle.dav_walks.specs.Frames.{IsCut};
ghost use Rattle.dav_walks.specs.CopyFrames.{LooksUpAt, CopiesFile, MakesPlace, ListsSource, EntersCopy, IsCutCopy, IsNextOf, VisitsMember, IsCutMember};

use crate::frame::member_path;
use dav_messages::MultiError;
use dav_resource::{DavError, DavPath, DavResult, DirEntry, FsError, FsResult, Meta};
use dav_store::GuardedFileSystem;

/// A directory whose members are being copied, and how far the copy has come.
#[derive(Debug, Drop)]
pub(crate) struct CopyFrame {
    /// The directory's path.
    pub(crate) source: DavPath,
    /// The path that it is copied to.
    pub(crate) dest: DavPath,
    /// The entries of its listing.
    pub(crate) listing: Vec<FsResult<DirEntry>>,
    /// The index in the listing of the next entry.
    pub(crate) next: usize,
}

/// Looks up the metadata of a path. If the lookup fails, adds a status for the path and returns `None`. The
/// only error is `Memory`, and then no status was added.
pub(crate) fn look_up<C, F: GuardedFileSystem<C>>(
    fs: &mut F,
    credentials: &C,
    res: &mut MultiError,
    path: &DavPath,
) -> DavResult<Option<Meta>>
    ensures done { IfOk result (LooksUpAt path.now (F.seen fs.old) (F.seen fs.new) res.old res.new) }
    ensures fixed { (F.seen fs.new).facts ≡ (F.seen fs.old).facts }
    ensures err { IfErr result (λ e. e ≡ DavError.Memory) }
    ensures unnamed { OnErr result (res.new ≡ res.old) }
    ensures stopped { OnErr result (IsCut (metadata_call (F.seen fs.old).contents path.now.key) (F.seen fs.old) (F.seen fs.new)) }
{
    match fs.metadata(path, credentials) {
        Ok(meta) => Ok(Some(meta)),
        Err(FsError::Memory) => Err(DavError::Memory),
        Err(error) => {
            res.add_status(path, error)?;
            Ok(None)
        }
    }
}

/// Copies a file to its destination, and adds a status for the source if that fails. Returns whether it was
/// copied. The only error is `Memory`, and then no status was added.
pub(crate) fn copy_file<C, F: GuardedFileSystem<C>>(
    fs: &mut F,
    credentials: &C,
    res: &mut MultiError,
    source: &DavPath,
    dest: &DavPath,
) -> DavResult<bool>
    ensures done { IfOk result (CopiesFile source.now dest.now (F.seen fs.old) (F.seen fs.new) res.old res.new) }
    ensures fixed { (F.seen fs.new).facts ≡ (F.seen fs.old).facts }
    ensures err { IfErr result (λ e. e ≡ DavError.Memory) }
    ensures unnamed { OnErr result (res.new ≡ res.old) }
    ensures stopped { OnErr result (IsCut (copy_call (F.seen fs.old).contents source.now.key dest.now.key) (F.seen fs.old) (F.seen fs.new)) }
{
    match fs.copy(source, dest, credentials) {
        Ok(()) => Ok(true),
        Err(FsError::Memory) => Err(DavError::Memory),
        Err(error) => {
            res.add_status(source, error)?;
            Ok(false)
        }
    }
}

/// Makes the destination of a directory, and adds a status for the destination if that fails. Returns whether
/// it was made. The only error is `Memory`, and then no status was added.
fn make_directory<C, F: GuardedFileSystem<C>>(
    fs: &mut F,
    credentials: &C,
    res: &mut MultiError,
    dest: &DavPath,
) -> DavResult<bool>
    ensures done { IfOk result (MakesPlace dest.now (F.seen fs.old) (F.seen fs.new) res.old res.new) }
    ensures fixed { (F.seen fs.new).facts ≡ (F.seen fs.old).facts }
    ensures err { IfErr result (λ e. e ≡ DavError.Memory) }
    ensures unnamed { OnErr result (res.new ≡ res.old) }
    ensures stopped { OnErr result (IsCut (create_dir_call (F.seen fs.old).contents dest.now.key) (F.seen fs.old) (F.seen fs.new)) }
{
    match fs.create_dir(dest, credentials) {
        Ok(()) => Ok(true),
        Err(FsError::Memory) => Err(DavError::Memory),
        Err(error) => {
            res.add_status(dest, error)?;
            Ok(false)
        }
    }
}

/// Lists a directory whose copy was made. If the listing fails, adds a status for the directory and returns
/// `None`. The only error is `Memory`, and then no status was added.
fn open_directory<C, F: GuardedFileSystem<C>>(
    fs: &mut F,
    credentials: &C,
    res: &mut MultiError,
    source: DavPath,
    dest: DavPath,
) -> DavResult<Option<CopyFrame>>
    ensures done { IfOk result (ListsSource source dest (F.seen fs.old) (F.seen fs.new) res.old res.new) }
    ensures fixed { (F.seen fs.new).facts ≡ (F.seen fs.old).facts }
    ensures err { IfErr result (λ e. e ≡ DavError.Memory) }
    ensures unnamed { OnErr result (res.new ≡ res.old) }
    ensures stopped { OnErr result (IsCut (read_dir_call (F.seen fs.old).contents source.key) (F.seen fs.old) (F.seen fs.new)) }
{
    match fs.read_dir(&source, credentials) {
        Ok(listing) => Ok(Some(CopyFrame {
            source,
            dest,
            listing,
            next: 0,
        })),
        Err(FsError::Memory) => Err(DavError::Memory),
        Err(error) => {
            res.add_status(&source, error)?;
            Ok(None)
        }
    }
}

/// Begins the copy of a path. It looks up the path, then copies a file, or makes the destination of a
/// directory and lists the directory. The first call that fails ends this, and adds a status. A directory
/// that was opened is returned. The only error is `Memory`, and then no status was added.
pub(crate) fn enter_copy<C, F: GuardedFileSystem<C>>(
    fs: &mut F,
    credentials: &C,
    res: &mut MultiError,
    source: DavPath,
    dest: DavPath,
) -> DavResult<Option<CopyFrame>>
    ensures done { IfOk result (EntersCopy source dest (F.seen fs.old) (F.seen fs.new) res.old res.new) }
    ensures fixed { (F.seen fs.new).facts ≡ (F.seen fs.old).facts }
    ensures err { IfErr result (λ e. e ≡ DavError.Memory) }
    ensures unnamed { OnErr result (res.new ≡ res.old) }
    ensures stopped { OnErr result (IsCutCopy source dest (F.seen fs.old) (F.seen fs.new)) }
{
    let meta = match look_up(fs, credentials, res, &source)? {
        None => return Ok(None),
        Some(meta) => meta,
    };
    if !meta.dir {
        copy_file(fs, credentials, res, &source, &dest)?;
        return Ok(None);
    }
    if !make_directory(fs, credentials, res, &dest)? {
        return Ok(None);
    }
    open_directory(fs, credentials, res, source, dest)
}

/// Visits the next member of a directory. A member that the store does not list adds a status for the
/// directory and ends its copy: the members after it are not visited. The top destination is skipped. Every
/// other member is entered, and a directory opened by that is returned. The only error is `Memory`, and then
/// no status was added.
pub(crate) fn visit_member<C, F: GuardedFileSystem<C>>(
    fs: &mut F,
    credentials: &C,
    res: &mut MultiError,
    topdest: &DavPath,
    frame: &mut CopyFrame,
) -> DavResult<Option<CopyFrame>>
    requires more { frame.old.next < length frame.old.listing.items }
    requires names { (entry : DirEntry) → IsNextOf frame.old (Ok entry) → IsSegment entry.name }
    ensures done { IfOk result (VisitsMember frame.old topdest.now.key frame.new (F.seen fs.old) (F.seen fs.new) res.old res.new) }
    ensures fixed { (F.seen fs.new).facts ≡ (F.seen fs.old).facts }
    ensures err { IfErr result (λ e. e ≡ DavError.Memory) }
    ensures unnamed { OnErr result (res.new ≡ res.old) }
    ensures stopped { OnErr result (IsCutMember frame.old topdest.now.key (F.seen fs.old) (F.seen fs.new)) }
{
    match &frame.listing[frame.next] {
        Err(error) => {
            res.add_status(&frame.source, *error)?;
            frame.next = frame.listing.len();
            Ok(None)
        }
        Ok(entry) => {
            let source = member_path(&frame.source, entry)?;
            if source.same_key(topdest) {
                frame.next += 1;
                return Ok(None);
            }
            let dest = member_path(&frame.dest, entry)?;
            let opened = enter_copy(fs, credentials, res, source, dest)?;
            frame.next += 1;
            Ok(opened)
        }
    }
}
