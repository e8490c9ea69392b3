//! The resources that are still to be visited.
ghost use Rattle.std.specs.Prelude.{◌≡◌, [], Ok, OnOk, IfOk};
ghost use Rattle.dav_resource.specs.PathText.{IsSegment};
ghost use Rattle.dav_resource.specs.declared.meta.DirEntry.{DirEntry};
ghost use Rattle.dav_store.specs.Members.{IsIn};
ghost use Rattle.dav_check.specs.Pending.{AddsMembers, Takes, path_at};

use dav_resource::{DavPath, DirEntry, FsResult, Meta};
use dav_store::GuardedFileSystem;
use std::alloc::AllocError;

/// A resource that is still to be visited.
#[derive(Drop, Debug)]
pub(crate) struct Pending {
    /// Its path, with a trailing slash for a directory.
    pub(crate) path: DavPath,
    /// Its metadata.
    pub(crate) meta: Meta,
}

/// Empties the log, lists a directory, and adds its members at the end of those that are to be visited, the first one
/// last.
///
/// Fails with the error of the store if it does not list the directory or one of the members, and if memory runs out.
pub(crate) fn add_members<F: GuardedFileSystem<()>>(
    fs: &mut F,
    directory: &DavPath,
    waiting: &mut Vec<Pending>,
) -> FsResult<()>
    ensures same { (F.seen fs.new).contents ≡ (F.seen fs.old).contents }
    ensures fixed { (F.seen fs.new).facts ≡ (F.seen fs.old).facts }
    ensures ok { OnOk result (AddsMembers (F.seen fs.old).contents directory.now.key waiting.old.items waiting.new.items) }
{
    fs.clear_log();
    match fs.read_dir(directory, &()) {
        Ok(listing) => push_members(directory, listing, waiting),
        Err(error) => Err(error),
    }
}

/// Adds the members in a listing to those that are to be visited, the first one last. Fails with the error of a member that
/// is not listed, and if memory runs out.
fn push_members(
    directory: &DavPath,
    mut listing: Vec<FsResult<DirEntry>>,
    waiting: &mut Vec<Pending>,
) -> FsResult<()>
    requires { (entry : DirEntry) → IsIn (Ok entry) listing.items → IsSegment entry.name }
    ensures { OnOk result (Takes directory.now listing.items [] waiting.old.items waiting.new.items) }
{
    while let Some(shown) = listing.pop() {
        let entry = shown?;
        let path = member_path(directory, &entry)?;
        let meta = entry.meta;
        waiting.push(Pending { path, meta })?;
    }
    Ok(())
}

/// Returns the path of a directory's member, with a trailing slash for a directory. Fails only if memory runs out.
fn member_path(directory: &DavPath, entry: &DirEntry) -> Result<DavPath, AllocError>
    requires { IsSegment entry.now.name }
    ensures { IfOk result (λ path. path ≡ path_at directory.now entry.now) }
{
    let mut path = directory.clone()?;
    path.push_segment(entry.name.as_str())?;
    path.add_slash_if(entry.meta.dir);
    Ok(path)
}
