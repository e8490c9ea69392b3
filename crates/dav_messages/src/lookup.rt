//! Lookup of a path.
ghost use Rattle.std.specs.Prelude.{◌≡◌, OnErr};
ghost use Rattle.dav_messages.specs.Dialogue.{Judges, look_up as look_up_of};

use dav_resource::{DavError, DavPath, DavResult, FsError, Meta};
use dav_store::GuardedFileSystem;

/// Returns the metadata of a path. If the lookup fails, returns `None`, as if nothing existed there.
///
/// The only error is `Memory`, and then the store is unchanged, and so is its log.
pub fn look_up<C, F: GuardedFileSystem<C>>(
    fs: &mut F,
    path: &DavPath,
    credentials: &C,
) -> DavResult<Option<Meta>>
    ensures rules { Judges (look_up_of (F.seen fs.old).contents path.now.key) (F.seen fs.old) result (F.seen fs.new) }
    ensures memory { OnErr result (F.seen fs.new ≡ F.seen fs.old) }
{
    match fs.metadata(path, credentials) {
        Ok(meta) => Ok(Some(meta)),
        Err(FsError::Memory) => Err(DavError::Memory),
        Err(_) => Ok(None),
    }
}
