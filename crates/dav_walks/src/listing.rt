//! A work list of resources that are pending, for visiting the members of directories.
ghost use Rattle.std.specs.Prelude.{◌≡◌, ◌++◌, ◌∷◌, [], ◌<◌, ◌+◌, Ok, Some, MatchOption, IfSome, IfErr, OnOk, OnErr};
ghost use Rattle.std.specs.FinMap.{keys};
ghost use Rattle.dav_resource.specs.PathText.{IsSegment};
ghost use Rattle.dav_resource.specs.declared.error.DavError.TheVariants.{Memory};
ghost use Rattle.dav_store.specs.Members.{IsIn};
ghost use Rattle.dav_store.specs.Store.{Contents, IsWellFormed};
ghost use Rattle.dav_walks.specs.Counting.{count_below};
ghost use Rattle.dav_walks.specs.Listing.{AddsMembers, StopsAdding, AreThere, AreFewer, waiting_count, shown_in, in_turn};

use crate::frame::member_path;
use dav_resource::{DavError, DavPath, DavResult, DirEntry, FsError, FsResult, Meta};
use dav_store::GuardedFileSystem;
use std::alloc::AllocError;

/// A resource that is pending.
#[derive(Drop, Debug)]
pub struct Resource {
    /// Its path, with a trailing slash for a directory.
    pub path: DavPath,
    /// Its metadata.
    pub meta: Meta,
}

/// Removes the next pending resource, the last of the list, and returns it. Returns `None` if none is
/// pending.
pub fn take_next(waiting: &mut Vec<Resource>) -> Option<Resource>
    ensures turn { MatchOption result (in_turn waiting.old.items ≡ []) (λ r. in_turn waiting.old.items ≡ r ∷ in_turn waiting.new.items) }
    ensures counted { (contents : Contents) → IsWellFormed contents → AreThere contents waiting.old.items → IfSome result (λ r. 0 < count_below r.path.key (keys contents.tree)) }
    ensures fewer { (contents : Contents) → IfSome result (λ r. waiting_count contents waiting.old.items ≡ waiting_count contents waiting.new.items + count_below r.path.key (keys contents.tree)) }
    ensures there { (contents : Contents) → AreThere contents waiting.old.items → AreThere contents waiting.new.items × IfSome result (λ r. contents.metas r.path.key ≡ Some r.meta) }
{
    waiting.pop()
}

/// Lists a directory and adds its members to the pending resources. They come before the others, in the order
/// of the listing. If the listing fails, nothing is added. A member that the store does not list is skipped.
///
/// The only error is `Memory`. Then nothing of the store has changed except the log, but `waiting` may have.
pub fn add_members<C, F: GuardedFileSystem<C>>(
    fs: &mut F,
    credentials: &C,
    directory: &DavPath,
    waiting: &mut Vec<Resource>,
) -> DavResult<()>
    ensures added { OnOk result (AddsMembers directory.now (F.seen fs.old) waiting.old.items (F.seen fs.new) waiting.new.items) }
    ensures there { OnOk result (AreThere (F.seen fs.old).contents waiting.old.items → AreThere (F.seen fs.old).contents waiting.new.items) }
    ensures fewer { OnOk result ((meta : Meta) → (F.seen fs.old).contents.metas directory.now.key ≡ Some meta → AreFewer (F.seen fs.old).contents directory.now.key waiting.old.items waiting.new.items) }
    ensures err { IfErr result (λ e. e ≡ Memory) }
    ensures stopped { OnErr result (StopsAdding directory.now (F.seen fs.old) (F.seen fs.new)) }
{
    match fs.read_dir(directory, credentials) {
        Ok(listing) => Ok(push_members(directory, listing, waiting)?),
        Err(error) => match error {
            FsError::Memory => Err(DavError::Memory),
            _ => Ok(()),
        },
    }
}

/// Adds the members in a listing to the pending resources. Fails only if memory runs out.
fn push_members(
    directory: &DavPath,
    mut listing: Vec<FsResult<DirEntry>>,
    waiting: &mut Vec<Resource>,
) -> Result<(), AllocError>
    requires { (entry : DirEntry) → IsIn (Ok entry) listing.items → IsSegment entry.name }
    ensures { OnOk result (in_turn waiting.new.items ≡ shown_in directory.now listing.items ++ in_turn waiting.old.items) }
{
    while let Some(shown) = listing.pop() {
        push_shown(directory, shown, waiting)?;
    }
    Ok(())
}

/// Adds a member to the pending resources, if the store lists it. Fails only if memory runs out.
fn push_shown(
    directory: &DavPath,
    shown: FsResult<DirEntry>,
    waiting: &mut Vec<Resource>,
) -> Result<(), AllocError>
    requires { (entry : DirEntry) → shown ≡ Ok entry → IsSegment entry.name }
    ensures { OnOk result (waiting.new.items ≡ waiting.old.items ++ shown_in directory.now (shown ∷ [])) }
{
    let Ok(entry) = shown else {
        return Ok(());
    };
    let path = member_path(directory, &entry)?;
    waiting.push(Resource {
        path,
        meta: entry.meta,
    })?;
    Ok(())
}
