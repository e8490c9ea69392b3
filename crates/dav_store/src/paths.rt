//! The paths in the record of a call.
ghost use Rattle.std.specs.Prelude.{◌≡◌, ◌∷◌, [], IfOk};

use dav_resource::{DavPath, Paths};
use std::alloc::AllocError;

/// Returns a copy of one path, for the record of a call that has one. Fails only if memory runs out.
pub fn one_path(path: &DavPath) -> Result<Paths, AllocError>
    ensures { IfOk result (λ paths. paths ≡ path.now ∷ []) }
{
    Ok(Paths::one(path.clone()?))
}

/// Returns copies of two paths, in order, for the record of a call that has two. Fails only if memory runs
/// out.
pub fn two_paths(from: &DavPath, to: &DavPath) -> Result<Paths, AllocError>
    ensures { IfOk result (λ paths. paths ≡ from.now ∷ to.now ∷ []) }
{
    Ok(Paths::two(from.clone()?, to.clone()?))
}
