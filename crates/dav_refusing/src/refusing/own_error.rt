//! The errors in a plan.
ghost use Rattle.std.proofs.Props.{props};
ghost use Rattle.dav_store.specs.Calls.{IsOwn};

use dav_resource::FsError;

/// An error that a store may return for its own reasons.
#[derive(Clone, Copy, Debug)]
pub(super) struct OwnError {
    pub(super) error: FsError,
    ghost own: { IsOwn error } by { Prim.hlevel props },
}
