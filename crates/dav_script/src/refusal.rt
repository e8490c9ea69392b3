//! The refusals that a script plans.
ghost use Rattle.dav_store.specs.Calls.{IsOwn};

use dav_resource::{DavPath, FsError, Op};

/// A call that the store is to refuse, with an error that a store may return for its own reasons.
#[derive(Debug, Drop)]
pub struct PlannedRefusal {
    /// The kind of call. `Op::Entry` is the listing of one member.
    pub op: Op,
    /// The call's first path. Only its key is compared.
    pub path: DavPath,
    /// The error that the store returns.
    pub error: FsError,
    ghost own: { IsOwn error },
}
