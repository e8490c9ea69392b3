//! Records of store calls, as a store's log keeps them.
ghost use Rattle.std.specs.Prelude.{◌≡◌, IfOk};

use crate::{FsError, Items, Paths};
use http::StatusCode;
use std::alloc::AllocError;

/// The store call that a record is about. Each variant is the call of the same name, except the two with a
/// comment.
#[derive(Clone, Copy, Debug, PartialEq, Eq)]
pub enum Op {
    Metadata,
    ReadDir,
    ReadBytes,
    CreateDir,
    /// The call `open`.
    OpenFile,
    RemoveFile,
    RemoveDir,
    Copy,
    Rename,
    Seek,
    WriteBytes,
    Flush,
    FileMetadata,
    GetProp,
    GetProps,
    PatchProps,
    GetQuota,
    /// No call: a granted `read_dir` did not list a member.
    Entry,
}

/// How a call ended.
#[derive(Clone, Copy, Debug, PartialEq, Eq)]
pub enum Outcome {
    /// The call succeeded and had its effect.
    Granted,
    /// The state of the store does not allow the call.
    Barred(FsError),
    /// The store refused the call for its own reasons.
    Refused(FsError),
}

/// An entry in a store's log: the call, its paths in the order of its arguments, and how it ended.
#[derive(Drop, Debug)]
pub struct Record {
    /// The call.
    pub op: Op,
    /// The paths passed to the call. For a call on an open file it is the file's path, and for `Entry` the
    /// member's path. `get_quota` has none.
    pub paths: Paths,
    /// How the call ended.
    pub outcome: Outcome,
    /// The statuses that `patch_props` returned. Empty for every other call.
    pub statuses: Items<StatusCode>,
}

impl Record {
    /// Returns a copy. Fails only if memory runs out.
    pub fn clone(&self) -> Result<Record, AllocError>
        ensures { IfOk result (λ copy. copy ≡ self.now) }
    {
        let paths = self.paths.clone()?;
        let statuses = Vec::from_slice(self.statuses.allocator(), self.statuses.as_slice())?;
        Ok(Record {
            op: self.op,
            paths,
            outcome: self.outcome,
            statuses: Items::from_vec(statuses),
        })
    }
}
