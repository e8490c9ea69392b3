//! The names of the store's calls and errors in scripts.
ghost use Rattle.std.specs.Prelude.{◌≡◌, ◌≢◌, Some, None, IfSome};
ghost use Rattle.dav_store.specs.Calls.{IsOwn};
ghost use Rattle.dav_script.specs.Refusals.{op_named, refusal_error};

use dav_resource::{FsError, Op};

/// Returns the call with this name, which is that of the method of the store's trait. `entry` is the listing
/// of one member. `read_bytes` is not included, since no method makes that call.
pub fn op_named(name: &str) -> Option<Op>
    ensures { result ≡ op_named name.now }
{
    match name {
        "metadata" => Some(Op::Metadata),
        "read_dir" => Some(Op::ReadDir),
        "create_dir" => Some(Op::CreateDir),
        "open" => Some(Op::OpenFile),
        "remove_file" => Some(Op::RemoveFile),
        "remove_dir" => Some(Op::RemoveDir),
        "copy" => Some(Op::Copy),
        "rename" => Some(Op::Rename),
        "seek" => Some(Op::Seek),
        "write_bytes" => Some(Op::WriteBytes),
        "flush" => Some(Op::Flush),
        "file_metadata" => Some(Op::FileMetadata),
        "get_prop" => Some(Op::GetProp),
        "get_props" => Some(Op::GetProps),
        "patch_props" => Some(Op::PatchProps),
        "get_quota" => Some(Op::GetQuota),
        "entry" => Some(Op::Entry),
        _ => None,
    }
}

/// Returns the error with this name, if a store may return it for its own reasons. Errors that only the tree
/// or a failed allocation causes are not included.
pub fn refusal_error(name: &str) -> Option<FsError>
    ensures value { result ≡ refusal_error name.now }
    ensures own { IfSome result IsOwn }
{
    match name {
        "NotImplemented" => Some(FsError::NotImplemented),
        "GeneralFailure" => Some(FsError::GeneralFailure),
        "Forbidden" => Some(FsError::Forbidden),
        "InsufficientStorage" => Some(FsError::InsufficientStorage),
        "LoopDetected" => Some(FsError::LoopDetected),
        "PathTooLong" => Some(FsError::PathTooLong),
        "TooLarge" => Some(FsError::TooLarge),
        "IsRemote" => Some(FsError::IsRemote),
        _ => None,
    }
}

/// Returns the name of a call. `op_named` reads it back, except `read_bytes`: no method reads the bytes of a
/// file, so no plan names that call.
pub fn op_name(op: Op) -> &'static str
    ensures named { op ≢ Op.ReadBytes → op_named result.now ≡ Some op }
    ensures unread { op ≡ Op.ReadBytes → op_named result.now ≡ None }
{
    match op {
        Op::Metadata => "metadata",
        Op::ReadDir => "read_dir",
        Op::ReadBytes => "read_bytes",
        Op::CreateDir => "create_dir",
        Op::OpenFile => "open",
        Op::RemoveFile => "remove_file",
        Op::RemoveDir => "remove_dir",
        Op::Copy => "copy",
        Op::Rename => "rename",
        Op::Seek => "seek",
        Op::WriteBytes => "write_bytes",
        Op::Flush => "flush",
        Op::FileMetadata => "file_metadata",
        Op::GetProp => "get_prop",
        Op::GetProps => "get_props",
        Op::PatchProps => "patch_props",
        Op::GetQuota => "get_quota",
        Op::Entry => "entry",
    }
}

/// Returns the name of an error. `refusal_error` reads it back if a store may return the error for its own
/// reasons.
pub fn error_name(error: FsError) -> &'static str
    ensures { IsOwn error → refusal_error result.now ≡ Some error }
{
    match error {
        FsError::NotImplemented => "NotImplemented",
        FsError::GeneralFailure => "GeneralFailure",
        FsError::Exists => "Exists",
        FsError::NotFound => "NotFound",
        FsError::Forbidden => "Forbidden",
        FsError::InsufficientStorage => "InsufficientStorage",
        FsError::LoopDetected => "LoopDetected",
        FsError::PathTooLong => "PathTooLong",
        FsError::TooLarge => "TooLarge",
        FsError::IsRemote => "IsRemote",
        FsError::Memory => "Memory",
    }
}
