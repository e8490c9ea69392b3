//! A check of all files of a store.
ghost use Rattle.std.specs.Prelude.{◌≡◌, ◌⊎◌, ◌+◌, ◌*◌, ◌^◌, ◌<◌, ◌≤◌, false, IfOk, OnOk, IfErr, Some};
ghost use Rattle.dav_resource.specs.declared.error.FsError.TheVariants.{Memory};
ghost use Rattle.dav_check.specs.Checking.{ChecksFile, CountsAll, NamesFiles, WereRefused, AreNamedOrRead};

use crate::pending::{Pending, add_members};
use crate::reading::read_file;
use dav_resource::{DavPath, FsError, FsResult};
use dav_store::GuardedFileSystem;
use std::alloc::Global;

/// What a check of a store has found.
#[derive(Drop, Debug)]
pub struct Checked {
    /// The number of files.
    pub files: u64,
    /// The number of bytes in the files that are not damaged.
    pub bytes: u128,
    /// The paths of the files that cannot be read.
    pub damaged: Vec<DavPath>,
}

/// Reads every byte of every file of a store, and returns how many there are and which files cannot be read. It goes on
/// after a file that cannot be read. The contents of the store stay the same. Its log is emptied before each call.
///
/// It keeps the paths of the members of each open directory in memory, and of the files 1 MiB at a time.
///
/// Errors: `Memory` if memory runs out; the error of the store if it does not list a directory or a member.
pub fn check<F: GuardedFileSystem<()>>(alloc: Global, fs: &mut F) -> FsResult<Checked>
    ensures same { (F.seen fs.new).contents ≡ (F.seen fs.old).contents }
    ensures fixed { (F.seen fs.new).facts ≡ (F.seen fs.old).facts }
    ensures counted { IfOk result (CountsAll (F.seen fs.old).contents) }
    ensures files { IfOk result (NamesFiles (F.seen fs.old).contents) }
    ensures refused { IfOk result (WereRefused F.seen F.reads (F.seen fs.old).contents) }
    ensures read { IfOk result (AreNamedOrRead F.seen F.reads (F.seen fs.old).contents) }
{
    let root = DavPath::root(alloc)?;
    let meta = fs.metadata(&root, &())?;
    let mut waiting = Vec::new(alloc);
    waiting.push(Pending { path: root, meta })?;
    let mut checked = Checked {
        files: 0,
        bytes: 0,
        damaged: Vec::new(alloc),
    };
    // A loop is proved to end, so this one counts the resources.
    for visited in 0..u64::MAX {
        let Some(next) = waiting.pop() else {
            return Ok(checked);
        };
        prove!(checked.files <= visited);
        if next.meta.dir {
            add_members(fs, &next.path, &mut waiting)?;
        } else {
            check_file(fs, next, &mut checked)?;
        }
    }
    Err(FsError::GeneralFailure)
}

/// Reads a file, and counts it, or names it if it cannot be read. Fails only if memory runs out.
fn check_file<F: GuardedFileSystem<()>>(
    fs: &mut F,
    file: Pending,
    checked: &mut Checked,
) -> FsResult<()>
    requires few { checked.old.files + 1 < 2 ^ 64 }
    requires small { checked.old.bytes ≤ checked.old.files * 2 ^ 64 }
    ensures same { (F.seen fs.new).contents ≡ (F.seen fs.old).contents }
    ensures fixed { (F.seen fs.new).facts ≡ (F.seen fs.old).facts }
    ensures ok { OnOk result (ChecksFile F.seen F.reads (F.seen fs.old).contents file checked.old checked.new) }
    ensures small { OnOk result (checked.new.bytes ≤ checked.new.files * 2 ^ 64) }
    ensures err { IfErr result (λ e. e ≡ Memory) }
{
    match read_file(fs, &file.path, file.meta.len) {
        Ok(()) => checked.bytes += u128::from(file.meta.len),
        Err(FsError::Memory) => return Err(FsError::Memory),
        Err(_) => checked.damaged.push(file.path)?,
    }
    checked.files += 1;
    Ok(())
}
