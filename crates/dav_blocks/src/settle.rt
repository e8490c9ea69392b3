//! What a start asks of a data file before anything is read or written.
ghost use Rattle.std.specs.Prelude.{◌≡◌, ◌≤◌, true, length, IfErr, OnOk};
ghost use Rattle.sqlite_disk.specs.Disk.{Only};
ghost use Rattle.dav_blocks.specs.Settling.{HasNotSettled, IsUnharmed, KeepsFirst};

use sqlite_disk::Disk;
use std::io::{self, ErrorKind};

/// Checks that a file has at least so many bytes, and brings it to the disk. Its contents stay the same.
///
/// Fails if the file is shorter, or the disk fails.
pub(crate) fn settle<D: Disk>(disk: &mut D, end: usize) -> io::Result<()>
    requires { D.Disk.is_usable disk.old ≡ true }
    ensures long { OnOk result (end ≤ length (D.Disk.seen disk.new)) }
    ensures only { OnOk result (Only (D.Disk.seen disk.new) (D.Disk.may_leave disk.new)) }
    ensures usable { OnOk result (D.Disk.is_usable disk.new ≡ true) }
    ensures first { OnOk result (KeepsFirst end (D.Disk.seen disk.old) (D.Disk.seen disk.new)) }
    ensures unharmed { IsUnharmed D.Disk disk.old disk.new }
    ensures err { IfErr result (HasNotSettled D.Disk disk.old end disk.new) }
{
    let len = disk.len()?;
    if len < end {
        return Err(ErrorKind::InvalidData.into());
    }
    // It has this length already. So the file has it after the call, whatever `len` returned.
    disk.set_len(len)?;
    disk.sync()
}
