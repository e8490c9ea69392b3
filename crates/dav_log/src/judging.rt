//! Judges a log before recovery changes it.
ghost use Rattle.std.specs.Prelude.{◌↔◌, IsTrue, IsNone, IfSome, IfOk, IfErr};
ghost use Rattle.sqlite_wal.specs.Format.{be32};
ghost use Rattle.sqlite_wal.specs.Opening.{RefusesLog};
ghost use Rattle.sqlite_wal.specs.Outcome.{HasCause};
ghost use Rattle.sqlite_wal.specs.PageSize.{bytes_of};
ghost use Rattle.sqlite_wal.specs.Reads.{OnlyReads};
ghost use Rattle.disk_readonly.specs.Copies.{contents_of, faults_of};
ghost use Rattle.dav_log.specs.Damage.{HasWrongHeader, NamesSize, IsDamaged};

use crate::bytes::{is_signed, number_at};
use crate::frames::{HEADER_LEN, header_of};
use crate::losing::loses_frames;
use disk_readonly::Copied;
use sqlite_disk::Disk;
use sqlite_wal::{Error, PageSize, probe_frames};
use std::alloc::Global;

/// The length of a log with one frame of the smallest page. A shorter one holds nothing.
const LEAST_LEN: usize = 32 + 24 + 512;

/// Whether a log has a header that no crash leaves: it is wrong, and its first byte is not 0. The engine writes that byte
/// last, over 0. It is false for a log with no room for a frame.
pub fn has_wrong_header(log: &[u8]) -> bool
    ensures { IsTrue result ↔ HasWrongHeader log.now }
{
    log.len() >= LEAST_LEN && log[0] != 0 && !is_signed(header_of(log))
}

/// The page size that the header names, if it passes its checksum.
fn named_size(log: &[u8]) -> Option<PageSize>
    ensures some { IfSome result (λ size. NamesSize log.now (bytes_of size)) }
    ensures none { IsNone result → ¬ NamesSize log.now (be32 log.now 8) }
{
    if log.len() < HEADER_LEN || !is_signed(header_of(log)) {
        return None;
    }
    PageSize::new(number_at(log, 8) as usize)
}

/// Whether a log is damaged: it has a header that no crash leaves, or committed frames that recovery does not take. It only
/// reads the log.
///
/// - `OutOfMemory`: memory runs out.
/// - `Corrupt`: recovery refuses the log, which has another version, or goes on behind a commit that lacks bytes.
/// - `Full`: the log has more frames than recovery numbers.
/// - `Io`: a read fails.
pub fn is_damaged(alloc: Global, log: &mut Copied) -> Result<bool, Error>
    ensures damaged { IfOk result (λ damaged. IsTrue damaged ↔ IsDamaged (contents_of log.old)) }
    ensures same { OnlyReads ⟦<Copied as Disk>⟧ log.old log.new }
    ensures err { IfErr result (HasCause (faults_of log.old) (faults_of log.new) (RefusesLog (be32 (contents_of log.old) 8) (contents_of log.old))) }
{
    if has_wrong_header(log.bytes()) {
        return Ok(true);
    }
    let Some(size) = named_size(log.bytes()) else {
        return Ok(false);
    };
    let taken = probe_frames(alloc, log, size)?.len();
    Ok(loses_frames(log.bytes(), size, taken))
}
