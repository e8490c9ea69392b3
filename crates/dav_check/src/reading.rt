//! Reading a file from its begin to its end.
ghost use Rattle.std.specs.Prelude.{◌≡◌, ◌+◌, ◌<◌, ◌≤◌, OnOk, IfErr};
ghost use Rattle.dav_check.specs.Reading.{IsReadBelow, IsReadBetween, IsFailure};

use dav_resource::{DavPath, FsResult};
use dav_store::GuardedFileSystem;

/// How many bytes are read at once.
const PIECE: u64 = 1 << 20;

/// Reads the first `len` bytes of a file, piece by piece, and empties the log before each piece. The first error ends it.
pub(crate) fn read_file<F: GuardedFileSystem<()>>(
    fs: &mut F,
    path: &DavPath,
    len: u64,
) -> FsResult<()>
    ensures same { (F.seen fs.new).contents ≡ (F.seen fs.old).contents }
    ensures fixed { (F.seen fs.new).facts ≡ (F.seen fs.old).facts }
    ensures ok { OnOk result (IsReadBelow F.seen F.reads (F.seen fs.old).contents path.now.key len) }
    ensures err { IfErr result (IsFailure F.seen F.reads (F.seen fs.old).contents path.now.key) }
{
    let mut place = 0;
    while place < len {
        let count = piece_len(len - place);
        read_piece(fs, path, place, count)?;
        place += count;
    }
    Ok(())
}

/// Returns how many bytes the next piece has, if so many bytes are left.
fn piece_len(left: u64) -> u64
    requires { 0 < left }
    ensures some { 0 < result }
    ensures most { result ≤ left }
{
    if left < PIECE { left } else { PIECE }
}

/// Empties the log, and reads `count` bytes of a file from the offset `place`.
fn read_piece<F: GuardedFileSystem<()>>(
    fs: &mut F,
    path: &DavPath,
    place: u64,
    count: u64,
) -> FsResult<()>
    ensures same { (F.seen fs.new).contents ≡ (F.seen fs.old).contents }
    ensures fixed { (F.seen fs.new).facts ≡ (F.seen fs.old).facts }
    ensures ok { OnOk result (IsReadBetween F.seen F.reads (F.seen fs.old).contents path.now.key place (place + count)) }
    ensures err { IfErr result (IsFailure F.seen F.reads (F.seen fs.old).contents path.now.key) }
{
    fs.clear_log();
    fs.read_bytes(path, place, count as usize, &())?;
    Ok(())
}
