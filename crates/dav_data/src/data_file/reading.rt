//! Reads of bodies, whose blocks must have their digests.
ghost use Rattle.std.specs.Prelude.{◌≡◌, ◌≤◌, ◌+◌, ◌++◌, true, length, take, drop, replicate, IfOk, IfErr, OnOk};
ghost use Rattle.sqlite_disk.specs.Digest.{digest};
ghost use Rattle.dav_pieces.specs.Pieces.{bytes_at, is_within};
ghost use Rattle.dav_store.specs.Calls.{bytes_from};
ghost use Rattle.dav_data.specs.Runs.{piece_passes};
ghost use Rattle.dav_data.specs.Errors.{IsFailure};

use crate::data_file::DataFile;
use crate::data_file::writing::failure;
use crate::hash::digest_of;
use dav_pieces::{Block, Body, Piece};
use dav_resource::{FsError, FsResult};
use sqlite_disk::Disk;
use std::alloc::Global;

impl<D: Disk> DataFile<D> {
    ghost use Rattle.dav_data.specs.Data.{data_of, in_use, is_honest, body_bytes, is_held, is_whole, has_digest, has_digests, Keeps, IsReadChecked, IsReadOrCollides, IsReadTo, IsUnread};

    /// Returns `count` bytes of a body from an offset on, or fewer if the body ends before. Each block that has
    /// some of them must have its digest, or else the error is `GeneralFailure`.
    pub(crate) fn read_checked(
        &mut self,
        alloc: Global,
        body: &Body,
        place: u64,
        count: usize,
    ) -> FsResult<Vec<u8>>
        requires { is_held self.old body.now ≡ true }
        ensures bytes { IfOk result (λ found. is_honest self.new ≡ true → found.items ≡ bytes_from place count (body_bytes self.old body.now)) }
        ensures count { IfOk result (λ found. length found.items ≡ length (bytes_from place count (body_bytes self.old body.now))) }
        ensures checked { IfOk result (λ found. IsReadChecked self.old body.now place count found.items) }
        ensures right { IfOk result (λ found. has_digests self.old body.now ≡ true → IsReadOrCollides self.old body.now place count found.items) }
        ensures err { IfErr result IsFailure }
        ensures cause { IfErr result (IsUnread (has_digests self.old body.now) self.old self.new) }
        ensures same { data_of self.new ≡ data_of self.old }
        ensures kept { Keeps self.old self.new }
        ensures honest { is_honest self.new ≡ true → is_honest self.old ≡ true }
    {
        let pieces = body.cut(alloc, place, count as u64)?;
        let mut found = Vec::new(alloc);
        for piece in pieces.as_slice() {
            self.read_piece(alloc, *piece, &mut found)?;
        }
        Ok(found)
    }

    /// Appends the bytes of a piece.
    fn read_piece(&mut self, alloc: Global, piece: Piece, found: &mut Vec<u8>) -> FsResult<()>
        requires { is_within piece ≡ true }
        ensures ok { OnOk result (IsReadTo piece self.old found.old.items self.new found.new.items) }
        ensures err { IfErr result IsFailure }
        ensures cause { IfErr result (λ e. piece_passes (in_use self.old) piece ≡ true → IsUnread (has_digest self.old piece) self.old self.new e) }
        ensures same { data_of self.new ≡ data_of self.old }
        ensures kept { Keeps self.old self.new }
        ensures honest { is_honest self.new ≡ true → is_honest self.old ≡ true }
    {
        match piece {
            Piece::Part { block, from, len } => {
                let bytes = self.read_block(alloc, block)?;
                found.extend_from_slice(part(&bytes, from as usize, len as usize))?;
            }
            Piece::Zeros(len) => append_zeros(found, len)?,
        }
        Ok(())
    }

    /// Returns the bytes of a block, which must have its digest.
    fn read_block(&mut self, alloc: Global, block: Block) -> FsResult<Vec<u8>>
        ensures bytes { IfOk result (λ bytes. is_honest self.new ≡ true → bytes.items ≡ bytes_at (data_of self.old) block.at block.size) }
        ensures size { IfOk result (λ bytes. length bytes.items ≡ block.size) }
        ensures right { IfOk result (λ bytes. digest self.old.key bytes.items ≡ block.digest) }
        ensures err { IfErr result IsFailure }
        ensures cause { IfErr result (λ e. in_use self.old block.at block.size ≡ true → IsUnread (is_whole self.old block) self.old self.new e) }
        ensures same { data_of self.new ≡ data_of self.old }
        ensures kept { Keeps self.old self.new }
        ensures honest { is_honest self.new ≡ true → is_honest self.old ≡ true }
    {
        let mut bytes = vec![in alloc; 0u8; block.size as usize]?;
        if let Err(error) = self.file.read(block.at, &mut bytes) {
            return Err(failure(&error));
        }
        if digest_of(self.key, &bytes) != block.digest {
            return Err(FsError::GeneralFailure);
        }
        Ok(bytes)
    }
}

/// Borrows `len` bytes after the first `from`.
fn part(bytes: &[u8], from: usize, len: usize) -> &[u8]
    requires { from + len ≤ length bytes.now }
    ensures { result.now ≡ take len (drop from bytes.now) }
{
    let rest = &bytes[from..];
    &rest[..len]
}

/// Appends zeros. Fails only if memory runs out.
fn append_zeros(found: &mut Vec<u8>, count: u64) -> FsResult<()>
    ensures ok { OnOk result (found.new.items ≡ found.old.items ++ replicate count 0) }
    ensures err { IfErr result (λ e. e ≡ FsError.Memory) }
{
    let Some(len) = found.len().checked_add(count as usize) else {
        return Err(FsError::Memory);
    };
    found.resize(len, 0)?;
    Ok(())
}
