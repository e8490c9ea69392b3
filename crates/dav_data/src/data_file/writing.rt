//! Writes of bytes as blocks.
ghost use Rattle.std.specs.Prelude.{◌≡◌, ◌<◌, ◌+◌, ◌^◌, ◌++◌, true, Some, length, IfOk, IfErr, IfSome, OnOk, OnErr};
ghost use Rattle.dav_pieces.specs.Pieces.{size_of, last_block};
ghost use Rattle.dav_data.specs.Runs.{blocks_pass};
ghost use Rattle.dav_pieces.specs.declared.piece.Piece.TheVariants.{Part};
ghost use Rattle.dav_store.specs.Calls.{written_at};
ghost use Rattle.dav_data.specs.Digests.{IsTailOf};
ghost use Rattle.dav_data.specs.Errors.{IsFailure, is_own_error, failure_of};

use crate::data_file::DataFile;
use crate::hash::Tail;
use dav_pieces::{Block, Body, Piece};
use dav_resource::{FsError, FsResult};
use sqlite_disk::{Disk, is_no_room};
use std::alloc::Global;
use std::io;

/// The most bytes of a block.
const MAX_BLOCK: usize = 1 << 16;

/// The most blocks that may grow.
const MAX_TAILS: usize = 64;

/// New blocks, as pieces, and the last of them.
#[derive(Drop)]
pub(crate) struct Added {
    pieces: Vec<Piece>,
    last: Option<Tail>,
}

/// The last block of a body after it has grown, if it has, and by how many bytes.
#[derive(Drop)]
pub(crate) struct Grown {
    block: Option<Block>,
    len: usize,
}

impl<D: Disk> DataFile<D> {
    ghost use Rattle.dav_data.specs.Digests.{IsHashed};
    ghost use Rattle.dav_data.specs.Data.{data_of, in_use, body_bytes, is_held, has_digests, tail_at, Keeps, AreAdded, IsFirst, HasGrown, IsForced, IsDiskFailure};

    /// Writes bytes at an offset of a body. Zeros fill a gap. After an error the body is unchanged.
    pub(crate) fn write_at(
        &mut self,
        alloc: Global,
        body: &mut Body,
        place: u64,
        bytes: &[u8],
    ) -> FsResult<()>
        requires held { is_held self.old body.old ≡ true }
        requires fits { place + length bytes.now < 2 ^ 63 }
        ensures ok { OnOk result (body_bytes self.new body.new ≡ written_at (body_bytes self.old body.old) place bytes.now) }
        ensures held { is_held self.new body.new ≡ true }
        ensures digests { OnOk result (has_digests self.old body.old ≡ true → has_digests self.new body.new ≡ true) }
        ensures same { OnErr result (body.new ≡ body.old) }
        ensures err { IfErr result IsFailure }
        ensures cause { IfErr result (IsForced self.old self.new) }
        ensures kept { Keeps self.old self.new }
    {
        if place == body.len() {
            return self.append(alloc, body, bytes);
        }
        let added = self.add(alloc, bytes)?;
        body.write(alloc, place, added.pieces.as_slice())?;
        Ok(())
    }

    /// Writes bytes at the end of a body. After an error the body is unchanged.
    pub(crate) fn append(&mut self, alloc: Global, body: &mut Body, bytes: &[u8]) -> FsResult<()>
        requires held { is_held self.old body.old ≡ true }
        requires fits { size_of body.old + length bytes.now < 2 ^ 63 }
        ensures ok { OnOk result (body_bytes self.new body.new ≡ body_bytes self.old body.old ++ bytes.now) }
        ensures held { is_held self.new body.new ≡ true }
        ensures digests { OnOk result (has_digests self.old body.old ≡ true → has_digests self.new body.new ≡ true) }
        ensures same { OnErr result (body.new ≡ body.old) }
        ensures err { IfErr result IsFailure }
        ensures cause { IfErr result (IsForced self.old self.new) }
        ensures kept { Keeps self.old self.new }
    {
        let before = body.len();
        let grown = self.grow_last(body, bytes)?;
        let added = self.add(alloc, bytes.split_at(grown.len).1)?;
        body.append(grown.block, added.pieces.as_slice())?;
        self.remember(added.last, before);
        Ok(())
    }

    /// Writes bytes as new blocks.
    pub(crate) fn add(&mut self, alloc: Global, bytes: &[u8]) -> FsResult<Added>
        ensures added { IfOk result (λ added. AreAdded bytes.now added self.new) }
        ensures err { IfErr result IsFailure }
        ensures cause { IfErr result (IsForced self.old self.new) }
        ensures kept { Keeps self.old self.new }
    {
        let mut pieces = Vec::new(alloc);
        let mut last = None;
        let mut rest = bytes;
        'rest: while !rest.is_empty() {
            let tail = self.add_block(rest)?;
            pieces.push(whole(tail.block))?;
            rest = rest.split_at(tail.block.size as usize).1;
            last = Some(tail);
        }
        Ok(Added { pieces, last })
    }

    /// Writes the first of the bytes as one block: as many as a block may have, or as there are in one run.
    fn add_block(&mut self, bytes: &[u8]) -> FsResult<Tail>
        requires { 0 < length bytes.now }
        ensures first { IfOk result (λ tail. IsFirst bytes.now tail self.new) }
        ensures err { IfErr result (λ e. is_own_error e ≡ true) }
        ensures cause { IfErr result (IsDiskFailure self.old self.new) }
        ensures kept { Keeps self.old self.new }
    {
        let most = bytes.len().min(MAX_BLOCK);
        let run = match self.file.write(&bytes[..most]) {
            Ok(run) => run,
            Err(error) => return Err(failure(&error)),
        };
        Ok(Tail::new(self.key, run, &bytes[..run.len]))
    }

    /// Writes the first of the bytes behind the last block of a body, as many as it has room for.
    fn grow_last(&mut self, body: &Body, bytes: &[u8]) -> FsResult<Grown>
        requires { blocks_pass (in_use self.old) body.now ≡ true }
        ensures grown { IfOk result (λ grown. HasGrown (last_block body.now) bytes.now grown self.new) }
        ensures err { IfErr result (λ e. is_own_error e ≡ true) }
        ensures cause { IfErr result (IsDiskFailure self.old self.new) }
        ensures kept { Keeps self.old self.new }
    {
        if let Some(block) = body.last_block() {
            if let Some(index) = tail_of(&self.tails, block) {
                return self.grow(index, bytes);
            }
        }
        Ok(Grown {
            block: None,
            len: 0,
        })
    }

    /// Writes the first of the bytes behind the block of a tail, as many as it has room for.
    fn grow(&mut self, index: usize, bytes: &[u8]) -> FsResult<Grown>
        requires { index < length self.old.tails.items }
        ensures grown { IfOk result (λ grown. HasGrown (Some (tail_at index self.old).block) bytes.now grown self.new) }
        ensures err { IfErr result (λ e. is_own_error e ≡ true) }
        ensures cause { IfErr result (IsDiskFailure self.old self.new) }
        ensures kept { Keeps self.old self.new }
    {
        let tail = self.tails[index];
        let size = tail.block.size as usize;
        let most = bytes.len().min(MAX_BLOCK.saturating_sub(size));
        let len = match self.file.write_behind(tail.block.at + size, &bytes[..most]) {
            Ok(len) => len,
            Err(error) => return Err(failure(&error)),
        };
        if len == 0 {
            return Ok(Grown {
                block: None,
                len: 0,
            });
        }
        let grown = tail.grown(&bytes[..len]);
        self.tails[index] = grown;
        Ok(Grown {
            block: Some(grown.block),
            len,
        })
    }

    /// Remembers a block that was just written, so that it may grow, and reserves at most `room` bytes behind it.
    /// A block without room is not remembered. If there are too many, the oldest does not grow any more.
    fn remember(&mut self, last: Option<Tail>, room: u64)
        requires { IfSome last (IsHashed self.old.key (data_of self.old) (in_use self.old)) }
        ensures { Keeps self.old self.new }
    {
        let Some(tail) = last else {
            return;
        };
        let left = MAX_BLOCK.saturating_sub(tail.block.size as usize);
        let room = left.min(room as usize);
        if room == 0 {
            return;
        }
        if self.tails.len() >= MAX_TAILS {
            self.tails.remove(0);
        }
        if self.tails.push(tail).is_ok() {
            self.file.make_room(room);
        }
    }
}

/// Returns a block as a piece.
fn whole(block: Block) -> Piece
    ensures { result ≡ Part block 0 block.size }
{
    Piece::Part {
        block,
        from: 0,
        len: block.size,
    }
}

/// Returns the index of the tail with the place and the size of a block, if there is one.
fn tail_of(tails: &[Tail], block: Block) -> Option<usize>
    ensures { IfSome result (λ i. IsTailOf block i tails.now) }
{
    for (index, tail) in tails.iter().enumerate() {
        if tail.block.at == block.at && tail.block.size == block.size {
            return Some(index);
        }
    }
    None
}

/// Returns the error of a store for an error of the disk: `InsufficientStorage` if it is full, or else
/// `GeneralFailure`.
pub(crate) fn failure(error: &io::Error) -> FsError
    ensures own { is_own_error result ≡ true }
    ensures value { result ≡ failure_of error.now }
{
    if is_no_room(error) {
        FsError::InsufficientStorage
    } else {
        FsError::GeneralFailure
    }
}
