//! What a file contains.
ghost use Rattle.std.specs.Prelude.{◌≡◌, ◌≤◌, ◌<◌, ◌+◌, ◌^◌, ℕ, Bool, [], true, List, IfOk, OnOk, OnErr, IfSome, OnSome, IfNone};
ghost use Rattle.dav_store.specs.Calls.{bytes_from};
ghost use Rattle.dav_pieces.specs.declared.piece.Block.{Block};
ghost use Rattle.dav_pieces.specs.Pieces.{bytes_of, size_of, are_within, are_sound, last_block};
ghost use Rattle.dav_pieces.specs.Growth.{IsGrown, growth};
ghost use Rattle.dav_pieces.specs.Changes.{IsWrittenOver, IsAppended, KeepsSound, KeepsSoundGrown};

use crate::edits::{append, checked_size, cut, size, splice};
use crate::piece::{Block, Piece};
use std::alloc::{AllocError, Global};
use std::marker::Model;

/// The contents of a file, as pieces of blocks. In contracts its value is the list of them.
#[derive(Debug, Drop)]
pub struct Body {
    pieces: Vec<Piece>,
    /// The number of bytes.
    len: u64,
}

impl Model for Body {
    ghost use Rattle.std.specs.Prelude.{◌≡◌, List};
    ghost use Rattle.std.specs.Coded.{coded_list};
    ghost use Rattle.dav_pieces.specs.declared.piece.Piece.{Piece};
    ghost use Rattle.dav_pieces.specs.Pieces.{piece_code, size_of};

    ghost Value = { List Piece };

    ghost coded = { coded_list piece_code };

    ghost view = { λ b. b.pieces.items };

    ghost invariant = { λ b. b.len ≡ size_of b.pieces.items };
}

impl Body {
    /// Creates a body of no bytes.
    pub fn empty(alloc: Global) -> Body
        ensures { result ≡ [] }
    {
        Body {
            pieces: Vec::new(alloc),
            len: 0,
        }
    }

    /// Creates a body of these pieces. Returns `None` if one is not within its block, or if there are 2^63 bytes
    /// or more.
    pub fn from_pieces(pieces: Vec<Piece>) -> Option<Body>
        ensures pieces { IfSome result (λ body. body ≡ pieces.items) }
        ensures within { OnSome result (are_within pieces.items ≡ true) }
        ensures fits { OnSome result (size_of pieces.items < 2 ^ 63) }
        ensures none { IfNone result (are_within pieces.items ≡ true → 2 ^ 63 ≤ size_of pieces.items) }
    {
        let len = checked_size(&pieces)?;
        Some(Body { pieces, len })
    }

    /// Returns the number of bytes.
    pub fn len(&self) -> u64
        ensures { result ≡ size_of self.now }
    {
        self.len
    }

    /// Returns the pieces, in order.
    pub fn pieces(&self) -> &[Piece]
        ensures { result.now ≡ self.now }
    {
        self.pieces.as_slice()
    }

    /// Returns a copy, which has the same pieces. Fails only if memory runs out.
    pub fn copy(&self) -> Result<Body, AllocError>
        ensures { IfOk result (λ copy. copy ≡ self.now) }
    {
        Ok(Body {
            pieces: self.pieces.clone()?,
            len: self.len,
        })
    }

    /// Returns the block whose last byte is the last of the file, if there is one.
    pub fn last_block(&self) -> Option<Block>
        ensures { result ≡ last_block self.now }
    {
        match self.pieces.last() {
            Some(piece) => piece.block_ended(),
            None => None,
        }
    }

    /// Writes the bytes of other pieces at an offset. Zeros fill a gap, and writing no bytes changes nothing.
    /// Fails only if memory runs out, and then nothing changes. It takes time for each piece of the body and
    /// each of the others, whatever their bytes.
    pub fn write(&mut self, alloc: Global, place: u64, more: &[Piece]) -> Result<(), AllocError>
        requires within { are_within self.old ≡ true }
        requires fits { size_of self.old < 2 ^ 63 }
        requires room { place + size_of more.now < 2 ^ 63 }
        ensures ok { OnOk result (IsWrittenOver self.old place more.now self.new) }
        ensures sound { OnOk result (KeepsSound self.old more.now self.new) }
        ensures small { OnOk result (size_of self.new < 2 ^ 63) }
        ensures err { OnErr result (self.new ≡ self.old) }
    {
        let count = size(more);
        if count == 0 {
            return Ok(());
        }
        let end = place + count;
        self.pieces = splice(alloc, &self.pieces, place, more, end)?;
        self.len = self.len.max(end);
        Ok(())
    }

    /// Appends the bytes of other pieces, which takes time for these alone. If `grown` is a block, the body's
    /// last block has grown to it first. Fails only if memory runs out, and then nothing changes.
    pub fn append(&mut self, grown: Option<Block>, more: &[Piece]) -> Result<(), AllocError>
        requires grows { IsGrown (last_block self.old) grown }
        requires fits { size_of self.old + growth (last_block self.old) grown + size_of more.now < 2 ^ 63 }
        ensures ok { OnOk result (IsAppended self.old grown more.now self.new) }
        ensures sound { OnOk result (KeepsSoundGrown self.old grown more.now self.new) }
        ensures size { OnOk result (size_of self.new ≡ size_of self.old + growth (last_block self.old) grown + size_of more.now) }
        ensures err { OnErr result (self.new ≡ self.old) }
    {
        let count = append(&mut self.pieces, grown, more)?;
        self.len += count;
        Ok(())
    }

    /// Returns the pieces of `count` bytes from an offset on, or of fewer if the file ends before. Fails only if
    /// memory runs out.
    pub fn cut(&self, alloc: Global, place: u64, count: u64) -> Result<Vec<Piece>, AllocError>
        requires { are_within self.now ≡ true }
        ensures bytes { IfOk result (λ cut. (file : List ℕ) → bytes_of file cut.items ≡ bytes_from place count (bytes_of file self.now)) }
        ensures sound { IfOk result (λ cut. (test : Block → Bool) → are_sound test self.now ≡ true → are_sound test cut.items ≡ true) }
    {
        cut(alloc, &self.pieces, place, count)
    }
}
