//! Lists of pieces, cut and joined.
ghost use Rattle.std.specs.Prelude.{◌≡◌, ◌≤◌, ◌<◌, ◌+◌, ◌-◌, ◌^◌, ◌++◌, ℕ, Bool, true, List, take, drop, IfOk, OnOk, OnErr, IfSome, OnSome, IfNone};
ghost use Rattle.dav_store.specs.Calls.{bytes_from};
ghost use Rattle.dav_pieces.specs.declared.piece.Block.{Block};
ghost use Rattle.dav_pieces.specs.Pieces.{piece_bytes, bytes_of, size_of, are_within, are_sound, last_block};
ghost use Rattle.dav_pieces.specs.Growth.{IsGrown, growth};
ghost use Rattle.dav_pieces.specs.Changes.{AddsPart, IsWrittenOver, IsAppended, KeepsSoundPiece, KeepsSound, KeepsSoundGrown};

use crate::piece::{Block, Piece};
use std::alloc::{AllocError, Global};

/// A file has fewer bytes than this.
const LIMIT: u64 = 1 << 63;

/// Returns the number of bytes of pieces.
pub(crate) fn size(pieces: &[Piece]) -> u64
    requires { size_of pieces.now < 2 ^ 63 }
    ensures { result ≡ size_of pieces.now }
{
    let mut size = 0;
    for piece in pieces {
        size += piece.len();
    }
    size
}

/// Returns the number of bytes of pieces. Returns `None` if one is not within its block, or if there are 2^63
/// bytes or more.
pub(crate) fn checked_size(pieces: &[Piece]) -> Option<u64>
    ensures size { IfSome result (λ size. size ≡ size_of pieces.now) }
    ensures within { OnSome result (are_within pieces.now ≡ true) }
    ensures fits { OnSome result (size_of pieces.now < 2 ^ 63) }
    ensures none { IfNone result (are_within pieces.now ≡ true → 2 ^ 63 ≤ size_of pieces.now) }
{
    let mut size = 0u64;
    for piece in pieces {
        if !piece.is_within() {
            return None;
        }
        size = size.checked_add(piece.len())?;
        if size >= LIMIT {
            return None;
        }
    }
    Some(size)
}

/// Appends a piece, unless it is empty. Fails only if memory runs out, and then nothing changes.
pub(crate) fn push(pieces: &mut Vec<Piece>, piece: Piece) -> Result<(), AllocError>
    ensures bytes { OnOk result ((file : List ℕ) → bytes_of file pieces.new.items ≡ bytes_of file pieces.old.items ++ piece_bytes file piece) }
    ensures sound { OnOk result (KeepsSoundPiece pieces.old.items piece pieces.new.items) }
    ensures err { OnErr result (pieces.new.items ≡ pieces.old.items) }
{
    if piece.len() > 0 {
        pieces.push(piece)?;
    }
    Ok(())
}

/// Appends the first `n` bytes of a file, or all if there are fewer, and returns how many are missing.
pub(crate) fn append_first(
    out: &mut Vec<Piece>,
    pieces: &[Piece],
    n: u64,
) -> Result<u64, AllocError>
    ensures bytes { OnOk result (AddsPart (take n) out.old.items pieces.now out.new.items) }
    ensures sound { OnOk result (KeepsSound out.old.items pieces.now out.new.items) }
    ensures missing { IfOk result (λ missing. missing ≡ n - size_of pieces.now) }
{
    let mut left = n;
    for piece in pieces {
        if left == 0 {
            break;
        }
        let part = piece.len().min(left);
        push(out, piece.first(part))?;
        left -= part;
    }
    Ok(left)
}

/// Appends the bytes of a file after the first `n`.
pub(crate) fn append_rest(out: &mut Vec<Piece>, pieces: &[Piece], n: u64) -> Result<(), AllocError>
    requires { are_within pieces.now ≡ true }
    ensures bytes { OnOk result (AddsPart (drop n) out.old.items pieces.now out.new.items) }
    ensures sound { OnOk result (KeepsSound out.old.items pieces.now out.new.items) }
{
    let mut left = n;
    for piece in pieces {
        let part = piece.len().min(left);
        push(out, piece.rest(part))?;
        left -= part;
    }
    Ok(())
}

/// Returns the pieces of a file after some bytes are written at an offset, of which there is at least one.
pub(crate) fn splice(
    alloc: Global,
    pieces: &[Piece],
    place: u64,
    more: &[Piece],
    end: u64,
) -> Result<Vec<Piece>, AllocError>
    requires within { are_within pieces.now ≡ true }
    requires some { 0 < size_of more.now }
    requires ends { end ≡ place + size_of more.now }
    ensures bytes { IfOk result (λ spliced. IsWrittenOver pieces.now place more.now spliced.items) }
    ensures sound { IfOk result (λ spliced. KeepsSound pieces.now more.now spliced.items) }
{
    let mut out = Vec::new(alloc);
    let missing = append_first(&mut out, pieces, place)?;
    push(&mut out, Piece::Zeros(missing))?;
    out.extend_from_slice(more)?;
    append_rest(&mut out, pieces, end)?;
    Ok(out)
}

/// Appends other pieces. If `grown` is a block, the last block has grown to it first. Returns by how many bytes
/// there are more. Fails only if memory runs out, and then nothing changes.
pub(crate) fn append(
    pieces: &mut Vec<Piece>,
    grown: Option<Block>,
    more: &[Piece],
) -> Result<u64, AllocError>
    requires grows { IsGrown (last_block pieces.old.items) grown }
    requires fits { growth (last_block pieces.old.items) grown + size_of more.now < 2 ^ 63 }
    ensures bytes { OnOk result (IsAppended pieces.old.items grown more.now pieces.new.items) }
    ensures sound { OnOk result (KeepsSoundGrown pieces.old.items grown more.now pieces.new.items) }
    ensures count { IfOk result (λ count. count ≡ growth (last_block pieces.old.items) grown + size_of more.now) }
    ensures err { OnErr result (pieces.new.items ≡ pieces.old.items) }
{
    let count = size(more);
    let old_len = pieces.len();
    pieces.extend_from_slice(more)?;
    match grown {
        None => Ok(count),
        Some(block) => {
            let piece = pieces[old_len - 1];
            let longer = piece.grown(block);
            pieces[old_len - 1] = longer;
            Ok(longer.len() - piece.len() + count)
        }
    }
}

/// Returns the pieces of `count` bytes of a file from an offset on, or of fewer if the file ends before.
pub(crate) fn cut(
    alloc: Global,
    pieces: &[Piece],
    place: u64,
    count: u64,
) -> Result<Vec<Piece>, AllocError>
    requires { are_within pieces.now ≡ true }
    ensures bytes { IfOk result (λ cut. (file : List ℕ) → bytes_of file cut.items ≡ bytes_from place count (bytes_of file pieces.now)) }
    ensures sound { IfOk result (λ cut. (test : Block → Bool) → are_sound test pieces.now ≡ true → are_sound test cut.items ≡ true) }
{
    let mut out = Vec::new(alloc);
    let mut skip = place;
    let mut left = count;
    for piece in pieces {
        if left == 0 {
            break;
        }
        let len = piece.len();
        if len <= skip {
            skip -= len;
            continue;
        }
        let rest = piece.rest(skip);
        let part = rest.len().min(left);
        push(&mut out, rest.first(part))?;
        skip = 0;
        left -= part;
    }
    Ok(out)
}
