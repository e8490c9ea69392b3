//! The pieces of a part of a file.
ghost use Rattle.std.specs.Prelude.{◌≡◌, length, take, IfOk, OnOk, OnErr, IfErr};
ghost use Rattle.dav_wire.specs.Writes.{Writes, IsEncoding};
ghost use Rattle.dav_wire.specs.Reads.{Reads};
ghost use Rattle.dav_cells.specs.Cells.{NotDecoded, AppendsDecoded};
ghost use Rattle.dav_cells.specs.Pieces.{small_number, block_codec, part_codec, piece_codec, pieces_codec};

use crate::CellError;
use dav_pieces::{Block, Piece};
use dav_wire::{Reader, WireError, Writer};
use std::alloc::{AllocError, Global};

/// Encodes pieces. Fails only if memory runs out.
pub fn encode_pieces(alloc: Global, pieces: &[Piece]) -> Result<Vec<u8>, AllocError>
    ensures { IfOk result (λ bytes. IsEncoding pieces_codec pieces.now bytes.items) }
{
    let mut writer = Writer::new(alloc);
    writer.write_number(pieces.len() as u64)?;
    for piece in pieces {
        write_piece(&mut writer, *piece)?;
    }
    Ok(writer.into_bytes())
}

/// Decodes pieces, and appends them. After an error nothing is appended.
///
/// - `Malformed`: the bytes are not the encoding of pieces.
/// - `Memory`: memory runs out. The memory used grows with the pieces that are there, not with their count
///   that the cell begins with.
pub fn decode_pieces(bytes: &[u8], into: &mut Vec<Piece>) -> Result<(), CellError>
    ensures ok { OnOk result (AppendsDecoded pieces_codec bytes.now into.old.items into.new.items) }
    ensures err { OnErr result (into.new.items ≡ into.old.items) }
    ensures cause { IfErr result (NotDecoded pieces_codec bytes.now) }
{
    let old_len = into.len();
    let result = append_decoded(bytes, into);
    if result.is_err() {
        into.truncate(old_len);
    }
    result
}

/// Decodes pieces, and appends them. After an error some may have been appended.
fn append_decoded(bytes: &[u8], into: &mut Vec<Piece>) -> Result<(), CellError>
    ensures ok { OnOk result (AppendsDecoded pieces_codec bytes.now into.old.items into.new.items) }
    ensures err { OnErr result (take (length into.old.items) into.new.items ≡ into.old.items) }
    ensures cause { IfErr result (NotDecoded pieces_codec bytes.now) }
{
    let mut reader = Reader::new(*into.allocator(), bytes);
    let mut left = reader.read_number()?;
    while left > 0 {
        let piece = read_piece(&mut reader)?;
        into.push(piece)?;
        left -= 1;
    }
    if reader.is_at_end() {
        Ok(())
    } else {
        Err(CellError::Malformed)
    }
}

/// Writes a piece: the byte 0 and a part of a block, or the byte 1 and the number of zeros.
fn write_piece(writer: &mut Writer, piece: Piece) -> Result<(), AllocError>
    ensures { Writes piece_codec piece writer.old result writer.new }
{
    match piece {
        Piece::Part { block, from, len } => {
            writer.write_u8(0)?;
            write_part(writer, block, from, len)
        }
        Piece::Zeros(len) => {
            writer.write_u8(1)?;
            writer.write_number(len)
        }
    }
}

/// Writes a part of a block.
fn write_part(writer: &mut Writer, block: Block, from: u32, len: u32) -> Result<(), AllocError>
    ensures { Writes part_codec (block, (from, len)) writer.old result writer.new }
{
    write_block(writer, block)?;
    write_small_number(writer, from)?;
    write_small_number(writer, len)
}

/// Writes where a block begins, its size and its digest.
fn write_block(writer: &mut Writer, block: Block) -> Result<(), AllocError>
    ensures { Writes block_codec block writer.old result writer.new }
{
    writer.write_number(block.at as u64)?;
    write_small_number(writer, block.size)?;
    writer.write_number(block.digest)
}

/// Writes a number below 2^32.
fn write_small_number(writer: &mut Writer, value: u32) -> Result<(), AllocError>
    ensures { Writes small_number value writer.old result writer.new }
{
    writer.write_number(u64::from(value))
}

/// Reads a piece.
fn read_piece(reader: &mut Reader<'_>) -> Result<Piece, WireError>
    ensures { Reads piece_codec (λ x. x) reader.old result reader.new }
{
    match reader.read_u8()? {
        0 => {
            let (block, from, len) = read_part(reader)?;
            Ok(Piece::Part { block, from, len })
        }
        1 => Ok(Piece::Zeros(reader.read_number()?)),
        _ => Err(WireError::Malformed),
    }
}

/// Reads a part of a block: the block, how many of its bytes come before, and how many there are.
fn read_part(reader: &mut Reader<'_>) -> Result<(Block, u32, u32), WireError>
    ensures { Reads part_codec (λ p. (p.0, (p.1, p.2))) reader.old result reader.new }
{
    let block = read_block(reader)?;
    let from = read_small_number(reader)?;
    let len = read_small_number(reader)?;
    Ok((block, from, len))
}

/// Reads where a block begins, its size and its digest.
fn read_block(reader: &mut Reader<'_>) -> Result<Block, WireError>
    ensures { Reads block_codec (λ b. b) reader.old result reader.new }
{
    let at = reader.read_number()? as usize;
    let size = read_small_number(reader)?;
    let digest = reader.read_number()?;
    Ok(Block { at, size, digest })
}

/// Reads a number below 2^32.
fn read_small_number(reader: &mut Reader<'_>) -> Result<u32, WireError>
    ensures { Reads small_number (λ n. n) reader.old result reader.new }
{
    match u32::try_from(reader.read_number()?) {
        Ok(value) => Ok(value),
        Err(_) => Err(WireError::Malformed),
    }
}
