//! Where the blocks of files end in the data file.
ghost use Rattle.dav_data.specs.Data.{is_below};
ghost use Rattle.dav_keep.specs.Ends.{IsPieceBelow, ArePiecesBelow, AreBelow, FindsEnd};
ghost use Rattle.std.specs.Prelude.{◌≡◌, true};

use dav_nodes::NumberedValue;
use dav_pieces::{Body, Piece};
use dav_tree::{Content, Entry};

/// The places of a data file are below this one, and so are the lengths of its files.
const LIMIT: u64 = 1 << 63;

/// Returns the place at which or before which all blocks of the files end, the first such place. Returns `None` if a piece is
/// not within its block, if a file has 2^63 bytes or more, or if a block ends at 2^63 or after it.
pub(crate) fn end_of(values: &[NumberedValue<Entry<Body>>]) -> Option<usize>
    ensures { FindsEnd (AreBelow values.now) result }
{
    let mut end = 0;
    'values: for value in values {
        if let Content::File(body) = &value.value.content {
            end = end.max(end_of_body(body)?);
        }
    }
    Some(end)
}

/// The same for one file.
fn end_of_body(body: &Body) -> Option<usize>
    ensures { FindsEnd (λ end. is_below end body.now ≡ true) result }
{
    if body.len() >= LIMIT {
        return None;
    }
    end_of_pieces(body.pieces())
}

/// The same for the blocks of pieces.
fn end_of_pieces(pieces: &[Piece]) -> Option<usize>
    ensures { FindsEnd (ArePiecesBelow pieces.now) result }
{
    let mut end = 0;
    'pieces: for piece in pieces {
        end = end.max(end_of_piece(*piece)?);
    }
    Some(end)
}

/// The same for the block of a piece, if it has one.
fn end_of_piece(piece: Piece) -> Option<usize>
    ensures { FindsEnd (IsPieceBelow piece) result }
{
    match piece {
        Piece::Part { block, from, len } => {
            if u64::from(from) + u64::from(len) > u64::from(block.size) {
                return None;
            }
            let end = block.at.checked_add(block.size as usize)?;
            if (end as u64) < LIMIT {
                Some(end)
            } else {
                None
            }
        }
        Piece::Zeros(_) => Some(0),
    }
}
