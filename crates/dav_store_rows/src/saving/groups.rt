//! Groups of pieces.
ghost use Rattle.std.specs.Prelude.{◌≡◌, ◌<◌, ◌≤◌, ◌+◌, ◌^◌, length, take, IfSome, IfNone};
ghost use Rattle.dav_pieces.specs.Pieces.{size_of};

use dav_pieces::Piece;

/// The pieces that begin in the same stretch of so many bytes of a file are one row, so that a change of a file
/// leaves most of its rows as they are.
const STRETCH: u64 = 4 * 1024 * 1024;

/// Returns how many pieces are in the first group, and where in the file the next group begins, if the first
/// begins at `place`. Returns `None` if the pieces end at 2^64 bytes or more.
pub(super) fn first_group(pieces: &[Piece], place: u64) -> Option<(usize, u64)>
    requires { 0 < length pieces.now }
    ensures some { IfSome result (λ group. 0 < group.0) }
    ensures within { IfSome result (λ group. group.0 ≤ length pieces.now) }
    ensures end { IfSome result (λ group. group.1 ≡ place + size_of (take group.0 pieces.now)) }
    ensures none { IfNone result (2 ^ 64 ≤ place + size_of pieces.now) }
{
    let stretch = place / STRETCH;
    let mut count = 0;
    let mut end = place;
    'pieces: for piece in pieces {
        if count > 0 && end / STRETCH != stretch {
            break;
        }
        end = end.checked_add(piece.len())?;
        count += 1;
    }
    Some((count, end))
}
