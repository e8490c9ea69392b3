//! What the rows of a store's database hold, as bytes.
//!
//! A cell is the bytes of one value of a row. It holds the pieces of a part of a file, an element, or a lock.
//! Each value has exactly one encoding: a cell decodes only if it is the bytes that an encoding gives.
//! Numbers, strings, optional values and elements are encoded as in `dav_wire`.
//!
//! - Pieces are their count as a number, and then each piece.
//! - A piece of a block is the byte 0, and five numbers: where the block begins, its size, its digest, how many
//!   of its bytes come before the piece, and how many bytes the piece has. A run of zeros is the byte 1, and
//!   how many they are. A size or a number of bytes within a block is less than 2^32.
//! - An element has at most `ELEMENT_LEVELS` levels.
//! - A lock is its token, a string; its path; its principal, an optional string; its timeout in seconds and when
//!   it ends, two optional numbers; whether it is shared and whether it is deep, two flags; and its owner, an
//!   optional element.
//! - A path is two flags, whether it is the star path and whether it has a trailing slash, and then its prefix
//!   and its key. A key is the count of its segments as a number, and then each segment as a string.
#![tactic(auto)]

mod elements;
mod error;
mod locks;
mod paths;
mod pieces;

pub use elements::{ELEMENT_LEVELS, decode_element, encode_element};
pub use error::CellError;
pub use locks::{decode_lock, encode_lock};
pub use pieces::{decode_pieces, encode_pieces};
