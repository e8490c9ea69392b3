//! A run of bytes of a file.
ghost use Rattle.std.specs.Prelude.{◌≡◌, ◌≤◌, ◌+◌, ◌-◌, ◌++◌, ℕ, Bool, true, List, take, drop};
ghost use Rattle.dav_pieces.specs.declared.piece.Block.{Block};
ghost use Rattle.dav_pieces.specs.Pieces.{piece_len, piece_bytes, is_within, is_sound, block_ended};
ghost use Rattle.dav_pieces.specs.Growth.{IsGrown, growth, grown_bytes};

/// A run of the data file that was written there at once or bit by bit, with the digest of its bytes.
#[derive(Clone, Copy, Debug)]
pub struct Block {
    /// Where it begins, in bytes.
    pub at: usize,
    /// How many bytes it has.
    pub size: u32,
    /// The digest of its bytes.
    pub digest: u64,
}

/// A run of bytes of a file.
#[derive(Clone, Copy, Debug)]
pub enum Piece {
    /// A part of a block: `len` bytes, after the first `from` bytes of the block.
    Part { block: Block, from: u32, len: u32 },
    /// That many zeros, which are nowhere in the data file.
    Zeros(u64),
}

impl Piece {
    /// Returns the number of bytes.
    pub fn len(self) -> u64
        ensures { result ≡ piece_len self }
    {
        match self {
            Piece::Part { len, .. } => u64::from(len),
            Piece::Zeros(len) => len,
        }
    }

    /// Returns whether the piece is within its block.
    pub(crate) fn is_within(self) -> bool
        ensures { result ≡ is_within self }
    {
        match self {
            Piece::Part { block, from, len } => {
                u64::from(from) + u64::from(len) <= u64::from(block.size)
            }
            Piece::Zeros(_) => true,
        }
    }

    /// Returns the block whose last byte is the last of the piece, if there is one.
    pub(crate) fn block_ended(self) -> Option<Block>
        ensures { result ≡ block_ended self }
    {
        match self {
            Piece::Part { block, from, len }
                if u64::from(from) + u64::from(len) == u64::from(block.size) => { Some(block) }
            _ => None,
        }
    }

    /// Returns the first `n` bytes.
    pub(crate) fn first(self, n: u64) -> Piece
        requires { n ≤ piece_len self }
        ensures bytes { (file : List ℕ) → piece_bytes file result ≡ take n (piece_bytes file self) }
        ensures sound { (test : Block → Bool) → is_sound test self ≡ true → is_sound test result ≡ true }
        ensures len { piece_len result ≡ n }
    {
        match self {
            Piece::Part { block, from, .. } => Piece::Part {
                block,
                from,
                len: n as u32,
            },
            Piece::Zeros(_) => Piece::Zeros(n),
        }
    }

    /// Returns the bytes after the first `n`.
    pub(crate) fn rest(self, n: u64) -> Piece
        requires some { n ≤ piece_len self }
        requires within { is_within self ≡ true }
        ensures bytes { (file : List ℕ) → piece_bytes file result ≡ drop n (piece_bytes file self) }
        ensures sound { (test : Block → Bool) → is_sound test self ≡ true → is_sound test result ≡ true }
        ensures len { piece_len result ≡ piece_len self - n }
    {
        match self {
            Piece::Part { block, from, len } => Piece::Part {
                block,
                from: from + n as u32,
                len: len - n as u32,
            },
            Piece::Zeros(len) => Piece::Zeros(len - n),
        }
    }

    /// Returns the piece after the block that it ends has grown to another one.
    pub(crate) fn grown(self, grown: Block) -> Piece
        requires { IsGrown (block_ended self) (Some grown) }
        ensures bytes { (file : List ℕ) → piece_bytes file result ≡ piece_bytes file self ++ grown_bytes file (block_ended self) (Some grown) }
        ensures sound { (test : Block → Bool) → test grown ≡ true → is_sound test result ≡ true }
        ensures len { piece_len result ≡ piece_len self + growth (block_ended self) (Some grown) }
    {
        match self {
            Piece::Part { block, from, len } => Piece::Part {
                block: grown,
                from,
                len: len + (grown.size - block.size),
            },
            Piece::Zeros(_) => self,
        }
    }
}
