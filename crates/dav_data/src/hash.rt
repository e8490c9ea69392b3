//! Digests of blocks.
ghost use Rattle.std.specs.Prelude.{◌≡◌, ◌<◌, ◌+◌, ◌^◌, ◌++◌, ℕ, List, [], length};
ghost use Rattle.sqlite_disk.specs.Digest.{digest as digest_by};
ghost use Rattle.dav_data.specs.Digests.{hashed};
ghost use Rattle.dav_data.specs.Sip.{hasher_of};

use crate::sip::Sip;
use dav_blocks::Run;
use dav_pieces::Block;

/// A block that may grow, with the state of its digest.
#[derive(Clone, Copy)]
pub(crate) struct Tail {
    pub block: Block,
    pub hash: Sip,
}

impl Tail {
    /// Returns the tail of a new block with these bytes, which were written to a run.
    pub fn new(key: u64, run: Run, bytes: &[u8]) -> Tail
        requires long { run.len ≡ length bytes.now }
        requires small { run.len < 2 ^ 32 }
        ensures at { result.block.at ≡ run.at }
        ensures size { result.block.size ≡ run.len }
        ensures digest { result.block.digest ≡ digest_by key bytes.now }
        ensures hash { hasher_of result.hash ≡ hashed key bytes.now }
    {
        let hash = go_on(begin(key), bytes);
        Tail {
            block: Block {
                at: run.at,
                size: run.len as u32,
                digest: digest(hash),
            },
            hash,
        }
    }

    /// Returns the tail after its block has grown by these bytes.
    pub fn grown(self, bytes: &[u8]) -> Tail
        requires { self.block.size + length bytes.now < 2 ^ 32 }
        ensures at { result.block.at ≡ self.block.at }
        ensures size { result.block.size ≡ self.block.size + length bytes.now }
        ensures digest { (key : ℕ) (before : List ℕ) → hasher_of self.hash ≡ hashed key before → result.block.digest ≡ digest_by key (before ++ bytes.now) }
        ensures hash { (key : ℕ) (before : List ℕ) → hasher_of self.hash ≡ hashed key before → hasher_of result.hash ≡ hashed key (before ++ bytes.now) }
    {
        let hash = go_on(self.hash, bytes);
        Tail {
            block: Block {
                at: self.block.at,
                size: self.block.size + bytes.len() as u32,
                digest: digest(hash),
            },
            hash,
        }
    }
}

/// Returns the digest of the bytes of a block.
pub(crate) fn digest_of(key: u64, bytes: &[u8]) -> u64
    ensures { result ≡ digest_by key bytes.now }
{
    digest(go_on(begin(key), bytes))
}

/// Begins the hash of a block.
fn begin(key: u64) -> Sip
    ensures { hasher_of result ≡ hashed key [] }
{
    Sip::new().after(&key.to_le_bytes())
}

/// Goes on with the next bytes of a block.
fn go_on(hash: Sip, bytes: &[u8]) -> Sip
    ensures { (key : ℕ) (before : List ℕ) → hasher_of hash ≡ hashed key before → hasher_of result ≡ hashed key (before ++ bytes.now) }
{
    hash.after(bytes)
}

/// Returns the digest of the bytes so far.
fn digest(hash: Sip) -> u64
    ensures { (key : ℕ) (bytes : List ℕ) → hasher_of hash ≡ hashed key bytes → result ≡ digest_by key bytes }
{
    1.max(hash.finish())
}
