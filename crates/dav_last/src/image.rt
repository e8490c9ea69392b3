//! What a slot holds.
ghost use Rattle.std.specs.Prelude.{◌≡◌, ◌++◌};
ghost use Rattle.dav_last.specs.Images.{image_of_number, first_number, named};

use sqlite_disk::digest_of;

/// How many bytes a slot has.
pub(crate) const LEN: usize = 16;

/// Returns the contents of a slot that names a number: the number, and its digest under the key of the folder.
#[tactic(auto, unfolding(crate::specs::Images::image_of_number))]
pub(crate) fn image_of(key: u64, number: u64) -> [u8; 16]
    ensures { result ≡ image_of_number key number }
{
    let number = number.to_be_bytes();
    joined(&number, &digest_of(key, &number).to_be_bytes())
}

/// Returns the bytes of both, one after the other.
fn joined(first: &[u8; 8], second: &[u8; 8]) -> [u8; 16]
    ensures { result ≡ first.now ++ second.now }
{
    let mut bytes = [0; LEN];
    bytes[..8].copy_from_slice(first);
    bytes[8..].copy_from_slice(second);
    bytes
}

/// Returns the number that a slot with these contents names, if it names one.
#[tactic(auto, unfolding(crate::specs::Images::named))]
pub(crate) fn number_in(key: u64, content: &[u8; 16]) -> Option<u64>
    ensures { result ≡ named key content.now }
{
    let number = first_number(content);
    if *content == image_of(key, number) {
        return Some(number);
    }
    None
}

/// Returns the number that the first bytes are.
#[tactic(auto, unfolding(crate::specs::Images::first_number))]
fn first_number(content: &[u8; 16]) -> u64
    ensures { result ≡ first_number content.now }
{
    let (front, _) = content.split_at(8);
    u64::from_be_bytes([
        front[0], front[1], front[2], front[3], front[4], front[5], front[6], front[7],
    ])
}
