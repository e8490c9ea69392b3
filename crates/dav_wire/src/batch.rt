//! Batches of frames, and batches of replies.
ghost use Rattle.std.specs.Prelude.{◌≡◌, Some, map};
ghost use Rattle.dav_wire.specs.Codec.{decode};
ghost use Rattle.dav_wire.specs.Batches.{three_numbers, batch_header, reply_header, batch};
ghost use Rattle.dav_wire.specs.Reads.{Decodes};
ghost use Rattle.dav_wire.specs.Writes.{IsEncoding};

use crate::{Reader, WireError};
use byteorder::{BigEndian, ByteOrder};
use std::alloc::Global;

/// The header of a batch of frames.
#[derive(Clone, Copy, Debug, PartialEq, Eq)]
pub struct BatchHeader {
    /// The number of the batch, which the batch of replies repeats.
    pub number: u64,
    /// The time, in whole seconds since 1970.
    pub now: u64,
    /// How many bytes the content has.
    pub length: u64,
}

impl BatchHeader {
    /// Reads a header from its 24 bytes: three numbers.
    pub fn from_bytes(bytes: &[u8; 24]) -> BatchHeader
        ensures { decode batch_header bytes.now ≡ Some result }
    {
        let (number, now, length) = three_numbers(bytes);
        BatchHeader {
            number,
            now,
            length,
        }
    }

    /// Returns the 24 bytes of the header.
    pub fn to_bytes(self) -> [u8; 24]
        ensures { IsEncoding batch_header self result }
    {
        from_three_numbers(self.number, self.now, self.length)
    }
}

/// The header of a batch of replies. Each reply follows as a byte string.
#[derive(Clone, Copy, Debug, PartialEq, Eq)]
pub struct ReplyHeader {
    /// The number of the batch of frames. With the status 409 the number of the last batch.
    pub number: u64,
    /// The HTTP status of the batch as a whole.
    pub status: u16,
    /// How many replies follow.
    pub count: u64,
}

impl ReplyHeader {
    /// Reads a header from its 24 bytes: three numbers. Returns `Malformed` if the status is not less than
    /// 65536.
    pub fn from_bytes(bytes: &[u8; 24]) -> Result<ReplyHeader, WireError>
        ensures { Decodes reply_header (λ h. h) bytes.now result }
    {
        let (number, status, count) = three_numbers(bytes);
        match u16::try_from(status) {
            Ok(status) => Ok(ReplyHeader {
                number,
                status,
                count,
            }),
            Err(_) => Err(WireError::Malformed),
        }
    }

    /// Returns the 24 bytes of the header.
    pub fn to_bytes(self) -> [u8; 24]
        ensures { IsEncoding reply_header self result }
    {
        from_three_numbers(self.number, u64::from(self.status), self.count)
    }
}

/// Reads the content of a batch, which must be the whole of `content`. Returns the frames in it, or the
/// replies, in order. They are borrowed from the content.
///
/// - `Malformed`: the content is not the encoding of a list of byte strings.
/// - `Memory`: memory runs out. The memory used grows with the frames that are there, not with their count
///   that the content begins with.
pub fn read_batch<'a>(alloc: Global, content: &'a [u8]) -> Result<Vec<&'a [u8]>, WireError>
    ensures { Decodes batch (λ v. map (λ s. s.now) v.items) content.now result }
{
    let mut reader = Reader::new(alloc, content);
    let frames = reader.read_batch()?;
    if reader.is_at_end() {
        Ok(frames)
    } else {
        Err(WireError::Malformed)
    }
}

/// Reads three numbers.
fn three_numbers(bytes: &[u8; 24]) -> (u64, u64, u64)
    ensures { decode three_numbers bytes.now ≡ Some (result.0, (result.1, result.2)) }
{
    let first = BigEndian::read_u64(bytes);
    let second = BigEndian::read_u64(&bytes[8..]);
    let third = BigEndian::read_u64(&bytes[16..]);
    (first, second, third)
}

/// Writes three numbers.
fn from_three_numbers(first: u64, second: u64, third: u64) -> [u8; 24]
    ensures { IsEncoding three_numbers (first, (second, third)) result }
{
    let mut bytes = [0; 24];
    BigEndian::write_u64(&mut bytes, first);
    BigEndian::write_u64(&mut bytes[8..], second);
    BigEndian::write_u64(&mut bytes[16..], third);
    bytes
}
