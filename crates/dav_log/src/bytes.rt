//! Numbers, checksums and headers in bytes.
ghost use Rattle.std.specs.Prelude.{◌≡◌, ◌+◌, ◌≤◌, ◌↔◌, length, IsTrue};
ghost use Rattle.sqlite_wal.specs.Format.{part, be32, stored_sum, IsSigned, IsFrame};

use sqlite_wal::checksum_of;

/// Four bytes as a number, the highest first.
pub fn number_at(bytes: &[u8], at: usize) -> u32
    requires { at + 4 ≤ length bytes.now }
    ensures { result ≡ be32 bytes.now at }
{
    bytes[at] as u32 * 0x100_0000
        + bytes[at + 1] as u32 * 0x1_0000
        + bytes[at + 2] as u32 * 0x100
        + bytes[at + 3] as u32
}

/// The checksum that is stored in eight bytes.
pub fn sum_at(bytes: &[u8], at: usize) -> (u32, u32)
    requires { at + 8 ≤ length bytes.now }
    ensures { result ≡ stored_sum bytes.now at }
{
    (number_at(bytes, at), number_at(bytes, at + 4))
}

/// Whether a header begins with SQLite's magic number and ends with its checksum.
pub fn is_signed(head: &[u8]) -> bool
    requires { 32 ≤ length head.now }
    ensures { IsTrue result ↔ IsSigned head.now }
{
    if head[0] != 0x37 || head[1] != 0x7f || head[2] != 0x06 {
        return false;
    }
    if head[3] != 0x82 && head[3] != 0x83 {
        return false;
    }
    checksum_of(head[3] == 0x83, (0, 0), &head[..24]) == sum_at(head, 24)
}

/// Whether a frame has the salt of a header.
pub fn has_salt(head: &[u8], frame: &[u8]) -> bool
    requires head { 32 ≤ length head.now }
    requires frame { 24 ≤ length frame.now }
    ensures { IsTrue result ↔ (part frame.now 8 8 ≡ part head.now 16 8) }
{
    frame[8..16] == head[16..24]
}

/// Whether a frame passes SQLite's test, under this header and after a frame with this checksum.
pub fn is_frame(head: &[u8], before: (u32, u32), frame: &[u8]) -> bool
    requires head { 32 ≤ length head.now }
    requires frame { 24 ≤ length frame.now }
    ensures { IsTrue result ↔ IsFrame head.now before frame.now }
{
    if !has_salt(head, frame) || number_at(frame, 0) == 0 {
        return false;
    }
    let big = head[3] == 0x83;
    let front = checksum_of(big, before, &frame[..8]);
    checksum_of(big, front, &frame[24..]) == sum_at(frame, 16)
}
