//! The frames of a log.
ghost use Rattle.std.specs.Prelude.{◌≡◌, ℕ, ◌+◌, ◌<◌, ◌≤◌, ◌↔◌, length, IsTrue};
ghost use Rattle.sqlite_wal.specs.Recovery.{header, frame, sum_before, Passes};
ghost use Rattle.dav_log.specs.Damage.{IsWithin, IsCount, IsCommit, IsBlank, IsOpen, HoldsPage};

use crate::bytes::{has_salt, is_frame, number_at, sum_at};

pub const HEADER_LEN: usize = 32;

const FRAME_HEADER_LEN: usize = 24;

/// The page number in the first frame of a commit of one sync.
const COUNT_PAGE: u32 = 0xff00_0000;

/// The header of a log.
pub fn header_of(log: &[u8]) -> &[u8]
    requires { 32 ≤ length log.now }
    ensures value { result.now ≡ header log.now }
    ensures len { length result.now ≡ 32 }
{
    &log[..HEADER_LEN]
}

/// How many whole frames a log has.
pub fn count_frames(log: &[u8], page_size: usize) -> usize
    requires { page_size ≤ 65536 }
    ensures { (i : ℕ) → (i < result) ↔ IsWithin page_size log.now i }
{
    log.len().saturating_sub(HEADER_LEN) / (FRAME_HEADER_LEN + page_size)
}

/// Frame `i`.
fn frame_of(log: &[u8], page_size: usize, i: usize) -> &[u8]
    requires { IsWithin page_size log.now i }
    ensures value { result.now ≡ frame page_size log.now i }
    ensures len { length result.now ≡ 24 + page_size }
{
    let at = HEADER_LEN + i * (FRAME_HEADER_LEN + page_size);
    &log[at..at + (FRAME_HEADER_LEN + page_size)]
}

/// The checksum that frame `i` goes on from.
fn sum_before_frame(log: &[u8], page_size: usize, i: usize) -> (u32, u32)
    requires { IsWithin page_size log.now i }
    ensures { result ≡ sum_before page_size log.now i }
{
    if i == 0 {
        sum_at(header_of(log), 24)
    } else {
        sum_at(frame_of(log, page_size, i - 1), 16)
    }
}

/// Whether frame `i` passes SQLite's test.
pub fn passes(log: &[u8], page_size: usize, i: usize) -> bool
    requires { IsWithin page_size log.now i }
    ensures { IsTrue result ↔ Passes page_size log.now i }
{
    let before = sum_before_frame(log, page_size, i);
    is_frame(header_of(log), before, frame_of(log, page_size, i))
}

/// Whether frame `i` passes, and is the first frame of a commit of one sync.
pub fn is_count(log: &[u8], page_size: usize, i: usize) -> bool
    requires { IsWithin page_size log.now i }
    ensures { IsTrue result ↔ IsCount page_size log.now i }
{
    number_at(frame_of(log, page_size, i), 0) == COUNT_PAGE && passes(log, page_size, i)
}

/// Whether frame `i` passes, and is the last frame of a commit.
pub fn is_commit(log: &[u8], page_size: usize, i: usize) -> bool
    requires { IsWithin page_size log.now i }
    ensures { IsTrue result ↔ IsCommit page_size log.now i }
{
    number_at(frame_of(log, page_size, i), 4) != 0 && passes(log, page_size, i)
}

/// Whether frame `i` begins with nine zeros.
pub fn is_blank(log: &[u8], page_size: usize, i: usize) -> bool
    requires { IsWithin page_size log.now i }
    ensures { IsTrue result ↔ IsBlank page_size log.now i }
{
    let frame = frame_of(log, page_size, i);
    number_at(frame, 0) == 0 && number_at(frame, 4) == 0 && frame[8] == 0
}

/// Whether the gate of frame `i` is open.
pub fn is_open(log: &[u8], page_size: usize, i: usize) -> bool
    requires { IsWithin page_size log.now i }
    ensures { IsTrue result ↔ IsOpen page_size log.now i }
{
    frame_of(log, page_size, i)[8] == header_of(log)[16]
}

/// Whether frame `i` has the salt of the log and the number of a page.
pub fn holds_page(log: &[u8], page_size: usize, i: usize) -> bool
    requires { IsWithin page_size log.now i }
    ensures { IsTrue result ↔ HoldsPage page_size log.now i }
{
    let frame = frame_of(log, page_size, i);
    let page = number_at(frame, 0);
    has_salt(header_of(log), frame) && page != 0 && page != COUNT_PAGE
}
