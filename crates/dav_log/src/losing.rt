//! Frames that were committed, and that recovery does not take.
ghost use Rattle.std.specs.Prelude.{ℕ, ◌<◌, ◌↔◌, IsTrue};
ghost use Rattle.sqlite_wal.specs.PageSize.{bytes_of};
ghost use Rattle.dav_log.specs.Damage.{IsWithin, HasLaterCount, HasLaterCommit, LosesFrames};

use crate::frames::{count_frames, holds_page, is_blank, is_commit, is_count, is_open, passes};
use sqlite_wal::PageSize;

/// Whether the frame behind those that recovery takes was committed, so that recovery would lose it. `taken` is the number
/// of frames that it takes.
pub fn loses_frames(log: &[u8], size: PageSize, taken: usize) -> bool
    ensures { IsTrue result ↔ LosesFrames (bytes_of size) log.now taken }
{
    let page_size = size.bytes();
    let count = count_frames(log, page_size);
    if taken >= count {
        return false;
    }
    holds_page(log, page_size, taken)
        || has_later_count(log, page_size, taken, count)
        || has_later_commit(log, page_size, taken, count)
}

/// Whether a commit of one sync begins behind frame `k`. The log has `count` frames.
fn has_later_count(log: &[u8], page_size: usize, k: usize, count: usize) -> bool
    requires frames { (i : ℕ) → (i < count) ↔ IsWithin page_size log.now i }
    requires inside { k < count }
    ensures { IsTrue result ↔ HasLaterCount page_size log.now k }
{
    for i in k + 1..count {
        if is_count(log, page_size, i) {
            return true;
        }
    }
    false
}

/// Whether the gate of frame `k` is open, and the log goes on behind a commit from there. The log has `count` frames.
fn has_later_commit(log: &[u8], page_size: usize, k: usize, count: usize) -> bool
    requires frames { (i : ℕ) → (i < count) ↔ IsWithin page_size log.now i }
    requires inside { k < count }
    ensures { IsTrue result ↔ HasLaterCommit page_size log.now k }
{
    if !is_open(log, page_size, k) {
        return false;
    }
    for i in k + 1..count {
        if is_blank(log, page_size, i - 1) {
            return false;
        }
        if is_commit(log, page_size, i - 1) && passes(log, page_size, i) {
            return true;
        }
    }
    false
}
