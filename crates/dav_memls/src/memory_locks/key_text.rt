//! Texts of keys: a path's own, which are at or below another, and which are above it.
ghost use Rattle.std.specs.Prelude.{◌≡◌, ◌<◌, length};
ghost use Rattle.std.specs.Option.{option_copied};
ghost use Rattle.std.specs.Rc.{rc_str_bytes};
ghost use Rattle.dav_key.specs.Flat.{segments_of, is_text_below, IsFlatText};
ghost use Rattle.dav_memls.specs.KeyText.{FindsAbove, IsTextOf};

use dav_resource::DavPath;
use std::rc::RcStr;

/// Returns the text of the path's key: a NUL before each segment.
pub fn of(path: &DavPath) -> &str
    ensures { IsTextOf path.now.key result.now }
{
    path.key().as_str()
}

/// Returns the same text, in the form in which a copy shares it.
pub fn shared(path: &DavPath) -> &RcStr
    ensures { IsTextOf path.now.key (rc_str_bytes result.now) }
{
    path.key().shared_text()
}

/// Whether the text is the other or is that of a key below it.
pub fn is_at_or_below(text: &str, other: &str) -> bool
    ensures { result ≡ is_text_below text.now other.now }
{
    let bytes = text.as_bytes();
    bytes.starts_with(other.as_bytes()) && (bytes.len() == other.len() || bytes[other.len()] == 0)
}

/// Returns what comes before this byte, if that is the text of a key above this one: if a segment begins at
/// the byte.
pub fn above(text: &str, end: usize) -> Option<&str>
    requires flat { IsFlatText text.now }
    requires end { end < length text.now }
    ensures { FindsAbove (segments_of text.now) end (option_copied result) }
{
    if text.as_bytes()[end] != 0 {
        return None;
    }
    let (before, _) = text.split_at(end);
    Some(before)
}
