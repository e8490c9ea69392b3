//! Splits and trims strings.
ghost use Rattle.std.specs.Prelude.{◌≡◌, ◌<◌, ◌-◌, IfOk, length, take, drop, slice_index, option_map};
ghost use Rattle.dav_headers.specs.Values.{is_blank, drop_blanks, trim_blanks, cut_at};

use dav_resource::Text;
use std::alloc::{AllocError, Global};

/// Copies the string. Fails only if memory runs out.
pub(crate) fn text_of(alloc: Global, text: &str) -> Result<Text, AllocError>
    ensures { IfOk result (λ copy. copy ≡ text.now) }
{
    Ok(Text::from_string(String::from_str(alloc, text)?))
}

/// Whether the byte is a space or a tab.
pub(crate) fn is_blank(byte: u8) -> bool
    ensures { result ≡ is_blank byte }
{
    byte == b' ' || byte == b'\t'
}

/// The string without its first character, which is ASCII and not NUL.
pub(crate) fn after_first(text: &str) -> &str
    requires some { 0 < slice_index text.now 0 }
    requires ascii { slice_index text.now 0 < 128 }
    ensures { result.now ≡ drop 1 text.now }
{
    &text[1..]
}

/// The string without its last character, which is ASCII and not NUL.
pub(crate) fn before_last(text: &str) -> &str
    requires some { 0 < slice_index text.now (length text.now - 1) }
    requires ascii { slice_index text.now (length text.now - 1) < 128 }
    ensures { result.now ≡ take (length text.now - 1) text.now }
{
    &text[..text.len() - 1]
}

/// The string without the blanks at its front.
pub(crate) fn drop_blanks(text: &str) -> &str
    ensures { result.now ≡ drop_blanks text.now }
{
    let mut rest = text;
    while rest.as_bytes().first().copied().is_some_and(is_blank) {
        rest = after_first(rest);
    }
    rest
}

/// The string without the blanks at both ends.
pub(crate) fn trim_blanks(text: &str) -> &str
    ensures { result.now ≡ trim_blanks text.now }
{
    let mut rest = drop_blanks(text);
    while rest.as_bytes().last().copied().is_some_and(is_blank) {
        rest = before_last(rest);
    }
    rest
}

/// The parts before and after the first `end`, an ASCII character. Returns `None` if it does not occur.
pub(crate) fn cut_at(text: &str, end: char) -> Option<(&str, &str)>
    requires { end < 128 }
    ensures { option_map (λ parts. (parts.0.now, parts.1.now)) result ≡ cut_at end text.now }
{
    text.split_once(end)
}
