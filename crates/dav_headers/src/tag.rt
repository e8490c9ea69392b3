//! Entity tags in header values.
ghost use Rattle.std.specs.Prelude.{◌≡◌, IfOk, option_map};
ghost use Rattle.dav_headers.specs.Tag.{quoted, first_tag};

use crate::text::{after_first, cut_at, text_of};
use dav_resource::ETag;
use std::alloc::{AllocError, Global};

/// An entity tag that borrows from a header value.
#[derive(Clone, Copy, Debug)]
pub(crate) struct BorrowedTag<'a> {
    /// Whether the tag is weak, which `W/` marks.
    pub(crate) weak: bool,
    /// The string between the quotes.
    pub(crate) text: &'a str,
}

impl BorrowedTag<'_> {
    /// Copies the tag. Fails only if memory runs out.
    pub(crate) fn to_tag(self, alloc: Global) -> Result<ETag, AllocError>
        ensures { IfOk result (λ tag. tag ≡ record { weak = self.entry.weak; tag = self.entry.text.now }) }
    {
        Ok(ETag {
            weak: self.weak,
            tag: text_of(alloc, self.text)?,
        })
    }
}

/// The quoted string at the front, without its quotes, and what follows it.
fn quoted(text: &str) -> Option<(&str, &str)>
    ensures { option_map (λ found. (found.0.now, found.1.now)) result ≡ quoted text.now }
{
    if !text.starts_with('"') {
        return None;
    }
    cut_at(after_first(text), '"')
}

/// The entity tag that the string begins with (RFC 7232, section 2.3), and what follows it.
pub(crate) fn first_tag(text: &str) -> Option<(BorrowedTag<'_>, &str)>
    ensures { option_map (λ found. (record { weak = found.0.weak; tag = found.0.text.now }, found.1.now)) result ≡ first_tag text.now }
{
    let (weak, rest) = match text.strip_prefix("W/") {
        Some(rest) => (true, rest),
        None => (false, text),
    };
    let (text, rest) = quoted(rest)?;
    Some((BorrowedTag { weak, text }, rest))
}
