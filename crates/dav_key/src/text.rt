//! Flat texts of keys: a NUL before each segment.
ghost use Rattle.std.specs.Prelude.{◌≡◌, ◌↔◌, ◌++◌, ◌∷◌, IsTrue, IfOk, OnOk, OnErr, string_bytes};
ghost use Rattle.dav_key.specs.Flat.{segments_of, length_above, is_text_below, IsFlatSegment, IsFlatText};

use std::alloc::{AllocError, Global};

/// Whether the string may be a segment: it contains no NUL.
pub fn is_flat_segment(segment: &str) -> bool
    ensures { IsTrue result ↔ IsFlatSegment segment.now }
{
    !segment.as_bytes().contains(&0)
}

/// The length of the text of the key's parent. It is 0 for the root.
pub(crate) fn length_above(text: &str) -> usize
    requires { IsFlatText text.now }
    ensures { result ≡ length_above (segments_of text.now) }
{
    text.rfind('\0').unwrap_or(0)
}

/// Appends a NUL and the segment. Fails only if memory runs out, and the text is then unchanged.
pub(crate) fn append_segment(text: &mut String, segment: &str) -> Result<(), AllocError>
    ensures ok { OnOk result (string_bytes text.new ≡ string_bytes text.old ++ 0 ∷ segment.now) }
    ensures err { OnErr result (string_bytes text.new ≡ string_bytes text.old) }
{
    text.reserve(1 + segment.len())?;
    text.push('\0')?;
    text.push_str(segment)
}

/// Returns the text, followed by a NUL and the segment. Fails only if memory runs out.
pub(crate) fn with_segment(alloc: Global, text: &str, segment: &str) -> Result<String, AllocError>
    ensures { IfOk result (λ longer. string_bytes longer ≡ text.now ++ 0 ∷ segment.now) }
{
    let mut longer = String::with_capacity(alloc, text.len() + 1 + segment.len())?;
    longer.push_str(text)?;
    append_segment(&mut longer, segment)?;
    Ok(longer)
}

/// Returns both texts, one after the other. Fails only if memory runs out.
pub(crate) fn joined(alloc: Global, first: &str, second: &str) -> Result<String, AllocError>
    ensures { IfOk result (λ both. string_bytes both ≡ first.now ++ second.now) }
{
    let mut both = String::with_capacity(alloc, first.len() + second.len())?;
    both.push_str(first)?;
    both.push_str(second)?;
    Ok(both)
}

/// Whether the text begins with the other, and a segment ends there.
pub(crate) fn is_at_or_below(text: &str, other: &str) -> bool
    ensures { result ≡ is_text_below text.now other.now }
{
    let bytes = text.as_bytes();
    bytes.starts_with(other.as_bytes()) && (bytes.len() == other.len() || bytes[other.len()] == 0)
}
