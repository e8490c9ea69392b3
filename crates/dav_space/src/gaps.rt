//! What is left of a data file beside the ranges in use.
ghost use Rattle.std.specs.Prelude.{◌≡◌, ◌<◌, ◌≤◌, ◌++◌, ℕ, true, false, All, IfOk, OnOk};
ghost use Rattle.dav_space.specs.Ranges.{is_clear, is_covered};
ghost use Rattle.dav_space.specs.Gaps.{gap, gaps_of};
ghost use Rattle.dav_space.specs.Space.{unused};

use crate::range::{LIMIT, Range};
use crate::space::Space;
use std::alloc::{AllocError, Global};

/// Returns the space of a data file in which these ranges are in use, and nothing else is. Fails only if memory
/// runs out. It takes the time of sorting the ranges.
pub fn outside(alloc: Global, mut used: Vec<Range>) -> Result<Space, AllocError>
    requires { All (λ r. r.end ≤ LIMIT) used.items }
    ensures used { IfOk result (λ space. (at n : ℕ) → is_covered used.items at n ≡ true → is_clear (unused space) at n ≡ true) }
    ensures rest { IfOk result (λ space. (i : ℕ) → i < LIMIT → is_covered used.items i 1 ≡ false → is_clear (unused space) i 1 ≡ false) }
{
    used.sort_by_key(|range| range.at)?;
    let gaps = gaps_between(alloc, &used)?;
    Ok(Space::from_gaps(alloc, gaps))
}

/// Returns the ranges that lie beside these, which are in ascending order, up to the limit. Fails only if memory
/// runs out.
fn gaps_between(alloc: Global, used: &[Range]) -> Result<Vec<Range>, AllocError>
    ensures { IfOk result (λ gaps. gaps.items ≡ gaps_of 0 used.now) }
{
    let mut gaps = Vec::new(alloc);
    let mut end = 0;
    for range in used {
        if range.at <= range.end {
            push_gap(&mut gaps, end, range.at)?;
            end = end.max(range.end);
        }
    }
    gaps.push(Range {
        at: end,
        end: LIMIT,
    })?;
    Ok(gaps)
}

/// Appends the range from a place up to another, if it is not empty. Fails only if memory runs out.
fn push_gap(gaps: &mut Vec<Range>, at: usize, end: usize) -> Result<(), AllocError>
    ensures { OnOk result (gaps.new.items ≡ gaps.old.items ++ gap at end) }
{
    if at < end {
        gaps.push(Range { at, end })?;
    }
    Ok(())
}
