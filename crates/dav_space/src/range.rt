//! A range of a data file.
ghost use Rattle.std.specs.Prelude.{◌≡◌, ◌≤◌, ◌+◌, ◌-◌};
ghost use Rattle.std.specs.List.{sum_by};
ghost use Rattle.dav_space.specs.Ranges.{size, without};

/// The length that a data file may have, in bytes.
pub const LIMIT: usize = (1 << 63) - 1;

/// The bytes from a place up to another.
#[derive(Clone, Copy, Debug)]
pub struct Range {
    /// Where it begins.
    pub at: usize,
    /// Where it ends: the place after its last byte.
    pub end: usize,
}

impl Range {
    /// Takes the first `n` bytes from the range.
    pub(crate) fn take(&mut self, n: usize)
        requires { self.old.at + n ≤ self.old.end }
        ensures { self.new ≡ without n self.old }
    {
        *self = Range {
            at: self.at + n,
            end: self.end,
        };
    }
}

/// Returns a number less the sizes of these ranges.
pub(crate) fn less(n: usize, ranges: &[Range]) -> usize
    ensures { result ≡ n - sum_by size ranges.now }
{
    let mut left = n;
    for range in ranges {
        left = left.saturating_sub(range.end.saturating_sub(range.at));
    }
    left
}
