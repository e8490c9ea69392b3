//! The segments of a key.
ghost use Rattle.std.specs.Prelude.{◌≡◌, ◌<◌, ◌^◌, length};
ghost use Rattle.std.specs.Iterator.{YieldsFirstRef, item_count};
ghost use Rattle.dav_key.specs.Flat.{segments_of, IsFlatText};

use std::marker::Model;

/// The segments of a key that are left, first to last. In contracts its value is the list of them.
#[derive(Debug, Drop)]
pub struct Segments<'a> {
    rest: &'a str,
}

impl<'a> Model for Segments<'a> {
    ghost use Rattle.dav_key.specs.Key.{Key};

    ghost Value = { Key };

    ghost use Rattle.dav_key.specs.Segments.{segments_left, IsLeft};

    ghost view = { segments_left };

    ghost invariant = { IsLeft };
}

impl<'a> Segments<'a> {
    /// The segments of this text.
    pub(crate) fn of(text: &'a str) -> Segments<'a>
        requires { IsFlatText text.now }
        ensures segments { result ≡ segments_of text.now }
        ensures bound { length result < 2 ^ 64 }
    {
        Segments { rest: text }
    }
}

impl<'a> Iterator for Segments<'a> {
    type Item = &'a str;

    ghost next_gives = { YieldsFirstRef (λ s. s) };

    ghost remaining = { item_count (λ s. s) };

    fn next(&mut self) -> Option<&'a str> {
        let Some(text) = self.rest.strip_prefix('\0') else {
            return None;
        };
        let (segment, rest) = text.split_at(text.find('\0').unwrap_or(text.len()));
        self.rest = rest;
        Some(segment)
    }
}
