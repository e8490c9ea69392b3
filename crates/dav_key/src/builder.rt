//! A key that is built segment by segment.
ghost use Rattle.std.specs.Prelude.{◌≡◌, ◌<◌, ◌^◌, ◌≢◌, ◌↔◌, ◌++◌, ◌∷◌, [], length, IsTrue, IfOk, OnOk, OnErr};
ghost use Rattle.dav_key.specs.Key.{parent};
ghost use Rattle.dav_key.specs.Flat.{flat, IsFlatSegment, IsFlatKey};

use crate::flat_key::FlatKey;
use crate::segments::Segments;
use crate::text;
use std::alloc::{AllocError, Global};
use std::marker::Model;

/// A key that grows and shrinks at its end. In contracts its value is the list of its segments.
#[derive(Debug, Drop)]
pub struct KeyBuilder {
    text: String,
}

impl Model for KeyBuilder {
    ghost use Rattle.dav_key.specs.Key.{Key};

    ghost Value = { Key };

    ghost use Rattle.dav_key.specs.KeyBuilder.{built_key, IsBuilt};

    ghost view = { built_key };

    ghost invariant = { IsBuilt };
}

impl KeyBuilder {
    /// Begins at the root, which has no segments.
    pub fn new(alloc: Global) -> KeyBuilder
        ensures { result ≡ [] }
    {
        KeyBuilder {
            text: String::new(alloc),
        }
    }

    /// Begins at the root, with room for a text of this many bytes. Fails only if memory runs out.
    pub fn with_capacity(alloc: Global, bytes: usize) -> Result<KeyBuilder, AllocError>
        ensures { IfOk result (λ key. key ≡ []) }
    {
        Ok(KeyBuilder {
            text: String::with_capacity(alloc, bytes)?,
        })
    }

    /// Appends a segment. The caller ensures that it may be a segment. Fails only if memory runs out, and the
    /// key is then unchanged.
    pub fn push(&mut self, segment: &str) -> Result<(), AllocError>
        requires { IsFlatSegment segment.now }
        ensures ok { OnOk result (self.new ≡ self.old ++ segment.now ∷ []) }
        ensures err { OnErr result (self.new ≡ self.old) }
    {
        text::append_segment(&mut self.text, segment)
    }

    /// Removes the last segment. At the root it returns false, and nothing changes.
    pub fn pop(&mut self) -> bool
        ensures removed { IsTrue result ↔ (self.old ≢ []) }
        ensures key { self.new ≡ parent self.old }
    {
        if self.text.is_empty() {
            return false;
        }
        let above = text::length_above(self.text.as_str());
        self.text.truncate(above);
        true
    }

    /// The number of bytes of the key's text: those of the segments, and one for each segment.
    pub fn len(&self) -> usize
        ensures { result ≡ length (flat self.now) }
    {
        self.text.len()
    }

    /// The segments, first to last.
    pub fn segments(&self) -> Segments<'_>
        ensures segments { result ≡ self.now }
        ensures key { IsFlatKey self.now }
        ensures bound { length result < 2 ^ 64 }
    {
        Segments::of(self.text.as_str())
    }

    /// Returns the key. Fails only if memory runs out.
    pub fn finish(self) -> Result<FlatKey, AllocError>
        ensures { IfOk result (λ key. key ≡ self) }
    {
        FlatKey::of_text(self.text)
    }
}
