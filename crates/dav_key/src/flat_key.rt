//! A key as one shared text.
ghost use Rattle.std.specs.Prelude.{◌≡◌, ◌<◌, ◌^◌, ◌↔◌, ◌++◌, ◌∷◌, [], bytes_eq, length, refl, IsTrue, IfSome, IfOk, MatchOption, string_bytes};
ghost use Rattle.std.specs.List.{starts_with};
ghost use Rattle.std.specs.Rc.{rc_str_bytes};
ghost use Rattle.std.specs.Cmp.{partial_equiv_from_equiv, partial_order_from_total};
ghost use Rattle.std.proofs.lemmas.Cmp.{eq_by_cmp_equiv};
ghost use Rattle.std.specs.Ordering.{as_partial_cmp, eq_by_cmp};
ghost use Rattle.dav_key.specs.Key.{parent, stripped, key_cmp, key_cmp_total};
ghost use Rattle.dav_key.specs.Flat.{flat, segments_of, length_above, IsFlatSegment, IsFlatKey, IsFlatText};

use crate::segments::Segments;
use crate::text;
use std::alloc::{AllocError, Global};
use std::cmp::Ordering;
use std::marker::Model;
use std::rc::RcStr;

/// The key of a resource. In contracts its value is the list of its segments, each a list of bytes.
///
/// A key is one text: a NUL before each segment. So a segment contains no NUL, and the root's text is empty.
/// Copies share the text, so a copy allocates no memory. A method that makes another key says so.
#[derive(Debug, Drop)]
pub struct FlatKey {
    text: RcStr,
    above: usize,
    alloc: Global,
}

impl Model for FlatKey {
    ghost use Rattle.dav_key.specs.Key.{Key};

    ghost Value = { Key };

    ghost use Rattle.dav_key.specs.FlatKey.{key_of, IsFlatInside};

    ghost view = { key_of };

    ghost invariant = { IsFlatInside };
}

impl FlatKey {
    /// Returns the key of the root, which has no segments. Fails only if memory runs out.
    pub fn root(alloc: Global) -> Result<FlatKey, AllocError>
        ensures { IfOk result (λ key. key ≡ []) }
    {
        FlatKey::share(String::new(alloc), 0)
    }

    /// Returns the key with this text. Fails only if memory runs out.
    pub(crate) fn of_text(text: String) -> Result<FlatKey, AllocError>
        requires { IsFlatText (string_bytes text) }
        ensures { IfOk result (λ key. key ≡ segments_of (string_bytes text)) }
    {
        let above = text::length_above(text.as_str());
        FlatKey::share(text, above)
    }

    /// Returns the key with this text, whose parent's text has this length. Fails only if memory runs out.
    fn share(text: String, above: usize) -> Result<FlatKey, AllocError>
        requires text { IsFlatText (string_bytes text) }
        requires above { above ≡ length_above (segments_of (string_bytes text)) }
        ensures { IfOk result (λ key. key ≡ segments_of (string_bytes text)) }
    {
        let alloc = *text.allocator();
        Ok(FlatKey {
            text: RcStr::from_string(text)?,
            above,
            alloc,
        })
    }

    /// Returns a key with the same segments. It shares the text and allocates no memory. Fails only if there
    /// would be more copies at once than a `usize` counts.
    pub fn clone(&self) -> Result<FlatKey, AllocError>
        ensures { IfOk result (λ copy. copy ≡ self.now) }
    {
        Ok(FlatKey {
            text: self.text.clone()?,
            above: self.above,
            alloc: self.alloc,
        })
    }

    /// The allocator of the text.
    pub fn allocator(&self) -> Global {
        self.alloc
    }

    /// Whether this is the root: the key has no segments.
    pub fn is_root(&self) -> bool
        ensures { IsTrue result ↔ (self.now ≡ []) }
    {
        self.text.as_str().is_empty()
    }

    /// The number of bytes of the text.
    pub fn len(&self) -> usize
        ensures { result ≡ length (flat self.now) }
    {
        self.text.len()
    }

    /// The text: a NUL before each segment. It is empty for the root.
    pub fn as_str(&self) -> &str
        ensures text { result.now ≡ flat self.now }
        ensures key { IsFlatKey self.now }
    {
        self.text.as_str()
    }

    /// The text, as `as_str` returns it, in the form that maps hold. A copy of it shares the text and allocates
    /// no memory.
    pub fn shared_text(&self) -> &RcStr
        ensures text { rc_str_bytes result.now ≡ flat self.now }
        ensures key { IsFlatKey self.now }
    {
        &self.text
    }

    /// The text of the parent. The parent of the root is the root.
    pub fn parent_str(&self) -> &str
        ensures text { result.now ≡ flat (parent self.now) }
        ensures key { IsFlatKey self.now }
    {
        let (above, _name) = self.text.as_str().split_at(self.above);
        above
    }

    /// The last segment. The root has none.
    pub fn name(&self) -> Option<&str>
        ensures last { MatchOption result (self.now ≡ []) (λ name. self.now ≡ parent self.now ++ name.now ∷ []) }
        ensures segment { IfSome result (λ name. IsFlatSegment name.now) }
    {
        let (_above, name) = self.text.as_str().split_at(self.above);
        name.strip_prefix('\0')
    }

    /// Returns the key of the parent, with a text of its own. The parent of the root is the root. Fails only
    /// if memory runs out.
    pub fn parent(&self) -> Result<FlatKey, AllocError>
        ensures { IfOk result (λ key. key ≡ parent self.now) }
    {
        let text = String::from_str(self.alloc, self.parent_str())?;
        FlatKey::of_text(text)
    }

    /// Returns the key of the member with this name, with a text of its own. The caller ensures that the name
    /// may be a segment. Fails only if memory runs out.
    pub fn child(&self, name: &str) -> Result<FlatKey, AllocError>
        requires { IsFlatSegment name.now }
        ensures { IfOk result (λ key. key ≡ self.now ++ name.now ∷ []) }
    {
        let text = text::with_segment(self.alloc, self.as_str(), name)?;
        FlatKey::share(text, self.len())
    }

    /// Whether both keys have the same segments.
    pub fn same(&self, other: &FlatKey) -> bool
        ensures { IsTrue result ↔ (self.now ≡ other.now) }
    {
        self.text.as_str().as_bytes() == other.text.as_str().as_bytes()
    }

    /// Whether both keys have the same parent.
    pub fn has_parent_of(&self, other: &FlatKey) -> bool
        ensures { IsTrue result ↔ (parent self.now ≡ parent other.now) }
    {
        self.parent_str().as_bytes() == other.parent_str().as_bytes()
    }

    /// Whether this key is the parent of the other. The root is its own parent.
    pub fn is_parent_of(&self, other: &FlatKey) -> bool
        ensures { IsTrue result ↔ (self.now ≡ parent other.now) }
    {
        self.as_str().as_bytes() == other.parent_str().as_bytes()
    }

    /// Whether this key is the other or is below it: it begins with the other's segments.
    pub fn is_at_or_below(&self, other: &FlatKey) -> bool
        ensures { result ≡ starts_with bytes_eq self.now other.now }
    {
        text::is_at_or_below(self.as_str(), other.as_str())
    }

    /// The segments, first to last.
    pub fn segments(&self) -> Segments<'_>
        ensures segments { result ≡ self.now }
        ensures key { IsFlatKey self.now }
        ensures bound { length result < 2 ^ 64 }
    {
        Segments::of(self.text.as_str())
    }

    /// The segments of the parent, first to last. The parent of the root is the root.
    pub fn parent_segments(&self) -> Segments<'_>
        ensures { result ≡ parent self.now }
    {
        Segments::of(self.parent_str())
    }

    /// Returns the key without the segments of the prefix. It is `None` if the key is neither the prefix nor
    /// below it. If the prefix is the root, the result shares this text, otherwise it has one of its own.
    /// Fails only if memory runs out.
    pub fn strip(&self, prefix: &FlatKey) -> Result<Option<FlatKey>, AllocError>
        ensures { IfOk result (λ rest. rest ≡ stripped self.now prefix.now) }
    {
        if prefix.is_root() {
            return Ok(Some(self.clone()?));
        }
        if !self.is_at_or_below(prefix) {
            return Ok(None);
        }
        let (_prefix, rest) = self.as_str().split_at(prefix.len());
        let text = String::from_str(self.alloc, rest)?;
        let key = FlatKey::of_text(text)?;
        Ok(Some(key))
    }

    /// Returns the key with the segments of this one and then those of the other. If this one is the root,
    /// the result shares the other's text, otherwise it has one of its own. Fails only if memory runs out.
    pub fn join(&self, other: &FlatKey) -> Result<FlatKey, AllocError>
        ensures { IfOk result (λ key. key ≡ self.now ++ other.now) }
    {
        if self.is_root() {
            return other.clone();
        }
        let text = text::joined(self.alloc, self.as_str(), other.as_str())?;
        FlatKey::of_text(text)
    }
}

impl PartialEq for FlatKey {
    ghost eq = { eq_by_cmp key_cmp };

    ghost laws = { partial_equiv_from_equiv (eq_by_cmp_equiv key_cmp_total) };

    fn eq(&self, other: &FlatKey) -> bool {
        self.same(other)
    }
}

impl Eq for FlatKey {
    ghost laws = { eq_by_cmp_equiv key_cmp_total };
}

/// The order of keys is lexicographic by segments. It is the order of their texts.
impl Ord for FlatKey {
    ghost cmp = { key_cmp };

    ghost total = { key_cmp_total };

    ghost matches_partial_cmp = { λ a b. refl };

    ghost matches_eq = { λ a b. refl };

    fn cmp(&self, other: &FlatKey) -> Ordering {
        self.as_str().cmp(other.as_str())
    }
}

impl PartialOrd for FlatKey {
    ghost partial_cmp = { as_partial_cmp key_cmp };

    ghost laws = { partial_order_from_total key_cmp_total };

    fn partial_cmp(&self, other: &FlatKey) -> Option<Ordering> {
        Some(self.cmp(other))
    }
}
