//! Entity tags, and the header values that consist of them.
ghost use Rattle.std.specs.Prelude.{◌≡◌, IfOk, false, option_map};
ghost use Rattle.dav_resource.specs.ETags.{strongly_equal, strong_tag};

use crate::{Items, Meta, Text};
use std::alloc::AllocError;

/// An entity tag (RFC 7232, section 2.3). It has no `==`, because a weak tag is not strongly equal to itself.
#[derive(Drop, Debug)]
pub struct ETag {
    /// Whether the tag is weak, which `W/` marks.
    pub weak: bool,
    /// The string between the quotes.
    pub tag: Text,
}

impl ETag {
    /// Returns a copy. Fails only if memory runs out.
    pub fn clone(&self) -> Result<ETag, AllocError>
        ensures { IfOk result (λ copy. copy ≡ self.now) }
    {
        Ok(ETag {
            weak: self.weak,
            tag: self.tag.clone()?,
        })
    }

    /// Strong comparison (RFC 7232, section 2.3.2): neither tag is weak, and the strings are equal.
    pub fn strong_eq(&self, other: &ETag) -> bool
        ensures { result ≡ strongly_equal self.now other.now }
    {
        !self.weak && !other.weak && self.tag.as_str() == other.tag.as_str()
    }

    /// Returns the strong entity tag of a resource, if it has one. Fails only if memory runs out.
    pub fn from_meta(meta: &Meta) -> Result<Option<ETag>, AllocError>
        ensures { IfOk result (λ tag. tag ≡ option_map strong_tag meta.now.etag) }
    {
        match &meta.etag {
            Some(tag) => Ok(Some(ETag {
                weak: false,
                tag: tag.clone()?,
            })),
            None => Ok(None),
        }
    }
}

/// The value of If-Match or If-None-Match (RFC 7232, sections 3.1 and 3.2).
#[derive(Drop, Debug)]
pub enum ETagList {
    /// `*`: any existing resource.
    Star,
    /// The tags of all values of the header, in order.
    Tags(Items<ETag>),
}

/// The value of If-Range (RFC 7233, section 3.2) in its form with an entity tag. No reader of this project
/// parses a header into one.
#[derive(Drop, Debug)]
pub struct IfRange {
    /// The entity tag.
    pub tag: ETag,
}
