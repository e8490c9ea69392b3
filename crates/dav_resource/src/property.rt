//! Properties of a resource (RFC 4918, section 4).
ghost use Rattle.std.specs.Prelude.{◌≡◌, IfOk, option_copied};

use crate::{SharedElement, Text};
use std::alloc::AllocError;

/// A property: its name, and its value if known (RFC 4918, sections 4.3 and 4.4).
#[derive(Drop, Debug)]
pub struct DavProp {
    /// The local name (Namespaces in XML 1.0, section 4).
    pub name: Text,
    /// The prefix that the name was written with, if it had one.
    pub prefix: Option<Text>,
    /// The namespace of the name, if it has one.
    pub namespace: Option<Text>,
    /// The element that holds the value, if it is known.
    pub element: Option<SharedElement>,
}

impl DavProp {
    /// Returns a copy. Fails only if memory runs out.
    pub fn clone(&self) -> Result<DavProp, AllocError>
        ensures { IfOk result (λ copy. copy ≡ self.now) }
    {
        let element = match &self.element {
            Some(element) => Some(element.clone()?),
            None => None,
        };
        Ok(DavProp {
            name: self.name.clone()?,
            prefix: clone_text(self.prefix.as_ref())?,
            namespace: clone_text(self.namespace.as_ref())?,
            element,
        })
    }
}

/// A change of the properties of a resource that a store makes (RFC 4918, section 9.2). Times are whole seconds since 1970.
#[derive(Drop, Debug)]
pub enum PropertyPatch {
    /// Sets a dead property to the element that it has.
    Set(DavProp),
    /// Removes the dead property of this name, if there is one.
    Remove(DavProp),
    /// Sets when the resource was last modified.
    Modified(u64),
    /// Sets when the resource was created.
    Created(u64),
}

/// Copies an optional string.
fn clone_text(text: Option<&Text>) -> Result<Option<Text>, AllocError>
    ensures { IfOk result (λ copy. copy ≡ option_copied text.entry) }
{
    match text {
        Some(text) => Ok(Some(text.clone()?)),
        None => Ok(None),
    }
}
