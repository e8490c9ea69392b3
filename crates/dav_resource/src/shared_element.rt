//! Element trees with several owners.
ghost use Rattle.std.specs.Prelude.{◌≡◌, IfOk};

use crate::Element;
use std::alloc::{AllocError, Global};
use std::marker::Model;
use std::rc::Rc;

/// An immutable element with several owners. In contracts its value is its tree.
#[derive(Drop, Debug)]
pub struct SharedElement {
    element: Rc<Element>,
}

impl Model for SharedElement {
    ghost use Rattle.dav_resource.specs.Tree.{Tree};
    ghost use Rattle.dav_resource.specs.TreeCode.{tree_code};

    ghost Value = { Tree };

    ghost coded = { tree_code };

    ghost view = { λ s. s.element.value };
}

impl SharedElement {
    /// Makes an element shareable, without copying it. Fails only if memory runs out, and the element is then
    /// dropped.
    pub fn new(alloc: Global, element: Element) -> Result<SharedElement, AllocError>
        ensures { IfOk result (λ shared. shared ≡ element) }
    {
        Ok(SharedElement {
            element: Rc::new(alloc, element)?,
        })
    }

    /// Returns another owner of the same element, without copying it. Fails only if the count of owners
    /// overflows.
    pub fn clone(&self) -> Result<SharedElement, AllocError>
        ensures { IfOk result (λ copy. copy ≡ self.now) }
    {
        Ok(SharedElement {
            element: self.element.clone()?,
        })
    }

    /// The element.
    pub fn as_element(&self) -> &Element
        ensures { result.now ≡ self.now }
    {
        &self.element
    }
}
