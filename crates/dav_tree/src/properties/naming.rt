//! Whether elements have the names of their properties.
ghost use Rattle.std.specs.Prelude.{◌≡◌, true};
ghost use Rattle.dav_store.specs.Store.{AreNamed, element_key};
ghost use Rattle.dav_tree.specs.PropertyNames.{key_of};

use super::{Properties, PropertyName};
use dav_resource::Element;

impl Properties {
    /// Returns whether each property's element has the property's name.
    pub fn are_named(&self) -> bool
        ensures named { result ≡ true → AreNamed self.now }
        ensures passes { AreNamed self.now → result ≡ true }
    {
        for (name, element) in &self.map {
            if !name.is_of(element.as_element()) {
                return false;
            }
        }
        true
    }
}

impl PropertyName {
    /// Returns whether the element has this name.
    fn is_of(&self, element: &Element) -> bool
        ensures named { result ≡ true → element_key element.now ≡ key_of self.now }
        ensures passes { element_key element.now ≡ key_of self.now → result ≡ true }
    {
        match (&self.namespace, element.namespace()) {
            (Some(own), Some(other)) => {
                own.as_str() == other && self.name.as_str() == element.name()
            }
            (None, None) => self.name.as_str() == element.name(),
            _ => false,
        }
    }
}
