//! The names of properties.
ghost use Rattle.std.specs.Prelude.{◌≡◌, List, [], IfOk, OnOk};
ghost use Rattle.std.specs.Option.{option_copied};
ghost use Rattle.dav_resource.specs.Tree.{Tree};
ghost use Rattle.dav_find.specs.Asked.{is_among};
ghost use Rattle.dav_find.specs.Names.{AreNamesOf, IsNewAmong, AddsName};

use dav_resource::Element;
use std::alloc::{AllocError, Global};
use std::collections::BTreeSet;

/// The name of a property: its namespace, if it has one, and its local name (Namespaces in XML 1.0, section
/// 2.1).
#[derive(Clone, Copy, Debug, PartialEq, Eq, PartialOrd, Ord)]
pub(crate) struct PropertyName<'e> {
    namespace: Option<&'e str>,
    name: &'e str,
}

impl<'e> PropertyName<'e> {
    /// Returns the name of the property that an element names.
    fn of(element: &'e Element) -> PropertyName<'e>
        ensures namespace { option_copied result.namespace ≡ element.now.tag.namespace }
        ensures name { result.name.now ≡ element.now.tag.name }
    {
        PropertyName {
            namespace: element.namespace(),
            name: element.name(),
        }
    }
}

/// A set of property names. A lookup makes O(log n) comparisons for n names.
#[derive(Drop, Debug)]
pub(crate) struct PropertyNames<'e> {
    names: BTreeSet<PropertyName<'e>>,
}

impl<'e> PropertyNames<'e> {
    /// Creates an empty set.
    pub(crate) fn new(alloc: Global) -> PropertyNames<'e>
        ensures { AreNamesOf result.names [] }
    {
        PropertyNames {
            names: BTreeSet::new(alloc),
        }
    }

    /// Adds the name of the property that an element names, and returns whether it is new. Fails only if
    /// memory runs out.
    pub(crate) fn insert(&mut self, element: &'e Element) -> Result<bool, AllocError>
        ensures added { IfOk result (IsNewAmong self.old.names element.now) }
        ensures names { OnOk result (AddsName self.old.names element.now self.new.names) }
    {
        Ok(self.names.insert(PropertyName::of(element))?)
    }

    /// Returns whether the set has the name of the property that an element names.
    pub(crate) fn has(&self, element: &'e Element) -> bool
        ensures { (elements : List Tree) → AreNamesOf self.now.names elements → result ≡ is_among element.now elements }
    {
        self.names.contains(&PropertyName::of(element))
    }
}
