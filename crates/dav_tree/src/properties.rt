//! The dead properties of a resource of an in-memory store.
ghost use Rattle.std.specs.Prelude.{◌≡◌, ◌==◌, Some, IfOk, OnOk, OnErr, is_some, string_bytes};
ghost use Rattle.std.specs.Option.{option_copied, option_map};
ghost use Rattle.std.specs.FinMap as map;
ghost use Rattle.dav_key.specs.Below.{put_at};
ghost use Rattle.dav_store.specs.PropertyCalls.{name_of, named_element};
ghost use Rattle.dav_tree.specs.PropertyNames.{key_of};
ghost use Rattle.dav_tree.specs.Patching.{ArePut, AreKept, AreTaken, replaced_by};
ghost use Rattle.dav_tree.specs.MemoryCalls.{IsPropertyList};

mod naming;
mod patching;

use dav_resource::{DavProp, SharedElement, Text};
use std::alloc::{AllocError, Global};
use std::collections::BTreeMap;
use std::marker::Model;

/// A property's name: its namespace, if it has one, and its local name (Namespaces in XML 1.0, section 2.1).
/// Names are ordered by namespace, none first, and then by local name, in byte order.
#[derive(Debug, Drop, PartialEq, Eq, PartialOrd, Ord)]
struct PropertyName {
    namespace: Option<String>,
    name: String,
}

/// Dead properties: elements by property name, and the allocator for the names. The elements may be shared
/// with other owners.
#[derive(Debug, Drop)]
pub struct Properties {
    alloc: Global,
    map: BTreeMap<PropertyName, SharedElement>,
}

impl Model for Properties {
    ghost use Rattle.dav_store.specs.Store.{PropertyMap};
    ghost use Rattle.dav_tree.specs.Codes.{property_map_code};

    ghost Value = { PropertyMap };

    ghost coded = { property_map_code };

    ghost use Rattle.std.specs.BTreeMap.{IsOrdered};
    ghost use Rattle.dav_tree.specs.PropertyNames.{name_cmp, properties_of};

    ghost view = { λ p. properties_of p.map };

    ghost invariant = { λ p. IsOrdered name_cmp p.map };
}

impl Properties {
    /// Creates a map without properties.
    pub fn new(alloc: Global) -> Properties
        ensures { result ≡ map.empty }
    {
        Properties {
            alloc,
            map: BTreeMap::new(alloc),
        }
    }

    /// Returns whether there are no properties.
    pub fn is_empty(&self) -> bool
        ensures { result ≡ (map.len self.now == 0) }
    {
        self.map.is_empty()
    }

    /// Returns the element of the property with this name. Fails only if memory runs out. Copies the name,
    /// and makes a number of comparisons logarithmic in the number of properties.
    pub fn get(&self, prop: &DavProp) -> Result<Option<&SharedElement>, AllocError>
        ensures { IfOk result (λ element. option_copied element ≡ map.get self.now (name_of prop.now)) }
    {
        let name = PropertyName::of(self.alloc, prop)?;
        Ok(self.map.get(&name))
    }

    /// Returns a copy of the properties. Fails only if memory runs out. Copies each name, and shares the
    /// elements.
    pub fn clone(&self) -> Result<Properties, AllocError>
        ensures { IfOk result (λ copy. copy ≡ self.now) }
    {
        let mut copy = Properties::new(self.alloc);
        self.put_into(&mut copy)?;
        Ok(copy)
    }

    /// Returns each property with its element. The property's prefix is the element's. Properties without a
    /// namespace come first, then the order is by namespace, then by name. Fails only if memory runs out.
    /// Copies each name.
    pub fn list(&self, alloc: Global) -> Result<Vec<DavProp>, AllocError>
        ensures { IfOk result (λ props. IsPropertyList self.now props.items) }
    {
        let mut props = Vec::new(alloc);
        for (name, element) in &self.map {
            props.push(name.with_element(alloc, element)?)?;
        }
        Ok(props)
    }

    /// Returns whether there is a property with this name.
    fn has(&self, name: &PropertyName) -> bool
        ensures { result ≡ is_some (map.get self.now (key_of name.now)) }
    {
        self.map.contains_key(name)
    }

    /// Copies these properties into others, replacing those with the same names. Fails only if memory runs
    /// out, and then some of them may have been copied.
    fn put_into(&self, others: &mut Properties) -> Result<(), AllocError>
        ensures ok { OnOk result (ArePut self.now others.old others.new) }
        ensures rest { AreKept self.now others.old others.new }
    {
        for (name, element) in &self.map {
            others.insert(name.clone()?, element.clone()?)?;
        }
        Ok(())
    }

    /// Removes the properties with these properties' names from others.
    fn take_out_of(&self, others: &mut Properties)
        ensures { AreTaken self.now others.old others.new }
    {
        for (name, _) in &self.map {
            others.remove(name);
        }
    }

    /// Stores an element under a name. Fails only if memory runs out, and then nothing changes.
    fn insert(&mut self, name: PropertyName, element: SharedElement) -> Result<(), AllocError>
        ensures ok { OnOk result (self.new ≡ map.insert self.old (key_of name) element) }
        ensures err { OnErr result (self.new ≡ self.old) }
    {
        self.map.insert(name, element)?;
        Ok(())
    }

    /// Removes the property with a name, if there is one.
    fn remove(&mut self, name: &PropertyName)
        ensures { self.new ≡ map.remove self.old (key_of name.now) }
    {
        let _ = self.map.remove(name);
    }

    /// Replaces the element of the property with a name, if there is one.
    fn replace(&mut self, name: &PropertyName, element: SharedElement)
        ensures { self.new ≡ put_at self.old (key_of name.now) (replaced_by (Some (Some element)) (map.get self.old (key_of name.now))) }
    {
        if let Some(place) = self.map.get_mut(name) {
            *place = element;
        }
    }
}

impl PropertyName {
    /// Returns the name of a property. Fails only if memory runs out.
    fn of(alloc: Global, prop: &DavProp) -> Result<PropertyName, AllocError>
        ensures { IfOk result (λ name. key_of name ≡ name_of prop.now) }
    {
        Ok(PropertyName {
            namespace: string_of(alloc, prop.namespace.as_ref())?,
            name: String::from_str(alloc, prop.name.as_str())?,
        })
    }

    /// Returns a copy of the name. Fails only if memory runs out.
    fn clone(&self) -> Result<PropertyName, AllocError>
        ensures { IfOk result (λ copy. key_of copy ≡ key_of self.now) }
    {
        Ok(PropertyName {
            namespace: clone_string(self.namespace.as_ref())?,
            name: self.name.clone()?,
        })
    }

    /// Returns the property with this name, this element and the element's prefix. Fails only if memory runs
    /// out.
    fn with_element(&self, alloc: Global, element: &SharedElement) -> Result<DavProp, AllocError>
        ensures named { IfOk result (λ prop. named_element prop ≡ (key_of self.now, Some element.now)) }
        ensures prefix { IfOk result (λ prop. prop.prefix ≡ element.now.tag.prefix) }
    {
        Ok(DavProp {
            name: Text::from_string(self.name.clone()?),
            prefix: Text::copied(alloc, element.as_element().prefix())?,
            namespace: text_of(self.namespace.as_ref())?,
            element: Some(element.clone()?),
        })
    }
}

/// Copies a `Text` to a `String`, if there is one.
fn string_of(alloc: Global, text: Option<&Text>) -> Result<Option<String>, AllocError>
    ensures { IfOk result (λ copy. option_map string_bytes copy ≡ option_copied text.entry) }
{
    match text {
        Some(text) => Ok(Some(String::from_str(alloc, text.as_str())?)),
        None => Ok(None),
    }
}

/// Copies a `String`, if there is one.
fn clone_string(text: Option<&String>) -> Result<Option<String>, AllocError>
    ensures { IfOk result (λ copy. option_map string_bytes copy ≡ option_map string_bytes (option_copied text.entry)) }
{
    match text {
        Some(text) => Ok(Some(text.clone()?)),
        None => Ok(None),
    }
}

/// Copies a `String` to a `Text`, if there is one.
fn text_of(text: Option<&String>) -> Result<Option<Text>, AllocError>
    ensures { IfOk result (λ copy. copy ≡ option_map string_bytes (option_copied text.entry)) }
{
    match text {
        Some(text) => Ok(Some(Text::from_string(text.clone()?))),
        None => Ok(None),
    }
}
