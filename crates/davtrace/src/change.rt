//! Changes of properties, as an outline gives them.
ghost use Rattle.std.specs.Prelude.{◌≡◌, All, IfOk};
ghost use Rattle.dav_store.specs.PropertyCalls.{IsWhole, name_of};
ghost use Rattle.dav_store.specs.Store.{element_key};

use dav_resource::{DavProp, Element, PropertyPatch, SharedElement, Text, XMLNode};
use dav_script::{Fault, LineError};
use std::alloc::{AllocError, Global};

/// A change of a property, given by the property's element.
#[derive(Drop)]
pub enum Change {
    Set(Element),
    /// Only the element's name counts.
    Remove(Element),
}

/// Reads the changes of a tree, in order. Its root holds elements `set` and `remove`, which hold the elements
/// of the properties. The only fault is `BadOutline`.
pub fn read_changes(alloc: Global, tree: Element) -> Result<Vec<Change>, LineError> {
    let mut changes = Vec::new(alloc);
    for part in tree.children {
        let part = element_of(part)?;
        let set = match part.name() {
            "set" => true,
            "remove" => false,
            _ => return Err(Fault::BadOutline.into()),
        };
        add_changes(&mut changes, part.children, set)?;
    }
    Ok(changes)
}

/// Adds a change for each of these elements.
fn add_changes(
    changes: &mut Vec<Change>,
    properties: Vec<XMLNode>,
    set: bool,
) -> Result<(), LineError> {
    for property in properties {
        let element = element_of(property)?;
        changes.push(if set {
            Change::Set(element)
        } else {
            Change::Remove(element)
        })?;
    }
    Ok(())
}

/// Returns the element of a node. A text node is a fault.
fn element_of(node: XMLNode) -> Result<Element, LineError> {
    match node {
        XMLNode::Element(element) => Ok(element),
        XMLNode::Text(_) => Err(Fault::BadOutline.into()),
    }
}

/// Converts the changes to the form that the store accepts.
pub fn patches_of(alloc: Global, changes: Vec<Change>) -> Result<Vec<PropertyPatch>, AllocError>
    ensures { IfOk result (λ patches. All IsWhole patches.items) }
{
    let mut patches = Vec::new(alloc);
    for change in changes {
        patches.push(change.into_patch(alloc)?)?;
    }
    Ok(patches)
}

impl Change {
    /// Converts the change to the form that the store accepts.
    fn into_patch(self, alloc: Global) -> Result<PropertyPatch, AllocError>
        ensures { IfOk result IsWhole }
    {
        match self {
            Change::Set(element) => {
                let mut property = property_of(alloc, &element)?;
                property.element = Some(SharedElement::new(alloc, element)?);
                Ok(PropertyPatch::Set(property))
            }
            Change::Remove(element) => Ok(PropertyPatch::Remove(property_of(alloc, &element)?)),
        }
    }
}

/// Returns a property of the element's name, without a value.
fn property_of(alloc: Global, element: &Element) -> Result<DavProp, AllocError>
    ensures { IfOk result (λ property. name_of property ≡ element_key element.now) }
{
    Ok(DavProp {
        name: Text::from_str(alloc, element.name())?,
        prefix: Text::copied(alloc, element.prefix())?,
        namespace: Text::copied(alloc, element.namespace())?,
        element: None,
    })
}
