//! The name of a property, and a property as it is stored (RFC 4918, sections 4.3 and 4.4).
ghost use Rattle.std.specs.Prelude.{◌≡◌, IfOk, None, Some};
ghost use Rattle.dav_props.specs.Property.{bare, prop_named, named_alone};

use dav_resource::{DavProp, Element, SharedElement, StartTag, Text};
use std::alloc::{AllocError, Global};

/// Returns the element of a property without its value: its name and prefix, and a declaration of its
/// namespace, if it has one (RFC 4918, section 14.18). Fails only if memory runs out.
pub fn bare_element(alloc: Global, prop: &Element) -> Result<Element, AllocError>
    ensures { IfOk result (λ element. element ≡ bare prop.now) }
{
    let mut tag = named_alone(alloc, prop)?;
    if let Some(namespace) = prop.namespace() {
        tag.declare(alloc, prop.prefix().unwrap_or(""), namespace)?;
    }
    Element::from_tag(alloc, tag)
}

/// Returns the property of this element's name, without a value. Fails only if memory runs out.
pub fn element_to_davprop(element: &Element) -> Result<DavProp, AllocError>
    ensures { IfOk result (λ prop. prop ≡ prop_named element.now None) }
{
    let alloc = *element.children.allocator();
    Ok(DavProp {
        name: Text::from_str(alloc, element.name())?,
        prefix: Text::copied(alloc, element.prefix())?,
        namespace: Text::copied(alloc, element.namespace())?,
        element: None,
    })
}

/// Returns the property of this element's name, with a copy of the element as its value. Fails only if memory
/// runs out.
pub fn element_to_davprop_full(element: &Element) -> Result<DavProp, AllocError>
    ensures { IfOk result (λ prop. prop ≡ prop_named element.now (Some element.now)) }
{
    let mut prop = element_to_davprop(element)?;
    let value = SharedElement::new(*element.children.allocator(), element.clone()?)?;
    prop.element = Some(value);
    Ok(prop)
}

/// Returns a tag with only the name, prefix and namespace of this element.
fn named_alone(alloc: Global, prop: &Element) -> Result<StartTag, AllocError>
    ensures { IfOk result (λ tag. tag ≡ (named_alone prop.now).tag) }
{
    let mut tag = StartTag::new(alloc, Text::from_str(alloc, prop.name())?);
    tag.prefix = Text::copied(alloc, prop.prefix())?;
    tag.namespace = Text::copied(alloc, prop.namespace())?;
    Ok(tag)
}
