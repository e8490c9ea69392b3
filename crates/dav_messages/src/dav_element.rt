//! Elements of a request's body, recognized by their local names, and elements of a response's body, with the
//! prefix `D` (RFC 4918, section 14).
ghost use Rattle.std.specs.Prelude.{◌≡◌, [], ◌∷◌, IfOk};
ghost use Rattle.dav_resource.specs.Tree.{prefixed_element};
ghost use Rattle.dav_resource.specs.ElementNames.{name_text};
ghost use Rattle.dav_messages.specs.DavElement.{with_elements, declaring_element as element_that_declares, text_element as element_of_text, href_element as element_of_path, is_named as is_named_tree};

use dav_resource::{DavPath, Element, ElementName, Profile, Text};
use std::alloc::{AllocError, Global};

/// Returns whether the element has this local name, whatever its prefix and namespace.
pub fn is_named(element: &Element, name: &str) -> bool
    ensures { result ≡ is_named_tree name.now element.now }
{
    element.name() == name
}

/// Creates an element of this name that declares the prefix `D`. Fails only if memory runs out.
pub fn declaring_element(alloc: Global, name: ElementName) -> Result<Element, AllocError>
    ensures { IfOk result (λ element. element ≡ element_that_declares (name_text name)) }
{
    Element::constant(alloc, name).ns("D", "DAV:")
}

/// Creates an element of this name that holds a text. Fails only if memory runs out.
pub fn text_element(alloc: Global, name: ElementName, text: Text) -> Result<Element, AllocError>
    ensures { IfOk result (λ element. element ≡ element_of_text (name_text name) text) }
{
    Element::constant(alloc, name).with_text(text)
}

/// Creates the element `D:href` of a path, including the path's prefix (RFC 4918, section 14.7). Fails only
/// if memory runs out.
pub fn href_element(alloc: Global, profile: Profile, path: &DavPath) -> Result<Element, AllocError>
    ensures { IfOk result (λ element. element ≡ element_of_path profile path.now) }
{
    let href = path.with_prefix()?.as_href(profile)?;
    text_element(alloc, ElementName::Href, Text::from_string(href))
}

/// Creates an element of this name that holds one element. Fails only if memory runs out.
pub(crate) fn outer_element(
    alloc: Global,
    name: ElementName,
    inner: Element,
) -> Result<Element, AllocError>
    ensures { IfOk result (λ element. element ≡ with_elements (prefixed_element (name_text name)) (inner ∷ [])) }
{
    let mut element = Element::constant(alloc, name);
    element.push_element(inner)?;
    Ok(element)
}
