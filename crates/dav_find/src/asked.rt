//! A property that a PROPFIND asks for, with what is the same for each resource.
ghost use Rattle.std.specs.Prelude.{◌≡◌, IfOk};
ghost use Rattle.dav_find.specs.AskedFields.{kept_name as name_kept, bare_unless as bare_or_none};

use dav_live::LiveProperty;
use dav_props::{bare_element, element_to_davprop, is_kept};
use dav_resource::{DavProp, Element};
use std::alloc::AllocError;
use std::marker::Model;

/// A requested property. The request or the server's own list names it. In contracts its value is the element
/// that names it, and which of the two does.
#[derive(Drop, Debug)]
pub struct AskedProperty {
    element: Element,
    by_server: bool,
    /// The live property of this name, if there is one.
    pub(crate) live: Option<LiveProperty>,
    /// The name by which a store can keep it, if it can.
    pub(crate) kept: Option<DavProp>,
    /// The element that reports it without a value. A property that only the server's own list names is not
    /// reported without a value.
    pub(crate) bare: Option<Element>,
}

impl Model for AskedProperty {
    ghost use Rattle.dav_find.specs.Asked.{AskedProperty as Asked};
    ghost use Rattle.dav_find.specs.AskedFields.{asked_code, asked_in, IsResolved};

    ghost Value = { Asked };

    ghost coded = { asked_code };

    ghost view = { asked_in };

    ghost invariant = { IsResolved };
}

impl AskedProperty {
    /// Creates a requested property of the name that the element has. `by_server` says whether only the server's
    /// own list names it. Fails only if memory runs out.
    pub fn new(element: Element, by_server: bool) -> Result<AskedProperty, AllocError>
        ensures { IfOk result (λ asked. asked ≡ record { element = element; by_server = by_server }) }
    {
        Ok(AskedProperty {
            live: LiveProperty::of_element(&element),
            kept: kept_name(&element)?,
            bare: bare_unless(by_server, &element)?,
            element,
            by_server,
        })
    }

    /// The element that names it.
    pub fn element(&self) -> &Element
        ensures { result.now ≡ self.now.element }
    {
        &self.element
    }

    /// Whether only the server's own list names it, and not the request.
    pub fn by_server(&self) -> bool
        ensures { result ≡ self.now.by_server }
    {
        self.by_server
    }
}

/// Returns the name by which a store can keep the property, if it can.
fn kept_name(element: &Element) -> Result<Option<DavProp>, AllocError>
    ensures { IfOk result (λ kept. kept ≡ name_kept element.now) }
{
    if is_kept(element) {
        Ok(Some(element_to_davprop(element)?))
    } else {
        Ok(None)
    }
}

/// Returns the element that reports the property without a value, unless the server's own list names it.
fn bare_unless(by_server: bool, element: &Element) -> Result<Option<Element>, AllocError>
    ensures { IfOk result (λ bare. bare ≡ bare_or_none by_server element.now) }
{
    if by_server {
        Ok(None)
    } else {
        Ok(Some(bare_element(*element.children.allocator(), element)?))
    }
}
