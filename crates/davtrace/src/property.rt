//! Names of properties: `{namespace}name`, or `name` without a namespace.
ghost use Rattle.std.specs.Prelude.{◌≡◌, IfOk};

use dav_resource::{DavProp, Text};
use dav_script::{Fault, LineError, is_name};
use std::alloc::{AllocError, Global};

/// Reads a property of this name, without prefix and element. The namespace ends at its first `}`.
pub fn read_property(alloc: Global, text: &str) -> Result<DavProp, LineError> {
    let (namespace, name) = match text.strip_prefix('{') {
        Some(text) => {
            let (namespace, name) = text.split_once('}').ok_or(Fault::BadValue)?;
            (Some(text_of(alloc, namespace)?), name)
        }
        None => (None, text),
    };
    if !is_name(name) {
        return Err(Fault::BadValue.into());
    }
    Ok(DavProp {
        name: text_of(alloc, name)?,
        prefix: None,
        namespace,
        element: None,
    })
}

/// Copies the string.
pub fn text_of(alloc: Global, text: &str) -> Result<Text, AllocError>
    ensures { IfOk result (λ copy. copy ≡ text.now) }
{
    Ok(Text::from_string(String::from_str(alloc, text)?))
}

/// Formats a property's name as `{namespace}name`, or as `name` without a namespace.
pub fn property_text(alloc: Global, property: &DavProp) -> Result<String, AllocError> {
    let name = property.name.as_str();
    match &property.namespace {
        Some(namespace) => {
            let namespace = namespace.as_str();
            format!(in alloc; "{{{namespace}}}{name}")
        }
        None => String::from_str(alloc, name),
    }
}
