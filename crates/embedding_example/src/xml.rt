//! The tree of a response, written as an XML document (Namespaces in XML 1.0).
use dav_engine::{Element, XMLNode};
use std::alloc::{AllocError, Global};

/// A prefix bound to a namespace. The empty prefix is that of the default namespace.
#[derive(Clone, Copy, PartialEq, Eq)]
struct Binding<'t> {
    prefix: &'t str,
    namespace: &'t str,
}

/// Writes a tree as an XML document. Fails only if memory runs out.
pub fn document(alloc: Global, tree: &Element) -> Result<String, AllocError> {
    let mut text = String::from_str(alloc, "<?xml version=\"1.0\" encoding=\"utf-8\"?>\n")?;
    write_element(&mut text, tree, &mut Vec::new(alloc))?;
    text.push('\n')?;
    Ok(text)
}

/// Writes an element with everything in it. `scope` holds the bindings of the elements around it, the innermost last.
fn write_element<'t>(
    text: &mut String,
    element: &'t Element,
    scope: &mut Vec<Binding<'t>>,
) -> Result<(), AllocError> {
    let outside = scope.len();
    text.push('<')?;
    write_name(text, element)?;
    write_attributes(text, element, scope)?;
    declare_own(text, element, scope)?;
    if element.children.is_empty() {
        text.push_str("/>")?;
    } else {
        text.push('>')?;
        for child in &element.children {
            match child {
                XMLNode::Element(child) => write_element(text, child, scope)?,
                XMLNode::Text(part) => escape(text, part.as_str(), false)?,
            }
        }
        text.push_str("</")?;
        write_name(text, element)?;
        text.push('>')?;
    }
    scope.truncate(outside);
    Ok(())
}

fn write_name(text: &mut String, element: &Element) -> Result<(), AllocError> {
    if let Some(prefix) = element.prefix() {
        text.push_str(prefix)?;
        text.push(':')?;
    }
    text.push_str(element.name())
}

/// Writes the attributes, and adds the namespaces that they declare to the scope.
fn write_attributes<'t>(
    text: &mut String,
    element: &'t Element,
    scope: &mut Vec<Binding<'t>>,
) -> Result<(), AllocError> {
    let Some(attributes) = element.attributes() else {
        return Ok(());
    };
    for (name, value) in attributes.iter() {
        write_attribute(text, name.as_str(), value.as_str())?;
        let declared = if name.as_str() == "xmlns" {
            Some("")
        } else {
            name.strip_prefix("xmlns:")
        };
        if let Some(prefix) = declared {
            scope.push(Binding {
                prefix,
                namespace: value.as_str(),
            })?;
        }
    }
    Ok(())
}

/// Declares the namespace of an element, unless its prefix is bound to it already.
fn declare_own<'t>(
    text: &mut String,
    element: &'t Element,
    scope: &mut Vec<Binding<'t>>,
) -> Result<(), AllocError> {
    let Some(namespace) = element.namespace() else {
        return Ok(());
    };
    let prefix = element.prefix().unwrap_or("");
    let own = Binding { prefix, namespace };
    let bound = scope.iter().rev().find(|it| it.prefix == prefix);
    if bound != Some(&own) {
        text.push_str(if prefix.is_empty() {
            " xmlns"
        } else {
            " xmlns:"
        })?;
        write_value(text, prefix, own.namespace)?;
        scope.push(own)?;
    }
    Ok(())
}

fn write_attribute(text: &mut String, name: &str, value: &str) -> Result<(), AllocError> {
    text.push(' ')?;
    write_value(text, name, value)
}

fn write_value(text: &mut String, name: &str, value: &str) -> Result<(), AllocError> {
    text.push_str(name)?;
    text.push_str("=\"")?;
    escape(text, value, true)?;
    text.push('"')
}

/// Escapes characters of a text, or of an attribute's value in quotes.
fn escape(text: &mut String, characters: &str, quoted: bool) -> Result<(), AllocError> {
    for character in characters.chars() {
        match character {
            '&' => text.push_str("&amp;")?,
            '<' => text.push_str("&lt;")?,
            '>' => text.push_str("&gt;")?,
            '\r' => text.push_str("&#13;")?,
            '"' if quoted => text.push_str("&quot;")?,
            '\n' if quoted => text.push_str("&#10;")?,
            '\t' if quoted => text.push_str("&#9;")?,
            other => text.push(other)?,
        }
    }
    Ok(())
}
