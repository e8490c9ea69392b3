//! Writes the outline of an element tree, with a line for each element and each text.
use crate::quote::push_quoted;
use dav_resource::{Element, XMLNode};
use std::alloc::{AllocError, Global};
use std::collections::BTreeMap;

/// Returns the outline of a tree. Each level is indented by two spaces, and each line ends with a line feed.
pub fn outline(alloc: Global, tree: &Element) -> Result<String, AllocError> {
    let mut lines = String::new(alloc);
    push_element(tree, 0, &mut lines)?;
    Ok(lines)
}

/// Appends the lines of an element at a level.
fn push_element(element: &Element, level: usize, lines: &mut String) -> Result<(), AllocError> {
    indent(lines, level)?;
    push_tag(element, lines)?;
    let below = level.saturating_add(1);
    for child in &element.children {
        match child {
            XMLNode::Element(child) => push_element(child, below, lines)?,
            XMLNode::Text(text) => {
                indent(lines, below)?;
                push_quoted(lines, text.as_str())?;
                lines.push('\n')?;
            }
        }
    }
    Ok(())
}

/// Appends the spaces of a level.
fn indent(lines: &mut String, level: usize) -> Result<(), AllocError> {
    for _ in 0..level {
        lines.push_str("  ")?;
    }
    Ok(())
}

/// Appends an element's own line: its name, its namespace, and its attributes in the order of their names.
fn push_tag(element: &Element, lines: &mut String) -> Result<(), AllocError> {
    if let Some(prefix) = element.prefix() {
        lines.push_str(prefix)?;
        lines.push(':')?;
    }
    lines.push_str(element.name())?;
    if let Some(namespace) = element.namespace() {
        lines.push_str(" {")?;
        lines.push_str(namespace)?;
        lines.push('}')?;
    }
    if let Some(attributes) = element.attributes() {
        push_attributes(attributes, lines)?;
    }
    lines.push('\n')
}

/// Appends attributes in the order of their names.
fn push_attributes(
    attributes: &BTreeMap<String, String>,
    lines: &mut String,
) -> Result<(), AllocError> {
    for (name, value) in attributes.iter() {
        lines.push(' ')?;
        lines.push_str(name.as_str())?;
        lines.push('=')?;
        push_quoted(lines, value.as_str())?;
    }
    Ok(())
}
