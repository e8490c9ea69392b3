//! Writes of XML trees.
ghost use Rattle.std.specs.Prelude.{◌<◌, [], ◌∷◌, map, option_copied};
ghost use Rattle.dav_resource.specs.Element.{text_pair, nodes_of, attributes_in};
ghost use Rattle.dav_wire.specs.Trees.{attribute, attributes, tag, one_node, nodes, tree};
ghost use Rattle.dav_wire.specs.TreeLaws.{levels_of, tree_levels};
ghost use Rattle.dav_wire.specs.Writes.{Writes, WritesUnless};

use crate::{WireError, Writer};
use dav_resource::{Element, XMLNode};
use std::alloc::AllocError;
use std::collections::BTreeMap;

impl Writer {
    /// Writes an element with its content, up to `levels` levels of elements. The element itself is the first
    /// level.
    ///
    /// - `Malformed`: the element has more levels. A reader with the same `levels` would reject it.
    /// - `Memory`: memory runs out.
    ///
    /// The recursion is at most `levels` deep, so `levels` bounds the machine stack that the call uses.
    #[cycle(write_tree)]
    pub fn write_element(&mut self, element: &Element, levels: usize) -> Result<(), WireError>
        ensures { WritesUnless (levels < tree_levels element.now) (tree levels) element.now self.old result self.new }
    {
        if levels == 0 {
            return Err(WireError::Malformed);
        }
        self.write_tag(element)?;
        self.write_nodes(&element.children, levels - 1)
    }

    /// Writes the content of an element, and the byte 0 after it.
    #[cycle(write_tree)]
    fn write_nodes(&mut self, children: &[XMLNode], levels: usize) -> Result<(), WireError>
        ensures { WritesUnless (levels < levels_of (nodes_of children.now)) (nodes (tree levels)) (nodes_of children.now) self.old result self.new }
    {
        for node in children {
            self.write_node(node, levels)?;
        }
        self.write_u8(0)?;
        Ok(())
    }

    /// Writes a node: the byte 1 and an element, or the byte 2 and a string.
    #[cycle(write_tree)]
    fn write_node(&mut self, node: &XMLNode, levels: usize) -> Result<(), WireError>
        ensures { WritesUnless (levels < levels_of (nodes_of (node.now ∷ []))) (one_node (tree levels)) node.now self.old result self.new }
    {
        match node {
            XMLNode::Element(element) => {
                self.write_u8(1)?;
                self.write_element(element, levels)
            }
            XMLNode::Text(text) => {
                self.write_u8(2)?;
                self.write_str(text.as_str())?;
                Ok(())
            }
        }
    }

    /// Writes the tag of an element.
    fn write_tag(&mut self, element: &Element) -> Result<(), AllocError>
        ensures { Writes tag element.now.tag self.old result self.new }
    {
        self.write_str(element.name())?;
        self.write_optional_str(element.prefix())?;
        self.write_optional_str(element.namespace())?;
        self.write_attributes(element.attributes())
    }

    /// Writes attributes in ascending order of keys. `None` stands for no attributes.
    fn write_attributes(
        &mut self,
        pairs: Option<&BTreeMap<String, String>>,
    ) -> Result<(), AllocError>
        ensures { Writes attributes (attributes_in (option_copied pairs.entry)) self.old result self.new }
    {
        match pairs {
            Some(pairs) => self.write_pairs(pairs),
            None => self.write_number(0),
        }
    }

    /// Writes the attributes of a map.
    fn write_pairs(&mut self, pairs: &BTreeMap<String, String>) -> Result<(), AllocError>
        ensures { Writes attributes (map text_pair pairs.now.entries) self.old result self.new }
    {
        self.write_number(pairs.len() as u64)?;
        for (key, value) in pairs {
            self.write_attribute(key, value)?;
        }
        Ok(())
    }

    /// Writes an attribute: its key and its value.
    fn write_attribute(&mut self, key: &str, value: &str) -> Result<(), AllocError>
        ensures { Writes attribute (key.now, value.now) self.old result self.new }
    {
        self.write_str(key)?;
        self.write_str(value)
    }
}
