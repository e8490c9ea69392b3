//! Reads of XML trees.
ghost use Rattle.std.specs.Prelude.{◌≡◌, map, string_bytes, option_map};
ghost use Rattle.dav_resource.specs.Element.{text_pair, nodes_of};
ghost use Rattle.dav_wire.specs.Trees.{attribute, attributes, tag, nodes, tree, may_follow};
ghost use Rattle.dav_wire.specs.Reads.{Reads, ReadsAllocating};

use crate::{Reader, WireError};
use dav_resource::{Element, StartTag, XMLNode};
use std::collections::BTreeMap;

impl<'a> Reader<'a> {
    /// Reads an element with its content, up to `levels` levels of elements. The element itself is the first
    /// level.
    ///
    /// - `Malformed`: the bytes do not begin with an element, the element has more levels, a string is not
    ///   UTF-8, or the keys of attributes do not ascend strictly.
    /// - `Memory`: memory runs out.
    ///
    /// The recursion is at most `levels` deep, so `levels` bounds the machine stack that the call uses.
    #[cycle(tree)]
    pub fn read_element(&mut self, levels: usize) -> Result<Element, WireError>
        ensures { ReadsAllocating (tree levels) (λ x. x) self.old result self.new }
    {
        if levels == 0 {
            return Err(WireError::Malformed);
        }
        let tag = self.read_tag()?;
        let children = self.read_nodes(levels - 1)?;
        let mut element = Element::from_tag(self.alloc, tag)?;
        element.children = children;
        Ok(element)
    }

    /// Reads the content of an element and the byte 0 after it.
    #[cycle(tree)]
    fn read_nodes(&mut self, levels: usize) -> Result<Vec<XMLNode>, WireError>
        ensures { ReadsAllocating (nodes (tree levels)) (λ v. nodes_of v.items) self.old result self.new }
    {
        let mut nodes = Vec::new(self.alloc);
        loop {
            match self.read_u8()? {
                0 => return Ok(nodes),
                1 => nodes.push(XMLNode::Element(self.read_element(levels)?))?,
                2 => nodes.push(XMLNode::Text(self.read_text()?))?,
                _ => return Err(WireError::Malformed),
            }
        }
    }

    /// Reads the tag of an element.
    fn read_tag(&mut self) -> Result<StartTag, WireError>
        ensures { ReadsAllocating tag (λ t. t) self.old result self.new }
    {
        let name = self.read_text()?;
        let prefix = self.read_optional_text()?;
        let namespace = self.read_optional_text()?;
        let attributes = self.read_attributes()?;
        Ok(StartTag {
            name,
            prefix,
            namespace,
            attributes,
        })
    }

    /// Reads attributes in strictly ascending order of keys.
    fn read_attributes(&mut self) -> Result<BTreeMap<String, String>, WireError>
        ensures { ReadsAllocating attributes (λ m. map text_pair m.entries) self.old result self.new }
    {
        let mut left = self.read_number()?;
        let mut attributes = BTreeMap::new(self.alloc);
        let mut last = None;
        while left > 0 {
            let (key, value) = self.read_attribute()?;
            if !may_follow(last, key) {
                return Err(WireError::Malformed);
            }
            attributes.insert(String::from_str(self.alloc, key)?, value)?;
            last = Some(key);
            left -= 1;
        }
        Ok(attributes)
    }

    /// Reads an attribute: its key, which is borrowed from the frame, and its value.
    fn read_attribute(&mut self) -> Result<(&'a str, String), WireError>
        ensures { ReadsAllocating attribute (λ p. (p.0.now, string_bytes p.1)) self.old result self.new }
    {
        let key = self.read_str()?;
        Ok((key, self.read_string()?))
    }
}

/// Whether a key may follow the last key, if there is one.
fn may_follow(last: Option<&str>, key: &str) -> bool
    ensures { result ≡ may_follow (option_map (λ s. s.now) last.entry) key.now }
{
    match last {
        Some(last) => last < key,
        None => true,
    }
}
