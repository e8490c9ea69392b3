//! Element trees, as in the XML body of a WebDAV request (RFC 4918, section 14; Namespaces in XML 1.0).
ghost use Rattle.std.specs.Prelude.{◌≡◌, ◌↔◌, ◌<◌, ◌++◌, ◌∷◌, length, [], None, Some, position, unwrap_or, IsTrue, IfOk, OnOk, OnErr, option_map, option_copied, string_bytes};
ghost use Rattle.dav_resource.specs.Tree.{tagged, empty_element, prefixed_element, with_attribute, xmlns_name, with_children, append_nodes, one_text, one_element, texts_of, elements_of, first_named, without_first_named};
ghost use Rattle.dav_resource.specs.ElementNames.{name_text};
ghost use Rattle.dav_resource.specs.Element.{nodes_of, node_is_named, child_elements, tag_of, attributes_in};
ghost use Rattle.std.specs.Iterator.{YieldsFirstRef, item_count};

use crate::{ElementName, StartTag, Text};
use std::alloc::{AllocError, Global};
use std::collections::BTreeMap;
use std::marker::Model;
use std::rc::Rc;

/// An element with its attributes and content. In contracts its value is a tree.
#[derive(Drop, Debug)]
#[cycle(element)]
pub struct Element {
    tag: SharedTag,
    /// The content of the element, in order.
    pub children: Vec<XMLNode>,
}

/// A start tag that is not copied with its element.
#[derive(Drop, Debug)]
pub(crate) enum SharedTag {
    /// A name that the server itself writes, without a namespace and attributes.
    Constant(ElementName),
    /// A tag with several owners.
    Shared(Rc<StartTag>),
}

/// A node in the content of an element.
#[derive(Drop, Debug)]
#[cycle(element)]
pub enum XMLNode {
    /// An element with its content.
    Element(Element),
    /// Character data.
    Text(Text),
}

impl Model for Element {
    ghost use Rattle.dav_resource.specs.Tree.{Tree};
    ghost use Rattle.dav_resource.specs.TreeCode.{tree_code, tree_size};

    ghost Value = { Tree };

    ghost coded = { tree_code };

    ghost use Rattle.dav_resource.specs.Element.{tree_of};

    ghost view = { tree_of };

    ghost size = { tree_size };

    ghost use Rattle.std.proofs.Common.{arith};
    ghost use Rattle.dav_resource.specs.ElementFalls.{most_le-nodes_size};

    ghost size_decreases = { λ e _. omega (arith, most_le-nodes_size e.children.items) };
}

impl Element {
    /// Creates an element that the server itself writes. It takes no memory.
    pub fn constant(alloc: Global, name: ElementName) -> Element
        ensures { result ≡ prefixed_element (name_text name) }
    {
        Element {
            tag: SharedTag::Constant(name),
            children: Vec::new(alloc),
        }
    }

    /// Creates an element with this start tag and no content. Fails only if memory runs out.
    pub fn from_tag(alloc: Global, tag: StartTag) -> Result<Element, AllocError>
        ensures { IfOk result (λ e. e ≡ tagged tag) }
    {
        Ok(Element {
            tag: SharedTag::Shared(Rc::new(alloc, tag)?),
            children: Vec::new(alloc),
        })
    }

    /// Creates an element with this name. It has no prefix, namespace, attributes or content. Fails only if
    /// memory runs out.
    pub fn new(alloc: Global, name: &str) -> Result<Element, AllocError>
        ensures { IfOk result (λ e. e ≡ empty_element name.now None) }
    {
        let name = Text::from_str(alloc, name)?;
        Element::from_tag(alloc, StartTag::new(alloc, name))
    }

    /// Creates an element from a prefixed name, which is read as by `StartTag::prefixed`. Fails only if memory
    /// runs out.
    pub fn new2(alloc: Global, text: &str) -> Result<Element, AllocError>
        ensures { IfOk result (λ e. e ≡ prefixed_element text.now) }
    {
        Element::from_tag(alloc, StartTag::prefixed(alloc, text)?)
    }

    /// The local name (Namespaces in XML 1.0, section 4).
    pub fn name(&self) -> &str
        ensures { result.now ≡ self.now.tag.name }
    {
        match &self.tag {
            SharedTag::Constant(name) => local_name(name.as_str()),
            SharedTag::Shared(tag) => tag.name.as_str(),
        }
    }

    /// The namespace prefix of the name, if it has one.
    pub fn prefix(&self) -> Option<&str>
        ensures { option_copied result ≡ self.now.tag.prefix }
    {
        match &self.tag {
            SharedTag::Constant(name) => prefix_in(name.as_str()),
            SharedTag::Shared(tag) => borrowed(&tag.prefix),
        }
    }

    /// The namespace of the name, if it is known.
    pub fn namespace(&self) -> Option<&str>
        ensures { option_copied result ≡ self.now.tag.namespace }
    {
        match &self.tag {
            SharedTag::Constant(_) => None,
            SharedTag::Shared(tag) => borrowed(&tag.namespace),
        }
    }

    /// The attributes by name, including namespace declarations. `None` means that there are none.
    pub fn attributes(&self) -> Option<&BTreeMap<String, String>>
        ensures { attributes_in (option_copied result) ≡ self.now.tag.attributes }
    {
        match &self.tag {
            SharedTag::Constant(_) => None,
            SharedTag::Shared(tag) => Some(&tag.attributes),
        }
    }

    /// Returns a copy of the start tag. Fails only if memory runs out.
    pub fn start_tag(&self) -> Result<StartTag, AllocError>
        ensures { IfOk result (λ tag. tag ≡ self.now.tag) }
    {
        let alloc = *self.children.allocator();
        match &self.tag {
            SharedTag::Constant(name) => StartTag::prefixed(alloc, name.as_str()),
            SharedTag::Shared(tag) => StartTag::clone(tag),
        }
    }

    /// Declares a namespace under a prefix, or the default namespace for an empty prefix (Namespaces in XML
    /// 1.0, section 3). An existing declaration of the same prefix is replaced. Nothing else changes. Fails
    /// only if memory runs out, and the element is then dropped.
    pub fn ns(self, prefix: &str, uri: &str) -> Result<Element, AllocError>
        ensures { IfOk result (λ e. e ≡ with_attribute self (xmlns_name prefix.now) uri.now) }
    {
        let mut tag = self.start_tag()?;
        tag.declare(*self.children.allocator(), prefix, uri)?;
        self.with_tag(tag)
    }

    /// Returns the element with another start tag. Its content stays the same. Fails only if memory runs out,
    /// and the element is then dropped.
    pub fn with_tag(self, tag: StartTag) -> Result<Element, AllocError>
        ensures { IfOk result (λ e. e ≡ record self { tag = tag }) }
    {
        Ok(Element {
            tag: SharedTag::Shared(Rc::new(*self.children.allocator(), tag)?),
            children: self.children,
        })
    }

    /// Returns the element with this namespace, which its attributes need not declare. Fails only if memory
    /// runs out, and the element is then dropped.
    pub fn with_namespace(self, uri: &str) -> Result<Element, AllocError>
        ensures { IfOk result (λ e. e ≡ record self { tag = record self.tag { namespace = Some uri.now } }) }
    {
        let mut tag = self.start_tag()?;
        tag.namespace = Some(Text::from_str(*self.children.allocator(), uri)?);
        self.with_tag(tag)
    }

    /// Appends a text node. Fails only if memory runs out, and the element is then dropped.
    pub fn text(self, text: &str) -> Result<Element, AllocError>
        ensures { IfOk result (λ e. e ≡ with_children self (one_text text.now)) }
    {
        let text = Text::from_str(*self.children.allocator(), text)?;
        self.with_text(text)
    }

    /// Appends a text node, without copying the string. Fails only if memory runs out, and the element and the
    /// string are then dropped.
    pub fn with_text(mut self, text: Text) -> Result<Element, AllocError>
        ensures { IfOk result (λ e. e ≡ with_children self (one_text text)) }
    {
        push_node(&mut self.children, XMLNode::Text(text))?;
        Ok(self)
    }

    /// Returns the text nodes directly in the element, joined. Returns `None` if there are none. Fails only
    /// if memory runs out.
    pub fn get_text(&self) -> Result<Option<String>, AllocError>
        ensures { IfOk result (λ text. option_map string_bytes text ≡ texts_of self.now.children) }
    {
        let alloc = *self.children.allocator();
        let mut joined = None;
        for child in &self.children {
            if let XMLNode::Text(text) = child {
                joined = Some(append_text(alloc, joined, text.as_str())?);
            }
        }
        Ok(joined)
    }

    /// Iterates over the child elements, in order.
    pub fn child_elems_iter(&self) -> ChildElements<'_>
        ensures { child_elements result ≡ elements_of self.now.children }
    {
        ChildElements {
            nodes: &self.children,
        }
    }

    /// Whether the element has a child element.
    pub fn has_child_elems(&self) -> bool
        ensures { IsTrue result ↔ (0 < length (elements_of self.now.children)) }
    {
        self.child_elems_iter().next().is_some()
    }

    /// Removes and returns the first child element with this local name, whatever its prefix and namespace.
    /// Everything else stays the same. Returns `None` and changes nothing if there is no such child.
    pub fn take_child(&mut self, name: &str) -> Option<Element>
        ensures taken { result ≡ first_named name.now self.old.children }
        ensures left { self.new ≡ record self.old { children = without_first_named name.now self.old.children } }
    {
        take_named(&mut self.children, name)
    }

    /// Returns a deep copy. Fails only if memory runs out.
    #[cycle(clone)]
    #[tactic(auto, using(crate::proofs::ElementLemmas::walking))]
    pub fn clone(&self) -> Result<Element, AllocError>
        ensures { IfOk result (λ copy. copy ≡ self.now) }
    {
        let mut children = Vec::with_capacity(*self.children.allocator(), self.children.len())?;
        for child in &self.children {
            children.push(child.clone()?)?;
        }
        Ok(Element {
            tag: self.tag.clone()?,
            children,
        })
    }

    /// Appends a child element. Fails only if memory runs out. `self` is then unchanged, and the child is
    /// dropped.
    pub fn push_element(&mut self, element: Element) -> Result<(), AllocError>
        ensures ok { OnOk result (self.new ≡ with_children self.old (one_element element)) }
        ensures err { OnErr result (self.new ≡ self.old) }
    {
        push_node(&mut self.children, XMLNode::Element(element))
    }
}

impl SharedTag {
    /// Returns another owner of the tag. Fails only if the count of owners overflows.
    fn clone(&self) -> Result<SharedTag, AllocError>
        ensures { IfOk result (λ copy. tag_of copy ≡ tag_of self.now) }
    {
        match self {
            SharedTag::Constant(name) => Ok(SharedTag::Constant(*name)),
            SharedTag::Shared(tag) => Ok(SharedTag::Shared(tag.clone()?)),
        }
    }
}

impl XMLNode {
    /// Whether this node is an element with this local name.
    fn is_named(&self, name: &str) -> bool
        ensures { result ≡ node_is_named name.now self.now }
    {
        match self {
            XMLNode::Element(element) => element.name() == name,
            XMLNode::Text(_) => false,
        }
    }

    /// Returns a deep copy. Fails only if memory runs out.
    #[cycle(clone)]
    pub fn clone(&self) -> Result<XMLNode, AllocError>
        ensures { IfOk result (λ copy. copy ≡ self.now) }
    {
        match self {
            XMLNode::Element(element) => Ok(XMLNode::Element(element.clone()?)),
            XMLNode::Text(text) => Ok(XMLNode::Text(text.clone()?)),
        }
    }
}

/// An iterator over the elements among nodes, in order.
#[derive(Drop)]
pub struct ChildElements<'a> {
    nodes: &'a [XMLNode],
}

impl<'a> Iterator for ChildElements<'a> {
    type Item = &'a Element;

    ghost next_gives = { YieldsFirstRef child_elements };

    ghost remaining = { item_count child_elements };

    fn next(&mut self) -> Option<&'a Element> {
        while let [first, rest @ ..] = self.nodes {
            self.nodes = rest;
            if let XMLNode::Element(element) = first {
                return Some(element);
            }
        }
        None
    }
}

/// The index of the first element with this name.
fn position_named(nodes: &[XMLNode], name: &str) -> Option<usize>
    ensures { result ≡ position (node_is_named name.now) nodes.now }
{
    nodes.iter().position(|node| node.is_named(name))
}

/// Removes and returns the first element with this name.
fn take_named(nodes: &mut Vec<XMLNode>, name: &str) -> Option<Element>
    ensures taken { result ≡ first_named name.now (nodes_of nodes.old.items) }
    ensures left { nodes_of nodes.new.items ≡ without_first_named name.now (nodes_of nodes.old.items) }
{
    let at = position_named(nodes, name)?;
    match nodes.remove(at) {
        XMLNode::Element(element) => Some(element),
        XMLNode::Text(_) => None,
    }
}

/// Appends a node. The first one gets memory for itself alone, since most elements of a response have one.
#[tactic(auto, using(crate::proofs::ElementLemmas::building))]
fn push_node(children: &mut Vec<XMLNode>, node: XMLNode) -> Result<(), AllocError>
    ensures ok { OnOk result (nodes_of children.new.items ≡ append_nodes (nodes_of children.old.items) (nodes_of (node ∷ []))) }
    ensures err { OnErr result (nodes_of children.new.items ≡ nodes_of children.old.items) }
{
    if children.is_empty() {
        children.reserve_exact(1)?;
    }
    children.push(node)?;
    Ok(())
}

/// The local name in a prefixed name.
fn local_name(text: &'static str) -> &'static str
    ensures { result.now ≡ (prefixed_element text.now).tag.name }
{
    match text.split_once(':') {
        Some((_, name)) => name,
        None => text,
    }
}

/// The prefix in a prefixed name, if it has one.
fn prefix_in(text: &'static str) -> Option<&'static str>
    ensures { option_copied result ≡ (prefixed_element text.now).tag.prefix }
{
    let (prefix, _) = text.split_once(':')?;
    Some(prefix)
}

/// The string, if there is one.
fn borrowed(text: &Option<Text>) -> Option<&str>
    ensures { option_copied result ≡ text.now }
{
    match text {
        Some(text) => Some(text.as_str()),
        None => None,
    }
}

/// Appends a string to the text so far, or starts with it.
fn append_text(alloc: Global, joined: Option<String>, text: &str) -> Result<String, AllocError>
    ensures { IfOk result (λ whole. string_bytes whole ≡ unwrap_or (option_map string_bytes joined) [] ++ text.now) }
{
    let Some(mut whole) = joined else {
        return String::from_str(alloc, text);
    };
    whole.push_str(text)?;
    Ok(whole)
}
