//! The body of a request, built from the events of an XML parser.
use dav_engine::{Element, ReqBody, Text, XMLNode};
use std::alloc::{AllocError, Global};

/// How deep the elements of a body may be nested. The engine copies, prints and drops a tree by recursion, so the
/// program that builds the tree bounds its depth.
const MAX_DEPTH: usize = 256;

/// Builds a tree from the events of an XML parser: the start of an element, its text, its end.
#[derive(Drop)]
pub struct TreeBuilder {
    /// The elements whose end has not come yet, the outermost first.
    open: Vec<Element>,
    /// The outermost element, once it has ended.
    root: Option<Element>,
    /// Whether the events form no single tree of at most `MAX_DEPTH` levels.
    malformed: bool,
}

impl TreeBuilder {
    /// Creates a builder that has seen no event.
    pub fn new(alloc: Global) -> TreeBuilder {
        TreeBuilder {
            open: Vec::new(alloc),
            root: None,
            malformed: false,
        }
    }

    /// Starts an element, which has its name, prefix, namespace and attributes, and no children yet. Fails only if
    /// memory runs out.
    pub fn start(&mut self, element: Element) -> Result<(), AllocError> {
        if self.root.is_some() || self.open.len() >= MAX_DEPTH {
            self.malformed = true;
            return Ok(());
        }
        self.open.push(element)?;
        Ok(())
    }

    /// Adds text to the innermost open element. Fails only if memory runs out.
    pub fn text(&mut self, text: String) -> Result<(), AllocError> {
        match self.open.last_mut() {
            Some(parent) => parent
                .children
                .push(XMLNode::Text(Text::from_string(text)))?,
            None => self.malformed = true,
        }
        Ok(())
    }

    /// Ends the innermost open element. Fails only if memory runs out.
    pub fn end(&mut self) -> Result<(), AllocError> {
        let Some(element) = self.open.pop() else {
            self.malformed = true;
            return Ok(());
        };
        match self.open.last_mut() {
            Some(parent) => parent.push_element(element)?,
            None => self.root = Some(element),
        }
        Ok(())
    }

    /// Returns the body. The engine rejects a malformed one with 400.
    pub fn finish(self) -> ReqBody {
        let TreeBuilder {
            open,
            root,
            malformed,
        } = self;
        if malformed || !open.is_empty() {
            return ReqBody::Malformed;
        }
        match root {
            Some(root) => ReqBody::Tree(root),
            None => ReqBody::Malformed,
        }
    }
}
