//! The list of requested properties, each once.
ghost use Rattle.std.specs.Prelude.{◌≡◌, [], IfOk};
ghost use Rattle.std.proofs.Props.{props};
ghost use Rattle.dav_find.specs.Asked.{ask_once as ask_once_more};
ghost use Rattle.dav_find.specs.Names.{AreNamesOf, elements_in};

use crate::asked::AskedProperty;
use crate::names::PropertyNames;
use dav_resource::Element;
use std::alloc::{AllocError, Global};

/// The requested properties in order, each once, with the set of their names.
#[derive(Drop, Debug)]
pub(crate) struct AskedList<'e> {
    asked: Vec<AskedProperty>,
    names: PropertyNames<'e>,
    ghost named: { AreNamesOf names.names (elements_in asked.items) } by { Prim.hlevel props },
}

impl<'e> AskedList<'e> {
    /// Creates an empty list.
    pub(crate) fn new(alloc: Global) -> AskedList<'e>
        ensures { result.asked.items ≡ [] }
    {
        AskedList {
            asked: Vec::new(alloc),
            names: PropertyNames::new(alloc),
        }
    }

    /// Appends a copy of the property, unless the list already has one of its namespace and name. `by_server`
    /// says that the property comes from the server's own list. Fails only if memory runs out.
    pub(crate) fn ask_once(
        self,
        element: &'e Element,
        by_server: bool,
    ) -> Result<AskedList<'e>, AllocError>
        ensures { IfOk result (λ all. all.asked.items ≡ ask_once_more self.entry.asked.items (record { element = element.now; by_server = by_server })) }
    {
        let AskedList {
            mut asked,
            mut names,
        } = self;
        if names.insert(element)? {
            asked.push(AskedProperty::new(element.clone()?, by_server)?)?;
        }
        Ok(AskedList { asked, names })
    }

    /// Returns the properties, in order.
    pub(crate) fn into_vec(self) -> Vec<AskedProperty>
        ensures { result ≡ self.entry.asked }
    {
        self.asked
    }
}
