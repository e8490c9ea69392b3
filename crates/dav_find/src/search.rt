//! What a PROPFIND asks for (RFC 4918, sections 9.1 and 14.20).
ghost use Rattle.std.specs.Prelude.{◌≡◌, [], map, codes, true, IfOk};
ghost use Rattle.std.specs.List.{fold, find};
ghost use Rattle.std.specs.Option.{option_copied};
ghost use Rattle.dav_resource.specs.Gives.{GivesBy};
ghost use Rattle.dav_resource.specs.Tree.{elements_of};
ghost use Rattle.dav_messages.specs.DavElement.{is_named as is_named_tree};
ghost use Rattle.dav_find.specs.Asked.{is_of, names_only, named_only, ask_once, asked_by_request, asked_by_server, says_kind as says_kind_tree, is_propfind as is_propfind_tree, named_in, asking, asking_by, asking_in, asking_of};
ghost use Rattle.dav_find.specs.Searching.{asking_for};

use crate::asked::AskedProperty;
use crate::asked_list::AskedList;
use crate::server_list::server_properties;
use dav_messages::{is_empty_body, is_named};
use dav_resource::{DavError, DavResult, Element, ReqBody};
use dav_store::GuardedFileSystem;
use std::alloc::{AllocError, Global};

/// The kind of a PROPFIND (RFC 4918, section 14.20).
#[derive(Clone, Copy, Debug, PartialEq, Eq)]
pub enum FindKind {
    /// `allprop`: the server's own list (the properties of RFC 4918, and four more for a Microsoft client),
    /// the properties of `include`, and all that the store keeps (section 14.2).
    AllProp,
    /// `propname`: the names of the server's own list and of all stored properties, without values (section
    /// 14.21).
    ///
    /// A live property is reported only if its value is known. A stored property whose name is that of a
    /// reported live property appears twice.
    PropName,
    /// `prop`: the properties that the request names (section 14.18).
    Prop,
}

impl FindKind {
    /// Returns whether properties are reported by name only, without values.
    pub(crate) fn names_only(self) -> bool
        ensures { result ≡ names_only self }
    {
        match self {
            FindKind::PropName => true,
            FindKind::AllProp | FindKind::Prop => false,
        }
    }

    /// Returns whether only properties that the request names are reported.
    pub(crate) fn named_only(self) -> bool
        ensures { result ≡ named_only self }
    {
        match self {
            FindKind::Prop => true,
            FindKind::AllProp | FindKind::PropName => false,
        }
    }
}

/// What a PROPFIND asks for: each property once, first those that the request names, then the server's.
#[derive(Drop, Debug)]
pub struct Search {
    /// The kind of the PROPFIND.
    pub kind: FindKind,
    /// The requested properties.
    pub asked: Vec<AskedProperty>,
}

/// Reads from the body which properties a PROPFIND asks for.
///
/// Without a body, or with an empty one, it asks for all properties. Otherwise the first `propname`, `prop`
/// or `allprop` in the root element decides, and with `allprop` the first `include` names further properties.
/// These elements are recognized by their local names only. A body that the store holds counts as bytes.
/// `user_agent` is the client, if known.
///
/// Errors: `XmlParseError` if the body is not a `propfind` element of `DAV:`, or has none of the three
/// elements. Otherwise only `Memory`.
pub fn read_search<C, F: GuardedFileSystem<C>>(
    fs: &F,
    alloc: Global,
    body: &ReqBody,
    user_agent: Option<&str>,
) -> DavResult<Search>
    ensures { GivesBy asking_for result (asking_of (F.seen fs.now).facts.bodies body.now (option_copied user_agent.entry)) }
{
    if is_empty_body::<C, F>(fs, body) {
        return Ok(search_for(alloc, FindKind::AllProp, None, user_agent)?);
    }
    match body {
        ReqBody::Tree(root) if is_propfind(root) => read_propfind(alloc, root, user_agent),
        _ => Err(DavError::XmlParseError),
    }
}

fn is_propfind(root: &Element) -> bool
    ensures { result ≡ is_propfind_tree root.now }
{
    is_named(root, "propfind") && is_of(root, "DAV:")
}

/// Returns whether an element has this namespace.
pub(crate) fn is_of(element: &Element, namespace: &str) -> bool
    ensures { result ≡ is_of namespace.now element.now }
{
    match element.namespace() {
        Some(own) => own == namespace,
        None => false,
    }
}

/// Reads what the root element asks for.
fn read_propfind(alloc: Global, root: &Element, user_agent: Option<&str>) -> DavResult<Search>
    requires { is_propfind_tree root.now ≡ true }
    ensures { GivesBy asking_for result (asking_in (option_copied user_agent.entry) root.now) }
{
    match said_in(root) {
        Some(said) => Ok(search_by(alloc, root, said, user_agent)?),
        None => Err(DavError::XmlParseError),
    }
}

/// Returns the first child element that decides the kind of search, if there is one.
fn said_in(root: &Element) -> Option<&Element>
    ensures { option_copied result ≡ find says_kind_tree (elements_of root.now.children) }
{
    for child in root.child_elems_iter() {
        if says_kind(child) {
            return Some(child);
        }
    }
    None
}

fn says_kind(element: &Element) -> bool
    ensures { result ≡ says_kind_tree element.now }
{
    is_named(element, "propname") || is_named(element, "prop") || is_named(element, "allprop")
}

/// Returns the first `include` child, if there is one.
fn include_in(root: &Element) -> Option<&Element>
    ensures { option_copied result ≡ find (is_named_tree (codes "include")) (elements_of root.now.children) }
{
    for child in root.child_elems_iter() {
        if is_named(child, "include") {
            return Some(child);
        }
    }
    None
}

/// Returns the search that the deciding element `said` asks for.
fn search_by(
    alloc: Global,
    root: &Element,
    said: &Element,
    user_agent: Option<&str>,
) -> Result<Search, AllocError>
    ensures { IfOk result (λ search. asking_for search ≡ asking_by (option_copied user_agent.entry) root.now said.now) }
{
    match said.name() {
        "propname" => search_for(alloc, FindKind::PropName, None, user_agent),
        "prop" => search_for(alloc, FindKind::Prop, Some(said), user_agent),
        _ => search_for(alloc, FindKind::AllProp, include_in(root), user_agent),
    }
}

/// Builds a search of this kind: the properties that are children of `own`, if it is given, and then the
/// server's own list, each once.
fn search_for(
    alloc: Global,
    kind: FindKind,
    own: Option<&Element>,
    user_agent: Option<&str>,
) -> Result<Search, AllocError>
    ensures { IfOk result (λ search. asking_for search ≡ asking kind (named_in (option_copied own.entry)) (option_copied user_agent.entry)) }
{
    let added = server_properties(alloc, kind, user_agent)?;
    let asked = ask_added(ask_own(alloc, own)?, &added)?;
    Ok(Search {
        kind,
        asked: asked.into_vec(),
    })
}

/// Lists the properties that are children of `own`, if it is given, each once.
fn ask_own<'e>(alloc: Global, own: Option<&'e Element>) -> Result<AskedList<'e>, AllocError>
    ensures { IfOk result (λ list. list.asked.items ≡ fold ask_once [] (map asked_by_request (named_in (option_copied own.entry)))) }
{
    let mut list = AskedList::new(alloc);
    let Some(part) = own else {
        return Ok(list);
    };
    for element in part.child_elems_iter() {
        list = list.ask_once(element, false)?;
    }
    Ok(list)
}

/// Appends the server's own properties, except those that the list already has.
fn ask_added<'e>(
    mut list: AskedList<'e>,
    elements: &'e [Element],
) -> Result<AskedList<'e>, AllocError>
    ensures { IfOk result (λ more. more.asked.items ≡ fold ask_once list.entry.asked.items (map asked_by_server elements.now)) }
{
    for element in elements {
        list = list.ask_once(element, true)?;
    }
    Ok(list)
}
