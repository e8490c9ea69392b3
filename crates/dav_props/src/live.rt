//! Decides which properties a request may set or remove (RFC 4918, sections 4.2, 9.2 and 15).
ghost use Rattle.std.specs.Prelude.{◌≡◌, ◌++◌, ℕ, List, is_some};
ghost use Rattle.std.specs.List.{concat};
ghost use Rattle.dav_resource.specs.Element.{nodes_of};
ghost use Rattle.dav_resource.specs.Tree.{texts, texts_of};
ghost use Rattle.dav_props.specs.Language.{is_language_list};
ghost use Rattle.dav_props.specs.LanguageList.{accepts};
ghost use Rattle.dav_props.specs.Live.{kind_of, kind_in_dav, kind_in_apache, kind_in_microsoft, node_is_text, node_text, holds_text_alone as tree_holds_text_alone, holds_languages as tree_holds_languages, set_status, remove_status, dead_status as status_of_dead, time_status as status_of_time, time_in as tree_time, node_time, patch_of_time, is_kept as is_kept_tree};

use crate::language::LanguageList;
use dav_dates::read_http_date;
use dav_resource::{Element, Profile, PropertyPatch, XMLNode};
use http::StatusCode;

/// What the name of a property says about setting and removing it.
#[derive(Clone, Copy, Debug, PartialEq, Eq)]
pub(crate) enum PropertyKind {
    /// A dead property: the value that a client sets is stored.
    Dead,
    /// The name under which the resource is displayed, stored like a dead property (RFC 4918, section 15.2).
    DisplayName,
    /// The languages of the resource, stored like a dead property (RFC 4918, section 15.3).
    ContentLanguage,
    /// A property that a client may be able to set on another server, but not here.
    Fixed,
    /// A property that Microsoft's clients set. The response reports success, but the value is not stored.
    PassedOver,
    /// When the resource was last modified, as Microsoft's clients set it. The profile says whether that changes the time.
    ModificationTime,
    /// When the resource was created, as Microsoft's clients set it. The profile says whether that changes the time.
    CreationTime,
    /// A property that only the server sets.
    Protected,
}

/// Returns the status of setting a property (RFC 4918, sections 9.2.1 and 15):
///
/// - 100 if the store has to set it. This is every dead property, and, if the store supports dead properties
///   (`can_deadprop`), a valid `DAV:displayname` or `DAV:getcontentlanguage` and, in a profile that sets times, a valid
///   `Win32LastModifiedTime` or `Win32CreationTime`.
/// - 200 for a valid value of a property that Microsoft's clients set and that is not stored.
/// - 409 for a value that is not valid. A live property that is not protected must hold text and no element,
///   the text of `DAV:getcontentlanguage` must be a list of languages, and a time that is set must be an HTTP date.
/// - 403 for every other property, and for one that the store would have to set if it supported dead properties.
pub fn liveprop_set(profile: Profile, prop: &Element, can_deadprop: bool) -> StatusCode
    ensures { result ≡ set_status profile prop.now can_deadprop }
{
    let kind = property_kind(prop);
    if kind == PropertyKind::Dead {
        return StatusCode::CONTINUE;
    }
    if kind == PropertyKind::Protected {
        return StatusCode::FORBIDDEN;
    }
    if !holds_text_alone(prop) {
        return StatusCode::CONFLICT;
    }
    match kind {
        PropertyKind::ModificationTime | PropertyKind::CreationTime => {
            time_status(profile, prop, can_deadprop)
        }
        PropertyKind::PassedOver => StatusCode::OK,
        PropertyKind::Fixed => StatusCode::FORBIDDEN,
        PropertyKind::ContentLanguage if !holds_languages(prop) => StatusCode::CONFLICT,
        _ => dead_status(can_deadprop),
    }
}

/// Returns the status of removing a property (RFC 4918, sections 9.2.1 and 15). It is 100 if the store has to
/// remove it: a dead property, or `DAV:displayname` or `DAV:getcontentlanguage` if the store supports dead
/// properties (`can_deadprop`). It is 403 for every other property.
pub fn liveprop_remove(prop: &Element, can_deadprop: bool) -> StatusCode
    ensures { result ≡ remove_status prop.now can_deadprop }
{
    match property_kind(prop) {
        PropertyKind::Dead => StatusCode::CONTINUE,
        PropertyKind::DisplayName | PropertyKind::ContentLanguage => dead_status(can_deadprop),
        _ => StatusCode::FORBIDDEN,
    }
}

/// Returns whether a property of this name is stored: a dead property, `DAV:displayname` or
/// `DAV:getcontentlanguage` (RFC 4918, sections 4.2, 15.2 and 15.3).
pub fn is_kept(prop: &Element) -> bool
    ensures { result ≡ is_kept_tree prop.now }
{
    match property_kind(prop) {
        PropertyKind::Dead | PropertyKind::DisplayName | PropertyKind::ContentLanguage => true,
        _ => false,
    }
}

/// Returns the change of a resource's times that the property asks for, if it is one of Microsoft's times with an HTTP date.
pub(crate) fn time_patch(prop: &Element) -> Option<PropertyPatch>
    ensures { result ≡ patch_of_time (kind_of prop.now.tag.namespace prop.now.tag.name) (tree_time prop.now) }
{
    match property_kind(prop) {
        PropertyKind::ModificationTime => time_in(prop).map(PropertyPatch::Modified),
        PropertyKind::CreationTime => time_in(prop).map(PropertyPatch::Created),
        _ => None,
    }
}

/// Returns the status of setting a time that holds text alone.
fn time_status(profile: Profile, prop: &Element, can_deadprop: bool) -> StatusCode
    ensures { result ≡ status_of_time profile prop.now can_deadprop }
{
    if !profile.sets_times() {
        return StatusCode::OK;
    }
    if time_in(prop).is_some() {
        dead_status(can_deadprop)
    } else {
        StatusCode::CONFLICT
    }
}

/// Returns the time of an element whose only content is the text of an HTTP date, in seconds since 1970.
fn time_in(prop: &Element) -> Option<u64>
    ensures { result ≡ tree_time prop.now }
{
    match prop.children.as_slice() {
        [node] => time_of(node),
        _ => None,
    }
}

/// Returns the time of a text that is an HTTP date, in seconds since 1970.
fn time_of(node: &XMLNode) -> Option<u64>
    ensures { result ≡ node_time node.now }
{
    match node {
        XMLNode::Text(text) => read_http_date(text.as_str()),
        XMLNode::Element(_) => None,
    }
}

/// Returns the status of setting or removing `DAV:displayname` or `DAV:getcontentlanguage`: 100 if the store
/// supports dead properties, else 403.
fn dead_status(can_deadprop: bool) -> StatusCode
    ensures { result ≡ status_of_dead can_deadprop }
{
    if can_deadprop {
        StatusCode::CONTINUE
    } else {
        StatusCode::FORBIDDEN
    }
}

fn property_kind(prop: &Element) -> PropertyKind
    ensures { result ≡ kind_of prop.now.tag.namespace prop.now.tag.name }
{
    let Some(namespace) = prop.namespace() else {
        return PropertyKind::Dead;
    };
    match namespace {
        "DAV:" => kind_in_dav(prop.name()),
        "http://apache.org/dav/props/" => kind_in_apache(prop.name()),
        "urn:schemas-microsoft-com:" => kind_in_microsoft(prop.name()),
        _ => PropertyKind::Dead,
    }
}

fn kind_in_dav(name: &str) -> PropertyKind
    ensures { result ≡ kind_in_dav name.now }
{
    match name {
        "displayname" => PropertyKind::DisplayName,
        "getcontentlanguage" => PropertyKind::ContentLanguage,
        "getlastmodified" => PropertyKind::Fixed,
        _ => PropertyKind::Protected,
    }
}

fn kind_in_apache(name: &str) -> PropertyKind
    ensures { result ≡ kind_in_apache name.now }
{
    match name {
        "executable" => PropertyKind::Fixed,
        _ => PropertyKind::Protected,
    }
}

fn kind_in_microsoft(name: &str) -> PropertyKind
    ensures { result ≡ kind_in_microsoft name.now }
{
    match name {
        "Win32LastModifiedTime" => PropertyKind::ModificationTime,
        "Win32CreationTime" => PropertyKind::CreationTime,
        "Win32LastAccessTime" | "Win32FileAttributes" => PropertyKind::PassedOver,
        _ => PropertyKind::Protected,
    }
}

/// Returns whether the element directly holds text, and no element.
fn holds_text_alone(prop: &Element) -> bool
    ensures { result ≡ tree_holds_text_alone prop.now }
{
    has_text(&prop.children) && !prop.has_child_elems()
}

fn has_text(nodes: &[XMLNode]) -> bool
    ensures { result ≡ is_some (texts_of (nodes_of nodes.now)) }
{
    nodes.iter().any(is_text)
}

fn is_text(node: &XMLNode) -> bool
    ensures { result ≡ node_is_text node.now }
{
    matches!(node, XMLNode::Text(_))
}

/// Returns whether the texts directly in the element, joined, are a language list.
fn holds_languages(prop: &Element) -> bool
    ensures { result ≡ tree_holds_languages prop.now }
{
    are_languages(&prop.children)
}

/// Returns whether the texts among the nodes, joined, are a language list.
fn are_languages(nodes: &[XMLNode]) -> bool
    ensures { result ≡ is_language_list (concat (texts (nodes_of nodes.now))) }
{
    let mut list = LanguageList::new();
    for node in nodes {
        list = read_node(list, node);
    }
    list.is_whole()
}

/// Returns the state after the node's text, if it is a text.
fn read_node(list: LanguageList, node: &XMLNode) -> LanguageList
    ensures { (rest : List ℕ) → accepts result rest ≡ accepts list (node_text node.now ++ rest) }
{
    match node {
        XMLNode::Text(text) => list.read(text.as_str()),
        XMLNode::Element(_) => list,
    }
}
