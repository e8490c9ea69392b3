//! The properties that the server adds to those that the request names.
ghost use Rattle.std.specs.Prelude.{◌≡◌, ◌++◌, codes, IfOk};
ghost use Rattle.std.specs.Option.{option_copied};
ghost use Rattle.dav_find.specs.Asked.{property as property_of, dav_properties as properties_of_dav, named_besides as names_besides, microsoft_properties as properties_of_microsoft, server_properties as properties_of_server};

use crate::search::FindKind;
use dav_live::is_microsoft;
use dav_resource::{Element, StartTag, Text};
use std::alloc::{AllocError, Global};

/// Returns the server's own list of properties, by the kind of search and the client. Fails only if memory
/// runs out.
///
/// - `prop`: none.
/// - `propname`: `dav_properties` and `named_besides`, for every client.
/// - `allprop`: `dav_properties`, and for a Microsoft client `microsoft_properties` too.
pub(crate) fn server_properties(
    alloc: Global,
    kind: FindKind,
    user_agent: Option<&str>,
) -> Result<Vec<Element>, AllocError>
    ensures { IfOk result (λ elements. elements.items ≡ properties_of_server kind (option_copied user_agent.entry)) }
{
    match kind {
        FindKind::Prop => Ok(Vec::new(alloc)),
        FindKind::PropName => joined(dav_properties(alloc)?, named_besides(alloc)?),
        FindKind::AllProp if is_microsoft(user_agent) => {
            joined(dav_properties(alloc)?, microsoft_properties(alloc)?)
        }
        FindKind::AllProp => dav_properties(alloc),
    }
}

/// Appends the second list to the first.
fn joined(mut elements: Vec<Element>, more: Vec<Element>) -> Result<Vec<Element>, AllocError>
    ensures { IfOk result (λ all. all.items ≡ elements.items ++ more.items) }
{
    for element in more {
        elements.push(element)?;
    }
    Ok(elements)
}

/// Returns the properties of RFC 4918, section 15.
fn dav_properties(alloc: Global) -> Result<Vec<Element>, AllocError>
    ensures { IfOk result (λ elements. elements.items ≡ properties_of_dav) }
{
    Ok(vec![in alloc;
        dav_property(alloc, "creationdate")?,
        dav_property(alloc, "displayname")?,
        dav_property(alloc, "getcontentlanguage")?,
        dav_property(alloc, "getcontentlength")?,
        dav_property(alloc, "getcontenttype")?,
        dav_property(alloc, "getetag")?,
        dav_property(alloc, "getlastmodified")?,
        dav_property(alloc, "lockdiscovery")?,
        dav_property(alloc, "resourcetype")?,
        dav_property(alloc, "supportedlock")?,
    ]?)
}

/// Returns the further properties of `propname`: those of the quota, and one each of Apache's and
/// Microsoft's.
fn named_besides(alloc: Global) -> Result<Vec<Element>, AllocError>
    ensures { IfOk result (λ elements. elements.items ≡ names_besides) }
{
    Ok(vec![in alloc;
        dav_property(alloc, "quota-available-bytes")?,
        dav_property(alloc, "quota-used-bytes")?,
        property(alloc, "A", "http://apache.org/dav/props/", "executable")?,
        microsoft_property(alloc, "Win32LastAccessTime")?,
    ]?)
}

/// Returns the further properties of `allprop` for a Microsoft client.
fn microsoft_properties(alloc: Global) -> Result<Vec<Element>, AllocError>
    ensures { IfOk result (λ elements. elements.items ≡ properties_of_microsoft) }
{
    Ok(vec![in alloc;
        microsoft_property(alloc, "Win32CreationTime")?,
        microsoft_property(alloc, "Win32FileAttributes")?,
        microsoft_property(alloc, "Win32LastAccessTime")?,
        microsoft_property(alloc, "Win32LastModifiedTime")?,
    ]?)
}

fn dav_property(alloc: Global, name: &str) -> Result<Element, AllocError>
    ensures { IfOk result (λ element. element ≡ property_of (codes "D") (codes "DAV:") name.now) }
{
    property(alloc, "D", "DAV:", name)
}

fn microsoft_property(alloc: Global, name: &str) -> Result<Element, AllocError>
    ensures { IfOk result (λ element. element ≡ property_of (codes "Z") (codes "urn:schemas-microsoft-com:") name.now) }
{
    property(alloc, "Z", "urn:schemas-microsoft-com:", name)
}

/// Returns an empty element of this name, without attributes. It declares no namespace.
fn property(alloc: Global, prefix: &str, namespace: &str, name: &str) -> Result<Element, AllocError>
    ensures { IfOk result (λ element. element ≡ property_of prefix.now namespace.now name.now) }
{
    let mut tag = StartTag::new(alloc, Text::from_str(alloc, name)?);
    tag.prefix = Some(Text::from_str(alloc, prefix)?);
    tag.namespace = Some(Text::from_str(alloc, namespace)?);
    Element::from_tag(alloc, tag)
}
