//! Groups the properties of a resource by status (RFC 4918, section 14.22).
ghost use Rattle.std.specs.Prelude.{◌≡◌, IfOk, codes};
ghost use Rattle.http.specs.StatusCode.{IsStatusCode};
ghost use Rattle.dav_resource.specs.Tree.{prefixed_element};
ghost use Rattle.dav_messages.specs.DavElement.{with_elements};
ghost use Rattle.dav_props.specs.Propstat.{grouped, propstat as tree_of_group, property_response as response_of_groups};
ghost use Rattle.dav_props.specs.Groups.{groups_of, AddsProperty, AreStatuses};

use dav_messages::{href_element, status_element};
use dav_resource::{DavPath, Element, ElementName, Profile};
use http::StatusCode;
use std::alloc::{AllocError, Global};
use std::collections::BTreeMap;

/// Groups reported properties by status. Those of one status keep their order. Fails only if memory runs out.
pub fn group_by_status(
    alloc: Global,
    reported: Vec<(StatusCode, Element)>,
) -> Result<BTreeMap<u16, Vec<Element>>, AllocError>
    ensures groups { IfOk result (λ groups. groups_of groups ≡ grouped reported.items) }
    ensures statuses { IfOk result AreStatuses }
{
    let mut groups = BTreeMap::new(alloc);
    for (status, element) in reported {
        groups = add_property(alloc, groups, status.as_u16(), element)?;
    }
    Ok(groups)
}

/// Adds a property with this status, after those that have it.
fn add_property(
    alloc: Global,
    mut groups: BTreeMap<u16, Vec<Element>>,
    status: u16,
    element: Element,
) -> Result<BTreeMap<u16, Vec<Element>>, AllocError>
    ensures added { IfOk result (AddsProperty groups status element) }
    ensures statuses { IfOk result (λ more. AreStatuses groups → IsStatusCode status → AreStatuses more) }
{
    let mut elements = match groups.remove(&status) {
        Some(elements) => elements,
        None => Vec::new(alloc),
    };
    elements.push(element)?;
    groups.insert(status, elements)?;
    Ok(groups)
}

/// Returns the `response` that reports a resource's properties, grouped by status. Fails only if memory runs
/// out.
pub(crate) fn property_response(
    alloc: Global,
    profile: Profile,
    path: &DavPath,
    groups: BTreeMap<u16, Vec<Element>>,
) -> Result<Element, AllocError>
    requires { AreStatuses groups }
    ensures { IfOk result (λ response. response ≡ response_of_groups profile path.now (groups_of groups)) }
{
    let mut response = Element::constant(alloc, ElementName::Response);
    response.children.reserve_exact(1 + groups.len())?;
    response.push_element(href_element(alloc, profile, path)?)?;
    for (status, elements) in groups {
        let status = StatusCode::from_u16(status).unwrap();
        response.push_element(propstat(alloc, status, elements)?)?;
    }
    Ok(response)
}

/// Returns the `propstat` with the properties of one status.
fn propstat(
    alloc: Global,
    status: StatusCode,
    elements: Vec<Element>,
) -> Result<Element, AllocError>
    ensures { IfOk result (λ tree. tree ≡ tree_of_group (status, elements.items)) }
{
    let mut propstat = Element::constant(alloc, ElementName::Propstat);
    propstat.children.reserve_exact(2)?;
    propstat.push_element(prop(alloc, elements)?)?;
    propstat.push_element(status_element(alloc, status)?)?;
    Ok(propstat)
}

/// Returns a `prop` with these properties, in order.
fn prop(alloc: Global, elements: Vec<Element>) -> Result<Element, AllocError>
    ensures { IfOk result (λ tree. tree ≡ with_elements (prefixed_element (codes "D:prop")) elements.items) }
{
    let mut prop = Element::constant(alloc, ElementName::Prop);
    prop.children.reserve_exact(elements.len())?;
    for element in elements {
        prop.push_element(element)?;
    }
    Ok(prop)
}
