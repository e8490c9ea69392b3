//! The report of what was found for a resource.
ghost use Rattle.std.specs.Prelude.{◌≡◌, ◌++◌, map, IfOk};
ghost use Rattle.std.specs.List.{flat_map};
ghost use Rattle.dav_props.specs.Property.{bare};
ghost use Rattle.dav_find.specs.declared.search.FindKind.TheVariants.{AllProp};
ghost use Rattle.dav_find.specs.Finding.{finding_of};
ghost use Rattle.dav_find.specs.Names.{AreNamesOf};
ghost use Rattle.dav_find.specs.Reporting.{kept_in as kept_of, missing_status as status_of_missing, report_one as report_of_one, given_in, report_stored as report_of_stored, report_of};

use crate::finding::Found;
use crate::names::PropertyNames;
use crate::search::FindKind;
use dav_props::{bare_element, is_kept};
use dav_resource::{Element, Items, SharedElement};
use http::StatusCode;
use std::alloc::{AllocError, Global};

/// A status, and the property that is reported with it.
pub(crate) type PropertyStatus = (StatusCode, Element);

/// Returns what is reported for a resource: first the requested properties, then the stored ones. Fails only
/// if memory runs out.
pub(crate) fn report(
    alloc: Global,
    kind: FindKind,
    found: Vec<Found<'_>>,
    stored: &Result<Items<SharedElement>, StatusCode>,
) -> Result<Vec<PropertyStatus>, AllocError>
    ensures { IfOk result (λ reported. reported.items ≡ report_of kind (map finding_of found.entry.items) stored.now) }
{
    let mut more = report_stored(alloc, kind, found.as_slice(), kept_in(stored))?;
    let mut reported = report_found(alloc, found, stored)?;
    reported.append(&mut more)?;
    Ok(reported)
}

/// Returns what is reported of the requested properties. The elements that were found are moved.
fn report_found<'e>(
    alloc: Global,
    found: Vec<Found<'e>>,
    stored: &'e Result<Items<SharedElement>, StatusCode>,
) -> Result<Vec<PropertyStatus>, AllocError>
    ensures { IfOk result (λ reported. reported.items ≡ flat_map (report_of_one stored.now) (map finding_of found.entry.items)) }
{
    let kept = names_of(alloc, kept_in(stored))?;
    let mut reported = Vec::with_capacity(alloc, found.len())?;
    for one in found {
        reported = report_one(reported, one, stored, &kept)?;
    }
    Ok(reported)
}

/// Appends what is reported of one requested property. `kept` has the names of the stored properties that the
/// store returned.
///
/// A property that was found is reported with 200. One that was not is reported by its name, with the status
/// of `missing_status`. It is left out if `kept` has its name, or if only the server's own list names it.
fn report_one<'e>(
    mut reported: Vec<PropertyStatus>,
    one: Found<'e>,
    stored: &Result<Items<SharedElement>, StatusCode>,
    kept: &PropertyNames<'e>,
) -> Result<Vec<PropertyStatus>, AllocError>
    requires { AreNamesOf kept.now.names (kept_of stored.now) }
    ensures { IfOk result (λ more. more.items ≡ reported.items ++ report_of_one stored.now (finding_of one.entry)) }
{
    let Found { asked, value } = one;
    match value {
        Ok(element) => {
            reported.push((StatusCode::OK, element))?;
            Ok(reported)
        }
        Err(status) => match &asked.bare {
            Some(bare) if !kept.has(asked.element()) => {
                let status = missing_status(stored, asked.element(), status);
                reported.push((status, bare.clone()?))?;
                Ok(reported)
            }
            _ => Ok(reported),
        },
    }
}

/// Returns the status of a property that was not found: that of the failed `get_props` call if the store
/// could keep the property, otherwise `status`.
fn missing_status(
    stored: &Result<Items<SharedElement>, StatusCode>,
    element: &Element,
    status: StatusCode,
) -> StatusCode
    ensures { result ≡ status_of_missing stored.now element.now status }
{
    match stored {
        Err(refused) if is_kept(element) => *refused,
        _ => status,
    }
}

/// Returns the stored properties that the store returned, none if the call failed.
fn kept_in(stored: &Result<Items<SharedElement>, StatusCode>) -> &[SharedElement]
    ensures { result.now ≡ kept_of stored.now }
{
    match stored {
        Ok(kept) => kept.as_slice(),
        Err(_) => &[],
    }
}

/// Returns what is reported of the stored properties.
fn report_stored(
    alloc: Global,
    kind: FindKind,
    found: &[Found<'_>],
    kept: &[SharedElement],
) -> Result<Vec<PropertyStatus>, AllocError>
    ensures { IfOk result (λ reported. reported.items ≡ report_of_stored kind (map finding_of found.now) kept.now) }
{
    match kind {
        FindKind::AllProp => report_values(alloc, found, kept),
        FindKind::PropName => report_names(alloc, kept),
        FindKind::Prop => Ok(Vec::new(alloc)),
    }
}

/// Returns each stored property with its value, except those of the name of a requested property that was
/// found.
fn report_values<'e>(
    alloc: Global,
    found: &'e [Found<'_>],
    kept: &'e [SharedElement],
) -> Result<Vec<PropertyStatus>, AllocError>
    ensures { IfOk result (λ reported. reported.items ≡ report_of_stored AllProp (map finding_of found.now) kept.now) }
{
    let mut reported = Vec::new(alloc);
    if kept.is_empty() {
        return Ok(reported);
    }
    let given = names_given(alloc, found)?;
    for element in kept {
        if !given.has(element.as_element()) {
            reported.push((StatusCode::OK, element.as_element().clone()?))?;
        }
    }
    Ok(reported)
}

/// Returns the name of each stored property, also if a live property of that name is already reported.
fn report_names(alloc: Global, kept: &[SharedElement]) -> Result<Vec<PropertyStatus>, AllocError>
    ensures { IfOk result (λ reported. reported.items ≡ map (λ element. (200, bare element)) kept.now) }
{
    let mut reported = Vec::with_capacity(alloc, kept.len())?;
    for element in kept {
        reported.push((StatusCode::OK, bare_element(alloc, element.as_element())?))?;
    }
    Ok(reported)
}

/// Returns the names of these properties.
fn names_of<'e>(
    alloc: Global,
    elements: &'e [SharedElement],
) -> Result<PropertyNames<'e>, AllocError>
    ensures { IfOk result (λ names. AreNamesOf names.names elements.now) }
{
    let mut names = PropertyNames::new(alloc);
    for element in elements {
        names.insert(element.as_element())?;
    }
    Ok(names)
}

/// Returns the names of the requested properties that were found.
fn names_given<'e>(alloc: Global, found: &'e [Found<'_>]) -> Result<PropertyNames<'e>, AllocError>
    ensures { IfOk result (λ names. AreNamesOf names.names (given_in (map finding_of found.now))) }
{
    let mut names = PropertyNames::new(alloc);
    for one in found {
        if one.value.is_ok() {
            names.insert(one.asked.element())?;
        }
    }
    Ok(names)
}
