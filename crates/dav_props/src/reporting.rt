//! Decides which changes of a PROPPATCH the store has to make, and how each change is reported (RFC 4918,
//! section 9.2.1).
ghost use Rattle.std.specs.Prelude.{◌≡◌, map, filter, IfOk};
ghost use Rattle.dav_props.specs.Groups.{groups_of, AreStatuses};
ghost use Rattle.dav_props.specs.Property.{bare};
ghost use Rattle.dav_props.specs.Propstat.{grouped};
ghost use Rattle.dav_props.specs.Update.{change_of, is_dead as is_dead_change, is_refused as is_refused_change, some_refused as some_refused_of, patch_of, set_patch as patch_that_sets, patches_of, failed as failed_change, failed_report, live_made, made_report};

use crate::live::time_patch;
use crate::property::{bare_element, element_to_davprop, element_to_davprop_full};
use crate::propstat::group_by_status;
use crate::update::PropertyChange;
use dav_resource::{Element, PropertyPatch};
use http::StatusCode;
use std::alloc::{AllocError, Global};
use std::collections::BTreeMap;

/// Returns whether a change is rejected before the store is called. If so, none is made (RFC 4918, section
/// 9.2).
pub fn some_refused(changes: &[PropertyChange<'_>]) -> bool
    ensures { result ≡ some_refused_of (map change_of changes.now) }
{
    changes.iter().any(is_refused)
}

/// Returns the changes that the store has to make, in order. Fails only if memory runs out.
pub fn patches(
    alloc: Global,
    changes: &[PropertyChange<'_>],
) -> Result<Vec<PropertyPatch>, AllocError>
    ensures { IfOk result (λ patches. patches.items ≡ patches_of (map change_of changes.now)) }
{
    let mut patches = Vec::new(alloc);
    for change in changes {
        if is_dead(change) {
            patches.push(patch(change)?)?;
        }
    }
    Ok(patches)
}

/// Groups the properties by status if a change was rejected. Every change that was not itself rejected is
/// reported with 424. A property that the store would have set is reported with its value, every other one by
/// name. Fails only if memory runs out.
pub fn report_failed(
    alloc: Global,
    changes: &[PropertyChange<'_>],
) -> Result<BTreeMap<u16, Vec<Element>>, AllocError>
    ensures groups { IfOk result (λ groups. groups_of groups ≡ grouped (failed_report (map change_of changes.now))) }
    ensures statuses { IfOk result AreStatuses }
{
    let mut reported = Vec::new(alloc);
    for change in changes {
        if !is_dead(change) {
            reported.push(failed(alloc, change)?)?;
        }
    }
    for change in changes {
        if is_dead(change) {
            reported.push(failed(alloc, change)?)?;
        }
    }
    group_by_status(alloc, reported)
}

/// Groups the properties by status if the store was called. `statuses` are those that it returned for the
/// changes that it had to make, in order. Every other change has its own status. Fails only if memory runs
/// out.
pub fn report_made(
    alloc: Global,
    changes: &[PropertyChange<'_>],
    statuses: &[StatusCode],
) -> Result<BTreeMap<u16, Vec<Element>>, AllocError>
    ensures groups { IfOk result (λ groups. groups_of groups ≡ grouped (made_report (map change_of changes.now) statuses.now)) }
    ensures statuses { IfOk result AreStatuses }
{
    let mut reported = report_live(alloc, changes)?;
    for (status, element) in statuses.iter().zip(dead_elements(alloc, changes)?) {
        reported.push((*status, element))?;
    }
    group_by_status(alloc, reported)
}

/// Returns the elements, without values, of the properties that the store has to change.
fn dead_elements(alloc: Global, changes: &[PropertyChange<'_>]) -> Result<Vec<Element>, AllocError>
    ensures { IfOk result (λ elements. elements.items ≡ map (λ change. bare change.element) (filter is_dead_change (map change_of changes.now))) }
{
    let mut elements = Vec::new(alloc);
    for change in changes {
        if is_dead(change) {
            elements.push(bare_element(alloc, change.element)?)?;
        }
    }
    Ok(elements)
}

/// Returns the elements, without values, of all other properties, each with its own status.
fn report_live(
    alloc: Global,
    changes: &[PropertyChange<'_>],
) -> Result<Vec<(StatusCode, Element)>, AllocError>
    ensures { IfOk result (λ reported. reported.items ≡ live_made (map change_of changes.now)) }
{
    let mut reported = Vec::new(alloc);
    for change in changes {
        if !is_dead(change) {
            reported.push((change.status, bare_element(alloc, change.element)?))?;
        }
    }
    Ok(reported)
}

/// Returns how a change is reported if some change was rejected: with its own status if it was this one, else
/// with 424.
fn failed(alloc: Global, change: &PropertyChange<'_>) -> Result<(StatusCode, Element), AllocError>
    ensures { IfOk result (λ reported. reported ≡ failed_change (change_of change.now)) }
{
    if is_refused(change) {
        return Ok((change.status, bare_element(alloc, change.element)?));
    }
    let element = if change.set && is_dead(change) {
        change.element.clone()?
    } else {
        bare_element(alloc, change.element)?
    };
    Ok((StatusCode::FAILED_DEPENDENCY, element))
}

/// Returns what the store has to do for a change: to set a time, to set a property with the element as its value, or to
/// remove one.
fn patch(change: &PropertyChange<'_>) -> Result<PropertyPatch, AllocError>
    ensures { IfOk result (λ patch. patch ≡ patch_of (change_of change.now)) }
{
    if change.set {
        return set_patch(change.element);
    }
    let prop = element_to_davprop(change.element)?;
    Ok(PropertyPatch::Remove(prop))
}

/// Returns what the store has to do to set a property.
fn set_patch(element: &Element) -> Result<PropertyPatch, AllocError>
    ensures { IfOk result (λ patch. patch ≡ patch_that_sets element.now) }
{
    match time_patch(element) {
        Some(patch) => Ok(patch),
        None => Ok(PropertyPatch::Set(element_to_davprop_full(element)?)),
    }
}

/// Returns whether the store has to make the change.
fn is_dead(change: &PropertyChange<'_>) -> bool
    ensures { result ≡ is_dead_change (change_of change.now) }
{
    change.status == StatusCode::CONTINUE
}

/// Returns whether the change is rejected before the store is called.
fn is_refused(change: &PropertyChange<'_>) -> bool
    ensures { result ≡ is_refused_change (change_of change.now) }
{
    change.status != StatusCode::CONTINUE && change.status != StatusCode::OK
}
