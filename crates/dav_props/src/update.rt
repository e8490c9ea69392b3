//! Reads the changes in the body of a PROPPATCH (RFC 4918, sections 9.2 and 14.19).
ghost use Rattle.std.specs.Prelude.{◌≡◌, ◌++◌, map, IfOk, IfErr, IsErrOf};
ghost use Rattle.std.specs.List.{flat_map};
ghost use Rattle.dav_resource.specs.Gives.{GivesBy};
ghost use Rattle.dav_resource.specs.Tree.{elements_of};
ghost use Rattle.dav_props.specs.Update.{change_of, judged, changes_in, properties_of, properties_in, update_verdict};

use crate::live::{liveprop_remove, liveprop_set};
use dav_messages::is_named;
use dav_resource::{DavError, DavResult, Element, Profile, ReqBody};
use http::StatusCode;
use std::alloc::{AllocError, Global};

/// A property that a request sets or removes.
#[derive(Clone, Copy, Debug)]
pub struct PropertyChange<'r> {
    /// `true` if it is set, `false` if it is removed.
    pub set: bool,
    /// The property, with its value if it is set.
    pub element: &'r Element,
    /// The result of `liveprop_set` or `liveprop_remove`: 100 if the store has to make the change.
    pub status: StatusCode,
}

/// Returns the changes that a body requests, in order: one for each element in a `prop` of a `set` or a
/// `remove`. Elements are recognized only by their local names, and every other element is skipped.
/// `can_deadprop` says whether the store supports dead properties, and the profile whether times can be set.
///
/// Errors: `XmlParseError` if there is no body, or it is not a `propertyupdate`. Otherwise only `Memory`.
pub fn read_update<'r>(
    alloc: Global,
    body: &'r ReqBody,
    profile: Profile,
    can_deadprop: bool,
) -> DavResult<Vec<PropertyChange<'r>>>
    ensures given { GivesBy (λ changes. map change_of changes.items) result (update_verdict profile can_deadprop body.now) }
    ensures unread { IfErr (update_verdict profile can_deadprop body.now) (IsErrOf result) }
{
    match body {
        ReqBody::Tree(root) if is_named(root, "propertyupdate") => {
            Ok(read_parts(alloc, root, profile, can_deadprop)?)
        }
        _ => Err(DavError::XmlParseError),
    }
}

fn read_parts<'r>(
    alloc: Global,
    root: &'r Element,
    profile: Profile,
    can_deadprop: bool,
) -> Result<Vec<PropertyChange<'r>>, AllocError>
    ensures { IfOk result (λ changes. map change_of changes.items ≡ flat_map (changes_in profile can_deadprop) (elements_of root.now.children)) }
{
    let mut changes = Vec::new(alloc);
    for part in root.child_elems_iter() {
        changes = read_part(part, profile, can_deadprop, changes)?;
    }
    Ok(changes)
}

/// Adds the changes that a part of the body requests.
fn read_part<'r>(
    part: &'r Element,
    profile: Profile,
    can_deadprop: bool,
    changes: Vec<PropertyChange<'r>>,
) -> Result<Vec<PropertyChange<'r>>, AllocError>
    ensures { IfOk result (λ more. map change_of more.items ≡ map change_of changes.entry.items ++ changes_in profile can_deadprop part.now) }
{
    match part.name() {
        "set" => read_properties(part, true, profile, can_deadprop, changes),
        "remove" => read_properties(part, false, profile, can_deadprop, changes),
        _ => Ok(changes),
    }
}

/// Adds a change for each property in a part of the body.
fn read_properties<'r>(
    part: &'r Element,
    set: bool,
    profile: Profile,
    can_deadprop: bool,
    mut changes: Vec<PropertyChange<'r>>,
) -> Result<Vec<PropertyChange<'r>>, AllocError>
    ensures { IfOk result (λ more. map change_of more.items ≡ map change_of changes.entry.items ++ map (judged profile can_deadprop set) (properties_in part.now)) }
{
    for prop in part.child_elems_iter() {
        changes = read_prop(prop, set, profile, can_deadprop, changes)?;
    }
    Ok(changes)
}

/// Adds a change for each property in an element, if that is a `prop`.
fn read_prop<'r>(
    prop: &'r Element,
    set: bool,
    profile: Profile,
    can_deadprop: bool,
    mut changes: Vec<PropertyChange<'r>>,
) -> Result<Vec<PropertyChange<'r>>, AllocError>
    ensures { IfOk result (λ more. map change_of more.items ≡ map change_of changes.entry.items ++ map (judged profile can_deadprop set) (properties_of prop.now)) }
{
    if !is_named(prop, "prop") {
        return Ok(changes);
    }
    for element in prop.child_elems_iter() {
        let change = judge(element, set, profile, can_deadprop);
        if changes.push(change).is_err() {
            return Err(AllocError);
        }
    }
    Ok(changes)
}

fn judge(element: &Element, set: bool, profile: Profile, can_deadprop: bool) -> PropertyChange<'_>
    ensures { change_of result ≡ judged profile can_deadprop set element.now }
{
    let status = if set {
        liveprop_set(profile, element, can_deadprop)
    } else {
        liveprop_remove(element, can_deadprop)
    };
    PropertyChange {
        set,
        element,
        status,
    }
}
