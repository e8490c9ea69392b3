//! The live properties whose value is a tree.
ghost use Rattle.std.specs.Prelude.{◌≡◌, ◌∷◌, [], codes, IfOk, IfErr};
ghost use Rattle.std.specs.Option.{option_copied};
ghost use Rattle.dav_resource.specs.declared.error.DavError.TheVariants.{Memory};
ghost use Rattle.dav_resource.specs.Tree.{prefixed_element};
ghost use Rattle.dav_resource.specs.ElementNames.{live_text, name_text};
ghost use Rattle.dav_messages.specs.Conditions.{locks_in};
ghost use Rattle.dav_messages.specs.DavElement.{with_elements};
ghost use Rattle.dav_live.specs.Live.{resource_type as tree_of_type, current_user_principal as tree_of_principal, reported_in as element_reported, text_property as property_of_text, locks_of as tree_of_locks, lock_kinds as tree_of_kinds};

use dav_messages::{list_supportedlock, lockdiscovery, text_element};
use dav_resource::{DavPath, DavResult, Element, ElementName, LiveName, Profile, Text};
use dav_store::DavLockSystem;
use std::alloc::{AllocError, Global};

/// Returns a property of this prefix and name with the string as its value, or `None` without a string. With
/// `names_only` the value is left out.
pub(crate) fn text_property(
    alloc: Global,
    name: ElementName,
    names_only: bool,
    text: Option<Text>,
) -> Result<Option<Element>, AllocError>
    ensures { IfOk result (λ reported. reported ≡ property_of_text (name_text name) names_only text) }
{
    let Some(text) = text else {
        return Ok(None);
    };
    if names_only {
        Ok(Some(Element::constant(alloc, name)))
    } else {
        Ok(Some(text_element(alloc, name, text)?))
    }
}

/// Returns the element in which a property of this name is reported: the requested one, or the server's own.
pub(crate) fn reported_in(
    alloc: Global,
    profile: Profile,
    asked: &Element,
    name: LiveName,
) -> Result<Element, AllocError>
    ensures { IfOk result (λ reported. reported ≡ element_reported profile asked.now (live_text name)) }
{
    if profile.repeats_request() {
        asked.clone()
    } else {
        Ok(Element::constant(alloc, ElementName::Live(name)))
    }
}

/// Returns the element, for a directory with `D:collection` appended unless `names_only` is set.
pub(crate) fn resource_type(
    alloc: Global,
    element: Element,
    names_only: bool,
    dir: bool,
) -> Result<Element, AllocError>
    ensures { IfOk result (λ reported. reported ≡ tree_of_type element names_only dir) }
{
    if dir && !names_only {
        with_collection(alloc, element)
    } else {
        Ok(element)
    }
}

/// Appends `D:collection` to the children of the element.
fn with_collection(alloc: Global, mut element: Element) -> Result<Element, AllocError>
    ensures { IfOk result (λ reported. reported ≡ with_elements element (prefixed_element (codes "D:collection") ∷ [])) }
{
    element.push_element(Element::constant(alloc, ElementName::Collection))?;
    Ok(element)
}

/// Returns the element with the principal appended as `D:href`, or `None` without a principal. With
/// `names_only` the principal is left out.
pub(crate) fn current_user_principal(
    alloc: Global,
    element: Element,
    names_only: bool,
    principal: Option<&str>,
) -> Result<Option<Element>, AllocError>
    ensures { IfOk result (λ reported. reported ≡ tree_of_principal element names_only (option_copied principal.entry)) }
{
    let Some(principal) = principal else {
        return Ok(None);
    };
    let mut reported = element;
    if !names_only {
        let principal = Text::from_str(alloc, principal)?;
        reported.push_element(text_element(alloc, ElementName::Href, principal)?)?;
    }
    Ok(Some(reported))
}

/// Returns `D:lockdiscovery` with the locks that cover the path. With `names_only` the element is empty. The
/// only error is `Memory`.
pub(crate) fn lock_discovery<L: DavLockSystem>(
    alloc: Global,
    profile: Profile,
    names_only: bool,
    ls: Option<&L>,
    path: &DavPath,
) -> DavResult<Element>
    ensures ok { IfOk result (λ reported. reported ≡ tree_of_locks profile names_only (locks_in L.seen (option_copied ls.entry)) path.now.key) }
    ensures err { IfErr result (λ e. e ≡ Memory) }
{
    if names_only {
        Ok(Element::constant(alloc, ElementName::Live(LiveName::LockDiscovery)))
    } else {
        lockdiscovery(alloc, profile, ls, path)
    }
}

/// Returns `D:supportedlock` with the kinds of locks that are supported. With `names_only`, or if no lock
/// system is present, the element is empty. The only error is `Memory`.
pub(crate) fn supported_lock(alloc: Global, names_only: bool, present: bool) -> DavResult<Element>
    ensures ok { IfOk result (λ reported. reported ≡ tree_of_kinds names_only present) }
    ensures err { IfErr result (λ e. e ≡ Memory) }
{
    if names_only {
        Ok(Element::constant(alloc, ElementName::Live(LiveName::SupportedLock)))
    } else {
        list_supportedlock(alloc, present)
    }
}
