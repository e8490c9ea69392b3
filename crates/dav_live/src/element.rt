//! A live property of a resource, as a response reports it.
ghost use Rattle.std.specs.Prelude.{◌≡◌, IfOk, IfErr};
ghost use Rattle.std.specs.Option.{option_copied};
ghost use Rattle.dav_resource.specs.declared.error.DavError.TheVariants.{Memory};
ghost use Rattle.dav_live.specs.Live.{value_shown};

use crate::property::LiveProperty;
use crate::text::live_text;
use crate::tree::{
    current_user_principal, lock_discovery, reported_in, resource_type, supported_lock,
    text_property,
};
use crate::viewer::Viewer;
use dav_resource::{DavPath, DavResult, Element, ElementName, LiveName, Meta};
use dav_store::DavLockSystem;
use std::alloc::Global;

/// Returns a live property of the resource at the path, as a response reports it, or `None` if its value is
/// not known (RFC 4918, sections 9.1 and 15).
///
/// `asked` is the element that named the property, and `meta` is the store's metadata of the resource. With
/// `names_only` no value is added. In the profile `Standard` nothing of `asked` is reported. The only error is `Memory`.
pub fn live_element<L: DavLockSystem>(
    alloc: Global,
    property: LiveProperty,
    asked: &Element,
    names_only: bool,
    viewer: &Viewer<'_>,
    ls: Option<&L>,
    path: &DavPath,
    meta: &Meta,
) -> DavResult<Option<Element>>
    ensures ok { IfOk result (λ reported. reported ≡ value_shown L.seen property asked.now names_only viewer.now (option_copied ls.entry) path.now.key meta.now) }
    ensures err { IfErr result (λ e. e ≡ Memory) }
{
    match property {
        LiveProperty::LockDiscovery => {
            Ok(Some(lock_discovery(alloc, viewer.profile, names_only, ls, path)?))
        }
        LiveProperty::SupportedLock => {
            Ok(Some(supported_lock(alloc, names_only, ls.is_some())?))
        }
        LiveProperty::ResourceType => {
            let element = reported_in(alloc, viewer.profile, asked, LiveName::ResourceType)?;
            Ok(Some(resource_type(alloc, element, names_only, meta.dir)?))
        }
        LiveProperty::CurrentUserPrincipal => {
            let element = reported_in(
                alloc,
                viewer.profile,
                asked,
                LiveName::CurrentUserPrincipal,
            )?;
            Ok(current_user_principal(alloc, element, names_only, viewer.principal)?)
        }
        _ => {
            let text = live_text(alloc, property, viewer, path, meta)?;
            Ok(text_property(
                alloc,
                ElementName::Live(property.shown_name()),
                names_only,
                text,
            )?)
        }
    }
}
