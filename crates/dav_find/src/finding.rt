//! Finding the requested properties of a resource.
ghost use Rattle.std.specs.Prelude.{◌≡◌, ◌++◌, filter_map, option_copied, IfOk, IfErr};
ghost use Rattle.std.specs.Option.{option_to_list};
ghost use Rattle.dav_resource.specs.declared.error.DavError.TheVariants.{Memory};
ghost use Rattle.dav_store.specs.Store.{Facts};
ghost use Rattle.dav_messages.specs.Dialogue.{Judges};
ghost use Rattle.dav_find.specs.Finder.{view_of};
ghost use Rattle.dav_find.specs.Finding.{ask_quota as rules_of_asking, looked_up, is_all_sought as is_all_sought_in, quota_in as quota_in_answer, quota_status as status_of_quota};
ghost use Rattle.dav_find.specs.Response.{FindsStored};
ghost use Rattle.dav_find.specs.ByFinder.{FindsOne, FindsQuota, FindsKept, IsLiveResult, FindsAsked};

use crate::asked::AskedProperty;
use crate::refusal::returned_by;
use crate::search::Search;
use dav_live::{LiveProperty, Viewer, live_element};
use dav_resource::{DavPath, DavProp, DavResult, Element, Items, Profile, SharedElement};
use dav_store::{DavLockSystem, GuardedFileSystem};
use dav_walks::Resource;
use http::StatusCode;
use std::alloc::{AllocError, Global};

/// A requested property, and what was found for it.
#[derive(Drop, Debug)]
pub struct Found<'r> {
    /// The requested property.
    pub asked: &'r AskedProperty,
    /// The element to report, or the status that says why there is none.
    pub value: Result<Element, StatusCode>,
}

/// The quota as the store reported it (the bytes used, and the total if there is a limit), or the status that
/// says why it did not (RFC 4331).
pub(crate) type QuotaAnswer = Result<(u64, Option<u64>), StatusCode>;

/// A search for properties of resources: which properties, for which client, with which lock system, and in which profile.
#[derive(Clone, Copy, Debug)]
pub struct Finder<'r, C, L> {
    /// The allocator.
    pub alloc: Global,
    /// What the request asks for.
    pub search: &'r Search,
    /// The principal of the request, if known.
    pub principal: Option<&'r str>,
    /// The request's `User-Agent` field, if it has one (RFC 9110, section 10.1.5).
    pub user_agent: Option<&'r str>,
    /// The lock system, if there is one.
    pub ls: Option<&'r L>,
    /// The credentials that are passed to each call of the store.
    pub credentials: &'r C,
    /// What is reported where the Rust crate and the standards differ.
    pub profile: Profile,
}

impl<'r, C, L: DavLockSystem> Finder<'r, C, L> {
    /// Finds one property. Returns the element to report or a status, and the quota as the store reported it
    /// so far.
    ///
    /// A live property has a value if the server knows it, otherwise the status is 404. A property of the
    /// quota needs `get_quota`, which is called unless `quota` already holds its result. If the store refused
    /// that call, the status is that of the refusal. Any other property is looked up in the store, as
    /// `find_kept` says. The only error is `Memory`.
    pub(crate) fn find_one<F: GuardedFileSystem<C>>(
        &self,
        fs: &mut F,
        here: &Resource,
        asked: &AskedProperty,
        quota: Option<QuotaAnswer>,
    ) -> DavResult<(Result<Element, StatusCode>, Option<QuotaAnswer>)>
        ensures rules { FindsOne L.seen self.now here.now asked.now.element quota (F.seen fs.old) result (F.seen fs.new) }
        ensures err { IfErr result (λ e. e ≡ Memory) }
    {
        let element = asked.element();
        match asked.live {
            Some(property) if property.is_quota() => {
                self.find_quota(fs, here, element, property, quota)
            }
            Some(property) => Ok((self.live_result(here, element, property, &None)?, quota)),
            None => Ok((self.find_kept(fs, here, asked)?, quota)),
        }
    }

    /// Finds a property of the store's quota. Also returns what the store reported as its quota.
    fn find_quota<F: GuardedFileSystem<C>>(
        &self,
        fs: &mut F,
        here: &Resource,
        element: &Element,
        property: LiveProperty,
        quota: Option<QuotaAnswer>,
    ) -> DavResult<(Result<Element, StatusCode>, Option<QuotaAnswer>)>
        ensures rules { FindsQuota L.seen self.now here.now element.now property quota (F.seen fs.old) result (F.seen fs.new) }
        ensures err { IfErr result (λ e. e ≡ Memory) }
    {
        let quota = Some(self.ask_quota(fs, quota)?);
        let value = self.live_result(here, element, property, &quota)?;
        Ok((value, quota))
    }

    /// Returns the store's quota. Calls `get_quota` only if `quota` does not hold its result yet.
    fn ask_quota<F: GuardedFileSystem<C>>(
        &self,
        fs: &mut F,
        quota: Option<QuotaAnswer>,
    ) -> DavResult<QuotaAnswer>
        ensures rules { Judges (rules_of_asking (F.seen fs.old).contents quota) (F.seen fs.old) result (F.seen fs.new) }
        ensures err { IfErr result (λ e. e ≡ Memory) }
    {
        match quota {
            Some(answer) => Ok(answer),
            None => {
                let answer = fs.get_quota(self.credentials);
                returned_by(fs, answer)
            }
        }
    }

    /// Returns a live property as it is reported. If its value is not known, returns the status in `quota` if
    /// there is one, otherwise 404.
    fn live_result(
        &self,
        here: &Resource,
        element: &Element,
        property: LiveProperty,
        quota: &Option<QuotaAnswer>,
    ) -> DavResult<Result<Element, StatusCode>>
        ensures ok { IfOk result (IsLiveResult L.seen self.now here.now element.now property quota.now) }
        ensures err { IfErr result (λ e. e ≡ Memory) }
    {
        let viewer = Viewer {
            principal: self.principal,
            user_agent: self.user_agent,
            quota: quota_in(quota),
            profile: self.profile,
        };
        let names_only = self.search.kind.names_only();
        let value = live_element(
            self.alloc, property, element, names_only, &viewer, self.ls, &here.path, &here.meta,
        )?;
        Ok(value.ok_or(quota_status(quota)))
    }

    /// Looks up a stored property with `get_prop`, by the name that `looked_up` returns.
    ///
    /// If the store refused the call, the status is that of the refusal. It is 404 if the call was barred
    /// (the resource has no such property), and if no call was made.
    fn find_kept<F: GuardedFileSystem<C>>(
        &self,
        fs: &mut F,
        here: &Resource,
        asked: &AskedProperty,
    ) -> DavResult<Result<Element, StatusCode>>
        ensures rules { FindsKept L.seen self.now here.now asked.now.element (F.seen fs.old) result (F.seen fs.new) }
        ensures err { IfErr result (λ e. e ≡ Memory) }
    {
        let Some(name) = self.looked_up(fs.have_props(), asked) else {
            return Ok(Err(StatusCode::NOT_FOUND));
        };
        let answer = fs.get_prop(&here.path, name, self.credentials);
        returned_by(fs, answer)
    }

    /// Finds each requested property in order. Also returns the quota as the store reported it so far. The
    /// only error is `Memory`.
    pub(crate) fn find_each<F: GuardedFileSystem<C>>(
        &self,
        fs: &mut F,
        here: &Resource,
        mut quota: Option<QuotaAnswer>,
    ) -> DavResult<(Items<Found<'r>>, Option<QuotaAnswer>)>
        ensures rules { FindsAsked L.seen self.now here.now quota (F.seen fs.old) result (F.seen fs.new) }
        ensures err { IfErr result (λ e. e ≡ Memory) }
    {
        let mut found = Vec::new(self.alloc);
        for asked in &self.search.asked {
            let (value, next) = self.find_one(fs, here, asked, quota)?;
            found.push(Found { asked, value })?;
            quota = next;
        }
        Ok((Items::from_vec(found), quota))
    }

    /// Returns the elements of all properties that the store keeps for the path, by one `get_props` call.
    ///
    /// For `prop`, and if the store does not support dead properties, there is no call and the result is
    /// empty. If the call failed, the result is a status: that of the refusal if the store refused the call,
    /// 404 if it was barred. The only error is `Memory`.
    pub(crate) fn find_stored<F: GuardedFileSystem<C>>(
        &self,
        fs: &mut F,
        path: &DavPath,
    ) -> DavResult<Result<Items<SharedElement>, StatusCode>>
        ensures stored { FindsStored (view_of L.seen self.now (F.seen fs.old).facts) path.now.key (F.seen fs.old) result (F.seen fs.new) }
        ensures err { IfErr result (λ e. e ≡ Memory) }
    {
        if !self.is_all_sought(fs.have_props()) {
            return Ok(Ok(Items::from_vec(Vec::new(self.alloc))));
        }
        let answer = fs.get_props(path, self.credentials);
        match returned_by(fs, answer)? {
            Ok(props) => Ok(Ok(kept_elements(self.alloc, props)?)),
            Err(status) => Ok(Err(status)),
        }
    }

    /// Returns whether the store is asked for all properties it keeps. `keeps` says whether it supports dead
    /// properties.
    fn is_all_sought(&self, keeps: bool) -> bool
        ensures { (facts : Facts) → facts.keeps_properties ≡ keeps → result ≡ is_all_sought_in (view_of L.seen self.now facts) }
    {
        keeps && !self.search.kind.named_only()
    }

    /// Returns the name by which the store is asked for this property: for `prop`, if the store can keep it.
    /// `keeps` says whether the store supports dead properties.
    fn looked_up<'p>(&self, keeps: bool, asked: &'p AskedProperty) -> Option<&'p DavProp>
        ensures { (facts : Facts) → facts.keeps_properties ≡ keeps → option_copied result ≡ looked_up (view_of L.seen self.now facts) asked.now.element }
    {
        if keeps && self.search.kind.named_only() {
            asked.kept.as_ref()
        } else {
            None
        }
    }
}

/// Returns the quota, if the store reported it.
fn quota_in(quota: &Option<QuotaAnswer>) -> Option<(u64, Option<u64>)>
    ensures { result ≡ quota_in_answer quota.now }
{
    match quota {
        Some(Ok(quota)) => Some(*quota),
        Some(Err(_)) | None => None,
    }
}

/// Returns the status for which the quota was not reported, otherwise 404.
fn quota_status(quota: &Option<QuotaAnswer>) -> StatusCode
    ensures { result ≡ status_of_quota quota.now }
{
    match quota {
        Some(Err(status)) => *status,
        Some(Ok(_)) | None => StatusCode::NOT_FOUND,
    }
}

/// Returns the elements of those properties that have one, in order.
fn kept_elements(alloc: Global, props: Vec<DavProp>) -> Result<Items<SharedElement>, AllocError>
    ensures { IfOk result (λ elements. elements ≡ filter_map (λ (p : DavProp). p.element) props.items) }
{
    let mut elements = Vec::new(alloc);
    for prop in props {
        elements = keep_element(elements, prop.element)?;
    }
    Ok(Items::from_vec(elements))
}

/// Appends the element, if there is one.
fn keep_element(
    mut elements: Vec<SharedElement>,
    element: Option<SharedElement>,
) -> Result<Vec<SharedElement>, AllocError>
    ensures { IfOk result (λ more. more.items ≡ elements.items ++ option_to_list element) }
{
    if let Some(element) = element {
        elements.push(element)?;
    }
    Ok(elements)
}
