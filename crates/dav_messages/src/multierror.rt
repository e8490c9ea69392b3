//! Collects the statuses of several resources, and builds the response that reports them.
ghost use Rattle.std.specs.Prelude.{◌≡◌, [], ◌∷◌, ◌++◌, drop, length, OnOk, OnErr, IfErr};
ghost use Rattle.dav_resource.specs.Errors.{dav_status};
ghost use Rattle.dav_resource.specs.Gives.{GivesBy};
ghost use Rattle.dav_resource.specs.declared.error.DavError.TheVariants.{Memory};
ghost use Rattle.dav_messages.specs.Reply.{reply_of};
ghost use Rattle.dav_messages.specs.Multistatus.{first_status, multi_answer};

use crate::multistatus::{bare_reply, multistatus_reply};
use dav_resource::{Body, DavError, DavPath, DavResult, Profile};
use http::{Response, StatusCode};
use std::alloc::Global;
use std::marker::Model;

/// The statuses of several resources, in the order in which they were added (RFC 4918, section 13).
#[derive(Drop, Debug)]
pub struct MultiError {
    items: Vec<(DavPath, StatusCode)>,
}

impl Model for MultiError {
    ghost use Rattle.std.specs.Prelude.{List};
    ghost use Rattle.dav_messages.specs.Multistatus.{Item};

    ghost Value = { List Item };

    ghost view = { λ m. m.items.items };
}

impl MultiError {
    /// Creates a collection without a status.
    pub fn new(alloc: Global) -> MultiError
        ensures { result ≡ [] }
    {
        MultiError {
            items: Vec::new(alloc),
        }
    }

    /// Appends the status of a resource. The only error is `Memory`, and then nothing has changed.
    pub fn add_status<E: Into<DavError>>(&mut self, path: &DavPath, status: E) -> DavResult<()>
        ensures ok { OnOk result ((e : DavError) × E.converts status e × (self.new ≡ self.old ++ (path.now, dav_status e) ∷ [])) }
        ensures err { IfErr result (λ e. e ≡ Memory) }
        ensures kept { OnErr result (self.new ≡ self.old) }
    {
        let error: DavError = status.into();
        let path = path.clone()?;
        self.items.push((path, error.statuscode()))?;
        Ok(())
    }

    /// Returns the number of statuses.
    pub fn len(&self) -> usize
        ensures { result ≡ length self.now }
    {
        self.items.len()
    }

    /// Returns the first status after the first `count` ones, if there is one.
    pub fn first_status_after(&self, count: usize) -> Option<StatusCode>
        ensures { result ≡ first_status (drop count self.now) }
    {
        match self.items.get(count) {
            Some((_, status)) => Some(*status),
            None => None,
        }
    }

    /// Returns the resources with their statuses, in the order in which they were added.
    pub fn into_items(self) -> Vec<(DavPath, StatusCode)>
        ensures { result.items ≡ self }
    {
        self.items
    }
}

/// Builds the response that reports the statuses of resources (RFC 4918, sections 11.1 and 13). If there is
/// one item and its path has the key of `req_path`, the response has its status and no body. Otherwise it is
/// a 207 whose `multistatus` has a `response` for each item, in order, where 204 is shown as 200.
///
/// Errors: `ChanError` if there is no item, `Memory` if memory runs out.
pub fn multi_error(
    alloc: Global,
    profile: Profile,
    req_path: &DavPath,
    items: Vec<(DavPath, StatusCode)>,
) -> DavResult<Response<Body>>
    ensures { GivesBy reply_of result (multi_answer profile req_path.now items.items) }
{
    let listed = items.as_slice();
    match listed {
        [] => Err(DavError::ChanError),
        [(path, status)] if req_path.same_key(path) => Ok(bare_reply(alloc, *status)),
        _ => multistatus_reply(alloc, profile, listed),
    }
}
