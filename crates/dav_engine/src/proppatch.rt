//! PROPPATCH (RFC 4918, section 9.2).
ghost use Rattle.std.specs.Prelude.{◌≡◌, map, Some, IfOk, IfErr};
ghost use Rattle.dav_resource.specs.declared.error.DavError.TheVariants.{Memory};
ghost use Rattle.dav_resource.specs.declared.method.DavMethod.TheVariants.{PropPatch};
ghost use Rattle.dav_messages.specs.Reply.{reply_of, answer_of};
ghost use Rattle.dav_props.specs.Groups.{groups_of, AreStatuses};
ghost use Rattle.dav_props.specs.Update.{change_of, patches_of};
ghost use Rattle.dav_engine.specs.DavInner.{lent, lent_locks};
ghost use Rattle.dav_engine.specs.Patching.{Storing};
ghost use Rattle.dav_engine.specs.Proppatch.{proppatch_reply as reply_of_proppatch, found_rules};
ghost use Rattle.dav_engine.specs.Served.{IsServed};
ghost use Rattle.dav_engine.specs.ByEngine.{IsSameEngine, PatchedBy, JudgesBy};

use crate::DavInner;
use crate::inner::fixed_path;
use crate::location::add_location;
use dav_props::{
    PropWriter, PropertyChange, patches, read_update, report_failed, report_made, some_refused,
};
use dav_resource::{Body, DavPath, DavRequest, DavResult, Element, Meta, Profile};
use dav_store::{DavLockSystem, GuardedFileSystem};
use http::{Response, StatusCode};
use std::alloc::Global;
use std::collections::BTreeMap;

impl<'a, C: Drop, F: GuardedFileSystem<C>, L: DavLockSystem> DavInner<'a, C, F, L> {
    /// Sets and removes properties as the body asks, in order, all of them or none. Returns a 207 with the
    /// status of each (RFC 4918, section 9.2.1). Executes any request as PROPPATCH, whatever its method.
    ///
    /// If a change is rejected before the store is called, nothing is stored, and each change that is not
    /// rejected itself is reported with 424. Otherwise the store is called for all changes of dead
    /// properties and of times. Each of these is reported with the status that the store returned for it, and each other
    /// change with 200.
    ///
    /// Errors, checked in this order. After each of them nothing has changed.
    /// - The store's error if the lookup of the path fails.
    /// - The status of a condition that does not hold (RFC 7232; RFC 4918, section 10.4).
    /// - 423 if the locks do not permit the request.
    /// - `XmlParseError` (400) for a body that is not a `propertyupdate`.
    /// - The store's error if it refuses the call that changes the properties.
    ///
    /// `Memory` can come at any time. The properties are then as before or, if the store had already been
    /// called, as it left them.
    pub fn handle_proppatch(&mut self, request: &DavRequest) -> DavResult<Response<Body>>
        ensures same_engine { IsSameEngine self.old self.new }
        ensures step { IsServed F.seen L.seen (Some PropPatch) self.old request.entry.now (answer_of result) self.new }
    {
        let found = self.judge_found(request)?;
        let alloc = *self.prefix.allocator();
        let changes = read_update(alloc, &request.body, self.profile, self.fs.have_props())?;
        if some_refused(changes.as_slice()) {
            let groups = report_failed(alloc, changes.as_slice())?;
            return proppatch_reply(alloc, self.profile, &request.path, &found, groups);
        }
        self.patch_found(request, &found, changes.as_slice())
    }

    /// Checks the rules except the body: looks up the path, which must not fail, and checks the conditions
    /// and the locks of the path. Returns what was found.
    fn judge_found(&mut self, request: &DavRequest) -> DavResult<Option<Meta>>
        ensures same_engine { IsSameEngine self.old self.new }
        ensures same_locks { lent_locks self.new ≡ lent_locks self.old }
        ensures rules { JudgesBy F.seen L.seen (found_rules request.entry.now) self.old result self.new }
    {
        let meta = self.fs.metadata(&request.path, &self.credentials)?;
        self.judge_path(request, Some(meta))
    }

    /// The work: has the store make the changes, and makes the response from the statuses that it returned.
    fn patch_found(
        &mut self,
        request: &DavRequest,
        found: &Option<Meta>,
        changes: &[PropertyChange<'_>],
    ) -> DavResult<Response<Body>>
        ensures same_engine { IsSameEngine self.old self.new }
        ensures same_locks { lent_locks self.new ≡ lent_locks self.old }
        ensures work { PatchedBy F.seen request.entry.now (found.now, map change_of changes.now) self.old (answer_of result) self.new }
    {
        let alloc = *self.prefix.allocator();
        let statuses = self.make_changes(&request.path, changes)?;
        let groups = report_made(alloc, changes, statuses.as_slice())?;
        proppatch_reply(alloc, self.profile, &request.path, found, groups)
    }

    /// Has the store make the changes of dead properties, if there are any. Returns the statuses that the
    /// store returned.
    fn make_changes(
        &mut self,
        path: &DavPath,
        changes: &[PropertyChange<'_>],
    ) -> DavResult<Vec<StatusCode>>
        ensures same_engine { IsSameEngine self.old self.new }
        ensures same_locks { lent_locks self.new ≡ lent_locks self.old }
        ensures stored { Storing path.now.key (patches_of (map change_of changes.now)) (F.seen (lent self.old)) result (F.seen (lent self.new)) }
    {
        let alloc = *self.prefix.allocator();
        let patches = patches(alloc, changes)?;
        if patches.is_empty() {
            return Ok(Vec::new(alloc));
        }
        let statuses = self
            .fs
            .patch_props(path, patches.as_slice(), &self.credentials)?;
        Ok(statuses)
    }
}

/// Makes a 207 with one response that lists the properties by their statuses. The only error is `Memory`.
fn proppatch_reply(
    alloc: Global,
    profile: Profile,
    path: &DavPath,
    found: &Option<Meta>,
    groups: BTreeMap<u16, Vec<Element>>,
) -> DavResult<Response<Body>>
    requires { AreStatuses groups }
    ensures ok { IfOk result (λ reply. reply_of reply ≡ reply_of_proppatch profile path.now found.now (groups_of groups)) }
    ensures err { IfErr result (λ e. e ≡ Memory) }
{
    let mut reply = Response::new(alloc, Body::Empty);
    let mut writer = PropWriter::new(alloc, profile, &mut reply)?;
    let fixed = fixed_path(path, found.as_ref())?;
    writer.write_propresponse(profile, &fixed, groups)?;
    writer.flush()?;
    add_location(reply.headers_mut(), path, found)?;
    *reply.body_mut() = Body::Tree(writer.close()?);
    Ok(reply)
}
