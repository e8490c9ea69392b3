//! OPTIONS (RFC 9110, section 9.3.7; RFC 4918, section 10.1).
ghost use Rattle.std.specs.Prelude.{◌≡◌, ◌&&◌, ◌||◌, not, filter, map, string_bytes, Some, IfOk, IfErr};
ghost use Rattle.http_header.specs.FieldValue.{IsFieldValue};
ghost use Rattle.dav_resource.specs.Methods.{method_of, contains_method};
ghost use Rattle.dav_resource.specs.declared.error.DavError.TheVariants.{Memory};
ghost use Rattle.dav_resource.specs.declared.method.DavMethod.{DavMethod};
ghost use Rattle.dav_resource.specs.declared.method.DavMethod.TheVariants.{Options};
ghost use Rattle.dav_messages.specs.Reply.{reply_of, answer_of};
ghost use Rattle.dav_engine.specs.DavInner.{lent_locks, has_locks};
ghost use Rattle.dav_engine.specs.Options.{options_rules, found_methods as methods_of_found, is_offered, is_let, is_own, needs_locks, name_of, names_of, options_reply as reply_of_options};
ghost use Rattle.dav_engine.specs.Served.{IsServed};
ghost use Rattle.dav_engine.specs.ByEngine.{IsSameEngine, JudgesBy, DoesWork};
ghost use Rattle.dav_engine.specs.Methods.{options_method};

use crate::DavInner;
use dav_messages::{add_header, header_value};
use dav_resource::{Body, DavMethod, DavMethodSet, DavPath, DavRequest, DavResult, Meta};
use dav_store::{DavLockSystem, GuardedFileSystem};
use http::Response;
use http_header::{ALLOW, CONTENT_LENGTH, HeaderMap, HeaderName, HeaderValue};
use std::alloc::{AllocError, Global};

/// The methods listed where nothing exists.
const MISSING: [DavMethod; 4] = [
    DavMethod::Options,
    DavMethod::MkCol,
    DavMethod::Put,
    DavMethod::Lock,
];

/// The methods listed for the root, which is neither moved nor deleted.
const ROOT: [DavMethod; 5] = [
    DavMethod::Options,
    DavMethod::PropFind,
    DavMethod::Copy,
    DavMethod::Lock,
    DavMethod::Unlock,
];

/// The methods listed for any other directory.
const DIRECTORY: [DavMethod; 7] = [
    DavMethod::Options,
    DavMethod::PropFind,
    DavMethod::Copy,
    DavMethod::Move,
    DavMethod::Delete,
    DavMethod::Lock,
    DavMethod::Unlock,
];

/// The methods listed for a file, and for `*`: any resource may accept them.
const FILE: [DavMethod; 11] = [
    DavMethod::Head,
    DavMethod::Get,
    DavMethod::Patch,
    DavMethod::Put,
    DavMethod::Options,
    DavMethod::PropFind,
    DavMethod::Copy,
    DavMethod::Move,
    DavMethod::Delete,
    DavMethod::Lock,
    DavMethod::Unlock,
];

impl<'a, C: Drop, F: GuardedFileSystem<C>, L: DavLockSystem> DavInner<'a, C, F, L> {
    /// Returns 200. `Allow` lists methods for the resource at the path, `DAV` the compliance classes of the
    /// server. A failed lookup counts as nothing there. For `*` there is no lookup. Executes any request as
    /// OPTIONS, whatever its method.
    ///
    /// Which methods `Allow` lists depends on what was found. It lists only enabled ones (`allow` of `new`),
    /// and LOCK and UNLOCK only with a lock system. The request's own method is not listed, unless it is
    /// OPTIONS. PROPPATCH is never listed, though the engine executes it. HEAD and GET may be listed, though
    /// the engine itself answers them with 501. Conditions, locks and the body are not checked.
    ///
    /// The only error is `Memory`. The store's contents and the locks never change.
    pub fn handle_options(&mut self, request: &DavRequest) -> DavResult<Response<Body>>
        ensures same_engine { IsSameEngine self.old self.new }
        ensures step { IsServed F.seen L.seen (Some Options) self.old request.entry.now (answer_of result) self.new }
    {
        let found = self.look_up_unless_star(request)?;
        self.answer_methods(request, &found)
    }

    /// The rules: looks up the path, except for `*`. Returns what was found.
    fn look_up_unless_star(&mut self, request: &DavRequest) -> DavResult<Option<Meta>>
        ensures same_engine { IsSameEngine self.old self.new }
        ensures same_locks { lent_locks self.new ≡ lent_locks self.old }
        ensures rules { JudgesBy F.seen L.seen (options_rules request.entry.now) self.old result self.new }
    {
        if request.path.is_star() {
            return Ok(None);
        }
        self.look_up(&request.path)
    }

    /// The work: makes the response that lists the methods for what was found, of those that may be listed.
    fn answer_methods(
        &self,
        request: &DavRequest,
        found: &Option<Meta>,
    ) -> DavResult<Response<Body>>
        ensures { DoesWork F.seen L.seen options_method request.entry.now found.now self.now (answer_of result) self.now }
    {
        let alloc = *self.prefix.allocator();
        let offered = self.offered_set(request);
        let names = offered_names(alloc, found_methods(&request.path, found), &offered)?;
        let reply = options_reply(alloc, names)?;
        Ok(reply)
    }

    /// Returns the methods that may be listed: the enabled ones, without LOCK and UNLOCK if there is no lock
    /// system, and without the request's own unless it is OPTIONS.
    fn offered_set(&self, request: &DavRequest) -> DavMethodSet
        ensures { (m : DavMethod) → contains_method result m ≡ is_offered self.now.allow (has_locks self.now) (method_of request.entry.now.method) m }
    {
        without_own(self.let_set(), DavMethod::from_method(&request.method))
    }

    /// Returns the enabled methods, without LOCK and UNLOCK if there is no lock system.
    fn let_set(&self) -> DavMethodSet
        ensures { (m : DavMethod) → contains_method result m ≡ (is_let self.now.allow m && (has_locks self.now || not (needs_locks m))) }
    {
        let mut set = self.allow.unwrap_or(DavMethodSet::all());
        if self.ls.is_some() {
            return set;
        }
        set.remove(DavMethod::Lock);
        set.remove(DavMethod::Unlock);
        set
    }
}

/// Returns the set without the request's own method, unless that is OPTIONS.
fn without_own(mut set: DavMethodSet, own: Option<DavMethod>) -> DavMethodSet
    ensures { (method : DavMethod) → contains_method result method ≡ (not (is_own own method) && contains_method set method) }
{
    match own {
        None | Some(DavMethod::Options) => set,
        Some(own) => {
            set.remove(own);
            set
        }
    }
}

/// Returns the methods for what was found at the path, in the order in which they are listed.
fn found_methods(path: &DavPath, found: &Option<Meta>) -> &'static [DavMethod]
    ensures { result.now ≡ methods_of_found path.now found.now }
{
    match found {
        None if path.is_star() => &FILE,
        None => &MISSING,
        Some(_) if path.key().is_root() => &ROOT,
        Some(meta) if meta.dir => &DIRECTORY,
        Some(_) => &FILE,
    }
}

/// Returns the names of those methods that are in the set, joined by commas.
fn offered_names(
    alloc: Global,
    methods: &[DavMethod],
    offered: &DavMethodSet,
) -> Result<String, AllocError>
    ensures { IfOk result (λ names. string_bytes names ≡ names_of (filter (contains_method offered.now) methods.now)) }
{
    let names = names_in(alloc, methods, offered)?;
    let text = names.as_slice().join(alloc, ",")?;
    Ok(text)
}

/// Returns the name of each method that is in the set.
fn names_in(
    alloc: Global,
    methods: &[DavMethod],
    offered: &DavMethodSet,
) -> Result<Vec<&'static str>, AllocError>
    ensures { IfOk result (λ names. map (λ name. name.now) names.items ≡ map name_of (filter (contains_method offered.now) methods.now)) }
{
    let mut names = Vec::new(alloc);
    for method in methods {
        if offered.contains(*method) {
            names.push(method_name(*method))?;
        }
    }
    Ok(names)
}

/// Returns the name of a method, as it appears in a request.
fn method_name(method: DavMethod) -> &'static str
    ensures name { result.now ≡ name_of method }
    ensures reads_back { method_of result.now ≡ Some method }
{
    match method {
        DavMethod::Head => "HEAD",
        DavMethod::Get => "GET",
        DavMethod::Put => "PUT",
        DavMethod::Patch => "PATCH",
        DavMethod::Options => "OPTIONS",
        DavMethod::PropFind => "PROPFIND",
        DavMethod::PropPatch => "PROPPATCH",
        DavMethod::MkCol => "MKCOL",
        DavMethod::Copy => "COPY",
        DavMethod::Move => "MOVE",
        DavMethod::Delete => "DELETE",
        DavMethod::Lock => "LOCK",
        DavMethod::Unlock => "UNLOCK",
    }
}

/// Makes the 200 response with the compliance classes and these method names. The only error is `Memory`.
fn options_reply(alloc: Global, names: String) -> DavResult<Response<Body>>
    requires { IsFieldValue (string_bytes names) }
    ensures ok { IfOk result (λ reply. reply_of reply ≡ reply_of_options (string_bytes names)) }
    ensures err { IfErr result (λ e. e ≡ Memory) }
{
    let classes = HeaderValue::from_static("1,2,3,sabredav-partialupdate");
    let author = HeaderName::from_static("ms-author-via");
    let mut headers = HeaderMap::new(alloc);
    add_header(&mut headers, HeaderName::from_static("dav"), Some(classes))?;
    add_header(&mut headers, author, Some(HeaderValue::from_static("DAV")))?;
    add_header(
        &mut headers,
        CONTENT_LENGTH,
        Some(HeaderValue::from_static("0")),
    )?;
    add_header(&mut headers, ALLOW, Some(header_value(names)?))?;
    let mut reply = Response::new(alloc, Body::Empty);
    *reply.headers_mut() = headers;
    Ok(reply)
}
