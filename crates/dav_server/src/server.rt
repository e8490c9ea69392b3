//! The state of a server, and how it serves one frame after another.
ghost use Rattle.std.specs.Prelude.{◌≡◌, IfOk, IfErr, [], None, Some, option_map, option_copied, string_bytes};
ghost use Rattle.dav_resource.specs.declared.error.DavError.TheVariants.{Memory, Status};
ghost use Rattle.dav_messages.specs.Reply.{answer_of};
ghost use Rattle.dav_wire.specs.Views.{frame_of as frame_value, request_frame_of};
ghost use Rattle.dav_wire.specs.Frames as frames;

use crate::owners::{locks_unwritable, meddles};
use crate::replies::{encode, encode_answer, failed};
use crate::requests::request_of;
use crate::{ExpiringLocks, TimedStore};
use dav_engine::DavInner;
use dav_guarding::Guarding;
use dav_resource::{Body, DavError, DavRequest, DavResult, Profile, Text};
use dav_rights::{Access, Rules};
use dav_store::GuardedFileSystem;
use dav_wire::{Frame, RequestFrame, WireError};
use http::{Response, StatusCode};
use std::alloc::{AllocError, Global};

/// How a server serves.
#[derive(Drop, Debug)]
pub struct Options {
    /// The path prefix of the server's URLs, which may be empty.
    pub prefix: String,
    /// Whether any principal may remove and refresh the locks of others. If not, such a request is rejected with 403.
    pub anyone_unlocks: bool,
    /// How many bytes the content of a batch may have. A batch of more bytes is answered 507.
    pub max_batch: u64,
}

/// A server: an engine over a store, which access rights guard, and a lock system, the time, and the number of the
/// last batch.
#[derive(Drop)]
pub struct Server<'a, F, L> {
    pub(crate) alloc: Global,
    pub(crate) engine: DavInner<'a, (), Guarding<F, Access>, L>,
    /// The rules by which principals may list, read and write, if there are some.
    pub(crate) rights: Option<Rules>,
    /// The time of the last batch, in whole seconds since 1970.
    pub(crate) now: u64,
    /// The number of the last batch.
    pub(crate) last: u64,
    /// Whether any principal may remove and refresh the locks of others.
    pub(crate) anyone_unlocks: bool,
    /// How many bytes the content of a batch may have.
    pub(crate) max_batch: u64,
    /// Whether a backup has begun and has not ended.
    pub(crate) in_backup: bool,
}

impl<'a, F: TimedStore, L: ExpiringLocks> Server<'a, F, L> {
    ghost use Rattle.dav_server.specs.State.{HasEmptyLog, state_of, rules_of, loans_of, resumed_state, first_state, first_rules, after_expiry};
    ghost use Rattle.dav_engine.specs.DavInner.{lent};
    ghost use Rattle.dav_guarding.specs.Guarding.{inner_of, refusals_of};
    ghost use Rattle.dav_rights.specs.Access.{refuses, refuses_to, rights_in, rights_under, written_rules};
    ghost use Rattle.dav_server.specs.Snapshots.{snapshot_at};
    ghost use Rattle.dav_server.specs.Keeping.{snapshot_of};
    ghost use Rattle.dav_server.specs.Frames.{Reacts, ServesFrame};
    ghost use Rattle.dav_server.specs.Events.{AnswersRequest, Executes};
    ghost use Rattle.dav_server.specs.Owners.{is_forbidden, meddles_under};

    /// Creates a server over this store and this lock system, at time 0, before batch 1. Until `set_rules` is called, or
    /// a host sends rules, each principal may do everything.
    pub fn new(
        alloc: Global,
        store: &'a mut Guarding<F, Access>,
        locks: &'a mut L,
        options: Options,
    ) -> Server<'a, F, L>
        ensures state { state_of F.seen L.seen result ≡ first_state (F.seen (inner_of store.old)) (L.seen locks.old) }
        ensures rules { rules_of result ≡ first_rules (string_bytes options.prefix) options.anyone_unlocks }
        ensures loans { loans_of result ≡ (store.entry.ghost_name, Some locks.entry.ghost_name) }
        ensures snapshot { snapshot_of result ≡ Some (snapshot_at (inner_of store.old) locks.old 0 0) }
    {
        Server::resume(alloc, store, locks, options, 0, 0)
    }

    /// Creates a server over this store and this lock system that goes on from a time, in whole seconds since 1970, and
    /// from the batch with this number, which is the last one. A keeper keeps both numbers.
    pub fn resume(
        alloc: Global,
        store: &'a mut Guarding<F, Access>,
        locks: &'a mut L,
        options: Options,
        now: u64,
        last: u64,
    ) -> Server<'a, F, L>
        ensures state { state_of F.seen L.seen result ≡ resumed_state (F.seen (inner_of store.old)) (L.seen locks.old) None now last }
        ensures rules { rules_of result ≡ first_rules (string_bytes options.prefix) options.anyone_unlocks }
        ensures loans { loans_of result ≡ (store.entry.ghost_name, Some locks.entry.ghost_name) }
        ensures snapshot { snapshot_of result ≡ Some (snapshot_at (inner_of store.old) locks.old now last) }
    {
        Server {
            alloc,
            engine: DavInner::new(store, Some(locks), options.prefix, None, ()).with_profile(
                Profile::Standard,
            ),
            now,
            last,
            anyone_unlocks: options.anyone_unlocks,
            max_batch: options.max_batch,
            rights: None,
            in_backup: false,
        }
    }

    /// Serves by these access rules from now on. Without rules each principal may do everything.
    pub fn set_rules(&mut self, rules: Option<Rules>)
        ensures rules { rules_of self.new ≡ rules_of self.old }
        ensures loans { loans_of self.new ≡ loans_of self.old }
        ensures state { state_of F.seen L.seen self.new ≡ record (state_of F.seen L.seen self.old) { rights = written_rules rules } }
        ensures log { HasEmptyLog F.seen self.old → HasEmptyLog F.seen self.new }
    {
        self.rights = rules;
    }

    /// Ends the server and returns the store that it borrowed, as it is now.
    pub fn into_store(self) -> &'a mut Guarding<F, Access>
        ensures loan { result.ghost_name ≡ (loans_of self.entry).0 }
        ensures store { result.now ≡ lent self.entry.engine }
    {
        let engine = self.engine;
        engine.fs
    }

    /// Serves a frame and returns the encoded reply: removes the locks that have expired, and then does what the
    /// frame asks for. The log of the store is empty afterwards.
    ///
    /// Returns `None` if the reply cannot be encoded, because memory runs out or its tree has too many levels. What
    /// the frame asks for may then be done.
    pub fn serve_frame(&mut self, bytes: &[u8]) -> Option<Vec<u8>>
        ensures rules { rules_of self.new ≡ rules_of self.old }
        ensures loans { loans_of self.new ≡ loans_of self.old }
        ensures served { ServesFrame F.seen F.reads (rules_of self.old) bytes.now (state_of F.seen L.seen self.old) (option_map (λ v. v.items) result) (state_of F.seen L.seen self.new) }
        ensures log { HasEmptyLog F.seen self.old → HasEmptyLog F.seen self.new }
    {
        self.remove_expired();
        match Frame::decode(self.alloc, bytes) {
            Ok(frame) => self.react(frame),
            Err(WireError::Malformed) => encode(self.alloc, &failed(StatusCode::BAD_REQUEST)),
            Err(WireError::Memory) => None,
        }
    }

    /// Removes the locks that have expired.
    fn remove_expired(&mut self)
        ensures rules { rules_of self.new ≡ rules_of self.old }
        ensures loans { loans_of self.new ≡ loans_of self.old }
        ensures expired { state_of F.seen L.seen self.new ≡ after_expiry (state_of F.seen L.seen self.old) }
        ensures log { HasEmptyLog F.seen self.old → HasEmptyLog F.seen self.new }
    {
        if let Some(locks) = &mut self.engine.ls {
            locks.expire(self.now);
        }
    }

    /// Does what a frame asks for, and returns the encoded reply, or `None` as `serve_frame` does.
    fn react(&mut self, frame: Frame<'_>) -> Option<Vec<u8>>
        ensures rules { rules_of self.new ≡ rules_of self.old }
        ensures loans { loans_of self.new ≡ loans_of self.old }
        ensures reacts { Reacts F.seen F.reads (rules_of self.old) (Some (frame_value frame.entry)) (state_of F.seen L.seen self.old) (option_map (λ v. v.items) result) (state_of F.seen L.seen self.new) }
        ensures log { HasEmptyLog F.seen self.old → HasEmptyLog F.seen self.new }
    {
        match frame {
            Frame::Request(request) => self.serve_request(request),
            Frame::StartBody => self.start_body(),
            Frame::AddToBody(number, bytes) => self.add_to_body(number, bytes),
            Frame::DropBody(number) => self.drop_body(number),
            Frame::Read(asked) => self.read_part(asked),
            Frame::NextExpiry => self.next_expiry(),
            Frame::Held => self.held(),
            Frame::BeginBackup => self.begin_backup(),
            Frame::EndBackup => self.end_backup(),
            Frame::SetRights(text) => self.set_rights(text),
            Frame::Explain(question) => self.explain(question),
            Frame::ListLocks => self.list_locks(),
            Frame::RemoveLock(asked) => self.remove_lock(asked),
            Frame::SetModified(asked) => self.set_modified(asked),
        }
    }

    /// Serves the request of a frame with the engine, or rejects it before: with the error of `request_of`, or with
    /// 403 if `forbids` says so.
    fn serve_request(&mut self, frame: RequestFrame<'_>) -> Option<Vec<u8>>
        ensures rules { rules_of self.new ≡ rules_of self.old }
        ensures loans { loans_of self.new ≡ loans_of self.old }
        ensures reacts { Reacts F.seen F.reads (rules_of self.old) (Some (frames.Request (request_frame_of frame.entry))) (state_of F.seen L.seen self.old) (option_map (λ v. v.items) result) (state_of F.seen L.seen self.new) }
        ensures log { HasEmptyLog F.seen self.old → HasEmptyLog F.seen self.new }
    {
        let answer = self.answer(frame);
        encode_answer(self.alloc, &answer)
    }

    /// Returns the result of a request, of which `serve_request` sends the encoding.
    fn answer(&mut self, frame: RequestFrame<'_>) -> DavResult<Response<Body>>
        ensures rules { rules_of self.new ≡ rules_of self.old }
        ensures loans { loans_of self.new ≡ loans_of self.old }
        ensures answers { AnswersRequest (rules_of self.old) (request_frame_of frame.entry) (state_of F.seen L.seen self.old) (answer_of result) (state_of F.seen L.seen self.new) }
        ensures log { HasEmptyLog F.seen self.old → HasEmptyLog F.seen self.new }
    {
        let request = match request_of(self.alloc, self.engine.prefix(), self.now, frame) {
            Ok(request) => request,
            Err(error) => return Err(error),
        };
        let access = match self.access_of(request.principal.as_ref()) {
            Ok(access) => access,
            Err(_) => return Err(DavError::Memory),
        };
        match self.forbids(&request, &access) {
            Ok(false) => self.execute(&request, access),
            Ok(true) => Err(DavError::Status(StatusCode::FORBIDDEN)),
            Err(error) => Err(error),
        }
    }

    /// Returns what the access rights allow a principal. Fails only if memory runs out.
    fn access_of(&self, principal: Option<&Text>) -> Result<Access, AllocError>
        ensures { IfOk result (λ access. rights_in access ≡ rights_under (written_rules self.entry.now.rights) (option_copied principal.entry)) }
    {
        let principal = match principal {
            Some(principal) => Some(principal.as_str()),
            None => None,
        };
        Access::of(self.alloc, self.rights.as_ref(), principal)
    }

    /// Has the engine serve the request with this access to the store, and empties the log.
    fn execute(&mut self, request: &DavRequest, access: Access) -> DavResult<Response<Body>>
        requires { rights_in access ≡ rights_under (written_rules self.old.rights) request.now.principal }
        ensures rules { rules_of self.new ≡ rules_of self.old }
        ensures loans { loans_of self.new ≡ loans_of self.old }
        ensures executes { Executes (rules_of self.old) request.entry.now (answer_of result) (state_of F.seen L.seen self.old) (state_of F.seen L.seen self.new) }
        ensures log { HasEmptyLog F.seen self.new }
    {
        self.engine.fs.set_policy(access);
        let answer = self.engine.serve(request);
        self.engine.fs.clear_log();
        answer
    }

    /// Whether the server forbids the request: it would remove or refresh a lock of another principal, or make one
    /// where its principal may not write. Fails only if memory runs out.
    fn forbids(&self, request: &DavRequest, access: &Access) -> DavResult<bool>
        requires { rights_in access.now ≡ rights_under (written_rules self.now.rights) request.now.principal }
        ensures ok { IfOk result (λ forbidden. forbidden ≡ is_forbidden (rules_of self.entry.now) (state_of F.seen L.seen self.entry.now) request.entry.now) }
        ensures err { IfErr result (λ e. e ≡ Memory) }
    {
        Ok(self.meddles(request)? || locks_unwritable(&*self.engine.fs, request, access))
    }

    /// Whether the request would remove or refresh a lock of another principal, and not anyone may. Fails only if memory
    /// runs out.
    fn meddles(&self, request: &DavRequest) -> DavResult<bool>
        ensures ok { IfOk result (λ found. found ≡ meddles_under (rules_of self.entry.now) (state_of F.seen L.seen self.entry.now) request.entry.now) }
        ensures err { IfErr result (λ e. e ≡ Memory) }
    {
        if self.anyone_unlocks {
            return Ok(false);
        }
        match &self.engine.ls {
            Some(locks) => meddles(self.alloc, &*self.engine.fs, &**locks, request),
            None => Ok(false),
        }
    }
}
