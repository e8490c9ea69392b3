//! Serves the blocks of a script.
ghost use Rattle.std.specs.Prelude.{◌≡◌, map, string_bytes, IfOk, OnOk};
ghost use Rattle.dav_messages.specs.Reply.{answer_of};
ghost use Rattle.dav_script.specs.Serving.{AreRun, IsServed, RunsBelow, begun, first_shared, request_in, seen_over, shared_by, without_log};

use crate::blocks::Block;
use crate::print::{print_end, print_reply, request_line};
use crate::refusal::PlannedRefusal;
use crate::requests::request;
use crate::trouble::Stopped;
use dav_engine::DavInner;
use dav_memls::MemLs;
use dav_refusing::Refusing;
use dav_resource::{Body, DavError, DavPath, DavRequest, DavResult, Profile};
use dav_store::GuardedFileSystem;
use dav_tree::MemFs;
use http::Response;
use std::alloc::Global;
use std::io::Write;
use std::mem;

/// The results of a run, one for each request.
type Replies = Vec<DavResult<Response<Body>>>;

/// What the blocks of a script share: the profile of the engine, an in-memory store, an in-memory lock system, and the
/// current time.
#[derive(Drop)]
pub struct Session<'a> {
    profile: Profile,
    prefix: &'a str,
    /// The store, which refuses the calls that the blocks so far plan to be refused.
    pub store: Refusing<MemFs>,
    pub locks: MemLs,
    /// The number of blocks so far.
    blocks: u64,
    /// The current time, in whole seconds since 1970.
    now: u64,
}

impl<'a> Session<'a> {
    /// Creates a session before its first block. The store holds only the root, at time 0, and refuses
    /// nothing. In the profile `Standard` it marks directories that gain or lose a member. There is no lock. Requests
    /// have paths below the prefix. Fails only if memory runs out.
    pub fn new(alloc: Global, profile: Profile, prefix: &'a str) -> Result<Session<'a>, Stopped>
        ensures { IfOk result (λ session. shared_by session ≡ first_shared profile prefix.now) }
    {
        let mut store = MemFs::new(alloc)?;
        store.set_marks_parents(matches!(profile, Profile::Standard));
        Ok(Session {
            profile,
            prefix,
            store: Refusing::new(alloc, store),
            locks: MemLs::new(alloc),
            blocks: 0,
            now: 0,
        })
    }

    /// Serves one block in a run of its own, and prints its request line and its response. If the path cannot
    /// be parsed, the request is not served, and the error's status is printed.
    pub fn serve<O: Write>(
        &mut self,
        alloc: Global,
        block: Block,
        output: &mut O,
    ) -> Result<(), Stopped>
        ensures { OnOk result (IsServed block (shared_by self.old) (shared_by self.new)) }
    {
        let line = request_line(alloc, &block)?;
        writeln!(output, "{line}")?;
        let request = match self.begin(alloc, block)? {
            Ok(request) => request,
            Err(error) => return print_reply(alloc, output, &Err(error)),
        };
        match self.run(alloc, &[request])? {
            Ok(replies) => print_replies(alloc, output, &replies),
            Err(_) => Err(Stopped::Memory),
        }
    }

    /// Serves blocks in one run of the engine, and prints the request line and the response of each, with an
    /// empty line between them. All their refusals are planned before the run, and the store's time is that
    /// of the last block. If the run itself fails, which happens only if memory runs out, only that is
    /// printed, and nothing was served.
    pub fn serve_at_once<O: Write>(
        &mut self,
        alloc: Global,
        blocks: Vec<Block>,
        output: &mut O,
    ) -> Result<(), Stopped> {
        let mut asked = Vec::new(alloc);
        let mut requests = Vec::new(alloc);
        for block in blocks {
            let line = request_line(alloc, &block)?;
            let refused = match self.begin(alloc, block)? {
                Ok(request) => {
                    requests.push(request)?;
                    None
                }
                Err(error) => Some(error),
            };
            asked.push(Asked { line, refused })?;
        }
        match self.run(alloc, &requests)? {
            Ok(replies) => print_asked(alloc, output, asked, replies),
            Err(_) => Ok(output.write_all(b"run: Memory\n")?),
        }
    }

    /// Counts a block, sets its time and plans its refusals. Returns its request, or the error if its path
    /// cannot be parsed. Fails only if memory runs out.
    fn begin(&mut self, alloc: Global, mut block: Block) -> Result<DavResult<DavRequest>, Stopped>
        ensures begun { OnOk result (shared_by self.new ≡ begun block (shared_by self.old)) }
        ensures request { IfOk result (λ request. request ≡ request_in block (shared_by self.new)) }
    {
        self.blocks = self.blocks.saturating_add(1);
        if let Some(now) = block.now {
            self.set_now(now);
        }
        for refusal in mem::replace(&mut block.refusals, Vec::new(alloc)) {
            self.plan(refusal)?;
        }
        match DavPath::from_str_and_prefix(alloc, block.path.as_str(), self.prefix) {
            Ok(path) => Ok(Ok(request(alloc, self.blocks, self.now, path, block)?)),
            Err(DavError::Memory) => Err(Stopped::Memory),
            Err(error) => Ok(Err(error)),
        }
    }

    /// Returns the current time, in whole seconds since 1970.
    pub fn now(&self) -> u64
        ensures { result ≡ (shared_by self.entry.now).now }
    {
        self.now
    }

    /// Sets the current time.
    pub fn set_now(&mut self, now: u64)
        ensures { shared_by self.new ≡ record (shared_by self.old) { now = now } }
    {
        self.now = now;
        self.store.inner_mut().set_now(now);
    }

    /// Replaces the store with another one, which refuses nothing, and marks directories as the one before did. The time
    /// and the locks stay.
    pub fn set_store(&mut self, alloc: Global, mut store: MemFs) {
        store.set_now(self.now);
        store.set_marks_parents(matches!(self.profile, Profile::Standard));
        self.store = Refusing::new(alloc, store);
    }

    /// Clears the records of the calls so far, in the store's log and in that of the wrapped store.
    pub fn clear_log(&mut self)
        ensures { shared_by self.new ≡ without_log (shared_by self.old) }
    {
        GuardedFileSystem::<()>::clear_log(&mut self.store);
    }

    /// Plans a refusal, after those that are planned and not yet used. Fails only if memory runs out.
    pub fn plan(&mut self, refusal: PlannedRefusal) -> Result<(), Stopped>
        ensures { shared_by self.new ≡ shared_by self.old }
    {
        let PlannedRefusal { op, path, error } = refusal;
        self.store.add(op, path, error)?;
        Ok(())
    }

    /// Prints what the store and the lock system hold.
    pub fn print_end<O: Write>(&mut self, alloc: Global, output: &mut O) -> Result<(), Stopped> {
        print_end(alloc, output, self.store.inner_mut(), &self.locks)
    }

    /// Serves requests in one run of an engine, and returns the run's result. Fails only if memory runs out.
    fn run(&mut self, alloc: Global, requests: &[DavRequest]) -> Result<DavResult<Replies>, Stopped>
        ensures { IfOk result (λ run. OnOk run (AreRun (shared_by self.old) requests.now (shared_by self.new))) }
    {
        let prefix = String::from_str(alloc, self.prefix)?;
        let (replies, store, locks) = run_over(
            &mut self.store,
            &mut self.locks,
            self.profile,
            prefix,
            requests,
        );
        give_back(store, locks);
        Ok(replies)
    }
}

/// Serves requests in one run of a new engine over a store and a lock system, in this profile and below this prefix, and
/// returns both.
fn run_over<'a>(
    store: &'a mut Refusing<MemFs>,
    locks: &'a mut MemLs,
    profile: Profile,
    prefix: String,
    requests: &[DavRequest],
) -> (DavResult<Replies>, &'a mut Refusing<MemFs>, &'a mut MemLs)
    ensures same_store { result.1.ghost_name ≡ store.entry.ghost_name }
    ensures same_locks { result.2.ghost_name ≡ locks.entry.ghost_name }
    ensures run { IfOk result.0 (λ replies. RunsBelow profile (string_bytes prefix)
        (seen_over store.old locks.old) requests.now (map answer_of replies.items) (seen_over result.1.now result.2.now)) }
{
    let mut engine = DavInner::new(store, Some(locks), prefix, None, ()).with_profile(profile);
    let replies = engine.run(requests);
    let (store, locks) = engine.finish();
    (replies, store, locks.unwrap())
}

/// Does nothing. Without this use of both references the prover would not know what they leave behind.
fn give_back<F, L>(store: &mut F, locks: &mut L)
    ensures store { store.new ≡ store.old }
    ensures locks { locks.new ≡ locks.old }
{}

/// A block of a run.
#[derive(Drop)]
struct Asked {
    /// Its request line, as printed.
    line: String,
    /// The error of its path, if it cannot be parsed. The request is then not served.
    refused: Option<DavError>,
}

/// Prints responses, one after the other.
fn print_replies<O: Write>(
    alloc: Global,
    output: &mut O,
    replies: &[DavResult<Response<Body>>],
) -> Result<(), Stopped> {
    for reply in replies {
        print_reply(alloc, output, reply)?;
    }
    Ok(())
}

/// Prints the responses of a run, each after the request line of its block, with an empty line between them.
fn print_asked<O: Write>(
    alloc: Global,
    output: &mut O,
    asked: Vec<Asked>,
    replies: Replies,
) -> Result<(), Stopped> {
    let mut replies = replies.into_iter();
    for (place, block) in asked.into_iter().enumerate() {
        let Asked { line, refused } = block;
        if place > 0 {
            output.write_all(b"\n")?;
        }
        writeln!(output, "{line}")?;
        let reply = match refused {
            Some(error) => Some(Err(error)),
            None => replies.next(),
        };
        if let Some(reply) = &reply {
            print_reply(alloc, output, reply)?;
        }
    }
    Ok(())
}
