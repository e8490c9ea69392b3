//! Two guarantees that a caller of `run` can give its own users. Both follow from the contract of `run` alone.
#![tactic(auto)]

ghost use Rattle.std.specs.Prelude.{IfOk, map};
ghost use Rattle.dav_messages.specs.Reply.{answer_of};
ghost use Rattle.dav_engine.specs.DavInner.{settings_by, state_by};
ghost use Rattle.guarantee_examples.specs.Guarantees.{KeepsUnreached, KeepsFirstPut};

use dav_engine::{Body, DavInner, DavRequest, DavResult};
use dav_store::{DavLockSystem, GuardedFileSystem};
use http::Response;

/// Executes the requests in order. Whatever they are, and whatever the store refuses:
/// - a resource that is not at or below the path or the `Destination` of a request stays as it was;
/// - if the first one is a PUT of a whole file that an exclusive lock covers, and it succeeds, the file has
///   exactly its body at the end, unless a later request names the token of the lock.
///
/// The only error is `Memory`, and then no request was executed.
pub fn run_protected<'a, C: Drop, F: GuardedFileSystem<C>, L: DavLockSystem>(
    engine: &mut DavInner<'a, C, F, L>,
    requests: &[DavRequest],
) -> DavResult<Vec<DavResult<Response<Body>>>>
    ensures unreached { IfOk result (λ _. KeepsUnreached (settings_by F.seen engine.old) requests.now
        (state_by F.seen L.seen engine.old) (state_by F.seen L.seen engine.new)) }
    ensures first_put { IfOk result (λ replies. KeepsFirstPut (settings_by F.seen engine.old) requests.now (map answer_of replies.items)
        (state_by F.seen L.seen engine.old) (state_by F.seen L.seen engine.new)) }
{
    engine.run(requests)
}
