//! What the requests of a caller change, and what they reveal to it, if the store allows it only some calls.
#![tactic(auto)]

ghost use Rattle.std.specs.Prelude.{IfOk, map, Some};
ghost use Rattle.dav_messages.specs.Reply.{answer_of};
ghost use Rattle.dav_engine.specs.DavInner.{lent, seen_by, state_by, settings_by};
ghost use Rattle.dav_access.specs.Changes.{ChangesByAllowed, ChangesWhereWritten};
ghost use Rattle.dav_access.specs.Reading.{RevealsOnly, sight_by};
ghost use Rattle.dav_guarding.specs.Guarding.{policy_of};

use dav_engine::{Body, DavInner, DavRequest, DavResult};
use dav_guarding::Guarding;
use dav_rights::Rights;
use dav_store::{DavLockSystem, GuardedFileSystem};
use http::Response;

/// Executes the requests in order. What is at a key changes only by a call that the store allows the caller.
///
/// The only error is `Memory`, and then no request was executed.
pub fn run_allowed<'a, C: Drop, F: GuardedFileSystem<C>, L: DavLockSystem>(
    engine: &mut DavInner<'a, C, F, L>,
    requests: &[DavRequest],
) -> DavResult<Vec<DavResult<Response<Body>>>>
    ensures changed { IfOk result (λ _. ChangesByAllowed (seen_by F.seen L.seen engine.old) (seen_by F.seen L.seen engine.new)) }
{
    engine.run(requests)
}

/// Executes the requests of a caller in order, over a store that its rights guard. What is at a key changes only if the
/// rules let the caller write there. The results reveal to the caller nothing else than what they let it list and read:
/// the store could be in any other state that looks alike to it.
///
/// The only error is `Memory`, and then no request was executed.
pub fn run_with_rights<'a, C: Drop, F: GuardedFileSystem<C>, L: DavLockSystem>(
    engine: &mut DavInner<'a, C, Guarding<F, Rights>, L>,
    requests: &[DavRequest],
) -> DavResult<Vec<DavResult<Response<Body>>>>
    ensures changed { IfOk result (λ _. ChangesWhereWritten (policy_of (lent engine.old)).rules.items
        (state_by ⟦<Guarding<F, Rights> as GuardedFileSystem<C>>⟧.seen L.seen engine.old)
        (state_by ⟦<Guarding<F, Rights> as GuardedFileSystem<C>>⟧.seen L.seen engine.new)) }
    ensures reveals { IfOk result (λ replies. RevealsOnly (sight_by (Some (policy_of (lent engine.old)).rules.items))
        (settings_by ⟦<Guarding<F, Rights> as GuardedFileSystem<C>>⟧.seen engine.old)
        (seen_by ⟦<Guarding<F, Rights> as GuardedFileSystem<C>>⟧.seen L.seen engine.old) requests.now (map answer_of replies.items)
        (seen_by ⟦<Guarding<F, Rights> as GuardedFileSystem<C>>⟧.seen L.seen engine.new)) }
{
    engine.run(requests)
}
