//! A policy of one's own: a store that may be read and not changed. It is there to be copied.
#![tactic(auto)]

ghost use Rattle.std.specs.Prelude.{◌≡◌, IfOk, []};
ghost use Rattle.dav_guarding.specs.Guarding.{inner_of, records_of};
ghost use Rattle.dav_engine.specs.DavInner.{state_by};

use dav_engine::{Body, DavInner, DavRequest, DavResult};
use dav_guarding::{Guarding, Policy};
use dav_resource::{DavPath, Op};
use dav_store::{DavLockSystem, GuardedFileSystem};
use http::Response;
use std::alloc::Global;

/// Refuses each call that changes something.
pub struct ReadOnly;

impl Policy for ReadOnly {
    ghost use Rattle.dav_engine.specs.Bounds.{is_change};

    ghost refusals = { λ _ op keys. is_change op };

    fn refuses(&self, op: Op, _: &[DavPath]) -> bool {
        match op {
            Op::CreateDir | Op::RemoveFile | Op::RemoveDir | Op::Copy | Op::Rename => true,
            Op::OpenFile | Op::WriteBytes | Op::PatchProps => true,
            _ => false,
        }
    }
}

/// Wraps a store, so that it may be read and not changed.
pub fn read_only<F>(alloc: Global, store: F) -> Guarding<F, ReadOnly>
    ensures inner { inner_of result ≡ store }
    ensures records { records_of result ≡ [] }
{
    Guarding::new(alloc, store, ReadOnly)
}

/// Executes the requests in order. Whatever they are, the store contains the same as before, with all metadata.
///
/// The only error is `Memory`, and then no request was executed.
pub fn run_read_only<'a, C: Drop, F: GuardedFileSystem<C>, L: DavLockSystem>(
    engine: &mut DavInner<'a, C, Guarding<F, ReadOnly>, L>,
    requests: &[DavRequest],
) -> DavResult<Vec<DavResult<Response<Body>>>>
    ensures same { IfOk result (λ _. (state_by ⟦<Guarding<F, ReadOnly> as GuardedFileSystem<C>>⟧.seen L.seen engine.new).contents
        ≡ (state_by ⟦<Guarding<F, ReadOnly> as GuardedFileSystem<C>>⟧.seen L.seen engine.old).contents) }
{
    engine.run(requests)
}
