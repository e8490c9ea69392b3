//! The refusals that are still to come.
ghost use Rattle.std.specs.Prelude.{◌≡◌, ◌-◌, ◌≤◌, map, OnOk, OnErr, Some, None, IfSome, IfOk};
ghost use Rattle.std.specs.Option.{option_map};
ghost use Rattle.std.proofs.Props.{props};
ghost use Rattle.dav_store.specs.Calls.{IsOwn};

use super::plan::Plan;
use super::slot::Slot;
use dav_resource::{DavPath, FsError, Op};
use std::alloc::{AllocError, Global};

/// A call to be refused by its number.
#[derive(Clone, Copy, Debug)]
pub(crate) struct NumberedRefusal {
    /// How many calls come before it.
    before: u64,
    /// The error with which it is refused.
    error: FsError,
    ghost own: { IsOwn error } by { Prim.hlevel props },
}

/// The refusals that are still to come: at most one call by its number, and the calls of a plan.
#[derive(Debug, Drop)]
pub(crate) struct Pending {
    numbered: Option<NumberedRefusal>,
    plan: Plan,
}

impl Pending {
    ghost use Rattle.dav_refusing.specs.Plans.{first_key, no_refusals, planned_key, with_last, without_firsts};
    ghost use Rattle.dav_refusing.specs.Slots.{slot_call};
    ghost use Rattle.dav_refusing.specs.Pending.{numbered_of, pending_of, error_now, due, after_call, passed_by};

    /// Creates a value without refusals.
    pub(crate) fn new(alloc: Global) -> Pending
        ensures { pending_of result ≡ record { numbered = None; plan = no_refusals } }
    {
        Pending {
            numbered: None,
            plan: Plan::new(alloc),
        }
    }

    /// Returns the plan.
    pub(super) fn plan(&self) -> &Plan
        ensures { result.now ≡ self.now.plan }
    {
        &self.plan
    }

    /// Adds a refusal to the plan, after those of the same kind and key. Fails only if memory runs out, and
    /// then nothing changes.
    pub(crate) fn add(&mut self, op: Op, path: DavPath, error: FsError) -> Result<(), AllocError>
        requires { IsOwn error }
        ensures ok { OnOk result (pending_of self.new ≡ record (pending_of self.old) { plan = with_last op (planned_key op path.key) error (pending_of self.old).plan }) }
        ensures err { OnErr result (pending_of self.new ≡ pending_of self.old) }
    {
        self.plan.add(op, path, error)
    }

    /// Plans to refuse the nth call, counted from 1. This replaces an earlier numbered refusal.
    pub(crate) fn refuse_call(&mut self, n: u64, error: FsError)
        requires counted { 1 ≤ n }
        requires own { IsOwn error }
        ensures { pending_of self.new ≡ record (pending_of self.old) { numbered = Some (record { before = n - 1; error = error }) } }
    {
        self.numbered = Some(NumberedRefusal {
            before: n - 1,
            error,
        });
    }

    /// Returns the error with which a call is to be refused, if one is due. The refusal is then used up, and
    /// the call is counted. Otherwise nothing changes. Fails only if `Slot::of_call` does, and then nothing
    /// changes either.
    pub(crate) fn take(&mut self, op: Op, paths: &[DavPath]) -> Result<Option<FsError>, AllocError>
        ensures error { IfOk result (λ error. error ≡ due op (first_key paths.now) (pending_of self.old)) }
        ensures left { IfOk result (λ error. IfSome error (λ _. pending_of self.new ≡ after_call op (first_key paths.now) (pending_of self.old))) }
        ensures kept { IfOk result (λ error. error ≡ None → pending_of self.new ≡ pending_of self.old) }
        ensures own { IfOk result (λ error. IfSome error IsOwn) }
        ensures err { OnErr result (pending_of self.new ≡ pending_of self.old) }
    {
        let error = match self.due_by_number() {
            Some(error) => error,
            None => {
                let slot = Slot::of_call(op, paths)?;
                let Some(error) = self.plan.take(&slot) else {
                    return Ok(None);
                };
                error
            }
        };
        self.count();
        Ok(Some(error))
    }

    /// Returns the error of the numbered call, if the next call is that one.
    fn due_by_number(&self) -> Option<FsError>
        ensures error { result ≡ error_now (option_map numbered_of self.now.numbered) }
        ensures own { IfSome result IsOwn }
    {
        match self.numbered {
            Some(numbered) if numbered.before == 0 => Some(numbered.error),
            _ => None,
        }
    }

    /// Counts a call.
    pub(crate) fn count(&mut self)
        ensures { pending_of self.new ≡ passed_by (pending_of self.old) }
    {
        self.numbered = match self.numbered {
            Some(numbered) if numbered.before > 0 => Some(NumberedRefusal {
                before: numbered.before - 1,
                error: numbered.error,
            }),
            _ => None,
        };
    }

    /// Uses up the first refusal of the plan for each of these slots.
    pub(super) fn use_up(&mut self, slots: &[Slot])
        ensures { pending_of self.new ≡ record (pending_of self.old) { plan = without_firsts (map slot_call slots.now) (pending_of self.old).plan } }
    {
        self.plan.take_all(slots);
    }
}
