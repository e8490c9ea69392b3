//! A plan of calls to refuse.
ghost use Rattle.std.specs.Prelude.{◌≡◌, ◌↔◌, [], IsTrue, OnOk, OnErr, IfSome, map};
ghost use Rattle.std.proofs.Props.{props};
ghost use Rattle.dav_store.specs.Calls.{IsOwn};
ghost use Rattle.dav_refusing.specs.Slots.{HasNoEmptyQueue};

use super::own_error::OwnError;
use super::slot::Slot;
use dav_resource::{DavPath, FsError, Op};
use std::alloc::{AllocError, Global};
use std::collections::{BTreeMap, VecDeque};

/// The calls to refuse by plan: for each slot its errors, the first planned first. A slot has a queue only
/// while it has errors.
#[derive(Debug, Drop)]
pub(super) struct Plan {
    alloc: Global,
    queues: BTreeMap<Slot, VecDeque<OwnError>>,
    ghost tidy: { HasNoEmptyQueue queues } by { Prim.hlevel props },
}

impl Plan {
    ghost use Rattle.dav_refusing.specs.Plans.{no_refusals, planned_key, refusal_for, with_last, without_first, without_firsts};
    ghost use Rattle.dav_refusing.specs.Slots.{plan_in, slot_call, slot_key};

    /// Creates a plan without refusals.
    pub(super) fn new(alloc: Global) -> Plan
        ensures { plan_in result.queues ≡ no_refusals }
    {
        Plan {
            alloc,
            queues: BTreeMap::new(alloc),
        }
    }

    /// Adds a refusal at the end of the queue of its slot. Fails only if memory runs out, and then nothing
    /// changes. It makes at most two lookups.
    pub(super) fn add(&mut self, op: Op, path: DavPath, error: FsError) -> Result<(), AllocError>
        requires { IsOwn error }
        ensures ok { OnOk result (plan_in self.new.queues ≡ with_last op (planned_key op path.key) error (plan_in self.old.queues)) }
        ensures err { OnErr result (plan_in self.new.queues ≡ plan_in self.old.queues) }
    {
        let slot = Slot::of_refusal(op, path);
        let error = OwnError { error };
        if let Some(queue) = self.queues.get_mut(&slot) {
            queue.push_back(error)?;
            return Ok(());
        }
        let mut queue = VecDeque::new(self.alloc);
        queue.push_back(error)?;
        self.queues.insert(slot, queue)?;
        Ok(())
    }

    /// Returns the error with which the next call of this slot is to be refused, if any. It makes one lookup.
    pub(super) fn first(&self, slot: &Slot) -> Option<FsError>
        ensures error { result ≡ refusal_for slot.now.op (slot_key slot.now) (plan_in self.now.queues) }
        ensures own { IfSome result IsOwn }
    {
        let planned = self.queues.get(slot)?.front()?;
        Some(planned.error)
    }

    /// Removes the first refusal of this slot, if any, and returns its error. It makes at most two lookups.
    pub(super) fn take(&mut self, slot: &Slot) -> Option<FsError>
        ensures error { result ≡ refusal_for slot.now.op (slot_key slot.now) (plan_in self.old.queues) }
        ensures left { plan_in self.new.queues ≡ without_first slot.now.op (slot_key slot.now) (plan_in self.old.queues) }
        ensures own { IfSome result IsOwn }
    {
        let queue = self.queues.get_mut(slot)?;
        let first = queue.pop_front();
        if queue.is_empty() {
            self.queues.remove(slot);
        }
        Some(first?.error)
    }

    /// Removes the first refusal of each of these slots. It makes at most two lookups for each.
    pub(super) fn take_all(&mut self, slots: &[Slot])
        ensures { plan_in self.new.queues ≡ without_firsts (map slot_call slots.now) (plan_in self.old.queues) }
    {
        for slot in slots {
            self.take(slot);
        }
    }

    /// Whether the plan has no refusals.
    pub(super) fn is_empty(&self) -> bool
        ensures { IsTrue result ↔ (plan_in self.now.queues ≡ no_refusals) }
    {
        self.queues.is_empty()
    }

    /// Returns the allocator of the plan.
    pub(super) fn allocator(&self) -> Global {
        self.alloc
    }
}
