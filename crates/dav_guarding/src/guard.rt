//! What a policy lets pass, and the records of that.
ghost use Rattle.std.specs.Prelude.{◌≡◌, ◌≢◌, ◌<◌, [], ◌∷◌, ◌++◌, false, vec_len, vec_capacity, IfOk, IfErr, OnOk, OnErr, Err};
ghost use Rattle.std.proofs.Props.{props};
ghost use Rattle.dav_store.specs.Logged.{record_on};
ghost use Rattle.dav_guarding.specs.Policy.{AreAllowed};

use crate::policy::Policy;
use dav_resource::{FsError, FsResult, Items, Op, Outcome, Paths, Record};
use std::alloc::Global;

/// A policy, with the records of the calls that it let pass or refused.
#[derive(Drop)]
pub(crate) struct Guard<P: Policy> {
    policy: P,
    records: Vec<Record>,
    ghost allowed: { AreAllowed (P.Policy.refusals policy) records.items } by { Prim.hlevel props },
}

impl<P: Policy> Guard<P> {
    ghost use Rattle.dav_guarding.specs.Guard.{policy_in, records_in, is_refused, IsKept, TurnsAway};

    /// Creates a value without records.
    pub(crate) fn new(alloc: Global, policy: P) -> Guard<P>
        ensures policy { policy_in result ≡ policy }
        ensures records { records_in result ≡ [] }
    {
        Guard {
            policy,
            records: Vec::new(alloc),
        }
    }

    /// Returns the policy.
    pub(crate) fn policy(&self) -> &P
        ensures { result.now ≡ policy_in self.now }
    {
        &self.policy
    }

    /// Sets the policy, and removes all records.
    pub(crate) fn set_policy(&mut self, policy: P)
    where
        P: Drop,
        ensures policy { policy_in self.new ≡ policy }
        ensures records { records_in self.new ≡ [] }
    {
        self.records.clear();
        self.policy = policy;
    }

    /// Returns the records, the oldest first.
    pub(crate) fn records(&self) -> &[Record]
        ensures { result.now ≡ records_in self.now }
    {
        &self.records
    }

    /// Removes all records.
    pub(crate) fn clear(&mut self)
        ensures policy { policy_in self.new ≡ policy_in self.old }
        ensures records { records_in self.new ≡ [] }
    {
        self.records.clear();
    }

    /// Returns the allocator of the records.
    pub(crate) fn allocator(&self) -> Global {
        *self.records.allocator()
    }

    /// Refuses a call on these paths if the policy does. Otherwise reserves capacity for its record, and returns the
    /// record of a granted call without statuses.
    pub(crate) fn begin(&mut self, op: Op, paths: Paths) -> FsResult<Record>
        ensures call { IfOk result (λ call. call ≡ record_on op paths Outcome.Granted) }
        ensures room { OnOk result (vec_len self.new.records < vec_capacity self.new.records) }
        ensures free { OnOk result (is_refused self.old op paths ≡ false) }
        ensures kept { OnOk result (IsKept self.old self.new) }
        ensures refused { IfErr result (λ e. TurnsAway op paths e self.old self.new) }
    {
        self.records.reserve(1)?;
        let mut call = Record {
            op,
            paths,
            outcome: Outcome::Granted,
            statuses: Items::from_vec(Vec::new(self.allocator())),
        };
        if self.policy.refuses(op, call.paths.as_slice()) {
            call.outcome = Outcome::Refused(FsError::Forbidden);
            self.records.push(call).unwrap();
            return Err(FsError::Forbidden);
        }
        Ok(call)
    }

    /// Records a listing and the members that it does not list. Fails only if memory runs out, and then nothing
    /// changes.
    pub(crate) fn keep_listing(&mut self, call: Record, mut unseen: Vec<Record>) -> FsResult<()>
        requires listing { AreAllowed (P.refusals (policy_in self.old)) (call ∷ []) }
        requires unseen { AreAllowed (P.refusals (policy_in self.old)) unseen.items }
        ensures policy { policy_in self.new ≡ policy_in self.old }
        ensures records { OnOk result (records_in self.new ≡ records_in self.old ++ call ∷ unseen.items) }
        ensures err { IfErr result (λ e. (e ≡ FsError.Memory) × IsKept self.old self.new) }
    {
        self.records.reserve(1 + unseen.len())?;
        self.records.push(call).unwrap();
        self.records.append(&mut unseen).unwrap();
        Ok(())
    }

    /// Records a call that was passed on, unless memory ran out in it. Returns the call's result.
    pub(crate) fn finish<T>(&mut self, call: Record, answer: FsResult<T>) -> FsResult<T>
        requires room { vec_len self.old.records < vec_capacity self.old.records }
        requires allowed { AreAllowed (P.refusals (policy_in self.old)) (call ∷ []) }
        ensures answer { result ≡ answer }
        ensures policy { policy_in self.new ≡ policy_in self.old }
        ensures memory { answer ≡ Err FsError.Memory → records_in self.new ≡ records_in self.old }
        ensures recorded { answer ≢ Err FsError.Memory → records_in self.new ≡ records_in self.old ++ call ∷ [] }
    {
        match answer {
            Err(FsError::Memory) => {}
            _ => self.records.push(call).unwrap(),
        }
        answer
    }
}
