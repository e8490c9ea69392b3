//! The records that an in-memory store writes of its calls.
ghost use Rattle.std.specs.Prelude.{◌≡◌, ◌<◌, ◌∷◌, ◌++◌, [], vec_len, vec_capacity, OnOk, IfOk, IfErr};
ghost use Rattle.dav_tree.specs.TreeFs.{memory_of};
ghost use Rattle.dav_tree.specs.MemoryCalls.{Records, RecordsWith, outcome_of};
ghost use Rattle.dav_store.specs.Logged.{record_with};

use super::TreeFs;
use crate::medium::Medium;
use dav_resource::{DavPath, FsError, FsResult, Items, Op, Outcome, Paths, Record};
use dav_store::{one_path, two_paths};
use http::StatusCode;

impl<M: Medium> TreeFs<M> {
    /// Reserves capacity for the record of a call on a path, and returns the record's copy of the path.
    pub(super) fn begin_record(&mut self, path: &DavPath) -> FsResult<Paths>
        ensures memory { memory_of self.new ≡ memory_of self.old }
        ensures log { self.new.log.items ≡ self.old.log.items }
        ensures room { OnOk result (vec_len self.new.log < vec_capacity self.new.log) }
        ensures paths { IfOk result (λ paths. paths ≡ path.now ∷ []) }
        ensures err { IfErr result (λ e. e ≡ FsError.Memory) }
    {
        self.log.reserve(1)?;
        Ok(one_path(path)?)
    }

    /// Reserves capacity for the record of a call on two paths, and returns the record's copies of them.
    pub(super) fn begin_record_of_two(&mut self, from: &DavPath, to: &DavPath) -> FsResult<Paths>
        ensures memory { memory_of self.new ≡ memory_of self.old }
        ensures log { self.new.log.items ≡ self.old.log.items }
        ensures room { OnOk result (vec_len self.new.log < vec_capacity self.new.log) }
        ensures paths { IfOk result (λ paths. paths ≡ from.now ∷ to.now ∷ []) }
        ensures err { IfErr result (λ e. e ≡ FsError.Memory) }
    {
        self.log.reserve(1)?;
        Ok(two_paths(from, to)?)
    }

    /// Reserves capacity for the record of a call that has no path, and returns no paths.
    pub(super) fn begin_record_of_none(&mut self) -> FsResult<Paths>
        ensures memory { memory_of self.new ≡ memory_of self.old }
        ensures log { self.new.log.items ≡ self.old.log.items }
        ensures room { OnOk result (vec_len self.new.log < vec_capacity self.new.log) }
        ensures paths { IfOk result (λ paths. paths ≡ []) }
        ensures err { IfErr result (λ e. e ≡ FsError.Memory) }
    {
        self.log.reserve(1)?;
        Ok(Paths::none())
    }

    /// Writes the record of a result without statuses, and returns the result. The error `Memory` is not
    /// recorded.
    pub(super) fn end_record<T>(&mut self, op: Op, paths: Paths, answer: FsResult<T>) -> FsResult<T>
        requires { vec_len self.old.log < vec_capacity self.old.log }
        ensures answer { result ≡ answer }
        ensures entries { self.new.entries ≡ self.old.entries }
        ensures memory { memory_of self.new ≡ memory_of self.old }
        ensures record { Records op paths answer self.old.log.items self.new.log.items }
    {
        let none = Items::from_vec(Vec::new(*self.log.allocator()));
        self.end_record_with(op, paths, none, answer)
    }

    /// Writes the record of a result, and returns the result. A success is recorded with these statuses, an
    /// error without statuses. The error `Memory` is not recorded.
    pub(super) fn end_record_with<T>(
        &mut self,
        op: Op,
        paths: Paths,
        statuses: Items<StatusCode>,
        answer: FsResult<T>,
    ) -> FsResult<T>
        requires { vec_len self.old.log < vec_capacity self.old.log }
        ensures answer { result ≡ answer }
        ensures entries { self.new.entries ≡ self.old.entries }
        ensures memory { memory_of self.new ≡ memory_of self.old }
        ensures record { RecordsWith (λ _. statuses) op paths answer self.old.log.items self.new.log.items }
    {
        match &answer {
            Ok(_) => self.write_record(op, paths, Outcome::Granted, statuses),
            Err(FsError::Memory) => {}
            Err(error) => {
                let none = Items::from_vec(Vec::new(*self.log.allocator()));
                self.write_record(op, paths, outcome_of(*error), none);
            }
        }
        answer
    }

    /// Appends a record to the log.
    fn write_record(&mut self, op: Op, paths: Paths, outcome: Outcome, statuses: Items<StatusCode>)
        requires { vec_len self.old.log < vec_capacity self.old.log }
        ensures entries { self.new.entries ≡ self.old.entries }
        ensures memory { memory_of self.new ≡ memory_of self.old }
        ensures record { self.new.log.items ≡ self.old.log.items ++ record_with op paths outcome statuses ∷ [] }
    {
        self.log
            .push(Record {
                op,
                paths,
                outcome,
                statuses,
            })
            .unwrap();
    }
}

/// Returns the outcome that is recorded for an error. `GeneralFailure` and `InsufficientStorage` are errors of
/// the store's own, which bar no call, and are recorded as refused. Any other error is recorded as barred.
fn outcome_of(error: FsError) -> Outcome
    ensures { result ≡ outcome_of error }
{
    match error {
        FsError::GeneralFailure | FsError::InsufficientStorage => Outcome::Refused(error),
        _ => Outcome::Barred(error),
    }
}
