//! What the wrappers of a store have in common.
//!
//! A wrapper is a store over another one: it passes calls on and may refuse some, so it has a log of its own. The
//! contracts of this crate say how such a log follows the wrapped store's, and what becomes of a listing in which
//! the wrapper hides members. Its laws are what a wrapper's own proofs rest on.
#![tactic(auto)]

ghost use Rattle.std.specs.Prelude.{◌≡◌, ◌≤◌, [], map, length, vec_capacity, IfOk};
ghost use Rattle.dav_store.specs.Logged.{logged_of};
ghost use Rattle.dav_wrapping.specs.Wrapping.{last_outcome as outcome_of_last};
ghost use Rattle.dav_wrapping.specs.Recorded.{answered_statuses};

use dav_resource::{FsResult, Items, Outcome, Record};
use http::StatusCode;

/// Returns the outcome of the last record, or `Granted` if there is none.
pub fn last_outcome(records: &[Record]) -> Outcome
    ensures { result ≡ outcome_of_last (map logged_of records.now) }
{
    match records.last() {
        Some(record) => record.outcome,
        None => Outcome::Granted,
    }
}

/// Returns the record of a call with the statuses that it answered. There is room for them in `statuses`, which is
/// empty.
pub fn with_statuses(
    call: Record,
    statuses: Vec<StatusCode>,
    answer: &FsResult<Vec<StatusCode>>,
) -> Record
    requires none { call.statuses ≡ [] }
    requires empty { statuses.items ≡ [] }
    requires room { IfOk answer.now (λ answered. length answered.items ≤ vec_capacity statuses) }
    ensures { result ≡ record call { statuses = answered_statuses answer.now } }
{
    let mut call = call;
    let mut statuses = statuses;
    if let Ok(answered) = answer {
        statuses.extend_from_slice(answered).unwrap();
        call.statuses = Items::from_vec(statuses);
    }
    call
}
