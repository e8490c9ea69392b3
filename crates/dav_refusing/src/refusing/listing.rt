//! How a plan changes a listing.
ghost use Rattle.std.specs.Prelude.{◌≡◌, [], ◌++◌, map, IfOk, IfErr};
ghost use Rattle.dav_resource.specs.PathText.{IsSegment};
ghost use Rattle.dav_store.specs.Members.{member};
ghost use Rattle.dav_wrapping.specs.Hiding.{hidden_record, HaveSegmentNames};
ghost use Rattle.dav_refusing.specs.Plans.{refusal_for, refused_call, LetsThrough};
ghost use Rattle.dav_refusing.specs.Slots.{plan_in, slot_call};

use super::plan::Plan;
use super::slot::Slot;
use dav_resource::{DavPath, DirEntry, FsError, FsResult, Items, Op, Outcome, Paths, Record};
use std::alloc::Global;

/// The members that a listing does not list.
#[derive(Drop)]
pub(super) struct Unseen {
    /// The records of all of them, in the order of the listing.
    pub(super) records: Vec<Record>,
    /// The slots of those that the plan refuses. These refusals are to be used up.
    pub(super) refused: Vec<Slot>,
}

impl Unseen {
    /// Creates a value without members.
    fn new(alloc: Global) -> Unseen
        ensures records { result.records.items ≡ [] }
        ensures refused { result.refused.items ≡ [] }
    {
        Unseen {
            records: Vec::new(alloc),
            refused: Vec::new(alloc),
        }
    }
}

/// Refuses each listed member for which the plan has a refusal, and returns all members that are not listed.
/// `hidden` holds the records of those that were not listed before. The plan stays the same.
///
/// Fails only if memory runs out. The contents of the listing are then unspecified. It makes at most one
/// lookup for each member.
pub(super) fn refuse_members(
    path: &DavPath,
    plan: &Plan,
    listing: &mut [FsResult<DirEntry>],
    hidden: &[Record],
) -> FsResult<Unseen>
    requires { HaveSegmentNames listing.old }
    ensures let_by { IfOk result (λ unseen. LetsThrough (plan_in plan.now.queues) path.now listing.old hidden.now listing.new unseen.records.items (map slot_call unseen.refused.items)) }
    ensures err { IfErr result (λ e. e ≡ FsError.Memory) }
{
    let mut rest = hidden;
    let mut unseen = Unseen::new(plan.allocator());
    for shown in listing.iter_mut() {
        match shown {
            Ok(entry) => {
                if let Some(error) = refuse_member(path, plan, entry, &mut unseen)? {
                    *shown = Err(error);
                }
            }
            Err(_) => {
                if let Some((record, others)) = rest.split_first() {
                    unseen.records.push(record.clone()?)?;
                    rest = others;
                }
            }
        }
    }
    Ok(unseen)
}

/// Returns the error with which the plan refuses to list a member, if it does, and then adds the member to
/// `unseen`. It allocates nothing if the plan is empty.
fn refuse_member(
    path: &DavPath,
    plan: &Plan,
    entry: &DirEntry,
    unseen: &mut Unseen,
) -> FsResult<Option<FsError>>
    requires { IsSegment entry.now.name }
    ensures error { IfOk result (λ error. error ≡ refusal_for Op.Entry (member path.now.key entry.now.name) (plan_in plan.now.queues)) }
    ensures recorded { IfOk result (λ error. unseen.new.records.items ≡ unseen.old.records.items ++ hidden_record path.now entry.now.name error) }
    ensures refused { IfOk result (λ error. map slot_call unseen.new.refused.items ≡ map slot_call unseen.old.refused.items ++ refused_call path.now.key entry.now.name error) }
    ensures err { IfErr result (λ e. e ≡ FsError.Memory) }
{
    if plan.is_empty() {
        return Ok(None);
    }
    let alloc = plan.allocator();
    let mut member = path.clone()?;
    member.push_segment(entry.name.as_str())?;
    let paths = Paths::one(member);
    let slot = Slot::of_call(Op::Entry, paths.as_slice())?;
    let Some(error) = plan.first(&slot) else {
        return Ok(None);
    };
    unseen.records.push(Record {
        op: Op::Entry,
        paths,
        outcome: Outcome::Refused(error),
        statuses: Items::from_vec(Vec::new(alloc)),
    })?;
    unseen.refused.push(slot)?;
    Ok(Some(error))
}
