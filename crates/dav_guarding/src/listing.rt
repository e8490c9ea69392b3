//! How a policy changes a listing.
ghost use Rattle.std.specs.Prelude.{◌≡◌, [], ◌++◌, map, IfOk, IfErr};
ghost use Rattle.dav_resource.specs.PathText.{IsSegment};
ghost use Rattle.dav_store.specs.Members.{member};
ghost use Rattle.dav_wrapping.specs.Hiding.{hidden_record, HaveSegmentNames};
ghost use Rattle.dav_guarding.specs.Policy.{why_by, HidesRefused};

use crate::policy::Policy;
use dav_resource::{DavPath, DirEntry, FsError, FsResult, Items, Op, Outcome, Paths, Record};
use std::alloc::Global;

/// Hides each listed member whose entry the policy refuses, and returns the records of all members that are not
/// listed, in the order of the listing. `hidden` holds those of the members that were not listed before.
///
/// Fails only if memory runs out. The contents of the listing are then unspecified.
pub(crate) fn hide_members<P: Policy>(
    alloc: Global,
    path: &DavPath,
    policy: &P,
    listing: &mut [FsResult<DirEntry>],
    hidden: &[Record],
) -> FsResult<Vec<Record>>
    requires { HaveSegmentNames listing.old }
    ensures hidden { IfOk result (λ unseen. HidesRefused (P.refusals policy.now) path.now listing.old hidden.now listing.new unseen.items) }
    ensures err { IfErr result (λ e. e ≡ FsError.Memory) }
{
    let mut rest = hidden;
    let mut unseen = Vec::new(alloc);
    for shown in listing.iter_mut() {
        match shown {
            Ok(entry) => {
                if let Some(error) = hide_member(alloc, path, policy, entry, &mut unseen)? {
                    *shown = Err(error);
                }
            }
            Err(_) => {
                if let Some((record, others)) = rest.split_first() {
                    unseen.push(record.clone()?)?;
                    rest = others;
                }
            }
        }
    }
    Ok(unseen)
}

/// Returns the error with which the policy hides a member, if it does, and then adds its record to `unseen`.
fn hide_member<P: Policy>(
    alloc: Global,
    path: &DavPath,
    policy: &P,
    entry: &DirEntry,
    unseen: &mut Vec<Record>,
) -> FsResult<Option<FsError>>
    requires { IsSegment entry.now.name }
    ensures error { IfOk result (λ error. error ≡ why_by (P.refusals policy.now) (member path.now.key entry.now.name)) }
    ensures recorded { IfOk result (λ error. unseen.new.items ≡ unseen.old.items ++ hidden_record path.now entry.now.name error) }
    ensures err { IfErr result (λ e. e ≡ FsError.Memory) }
{
    let mut member = path.clone()?;
    member.push_segment(entry.name.as_str())?;
    let paths = Paths::one(member);
    if !policy.refuses(Op::Entry, paths.as_slice()) {
        return Ok(None);
    }
    let error = FsError::Forbidden;
    unseen.push(Record {
        op: Op::Entry,
        paths,
        outcome: Outcome::Refused(error),
        statuses: Items::from_vec(Vec::new(alloc)),
    })?;
    Ok(Some(error))
}
