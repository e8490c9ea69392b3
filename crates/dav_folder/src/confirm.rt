//! Claims that a start confirms.
ghost use Rattle.std.specs.Prelude.{◌≡◌, true};
ghost use Rattle.dav_folder.specs.Claims.{MeetsClaim};

use dav_data::{Claim, Unclaimed};
use dav_nodes::NumberedValue;
use dav_pieces::Body;
use dav_tree::Entry;
use sqlite_disk::Disk;

/// A claim that a start confirms of the rows that it reads. A store of other rows is not opened.
///
/// A database whose disk returns wrong bytes may have rows of which nothing was claimed, and only the type that makes a claim
/// can say so. [`Unclaimed`], which `main` names, claims nothing and confirms all rows. So each clause on a claim that holds
/// speaks of the runs of `main` whose start read rows that meet the claim.
pub trait Confirm: Claim {
    /// Returns whether a store meets the claim, if that holds: one with these resources and this key of its digests, whose last
    /// block ends at this place of the data file.
    fn confirms<D: Disk>(
        disk: &D,
        digest_key: u64,
        end: usize,
        rows: &[NumberedValue<Entry<Body>>],
    ) -> bool
        ensures sure { result ≡ true → Self.holds ≡ true → MeetsClaim Self.key (D.Disk.seen disk.now) digest_key end rows.now }
        ensures all { (Self.holds ≡ true → MeetsClaim Self.key (D.Disk.seen disk.now) digest_key end rows.now) → result ≡ true };
}

impl Confirm for Unclaimed {
    fn confirms<D: Disk>(
        _disk: &D,
        _digest_key: u64,
        _end: usize,
        _rows: &[NumberedValue<Entry<Body>>],
    ) -> bool {
        true
    }
}
