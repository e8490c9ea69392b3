//! What a server needs of a keeper.
ghost use Rattle.std.specs.Prelude.{OnOk, OnErr};
ghost use base.Stored.{Gv};
ghost use Rattle.dav_server.specs.Snapshots.{Snapshot, snapshot_at, saved_of, OnlySavedDiffers, KeepsOne};

use crate::{ExpiringLocks, TimedStore};
use std::io;

/// Keeps what a server has answered in a place that survives a crash, so that a later start finds it.
pub trait Keeper<F: TimedStore, L: ExpiringLocks> {
    /// A crash leaves what is in this snapshot, with its time and its number, while this is saved of the store
    /// (`saved_of`).
    ghost lasts: { Self → Gv → Snapshot F L → Type 0 };

    /// A crash leaves what is in one of these two snapshots, while this is saved of the store.
    ghost lasts_either: { Self → Gv → Snapshot F L → Snapshot F L → Type 0 };

    /// The second snapshot has the same as the first of what is kept, except the time and the number.
    ghost same: { Snapshot F L → Snapshot F L → Type 0 };

    /// The second keeper comes of the first one by calls. A keeper says here what they never change, also after an error.
    ghost follows: { Self → Self → Type 0 };

    /// Keeps what has changed since the last call. A server calls it after each batch, before it writes the answer.
    /// `now` is the time of the server, in whole seconds since 1970, and `last` the number of the last batch. While
    /// `in_backup`, somebody copies what is kept: so nothing of it that was kept at the begin of the backup is overwritten.
    ///
    /// Of the store, only what is saved of it changes. If nothing has changed of what is kept, a crash may leave what was
    /// kept before, with the time and the number of then. After an error a crash leaves what was kept before, or what was
    /// to be kept, and no further call may follow.
    fn keep(
        &mut self,
        store: &mut F,
        locks: &L,
        now: u64,
        last: u64,
        in_backup: bool,
    ) -> io::Result<()>
        ensures seen { OnlySavedDiffers (F.seen store.old) (F.seen store.new) }
        ensures follows { follows self.old self.new }
        ensures ok { OnOk result ((before : Snapshot F L) → lasts self.old (saved_of (F.seen store.old)) before
            → KeepsOne lasts same self.new (saved_of (F.seen store.new)) before (snapshot_at store.new locks.now now last)) }
        ensures err { OnErr result ((before : Snapshot F L) → lasts self.old (saved_of (F.seen store.old)) before
            → lasts_either self.new (saved_of (F.seen store.new)) before (snapshot_at store.new locks.now now last)) };

    /// What is in a snapshot is in one of two.
    ghost as_first: { (keeper : Self) (saved : Gv) (one other : Snapshot F L) → lasts keeper saved one → lasts_either keeper saved one other };

    ghost as_second: { (keeper : Self) (saved : Gv) (one other : Snapshot F L) → lasts keeper saved other → lasts_either keeper saved one other };

    /// A keeper comes of itself, and of what it came of in several steps.
    ghost follows_same: { (keeper : Self) → follows keeper keeper };

    ghost follows_both: { (one two three : Self) → follows one two → follows two three → follows one three };

    /// A snapshot has the same as itself.
    ghost same_as: { (snapshot : Snapshot F L) → same snapshot snapshot };
}
