//! A disk whose file grows only while a reserve is filled.
ghost use Rattle.std.specs.Prelude.{◌≡◌, ◌≤◌, ◌<◌, ◌+◌, ◌^◌, ◌||◌, ◌↔◌, ◌⊎◌, ℕ, List, min, true, false, length, is_ok, IsTrue, IsErr, IfErr, OnOk, OnErr};
ghost use Rattle.sqlite_disk.specs.Disk.{Holds, Torn, Mixed, Cut, Only, CountsFault, MoreFaults};
ghost use Rattle.sqlite_disk.specs.Refusal.{is_no_room, finds_no_room};
ghost use Rattle.sqlite_disk.specs.Tally.{both_counts, CountsRefusal};
ghost use Rattle.dav_reserve.specs.Reserves.{GivesBack, GivesUp, FindsNoRoom, StillCounts, CountsNoRoom, is_known_empty, is_known_filled};

use crate::Roomy;
use crate::fill::fill;
use crate::reserve::Reserve;
use sqlite_disk::{Disk, Tally, is_no_room};
use std::io;

/// A disk that keeps room back in a second file, the reserve.
///
/// It passes each call on to the disk. It passes a write that may make the file longer on only while the reserve is
/// filled. When a write finds no room, it empties the reserve, so that others have its room.
///
/// A sync and a change of the length fill the reserve, too, but not while the disk is full: then only a write that may
/// make the file longer tries. Before the first sync they leave the reserve alone: a start syncs the file while it
/// still only reads, and then empties the reserve for the database that it opens.
#[derive(Drop)]
pub struct Reserved<D: Disk, R: Disk> {
    inner: D,
    reserve: R,
    /// How many bytes are to be kept back.
    room: usize,
    /// What is known of the reserve.
    known: Reserve,
    /// How long the file of `inner` is at least, as far as its calls have said. A write that ends there or before does
    /// not make it longer.
    end: usize,
    /// Whether a write found no room, and none that may have made the file longer has succeeded since.
    is_full: bool,
    /// Whether a sync has succeeded.
    has_synced: bool,
    /// How many writes failed because the reserve could not be filled.
    unfilled: u64,
    /// How many of them found no room.
    no_room: u64,
    ghost filled: { is_known_filled known ≡ true → room ≤ length (R.Disk.seen reserve) },
    ghost empty: { is_known_empty known ≡ true → length (R.Disk.seen reserve) ≡ 0 },
    ghost usable: { R.Disk.is_usable reserve ≡ true },
    ghost within: { D.Disk.is_clean inner ≡ true → end ≤ length (D.Disk.seen inner) },
}

impl<D: Disk, R: Disk> Reserved<D, R> {
    ghost use Rattle.dav_reserve.specs.Reserved.{inner_of, reserve_of, room_of, end_of, is_filled, is_full, has_synced, unfilled_of, no_room_of, faults_of, tally_of, IsFresh, HasRoom, KeepsRoom, KeepsInner, HasCause, Refills, LeavesAlone, KeepsReserve, KeepsFrozen, MayLeaveAfter};

    /// Keeps so many bytes back for a disk. It leaves the reserve as it is. The next write that may make the file longer
    /// fills it, or a sync or a change of the length after the first sync.
    ///
    /// The file counts as empty until [`Disk::len`] is called, so until then each write fills the reserve.
    pub fn new(inner: D, reserve: R, room: usize) -> Reserved<D, R>
        requires { R.Disk.is_usable reserve ≡ true }
        ensures inner { inner_of result ≡ inner }
        ensures reserve { reserve_of result ≡ reserve }
        ensures room { room_of result ≡ room }
        ensures fresh { IsFresh result }
    {
        Reserved {
            inner,
            reserve,
            room,
            known: Reserve::Unknown,
            end: 0,
            is_full: false,
            has_synced: false,
            unfilled: 0,
            no_room: 0,
        }
    }

    /// Returns the disk to which calls are passed on.
    pub fn inner(&self) -> &D
        ensures { result.now ≡ inner_of self.now }
    {
        &self.inner
    }

    /// Returns the disk of the reserve.
    pub fn reserve(&self) -> &R
        ensures value { result.now ≡ reserve_of self.now }
        ensures filled { is_filled self.now ≡ true → HasRoom self.now }
    {
        &self.reserve
    }

    /// Writes the bytes at an offset, as [`Disk::write_at`] does, and says what becomes of the reserve.
    ///
    /// If the write may make the file longer, the reserve is filled first. Fails if that fails, and then writes nothing.
    /// Fails if the disk fails. If the error says that there is no room, the reserve has been emptied.
    pub fn write(&mut self, at: usize, bytes: &[u8]) -> io::Result<()>
        requires { IsTrue (D.Disk.is_usable (inner_of self.old)) }
        ensures room { KeepsRoom result self.old self.new }
        ensures filled { OnOk result (end_of self.old < at + length bytes.now → is_filled self.new ≡ true) }
        ensures kept { is_filled self.old ≡ true → finds_no_room result ≡ false → is_filled self.new ≡ true }
        ensures unfilled { finds_no_room result ≡ true → is_filled self.new ≡ false }
        ensures emptied { finds_no_room result ≡ true → GivesBack R.Disk (reserve_of self.old) (reserve_of self.new) }
        ensures cause { OnErr result (HasCause (at + length bytes.now) self.old self.new) }
        ensures refused { IfErr result (λ e. is_full self.new ≡ (is_full self.old || is_no_room e)) }
        ensures grown { OnOk result (end_of self.old < at + length bytes.now → is_full self.new ≡ false) }
        ensures inside { OnOk result (at + length bytes.now ≤ end_of self.old → is_full self.new ≡ is_full self.old) }
        ensures end { end_of self.old ≤ end_of self.new }
        ensures known { OnOk result (0 < length bytes.now → at + length bytes.now < 2 ^ 64 → at + length bytes.now ≤ end_of self.new) }
        ensures size { room_of self.new ≡ room_of self.old }
        ensures begun { has_synced self.new ≡ has_synced self.old }
        // What a disk's write promises.
        ensures written { OnOk result (0 < length bytes.now → Holds (D.Disk.seen (inner_of self.new)) at bytes.now) }
        ensures faults { CountsFault result (faults_of self.old) (faults_of self.new) }
        ensures tally { CountsRefusal result (tally_of self.old) (tally_of self.new) }
        ensures calm { D.Disk.is_clean (inner_of self.new) ≡ D.Disk.is_clean (inner_of self.old) }
        ensures fair { D.Disk.is_fair (inner_of self.new) ≡ D.Disk.is_fair (inner_of self.old) }
        ensures frozen { IsTrue (D.Disk.is_frozen (inner_of self.old)) → IsErr result × KeepsFrozen self.old self.new }
        ensures others { Torn at (length bytes.now) (D.Disk.seen (inner_of self.old)) (D.Disk.seen (inner_of self.new)) }
        ensures key { D.Disk.key_of (inner_of self.new) ≡ D.Disk.key_of (inner_of self.old) }
        ensures usable { IsTrue (D.Disk.is_usable (inner_of self.new)) }
        ensures mixing { D.Disk.is_mixing (inner_of self.new) ≡ D.Disk.is_mixing (inner_of self.old) }
        ensures mixed { IsTrue (D.Disk.is_mixing (inner_of self.old)) → at + length bytes.now < 2 ^ 64
            → MayLeaveAfter (Mixed at bytes.now) self.old self.new }
        ensures crash { MayLeaveAfter (Torn at (length bytes.now)) self.old self.new }
    {
        let grows = !is_within(at, bytes.len(), self.end);
        if grows {
            self.keep_room()?;
        }
        if let Err(error) = self.inner.write_at(at, bytes) {
            if is_no_room(&error) {
                self.is_full = true;
                self.give_back();
            }
            return Err(error);
        }
        if grows {
            self.is_full = false;
            if !bytes.is_empty() {
                self.end = at.saturating_add(bytes.len());
            }
        }
        Ok(())
    }

    /// Changes the length of the file, as [`Disk::set_len`] does, and says what becomes of the reserve.
    ///
    /// Fails if the disk does. Otherwise it tries to fill the reserve, unless the disk is full or was never synced, and
    /// succeeds even if that fails.
    pub fn resize(&mut self, len: usize) -> io::Result<()>
        requires { IsTrue (D.Disk.is_usable (inner_of self.old)) }
        ensures refills { OnOk result (has_synced self.old ≡ true → Refills self.old self.new) }
        ensures alone { LeavesAlone self.old self.new }
        ensures failed { OnErr result (KeepsReserve self.old self.new) }
        ensures full { is_full self.new ≡ true → (is_full self.old ≡ true) ⊎ FindsNoRoom R.Disk (reserve_of self.old) (reserve_of self.new) }
        ensures begun { has_synced self.new ≡ has_synced self.old }
        ensures end { end_of self.new ≡ min (end_of self.old) len }
        ensures size { room_of self.new ≡ room_of self.old }
        // What a disk's change of the length promises.
        ensures len { OnOk result (length (D.Disk.seen (inner_of self.new)) ≡ len) }
        ensures faults { CountsFault result (faults_of self.old) (faults_of self.new) }
        ensures tally { CountsRefusal result (tally_of self.old) (tally_of self.new) }
        ensures calm { D.Disk.is_clean (inner_of self.new) ≡ D.Disk.is_clean (inner_of self.old) }
        ensures fair { D.Disk.is_fair (inner_of self.new) ≡ D.Disk.is_fair (inner_of self.old) }
        ensures frozen { IsTrue (D.Disk.is_frozen (inner_of self.old)) → IsErr result × KeepsFrozen self.old self.new }
        ensures others { Cut len (D.Disk.seen (inner_of self.old)) (D.Disk.seen (inner_of self.new)) }
        ensures key { D.Disk.key_of (inner_of self.new) ≡ D.Disk.key_of (inner_of self.old) }
        ensures usable { IsTrue (D.Disk.is_usable (inner_of self.new)) }
        ensures crash { MayLeaveAfter (Cut len) self.old self.new }
    {
        // Bytes that it adds may be a hole, which has no room yet, so `end` stays before them.
        self.end = self.end.min(len);
        self.inner.set_len(len)?;
        self.refill();
        Ok(())
    }

    /// Brings the file to the disk, as [`Disk::sync`] does, and says what becomes of the reserve.
    ///
    /// Fails if the disk does. Otherwise it tries to fill the reserve, unless the disk is full or this is the first sync,
    /// and succeeds even if that fails.
    pub fn sync_all(&mut self) -> io::Result<()>
        requires { IsTrue (D.Disk.is_usable (inner_of self.old)) }
        ensures refills { OnOk result (has_synced self.old ≡ true → Refills self.old self.new) }
        ensures alone { LeavesAlone self.old self.new }
        ensures failed { OnErr result (KeepsReserve self.old self.new) }
        ensures full { is_full self.new ≡ true → (is_full self.old ≡ true) ⊎ FindsNoRoom R.Disk (reserve_of self.old) (reserve_of self.new) }
        ensures begun { OnOk result (has_synced self.new ≡ true) }
        ensures still { OnErr result (has_synced self.new ≡ has_synced self.old) }
        ensures end { end_of self.new ≡ end_of self.old }
        ensures size { room_of self.new ≡ room_of self.old }
        // What a disk's sync promises.
        ensures durable { OnOk result (Only (D.Disk.seen (inner_of self.old)) (D.Disk.may_leave (inner_of self.new))) }
        ensures faults { CountsFault result (faults_of self.old) (faults_of self.new) }
        ensures tally { CountsRefusal result (tally_of self.old) (tally_of self.new) }
        ensures calm { D.Disk.is_clean (inner_of self.new) ≡ D.Disk.is_clean (inner_of self.old) }
        ensures fair { D.Disk.is_fair (inner_of self.new) ≡ D.Disk.is_fair (inner_of self.old) }
        ensures frozen { IsTrue (D.Disk.is_frozen (inner_of self.old)) → IsErr result × KeepsFrozen self.old self.new }
        ensures seen { D.Disk.seen (inner_of self.new) ≡ D.Disk.seen (inner_of self.old) }
        ensures key { D.Disk.key_of (inner_of self.new) ≡ D.Disk.key_of (inner_of self.old) }
        ensures rot { D.Disk.is_rotten (inner_of self.new) ≡ D.Disk.is_rotten (inner_of self.old) }
        ensures usable { D.Disk.is_usable (inner_of self.new) ≡ is_ok result }
        ensures crash { (c : List ℕ) → D.Disk.may_leave (inner_of self.new) c → D.Disk.may_leave (inner_of self.old) c }
    {
        self.inner.sync()?;
        self.refill();
        self.has_synced = true;
        Ok(())
    }

    /// Tries to fill the reserve, unless it is filled, the disk is full or was never synced. If that fails, the reserve
    /// has been emptied, and no write counts as failed.
    fn refill(&mut self)
        ensures refills { has_synced self.old ≡ true → Refills self.old self.new }
        ensures alone { LeavesAlone self.old self.new }
        ensures full { is_full self.new ≡ true → (is_full self.old ≡ true) ⊎ FindsNoRoom R.Disk (reserve_of self.old) (reserve_of self.new) }
        ensures kept { KeepsInner self.old self.new }
        ensures begun { has_synced self.new ≡ has_synced self.old }
        ensures unfilled { unfilled_of self.new ≡ unfilled_of self.old }
        ensures no_room { no_room_of self.new ≡ no_room_of self.old }
    {
        if self.has_synced && !self.is_full {
            let _ = self.fill_reserve();
        }
    }

    /// Fills the reserve, unless it is filled. Fails if its disk does, and then it has been emptied, and the write for
    /// which it was to be filled counts as failed.
    fn keep_room(&mut self) -> io::Result<()>
        ensures filled { OnOk result (is_filled self.new ≡ true) }
        ensures ok { OnOk result (self.new.is_full ≡ self.old.is_full) }
        ensures sound { OnOk result (R.Disk.faults (reserve_of self.new) ≡ R.Disk.faults (reserve_of self.old)) }
        ensures kept { KeepsInner self.old self.new }
        ensures begun { has_synced self.new ≡ has_synced self.old }
        ensures unfilled { CountsFault result (unfilled_of self.old) (unfilled_of self.new) }
        ensures no_room { CountsNoRoom result (no_room_of self.old) (no_room_of self.new) }
        ensures needed { OnErr result (is_filled self.old ≡ false) }
        ensures left { OnErr result (is_filled self.new ≡ false) }
        ensures emptied { OnErr result (GivesBack R.Disk (reserve_of self.old) (reserve_of self.new)) }
        ensures cause { OnErr result (MoreFaults (R.Disk.faults (reserve_of self.old)) (R.Disk.faults (reserve_of self.new))) }
        ensures refused { IfErr result (λ e. is_full self.new ≡ (is_full self.old || is_no_room e)) }
    {
        if let Err(error) = self.fill_reserve() {
            self.unfilled = self.unfilled.saturating_add(1);
            if is_no_room(&error) {
                self.no_room = self.no_room.saturating_add(1);
            }
            return Err(error);
        }
        Ok(())
    }

    /// Fills the reserve, unless it is filled. Fails if its disk does, and then it has been emptied.
    fn fill_reserve(&mut self) -> io::Result<()>
        ensures filled { OnOk result (is_filled self.new ≡ true) }
        ensures ok { OnOk result (self.new.is_full ≡ self.old.is_full) }
        ensures sound { OnOk result (R.Disk.faults (reserve_of self.new) ≡ R.Disk.faults (reserve_of self.old)) }
        ensures idle { is_filled self.old ≡ true → self.new ≡ self.old }
        ensures kept { KeepsInner self.old self.new }
        ensures begun { has_synced self.new ≡ has_synced self.old }
        ensures unfilled { unfilled_of self.new ≡ unfilled_of self.old }
        ensures no_room { no_room_of self.new ≡ no_room_of self.old }
        ensures needed { OnErr result (is_filled self.old ≡ false) }
        ensures left { OnErr result (is_filled self.new ≡ false) }
        ensures emptied { OnErr result (GivesUp R.Disk (reserve_of self.old) (reserve_of self.new)) }
        ensures refused { IfErr result (λ e. is_full self.new ≡ (is_full self.old || is_no_room e)) }
        ensures room { IfErr result (λ e. is_no_room e ≡ true → FindsNoRoom R.Disk (reserve_of self.old) (reserve_of self.new)) }
    {
        if matches!(self.known, Reserve::Filled) {
            return Ok(());
        }
        self.known = Reserve::Unknown;
        if let Err(error) = fill(&mut self.reserve, self.room) {
            if is_no_room(&error) {
                self.is_full = true;
            }
            self.give_back();
            return Err(error);
        }
        self.known = Reserve::Filled;
        Ok(())
    }

    /// Empties the reserve. If its disk fails, it may still have bytes.
    fn give_back(&mut self)
        ensures empty { GivesBack R.Disk (reserve_of self.old) (reserve_of self.new) }
        ensures counted { R.Disk.faults (reserve_of self.old) ≤ R.Disk.faults (reserve_of self.new) }
        ensures refused { StillCounts R.Disk (reserve_of self.old) (reserve_of self.new) }
        ensures filled { is_filled self.new ≡ false }
        ensures kept { KeepsInner self.old self.new }
        ensures begun { has_synced self.new ≡ has_synced self.old }
        ensures full { is_full self.new ≡ is_full self.old }
        ensures unfilled { unfilled_of self.new ≡ unfilled_of self.old }
        ensures no_room { no_room_of self.new ≡ no_room_of self.old }
    {
        self.known = empty(&mut self.reserve);
    }
}

/// Empties the file of a reserve, and returns what is known of it then.
fn empty<R: Disk>(reserve: &mut R) -> Reserve
    requires { R.Disk.is_usable reserve.old ≡ true }
    ensures known { is_known_empty result ≡ true → length (R.Disk.seen reserve.new) ≡ 0 }
    ensures filled { is_known_filled result ≡ false }
    ensures empty { GivesBack R.Disk reserve.old reserve.new }
    ensures counted { R.Disk.faults reserve.old ≤ R.Disk.faults reserve.new }
    ensures refused { StillCounts R.Disk reserve.old reserve.new }
    ensures usable { R.Disk.is_usable reserve.new ≡ true }
{
    match reserve.set_len(0) {
        Ok(()) => Reserve::Empty,
        Err(_) => Reserve::Unknown,
    }
}

/// Returns whether so many bytes from a place on end at `end` or before.
fn is_within(at: usize, len: usize, end: usize) -> bool
    ensures { IsTrue result ↔ (at + len ≤ end) }
{
    at <= end && len <= end - at
}

/// It shows what its disk shows, and adds to the counts the writes that failed because the reserve could not be filled.
impl<D: Disk, R: Disk> Disk for Reserved<D, R> {
    ghost seen = { λ r. D.Disk.seen r.inner };

    ghost may_leave = { λ r. D.Disk.may_leave r.inner };

    ghost is_usable = { λ r. D.Disk.is_usable r.inner };

    ghost faults = { λ r. D.Disk.faults r.inner + r.unfilled };

    ghost tally_of = { λ r. both_counts (D.Disk.tally_of r.inner) (record { caught = 0; refused = r.no_room }) };

    ghost is_rotten = { λ r. D.Disk.is_rotten r.inner };

    ghost key_of = { λ r. D.Disk.key_of r.inner };

    ghost is_frozen = { λ r. D.Disk.is_frozen r.inner };

    ghost is_clean = { λ r. D.Disk.is_clean r.inner };

    ghost is_fair = { λ r. D.Disk.is_fair r.inner };

    ghost fair_if_clean = { λ r. D.Disk.fair_if_clean r.inner };

    ghost seen_may_stay = { λ r. D.Disk.seen_may_stay r.inner };

    ghost is_mixing = { λ r. D.Disk.is_mixing r.inner };

    fn mixes(&self) -> bool {
        self.inner.mixes()
    }

    fn key(&self) -> u64 {
        self.inner.key()
    }

    fn tally(&self) -> Tally {
        self.inner.tally().plus(Tally {
            caught: 0,
            refused: self.no_room,
        })
    }

    fn may_be_used(&self) -> bool {
        self.inner.may_be_used()
    }

    fn len(&mut self) -> io::Result<usize> {
        let len = self.inner.len()?;
        self.end = len;
        Ok(len)
    }

    fn read_at(&mut self, at: usize, buf: &mut [u8]) -> io::Result<()> {
        self.inner.read_at(at, buf)
    }

    fn read_checked(&mut self, key: u64, want: u64, at: usize, buf: &mut [u8]) -> io::Result<()> {
        self.inner.read_checked(key, want, at, buf)
    }

    fn write_at(&mut self, at: usize, bytes: &[u8]) -> io::Result<()> {
        self.write(at, bytes)
    }

    fn set_len(&mut self, len: usize) -> io::Result<()> {
        self.resize(len)
    }

    fn sync(&mut self) -> io::Result<()> {
        self.sync_all()
    }
}

impl<D: Disk, R: Disk> Roomy for Reserved<D, R> {
    ghost is_full = { λ r. r.is_full };

    fn is_full(&self) -> bool {
        self.is_full
    }
}
