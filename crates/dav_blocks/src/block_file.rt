//! A data file, of which each run that is in use keeps its bytes.
ghost use Rattle.std.specs.Prelude.{◌≡◌, ◌≤◌, ◌<◌, ◌+◌, ◌^◌, ℕ, List, [], All, length, true, false, is_ok, IsErr, IfOk, IfErr, OnOk, OnErr};
ghost use Rattle.sqlite_disk.specs.Disk.{Only};
ghost use Rattle.sqlite_disk.specs.Tally.{CountsRefusal};
ghost use Rattle.dav_pieces.specs.Pieces.{bytes_at};
ghost use Rattle.dav_space.specs.Ranges.{is_covered, KeepsClear, KeepsUnused};
ghost use Rattle.dav_space.specs.Space.{unused};
ghost use Rattle.dav_blocks.specs.Runs.{KeepsBytes, IsNextRun, IsRoomLen};

use crate::run::Run;
use crate::settle::settle;
use dav_space::{LIMIT, Range, Space, outside};
use sqlite_disk::Disk;
use std::alloc::{AllocError, Global};
use std::io;
use std::snapshot::Snapshot;

/// A data file on a disk. Bytes are written only where nothing is in use.
#[derive(Drop)]
pub struct BlockFile<D: Disk> {
    disk: D,
    /// What is unused.
    space: Space,
    /// Where the bytes end that have been written.
    end: usize,
    /// Where they ended at the last sync.
    synced: usize,
    /// Whether no call has changed the file since.
    settled: bool,
    /// Whether the file had more bytes when it was opened, which are still there.
    has_excess: bool,
    /// What was unused at the last sync, or after the last sweep since. For contracts only.
    at_sync: Snapshot<Space>,
    ghost within: { end ≤ length (D.Disk.seen disk) },
    ghost limited: { end < 2 ^ 63 },
    ghost before: { synced ≤ end },
    ghost opened: { KeepsClear (unused at_sync.value) (unused space) },
    ghost survives: { (c : List ℕ) → D.Disk.may_leave disk c → KeepsBytes (unused at_sync.value) synced (D.Disk.seen disk) c },
    ghost unchanged: { settled ≡ true → (c : List ℕ) → D.Disk.may_leave disk c → c ≡ D.Disk.seen disk },
}

impl<D: Disk> BlockFile<D> {
    ghost use Rattle.dav_blocks.specs.Blocks.{disk_of, data_of, may_leave, is_usable, is_honest, is_settled, tally_of, in_use, used_bytes, is_safe, IsFree};
    ghost use Rattle.dav_blocks.specs.Blocks.{KeepsBlocks, ChangesOnly, AreWritten, ReservesRoom, HasFailed, HasCause, HasReadCause, TellsRoom, CutsOrFails, end_of};
    ghost use Rattle.dav_blocks.specs.Settling.{HasNotSettled, IsUnharmed, KeepsFirst};

    /// Opens the data file of which all bytes up to a place are in use. What is behind them is unused. It stays in the
    /// file until it is written over, or until [`BlockFile::trim`]: an honest disk has the same bytes afterwards.
    ///
    /// It is an error if the file is shorter, or the disk fails. The disk comes back with the error.
    pub fn open(alloc: Global, disk: D, end: usize) -> Result<BlockFile<D>, (io::Error, D)>
        requires usable { D.Disk.is_usable disk ≡ true }
        requires below { end ≤ LIMIT }
        ensures used { IfOk result (λ it. (at n : ℕ) → at + n ≤ end → in_use it at n ≡ true) }
        ensures safe { IfOk result (λ it. (at n : ℕ) → at + n ≤ end → is_safe it at n ≡ true) }
        ensures honest { IfOk result (λ it. is_honest it ≡ true → D.Disk.is_clean disk ≡ true) }
        ensures same { IfOk result (λ it. is_honest it ≡ true → data_of it ≡ D.Disk.seen disk) }
        ensures first { IfOk result (λ it. KeepsFirst end (D.Disk.seen disk) (data_of it)) }
        ensures free { IfOk result (λ it. (i : ℕ) → end ≤ i → i < LIMIT → IsFree it i) }
        ensures usable { IfOk result (λ it. is_usable it ≡ true) }
        ensures settled { IfOk result (λ it. is_settled it ≡ true) }
        ensures err { IfErr result (λ e. HasNotSettled D.Disk disk end e.1 e.0) }
        ensures unharmed { IfErr result (λ e. IsUnharmed D.Disk disk e.1) }
    {
        let mut disk = disk;
        if let Err(error) = settle(&mut disk, end) {
            return Err((error, disk));
        }
        let space = Space::behind(alloc, end);
        let at_sync = Snapshot::of(&space);
        Ok(BlockFile {
            disk,
            space,
            end,
            synced: end,
            settled: true,
            has_excess: true,
            at_sync,
        })
    }

    /// Writes the first of the bytes to the next unused run: all, unless the run is shorter. After an error
    /// nothing in use has changed.
    pub fn write(&mut self, bytes: &[u8]) -> io::Result<Run>
        requires { 0 < length bytes.now }
        ensures some { IfOk result (λ run. 0 < run.len) }
        ensures written { IfOk result (λ run. AreWritten bytes.now run self.new) }
        ensures whole { IfOk result (λ run. IsNextRun (length bytes.now) run self.new.space) }
        ensures only { IfOk result (λ run. ChangesOnly run.at run.len self.old self.new) }
        ensures kept { KeepsBlocks self.old self.new }
        ensures free { OnErr result (KeepsUnused (unused self.old.space) (unused self.new.space)) }
        ensures err { OnErr result (HasCause self.old self.new) }
        ensures room { IfErr result (λ e. TellsRoom e self.old self.new) }
        ensures stopped { is_usable self.old ≡ false → IsErr result }
        ensures usable { is_usable self.new ≡ is_usable self.old }
        ensures honest { is_honest self.new ≡ is_honest self.old }
    {
        if !self.disk.may_be_used() {
            return Err(io::ErrorKind::Other.into());
        }
        let (at, len) = self.space.next(bytes.len());
        if len == 0 {
            return Err(io::ErrorKind::StorageFull.into());
        }
        self.settled = false;
        self.disk.write_at(at, &bytes[..len])?;
        self.space.take_next(len);
        self.end = self.end.max(at + len);
        Ok(Run { at, len })
    }

    /// Writes the first of the bytes to the room that begins at a place, as many as it has, and returns how many:
    /// 0 if there is no room. After an error nothing in use has changed.
    pub fn write_behind(&mut self, at: usize, bytes: &[u8]) -> io::Result<usize>
        ensures written { IfOk result (λ len. 0 < len → AreWritten bytes.now (record { at = at; len = len }) self.new) }
        ensures whole { IfOk result (λ len. IsRoomLen at (length bytes.now) len self.old.space) }
        ensures only { IfOk result (λ len. ChangesOnly at len self.old self.new) }
        ensures kept { KeepsBlocks self.old self.new }
        ensures free { OnErr result (self.new.space ≡ self.old.space) }
        ensures err { OnErr result (HasFailed self.old self.new) }
        ensures room { IfErr result (λ e. CountsRefusal {T = Unit} (Err e) (tally_of self.old) (tally_of self.new)) }
        ensures tally { IfOk result (λ len. tally_of self.new ≡ tally_of self.old) }
        ensures usable { is_usable self.new ≡ is_usable self.old }
        ensures honest { is_honest self.new ≡ is_honest self.old }
    {
        let Some((number, len)) = self.space.room(at, bytes.len()) else {
            return Ok(0);
        };
        if len == 0 {
            return Ok(0);
        }
        if !self.disk.may_be_used() {
            return Err(io::ErrorKind::Other.into());
        }
        self.settled = false;
        self.disk.write_at(at, &bytes[..len])?;
        self.space.take_room(number, len);
        self.end = self.end.max(at + len);
        Ok(len)
    }

    /// Reserves a room of at most `n` bytes behind the run that was written last.
    pub fn make_room(&mut self, n: usize)
        ensures made { ReservesRoom n self.old self.new }
        ensures disk { disk_of self.new ≡ disk_of self.old }
        ensures settled { is_settled self.new ≡ is_settled self.old }
        ensures kept { KeepsBlocks self.old self.new }
        ensures usable { is_usable self.new ≡ is_usable self.old }
        ensures honest { is_honest self.new ≡ is_honest self.old }
    {
        self.space.make_room(n);
    }

    /// Fills the buffer with the bytes from a place on. Fails only if an earlier sync has failed, or the disk fails,
    /// as where the file ends before.
    pub fn read(&mut self, at: usize, buf: &mut [u8]) -> io::Result<()>
        ensures bytes { OnOk result (is_honest self.new ≡ true → buf.new ≡ bytes_at (data_of self.old) at (length buf.old)) }
        ensures same { data_of self.new ≡ data_of self.old }
        ensures space { self.new.space ≡ self.old.space }
        ensures kept { KeepsBlocks self.old self.new }
        ensures settled { is_settled self.new ≡ is_settled self.old }
        ensures err { IfErr result (λ e. HasReadCause at (length buf.old) e self.old self.new) }
        ensures stopped { is_usable self.old ≡ false → IsErr result }
        ensures usable { is_usable self.new ≡ is_usable self.old }
        ensures honest { is_honest self.new ≡ true → is_honest self.old ≡ true }
    {
        if !self.disk.may_be_used() {
            return Err(io::ErrorKind::Other.into());
        }
        self.disk.read_at(at, buf)
    }

    /// Brings all that was written to the disk. After an error every later call fails.
    pub fn sync(&mut self) -> io::Result<()>
        ensures safe { OnOk result ((at n : ℕ) → in_use self.old at n ≡ true → is_safe self.new at n ≡ true) }
        ensures durable { OnOk result (Only (data_of self.new) (may_leave self.new)) }
        ensures settled { OnOk result (is_settled self.new ≡ true) }
        ensures same { data_of self.new ≡ data_of self.old }
        ensures space { self.new.space ≡ self.old.space }
        ensures kept { KeepsBlocks self.old self.new }
        ensures err { OnErr result (HasFailed self.old self.new) }
        ensures room { CountsRefusal result (tally_of self.old) (tally_of self.new) }
        ensures usable { is_usable self.new ≡ is_ok result }
        ensures honest { is_honest self.new ≡ is_honest self.old }
    {
        if !self.disk.may_be_used() {
            return Err(io::ErrorKind::Other.into());
        }
        if self.settled {
            self.note_synced();
            return Ok(());
        }
        self.disk.sync()?;
        self.settled = true;
        self.note_synced();
        Ok(())
    }

    /// Notes that everything in use is on the disk.
    fn note_synced(&mut self)
        requires { self.old.settled ≡ true }
        ensures safe { (at n : ℕ) → in_use self.old at n ≡ true → is_safe self.new at n ≡ true }
        ensures kept { KeepsBlocks self.old self.new }
        ensures disk { self.new.disk ≡ self.old.disk }
        ensures space { self.new.space ≡ self.old.space }
        ensures settled { self.new.settled ≡ true }
    {
        self.synced = self.end;
        self.at_sync = Snapshot::of(&self.space);
    }

    /// Gives up everything that is in none of these ranges, so that its space is used again, and returns whether
    /// it did. It does so only if everything is on the disk, and there is enough memory.
    pub fn keep_only(&mut self, alloc: Global, used: Vec<Range>) -> bool
        requires { All (λ r. r.end ≤ LIMIT) used.items }
        ensures used { (at n : ℕ) → is_covered used.items at n ≡ true → in_use self.old at n ≡ true → in_use self.new at n ≡ true }
        ensures safe { (at n : ℕ) → is_covered used.items at n ≡ true → is_safe self.old at n ≡ true → is_safe self.new at n ≡ true }
        ensures rest { result ≡ true → (i : ℕ) → i < LIMIT → is_covered used.items i 1 ≡ false → in_use self.new i 1 ≡ false }
        ensures free { result ≡ true → (i : ℕ) → i < LIMIT → is_covered used.items i 1 ≡ false → IsFree self.new i }
        ensures disk { result ≡ true → Only (data_of self.old) (may_leave self.old) }
        ensures settled { result ≡ true → is_settled self.new ≡ true }
        ensures none { result ≡ false → self.new ≡ self.old }
        ensures end { self.new.synced ≡ self.old.synced }
        ensures same { data_of self.new ≡ data_of self.old }
        ensures usable { is_usable self.new ≡ is_usable self.old }
        ensures honest { is_honest self.new ≡ is_honest self.old }
    {
        if !self.settled {
            return false;
        }
        let Ok(space) = outside(alloc, used) else {
            return false;
        };
        self.at_sync = Snapshot::of(&space);
        self.space = space;
        true
    }

    /// Cuts off what was behind everything in use when the file was opened, unless that was done. If the disk fails, it
    /// stays there.
    pub fn trim(&mut self)
        ensures kept { KeepsBlocks self.old self.new }
        ensures space { self.new.space ≡ self.old.space }
        ensures end { end_of self.new ≡ end_of self.old }
        ensures synced { self.new.synced ≡ self.old.synced }
        ensures usable { is_usable self.new ≡ is_usable self.old }
        ensures honest { is_honest self.new ≡ is_honest self.old }
        ensures faults { self.old.has_excess ≡ true → is_usable self.old ≡ true → CutsOrFails self.old self.new }
    {
        if !self.has_excess || !self.disk.may_be_used() {
            return;
        }
        self.settled = false;
        if self.disk.set_len(self.end).is_ok() {
            self.has_excess = false;
        }
    }

    /// Returns where the bytes end that a crash leaves as they are, with what that says.
    pub fn synced(&self) -> usize
        ensures value { result ≡ self.now.synced }
        ensures survives { (c : List ℕ) → may_leave self.now c → (at n : ℕ) → is_safe self.now at n ≡ true → bytes_at c at n ≡ bytes_at (data_of self.now) at n }
        ensures within { (c : List ℕ) → may_leave self.now c → result ≤ length c }
        ensures small { result < 2 ^ 63 }
        ensures settled { is_settled self.now ≡ true → (c : List ℕ) → may_leave self.now c → c ≡ data_of self.now }
    {
        self.synced
    }

    /// Returns the disk.
    pub fn disk(&self) -> &D
        ensures { result.now ≡ disk_of self.now }
    {
        &self.disk
    }

    /// Returns how many bytes are in use: those before the last unused range that are in no other one.
    pub fn used(&self) -> usize
        ensures { result ≡ used_bytes self.now }
    {
        self.space.used()
    }
}
