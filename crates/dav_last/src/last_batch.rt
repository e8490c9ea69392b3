//! The number of the last batch, as it is kept while a store runs.
ghost use Rattle.std.specs.Prelude.{◌≡◌, ◌≤◌, ◌<◌, ◌^◌, ◌↔◌, max, true, false, IsErr, IfOk, IfErr, OnOk, MatchResult};
ghost use Rattle.sqlite_disk.specs.Disk.{CountsFault, MoreFaults};
ghost use Rattle.sqlite_wal.specs.Reads.{AreClean};
ghost use Rattle.dav_last.specs.Images.{image_of_number};
ghost use Rattle.dav_last.specs.Slots.{last_in};
ghost use Rattle.dav_last.specs.Crashes.{LeavesOnly, LeavesWhole, LeavesMixes, IsMixingType, StillNames, faults_in};
ghost use Rattle.dav_last.specs.declared.reading.Last.TheVariants.{Number};

use crate::image::image_of;
use crate::replace::replace_both;
use sqlite_disk::{Disk, Files};
use std::io::{self, ErrorKind};
use std::mem;

/// The two slots of a folder, and the number of its last batch. The number only rises.
#[derive(Drop)]
pub struct LastBatch<D: Disk> {
    /// The slot that is written.
    unsynced: D,
    /// The slot that stays as it is.
    synced: D,
    key: u64,
    /// The greatest number that was noted.
    number: u64,
    /// The number that the synced slot names.
    kept: u64,
    /// Whether a slot names the number, so that there is nothing to write.
    is_named: bool,
    /// Whether each slot names the number by itself, also after a crash.
    is_in_both: bool,
    ghost usable: { D.Disk.is_usable synced ≡ true },
    ghost fits: { number < 2 ^ 64 },
    ghost below: { kept ≤ number },
    ghost safe: { LeavesOnly D.Disk key kept synced },
    ghost written: { is_named ≡ true → kept < number → D.Disk.seen unsynced ≡ image_of_number key number },
    ghost named: { is_named ≡ true → last_in key (D.Disk.seen unsynced) (D.Disk.seen synced) ≡ Number number },
    ghost whole: { LeavesWhole D.Disk unsynced },
    ghost noted: { is_in_both ≡ true → kept ≡ number },
    ghost both: { is_in_both ≡ true → LeavesOnly D.Disk key number unsynced },
    ghost mixed: { IsMixingType D.Disk → LeavesMixes D.Disk key number unsynced },
}

impl<D: Disk> LastBatch<D> {
    ghost use Rattle.dav_last.specs.Batches.{unsynced_of, synced_of, number_of, kept_of, key_of, is_usable, faults_of, Names, Survives, IsInBoth, HasCleanSlots, IsWritten, IsCrashSafe, KeepsOther};

    /// Writes a number to both slots, one after the other, and brings each to the disk.
    ///
    /// It is an error if a disk fails. The files come back with the error. One of them still names the greatest number
    /// that was there, or names the new one.
    pub fn begin(
        files: Files<D>,
        key: u64,
        number: u64,
    ) -> Result<LastBatch<D>, (io::Error, Files<D>)>
        requires log { D.Disk.is_usable files.log ≡ true }
        requires db { D.Disk.is_usable files.db ≡ true }
        ensures number { IfOk result (λ it. number_of it ≡ number) }
        ensures key { IfOk result (λ it. key_of it ≡ key) }
        ensures both { IfOk result (λ it. IsInBoth number it) }
        ensures usable { IfOk result (λ it. is_usable it ≡ true) }
        ensures clean { IfOk result (λ it. HasCleanSlots it → AreClean D.Disk files.log files.db) }
        ensures kept { IfOk result (λ it. kept_of it ≡ number) }
        ensures named { IfOk result (λ it. Names number it) }
        ensures safe { IfOk result (λ it. IsCrashSafe it) }
        ensures still { IfErr result (λ e. StillNames D.Disk key number (files.log, files.db) (e.1.log, e.1.db)) }
        ensures faults { IfOk result (λ it. faults_of it ≡ faults_in D.Disk (files.log, files.db)) }
        ensures err { IfErr result (λ e. MoreFaults (faults_in D.Disk (files.log, files.db)) (faults_in D.Disk (e.1.log, e.1.db))) }
    {
        let mut files = files;
        if let Err(error) = replace_both(&mut files, key, number) {
            return Err((error, files));
        }
        let Files { log, db } = files;
        Ok(LastBatch {
            unsynced: log,
            synced: db,
            key,
            number,
            kept: number,
            is_named: true,
            is_in_both: true,
        })
    }

    /// Notes the number of a batch that is kept, unless a greater one was noted. It writes to the unsynced slot, and does
    /// not wait for the disk. The write needs no room: the slot has its length already.
    ///
    /// It is an error if the disk fails, or an earlier sync has failed. After a write that failed the next call writes
    /// again.
    pub fn note(&mut self, number: u64) -> io::Result<()>
        ensures number { is_usable self.old ≡ true → number_of self.new ≡ max (number_of self.old) number }
        ensures named { OnOk result (Names (number_of self.new) self.new) }
        ensures safe { IsCrashSafe self.new }
        ensures other { synced_of self.new ≡ synced_of self.old }
        ensures kept { kept_of self.new ≡ kept_of self.old }
        ensures key { key_of self.new ≡ key_of self.old }
        ensures faults { is_usable self.old ≡ true → CountsFault result (faults_of self.old) (faults_of self.new) }
        ensures stopped { is_usable self.old ≡ false → IsErr result × (self.new ≡ self.old) }
        ensures usable { is_usable self.new ≡ is_usable self.old }
        ensures clean { HasCleanSlots self.new ↔ HasCleanSlots self.old }
    {
        if !self.unsynced.may_be_used() {
            return Err(ErrorKind::Other.into());
        }
        if number > self.number {
            self.number = number;
            self.is_named = false;
            self.is_in_both = false;
        }
        self.write()
    }

    /// Writes the number to the unsynced slot, unless a slot names it.
    fn write(&mut self) -> io::Result<()>
        requires { is_usable self.old ≡ true }
        ensures named { OnOk result (self.new.is_named ≡ true) }
        ensures written { OnOk result (self.old.is_named ≡ false → IsWritten self.new) }
        ensures same { (self.new.synced ≡ self.old.synced) × (self.new.key ≡ self.old.key) × (self.new.number ≡ self.old.number) × (self.new.kept ≡ self.old.kept) }
        ensures faults { CountsFault result (faults_of self.old) (faults_of self.new) }
        ensures usable { is_usable self.new ≡ true }
        ensures clean { D.Disk.is_clean (unsynced_of self.new) ≡ D.Disk.is_clean (unsynced_of self.old) }
    {
        if self.is_named {
            return Ok(());
        }
        self.is_in_both = false;
        self.unsynced.write_at(0, &image_of(self.key, self.number))?;
        self.is_named = true;
        Ok(())
    }

    /// Brings the number to the disk, unless it is there, and swaps the slots.
    ///
    /// It is an error if the disk fails, or an earlier sync has failed. After a sync that failed every later call fails,
    /// and makes no call of the disk.
    pub fn sync(&mut self) -> io::Result<()>
        ensures survives { OnOk result (Survives (number_of self.new) self.new) }
        ensures only { OnOk result (LeavesOnly D.Disk (key_of self.new) (number_of self.new) (synced_of self.new)) }
        ensures named { OnOk result (Names (number_of self.new) self.new) }
        ensures safe { IsCrashSafe self.new }
        ensures other { KeepsOther result self.old self.new }
        ensures kept { MatchResult result (λ _. kept_of self.new ≡ number_of self.new) (λ _. kept_of self.new ≡ kept_of self.old) }
        ensures number { number_of self.new ≡ number_of self.old }
        ensures key { key_of self.new ≡ key_of self.old }
        ensures faults { is_usable self.old ≡ true → CountsFault result (faults_of self.old) (faults_of self.new) }
        ensures stopped { is_usable self.old ≡ false → IsErr result × (self.new ≡ self.old) }
        ensures usable { OnOk result (is_usable self.new ≡ true) }
        ensures clean { HasCleanSlots self.new ↔ HasCleanSlots self.old }
    {
        if !self.unsynced.may_be_used() {
            return Err(ErrorKind::Other.into());
        }
        self.write()?;
        if self.kept < self.number {
            self.unsynced.sync()?;
            mem::swap(&mut self.unsynced, &mut self.synced);
            self.kept = self.number;
        }
        Ok(())
    }

    /// Brings the number to both slots and to the disk, one slot after the other, unless it is there. Then each slot names it
    /// by itself.
    ///
    /// It is an error if the disk fails, or an earlier sync has failed. One slot still names the number that was synced last,
    /// or names this one.
    pub fn sync_both(&mut self) -> io::Result<()>
        ensures both { OnOk result (IsInBoth (number_of self.new) self.new) }
        ensures safe { IsCrashSafe self.new }
        ensures kept { kept_of self.old ≤ kept_of self.new }
        ensures number { number_of self.new ≡ number_of self.old }
        ensures key { key_of self.new ≡ key_of self.old }
        ensures faults { is_usable self.old ≡ true → CountsFault result (faults_of self.old) (faults_of self.new) }
        ensures stopped { is_usable self.old ≡ false → IsErr result × (self.new ≡ self.old) }
        ensures usable { OnOk result (is_usable self.new ≡ true) }
        ensures clean { HasCleanSlots self.new ↔ HasCleanSlots self.old }
    {
        self.sync()?;
        if self.is_in_both {
            return Ok(());
        }
        self.is_named = false;
        self.write()?;
        self.unsynced.sync()?;
        self.is_in_both = true;
        Ok(())
    }

    /// Returns whether no sync has failed.
    pub fn may_be_used(&self) -> bool
        ensures { result ≡ is_usable self.now }
    {
        self.unsynced.may_be_used()
    }

    /// Returns the greatest number that was noted.
    pub fn number(&self) -> u64
        ensures number { result ≡ number_of self.now }
        ensures safe { IsCrashSafe self.now }
    {
        self.number
    }
}
