//! How both slots get one number.
ghost use Rattle.std.specs.Prelude.{◌≡◌, true, OnOk, OnErr};
ghost use Rattle.sqlite_disk.specs.Disk.{CountsFault};
ghost use Rattle.sqlite_wal.specs.Reads.{AreClean};
ghost use Rattle.dav_last.specs.Crashes.{LeavesOnly, LeavesFirstOrKeepsSecond, StillNames, faults_in};

use crate::image::{LEN, image_of};
use crate::reading::read_slot;
use sqlite_disk::{Disk, Files};
use std::io;

/// Writes a number to both slots, one after the other, and brings each to the disk. It begins with the slot that names
/// less, so that after a crash in between the other one still names what it did.
///
/// It is an error if a disk fails. One of the slots still names the greatest number that was there, or names the new one.
pub fn replace_both<D: Disk>(files: &mut Files<D>, key: u64, number: u64) -> io::Result<()>
    requires log { D.Disk.is_usable files.old.log ≡ true }
    requires db { D.Disk.is_usable files.old.db ≡ true }
    ensures log { OnOk result (LeavesOnly D.Disk key number files.new.log) }
    ensures db { OnOk result (LeavesOnly D.Disk key number files.new.db) }
    ensures log_usable { OnOk result (D.Disk.is_usable files.new.log ≡ true) }
    ensures db_usable { OnOk result (D.Disk.is_usable files.new.db ≡ true) }
    ensures clean { AreClean D.Disk files.new.log files.new.db → AreClean D.Disk files.old.log files.old.db }
    ensures still { OnErr result (StillNames D.Disk key number (files.old.log, files.old.db) (files.new.log, files.new.db)) }
    ensures faults { CountsFault result (faults_in D.Disk (files.old.log, files.old.db)) (faults_in D.Disk (files.new.log, files.new.db)) }
{
    let log = read_slot(&mut files.log, key)?;
    let db = read_slot(&mut files.db, key)?;
    if log.names_more(db) {
        replace_in_order(&mut files.db, &mut files.log, key, number)
    } else {
        replace_in_order(&mut files.log, &mut files.db, key, number)
    }
}

/// Writes a number to one slot and then to another one.
fn replace_in_order<D: Disk>(first: &mut D, second: &mut D, key: u64, number: u64) -> io::Result<()>
    requires first { D.Disk.is_usable first.old ≡ true }
    requires second { D.Disk.is_usable second.old ≡ true }
    ensures first { OnOk result (LeavesOnly D.Disk key number first.new) }
    ensures second { OnOk result (LeavesOnly D.Disk key number second.new) }
    ensures first_usable { OnOk result (D.Disk.is_usable first.new ≡ true) }
    ensures second_usable { OnOk result (D.Disk.is_usable second.new ≡ true) }
    ensures first_calm { D.Disk.is_clean first.new ≡ D.Disk.is_clean first.old }
    ensures second_calm { D.Disk.is_clean second.new ≡ D.Disk.is_clean second.old }
    ensures kept { OnErr result (LeavesFirstOrKeepsSecond D.Disk key number first.new second.old second.new) }
    ensures faults { CountsFault result (faults_in D.Disk (first.old, second.old)) (faults_in D.Disk (first.new, second.new)) }
{
    replace(first, key, number)?;
    replace(second, key, number)
}

/// Makes a number the only thing that a slot names, now and after a crash.
fn replace<D: Disk>(disk: &mut D, key: u64, number: u64) -> io::Result<()>
    requires { D.Disk.is_usable disk.old ≡ true }
    ensures only { OnOk result (LeavesOnly D.Disk key number disk.new) }
    ensures usable { OnOk result (D.Disk.is_usable disk.new ≡ true) }
    ensures calm { D.Disk.is_clean disk.new ≡ D.Disk.is_clean disk.old }
    ensures faults { CountsFault result (D.Disk.faults disk.old) (D.Disk.faults disk.new) }
{
    disk.set_len(LEN)?;
    disk.write_at(0, &image_of(key, number))?;
    disk.sync()
}
