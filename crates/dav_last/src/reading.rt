//! What the slots name.
ghost use Rattle.std.specs.Prelude.{◌≡◌, true, IfOk};
ghost use Rattle.sqlite_disk.specs.Disk.{CountsFault};
ghost use Rattle.sqlite_wal.specs.Reads.{IsClean, AreClean, OnlyReads, OnlyReadsBoth};
ghost use Rattle.dav_last.specs.Slots.{said_by, last_in, later, names_more};
ghost use Rattle.dav_last.specs.Crashes.{faults_in};

use crate::image::{LEN, number_in};
use sqlite_disk::{Disk, Files};
use std::io;

/// What one slot or both name.
#[derive(Clone, Copy, Debug)]
pub enum Last {
    /// There is no byte. Of both slots: one of them has none, and the other names no number.
    Nothing,
    /// There are bytes, and they name no number under this key: they are damaged, or belong to another folder. Of both
    /// slots: so it is of each.
    Unreadable,
    /// The greatest number that is named.
    Number(u64),
}

impl Last {
    /// Returns what two slots name together.
    fn later(self, other: Last) -> Last
        ensures { result ≡ later self other }
    {
        match (self, other) {
            (Last::Number(m), Last::Number(n)) => Last::Number(m.max(n)),
            (Last::Number(_), _) => self,
            (_, Last::Number(_)) => other,
            (Last::Unreadable, Last::Unreadable) => self,
            _ => Last::Nothing,
        }
    }

    /// Returns whether this slot names a number, and the other one a smaller number or none.
    pub(crate) fn names_more(self, other: Last) -> bool
        ensures { result ≡ names_more self other }
    {
        match (self, other) {
            (Last::Number(m), Last::Number(n)) => m > n,
            (Last::Number(_), _) => true,
            _ => false,
        }
    }
}

/// Reads what the slots name. It writes nothing.
///
/// It is an error if a disk fails.
pub fn read_last<D: Disk>(files: &mut Files<D>, key: u64) -> io::Result<Last>
    requires log { D.Disk.is_usable files.old.log ≡ true }
    requires db { D.Disk.is_usable files.old.db ≡ true }
    ensures last { IfOk result (λ last. AreClean D.Disk files.new.log files.new.db → last ≡ last_in key (D.Disk.seen files.old.log) (D.Disk.seen files.old.db)) }
    ensures same { OnlyReadsBoth D.Disk (files.old.log, files.old.db) (files.new.log, files.new.db) }
    ensures faults { CountsFault result (faults_in D.Disk (files.old.log, files.old.db)) (faults_in D.Disk (files.new.log, files.new.db)) }
{
    let log = read_slot(&mut files.log, key)?;
    let db = read_slot(&mut files.db, key)?;
    Ok(log.later(db))
}

/// Reads what one slot names.
pub(crate) fn read_slot<D: Disk>(disk: &mut D, key: u64) -> io::Result<Last>
    requires { D.Disk.is_usable disk.old ≡ true }
    ensures said { IfOk result (λ last. IsClean D.Disk disk.new → last ≡ said_by key (D.Disk.seen disk.old)) }
    ensures same { OnlyReads D.Disk disk.old disk.new }
    ensures faults { CountsFault result (D.Disk.faults disk.old) (D.Disk.faults disk.new) }
{
    let len = disk.len()?;
    if len == 0 {
        return Ok(Last::Nothing);
    }
    if len != LEN {
        return Ok(Last::Unreadable);
    }
    let mut content = [0; LEN];
    disk.read_at(0, &mut content)?;
    Ok(match number_in(key, &content) {
        Some(number) => Last::Number(number),
        None => Last::Unreadable,
    })
}
