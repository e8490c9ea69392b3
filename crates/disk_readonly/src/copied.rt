//! A copy of a file, as a disk.
ghost use Rattle.std.specs.Prelude.{◌≡◌, ◌^◌, ◌<◌, ◌↔◌, true, false, length, refl, is_ok, IsTrue, IfOk, IfErr, OnOk, OnErr};
ghost use Rattle.sqlite_disk.specs.Disk.{Holds, Torn, Cut, CountsFault};
ghost use Rattle.sqlite_disk.specs.Refusal.{finds_no_room};
ghost use Rattle.sqlite_wal.specs.Reads.{OnlyReads};
ghost use Rattle.disk_readonly.specs.Copies.{contents_of, faults_of, IsCopyOf, IsExcused};

use crate::CopyError;
use sqlite_disk::{Disk, Tally, digest_of};
use std::alloc::{AllocError, Global};
use std::io::{self, ErrorKind};

/// A file in memory, which begins with the contents of another one. What is written to it stays in memory.
#[derive(Drop)]
pub struct Copied {
    bytes: Vec<u8>,
    /// How many calls have failed.
    faults: u64,
    /// How many of them met bytes without their digest.
    caught: u64,
}

impl Copied {
    /// Copies the contents of a disk, from which it only reads.
    ///
    /// Errors: `Memory` if memory runs out; `Disk` if the disk fails.
    pub fn of<D: Disk>(alloc: Global, disk: &mut D) -> Result<Copied, CopyError>
        requires { IsTrue (D.Disk.is_usable disk.old) }
        ensures same { OnlyReads D.Disk disk.old disk.new }
        ensures copy { IfOk result (IsCopyOf D.Disk disk.old disk.new) }
        ensures faults { OnOk result (D.Disk.faults disk.new ≡ D.Disk.faults disk.old) }
        ensures err { IfErr result (IsExcused (D.Disk.faults disk.old) (D.Disk.faults disk.new)) }
    {
        let len = disk.len()?;
        let mut bytes = vec![in alloc; 0u8; len]?;
        disk.read_at(0, &mut bytes)?;
        Ok(Copied {
            bytes,
            faults: 0,
            caught: 0,
        })
    }

    /// Returns whether a call has failed, as it does when memory runs out.
    pub fn has_failed(&self) -> bool
        ensures { IsTrue result ↔ (0 < faults_of self.now) }
    {
        self.faults > 0
    }

    /// Returns the contents.
    pub fn bytes(&self) -> &[u8]
        ensures { result.now ≡ contents_of self.now }
    {
        &self.bytes
    }
}

/// It is always what it was made, or what was written: memory takes no wrong answer as true. A crash is no matter here, so
/// it leaves the contents as they are.
impl Disk for Copied {
    ghost seen = { λ copy. copy.bytes.items };

    ghost may_leave = { λ copy c. c ≡ copy.bytes.items };

    ghost is_usable = { λ _. true };

    ghost faults = { λ copy. copy.faults };

    ghost is_clean = { λ _. true };

    ghost tally_of = { λ copy. record { caught = copy.caught; refused = 0 } };

    ghost key_of = { λ _. 0 };

    ghost is_fair = { λ _ _. true };

    ghost fair_if_clean = { λ _ _ _. refl };

    ghost seen_may_stay = { λ _. refl };

    fn mixes(&self) -> bool {
        false
    }

    fn key(&self) -> u64 {
        0
    }

    fn tally(&self) -> Tally {
        Tally {
            caught: self.caught,
            refused: 0,
        }
    }

    fn may_be_used(&self) -> bool {
        true
    }

    fn len(&mut self) -> io::Result<usize> {
        Ok(self.bytes.len())
    }

    fn read_at(&mut self, at: usize, buf: &mut [u8]) -> io::Result<()> {
        if at > self.bytes.len() || buf.len() > self.bytes.len() - at {
            return Err(ErrorKind::UnexpectedEof.into());
        }
        buf.copy_from_slice(&self.bytes[at..at + buf.len()]);
        Ok(())
    }

    fn read_checked(&mut self, key: u64, want: u64, at: usize, buf: &mut [u8]) -> io::Result<()> {
        self.read_at(at, buf)?;
        if digest_of(key, buf) != want {
            self.faults = self.faults.saturating_add(1);
            self.caught = self.caught.saturating_add(1);
            return Err(ErrorKind::InvalidData.into());
        }
        Ok(())
    }

    fn write_at(&mut self, at: usize, bytes: &[u8]) -> io::Result<()> {
        count(overwrite(&mut self.bytes, at, bytes), &mut self.faults)
    }

    fn set_len(&mut self, len: usize) -> io::Result<()> {
        count(resize(&mut self.bytes, len), &mut self.faults)
    }

    fn sync(&mut self) -> io::Result<()> {
        Ok(())
    }
}

/// Counts a failed allocation as a failed call.
fn count(outcome: Result<(), AllocError>, faults: &mut u64) -> io::Result<()>
    ensures variant { is_ok result ≡ is_ok outcome }
    ensures kind { finds_no_room result ≡ false }
    ensures faults { CountsFault result faults.old faults.new }
{
    if outcome.is_err() {
        *faults = faults.saturating_add(1);
        return Err(ErrorKind::OutOfMemory.into());
    }
    Ok(())
}

fn resize(file: &mut Vec<u8>, len: usize) -> Result<(), AllocError>
    ensures len { OnOk result (length file.new.items ≡ len) }
    ensures others { Cut len file.old.items file.new.items }
{
    file.resize(len, 0)
}

fn overwrite(file: &mut Vec<u8>, at: usize, bytes: &[u8]) -> Result<(), AllocError>
    ensures written { OnOk result (Holds file.new.items at bytes.now) }
    ensures others { Torn at (length bytes.now) file.old.items file.new.items }
{
    let end = at.checked_add(bytes.len()).ok_or(AllocError)?;
    if end > file.len() {
        resize(file, end)?;
    }
    file[at..end].copy_from_slice(bytes);
    Ok(())
}
