//! A disk that refuses each change.
ghost use Rattle.std.specs.Prelude.{◌≡◌, ◌≤◌, true, false, length, IsTrue, IsErr, IfOk};
ghost use Rattle.sqlite_disk.specs.Refusal.{is_no_room, finds_no_room};
ghost use Rattle.sqlite_disk.specs.Disk.{MoreFaults};
ghost use Rattle.sqlite_wal.specs.Reads.{IsClean, OnlyReads};

use sqlite_disk::{Disk, Tally};
use std::io::{self, ErrorKind};

/// A disk that only reads another one, and refuses each change. The file keeps the length that it had at first.
#[derive(Drop)]
pub struct ReadOnly<D: Disk> {
    inner: D,
    len: usize,
    /// How many calls failed here: changes, and reads behind the end.
    refused: u64,
    ghost usable: { IsTrue (D.Disk.is_usable inner) },
    ghost long: { IsClean D.Disk inner → length (D.Disk.seen inner) ≡ len },
}

impl<D: Disk> ReadOnly<D> {
    ghost use Rattle.disk_readonly.specs.Views.{inner_of, contents_of};

    /// Looks at a disk. Fails if its length cannot be read.
    pub fn new(disk: D) -> io::Result<ReadOnly<D>>
    where
        D: Drop,
        requires { IsTrue (D.Disk.is_usable disk) }
        ensures only { IfOk result (λ it. OnlyReads D.Disk disk (inner_of it)) }
        ensures same { IfOk result (λ it. IsClean D.Disk (inner_of it) → contents_of it ≡ D.Disk.seen disk) }
    {
        let mut inner = disk;
        let len = inner.len()?;
        Ok(ReadOnly {
            inner,
            len,
            refused: 0,
        })
    }

    /// Fails with this error, and counts that as a failed call.
    fn refuse(&mut self, error: io::Error) -> io::Result<()>
        requires { is_no_room error ≡ false }
        ensures err { IsErr result }
        ensures counted { MoreFaults self.old.refused self.new.refused × (self.old.refused ≤ self.new.refused) }
        ensures kind { finds_no_room result ≡ false }
        ensures inner { inner_of self.new ≡ inner_of self.old }
        ensures len { self.new.len ≡ self.old.len }
    {
        self.refused = self.refused.saturating_add(1);
        Err(error)
    }
}

/// It shows so many bytes of its disk as that had at first. Nothing is ever written, so a crash leaves them as they are.
impl<D: Disk> Disk for ReadOnly<D> {
    ghost use Rattle.std.specs.Prelude.{◌≡◌, ◌+◌, refl};
    ghost use Rattle.disk_readonly.specs.Padded.{padded};

    ghost seen = { λ it. padded it.len (D.Disk.seen it.inner) };

    ghost may_leave = { λ it c. c ≡ padded it.len (D.Disk.seen it.inner) };

    ghost is_usable = { λ it. D.Disk.is_usable it.inner };

    ghost faults = { λ it. D.Disk.faults it.inner + it.refused };

    ghost is_clean = { λ it. D.Disk.is_clean it.inner };

    ghost tally_of = { λ it. D.Disk.tally_of it.inner };

    ghost key_of = { λ it. D.Disk.key_of it.inner };

    ghost is_fair = { λ it. D.Disk.is_fair it.inner };

    ghost fair_if_clean = { λ it. D.Disk.fair_if_clean it.inner };

    ghost seen_may_stay = { λ _. refl };

    fn mixes(&self) -> bool {
        false
    }

    fn key(&self) -> u64 {
        self.inner.key()
    }

    fn tally(&self) -> Tally {
        self.inner.tally()
    }

    fn may_be_used(&self) -> bool {
        self.inner.may_be_used()
    }

    fn len(&mut self) -> io::Result<usize> {
        Ok(self.len)
    }

    fn read_at(&mut self, at: usize, buf: &mut [u8]) -> io::Result<()> {
        if at > self.len || buf.len() > self.len - at {
            return self.refuse(ErrorKind::UnexpectedEof.into());
        }
        self.inner.read_at(at, buf)
    }

    fn read_checked(&mut self, key: u64, want: u64, at: usize, buf: &mut [u8]) -> io::Result<()> {
        if at > self.len || buf.len() > self.len - at {
            return self.refuse(ErrorKind::UnexpectedEof.into());
        }
        self.inner.read_checked(key, want, at, buf)
    }

    fn write_at(&mut self, _at: usize, bytes: &[u8]) -> io::Result<()> {
        if bytes.is_empty() {
            return Ok(());
        }
        self.refuse(ErrorKind::PermissionDenied.into())
    }

    fn set_len(&mut self, len: usize) -> io::Result<()> {
        if len == self.len {
            return Ok(());
        }
        self.refuse(ErrorKind::PermissionDenied.into())
    }

    fn sync(&mut self) -> io::Result<()> {
        Ok(())
    }
}
