//! A data file of which something is supposed.
ghost use Rattle.std.specs.Prelude.{◌≡◌, ◌≤◌, ◌<◌, ◌^◌, ℕ, List, length, true, Some, IfOk, IfErr};
ghost use Rattle.dav_pieces.specs.declared.piece.Piece.{Piece};

use crate::claim::Claim;
use crate::data_file::DataFile;
use sqlite_disk::Disk;
use std::alloc::Global;
use std::io;
use std::marker::PhantomData;

/// A data file, all of whose bodies have the digests of their blocks for its whole life, if the claim `C` holds.
#[derive(Drop)]
pub struct ClaimedFile<D: Disk, C: Claim> {
    pub(crate) file: DataFile<D>,
    claim: PhantomData<C>,
    ghost keyed: { C.Claim.holds ≡ true → file.key ≡ C.Claim.key },
}

impl<D: Disk, C: Claim> ClaimedFile<D, C> {
    ghost use Rattle.dav_blocks.specs.Settling.{HasNotSettled, IsUnharmed};
    ghost use Rattle.dav_data.specs.Data.{is_below, is_honest, is_usable, settled, key_of, may_leave, OpensBytes, LeavesBytes, LeavesEnds};
    ghost use Rattle.dav_data.specs.Claimed.{file_of, contents_of, is_safe, AreRight, OpensRight, LeavesRight};

    /// Opens the data file of which all bytes up to a place are in use, as [`DataFile::open`] does. If the claim holds, the
    /// key is that of the claim.
    ///
    /// It is an error if the file is shorter, or the disk fails. The disk comes back with the error.
    pub fn open(
        alloc: Global,
        disk: D,
        key: u64,
        end: usize,
    ) -> Result<ClaimedFile<D, C>, (io::Error, D)>
    where
        D: Drop,
        requires usable { D.Disk.is_usable disk ≡ true }
        requires below { end < 2 ^ 63 }
        requires key { C.Claim.holds ≡ true → key ≡ C.Claim.key }
        ensures held { IfOk result (OpensRight end (D.Disk.seen disk)) }
        ensures bytes { IfOk result (λ it. OpensBytes end (D.Disk.seen disk) (file_of it)) }
        ensures honest { IfOk result (λ it. is_honest (file_of it) ≡ true → D.Disk.is_clean disk ≡ true) }
        ensures same { IfOk result (λ it. is_honest (file_of it) ≡ true → contents_of it ≡ D.Disk.seen disk) }
        ensures key { IfOk result (λ it. key_of (file_of it) ≡ key) }
        ensures usable { IfOk result (λ it. is_usable (file_of it) ≡ true) }
        ensures settled { IfOk result (λ it. settled (file_of it) ≡ Some (contents_of it)) }
        ensures err { IfErr result (λ e. HasNotSettled D.Disk disk end e.1 e.0) }
        ensures unharmed { IfErr result (λ e. IsUnharmed D.Disk disk e.1) }
    {
        let file = DataFile::open(alloc, disk, key, end)?;
        Ok(ClaimedFile {
            file,
            claim: PhantomData,
        })
    }

    /// Returns the data file.
    pub fn file(&self) -> &DataFile<D>
        ensures { result.now ≡ file_of self.now }
    {
        &self.file
    }

    /// Says what a crash leaves, and that the blocks of each body have their digests, if the claim holds: those of a held
    /// body now, and those of a safe body after a crash at this moment.
    pub fn show_right(&self)
        ensures settled { (contents c : List ℕ) → settled (file_of self.now) ≡ Some contents → may_leave (file_of self.now) c → c ≡ contents }
        ensures key { C.Claim.holds ≡ true → key_of (file_of self.now) ≡ C.Claim.key }
        ensures held { C.Claim.holds ≡ true → AreRight self.now }
        ensures left { C.Claim.holds ≡ true → (c : List ℕ) → may_leave (file_of self.now) c → LeavesRight self.now c }
        ensures bytes { (c : List ℕ) → may_leave (file_of self.now) c → LeavesBytes (file_of self.now) c }
        ensures ends { (c : List ℕ) → may_leave (file_of self.now) c → LeavesEnds (file_of self.now) c }
    {
        self.file.show_synced();
    }

    /// Returns the place up to which a crash leaves the data file as it is, as [`DataFile::safe_end`] does.
    pub fn safe_end(&self) -> usize
        ensures below { (body : List Piece) → is_safe self.now body ≡ true → is_below result body ≡ true }
        ensures left { (c : List ℕ) → may_leave (file_of self.now) c → result ≤ length c }
        ensures small { result < 2 ^ 63 }
    {
        self.file.safe_end()
    }
}
