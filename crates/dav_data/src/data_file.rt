//! The data file, of which bodies are lists of pieces.
ghost use Rattle.std.specs.Prelude.{◌≡◌, ◌≤◌, ◌<◌, ◌^◌, ℕ, List, All, length, true, is_ok, Some, IfOk, IfErr, OnOk, OnErr};
ghost use Rattle.dav_pieces.specs.declared.piece.Piece.{Piece};
ghost use Rattle.dav_space.specs.declared.range.TheConstants.{LIMIT};
ghost use Rattle.dav_blocks.specs.Blocks as blocks;
ghost use Rattle.dav_data.specs.Digests.{AreHashed};

mod reading;
mod sweeping;
mod writing;

use crate::hash::Tail;
use dav_blocks::BlockFile;
use dav_resource::FsResult;
use dav_space::Range;
use sqlite_disk::Disk;
use std::alloc::Global;
use std::io;
pub(crate) use writing::failure;

/// A data file, which holds what files contain as blocks, each with a digest.
///
/// Bytes are written only where no block is in use, and nothing is read in order to write. After an error
/// nothing in use has changed. After a sync that fails every call fails.
#[derive(Drop)]
pub struct DataFile<D: Disk> {
    file: BlockFile<D>,
    /// The key of the digests.
    key: u64,
    /// The blocks that may grow, the oldest first.
    tails: Vec<Tail>,
    /// What the sweep under way has found in use.
    marks: Vec<Range>,
    /// Whether nothing is given up when the sweep ends: none is under way, or memory ran out in it.
    keeps_all: bool,
    /// How many bytes were in use after the last sweep that gave something up, or 0 before the first.
    swept: usize,
    ghost hashed: { AreHashed key (blocks.data_of file) (blocks.in_use file) tails.items },
    ghost marked: { All (λ r. r.end ≤ LIMIT) marks.items },
}

impl<D: Disk> DataFile<D> {
    ghost use Rattle.dav_blocks.specs.Settling.{HasNotSettled, IsUnharmed};
    ghost use Rattle.dav_tree.specs.Bodies.{KeepsBodies};
    ghost use Rattle.dav_data.specs.Errors.{is_own_error};
    ghost use Rattle.dav_data.specs.Data.{disk_of, data_of, is_below, nothing_at, is_honest, is_usable, settled, may_leave, key_of, swept_bytes, body_bytes, is_held, is_synced};
    ghost use Rattle.dav_data.specs.Data.{HasFailed, KeepsSweep, IsIdle, OpensBytes, OpensDigests, LeavesBytes, LeavesDigests, LeavesEnds};

    /// Opens the data file of which all bytes up to a place are in use. What is behind them stays there until the first
    /// sweep that gives something up: an honest disk has the same bytes afterwards. `key` is the key of the digests of its
    /// blocks.
    ///
    /// It is an error if the file is shorter, or the disk fails. The disk comes back with the error.
    pub fn open(alloc: Global, disk: D, key: u64, end: usize) -> Result<DataFile<D>, (io::Error, D)>
    where
        D: Drop,
        requires usable { D.Disk.is_usable disk ≡ true }
        requires below { end < 2 ^ 63 }
        ensures held { IfOk result (λ it. (body : List Piece) → is_below end body ≡ true → is_synced it body ≡ true) }
        ensures honest { IfOk result (λ it. is_honest it ≡ true → D.Disk.is_clean disk ≡ true) }
        ensures same { IfOk result (λ it. is_honest it ≡ true → data_of it ≡ D.Disk.seen disk) }
        ensures bytes { IfOk result (OpensBytes end (D.Disk.seen disk)) }
        ensures digests { IfOk result (OpensDigests end (D.Disk.seen disk)) }
        ensures key { IfOk result (λ it. key_of it ≡ key) }
        ensures swept { IfOk result (λ it. swept_bytes it ≡ 0) }
        ensures idle { IfOk result IsIdle }
        ensures usable { IfOk result (λ it. is_usable it ≡ true) }
        ensures settled { IfOk result (λ it. settled it ≡ Some (data_of it)) }
        ensures err { IfErr result (λ e. HasNotSettled D.Disk disk end e.1 e.0) }
        ensures unharmed { IfErr result (λ e. IsUnharmed D.Disk disk e.1) }
    {
        let file = BlockFile::open(alloc, disk, end)?;
        Ok(DataFile {
            file,
            key,
            tails: Vec::new(alloc),
            marks: Vec::new(alloc),
            keeps_all: true,
            swept: 0,
        })
    }

    /// Returns the disk.
    pub fn disk(&self) -> &D
        ensures { result.now ≡ disk_of self.now }
    {
        self.file.disk()
    }

    /// Brings all that was written to the disk. After an error every later call fails.
    pub fn sync(&mut self) -> io::Result<()>
        ensures synced { OnOk result ((body : List Piece) → is_held self.old body ≡ true → is_synced self.new body ≡ true) }
        ensures held { (body : List Piece) → is_held self.old body ≡ true → is_held self.new body ≡ true }
        ensures same { (body : List Piece) → is_held self.old body ≡ true → body_bytes self.new body ≡ body_bytes self.old body }
        ensures safe { (body : List Piece) → is_synced self.old body ≡ true → is_synced self.new body ≡ true }
        ensures contents { data_of self.new ≡ data_of self.old }
        ensures key { key_of self.new ≡ key_of self.old }
        ensures sweep { KeepsSweep self.old self.new }
        ensures err { OnErr result (HasFailed self.old self.new) }
        ensures usable { is_usable self.new ≡ is_ok result }
        ensures honest { is_honest self.new ≡ is_honest self.old }
    {
        self.file.sync()
    }

    /// The same, with the error of a store.
    pub(crate) fn sync_bodies(&mut self) -> FsResult<()>
        ensures synced { OnOk result ((body : List Piece) → is_held self.old body ≡ true → is_synced self.new body ≡ true) }
        ensures kept { KeepsBodies body_bytes is_held is_synced self.old self.new }
        ensures contents { data_of self.new ≡ data_of self.old }
        ensures key { key_of self.new ≡ key_of self.old }
        ensures err { IfErr result (λ e. is_own_error e ≡ true) }
    {
        match self.sync() {
            Ok(()) => Ok(()),
            Err(error) => Err(failure(&error)),
        }
    }

    /// Says what a crash leaves: a file in which each safe body ends, with its bytes and the digests of its blocks, and
    /// only what there is, if that is settled.
    pub fn show_synced(&self)
        ensures settled { (contents c : List ℕ) → settled self.now ≡ Some contents → may_leave self.now c → c ≡ contents }
        ensures bytes { (c : List ℕ) → may_leave self.now c → LeavesBytes self.now c }
        ensures digests { (c : List ℕ) → may_leave self.now c → LeavesDigests self.now c }
        ensures ends { (c : List ℕ) → may_leave self.now c → LeavesEnds self.now c }
    {
        self.file.synced();
    }

    /// Returns the place up to which a crash leaves the data file as it is. Each safe body ends there or before, so a
    /// data file that is opened with this place after a crash has all of them.
    ///
    /// The body of no bytes at this place is safe. As long as it is, a crash leaves a file that is no shorter.
    pub fn safe_end(&self) -> usize
        ensures below { (body : List Piece) → is_synced self.now body ≡ true → is_below result body ≡ true }
        ensures reached { is_synced self.now (nothing_at result) ≡ true }
        ensures left { (c : List ℕ) → may_leave self.now c → result ≤ length c }
        ensures small { result < 2 ^ 63 }
    {
        self.file.synced()
    }
}
