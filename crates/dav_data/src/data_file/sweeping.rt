//! Sweeps, by which the space of blocks that no body has is used again.
ghost use Rattle.std.specs.Prelude.{◌≡◌, List, true};
ghost use Rattle.dav_pieces.specs.declared.piece.Piece.{Piece};
ghost use Rattle.dav_data.specs.Runs.{piece_passes};

use crate::data_file::DataFile;
use dav_pieces::{Block, Body, Piece};
use dav_space::{LIMIT, Range};
use sqlite_disk::Disk;
use std::mem;

/// The most bytes in use that need no sweep.
const MAX_UNSWEPT: usize = 64 << 20;

impl<D: Disk> DataFile<D> {
    ghost use Rattle.dav_data.specs.Data.{in_use, is_held, is_spared, is_marked, is_synced, is_honest, body_bytes, SparesMore, Keeps, KeepsDisk, KeepsDigests, KeepsPlaces, IsBegun, IsIdle, GivesUpRest, wants_sweep};

    /// Begins a sweep. Nothing is marked.
    pub(crate) fn begin(&mut self)
        ensures begun { IsBegun self.new }
        ensures kept { Keeps self.old self.new }
    {
        self.marks.clear();
        self.keeps_all = false;
    }

    /// Marks the blocks of a body. If memory runs out, the end of the sweep gives nothing up.
    pub(crate) fn mark(&mut self, body: &Body)
        ensures marked { is_held self.old body.now ≡ true → is_marked self.new body.now ≡ true }
        ensures marks { (other : List Piece) → is_marked self.old other ≡ true → is_marked self.new other ≡ true }
        ensures kept { Keeps self.old self.new }
    {
        for piece in body.pieces() {
            self.mark_piece(*piece);
        }
    }

    /// Marks the block of a piece, if it has one.
    fn mark_piece(&mut self, piece: Piece)
        ensures spared { piece_passes (in_use self.old) piece ≡ true → piece_passes (is_spared self.new) piece ≡ true }
        ensures more { SparesMore self.old self.new }
        ensures kept { Keeps self.old self.new }
    {
        if let Piece::Part { block, .. } = piece {
            self.mark_block(block);
        }
    }

    /// Marks a block, unless it ends behind the limit of a data file.
    fn mark_block(&mut self, block: Block)
        ensures spared { in_use self.old block.at block.size ≡ true → is_spared self.new block.at block.size ≡ true }
        ensures more { SparesMore self.old self.new }
        ensures kept { Keeps self.old self.new }
    {
        let end = match block.at.checked_add(block.size as usize) {
            Some(end) if end <= LIMIT => end,
            _ => return,
        };
        if self.marks.push(Range { at: block.at, end }).is_err() {
            self.keeps_all = true;
        }
    }

    /// Ends a sweep, and gives up what is not marked, if all that was written is on the disk and memory did not
    /// run out. Then it also cuts off what was behind all blocks when the file was opened.
    pub(crate) fn end(&mut self)
        ensures held { (body : List Piece) → is_marked self.old body ≡ true → is_held self.new body ≡ true }
        ensures same { (body : List Piece) → is_marked self.old body ≡ true → body_bytes self.new body ≡ body_bytes self.old body }
        ensures synced { (body : List Piece) → is_marked self.old body ≡ true → is_synced self.old body ≡ true → is_synced self.new body ≡ true }
        ensures digests { KeepsDigests self.old self.new }
        ensures places { KeepsPlaces self.old self.new }
        ensures rest { GivesUpRest self.old self.new }
        ensures idle { IsIdle self.new }
        ensures disk { KeepsDisk self.old self.new }
        ensures honest { is_honest self.new ≡ is_honest self.old }
    {
        if mem::replace(&mut self.keeps_all, true) {
            return;
        }
        let alloc = *self.marks.allocator();
        let marks = mem::replace(&mut self.marks, Vec::new(alloc));
        self.tails.clear();
        if self.file.keep_only(alloc, marks) {
            self.swept = self.file.used();
            self.file.trim();
        }
    }

    /// Returns whether it is time for a sweep: more than 64 MiB are in use, and more than twice as many bytes as
    /// after the last sweep that gave something up. Before the first such sweep only the 64 MiB count.
    pub fn wants_sweep(&self) -> bool
        ensures { result ≡ wants_sweep self.now }
    {
        let used = self.file.used();
        used > MAX_UNSWEPT && used.saturating_sub(self.swept) > self.swept
    }
}
