//! The data file as a medium.

use crate::data_file::{DataFile, failure};
use dav_pieces::Body;
use dav_resource::{FsError, FsResult};
use dav_tree::Medium;
use sqlite_disk::Disk;
use std::alloc::Global;

/// The most bytes of a file.
const MAX_LEN: u64 = (1 << 63) - 1;

impl<D: Disk + Drop> Medium for DataFile<D> {
    ghost use Rattle.std.specs.Prelude.{◌≡◌, ◌<◌, ◌+◌, ◌^◌, List, true, false, is_ok, length, IfOk, IfErr, OnOk, OnErr};
    ghost use Rattle.dav_pieces.specs.declared.piece.Piece.{Piece};
    ghost use Rattle.std.specs.Coded.{coded_list};
    ghost use Rattle.dav_pieces.specs.Pieces.{piece_code};
    ghost use Rattle.dav_pieces.specs.Changes.{KeepsSound};
    ghost use Rattle.dav_resource.specs.declared.error.FsError.TheVariants.{Memory};
    ghost use Rattle.dav_store.specs.Calls.{bytes_from, written_at};
    ghost use Rattle.dav_tree.specs.Bodies.{KeepsBodies, KeepsMarked, IsCopy, FailsFor};
    ghost use Rattle.dav_data.specs.Errors.{is_own_error};
    ghost use Rattle.dav_data.specs.Readings.{are_honest};
    ghost use Rattle.dav_data.specs.Data.{body_bytes, is_held, is_synced, has_digests, is_marked, is_honest, is_faultless, settled, is_usable, HasFailed, KeepsSweep, KeepsPlaces, IsBegun, GivesUpRest, FailsToWrite, FailsToJoin, IsReadChecked, IsReadOrCollides, IsUnread, Keeps};
    ghost use Rattle.dav_data.specs.Owning.{synced_held, held_small, own_refused};

    type Body = Body;

    ghost bytes = { body_bytes };

    ghost holds = { is_held };

    ghost safe = { is_synced };

    ghost marked = { is_marked };

    ghost body_code = { coded_list piece_code };

    ghost refuses = { is_own_error };

    ghost is_honest = { is_honest };

    ghost is_faultless = { is_faultless };

    ghost settled = { settled };

    ghost reading = { are_honest };

    ghost may_fail = { λ _ _. Unit {0} };

    ghost safe_held = { λ it body safe. synced_held it body safe };

    ghost small = { λ medium body held. held_small medium body held };

    ghost own = { own_refused };

    fn empty(&self, alloc: Global) -> Body {
        Body::empty(alloc)
    }

    fn len(&self, body: &Body) -> u64 {
        body.len()
    }

    fn copy(&self, _alloc: Global, body: &Body) -> FsResult<Body>
        requires { is_held self.now body.now ≡ true }
        ensures ok { IfOk result (IsCopy (body_bytes self.now) (is_held self.now) body.now) }
        ensures err { IfErr result (FailsFor is_own_error) }
        ensures pieces { IfOk result (λ copy. copy ≡ body.now) }
        ensures cause { IfErr result (λ e. e ≡ Memory) }
    {
        Ok(body.copy()?)
    }

    fn write(&mut self, alloc: Global, body: &mut Body, place: u64, more: &[u8]) -> FsResult<()>
        requires held { is_held self.old body.old ≡ true }
        requires fits { place + length more.now < 2 ^ 64 }
        ensures ok { OnOk result (body_bytes self.new body.new ≡ written_at (body_bytes self.old body.old) place more.now) }
        ensures same { OnErr result (body_bytes self.new body.new ≡ body_bytes self.old body.old) }
        ensures err { IfErr result (FailsFor is_own_error) }
        ensures held { is_held self.new body.new ≡ true }
        ensures kept { KeepsBodies body_bytes is_held is_synced self.old self.new }
        ensures digests { OnOk result (has_digests self.old body.old ≡ true → has_digests self.new body.new ≡ true) }
        ensures still { OnErr result (body.new ≡ body.old) }
        ensures cause { IfErr result (FailsToWrite place (length more.now) self.old self.new) }
        ensures all { Keeps self.old self.new }
    {
        if more.is_empty() {
            return Ok(());
        }
        if place + more.len() as u64 > MAX_LEN {
            return Err(FsError::InsufficientStorage);
        }
        self.write_at(alloc, body, place, more)
    }

    fn write_body(
        &mut self,
        alloc: Global,
        body: &mut Body,
        place: u64,
        from: &Body,
    ) -> FsResult<()>
        requires held { is_held self.old body.old ≡ true }
        requires other { is_held self.old from.now ≡ true }
        requires fits { place + length (body_bytes self.old from.now) < 2 ^ 64 }
        ensures ok { OnOk result (body_bytes self.new body.new ≡ written_at (body_bytes self.old body.old) place (body_bytes self.old from.now)) }
        ensures same { OnErr result (body_bytes self.new body.new ≡ body_bytes self.old body.old) }
        ensures err { IfErr result (FailsFor is_own_error) }
        ensures held { is_held self.new body.new ≡ true }
        ensures kept { KeepsBodies body_bytes is_held is_synced self.old self.new }
        ensures cause { IfErr result (FailsToJoin place (length (body_bytes self.old from.now))) }
        ensures still { OnErr result (body.new ≡ body.old) }
        ensures sound { OnOk result (KeepsSound body.old from.now body.new) }
        ensures all { self.new ≡ self.old }
    {
        if place + from.len() > MAX_LEN {
            return Err(FsError::InsufficientStorage);
        }
        body.write(alloc, place, from.pieces())?;
        Ok(())
    }

    fn read(&mut self, alloc: Global, body: &Body, place: u64, count: usize) -> FsResult<Vec<u8>>
        requires { is_held self.old body.now ≡ true }
        ensures bytes { IfOk result (λ found. are_honest (is_honest self.new) (body_bytes self.old body.now) place count found.items) }
        ensures count { IfOk result (λ found. length found.items ≡ length (bytes_from place count (body_bytes self.old body.now))) }
        ensures checked { IfOk result (λ found. IsReadChecked self.old body.now place count found.items) }
        ensures right { IfOk result (λ found. has_digests self.old body.now ≡ true → IsReadOrCollides self.old body.now place count found.items) }
        ensures err { IfErr result (FailsFor is_own_error) }
        ensures cause { IfErr result (IsUnread (has_digests self.old body.now) self.old self.new) }
        ensures kept { KeepsBodies body_bytes is_held is_synced self.old self.new }
    {
        self.read_checked(alloc, body, place, count)
    }

    fn sync(&mut self) -> FsResult<()>
        ensures safe { OnOk result ((body : List Piece) → is_held self.old body ≡ true → is_synced self.new body ≡ true) }
        ensures err { IfErr result (λ e. is_own_error e ≡ true) }
        ensures kept { KeepsBodies body_bytes is_held is_synced self.old self.new }
        ensures cause { IfErr result (λ e. HasFailed self.old self.new) }
        ensures sweep { KeepsSweep self.old self.new }
        ensures usable { is_usable self.new ≡ is_ok result }
        ensures honest { is_honest self.new ≡ is_honest self.old }
    {
        match DataFile::sync(self) {
            Ok(()) => Ok(()),
            Err(error) => Err(failure(&error)),
        }
    }

    fn begin_sweep(&mut self)
        ensures kept { KeepsBodies body_bytes is_held is_synced self.old self.new }
        ensures begun { IsBegun self.new }
    {
        self.begin();
    }

    fn keep(&mut self, body: &Body) {
        self.mark(body);
    }

    fn end_sweep(&mut self)
        ensures kept { KeepsMarked body_bytes is_held is_synced is_marked self.old self.new }
        ensures places { KeepsPlaces self.old self.new }
        ensures rest { GivesUpRest self.old self.new }
    {
        self.end();
    }
}
