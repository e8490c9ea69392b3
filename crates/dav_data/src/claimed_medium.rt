//! A data file of which something is supposed, as a medium.

use crate::claim::Claim;
use crate::claimed_file::ClaimedFile;
use dav_pieces::Body;
use dav_resource::FsResult;
use dav_tree::Medium;
use sqlite_disk::Disk;
use std::alloc::Global;

impl<D: Disk + Drop, C: Claim> Medium for ClaimedFile<D, C> {
    ghost use Rattle.std.specs.Prelude.{◌≡◌, ◌⊎◌, ◌<◌, ◌+◌, ◌^◌, List, true, is_ok, length, IfOk, IfErr, OnOk, OnErr};
    ghost use Rattle.std.specs.Coded.{coded_list};
    ghost use Rattle.dav_pieces.specs.Pieces.{piece_code};
    ghost use Rattle.dav_store.specs.Calls.{bytes_from, written_at};
    ghost use Rattle.dav_tree.specs.Bodies.{KeepsBodies, FailsFor};
    ghost use Rattle.dav_data.specs.Errors.{is_own_error};
    ghost use Rattle.dav_resource.specs.declared.error.FsError.TheVariants.{Memory};
    ghost use Rattle.dav_data.specs.Data.{is_honest, is_faultless, settled, FailsToWrite, IsReadChecked, IsUnread};
    ghost use Rattle.dav_data.specs.Owning.{own_refused};
    ghost use Rattle.dav_data.specs.Readings.{AreRead, FailsWithFault};
    ghost use Rattle.dav_data.specs.Claimed.{file_of, bytes_in, is_kept, is_safe, is_spared};
    ghost use Rattle.dav_data.specs.ClaimedOwning.{safe_kept, kept_small};

    type Body = Body;

    ghost bytes = { bytes_in };

    ghost holds = { is_kept };

    ghost safe = { is_safe };

    ghost marked = { is_spared };

    ghost body_code = { coded_list piece_code };

    ghost refuses = { is_own_error };

    ghost is_honest = { λ it. is_honest (file_of it) };

    ghost is_faultless = { λ it. is_faultless (file_of it) };

    ghost settled = { λ it. settled (file_of it) };

    ghost reading = { AreRead C.Claim };

    ghost may_fail = { FailsWithFault C.Claim };

    ghost safe_held = { λ it body safe. safe_kept it body safe };

    ghost small = { λ medium body held. kept_small medium body held };

    ghost own = { own_refused };

    fn empty(&self, alloc: Global) -> Body {
        Body::empty(alloc)
    }

    fn len(&self, body: &Body) -> u64 {
        self.file.len(body)
    }

    fn copy(&self, alloc: Global, body: &Body) -> FsResult<Body> {
        self.file.copy(alloc, body)
    }

    fn write(&mut self, alloc: Global, body: &mut Body, place: u64, more: &[u8]) -> FsResult<()>
        requires held { is_kept self.old body.old ≡ true }
        requires fits { place + length more.now < 2 ^ 64 }
        ensures ok { OnOk result (bytes_in self.new body.new ≡ written_at (bytes_in self.old body.old) place more.now) }
        ensures same { OnErr result (bytes_in self.new body.new ≡ bytes_in self.old body.old) }
        ensures err { IfErr result (FailsFor is_own_error) }
        ensures held { is_kept self.new body.new ≡ true }
        ensures kept { KeepsBodies bytes_in is_kept is_safe self.old self.new }
        ensures cause { IfErr result (FailsToWrite place (length more.now) (file_of self.old) (file_of self.new)) }
    {
        self.file.write(alloc, body, place, more)
    }

    fn write_body(
        &mut self,
        alloc: Global,
        body: &mut Body,
        place: u64,
        from: &Body,
    ) -> FsResult<()> {
        self.file.write_body(alloc, body, place, from)
    }

    fn read(&mut self, alloc: Global, body: &Body, place: u64, count: usize) -> FsResult<Vec<u8>>
        requires { is_kept self.old body.now ≡ true }
        ensures bytes { IfOk result (λ found. AreRead C.Claim (is_honest (file_of self.new)) (bytes_in self.old body.now) place count found.items) }
        ensures count { IfOk result (λ found. length found.items ≡ length (bytes_from place count (bytes_in self.old body.now))) }
        ensures checked { IfOk result (λ found. IsReadChecked (file_of self.old) body.now place count found.items) }
        ensures err { IfErr result (FailsFor is_own_error) }
        ensures cause { IfErr result (λ e. (e ≡ Memory) ⊎ FailsWithFault C.Claim (is_faultless (file_of self.new)) e) }
        ensures why { C.Claim.holds ≡ true → IfErr result (IsUnread true (file_of self.old) (file_of self.new)) }
        ensures kept { KeepsBodies bytes_in is_kept is_safe self.old self.new }
    {
        self.file.read_checked(alloc, body, place, count)
    }

    fn sync(&mut self) -> FsResult<()> {
        self.file.sync_bodies()
    }

    fn begin_sweep(&mut self) {
        self.file.begin();
    }

    fn keep(&mut self, body: &Body) {
        self.file.mark(body);
    }

    fn end_sweep(&mut self) {
        self.file.end();
    }
}
