//! A store that a policy guards.
ghost use Rattle.std.specs.Prelude.{◌≡◌, ◌≢◌, ◌<◌, ◌+◌, ◌^◌, [], ◌∷◌, All, false, map, length, MatchResult, None, IfErr};
ghost use Rattle.std.specs.Borrow.{sem};
ghost use Rattle.dav_store.specs.Logged.{logged_of};
ghost use Rattle.dav_store.specs.Calls.{LooksUp, MakesDirectory, Opens, FailsToRead, Seeks, Writes, Flushes, LooksUpFile};
ghost use Rattle.dav_store.specs.Members.{ReadsDir, RemovesFile, RemovesDir};
ghost use Rattle.dav_store.specs.BodyCalls.{StartsBody, AddsToBody, with_body};
ghost use Rattle.dav_store.specs.Transfers.{Copies, Renames};
ghost use Rattle.dav_store.specs.PropertyCalls.{GetsProp, GetsProps, PatchesProps, GetsQuota, IsWhole, name_of};

use crate::guard::Guard;
use crate::listing::hide_members;
use crate::policy::Policy;
use dav_resource::{
    BodyNumber, DavFile, DavPath, DavProp, DirEntry, Element, FsResult, Meta, Op, OpenOptions,
    Paths, PropertyPatch, Record,
};
use dav_store::{GuardedFileSystem, one_path, two_paths};
use dav_wrapping::{last_outcome, with_statuses};
use http::StatusCode;
use std::alloc::Global;

/// A store that wraps another store and passes on the calls that a policy does not refuse.
///
/// A refused call returns `FsError::Forbidden` and leaves the wrapped store as it was. A member whose entry the policy
/// refuses (`Op::Entry`) is not listed. The wrapper has its own log, with a record of each refused call, of each call
/// that was passed on and of each member that is not listed. A call that runs out of memory leaves no record.
///
/// The calls `start_body`, `add_to_body`, `drop_body` and `body_length` are always passed on.
///
/// If memory runs out, the wrapped store stays as it was, except that its log may have records of a listing.
#[derive(Drop)]
pub struct Guarding<F, P: Policy> {
    inner: F,
    guard: Guard<P>,
}

impl<F, P: Policy> Guarding<F, P> {
    ghost use Rattle.dav_guarding.specs.Guarding.{inner_of, policy_of, records_of};
    ghost use Rattle.dav_guarding.specs.InnerLends.{LendsInner};

    /// Wraps a store, with an empty log.
    pub fn new(alloc: Global, inner: F, policy: P) -> Guarding<F, P>
        ensures inner { inner_of result ≡ inner }
        ensures policy { policy_of result ≡ policy }
        ensures records { records_of result ≡ [] }
    {
        Guarding {
            inner,
            guard: Guard::new(alloc, policy),
        }
    }

    /// Returns the policy.
    pub fn policy(&self) -> &P
        ensures { result.now ≡ policy_of self.now }
    {
        self.guard.policy()
    }

    /// Sets the policy, as for another caller, and empties the log. The log of the wrapped store stays as it is.
    pub fn set_policy(&mut self, policy: P)
    where
        P: Drop,
        ensures inner { inner_of self.new ≡ inner_of self.old }
        ensures policy { policy_of self.new ≡ policy }
        ensures records { records_of self.new ≡ [] }
    {
        self.guard.set_policy(policy);
    }

    /// Returns the wrapped store.
    pub fn inner(&self) -> &F
        ensures { result.now ≡ inner_of self.now }
    {
        &self.inner
    }

    /// Returns the wrapped store, and drops the policy and the log.
    pub fn into_inner(self) -> F
    where
        P: Drop,
        ensures { result ≡ inner_of self }
    {
        self.inner
    }

    /// Borrows the wrapped store.
    pub fn inner_mut(&mut self) -> &mut F
        ensures* writes_back { sem 𝓛 (LendsInner F.row P.row P.Policy self.entry result) }
        ensures inner { result.now ≡ inner_of self.old }
    {
        &mut self.inner
    }
}

impl<C, F: GuardedFileSystem<C>, P: Policy> GuardedFileSystem<C> for Guarding<F, P> {
    ghost use Rattle.dav_guarding.specs.Guarding.{seen_behind, inner_of, body_behind, policy_of, records_of, is_allowed, is_refused, reads_behind, Guards, GuardsReading, ReadsBehind, GuardsRead, GuardsWrite, MovesHandle};

    ghost seen = { seen_behind F.seen };

    ghost reads = { reads_behind F.reads };

    ghost well_formed = { λ store. F.well_formed store.inner };

    ghost tagged = { λ store. F.tagged store.inner };

    ghost allowed = { is_allowed F.seen };

    fn metadata(&mut self, path: &DavPath, credentials: &C) -> FsResult<Meta>
        ensures seen { LooksUp (seen_behind F.seen self.old) path.now.key result (seen_behind F.seen self.new) }
        ensures guarded { Guards F.seen Op.Metadata (path.now ∷ []) (λ s. LooksUp s path.now.key) self.old result self.new }
    {
        let paths = one_path(path)?;
        let mut call = self.guard.begin(Op::Metadata, paths)?;
        let answer = self.inner.metadata(path, credentials);
        call.outcome = last_outcome(self.inner.records());
        self.guard.finish(call, answer)
    }

    fn read_dir(&mut self, path: &DavPath, credentials: &C) -> FsResult<Vec<FsResult<DirEntry>>>
        ensures seen { ReadsDir (seen_behind F.seen self.old) path.now.key result (seen_behind F.seen self.new) }
        ensures guarded { GuardsReading F.seen path.now self.old result self.new }
    {
        let paths = one_path(path)?;
        let mut call = self.guard.begin(Op::ReadDir, paths)?;
        let alloc = self.guard.allocator();
        let recorded = self.inner.records().len();
        match self.inner.read_dir(path, credentials) {
            Ok(mut listing) => {
                let hidden = &self.inner.records()[recorded + 1..];
                let unseen = hide_members(alloc, path, self.guard.policy(), &mut listing, hidden)?;
                self.guard.keep_listing(call, unseen)?;
                Ok(listing)
            }
            Err(error) => {
                call.outcome = last_outcome(self.inner.records());
                self.guard.finish(call, Err(error))
            }
        }
    }

    fn create_dir(&mut self, path: &DavPath, credentials: &C) -> FsResult<()>
        ensures seen { MakesDirectory (seen_behind F.seen self.old) path.now.key result (seen_behind F.seen self.new) }
        ensures guarded { Guards F.seen Op.CreateDir (path.now ∷ []) (λ s. MakesDirectory s path.now.key) self.old result self.new }
    {
        let paths = one_path(path)?;
        let mut call = self.guard.begin(Op::CreateDir, paths)?;
        let answer = self.inner.create_dir(path, credentials);
        call.outcome = last_outcome(self.inner.records());
        self.guard.finish(call, answer)
    }

    fn remove_file(&mut self, path: &DavPath, credentials: &C) -> FsResult<()>
        ensures seen { RemovesFile (seen_behind F.seen self.old) path.now.key result (seen_behind F.seen self.new) }
        ensures guarded { Guards F.seen Op.RemoveFile (path.now ∷ []) (λ s. RemovesFile s path.now.key) self.old result self.new }
    {
        let paths = one_path(path)?;
        let mut call = self.guard.begin(Op::RemoveFile, paths)?;
        let answer = self.inner.remove_file(path, credentials);
        call.outcome = last_outcome(self.inner.records());
        self.guard.finish(call, answer)
    }

    fn remove_dir(&mut self, path: &DavPath, credentials: &C) -> FsResult<()>
        ensures seen { RemovesDir (seen_behind F.seen self.old) path.now.key result (seen_behind F.seen self.new) }
        ensures guarded { Guards F.seen Op.RemoveDir (path.now ∷ []) (λ s. RemovesDir s path.now.key) self.old result self.new }
    {
        let paths = one_path(path)?;
        let mut call = self.guard.begin(Op::RemoveDir, paths)?;
        let answer = self.inner.remove_dir(path, credentials);
        call.outcome = last_outcome(self.inner.records());
        self.guard.finish(call, answer)
    }

    fn copy(&mut self, from: &DavPath, to: &DavPath, credentials: &C) -> FsResult<()>
        ensures seen { Copies (seen_behind F.seen self.old) from.now.key to.now.key result (seen_behind F.seen self.new) }
        ensures guarded { Guards F.seen Op.Copy (from.now ∷ to.now ∷ []) (λ s. Copies s from.now.key to.now.key) self.old result self.new }
    {
        let paths = two_paths(from, to)?;
        let mut call = self.guard.begin(Op::Copy, paths)?;
        let answer = self.inner.copy(from, to, credentials);
        call.outcome = last_outcome(self.inner.records());
        self.guard.finish(call, answer)
    }

    fn rename(&mut self, from: &DavPath, to: &DavPath, credentials: &C) -> FsResult<()>
        ensures seen { Renames (seen_behind F.seen self.old) from.now.key to.now.key result (seen_behind F.seen self.new) }
        ensures guarded { Guards F.seen Op.Rename (from.now ∷ to.now ∷ []) (λ s. Renames s from.now.key to.now.key) self.old result self.new }
    {
        let paths = two_paths(from, to)?;
        let mut call = self.guard.begin(Op::Rename, paths)?;
        let answer = self.inner.rename(from, to, credentials);
        call.outcome = last_outcome(self.inner.records());
        self.guard.finish(call, answer)
    }

    fn open(&mut self, path: &DavPath, options: &OpenOptions, credentials: &C) -> FsResult<DavFile>
        ensures seen { Opens (seen_behind F.seen self.old) path.now options.now result (seen_behind F.seen self.new) }
        ensures guarded { Guards F.seen Op.OpenFile (path.now ∷ []) (λ s. Opens s path.now options.now) self.old result self.new }
    {
        let paths = one_path(path)?;
        let mut call = self.guard.begin(Op::OpenFile, paths)?;
        let answer = self.inner.open(path, options, credentials);
        call.outcome = last_outcome(self.inner.records());
        self.guard.finish(call, answer)
    }

    fn read_bytes(
        &mut self,
        path: &DavPath,
        place: u64,
        count: usize,
        credentials: &C,
    ) -> FsResult<Vec<u8>>
        ensures seen { ReadsBehind F.reads F.seen path.now.key place count self.old result self.new }
        ensures guarded { GuardsRead F.reads F.seen path.now place count self.old result self.new }
        ensures cause { IfErr result (FailsToRead (reads_behind F.reads self.new) (seen_behind F.seen self.old) path.now.key) }
        ensures passed { is_refused self.old Op.ReadBytes (path.now ∷ []) ≡ false
            → IfErr result (FailsToRead (F.reads (inner_of self.new)) (F.seen (inner_of self.old)) path.now.key) }
    {
        let paths = one_path(path)?;
        let mut call = self.guard.begin(Op::ReadBytes, paths)?;
        let answer = self.inner.read_bytes(path, place, count, credentials);
        call.outcome = last_outcome(self.inner.records());
        self.guard.finish(call, answer)
    }

    fn seek(&mut self, file: &mut DavFile, pos: u64, credentials: &C) -> FsResult<()>
        ensures sought { Seeks (seen_behind F.seen self.old) file.old.path.key result (seen_behind F.seen self.new) }
        ensures place { MatchResult result (λ _. file.new ≡ record file.old { pos = pos }) (λ _. file.new ≡ file.old) }
        ensures guarded { Guards F.seen Op.Seek (file.old.path ∷ []) (λ s. Seeks s file.old.path.key) self.old result self.new }
    {
        let paths = one_path(&file.path)?;
        let mut call = self.guard.begin(Op::Seek, paths)?;
        let answer = self.inner.seek(file, pos, credentials);
        call.outcome = last_outcome(self.inner.records());
        self.guard.finish(call, answer)
    }

    fn write_bytes(&mut self, file: &mut DavFile, bytes: &[u8], credentials: &C) -> FsResult<()>
        requires { file.old.append ≡ false → file.old.pos + length bytes.now < 2 ^ 64 }
        ensures written { Writes (seen_behind F.seen self.old) file.old bytes.now result (seen_behind F.seen self.new) }
        ensures place { MovesHandle F.seen self.old file.old bytes.now result file.new }
        ensures guarded { GuardsWrite F.seen file.old bytes.now self.old result self.new }
    {
        let paths = one_path(&file.path)?;
        let mut call = self.guard.begin(Op::WriteBytes, paths)?;
        let answer = self.inner.write_bytes(file, bytes, credentials);
        call.outcome = last_outcome(self.inner.records());
        self.guard.finish(call, answer)
    }

    fn write_body(
        &mut self,
        file: &mut DavFile,
        number: BodyNumber,
        credentials: &C,
    ) -> FsResult<()>
        requires { file.old.append ≡ false → file.old.pos + length (body_behind F.seen self.old number) < 2 ^ 64 }
        ensures written { Writes (seen_behind F.seen self.old) file.old (body_behind F.seen self.old number) result (seen_behind F.seen self.new) }
        ensures place { MovesHandle F.seen self.old file.old (body_behind F.seen self.old number) result file.new }
        ensures guarded { GuardsWrite F.seen file.old (body_behind F.seen self.old number) self.old result self.new }
    {
        let paths = one_path(&file.path)?;
        let mut call = self.guard.begin(Op::WriteBytes, paths)?;
        let answer = self.inner.write_body(file, number, credentials);
        call.outcome = last_outcome(self.inner.records());
        self.guard.finish(call, answer)
    }

    fn flush(&mut self, file: &DavFile, credentials: &C) -> FsResult<()>
        ensures seen { Flushes (seen_behind F.seen self.old) file.now.path.key result (seen_behind F.seen self.new) }
        ensures guarded { Guards F.seen Op.Flush (file.now.path ∷ []) (λ s. Flushes s file.now.path.key) self.old result self.new }
    {
        let paths = one_path(&file.path)?;
        let mut call = self.guard.begin(Op::Flush, paths)?;
        let answer = self.inner.flush(file, credentials);
        call.outcome = last_outcome(self.inner.records());
        self.guard.finish(call, answer)
    }

    fn file_metadata(&mut self, file: &DavFile, credentials: &C) -> FsResult<Meta>
        ensures seen { LooksUpFile (seen_behind F.seen self.old) file.now.path.key result (seen_behind F.seen self.new) }
        ensures guarded { Guards F.seen Op.FileMetadata (file.now.path ∷ []) (λ s. LooksUpFile s file.now.path.key) self.old result self.new }
    {
        let paths = one_path(&file.path)?;
        let mut call = self.guard.begin(Op::FileMetadata, paths)?;
        let answer = self.inner.file_metadata(file, credentials);
        call.outcome = last_outcome(self.inner.records());
        self.guard.finish(call, answer)
    }

    fn get_prop(&mut self, path: &DavPath, prop: &DavProp, credentials: &C) -> FsResult<Element>
        ensures seen { GetsProp (seen_behind F.seen self.old) path.now.key (name_of prop.now) result (seen_behind F.seen self.new) }
        ensures guarded { Guards F.seen Op.GetProp (path.now ∷ []) (λ s. GetsProp s path.now.key (name_of prop.now)) self.old result self.new }
    {
        let paths = one_path(path)?;
        let mut call = self.guard.begin(Op::GetProp, paths)?;
        let answer = self.inner.get_prop(path, prop, credentials);
        call.outcome = last_outcome(self.inner.records());
        self.guard.finish(call, answer)
    }

    fn get_props(&mut self, path: &DavPath, credentials: &C) -> FsResult<Vec<DavProp>>
        ensures seen { GetsProps (seen_behind F.seen self.old) path.now.key result (seen_behind F.seen self.new) }
        ensures guarded { Guards F.seen Op.GetProps (path.now ∷ []) (λ s. GetsProps s path.now.key) self.old result self.new }
    {
        let paths = one_path(path)?;
        let mut call = self.guard.begin(Op::GetProps, paths)?;
        let answer = self.inner.get_props(path, credentials);
        call.outcome = last_outcome(self.inner.records());
        self.guard.finish(call, answer)
    }

    fn patch_props(
        &mut self,
        path: &DavPath,
        patches: &[PropertyPatch],
        credentials: &C,
    ) -> FsResult<Vec<StatusCode>>
        requires some { patches.now ≢ [] }
        requires whole { All IsWhole patches.now }
        ensures seen { PatchesProps (seen_behind F.seen self.old) path.now.key patches.now result (seen_behind F.seen self.new) }
        ensures guarded { Guards F.seen Op.PatchProps (path.now ∷ []) (λ s. PatchesProps s path.now.key patches.now) self.old result self.new }
    {
        let paths = one_path(path)?;
        let mut call = self.guard.begin(Op::PatchProps, paths)?;
        let statuses = Vec::with_capacity(self.guard.allocator(), patches.len())?;
        let answer = self.inner.patch_props(path, patches, credentials);
        call.outcome = last_outcome(self.inner.records());
        self.guard
            .finish(with_statuses(call, statuses, &answer), answer)
    }

    fn get_quota(&mut self, credentials: &C) -> FsResult<(u64, Option<u64>)>
        ensures seen { GetsQuota (seen_behind F.seen self.old) result (seen_behind F.seen self.new) }
        ensures guarded { Guards F.seen Op.GetQuota [] GetsQuota self.old result self.new }
    {
        let paths = Paths::none();
        let mut call = self.guard.begin(Op::GetQuota, paths)?;
        let answer = self.inner.get_quota(credentials);
        call.outcome = last_outcome(self.inner.records());
        self.guard.finish(call, answer)
    }

    fn have_props(&self) -> bool {
        self.inner.have_props()
    }

    /// Passes the call on. It leaves no record, and no policy refuses it.
    fn start_body(&mut self) -> FsResult<BodyNumber>
        ensures seen { StartsBody (seen_behind F.seen self.old) result (seen_behind F.seen self.new) }
        ensures inner { StartsBody (F.seen (inner_of self.old)) result (F.seen (inner_of self.new)) }
        ensures policy { policy_of self.new ≡ policy_of self.old }
        ensures records { records_of self.new ≡ records_of self.old }
    {
        self.inner.start_body()
    }

    /// Passes the call on. It leaves no record, and no policy refuses it.
    fn add_to_body(&mut self, number: BodyNumber, bytes: &[u8]) -> FsResult<()>
        ensures seen { AddsToBody number bytes.now (seen_behind F.seen self.old) result (seen_behind F.seen self.new) }
        ensures inner { AddsToBody number bytes.now (F.seen (inner_of self.old)) result (F.seen (inner_of self.new)) }
        ensures policy { policy_of self.new ≡ policy_of self.old }
        ensures records { records_of self.new ≡ records_of self.old }
    {
        self.inner.add_to_body(number, bytes)
    }

    /// Passes the call on. It leaves no record, and no policy refuses it.
    fn drop_body(&mut self, number: BodyNumber)
        ensures seen { seen_behind F.seen self.new ≡ with_body (seen_behind F.seen self.old) number None }
        ensures inner { F.seen (inner_of self.new) ≡ with_body (F.seen (inner_of self.old)) number None }
        ensures policy { policy_of self.new ≡ policy_of self.old }
        ensures records { records_of self.new ≡ records_of self.old }
    {
        self.inner.drop_body(number);
    }

    fn body_length(&self, number: BodyNumber) -> Option<u64> {
        self.inner.body_length(number)
    }

    fn records(&self) -> &[Record]
        ensures seen { map logged_of result.now ≡ (seen_behind F.seen self.now).log }
        ensures records { result.now ≡ records_of self.now }
    {
        self.guard.records()
    }

    /// Empties its own log and that of the wrapped store.
    fn clear_log(&mut self)
        ensures seen { seen_behind F.seen self.new ≡ record (seen_behind F.seen self.old) { log = [] } }
        ensures inner { F.seen (inner_of self.new) ≡ record (F.seen (inner_of self.old)) { log = [] } }
        ensures policy { policy_of self.new ≡ policy_of self.old }
        ensures records { records_of self.new ≡ [] }
    {
        self.inner.clear_log();
        self.guard.clear();
    }
}
