//! A store that refuses calls by plan or by number.
ghost use Rattle.std.specs.Prelude.{◌≡◌, ◌≢◌, refl, ◌⊎◌, ◌<◌, ◌≤◌, ◌+◌, ◌-◌, ◌^◌, [], ◌∷◌, ◌++◌, All, false, map, length, vec_len, vec_capacity, IfOk, IfErr, OnOk, OnErr, MatchResult, Some, None};
ghost use Rattle.std.specs.Borrow.{sem};
ghost use Rattle.dav_store.specs.Logged.{logged_of};
ghost use Rattle.dav_store.specs.Calls.{IsOwn, LooksUp, MakesDirectory, Opens, Seeks, Writes, Flushes, LooksUpFile, place_of};
ghost use Rattle.dav_store.specs.Members.{ReadsDir, RemovesFile, RemovesDir};
ghost use Rattle.dav_store.specs.BodyCalls.{StartsBody, AddsToBody, with_body};
ghost use Rattle.dav_store.specs.Transfers.{Copies, Renames};
ghost use Rattle.dav_store.specs.PropertyCalls.{GetsProp, GetsProps, PatchesProps, GetsQuota, IsWhole, name_of};
ghost use Rattle.dav_store.specs.Logged.{record_on};
ghost use Rattle.dav_refusing.specs.Plans.{first_key, no_refusals, planned_key, with_last, without_firsts};
ghost use Rattle.dav_refusing.specs.Slots.{slot_call};

mod listing;
mod own_error;
mod pending;
mod plan;
mod slot;

use dav_resource::{
    BodyNumber, DavFile, DavPath, DavProp, DirEntry, Element, FsError, FsResult, Items, Meta, Op,
    OpenOptions, Outcome, Paths, PropertyPatch, Record,
};
use dav_store::{GuardedFileSystem, one_path, two_paths};
use dav_wrapping::{last_outcome, with_statuses};
use http::StatusCode;
use listing::{Unseen, refuse_members};
use pending::Pending;
use std::alloc::Global;

/// A store that wraps another store and refuses calls by plan or by number. It passes on each call for which
/// no error is due.
///
/// Each refusal is used once. The wrapper has its own log, with a record of each refused call and of each call
/// that was passed on. A call that runs out of memory uses up no refusal and leaves no record.
///
/// In a listing that was passed on, a member for which the plan has a refusal of `Op::Entry` is not listed.
/// The record of such a member has the listing's path with the member's name, without a trailing slash.
///
/// The calls `start_body`, `add_to_body`, `drop_body` and `body_length` are always passed on. They leave no
/// record, and no refusal is used for them.
///
/// If memory runs out, the wrapped store stays as it was, except that its log may have records of a listing.
#[derive(Debug, Drop)]
pub struct Refusing<F> {
    inner: F,
    pending: Pending,
    log: Vec<Record>,
}

impl<F> Refusing<F> {
    ghost use Rattle.dav_refusing.specs.Pending.{due, passed_by};
    ghost use Rattle.dav_refusing.specs.Refusing.{inner_of, pending_of, plan_of, records_of, IsWhollyKept, Refuses};
    ghost use Rattle.dav_refusing.specs.InnerLends.{LendsInner};

    /// Wraps a store, with an empty log. It passes on each call until refusals are added.
    pub fn new(alloc: Global, inner: F) -> Refusing<F>
        ensures inner { inner_of result ≡ inner }
        ensures plan { pending_of result ≡ record { numbered = None; plan = no_refusals } }
        ensures records { records_of result ≡ [] }
    {
        Refusing {
            inner,
            pending: Pending::new(alloc),
            log: Vec::new(alloc),
        }
    }

    /// Plans to refuse a call of this kind whose first path has the same key as this path. The refusal comes
    /// after those already planned for the same kind and key.
    ///
    /// The first path of a call on an open file is that of the file. `get_quota` has no path, so any path
    /// will do for it. `Op::Entry` stands for a member in a listing, and `Op::WriteBytes` for both
    /// `write_bytes` and `write_body`. The error must be one that a store may return for its own reasons.
    ///
    /// Fails only if memory runs out, and then nothing changes. The time is logarithmic in the number of
    /// planned calls.
    pub fn add(&mut self, op: Op, path: DavPath, error: FsError) -> FsResult<()>
        requires { IsOwn error }
        ensures inner { inner_of self.new ≡ inner_of self.old }
        ensures records { records_of self.new ≡ records_of self.old }
        ensures ok { OnOk result (pending_of self.new ≡ record (pending_of self.old) { plan = with_last op (planned_key op path.key) error (plan_of self.old) }) }
        ensures err { IfErr result (λ e. (e ≡ FsError.Memory) × (pending_of self.new ≡ pending_of self.old)) }
    {
        self.pending.add(op, path, error)?;
        Ok(())
    }

    /// Refuses the nth call from now, counted from 1, with this error. The error must be one that a store may
    /// return for its own reasons.
    ///
    /// Calls on open files and refused calls are counted. `have_props`, `records`, `clear_log`, the members
    /// of a listing and calls that run out of memory are not. Nor are `start_body`, `add_to_body`, `drop_body`
    /// and `body_length`. The numbered refusal comes before the plan and uses up none of it. It replaces an
    /// earlier numbered refusal.
    pub fn refuse_call(&mut self, n: u64, error: FsError)
        requires counted { 1 ≤ n }
        requires own { IsOwn error }
        ensures inner { inner_of self.new ≡ inner_of self.old }
        ensures records { records_of self.new ≡ records_of self.old }
        ensures numbered { pending_of self.new ≡ record (pending_of self.old) { numbered = Some (record { before = n - 1; error = error }) } }
    {
        self.pending.refuse_call(n, error);
    }

    /// Borrows the wrapped store.
    pub fn inner_mut(&mut self) -> &mut F
        ensures* writes_back { sem 𝓛 (LendsInner F.row self.entry result) }
        ensures inner { result.now ≡ inner_of self.old }
    {
        &mut self.inner
    }

    /// Returns the allocator of the log.
    fn allocator(&self) -> Global {
        *self.log.allocator()
    }

    /// Refuses a call on these paths if an error is due. Otherwise reserves capacity for its record, and
    /// returns the record of a granted call without statuses.
    fn begin(&mut self, op: Op, paths: Paths) -> FsResult<Record>
        ensures call { IfOk result (λ call. call ≡ record_on op paths Outcome.Granted) }
        ensures room { OnOk result (vec_len self.new.log < vec_capacity self.new.log) }
        ensures free { OnOk result (due op (first_key paths) (pending_of self.old) ≡ None) }
        ensures kept { OnOk result (IsWhollyKept self.old self.new) }
        ensures refused { IfErr result (λ e. ((e ≡ FsError.Memory) × IsWhollyKept self.old self.new) ⊎ (IsOwn e × Refuses op paths e self.old self.new)) }
    {
        self.log.reserve(1)?;
        let mut call = Record {
            op,
            paths,
            outcome: Outcome::Granted,
            statuses: Items::from_vec(Vec::new(self.allocator())),
        };
        match self.pending.take(op, call.paths.as_slice())? {
            Some(error) => {
                call.outcome = Outcome::Refused(error);
                self.log.push(call).unwrap();
                Err(error)
            }
            None => Ok(call),
        }
    }

    /// Records a listing and the members that it does not list, counts the call, and uses up the plan's
    /// refusals for members. Fails only if memory runs out, and then nothing changes.
    fn keep_listing(&mut self, call: Record, mut unseen: Unseen) -> FsResult<()>
        ensures inner { inner_of self.new ≡ inner_of self.old }
        ensures plan { OnOk result (pending_of self.new ≡ record (passed_by (pending_of self.old)) { plan = without_firsts (map slot_call unseen.refused.items) (plan_of self.old) }) }
        ensures records { OnOk result (records_of self.new ≡ records_of self.old ++ call ∷ unseen.records.items) }
        ensures err { IfErr result (λ e. (e ≡ FsError.Memory) × IsWhollyKept self.old self.new) }
    {
        self.log.reserve(1 + unseen.records.len())?;
        self.log.push(call).unwrap();
        self.log.append(&mut unseen.records).unwrap();
        self.pending.count();
        self.pending.use_up(&unseen.refused);
        Ok(())
    }

    /// Records and counts a call that was passed on, unless memory ran out in it. Returns the call's result.
    fn finish<T>(&mut self, call: Record, answer: FsResult<T>) -> FsResult<T>
        requires { vec_len self.old.log < vec_capacity self.old.log }
        ensures answer { result ≡ answer }
        ensures inner { inner_of self.new ≡ inner_of self.old }
        ensures memory { answer ≡ Err FsError.Memory → (pending_of self.new ≡ pending_of self.old) × (records_of self.new ≡ records_of self.old) }
        ensures counted { answer ≢ Err FsError.Memory → pending_of self.new ≡ passed_by (pending_of self.old) }
        ensures recorded { answer ≢ Err FsError.Memory → records_of self.new ≡ records_of self.old ++ call ∷ [] }
    {
        match answer {
            Err(FsError::Memory) => {}
            _ => {
                self.pending.count();
                self.log.push(call).unwrap();
            }
        }
        answer
    }
}

impl<C, F: GuardedFileSystem<C>> GuardedFileSystem<C> for Refusing<F> {
    ghost use Rattle.dav_refusing.specs.Refusing.{seen_behind, inner_of, body_behind, pending_of, records_of, Follows, FollowsReading, FollowsRead, ReadsBehind};

    ghost seen = { seen_behind F.seen };

    ghost reads = { λ store. record { reading = (F.reads store.inner).reading; may_fail = λ _. Unit {0} } };

    ghost well_formed = { λ store. F.well_formed store.inner };

    ghost tagged = { λ store. F.tagged store.inner };

    ghost allowed = { λ store call within granted. refl };

    fn metadata(&mut self, path: &DavPath, credentials: &C) -> FsResult<Meta>
        ensures seen { LooksUp (seen_behind F.seen self.old) path.now.key result (seen_behind F.seen self.new) }
        ensures plan { Follows F.seen Op.Metadata (path.now ∷ []) (λ s. LooksUp s path.now.key) self.old result self.new }
    {
        let paths = one_path(path)?;
        let mut call = self.begin(Op::Metadata, paths)?;
        let answer = self.inner.metadata(path, credentials);
        call.outcome = last_outcome(self.inner.records());
        self.finish(call, answer)
    }

    fn read_dir(&mut self, path: &DavPath, credentials: &C) -> FsResult<Vec<FsResult<DirEntry>>>
        ensures seen { ReadsDir (seen_behind F.seen self.old) path.now.key result (seen_behind F.seen self.new) }
        ensures plan { FollowsReading F.seen path.now self.old result self.new }
    {
        let paths = one_path(path)?;
        let mut call = self.begin(Op::ReadDir, paths)?;
        let recorded = self.inner.records().len();
        match self.inner.read_dir(path, credentials) {
            Ok(mut listing) => {
                let hidden = &self.inner.records()[recorded + 1..];
                let unseen = refuse_members(path, self.pending.plan(), &mut listing, hidden)?;
                self.keep_listing(call, unseen)?;
                Ok(listing)
            }
            Err(error) => {
                call.outcome = last_outcome(self.inner.records());
                self.finish(call, Err(error))
            }
        }
    }

    fn create_dir(&mut self, path: &DavPath, credentials: &C) -> FsResult<()>
        ensures seen { MakesDirectory (seen_behind F.seen self.old) path.now.key result (seen_behind F.seen self.new) }
        ensures plan { Follows F.seen Op.CreateDir (path.now ∷ []) (λ s. MakesDirectory s path.now.key) self.old result self.new }
    {
        let paths = one_path(path)?;
        let mut call = self.begin(Op::CreateDir, paths)?;
        let answer = self.inner.create_dir(path, credentials);
        call.outcome = last_outcome(self.inner.records());
        self.finish(call, answer)
    }

    fn remove_file(&mut self, path: &DavPath, credentials: &C) -> FsResult<()>
        ensures seen { RemovesFile (seen_behind F.seen self.old) path.now.key result (seen_behind F.seen self.new) }
        ensures plan { Follows F.seen Op.RemoveFile (path.now ∷ []) (λ s. RemovesFile s path.now.key) self.old result self.new }
    {
        let paths = one_path(path)?;
        let mut call = self.begin(Op::RemoveFile, paths)?;
        let answer = self.inner.remove_file(path, credentials);
        call.outcome = last_outcome(self.inner.records());
        self.finish(call, answer)
    }

    fn remove_dir(&mut self, path: &DavPath, credentials: &C) -> FsResult<()>
        ensures seen { RemovesDir (seen_behind F.seen self.old) path.now.key result (seen_behind F.seen self.new) }
        ensures plan { Follows F.seen Op.RemoveDir (path.now ∷ []) (λ s. RemovesDir s path.now.key) self.old result self.new }
    {
        let paths = one_path(path)?;
        let mut call = self.begin(Op::RemoveDir, paths)?;
        let answer = self.inner.remove_dir(path, credentials);
        call.outcome = last_outcome(self.inner.records());
        self.finish(call, answer)
    }

    fn copy(&mut self, from: &DavPath, to: &DavPath, credentials: &C) -> FsResult<()>
        ensures seen { Copies (seen_behind F.seen self.old) from.now.key to.now.key result (seen_behind F.seen self.new) }
        ensures plan { Follows F.seen Op.Copy (from.now ∷ to.now ∷ []) (λ s. Copies s from.now.key to.now.key) self.old result self.new }
    {
        let paths = two_paths(from, to)?;
        let mut call = self.begin(Op::Copy, paths)?;
        let answer = self.inner.copy(from, to, credentials);
        call.outcome = last_outcome(self.inner.records());
        self.finish(call, answer)
    }

    fn rename(&mut self, from: &DavPath, to: &DavPath, credentials: &C) -> FsResult<()>
        ensures seen { Renames (seen_behind F.seen self.old) from.now.key to.now.key result (seen_behind F.seen self.new) }
        ensures plan { Follows F.seen Op.Rename (from.now ∷ to.now ∷ []) (λ s. Renames s from.now.key to.now.key) self.old result self.new }
    {
        let paths = two_paths(from, to)?;
        let mut call = self.begin(Op::Rename, paths)?;
        let answer = self.inner.rename(from, to, credentials);
        call.outcome = last_outcome(self.inner.records());
        self.finish(call, answer)
    }

    fn open(&mut self, path: &DavPath, options: &OpenOptions, credentials: &C) -> FsResult<DavFile>
        ensures seen { Opens (seen_behind F.seen self.old) path.now options.now result (seen_behind F.seen self.new) }
        ensures plan { Follows F.seen Op.OpenFile (path.now ∷ []) (λ s. Opens s path.now options.now) self.old result self.new }
    {
        let paths = one_path(path)?;
        let mut call = self.begin(Op::OpenFile, paths)?;
        let answer = self.inner.open(path, options, credentials);
        call.outcome = last_outcome(self.inner.records());
        self.finish(call, answer)
    }

    fn read_bytes(
        &mut self,
        path: &DavPath,
        place: u64,
        count: usize,
        credentials: &C,
    ) -> FsResult<Vec<u8>>
        ensures seen { ReadsBehind F.reads F.seen path.now.key place count self.old result self.new }
        ensures plan { FollowsRead F.reads F.seen path.now place count self.old result self.new }
    {
        let paths = one_path(path)?;
        let mut call = self.begin(Op::ReadBytes, paths)?;
        let answer = self.inner.read_bytes(path, place, count, credentials);
        call.outcome = last_outcome(self.inner.records());
        self.finish(call, answer)
    }

    fn seek(&mut self, file: &mut DavFile, pos: u64, credentials: &C) -> FsResult<()>
        ensures sought { Seeks (seen_behind F.seen self.old) file.old.path.key result (seen_behind F.seen self.new) }
        ensures place { MatchResult result (λ _. file.new ≡ record file.old { pos = pos }) (λ _. file.new ≡ file.old) }
        ensures plan { Follows F.seen Op.Seek (file.old.path ∷ []) (λ s. Seeks s file.old.path.key) self.old result self.new }
    {
        let paths = one_path(&file.path)?;
        let mut call = self.begin(Op::Seek, paths)?;
        let answer = self.inner.seek(file, pos, credentials);
        call.outcome = last_outcome(self.inner.records());
        self.finish(call, answer)
    }

    fn write_bytes(&mut self, file: &mut DavFile, bytes: &[u8], credentials: &C) -> FsResult<()>
        requires { file.old.append ≡ false → file.old.pos + length bytes.now < 2 ^ 64 }
        ensures written { Writes (seen_behind F.seen self.old) file.old bytes.now result (seen_behind F.seen self.new) }
        ensures place { MatchResult result (λ _. file.new ≡ record file.old { pos = place_of file.old (seen_behind F.seen self.old).contents + length bytes.now }) (λ _. file.new ≡ file.old) }
        ensures plan { Follows F.seen Op.WriteBytes (file.old.path ∷ []) (λ s. Writes s file.old bytes.now) self.old result self.new }
    {
        let paths = one_path(&file.path)?;
        let mut call = self.begin(Op::WriteBytes, paths)?;
        let answer = self.inner.write_bytes(file, bytes, credentials);
        call.outcome = last_outcome(self.inner.records());
        self.finish(call, answer)
    }

    fn write_body(
        &mut self,
        file: &mut DavFile,
        number: BodyNumber,
        credentials: &C,
    ) -> FsResult<()>
        requires { file.old.append ≡ false → file.old.pos + length (body_behind F.seen self.old number) < 2 ^ 64 }
        ensures written { Writes (seen_behind F.seen self.old) file.old (body_behind F.seen self.old number) result (seen_behind F.seen self.new) }
        ensures place { MatchResult result (λ _. file.new ≡ record file.old { pos = place_of file.old (seen_behind F.seen self.old).contents + length (body_behind F.seen self.old number) }) (λ _. file.new ≡ file.old) }
        ensures plan { Follows F.seen Op.WriteBytes (file.old.path ∷ []) (λ s. Writes s file.old (body_behind F.seen self.old number)) self.old result self.new }
    {
        let paths = one_path(&file.path)?;
        let mut call = self.begin(Op::WriteBytes, paths)?;
        let answer = self.inner.write_body(file, number, credentials);
        call.outcome = last_outcome(self.inner.records());
        self.finish(call, answer)
    }

    fn flush(&mut self, file: &DavFile, credentials: &C) -> FsResult<()>
        ensures seen { Flushes (seen_behind F.seen self.old) file.now.path.key result (seen_behind F.seen self.new) }
        ensures plan { Follows F.seen Op.Flush (file.now.path ∷ []) (λ s. Flushes s file.now.path.key) self.old result self.new }
    {
        let paths = one_path(&file.path)?;
        let mut call = self.begin(Op::Flush, paths)?;
        let answer = self.inner.flush(file, credentials);
        call.outcome = last_outcome(self.inner.records());
        self.finish(call, answer)
    }

    fn file_metadata(&mut self, file: &DavFile, credentials: &C) -> FsResult<Meta>
        ensures seen { LooksUpFile (seen_behind F.seen self.old) file.now.path.key result (seen_behind F.seen self.new) }
        ensures plan { Follows F.seen Op.FileMetadata (file.now.path ∷ []) (λ s. LooksUpFile s file.now.path.key) self.old result self.new }
    {
        let paths = one_path(&file.path)?;
        let mut call = self.begin(Op::FileMetadata, paths)?;
        let answer = self.inner.file_metadata(file, credentials);
        call.outcome = last_outcome(self.inner.records());
        self.finish(call, answer)
    }

    fn get_prop(&mut self, path: &DavPath, prop: &DavProp, credentials: &C) -> FsResult<Element>
        ensures seen { GetsProp (seen_behind F.seen self.old) path.now.key (name_of prop.now) result (seen_behind F.seen self.new) }
        ensures plan { Follows F.seen Op.GetProp (path.now ∷ []) (λ s. GetsProp s path.now.key (name_of prop.now)) self.old result self.new }
    {
        let paths = one_path(path)?;
        let mut call = self.begin(Op::GetProp, paths)?;
        let answer = self.inner.get_prop(path, prop, credentials);
        call.outcome = last_outcome(self.inner.records());
        self.finish(call, answer)
    }

    fn get_props(&mut self, path: &DavPath, credentials: &C) -> FsResult<Vec<DavProp>>
        ensures seen { GetsProps (seen_behind F.seen self.old) path.now.key result (seen_behind F.seen self.new) }
        ensures plan { Follows F.seen Op.GetProps (path.now ∷ []) (λ s. GetsProps s path.now.key) self.old result self.new }
    {
        let paths = one_path(path)?;
        let mut call = self.begin(Op::GetProps, paths)?;
        let answer = self.inner.get_props(path, credentials);
        call.outcome = last_outcome(self.inner.records());
        self.finish(call, answer)
    }

    fn patch_props(
        &mut self,
        path: &DavPath,
        patches: &[PropertyPatch],
        credentials: &C,
    ) -> FsResult<Vec<StatusCode>>
        requires some { patches.now ≢ [] }
        requires whole { All IsWhole patches.now }
        ensures seen { PatchesProps (seen_behind F.seen self.old) path.now.key patches.now result (seen_behind F.seen self.new) }
        ensures plan { Follows F.seen Op.PatchProps (path.now ∷ []) (λ s. PatchesProps s path.now.key patches.now) self.old result self.new }
    {
        let paths = one_path(path)?;
        let mut call = self.begin(Op::PatchProps, paths)?;
        let statuses = Vec::with_capacity(self.allocator(), patches.len())?;
        let answer = self.inner.patch_props(path, patches, credentials);
        call.outcome = last_outcome(self.inner.records());
        self.finish(with_statuses(call, statuses, &answer), answer)
    }

    fn get_quota(&mut self, credentials: &C) -> FsResult<(u64, Option<u64>)>
        ensures seen { GetsQuota (seen_behind F.seen self.old) result (seen_behind F.seen self.new) }
        ensures plan { Follows F.seen Op.GetQuota [] GetsQuota self.old result self.new }
    {
        let paths = Paths::none();
        let mut call = self.begin(Op::GetQuota, paths)?;
        let answer = self.inner.get_quota(credentials);
        call.outcome = last_outcome(self.inner.records());
        self.finish(call, answer)
    }

    fn have_props(&self) -> bool {
        self.inner.have_props()
    }

    /// Passes the call on. It leaves no record, and no refusal is for it.
    fn start_body(&mut self) -> FsResult<BodyNumber>
        ensures seen { StartsBody (seen_behind F.seen self.old) result (seen_behind F.seen self.new) }
        ensures inner { StartsBody (F.seen (inner_of self.old)) result (F.seen (inner_of self.new)) }
        ensures plan { pending_of self.new ≡ pending_of self.old }
        ensures records { records_of self.new ≡ records_of self.old }
    {
        self.inner.start_body()
    }

    /// Passes the call on. It leaves no record, and no refusal is for it.
    fn add_to_body(&mut self, number: BodyNumber, bytes: &[u8]) -> FsResult<()>
        ensures seen { AddsToBody number bytes.now (seen_behind F.seen self.old) result (seen_behind F.seen self.new) }
        ensures inner { AddsToBody number bytes.now (F.seen (inner_of self.old)) result (F.seen (inner_of self.new)) }
        ensures plan { pending_of self.new ≡ pending_of self.old }
        ensures records { records_of self.new ≡ records_of self.old }
    {
        self.inner.add_to_body(number, bytes)
    }

    /// Passes the call on. It leaves no record, and no refusal is for it.
    fn drop_body(&mut self, number: BodyNumber)
        ensures seen { seen_behind F.seen self.new ≡ with_body (seen_behind F.seen self.old) number None }
        ensures inner { F.seen (inner_of self.new) ≡ with_body (F.seen (inner_of self.old)) number None }
        ensures plan { pending_of self.new ≡ pending_of self.old }
        ensures records { records_of self.new ≡ records_of self.old }
    {
        self.inner.drop_body(number);
    }

    fn body_length(&self, number: BodyNumber) -> Option<u64> {
        self.inner.body_length(number)
    }

    fn records(&self) -> &[Record]
        ensures seen { map logged_of result.now ≡ (seen_behind F.seen self.now).log }
        ensures records { result.now ≡ records_of self.now }
    {
        &self.log
    }

    /// Empties its own log and that of the wrapped store.
    fn clear_log(&mut self)
        ensures seen { seen_behind F.seen self.new ≡ record (seen_behind F.seen self.old) { log = [] } }
        ensures inner { F.seen (inner_of self.new) ≡ record (F.seen (inner_of self.old)) { log = [] } }
        ensures plan { pending_of self.new ≡ pending_of self.old }
        ensures records { records_of self.new ≡ [] }
    {
        self.inner.clear_log();
        self.log.clear();
    }
}
