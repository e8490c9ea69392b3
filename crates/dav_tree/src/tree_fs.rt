//! A store with its tree in memory.
ghost use Rattle.std.specs.Prelude.{◌≡◌, ◌≢◌, ◌⊎◌, ◌<◌, ◌≤◌, ℕ, ◌+◌, ◌^◌, [], ◌∷◌, map, All, length, option_map, replicate, false, true, IfOk, IfErr, OnOk, OnErr, IfSome, Some, None, refl};
ghost use Rattle.std.specs.FinMap.{get};
ghost use Rattle.dav_store.specs.Logged.{logged_of};
ghost use Rattle.dav_store.specs.Store.{Directory};
ghost use Rattle.dav_store.specs.Calls.{LooksUp, MakesDirectory, Opens, ReadsBytes, FailsToRead, bytes_from, Seeks, Writes, Flushes, LooksUpFile};
ghost use Rattle.dav_store.specs.BodyCalls.{StartsBody, AddsToBody, with_body};
ghost use Rattle.dav_store.specs.Members.{ReadsDir, RemovesFile, RemovesDir};
ghost use Rattle.dav_store.specs.Transfers.{Copies, Renames};
ghost use Rattle.dav_store.specs.PropertyCalls.{name_of, properties_at, IsWhole, GetsProp, GetsProps, PatchesProps, GetsQuota};
ghost use Rattle.dav_tree.specs.Memory.{IsSound, contents_of, begun, lengthened, put_held, with_held, added, removed, copied_into, IsRenamedAndMarked, with_patches};
ghost use Rattle.dav_tree.specs.Dump.{IsDump};
ghost use Rattle.dav_tree.specs.Lawful.{are_tagged, is_well_formed};
ghost use Rattle.dav_tree.specs.MemoryCalls.{PlacesFile, Records, RecordsWith, kept, look_error, read_dir_error, IsListing, create_dir_error, remove_file_error, remove_dir_error, read_bytes_error, open_error, opened, file_error, write_error, written, after_write, copy_error, rename_error, get_prop_error, properties_error, IsPropertyList, quota_error, start_error, add_error};
ghost use Rattle.std.proofs.Props.{props};
ghost use Rattle.dav_tree.specs.KeyProps.{IsKey-prop};

mod files;
mod loading;
mod patches;
mod records;
mod tree;

use crate::entries::Entries;
use crate::entry::Entry;
use crate::in_memory::InMemory;
use crate::medium::Medium;
use dav_nodes::{Changes, PlacedValue};
use dav_resource::{
    BodyNumber, DavFile, DavPath, DavProp, DirEntry, Element, FsError, FsResult, Items, Meta, Op,
    OpenOptions, PropertyPatch, Record,
};
use dav_store::GuardedFileSystem;
use http::StatusCode;
use std::alloc::Global;

/// A store of files and directories with dead properties, whose tree is in memory. What files contain is on a
/// medium.
///
/// It refuses a recorded call for its own reasons in two cases. One is that the call would count as a change, and the
/// change counter would pass `u64::MAX`. The error is then `GeneralFailure`. The counter starts at 0 (`with_version`
/// sets another start). Each successful `create_dir`, `copy`, `write_bytes` and `write_body`, and each `open` that
/// creates or truncates a file, adds one. The new number, in lower-case hexadecimal, is the entity tag of the resource
/// created or changed, behind the part that `set_tag_part` has set for all tags, if any. If directories are marked
/// (`set_marks_parents`), each mark adds one too, and gives the directory a new entity tag. The other case is an error
/// of the medium's own, in `read_bytes`, `write_bytes`, `write_body` and `copy`. A medium in memory has no such errors.
///
/// It allows every call and lists every member. The bodies that it holds for requests to come do not count in
/// the quota. Their numbers are given in ascending order from 0, and each only once. `start_body` refuses
/// with `GeneralFailure` when no number is left.
///
/// Each call looks its path up once. A lookup makes one step for each segment of the path, and remembers the
/// place that it finds. Other costs are listed at each call. A call that returns `Memory` changes nothing.
#[derive(Drop)]
pub struct TreeFs<M: Medium> {
    entries: Entries<M>,
    version: u64,
    moment: u64,
    limit: Option<Option<u64>>,
    tag_part: Option<u128>,
    marks_parents: bool,
    log: Vec<Record>,
    ghost sound: { IsSound entries.resources } by { Prim.hlevel (props, IsKey-prop) },
}

impl TreeFs<InMemory> {
    ghost use Rattle.dav_tree.specs.TreeFs.{memory_of, store_of, records_of};
    ghost use Rattle.dav_tree.specs.Memory.{first_memory};

    /// Creates a store that holds only the root, created at time 0, with an empty log, no bodies and no
    /// quota. Fails only if memory runs out.
    pub fn new(alloc: Global) -> FsResult<TreeFs<InMemory>>
        ensures memory { IfOk result (λ store. memory_of store ≡ first_memory 0 None) }
        ensures log { IfOk result (λ store. (store_of store).log ≡ []) }
        ensures records { IfOk result (λ store. records_of store ≡ []) }
        ensures err { IfErr result (λ e. e ≡ FsError.Memory) }
    {
        TreeFs::over(alloc, InMemory, 0, None)
    }

    /// Creates a store as `new` does, with a quota: `Some` gives its total bytes, `None` sets no limit. The
    /// quota is reported but not enforced: no write is refused because of it. Fails only if memory runs out.
    pub fn with_quota(alloc: Global, total: Option<u64>) -> FsResult<TreeFs<InMemory>>
        ensures memory { IfOk result (λ store. memory_of store ≡ first_memory 0 (Some total)) }
        ensures log { IfOk result (λ store. (store_of store).log ≡ []) }
        ensures records { IfOk result (λ store. records_of store ≡ []) }
        ensures err { IfErr result (λ e. e ≡ FsError.Memory) }
    {
        TreeFs::over(alloc, InMemory, 0, Some(total))
    }

    /// Creates a store as `new` does, with the change counter at `version`. At `u64::MAX` the store refuses
    /// every call that would add to the counter. Fails only if memory runs out.
    pub fn with_version(alloc: Global, version: u64) -> FsResult<TreeFs<InMemory>>
        ensures memory { IfOk result (λ store. memory_of store ≡ first_memory version None) }
        ensures log { IfOk result (λ store. (store_of store).log ≡ []) }
        ensures records { IfOk result (λ store. records_of store ≡ []) }
        ensures err { IfErr result (λ e. e ≡ FsError.Memory) }
    {
        TreeFs::over(alloc, InMemory, version, None)
    }

    /// Returns a copy of all resources, in the order of their keys. Each has its path without the prefix,
    /// with a trailing slash exactly if it is a directory, a file's bytes, and the properties with their
    /// elements. The call leaves no record in the log. Fails only if memory runs out.
    pub fn dump(&self) -> FsResult<Vec<(DavPath, Option<Vec<u8>>, Vec<DavProp>)>>
        ensures dump { IfOk result (λ dumped. IsDump (memory_of self.now).resources dumped.items) }
        ensures err { IfErr result (λ e. e ≡ FsError.Memory) }
    {
        Ok(self.entries.dump(*self.log.allocator())?)
    }
}

impl<M: Medium> TreeFs<M> {
    ghost use Rattle.dav_tree.specs.TreeFs.{memory_of, store_of, records_of, before_of, older_of, entries_of, honest_of, settled_of};
    ghost use Rattle.dav_tree.specs.Memory.{first_memory, asked, modified_at};
    ghost use Rattle.dav_tree.specs.Modified.{SetsModified};
    ghost use Rattle.dav_nodes.specs.Rows.{row_in};
    ghost use Rattle.dav_tree.specs.Before.{IsNotedBetween, IsSaved, HasSaved, HasTree, HasEntry, HasNoEntry};
    ghost use base.Stored.{gnil};

    /// Creates a store over a medium. It holds only the root, created at time 0, and no bodies. The change
    /// counter is at `version`, the quota is `limit`, and the log is empty. Fails only if memory runs out.
    pub fn over(
        alloc: Global,
        medium: M,
        version: u64,
        limit: Option<Option<u64>>,
    ) -> FsResult<TreeFs<M>>
        ensures memory { IfOk result (λ store. memory_of store ≡ first_memory version limit) }
        ensures log { IfOk result (λ store. (store_of store).log ≡ []) }
        ensures records { IfOk result (λ store. records_of store ≡ []) }
        ensures err { IfErr result (λ e. e ≡ FsError.Memory) }
    {
        Ok(TreeFs {
            entries: Entries::new(alloc, medium)?,
            version,
            moment: 0,
            limit,
            tag_part: None,
            marks_parents: false,
            log: Vec::new(alloc),
        })
    }

    /// Whether a resource may have been made, changed or removed since `take_changes` was last called. If not, what
    /// is saved is all that there is.
    pub fn has_changes(&self) -> bool
        ensures { result ≡ false → IsSaved self.now.entries }
    {
        self.entries.has_changes()
    }

    /// The resources have a tree of entries. It does nothing: callers learn this of the tree.
    pub fn show_entries(&self)
        ensures { HasTree M.body_code (entries_of self.now) (memory_of self.now).resources }
    {
        self.entries.show();
    }

    /// The resources are those of a store. It does nothing: callers learn this of the resources.
    pub fn show_sound(&self)
        ensures { IsSound (memory_of self.now).resources }
    {}

    /// Returns the number of changes so far.
    pub fn version(&self) -> u64
        ensures { result ≡ (memory_of self.now).version }
    {
        self.version
    }

    /// Returns the resource with a number, with its place in the tree, if there is one.
    pub fn resource(&self, number: usize) -> Option<PlacedValue<'_, Entry<M::Body>>>
        ensures some { IfSome result (λ placed. HasEntry M.body_code (entries_of self.now) number (row_in placed)) }
        ensures none { result ≡ None → HasNoEntry M.body_code (entries_of self.now) number }
    {
        self.entries.resource(number)
    }

    /// Returns a number that is greater than that of each resource.
    pub fn number_limit(&self) -> usize
        ensures { (number : ℕ) → result ≤ number → HasNoEntry M.body_code (entries_of self.now) number }
    {
        self.entries.number_limit()
    }

    /// Makes safe what files contain, and returns the numbers of the resources that were made, changed or removed
    /// since this was last called. A rename changes the one resource that it moves, and none below it. The first
    /// call returns `Changes::All`, and so does a call after memory ran out. Until the first call nothing is noted.
    /// What there is now stays safe on the medium until the second call from now. So what was saved before is still
    /// safe while the changes are saved elsewhere; a sweep then gives it up.
    ///
    /// Returns an error of the medium's own if it cannot make all bodies safe, and then nothing changes.
    pub fn take_changes(&mut self) -> FsResult<Changes>
        ensures noted { IfOk result (λ changes. IsNotedBetween M.body_code changes (before_of self.old) (entries_of self.old)) }
        ensures saved { OnOk result (IsSaved self.new.entries) }
        ensures entries { entries_of self.new ≡ entries_of self.old }
        ensures same { OnErr result (before_of self.new ≡ before_of self.old) }
        ensures older { OnOk result (older_of self.new ≡ before_of self.old) }
        ensures older_same { OnErr result (older_of self.new ≡ older_of self.old) }
        ensures err { IfErr result (λ e. M.refuses e ≡ true) }
        ensures memory { memory_of self.new ≡ with_held (asked (before_of self.new)) (memory_of self.old) }
        ensures records { records_of self.new ≡ records_of self.old }
    {
        self.entries.take_changes()
    }

    /// Has the medium give up the bodies that neither a file has nor a request waits for, so that their room can
    /// be used again. Nothing else changes. Passes each body to the medium once. Must come after `take_changes`, if
    /// that was ever called, without a change between: what is safe for the last call would be lost otherwise. What
    /// was safe for the call before is given up.
    pub fn sweep(&mut self)
        requires { (before_of self.old ≡ gnil) ⊎ IsSaved self.old.entries }
        ensures memory { memory_of self.new ≡ memory_of self.old }
        ensures entries { entries_of self.new ≡ entries_of self.old }
        ensures older { older_of self.new ≡ gnil }
        ensures records { records_of self.new ≡ records_of self.old }
    {
        self.entries.sweep();
    }

    /// Returns the medium. What there was at the last call of `take_changes` is safe there.
    pub fn medium(&self) -> &M
        ensures { HasSaved M.body_code (M.bytes result.now) (M.safe result.now) (before_of self.now) }
    {
        self.entries.medium()
    }

    /// Returns the medium. What there was at the last call of `take_changes` is safe there. So is what there was at
    /// the call before, unless `sweep` came after.
    pub fn into_medium(self) -> M
        ensures honest { M.is_honest result ≡ honest_of self }
        ensures settled { M.settled result ≡ settled_of self }
        ensures last { HasSaved M.body_code (M.bytes result) (M.safe result) (before_of self) }
        ensures older { HasSaved M.body_code (M.bytes result) (M.safe result) (older_of self) }
    {
        self.entries.into_medium()
    }

    /// Sets the current time, in whole seconds since 1970. The contents and the log stay the same.
    pub fn set_now(&mut self, now: u64)
        ensures memory { memory_of self.new ≡ record (memory_of self.old) { moment = now } }
        ensures seen { store_of self.new ≡ store_of self.old }
        ensures records { records_of self.new ≡ records_of self.old }
    {
        self.moment = now;
    }

    /// Sets the part of each entity tag that comes before the version, with a hyphen, in lower-case hexadecimal, or
    /// that there is none. All tags change, and nothing else. Two stores with different parts have no tag in common.
    pub fn set_tag_part(&mut self, part: Option<u128>)
        ensures memory { memory_of self.new ≡ record (memory_of self.old) { tag_part = part } }
        ensures entries { self.new.entries ≡ self.old.entries }
        ensures records { records_of self.new ≡ records_of self.old }
    {
        self.tag_part = part;
    }

    /// Sets whether a directory is marked when it gains or loses a member: it then gets a new version, which is its
    /// entity tag, and the current time as its time of modification. A new store marks no directory. Nothing else changes.
    ///
    /// A `create_dir`, an `open` that creates a file, a `remove_file`, a `remove_dir`, and a `copy` to a path where nothing
    /// exists mark the parent of the path. A `rename` marks both parents, also where they are one directory.
    pub fn set_marks_parents(&mut self, marks: bool)
        ensures memory { memory_of self.new ≡ record (memory_of self.old) { marks = marks } }
        ensures entries { self.new.entries ≡ self.old.entries }
        ensures records { records_of self.new ≡ records_of self.old }
    {
        self.marks_parents = marks;
    }

    /// Sets when the resource at a path was last modified, in whole seconds since 1970. Nothing else changes: its entity
    /// tag and the log stay the same.
    ///
    /// `NotFound`: nothing exists at the path. There is no other error, and after it nothing has changed.
    pub fn set_modified(&mut self, path: &DavPath, time: u64) -> FsResult<()>
        ensures seen { OnOk result (SetsModified path.now.key time (store_of self.old) (store_of self.new)) }
        ensures memory { OnOk result (memory_of self.new ≡ modified_at path.now.key time (memory_of self.old)) }
        ensures err { OnErr result (memory_of self.new ≡ memory_of self.old) }
        ensures cause { IfErr result (λ e. (e ≡ FsError.NotFound) × (get (contents_of (memory_of self.old)).tree path.now.key ≡ None)) }
        ensures records { records_of self.new ≡ records_of self.old }
    {
        let Some(place) = self.entries.find(path.key()) else {
            return Err(FsError::NotFound);
        };
        self.entries.set_modified(place.number, time);
        Ok(())
    }
}

impl<C, M: Medium> GuardedFileSystem<C> for TreeFs<M> {
    ghost use Rattle.dav_tree.specs.TreeFs.{memory_of, store_of, records_of, body_of, file_of, reads_of, GivesIn, GivesOverIn, YieldsIn};

    ghost seen = { store_of };

    ghost reads = { reads_of };

    ghost well_formed = { λ store. is_well_formed (memory_of store) store.sound };

    ghost tagged = { λ store. are_tagged (memory_of store) (map logged_of store.log.items) };

    ghost allowed = { λ store call inside granted. refl };

    fn metadata(&mut self, path: &DavPath, _credentials: &C) -> FsResult<Meta>
        ensures seen { LooksUp (store_of self.old) path.now.key result (store_of self.new) }
        ensures memory { GivesIn (look_error path.now.key) kept self.old result self.new }
        ensures record { Records Op.Metadata (path.now ∷ []) result (records_of self.old) (records_of self.new) }
    {
        let paths = self.begin_record(path)?;
        let answer = self.look(path);
        self.end_record(Op::Metadata, paths, answer)
    }

    fn create_dir(&mut self, path: &DavPath, _credentials: &C) -> FsResult<()>
        ensures seen { MakesDirectory (store_of self.old) path.now.key result (store_of self.new) }
        ensures memory { GivesIn (create_dir_error path.now.key) (added path.now.key Directory) self.old result self.new }
        ensures record { Records Op.CreateDir (path.now ∷ []) result (records_of self.old) (records_of self.new) }
    {
        let paths = self.begin_record(path)?;
        let answer = self.make_directory(path);
        self.end_record(Op::CreateDir, paths, answer)
    }

    fn read_dir(&mut self, path: &DavPath, _credentials: &C) -> FsResult<Vec<FsResult<DirEntry>>>
        ensures seen { ReadsDir (store_of self.old) path.now.key result (store_of self.new) }
        ensures listing { IfOk result (λ listing. IsListing (memory_of self.old).tag_part path.now.key (memory_of self.old).resources listing.items) }
        ensures memory { GivesIn (read_dir_error path.now.key) kept self.old result self.new }
        ensures record { Records Op.ReadDir (path.now ∷ []) result (records_of self.old) (records_of self.new) }
    {
        let paths = self.begin_record(path)?;
        let answer = self.list(path);
        self.end_record(Op::ReadDir, paths, answer)
    }

    fn remove_file(&mut self, path: &DavPath, _credentials: &C) -> FsResult<()>
        ensures seen { RemovesFile (store_of self.old) path.now.key result (store_of self.new) }
        ensures memory { GivesIn (remove_file_error path.now.key) (removed path.now.key) self.old result self.new }
        ensures record { Records Op.RemoveFile (path.now ∷ []) result (records_of self.old) (records_of self.new) }
    {
        let paths = self.begin_record(path)?;
        let answer = self.take_file(path);
        self.end_record(Op::RemoveFile, paths, answer)
    }

    fn remove_dir(&mut self, path: &DavPath, _credentials: &C) -> FsResult<()>
        ensures seen { RemovesDir (store_of self.old) path.now.key result (store_of self.new) }
        ensures memory { GivesIn (remove_dir_error path.now.key) (removed path.now.key) self.old result self.new }
        ensures record { Records Op.RemoveDir (path.now ∷ []) result (records_of self.old) (records_of self.new) }
    {
        let paths = self.begin_record(path)?;
        let answer = self.take_directory(path);
        self.end_record(Op::RemoveDir, paths, answer)
    }

    fn open(&mut self, path: &DavPath, options: &OpenOptions, _credentials: &C) -> FsResult<DavFile>
        ensures seen { Opens (store_of self.old) path.now options.now result (store_of self.new) }
        ensures memory { GivesIn (open_error options.now path.now.key) (opened options.now path.now.key) self.old result self.new }
        ensures record { Records Op.OpenFile (path.now ∷ []) result (records_of self.old) (records_of self.new) }
    {
        let paths = self.begin_record(path)?;
        let answer = self.open_file(path, options);
        self.end_record(Op::OpenFile, paths, answer)
    }

    /// Copies the bytes that it returns.
    fn read_bytes(
        &mut self,
        path: &DavPath,
        place: u64,
        count: usize,
        _credentials: &C,
    ) -> FsResult<Vec<u8>>
        ensures read { ReadsBytes (reads_of self.new) (store_of self.old) path.now.key place count result (store_of self.new) }
        ensures cause { IfErr result (FailsToRead (reads_of self.new) (store_of self.old) path.now.key) }
        ensures bytes { IfOk result (λ bytes. (reads_of self.new).reading (file_of self.old path.now.key) place count bytes.items) }
        ensures count { IfOk result (λ bytes. length bytes.items ≡ length (bytes_from place count (file_of self.old path.now.key))) }
        ensures memory { GivesOverIn (read_bytes_error path.now.key) kept self.old result self.new }
        ensures record { Records Op.ReadBytes (path.now ∷ []) result (records_of self.old) (records_of self.new) }
    {
        let paths = self.begin_record(path)?;
        let answer = self.read_file(path, place, count);
        self.end_record(Op::ReadBytes, paths, answer)
    }

    fn seek(&mut self, file: &mut DavFile, pos: u64, _credentials: &C) -> FsResult<()>
        ensures sought { Seeks (store_of self.old) file.old.path.key result (store_of self.new) }
        ensures place { PlacesFile result file.old (record file.old { pos = pos }) file.new }
        ensures memory { GivesIn (file_error file.old.path.key) kept self.old result self.new }
        ensures record { Records Op.Seek (file.old.path ∷ []) result (records_of self.old) (records_of self.new) }
    {
        let paths = self.begin_record(&file.path)?;
        let answer = self.move_place(file, pos);
        self.end_record(Op::Seek, paths, answer)
    }

    fn write_bytes(&mut self, file: &mut DavFile, bytes: &[u8], _credentials: &C) -> FsResult<()>
        requires { file.old.append ≡ false → file.old.pos + length bytes.now < 2 ^ 64 }
        ensures written { Writes (store_of self.old) file.old bytes.now result (store_of self.new) }
        ensures place { PlacesFile result file.old (after_write file.old bytes.now (memory_of self.old)) file.new }
        ensures memory { GivesOverIn (write_error file.old.path.key) (written file.old bytes.now) self.old result self.new }
        ensures record { Records Op.WriteBytes (file.old.path ∷ []) result (records_of self.old) (records_of self.new) }
    {
        let paths = self.begin_record(&file.path)?;
        let answer = self.write_file(file, bytes);
        self.end_record(Op::WriteBytes, paths, answer)
    }

    fn write_body(
        &mut self,
        file: &mut DavFile,
        number: BodyNumber,
        _credentials: &C,
    ) -> FsResult<()>
        requires { file.old.append ≡ false → file.old.pos + length (body_of self.old number) < 2 ^ 64 }
        ensures written { Writes (store_of self.old) file.old (body_of self.old number) result (store_of self.new) }
        ensures place { PlacesFile result file.old (after_write file.old (body_of self.old number) (memory_of self.old)) file.new }
        ensures memory { GivesOverIn (write_error file.old.path.key) (written file.old (body_of self.old number)) self.old result self.new }
        ensures record { Records Op.WriteBytes (file.old.path ∷ []) result (records_of self.old) (records_of self.new) }
    {
        let paths = self.begin_record(&file.path)?;
        let answer = self.write_stored(file, number);
        self.end_record(Op::WriteBytes, paths, answer)
    }

    fn flush(&mut self, file: &DavFile, _credentials: &C) -> FsResult<()>
        ensures seen { Flushes (store_of self.old) file.now.path.key result (store_of self.new) }
        ensures memory { GivesIn (file_error file.now.path.key) kept self.old result self.new }
        ensures record { Records Op.Flush (file.now.path ∷ []) result (records_of self.old) (records_of self.new) }
    {
        let paths = self.begin_record(&file.path)?;
        let answer = self.check_file(file);
        self.end_record(Op::Flush, paths, answer)
    }

    fn file_metadata(&mut self, file: &DavFile, _credentials: &C) -> FsResult<Meta>
        ensures seen { LooksUpFile (store_of self.old) file.now.path.key result (store_of self.new) }
        ensures memory { GivesIn (file_error file.now.path.key) kept self.old result self.new }
        ensures record { Records Op.FileMetadata (file.now.path ∷ []) result (records_of self.old) (records_of self.new) }
    {
        let paths = self.begin_record(&file.path)?;
        let answer = self.look_at_file(file);
        self.end_record(Op::FileMetadata, paths, answer)
    }

    /// Copies the file's bytes and the names of its properties. The elements are shared.
    fn copy(&mut self, from: &DavPath, to: &DavPath, _credentials: &C) -> FsResult<()>
        ensures seen { Copies (store_of self.old) from.now.key to.now.key result (store_of self.new) }
        ensures memory { GivesOverIn (copy_error from.now.key to.now.key) (copied_into from.now.key to.now.key) self.old result self.new }
        ensures record { Records Op.Copy (from.now ∷ to.now ∷ []) result (records_of self.old) (records_of self.new) }
    {
        let paths = self.begin_record_of_two(from, to)?;
        let answer = self.copy_file(from, to);
        self.end_record(Op::Copy, paths, answer)
    }

    /// It costs the same however many resources are below the path. No file's bytes are copied.
    fn rename(&mut self, from: &DavPath, to: &DavPath, _credentials: &C) -> FsResult<()>
        ensures seen { Renames (store_of self.old) from.now.key to.now.key result (store_of self.new) }
        ensures memory { YieldsIn (rename_error from.now.key to.now.key) (IsRenamedAndMarked from.now.key to.now.key) self.old result self.new }
        ensures record { Records Op.Rename (from.now ∷ to.now ∷ []) result (records_of self.old) (records_of self.new) }
    {
        let paths = self.begin_record_of_two(from, to)?;
        let answer = self.move_all(from, to);
        self.end_record(Op::Rename, paths, answer)
    }

    /// Copies the element.
    fn get_prop(&mut self, path: &DavPath, prop: &DavProp, _credentials: &C) -> FsResult<Element>
        ensures seen { GetsProp (store_of self.old) path.now.key (name_of prop.now) result (store_of self.new) }
        ensures memory { GivesIn (get_prop_error path.now.key (name_of prop.now)) kept self.old result self.new }
        ensures record { Records Op.GetProp (path.now ∷ []) result (records_of self.old) (records_of self.new) }
    {
        let paths = self.begin_record(path)?;
        let answer = self.find_prop(path, prop);
        self.end_record(Op::GetProp, paths, answer)
    }

    /// Copies the names and prefixes of the path's properties. The elements are shared.
    fn get_props(&mut self, path: &DavPath, _credentials: &C) -> FsResult<Vec<DavProp>>
        ensures seen { GetsProps (store_of self.old) path.now.key result (store_of self.new) }
        ensures props { IfOk result (λ props. IsPropertyList (properties_at (contents_of (memory_of self.old)) path.now.key) props.items) }
        ensures memory { GivesIn (properties_error path.now.key) kept self.old result self.new }
        ensures record { Records Op.GetProps (path.now ∷ []) result (records_of self.old) (records_of self.new) }
    {
        let paths = self.begin_record(path)?;
        let answer = self.list_props(path);
        self.end_record(Op::GetProps, paths, answer)
    }

    /// Makes at most two copies of a property's name for each change, and a few lookups among the path's
    /// properties and among the changes. Properties that are not changed cost nothing.
    fn patch_props(
        &mut self,
        path: &DavPath,
        patches: &[PropertyPatch],
        _credentials: &C,
    ) -> FsResult<Vec<StatusCode>>
        requires some { patches.now ≢ [] }
        requires whole { All IsWhole patches.now }
        ensures seen { PatchesProps (store_of self.old) path.now.key patches.now result (store_of self.new) }
        ensures statuses { IfOk result (λ statuses. statuses.items ≡ replicate (length patches.now) 200) }
        ensures memory { GivesIn (properties_error path.now.key) (with_patches path.now.key patches.now) self.old result self.new }
        ensures record { RecordsWith (λ statuses. statuses.items) Op.PatchProps (path.now ∷ []) result (records_of self.old) (records_of self.new) }
    {
        let paths = self.begin_record(path)?;
        let statuses = Items::from_vec(patches::all_ok(*self.log.allocator(), patches.len())?);
        let answer = self.patch(path, patches);
        self.end_record_with(Op::PatchProps, paths, statuses, answer)
    }

    fn get_quota(&mut self, _credentials: &C) -> FsResult<(u64, Option<u64>)>
        ensures seen { GetsQuota (store_of self.old) result (store_of self.new) }
        ensures memory { GivesIn quota_error kept self.old result self.new }
        ensures record { Records Op.GetQuota [] result (records_of self.old) (records_of self.new) }
    {
        let paths = self.begin_record_of_none()?;
        let answer = self.read_quota();
        self.end_record(Op::GetQuota, paths, answer)
    }

    fn have_props(&self) -> bool {
        true
    }

    fn start_body(&mut self) -> FsResult<BodyNumber>
        ensures seen { StartsBody (store_of self.old) result (store_of self.new) }
        ensures number { IfOk result (λ number. number ≡ (memory_of self.old).held.next) }
        ensures memory { GivesIn (λ old. start_error old.held) (with_held begun) self.old result self.new }
        ensures records { records_of self.new ≡ records_of self.old }
    {
        self.entries.start_body()
    }

    fn add_to_body(&mut self, number: BodyNumber, bytes: &[u8]) -> FsResult<()>
        ensures seen { AddsToBody number bytes.now (store_of self.old) result (store_of self.new) }
        ensures memory { GivesOverIn (λ old. add_error number old.held) (with_held (lengthened number bytes.now)) self.old result self.new }
        ensures records { records_of self.new ≡ records_of self.old }
    {
        self.entries.add_to_body(number, bytes)
    }

    fn drop_body(&mut self, number: BodyNumber)
        ensures seen { store_of self.new ≡ with_body (store_of self.old) number None }
        ensures memory { memory_of self.new ≡ with_held (put_held number None) (memory_of self.old) }
        ensures records { records_of self.new ≡ records_of self.old }
    {
        self.entries.drop_body(number);
    }

    fn body_length(&self, number: BodyNumber) -> Option<u64>
        ensures { result ≡ option_map length ((store_of self.now).facts.bodies number) }
    {
        self.entries.body_length(number)
    }

    fn records(&self) -> &[Record]
        ensures seen { map logged_of result.now ≡ (store_of self.now).log }
        ensures records { result.now ≡ records_of self.now }
    {
        &self.log
    }

    fn clear_log(&mut self)
        ensures seen { store_of self.new ≡ record (store_of self.old) { log = [] } }
        ensures memory { memory_of self.new ≡ memory_of self.old }
        ensures records { records_of self.new ≡ [] }
    {
        self.log.clear();
    }
}
