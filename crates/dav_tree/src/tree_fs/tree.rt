//! The store's calls on the tree: lookup, listing, creation, removal, copying, renaming and quota.
ghost use Rattle.std.specs.Prelude.{◌≡◌, ◌≢◌, true, IfOk, None, Some, Err, Option, is_some};
ghost use Rattle.std.specs.FinMap.{get};
ghost use Rattle.dav_key.specs.Key.{Key};
ghost use Rattle.dav_key.specs.Below.{is_below};
ghost use Rattle.dav_store.specs.Store.{Directory};
ghost use Rattle.dav_tree.specs.Found.{directory_in};
ghost use Rattle.dav_tree.specs.TreeFs.{memory_of, GivesIn, GivesOverIn, YieldsIn, MarksAt};
ghost use Rattle.dav_tree.specs.Memory.{Stored, contents_of, quota_of, added, removed, copied_into, IsRenamedAndMarked};
ghost use Rattle.dav_tree.specs.MemoryCalls.{kept, look_error, read_dir_error, IsListing, create_dir_error, remove_file_error, remove_dir_error, copy_error, rename_error, quota_error, has_room, IsNextVersion, IsMemberVersion, IsCopyVersion};

use super::TreeFs;
use crate::entries::Place;
use crate::medium::Medium;
use dav_resource::{DavPath, DirEntry, FsError, FsResult, Meta};

impl<M: Medium> TreeFs<M> {
    pub(super) fn look(&mut self, path: &DavPath) -> FsResult<Meta>
        ensures log { self.new.log ≡ self.old.log }
        ensures meta { IfOk result (λ meta. (contents_of (memory_of self.old)).metas path.now.key ≡ Some meta) }
        ensures answer { GivesIn (look_error path.now.key) kept self.old result self.new }
    {
        match self.entries.find(path.key()) {
            Some(place) => Ok(self.entries.meta(place.number, self.tag_part)?),
            None => Err(FsError::NotFound),
        }
    }

    /// Returns the members of a directory.
    pub(super) fn list(&mut self, path: &DavPath) -> FsResult<Vec<FsResult<DirEntry>>>
        ensures log { self.new.log ≡ self.old.log }
        ensures listing { IfOk result (λ listing. IsListing (memory_of self.old).tag_part path.now.key (memory_of self.old).resources listing.items) }
        ensures answer { GivesIn (read_dir_error path.now.key) kept self.old result self.new }
    {
        let Some(place) = self.entries.find(path.key()) else {
            return Err(FsError::NotFound);
        };
        if !place.directory {
            return Err(FsError::Forbidden);
        }
        let alloc = *self.log.allocator();
        Ok(self.entries.list(alloc, path.key(), self.tag_part)?)
    }

    /// Returns the number of the next change, or `GeneralFailure` if the counter is at `u64::MAX`.
    pub(super) fn next_version(&self) -> FsResult<u64>
        ensures { IsNextVersion (memory_of self.now) result }
    {
        match self.version.checked_add(1) {
            Some(version) => Ok(version),
            None => Err(FsError::GeneralFailure),
        }
    }

    /// Returns the number of the next change, which adds a member to a directory, or `GeneralFailure` if the counter
    /// has no room for it and for the mark of the directory.
    pub(super) fn member_version(&self) -> FsResult<u64>
        ensures { IsMemberVersion (memory_of self.now) result }
    {
        if !self.has_room(2) {
            return Err(FsError::GeneralFailure);
        }
        self.next_version()
    }

    /// Returns whether the counter has room for a number of changes. It always has if directories are not marked.
    fn has_room(&self, changes: u64) -> bool
        ensures { result ≡ has_room changes (memory_of self.now) }
    {
        !self.marks_parents || self.version.checked_add(changes).is_some()
    }

    /// Marks the directory with a number, which has gained or lost a member: it gets the next version and the current
    /// time. Does nothing if directories are not marked.
    pub(super) fn mark(&mut self, number: usize)
        requires there { (key : Key) × (get self.old.entries.numbers key ≡ Some number) }
        requires room { has_room 1 (memory_of self.old) ≡ true }
        ensures log { self.new.log ≡ self.old.log }
        ensures numbers { self.new.entries.numbers ≡ self.old.entries.numbers }
        ensures marked { MarksAt number self.old self.new }
    {
        if !self.marks_parents {
            return;
        }
        self.version += 1;
        self.entries.touch(number, self.version, self.moment);
    }

    pub(super) fn make_directory(&mut self, path: &DavPath) -> FsResult<()>
        ensures log { self.new.log ≡ self.old.log }
        ensures made { GivesIn (create_dir_error path.now.key) (added path.now.key Directory) self.old result self.new }
    {
        if self.entries.find(path.key()).is_some() {
            return Err(FsError::Exists);
        }
        let Some(above) = self.entries.directory_above(path.key()) else {
            return Err(FsError::NotFound);
        };
        let version = self.member_version()?;
        self.entries
            .add_directory(path.key(), version, self.moment)?;
        self.version = version;
        self.mark(above);
        Ok(())
    }

    /// Removes a file.
    pub(super) fn take_file(&mut self, path: &DavPath) -> FsResult<()>
        ensures log { self.new.log ≡ self.old.log }
        ensures memory { result ≢ Err FsError.Memory }
        ensures removed { GivesIn (remove_file_error path.now.key) (removed path.now.key) self.old result self.new }
    {
        let Some(place) = self.entries.find(path.key()) else {
            return Err(FsError::NotFound);
        };
        if place.directory {
            return Err(FsError::Forbidden);
        }
        if !self.has_room(1) {
            return Err(FsError::GeneralFailure);
        }
        let Some(above) = self.entries.directory_above(path.key()) else {
            unreachable!()
        };
        self.entries.remove(path.key());
        self.mark(above);
        Ok(())
    }

    /// Removes a directory that has no members.
    pub(super) fn take_directory(&mut self, path: &DavPath) -> FsResult<()>
        ensures log { self.new.log ≡ self.old.log }
        ensures removed { GivesIn (remove_dir_error path.now.key) (removed path.now.key) self.old result self.new }
    {
        let Some(place) = self.entries.find(path.key()) else {
            return Err(FsError::NotFound);
        };
        if !place.directory {
            return Err(FsError::Forbidden);
        }
        if path.key().is_root() {
            return Err(FsError::Forbidden);
        }
        if self.entries.has_members(path.key()) {
            return Err(FsError::Exists);
        }
        if !self.has_room(1) {
            return Err(FsError::GeneralFailure);
        }
        let Some(above) = self.entries.directory_above(path.key()) else {
            unreachable!()
        };
        self.entries.remove(path.key());
        self.mark(above);
        Ok(())
    }

    /// Copies a file over another file, or to a path where nothing exists.
    pub(super) fn copy_file(&mut self, from: &DavPath, to: &DavPath) -> FsResult<()>
        ensures log { self.new.log ≡ self.old.log }
        ensures copied { GivesOverIn (copy_error from.now.key to.now.key) (copied_into from.now.key to.now.key) self.old result self.new }
    {
        let Some(source) = self.entries.find(from.key()) else {
            return Err(FsError::NotFound);
        };
        let Some(above) = self.entries.directory_above(to.key()) else {
            return Err(FsError::NotFound);
        };
        if source.directory {
            return Err(FsError::Forbidden);
        }
        let there = self.entries.find(to.key());
        if is_directory(there) {
            return Err(FsError::Forbidden);
        }
        let version = self.copy_version(there)?;
        self.entries
            .copy_to(source.number, to.key(), there, version, self.moment)?;
        self.version = version;
        if there.is_some() {
            return Ok(());
        }
        self.mark(above);
        Ok(())
    }

    /// Returns the number of the change that a copy to this place counts as, or `GeneralFailure` if the counter has no
    /// room for it. A copy to no place adds a member to a directory.
    fn copy_version(&self, there: Option<Place>) -> FsResult<u64>
        ensures { (o : Option Stored) → is_some o ≡ is_some there → IsCopyVersion o (memory_of self.now) result }
    {
        match there {
            Some(_) => self.next_version(),
            None => self.member_version(),
        }
    }

    /// Moves the resource at a path, and everything below it, to a path where nothing exists.
    pub(super) fn move_all(&mut self, from: &DavPath, to: &DavPath) -> FsResult<()>
        ensures log { self.new.log ≡ self.old.log }
        ensures renamed { YieldsIn (rename_error from.now.key to.now.key) (IsRenamedAndMarked from.now.key to.now.key) self.old result self.new }
    {
        if self.entries.find(from.key()).is_none() {
            return Err(FsError::NotFound);
        }
        if from.key().is_root() {
            return Err(FsError::Forbidden);
        }
        if is_below(to, from) {
            return Err(FsError::Forbidden);
        }
        if self.entries.find(to.key()).is_some() {
            return Err(FsError::Exists);
        }
        let Some(above) = self.entries.directory_above(to.key()) else {
            return Err(FsError::NotFound);
        };
        if !self.has_room(2) {
            return Err(FsError::GeneralFailure);
        }
        let Some(left) = self.entries.directory_above(from.key()) else {
            unreachable!()
        };
        self.entries.rename(from.key(), to.key())?;
        self.mark(left);
        self.mark(above);
        Ok(())
    }

    /// Returns the number of bytes in all files, at most `u64::MAX`, and the quota's limit. Returns
    /// `NotImplemented` if there is no quota.
    pub(super) fn read_quota(&self) -> FsResult<(u64, Option<u64>)>
        ensures quota { IfOk result (λ quota. quota_of (memory_of self.now) ≡ Some (record { used = quota.0; total = quota.1 })) }
        ensures answer { GivesIn quota_error kept self.now result self.now }
    {
        let Some(total) = self.limit else {
            return Err(FsError::NotImplemented);
        };
        let used = u64::try_from(self.entries.used()).unwrap_or(u64::MAX);
        Ok((used, total))
    }
}

/// Returns whether a path is below another.
fn is_below(path: &DavPath, other: &DavPath) -> bool
    ensures { result ≡ is_below path.now.key other.now.key }
{
    path.is_at_or_below(other) && !path.same_key(other)
}

/// Returns whether a directory was found.
fn is_directory(found: Option<Place>) -> bool
    ensures { result ≡ directory_in found }
{
    match found {
        Some(place) => place.directory,
        None => false,
    }
}
