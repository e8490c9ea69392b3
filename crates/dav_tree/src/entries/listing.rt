//! The members of directories, and copies of all resources.
ghost use Rattle.std.specs.Prelude.{◌≡◌, ◌==◌, not, length, IfOk};
ghost use Rattle.dav_store.specs.Members.{members};
ghost use Rattle.dav_resource.specs.PathText.{IsKey};
ghost use Rattle.dav_tree.specs.Dump.{IsDump, IsDumpOf};
ghost use Rattle.dav_tree.specs.Entry.{stored_by};
ghost use Rattle.dav_tree.specs.Memory.{tree_of, IsSound};
ghost use Rattle.dav_tree.specs.MemoryCalls.{IsListing};

use super::Entries;
use crate::entry::{self, Content, Entry};
use crate::in_memory::{Bytes, InMemory};
use crate::medium::Medium;
use dav_key::FlatKey;
use dav_resource::{DavPath, DavProp, DirEntry, FsResult, Text};
use std::alloc::{AllocError, Global};

impl<M: Medium> Entries<M> {
    /// Returns whether a directory has members. It costs the same however many members it has.
    pub fn has_members(&self, directory: &FlatKey) -> bool
        ensures { result ≡ not (length (members (tree_of self.now.resources) directory.now) == 0) }
    {
        self.tree.nodes.has_members(directory)
    }

    /// Returns the members of a directory in the order of their names, each with its metadata, of a store with this
    /// part of the entity tags. Fails only if memory runs out. Makes one lookup.
    pub fn list(
        &self,
        alloc: Global,
        directory: &FlatKey,
        tag_part: Option<u128>,
    ) -> Result<Vec<FsResult<DirEntry>>, AllocError>
        ensures { IfOk result (λ listing. IsListing tag_part directory.now self.now.resources listing.items) }
    {
        let mut listing = Vec::new(alloc);
        for (name, entry) in self.tree.nodes.members(directory) {
            let name = Text::from_string(name.to_string(alloc)?);
            let meta = entry::meta(alloc, &self.medium, entry, tag_part)?;
            listing.push(Ok(DirEntry { name, meta }))?;
        }
        Ok(listing)
    }
}

impl Entries<InMemory> {
    /// Returns a copy of each resource, in the order of the keys. Fails only if memory runs out.
    pub fn dump(
        &self,
        alloc: Global,
    ) -> Result<Vec<(DavPath, Option<Vec<u8>>, Vec<DavProp>)>, AllocError>
        requires { IsSound self.now.resources }
        ensures { IfOk result (λ dumped. IsDump self.now.resources dumped.items) }
    {
        let mut dumped = Vec::new(alloc);
        for (key, entry) in self.tree.nodes.entries(alloc)? {
            dumped.push(dump_of(key, entry)?)?;
        }
        Ok(dumped)
    }
}

/// Returns a copy of the resource at a key. Fails only if memory runs out.
fn dump_of(
    key: FlatKey,
    entry: &Entry<Bytes>,
) -> Result<(DavPath, Option<Vec<u8>>, Vec<DavProp>), AllocError>
    requires { IsKey key }
    ensures { IfOk result (λ dumped. IsDumpOf (key, stored_by (λ body. body) entry.now) dumped) }
{
    let alloc = key.allocator();
    let bytes = match &entry.content {
        Content::File(body) => Some(body.to_vec()?),
        Content::Directory => None,
    };
    let path = DavPath::of_key(key, bytes.is_none())?;
    let properties = entry.properties.list(alloc)?;
    Ok((path, bytes, properties))
}
