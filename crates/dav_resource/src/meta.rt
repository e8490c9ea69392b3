//! Metadata of resources, and options for opening a file.
ghost use Rattle.std.specs.Prelude.{◌≡◌, IfOk};

use crate::{DavPath, Text};
use std::alloc::AllocError;

/// The metadata of a resource. Times are whole seconds since 1970.
#[derive(Drop, Debug)]
pub struct Meta {
    /// Whether the resource is a directory.
    pub dir: bool,
    /// The length of a file in bytes. The store chooses the value for a directory.
    pub len: u64,
    /// When the resource last changed, if known.
    pub modified: Option<u64>,
    /// When the resource was created, if known.
    pub created: Option<u64>,
    /// When the resource was last read, if known.
    pub accessed: Option<u64>,
    /// When the metadata last changed, if known.
    pub status_changed: Option<u64>,
    /// Whether the file is executable, if known.
    pub executable: Option<bool>,
    /// The string between the quotes of the strong entity tag (RFC 7232, section 2.3), if there is one. A store
    /// sets only strings of bytes 0x21 to 0x7E without the quote.
    pub etag: Option<Text>,
}

impl Meta {
    /// Returns a copy. Fails only if memory runs out.
    pub fn clone(&self) -> Result<Meta, AllocError>
        ensures { IfOk result (λ copy. copy ≡ self.now) }
    {
        let etag = match &self.etag {
            Some(tag) => Some(tag.clone()?),
            None => None,
        };
        Ok(Meta {
            dir: self.dir,
            len: self.len,
            modified: self.modified,
            created: self.created,
            accessed: self.accessed,
            status_changed: self.status_changed,
            executable: self.executable,
            etag,
        })
    }
}

/// A member in the listing of a directory.
#[derive(Drop, Debug)]
pub struct DirEntry {
    /// The last segment of the member's path.
    pub name: Text,
    /// The member's metadata.
    pub meta: Meta,
}

/// How to open a file.
#[derive(Drop, Debug)]
pub struct OpenOptions {
    /// The file is opened for writing.
    pub write: bool,
    /// A file is created if none exists.
    pub create: bool,
    /// A new file is created, and the call fails if a resource exists at the path.
    pub create_new: bool,
    /// An existing file is emptied.
    pub truncate: bool,
    /// Every write goes to the end of the file.
    pub append: bool,
    /// How many bytes will be written, if the request states it.
    pub size: Option<u64>,
    /// The checksum of the bytes that will be written, if the request states it.
    pub checksum: Option<Text>,
}

/// A handle of an open file, for calls of the store.
#[derive(Drop, Debug)]
pub struct DavFile {
    /// The path of the file.
    pub path: DavPath,
    /// The offset of the next write, in bytes.
    pub pos: u64,
    /// Every write goes to the end of the file instead.
    pub append: bool,
}
