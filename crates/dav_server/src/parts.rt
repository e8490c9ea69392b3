//! Reads of parts of files.
ghost use Rattle.std.specs.Prelude.{◌≡◌, [], ◌∷◌, false, Some, IfOk, IfErr, OnOk, option_map};
ghost use Rattle.std.specs.Option.{option_copied};
ghost use Rattle.dav_wire.specs.Views.{read_frame_of, file_part_of};
ghost use Rattle.dav_wire.specs.Frames as frames;
ghost use Rattle.dav_server.specs.Finding.{found_reply};
ghost use Rattle.dav_server.specs.Frames.{Encodes};
ghost use Rattle.dav_server.specs.Parts.{is_same_version, part_with};

use crate::replies::{encode, failed};
use crate::server::Server;
use crate::{ExpiringLocks, TimedStore};
use dav_resource::{DavPath, Meta, Op, Text};
use dav_rights::Access;
use dav_store::GuardedFileSystem;
use dav_wire::{FilePart, ReadFrame, Reply};
use http::StatusCode;
use std::alloc::Global;

/// What exists at the path of a read.
#[derive(Drop)]
enum Found {
    /// A collection.
    Collection,
    /// A file of the requested version: its metadata, and the requested bytes.
    Part(Meta, Vec<u8>),
}

impl<'a, F: TimedStore, L: ExpiringLocks> Server<'a, F, L> {
    ghost use Rattle.dav_server.specs.Finding.{Finds};
    ghost use Rattle.dav_server.specs.Parts.{IsMissing, IsRead, IsUnlisted, IsUnread, MayList};
    ghost use Rattle.dav_server.specs.State.{HasEmptyLog, state_of, store_in, refusals_in, rules_of, loans_of};
    ghost use Rattle.dav_server.specs.Frames.{Reacts};

    /// Reads a part of a file for the principal of the frame, and returns the encoded reply.
    ///
    /// The reply is a failure if the path cannot be parsed (the status of its error), if nothing exists there (404),
    /// if the file has another version than the frame says (412), if the access rights refuse a call of the store (403),
    /// or if one fails.
    pub(crate) fn read_part(&mut self, asked: ReadFrame<'_>) -> Option<Vec<u8>>
        ensures rules { rules_of self.new ≡ rules_of self.old }
        ensures loans { loans_of self.new ≡ loans_of self.old }
        ensures reacts { Reacts F.seen F.reads (rules_of self.old) (Some (frames.Read (read_frame_of asked.entry))) (state_of F.seen L.seen self.old) (option_map (λ v. v.items) result) (state_of F.seen L.seen self.new) }
        ensures log { HasEmptyLog F.seen self.old → HasEmptyLog F.seen self.new }
    {
        let alloc = self.alloc;
        let path = match DavPath::from_str_and_prefix(alloc, asked.path, self.engine.prefix()) {
            Ok(path) => path,
            Err(error) => return encode(alloc, &failed(error.statuscode())),
        };
        let Ok(access) = Access::of(alloc, self.rights.as_ref(), asked.principal) else {
            return encode(alloc, &failed(StatusCode::INSUFFICIENT_STORAGE));
        };
        self.engine.fs.set_policy(access);
        let found = self.find_part(&path, &asked);
        self.engine.fs.clear_log();
        encode_found(alloc, &path, &found)
    }

    /// Looks the path up and, if a file of the requested version exists there, reads the requested bytes. Changes only
    /// the log. Error: the status of the reply.
    fn find_part(&mut self, path: &DavPath, asked: &ReadFrame<'_>) -> Result<Found, StatusCode>
        ensures rules { rules_of self.new ≡ rules_of self.old }
        ensures loans { loans_of self.new ≡ loans_of self.old }
        ensures same { state_of F.seen L.seen self.new ≡ state_of F.seen L.seen self.old }
        ensures found { IfOk result (λ found. Finds (refusals_in self.old) (F.reads (store_in self.new)) (F.seen (store_in self.old)).contents path.now.key (read_frame_of asked.entry.now) found) }
        ensures failed { IfErr result (λ status. IsUnread (refusals_in self.old) (F.reads (store_in self.new)) (F.seen (store_in self.old)).contents path.now.key (read_frame_of asked.entry.now) status) }
    {
        let meta = self.look(path)?;
        if meta.dir {
            return Ok(Found::Collection);
        }
        if !is_version(asked.version, meta.etag.as_ref()) {
            return Err(StatusCode::PRECONDITION_FAILED);
        }
        let bytes = self.read(path, asked.place, asked.length)?;
        Ok(Found::Part(meta, bytes))
    }

    /// Looks the path up. Error: the status of the store's error.
    fn look(&mut self, path: &DavPath) -> Result<Meta, StatusCode>
        ensures rules { rules_of self.new ≡ rules_of self.old }
        ensures loans { loans_of self.new ≡ loans_of self.old }
        ensures same { state_of F.seen L.seen self.new ≡ state_of F.seen L.seen self.old }
        ensures refusals { refusals_in self.new ≡ refusals_in self.old }
        ensures found { IfOk result (λ meta. (F.seen (store_in self.old)).contents.metas path.now.key ≡ Some meta) }
        ensures listed { OnOk result (MayList (refusals_in self.old) path.now.key) }
        ensures failed { IfErr result (λ status. IsUnlisted (refusals_in self.old) (F.seen (store_in self.old)).contents path.now.key status) }
    {
        match self.engine.fs.metadata(path, &()) {
            Ok(meta) => Ok(meta),
            Err(error) => Err(error.statuscode()),
        }
    }

    /// Reads at most `length` bytes of the file at the path, from the offset `place`. Error: the status of the store's
    /// error.
    fn read(&mut self, path: &DavPath, place: u64, length: u64) -> Result<Vec<u8>, StatusCode>
        ensures rules { rules_of self.new ≡ rules_of self.old }
        ensures loans { loans_of self.new ≡ loans_of self.old }
        ensures same { state_of F.seen L.seen self.new ≡ state_of F.seen L.seen self.old }
        ensures found { IfOk result (λ bytes. IsRead (F.reads (store_in self.new)) (F.seen (store_in self.old)).contents path.now.key place length bytes.items) }
        ensures readable { OnOk result (refusals_in self.old Op.ReadBytes (path.now.key ∷ []) ≡ false) }
        ensures failed { IfErr result (IsMissing (refusals_in self.old) (F.reads (store_in self.new)) (F.seen (store_in self.old)).contents path.now.key) }
    {
        match self.engine.fs.read_bytes(path, place, length as usize, &()) {
            Ok(bytes) => Ok(bytes),
            Err(error) => Err(error.statuscode()),
        }
    }
}

/// Returns the encoded reply to a read at this path, or `None` as `encode` does.
fn encode_found(alloc: Global, path: &DavPath, found: &Result<Found, StatusCode>) -> Option<Vec<u8>>
    ensures { Encodes (found_reply path.now.key found.now) (option_map (λ v. v.items) result) }
{
    match found {
        Ok(Found::Part(meta, bytes)) => encode(alloc, &Reply::Part(part_of(path, meta, bytes))),
        Ok(Found::Collection) => encode(alloc, &Reply::Collection),
        Err(status) => encode(alloc, &failed(*status)),
    }
}

/// Whether the entity tag is that of an earlier part, if one was read.
fn is_version(version: Option<&str>, tag: Option<&Text>) -> bool
    ensures { result ≡ is_same_version (option_map (λ s. s.now) version.entry) (option_copied tag.entry) }
{
    match (version, tag) {
        (None, _) => true,
        (Some(version), Some(tag)) => tag.as_str() == version,
        (Some(_), None) => false,
    }
}

/// Returns the bytes as a part of a file with this metadata.
fn part_of<'r>(path: &DavPath, meta: &'r Meta, bytes: &'r [u8]) -> FilePart<'r>
    ensures { file_part_of result ≡ part_with path.now.key meta.now bytes.now }
{
    FilePart {
        length: meta.len,
        modified: meta.modified,
        version: version_of(meta),
        media_type: meta.media_type_at(path),
        bytes,
    }
}

/// Returns the entity tag, if there is one.
fn version_of(meta: &Meta) -> Option<&str>
    ensures { option_map (λ s. s.now) result ≡ meta.now.etag }
{
    match &meta.etag {
        Some(tag) => Some(tag.as_str()),
        None => None,
    }
}
