//! The frames that a host sends.
ghost use Rattle.dav_wire.specs.Frames.{frame};
ghost use Rattle.dav_wire.specs.Levels.{IsFrameTooDeep};
ghost use Rattle.dav_wire.specs.Views.{frame_of};
ghost use Rattle.dav_wire.specs.Reads.{Decodes};
ghost use Rattle.dav_wire.specs.Writes.{EncodesUnless};

use crate::{Reader, WireError, Writer};
use dav_resource::{BodyNumber, ReqBody};
use std::alloc::Global;

/// How many levels of elements the body of a request may have.
pub const REQUEST_LEVELS: usize = 256;

/// What a host asks the program for. Its parts are borrowed from the frame, except the body of a request.
#[derive(Drop, Debug)]
pub enum Frame<'a> {
    /// A request.
    Request(RequestFrame<'a>),
    /// Begin a body that the store holds.
    StartBody,
    /// Add bytes to the body with this number.
    AddToBody(BodyNumber, &'a [u8]),
    /// Drop the body with this number.
    DropBody(BodyNumber),
    /// Read a part of a file.
    Read(ReadFrame<'a>),
    /// When the next lock expires.
    NextExpiry,
    /// How much is held.
    Held,
    /// Begin a backup: until it ends, what files contain stays where it is.
    BeginBackup,
    /// End the backup.
    EndBackup,
    /// From now on, serve by the access rules of this text, in TOML.
    SetRights(&'a str),
    /// What the access rules allow somebody.
    Explain(ExplainFrame<'a>),
    /// Which locks there are.
    ListLocks,
    /// Remove a lock.
    RemoveLock(UnlockFrame<'a>),
    /// Set when a resource was last modified.
    SetModified(ModifiedFrame<'a>),
}

impl<'a> Frame<'a> {
    /// Reads a frame from its encoding, which must be the whole of `bytes`.
    ///
    /// - `Malformed`: the bytes are not the encoding of a frame.
    /// - `Memory`: memory runs out.
    pub fn decode(alloc: Global, bytes: &'a [u8]) -> Result<Frame<'a>, WireError>
        ensures { Decodes frame frame_of bytes.now result }
    {
        let mut reader = Reader::new(alloc, bytes);
        let frame = reader.read_frame()?;
        if reader.is_at_end() {
            Ok(frame)
        } else {
            Err(WireError::Malformed)
        }
    }

    /// Returns the encoding of the frame.
    ///
    /// - `Malformed`: the element in the body of a request has more than `REQUEST_LEVELS` levels.
    /// - `Memory`: memory runs out.
    pub fn encode(&self, alloc: Global) -> Result<Vec<u8>, WireError>
        ensures { EncodesUnless (IsFrameTooDeep (frame_of self.now)) frame (frame_of self.now) result }
    {
        let mut writer = Writer::new(alloc);
        writer.write_frame(self)?;
        Ok(writer.into_bytes())
    }
}

/// A request.
#[derive(Drop, Debug)]
pub struct RequestFrame<'a> {
    /// The method.
    pub method: &'a [u8],
    /// The path of the requested resource.
    pub path: &'a str,
    /// The principal that sent the request, if known.
    pub principal: Option<&'a str>,
    /// The token for the lock that this request creates, if it creates one.
    pub token: &'a str,
    /// The header fields in order: the name and the value of each.
    pub fields: Vec<(&'a [u8], &'a [u8])>,
    /// The body.
    pub body: ReqBody,
}

/// A question what the access rules allow a principal at a path.
#[derive(Drop, Debug)]
pub struct ExplainFrame<'a> {
    /// The principal, if known.
    pub principal: Option<&'a str>,
    /// The path.
    pub path: &'a str,
}

/// The lock to remove.
#[derive(Drop, Debug)]
pub struct UnlockFrame<'a> {
    /// The path of the locked resource, or one below it.
    pub path: &'a str,
    /// The token of the lock.
    pub token: &'a str,
}

/// When a resource was last modified.
#[derive(Drop, Debug)]
pub struct ModifiedFrame<'a> {
    /// The path of the resource.
    pub path: &'a str,
    /// The time, in whole seconds since 1970.
    pub time: u64,
}

/// A read of a part of a file.
#[derive(Drop, Debug)]
pub struct ReadFrame<'a> {
    /// The principal that reads, if known.
    pub principal: Option<&'a str>,
    /// The path of the file.
    pub path: &'a str,
    /// Where the part begins, in bytes from the start of the file.
    pub place: u64,
    /// How many bytes the part has at most.
    pub length: u64,
    /// The entity tag of the file when an earlier part was read, if there was one.
    pub version: Option<&'a str>,
}
