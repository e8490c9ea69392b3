//! The replies of the program.
ghost use Rattle.dav_wire.specs.Replies.{reply};
ghost use Rattle.dav_wire.specs.Levels.{IsReplyTooDeep};
ghost use Rattle.dav_wire.specs.Views.{reply_of};
ghost use Rattle.dav_wire.specs.Writes.{EncodesUnless};

use crate::{WireError, Writer};
use dav_resource::{BodyNumber, Element};
use std::alloc::Global;

/// How many levels of elements the body of a response may have.
pub const REPLY_LEVELS: usize = 272;

/// What the program answers to a frame. The large parts are borrowed.
#[derive(Drop, Debug)]
pub enum Reply<'a> {
    /// The response to a request.
    Response(ResponseFrame<'a>),
    /// The number of the body that was begun.
    BodyStarted(BodyNumber),
    /// The frame is done, and there is nothing to say.
    Done,
    /// A part of a file.
    Part(FilePart<'a>),
    /// The path of a read is that of a collection.
    Collection,
    /// When the next lock expires, in whole seconds since 1970, if a lock expires.
    NextExpiry(Option<u64>),
    /// How much is held.
    Held(HeldFrame),
    /// The frame failed, with this HTTP status.
    Failed(u16),
    /// The text of a frame was refused, for this reason.
    Refused(&'a str),
    /// What the access rules allow.
    Explained(ExplainedFrame),
    /// The locks, the oldest first.
    Locks(Vec<LockFrame<'a>>),
}

impl Reply<'_> {
    /// Returns the encoding of the reply.
    ///
    /// - `Malformed`: the element of a response has more than `REPLY_LEVELS` levels.
    /// - `Memory`: memory runs out.
    pub fn encode(&self, alloc: Global) -> Result<Vec<u8>, WireError>
        ensures { EncodesUnless (IsReplyTooDeep (reply_of self.now)) reply (reply_of self.now) result }
    {
        let mut writer = Writer::new(alloc);
        writer.write_reply(self)?;
        Ok(writer.into_bytes())
    }
}

/// The response to a request.
#[derive(Drop, Debug)]
pub struct ResponseFrame<'a> {
    /// The HTTP status.
    pub status: u16,
    /// Whether the connection must be closed.
    pub close: bool,
    /// The header fields in order: the name and the value of each.
    pub fields: Vec<(&'a [u8], &'a [u8])>,
    /// The root element of the body, if there is a body.
    pub tree: Option<&'a Element>,
}

/// A part of a file.
#[derive(Drop, Debug)]
pub struct FilePart<'a> {
    /// How many bytes the whole file has.
    pub length: u64,
    /// When the file was last modified, in whole seconds since 1970, if known.
    pub modified: Option<u64>,
    /// The entity tag of the file, if it has one.
    pub version: Option<&'a str>,
    /// The media type of the file.
    pub media_type: &'a str,
    /// The bytes of the part.
    pub bytes: &'a [u8],
}

/// How much is held.
#[derive(Clone, Copy, Debug)]
pub struct HeldFrame {
    /// How many locks are held.
    pub locks: u64,
    /// How many bytes are used and, if there is a limit, how many there may be. `None` if this is unknown.
    pub quota: Option<(u64, Option<u64>)>,
}

/// What the access rules allow a principal at a path.
#[derive(Clone, Copy, Debug)]
pub struct ExplainedFrame {
    /// The number of the rule that decides, from 1. `None` if none does.
    pub rule: Option<u64>,
    /// Whether it may list what is there.
    pub list: bool,
    /// Whether it may read it.
    pub read: bool,
    /// Whether it may write it.
    pub write: bool,
}

/// A lock.
#[derive(Drop, Debug)]
pub struct LockFrame<'a> {
    /// The token.
    pub token: &'a str,
    /// The path of the locked resource.
    pub path: String,
    /// The principal that created the lock, if it is known.
    pub principal: Option<&'a str>,
    /// Whether the lock also covers all that is below the resource.
    pub deep: bool,
    /// Whether the lock is shared.
    pub shared: bool,
    /// When the lock expires, in whole seconds since 1970, if it does.
    pub expires: Option<u64>,
}
