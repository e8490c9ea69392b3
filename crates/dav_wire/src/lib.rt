//! Frames and replies as bytes, and back.
//!
//! A host sends frames to a program that serves WebDAV, and the program sends a reply to each. This crate
//! reads and writes frames, replies, and the values in them. All is over byte strings in memory. Each value
//! has exactly one encoding: a read accepts the bytes that a write makes, and no others.
//!
//! # Values
//!
//! - A number is 8 bytes, the highest first. A flag is the byte 0 for no, or the byte 1 for yes.
//! - A byte string is its length as a number, then its bytes. A string is a byte string that is UTF-8.
//! - An optional value is the byte 0, or the byte 1 and the value.
//! - An element is its tag, its content, and the byte 0. Its content is its nodes in order: the byte 1 and an
//!   element, or the byte 2 and a string.
//! - A tag is a name, an optional prefix, an optional namespace, and attributes.
//! - Attributes are their count as a number, then for each a key and a value, which are strings. Each key is
//!   less than the next, byte by byte.
//! - Header fields are their count as a number, then for each a name and a value, which are byte strings.
//!
//! # Frames
//!
//! A frame is a byte that says which it is, and then its content.
//!
//! - 0, a request: the method, a byte string; the path, a string; the principal, an optional string; the lock
//!   token, a string; the header fields; and the body.
//! - 1, begin a body that the store holds: nothing.
//! - 2, add to a body: its number, and the bytes as a byte string.
//! - 3, drop a body: its number.
//! - 4, read a part of a file: the principal, an optional string; the path, a string; where the part begins
//!   and how many bytes it has at most, two numbers; and the entity tag at an earlier part, an optional
//!   string.
//! - 5, when the next lock expires: nothing.
//! - 6, how much is held: nothing.
//! - 7, begin a backup: nothing.
//! - 8, end the backup: nothing.
//! - 9, serve by other access rules from now on: their text, a string.
//! - 10, what the access rules allow: the principal, an optional string; and the path, a string.
//! - 11, which locks there are: nothing.
//! - 12, remove a lock: the path of its resource, a string; and its token, a string.
//! - 13, set when a resource was last modified: the path, a string; and the time, a number.
//!
//! The body of a request is the byte 0 for none, the byte 1 and a byte string, the byte 2 and the number of a
//! body that the store holds, the byte 3 and an element of at most `REQUEST_LEVELS` levels, or the byte 4 for
//! a body that could not be parsed.
//!
//! # Replies
//!
//! A reply is a byte that says which it is, and then its content.
//!
//! - 0, the response to a request: the status, a number; whether the connection must be closed, a flag; the
//!   header fields; and an optional element of at most `REPLY_LEVELS` levels.
//! - 1, a body was begun: its number.
//! - 2, done: nothing.
//! - 3, a part of a file: the file's length, a number; when it was modified, an optional number; its entity
//!   tag, an optional string; its media type, a string; and the bytes, a byte string.
//! - 4, the path of a read is that of a collection: nothing.
//! - 5, when the next lock expires: an optional number.
//! - 6, how much is held: how many locks, a number; and an optional quota, which is the bytes used, a number,
//!   and the bytes that there may be, an optional number.
//! - 7, the frame failed: the status, a number.
//! - 8, the text of the frame was refused: the reason, a string.
//! - 9, what the access rules allow: the number of the rule that decides, an optional number; and whether one may list,
//!   read and write, three flags.
//! - 10, the locks: their count as a number, then for each its token, a string; the path of its resource, a string; its
//!   principal, an optional string; whether it is deep, and whether it is shared, two flags; and when it expires, an
//!   optional number.
//!
//! # Batches
//!
//! A batch of frames is a header and its content. The header is 24 bytes: the number of the batch, the time,
//! and how many bytes the content has. The content is the count of frames as a number, then each frame as a
//! byte string. A batch of replies is 24 bytes, the number of the batch, its status, and the count of replies,
//! and then each reply as a byte string.
#![tactic(auto)]

mod batch;
mod error;
mod frame;
mod reader;
mod reply;
mod writer;

pub use batch::{BatchHeader, ReplyHeader, read_batch};
pub use error::WireError;
pub use frame::{
    ExplainFrame, Frame, ModifiedFrame, REQUEST_LEVELS, ReadFrame, RequestFrame, UnlockFrame,
};
pub use reader::Reader;
pub use reply::{
    ExplainedFrame, FilePart, HeldFrame, LockFrame, REPLY_LEVELS, Reply, ResponseFrame,
};
pub use writer::Writer;
