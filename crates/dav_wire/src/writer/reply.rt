//! Writes of replies.
ghost use Rattle.std.specs.Prelude.{map};
ghost use Rattle.dav_wire.specs.Replies.{reply, response, part, held, quota, explained, lock, locks};
ghost use Rattle.dav_wire.specs.Levels.{IsTreeTooDeep, IsReplyTooDeep};
ghost use Rattle.dav_wire.specs.Values.{optional};
ghost use Rattle.dav_wire.specs.Views.{behind, reply_of, response_frame_of, file_part_of, held_frame_of, explained_frame_of, lock_frame_of};
ghost use Rattle.dav_wire.specs.Writes.{Writes, WritesUnless};

use crate::{
    ExplainedFrame, FilePart, HeldFrame, LockFrame, REPLY_LEVELS, Reply, ResponseFrame, WireError,
    Writer,
};
use std::alloc::AllocError;

impl Writer {
    /// Writes a reply: the byte of its variant, and its content.
    ///
    /// - `Malformed`: the element of a response has more than `REPLY_LEVELS` levels.
    /// - `Memory`: memory runs out.
    pub(crate) fn write_reply(&mut self, answer: &Reply) -> Result<(), WireError>
        ensures { WritesUnless (IsReplyTooDeep (reply_of answer.now)) reply (reply_of answer.now) self.old result self.new }
    {
        match answer {
            Reply::Response(response) => {
                self.write_u8(0)?;
                return self.write_response(response);
            }
            Reply::BodyStarted(number) => {
                self.write_u8(1)?;
                self.write_number(number.as_u64())?;
            }
            Reply::Done => self.write_u8(2)?,
            Reply::Part(part) => {
                self.write_u8(3)?;
                self.write_part(part)?;
            }
            Reply::Collection => self.write_u8(4)?,
            Reply::NextExpiry(time) => {
                self.write_u8(5)?;
                self.write_optional_number(*time)?;
            }
            Reply::Held(held) => {
                self.write_u8(6)?;
                self.write_held(held)?;
            }
            Reply::Failed(status) => {
                self.write_u8(7)?;
                self.write_number(u64::from(*status))?;
            }
            Reply::Refused(reason) => {
                self.write_u8(8)?;
                self.write_str(reason)?;
            }
            Reply::Explained(allowed) => {
                self.write_u8(9)?;
                self.write_explained(allowed)?;
            }
            Reply::Locks(locks) => {
                self.write_u8(10)?;
                self.write_locks(locks)?;
            }
        }
        Ok(())
    }

    /// Writes the content of a response.
    fn write_response(&mut self, frame: &ResponseFrame) -> Result<(), WireError>
        ensures { WritesUnless (IsTreeTooDeep (behind frame.now.tree)) response (response_frame_of frame.now) self.old result self.new }
    {
        self.write_number(u64::from(frame.status))?;
        self.write_flag(frame.close)?;
        self.write_fields(&frame.fields)?;
        self.write_optional_element(frame.tree, REPLY_LEVELS)
    }

    /// Writes the content of a part of a file.
    fn write_part(&mut self, file: &FilePart) -> Result<(), AllocError>
        ensures { Writes part (file_part_of file.now) self.old result self.new }
    {
        self.write_number(file.length)?;
        self.write_optional_number(file.modified)?;
        self.write_optional_str(file.version)?;
        self.write_str(file.media_type)?;
        self.write_bytes(file.bytes)
    }

    /// Writes what the access rules allow.
    fn write_explained(&mut self, allowed: &ExplainedFrame) -> Result<(), AllocError>
        ensures { Writes explained (explained_frame_of allowed.now) self.old result self.new }
    {
        self.write_optional_number(allowed.rule)?;
        self.write_flag(allowed.list)?;
        self.write_flag(allowed.read)?;
        self.write_flag(allowed.write)
    }

    /// Writes the locks.
    fn write_locks(&mut self, held: &[LockFrame]) -> Result<(), AllocError>
        ensures { Writes locks (map lock_frame_of held.now) self.old result self.new }
    {
        self.write_number(held.len() as u64)?;
        for lock in held {
            self.write_lock(lock)?;
        }
        Ok(())
    }

    /// Writes a lock.
    fn write_lock(&mut self, held: &LockFrame) -> Result<(), AllocError>
        ensures { Writes lock (lock_frame_of held.now) self.old result self.new }
    {
        self.write_str(held.token)?;
        self.write_str(&held.path)?;
        self.write_optional_str(held.principal)?;
        self.write_flag(held.deep)?;
        self.write_flag(held.shared)?;
        self.write_optional_number(held.expires)
    }

    /// Writes how much is held.
    fn write_held(&mut self, amounts: &HeldFrame) -> Result<(), AllocError>
        ensures { Writes held (held_frame_of amounts.now) self.old result self.new }
    {
        self.write_number(amounts.locks)?;
        self.write_quota(amounts.quota)
    }

    /// Writes how many bytes are used and how many there may be, if known.
    fn write_quota(&mut self, amounts: Option<(u64, Option<u64>)>) -> Result<(), AllocError>
        ensures { Writes (optional quota) amounts self.old result self.new }
    {
        match amounts {
            Some((used, total)) => {
                self.write_u8(1)?;
                self.write_number(used)?;
                self.write_optional_number(total)
            }
            None => self.write_u8(0),
        }
    }
}
