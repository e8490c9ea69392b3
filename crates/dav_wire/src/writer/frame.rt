//! Writes of frames.
ghost use Rattle.dav_wire.specs.Bodies.{request_body};
ghost use Rattle.dav_wire.specs.Frames.{frame, request, read, explain, unlock, modified, add};
ghost use Rattle.dav_wire.specs.Levels.{IsBodyTooDeep, IsFrameTooDeep};
ghost use Rattle.dav_wire.specs.Views.{request_frame_of, read_frame_of, explain_frame_of, unlock_frame_of, modified_frame_of, frame_of};
ghost use Rattle.dav_wire.specs.Writes.{Writes, WritesUnless};

use crate::{
    ExplainFrame, Frame, ModifiedFrame, REQUEST_LEVELS, ReadFrame, RequestFrame, UnlockFrame,
    WireError, Writer,
};
use dav_resource::ReqBody;
use std::alloc::AllocError;

impl Writer {
    /// Writes a frame: the byte of its variant, and its content.
    ///
    /// - `Malformed`: the element in the body of a request has more than `REQUEST_LEVELS` levels.
    /// - `Memory`: memory runs out.
    pub(crate) fn write_frame(&mut self, sent: &Frame) -> Result<(), WireError>
        ensures { WritesUnless (IsFrameTooDeep (frame_of sent.now)) frame (frame_of sent.now) self.old result self.new }
    {
        match sent {
            Frame::Request(request) => {
                self.write_u8(0)?;
                return self.write_request(request);
            }
            Frame::StartBody => self.write_u8(1)?,
            Frame::AddToBody(number, bytes) => {
                self.write_u8(2)?;
                self.write_addition(number.as_u64(), bytes)?;
            }
            Frame::DropBody(number) => {
                self.write_u8(3)?;
                self.write_number(number.as_u64())?;
            }
            Frame::Read(part) => {
                self.write_u8(4)?;
                self.write_read(part)?;
            }
            Frame::NextExpiry => self.write_u8(5)?,
            Frame::Held => self.write_u8(6)?,
            Frame::BeginBackup => self.write_u8(7)?,
            Frame::EndBackup => self.write_u8(8)?,
            Frame::SetRights(rules) => {
                self.write_u8(9)?;
                self.write_str(rules)?;
            }
            Frame::Explain(question) => {
                self.write_u8(10)?;
                self.write_question(question)?;
            }
            Frame::ListLocks => self.write_u8(11)?,
            Frame::RemoveLock(asked) => {
                self.write_u8(12)?;
                self.write_unlock(asked)?;
            }
            Frame::SetModified(asked) => {
                self.write_u8(13)?;
                self.write_modified(asked)?;
            }
        }
        Ok(())
    }

    /// Writes the content of a request.
    fn write_request(&mut self, sent: &RequestFrame) -> Result<(), WireError>
        ensures { WritesUnless (IsBodyTooDeep sent.now.body) request (request_frame_of sent.now) self.old result self.new }
    {
        self.write_bytes(sent.method)?;
        self.write_str(sent.path)?;
        self.write_optional_str(sent.principal)?;
        self.write_str(sent.token)?;
        self.write_fields(&sent.fields)?;
        self.write_body(&sent.body)
    }

    /// Writes the body of a request.
    fn write_body(&mut self, body: &ReqBody) -> Result<(), WireError>
        ensures { WritesUnless (IsBodyTooDeep body.now) request_body body.now self.old result self.new }
    {
        match body {
            ReqBody::None => self.write_u8(0)?,
            ReqBody::Bytes(bytes) => {
                self.write_u8(1)?;
                self.write_bytes(bytes.as_slice())?;
            }
            ReqBody::Stored(number) => {
                self.write_u8(2)?;
                self.write_number(number.as_u64())?;
            }
            ReqBody::Tree(element) => {
                self.write_u8(3)?;
                return self.write_element(element, REQUEST_LEVELS);
            }
            ReqBody::Malformed => self.write_u8(4)?,
        }
        Ok(())
    }

    /// Writes the number of a body, and the bytes to add to it.
    fn write_addition(&mut self, number: u64, bytes: &[u8]) -> Result<(), AllocError>
        ensures { Writes add (number, bytes.now) self.old result self.new }
    {
        self.write_number(number)?;
        self.write_bytes(bytes)
    }

    /// Writes a question what the access rules allow.
    fn write_question(&mut self, question: &ExplainFrame) -> Result<(), AllocError>
        ensures { Writes explain (explain_frame_of question.now) self.old result self.new }
    {
        self.write_optional_str(question.principal)?;
        self.write_str(question.path)
    }

    /// Writes the path and the token of a lock.
    fn write_unlock(&mut self, asked: &UnlockFrame) -> Result<(), AllocError>
        ensures { Writes unlock (unlock_frame_of asked.now) self.old result self.new }
    {
        self.write_str(asked.path)?;
        self.write_str(asked.token)
    }

    /// Writes the path of a resource and when it was last modified.
    fn write_modified(&mut self, asked: &ModifiedFrame) -> Result<(), AllocError>
        ensures { Writes modified (modified_frame_of asked.now) self.old result self.new }
    {
        self.write_str(asked.path)?;
        self.write_number(asked.time)
    }

    /// Writes the content of a read of a part of a file.
    fn write_read(&mut self, part: &ReadFrame) -> Result<(), AllocError>
        ensures { Writes read (read_frame_of part.now) self.old result self.new }
    {
        self.write_optional_str(part.principal)?;
        self.write_str(part.path)?;
        self.write_number(part.place)?;
        self.write_number(part.length)?;
        self.write_optional_str(part.version)
    }
}
