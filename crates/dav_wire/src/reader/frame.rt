//! Reads of frames.
ghost use Rattle.std.specs.Prelude.{map};
ghost use Rattle.dav_wire.specs.Numbers.{number};
ghost use Rattle.dav_wire.specs.Values.{text};
ghost use Rattle.dav_wire.specs.Fields.{field, fields};
ghost use Rattle.dav_wire.specs.Bodies.{request_body};
ghost use Rattle.dav_wire.specs.Frames.{frame, request, read, explain, unlock, modified, add};
ghost use Rattle.dav_wire.specs.Views.{field_of, addition_of, request_frame_of, read_frame_of, explain_frame_of, unlock_frame_of, modified_frame_of, frame_of};
ghost use Rattle.dav_wire.specs.Reads.{Reads, ReadsAllocating};

use crate::{
    ExplainFrame, Frame, ModifiedFrame, REQUEST_LEVELS, ReadFrame, Reader, RequestFrame,
    UnlockFrame, WireError,
};
use dav_resource::{BodyNumber, Items, ReqBody};

impl<'a> Reader<'a> {
    /// Reads a frame: the byte of its variant, and its content.
    pub(crate) fn read_frame(&mut self) -> Result<Frame<'a>, WireError>
        ensures { ReadsAllocating frame frame_of self.old result self.new }
    {
        match self.read_u8()? {
            0 => Ok(Frame::Request(self.read_request()?)),
            1 => Ok(Frame::StartBody),
            2 => {
                let (number, bytes) = self.read_addition()?;
                Ok(Frame::AddToBody(BodyNumber::from_u64(number), bytes))
            }
            3 => Ok(Frame::DropBody(self.read_body_number()?)),
            4 => Ok(Frame::Read(self.read_part()?)),
            5 => Ok(Frame::NextExpiry),
            6 => Ok(Frame::Held),
            7 => Ok(Frame::BeginBackup),
            8 => Ok(Frame::EndBackup),
            9 => Ok(Frame::SetRights(self.read_str()?)),
            10 => Ok(Frame::Explain(self.read_question()?)),
            11 => Ok(Frame::ListLocks),
            12 => Ok(Frame::RemoveLock(self.read_unlock()?)),
            13 => Ok(Frame::SetModified(self.read_modified()?)),
            _ => Err(WireError::Malformed),
        }
    }

    /// Reads the content of a request.
    fn read_request(&mut self) -> Result<RequestFrame<'a>, WireError>
        ensures { ReadsAllocating request request_frame_of self.old result self.new }
    {
        let method = self.read_bytes()?;
        let path = self.read_str()?;
        let principal = self.read_optional_str()?;
        let token = self.read_str()?;
        let fields = self.read_fields()?;
        let body = self.read_body()?;
        Ok(RequestFrame {
            method,
            path,
            principal,
            token,
            fields,
            body,
        })
    }

    /// Reads header fields.
    fn read_fields(&mut self) -> Result<Vec<(&'a [u8], &'a [u8])>, WireError>
        ensures { ReadsAllocating fields (λ v. map field_of v.items) self.old result self.new }
    {
        let mut left = self.read_number()?;
        let mut fields = Vec::new(self.alloc);
        while left > 0 {
            let field = self.read_field()?;
            fields.push(field)?;
            left -= 1;
        }
        Ok(fields)
    }

    /// Reads the name and the value of a header field.
    fn read_field(&mut self) -> Result<(&'a [u8], &'a [u8]), WireError>
        ensures { Reads field field_of self.old result self.new }
    {
        let name = self.read_bytes()?;
        let value = self.read_bytes()?;
        Ok((name, value))
    }

    /// Reads the body of a request. Its bytes are copied.
    fn read_body(&mut self) -> Result<ReqBody, WireError>
        ensures { ReadsAllocating request_body (λ x. x) self.old result self.new }
    {
        match self.read_u8()? {
            0 => Ok(ReqBody::None),
            1 => Ok(ReqBody::Bytes(self.read_items()?)),
            2 => Ok(ReqBody::Stored(self.read_body_number()?)),
            3 => Ok(ReqBody::Tree(self.read_element(REQUEST_LEVELS)?)),
            4 => Ok(ReqBody::Malformed),
            _ => Err(WireError::Malformed),
        }
    }

    /// Reads a byte string and copies it.
    fn read_items(&mut self) -> Result<Items<u8>, WireError>
        ensures { ReadsAllocating text (λ x. x) self.old result self.new }
    {
        let bytes = self.read_bytes()?;
        Ok(Items::from_vec(bytes.to_vec(self.alloc)?))
    }

    /// Reads the number of a body.
    fn read_body_number(&mut self) -> Result<BodyNumber, WireError>
        ensures { Reads number (λ x. x) self.old result self.new }
    {
        Ok(BodyNumber::from_u64(self.read_number()?))
    }

    /// Reads the number of a body, and the bytes to add to it.
    fn read_addition(&mut self) -> Result<(u64, &'a [u8]), WireError>
        ensures { Reads add addition_of self.old result self.new }
    {
        let number = self.read_number()?;
        let bytes = self.read_bytes()?;
        Ok((number, bytes))
    }

    /// Reads a question what the access rules allow.
    fn read_question(&mut self) -> Result<ExplainFrame<'a>, WireError>
        ensures { Reads explain explain_frame_of self.old result self.new }
    {
        let principal = self.read_optional_str()?;
        let path = self.read_str()?;
        Ok(ExplainFrame { principal, path })
    }

    /// Reads the path and the token of a lock.
    fn read_unlock(&mut self) -> Result<UnlockFrame<'a>, WireError>
        ensures { Reads unlock unlock_frame_of self.old result self.new }
    {
        let path = self.read_str()?;
        let token = self.read_str()?;
        Ok(UnlockFrame { path, token })
    }

    /// Reads the path of a resource and when it was last modified.
    fn read_modified(&mut self) -> Result<ModifiedFrame<'a>, WireError>
        ensures { Reads modified modified_frame_of self.old result self.new }
    {
        let path = self.read_str()?;
        let time = self.read_number()?;
        Ok(ModifiedFrame { path, time })
    }

    /// Reads the content of a read of a part of a file.
    fn read_part(&mut self) -> Result<ReadFrame<'a>, WireError>
        ensures { Reads read read_frame_of self.old result self.new }
    {
        let principal = self.read_optional_str()?;
        let path = self.read_str()?;
        let place = self.read_number()?;
        let length = self.read_number()?;
        let version = self.read_optional_str()?;
        Ok(ReadFrame {
            principal,
            path,
            place,
            length,
            version,
        })
    }
}
