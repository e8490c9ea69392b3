//! Reads of values from the front of a frame.
ghost use Rattle.std.specs.Prelude.{◌≡◌, ◌↔◌, [], IsTrue, option_map, string_bytes};
ghost use Rattle.dav_wire.specs.Numbers.{byte, number};
ghost use Rattle.dav_wire.specs.Values.{text, utf8_text, optional};
ghost use Rattle.dav_wire.specs.Reads.{Reads, ReadsAllocating};

use crate::WireError;
use dav_resource::Text;
use std::alloc::Global;
use std::marker::Model;

mod batch;
mod frame;
mod tree;

/// The bytes of a frame that are not read yet. In contracts its value is the list of those bytes.
///
/// Each `read_` method reads a value from the front. It returns `Malformed` if the bytes do not begin with an
/// encoding of such a value. Only the methods that allocate return `Memory`. After an error it is not
/// specified how many bytes are read, so the frame must be dropped.
#[derive(Drop)]
pub struct Reader<'a> {
    alloc: Global,
    rest: &'a [u8],
}

impl<'a> Model for Reader<'a> {
    ghost use Rattle.std.specs.Prelude.{List, ℕ};

    ghost Value = { List ℕ };

    ghost view = { λ r. r.rest.now };
}

impl<'a> Reader<'a> {
    /// Creates a reader of these bytes. Values that it allocates use `alloc`.
    pub fn new(alloc: Global, bytes: &'a [u8]) -> Reader<'a>
        ensures { result ≡ bytes.now }
    {
        Reader { alloc, rest: bytes }
    }

    /// Whether all bytes are read.
    pub fn is_at_end(&self) -> bool
        ensures { IsTrue result ↔ (self.now ≡ []) }
    {
        self.rest.is_empty()
    }

    /// Reads one byte. Returns `Malformed` if no bytes are left.
    pub fn read_u8(&mut self) -> Result<u8, WireError>
        ensures { Reads byte (λ x. x) self.old result self.new }
    {
        match self.rest {
            [first, rest @ ..] => {
                self.rest = rest;
                Ok(*first)
            }
            [] => Err(WireError::Malformed),
        }
    }

    /// Reads a number of 8 bytes, the highest first. Returns `Malformed` if fewer are left.
    pub fn read_number(&mut self) -> Result<u64, WireError>
        ensures { Reads number (λ x. x) self.old result self.new }
    {
        match self.rest {
            [b0, b1, b2, b3, b4, b5, b6, b7, rest @ ..] => {
                self.rest = rest;
                Ok(u64::from_be_bytes([*b0, *b1, *b2, *b3, *b4, *b5, *b6, *b7]))
            }
            _ => Err(WireError::Malformed),
        }
    }

    /// Reads a byte string, which is borrowed from the frame. Returns `Malformed` if fewer bytes are left
    /// than its length says.
    pub fn read_bytes(&mut self) -> Result<&'a [u8], WireError>
        ensures { Reads text (λ x. x.now) self.old result self.new }
    {
        let len = self.read_number()?;
        if len > self.rest.len() as u64 {
            return Err(WireError::Malformed);
        }
        let (bytes, rest) = self.rest.split_at(len as usize);
        self.rest = rest;
        Ok(bytes)
    }

    /// Reads a string, which is borrowed from the frame. Returns `Malformed` if the byte string is cut short
    /// or is not UTF-8.
    pub fn read_str(&mut self) -> Result<&'a str, WireError>
        ensures { Reads utf8_text (λ x. x.now) self.old result self.new }
    {
        let bytes = self.read_bytes()?;
        match str::from_utf8(bytes) {
            Ok(text) => Ok(text),
            Err(_) => Err(WireError::Malformed),
        }
    }

    /// Reads a string and copies it. Returns `Malformed` as `read_str` does, and `Memory` if memory runs out.
    pub fn read_string(&mut self) -> Result<String, WireError>
        ensures { ReadsAllocating utf8_text (λ x. string_bytes x) self.old result self.new }
    {
        let text = self.read_str()?;
        Ok(String::from_str(self.alloc, text)?)
    }

    /// Reads a string as a `Text`. Returns `Malformed` as `read_str` does, and `Memory` if memory runs out.
    pub fn read_text(&mut self) -> Result<Text, WireError>
        ensures { ReadsAllocating utf8_text (λ x. x) self.old result self.new }
    {
        Ok(Text::from_string(self.read_string()?))
    }

    /// Reads an optional string, which is borrowed from the frame. Returns `Malformed` if the first byte is
    /// neither 0 nor 1, or as `read_str` does.
    pub fn read_optional_str(&mut self) -> Result<Option<&'a str>, WireError>
        ensures { Reads (optional utf8_text) (λ x. option_map (λ s. s.now) x) self.old result self.new }
    {
        match self.read_u8()? {
            0 => Ok(None),
            1 => Ok(Some(self.read_str()?)),
            _ => Err(WireError::Malformed),
        }
    }

    /// Reads an optional string as a `Text`. Returns `Malformed` as `read_optional_str` does, and `Memory` if
    /// memory runs out.
    pub fn read_optional_text(&mut self) -> Result<Option<Text>, WireError>
        ensures { ReadsAllocating (optional utf8_text) (λ x. x) self.old result self.new }
    {
        let text = self.read_optional_str()?;
        Ok(Text::copied(self.alloc, text)?)
    }
}
