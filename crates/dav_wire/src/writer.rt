//! Writes of values at the end of a frame.
ghost use Rattle.std.specs.Prelude.{◌≡◌, ◌++◌, [], option_map, OnOk, OnErr};
ghost use Rattle.dav_wire.specs.Numbers.{byte, number};
ghost use Rattle.dav_wire.specs.Values.{text, utf8_text, optional};
ghost use Rattle.dav_wire.specs.Writes.{Writes};

use std::alloc::{AllocError, Global};
use std::marker::Model;

mod frame;
mod parts;
mod reply;
mod tree;

/// The bytes of a frame that are written so far. In contracts its value is the list of those bytes.
///
/// Each `write_` method appends the encoding of a value, and fails if memory runs out. After an error the
/// bytes written before the call are unchanged, and part of the encoding may follow them.
#[derive(Drop)]
pub struct Writer {
    bytes: Vec<u8>,
}

impl Model for Writer {
    ghost use Rattle.std.specs.Prelude.{List, ℕ};

    ghost Value = { List ℕ };

    ghost view = { λ w. w.bytes.items };
}

impl Writer {
    /// Creates a writer of an empty frame. Its bytes use `alloc`.
    pub fn new(alloc: Global) -> Writer
        ensures { result ≡ [] }
    {
        Writer {
            bytes: Vec::new(alloc),
        }
    }

    /// Returns the bytes of the frame.
    pub fn into_bytes(self) -> Vec<u8>
        ensures { result.items ≡ self }
    {
        self.bytes
    }

    /// Writes one byte. Fails only if memory runs out.
    pub fn write_u8(&mut self, value: u8) -> Result<(), AllocError>
        ensures { Writes byte value self.old result self.new }
    {
        self.bytes.push(value)?;
        Ok(())
    }

    /// Writes a number as 8 bytes, the highest first. Fails only if memory runs out.
    pub fn write_number(&mut self, value: u64) -> Result<(), AllocError>
        ensures { Writes number value self.old result self.new }
    {
        self.append(&value.to_be_bytes())
    }

    /// Writes a byte string: its length as a number, then its bytes. Fails only if memory runs out.
    pub fn write_bytes(&mut self, bytes: &[u8]) -> Result<(), AllocError>
        ensures { Writes text bytes.now self.old result self.new }
    {
        self.write_number(bytes.len() as u64)?;
        self.append(bytes)
    }

    /// Writes a string as a byte string. Fails only if memory runs out.
    pub fn write_str(&mut self, text: &str) -> Result<(), AllocError>
        ensures { Writes utf8_text text.now self.old result self.new }
    {
        self.write_bytes(text.as_bytes())
    }

    /// Writes an optional string: the byte 0, or the byte 1 and the string. Fails only if memory runs out.
    pub fn write_optional_str(&mut self, text: Option<&str>) -> Result<(), AllocError>
        ensures { Writes (optional utf8_text) (option_map (λ s. s.now) text.entry) self.old result self.new }
    {
        match text {
            Some(text) => {
                self.write_u8(1)?;
                self.write_str(text)
            }
            None => self.write_u8(0),
        }
    }

    /// Appends these bytes as they are. Fails only if memory runs out, and then nothing changes.
    fn append(&mut self, bytes: &[u8]) -> Result<(), AllocError>
        ensures ok { OnOk result (self.new ≡ self.old ++ bytes.now) }
        ensures err { OnErr result (self.new ≡ self.old) }
    {
        self.bytes.extend_from_slice(bytes)
    }
}
