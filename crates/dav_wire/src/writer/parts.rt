//! Writes of parts that frames and replies share.
ghost use Rattle.std.specs.Prelude.{◌<◌, map};
ghost use Rattle.dav_wire.specs.Numbers.{number};
ghost use Rattle.dav_wire.specs.Values.{flag, optional};
ghost use Rattle.dav_wire.specs.Trees.{tree};
ghost use Rattle.dav_wire.specs.Fields.{field, fields};
ghost use Rattle.dav_wire.specs.Levels.{optional_levels};
ghost use Rattle.dav_wire.specs.Views.{behind, field_of};
ghost use Rattle.dav_wire.specs.Writes.{Writes, WritesUnless};

use crate::{WireError, Writer};
use dav_resource::Element;
use std::alloc::AllocError;

impl Writer {
    /// Writes a flag: the byte 0 for no, or the byte 1 for yes. Fails only if memory runs out.
    pub fn write_flag(&mut self, value: bool) -> Result<(), AllocError>
        ensures { Writes flag value self.old result self.new }
    {
        if value {
            self.write_u8(1)
        } else {
            self.write_u8(0)
        }
    }

    /// Writes an optional number: the byte 0, or the byte 1 and the number. Fails only if memory runs out.
    pub fn write_optional_number(&mut self, value: Option<u64>) -> Result<(), AllocError>
        ensures { Writes (optional number) value self.old result self.new }
    {
        match value {
            Some(value) => {
                self.write_u8(1)?;
                self.write_number(value)
            }
            None => self.write_u8(0),
        }
    }

    /// Writes an optional element: the byte 0, or the byte 1 and the element, up to `levels` levels.
    ///
    /// - `Malformed`: the element has more levels.
    /// - `Memory`: memory runs out.
    pub fn write_optional_element(
        &mut self,
        element: Option<&Element>,
        levels: usize,
    ) -> Result<(), WireError>
        ensures { let t = behind element.entry in WritesUnless (levels < optional_levels t) (optional (tree levels)) t self.old result self.new }
    {
        match element {
            Some(element) => {
                self.write_u8(1)?;
                self.write_element(element, levels)
            }
            None => {
                self.write_u8(0)?;
                Ok(())
            }
        }
    }

    /// Writes header fields. Fails only if memory runs out.
    pub(crate) fn write_fields(&mut self, pairs: &[(&[u8], &[u8])]) -> Result<(), AllocError>
        ensures { Writes fields (map field_of pairs.now) self.old result self.new }
    {
        self.write_number(pairs.len() as u64)?;
        for pair in pairs {
            self.write_field(pair.0, pair.1)?;
        }
        Ok(())
    }

    /// Writes the name and the value of a header field.
    fn write_field(&mut self, name: &[u8], value: &[u8]) -> Result<(), AllocError>
        ensures { Writes field (name.now, value.now) self.old result self.new }
    {
        self.write_bytes(name)?;
        self.write_bytes(value)
    }
}
