//! Elements.
ghost use Rattle.dav_cells.specs.Cells.{EncodesUnless, Decodes};
ghost use Rattle.dav_cells.specs.Elements.{element_codec, IsTooDeep};

use crate::CellError;
use crate::error::write_error;
use dav_resource::Element;
use dav_wire::{Reader, Writer};
use std::alloc::Global;

/// How many levels of elements an element in a cell has at most. The element itself is the first level.
pub const ELEMENT_LEVELS: usize = 256;

/// Encodes an element.
///
/// - `TooDeep`: the element has more than `ELEMENT_LEVELS` levels.
/// - `Memory`: memory runs out.
pub fn encode_element(alloc: Global, element: &Element) -> Result<Vec<u8>, CellError>
    ensures { EncodesUnless (IsTooDeep element.now) element_codec element.now result }
{
    let mut writer = Writer::new(alloc);
    match writer.write_element(element, ELEMENT_LEVELS) {
        Ok(()) => Ok(writer.into_bytes()),
        Err(error) => Err(write_error(error)),
    }
}

/// Decodes an element.
///
/// - `Malformed`: the bytes are not the encoding of an element.
/// - `Memory`: memory runs out.
pub fn decode_element(alloc: Global, bytes: &[u8]) -> Result<Element, CellError>
    ensures { Decodes element_codec bytes.now result }
{
    let mut reader = Reader::new(alloc, bytes);
    let element = reader.read_element(ELEMENT_LEVELS)?;
    if reader.is_at_end() {
        Ok(element)
    } else {
        Err(CellError::Malformed)
    }
}
