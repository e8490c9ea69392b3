//! Locks.
ghost use Rattle.std.specs.Prelude.{◌≡◌, option_map};
ghost use Rattle.std.specs.Option.{option_copied};
ghost use Rattle.dav_wire.specs.Numbers.{number};
ghost use Rattle.dav_wire.specs.Values.{utf8_text, flag, optional};
ghost use Rattle.dav_wire.specs.Writes.{WritesUnless};
ghost use Rattle.dav_wire.specs.Reads.{Reads, ReadsAllocating};
ghost use Rattle.dav_cells.specs.Cells.{EncodesUnless, Decodes};
ghost use Rattle.dav_cells.specs.Elements.{element_codec};
ghost use Rattle.dav_cells.specs.Locks.{lock_codec, kept_lock, IsOwnerTooDeep};

use crate::error::write_error;
use crate::paths::{read_path, write_path};
use crate::{CellError, ELEMENT_LEVELS};
use dav_resource::{Element, Text};
use dav_store::DavLock;
use dav_wire::{Reader, WireError, Writer};
use std::alloc::Global;

/// Encodes a lock. If its path is the root without a trailing slash, the slash is added. No call of `DavPath`
/// makes such a path.
///
/// - `TooDeep`: the owner has more than `ELEMENT_LEVELS` levels of elements.
/// - `Memory`: memory runs out.
pub fn encode_lock(alloc: Global, lock: &DavLock) -> Result<Vec<u8>, CellError>
    ensures { EncodesUnless (IsOwnerTooDeep lock.now.owner) lock_codec (kept_lock lock.now) result }
{
    let mut writer = Writer::new(alloc);
    match write_lock(&mut writer, lock) {
        Ok(()) => Ok(writer.into_bytes()),
        Err(error) => Err(write_error(error)),
    }
}

/// Decodes a lock.
///
/// - `Malformed`: the bytes are not the encoding of a lock.
/// - `Memory`: memory runs out.
pub fn decode_lock(alloc: Global, bytes: &[u8]) -> Result<DavLock, CellError>
    ensures { Decodes lock_codec bytes.now result }
{
    let mut reader = Reader::new(alloc, bytes);
    let lock = read_lock(alloc, &mut reader)?;
    if reader.is_at_end() {
        Ok(lock)
    } else {
        Err(CellError::Malformed)
    }
}

/// Writes a lock.
fn write_lock(writer: &mut Writer, lock: &DavLock) -> Result<(), WireError>
    ensures { WritesUnless (IsOwnerTooDeep lock.now.owner) lock_codec (kept_lock lock.now) writer.old result writer.new }
{
    writer.write_str(lock.token.as_str())?;
    write_path(writer, &lock.path)?;
    writer.write_optional_str(str_of(lock.principal.as_ref()))?;
    writer.write_optional_number(lock.timeout)?;
    writer.write_optional_number(lock.timeout_at)?;
    writer.write_flag(lock.shared)?;
    writer.write_flag(lock.deep)?;
    writer.write_optional_element(lock.owner.as_ref(), ELEMENT_LEVELS)
}

/// Borrows the string, if there is one.
fn str_of(text: Option<&Text>) -> Option<&str>
    ensures { option_map (λ s. s.now) result ≡ option_copied text.entry }
{
    match text {
        Some(text) => Some(text.as_str()),
        None => None,
    }
}

/// Reads a lock.
fn read_lock(alloc: Global, reader: &mut Reader<'_>) -> Result<DavLock, WireError>
    ensures { ReadsAllocating lock_codec (λ l. l) reader.old result reader.new }
{
    let token = reader.read_text()?;
    let path = read_path(alloc, reader)?;
    let principal = reader.read_optional_text()?;
    let timeout = read_optional_number(reader)?;
    let timeout_at = read_optional_number(reader)?;
    let shared = read_flag(reader)?;
    let deep = read_flag(reader)?;
    let owner = read_optional_element(reader)?;
    Ok(DavLock {
        token,
        path,
        principal,
        owner,
        timeout,
        timeout_at,
        shared,
        deep,
    })
}

/// Reads an optional number.
fn read_optional_number(reader: &mut Reader<'_>) -> Result<Option<u64>, WireError>
    ensures { Reads (optional number) (λ x. x) reader.old result reader.new }
{
    match reader.read_u8()? {
        0 => Ok(None),
        1 => Ok(Some(reader.read_number()?)),
        _ => Err(WireError::Malformed),
    }
}

/// Reads an optional element, up to `ELEMENT_LEVELS` levels.
fn read_optional_element(reader: &mut Reader<'_>) -> Result<Option<Element>, WireError>
    ensures { ReadsAllocating (optional element_codec) (λ x. x) reader.old result reader.new }
{
    match reader.read_u8()? {
        0 => Ok(None),
        1 => Ok(Some(reader.read_element(ELEMENT_LEVELS)?)),
        _ => Err(WireError::Malformed),
    }
}

/// Reads a flag.
pub(crate) fn read_flag(reader: &mut Reader<'_>) -> Result<bool, WireError>
    ensures { Reads flag (λ x. x) reader.old result reader.new }
{
    match reader.read_u8()? {
        0 => Ok(false),
        1 => Ok(true),
        _ => Err(WireError::Malformed),
    }
}
