//! Keys and paths.
ghost use Rattle.std.specs.Prelude.{◌≡◌, ◌≢◌, ◌||◌, ◌==◌, [], true, false, length, IfOk, OnOk, IfErr};
ghost use Rattle.dav_resource.specs.PathText.{star_path, IsKey, IsSegment};
ghost use Rattle.dav_wire.specs.Writes.{Writes};
ghost use Rattle.dav_wire.specs.Reads.{Reads, ReadsAllocating};
ghost use Rattle.dav_cells.specs.Paths.{segment_codec, key_codec, path_of_parts, is_whole_path, path_codec, kept_path, NotPath};

use crate::locks::read_flag;
use dav_key::{FlatKey, KeyBuilder};
use dav_resource::{DavError, DavPath, is_segment};
use dav_wire::{Reader, WireError, Writer};
use std::alloc::{AllocError, Global};

/// Writes a path: whether it is the star path, whether it has a trailing slash, its prefix and its key.
pub(crate) fn write_path(writer: &mut Writer, path: &DavPath) -> Result<(), AllocError>
    ensures { Writes path_codec (kept_path path.now) writer.old result writer.new }
{
    writer.write_flag(path.is_star())?;
    writer.write_flag(path.is_collection())?;
    write_key(writer, path.prefix())?;
    write_key(writer, path.key())
}

/// Writes a key: how many segments it has, and then each.
fn write_key(writer: &mut Writer, key: &FlatKey) -> Result<(), AllocError>
    requires { IsKey key.now }
    ensures { Writes key_codec key.now writer.old result writer.new }
{
    writer.write_number(segment_count(key) as u64)?;
    for segment in key.segments() {
        write_segment(writer, segment)?;
    }
    Ok(())
}

/// Returns how many segments the key has.
fn segment_count(key: &FlatKey) -> usize
    ensures { result ≡ length key.now }
{
    key.segments().count()
}

/// Writes a segment as a string.
fn write_segment(writer: &mut Writer, segment: &str) -> Result<(), AllocError>
    requires { IsSegment segment.now }
    ensures { Writes segment_codec segment.now writer.old result writer.new }
{
    writer.write_str(segment)
}

/// Reads a path.
pub(crate) fn read_path(alloc: Global, reader: &mut Reader<'_>) -> Result<DavPath, WireError>
    ensures { ReadsAllocating path_codec (λ path. path) reader.old result reader.new }
{
    let star = read_flag(reader)?;
    let slash = read_flag(reader)?;
    let prefix = read_key(alloc, reader)?;
    let key = read_key(alloc, reader)?;
    path_of_parts(star, slash, prefix, key)
}

/// Reads a key.
fn read_key(alloc: Global, reader: &mut Reader<'_>) -> Result<FlatKey, WireError>
    ensures read { ReadsAllocating key_codec (λ key. key) reader.old result reader.new }
    ensures key { IfOk result IsKey }
{
    let mut left = reader.read_number()?;
    let mut key = KeyBuilder::new(alloc);
    while left > 0 {
        let segment = read_segment(reader)?;
        key.push(segment)?;
        left -= 1;
    }
    Ok(key.finish()?)
}

/// Reads a segment, which is borrowed from the cell.
fn read_segment<'a>(reader: &mut Reader<'a>) -> Result<&'a str, WireError>
    ensures read { Reads segment_codec (λ s. s.now) reader.old result reader.new }
    ensures segment { IfOk result (λ s. IsSegment s.now) }
{
    let segment = reader.read_str()?;
    if is_segment(segment) {
        Ok(segment)
    } else {
        Err(WireError::Malformed)
    }
}

/// Returns the path with these parts. It is `Malformed` if the root has no trailing slash, or if the star path
/// has segments.
fn path_of_parts(
    star: bool,
    slash: bool,
    prefix: FlatKey,
    key: FlatKey,
) -> Result<DavPath, WireError>
    requires prefix { IsKey prefix }
    requires key { IsKey key }
    ensures ok { IfOk result (λ path. path ≡ path_of_parts (star, (slash, (prefix, key)))) }
    ensures whole { OnOk result (is_whole_path (path_of_parts (star, (slash, (prefix, key)))) ≡ true) }
    ensures err { IfErr result (NotPath (path_of_parts (star, (slash, (prefix, key))))) }
{
    if !slash && key.is_root() {
        return Err(WireError::Malformed);
    }
    if star {
        return if prefix.is_root() && key.is_root() {
            Ok(star_path(key.allocator())?)
        } else {
            Err(WireError::Malformed)
        };
    }
    if prefix.is_root() {
        return Ok(DavPath::of_key(key, slash)?);
    }
    Ok(path_below(&prefix, &key, slash)?)
}

/// Returns the star path. Fails only if memory runs out.
fn star_path(alloc: Global) -> Result<DavPath, AllocError>
    ensures { IfOk result (λ path. path ≡ star_path) }
{
    match DavPath::from_str_and_prefix(alloc, "*", "") {
        Ok(path) => Ok(path),
        Err(_) => Err(AllocError),
    }
}

/// Returns the path with this key below this prefix, as the path of a URL is read. Fails only if memory runs
/// out.
fn path_below(prefix: &FlatKey, key: &FlatKey, slash: bool) -> Result<DavPath, AllocError>
    requires prefix { IsKey prefix.now }
    requires key { IsKey key.now }
    requires below { prefix.now ≢ [] }
    requires slash { (slash || length key.now == 0) ≡ slash }
    ensures { IfOk result (λ path. path ≡ path_of_parts (false, (slash, (prefix.now, key.now)))) }
{
    let text = DavPath::of_key(prefix.join(key)?, slash)?.as_url_string()?;
    let above = DavPath::of_key(prefix.clone()?, false)?.as_url_string()?;
    match DavPath::from_str_and_prefix(key.allocator(), &text, &above) {
        Ok(path) => Ok(path),
        Err(_) => Err(AllocError),
    }
}
