//! For which resources a rule is made.
ghost use Rattle.std.specs.Prelude.{◌≡◌, ◌==◌, ◌&&◌, length, slice_index, count_by};
ghost use Rattle.std.specs.List.{list_all};
ghost use Rattle.toml.specs.View.{view};
ghost use Rattle.dav_resource.specs.PathText.{is_slash};
ghost use Rattle.dav_rules.specs.Rules.{Reads, place_of, key_at, key_of, is_path_byte, parts_of, without_last_slash};

use crate::error::RuleFault;
use dav_key::FlatKey;
use dav_resource::{DavError, DavPath};
use std::alloc::Global;
use toml::Value;

/// Reads for which resource a rule is made, and whether it is made for all below it too.
pub(crate) fn read_place(alloc: Global, rule: &Value) -> Result<(FlatKey, bool), RuleFault>
    ensures { Reads (λ place. place) result (place_of (view rule.now)) }
{
    match (rule.get("at"), rule.get("at_and_below")) {
        (Some(at), None) => Ok((read_key(alloc, at)?, false)),
        (None, Some(below)) => Ok((read_key(alloc, below)?, true)),
        _ => Err(RuleFault::Place),
    }
}

/// Reads the key of a path.
fn read_key(alloc: Global, value: &Value) -> Result<FlatKey, RuleFault>
    ensures { Reads (λ key. key) result (key_at (view value.now)) }
{
    match value.as_str() {
        Some(text) => read_path(alloc, text),
        None => Err(RuleFault::Place),
    }
}

/// Reads the key of a path that means what is written: as many segments are read as the path has parts, so none was dropped.
fn read_path(alloc: Global, text: &str) -> Result<FlatKey, RuleFault>
    ensures { Reads (λ key. key) result (key_of text.now) }
{
    if !is_whole_path(text) {
        return Err(RuleFault::Place);
    }
    match DavPath::from_str_and_prefix(alloc, text, "") {
        Ok(path) if segment_count(path.key()) == part_count(text) => Ok(path.key().clone()?),
        Ok(_) => Err(RuleFault::Place),
        Err(error) => Err(fault_of(error)),
    }
}

/// Returns what is wrong with a rule whose path has this error.
fn fault_of(error: DavError) -> RuleFault
    ensures { error ≡ DavError.Memory → result ≡ RuleFault.Memory }
{
    match error {
        DavError::Memory => RuleFault::Memory,
        _ => RuleFault::Place,
    }
}

/// Whether a text begins with a slash and has neither `?` nor `#`, so that it is all read as a path.
fn is_whole_path(text: &str) -> bool
    ensures { result ≡ (slice_index text.now 0 == 47 && list_all is_path_byte text.now) }
{
    text.starts_with('/') && has_path_bytes(text.as_bytes())
}

/// Whether none of the bytes is `?` or `#`.
fn has_path_bytes(text: &[u8]) -> bool
    ensures { result ≡ list_all is_path_byte text.now }
{
    text.iter().all(|byte| *byte != b'?' && *byte != b'#')
}

/// Returns how many segments a key has.
fn segment_count(key: &FlatKey) -> usize
    ensures { result ≡ length key.now }
{
    key.segments().count()
}

/// Returns how many parts a path has between its slashes. A slash at its end begins no part.
fn part_count(path: &str) -> usize
    ensures { result ≡ length (parts_of path.now) }
{
    slash_count(without_last_slash(path.as_bytes()))
}

/// Returns how many slashes a text has.
fn slash_count(text: &[u8]) -> usize
    ensures { result ≡ count_by is_slash text.now }
{
    text.iter().filter(|byte| **byte == b'/').count()
}

/// Returns the text without its last slash, if it ends in one.
fn without_last_slash(text: &[u8]) -> &[u8]
    ensures { result.now ≡ without_last_slash text.now }
{
    match text {
        [inside @ .., b'/'] => inside,
        _ => text,
    }
}
