//! Reads a planned refusal: `OP PATH ERROR`.
ghost use Rattle.std.specs.Prelude.{◌≡◌, ◌⊎◌, [], ◌∷◌, ◌++◌, Some, None, map, option_map, IfErr, OnOk, OnErr, MatchResult};
ghost use Rattle.dav_script.specs.Refusals.{refused_path, refusal_in, refusal_of_words, refusal_of};

use crate::faults::{Fault, LineError};
use crate::names::{op_named, refusal_error};
use crate::refusal::PlannedRefusal;
use dav_resource::{DavError, DavPath};
use std::alloc::Global;

/// Reads a refusal, `OP PATH ERROR`, and appends it to those of earlier lines. After an error the list is
/// unchanged.
pub fn add_refusal(refusals: &mut Vec<PlannedRefusal>, text: &str) -> Result<(), LineError>
    ensures ok { OnOk result (option_map (λ refusal. map refusal_in refusals.old.items ++ refusal ∷ []) (refusal_of text.now) ≡ Some (map refusal_in refusals.new.items)) }
    ensures err { IfErr result (λ e. (e ≡ LineError.Memory) ⊎ ((e ≡ LineError.Fault Fault.BadValue) × (refusal_of text.now ≡ None))) }
    ensures same { OnErr result (refusals.new.items ≡ refusals.old.items) }
{
    let refusal = read_refusal(*refusals.allocator(), text)?;
    refusals.push(refusal)?;
    Ok(())
}

/// Reads a refusal: three words separated by single spaces.
pub fn read_refusal(alloc: Global, text: &str) -> Result<PlannedRefusal, LineError>
    ensures { MatchResult result
        (λ refusal. refusal_of text.now ≡ Some (refusal_in refusal))
        (λ e. (e ≡ LineError.Memory) ⊎ ((e ≡ LineError.Fault Fault.BadValue) × (refusal_of text.now ≡ None))) }
{
    let Some((op, rest)) = text.split_once(' ') else {
        return Err(LineError::Fault(Fault::BadValue));
    };
    let Some((path, error)) = rest.split_once(' ') else {
        return Err(LineError::Fault(Fault::BadValue));
    };
    read_words(alloc, op, path, error)
}

/// Reads a refusal from its three words.
fn read_words(alloc: Global, op: &str, path: &str, error: &str) -> Result<PlannedRefusal, LineError>
    ensures { MatchResult result
        (λ refusal. refusal_of_words op.now path.now error.now ≡ Some (refusal_in refusal))
        (λ e. (e ≡ LineError.Memory) ⊎ ((e ≡ LineError.Fault Fault.BadValue) × (refusal_of_words op.now path.now error.now ≡ None))) }
{
    let Some(op) = op_named(op) else {
        return Err(LineError::Fault(Fault::BadValue));
    };
    let path = read_path(alloc, path)?;
    let Some(error) = refusal_error(error) else {
        return Err(LineError::Fault(Fault::BadValue));
    };
    Ok(PlannedRefusal { op, path, error })
}

/// Parses a word as a path without a prefix.
pub fn read_path(alloc: Global, word: &str) -> Result<DavPath, LineError>
    ensures { MatchResult result
        (λ path. refused_path word.now ≡ Some path)
        (λ e. (e ≡ LineError.Memory) ⊎ ((e ≡ LineError.Fault Fault.BadValue) × (refused_path word.now ≡ None))) }
{
    match DavPath::from_str_and_prefix(alloc, word, "") {
        Ok(path) => Ok(path),
        Err(DavError::Memory) => Err(LineError::Memory),
        Err(_) => Err(LineError::Fault(Fault::BadValue)),
    }
}
