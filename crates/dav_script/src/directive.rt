//! The directives of a block: lines that begin with `=`.
ghost use Rattle.std.specs.Prelude.{◌≡◌, ◌⊎◌, ◌<◌, if◌then◌else◌, Some, None, IfOk, IfErr, IfSome, IsTrue, IsFalse, MatchResult, length, option_map};
ghost use Rattle.std.specs.List.{list_all};
ghost use Rattle.std.specs.Char.{is_ascii_hexdigit, digit_value};
ghost use Rattle.dav_script.specs.Escape.{first_byte as first_byte_of, escaped_byte as escaped_byte_of, hex_byte as hex_byte_of, StandsFor, IsFaulty};
ghost use Rattle.dav_resource.specs.LockToken.{lock_token};

use crate::blocks::Block;
use crate::faults::{Fault, LineError};
use crate::outline_read::OutlineReader;
use crate::refuse::add_refusal;
use dav_headers::read_number;
use dav_resource::{Items, LockToken, ReqBody, Text};
use std::alloc::{AllocError, Global};

/// Reads a directive into its block. The line, without the `=`, has a name and, after a space, a value.
/// `number` is the line's number. Every `refuse` counts. Of any other directive given twice, and of two
/// bodies, the last counts. The lines after `xml` are the outline of the body's tree.
pub fn read(block: &mut Block, number: u64, line: &str) -> Result<(), LineError> {
    let alloc = *block.path.allocator();
    let (name, value) = line.split_once(' ').unwrap_or((line, ""));
    match name {
        "bytes" => {
            let bytes = unescape(alloc, value.as_bytes())?;
            block.body = ReqBody::Bytes(Items::from_vec(bytes));
        }
        "malformed" if value.is_empty() => block.body = ReqBody::Malformed,
        "xml" if value.is_empty() => block.outline = Some(OutlineReader::new(alloc, number)),
        "malformed" | "xml" => return Err(Fault::BadValue.into()),
        "now" => match read_number(value) {
            Some(now) => block.now = Some(now),
            None => return Err(Fault::BadValue.into()),
        },
        "principal" => block.principal = Some(text_of(alloc, value)?),
        "token" => block.token = Some(read_token(alloc, value)?),
        "refuse" => add_refusal(&mut block.refusals, value)?,
        _ => return Err(Fault::UnknownDirective.into()),
    }
    Ok(())
}

/// Reads a lock token: one or more bytes from 0x21 to 0x7E.
pub fn read_token(alloc: Global, value: &str) -> Result<LockToken, LineError>
    ensures { MatchResult result
        (λ token. lock_token value.now ≡ Some token)
        (λ e. (e ≡ LineError.Memory) ⊎ ((e ≡ LineError.Fault Fault.BadValue) × (lock_token value.now ≡ None))) }
{
    match LockToken::from_string(String::from_str(alloc, value)?) {
        Some(token) => Ok(token),
        None => Err(Fault::BadValue.into()),
    }
}

/// Returns an owned copy of the text. Fails only if memory runs out.
fn text_of(alloc: Global, text: &str) -> Result<Text, AllocError>
    ensures { IfOk result (λ copy. copy ≡ text.now) }
{
    Ok(Text::from_string(String::from_str(alloc, text)?))
}

/// Returns the bytes that an escaped text stands for. `\n` is a line feed, `\\` and `\"` are the second
/// character, and `\x` with two hexadecimal digits is that byte. Any other character after a `\` is a
/// `BadValue`.
pub fn unescape(alloc: Global, text: &[u8]) -> Result<Vec<u8>, LineError>
    ensures ok { IfOk result (λ bytes. StandsFor text.now bytes.items) }
    ensures err { IfErr result (λ e. (e ≡ LineError.Memory) ⊎ ((e ≡ LineError.Fault Fault.BadValue) × IsFaulty text.now)) }
{
    let mut bytes = Vec::new(alloc);
    let mut rest = text;
    while !rest.is_empty() {
        let Some((byte, tail)) = first_byte(rest) else {
            return Err(LineError::Fault(Fault::BadValue));
        };
        bytes.push(byte)?;
        rest = tail;
    }
    Ok(bytes)
}

/// Returns the first byte that a text stands for, and the text after it.
fn first_byte(text: &[u8]) -> Option<(u8, &[u8])>
    ensures byte { option_map (λ p. (p.0, p.1.now)) result ≡ first_byte_of text.now }
    ensures shorter { IfSome result (λ p. length p.1.now < length text.now) }
{
    let (letter, rest) = text.split_first()?;
    if *letter == b'\\' {
        return escaped_byte(rest);
    }
    Some((*letter, rest))
}

/// Returns the byte that an escape stands for, from after its `\`, and the text after the escape.
fn escaped_byte(text: &[u8]) -> Option<(u8, &[u8])>
    ensures byte { option_map (λ p. (p.0, p.1.now)) result ≡ escaped_byte_of text.now }
    ensures shorter { IfSome result (λ p. length p.1.now < length text.now) }
{
    let (letter, rest) = text.split_first()?;
    match *letter {
        b'n' => Some((b'\n', rest)),
        b'\\' | b'"' => Some((*letter, rest)),
        b'x' => hex_byte(rest),
        _ => None,
    }
}

/// Returns the byte that two hexadecimal digits stand for, and the text after them.
fn hex_byte(text: &[u8]) -> Option<(u8, &[u8])>
    ensures byte { option_map (λ p. (p.0, p.1.now)) result ≡ hex_byte_of text.now }
    ensures shorter { IfSome result (λ p. length p.1.now < length text.now) }
{
    let (high, rest) = text.split_first()?;
    let (low, rest) = rest.split_first()?;
    let byte = 16 * hex_digit(*high)? + hex_digit(*low)?;
    Some((byte, rest))
}

/// Returns the value of a hexadecimal digit.
fn hex_digit(digit: u8) -> Option<u8>
    ensures value { result ≡ (if is_ascii_hexdigit digit then Some (digit_value digit) else None) }
    ensures small { IfSome result (λ value. value < 16) }
{
    match digit {
        b'0'..=b'9' => Some(digit - b'0'),
        b'a'..=b'f' => Some(digit - b'a' + 10),
        b'A'..=b'F' => Some(digit - b'A' + 10),
        _ => None,
    }
}
