//! One line of an outline: its level, and its text or element.
ghost use Rattle.std.specs.Prelude.{◌≡◌, ◌≢◌, ◌⊎◌, ℕ, List, ◌<◌, ◌≤◌, Some, length, option_map, option_and_then, IfOk, IfErr, IsTrue, IsFalse, MatchResult, [], drop, string_bytes, None};
ghost use Rattle.std.specs.List.{position_or_len, before_first, list_all};
ghost use Rattle.dav_resource.specs.Tree.{prefixed_element};
ghost use Rattle.dav_headers.specs.Values.{cut_at};
ghost use Rattle.dav_script.specs.Errors.{IsOutlineError};
ghost use Rattle.dav_script.specs.Outline.{is_space, spaces, split_level, level_of, is_name_byte, is_name, is_qualified_name, split_namespace, escaped_letter, quoted};

use crate::faults::{Fault, LineError};
use dav_resource::{Element, StartTag, Text, XMLNode};
use std::alloc::Global;

/// Reads a line: its level, and a text or an element without children. The only fault is `BadOutline`.
pub fn read_node(alloc: Global, line: &str) -> Result<(usize, XMLNode), LineError>
    ensures level { IfOk result (λ found. level_of line.now ≡ Some found.0) }
    ensures err { IfErr result IsOutlineError }
{
    let (level, text) = split_level(line).ok_or(Fault::BadOutline)?;
    let node = match text.strip_prefix('"') {
        Some(quoted) => XMLNode::Text(read_text(alloc, quoted)?),
        None => XMLNode::Element(read_element(alloc, text)?),
    };
    Ok((level, node))
}

/// Returns a line's level, with two spaces of indentation for each, and the rest of the line.
fn split_level(line: &str) -> Option<(usize, &str)>
    ensures { option_map (λ found. (found.0, found.1.now)) result ≡ split_level line.now }
{
    let spaces = spaces(line.as_bytes());
    let (_, text) = line.split_at(spaces);
    if spaces % 2 == 0 {
        Some((spaces / 2, text))
    } else {
        None
    }
}

/// Returns the number of spaces at the start.
fn spaces(line: &[u8]) -> usize
    ensures value { result ≡ spaces line.now }
    ensures fits { result ≤ length line.now }
{
    line.iter().take_while(|byte| **byte == b' ').count()
}

/// Reads a quoted text from after its opening quote. Nothing may follow the closing quote.
fn read_text(alloc: Global, text: &str) -> Result<Text, LineError>
    ensures { MatchResult result
        (λ value. quoted text.now ≡ Some (value, []))
        (λ e. (e ≡ LineError.Memory) ⊎ ((e ≡ LineError.Fault Fault.BadOutline) × ((value : List ℕ) → quoted text.now ≢ Some (value, [])))) }
{
    let (value, rest) = read_quoted(alloc, text)?;
    if !rest.is_empty() {
        return Err(Fault::BadOutline.into());
    }
    Ok(Text::from_string(value))
}

/// Reads an element's own line: its name, its namespace, if it has one, and its attributes.
fn read_element(alloc: Global, text: &str) -> Result<Element, LineError>
    ensures { IfErr result IsOutlineError }
{
    let (name, rest) = split_word(text);
    let mut tag = read_name(alloc, name)?;
    let (namespace, mut rest) = split_namespace(rest).ok_or(Fault::BadOutline)?;
    tag.namespace = Text::copied(alloc, namespace)?;
    while !rest.is_empty() {
        rest = read_attribute(alloc, &mut tag, rest)?;
    }
    Ok(Element::from_tag(alloc, tag)?)
}

/// Splits a text before its first space.
fn split_word(text: &str) -> (&str, &str)
    ensures word { result.0.now ≡ before_first is_space text.now }
    ensures rest { result.1.now ≡ drop (position_or_len is_space text.now) text.now }
{
    text.split_at(word_len(text.as_bytes()))
}

/// Returns the number of bytes before the first space.
fn word_len(text: &[u8]) -> usize
    ensures value { result ≡ position_or_len is_space text.now }
    ensures fits { result ≤ length text.now }
{
    text.iter().take_while(|byte| **byte != b' ').count()
}

/// Returns a tag with this name, `prefix:name` or `name`, and nothing else.
fn read_name(alloc: Global, text: &str) -> Result<StartTag, LineError>
    ensures { MatchResult result
        (λ tag. (tag ≡ (prefixed_element text.now).tag) × IsTrue (is_qualified_name text.now))
        (λ e. (e ≡ LineError.Memory) ⊎ ((e ≡ LineError.Fault Fault.BadOutline) × IsFalse (is_qualified_name text.now))) }
{
    if !is_qualified_name(text) {
        return Err(Fault::BadOutline.into());
    }
    Ok(StartTag::prefixed(alloc, text)?)
}

/// Returns whether a text is a name, or two names separated by its first `:`.
fn is_qualified_name(text: &str) -> bool
    ensures { result ≡ is_qualified_name text.now }
{
    match text.split_once(':') {
        Some((prefix, name)) => is_name(prefix) && is_name(name),
        None => is_name(text),
    }
}

/// Returns whether a text is a valid name: it is not empty, and each of its bytes is allowed in a name.
pub fn is_name(text: &str) -> bool
    ensures { result ≡ is_name text.now }
{
    !text.is_empty() && has_name_bytes_alone(text.as_bytes())
}

/// Returns whether each byte is allowed in a name.
fn has_name_bytes_alone(text: &[u8]) -> bool
    ensures { result ≡ list_all is_name_byte text.now }
{
    text.iter().all(|byte| is_name_byte(*byte))
}

/// Returns whether a byte is allowed in a name: all except 0x00 to 0x20 (the space and the control characters
/// before it) and the bytes that end names or begin values.
fn is_name_byte(byte: u8) -> bool
    ensures { result ≡ is_name_byte byte }
{
    !matches!(byte, 0..=b' ' | b'"' | b'=' | b'\\' | b'{' | b'}')
}

/// Returns the namespace of ` {namespace}`, up to the first `}`, if a text begins with it, and the rest of
/// the text. Fails if the `}` is missing.
fn split_namespace(text: &str) -> Option<(Option<&str>, &str)>
    ensures { option_map (λ found. (option_map (λ namespace. namespace.now) found.0, found.1.now)) result ≡ split_namespace text.now }
{
    let Some(text) = text.strip_prefix(" {") else {
        return Some((None, text));
    };
    let (namespace, rest) = cut_at_brace(text)?;
    Some((Some(namespace), rest))
}

/// Splits a text at its first `}`.
fn cut_at_brace(text: &str) -> Option<(&str, &str)>
    ensures { option_map (λ parts. (parts.0.now, parts.1.now)) result ≡ cut_at 125 text.now }
{
    text.split_once('}')
}

/// Reads an attribute ` key="value"` into its tag, and returns the rest of the text. The tag must not have an
/// attribute with this key yet.
fn read_attribute<'a>(
    alloc: Global,
    tag: &mut StartTag,
    text: &'a str,
) -> Result<&'a str, LineError>
    ensures shorter { IfOk result (λ rest. length rest.now < length text.now) }
    ensures err { IfErr result IsOutlineError }
{
    let text = text.strip_prefix(' ').ok_or(Fault::BadOutline)?;
    let (key, text) = text.split_once("=\"").ok_or(Fault::BadOutline)?;
    if !is_name(key) {
        return Err(Fault::BadOutline.into());
    }
    let (value, rest) = read_quoted(alloc, text)?;
    let key = String::from_str(alloc, key)?;
    if tag.attributes.insert(key, value)?.is_some() {
        return Err(Fault::BadOutline.into());
    }
    Ok(rest)
}

/// Reads a quoted text from after its opening quote, and returns it and what follows the closing quote.
fn read_quoted(alloc: Global, text: &str) -> Result<(String, &str), LineError>
    ensures found { MatchResult result
        (λ found. quoted text.now ≡ Some (string_bytes found.0, found.1.now))
        (λ e. (e ≡ LineError.Memory) ⊎ ((e ≡ LineError.Fault Fault.BadOutline) × (quoted text.now ≡ None))) }
    ensures shorter { IfOk result (λ found. length found.1.now < length text.now) }
{
    let mut value = String::new(alloc);
    let mut letters = text.chars();
    while let Some(letter) = letters.next() {
        match letter {
            '"' => return Ok((value, letters.as_str())),
            '\\' => value.push(escaped_letter(letters.next()).ok_or(Fault::BadOutline)?)?,
            _ => value.push(letter)?,
        }
    }
    Err(Fault::BadOutline.into())
}

/// Returns the character that a `\` and this character stand for.
fn escaped_letter(letter: Option<char>) -> Option<char>
    ensures { result ≡ option_and_then escaped_letter letter }
{
    match letter? {
        'n' => Some('\n'),
        '"' => Some('"'),
        '\\' => Some('\\'),
        _ => None,
    }
}
