//! The tokens of the header If.
ghost use Rattle.std.specs.Prelude.{◌≡◌, ◌≤◌, IfOk, drop, length, take_while, option_map};
ghost use Rattle.std.specs.List.{prefix_len};
ghost use Rattle.dav_headers.specs.IfToken.{is_word_byte, first_angle, first_bracket, first_word, token_at, first_token, tokens_of};

use crate::tag::first_tag;
use crate::text::{after_first, cut_at, drop_blanks, is_blank, text_of};
use crate::values::is_word;
use dav_resource::{ETag, Text};
use std::alloc::{AllocError, Global};
use std::collections::VecDeque;

/// A token of the header.
#[derive(Drop, Debug)]
pub(crate) enum IfToken {
    /// `(`
    Open,
    /// `)`
    Close,
    /// `Not`, in any ASCII case.
    Not,
    /// `<text>`, without the brackets.
    Angle(Text),
    /// `[tag]`, without the brackets.
    Bracket(ETag),
    /// Any other run of bytes without blanks and brackets.
    Word(Text),
}

/// The first token and what follows it, or `None` if there is no token. Fails only if memory runs out.
type FirstToken<'a> = Result<Option<(IfToken, &'a str)>, AllocError>;

/// Whether the byte may occur in a word.
fn is_word_byte(byte: u8) -> bool
    ensures { result ≡ is_word_byte byte }
{
    !(is_blank(byte) || matches!(byte, b'(' | b')' | b'<' | b'>' | b'[' | b']'))
}

/// The length of the longest run of word bytes at the front.
fn word_len(bytes: &[u8]) -> usize
    ensures value { result ≡ prefix_len is_word_byte bytes.now }
    ensures fits { result ≤ length bytes.now }
{
    bytes.iter().take_while(|b| is_word_byte(**b)).count()
}

/// The longest run of word bytes at the front, and what follows it.
fn split_word(text: &str) -> (&str, &str)
    ensures word { result.0.now ≡ take_while is_word_byte text.now }
    ensures len { length result.0.now ≡ prefix_len is_word_byte text.now }
    ensures rest { result.1.now ≡ drop (prefix_len is_word_byte text.now) text.now }
{
    text.split_at(word_len(text.as_bytes()))
}

/// After a `<`: the string before the first `>`, and what follows it.
fn first_angle(alloc: Global, text: &str) -> FirstToken<'_>
    ensures { IfOk result (λ found. option_map (λ f. (f.0, f.1.now)) found ≡ first_angle text.now) }
{
    let Some((text, rest)) = cut_at(text, '>') else {
        return Ok(None);
    };
    Ok(Some((IfToken::Angle(text_of(alloc, text)?), rest)))
}

/// After a `[`: an entity tag and `]`, and what follows it.
fn first_bracket(alloc: Global, text: &str) -> FirstToken<'_>
    ensures { IfOk result (λ found. option_map (λ f. (f.0, f.1.now)) found ≡ first_bracket text.now) }
{
    let Some((tag, rest)) = first_tag(text) else {
        return Ok(None);
    };
    if !rest.starts_with(']') {
        return Ok(None);
    }
    Ok(Some((IfToken::Bracket(tag.to_tag(alloc)?), after_first(rest))))
}

/// The word or `Not` that the string begins with, and what follows it.
fn first_word(alloc: Global, text: &str) -> FirstToken<'_>
    ensures { IfOk result (λ found. option_map (λ f. (f.0, f.1.now)) found ≡ first_word text.now) }
{
    let (word, rest) = split_word(text);
    if word.is_empty() {
        return Ok(None);
    }
    if is_word(word, "not") {
        return Ok(Some((IfToken::Not, rest)));
    }
    Ok(Some((IfToken::Word(text_of(alloc, word)?), rest)))
}

/// The token that the string begins with, and what follows it.
fn token_at(alloc: Global, text: &str) -> FirstToken<'_>
    ensures { IfOk result (λ found. option_map (λ f. (f.0, f.1.now)) found ≡ token_at text.now) }
{
    match text.as_bytes() {
        [b'(', ..] => Ok(Some((IfToken::Open, after_first(text)))),
        [b')', ..] => Ok(Some((IfToken::Close, after_first(text)))),
        [b'<', ..] => first_angle(alloc, after_first(text)),
        [b'[', ..] => first_bracket(alloc, after_first(text)),
        _ => first_word(alloc, text),
    }
}

/// The token that the string begins with, and what follows it without the blanks at its front.
fn first_token(alloc: Global, text: &str) -> FirstToken<'_>
    ensures { IfOk result (λ found. option_map (λ f. (f.0, f.1.now)) found ≡ first_token text.now) }
{
    match token_at(alloc, text)? {
        Some((token, rest)) => Ok(Some((token, drop_blanks(rest)))),
        None => Ok(None),
    }
}

/// Splits a string into tokens. Returns `None` if it has anything else than tokens and blanks. Fails only if
/// memory runs out.
pub(crate) fn tokens_of(alloc: Global, text: &str) -> Result<Option<VecDeque<IfToken>>, AllocError>
    ensures { IfOk result (λ found. option_map (λ tokens. tokens.items) found ≡ tokens_of text.now) }
{
    let mut tokens = VecDeque::new(alloc);
    let mut rest = drop_blanks(text);
    while !rest.is_empty() {
        let Some((token, after)) = first_token(alloc, rest)? else {
            return Ok(None);
        };
        tokens.push_back(token)?;
        rest = after;
    }
    Ok(Some(tokens))
}
