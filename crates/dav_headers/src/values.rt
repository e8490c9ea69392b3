//! Values of headers as strings.
ghost use Rattle.std.specs.Prelude.{◌≡◌, option_copied};
ghost use Rattle.http_header.specs.Token.{lowercase};
ghost use Rattle.http_header.specs.HeaderMap.{get};
ghost use Rattle.dav_headers.specs.Values.{readable_text, first_text, is_word};

use crate::text::trim_blanks;
use http_header::{HeaderMap, HeaderValue};

/// The greatest number of names that are compared one by one. More are looked up by their hash.
const FEW_NAMES: usize = 16;

/// The first value of a header, by its name in lower case.
pub(crate) fn first_value<'a>(
    headers: &'a HeaderMap<HeaderValue>,
    name: &'static str,
) -> Option<&'a HeaderValue>
    requires { lowercase name.now ≡ name.now }
    ensures { option_copied result ≡ get headers.now name.now }
{
    if headers.keys_len() > FEW_NAMES {
        return headers.get(name);
    }
    for (own, value) in headers.iter() {
        if own.as_str() == name {
            return Some(value);
        }
    }
    None
}

/// The first value of a header, by its name in lower case, if it is readable, without the blanks at its ends.
pub(crate) fn first_text<'a>(
    headers: &'a HeaderMap<HeaderValue>,
    name: &'static str,
) -> Option<&'a str>
    requires { lowercase name.now ≡ name.now }
    ensures { option_copied result ≡ first_text headers.now name.now }
{
    readable_text(first_value(headers, name)?)
}

/// The value without the blanks at its ends, if it is readable: only tabs and bytes 0x20 to 0x7E.
pub(crate) fn readable_text(value: &HeaderValue) -> Option<&str>
    ensures { option_copied result ≡ readable_text value.now.bytes }
{
    match value.to_str() {
        Ok(text) => Some(trim_blanks(text)),
        Err(_) => None,
    }
}

/// Whether the string is this word, in any ASCII case.
pub(crate) fn is_word(text: &str, word: &str) -> bool
    ensures { result ≡ is_word text.now word.now }
{
    text.eq_ignore_ascii_case(word)
}
