//! Lock tokens.
ghost use Rattle.std.specs.Prelude.{◌≡◌, IfOk, string_bytes};
ghost use Rattle.std.specs.Char.{is_ascii_graphic};
ghost use Rattle.std.specs.List.{list_all};
ghost use Rattle.http_header.specs.FieldValue.{IsFieldValue};
ghost use Rattle.dav_resource.specs.LockToken.{lock_token, coded};

use std::alloc::{AllocError, Global};
use std::marker::Model;

/// The token of a lock (RFC 4918, section 6.5): one or more bytes 0x21 to 0x7E, so that a header field can
/// carry it. In contracts its value is the list of its bytes.
#[derive(Drop, Debug)]
pub struct LockToken {
    text: String,
}

impl Model for LockToken {
    ghost use Rattle.std.specs.Prelude.{◌≡◌, true, List, ℕ, string_bytes};

    ghost Value = { List ℕ };

    ghost view = { λ t. string_bytes t.text };

    ghost use Rattle.dav_resource.specs.LockToken.{is_lock_token};

    ghost invariant = { λ t. is_lock_token (string_bytes t.text) ≡ true };
}

impl LockToken {
    /// Converts a string into a lock token. Returns `None` if the string is empty or has a byte outside 0x21
    /// to 0x7E.
    pub fn from_string(text: String) -> Option<LockToken>
        ensures { result ≡ lock_token (string_bytes text) }
    {
        if text.is_empty() || !has_graphic_alone(text.as_bytes()) {
            return None;
        }
        Some(LockToken { text })
    }

    /// The token as a string.
    pub fn as_str(&self) -> &str
        ensures { result.now ≡ self.now }
    {
        self.text.as_str()
    }

    /// Returns the token in angle brackets, as header fields carry it (RFC 4918, section 10.1). Fails only if
    /// memory runs out.
    pub fn coded(&self) -> Result<String, AllocError>
        ensures value { IfOk result (λ text. string_bytes text ≡ coded self.now) }
        ensures field_value { IfOk result (λ text. IsFieldValue (string_bytes text)) }
    {
        in_brackets(*self.text.allocator(), self.text.as_str())
    }
}

/// Whether all bytes are visible ASCII, 0x21 to 0x7E.
fn has_graphic_alone(text: &[u8]) -> bool
    ensures { result ≡ list_all is_ascii_graphic text.now }
{
    text.iter().all(|byte| byte.is_ascii_graphic())
}

/// Puts the string in angle brackets.
fn in_brackets(alloc: Global, text: &str) -> Result<String, AllocError>
    ensures { IfOk result (λ whole. string_bytes whole ≡ coded text.now) }
{
    format!(in alloc; "<{text}>")
}
