//! Decimal numbers.
ghost use Rattle.std.specs.Prelude.{◌≡◌};
ghost use Rattle.std.specs.List.{list_all};
ghost use Rattle.std.specs.Char.{is_ascii_digit};
ghost use Rattle.dav_headers.specs.Number.{number_in};

/// Parses one or more decimal digits, without a sign, as in Content-Length (RFC 7230, section 3.3.2). Leading
/// zeros are allowed. Returns `None` for any other string, or if the number does not fit in 64 bits.
pub fn read_number(text: &str) -> Option<u64>
    ensures { result ≡ number_in text.now }
{
    if !has_digits_alone(text.as_bytes()) {
        return None;
    }
    text.parse().ok()
}

/// Whether all bytes are decimal digits.
fn has_digits_alone(text: &[u8]) -> bool
    ensures { result ≡ list_all is_ascii_digit text.now }
{
    text.iter().all(|byte| byte.is_ascii_digit())
}
