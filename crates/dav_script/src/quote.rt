//! Quoted strings and bytes.
use std::alloc::AllocError;

/// Appends a quoted string. A quote, a `\` and a line feed are escaped.
pub fn push_quoted(line: &mut String, text: &str) -> Result<(), AllocError> {
    line.push('"')?;
    for letter in text.chars() {
        match letter {
            '\n' => line.push_str("\\n")?,
            '"' => line.push_str("\\\"")?,
            '\\' => line.push_str("\\\\")?,
            _ => line.push(letter)?,
        }
    }
    line.push('"')
}

/// Appends quoted bytes. A quote, a `\`, a line feed and every byte outside visible ASCII, except the space,
/// are escaped.
pub fn push_quoted_bytes(line: &mut String, bytes: &[u8]) -> Result<(), AllocError> {
    line.push('"')?;
    for byte in bytes {
        let byte = *byte;
        match byte {
            b'\n' => line.push_str("\\n")?,
            b'"' => line.push_str("\\\"")?,
            b'\\' => line.push_str("\\\\")?,
            b' '..=b'~' => line.push(char::from(byte))?,
            _ => write!(line, "\\x{byte:02x}")?,
        }
    }
    line.push('"')
}
