//! Names as text.

use jvm_model::Bytes;
use std::alloc::AllocError;
use std::str;

/// Adds bytes as text, or their digits where they are none.
pub fn tell_bytes(text: &mut String, bytes: &[u8]) -> Result<(), AllocError> {
    match str::from_utf8(bytes) {
        Ok(shown) => text.push_str(shown),
        Err(_) => tell_digits(text, bytes),
    }
}

/// Adds bytes by their digits.
fn tell_digits(text: &mut String, bytes: &[u8]) -> Result<(), AllocError> {
    for byte in bytes {
        write!(text, "{byte:02x}")?;
    }
    Ok(())
}

/// Adds names after a word, if there are names.
pub fn tell_names(text: &mut String, word: &str, names: &[Bytes]) -> Result<(), AllocError> {
    if !names.is_empty() {
        text.push_str(word)?;
    }
    for name in names {
        text.push(' ')?;
        tell_bytes(text, name.as_slice())?;
    }
    Ok(())
}
