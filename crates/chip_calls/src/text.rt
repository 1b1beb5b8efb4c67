//! The parts of commands.

use crate::output::Refused;
use std::alloc::Global;

/// Returns the text before the first blank, and the text after it.
pub(crate) fn split_word(text: &str) -> (&str, &str) {
    text.split_once(" ").unwrap_or((text, ""))
}

/// Returns the bytes that the line of a command means: the built text for `@text`, and otherwise the
/// bytes of the line.
pub(crate) fn line_bytes<'a>(built: &'a [u8], line: &'a str) -> &'a [u8] {
    if line == "@text" {
        built
    } else {
        line.as_bytes()
    }
}

/// Returns the 32-bit number that a text states in decimal, and fails if the text isn't such a number.
pub(crate) fn number(text: &str) -> Result<u32, Refused> {
    match text.parse::<u32>() {
        Ok(number) => Ok(number),
        Err(_) => Err(Refused::BadCommand),
    }
}

/// Returns the 16-bit number that a text states in hexadecimal, and fails if the text isn't such a number.
pub(crate) fn hex_number(text: &str) -> Result<u16, Refused> {
    match u16::from_str_radix(text, 16) {
        Ok(number) => Ok(number),
        Err(_) => Err(Refused::BadCommand),
    }
}

/// Returns the bytes of a text in hexadecimal, which may contain blanks. Fails if the text contains
/// other characters, or an odd number of digits.
pub(crate) fn bytes_of_hex(alloc: Global, text: &str) -> Result<Vec<u8>, Refused> {
    let digits = text.replace(alloc, " ", "")?;
    match hex::decode(alloc, digits.as_str()) {
        Ok(bytes) => Ok(bytes),
        Err(_) => Err(Refused::BadCommand),
    }
}
