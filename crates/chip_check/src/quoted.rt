//! Quotes the line of a finding and escapes bytes that a terminal may misread.

ghost use Rattle.std.specs.Prelude.{◌≡◌, ◌≤◌, ◌++◌, IfOk, OnOk, length, map};
ghost use Rattle.std.specs.List.{flat_map};
ghost use Rattle.std.specs.Str.Lossy.{utf8_valid_len};
ghost use Rattle.chip_check.specs.Quoted.{byte_text, is_control, shown_byte, shown_bytes};

use crate::json::hex_digit;
use std::alloc::{AllocError, Global};
use std::str;

/// A byte of a line, as it is displayed.
#[derive(Clone, Copy)]
pub(crate) enum ShownByte {
    /// The byte itself.
    Plain(u8),
    /// An escape: `\x` and two hexadecimal digits.
    Escaped(u8),
}

/// Adds bytes in the way `check` quotes a line. Control bytes except the tab, and bytes that are
/// not part of UTF-8, appear as `\x` and two hexadecimal digits.
///
/// # Errors
///
/// Out of memory.
pub fn push_as_shown(alloc: Global, text: &mut Vec<u8>, bytes: &[u8]) -> Result<(), AllocError>
    ensures { OnOk result (text.new.items
        ≡ text.old.items ++ flat_map byte_text (shown_bytes bytes.now)) }
{
    let shown = shown_bytes(alloc, bytes)?;
    push_shown(text, &shown)
}

/// The bytes of a line as they are displayed. Control bytes except the tab, and bytes that are not
/// part of UTF-8, are escaped.
pub(crate) fn shown_bytes(alloc: Global, line: &[u8]) -> Result<Vec<ShownByte>, AllocError>
    ensures bytes { IfOk result (λ shown. shown.items ≡ shown_bytes line.now) }
    ensures length { IfOk result (λ shown. length shown.items ≡ length line.now) }
{
    let mut shown = Vec::with_capacity(alloc, line.len())?;
    let mut rest = line;
    while !rest.is_empty() {
        let text = text_length(rest);
        let (run, more) = rest.split_at(text.max(1));
        push_run(&mut shown, text > 0, run)?;
        rest = more;
    }
    Ok(shown)
}

/// The length of the longest prefix of the bytes that is valid UTF-8.
fn text_length(bytes: &[u8]) -> usize
    ensures value { result ≡ utf8_valid_len bytes.now }
    ensures bound { result ≤ length bytes.now }
{
    match str::from_utf8(bytes) {
        Ok(_) => bytes.len(),
        Err(error) => error.valid_up_to(),
    }
}

fn push_run(shown: &mut Vec<ShownByte>, is_text: bool, run: &[u8]) -> Result<(), AllocError>
    ensures { OnOk result (shown.new.items
        ≡ shown.old.items ++ map (shown_byte is_text) run.now) }
{
    for byte in run {
        shown.push(shown_byte(is_text, *byte))?;
    }
    Ok(())
}

fn shown_byte(is_text: bool, byte: u8) -> ShownByte
    ensures { result ≡ shown_byte is_text byte }
{
    if is_text && !is_control(byte) {
        ShownByte::Plain(byte)
    } else {
        ShownByte::Escaped(byte)
    }
}

/// Whether a byte is a control byte other than the tab.
fn is_control(byte: u8) -> bool
    ensures { result ≡ is_control byte }
{
    byte < 32 && byte != b'\t' || byte == 127
}

/// Adds a line as it is displayed.
pub(crate) fn push_shown(text: &mut Vec<u8>, shown: &[ShownByte]) -> Result<(), AllocError>
    ensures { OnOk result (text.new.items ≡ text.old.items ++ flat_map byte_text shown.now) }
{
    for byte in shown {
        push_byte(text, *byte)?;
    }
    Ok(())
}

fn push_byte(text: &mut Vec<u8>, shown: ShownByte) -> Result<(), AllocError>
    ensures { OnOk result (text.new.items ≡ text.old.items ++ byte_text shown) }
{
    match shown {
        ShownByte::Plain(byte) => text.extend_from_slice(&[byte]),
        ShownByte::Escaped(byte) => {
            let (high, low) = (hex_digit(byte / 16 % 16), hex_digit(byte % 16));
            text.extend_from_slice(&[b'\\', b'x', high, low])
        }
    }
}
