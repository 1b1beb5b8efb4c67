//! Prints a finding as a JSON object on a separate line.

ghost use Rattle.std.specs.Prelude.{◌≡◌, ◌≤◌, ◌+◌, ◌++◌, OnOk};
ghost use Rattle.std.specs.List.{flat_map};
ghost use Rattle.chip_lang.specs.Show.{hex_digit};
ghost use Rattle.chip_check.specs.Json.{escaped, quoted, hint_prefix, hint_string, hint_strings, object};
ghost use Rattle.chip_check.specs.inner.Printing.{object_start};

use crate::finding::Finding;
use crate::hint::{Hint, HintKind};
use crate::parts::push_all;
use std::alloc::{AllocError, Global};

/// Adds the object of a finding in the line with this number.
#[tactic(auto, unfolding(crate::specs::Json::object_with))]
pub(crate) fn push_object(
    alloc: Global,
    text: &mut Vec<u8>,
    name: &[u8],
    number: usize,
    finding: &Finding,
) -> Result<(), AllocError>
    requires start { finding.now.span.start + 1 ≤ usize.MAX }
    requires end { finding.now.span.end + 1 ≤ usize.MAX }
    ensures { OnOk result (text.new.items ≡ text.old.items
        ++ object name.now number finding.now.span finding.now.code.items
        finding.now.sentence.items finding.now.hints.items) }
{
    push_place(alloc, text, number, finding)?;
    push_quoted(alloc, text, &finding.sentence)?;
    text.extend_from_slice(b",\"help\":[")?;
    push_hint_strings(alloc, text, &finding.hints)?;
    text.extend_from_slice(b"],\"file\":")?;
    push_quoted(alloc, text, name)?;
    text.extend_from_slice(b"}\n")?;
    Ok(())
}

/// Adds the beginning of an object: its place, its code, and the key of its message.
fn push_place(
    alloc: Global,
    text: &mut Vec<u8>,
    number: usize,
    finding: &Finding,
) -> Result<(), AllocError>
    requires start { finding.now.span.start + 1 ≤ usize.MAX }
    requires end { finding.now.span.end + 1 ≤ usize.MAX }
    ensures { OnOk result (text.new.items ≡ text.old.items
        ++ object_start number finding.now.span finding.now.code.items) }
{
    let (column, end) = (finding.span.start + 1, finding.span.end + 1);
    let place = format!(in alloc;
        "{{\"line\":{number},\"column\":{column},\"end\":{end},\"code\":\""
    )?;
    push_all(text, &[place.as_bytes(), &finding.code, b"\",\"message\":"])?;
    Ok(())
}

/// Adds the lines of help as strings, separated by commas.
fn push_hint_strings(alloc: Global, text: &mut Vec<u8>, hints: &[Hint]) -> Result<(), AllocError>
    ensures { OnOk result (text.new.items ≡ text.old.items ++ hint_strings hints.now) }
{
    let Some((first, others)) = hints.split_first() else {
        return Ok(());
    };
    push_hint_string(alloc, text, first)?;
    for hint in others {
        text.extend_from_slice(b",")?;
        push_hint_string(alloc, text, hint)?;
    }
    Ok(())
}

/// Adds a line of help as a string.
fn push_hint_string(alloc: Global, text: &mut Vec<u8>, hint: &Hint) -> Result<(), AllocError>
    ensures { OnOk result (text.new.items ≡ text.old.items ++ hint_string hint.now) }
{
    let mut line = Vec::from_slice(alloc, hint_prefix(hint.kind))?;
    line.extend_from_slice(&hint.sentence)?;
    push_quoted(alloc, text, &line)
}

/// The text before the sentence of a line of help: `note: ` for a note, and nothing for help.
fn hint_prefix(kind: HintKind) -> &'static [u8]
    ensures { result.now ≡ hint_prefix kind }
{
    match kind {
        HintKind::Help => b"",
        HintKind::Note => b"note: ",
    }
}

/// Adds bytes as a string in quotes, in which U+FFFD replaces each sequence of bytes that is not UTF-8.
///
/// # Errors
///
/// Out of memory.
#[tactic(auto, unfolding(crate::specs::Json::quoted))]
pub fn push_quoted(alloc: Global, text: &mut Vec<u8>, bytes: &[u8]) -> Result<(), AllocError>
    ensures { OnOk result (text.new.items ≡ text.old.items ++ quoted bytes.now) }
{
    let content = String::from_utf8_lossy(alloc, bytes)?;
    text.extend_from_slice(b"\"")?;
    push_escaped(text, content.as_bytes())?;
    text.extend_from_slice(b"\"")?;
    Ok(())
}

/// Adds bytes as the contents of a string, with escapes.
fn push_escaped(text: &mut Vec<u8>, bytes: &[u8]) -> Result<(), AllocError>
    ensures { OnOk result (text.new.items ≡ text.old.items ++ flat_map escaped bytes.now) }
{
    for byte in bytes {
        push_escaped_byte(text, *byte)?;
    }
    Ok(())
}

fn push_escaped_byte(text: &mut Vec<u8>, byte: u8) -> Result<(), AllocError>
    ensures { OnOk result (text.new.items ≡ text.old.items ++ escaped byte) }
{
    if byte == b'"' || byte == b'\\' {
        text.extend_from_slice(&[b'\\', byte])
    } else if byte < 32 {
        let (high, low) = (hex_digit(byte / 16 % 16), hex_digit(byte % 16));
        text.extend_from_slice(&[b'\\', b'u', b'0', b'0', high, low])
    } else {
        text.extend_from_slice(&[byte])
    }
}

/// The hexadecimal digit of a number below 16, in lowercase.
pub(crate) fn hex_digit(digit: u8) -> u8
    requires { digit ≤ 15 }
    ensures { result ≡ hex_digit digit }
{
    if digit < 10 {
        b'0' + digit
    } else {
        b'a' - 10 + digit
    }
}
