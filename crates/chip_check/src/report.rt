//! Prints a finding as compilers do: place, sentence, line, marks, and lines of help, with or
//! without colours.

ghost use Rattle.std.specs.Prelude.{◌≡◌, ◌≤◌, ◌+◌, ◌-◌, ◌++◌, OnOk, length};
ghost use Rattle.std.specs.List.{flat_map, position_or_len};
ghost use Rattle.chip_asm.specs.Lines.{is_newline};
ghost use Rattle.chip_check.specs.Check.{head, blank_of, tildes_of, marks, mark_text, beginning, hint_line, report, painted, opening, closing, code_style, hint_style};
ghost use Rattle.chip_check.specs.Quoted.{shown_bytes};

use crate::finding::Finding;
use crate::hint::{Hint, HintKind};
use crate::parts::push_all;
use crate::quoted::{ShownByte, push_shown, shown_bytes};
use chip_lang::Span;
use memchr::memchr;
use std::alloc::{AllocError, Global};

/// The style of marks: bold and blue.
const MARK_STYLE: &[u8] = b"1;34";

/// Adds the report of a finding in the line with this text and number.
#[tactic(auto, unfolding(crate::specs::Check::report))]
pub(crate) fn push_report(
    alloc: Global,
    text: &mut Vec<u8>,
    is_painted: bool,
    name: &[u8],
    number: usize,
    line: &[u8],
    finding: &Finding,
) -> Result<(), AllocError>
    requires rises { finding.now.span.start ≤ finding.now.span.end }
    requires inside { finding.now.span.end ≤ length line.now }
    ensures { OnOk result (text.new.items ≡ text.old.items
        ++ report is_painted name.now number line.now finding.now.span finding.now.code.items
        finding.now.sentence.items finding.now.hints.items) }
{
    let shown = shown_bytes(alloc, line)?;
    push_head(alloc, text, is_painted, name, number, finding)?;
    push_shown(text, &shown)?;
    text.extend_from_slice(b"\n")?;
    push_marks(text, is_painted, &shown, finding.span)?;
    push_hints(text, is_painted, &finding.hints)
}

/// Adds the report of a finding in the line with this number, without the line itself and the marks below it.
pub(crate) fn push_unquoted(
    alloc: Global,
    text: &mut Vec<u8>,
    is_painted: bool,
    name: &[u8],
    number: usize,
    finding: &Finding,
) -> Result<(), AllocError>
    requires { finding.now.span.start + 1 ≤ usize.MAX }
    ensures { OnOk result (text.new.items ≡ text.old.items
        ++ (head is_painted name.now number finding.now.span finding.now.code.items
        finding.now.sentence.items ++ flat_map (hint_line is_painted) finding.now.hints.items)) }
{
    push_head(alloc, text, is_painted, name, number, finding)?;
    push_hints(text, is_painted, &finding.hints)
}

/// Adds the file, the place, the code and the sentence of a finding.
#[tactic(auto, unfolding(crate::specs::Check::head))]
fn push_head(
    alloc: Global,
    text: &mut Vec<u8>,
    is_painted: bool,
    name: &[u8],
    number: usize,
    finding: &Finding,
) -> Result<(), AllocError>
    requires { finding.now.span.start + 1 ≤ usize.MAX }
    ensures { OnOk result (text.new.items ≡ text.old.items
        ++ head is_painted name.now number finding.now.span finding.now.code.items
        finding.now.sentence.items) }
{
    let column = finding.span.start + 1;
    let place = format!(in alloc; ":{number}:{column}: ")?;
    push_all(text, &[name, place.as_bytes()])?;
    push_painted(text, is_painted, code_style(&finding.code), &finding.code)?;
    push_all(text, &[b": ", &finding.sentence, b"\n"])
}

/// Adds the marks below a line.
#[tactic(auto, unfolding(crate::specs::Check::marks))]
fn push_marks(
    text: &mut Vec<u8>,
    is_painted: bool,
    shown: &[ShownByte],
    span: Span,
) -> Result<(), AllocError>
    requires rises { span.start ≤ span.end }
    requires inside { span.end ≤ length shown.now }
    ensures { OnOk result (text.new.items ≡ text.old.items ++ marks is_painted shown.now span) }
{
    push_blanks(text, &shown[..span.start])?;
    push_opening(text, is_painted, MARK_STYLE)?;
    push_mark(text, &shown[span.start..span.end])?;
    push_closing(text, is_painted)?;
    text.extend_from_slice(b"\n")
}

/// Adds the blanks below the bytes before the mark.
fn push_blanks(text: &mut Vec<u8>, shown: &[ShownByte]) -> Result<(), AllocError>
    ensures { OnOk result (text.new.items ≡ text.old.items ++ flat_map blank_of shown.now) }
{
    for byte in shown {
        text.extend_from_slice(blank_of(*byte))?;
    }
    Ok(())
}

/// The blanks below a byte before the place: a tab below a tab, none below a continuation byte of
/// UTF-8, four below an escape, and otherwise one.
fn blank_of(shown: ShownByte) -> &'static [u8]
    ensures { result.now ≡ blank_of shown }
{
    match shown {
        ShownByte::Plain(b'\t') => b"\t",
        ShownByte::Plain(128..=191) => b"",
        ShownByte::Plain(_) => b" ",
        ShownByte::Escaped(_) => b"    ",
    }
}

/// Adds the mark below the bytes at the place.
fn push_mark(text: &mut Vec<u8>, shown: &[ShownByte]) -> Result<(), AllocError>
    ensures { OnOk result (text.new.items ≡ text.old.items ++ mark_text shown.now) }
{
    text.extend_from_slice(b"^")?;
    let Some((first, others)) = shown.split_first() else {
        return Ok(());
    };
    text.extend_from_slice(&tildes_of(*first)[1..])?;
    push_tildes(text, others)
}

/// Adds the tildes below the bytes at the place.
fn push_tildes(text: &mut Vec<u8>, shown: &[ShownByte]) -> Result<(), AllocError>
    ensures { OnOk result (text.new.items ≡ text.old.items ++ flat_map tildes_of shown.now) }
{
    for byte in shown {
        text.extend_from_slice(tildes_of(*byte))?;
    }
    Ok(())
}

/// The tildes below a byte at the place: four below an escape, and one below any other byte.
fn tildes_of(shown: ShownByte) -> &'static [u8]
    ensures { result.now ≡ tildes_of shown }
{
    match shown {
        ShownByte::Plain(_) => b"~",
        ShownByte::Escaped(_) => b"~~~~",
    }
}

/// Adds lines of help.
fn push_hints(text: &mut Vec<u8>, is_painted: bool, hints: &[Hint]) -> Result<(), AllocError>
    ensures { OnOk result (text.new.items ≡ text.old.items
        ++ flat_map (hint_line is_painted) hints.now) }
{
    for hint in hints {
        push_hint(text, is_painted, hint)?;
    }
    Ok(())
}

/// Adds a line of help, which contains its sentence up to the first newline.
fn push_hint(text: &mut Vec<u8>, is_painted: bool, hint: &Hint) -> Result<(), AllocError>
    ensures { OnOk result (text.new.items ≡ text.old.items ++ hint_line is_painted hint.now) }
{
    push_painted(
        text,
        is_painted,
        hint_style(hint.kind),
        beginning(hint.kind),
    )?;
    let sentence = &hint.sentence[..line_length(&hint.sentence)];
    push_all(text, &[b" ", sentence, b"\n"])
}

/// The number of bytes before the first newline, or the number of all bytes if there is no newline.
fn line_length(bytes: &[u8]) -> usize
    ensures length { result ≡ position_or_len is_newline bytes.now }
    ensures bound { result ≤ length bytes.now }
{
    match memchr(b'\n', bytes) {
        Some(index) => index,
        None => bytes.len(),
    }
}

/// The word that a line of help begins with: `help:` or `note:`.
fn beginning(kind: HintKind) -> &'static [u8]
    ensures { result.now ≡ beginning kind }
{
    match kind {
        HintKind::Help => b"help:",
        HintKind::Note => b"note:",
    }
}

/// The style of the beginning of a line of help: bold and green for help, and bold and cyan for a note.
fn hint_style(kind: HintKind) -> &'static [u8]
    ensures { result.now ≡ hint_style kind }
{
    match kind {
        HintKind::Help => b"1;32",
        HintKind::Note => b"1;36",
    }
}

/// The style of a code: bold and yellow for a warning, and bold and red for a fault.
fn code_style(code: &[u8]) -> &'static [u8]
    ensures { result.now ≡ code_style code.now }
{
    match code {
        [b'W', ..] => b"1;33",
        _ => b"1;31",
    }
}

/// Adds a part of the text with a style.
fn push_painted(
    text: &mut Vec<u8>,
    is_painted: bool,
    style: &[u8],
    part: &[u8],
) -> Result<(), AllocError>
    ensures { OnOk result (text.new.items ≡ text.old.items
        ++ painted is_painted style.now part.now) }
{
    push_opening(text, is_painted, style)?;
    text.extend_from_slice(part)?;
    push_closing(text, is_painted)
}

/// Adds the start of a style, if the text is coloured.
fn push_opening(text: &mut Vec<u8>, is_painted: bool, style: &[u8]) -> Result<(), AllocError>
    ensures { OnOk result (text.new.items ≡ text.old.items ++ opening is_painted style.now) }
{
    if !is_painted {
        return Ok(());
    }
    push_all(text, &[b"\x1b[", style, b"m"])
}

/// Adds the end of a style, if the text is coloured.
fn push_closing(text: &mut Vec<u8>, is_painted: bool) -> Result<(), AllocError>
    ensures { OnOk result (text.new.items ≡ text.old.items ++ closing is_painted) }
{
    if !is_painted {
        return Ok(());
    }
    text.extend_from_slice(b"\x1b[0m")
}
