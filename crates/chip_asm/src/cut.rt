//! Splitting bytes into lines.
ghost use Rattle.std.specs.Prelude.{◌≡◌, ◌+◌, ◌<◌, ◌≤◌, ◌==◌, ◌++◌, ◌∷◌, [], ◌⊎◌, IfOk, IfErr, OnOk, length, None, Some, map};
ghost use Rattle.std.specs.List.{position_or_len, after_first};
ghost use Rattle.std.specs.Str.Lines.{strip_carriage_return};
ghost use Rattle.chip_lang.specs.Line.{reading_of};
ghost use Rattle.chip_lang.specs.Meter.{one_more};
ghost use Rattle.chip_asm.specs.Lines.{lines_of, open_fault, is_newline, first_text};
ghost use Rattle.std.specs.Io.{StartsWith};
ghost use Rattle.chip_asm.specs.inner.HeldText.{IsBack, SaysNothing, part_from};
ghost use Rattle.chip_asm.specs.inner.Infos.{AreInfos};
ghost use Rattle.chip_asm.specs.inner.Records.{readings_in, texts_in};
ghost use Rattle.chip_asm.specs.declared.refusal.OpenError.{OpenError};

use crate::kept_line::{BoxedLine, read_part};
use crate::limits::{LINE_BYTES, MOST_LINES};
use crate::line_text::SharedSource;
use crate::refusal::OpenError;
use chip_lang::Meter;
use chip_symbols::Table;
use memchr::memchr;
use std::alloc::{AllocError, Global};
use std::rc::Rc;

/// The number of bytes before the first newline, or of all bytes if there is no newline.
fn line_length(bytes: &[u8]) -> usize
    ensures length { result ≡ position_or_len is_newline bytes.now }
    ensures bound { result ≤ length bytes.now }
{
    match memchr(b'\n', bytes) {
        Some(index) => index,
        None => bytes.len(),
    }
}

/// A text without the carriage return at its end, if it has one.
fn without_return(text: &[u8]) -> &[u8]
    ensures value { result.now ≡ strip_carriage_return text.now }
    ensures front { StartsWith text.now result.now }
    ensures within { length result.now ≤ length text.now }
{
    match text {
        [front @ .., b'\r'] => front,
        _ => text,
    }
}

/// The text of the first line of some bytes, and the bytes after that line.
fn first_line(bytes: &[u8]) -> (&[u8], &[u8])
    ensures text { result.0.now ≡ first_text bytes.now }
    ensures front { StartsWith bytes.now result.0.now }
    ensures within { length result.0.now ≤ length bytes.now }
    ensures rest { result.1.now ≡ after_first is_newline bytes.now }
    ensures back { IsBack result.1.now bytes.now }
{
    let end = line_length(bytes);
    if end < bytes.len() {
        (without_return(&bytes[..end]), &bytes[end + 1..])
    } else {
        (bytes, &[])
    }
}

/// Reads a text, which begins at index `start` of a shared source, and appends it as a line. Fails
/// only if memory runs out.
fn push_line(
    alloc: Global,
    meter: &mut Meter,
    table: &mut Table,
    lines: &mut Vec<BoxedLine>,
    source: &Rc<SharedSource>,
    start: usize,
    text: &[u8],
) -> Result<(), AllocError>
    requires nothing { SaysNothing source.now.value.nothing }
    requires within { start + length text.now ≤ length source.now.value.bytes }
    requires part { text.now ≡ part_from source.now.value.bytes start (length text.now) }
    ensures texts { OnOk result (texts_in lines.new.items
        ≡ texts_in lines.old.items ++ text.now ∷ []) }
    ensures readings { OnOk result (readings_in lines.new.items
        ≡ readings_in lines.old.items ++ reading_of text.now ∷ []) }
    ensures count { OnOk result (length lines.new.items ≡ length lines.old.items + 1) }
    ensures infos { AreInfos table.old.keys lines.old.items
        → OnOk result (AreInfos table.new.keys lines.new.items) }
    ensures counted { meter.new ≡ record meter.old { parsed = one_more meter.old.parsed } }
    ensures symbols { table.new.symbols ≡ table.old.symbols }
{
    let kept = read_part(alloc, meter, table, source, start, text)?;
    lines.push(kept)?;
    Ok(())
}

/// Reads the lines of a source in order. Fails at the first line that is too long or exceeds the
/// greatest number of lines, or if memory runs out.
pub(crate) fn read_lines(
    alloc: Global,
    meter: &mut Meter,
    table: &mut Table,
    source: Vec<u8>,
) -> Result<Vec<BoxedLine>, OpenError>
    requires { meter.old ≡ record { parsed = 0; encoded = 0 } }
    ensures ok { IfOk result (λ lines. (open_fault source.items ≡ None)
        × (texts_in lines.items ≡ lines_of source.items)) }
    ensures read { IfOk result (λ lines. readings_in lines.items
        ≡ map reading_of (texts_in lines.items)) }
    ensures infos { IfOk result (λ lines. AreInfos table.new.keys lines.items) }
    ensures symbols { table.new.symbols ≡ table.old.symbols }
    ensures few { IfOk result (λ lines. length lines.items ≤ MOST_LINES) }
    ensures parsed { IfOk result (λ lines. meter.new.parsed ≡ length lines.items) }
    ensures encoded { meter.new.encoded ≡ 0 }
    ensures err { IfErr result (λ e. (e ≡ OpenError.OutOfMemory)
        ⊎ (open_fault source.items ≡ Some e)) }
{
    let shared = SharedSource::new(alloc, source)?;
    let source = shared.bytes.get();
    let most = source.len().min(MOST_LINES);
    let mut lines: Vec<BoxedLine> = Vec::with_capacity(alloc, most + 1)?;
    let mut rest = source;
    while !rest.is_empty() {
        let (text, after) = first_line(rest);
        if lines.len() == MOST_LINES {
            return Err(OpenError::TooManyLines);
        }
        if text.len() > LINE_BYTES {
            return Err(OpenError::LineTooLong(lines.len() + 1));
        }
        let start = source.len() - rest.len();
        push_line(alloc, meter, table, &mut lines, &shared, start, text)?;
        rest = after;
    }
    Ok(lines)
}
