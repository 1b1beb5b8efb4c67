//! The faults and warnings of a source, as compilers print them and as JSON.

ghost use Rattle.std.specs.Prelude.{◌≡◌, ◌++◌, ℕ, List, IfOk, OnOk};
ghost use Rattle.chip_asm.specs.Program.{fault_at, symbols_of};
ghost use Rattle.chip_check.specs.Check.{AreReports, AreWarnings, IsChecked, IsCheckedIn, report_of, warning_text};
ghost use Rattle.chip_check.specs.Json.{IsCheckJson};
ghost use Rattle.chip_check.specs.Unopened.{unopened_object, unopened_report};
ghost use Rattle.chip_check.specs.inner.Known.{Agree, listed};
ghost use Rattle.chip_check.specs.inner.Printing.{print_in};
ghost use Rattle.chip_check.specs.declared.hint.Hint.{Hint};

use crate::finding::{Finding, unopened_line};
use crate::json::push_object;
use crate::known::Known;
use crate::printing::{Form, Style, push_finding};
use crate::report::push_unquoted;
use chip_asm::{LineView, OpenError, Source};
use chip_warnings::Warning;
use std::alloc::{AllocError, Global};

/// The text that `check` prints for a source that was read from a file of this name.
///
/// For each fault, in the order of the lines, the text has the file, the line and the column, the fault's
/// code and sentence, the line, a caret below the first byte of the fault's place and a tilde below each
/// further byte, and lines of help, which begin with `help: ` or `note: `. In the line, control bytes
/// except the tab, and bytes that are not part of UTF-8, appear as `\xNN`. Each warning follows in the
/// same format, in the given order; warnings that don't lie in the source are left out. The text is empty
/// if there are no faults and no warnings. If `is_painted` is true, the code, the marks and the
/// beginnings of the lines of help have the colours of a terminal.
///
/// # Errors
///
/// Out of memory.
pub fn check_text(
    alloc: Global,
    is_painted: bool,
    name: &[u8],
    source: &Source,
    warnings: &[Warning],
) -> Result<Vec<u8>, AllocError>
    ensures { IfOk result (λ text.
        IsChecked is_painted name.now source.now.lines warnings.now text.items) }
{
    let form = Form::Text { is_painted };
    check_in(alloc, Style { form, name }, source, warnings)
}

/// The text that `check --json` prints for a source that was read from a file of this name.
///
/// The text has one object per line: one for each fault, in the order of the lines, and then one for each
/// warning, in the given order. Warnings that don't lie in the source are left out. An object has the
/// members `line`, `column`, `end` (each from 1; `column` and `end` in bytes, and the end is one past the
/// last byte), `code`, `message`, `help` (the lines of help, where a note begins with `note: `) and
/// `file`. In a string, U+FFFD replaces each sequence of bytes that is not UTF-8.
///
/// # Errors
///
/// Out of memory.
pub fn check_json(
    alloc: Global,
    name: &[u8],
    source: &Source,
    warnings: &[Warning],
) -> Result<Vec<u8>, AllocError>
    ensures { IfOk result (λ text.
        IsCheckJson name.now source.now.lines warnings.now text.items) }
{
    let form = Form::Json;
    check_in(alloc, Style { form, name }, source, warnings)
}

/// The text that `check` prints for a source of this name that doesn't open: the place in the line that is
/// too long or one too many, the code O1 or O2, a sentence, and a line of help. The line isn't quoted.
///
/// # Errors
///
/// Out of memory; also returned if that is why the source didn't open.
pub fn unopened_report(
    alloc: Global,
    is_painted: bool,
    name: &[u8],
    error: OpenError,
) -> Result<Vec<u8>, AllocError>
    ensures { IfOk result (λ text. text.items ≡ unopened_report is_painted name.now error) }
{
    let finding = Finding::of_unopened(alloc, error)?;
    let mut text = Vec::new(alloc);
    let number = unopened_line(error);
    push_unquoted(alloc, &mut text, is_painted, name, number, &finding)?;
    Ok(text)
}

/// The object that `check --json` prints for a source of this name that doesn't open, with the same place,
/// code, sentence and help as `unopened_report`.
///
/// # Errors
///
/// Out of memory; also returned if that is why the source didn't open.
pub fn unopened_json(alloc: Global, name: &[u8], error: OpenError) -> Result<Vec<u8>, AllocError>
    ensures { IfOk result (λ text. text.items ≡ unopened_object name.now error) }
{
    let finding = Finding::of_unopened(alloc, error)?;
    let mut text = Vec::new(alloc);
    push_object(alloc, &mut text, name, unopened_line(error), &finding)?;
    Ok(text)
}

/// The text that `check` prints, without colours, for the fault of the line of this number; empty if the
/// line has no fault.
///
/// # Errors
///
/// Out of memory.
pub fn fault_text(
    alloc: Global,
    name: &[u8],
    source: &Source,
    number: usize,
) -> Result<Vec<u8>, AllocError> {
    let form = Form::Text { is_painted: false };
    let known = Known::of(alloc, source)?;
    let mut text = Vec::new(alloc);
    if let Some(line) = source.line(number) {
        push_fault(
            alloc,
            &mut text,
            Style { form, name },
            source,
            &known,
            &line,
        )?;
    }
    Ok(text)
}

/// The faults as they are printed, followed by the warnings.
fn check_in(
    alloc: Global,
    style: Style,
    source: &Source,
    warnings: &[Warning],
) -> Result<Vec<u8>, AllocError>
    ensures { IfOk result (λ text. IsCheckedIn (print_in style.entry.form style.entry.name.now)
        source.now.lines warnings.now text.items) }
{
    let mut text = reports(alloc, style, source)?;
    push_warnings(alloc, &mut text, style, source, warnings)?;
    Ok(text)
}

/// The faults as they are printed.
fn reports(alloc: Global, style: Style, source: &Source) -> Result<Vec<u8>, AllocError>
    ensures { IfOk result (λ text. AreReports (print_in style.entry.form style.entry.name.now)
        source.now.lines 1 source.now.lines text.items) }
{
    let known = Known::of(alloc, source)?;
    let mut text = Vec::new(alloc);
    for place in 0..source.lines() {
        if let Some(line) = source.line(place + 1) {
            push_fault(alloc, &mut text, style, source, &known, &line)?;
        }
    }
    Ok(text)
}

/// Adds the fault of a line as it is printed, if the line has one.
fn push_fault(
    alloc: Global,
    text: &mut Vec<u8>,
    style: Style,
    source: &Source,
    known: &Known,
    line: &LineView<'_>,
) -> Result<(), AllocError>
    requires { Agree (listed known.now.symbols.entries) (symbols_of source.now.lines) }
    ensures { OnOk result ((hints : List Hint) × (text.new.items ≡ text.old.items
        ++ report_of (print_in style.entry.form style.entry.name.now) source.now.lines
        line.now.number line.now.text (fault_at source.now.lines line.now.number) hints)) }
{
    let Some(fault) = source.fault(line.number()) else {
        return Ok(());
    };
    let finding = Finding::of_fault(alloc, source, known, line, fault)?;
    push_finding(alloc, text, style, line.number(), line.text(), &finding)
}

/// Adds the warnings that lie in the source as they are printed.
fn push_warnings(
    alloc: Global,
    text: &mut Vec<u8>,
    style: Style,
    source: &Source,
    warnings: &[Warning],
) -> Result<(), AllocError>
    ensures { OnOk result ((others : List ℕ)
        × AreWarnings (print_in style.entry.form style.entry.name.now) source.now.lines
        warnings.now others × (text.new.items ≡ text.old.items ++ others)) }
{
    for warning in warnings {
        if let Some(line) = source.line(warning.line) {
            push_warning(alloc, text, style, line.text(), warning)?;
        }
    }
    Ok(())
}

/// Adds a warning of a line as it is printed, if its place lies in the line.
fn push_warning(
    alloc: Global,
    text: &mut Vec<u8>,
    style: Style,
    line: &[u8],
    warning: &Warning,
) -> Result<(), AllocError>
    ensures { OnOk result ((hints : List Hint) × (text.new.items ≡ text.old.items
        ++ warning_text (print_in style.entry.form style.entry.name.now) line.now warning.now
        hints)) }
{
    let span = warning.span;
    if span.start > span.end || span.end > line.len() {
        return Ok(());
    }
    let finding = Finding::of_warning(alloc, warning)?;
    push_finding(alloc, text, style, warning.line, line, &finding)
}
