//! A finding in a line: a fault or a warning.

ghost use Rattle.std.specs.Prelude.{◌≡◌, ◌≤◌, ◌+◌, IfOk, length};
ghost use Rattle.chip_lang.specs.FaultPlace.{mnemonic_of};
ghost use Rattle.chip_asm.specs.Program.{symbols_of};
ghost use Rattle.chip_check.specs.Check.{code_of, sentence_of, sentence_with, warning_code};
ghost use Rattle.chip_check.specs.Place.{place_in};
ghost use Rattle.chip_check.specs.Unopened.{unopened_code, unopened_help, unopened_line, unopened_place, unopened_sentence};
ghost use Rattle.chip_check.specs.inner.Known.{Agree, listed};
ghost use Rattle.chip_check.specs.inner.Printing.{IsHelp};

use crate::advice::advice_on;
use crate::hint::{Hint, HintKind, push_help};
use crate::known::Known;
use crate::place::place_in;
use chip_asm::limits::{LINE_BYTES, MOST_LINES};
use chip_asm::{LineView, OpenError, Source};
use chip_lang::{Fault, Span};
use chip_warnings::{Warning, WarningCode};
use std::alloc::{AllocError, Global};

/// A fault or a warning of a line, with its place and help.
#[derive(Drop)]
pub(crate) struct Finding {
    /// The bytes of the line where the finding lies.
    pub(crate) span: Span,
    /// A letter and a number, such as F9.
    pub(crate) code: Vec<u8>,
    pub(crate) sentence: Vec<u8>,
    /// Lines of help.
    pub(crate) hints: Vec<Hint>,
}

impl Finding {
    /// The finding for the fault of a line, with its place and help.
    pub(crate) fn of_fault(
        alloc: Global,
        source: &Source,
        known: &Known,
        line: &LineView<'_>,
        fault: Fault,
    ) -> Result<Finding, AllocError>
        requires { Agree (listed known.now.symbols.entries) (symbols_of source.now.lines) }
        ensures span { IfOk result (λ finding. finding.span
            ≡ place_in fault source.now.lines line.now.number line.now.text) }
        ensures code { IfOk result (λ finding. finding.code.items ≡ code_of fault) }
        ensures sentence { IfOk result (λ finding.
            finding.sentence.items ≡ sentence_with fault (mnemonic_of line.now.text)) }
        ensures rises { IfOk result (λ finding. finding.span.start ≤ finding.span.end) }
        ensures inside { IfOk result (λ finding. finding.span.end ≤ length line.now.text) }
    {
        let tokens = line.tokens(alloc)?;
        let span = place_in(alloc, source, known, line, &tokens, fault)?;
        let hints = advice_on(alloc, known, line, &tokens, fault, span.start)?;
        let sentence = sentence_in(alloc, fault, line)?;
        let fault_number = fault.number();
        let code = format!(in alloc; "F{fault_number}")?.into_bytes();
        Ok(Finding {
            span,
            code,
            sentence,
            hints,
        })
    }

    /// The finding for a source that doesn't open, in the line that is too long or one too many. Fails if
    /// memory runs out, or if that is why the source didn't open.
    pub(crate) fn of_unopened(alloc: Global, error: OpenError) -> Result<Finding, AllocError>
        ensures span { IfOk result (λ finding. finding.span ≡ unopened_place error) }
        ensures small { IfOk result (λ finding. (finding.span.start ≤ LINE_BYTES)
            × (finding.span.end ≤ LINE_BYTES + 1)) }
        ensures code { IfOk result (λ finding. finding.code.items ≡ unopened_code error) }
        ensures sentence { IfOk result (λ finding.
            finding.sentence.items ≡ unopened_sentence error) }
        ensures help { IfOk result (λ finding.
            IsHelp (unopened_help error) finding.hints.items) }
    {
        match error {
            OpenError::LineTooLong(_) => Ok(Finding {
                span: Span {
                    start: LINE_BYTES,
                    end: LINE_BYTES + 1,
                },
                code: Vec::from_slice(alloc, b"O1")?,
                sentence: format!(in alloc;
                    "line too long (at most {LINE_BYTES} bytes)"
                )?.into_bytes(),
                hints: one_help(
                    alloc,
                    b"split the data over two lines, with ALIGN OFF above them where it must stay together, or shorten the comment",
                )?,
            }),
            OpenError::TooManyLines => Ok(Finding {
                span: Span { start: 0, end: 0 },
                code: Vec::from_slice(alloc, b"O2")?,
                sentence: format!(in alloc; "too many lines (at most {MOST_LINES})")?.into_bytes(),
                hints: one_help(
                    alloc,
                    b"put more values on each line of data, or remove empty lines and comments",
                )?,
            }),
            OpenError::OutOfMemory => Err(AllocError),
        }
    }

    /// The finding for a warning.
    pub(crate) fn of_warning(alloc: Global, warning: &Warning) -> Result<Finding, AllocError>
        ensures span { IfOk result (λ finding. finding.span ≡ warning.now.span) }
        ensures code { IfOk result (λ finding.
            finding.code.items ≡ warning_code warning.now.code) }
        ensures sentence { IfOk result (λ finding.
            finding.sentence.items ≡ warning.now.sentence.items) }
    {
        let mut hints = Vec::new(alloc);
        if !warning.help.is_empty() {
            push_help(alloc, &mut hints, &[&warning.help])?;
        }
        let sentence = Vec::from_slice(alloc, &warning.sentence)?;
        Ok(Finding {
            span: warning.span,
            code: warning_code(alloc, warning.code)?,
            sentence,
            hints,
        })
    }
}

/// The code of a warning: W or P, and its number.
fn warning_code(alloc: Global, code: WarningCode) -> Result<Vec<u8>, AllocError>
    ensures { IfOk result (λ text. text.items ≡ warning_code code) }
{
    let number = code.number();
    let text = match code {
        WarningCode::Property(_) => format!(in alloc; "P{number}")?,
        _ => format!(in alloc; "W{number}")?,
    };
    Ok(text.into_bytes())
}

/// A list of one line of help, which says what to write.
fn one_help(alloc: Global, sentence: &[u8]) -> Result<Vec<Hint>, AllocError>
    ensures { IfOk result (λ hints. IsHelp sentence.now hints.items) }
{
    let mut hints = Vec::new(alloc);
    hints.push(Hint {
        kind: HintKind::Help,
        sentence: Vec::from_slice(alloc, sentence)?,
    })?;
    Ok(hints)
}

/// The number of the line that is too long or one too many in a source that doesn't open, counted from 1;
/// 1 if memory ran out.
pub(crate) fn unopened_line(error: OpenError) -> usize
    ensures { result ≡ unopened_line error }
{
    match error {
        OpenError::LineTooLong(number) => number,
        OpenError::TooManyLines => MOST_LINES + 1,
        OpenError::OutOfMemory => 1,
    }
}

/// The sentence for the fault of a line. If the operands don't fit, the sentence names the instruction.
#[tactic(auto, unfolding(crate::specs::Check::sentence_with))]
fn sentence_in(alloc: Global, fault: Fault, line: &LineView<'_>) -> Result<Vec<u8>, AllocError>
    ensures { IfOk result (λ sentence.
        sentence.items ≡ sentence_with fault (mnemonic_of line.now.text)) }
{
    match fault {
        Fault::WrongOperands => match line.mnemonic(alloc)? {
            Some(mnemonic) => {
                let mut sentence = Vec::from_slice(alloc, b"the operands fit no form of ")?;
                sentence.extend_from_slice(mnemonic.get())?;
                Ok(sentence)
            }
            None => Vec::from_slice(alloc, sentence_of(fault)),
        },
        _ => Vec::from_slice(alloc, sentence_of(fault)),
    }
}

/// The sentence for a fault, without the name of an instruction.
#[tactic(auto, unfolding(crate::specs::Check::sentence_of))]
pub(crate) fn sentence_of(fault: Fault) -> &'static [u8]
    ensures { result.now ≡ sentence_of fault }
{
    match fault {
        Fault::BadCharacter => b"bad character",
        Fault::UnfinishedString => b"unfinished string",
        Fault::UnknownWord => b"unknown word",
        Fault::WrongOperands => b"operands don't fit",
        Fault::NumberTooLarge => b"number above 2147483647",
        Fault::TooDeep => b"parentheses deeper than 16",
        Fault::BadName => b"name reserved or over 64 bytes",
        Fault::DefinedTwice => b"name defined on an earlier line",
        Fault::UndefinedName => b"undefined name",
        Fault::OutOfRange => b"value out of range",
        Fault::DivisionByZero => b"division by zero",
        Fault::Overflow => b"overflow, or a shift outside 0 to 31",
        Fault::OrgBelowHere => b"ORG below the line's address",
        Fault::PastMemory => b"past address 4096",
        Fault::StrayBranch => b"stray ELSE or ENDIF",
        Fault::UnclosedIf => b"IF without ENDIF",
        Fault::NotInProfile => b"not in this profile",
    }
}
