//! Commands about one line of a source, which chip_lang answers without the definition of any name.
//!
//! A LINE is the rest of the command, or `@text` for the built text.
//!
//! - `read LINE`: the name that the line defines (`-` for none), the kind of its statement, and its
//!   value, name or code; or the fault of the line. `read-length LINE`: the length of that answer.
//! - `tokens LINE`: each token with the index of its first byte and the index after its last byte.
//! - `defines LINE`, `name PLACE LINE`: the name that the line defines, and the name that the line
//!   uses at a place.
//! - `constant LINE`: the value of an EQU without names. `nothing LINE`: 1 if the line is blank or
//!   only a comment, and otherwise 0. `copy LINE`: a copy of the bytes of the line.
//! - `place FAULT LINE`: the bytes of the line that this fault points at. `mnemonic LINE`: the mnemonic
//!   of the line.
//! - `sentence FAULT`: the sentence that describes a fault.

ghost use Rattle.chip_lang.specs.Value.{Symbols};
ghost use Rattle.std.specs.FinMap as map;

use crate::output::{Refused, Reply};
use crate::text::{line_bytes, number, split_word};
use chip_lang::{
    Body, Bytes, Coded, Fault, Line, Meter, Names, constant, defines, encode, eval, fault_span,
    mnemonic_of, read_line, read_nothing, tokens, uses,
};
use std::alloc::{AllocError, Global};

/// A table without names.
pub(crate) struct NoNames;

impl Names for NoNames {
    ghost symbols = { λ _. map.empty };

    fn value(&self, _name: &[u8]) -> Option<i32> {
        None
    }
}

/// Answers a command.
pub(crate) fn answer(
    alloc: Global,
    out: &mut Reply,
    built: &[u8],
    word: &str,
    rest: &str,
) -> Result<(), Refused> {
    let bytes = line_bytes(built, rest);
    match word {
        "read" | "read-length" | "defines" | "constant" => {
            push_said(alloc, out, word, &*read(alloc, &mut Meter::new(), bytes)?)?
        }
        "tokens" => push_tokens(alloc, out, bytes)?,
        "nothing" => out.show(&count_of_nothing(bytes)),
        "copy" => out.characters(Bytes::from_slice(alloc, bytes)?.get()),
        "mnemonic" => push_mnemonic(alloc, out, bytes)?,
        "place" => push_place(alloc, out, built, rest)?,
        "sentence" => out.show(&fault_of(rest)?),
        "name" => push_used_name(alloc, out, built, rest)?,
        _ => return Err(Refused::BadCommand),
    }
    Ok(())
}

/// Returns a parsed line in a box, so that each caller drops the line with one call.
pub(crate) fn read(alloc: Global, meter: &mut Meter, line: &[u8]) -> Result<Box<Line>, AllocError> {
    let line = read_line(alloc, meter, line)?;
    Ok(Box::new(alloc, line)?)
}

/// Appends the answer to a command about a parsed line.
fn push_said(alloc: Global, out: &mut Reply, word: &str, line: &Line) -> Result<(), AllocError> {
    match word {
        "read" => push_line(alloc, out, line)?,
        "read-length" => {
            let mut text = Reply::new(alloc);
            push_line(alloc, &mut text, line)?;
            out.show(&text.text.len());
        }
        "defines" => out.name(defines(line)),
        _ => out.debug(&constant_of(line)),
    }
    Ok(())
}

pub(crate) fn push_fault(out: &mut Reply, fault: Fault) {
    out.show(&format_args!("F{}", fault.number()));
}

/// Appends the label, the kind of the statement, and the value, name or code of its operand; or the fault.
fn push_line(alloc: Global, out: &mut Reply, line: &Line) -> Result<(), AllocError> {
    match line {
        Line::Bad(fault) => push_fault(out, *fault),
        Line::Read { label, body } => {
            out.characters(label_of(label));
            out.text(kind_of(body));
            push_operand(alloc, out, line, body)?;
        }
    }
    Ok(())
}

fn label_of(label: &Option<Bytes>) -> &[u8] {
    match label {
        Some(label) => label.get(),
        None => b"-",
    }
}

/// Returns the kind of a statement, between two blanks.
fn kind_of(body: &Body) -> &'static str {
    match body {
        Body::Empty => " Empty ",
        Body::Equ(_) => " Equ ",
        Body::Org(_) => " Org ",
        Body::Ds(_) => " Ds ",
        Body::Db(_) => " Db ",
        Body::Dw(_) => " Dw ",
        Body::Da(_) => " Da ",
        Body::Code(_, _) => " Code ",
        Body::Define => " Define ",
        Body::Ifdef(_) => " Ifdef ",
        Body::Ifund(_) => " Ifund ",
        Body::Else => " Else ",
        Body::Endif => " Endif ",
        Body::End => " End ",
        Body::Align(_) => " Align ",
        Body::Options => " Option ",
        Body::Used => " Used ",
        Body::Xref => " Xref ",
    }
}

/// Appends the value, name or code of the operand of a statement, or the operand's fault.
fn push_operand(
    alloc: Global,
    out: &mut Reply,
    line: &Line,
    body: &Body,
) -> Result<(), AllocError> {
    match body {
        Body::Equ(expr) | Body::Org(expr) | Body::Ds(expr) => match eval(expr, &NoNames) {
            Ok(value) => out.show(&value),
            Err(fault) => push_fault(out, fault),
        },
        Body::Ifdef(name) | Body::Ifund(name) => out.characters(name.get()),
        Body::Align(is_on) => out.text(if *is_on { "ON" } else { "OFF" }),
        _ => match encode(alloc, &mut Meter::new(), line, &NoNames)? {
            Coded::Bytes(bytes) => out.bytes(bytes.get()),
            Coded::Faulty(fault) => push_fault(out, fault),
        },
    }
    Ok(())
}

fn push_tokens(alloc: Global, out: &mut Reply, bytes: &[u8]) -> Result<(), AllocError> {
    for token in &tokens(alloc, bytes)? {
        let (kind, start, end) = (token.kind, token.start, token.end);
        out.show(&format_args!("{kind:?} {start} {end}\n"));
    }
    Ok(())
}

fn push_used_name(alloc: Global, out: &mut Reply, built: &[u8], rest: &str) -> Result<(), Refused> {
    let (place, line) = split_word(rest);
    let place = number(place)? as usize;
    let line = read(alloc, &mut Meter::new(), line_bytes(built, line))?;
    out.name(uses(&*line, place));
    Ok(())
}

/// Returns the value of the expression of an EQU, if it is constant.
fn constant_of(line: &Line) -> Option<i32> {
    match line {
        Line::Read {
            body: Body::Equ(expr),
            ..
        } => constant(expr),
        _ => None,
    }
}

/// Returns how many lines `read_nothing` reads: 1 for a blank line or a comment, and 0 for any other line.
fn count_of_nothing(bytes: &[u8]) -> u64 {
    let mut meter = Meter::new();
    if read_nothing(&mut meter, bytes) {
        meter.parsed
    } else {
        0
    }
}

fn push_mnemonic(alloc: Global, out: &mut Reply, bytes: &[u8]) -> Result<(), AllocError> {
    match mnemonic_of(alloc, bytes)? {
        Some(mnemonic) => out.characters(mnemonic.get()),
        None => out.text("none"),
    }
    Ok(())
}

/// The faults in the order of their numbers, starting with F1.
const FAULTS: &[Fault] = &[
    Fault::BadCharacter,
    Fault::UnfinishedString,
    Fault::UnknownWord,
    Fault::WrongOperands,
    Fault::NumberTooLarge,
    Fault::TooDeep,
    Fault::BadName,
    Fault::DefinedTwice,
    Fault::UndefinedName,
    Fault::OutOfRange,
    Fault::DivisionByZero,
    Fault::Overflow,
    Fault::OrgBelowHere,
    Fault::PastMemory,
    Fault::StrayBranch,
    Fault::UnclosedIf,
    Fault::NotInProfile,
];

/// Returns the fault with a code such as `F4`, and fails if there is none.
fn fault_of(name: &str) -> Result<Fault, Refused> {
    let place = match name.strip_prefix("F") {
        Some(digits) => number(digits)?.wrapping_sub(1),
        None => u32::MAX,
    };
    match FAULTS.get(place as usize) {
        Some(fault) => Ok(*fault),
        None => Err(Refused::BadCommand),
    }
}

/// Appends the place of a fault in a line: the index of its first byte, and the index after its last byte.
fn push_place(alloc: Global, out: &mut Reply, built: &[u8], rest: &str) -> Result<(), Refused> {
    let (fault, line) = split_word(rest);
    let span = fault_span(alloc, line_bytes(built, line), fault_of(fault)?)?;
    out.numbers(&[span.start as u64, span.end as u64]);
    Ok(())
}
