//! The sentences and the help of warnings.

ghost use Rattle.std.specs.Prelude.{◌≤◌, length};

use crate::coverage::Coverage;
use crate::flow::data_line;
use crate::instruction::goes_elsewhere;
use crate::marks::Marks;
use crate::report::Judge;
use crate::seen::{Says, Seen};
use crate::warning::WarningCode;
use chip_lang::{Fault, Span, show};
use chip_machine::{Profile, Quirks};
use std::alloc::{AllocError, Global};

/// Returns a fault with the same place as the warning: the name that the line defines, the line's operands,
/// or the first word of its statement.
pub(crate) fn fault_there(code: WarningCode) -> Fault {
    match code {
        WarningCode::UnusedName => Fault::DefinedTwice,
        WarningCode::JumpsToData => Fault::UndefinedName,
        _ => Fault::UnknownWord,
    }
}

/// Returns the sentence of a warning for a line. `seen` is the survey's record of the line, and `judge`
/// describes the lines above the line.
pub(crate) fn sentence(
    alloc: Global,
    code: WarningCode,
    line: &[u8],
    span: Span,
    seen: &Seen,
    judge: &Judge<'_>,
) -> Result<Vec<u8>, AllocError>
    requires rises { span.start ≤ span.end }
    requires inside { span.end ≤ length line.now }
{
    let above = match judge.flow.last {
        Some(last) => last.number,
        None => 0,
    };
    let text = match code {
        WarningCode::UnusedName => {
            let mut text = Vec::from_slice(alloc, &line[span.start..span.end])?;
            text.extend_from_slice(b" is never used")?;
            return Ok(text);
        }
        WarningCode::SplitRows => {
            format!(in alloc; "ALIGN puts a zero byte between line {above} and this one")?
        }
        WarningCode::Unreachable => format!(in alloc; "nothing reaches this instruction")?,
        WarningCode::FallsIntoData => {
            format!(in alloc; "execution runs from line {above} into this data")?
        }
        WarningCode::JumpsToData => jump_sentence(alloc, seen, judge.marks)?,
        WarningCode::OddAddress => odd_sentence(alloc, seen)?,
        WarningCode::NotInProfile => missing_sentence(alloc, seen, judge.asked.quirks)?,
        WarningCode::NeverExecuted => never_sentence(alloc, judge.asked.coverage)?,
        WarningCode::AlwaysZero => format!(in alloc;
            "RND always gives 0 without a tape or a seed"
        )?,
        WarningCode::Property(code) => return Vec::from_slice(alloc, code.sentence()),
    };
    Ok(text.into_bytes())
}

/// Returns the sentence that states where a JP or CALL leads.
fn jump_sentence(alloc: Global, seen: &Seen, marks: &Marks) -> Result<String, AllocError> {
    let name = match seen.says.base() {
        Some(base) if goes_elsewhere(base) => "JP",
        _ => "CALL",
    };
    let target = data_line(marks, seen).unwrap_or(0);
    format!(in alloc; "{name} leads to data on line {target}")
}

/// Returns the sentence that states the odd address of an instruction.
fn odd_sentence(alloc: Global, seen: &Seen) -> Result<String, AllocError> {
    let address = seen.address;
    format!(in alloc; "an instruction at the odd address 0x{address:X}")
}

/// Returns the sentence that names an instruction that the machine doesn't have.
fn missing_sentence(alloc: Global, seen: &Seen, quirks: Quirks) -> Result<String, AllocError> {
    let word = match seen.says {
        Says::Code { word, .. } => word,
        _ => 0,
    };
    let instruction = show(alloc, word)?;
    match Profile::with_quirks(quirks) {
        Some(profile) => {
            let name = profile.name();
            format!(in alloc; "the profile {name} has no instruction {instruction}")
        }
        None => format!(in alloc; "the machine has no instruction {instruction}"),
    }
}

/// Returns the sentence about an instruction that no key script executes. The sentence includes the step up
/// to which the search went, unless the search went to the end.
fn never_sentence(alloc: Global, coverage: Option<Coverage<'_>>) -> Result<String, AllocError> {
    match coverage {
        Some(
            Coverage {
                within: Some(step),
                ..
            },
        ) => format!(in alloc; "no key script executes this up to step {step}"),
        _ => String::from_str(alloc, "no key script executes this"),
    }
}

/// Returns the help for a warning: advice on what to write instead, or an empty text.
pub(crate) fn help(code: WarningCode) -> &'static [u8] {
    match code {
        WarningCode::SplitRows => {
            b"write these rows in one DB, or put ALIGN OFF before them and ALIGN ON after them"
        }
        WarningCode::UnusedName => b"delete the name, or begin it with _ if it is meant to stay",
        WarningCode::Unreachable => b"delete it, or put a label before it and jump there",
        WarningCode::FallsIntoData => b"put JP or RET before it",
        WarningCode::JumpsToData => b"",
        WarningCode::OddAddress => b"put ALIGN ON before the data above it, or DB 0 after that",
        WarningCode::NotInProfile => b"schip has it",
        WarningCode::AlwaysZero => {
            b"give it random bytes with --seed 1 or --tape 2a91, or hide this with --allow W9"
        }
        WarningCode::NeverExecuted | WarningCode::Property(_) => b"",
    }
}
