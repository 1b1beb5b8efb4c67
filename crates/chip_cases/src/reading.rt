//! Reads the cases of a file.

ghost use Rattle.std.specs.Prelude.{◌≡◌, ◌≤◌, true, false, [], ◌∷◌, ◌++◌, IfOk, OnOk, length, map};
ghost use Rattle.std.specs.Str.Lines.{lines};
ghost use Rattle.chip_cases.specs.Cases.{AreCases, behind_setup, behind_steps};
ghost use Rattle.chip_cases.specs.Matching.{texts};
ghost use Rattle.chip_cases.specs.Steps.{expectation, expectation_of, expected_below, steps_below};

use crate::case::{Case, CaseSource, Placed, Setup, Step};
use crate::fault::{CaseFault, FileFault};
use crate::line::{begins_part, is_case, is_command, is_refused, is_skipped, split_word};
use crate::place::Place;
use std::alloc::{AllocError, Global};

/// Returns the cases of a file, in order. The source, key events and settings before the first
/// `case` line apply to each case, unless the case states its own. A file without a `case` line is
/// one case.
///
/// # Errors
///
/// A line that can't be read, with its fault; or out of memory.
pub fn read_cases<'a>(alloc: Global, text: &'a [u8]) -> Result<Vec<Case<'a>>, FileFault>
    ensures { IfOk result (λ cases. AreCases text.entry.now cases.items) }
{
    let (common, above) = read_setup(Place::start(text), Setup::NONE)?;
    let (steps, mut place) = read_steps(alloc, above)?;
    let mut cases = Vec::new(alloc);
    if !steps.is_empty() {
        if !place.rest.is_empty() {
            let number = place.number.saturating_add(1);
            return Err(FileFault::Line(number, CaseFault::EarlyCommands));
        }
        let case = Case {
            line: 1,
            name: b"",
            setup: common,
            steps,
        };
        push_case(&mut cases, case)?;
        return Ok(cases);
    }
    while !place.rest.is_empty() {
        let (line, below) = place.next_line();
        let (setup, commands) = read_setup(below, common)?;
        let (steps, next) = read_steps(alloc, commands)?;
        let name = split_word(line).1;
        if name.is_empty() {
            return Err(FileFault::Line(below.number, CaseFault::NoName));
        }
        let case = Case {
            line: below.number,
            name,
            setup,
            steps,
        };
        push_case(&mut cases, case)?;
        place = next;
    }
    if cases.is_empty() {
        return Err(FileFault::Line(1, CaseFault::NoCase));
    }
    Ok(cases)
}

fn push_case<'a>(cases: &mut Vec<Case<'a>>, case: Case<'a>) -> Result<(), AllocError>
    ensures { OnOk result (cases.new.items ≡ cases.old.items ++ case.entry ∷ []) }
{
    cases.push(case)?;
    Ok(())
}

/// Returns the line number and the fault of the first command whose mark doesn't fit its expected
/// answer. With `!`, the expected answer must be one line that is a refusal. With `>`, the expected
/// answer must not be a refusal.
pub fn misplaced_refusal(cases: &[Case<'_>]) -> Option<(usize, CaseFault)> {
    for case in cases {
        for step in &case.steps {
            let is_refusal = match step.expected.as_slice() {
                [line] => line.starts_with(b"no "),
                _ => false,
            };
            match (is_refusal, step.is_refused) {
                (true, false) => return Some((step.line, CaseFault::Refusal)),
                (false, true) => return Some((step.line, CaseFault::NoRefusal)),
                (true, true) | (false, false) => {}
            }
        }
    }
    None
}

// Returns a setup and the place before the first command or case. The setup is `common`, with the
// source, key events and settings that the lines up to that place state.
fn read_setup<'a>(begun: Place<'a>, common: Setup<'a>) -> Result<(Setup<'a>, Place<'a>), FileFault>
    ensures behind { IfOk result (λ read. lines read.1.rest.now
        ≡ behind_setup false (lines begun.entry.rest.now)) }
    ensures shorter { IfOk result (λ read.
        length read.1.rest.now ≤ length begun.entry.rest.now) }
{
    let mut setup = common;
    let mut place = begun;
    while !place.rest.is_empty() {
        let (line, next) = place.next_line();
        if begins_part(line) {
            return Ok((setup, place));
        }
        if is_skipped(line) {
            place = next;
        } else if line == b"source".as_slice() {
            let (source, after) = read_source(next)?;
            setup.source = CaseSource::Lines(source);
            place = after;
        } else {
            setup = with_line(setup, line, next.number)?;
            place = next;
        }
    }
    Ok((setup, place))
}

// Returns the lines up to the line `end`, and the place after `end`. Fails if there is no line `end`.
fn read_source<'a>(begun: Place<'a>) -> Result<(&'a [u8], Place<'a>), FileFault>
    ensures behind { IfOk result (λ read. behind_setup false (lines read.1.rest.now)
        ≡ behind_setup true (lines begun.entry.rest.now)) }
    ensures shorter { IfOk result (λ read.
        length read.1.rest.now ≤ length begun.entry.rest.now) }
{
    let mut place = begun;
    while !place.rest.is_empty() {
        let (line, next) = place.next_line();
        if line == b"end".as_slice() {
            let len = begun.rest.len() - place.rest.len();
            return Ok((&begun.rest[..len], next));
        }
        place = next;
    }
    Err(FileFault::Line(begun.number, CaseFault::NoEnd))
}

// Returns the setup with the setting or the file that a line states. Fails if the line states neither.
fn with_line<'a>(setup: Setup<'a>, text: &'a [u8], line: usize) -> Result<Setup<'a>, FileFault> {
    let (word, value) = split_word(text);
    let given = Some(Placed { line, text: value });
    if value.is_empty() {
        return Err(FileFault::Line(line, CaseFault::UnknownLine));
    }
    let mut with = setup;
    if word == b"source".as_slice() {
        with.source = CaseSource::File(Placed { line, text: value });
    } else if word == b"image".as_slice() {
        with.source = CaseSource::Image(Placed { line, text: value });
    } else if word == b"keys".as_slice() {
        with.keys = given;
    } else if word == b"profile".as_slice() {
        with.profile = given;
    } else if word == b"quirks".as_slice() {
        with.quirks = given;
    } else if word == b"rate".as_slice() {
        with.rate = given;
    } else if word == b"tape".as_slice() {
        with.tape = given;
    } else if word == b"seed".as_slice() {
        with.seed = given;
    } else if word == b"every".as_slice() {
        with.every = given;
    } else {
        return Err(FileFault::Line(line, CaseFault::UnknownLine));
    }
    Ok(with)
}

// Returns the commands up to the next case, each with its expected lines, and the place after the
// commands.
fn read_steps<'a>(alloc: Global, begun: Place<'a>) -> Result<(Vec<Step<'a>>, Place<'a>), AllocError>
    ensures steps { IfOk result (λ read.
        map expectation_of read.0.items ≡ steps_below (lines begun.entry.rest.now)) }
    ensures behind { IfOk result (λ read. lines read.1.rest.now
        ≡ behind_steps (lines begun.entry.rest.now)) }
    ensures shorter { IfOk result (λ read.
        length read.1.rest.now ≤ length begun.entry.rest.now) }
{
    let mut steps = Vec::new(alloc);
    let mut place = begun;
    while !place.rest.is_empty() {
        let (line, next) = place.next_line();
        if is_case(line) {
            return Ok((steps, place));
        }
        place = if is_command(line) {
            push_step(alloc, &mut steps, line, next)?
        } else {
            next
        };
    }
    Ok((steps, place))
}

// Appends the command of a line with the expected lines below it, and returns the place after these
// lines.
fn push_step<'a>(
    alloc: Global,
    steps: &mut Vec<Step<'a>>,
    line: &'a [u8],
    below: Place<'a>,
) -> Result<Place<'a>, AllocError>
    ensures steps { OnOk result (map expectation_of steps.new.items
        ≡ map expectation_of steps.old.items
        ++ expectation line.entry.now (lines below.entry.rest.now) ∷ []) }
    ensures others { IfOk result (λ place. steps_below (lines place.rest.now)
        ≡ steps_below (lines below.entry.rest.now)) }
    ensures behind { IfOk result (λ place. behind_steps (lines place.rest.now)
        ≡ behind_steps (lines below.entry.rest.now)) }
    ensures shorter { IfOk result (λ place.
        length place.rest.now ≤ length below.entry.rest.now) }
{
    let (expected, place) = read_expected(alloc, below)?;
    steps.push(Step {
        line: below.number,
        command: split_word(line).1,
        is_refused: is_refused(line),
        expected,
    })?;
    Ok(place)
}

// Returns the lines up to the next command or case, without comments and empty lines, and the place
// after these lines.
fn read_expected<'a>(
    alloc: Global,
    begun: Place<'a>,
) -> Result<(Vec<&'a [u8]>, Place<'a>), AllocError>
    ensures expected { IfOk result (λ read. texts read.0.items
        ≡ expected_below (lines begun.entry.rest.now)) }
    ensures others { IfOk result (λ read. steps_below (lines read.1.rest.now)
        ≡ steps_below (lines begun.entry.rest.now)) }
    ensures behind { IfOk result (λ read. behind_steps (lines read.1.rest.now)
        ≡ behind_steps (lines begun.entry.rest.now)) }
    ensures shorter { IfOk result (λ read.
        length read.1.rest.now ≤ length begun.entry.rest.now) }
{
    let mut expected = Vec::new(alloc);
    let mut place = begun;
    while !place.rest.is_empty() {
        let (line, next) = place.next_line();
        if begins_part(line) {
            return Ok((expected, place));
        }
        if !is_skipped(line) {
            expected.push(line)?;
        }
        place = next;
    }
    Ok((expected, place))
}
