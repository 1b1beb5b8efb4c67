//! `test`: runs the cases in files, and compares the answers with the expected ones.
ghost use Rattle.std.specs.Prelude.{IfOk, IfErr};
ghost use Rattle.chip_bench.specs.Testing.{IsHindrance, JudgesAll, JudgesCase, JudgesFile, Tests, has_passed};

use crate::case_report::Report;
use crate::case_run::{Verdict, run_case};
use crate::case_setup::{case_keys, case_settings, case_source};
use chip_arguments::TestArguments;
use chip_asm::Source;
use chip_cases::{Case, FileFault, Given, misplaced_refusal, read_cases, updated_text};
use chip_check::fault_text;
use chip_host::limits::TEST_FILE_BYTES;
use chip_host::{Ending, Failure, FileAccess, KeyFile, System, TestFault, print};
use chip_session::Counted;
use std::alloc::{AllocError, Global};
use std::io::Write;

/// `test`: carries out the cases in the files, file by file, and prints which cases failed.
pub(crate) fn test_files<'a, F: FileAccess, O: Write>(
    system: &System<'_, F>,
    arguments: &TestArguments<'a>,
    output: &mut Counted<O>,
) -> Result<Ending, Failure<'a>>
    ensures { Tests arguments.now result }
{
    let names: &[&'a str] = &arguments.files;
    let mut report = Report::new(system.alloc, arguments.is_tap);
    let mut has_passed = true;
    for name in names {
        let passes = test_file(system, name, arguments.is_update, &mut report)?;
        has_passed = has_passed && passes;
        print(&report.text, Ending::Done, output)?;
        report.text.clear();
    }
    report.push_counts()?;
    print(&report.text, Ending::Done, output)?;
    Ok(if has_passed {
        Ending::Done
    } else {
        Ending::Faulty
    })
}

// Carries out the cases in a file, and returns whether all of them pass.
fn test_file<'a, F: FileAccess>(
    system: &System<'_, F>,
    name: &'a str,
    is_update: bool,
    report: &mut Report,
) -> Result<bool, Failure<'a>>
    ensures ok { IfOk result (JudgesFile name.entry) }
    ensures err { IfErr result IsHindrance }
{
    let text = system.read_within(name, TEST_FILE_BYTES)?;
    let cases = match read_cases(system.alloc, &text) {
        Ok(cases) => cases,
        Err(FileFault::OutOfMemory) => return Err(Failure::OutOfMemory),
        Err(FileFault::Line(line, why)) => {
            return Err(Failure::BadTest(name, line, TestFault::Line(why)));
        }
    };
    let misplaced = misplaced_refusal(&cases);
    if !is_update && let Some((line, why)) = misplaced {
        return Err(Failure::BadTest(name, line, TestFault::Line(why)));
    }
    let mut others = Vec::new(system.alloc);
    let passes = test_cases(system, name, &cases, report, &mut others)?;
    if is_update && (!others.is_empty() || misplaced.is_some()) {
        let updated = updated_text(system.alloc, &text, &others)?;
        system.write(&[], name, &updated)?;
    }
    Ok(passes)
}

// Carries out cases, reports the answers that are not as expected, and returns whether all cases pass.
fn test_cases<'a, F: FileAccess>(
    system: &System<'_, F>,
    name: &'a str,
    cases: &[Case<'_>],
    report: &mut Report,
    others: &mut Vec<Given>,
) -> Result<bool, Failure<'a>>
    ensures ok { IfOk result (JudgesAll JudgesCase cases.now) }
    ensures err { IfErr result IsHindrance }
{
    let mut has_passed = true;
    for case in cases {
        let verdict = test_case(system, name, case)?;
        has_passed = has_passed && verdict.has_passed();
        let fault = source_fault(system, name, case, &verdict);
        report.push_case(system.alloc, name, case, &verdict, &fault)?;
        if let Verdict::Answered(mut given) = verdict {
            others.append(&mut given)?;
        }
    }
    Ok(has_passed)
}

// Returns the first fault of a case's source, as `check` prints it, if an answer is that there is
// no image. Otherwise returns an empty text.
fn source_fault<F: FileAccess>(
    system: &System<'_, F>,
    name: &str,
    case: &Case<'_>,
    verdict: &Verdict,
) -> Vec<u8> {
    let alloc = system.alloc;
    let is_asked = match verdict {
        Verdict::Answered(others) => others
            .iter()
            .any(|given| given.answer.as_slice() == b"no Q1\n".as_slice()),
        Verdict::Unopened(_) | Verdict::BadKeys(_, _) => false,
    };
    if !is_asked {
        return Vec::new(alloc);
    }
    let Ok(bytes) = case_source(system, name, case.setup.source) else {
        return Vec::new(alloc);
    };
    let Ok(source) = Source::open(alloc, &bytes) else {
        return Vec::new(alloc);
    };
    first_fault(alloc, &source).unwrap_or(Vec::new(alloc))
}

// Returns the first fault of a source, as `check` prints it, or an empty text if the source has no faults.
fn first_fault(alloc: Global, source: &Source) -> Result<Vec<u8>, AllocError> {
    for number in 1..=source.lines() {
        if source.fault(number).is_some() {
            return fault_text(alloc, b"source", source, number);
        }
    }
    Ok(Vec::new(alloc))
}

// Carries out a case with the source, the key events and the settings that its lines specify.
fn test_case<'a, F: FileAccess>(
    system: &System<'_, F>,
    name: &'a str,
    case: &Case<'_>,
) -> Result<Verdict, Failure<'a>>
    ensures ok { IfOk result (λ verdict. JudgesCase case.now (has_passed verdict)) }
    ensures err { IfErr result IsHindrance }
{
    let settings = case_settings(system.alloc, name, &case.setup)?;
    let source = case_source(system, name, case.setup.source)?;
    let bytes = case_keys(system, name, case.setup.keys)?;
    let keys = KeyFile { name, bytes };
    Ok(run_case(system.alloc, &source, settings, &keys, &case.steps)?)
}
