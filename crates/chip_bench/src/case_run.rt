//! Runs a case, and finds the answers of its session that differ from the expected ones.
ghost use Rattle.std.specs.Prelude.{◌≡◌, ◌↔◌, false, [], IsTrue, IfOk, OnOk, map};
ghost use Rattle.chip_cases.specs.Steps.{expectation_of};
ghost use Rattle.chip_bench.specs.Testing.{CasePasses, Passes, has_passed};

use crate::opening::open_under;
use chip_asm::OpenError;
use chip_cases::{Given, Step, is_answered, is_refusal};
use chip_host::{Code, Failure, KeyFile};
use chip_session::{Bench, Settings, respond};
use std::alloc::{AllocError, Global};

/// The outcome of a case.
#[derive(Drop)]
pub(crate) enum Verdict {
    /// The source doesn't open.
    Unopened(OpenError),
    /// The line with this number of the key events is refused.
    BadKeys(usize, Code),
    /// All commands were answered. The list contains the answers that were not as expected, in order.
    Answered(Vec<Given>),
}

impl Verdict {
    /// Whether all answers were as expected.
    pub(crate) fn has_passed(&self) -> bool
        ensures { result ≡ has_passed self.now }
    {
        match self {
            Verdict::Answered(others) => others.is_empty(),
            Verdict::Unopened(_) | Verdict::BadKeys(_, _) => false,
        }
    }
}

/// Carries out the commands of a case on a source, under the given key events and settings.
///
/// # Errors
///
/// Out of memory.
pub(crate) fn run_case(
    alloc: Global,
    source: &[u8],
    settings: Settings,
    keys: &KeyFile<'_>,
    steps: &[Step<'_>],
) -> Result<Verdict, AllocError>
    ensures { IfOk result (λ verdict. IsTrue (has_passed verdict)
        ↔ CasePasses settings source.now keys.now.bytes.items (map expectation_of steps.now)) }
{
    match open_under(alloc, source, keys, settings) {
        Ok(Ok(mut bench)) => {
            let others = other_answers(alloc, &mut bench, steps)?;
            Ok(Verdict::Answered(others))
        }
        Ok(Err(error)) => match error {
            OpenError::OutOfMemory => Err(AllocError),
            _ => Ok(Verdict::Unopened(error)),
        },
        Err(Failure::BadKeys(_, number, code)) => Ok(Verdict::BadKeys(number, code)),
        Err(_) => Err(AllocError),
    }
}

// Carries out all commands, and returns the answers that are not as expected.
fn other_answers(
    alloc: Global,
    bench: &mut Bench,
    steps: &[Step<'_>],
) -> Result<Vec<Given>, AllocError>
    ensures { IfOk result (λ others. (others.items ≡ [])
        ↔ Passes bench.old.session (map expectation_of steps.now)) }
{
    let mut others = Vec::new(alloc);
    for step in steps {
        let mut answer = Vec::new(alloc);
        respond(alloc, bench, step.command, &mut answer)?;
        let is_expected = is_answered(alloc, &step.expected, &answer)?;
        keep_other(&mut others, step.line, answer, is_expected)?;
    }
    Ok(others)
}

// Keeps the answer to the command on a line, unless it is as expected.
fn keep_other(
    others: &mut Vec<Given>,
    line: usize,
    answer: Vec<u8>,
    is_expected: bool,
) -> Result<(), AllocError>
    ensures { OnOk result ((others.new.items ≡ [])
        ↔ ((others.old.items ≡ []) × IsTrue is_expected)) }
{
    if !is_expected {
        others.push(Given {
            line,
            is_refused: is_refusal(&answer),
            answer,
        })?;
    }
    Ok(())
}
