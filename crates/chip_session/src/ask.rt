//! The answers to questions.
ghost use Rattle.std.specs.Prelude.{◌≡◌, [], ℕ, List, false, Ok, Err, Some, IfOk};
ghost use Rattle.chip_asm.specs.Program.{image_of};
ghost use Rattle.chip_session.specs.Kept.{session_on, IsLastImage};
ghost use Rattle.chip_session.specs.inner.InStep.{GoesOn};
ghost use Rattle.chip_session.specs.Answers.{asks_past_end, step_refusal, answer_at, image_answer, answer_to, step_asked};
ghost use Rattle.chip_session.specs.IsAnswer.{IsAnswer};

use crate::answer::{faults_answer, listing_answer, push_hex_line, symbols_answer};
use crate::image_run::ImageRun;
use crate::question::{Question, StateQuestion};
use crate::refusal::Refusal;
use chip_asm::Source;
use chip_machine::limits::MEMORY_BYTES;
use chip_replay::LAST_STEP;
use std::alloc::{AllocError, Global};

/// Whether the requested bytes reach past the end of memory.
fn is_past_end(asked: StateQuestion) -> bool
    ensures { result ≡ asks_past_end asked }
{
    match asked {
        StateQuestion::Memory { at, count } => u64::from(at) + u64::from(count)
            > MEMORY_BYTES as u64,
        StateQuestion::Disassembly { at, count } => u64::from(at) + 2 * u64::from(count)
            > MEMORY_BYTES as u64,
        StateQuestion::Registers | StateQuestion::Screen => false,
    }
}

/// The first refusal that applies to a question about a step, if there is one.
fn step_refusal(asked: StateQuestion, step: u32) -> Option<Refusal>
    ensures { result ≡ step_refusal asked step }
{
    if step > LAST_STEP {
        Some(Refusal::StepPastLast)
    } else if is_past_end(asked) {
        Some(Refusal::AddressPastEnd)
    } else {
        None
    }
}

/// Writes the answer to a question about the machine at a step of the image's run into `out`, which
/// must be empty.
fn answer_at(
    source: &Source,
    run: &mut ImageRun,
    asked: StateQuestion,
    step: u32,
    out: &mut Vec<u8>,
) -> Result<(), Refusal>
    requires is_last { IsLastImage (image_of source.now.lines) run.old.last_image }
    requires empty { out.old.items ≡ [] }
    ensures answer { IsAnswer (answer_at (session_on source.now.lines run.old) asked step
        (image_of source.now.lines)) result out.new.items }
    ensures run { GoesOn (Some step) result run.old run.new }
{
    if source.image().is_none() {
        return Err(Refusal::NoImage);
    }
    if let Some(why) = step_refusal(asked, step) {
        return Err(why);
    }
    match run.answer(asked, step, out) {
        Ok(()) => Ok(()),
        Err(_) => Err(Refusal::AnswerMemory),
    }
}

/// Writes the answer to a question into `out`, which must be empty.
pub(crate) fn answer(
    alloc: Global,
    source: &Source,
    run: &mut ImageRun,
    question: &Question,
    out: &mut Vec<u8>,
) -> Result<(), Refusal>
    requires is_last { IsLastImage (image_of source.now.lines) run.old.last_image }
    requires empty { out.old.items ≡ [] }
    ensures answer { IsAnswer (answer_to (session_on source.now.lines run.old) question.now)
        result out.new.items }
    ensures run { GoesOn (step_asked question.now) result run.old run.new }
{
    let (asked, step) = match *question {
        Question::Image => return image_answer(source, out),
        Question::Symbols => return told(symbols_answer(alloc, source), out),
        Question::Listing => return told(listing_answer(alloc, source), out),
        Question::Faults => return told(faults_answer(alloc, source), out),
        Question::Registers { step } => (StateQuestion::Registers, step),
        Question::Memory { step, at, count } => (StateQuestion::Memory { at, count }, step),
        Question::Screen { step } => (StateQuestion::Screen, step),
        Question::Disassembly { step, at, count } => (
            StateQuestion::Disassembly { at, count },
            step,
        ),
    };
    answer_at(source, run, asked, step, out)
}

/// Writes the image in hexadecimal into `out`, which must be empty.
fn image_answer(source: &Source, out: &mut Vec<u8>) -> Result<(), Refusal>
    requires empty { out.old.items ≡ [] }
    ensures { IsAnswer (image_answer (image_of source.now.lines)) result out.new.items }
{
    let Some(image) = source.image() else {
        return Err(Refusal::NoImage);
    };
    match push_hex_line(out, image) {
        Ok(()) => Ok(()),
        Err(_) => Err(Refusal::AnswerMemory),
    }
}

/// Moves a finished answer to `out`. Fails only if memory ran out.
fn told(answer: Result<Vec<u8>, AllocError>, out: &mut Vec<u8>) -> Result<(), Refusal>
    ensures { (bytes : List ℕ) → IfOk answer (λ v. v.items ≡ bytes)
        → IsAnswer (Ok bytes) result out.new.items }
{
    match answer {
        Ok(text) => {
            *out = text;
            Ok(())
        }
        Err(_) => Err(Refusal::AnswerMemory),
    }
}
