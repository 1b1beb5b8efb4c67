//! The output of a command, and how the command ends after it.
ghost use Rattle.std.specs.Prelude.{◌≡◌, Err, IfErr, IfOk};
ghost use Rattle.chip_asm.specs.Program.{image_of};
ghost use Rattle.chip_host.specs.Printing.{Printed, Prints, Refuses, ending_with, printed, printed_by, printed_faults, unopened_text};

use crate::ending::{Ending, Failure};
use chip_asm::{OpenError, Source};
use chip_session::{Counted, faults_answer, write_all};
use std::alloc::{AllocError, Global};
use std::io::Write;

/// The text that a command prints on standard output, and how the command ends after it.
#[derive(Drop)]
pub struct Answer {
    pub text: Vec<u8>,
    pub ending: Ending,
}

impl Answer {
    /// Returns an answer with a text about a source. The ending is `Faulty` if the source has no image.
    pub fn on(source: &Source, text: Vec<u8>) -> Answer
        ensures { printed_by result ≡ printed text.items (ending_with (image_of source.now.lines)) }
    {
        match source.image() {
            Some(_) => Answer {
                text,
                ending: Ending::Done,
            },
            None => Answer {
                text,
                ending: Ending::Faulty,
            },
        }
    }
}

/// Prints an answer. Fails if memory ran out for the answer.
pub fn deliver<'a, O: Write>(
    answer: Result<Answer, AllocError>,
    output: &mut Counted<O>,
) -> Result<Ending, Failure<'a>>
    ensures wanted { (wanted : Printed) → IfOk answer (λ given. printed_by given ≡ wanted)
        → Prints O.contents output.old output.new wanted result }
    ensures short { IfErr answer (λ e. (result ≡ Err Failure.OutOfMemory)
        × (output.new ≡ output.old)) }
{
    match answer {
        Ok(answer) => print(&answer.text, answer.ending, output),
        Err(_) => Err(Failure::OutOfMemory),
    }
}

/// Returns the faults of a source as an answer.
pub fn faults(alloc: Global, source: &Source) -> Result<Answer, AllocError>
    ensures { IfOk result (λ answer. printed_by answer ≡ printed_faults source.now.lines) }
{
    Ok(Answer {
        text: faults_answer(alloc, source)?,
        ending: Ending::Faulty,
    })
}

/// Prints why a source doesn't open. If memory ran out, prints nothing and fails.
pub fn refuse_source<'a, O: Write>(
    error: OpenError,
    output: &mut Counted<O>,
) -> Result<Ending, Failure<'a>>
    ensures { Refuses O.contents output.old output.new error result }
{
    match error {
        OpenError::OutOfMemory => Err(Failure::OutOfMemory),
        _ => print(unopened_text(error), Ending::Faulty, output),
    }
}

/// Returns the reason why a source doesn't open, as the program prints it. The text is empty if memory ran out.
pub fn unopened_text(error: OpenError) -> &'static [u8]
    ensures { result.now ≡ unopened_text error }
{
    match error {
        OpenError::LineTooLong(_) => b"no O1\n",
        OpenError::TooManyLines => b"no O2\n",
        OpenError::OutOfMemory => b"",
    }
}

/// Prints bytes, and returns the ending. Fails if a write fails.
pub fn print<'a, O: Write>(
    bytes: &[u8],
    ending: Ending,
    output: &mut Counted<O>,
) -> Result<Ending, Failure<'a>>
    ensures { Prints O.contents output.old output.new (printed bytes.now ending) result }
{
    match write_all(output, bytes) {
        Ok(()) => Ok(ending),
        Err(_) => Err(Failure::Output),
    }
}
