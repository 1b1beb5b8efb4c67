//! The reasons why an edit or a question is refused.
ghost use Rattle.std.specs.Prelude.{◌≡◌};
ghost use Rattle.chip_session.specs.Refusals.{is_for_memory, key_code, refusal_code, source_code};
ghost use Rattle.chip_session.specs.Transcript.{refused_code};
ghost use Rattle.chip_session.specs.declared.refusal.Refusal.TheVariants.{Source, Keys};

use crate::command::CommandFault;
use chip_replay::KeyFault;
use thiserror::Error;

/// The reason why an edit or a question was refused.
#[derive(Clone, Copy, Debug, PartialEq, Eq, Error)]
pub enum Refusal {
    /// N1 to N4, N10: the edit of a line was refused.
    #[error("{0}")]
    Source(chip_asm::Refusal),
    /// N5 to N9, N10: the edit of a key event was refused.
    #[error("{0}")]
    Keys(KeyFault),
    /// Q1: the source has no image, because a line has a fault.
    #[error("no image")]
    NoImage,
    /// Q2: the step is above `LAST_STEP`.
    #[error("past the last step")]
    StepPastLast,
    /// Q3: the requested bytes reach past the end of memory.
    #[error("past the end of the memory")]
    AddressPastEnd,
    /// Q4: memory ran out while the answer was built.
    #[error("out of memory")]
    AnswerMemory,
}

impl Refusal {
    /// The code that follows `no` in the answer.
    pub fn code(self) -> &'static [u8]
        ensures { result.now ≡ refusal_code self }
    {
        match self {
            Refusal::Source(why) => source_code(why),
            Refusal::Keys(why) => key_code(why),
            Refusal::NoImage => b"Q1",
            Refusal::StepPastLast => b"Q2",
            Refusal::AddressPastEnd => b"Q3",
            Refusal::AnswerMemory => b"Q4",
        }
    }

    /// Whether the refusal is due to a lack of memory.
    pub(crate) fn is_for_memory(self) -> bool
        ensures { result ≡ is_for_memory self }
    {
        matches!(
            self,
            Refusal::Source(chip_asm::Refusal::OutOfMemory)
                | Refusal::Keys(KeyFault::OutOfMemory)
                | Refusal::AnswerMemory
        )
    }
}

/// The code of a refused edit of a line.
fn source_code(why: chip_asm::Refusal) -> &'static [u8]
    ensures { result.now ≡ source_code why }
{
    match why {
        chip_asm::Refusal::NoSuchLine => b"N1",
        chip_asm::Refusal::TextTooLong => b"N2",
        chip_asm::Refusal::TooManyLines => b"N3",
        chip_asm::Refusal::LineBreak => b"N4",
        chip_asm::Refusal::OutOfMemory => b"N10",
    }
}

/// The code of a refused edit of a key event.
fn key_code(why: KeyFault) -> &'static [u8]
    ensures { result.now ≡ key_code why }
{
    match why {
        KeyFault::StepTooLarge => b"N5",
        KeyFault::NoSuchKey => b"N6",
        KeyFault::EventThere => b"N7",
        KeyFault::NoEvent => b"N8",
        KeyFault::TooManyEvents => b"N9",
        KeyFault::OutOfMemory => b"N10",
    }
}

/// The reason why a line of a script is refused.
#[derive(Clone, Copy, PartialEq, Eq)]
pub enum Refused {
    /// The line is not a command.
    Line(CommandFault),
    /// The edit or question on the line is refused.
    Command(Refusal),
}

impl Refused {
    /// The code that follows `no` in the answer.
    pub fn code(self) -> &'static [u8]
        ensures { result.now ≡ refused_code self }
    {
        match self {
            Refused::Line(fault) => fault.code(),
            Refused::Command(refusal) => refusal.code(),
        }
    }
}

impl From<chip_asm::Refusal> for Refusal {
    ghost from_gives = { λ why refusal. refusal ≡ Source why };

    fn from(why: chip_asm::Refusal) -> Refusal {
        Refusal::Source(why)
    }
}

impl From<KeyFault> for Refusal {
    ghost from_gives = { λ why refusal. refusal ≡ Keys why };

    fn from(why: KeyFault) -> Refusal {
        Refusal::Keys(why)
    }
}
