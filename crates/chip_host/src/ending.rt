//! The endings of commands, and the reasons why commands fail.
ghost use Rattle.std.specs.Prelude.{◌≡◌};
ghost use Rattle.clap.specs.Words.{kind_of};
ghost use Rattle.chip_host.specs.Endings.{ending_status, failure_status, settings_failure, arguments_failure};

use crate::limits::EVENT_BYTES;
use chip_cases::CaseFault;
use chip_machine::limits::TAPE_BYTES;
use chip_replay::{KEYS, LAST_STEP, LEAST_SPACING, MOST_EVENTS, MOST_RATE, MOST_SPACING};
use chip_session::SetError;
use chip_trace::HeaderError;
use clap::error::ErrorKind;
use std::alloc::AllocError;
use std::{fmt, io, str};
use thiserror::Error;

/// The ending of a command that doesn't fail.
#[derive(Clone, Copy)]
pub enum Ending {
    Done,
    /// The command printed the faults of the source, or the reason why the source doesn't open.
    Faulty,
    /// Memory ran out, and the command printed its findings until then.
    Short,
}

/// The code of the reason why a line of a key file is rejected. `Display` states what was expected of the line.
#[derive(Clone, Copy, Debug)]
pub struct Code(pub &'static [u8]);

impl fmt::Display for Code {
    fn fmt<W: fmt::Write>(&self, f: &mut fmt::Formatter<W>) -> fmt::Result {
        let last_key = KEYS - 1;
        let with_letter = EVENT_BYTES - 1;
        match self.0 {
            [b'C', b'2'] => write!(
                f,
                "the line is too long; expected at most {EVENT_BYTES} bytes before a comment, \
                 {with_letter} where KEY is a letter"
            ),
            [b'N', b'5'] => write!(f, "STEP is too large; expected at most {LAST_STEP}"),
            [b'N', b'6'] => write!(
                f,
                "there is no such KEY; expected 0 to {last_key}, or A to F"
            ),
            [b'N', b'7'] => f.write_str(
                "an earlier line already has an event of that STEP and KEY",
            ),
            [b'N', b'9'] => write!(f, "there are over {MOST_EVENTS} events"),
            _ => write!(
                f,
                "expected STEP KEY down or STEP KEY up, as in `10 4 down` (KEY is 0 to {last_key}, or A to F); \
                 a comment begins with `;`"
            ),
        }
    }
}

/// The text of an argument or of a file's name, as messages show it. Control bytes other than the tab are shown as
/// `\x` and two digits, because a terminal might interpret them as a command.
#[derive(Clone, Copy, Debug)]
pub struct Shown<'a>(pub &'a str);

impl<'a> fmt::Display for Shown<'a> {
    fn fmt<W: fmt::Write>(&self, f: &mut fmt::Formatter<W>) -> fmt::Result {
        for character in self.0.chars() {
            if character.is_ascii_control() && character != '\t' {
                write!(f, "\\x{:02x}", character as u32)?;
            } else {
                write!(f, "{character}")?;
            }
        }
        Ok(())
    }
}

/// The reason why a text doesn't state a property.
#[derive(Debug, Drop)]
pub struct Report(pub Vec<u8>);

impl fmt::Display for Report {
    fn fmt<W: fmt::Write>(&self, f: &mut fmt::Formatter<W>) -> fmt::Result {
        f.write_str(str::from_utf8(&self.0).unwrap_or("?"))
    }
}

/// The reason why a line of a file of cases is rejected.
#[derive(Clone, Copy, Debug, Error)]
pub enum TestFault {
    #[error("{0}")]
    Line(CaseFault),
    #[error("this is not text in UTF-8")]
    NotText,
    #[error("expected a number, as in `rate 10`, `every 1000` or `seed 5`: rate is 1 to {MOST_RATE}, and every {LEAST_SPACING} to {MOST_SPACING}")]
    Number,
    #[error("there is no such profile; `chipbench run --help` lists them")]
    Profile,
    #[error("expected quirks separated by commas, each at most once; `chipbench run --help` lists them")]
    Quirks,
    #[error("a tape has 1 to 4096 bytes in hexadecimal, and goes without a seed")]
    Tape,
}

/// The reason why a tape is rejected.
#[derive(Clone, Copy, Debug, Error)]
pub enum TapeFault {
    #[error("expected hexadecimal digits without 0x or #, as in --tape 2a07")]
    NotHexadecimal,
    #[error("expected two hexadecimal digits for each byte, without 0x or #, as in --tape 2a07")]
    OddDigits,
    #[error("expected 1 to {most} bytes, as in --tape 2a07", most = TAPE_BYTES)]
    Length,
    #[error("--tape and --seed exclude each other: give one of them")]
    WithSeed,
}

/// The reason why a command fails. The text of the failure goes to standard error.
#[derive(Debug, Drop, Error)]
pub enum Failure<'a> {
    #[error("{0}")]
    Usage(clap::Error),
    #[error("chipbench: bad tape\n")]
    BadTape(TapeFault),
    /// The text isn't a list of stop causes.
    #[error("chipbench: --want takes S1 to S7 separated by commas, not {text}\n", text = Shown(.0))]
    BadCauses(&'a str),
    /// The text isn't a list of keys.
    #[error("chipbench: --keys-allowed takes 0 to 15, or A to F for 10 to 15, separated by commas, not {text}\n", text = Shown(.0))]
    BadPlayerKeys(&'a str),
    /// The text isn't a list of warnings.
    #[error("chipbench: --allow takes W1 to W9 and P1 to P6 separated by commas, not {text}\n", text = Shown(.0))]
    BadWarnings(&'a str),
    /// The source contains no such place.
    #[error("chipbench: --reach takes a label of the source, or an address in quotes such as '#2A0', not {text}\n", text = Shown(.0))]
    BadPlace(&'a str),
    /// The text doesn't state a property.
    #[error("{0}")]
    BadProperty(Report),
    /// The line with this number doesn't state a property.
    #[error("chipbench: no property in line {0}\n")]
    NoProperty(u32),
    /// The line with this number of a key file is rejected.
    #[error("chipbench: {name}:{1}: {2}\n", name = Shown(.0))]
    BadKeys(&'a str, usize, Code),
    /// The first line of a trace doesn't name columns.
    #[error("chipbench: {name} is not a trace: {1}\n", name = Shown(.0))]
    BadTrace(&'a str, HeaderError),
    /// The line with this number of a file of cases is rejected.
    #[error("chipbench: {name}:{1}: {2}\n", name = Shown(.0))]
    BadTest(&'a str, usize, TestFault),
    /// The file that the line with this number names can't be read.
    #[error("chipbench: {name}:{1}: cannot read the file that this line names, from the folder of {place}\nreason: {2}\n", name = Shown(.0), place = Shown(.0))]
    UnreadInTest(&'a str, usize, io::Error),
    #[error("chipbench: no page on {code}; `chipbench explain` lists the codes, and docs/MACHINE.md the instructions\n", code = Shown(.0))]
    NoPage(&'a str),
    #[error("chipbench: cannot read {name}\nreason: {1}\n", name = Shown(.0))]
    CannotRead(&'a str, io::Error),
    /// The file contains more than this many bytes.
    #[error("chipbench: cannot read {name}\nreason: it has over {1} bytes\n", name = Shown(.0))]
    TooLong(&'a str, u32),
    #[error("chipbench: cannot write {name}\nreason: {1}\n", name = Shown(.0))]
    CannotWrite(&'a str, io::Error),
    #[error("chipbench: input fault\n")]
    Input,
    #[error("chipbench: output fault\n")]
    Output,
    #[error("chipbench: too much input\n")]
    TooMuchInput,
    #[error("chipbench: out of memory\n")]
    OutOfMemory,
}

impl Ending {
    pub fn status(self) -> u8
        ensures { result ≡ ending_status self }
    {
        match self {
            Ending::Done => 0,
            Ending::Faulty => 1,
            Ending::Short => 4,
        }
    }
}

impl<'a> Failure<'a> {
    pub fn status(&self) -> u8
        ensures { result ≡ failure_status self.now }
    {
        match self {
            Failure::Usage(_)
            | Failure::BadTape(_)
            | Failure::BadCauses(_)
            | Failure::BadPlayerKeys(_)
            | Failure::BadWarnings(_)
            | Failure::BadPlace(_)
            | Failure::BadProperty(_)
            | Failure::NoProperty(_)
            | Failure::BadKeys(_, _, _)
            | Failure::BadTrace(_, _)
            | Failure::NoPage(_) => 2,
            Failure::CannotRead(_, _)
            | Failure::TooLong(_, _)
            | Failure::CannotWrite(_, _)
            | Failure::BadTest(_, _, _)
            | Failure::UnreadInTest(_, _, _)
            | Failure::Input
            | Failure::Output
            | Failure::TooMuchInput => 3,
            Failure::OutOfMemory => 4,
        }
    }
}

impl<'a> From<AllocError> for Failure<'a> {
    ghost use Rattle.chip_host.specs.declared.ending.Failure.TheVariants.{OutOfMemory};

    ghost from_gives = { λ _ failure. failure ≡ OutOfMemory };

    fn from(_error: AllocError) -> Failure<'a> {
        Failure::OutOfMemory
    }
}

// Numbers on the command line are in their ranges, so only the tape can be bad.
impl<'a> From<SetError> for Failure<'a> {
    ghost from_gives = { λ error failure. failure ≡ settings_failure error };

    fn from(error: SetError) -> Failure<'a> {
        match error {
            SetError::OutOfMemory => Failure::OutOfMemory,
            SetError::RateOutOfRange | SetError::TapeLength | SetError::SpacingOutOfRange => {
                Failure::BadTape(TapeFault::Length)
            }
        }
    }
}

impl<'a> From<clap::Error> for Failure<'a> {
    ghost from_gives = { λ error failure. failure ≡ arguments_failure (kind_of error) error };

    fn from(error: clap::Error) -> Failure<'a> {
        match error.kind() {
            ErrorKind::OutOfMemory => Failure::OutOfMemory,
            _ => Failure::Usage(error),
        }
    }
}
