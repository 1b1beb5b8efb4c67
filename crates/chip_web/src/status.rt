//! The numbers that the exports return as their status.
ghost use Rattle.std.specs.Prelude.{◌≡◌, ◌≢◌};
ghost use Rattle.chip_web.specs.Opening.{settings_status, source_status};
ghost use Rattle.chip_web.specs.inner.Bounds.{IsNumbered};

use chip_session::{OpenError, SetError};

/// The session is open, or the line is answered.
pub const DONE: u32 = 0;

/// Memory ran out.
pub const NO_MEMORY: u32 = 1;

/// There is no session.
pub const NO_SESSION: u32 = 2;

/// The rate is out of range.
pub const RATE_OUT_OF_RANGE: u32 = 3;

/// The tape is too short or too long.
pub const TAPE_LENGTH: u32 = 4;

/// The spacing of checkpoints is out of range.
pub const SPACING_OUT_OF_RANGE: u32 = 5;

/// No profile has this number.
pub const UNKNOWN_PROFILE: u32 = 6;

/// The source has too many lines.
pub const TOO_MANY_LINES: u32 = 7;

/// The list of quirks can't be read, or names a quirk twice.
pub const UNKNOWN_QUIRKS: u32 = 8;

/// A line of the source is too long. The number of the line, counted from 1, is added to this number.
pub const LINE_TOO_LONG: u32 = 1000;

/// The numbers that the definitions cite by name.
pub fn numbers()
    ensures done { DONE ≡ 0 }
    ensures no_memory { NO_MEMORY ≡ 1 }
    ensures no_session { NO_SESSION ≡ 2 }
    ensures rate { RATE_OUT_OF_RANGE ≡ 3 }
    ensures tape { TAPE_LENGTH ≡ 4 }
    ensures spacing { SPACING_OUT_OF_RANGE ≡ 5 }
    ensures profile { UNKNOWN_PROFILE ≡ 6 }
    ensures lines { TOO_MANY_LINES ≡ 7 }
    ensures quirks { UNKNOWN_QUIRKS ≡ 8 }
    ensures line { LINE_TOO_LONG ≡ 1000 }
{}

/// Returns the number for a fault of settings.
pub fn of_settings(error: SetError) -> u32
    ensures status { result ≡ settings_status error }
    ensures fault { result ≢ DONE }
{
    match error {
        SetError::RateOutOfRange => RATE_OUT_OF_RANGE,
        SetError::TapeLength => TAPE_LENGTH,
        SetError::OutOfMemory => NO_MEMORY,
        SetError::SpacingOutOfRange => SPACING_OUT_OF_RANGE,
    }
}

/// Returns the number for the reason why a source doesn't open.
pub fn of_source(error: OpenError) -> u32
    requires { IsNumbered error }
    ensures status { result ≡ source_status error }
    ensures fault { result ≢ DONE }
{
    match error {
        OpenError::LineTooLong(line) => LINE_TOO_LONG + line as u32,
        OpenError::TooManyLines => TOO_MANY_LINES,
        OpenError::OutOfMemory => NO_MEMORY,
    }
}
