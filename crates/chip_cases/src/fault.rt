//! The faults of a file of cases.

ghost use Rattle.std.specs.Prelude.{◌≡◌};
ghost use Rattle.chip_cases.specs.declared.fault.FileFault.TheVariants.{OutOfMemory};

use std::alloc::AllocError;
use thiserror::Error;

/// Why a line of a file of cases can't be read.
#[derive(Clone, Copy, Debug, Error)]
pub enum CaseFault {
    /// A line before the first command of a case doesn't have a known form, such as that of a setting.
    #[error("expected a setting, as in `rate 10`, or a command, as in `> image` (a comment begins with `#`)")]
    UnknownLine,
    /// No line `end` follows a line `source`.
    #[error("no `end` follows")]
    NoEnd,
    /// A `case` line contains no name.
    #[error("a case without a name")]
    NoName,
    /// Commands come before the first `case` line.
    #[error("commands stand before the first case")]
    EarlyCommands,
    /// The file contains no command and no `case` line.
    #[error("there is no case")]
    NoCase,
    /// The expected answer to a command with the mark `>` is a refusal.
    #[error("a refusal is expected of this command: begin it with `!`")]
    Refusal,
    /// The expected answer to a command with the mark `!` isn't a refusal.
    #[error("no refusal is expected of this command: begin it with `>`")]
    NoRefusal,
}

/// Why the cases of a file can't be read.
#[derive(Clone, Copy)]
pub enum FileFault {
    /// A fault of the line with this number, counted from 1.
    Line(usize, CaseFault),
    OutOfMemory,
}

impl From<AllocError> for FileFault {
    ghost from_gives = { λ _ e. e ≡ OutOfMemory };

    fn from(_error: AllocError) -> FileFault {
        FileFault::OutOfMemory
    }
}
