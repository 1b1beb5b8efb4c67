//! The reasons why an edit is refused or a source doesn't open.
ghost use Rattle.std.specs.Prelude.{◌≡◌};

use std::alloc::AllocError;
use thiserror::Error;

/// The reason why an edit is refused.
#[derive(Clone, Copy, Debug, PartialEq, Eq, Error)]
pub enum Refusal {
    /// N1: no line has this number.
    #[error("no such line")]
    NoSuchLine,
    /// N2: the text has more than `LINE_BYTES` bytes.
    #[error("text too long")]
    TextTooLong,
    /// N3: there are already `MOST_LINES` lines.
    #[error("too many lines")]
    TooManyLines,
    /// N4: the text contains a carriage return or a newline.
    #[error("line break in the text")]
    LineBreak,
    /// N10: out of memory.
    #[error("out of memory")]
    OutOfMemory,
}

/// The reason why a source doesn't open.
#[derive(Clone, Copy, Debug, PartialEq, Eq, Error)]
pub enum OpenError {
    /// O1: the line with this number, counted from 1, has more than `LINE_BYTES` bytes.
    #[error("line {0} is too long")]
    LineTooLong(usize),
    /// O2: there are more than `MOST_LINES` lines.
    #[error("too many lines")]
    TooManyLines,
    /// O3: out of memory.
    #[error("out of memory")]
    OutOfMemory,
}

impl From<AllocError> for Refusal {
    ghost use Rattle.std.specs.Prelude.{◌≡◌};
    ghost use Rattle.chip_asm.specs.declared.refusal.Refusal.{Refusal};

    ghost from_gives = { λ _ r. r ≡ Refusal.OutOfMemory };

    fn from(_: AllocError) -> Self {
        Refusal::OutOfMemory
    }
}

impl From<AllocError> for OpenError {
    ghost use Rattle.std.specs.Prelude.{◌≡◌};
    ghost use Rattle.chip_asm.specs.declared.refusal.OpenError.{OpenError};

    ghost from_gives = { λ _ r. r ≡ OpenError.OutOfMemory };

    fn from(_: AllocError) -> Self {
        OpenError::OutOfMemory
    }
}

mod checks;

pub(crate) use checks::{delete_refusal, insert_refusal, replace_refusal};
