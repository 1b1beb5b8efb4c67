//! The faults of properties.

ghost use Rattle.std.specs.Prelude.{◌≡◌, ◌≤◌};
ghost use Rattle.chip_properties.specs.Faults.{number_of_property_fault, sentence_of_property_fault};

use chip_lang::Span;
use std::alloc::AllocError;

/// The reason why a line can't be read as a property.
#[derive(Clone, Copy, PartialEq, Eq)]
pub enum FaultCode {
    /// P1: the line states nothing.
    NothingStated,
    /// P2: a comparison or a place is missing where one is expected.
    NoComparison,
    /// P3: a name without a value.
    UndefinedName,
    /// P4: a value below 0, an address past the memory, or a pixel off the screen.
    OutOfRange,
    /// P5: a value that a property can't use.
    NotAsked,
    /// P6: too many comparisons, terms, properties, or open parentheses.
    TooMany,
}

impl FaultCode {
    /// Returns the number of the fault, 1 to 6.
    pub fn number(self) -> u32
        ensures value { result ≡ number_of_property_fault self }
        ensures bound { result ≤ 6 }
    {
        match self {
            FaultCode::NothingStated => 1,
            FaultCode::NoComparison => 2,
            FaultCode::UndefinedName => 3,
            FaultCode::OutOfRange => 4,
            FaultCode::NotAsked => 5,
            FaultCode::TooMany => 6,
        }
    }

    /// Returns the message of the fault, a sentence without a newline.
    #[tactic(auto, unfolding(crate::specs::Faults::sentence_of_property_fault))]
    pub fn sentence(self) -> &'static [u8]
        ensures { result.now ≡ sentence_of_property_fault self }
    {
        match self {
            FaultCode::NothingStated => {
                b"a property has always, never, ever or can, a condition or a place"
            }
            FaultCode::NoComparison => b"a comparison, a value or a place is expected",
            FaultCode::UndefinedName => b"undefined name",
            FaultCode::OutOfRange => b"a value out of range",
            FaultCode::NotAsked => b"this can't be asked",
            FaultCode::TooMany => b"too many comparisons, terms, properties or parentheses",
        }
    }
}

/// The reason why a line can't be read as a property, and the place of the fault.
#[derive(Drop)]
pub struct PropertyFault {
    /// The number of the line, counted from 1, or 0 for a text outside a source.
    pub line: usize,
    pub code: FaultCode,
    /// The range of the line's text at which the fault lies.
    pub span: Span,
    /// Advice on what to write, as one sentence without a newline, or an empty text.
    pub help: Vec<u8>,
}

/// A fault at the tokens of a property from index `first` up to, but not including, index `end`.
#[derive(Clone, Copy)]
pub(crate) struct Found {
    pub(crate) code: FaultCode,
    pub(crate) first: usize,
    pub(crate) end: usize,
}

impl Found {
    /// Returns a fault at the token with an index.
    pub(crate) fn at(code: FaultCode, index: usize) -> Found {
        Found {
            code,
            first: index,
            end: index.saturating_add(1),
        }
    }
}

/// The reason why tokens can't be read.
#[derive(Drop)]
pub(crate) enum Failure {
    OutOfMemory,
    /// The tokens don't form the expected part.
    Fault(Found),
}

impl From<AllocError> for Failure {
    ghost use Rattle.std.specs.Prelude.{◌≡◌};
    ghost use Rattle.chip_properties.specs.declared.fault.Failure.{Failure};

    ghost from_gives = { λ _ r. r ≡ Failure.OutOfMemory };

    fn from(_: AllocError) -> Self {
        Failure::OutOfMemory
    }
}
