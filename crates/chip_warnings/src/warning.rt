//! Warnings: their kinds, and their places in a source.

ghost use Rattle.std.specs.Prelude.{◌≡◌, ◌≤◌};
ghost use Rattle.chip_warnings.specs.Warnings.{bit_of_warning, is_switched_off, letter_of_warning, number_of_warning};

use chip_lang::Span;
use chip_properties::FaultCode;

/// The kind of a warning: something in a source that its author may not mean.
#[derive(Clone, Copy)]
pub enum WarningCode {
    /// W1: ALIGN ON puts a zero byte between two rows of data.
    SplitRows,
    /// W2: a name that no line uses.
    UnusedName,
    /// W3: an instruction that nothing reaches.
    Unreachable,
    /// W4: execution runs from an instruction into data.
    FallsIntoData,
    /// W5: CALL or JP to data.
    JumpsToData,
    /// W6: an instruction at an odd address.
    OddAddress,
    /// W7: an instruction that the profile doesn't have.
    NotInProfile,
    /// W8: an instruction that no key script executes.
    NeverExecuted,
    /// W9: RND, although no tape of random bytes is given.
    AlwaysZero,
    /// P1 to P6: a property that can't be read.
    Property(FaultCode),
}

impl WarningCode {
    /// The letter before the number: P for a property that can't be read, and W for all others.
    pub fn letter(self) -> char
        ensures { result ≡ letter_of_warning self }
    {
        match self {
            WarningCode::Property(_) => 'P',
            _ => 'W',
        }
    }

    /// The number after the letter: 1 to 9 for W, and 1 to 6 for P.
    pub fn number(self) -> u32
        ensures value { result ≡ number_of_warning self }
        ensures bound { result ≤ 9 }
    {
        match self {
            WarningCode::SplitRows => 1,
            WarningCode::UnusedName => 2,
            WarningCode::Unreachable => 3,
            WarningCode::FallsIntoData => 4,
            WarningCode::JumpsToData => 5,
            WarningCode::OddAddress => 6,
            WarningCode::NotInProfile => 7,
            WarningCode::NeverExecuted => 8,
            WarningCode::AlwaysZero => 9,
            WarningCode::Property(code) => code.number(),
        }
    }

    /// The index of the warning's bit in a set of warnings: k for Wk, and 9 + k for Pk.
    fn bit(self) -> u32
        ensures value { result ≡ bit_of_warning self }
        ensures bound { result ≤ 15 }
    {
        match self {
            WarningCode::Property(code) => 9 + code.number(),
            _ => self.number(),
        }
    }

    /// Whether the warning's bit is set in `allowed`, the set of warnings that are switched off.
    pub(crate) fn is_switched_off(self, allowed: u16) -> bool
        ensures { result ≡ is_switched_off allowed self }
    {
        allowed >> self.bit() & 1 == 1
    }
}

/// The kinds W1 to W9, in the order of their numbers.
pub(crate) const CODES: &[WarningCode] = &[
    WarningCode::SplitRows,
    WarningCode::UnusedName,
    WarningCode::Unreachable,
    WarningCode::FallsIntoData,
    WarningCode::JumpsToData,
    WarningCode::OddAddress,
    WarningCode::NotInProfile,
    WarningCode::NeverExecuted,
    WarningCode::AlwaysZero,
];

/// A warning and its place in a source.
#[derive(Drop)]
pub struct Warning {
    /// The number of the line, counted from 1.
    pub line: usize,
    /// The bytes of the line that the warning points at.
    pub span: Span,
    /// The kind of the warning.
    pub code: WarningCode,
    /// The message: one sentence without a newline.
    pub sentence: Vec<u8>,
    /// Advice on what to write instead; empty if there is none.
    pub help: Vec<u8>,
}
