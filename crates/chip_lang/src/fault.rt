//! The faults of a line.

ghost use Rattle.std.specs.Prelude.{◌≡◌};
ghost use Rattle.chip_lang.specs.FaultNumber.{number_of_fault};

use crate::limits::{MEMORY_BYTES, NAME_BYTES, OPEN_PARENTHESES};
use thiserror::Error;

/// A fault: what is wrong with a line.
#[derive(Clone, Copy, Debug, PartialEq, Eq, Error)]
pub enum Fault {
    /// F1: a byte that no token begins with, or digits that are not a number.
    #[error("bad character")]
    BadCharacter,
    /// F2: a text without its second quote.
    #[error("unfinished string")]
    UnfinishedString,
    /// F3: a statement begins with a word that is neither an instruction nor a directive.
    #[error("unknown word")]
    UnknownWord,
    /// F4: the operands don't fit, or the statement has no word.
    #[error("operands don't fit")]
    WrongOperands,
    /// F5: a number above 2147483647.
    #[error("number above 2147483647")]
    NumberTooLarge,
    /// F6: more than `OPEN_PARENTHESES` parentheses are open.
    #[error("parentheses deeper than {most}", most = OPEN_PARENTHESES)]
    TooDeep,
    /// F7: the line defines a reserved word, or a name over `NAME_BYTES` bytes.
    #[error("name reserved or over {most} bytes", most = NAME_BYTES)]
    BadName,
    /// F8: an earlier line defines the name.
    #[error("name defined on an earlier line")]
    DefinedTwice,
    /// F9: a name without a value.
    #[error("undefined name")]
    UndefinedName,
    /// F10: a value that doesn't fit its field.
    #[error("value out of range")]
    OutOfRange,
    /// F11: a zero divisor.
    #[error("division by zero")]
    DivisionByZero,
    /// F12: a result that doesn't fit in 32 bits with a sign, or a shift outside 0 to 31.
    #[error("overflow, or a shift outside 0 to 31")]
    Overflow,
    /// F13: ORG below the address of its line.
    #[error("ORG below the line's address")]
    OrgBelowHere,
    /// F14: the line would end past the end of the memory, which has `MEMORY_BYTES` bytes.
    #[error("past address {end}", end = MEMORY_BYTES)]
    PastMemory,
    /// F15: ELSE or ENDIF without IF, or a second ELSE.
    #[error("stray ELSE or ENDIF")]
    StrayBranch,
    /// F16: IF without ENDIF.
    #[error("IF without ENDIF")]
    UnclosedIf,
    /// F17: a directive, or a word of OPTION, that this assembler doesn't have.
    #[error("not in this profile")]
    NotInProfile,
}

impl Fault {
    /// The number of a fault in listings: 1 to 17.
    pub fn number(self) -> u8
        ensures { result ≡ number_of_fault self }
    {
        match self {
            Fault::BadCharacter => 1,
            Fault::UnfinishedString => 2,
            Fault::UnknownWord => 3,
            Fault::WrongOperands => 4,
            Fault::NumberTooLarge => 5,
            Fault::TooDeep => 6,
            Fault::BadName => 7,
            Fault::DefinedTwice => 8,
            Fault::UndefinedName => 9,
            Fault::OutOfRange => 10,
            Fault::DivisionByZero => 11,
            Fault::Overflow => 12,
            Fault::OrgBelowHere => 13,
            Fault::PastMemory => 14,
            Fault::StrayBranch => 15,
            Fault::UnclosedIf => 16,
            Fault::NotInProfile => 17,
        }
    }
}
