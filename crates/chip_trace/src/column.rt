//! The columns of a trace.

ghost use Rattle.std.specs.Prelude.{◌≡◌, IsTrue, Some};
ghost use Rattle.std.specs.List.{slice_get};
ghost use Rattle.chip_trace.specs.Columns.{column_name};
ghost use Rattle.chip_trace.specs.Header.{is_named};
ghost use Rattle.chip_trace.specs.inner.Usual.{first_columns};

use chip_lang::Reg;

/// A column of a trace, which shows a part of the state before a step.
#[derive(Clone, Copy, PartialEq, Eq)]
pub enum Column {
    /// The number of the step, in decimal.
    Step,
    /// The address of the next instruction, in four hexadecimal digits.
    Pc,
    /// The word at that address, in four hexadecimal digits.
    Word,
    /// A register, in two hexadecimal digits.
    Register(Reg),
    /// The register I, in four hexadecimal digits.
    Index,
    /// The delay timer, in two hexadecimal digits.
    Delay,
    /// The sound timer, in two hexadecimal digits.
    Sound,
    /// The number of open calls, in decimal.
    Depth,
    /// The number of random bytes that the machine has used, in decimal.
    Draws,
    /// The FNV-1a sum of the screen's pixels, in sixteen hexadecimal digits.
    Screen,
    /// The FNV-1a sum of the memory's bytes, in sixteen hexadecimal digits.
    Memory,
    /// The source text of the word, or, in the last line, why the machine stopped.
    Text,
}

/// The names of the registers' columns, one after the other.
const REGISTER_NAMES: [u8; 32] = *b"v0v1v2v3v4v5v6v7v8v9vavbvcvdvevf";

impl Column {
    /// The name of the column.
    pub fn name(self) -> &'static [u8]
        ensures { result.now ≡ column_name self }
    {
        match self {
            Column::Step => b"step",
            Column::Pc => b"pc",
            Column::Word => b"word",
            Column::Register(register) => {
                let start = 2 * usize::from(register.number());
                &REGISTER_NAMES[start..start + 2]
            }
            Column::Index => b"i",
            Column::Delay => b"dt",
            Column::Sound => b"st",
            Column::Depth => b"depth",
            Column::Draws => b"draws",
            Column::Screen => b"screen",
            Column::Memory => b"memory",
            Column::Text => b"text",
        }
    }

    /// Whether the column has this name, ignoring the case of letters.
    pub(crate) fn is_named(self, name: &[u8]) -> bool
        ensures { result ≡ is_named name.now self }
    {
        name.eq_ignore_ascii_case(self.name())
    }

    /// Whether a usual trace has this column at this index (from 0) among its first columns.
    #[tactic(auto, using(crate::proofs::Usual::usual_register), unfolding(crate::specs::inner::Usual::first_columns))]
    pub(crate) fn is_usual_at(self, place: usize) -> bool
        ensures { IsTrue result → slice_get first_columns place ≡ Some self }
    {
        match self {
            Column::Step => place == 0,
            Column::Pc => place == 1,
            Column::Word => place == 2,
            Column::Register(register) => place == 3 + usize::from(register.number()),
            Column::Index => place == 19,
            Column::Delay => place == 20,
            Column::Sound => place == 21,
            Column::Depth => place == 22,
            Column::Draws => place == 23,
            Column::Screen | Column::Memory | Column::Text => false,
        }
    }
}
