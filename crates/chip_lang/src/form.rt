//! The source forms of instructions.

ghost use Rattle.std.specs.Prelude.{◌≡◌, map, Option, ◌<◌, ◌≤◌, ◌+◌, ◌^◌, length};
ghost use Rattle.chip_lang.specs.Operand.{operand_of};
ghost use Rattle.chip_lang.specs.inner.NamedForms.{forms_of, first_fit};
ghost use Rattle.std.specs.List.{list_any};
ghost use Rattle.std.specs.Option.{option_copied};
ghost use Rattle.std.specs.Str.{bytes_eq};
ghost use Rattle.chip_lang.specs.Table.{Row, forms as all_forms};
ghost use Rattle.chip_lang.specs.Form.{row_of_form, option_row, is_special, matches, all_match, fits, find_form, form_of};

use crate::expr::Expr;
use crate::number::Reg;

/// The kind of operand that a form takes at one place: a register, with the digit of the word that
/// holds it; a word for a part of the machine; or a value, with its field.
#[derive(Clone, Copy, PartialEq, Eq)]
pub enum Pattern {
    /// A register, the second digit of the word.
    Vx,
    /// A register, the third digit of the word.
    Vy,
    /// `V0` and no other register.
    V0,
    /// `I`.
    Index,
    /// `DT`.
    DelayTimer,
    /// `ST`.
    SoundTimer,
    /// `K`.
    Key,
    /// `F`.
    SmallDigit,
    /// `HF`.
    BigDigit,
    /// `B`.
    Decimal,
    /// `R`.
    Flags,
    /// `[I]`.
    AtIndex,
    /// A value from 0 to 15, the last digit of the word.
    Nibble,
    /// A value from -128 to 255, the last byte of the word. A negative value is taken modulo 256.
    Byte,
    /// A value from 0 to 4095, the last three digits of the word.
    Address,
}

/// A word that names a part of the machine.
#[derive(Clone, Copy, PartialEq, Eq)]
pub enum Special {
    /// `I`.
    Index,
    /// `DT`.
    DelayTimer,
    /// `ST`.
    SoundTimer,
    /// `K`.
    Key,
    /// `F`.
    SmallDigit,
    /// `HF`.
    BigDigit,
    /// `B`.
    Decimal,
    /// `R`.
    Flags,
    /// `[I]`.
    AtIndex,
}

/// An operand.
#[derive(Drop)]
pub enum Operand {
    /// `V0` to `VF`.
    Register(Reg),
    /// A word for a part of the machine, or `[I]`.
    Special(Special),
    /// An expression.
    Value(Expr),
}

/// A form of an instruction: its name, the kinds of its operands, and its word without them.
#[derive(Clone, Copy)]
pub struct Form {
    /// The name of the instruction, in upper case.
    pub name: &'static str,
    /// The kinds of its operands, in order.
    pub patterns: &'static [Pattern],
    /// The word with zeros in the places of the operands.
    pub base: u16,
}

/// Builds a form from its name, the patterns of its operands, and its word without them.
macro_rules! form {
    ($name:literal, [$($pattern:ident),*], $base:literal) => {
        Form {
            name: $name,
            patterns: &[$(Pattern::$pattern),*],
            base: $base,
        }
    };
}

// The forms of each instruction, in the order of the table.

pub(crate) const SCD: &[Form] = &[form!("SCD", [Nibble], 0x00C0)];

pub(crate) const CLS: &[Form] = &[form!("CLS", [], 0x00E0)];

pub(crate) const RET: &[Form] = &[form!("RET", [], 0x00EE)];

pub(crate) const SCR: &[Form] = &[form!("SCR", [], 0x00FB)];

pub(crate) const SCL: &[Form] = &[form!("SCL", [], 0x00FC)];

pub(crate) const EXIT: &[Form] = &[form!("EXIT", [], 0x00FD)];

pub(crate) const LOW: &[Form] = &[form!("LOW", [], 0x00FE)];

pub(crate) const HIGH: &[Form] = &[form!("HIGH", [], 0x00FF)];

pub(crate) const JP: &[Form] = &[
    form!("JP", [Address], 0x1000),
    form!("JP", [V0, Address], 0xB000),
];

pub(crate) const CALL: &[Form] = &[form!("CALL", [Address], 0x2000)];

pub(crate) const SE: &[Form] = &[
    form!("SE", [Vx, Byte], 0x3000),
    form!("SE", [Vx, Vy], 0x5000),
];

pub(crate) const SNE: &[Form] = &[
    form!("SNE", [Vx, Byte], 0x4000),
    form!("SNE", [Vx, Vy], 0x9000),
];

pub(crate) const LD: &[Form] = &[
    form!("LD", [Vx, Byte], 0x6000),
    form!("LD", [Vx, Vy], 0x8000),
    form!("LD", [Index, Address], 0xA000),
    form!("LD", [Vx, DelayTimer], 0xF007),
    form!("LD", [Vx, Key], 0xF00A),
    form!("LD", [DelayTimer, Vx], 0xF015),
    form!("LD", [SoundTimer, Vx], 0xF018),
    form!("LD", [SmallDigit, Vx], 0xF029),
    form!("LD", [BigDigit, Vx], 0xF030),
    form!("LD", [Decimal, Vx], 0xF033),
    form!("LD", [AtIndex, Vx], 0xF055),
    form!("LD", [Vx, AtIndex], 0xF065),
    form!("LD", [Flags, Vx], 0xF075),
    form!("LD", [Vx, Flags], 0xF085),
];

pub(crate) const ADD: &[Form] = &[
    form!("ADD", [Vx, Byte], 0x7000),
    form!("ADD", [Vx, Vy], 0x8004),
    form!("ADD", [Index, Vx], 0xF01E),
];

pub(crate) const OR: &[Form] = &[form!("OR", [Vx, Vy], 0x8001)];

pub(crate) const AND: &[Form] = &[form!("AND", [Vx, Vy], 0x8002)];

pub(crate) const XOR: &[Form] = &[form!("XOR", [Vx, Vy], 0x8003)];

pub(crate) const SUB: &[Form] = &[form!("SUB", [Vx, Vy], 0x8005)];

pub(crate) const SHR: &[Form] = &[form!("SHR", [Vx], 0x8006), form!("SHR", [Vx, Vy], 0x8006)];

pub(crate) const SUBN: &[Form] = &[form!("SUBN", [Vx, Vy], 0x8007)];

pub(crate) const SHL: &[Form] = &[form!("SHL", [Vx], 0x800E), form!("SHL", [Vx, Vy], 0x800E)];

pub(crate) const RND: &[Form] = &[form!("RND", [Vx, Byte], 0xC000)];

pub(crate) const DRW: &[Form] = &[form!("DRW", [Vx, Vy, Nibble], 0xD000)];

pub(crate) const SKP: &[Form] = &[form!("SKP", [Vx], 0xE09E)];

pub(crate) const SKNP: &[Form] = &[form!("SKNP", [Vx], 0xE0A1)];

pub(crate) const SYS: &[Form] = &[form!("SYS", [Address], 0x0000)];

/// The form that the operands fit, given the forms of the instruction; none if they fit no form.
#[tactic(auto, using(crate::proofs::NamedForms::form_among))]
pub(crate) fn find_form<'a>(
    forms: &'a [Form],
    name: &[u8],
    operands: &[Operand],
) -> Option<&'a Form>
    requires forms { map row_of_form forms.now ≡ forms_of name.now }
    ensures { option_row (option_copied result) ≡ form_of name.now (map operand_of operands.now) }
{
    find_in(forms, operands)
}

/// The first of the forms that the operands fit; none if they fit no form.
fn find_in<'a>(forms: &'a [Form], operands: &[Operand]) -> Option<&'a Form>
    ensures { option_row (option_copied result)
        ≡ first_fit (map row_of_form forms.now) (map operand_of operands.now) }
{
    for form in forms {
        if all_match(form.patterns, operands) {
            return Some(form);
        }
    }
    None
}

fn all_match(patterns: &[Pattern], operands: &[Operand]) -> bool
    ensures { result ≡ all_match patterns.now (map operand_of operands.now) }
{
    let Some((pattern, patterns)) = patterns.split_first() else {
        return operands.is_empty();
    };
    let Some((operand, operands)) = operands.split_first() else {
        return false;
    };
    matches(*pattern, operand) && all_match(patterns, operands)
}

#[tactic(auto, unfolding(crate::specs::Form::matches))]
fn matches(pattern: Pattern, operand: &Operand) -> bool
    ensures { result ≡ matches pattern (operand_of operand.now) }
{
    match operand {
        Operand::Register(register) => match pattern {
            Pattern::Vx | Pattern::Vy => true,
            Pattern::V0 => register.number() == 0,
            _ => false,
        },
        Operand::Special(special) => is_special(*special, pattern),
        Operand::Value(_) => {
            matches!(pattern, Pattern::Nibble | Pattern::Byte | Pattern::Address)
        }
    }
}

#[tactic(auto, unfolding(crate::specs::Form::is_special))]
pub(crate) fn is_special(special: Special, pattern: Pattern) -> bool
    ensures { result ≡ is_special special pattern }
{
    matches!(
        (special, pattern),
        (Special::Index, Pattern::Index)
            | (Special::DelayTimer, Pattern::DelayTimer)
            | (Special::SoundTimer, Pattern::SoundTimer)
            | (Special::Key, Pattern::Key)
            | (Special::SmallDigit, Pattern::SmallDigit)
            | (Special::BigDigit, Pattern::BigDigit)
            | (Special::Decimal, Pattern::Decimal)
            | (Special::Flags, Pattern::Flags)
            | (Special::AtIndex, Pattern::AtIndex)
    )
}
