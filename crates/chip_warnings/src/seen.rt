//! The parts of a line that matter to the lines around it.

ghost use Rattle.std.specs.Prelude.{◌≡◌, ◌<◌, ◌+◌, ◌==◌, ◌&&◌, if◌then◌else◌};
ghost use Rattle.chip_lang.specs.Line.{reading_of};
ghost use Rattle.chip_lang.specs.SeenLine.{seen_body, seen_line};
ghost use Rattle.chip_warnings.specs.Seen.{base_of, target_of, begins, first_word, is_code, is_data, is_draw, says_by_body, says_by_reading};
ghost use Rattle.chip_warnings.specs.Warned.{splits_from};
ghost use Rattle.chip_warnings.specs.declared.seen.Says.{Says};

use crate::instruction::draws;
use chip_asm::LineView;
use chip_lang::{Body, Line, decode};

/// The kind of a line's bytes.
#[derive(Clone, Copy)]
pub(crate) enum Says {
    /// The line has no bytes.
    Nothing,
    /// An instruction: `base` is the word of its form without operands, and `word` is the instruction's own word.
    Code { base: u16, word: u16 },
    /// DB with this number of values.
    Rows(usize),
    /// SYS, or a DW whose first word is a valid instruction.
    PerhapsCode,
    /// Other data.
    Data,
}

impl Says {
    /// Whether the bytes are an instruction.
    pub(crate) fn is_code(self) -> bool
        ensures { result ≡ is_code self }
    {
        matches!(self, Says::Code { .. })
    }

    /// The word of the instruction's form, or `None` if the bytes aren't an instruction.
    pub(crate) fn base(self) -> Option<u16>
        ensures { result ≡ base_of self }
    {
        match self {
            Says::Code { base, .. } => Some(base),
            _ => None,
        }
    }

    /// Whether the bytes are an instruction that draws a random byte.
    pub(crate) fn is_draw(self) -> bool
        ensures { result ≡ is_draw self }
    {
        match self {
            Says::Code { word, .. } => draws(word),
            _ => false,
        }
    }

    /// The address in the instruction's word, or 0 if the bytes aren't an instruction.
    pub(crate) fn target(self) -> usize
        ensures value { result ≡ target_of self }
        ensures bound { result < 4096 }
    {
        match self {
            Says::Code { word, .. } => usize::from(word % 4096),
            _ => 0,
        }
    }

    /// Whether the bytes are data.
    pub(crate) fn is_data(self) -> bool
        ensures { result ≡ is_data self }
    {
        matches!(self, Says::Rows(_) | Says::Data)
    }
}

/// The parts of a line that matter to the lines around it.
#[derive(Clone, Copy)]
pub(crate) struct Seen {
    /// The number of the line, counted from 1.
    pub(crate) number: usize,
    /// The address of the line. An inactive line has the address that it would have if it were active.
    pub(crate) address: usize,
    /// Whether the line is active and has a label or ORG.
    pub(crate) begins: bool,
    /// Whether the line defines a name that is never used.
    pub(crate) unused: bool,
    pub(crate) says: Says,
}

impl Seen {
    /// Whether the line's address is two bytes before the given one.
    pub(crate) fn is_two_before(&self, address: usize) -> bool
        ensures { result ≡ (self.now.address + 2 == address) }
    {
        address >= 2 && address - 2 == self.address
    }

    /// Whether this line and `below` are both DB with an odd number of values, and exactly one byte
    /// lies between them.
    pub(crate) fn splits(&self, below: &Seen) -> bool
        ensures { result ≡ splits_from self.now.says self.now.address below.now }
    {
        let (Says::Rows(above), Says::Rows(rows)) = (self.says, below.says) else {
            return false;
        };
        above % 2 == 1
            && rows % 2 == 1
            && below.address > above
            && below.address - above - 1 == self.address
    }
}

/// Whether a line is active and has a label or ORG.
pub(crate) fn begins(line: &LineView<'_>) -> bool
    ensures { result ≡ (line.now.active && begins (reading_of line.now.text)) }
{
    line.is_active() && is_begun_by(line.reading())
}

/// Whether a line has a label or ORG.
fn is_begun_by(line: &Line) -> bool
    ensures { result ≡ begins (seen_line line.now) }
{
    match line {
        Line::Bad(_) => false,
        Line::Read { label, body } => match body {
            Body::Org(_) => true,
            Body::Equ(_) | Body::Define => false,
            _ => label.is_some(),
        },
    }
}

/// Returns the kind of a line's bytes. An inactive line counts as a line without bytes.
pub(crate) fn says_of(line: &LineView<'_>) -> Says
    ensures { result ≡ (if line.now.active
        then says_by_reading (reading_of line.now.text) line.now.bytes
        else Says.Nothing) }
{
    if !line.is_active() {
        return Says::Nothing;
    }
    said(line.reading(), line.bytes())
}

/// Returns the kind of a line's bytes, given the parsed line.
fn said(line: &Line, bytes: &[u8]) -> Says
    ensures { result ≡ says_by_reading (seen_line line.now) bytes.now }
{
    match line {
        Line::Bad(_) => Says::Nothing,
        Line::Read { body, .. } if !bytes.is_empty() => said_by(body, first_word(bytes)),
        _ => Says::Nothing,
    }
}

/// Returns the kind of a statement's bytes, given the word that the bytes begin with.
fn said_by(body: &Body, word: u16) -> Says
    ensures { result ≡ says_by_body (seen_body body.now) word }
{
    match body {
        Body::Code(form, _) if form.base == 0 => Says::PerhapsCode,
        Body::Code(form, _) => Says::Code {
            base: form.base,
            word,
        },
        Body::Db(values) => Says::Rows(values.len()),
        Body::Dw(_) if decode(word).is_some() => Says::PerhapsCode,
        Body::Dw(_) | Body::Da(_) | Body::Ds(_) => Says::Data,
        _ => Says::Nothing,
    }
}

/// The word formed by the first two bytes, or 0 if there are fewer.
fn first_word(bytes: &[u8]) -> u16
    ensures { result ≡ first_word bytes.now }
{
    match bytes {
        [high, low, ..] => u16::from(*high) * 256 + u16::from(*low),
        _ => 0,
    }
}
