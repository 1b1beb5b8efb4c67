//! Notes about properties, places and lines, and the texts of these notes.

use crate::ranges::Fixed;
use chip_host::Shown;
use std::io::{self, Write};

/// Writes a note about a line of a source, or about the whole source if the number is 0.
pub(crate) fn write_note<E: Write>(
    errors: &mut E,
    name: &str,
    line: usize,
    note: Note<'_>,
) -> io::Result<()> {
    match line {
        0 => write!(errors, "chipbench: {}: ", Shown(name))?,
        _ => write!(errors, "chipbench: {}:{line}: ", Shown(name))?,
    }
    note.write(errors)
}

/// The reason why a property, a place or a line has less effect than its author may expect.
#[derive(Clone, Copy)]
pub(crate) enum Note<'n> {
    /// No line begins at `address`. The nearest line has this number and begins at `begin`.
    NoLineAt {
        address: u16,
        number: usize,
        begin: usize,
    },
    /// No word of the image begins at `address`. The addresses of its words are `first` to `last`.
    NoWordAt {
        address: u16,
        first: usize,
        last: usize,
    },
    /// An address was written in decimal, with these digits.
    Decimal(&'n str),
    /// A comparison contains only numbers, and one of them is the value of this label.
    Label {
        label: &'n str,
        value: i32,
    },
    /// A comparison contains only numbers.
    Constant,
    /// A comparison has the same answer in every state.
    Fixed(Fixed),
    /// This word has a meaning in properties, and is also a name in the source.
    Word(&'n str),
    /// `;!` follows a statement or a label.
    Hidden,
    /// Lines that are neither empty nor comments follow END.
    BehindEnd,
    /// Lines that state properties follow END.
    PropertiesBehindEnd,
}

impl<'n> Note<'n> {
    /// Writes the text of the note and a newline.
    pub(crate) fn write<E: Write>(self, errors: &mut E) -> io::Result<()> {
        match self {
            Note::NoLineAt {
                address,
                number,
                begin,
            } => writeln!(
                errors,
                "{address} is an address, not a line number, and no line begins there; the nearest, line {number}, begins at {begin}"
            ),
            Note::NoWordAt {
                address,
                first,
                last,
            } => writeln!(
                errors,
                "no word of the image begins at address {address} (#{address:X}); the addresses of its words are #{first:X} to #{last:X}"
            ),
            Note::Decimal(digits) => writeln!(
                errors,
                "write an address in hexadecimal with a #, as in #{digits}"
            ),
            other => other.write_on_line(errors),
        }
    }

    /// Writes the text of a note about a comparison or a line.
    fn write_on_line<E: Write>(self, errors: &mut E) -> io::Result<()> {
        match self {
            Note::Label { label, value } => writeln!(
                errors,
                "a comparison has only constants: {label} is the address {value}; write [{label}] for the byte there"
            ),
            Note::Fixed(fixed) => {
                let (low, high) = fixed.sides();
                let Fixed { most, least, .. } = fixed;
                writeln!(
                    errors,
                    "a comparison always has the same answer: its {low} side is at most {most}, and its {high} side is at least {least}"
                )
            }
            Note::Word(word) => writeln!(
                errors,
                "{word} is a word of properties here; write ({word}) for the name of the source, and [{word}] for the byte there"
            ),
            other => writeln!(errors, "{}", other.sentence()),
        }
    }

    /// Returns the text of a note that contains neither a name nor a number.
    fn sentence(self) -> &'static str {
        match self {
            Note::Constant => "a comparison has only constants, so no step changes its answer",
            Note::BehindEnd => "END ends the source here, so the lines below it are ignored",
            Note::PropertiesBehindEnd => {
                "END ends the source here, so the lines below it are ignored; `;!` lines there state nothing"
            }
            Note::Hidden => {
                "`;!` behind a statement or a label states nothing; put it on a line of its own"
            }
            _ => "",
        }
    }
}
