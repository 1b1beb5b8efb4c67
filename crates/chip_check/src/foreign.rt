//! Recognizes a source that was written for Octo or another assembler.

use crate::missing::missing_word;
use crate::other_assemblers::{is_other_number, other_word};
use crate::words::{Word, has_twice, is_one_of, statement_of};

/// The number of lines that must look foreign before a note is printed.
const ENOUGH: usize = 3;

/// The note about a source that was written for Octo.
const OCTO: &str =
    "this looks like a source of Octo; docs/LANGUAGE.md, \"You know Octo\", lists what is written differently here";

/// The note about a source that was written for another assembler.
const ANOTHER: &str =
    "this looks like a source of another assembler; docs/LANGUAGE.md, \"You know another assembler\", lists what is written differently here";

/// Words that often begin a line in Octo, but seldom in other assemblers.
const OCTO_WORDS: &[&str] = &[
    ":",
    "#",
    "LOOP",
    "AGAIN",
    "WHILE",
    "SPRITE",
    "BCD",
    "SAVE",
    "JUMP0",
    "HIRES",
    "LORES",
    "SAVEFLAGS",
    "LOADFLAGS",
    "SCROLL",
    "BUZZER",
];

/// The number of faulty lines that look like Octo, and the number of those that look like another assembler.
#[derive(Clone, Copy)]
pub(crate) struct Tally {
    /// The number of the first line with a fault; 0 if no line has been counted yet.
    first_line: usize,
    octo: usize,
    others: usize,
}

impl Tally {
    /// The tally before any line is counted.
    pub(crate) fn new() -> Tally {
        Tally {
            first_line: 0,
            octo: 0,
            others: 0,
        }
    }

    /// Counts the faulty line with this number.
    pub(crate) fn add(&mut self, number: usize, words: &[Word<'_>]) {
        if self.first_line == 0 {
            self.first_line = number;
        }
        if is_of_octo(words) {
            self.octo = self.octo.saturating_add(1);
        }
        if is_of_another(words) {
            self.others = self.others.saturating_add(1);
        }
    }

    /// The note about the whole source, which is printed below its first fault. Returns nothing if
    /// the first fault is on another line than `number`, or if too few lines look foreign.
    pub(crate) fn note_on(self, number: usize) -> Option<&'static str> {
        if number != self.first_line {
            None
        } else if self.octo >= ENOUGH && self.octo >= self.others {
            Some(OCTO)
        } else if self.others >= ENOUGH {
            Some(ANOTHER)
        } else {
            None
        }
    }
}

/// Whether a line of these words looks like Octo.
fn is_of_octo(words: &[Word<'_>]) -> bool {
    let begins_so = match words.first() {
        Some(first) => is_one_of(first.text, OCTO_WORDS) || first.text.starts_with(b"0X"),
        None => false,
    };
    begins_so
        || words
            .iter()
            .any(|word| is_one_of(word.text, &["THEN", "BEGIN"]))
        || words.windows(2).any(|pair| is_assignment(pair))
}

/// Whether two words are an assignment operator of Octo, such as `:=` or `+=`.
fn is_assignment(pair: &[Word<'_>]) -> bool {
    match pair {
        [operator, equals] => {
            is_one_of(operator.text, &[":", "+", "-", "|", "&", "^"])
                && is_one_of(equals.text, &["="])
        }
        _ => false,
    }
}

/// Whether a line of these words looks like another assembler.
fn is_of_another(words: &[Word<'_>]) -> bool {
    let begins_so = match statement_of(words).first() {
        Some(first) => {
            is_one_of(first.text, &["."])
                || other_word(first.text).is_some()
                || missing_word(first.text).is_some()
        }
        None => false,
    };
    begins_so || has_twice(b"/", words) || words.iter().any(|word| is_other_number(word))
}
