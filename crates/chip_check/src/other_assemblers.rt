//! Numbers and words in the notation of other assemblers, and how to write them here.

use crate::words::{Word, is_one_of};
use chip_lang::Kind;

/// A notation for numbers in this assembler.
pub(crate) struct Radix {
    /// The name of the notation, with an article.
    pub(crate) name: &'static str,
    /// The sign before the digits.
    pub(crate) sign: &'static str,
    digits: &'static [u8],
}

const BINARY: Radix = Radix {
    name: "a binary",
    sign: "$",
    digits: b"01",
};

const OCTAL: Radix = Radix {
    name: "an octal",
    sign: "@",
    digits: b"01234567",
};

const HEXADECIMAL: Radix = Radix {
    name: "a hexadecimal",
    sign: "#",
    digits: b"0123456789ABCDEF",
};

impl Radix {
    /// Whether a text consists of one or more digits of this notation.
    fn has(&self, text: &[u8]) -> bool {
        for digit in text {
            if !self.digits.contains(digit) {
                return false;
            }
        }
        !text.is_empty()
    }
}

/// The notations of other assemblers: the text before the digits, the text after them, and the
/// notation to use here.
const NOTATIONS: &[(&str, &str, &Radix)] = &[
    ("0X", "", &HEXADECIMAL),
    ("0O", "", &OCTAL),
    ("0B", "", &BINARY),
    ("", "B", &BINARY),
    ("", "H", &HEXADECIMAL),
    ("$", "", &HEXADECIMAL),
    ("", "", &HEXADECIMAL),
];

/// The radix and the digits of the first word, in upper case, if that word is a number in the
/// notation of another assembler.
pub(crate) fn other_number<'a>(words: &[Word<'a>]) -> Option<(&'static Radix, &'a [u8])> {
    match words {
        [Word { text: b"%", .. }, digits, ..] => {
            BINARY.has(digits.text).then_some((&BINARY, digits.text))
        }
        [word, ..] => other_digits(word.text),
        [] => None,
    }
}

/// Whether a word is a number in the notation of another assembler, and not a token here.
pub(crate) fn is_other_number(word: &Word<'_>) -> bool {
    matches!(word.kind, Kind::Bad(_)) && other_digits(word.text).is_some()
}

/// The radix and the digits of a word, if it is a number in one of the notations.
fn other_digits(word: &[u8]) -> Option<(&'static Radix, &[u8])> {
    for (front, end, radix) in NOTATIONS {
        if let Some(rest) = word.strip_prefix(front.as_bytes()) {
            match rest.strip_suffix(end.as_bytes()) {
                Some(digits) if radix.has(digits) => return Some((*radix, digits)),
                _ => {}
            }
        }
    }
    None
}

/// The words or forms for instructions and directives here, each with the words that other assemblers use.
const OTHER_WORDS: &[(&str, &[&str])] = &[
    (
        "LD",
        &[
            "MOV", "MOVE", "LOAD", "LDI", "SET", "STORE", "TAX", "TXA", "TAY", "TYA",
        ],
    ),
    ("JP", &["JMP", "JUMP", "GOTO", "BRA", "BR"]),
    ("CALL", &["JSR", "GOSUB"]),
    ("RET", &["RTS", "RETURN"]),
    ("CLS", &["CLEAR", "CLR"]),
    ("DRW", &["DRAW", "SPRITE"]),
    ("RND", &["RAND", "RANDOM"]),
    ("ADD Vx, 1", &["INC", "INX", "INY"]),
    ("ADD Vx, -1", &["DEC", "DEX", "DEY"]),
    ("LD B, Vx", &["BCD"]),
    ("SE", &["SKE", "SEQ"]),
    ("SKNP", &["SKUP"]),
    ("SNE", &["SKNE"]),
    ("XOR", &["EOR"]),
    ("SHL", &["LSL"]),
    ("SHR", &["LSR"]),
    ("DB", &["BYTE", "DEFB", "FCB", "DC"]),
    ("DW", &["WORD", "DEFW", "FDB"]),
    ("DA", &["ASCII", "TEXT", "STRING", "DEFM"]),
    ("DS", &["RES", "RESB", "RMB", "DEFS", "SPACE"]),
    ("SE, SNE or IFDEF", &["IF"]),
    ("HIGH", &["HIRES"]),
    ("LOW", &["LORES"]),
    ("LD [I], Vx", &["SAVE"]),
    ("LD R, Vx", &["SAVEFLAGS"]),
    ("LD Vx, R", &["LOADFLAGS"]),
    ("JP V0, addr", &["JUMP0"]),
    ("IFUND", &["IFNDEF"]),
    ("EXIT", &["HALT", "HLT", "STOP"]),
];

/// The word or form to use here for a word of another assembler, which is given in upper case.
pub(crate) fn other_word(word: &[u8]) -> Option<&str> {
    for (ours, others) in OTHER_WORDS {
        if is_one_of(word, *others) {
            return Some(*ours);
        }
    }
    None
}
