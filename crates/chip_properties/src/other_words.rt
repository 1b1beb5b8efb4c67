//! Words and signs that other languages use in a property, and what to write here.

use crate::near::{fewest_edits, most_edits};
use chip_lang::{Lexeme, is_sign_of, is_the};
use std::alloc::{AllocError, Global};

/// Words that make a condition depend on another condition in other languages.
const CONDITIONALS: &[&str] = &[
    "IF", "WHEN", "WHENEVER", "WHILE", "UNLESS", "THEN", "IMPLIES",
];

/// Help for a condition that depends on another condition.
pub(crate) const IMPLICATION: &[u8] =
    b"a property has no if: write never V1 = 3 and V0 <> 5 in place of if V1 = 3 then V0 = 5";

/// Whether a token is one of the `CONDITIONALS`.
pub(crate) fn is_conditional(token: &Lexeme) -> bool {
    CONDITIONALS
        .iter()
        .any(|word| is_the(word.as_bytes(), token))
}

/// Help for a place.
const PLACE: &[u8] = b"write at before a place, as in V0 <= 8 at LOOP";

/// Help for a range of values.
const RANGE: &[u8] = b"write two comparisons for a range, as in V0 >= 1 and V0 <= 5";

/// Returns help for a word in upper case that other languages use in place of a sign.
pub(crate) fn word_help(word: &[u8]) -> Option<&'static [u8]> {
    match word {
        b"IS" | b"EQ" | b"EQUALS" => Some(b"write = for equal"),
        b"IN" | b"BETWEEN" => Some(RANGE),
        b"ON" | b"BEFORE" | b"AFTER" | b"WHERE" => Some(PLACE),
        _ => None,
    }
}

/// Returns help for the text of a fault that begins with a sign or a number of other languages.
pub(crate) fn text_help(text: &[u8]) -> Option<&'static [u8]> {
    match text {
        [b'!', ..] => Some(b"write never for not, and <> or != for unequal"),
        [b'0', b'x' | b'X', ..] => Some(b"a hexadecimal number begins with #, as in #1F"),
        [b'0', b'b' | b'B', ..] => Some(b"a binary number begins with $, as in $101"),
        [128..=255, ..] => Some(b"write <=, >= and <> in ASCII"),
        [b'@', ..] => Some(PLACE),
        [b'%', ..] => Some(
            b"registers are only added, or multiplied by a number before them, as in 2 * V0",
        ),
        [b'.', ..] => Some(RANGE),
        _ => None,
    }
}

/// Returns help for a hexadecimal number that begins with a dollar sign, as other languages write
/// it.
pub(crate) fn hexadecimal_help(alloc: Global, text: &[u8]) -> Result<Option<Vec<u8>>, AllocError> {
    let [b'$', digits @ ..] = text else {
        return Ok(None);
    };
    let is_binary = digits.iter().all(|digit| matches!(digit, b'0' | b'1'));
    let is_hexadecimal = digits.iter().all(
        |digit| matches!(digit, b'0'..=b'9' | b'a'..=b'f' | b'A'..=b'F'),
    );
    if is_binary || !is_hexadecimal {
        return Ok(None);
    }
    let front = b"$ begins a binary number here, and # a hexadecimal one: write #".as_slice();
    Ok(Some([front, digits].concat(alloc)?))
}

/// Whether a sign and a neighboring one together mean unequal in other languages. `rest` begins
/// with the sign.
pub(crate) fn is_unequal(token: &Lexeme, before: &[Lexeme], rest: &[Lexeme]) -> bool {
    let is_slash = matches!(token, Lexeme::Sign(b'/' | b'\\'));
    let is_sign = is_slash || matches!(token, Lexeme::Sign(b'~' | b'^'));
    is_sign && is_equal_sign(rest.get(1)) || is_slash && is_equal_sign(before.last())
}

/// Whether there is a token and it is `=`.
fn is_equal_sign(token: Option<&Lexeme>) -> bool {
    token.is_some_and(|token| is_sign_of(b'=', token))
}

/// The word for each kind, in lower and in upper case, and the words that other languages use for it.
const OTHER_WORDS: &[(&str, &str, &[&str])] = &[
    (
        "always",
        "ALWAYS",
        &[
            "ALL",
            "ASSERT",
            "CHECK",
            "ENSURE",
            "ENSURES",
            "EXPECT",
            "FORALL",
            "GLOBALLY",
            "INVARIANT",
            "MUST",
            "PROVE",
            "REQUIRE",
            "REQUIRES",
            "VERIFY",
        ],
    ),
    ("never", "NEVER", &["FORBID", "NO", "NOT", "UNREACHABLE"]),
    (
        "ever",
        "EVER",
        &[
            "COVER",
            "EVENTUALLY",
            "EXISTS",
            "FINALLY",
            "REACH",
            "REACHABLE",
            "SOMETIMES",
        ],
    ),
    ("can", "CAN", &["COULD", "MAY", "POSSIBLE", "POSSIBLY"]),
];

/// Returns the word for the kind that a word in upper case means in other languages, or whose
/// spelling is near that word.
pub(crate) fn other_kind(word: &[u8]) -> Option<&'static str> {
    for (kind, _, others) in OTHER_WORDS {
        if others.iter().any(|other| word == other.as_bytes()) {
            return Some(*kind);
        }
    }
    near_kind(word)
}

/// Returns the word for a kind whose spelling is near a word in upper case.
fn near_kind(word: &[u8]) -> Option<&'static str> {
    let most = most_edits(word);
    for (kind, upper, _) in OTHER_WORDS {
        if fewest_edits(most, word, upper.as_bytes()).is_some() {
            return Some(*kind);
        }
    }
    None
}
