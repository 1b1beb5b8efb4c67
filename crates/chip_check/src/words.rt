//! The tokens of a line in upper case, and which of them have a predefined meaning.

use chip_lang::{Kind, Token};
use std::alloc::{AllocError, Global};

/// A token of a line.
#[derive(Clone, Copy)]
pub(crate) struct Word<'a> {
    /// The kind of the token.
    pub(crate) kind: Kind,
    /// The bytes of the token, in upper case.
    pub(crate) text: &'a [u8],
}

/// The words for these tokens of a line, which is given in upper case.
pub(crate) fn words_of<'a>(
    alloc: Global,
    upper: &'a [u8],
    tokens: &[Token],
) -> Result<Vec<Word<'a>>, AllocError> {
    let mut words = Vec::with_capacity(alloc, tokens.len())?;
    for token in tokens {
        words.push(Word {
            kind: token.kind,
            text: upper.get(token.start..token.end).unwrap_or(&[]),
        })?;
    }
    Ok(words)
}

/// Whether `words` contains `word`.
pub(crate) fn is_one_of(word: &[u8], words: &[&str]) -> bool {
    words.iter().any(|other| word == other.as_bytes())
}

/// Whether a word is the name of a register V0 to VF.
pub(crate) fn is_register(word: &[u8]) -> bool {
    matches!(word, [b'V', b'0'..=b'9' | b'A'..=b'F'])
}

/// Whether a word names another part of the machine.
pub(crate) fn is_special(word: &[u8]) -> bool {
    is_one_of(word, &["I", "DT", "ST", "K", "F", "HF", "B", "R"])
}

/// Whether a token is a word, a number or a text.
pub(crate) fn is_atom(word: &Word<'_>) -> bool {
    matches!(word.kind, Kind::Word | Kind::Number(_) | Kind::Text)
}

/// Whether a sign appears twice in succession.
pub(crate) fn has_twice(sign: &[u8], words: &[Word<'_>]) -> bool {
    words
        .windows(2)
        .any(|pair| pair.iter().all(|word| word.text == sign))
}

/// Whether a word is the comma between two operands.
pub(crate) fn is_comma(word: &Word<'_>) -> bool {
    matches!(word.text, b",")
}

/// The words of a line's statement, without a label and its colon.
pub(crate) fn statement_of<'a>(words: &'a [Word<'a>]) -> &'a [Word<'a>] {
    match words {
        [_, Word { text: b":", .. }, rest @ ..] => rest,
        _ => words,
    }
}
