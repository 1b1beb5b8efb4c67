//! Tokens with their contents.

ghost use Rattle.std.specs.Prelude.{◌≡◌, IfOk, length, ◌-◌, ◌≤◌, slice_range};
ghost use Rattle.chip_lang.specs.Line.{lexeme_of, lexemes_of, is_the, is_sign_of};

use crate::fault::Fault;
use crate::short_bytes::ShortBytes;
use crate::token::{Kind, Token, USUAL_TOKENS, token_from};
use std::alloc::{AllocError, Global};

/// A token with its content: a word in upper case, a number, the bytes of a text, or a sign.
pub enum Lexeme {
    /// A word in upper case.
    Word(ShortBytes),
    /// A number.
    Number(i32),
    /// The bytes between the quotes.
    Text(ShortBytes),
    /// A sign, by its byte.
    Sign(u8),
    /// Bytes that are not a token, with their fault.
    Bad(Fault),
}

// Dropping is one call. A derived `Drop` would be expanded, and proved, in every function that
// drops a value.
impl Drop for Lexeme {
    fn drop(self) {
        match self {
            Lexeme::Word(_bytes) | Lexeme::Text(_bytes) => {}
            Lexeme::Number(_) | Lexeme::Sign(_) | Lexeme::Bad(_) => {}
        }
    }
}

// For a line of at least this many bytes, the list of tokens reserves room for as many tokens.
const LONG_LINE_BYTES: usize = 64;

/// The number of tokens to reserve room for in a line of this many bytes; enough for most lines. An
/// unusually long line may contain a long expression.
fn usual_tokens(bytes: usize) -> usize {
    if bytes < LONG_LINE_BYTES {
        USUAL_TOKENS
    } else {
        LONG_LINE_BYTES
    }
}

/// The tokens of a line with their contents. Fails only if memory runs out.
#[inline(always)]
pub fn lexemes(alloc: Global, line: &[u8]) -> Result<Vec<Lexeme>, AllocError>
    ensures { IfOk result (λ lexemes. lexemes.items ≡ lexemes_of line.now) }
{
    let mut lexemes = Vec::with_capacity(alloc, usual_tokens(line.len()))?;
    let mut place = 0;
    while let Some(token) = token_from(line, place) {
        let lexeme = lexeme_of(alloc, line, token)?;
        lexemes.push(lexeme)?;
        place = token.end;
    }
    Ok(lexemes)
}

/// The contents of a token of a line. Fails only if memory runs out.
#[inline(always)]
pub(crate) fn lexeme_of(alloc: Global, line: &[u8], token: Token) -> Result<Lexeme, AllocError>
    requires rises { token.start ≤ token.end }
    requires inside { token.end ≤ length line.now }
    ensures { IfOk result (λ lexeme. lexeme ≡ lexeme_of line.now token) }
{
    let bytes = &line[token.start..token.end];
    match token.kind {
        Kind::Word => Ok(Lexeme::Word(ShortBytes::in_upper_case(alloc, bytes)?)),
        Kind::Number(number) => Ok(Lexeme::Number(number)),
        Kind::Text => {
            let text = ShortBytes::from_slice(alloc, between_quotes(bytes))?;
            Ok(Lexeme::Text(text))
        }
        Kind::Sign(sign) => Ok(Lexeme::Sign(sign)),
        Kind::Bad(fault) => Ok(Lexeme::Bad(fault)),
    }
}

/// The bytes of a text without its quotes.
fn between_quotes(bytes: &[u8]) -> &[u8]
    ensures { result.now ≡ slice_range bytes.now 1 (length bytes.now - 1) }
{
    match bytes {
        [_, text @ .., _] => text,
        _ => &[],
    }
}

/// Whether a token is this word, which is in upper case.
pub fn is_the(word: &[u8], token: &Lexeme) -> bool
    ensures { result ≡ is_the word.now token.now }
{
    match token {
        Lexeme::Word(other) => word == other.get(),
        _ => false,
    }
}

/// Whether a token is this sign.
pub fn is_sign_of(sign: u8, token: &Lexeme) -> bool
    ensures { result ≡ is_sign_of sign token.now }
{
    match token {
        Lexeme::Sign(other) => sign == *other,
        _ => false,
    }
}
