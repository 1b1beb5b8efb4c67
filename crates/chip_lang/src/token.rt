//! Tokens of a line.

ghost use Rattle.std.specs.Prelude.{◌≡◌, ◌<◌, ◌≤◌, ◌+◌, ◌↔◌, ◌^◌, IfOk, IsTrue, length, take_while, fold, not, List, ◌∷◌, [], ◌++◌, drop, take, slice_index, vec_len, ℕ, ◌==◌, OnOk, IfSome};
ghost use Rattle.std.specs.List.{list_all, prefix_len};
ghost use Rattle.chip_lang.specs.Token.{is_blank, is_digit, is_octal, is_hexadecimal, is_binary, is_name_byte, is_run_byte, is_name_start, is_sign, is_digit_of, digit_value, with_digit, number_of, kind_of_number, kind_of_digits, text_at, token_at};
ghost use Rattle.chip_lang.specs.computed.Tokens.{tokens_from, tokens_of};
ghost use Rattle.chip_lang.specs.Scan.{AreTokens};
ghost use Rattle.chip_lang.specs.inner.Scanned.{with_rest};

use crate::fault::Fault;
use std::alloc::{AllocError, Global};

/// The kind of a token.
#[derive(Clone, Copy, Debug, PartialEq, Eq)]
pub enum Kind {
    /// A word: a letter or `_`, and the name bytes after it.
    Word,
    /// A number, 0 to 2147483647.
    Number(i32),
    /// A text. The token includes its quotes.
    Text,
    /// A sign, by its byte.
    Sign(u8),
    /// Bytes that are not a token, with their fault.
    Bad(Fault),
}

/// A token of a line: the bytes from `start` up to `end`.
#[derive(Clone, Copy, PartialEq, Eq)]
pub struct Token {
    /// The kind of the token.
    pub kind: Kind,
    /// The index of its first byte in the line.
    pub start: usize,
    /// The index after its last byte.
    pub end: usize,
}

fn is_blank(byte: u8) -> bool
    ensures { result ≡ is_blank byte }
{
    matches!(byte, b' ' | 9 | 12 | 13 | 26)
}

fn is_digit(byte: u8) -> bool
    ensures { result ≡ is_digit byte }
{
    b'0' <= byte && byte <= b'9'
}

fn is_octal(byte: u8) -> bool
    ensures { result ≡ is_octal byte }
{
    b'0' <= byte && byte <= b'7'
}

fn is_binary(byte: u8) -> bool
    ensures { result ≡ is_binary byte }
{
    byte == b'0' || byte == b'1' || byte == b'.'
}

fn is_hexadecimal(byte: u8) -> bool
    ensures { result ≡ is_hexadecimal byte }
{
    is_digit(byte) || (b'A' <= byte && byte <= b'F') || (b'a' <= byte && byte <= b'f')
}

fn is_name_start(byte: u8) -> bool
    ensures { result ≡ is_name_start byte }
{
    (b'A' <= byte && byte <= b'Z') || (b'a' <= byte && byte <= b'z') || byte == b'_'
}

fn is_name_byte(byte: u8) -> bool
    ensures { result ≡ is_name_byte byte }
{
    is_name_start(byte) || is_digit(byte)
}

#[tactic(auto, unfolding(crate::specs::Token::digit_value))]
fn digit_value(byte: u8) -> u32
    ensures value { result ≡ digit_value byte }
    ensures bound { result < 256 }
{
    if byte < b'0' {
        0
    } else if byte <= b'9' {
        u32::from(byte - b'0')
    } else if byte <= b'Z' {
        u32::from(byte - 55)
    } else {
        u32::from(byte - 87)
    }
}

fn is_sign(byte: u8) -> bool
    ensures { result ≡ is_sign byte }
{
    matches!(
        byte,
        b',' | b':'
            | b'='
            | b'['
            | b']'
            | b'('
            | b')'
            | b'+'
            | b'-'
            | b'*'
            | b'/'
            | b'&'
            | b'|'
            | b'^'
            | b'~'
            | b'<'
            | b'>'
            | b'\\'
    )
}

fn is_run_byte(byte: u8) -> bool
    ensures { result ≡ is_run_byte byte }
{
    is_name_byte(byte) || byte == b'.'
}

fn is_digit_of(base: u32, byte: u8) -> bool
    ensures { result ≡ is_digit_of base byte }
{
    match base {
        2 => is_binary(byte),
        8 => is_octal(byte),
        10 => is_digit(byte),
        _ => is_hexadecimal(byte),
    }
}

/// The number whose first digits have the value `start` and whose other digits are these, or a
/// fault if the number is above 2147483647.
#[tactic(auto, using(std::proofs::lemmas::List::Sums::fold_more))]
fn number(base: u32, start: u32, digits: &[u8]) -> Kind
    requires low { 0 < base }
    requires high { base ≤ 16 }
    requires start { start < 256 }
    ensures { result ≡ kind_of_number (fold (with_digit base) start digits.now) }
{
    let mut value = u64::from(start);
    for digit in digits {
        value = u64::from(base) * value + u64::from(digit_value(*digit));
        if value > 2147483647 {
            return Kind::Bad(Fault::NumberTooLarge);
        }
    }
    Kind::Number(value as i32)
}

fn all_digits_of(base: u32, digits: &[u8]) -> bool
    ensures { result ≡ list_all (is_digit_of base) digits.now }
{
    digits.iter().all(|digit| is_digit_of(base, *digit))
}

#[tactic(auto, unfolding(crate::specs::Token::kind_of_digits))]
fn digits(base: u32, first: u8, more: &[u8]) -> Kind
    requires low { 0 < base }
    requires high { base ≤ 16 }
    ensures { result ≡ kind_of_digits base (first ∷ more.now) }
{
    if is_digit_of(base, first) && all_digits_of(base, more) {
        number(base, digit_value(first), more)
    } else {
        Kind::Bad(Fault::BadCharacter)
    }
}

#[tactic(auto, unfolding(crate::specs::Token::kind_of_digits))]
fn digits_of_run(base: u32, run: &[u8]) -> Kind
    requires low { 0 < base }
    requires high { base ≤ 16 }
    ensures { result ≡ kind_of_digits base run.now }
{
    match run.split_first() {
        None => Kind::Bad(Fault::BadCharacter),
        Some((first, more)) => digits(base, *first, more),
    }
}

/// The number of name bytes at the front.
#[tactic(auto, using(crate::proofs::Scan::prefix_steps))]
fn name_length(bytes: &[u8]) -> usize
    ensures within { result ≤ length bytes.now }
    ensures value { result ≡ prefix_len is_name_byte bytes.now }
{
    for (index, byte) in bytes.iter().enumerate() {
        if !is_name_byte(*byte) {
            return index;
        }
    }
    bytes.len()
}

/// The name bytes at the front.
#[inline(never)]
fn name_run(bytes: &[u8]) -> &[u8]
    ensures { result.now ≡ take (prefix_len is_name_byte bytes.now) bytes.now }
{
    &bytes[..name_length(bytes)]
}

/// The number of name bytes and full stops at the front.
#[tactic(auto, using(crate::proofs::Scan::prefix_steps))]
fn run_length(bytes: &[u8]) -> usize
    ensures { result ≡ prefix_len is_run_byte bytes.now }
{
    for (index, byte) in bytes.iter().enumerate() {
        if !is_run_byte(*byte) {
            return index;
        }
    }
    bytes.len()
}

/// The number of bytes before the next quote, or of all bytes if there is no quote.
#[tactic(auto, using(crate::proofs::Scan::prefix_steps))]
fn text_length(quote: u8, bytes: &[u8]) -> usize
    ensures within { result ≤ length bytes.now }
    ensures value { result ≡ prefix_len (λ b. not (b == quote)) bytes.now }
{
    for (index, byte) in bytes.iter().enumerate() {
        if *byte == quote {
            return index;
        }
    }
    bytes.len()
}

#[tactic(auto, unfolding(crate::specs::Token::text_at))]
fn text_at(quote: u8, bytes: &[u8]) -> (Kind, usize)
    requires { length bytes.now + 1 < 2 ^ 64 }
    ensures value { result ≡ text_at quote bytes.now }
    ensures low { 0 < result.1 }
    ensures high { result.1 ≤ length bytes.now + 1 }
{
    let inside = text_length(quote, bytes);
    if inside < bytes.len() {
        (Kind::Text, inside + 2)
    } else {
        (Kind::Bad(Fault::UnfinishedString), inside + 1)
    }
}

/// The kind of the token that begins with the byte `first`, and its length in bytes, given the
/// bytes after it.
#[inline(always)]
#[tactic(auto, unfolding(crate::specs::Token::token_at))]
fn token_at(first: u8, bytes: &[u8]) -> (Kind, usize)
    requires { length bytes.now + 1 < 2 ^ 64 }
    ensures value { result ≡ token_at first bytes.now }
    ensures low { 0 < result.1 }
    ensures high { result.1 ≤ length bytes.now + 1 }
{
    if is_name_start(first) {
        (Kind::Word, name_length(bytes) + 1)
    } else if is_digit(first) {
        let run = name_run(bytes);
        (digits(10, first, run), run.len() + 1)
    } else if first == b'#' {
        let run = name_run(bytes);
        (digits_of_run(16, run), run.len() + 1)
    } else if first == b'@' {
        let run = name_run(bytes);
        (digits_of_run(8, run), run.len() + 1)
    } else if first == b'$' {
        let run = &bytes[..run_length(bytes)];
        (digits_of_run(2, run), run.len() + 1)
    } else if first == b'\'' || first == b'"' {
        text_at(first, bytes)
    } else if is_sign(first) {
        (Kind::Sign(first), 1)
    } else {
        (Kind::Bad(Fault::BadCharacter), 1)
    }
}

/// The first token that begins at an index or after it; none if only blanks or a comment follow.
#[inline(always)]
#[tactic(auto, using(crate::proofs::Scan::token_steps))]
pub(crate) fn token_from(line: &[u8], from: usize) -> Option<Token>
    requires { from ≤ length line.now }
    ensures rest { tokens_from from 0 (drop from line.now) ≡ with_rest line.now result }
    ensures rises { IfSome result (λ token. token.start < token.end) }
    ensures later { IfSome result (λ token. from < token.end) }
    ensures inside { IfSome result (λ token. token.end ≤ length line.now) }
{
    let mut place = from;
    while place < line.len() {
        let first = line[place];
        if first == b';' {
            return None;
        }
        if !is_blank(first) {
            let (kind, length) = token_at(first, &line[place + 1..]);
            return Some(Token {
                kind,
                start: place,
                end: place + length,
            });
        }
        place += 1;
    }
    None
}

/// The number of tokens to reserve room for when the first token is added; enough for most lines.
pub(crate) const USUAL_TOKENS: usize = 12;

fn push_token(tokens: &mut Vec<Token>, token: Token) -> Result<(), AllocError>
    ensures { OnOk result (tokens.new.items ≡ tokens.old.items ++ token ∷ []) }
{
    if tokens.is_empty() {
        tokens.reserve(USUAL_TOKENS)?;
    }
    tokens.push(token)?;
    Ok(())
}

/// The tokens of a line from left to right, each with its place. A line has exactly one such list.
/// Fails only if memory runs out.
pub fn tokens(alloc: Global, line: &[u8]) -> Result<Vec<Token>, AllocError>
    ensures list { IfOk result (λ tokens. tokens.items ≡ tokens_of line.now) }
    ensures placed { IfOk result (λ tokens. AreTokens line.now 0 tokens.items) }
{
    let mut tokens = Vec::new(alloc);
    let mut place = 0;
    while let Some(token) = token_from(line, place) {
        push_token(&mut tokens, token)?;
        place = token.end;
    }
    Ok(tokens)
}
