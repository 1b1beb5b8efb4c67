//! Tests of the first token of a list, and of reserved words.

ghost use Rattle.std.specs.Prelude.{◌≡◌, ◌<◌, ◌≤◌, ◌+◌, List, length, IfSome, IfOk, true, is_some, option_map, if◌then◌else◌};
ghost use Rattle.chip_lang.specs.Grammar.{prefix_of, operator_of, level_of};
ghost use Rattle.chip_lang.specs.computed.Parse.{front_prefix, front_operator, front_level, closed, one_byte};
ghost use Rattle.chip_lang.specs.declared.lexeme.Lexeme.{Lexeme};
ghost use Rattle.chip_lang.specs.inner.Seen.{seen};
ghost use Rattle.chip_lang.specs.Expression.{Tree, number};
ghost use Rattle.chip_lang.specs.Reserved.{is_reserved};
ghost use Rattle.chip_lang.specs.Keyword.{register_of};

use crate::bytes::Bytes;
use crate::expr::{Operator, Prefix};
use crate::keyword::{keyword_of, register_of};
use crate::lexeme::Lexeme;
use std::alloc::{AllocError, Global};

fn prefix_of(sign: u8) -> Option<Prefix>
    ensures { result ≡ prefix_of sign }
{
    match sign {
        b'+' => Some(Prefix::Plus),
        b'-' => Some(Prefix::Minus),
        b'~' => Some(Prefix::Not),
        _ => None,
    }
}

#[inline(always)]
fn operator_of(sign: u8) -> Option<Operator>
    ensures { result ≡ operator_of sign }
{
    match sign {
        b'<' => Some(Operator::ShiftLeft),
        b'>' => Some(Operator::ShiftRight),
        b'*' => Some(Operator::Multiply),
        b'/' => Some(Operator::Divide),
        b'+' => Some(Operator::Add),
        b'-' => Some(Operator::Subtract),
        b'&' => Some(Operator::And),
        b'|' => Some(Operator::Or),
        b'^' | b'\\' => Some(Operator::Xor),
        _ => None,
    }
}

// A level above the level of every operator.
const NO_LEVEL: u32 = 8;

#[inline(always)]
fn level_of(operator: Operator) -> u32
    ensures { result ≡ level_of operator }
{
    match operator {
        Operator::ShiftLeft | Operator::ShiftRight => 2,
        Operator::Multiply | Operator::Divide => 3,
        Operator::Add | Operator::Subtract => 4,
        Operator::And => 5,
        Operator::Or => 6,
        Operator::Xor => 7,
    }
}

/// The first token as a prefix of an operand, if it is one.
pub fn prefix_in_front(tokens: &[Lexeme]) -> Option<Prefix>
    ensures value { result ≡ front_prefix tokens.now }
    ensures some { IfSome result (λ _. 0 < length tokens.now) }
{
    match tokens.first() {
        Some(Lexeme::Sign(sign)) => prefix_of(*sign),
        _ => None,
    }
}

/// The first token as an operator, if it is an operator of this level.
pub fn operator_in_front(tokens: &[Lexeme], level: u32) -> Option<Operator>
    ensures value { result ≡ front_operator tokens.now level }
    ensures some { IfSome result (λ _. 0 < length tokens.now) }
{
    match tokens.first() {
        Some(Lexeme::Sign(sign)) => match operator_of(*sign) {
            Some(operator) if level_of(operator) == level => Some(operator),
            _ => None,
        },
        _ => None,
    }
}

/// The level of the operator that is the first token; 8 if the first token isn't an operator.
pub fn level_in_front(tokens: &[Lexeme]) -> u32
    ensures { result ≡ front_level tokens.now }
{
    match tokens.first() {
        Some(Lexeme::Sign(sign)) => match operator_of(*sign) {
            Some(operator) => level_of(operator),
            None => NO_LEVEL,
        },
        _ => NO_LEVEL,
    }
}

/// The tokens after the first one, if the first one is a closing parenthesis.
pub fn closed(tokens: &[Lexeme]) -> Option<&[Lexeme]>
    ensures value { (inside : Tree) → seen inside result ≡ closed inside tokens.now }
    ensures shorter { IfSome result (λ rest. length rest.now < length tokens.now) }
{
    match tokens.split_first() {
        Some((Lexeme::Sign(b')'), rest)) => Some(rest),
        _ => None,
    }
}

/// The value of a text of one byte, which is that byte; none for any other text.
pub fn text_number(text: &[u8]) -> Option<i32>
    ensures { (rest : List Lexeme)
        → option_map (λ value. (number value, rest)) result ≡ one_byte text.now rest }
{
    match text {
        [byte] => Some(i32::from(*byte)),
        _ => None,
    }
}

/// A copy of a word, given in upper case, if it isn't reserved. Fails only if memory runs out.
pub fn free_name(alloc: Global, word: &[u8]) -> Result<Option<Bytes>, AllocError>
    ensures { IfOk result (λ name. name ≡ (if is_reserved word.now then None else Some word.now)) }
{
    if is_reserved(word) {
        return Ok(None);
    }
    Ok(Some(Bytes::from_slice(alloc, word)?))
}

/// Whether a word in upper case is reserved.
#[tactic(auto, using(crate::proofs::Keywords::free_word))]
pub fn is_reserved(word: &[u8]) -> bool
    ensures { result ≡ is_reserved word.now }
{
    match keyword_of(word) {
        Some(_) => true,
        None => register_of(word).is_some(),
    }
}
