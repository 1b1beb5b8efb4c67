//! Operands, which commas separate.

ghost use Rattle.std.specs.Prelude.{◌≡◌, ◌<◌, ◌≤◌, ◌∷◌, ◌&&◌, IfOk, length, map, not, option_map};
ghost use Rattle.std.specs.List.{prefix_len};
ghost use Rattle.std.specs.Option.{option_copied};
ghost use Rattle.chip_lang.specs.Line.{is_sign_of, is_at_index, pieces, pieces_in, named, part_of_machine, operand_of_tokens, operands_of, listed_values};
ghost use Rattle.chip_lang.specs.Keyword.{register_of, special_of};
ghost use Rattle.chip_lang.specs.Operand.{operand_of};
ghost use Rattle.chip_lang.specs.Tree.{tree_of};

use crate::expr::Expr;
use crate::form::{Operand, Special};
use crate::keyword::{register_of, special_of};
use crate::lexeme::{Lexeme, is_sign_of, is_the};
use crate::parse::parse_expression;
use std::alloc::{AllocError, Global};

/// The number of tokens before the first comma, or of all tokens if there is no comma.
fn piece_length(tokens: &[Lexeme]) -> usize
    ensures value { result ≡ prefix_len (λ t. not (is_sign_of 44 t)) tokens.now }
    ensures within { result ≤ length tokens.now }
{
    for (index, token) in tokens.iter().enumerate() {
        if is_sign_of(b',', token) {
            return index;
        }
    }
    tokens.len()
}

/// The number of pieces, given the tokens after the first comma if there is a comma.
fn piece_count(more: Option<&[Lexeme]>) -> usize {
    match more {
        Some(tokens) => tokens
            .iter()
            .filter(|token| is_sign_of(b',', token))
            .count()
            .saturating_add(2),
        None => 1,
    }
}

// No instruction takes more operands than this, so most lines need no more room.
const USUAL_OPERANDS: usize = 3;

/// The number of operands in this many tokens if each operand is one token, but at most
/// `USUAL_OPERANDS`.
fn usual_room(tokens: usize) -> usize {
    (tokens / 2).saturating_add(1).min(USUAL_OPERANDS)
}

/// The tokens before the first comma and, if there is a comma, the tokens after it.
#[tactic(auto, using(crate::proofs::Pieces::piece_steps))]
pub(crate) fn first_piece(tokens: &[Lexeme]) -> (&[Lexeme], Option<&[Lexeme]>)
    ensures { pieces tokens.now ≡ result.0.now ∷ pieces_in (option_copied result.1) }
{
    let length = piece_length(tokens);
    if length < tokens.len() {
        (&tokens[..length], Some(&tokens[length + 1..]))
    } else {
        (tokens, None)
    }
}

/// The expressions between commas; none if any piece isn't an expression. Fails only if memory runs
/// out.
#[tactic(auto, using(crate::proofs::Pieces::value_steps))]
pub(crate) fn values_of(alloc: Global, tokens: &[Lexeme]) -> Result<Option<Vec<Expr>>, AllocError>
    ensures { IfOk result (λ found. option_map (λ values. map tree_of values.items) found
        ≡ listed_values tokens.now) }
{
    let mut values = Vec::new(alloc);
    let mut rest = Some(tokens);
    while let Some(tokens) = rest {
        let (piece, more) = first_piece(tokens);
        let Some(value) = parse_expression(alloc, piece)? else {
            return Ok(None);
        };
        if values.is_empty() {
            values.reserve_exact(piece_count(more))?;
        }
        values.push(value)?;
        rest = more;
    }
    Ok(Some(values))
}

/// The operands between commas; none if any piece isn't an operand. An empty list of tokens
/// contains no operands. Fails only if memory runs out.
#[tactic(auto, using(crate::proofs::Pieces::value_steps))]
pub(crate) fn operands_of(
    alloc: Global,
    tokens: &[Lexeme],
) -> Result<Option<Vec<Operand>>, AllocError>
    ensures { IfOk result (λ found. option_map (λ operands. map operand_of operands.items) found
        ≡ operands_of tokens.now) }
{
    if tokens.is_empty() {
        return Ok(Some(Vec::new(alloc)));
    }
    let mut operands = Vec::with_capacity(alloc, usual_room(tokens.len()))?;
    let mut rest = Some(tokens);
    while let Some(tokens) = rest {
        let (piece, more) = first_piece(tokens);
        let Some(operand) = operand_of(alloc, piece)? else {
            return Ok(None);
        };
        operands.push(operand)?;
        rest = more;
    }
    Ok(Some(operands))
}

/// The operand that the tokens form; none if they form no operand. Fails only if memory runs out.
#[inline(always)]
pub(crate) fn operand_of(alloc: Global, tokens: &[Lexeme]) -> Result<Option<Operand>, AllocError>
    ensures { IfOk result (λ found. option_map operand_of found ≡ operand_of_tokens tokens.now) }
{
    if let Some(operand) = part_of_machine(tokens) {
        return Ok(Some(operand));
    }
    match parse_expression(alloc, tokens)? {
        Some(value) => Ok(Some(Operand::Value(value))),
        None => Ok(None),
    }
}

/// The register, the word for a part of the machine, or the `[I]` that the tokens form; none for
/// other tokens.
#[inline(always)]
fn part_of_machine(tokens: &[Lexeme]) -> Option<Operand>
    ensures { option_map operand_of result ≡ part_of_machine tokens.now }
{
    match tokens {
        [Lexeme::Word(word)] => named(word.get()),
        _ if is_at_index(tokens) => Some(Operand::Special(Special::AtIndex)),
        _ => None,
    }
}

/// The register or part of the machine that a word in upper case names; none for any other word.
fn named(word: &[u8]) -> Option<Operand>
    ensures { option_map operand_of result ≡ named (register_of word.now) (special_of word.now) }
{
    match register_of(word) {
        Some(register) => Some(Operand::Register(register)),
        None => match special_of(word) {
            Some(special) => Some(Operand::Special(special)),
            None => None,
        },
    }
}

/// Whether the tokens are `[I]`.
fn is_at_index(tokens: &[Lexeme]) -> bool
    ensures { result ≡ is_at_index tokens.now }
{
    match tokens {
        [open, index, close] => {
            is_sign_of(b'[', open) && is_the(b"I", index) && is_sign_of(b']', close)
        }
        _ => false,
    }
}
