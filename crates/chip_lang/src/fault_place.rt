//! The place of a fault in its line, and the mnemonic and names of a line.

ghost use Rattle.std.specs.Prelude.{◌≡◌, ◌+◌, ◌≤◌, ◌<◌, ◌^◌, true, false, not, IfOk, length, slice_get, is_some};
ghost use Rattle.std.specs.List.{prefix_len};
ghost use Rattle.std.specs.Option.{option_copied};
ghost use Rattle.chip_lang.specs.FaultPlace.{is_bad, leftmost_bad, deepest, statement_at, operands_at, name_at, bad_name_at, is_fit, before_misfit, misfit_from, misfit, takes_values, is_misplaced, wrong_in_word, wrong_in_statement, wrong, place_of_fault, end_of, span_of_place, span_of_fault, mnemonic_at, mnemonic_of, name_in, name_of_token};
ghost use Rattle.chip_lang.specs.Line.{pieces};
ghost use Rattle.chip_lang.specs.Scan.{AreTokens};
ghost use Rattle.chip_lang.specs.inner.SeenShape.{seen_shape};

use crate::bytes::Bytes;
use crate::directive::Directive;
use crate::fault::Fault;
use crate::front::is_reserved;
use crate::keyword::{directive_of, is_mnemonic};
use crate::lexeme::{Lexeme, is_sign_of, lexeme_of, lexemes};
use crate::limits::OPEN_PARENTHESES;
use crate::operands::{first_piece, operand_of};
use crate::parse::parse_expression;
use crate::shape::{Shape, is_bad_name, shape_of};
use crate::statement::takes_label;
use crate::token::{Token, tokens};
use std::alloc::{AllocError, Global};

/// A part of a line: the bytes from `start` up to `end`.
#[derive(Clone, Copy)]
pub struct Span {
    /// The index of its first byte in the line.
    pub start: usize,
    /// The index after its last byte.
    pub end: usize,
}

/// The tokens at which a fault lies: the token with the index `first` and, if `wide`, also all
/// tokens after it. An index past the last token means the place after the last token.
#[derive(Clone, Copy)]
pub(crate) struct Place {
    first: usize,
    wide: bool,
}

impl Place {
    fn at(first: usize) -> Place
        ensures { result ≡ record { first = first; wide = false } }
    {
        Place { first, wide: false }
    }

    fn from(first: usize) -> Place
        ensures { result ≡ record { first = first; wide = true } }
    {
        Place { first, wide: true }
    }
}

/// Returns the part of a line at which a fault lies: the bytes of the tokens listed for the fault
/// in the table `place_of_fault`. If no token is at fault, for example because an operand is
/// missing, returns the empty part after the last token.
///
/// # Errors
///
/// Out of memory.
#[tactic(auto, unfolding(crate::specs::FaultPlace::span_of_fault))]
pub fn fault_span(alloc: Global, line: &[u8], fault: Fault) -> Result<Span, AllocError>
    ensures span { IfOk result (λ span. span ≡ span_of_fault fault line.now) }
    ensures rises { IfOk result (λ span. span.start ≤ span.end) }
    ensures inside { IfOk result (λ span. span.end ≤ length line.now) }
{
    let lexemes = lexemes(alloc, line)?;
    let place = place_of_fault(alloc, fault, &lexemes)?;
    let tokens = tokens(alloc, line)?;
    Ok(span_of_place(line, &tokens, place))
}

/// Returns the mnemonic that the statement of a line begins with, in upper case; none if it begins
/// with no mnemonic.
///
/// # Errors
///
/// Out of memory.
#[tactic(auto, unfolding(crate::specs::FaultPlace::mnemonic_of))]
pub fn mnemonic_of(alloc: Global, line: &[u8]) -> Result<Option<Bytes>, AllocError>
    ensures { IfOk result (λ mnemonic. mnemonic ≡ mnemonic_of line.now) }
{
    let lexemes = lexemes(alloc, line)?;
    match shape_of(&lexemes) {
        Shape::Statement { tokens, .. } => mnemonic_at(alloc, tokens),
        Shape::Definition { .. } => Ok(None),
    }
}

fn mnemonic_at(alloc: Global, tokens: &[Lexeme]) -> Result<Option<Bytes>, AllocError>
    ensures { IfOk result (λ mnemonic. mnemonic ≡ mnemonic_at tokens.now) }
{
    match tokens {
        [Lexeme::Word(word), ..] if is_mnemonic(word.get()) => {
            Ok(Some(Bytes::from_slice(alloc, word.get())?))
        }
        _ => Ok(None),
    }
}

/// The part of a line that the tokens of a place cover.
#[tactic(auto, using(crate::proofs::FaultSpan::span_steps))]
fn span_of_place(line: &[u8], tokens: &[Token], place: Place) -> Span
    requires { AreTokens line.now 0 tokens.now }
    ensures span { result ≡ span_of_place tokens.now place }
    ensures rises { result.start ≤ result.end }
    ensures inside { result.end ≤ length line.now }
{
    let last = end_of(tokens.last());
    match token_at(tokens, place.first) {
        Some(token) => Span {
            start: token.start,
            end: if place.wide { last } else { token.end },
        },
        None => Span {
            start: last,
            end: last,
        },
    }
}

fn token_at(tokens: &[Token], index: usize) -> Option<Token>
    ensures { result ≡ slice_get tokens.now index }
{
    if index < tokens.len() {
        Some(tokens[index])
    } else {
        None
    }
}

fn end_of(token: Option<&Token>) -> usize
    ensures { result ≡ end_of (option_copied token.entry) }
{
    match token {
        Some(token) => token.end,
        None => 0,
    }
}

/// The tokens at which a fault lies, as the table in `specs/FaultPlace.antt` states.
fn place_of_fault(alloc: Global, fault: Fault, tokens: &[Lexeme]) -> Result<Place, AllocError>
    ensures { IfOk result (λ place. place ≡ place_of_fault fault tokens.now) }
{
    let count = tokens.len();
    let shape = shape_of(tokens);
    match fault {
        Fault::BadCharacter | Fault::UnfinishedString | Fault::NumberTooLarge => {
            Ok(Place::at(leftmost_bad(tokens)))
        }
        Fault::TooDeep => Ok(Place::at(deepest(tokens))),
        Fault::BadName => Ok(Place::at(bad_name_at(count, &shape))),
        Fault::DefinedTwice => Ok(Place::at(name_at(count, &shape))),
        Fault::UnknownWord
        | Fault::NotInProfile
        | Fault::StrayBranch
        | Fault::UnclosedIf
        | Fault::PastMemory => Ok(Place::at(statement_at(count, &shape))),
        Fault::OrgBelowHere
        | Fault::UndefinedName
        | Fault::OutOfRange
        | Fault::DivisionByZero
        | Fault::Overflow => Ok(Place::from(operands_at(count, &shape))),
        Fault::WrongOperands => wrong(alloc, count, &shape),
    }
}

fn is_bad(token: &Lexeme) -> bool
    ensures { result ≡ is_bad token.now }
{
    matches!(token, Lexeme::Bad(_))
}

/// The index of the leftmost bad token; the number of tokens if none is bad.
fn leftmost_bad(tokens: &[Lexeme]) -> usize
    ensures { result ≡ leftmost_bad tokens.now }
{
    for (index, token) in tokens.iter().enumerate() {
        if is_bad(token) {
            return index;
        }
    }
    tokens.len()
}

/// The index of the parenthesis that makes more than `OPEN_PARENTHESES` open at once; the number of
/// tokens if none does.
fn deepest(tokens: &[Lexeme]) -> usize
    ensures { result ≡ deepest 0 0 tokens.now }
{
    let mut opened = 0usize;
    let mut closed = 0usize;
    for (index, token) in tokens.iter().enumerate() {
        if is_sign_of(b'(', token) {
            opened += 1;
        }
        if is_sign_of(b')', token) {
            closed += 1;
        }
        if opened > closed && opened - closed > OPEN_PARENTHESES {
            return index;
        }
    }
    tokens.len()
}

fn statement_at(count: usize, shape: &Shape) -> usize
    ensures { result ≡ statement_at count (seen_shape shape.now) }
{
    match shape {
        Shape::Definition { .. } => 0,
        Shape::Statement { tokens, .. } => count.saturating_sub(tokens.len()),
    }
}

fn operands_at(count: usize, shape: &Shape) -> usize
    requires { count < 2 ^ 62 }
    ensures { result ≡ operands_at count (seen_shape shape.now) }
{
    match shape {
        Shape::Definition { value, .. } => count.saturating_sub(value.len()),
        Shape::Statement { tokens, .. } => count.saturating_sub(tokens.len()) + 1,
    }
}

fn name_at(count: usize, shape: &Shape) -> usize
    requires { count < 2 ^ 62 }
    ensures { result ≡ name_at count (seen_shape shape.now) }
{
    match shape {
        Shape::Statement { label: None, .. } => operands_at(count, shape),
        _ => 0,
    }
}

fn bad_name_at(count: usize, shape: &Shape) -> usize
    requires { count < 2 ^ 62 }
    ensures { result ≡ bad_name_at count (seen_shape shape.now) }
{
    match shape {
        Shape::Definition { .. } => 0,
        Shape::Statement { label, tokens } => match label {
            Some(label) if is_bad_name(label.get()) => 0,
            _ => count.saturating_sub(tokens.len()) + 1,
        },
    }
}

/// The place of operands that don't fit.
fn wrong(alloc: Global, count: usize, shape: &Shape) -> Result<Place, AllocError>
    requires { count < 2 ^ 62 }
    ensures { IfOk result (λ place. place ≡ wrong count (seen_shape shape.now)) }
{
    match shape {
        Shape::Definition { value, .. } => Ok(Place::from(count.saturating_sub(value.len()))),
        Shape::Statement { label, tokens } => {
            let first = count.saturating_sub(tokens.len());
            wrong_in_statement(alloc, label.is_some(), first, tokens)
        }
    }
}

fn wrong_in_statement(
    alloc: Global,
    labelled: bool,
    first: usize,
    tokens: &[Lexeme],
) -> Result<Place, AllocError>
    requires { first < 2 ^ 62 }
    ensures { IfOk result (λ place. place ≡ wrong_in_statement labelled first tokens.now) }
{
    match tokens {
        [Lexeme::Word(word), rest @ ..] => {
            wrong_in_word(alloc, labelled, directive_of(word.get()), first, rest)
        }
        _ => Ok(Place::at(first)),
    }
}

fn wrong_in_word(
    alloc: Global,
    labelled: bool,
    directive: Option<Directive>,
    first: usize,
    operands: &[Lexeme],
) -> Result<Place, AllocError>
    requires { first < 2 ^ 62 }
    ensures { IfOk result (λ place. place ≡ wrong_in_word labelled directive first operands.now) }
{
    let Some(directive) = directive else {
        return misfit(alloc, false, first + 1, operands);
    };
    if is_misplaced(labelled, directive) {
        Ok(Place::at(first))
    } else if takes_values(directive) {
        misfit(alloc, true, first + 1, operands)
    } else {
        Ok(Place::from(first + 1))
    }
}

fn is_misplaced(labelled: bool, directive: Directive) -> bool
    ensures { result ≡ is_misplaced labelled directive }
{
    match directive {
        Directive::Equ => true,
        _ => labelled && !takes_label(directive),
    }
}

fn takes_values(directive: Directive) -> bool
    ensures { result ≡ takes_values directive }
{
    matches!(
        directive,
        Directive::Org | Directive::Ds | Directive::Db | Directive::Dw
    )
}

/// The place of the first operand that doesn't fit, or of all operands if each fits by itself.
/// `first` is the index of the first operand's first token.
fn misfit(
    alloc: Global,
    values: bool,
    first: usize,
    operands: &[Lexeme],
) -> Result<Place, AllocError>
    requires { first < 2 ^ 62 + 1 }
    ensures { IfOk result (λ place. place ≡ misfit values first operands.now) }
{
    let before = before_misfit(alloc, values, operands)?;
    Ok(misfit_from(first, operands.len(), before))
}

fn misfit_from(first: usize, count: usize, before: usize) -> Place
    requires { first + before ≤ usize.MAX }
    ensures { result ≡ misfit_from first count before }
{
    if before > count {
        Place::from(first)
    } else {
        Place::at(first + before)
    }
}

/// The number of tokens before the first operand that doesn't fit, counting a comma after each
/// operand. If each operand fits, the result exceeds the number of tokens.
#[tactic(auto, using(crate::proofs::Misfit::joined_pieces))]
fn before_misfit(alloc: Global, values: bool, operands: &[Lexeme]) -> Result<usize, AllocError>
    ensures value { IfOk result (λ before. before ≡ before_misfit values (pieces operands.now)) }
    ensures bound { IfOk result (λ before. before ≤ length operands.now + 1) }
{
    let mut before = 0;
    let mut rest = Some(operands);
    while let Some(tokens) = rest {
        let (piece, more) = first_piece(tokens);
        if !is_fit(alloc, values, piece)? {
            return Ok(before);
        }
        before += piece.len() + 1;
        rest = more;
    }
    Ok(before)
}

/// Whether the tokens form an expression (if `values` is true) or an operand (otherwise).
fn is_fit(alloc: Global, values: bool, piece: &[Lexeme]) -> Result<bool, AllocError>
    ensures { IfOk result (λ fit. fit ≡ is_fit values piece.now) }
{
    if values {
        Ok(parse_expression(alloc, piece)?.is_some())
    } else {
        Ok(operand_of(alloc, piece)?.is_some())
    }
}

/// Returns the name that a token of a line spells, in upper case; none if the token isn't a word or
/// is a reserved word.
///
/// # Errors
///
/// Out of memory.
pub fn name_of_token(alloc: Global, line: &[u8], token: Token) -> Result<Option<Bytes>, AllocError>
    requires rises { token.start ≤ token.end }
    requires inside { token.end ≤ length line.now }
    ensures { IfOk result (λ name. name ≡ name_of_token line.now token) }
{
    let lexeme = lexeme_of(alloc, line, token)?;
    let name = name_in(alloc, &lexeme)?;
    Ok(name)
}

fn name_in(alloc: Global, lexeme: &Lexeme) -> Result<Option<Bytes>, AllocError>
    ensures { IfOk result (λ name. name ≡ name_in lexeme.now) }
{
    match lexeme {
        Lexeme::Word(word) if !is_reserved(word.get()) => {
            Ok(Some(Bytes::from_slice(alloc, word.get())?))
        }
        _ => Ok(None),
    }
}
