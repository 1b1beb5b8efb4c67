//! The parts of a line: the name that it defines, and its statement.

ghost use Rattle.std.specs.Prelude.{◌≡◌, length, map, option_to_list};
ghost use Rattle.std.specs.List.{list_any};
ghost use Rattle.std.specs.Option.{option_copied};
ghost use Rattle.chip_lang.specs.Line.{is_equ, after_label, shape_of, is_bad_name, statement_of, front_directive, by_define, names_of, first_name};
ghost use Rattle.chip_lang.specs.Form.{row_of_form};
ghost use Rattle.chip_lang.specs.inner.NamedForms.{front_forms};
ghost use Rattle.chip_lang.specs.inner.SeenShape.{seen_shape};

use crate::directive::Directive;
use crate::form::Form;
use crate::front::is_reserved;
use crate::keyword::front_named;
use crate::lexeme::{Lexeme, is_sign_of, is_the};
use crate::limits::NAME_BYTES;
use crate::short_bytes::ShortBytes;

/// The shape of a line, found from its tokens.
#[derive(Drop)]
pub(crate) enum Shape<'a> {
    /// A definition: its name, and the tokens after EQU or `=`.
    Definition {
        name: &'a ShortBytes,
        value: &'a [Lexeme],
    },
    /// A statement, after a label if there is one.
    Statement {
        label: Option<&'a ShortBytes>,
        tokens: &'a [Lexeme],
    },
}

/// Whether a token is EQU or `=`.
fn is_equ(token: &Lexeme) -> bool
    ensures { result ≡ is_equ token.now }
{
    is_the(b"EQU", token) || is_sign_of(b'=', token)
}

/// The shape of a line with these tokens.
#[inline(always)]
pub(crate) fn shape_of(tokens: &[Lexeme]) -> Shape<'_>
    ensures { seen_shape result ≡ shape_of tokens.now }
{
    match tokens {
        [Lexeme::Word(name), equ, value @ ..] if is_equ(equ) => Shape::Definition { name, value },
        [Lexeme::Word(name), colon, rest @ ..] if is_sign_of(b':', colon) => after_label(
            name, rest,
        ),
        _ => Shape::Statement {
            label: None,
            tokens,
        },
    }
}

/// The shape of a line that is a word, a colon and then these tokens.
fn after_label<'a>(name: &'a ShortBytes, rest: &'a [Lexeme]) -> Shape<'a>
    ensures { seen_shape result ≡ after_label name.now rest.now }
{
    match rest {
        [equ, value @ ..] if is_equ(equ) => Shape::Definition { name, value },
        _ => Shape::Statement {
            label: Some(name),
            tokens: rest,
        },
    }
}

/// Whether a word can't be defined: it is reserved or longer than `NAME_BYTES` bytes.
pub(crate) fn is_bad_name(word: &[u8]) -> bool
    ensures { result ≡ is_bad_name word.now }
{
    is_reserved(word) || word.len() > NAME_BYTES
}

/// The directive at the front of a statement, if any, and the forms of the instruction there, if
/// any.
pub(crate) fn front_of(statement: &[Lexeme]) -> (Option<Directive>, &'static [Form])
    ensures directive { result.0 ≡ front_directive statement.now }
    ensures forms { map row_of_form result.1.now ≡ front_forms statement.now }
{
    match statement {
        [Lexeme::Word(word), ..] => front_named(word.get()),
        _ => (None, &[]),
    }
}

/// The tokens of a line's statement; a definition has none.
pub(crate) fn statement_of<'a>(shape: &Shape<'a>) -> &'a [Lexeme]
    ensures { result.now ≡ statement_of (seen_shape shape.now) }
{
    match shape {
        Shape::Statement { tokens, .. } => tokens,
        Shape::Definition { .. } => &[],
    }
}

/// The word after DEFINE, if DEFINE begins the statement and a word follows.
fn name_after_define(front: Option<Directive>, tokens: &[Lexeme]) -> Option<&ShortBytes>
    ensures { option_to_list (option_copied result) ≡ by_define front tokens.now }
{
    match (front, tokens) {
        (Some(Directive::Define), [_, Lexeme::Word(name), ..]) => Some(name),
        _ => None,
    }
}

/// Whether a line defines a word that can't be defined. `front` is the directive at the front of
/// its statement.
pub(crate) fn defines_bad_name(shape: &Shape, front: Option<Directive>) -> bool
    requires front { front ≡ front_directive (statement_of (seen_shape shape.now)) }
    ensures { result ≡ list_any is_bad_name (names_of (seen_shape shape.now)) }
{
    match shape {
        Shape::Definition { name, .. } => is_bad_name(name.get()),
        Shape::Statement { label, tokens } => {
            is_bad_option(*label) || is_bad_option(name_after_define(front, tokens))
        }
    }
}

fn is_bad_option(name: Option<&ShortBytes>) -> bool
    ensures { result ≡ list_any is_bad_name (option_to_list (option_copied name.entry)) }
{
    match name {
        Some(name) => is_bad_name(name.get()),
        None => false,
    }
}

/// The name that a line defines. `front` is the directive at the front of its statement.
pub(crate) fn first_name<'a>(shape: &Shape<'a>, front: Option<Directive>) -> Option<&'a ShortBytes>
    requires front { front ≡ front_directive (statement_of (seen_shape shape.now)) }
    ensures { option_copied result ≡ first_name (names_of (seen_shape shape.now)) }
{
    match shape {
        Shape::Definition { name, .. } => Some(name),
        Shape::Statement { label, tokens } => label.or(name_after_define(front, tokens)),
    }
}
