//! Reading the statement of a line.

ghost use Rattle.std.specs.Prelude.{◌≡◌, ℕ, Bool, List, Some, None, IfOk, map, option_map};
ghost use Rattle.std.specs.Option.{option_copied};
ghost use Rattle.chip_lang.specs.Line.{one_text, one_name, one_switch, is_known_option, directive_body, takes_label, is_outside, is_skipped, instruction_body, statement_of, front_directive, statement_body, body_of_shape};
ghost use Rattle.chip_lang.specs.Form.{row_of_form};
ghost use Rattle.chip_lang.specs.SeenLine.{seen_statement};
ghost use Rattle.chip_lang.specs.inner.NamedForms.{forms_of, front_forms};
ghost use Rattle.chip_lang.specs.inner.SeenShape.{seen_shape};

use crate::bytes::Bytes;
use crate::directive::Directive;
use crate::form::{Form, find_form};
use crate::front::free_name;
use crate::lexeme::{Lexeme, is_the};
use crate::line::Body;
use crate::operands::{operands_of, values_of};
use crate::parse::parse_expression;
use crate::shape::Shape;
use std::alloc::{AllocError, Global};

/// The meaning of a line; none if something after its first word doesn't fit. `front` is the
/// directive at the front of its statement, and `forms` contains the forms of the instruction
/// there. Fails only if memory runs out.
pub(crate) fn body_of_shape(
    alloc: Global,
    shape: &Shape,
    front: Option<Directive>,
    forms: &'static [Form],
) -> Result<Option<Body>, AllocError>
    requires front { front ≡ front_directive (statement_of (seen_shape shape.now)) }
    requires forms { map row_of_form forms.now ≡ front_forms (statement_of (seen_shape shape.now)) }
    ensures { IfOk result (λ body. seen_statement body ≡ body_of_shape (seen_shape shape.now)) }
{
    match shape {
        Shape::Definition { value, .. } => Ok(parse_expression(alloc, value)?.map(Body::Equ)),
        Shape::Statement { label, tokens } => {
            statement_body(alloc, label.is_some(), front, forms, tokens)
        }
    }
}

/// The meaning of a statement; none if it doesn't fit. `labelled` means that a label precedes it.
fn statement_body(
    alloc: Global,
    labelled: bool,
    front: Option<Directive>,
    forms: &'static [Form],
    tokens: &[Lexeme],
) -> Result<Option<Body>, AllocError>
    requires front { front ≡ front_directive tokens.now }
    requires forms { map row_of_form forms.now ≡ front_forms tokens.now }
    ensures { IfOk result (λ body. seen_statement body ≡ statement_body labelled tokens.now) }
{
    match tokens {
        [] => Ok(Some(Body::Empty)),
        [Lexeme::Word(word), operands @ ..] => match front {
            Some(directive) if labelled && !takes_label(directive) => Ok(None),
            Some(directive) => directive_body(alloc, directive, operands),
            None => instruction_body(alloc, forms, word.get(), operands),
        },
        _ => Ok(None),
    }
}

/// The source form of an instruction, and its operands; none if they fit no form.
fn instruction_body(
    alloc: Global,
    forms: &'static [Form],
    name: &[u8],
    tokens: &[Lexeme],
) -> Result<Option<Body>, AllocError>
    requires forms { map row_of_form forms.now ≡ forms_of name.now }
    ensures { IfOk result (λ body. seen_statement body ≡ instruction_body name.now tokens.now) }
{
    let Some(operands) = operands_of(alloc, tokens)? else {
        return Ok(None);
    };
    match find_form(forms, name, &operands) {
        Some(form) => Ok(Some(Body::Code(form, operands))),
        None => Ok(None),
    }
}

/// The meaning of a directive and its operands; none if they don't fit.
fn directive_body(
    alloc: Global,
    directive: Directive,
    tokens: &[Lexeme],
) -> Result<Option<Body>, AllocError>
    ensures { IfOk result (λ body. seen_statement body ≡ directive_body directive tokens.now) }
{
    match directive {
        Directive::Org => Ok(parse_expression(alloc, tokens)?.map(Body::Org)),
        Directive::Ds => Ok(parse_expression(alloc, tokens)?.map(Body::Ds)),
        Directive::Db => Ok(values_of(alloc, tokens)?.map(Body::Db)),
        Directive::Dw => Ok(values_of(alloc, tokens)?.map(Body::Dw)),
        Directive::Da => Ok(one_text(alloc, tokens)?.map(Body::Da)),
        Directive::Align => Ok(one_switch(tokens).map(Body::Align)),
        Directive::Ifdef => Ok(one_name(alloc, tokens)?.map(Body::Ifdef)),
        Directive::Ifund => Ok(one_name(alloc, tokens)?.map(Body::Ifund)),
        Directive::Define => Ok(one_name(alloc, tokens)?.map(|_| Body::Define)),
        Directive::Else => Ok(tokens.is_empty().then_some(Body::Else)),
        Directive::Endif => Ok(tokens.is_empty().then_some(Body::Endif)),
        Directive::End => Ok(tokens.is_empty().then_some(Body::End)),
        Directive::Options => Ok(Some(Body::Options)),
        Directive::Used => Ok(Some(Body::Used)),
        Directive::Xref => Ok(Some(Body::Xref)),
        Directive::Equ | Directive::Include | Directive::Undef => Ok(None),
    }
}

/// The bytes of a text, if the tokens are one text.
fn one_text(alloc: Global, tokens: &[Lexeme]) -> Result<Option<Bytes>, AllocError>
    ensures { IfOk result (λ text. text ≡ one_text tokens.now) }
{
    match tokens {
        [Lexeme::Text(text)] => Ok(Some(Bytes::from_slice(alloc, text.get())?)),
        _ => Ok(None),
    }
}

/// The name, if the tokens are one word that isn't reserved.
fn one_name(alloc: Global, tokens: &[Lexeme]) -> Result<Option<Bytes>, AllocError>
    ensures { IfOk result (λ name. name ≡ one_name tokens.now) }
{
    match tokens {
        [Lexeme::Word(word)] => free_name(alloc, word.get()),
        _ => Ok(None),
    }
}

/// True for ON, false for OFF, and none for other tokens.
fn one_switch(tokens: &[Lexeme]) -> Option<bool>
    ensures { result ≡ one_switch tokens.now }
{
    match tokens {
        [token] if is_the(b"ON", token) => Some(true),
        [token] if is_the(b"OFF", token) => Some(false),
        _ => None,
    }
}

/// Whether the operands of OPTION are exactly one of the words that it accepts.
fn is_known_option(tokens: &[Lexeme]) -> bool
    ensures { result ≡ is_known_option tokens.now }
{
    match tokens {
        [token] => {
            is_the(b"BINARY", token)
                || is_the(b"CHIP8", token)
                || is_the(b"CHIP48", token)
                || is_the(b"SCHIP10", token)
                || is_the(b"SCHIP11", token)
        }
        _ => false,
    }
}

/// Whether a directive can have a label before it.
pub(crate) fn takes_label(directive: Directive) -> bool
    ensures { result ≡ takes_label directive }
{
    !matches!(
        directive,
        Directive::Define
            | Directive::Ifdef
            | Directive::Ifund
            | Directive::Else
            | Directive::Endif
            | Directive::End
            | Directive::Options
            | Directive::Used
            | Directive::Xref
    )
}

/// Whether this assembler lacks the statement: true for INCLUDE, for UNDEF, and for OPTION without
/// exactly one of the words that it accepts.
pub(crate) fn is_outside(front: Option<Directive>, tokens: &[Lexeme]) -> bool
    ensures { result ≡ is_outside front tokens.now }
{
    match (front, tokens) {
        (Some(Directive::Include | Directive::Undef), _) => true,
        (Some(Directive::Options), [_, operands @ ..]) => !is_known_option(operands),
        (Some(Directive::Options), []) => true,
        _ => false,
    }
}

/// Whether the tokens after the directive are ignored: true for USED and XREF.
pub(crate) fn is_skipped(front: Option<Directive>) -> bool
    ensures { result ≡ is_skipped front }
{
    matches!(front, Some(Directive::Used | Directive::Xref))
}
