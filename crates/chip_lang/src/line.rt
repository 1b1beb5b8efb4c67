//! The reading of a line.

ghost use Rattle.std.specs.Prelude.{◌≡◌, ◌≤◌, ◌*◌, IfOk, length, map, [], None, true, false};
ghost use Rattle.std.specs.Option.{option_copied};
ghost use Rattle.chip_lang.specs.Line.{bad_token, too_deep, front_directive, statement_of, begins_with_no_word, begins_with_unknown_word, faults_in_order, first_that_holds, lexemes_of, reading_of_tokens, reading_of, empty, read, shows_nothing};
ghost use Rattle.chip_lang.specs.Form.{row_of_form};
ghost use Rattle.chip_lang.specs.SeenLine.{seen_line};
ghost use Rattle.chip_lang.specs.inner.NamedForms.{front_forms};
ghost use Rattle.chip_lang.specs.inner.SeenShape.{seen_shape};
ghost use Rattle.chip_lang.specs.Uses.{names_used};
ghost use Rattle.chip_lang.specs.Meter.{one_more};

use crate::bytes::Bytes;
use crate::directive::Directive;
use crate::expr::Expr;
use crate::fault::Fault;
use crate::form::{Form, Operand};
use crate::lexeme::{Lexeme, is_sign_of, lexemes};
use crate::limits::OPEN_PARENTHESES;
use crate::meter::Meter;
use crate::shape::{Shape, defines_bad_name, first_name, front_of, shape_of, statement_of};
use crate::short_bytes::ShortBytes;
use crate::statement::{body_of_shape, is_outside, is_skipped};
use std::alloc::{AllocError, Global};

/// The meaning of a line's statement. Names are in upper case.
#[derive(Drop)]
pub enum Body {
    /// No statement.
    Empty,
    /// `NAME EQU e` or `NAME = e`.
    Equ(Expr),
    /// `ORG e`.
    Org(Expr),
    /// `DS e`.
    Ds(Expr),
    /// `DB e, ..` with at least one expression.
    Db(Vec<Expr>),
    /// `DW e, ..` with at least one expression.
    Dw(Vec<Expr>),
    /// `DA 'text'`: the bytes between the quotes.
    Da(Bytes),
    /// An instruction: the source form that fits, and its operands.
    Code(&'static Form, Vec<Operand>),
    /// `DEFINE NAME`.
    Define,
    /// `IFDEF name`.
    Ifdef(Bytes),
    /// `IFUND name`.
    Ifund(Bytes),
    /// `ELSE`.
    Else,
    /// `ENDIF`.
    Endif,
    /// `END`.
    End,
    /// `ALIGN ON` (true) or `ALIGN OFF` (false).
    Align(bool),
    /// `OPTION w`, which has no effect.
    Options,
    /// `USED ..`, which has no effect.
    Used,
    /// `XREF ..`, which has no effect.
    Xref,
}

/// The reading of a line: its label or defined name, if any, and its statement; or its reading
/// fault.
pub enum Line {
    /// The first fault of the reading.
    Bad(Fault),
    /// A line without a reading fault.
    Read {
        /// The name that a label, EQU, `=` or DEFINE defines, in upper case.
        label: Option<Bytes>,
        /// The statement.
        body: Body,
    },
}

// Dropping is one call. A derived `Drop` would be expanded, and proved, in every function that
// drops a value.
impl Drop for Line {
    fn drop(self) {
        match self {
            Line::Bad(_) | Line::Read { label: _, body: _ } => {}
        }
    }
}

/// Reads the text of a line, which may be any bytes. Each text has exactly one reading. A reading
/// uses at most half as many names as the text has bytes. Adds 1 to `parsed`, even if the call
/// fails. Fails only if memory runs out.
#[tactic(auto, unfolding(crate::specs::Line::reading_of), using(crate::proofs::NamesBound::names_bound_of))]
#[inline]
pub fn read_line(alloc: Global, meter: &mut Meter, text: &[u8]) -> Result<Line, AllocError>
    ensures reading { IfOk result (λ line. seen_line line ≡ reading_of text.now) }
    ensures names { IfOk result (λ line. 2 * length (names_used (seen_line line))
        ≤ length text.now) }
    ensures counted { meter.new ≡ record meter.old { parsed = one_more meter.old.parsed } }
{
    if read_nothing(meter, text) {
        return Ok(Line::Read {
            label: None,
            body: Body::Empty,
        });
    }
    count_reading(meter);
    reading_of_text(alloc, text)
}

/// Reads a line that is empty or begins with `;`: adds 1 to `parsed` and returns true, because such
/// a line is blank or only a comment. For any other line, returns false and changes nothing.
#[tactic(auto, unfolding(crate::specs::Line::reading_of))]
#[inline]
pub fn read_nothing(meter: &mut Meter, text: &[u8]) -> bool
    ensures shown { result ≡ shows_nothing text.now }
    ensures reading { result ≡ true → reading_of text.now ≡ read None empty }
    ensures counted { result ≡ true
        → meter.new ≡ record meter.old { parsed = one_more meter.old.parsed } }
    ensures same { result ≡ false → meter.new ≡ meter.old }
{
    if !is_plainly_empty(text) {
        return false;
    }
    count_reading(meter);
    true
}

/// Counts a line as read.
fn count_reading(meter: &mut Meter)
    ensures { meter.new ≡ record meter.old { parsed = one_more meter.old.parsed } }
{
    meter.parsed = meter.parsed.saturating_add(1);
}

/// Whether a line is empty or begins with `;`. Such a line has no tokens.
fn is_plainly_empty(text: &[u8]) -> bool
    ensures shown { result ≡ shows_nothing text.now }
    ensures empty { result ≡ true → lexemes_of text.now ≡ [] }
{
    matches!(text, [] | [b';', ..])
}

/// The reading of a line, whether or not it has tokens. Fails only if memory runs out.
#[inline(never)]
fn reading_of_text(alloc: Global, text: &[u8]) -> Result<Line, AllocError>
    ensures { IfOk result (λ line. seen_line line ≡ reading_of_tokens (lexemes_of text.now)) }
{
    let tokens = lexemes(alloc, text)?;
    reading_of_tokens(alloc, &tokens)
}

/// The reading of a line's tokens. Fails only if memory runs out.
fn reading_of_tokens(alloc: Global, tokens: &[Lexeme]) -> Result<Line, AllocError>
    ensures { IfOk result (λ line. seen_line line ≡ reading_of_tokens tokens.now) }
{
    let shape = shape_of(tokens);
    let (front, forms) = front_of(statement_of(&shape));
    if let Some(fault) = first_fault(tokens, &shape, front, forms) {
        return Ok(Line::Bad(fault));
    }
    let label = owned(alloc, first_name(&shape, front))?;
    match body_of_shape(alloc, &shape, front, forms)? {
        Some(body) => Ok(Line::Read { label, body }),
        None => Ok(Line::Bad(Fault::WrongOperands)),
    }
}

/// The first fault of a reading, except the fault of operands that don't fit. `front` is the directive at the front of
/// the statement, and `forms` contains the forms of the instruction there.
fn first_fault(
    tokens: &[Lexeme],
    shape: &Shape,
    front: Option<Directive>,
    forms: &'static [Form],
) -> Option<Fault>
    requires front { front ≡ front_directive (statement_of (seen_shape shape.now)) }
    requires forms { map row_of_form forms.now ≡ front_forms (statement_of (seen_shape shape.now)) }
    ensures { result ≡ first_that_holds (faults_in_order tokens.now (seen_shape shape.now)) }
{
    if let Some(fault) = bad_token(tokens) {
        return Some(fault);
    }
    if defines_bad_name(shape, front) {
        return Some(Fault::BadName);
    }
    let statement = statement_of(shape);
    if begins_with_no_word(statement) {
        return Some(Fault::WrongOperands);
    }
    if begins_with_unknown_word(front, forms, statement) {
        return Some(Fault::UnknownWord);
    }
    if is_outside(front, statement) {
        return Some(Fault::NotInProfile);
    }
    if !is_skipped(front) && is_too_deep(tokens) {
        return Some(Fault::TooDeep);
    }
    None
}

/// Whether a statement doesn't begin with a word.
fn begins_with_no_word(statement: &[Lexeme]) -> bool
    ensures { result ≡ begins_with_no_word statement.now }
{
    !matches!(statement, [] | [Lexeme::Word(..), ..])
}

/// Whether a statement begins with a word that is neither a directive nor an instruction. `front`
/// is the directive there, and `forms` contains the forms of the instruction there.
#[tactic(auto, using(crate::proofs::NamedForms::unknown_word))]
fn begins_with_unknown_word(front: Option<Directive>, forms: &[Form], statement: &[Lexeme]) -> bool
    requires word { begins_with_no_word statement.now ≡ false }
    requires front { front ≡ front_directive statement.now }
    requires forms { map row_of_form forms.now ≡ front_forms statement.now }
    ensures { result ≡ begins_with_unknown_word statement.now }
{
    match (front, statement) {
        (None, [Lexeme::Word(..), ..]) => forms.is_empty(),
        _ => false,
    }
}

fn owned(alloc: Global, name: Option<&ShortBytes>) -> Result<Option<Bytes>, AllocError>
    ensures { IfOk result (λ copy. copy ≡ option_copied name.entry) }
{
    match name {
        Some(name) => Ok(Some(Bytes::from_slice(alloc, name.get())?)),
        None => Ok(None),
    }
}

/// The fault of the leftmost bad token.
fn bad_token(tokens: &[Lexeme]) -> Option<Fault>
    ensures { result ≡ bad_token tokens.now }
{
    for token in tokens {
        if let Lexeme::Bad(fault) = token {
            return Some(*fault);
        }
    }
    None
}

/// Whether, at some token, the number of parentheses opened so far exceeds the number closed so far
/// by more than `OPEN_PARENTHESES`.
#[tactic(auto, using(crate::proofs::FewTokens::not_deep))]
fn is_too_deep(tokens: &[Lexeme]) -> bool
    ensures { result ≡ too_deep 0 0 tokens.now }
{
    if tokens.len() <= OPEN_PARENTHESES {
        return false;
    }
    let mut opened = 0usize;
    let mut closed = 0usize;
    for token in tokens {
        if is_sign_of(b'(', token) {
            opened += 1;
        }
        if is_sign_of(b')', token) {
            closed += 1;
        }
        if opened > closed && opened - closed > OPEN_PARENTHESES {
            return true;
        }
    }
    false
}
