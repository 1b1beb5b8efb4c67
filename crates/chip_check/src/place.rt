//! Finds the place of a fault in a source.

ghost use Rattle.std.specs.Prelude.{◌≡◌, ◌≤◌, ◌<◌, IfOk, IfSome, length, map};
ghost use Rattle.std.specs.Option.{option_copied};
ghost use Rattle.chip_lang.specs.Code.{datum_of};
ghost use Rattle.chip_lang.specs.Encoding.{field_of};
ghost use Rattle.chip_lang.specs.Operand.{operand_of};
ghost use Rattle.chip_lang.specs.SeenLine.{seen_line};
ghost use Rattle.chip_lang.specs.Scan.{AreTokens};
ghost use Rattle.chip_lang.specs.Tree.{tree_of};
ghost use Rattle.chip_lang.specs.computed.Tokens.{tokens_of};
ghost use Rattle.chip_symbols.specs.Names.{values_of};
ghost use Rattle.chip_asm.specs.Program.{symbols_of};
ghost use Rattle.chip_check.specs.inner.Known.{Agree, listed};
ghost use Rattle.chip_check.specs.Place.{last_seen, is_unknown_name, is_unknown, first_unknown, undefined_place, is_out, number_in, first_data_out, first_out, out_operand, tokens_after, is_comma, operand_end, operand_span, out_of_range_place, place_in};

use crate::known::Known;
use chip_asm::{LineView, Source};
use chip_lang::short_bytes::ShortBytes;
use chip_lang::{
    Body, Bytes, Expr, Fault, Kind, Line, Operand, Pattern, Span, Token, eval, name_of_token,
};
use std::alloc::{AllocError, Global};

/// The place of a fault in a line with these tokens: for F9 the first name without a value, for F10
/// the first operand whose value is out of range, and for other faults the `span_of` of the line.
pub(crate) fn place_in(
    alloc: Global,
    source: &Source,
    known: &Known,
    line: &LineView<'_>,
    tokens: &[Token],
    fault: Fault,
) -> Result<Span, AllocError>
    requires known { Agree (listed known.now.symbols.entries) (symbols_of source.now.lines) }
    requires tokens { tokens.now ≡ tokens_of line.now.text }
    ensures span { IfOk result (λ span. span
        ≡ place_in fault source.now.lines line.now.number line.now.text) }
    ensures rises { IfOk result (λ span. span.start ≤ span.end) }
    ensures inside { IfOk result (λ span. span.end ≤ length line.now.text) }
{
    let span = line.span_of(alloc, fault)?;
    match fault {
        Fault::UndefinedName => undefined_place(alloc, source, known, line, tokens, span),
        Fault::OutOfRange => Ok(out_of_range_place(known, line, tokens, span)),
        _ => Ok(span),
    }
}

/// The span of the first operand whose value is out of range; `span` if there is none.
fn out_of_range_place(known: &Known, line: &LineView<'_>, tokens: &[Token], span: Span) -> Span
    requires tokens { tokens.now ≡ tokens_of line.now.text }
    requires rises { span.start ≤ span.end }
    requires inside { span.end ≤ length line.now.text }
    ensures span { result ≡ out_of_range_place (values_of (listed known.now.symbols.entries))
        line.now.text span }
    ensures rises { result.start ≤ result.end }
    ensures inside { result.end ≤ length line.now.text }
{
    let index = out_operand(line.reading(), known);
    match operand_span(index, tokens_after(span.start, tokens)) {
        Some(found) => found,
        None => span,
    }
}

/// The index, from 0, of the first operand of a line whose value is out of range.
pub(crate) fn out_operand(line: &Line, names: &Known) -> usize
    ensures { result
        ≡ out_operand (seen_line line.now) (values_of (listed names.now.symbols.entries)) }
{
    let Line::Read { body, .. } = line else {
        return 0;
    };
    match body {
        Body::Db(values) => first_data_out(256, values, names),
        Body::Dw(values) => first_data_out(65536, values, names),
        Body::Code(form, operands) => first_out(form.patterns, operands, names),
        _ => 0,
    }
}

/// The number of values of DB or DW before the first one that is out of range.
fn first_data_out(limit: u32, values: &[Expr], names: &Known) -> usize
    requires low { 0 < limit }
    requires high { limit ≤ 65536 }
    ensures value { result ≡ first_data_out limit (map tree_of values.now)
        (values_of (listed names.now.symbols.entries)) }
    ensures bound { result ≤ length values.now }
{
    let Some((value, values)) = values.split_first() else {
        return 0;
    };
    if is_datum_out(limit, value, names) {
        return 0;
    }
    first_data_out(limit, values, names) + 1
}

/// Whether a value of DB or DW is out of range.
fn is_datum_out(limit: u32, value: &Expr, names: &Known) -> bool
    requires low { 0 < limit }
    requires high { limit ≤ 65536 }
    ensures { result ≡ is_out
        (datum_of limit (tree_of value.now) (values_of (listed names.now.symbols.entries))) }
{
    match eval(value, names) {
        Ok(number) if number >= 0 => number as u32 >= limit,
        Ok(number) => (-1 - number) as u32 >= limit / 2,
        Err(fault) => fault == Fault::OutOfRange,
    }
}

/// The number of operands before the first one whose value is out of range.
fn first_out(patterns: &[Pattern], operands: &[Operand], names: &Known) -> usize
    ensures value { result ≡ first_out patterns.now (map operand_of operands.now)
        (values_of (listed names.now.symbols.entries)) }
    ensures bound { result ≤ length operands.now }
{
    let Some((pattern, patterns)) = patterns.split_first() else {
        return 0;
    };
    let Some((operand, operands)) = operands.split_first() else {
        return 0;
    };
    if is_field_out(*pattern, operand, names) {
        return 0;
    }
    first_out(patterns, operands, names) + 1
}

/// Whether the value of an operand is out of the range of its field.
#[tactic(auto, unfolding(chip_lang::specs::Encoding::field_of))]
fn is_field_out(pattern: Pattern, operand: &Operand, names: &Known) -> bool
    ensures { result ≡ is_out (field_of pattern (operand_of operand.now)
        (values_of (listed names.now.symbols.entries))) }
{
    let Operand::Value(expr) = operand else {
        return false;
    };
    match pattern {
        Pattern::Nibble => is_number_out(16, expr, names),
        Pattern::Byte => is_datum_out(256, expr, names),
        Pattern::Address => is_number_out(4096, expr, names),
        _ => false,
    }
}

/// Whether a value that must not be negative is out of range.
fn is_number_out(limit: u16, expr: &Expr, names: &Known) -> bool
    ensures { result ≡ is_out
        (number_in limit (tree_of expr.now) (values_of (listed names.now.symbols.entries))) }
{
    match eval(expr, names) {
        Ok(number) => match u16::try_from(number) {
            Ok(number) => number >= limit,
            Err(_) => true,
        },
        Err(fault) => fault == Fault::OutOfRange,
    }
}

/// The tokens that begin at or after a place.
pub(crate) fn tokens_after(place: usize, tokens: &[Token]) -> &[Token]
    ensures { result.now ≡ tokens_after place tokens.now }
{
    let mut rest = tokens;
    while let [token, more @ ..] = rest {
        if place <= token.start {
            break;
        }
        rest = more;
    }
    rest
}

/// The span of the operand with this index; the tokens begin with the first operand.
fn operand_span(index: usize, tokens: &[Token]) -> Option<Span>
    ensures { result ≡ operand_span index tokens.now }
{
    let (token, more) = tokens.split_first()?;
    if index == 0 {
        return Some(Span {
            start: token.start,
            end: operand_end(token.end, more),
        });
    }
    operand_span(if is_comma(*token) { index - 1 } else { index }, more)
}

/// The end of the last token before the next comma, or `place` if the comma or the end comes first.
fn operand_end(place: usize, tokens: &[Token]) -> usize
    ensures { result ≡ operand_end place tokens.now }
{
    match tokens {
        [token, more @ ..] if !is_comma(*token) => operand_end(token.end, more),
        _ => place,
    }
}

fn is_comma(token: Token) -> bool
    ensures { result ≡ is_comma token }
{
    match token.kind {
        Kind::Sign(sign) => sign == b',',
        _ => false,
    }
}

/// The span of the first name without a value at or after the start of `span`; `span` if there is none.
fn undefined_place(
    alloc: Global,
    source: &Source,
    known: &Known,
    line: &LineView<'_>,
    tokens: &[Token],
    span: Span,
) -> Result<Span, AllocError>
    requires known { Agree (listed known.now.symbols.entries) (symbols_of source.now.lines) }
    requires tokens { tokens.now ≡ tokens_of line.now.text }
    requires rises { span.start ≤ span.end }
    requires inside { span.end ≤ length line.now.text }
    ensures span { IfOk result (λ found.
        found ≡ undefined_place source.now.lines line.now.number line.now.text span) }
    ensures rises { IfOk result (λ found. found.start ≤ found.end) }
    ensures inside { IfOk result (λ found. found.end ≤ length line.now.text) }
{
    let last = last_seen(line.number(), source.lines(), line.reading());
    match first_unknown(alloc, known, last, line.text(), span.start, tokens)? {
        Some(found) => Ok(found),
        None => Ok(span),
    }
}

/// The number of the last line whose names are visible to a line.
fn last_seen(number: usize, count: usize, line: &Line) -> usize
    ensures { result ≡ last_seen number count (seen_line line.now) }
{
    match line {
        Line::Read {
            body: Body::Equ(_) | Body::Org(_) | Body::Ds(_),
            ..
        } => number.saturating_sub(1),
        _ => count,
    }
}

/// The span of the first name, at or after a place, that no line up to the line `last` defines.
fn first_unknown(
    alloc: Global,
    known: &Known,
    last: usize,
    line: &[u8],
    place: usize,
    tokens: &[Token],
) -> Result<Option<Span>, AllocError>
    requires { AreTokens line.now 0 tokens.now }
    ensures value { IfOk result (λ found.
        found ≡ first_unknown (listed known.now.symbols.entries) last line.now place tokens.now) }
    ensures rises { IfOk result (λ found. IfSome found (λ span. span.start ≤ span.end)) }
    ensures inside { IfOk result (λ found. IfSome found (λ span. span.end ≤ length line.now)) }
{
    for token in tokens {
        if is_unknown(alloc, known, last, line, place, *token)? {
            return Ok(Some(Span {
                start: token.start,
                end: token.end,
            }));
        }
    }
    Ok(None)
}

fn is_unknown(
    alloc: Global,
    known: &Known,
    last: usize,
    line: &[u8],
    place: usize,
    token: Token,
) -> Result<bool, AllocError>
    requires rises { token.start ≤ token.end }
    requires inside { token.end ≤ length line.now }
    ensures { IfOk result (λ answer.
        answer ≡ is_unknown (listed known.now.symbols.entries) last line.now place token) }
{
    if token.start < place {
        return Ok(false);
    }
    let name = name_of_token(alloc, line, token)?;
    is_unknown_name(alloc, known, last, name.as_ref())
}

fn is_unknown_name(
    alloc: Global,
    known: &Known,
    last: usize,
    name: Option<&Bytes>,
) -> Result<bool, AllocError>
    ensures { IfOk result (λ answer. answer
        ≡ is_unknown_name (listed known.now.symbols.entries) last (option_copied name.entry)) }
{
    let Some(name) = name else {
        return Ok(false);
    };
    let name = ShortBytes::in_upper_case(alloc, name.get())?;
    match known.find(name.get()) {
        Some(symbol) => Ok(symbol.line > last),
        None => Ok(true),
    }
}
