//! The code of a line: its bytes, and the word of an instruction with its operands.

ghost use Rattle.std.specs.Prelude.{map, ◌≡◌, ◌<◌, ◌≤◌, ◌+◌, ◌*◌, ◌++◌, ℕ, take, drop, length, slice_index};
ghost use Rattle.chip_lang.specs.Operand.{operand_of};
ghost use Rattle.chip_lang.specs.Form.{row_of_form};
ghost use Rattle.std.specs.Prelude.{IfOk};
ghost use Rattle.chip_lang.specs.Code.{byte_of, word_bytes, datum_of, data_bytes, own_bytes, own_length, coded, code_of, code_length, bytes_coded, fault_coded};
ghost use Rattle.chip_lang.specs.SeenLine.{seen_body, seen_line};
ghost use Rattle.chip_lang.specs.Tree.{tree_of};
ghost use Rattle.chip_lang.specs.Meter.{one_more};
ghost use Rattle.chip_lang.specs.Encoding.{number_below, signed_below, field_of, word_of_form};
ghost use Rattle.chip_lang.specs.inner.Written.{written};

use crate::expr::Expr;
use crate::fault::Fault;
use crate::form::{Form, Operand, Pattern, is_special};
use crate::line::{Body, Line};
use crate::meter::Meter;
use crate::names::Names;
use crate::short_bytes::ShortBytes;
use crate::value::eval;
use std::alloc::{AllocError, Global};

/// The result of encoding a line.
#[derive(Drop)]
pub enum Coded {
    /// The line's own bytes, without padding: those of an instruction, DB, DW or DA. Any other line
    /// has no bytes.
    Bytes(ShortBytes),
    /// The line's fault in the second pass, or its reading fault.
    Faulty(Fault),
}

/// Encodes a line under a table of names. Adds 1 to `encoded`, even if the call fails. Fails only
/// if memory runs out.
pub fn encode<N: Names>(
    alloc: Global,
    meter: &mut Meter,
    line: &Line,
    names: &N,
) -> Result<Coded, AllocError>
    ensures code { IfOk result (λ coded. coded
        ≡ code_of (seen_line line.now) (N.symbols names.now)) }
    ensures counted { meter.new ≡ record meter.old { encoded = one_more meter.old.encoded } }
    ensures not_lowered { meter.old.encoded ≤ meter.new.encoded }
{
    meter.encoded = meter.encoded.saturating_add(1);
    let mut bytes = ShortBytes::zeros(alloc, code_length(line))?;
    match write_line(line, names, bytes.get_mut()) {
        Ok(_) => Ok(Coded::Bytes(bytes)),
        Err(fault) => Ok(Coded::Faulty(fault)),
    }
}

/// Encodes a line under a table of names into `bytes`: the line's own bytes, and zeros after them.
/// If the line has a fault, all bytes become zeros, and the fault is returned. Adds 1 to `encoded`.
pub fn encode_into<N: Names>(
    meter: &mut Meter,
    line: &Line,
    names: &N,
    bytes: &mut [u8],
) -> Option<Fault>
    requires room { code_length (seen_line line.now) ≤ length bytes.old }
    ensures bytes { (k : ℕ) → slice_index bytes.new k
        ≡ slice_index (bytes_coded (code_of (seen_line line.now) (N.symbols names.now))) k }
    ensures fault { result ≡ fault_coded (code_of (seen_line line.now) (N.symbols names.now)) }
    ensures counted { meter.new ≡ record meter.old { encoded = one_more meter.old.encoded } }
    ensures not_lowered { meter.old.encoded ≤ meter.new.encoded }
{
    meter.encoded = meter.encoded.saturating_add(1);
    match write_line(line, names, bytes) {
        Ok(count) => {
            bytes[count..].fill(0);
            None
        }
        Err(fault) => {
            bytes.fill(0);
            Some(fault)
        }
    }
}

/// The number of a line's own bytes, without padding; 0 for a line with a reading fault.
fn code_length(line: &Line) -> usize
    ensures { result ≡ code_length (seen_line line.now) }
{
    let Line::Read { body, .. } = line else {
        return 0;
    };
    match body {
        Body::Db(exprs) => exprs.len(),
        Body::Dw(exprs) => 2 * exprs.len(),
        Body::Da(text) => text.get().len(),
        Body::Code(_, _) => 2,
        _ => 0,
    }
}

/// Writes the code of a line to the start of `bytes` and returns the number of its bytes, or
/// returns the line's fault. The caller can't rely on the bytes after the code or, after a fault,
/// on any byte.
fn write_line<N: Names>(line: &Line, names: &N, bytes: &mut [u8]) -> Result<usize, Fault>
    requires room { code_length (seen_line line.now) ≤ length bytes.old }
    ensures code { coded (written bytes.new result)
        ≡ code_of (seen_line line.now) (N.symbols names.now) }
    ensures count { IfOk result (λ count. count ≡ code_length (seen_line line.now)) }
{
    match line {
        Line::Bad(fault) => Err(*fault),
        Line::Read { body, .. } => write_body(body, names, bytes),
    }
}

/// Writes the code of a statement and returns the number of bytes written, or returns the
/// statement's fault.
#[tactic(auto, unfolding(crate::specs::Code::own_bytes))]
fn write_body<N: Names>(body: &Body, names: &N, bytes: &mut [u8]) -> Result<usize, Fault>
    requires room { own_length (seen_body body.now) ≤ length bytes.old }
    ensures code { written bytes.new result
        ≡ own_bytes (seen_body body.now) (N.symbols names.now) }
    ensures count { IfOk result (λ count. count ≡ own_length (seen_body body.now)) }
{
    match body {
        Body::Db(exprs) => write_bytes(exprs, names, bytes),
        Body::Dw(exprs) => write_words(exprs, names, bytes),
        Body::Da(text) => {
            let text = text.get();
            bytes[..text.len()].copy_from_slice(text);
            Ok(text.len())
        }
        Body::Code(form, operands) => {
            let word = word_of_form(form, operands, names)?;
            write_word(word, bytes, 0);
            Ok(2)
        }
        _ => Ok(0),
    }
}

/// Writes a word at an index, with the high byte first.
fn write_word(word: u16, bytes: &mut [u8], place: usize)
    requires { place + 2 ≤ length bytes.old }
    ensures { bytes.new ≡ take place bytes.old ++ word_bytes word ++ drop (place + 2) bytes.old }
{
    bytes[place] = (word / 256) as u8;
    bytes[place + 1] = (word % 256) as u8;
}

/// Writes one byte for each value of DB and returns the number of bytes, or returns the first fault
/// from the left.
#[tactic(auto, using(crate::proofs::Data::data_steps))]
fn write_bytes<N: Names>(exprs: &[Expr], names: &N, bytes: &mut [u8]) -> Result<usize, Fault>
    requires room { length exprs.now ≤ length bytes.old }
    ensures code { written bytes.new result
        ≡ data_bytes 256 byte_of (map tree_of exprs.now) (N.symbols names.now) }
    ensures count { IfOk result (λ count. count ≡ length exprs.now) }
{
    for index in 0..exprs.len() {
        bytes[index] = datum(256, &exprs[index], names)? as u8;
    }
    Ok(exprs.len())
}

/// Writes one word for each value of DW and returns the number of bytes, or returns the first fault
/// from the left.
#[tactic(auto, using(crate::proofs::Data::data_steps))]
fn write_words<N: Names>(exprs: &[Expr], names: &N, bytes: &mut [u8]) -> Result<usize, Fault>
    requires room { 2 * length exprs.now ≤ length bytes.old }
    ensures code { written bytes.new result
        ≡ data_bytes 65536 word_bytes (map tree_of exprs.now) (N.symbols names.now) }
    ensures count { IfOk result (λ count. count ≡ 2 * length exprs.now) }
{
    for index in 0..exprs.len() {
        let word = datum(65536, &exprs[index], names)?;
        write_word(word, bytes, 2 * index);
    }
    Ok(2 * exprs.len())
}

/// The value of an expression in DB or DW. A negative value is taken modulo the limit, and a value
/// that is out of range is a fault.
fn datum<N: Names>(limit: u32, expr: &Expr, names: &N) -> Result<u16, Fault>
    requires low { 0 < limit }
    requires high { limit ≤ 65536 }
    ensures value { result ≡ datum_of limit (tree_of expr.now) (N.symbols names.now) }
    ensures bound { IfOk result (λ number. number < limit) }
{
    signed_below(limit, eval(expr, names)?)
}

/// The word of a form and its operands, or the first fault from the left. Too few or too many
/// operands are a fault.
fn word_of_form<N: Names>(form: &Form, operands: &[Operand], names: &N) -> Result<u16, Fault>
    ensures { result
        ≡ word_of_form (row_of_form form.now) (map operand_of operands.now) (N.symbols names.now) }
{
    let mut word = form.base;
    for (pattern, operand) in form.patterns.iter().zip(operands) {
        word |= field_of(*pattern, operand, names)?;
    }
    if form.patterns.len() == operands.len() {
        Ok(word)
    } else {
        Err(Fault::WrongOperands)
    }
}

/// The bits that an operand puts into the word. An operand that doesn't fit its pattern is a fault.
#[tactic(auto, unfolding(crate::specs::Encoding::field_of, crate::specs::Form::matches))]
fn field_of<N: Names>(pattern: Pattern, operand: &Operand, names: &N) -> Result<u16, Fault>
    ensures { result ≡ field_of pattern (operand_of operand.now) (N.symbols names.now) }
{
    match operand {
        Operand::Register(register) => match pattern {
            Pattern::Vx => Ok(u16::from(register.number()) * 256),
            Pattern::Vy => Ok(u16::from(register.number()) * 16),
            Pattern::V0 if register.number() == 0 => Ok(0),
            _ => Err(Fault::WrongOperands),
        },
        Operand::Special(special) if is_special(*special, pattern) => Ok(0),
        Operand::Special(_) => Err(Fault::WrongOperands),
        Operand::Value(expr) => {
            if !matches!(pattern, Pattern::Nibble | Pattern::Byte | Pattern::Address) {
                return Err(Fault::WrongOperands);
            }
            let value = eval(expr, names)?;
            match pattern {
                Pattern::Nibble => number_below(16, value),
                Pattern::Byte => signed_below(256, value),
                _ => number_below(4096, value),
            }
        }
    }
}

fn number_below(limit: u16, value: i32) -> Result<u16, Fault>
    ensures { result ≡ number_below limit value }
{
    match u16::try_from(value) {
        Ok(number) if number < limit => Ok(number),
        _ => Err(Fault::OutOfRange),
    }
}

/// A value from -`limit` / 2 to `limit` - 1 as a byte or a word. A negative value is taken modulo
/// the limit. Any other value is a fault.
fn signed_below(limit: u32, value: i32) -> Result<u16, Fault>
    requires low { 0 < limit }
    requires high { limit ≤ 65536 }
    ensures value { result ≡ signed_below limit value }
    ensures bound { IfOk result (λ number. number < limit) }
{
    if value >= 0 {
        let number = value as u32;
        if number < limit {
            Ok(number as u16)
        } else {
            Err(Fault::OutOfRange)
        }
    } else {
        let number = (-1 - value) as u32;
        if number < limit / 2 {
            Ok((limit - (number + 1)) as u16)
        } else {
            Err(Fault::OutOfRange)
        }
    }
}
