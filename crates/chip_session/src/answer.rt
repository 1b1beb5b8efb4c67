//! The answers to questions about the source, as bytes.
ghost use Rattle.std.specs.Prelude.{◌≡◌, ◌++◌, IfOk, OnOk};
ghost use Rattle.chip_asm.specs.Program.{symbols_of, faults_of};
ghost use Rattle.chip_asm.specs.Listing.{listing_of};
ghost use Rattle.chip_session.specs.Text.{hex_line};
ghost use Rattle.chip_session.specs.Answers.{symbol_line, symbols_text, fault_line, faults_text, listing_text};

use crate::text::{push_hex, push_signed};
use chip_asm::{Source, Symbol};
use chip_lang::Fault;
use chip_trace::push_decimal;
use std::alloc::{AllocError, Global};

// Room for a symbol with a name of usual length.
const SYMBOL_ROOM: usize = 24;

/// Appends the bytes in lowercase hexadecimal, followed by a newline.
pub(crate) fn push_hex_line(text: &mut Vec<u8>, bytes: &[u8]) -> Result<(), AllocError>
    ensures { OnOk result (text.new.items ≡ text.old.items ++ hex_line bytes.now) }
{
    push_hex(text, bytes)?;
    text.push(b'\n')?;
    Ok(())
}

/// Returns one line per symbol, with its name, its value and its line number. Fails only if memory
/// runs out.
pub fn symbols_answer(alloc: Global, source: &Source) -> Result<Vec<u8>, AllocError>
    ensures { IfOk result (λ text. text.items ≡ symbols_text (symbols_of source.now.lines)) }
{
    let mut text = Vec::with_capacity(alloc, source.symbol_count().saturating_mul(SYMBOL_ROOM))?;
    for place in 0..source.symbol_count() {
        let Some((name, symbol)) = source.symbol_at(place) else {
            unreachable!()
        };
        push_symbol(&mut text, name, symbol)?;
    }
    text.extend_from_slice(b".\n")?;
    Ok(text)
}

fn push_symbol(text: &mut Vec<u8>, name: &[u8], symbol: Symbol) -> Result<(), AllocError>
    ensures { OnOk result (text.new.items ≡ text.old.items ++ symbol_line (name.now, symbol)) }
{
    text.extend_from_slice(name)?;
    text.push(b' ')?;
    push_signed(text, symbol.value)?;
    text.push(b' ')?;
    push_decimal(text, symbol.line as u64)?;
    text.push(b'\n')?;
    Ok(())
}

/// Returns one line for each faulty line of the source. Fails only if memory runs out.
pub fn faults_answer(alloc: Global, source: &Source) -> Result<Vec<u8>, AllocError>
    ensures { IfOk result (λ text. text.items ≡ faults_text (faults_of source.now.lines)) }
{
    let faults = source.faults(alloc)?;
    faults_text(alloc, &faults)
}

fn faults_text(alloc: Global, faults: &[(usize, Fault)]) -> Result<Vec<u8>, AllocError>
    ensures { IfOk result (λ text. text.items ≡ faults_text faults.now) }
{
    let mut text = Vec::new(alloc);
    for (line, fault) in faults {
        push_fault(&mut text, *line, *fault)?;
    }
    text.extend_from_slice(b".\n")?;
    Ok(text)
}

fn push_fault(text: &mut Vec<u8>, line: usize, fault: Fault) -> Result<(), AllocError>
    ensures { OnOk result (text.new.items ≡ text.old.items ++ fault_line (line, fault)) }
{
    push_decimal(text, line as u64)?;
    text.extend_from_slice(b" F")?;
    push_decimal(text, u64::from(fault.number()))?;
    text.push(b'\n')?;
    Ok(())
}

/// Returns the listing, followed by a line that contains only a full stop. Fails only if memory runs out.
pub fn listing_answer(alloc: Global, source: &Source) -> Result<Vec<u8>, AllocError>
    ensures { IfOk result (λ text. text.items ≡ listing_text (listing_of source.now.lines)) }
{
    let mut text = source.listing(alloc)?;
    text.extend_from_slice(b".\n")?;
    Ok(text)
}
