//! The names of a source, and its listing, with values in hexadecimal.

ghost use Rattle.std.specs.Prelude.{◌≡◌, ◌++◌, IfOk, OnOk};
ghost use Rattle.chip_asm.specs.Listing.{row_by};
ghost use Rattle.chip_asm.specs.Program.{symbols_of};
ghost use Rattle.chip_views.specs.Hexadecimal.{hex_listing, hex_number, hex_symbol_line, hex_symbols, hex_value};

use crate::dis::push_word;
use chip_asm::{LineView, Source, Symbol};
use chip_lang::Bytes;
use std::alloc::{AllocError, Global};

/// Returns a line for each name of a source, in the order of the source's lines: the name, its value in
/// hexadecimal and the number of its line.
///
/// # Errors
///
/// Out of memory.
pub fn hex_symbols(alloc: Global, source: &Source) -> Result<Vec<u8>, AllocError>
    ensures { IfOk result (λ text. text.items ≡ hex_symbols (symbols_of source.now.lines)) }
{
    let symbols = source.symbols(alloc)?;
    symbols_text(alloc, &symbols)
}

fn symbols_text(alloc: Global, symbols: &[(Bytes, Symbol)]) -> Result<Vec<u8>, AllocError>
    ensures { IfOk result (λ text. text.items ≡ hex_symbols symbols.now) }
{
    let mut text = Vec::new(alloc);
    for (name, symbol) in symbols {
        push_symbol(alloc, &mut text, name, symbol)?;
    }
    Ok(text)
}

fn push_symbol(
    alloc: Global,
    text: &mut Vec<u8>,
    name: &Bytes,
    symbol: &Symbol,
) -> Result<(), AllocError>
    ensures { OnOk result (text.new.items
        ≡ text.old.items ++ hex_symbol_line (name.now, symbol.now)) }
{
    let number = symbol.line;
    let end = format!(in alloc; " {number}\n")?;
    text.extend_from_slice(name.get())?;
    text.push(b' ')?;
    push_value(text, symbol.value)?;
    text.extend_from_slice(end.as_bytes())
}

/// Returns the listing of a source, with the values of definitions in hexadecimal.
///
/// # Errors
///
/// Out of memory.
#[tactic(auto, unfolding(crate::specs::Hexadecimal::hex_listing))]
pub fn hex_listing(alloc: Global, source: &Source) -> Result<Vec<u8>, AllocError>
    ensures { IfOk result (λ text. text.items ≡ hex_listing source.now.lines) }
{
    let mut text = Vec::new(alloc);
    for place in 0..source.lines() {
        if let Some(line) = source.line(place + 1) {
            push_row(alloc, &mut text, &line)?;
        }
    }
    Ok(text)
}

/// Appends the row of the listing for a line of the source.
fn push_row(alloc: Global, text: &mut Vec<u8>, line: &LineView<'_>) -> Result<(), AllocError>
    ensures { OnOk result (text.new.items ≡ text.old.items ++ row_by hex_value line.now) }
{
    let Some(value) = line.definition() else {
        return line.push_row(text, None);
    };
    let mut shown = Vec::new(alloc);
    push_value(&mut shown, value)?;
    line.push_row(text, Some(&shown))
}

/// Appends a value in hexadecimal, in the notation of a source.
#[tactic(auto, unfolding(crate::specs::Hexadecimal::hex_value))]
fn push_value(text: &mut Vec<u8>, value: i32) -> Result<(), AllocError>
    ensures { OnOk result (text.new.items ≡ text.old.items ++ hex_value value) }
{
    if value < 0 {
        text.push(b'-')?;
    }
    push_number(text, value.unsigned_abs())
}

fn push_number(text: &mut Vec<u8>, number: u32) -> Result<(), AllocError>
    ensures { OnOk result (text.new.items ≡ text.old.items ++ hex_number number) }
{
    text.push(b'#')?;
    if number < 65536 {
        return push_word(text, number as u16);
    }
    push_word(text, (number / 65536) as u16)?;
    push_word(text, (number % 65536) as u16)
}
