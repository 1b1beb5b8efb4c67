//! Commands about words of instructions.
//!
//! - `decode WORD`: the word of the instruction that WORD encodes, or `none`. `show WORD`: the source
//!   text of WORD, once as a new text and once appended to another text.
//! - `decode-all`: the number of words that are instructions. Each must be the word of its instruction.
//! - `show-all`: the number of lines that were read and encoded for the source texts of all words. Each line's
//!   code must be the word, and the line must be a data line exactly if the word is not an instruction.

use crate::language::{NoNames, read};
use crate::output::{Refused, Reply};
use crate::text::hex_number;
use chip_lang::{Coded, Line, Meter, decode, encode, push_shown, show, word as word_of};
use std::alloc::{AllocError, Global};

/// Answers a command.
pub(crate) fn answer(
    alloc: Global,
    out: &mut Reply,
    word: &str,
    rest: &str,
) -> Result<(), Refused> {
    match word {
        "decode" => push_decoded(out, hex_number(rest)?),
        "show" => push_texts(alloc, out, hex_number(rest)?)?,
        "decode-all" => decode_all(out),
        "show-all" => show_all(alloc, out)?,
        _ => return Err(Refused::BadCommand),
    }
    Ok(())
}

/// Returns the word of the instruction that a word encodes, or `None` if the word encodes none.
fn decoded(word: u16) -> Option<u16> {
    decode(word).map(word_of)
}

fn push_decoded(out: &mut Reply, word: u16) {
    match decoded(word) {
        Some(word) => out.show(&format_args!("{word:04x}")),
        None => out.text("none"),
    }
}

fn decode_all(out: &mut Reply) {
    let mut count = 0u32;
    for word in 0..=65535u16 {
        if let Some(found) = decoded(word) {
            if found != word {
                return out.show(&format_args!("{word:04x} is decoded as {found:04x}"));
            }
            count = count.saturating_add(1);
        }
    }
    out.show(&format_args!("{count} instructions"));
}

fn push_texts(alloc: Global, out: &mut Reply, word: u16) -> Result<(), AllocError> {
    out.show(&format_args!("{}\n", show(alloc, word)?));
    let mut bytes = Vec::new(alloc);
    push_shown(&mut bytes, word)?;
    out.characters(&bytes);
    Ok(())
}

fn show_all(alloc: Global, out: &mut Reply) -> Result<(), AllocError> {
    let mut meter = Meter::new();
    for word in 0..=65535u16 {
        if !gives_back(alloc, &mut meter, word)? {
            out.show(&format_args!("not {word:04x}"));
            return Ok(());
        }
    }
    out.show(&format_args!("{} parsed, {} encoded", meter.parsed, meter.encoded));
    Ok(())
}

/// Whether the source text of a word has the word as its code, and is a data line exactly if the word is
/// not an instruction.
fn gives_back(alloc: Global, meter: &mut Meter, word: u16) -> Result<bool, AllocError> {
    let text = show(alloc, word)?;
    let is_data = text.as_str().starts_with("DW");
    let line = read(alloc, meter, text.as_bytes())?;
    Ok(has_code(alloc, meter, &*line, word)? && is_data == decoded(word).is_none())
}

/// Whether the code of a line is the given word.
fn has_code(alloc: Global, meter: &mut Meter, line: &Line, word: u16) -> Result<bool, AllocError> {
    match encode(alloc, meter, line, &NoNames)? {
        Coded::Bytes(bytes) => Ok(bytes.get() == word.to_be_bytes().as_slice()),
        Coded::Faulty(_) => Ok(false),
    }
}
