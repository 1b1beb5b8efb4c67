//! Commands about a whole source, which chip_asm answers.
//!
//! - `ins N LINE`, `rep N LINE`, `del N`: edits. The answer is `ok` or the refusal.
//! - `lines`, `parsed`, `work`: how many lines there are, how many lines were read, and how many
//!   were read and encoded. `encoded N`: whether at most N lines were encoded.
//! - `image`: the bytes of the image in hexadecimal, `empty` or `none`. For an image of more than 32
//!   bytes, the answer is the number of bytes and the number of bytes that aren't 0.
//! - `fault N`, `faults`: the fault of a line, or all faults with their lines. `symbol NAME`, `symbols`:
//!   the value and the line of a name, or all names with their values and lines. `listing`: the listing.
//! - `line N`: the number, address and size of a line, whether it is active, its bytes, its value, the
//!   value that it defines, its fault and its text.

use crate::language::push_fault;
use crate::output::{Refused, Reply};
use crate::text::{line_bytes, number, split_word};
use chip_asm::{LineView, OpenError, Refusal, Source, Symbol};
use chip_lang::Fault;
use std::alloc::{AllocError, Global};

/// Opens a source. For `open-bytes`, the source takes over the bytes. Otherwise it copies them.
pub(crate) fn opened(alloc: Global, word: &str, text: &[u8]) -> Result<Box<Source>, OpenError> {
    let source = if word == "open-bytes" {
        Source::open_bytes(alloc, Vec::from_slice(alloc, text)?)?
    } else {
        Source::open(alloc, text)?
    };
    Ok(boxed(alloc, source)?)
}

/// Returns a source in a box, so that each caller drops the source with one call.
pub(crate) fn boxed(alloc: Global, source: Source) -> Result<Box<Source>, AllocError> {
    Ok(Box::new(alloc, source)?)
}

/// Makes the edit that a command states.
pub(crate) fn edited(
    alloc: Global,
    source: &mut Source,
    word: &str,
    line: usize,
    text: &[u8],
) -> Result<(), Refusal> {
    match word {
        "ins" => source.insert(alloc, line, text),
        "rep" => {
            let _written = source.replace(alloc, line, text)?;
            Ok(())
        }
        _ => source.delete(alloc, line),
    }
}

/// Makes an edit, and appends `ok` or the refusal to the answer.
pub(crate) fn edit(
    alloc: Global,
    out: &mut Reply,
    built: &[u8],
    source: &mut Source,
    word: &str,
    rest: &str,
) -> Result<(), Refused> {
    let (place, line) = split_word(rest);
    let place = number(place)? as usize;
    match edited(alloc, source, word, place, line_bytes(built, line)) {
        Ok(()) => out.text("ok"),
        Err(refusal) => out.debug(&refusal),
    }
    Ok(())
}

/// Answers a command.
pub(crate) fn answer(
    alloc: Global,
    out: &mut Reply,
    source: &Source,
    word: &str,
    rest: &str,
) -> Result<(), Refused> {
    match word {
        "image" => push_image(out, source.image()),
        "fault" => push_found(out, source.fault(number(rest)? as usize)),
        "faults" => push_faults(alloc, out, source)?,
        "symbol" => push_symbol(out, source.symbol(rest.as_bytes())),
        "symbols" => push_symbols(alloc, out, source)?,
        "listing" => out.characters(&source.listing(alloc)?),
        "lines" => out.show(&source.lines()),
        "line" => push_line(out, source.line(number(rest)? as usize)),
        "parsed" => out.show(&source.work().parsed),
        "work" => push_work(out, source),
        "encoded" => out.show(&(source.work().encoded <= u64::from(number(rest)?))),
        _ => return Err(Refused::BadCommand),
    }
    Ok(())
}

fn push_line(out: &mut Reply, line: Option<LineView<'_>>) {
    let Some(line) = line else {
        out.text("none");
        return;
    };
    let (number, address, size) = (line.number(), line.address(), line.size());
    let state = if line.is_active() {
        "active"
    } else {
        "skipped"
    };
    out.show(&format_args!("{number} {address} {size} {state} "));
    out.bytes(line.bytes());
    out.show(&format_args!(" value {}", line.value()));
    if let Some(value) = line.definition() {
        out.show(&format_args!(" defines {value}"));
    }
    out.text(" fault ");
    push_found(out, line.fault());
    out.text(": ");
    out.characters(line.text());
}

fn push_work(out: &mut Reply, source: &Source) {
    let work = source.work();
    out.numbers(&[work.parsed, work.encoded]);
}

fn push_image(out: &mut Reply, image: Option<&[u8]>) {
    match image {
        None => out.text("none"),
        Some([]) => out.text("empty"),
        Some(image) if image.len() <= 32 => out.bytes(image),
        Some(image) => {
            let others = image.iter().filter(|byte| **byte != 0).count();
            out.show(&format_args!("{} bytes, {others} not 0", image.len()));
        }
    }
}

fn push_found(out: &mut Reply, fault: Option<Fault>) {
    match fault {
        Some(fault) => push_fault(out, fault),
        None => out.text("none"),
    }
}

fn push_faults(alloc: Global, out: &mut Reply, source: &Source) -> Result<(), AllocError> {
    for (line, fault) in &source.faults(alloc)? {
        out.show(&format_args!("{line} "));
        push_fault(out, *fault);
        out.text("\n");
    }
    Ok(())
}

fn push_symbol(out: &mut Reply, symbol: Option<Symbol>) {
    match symbol {
        Some(symbol) => out.show(&format_args!("{} {}", symbol.value, symbol.line)),
        None => out.text("none"),
    }
}

fn push_symbols(alloc: Global, out: &mut Reply, source: &Source) -> Result<(), AllocError> {
    for (name, symbol) in &source.symbols(alloc)? {
        out.characters(name.get());
        out.text(" ");
        push_symbol(out, Some(*symbol));
        out.text("\n");
    }
    Ok(())
}
