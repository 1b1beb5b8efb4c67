//! The place in a source or an image at which a search met its target.
ghost use Rattle.std.specs.Prelude.{◌<◌};

use chip_asm::{LineView, Source};
use chip_explore::{KeyEvent, Met, Outcome};
use chip_lang::{Kind, push_shown};
use chip_machine::{Machine, Touch};
use chip_replay::KEYS;
use chip_trace::{push_decimal, word_digits};
use std::alloc::{AllocError, Global};

/// Returns the text to print after the step at which a machine stopped or broke a property: a comma, and
/// the number and the statement of the source line at pc. If no line begins there, the text shows the
/// address and the word, as for an image. The text is empty if the search met an address or nothing.
pub(crate) fn place_text(
    alloc: Global,
    source: &Source,
    start: &Machine,
    rate: u32,
    outcome: &Outcome,
) -> Result<Vec<u8>, AllocError>
    requires rate { 0 < rate }
{
    let Some(met) = place_met(start, rate, outcome)? else {
        return Ok(Vec::new(alloc));
    };
    let line = line_text(alloc, source, met.address)?;
    if line.is_empty() {
        return met.text(alloc);
    }
    Ok(line)
}

/// Returns a comma, and the number and the statement of the source line at an address. The text is
/// empty if no line begins there.
///
/// # Errors
///
/// Out of memory.
pub fn line_text(alloc: Global, source: &Source, address: u16) -> Result<Vec<u8>, AllocError> {
    let mut text = Vec::new(alloc);
    for number in 1..=source.lines() {
        if let Some(line) = source.line(number)
            && line.is_active()
            && line.size() > 0
            && line.address() == address as usize
        {
            text.extend_from_slice(b", line ")?;
            push_decimal(&mut text, number as u64)?;
            text.extend_from_slice(b": ")?;
            text.extend_from_slice(statement_of(alloc, &line)?)?;
            break;
        }
    }
    Ok(text)
}

/// Returns the text to print after the step in the search of an image: a comma, the value of pc
/// and, if memory contains a whole word there, its source text.
pub(crate) fn word_text(
    alloc: Global,
    start: &Machine,
    rate: u32,
    outcome: &Outcome,
) -> Result<Vec<u8>, AllocError>
    requires rate { 0 < rate }
{
    match place_met(start, rate, outcome)? {
        Some(met) => met.text(alloc),
        None => Ok(Vec::new(alloc)),
    }
}

/// Returns a colon and the source text of the word that is at an address before the first step. The
/// text is empty if there is no whole word.
pub(crate) fn first_word_text(
    alloc: Global,
    start: &Machine,
    address: u16,
) -> Result<Vec<u8>, AllocError> {
    let mut text = Vec::new(alloc);
    push_word(&mut text, word_at(start.memory(), address))?;
    Ok(text)
}

// Appends a colon and the source text of a word, if there is one.
fn push_word(text: &mut Vec<u8>, word: Option<u16>) -> Result<(), AllocError> {
    if let Some(word) = word {
        text.extend_from_slice(b": ")?;
        push_shown(text, word)?;
    }
    Ok(())
}

// The place at which a machine is.
#[derive(Clone, Copy)]
struct Place {
    // The value of pc.
    address: u16,
    // The word at that address. None if the word would reach past the end of memory.
    word: Option<u16>,
}

impl Place {
    // Returns a comma, the address and, if there is a whole word, its source text.
    fn text(&self, alloc: Global) -> Result<Vec<u8>, AllocError> {
        let mut text = Vec::from_slice(alloc, b", ")?;
        text.extend_from_slice(&word_digits(self.address))?;
        push_word(&mut text, self.word)?;
        Ok(text)
    }
}

// Returns the place at which a machine stopped or broke a property. Returns None if nothing was
// met, or if an address was met, because the arguments already name it.
fn place_met(start: &Machine, rate: u32, outcome: &Outcome) -> Result<Option<Place>, AllocError>
    requires rate { 0 < rate }
{
    match outcome {
        Outcome::Found {
            met: Met::Address,
            ..
        }
        | Outcome::Later {
            met: Met::Address,
            ..
        } => Ok(None),
        Outcome::Found { events, step, .. } | Outcome::Later { events, step, .. } => {
            Ok(Some(place_at(start, rate, events, *step)?))
        }
        Outcome::Within(_) | Outcome::Never => Ok(None),
    }
}

// Returns the place of a machine at a step, given key events in step order. A search may find more events than
// a replay takes.
fn place_at(start: &Machine, rate: u32, events: &[KeyEvent], step: u32) -> Result<Place, AllocError>
    requires rate { 0 < rate }
{
    let mut machine = start.copy_of()?;
    let mut touch = Touch::new();
    let mut down = 0;
    let mut next = 0;
    for made in 0..step {
        for _event in next..events.len() {
            let Some(event) = events.get(next) else {
                break;
            };
            if event.step > made {
                break;
            }
            down = down_after(down, event);
            next = next.saturating_add(1);
        }
        let number = u64::from(made) + 1;
        machine.step(down, number % u64::from(rate) == 0, &mut touch);
    }
    Ok(Place {
        address: machine.pc(),
        word: word_at(machine.memory(), machine.pc()),
    })
}

// Returns the keys that are down after an event, key k at bit k.
fn down_after(down: u16, event: &KeyEvent) -> u16 {
    let key = if event.key < KEYS { 1 << event.key } else { 0 };
    if event.down { down | key } else { down & !key }
}

// Returns the word at an address, if both its bytes lie in memory.
fn word_at(memory: &[u8], address: u16) -> Option<u16> {
    let at = usize::from(address);
    if at + 1 < memory.len() {
        Some(u16::from(memory[at]) * 256 + u16::from(memory[at + 1]))
    } else {
        None
    }
}

// Returns the text of a line's statement, from the first token after a label to the last token.
// Comments are not tokens.
fn statement_of<'a>(alloc: Global, line: &LineView<'a>) -> Result<&'a [u8], AllocError> {
    let tokens = line.tokens(alloc)?;
    let start = match (tokens.get(1), tokens.get(2)) {
        (Some(colon), Some(first)) if colon.kind == Kind::Sign(b':') => first.start,
        _ => tokens.first().map_or(0, |first| first.start),
    };
    let end = tokens.last().map_or(0, |last| last.end);
    Ok(line.text().get(start..end).unwrap_or(b""))
}
