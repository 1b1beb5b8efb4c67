//! `edits SEED COUNT` makes COUNT generated edits, starting with a source without lines. After each
//! edit, all answers must be those of a new source with the same lines. The command answers `ok` with
//! the number of edits of each kind, or the first edit after which an answer differs.

use crate::assembler::{boxed, edited, opened};
use crate::output::{Refused, Reply};
use crate::text::{number, split_word};
use chip_asm::Source;
use std::alloc::{AllocError, Global};

/// A source with this many lines or more gets new lines only at its end. If a source has more lines,
/// every edit that isn't at the end deletes a line.
const MOST_LINES: usize = 24;

/// The lines that edits use: 16 lines that are data, instructions or without effect, and then 16
/// lines that move other lines, define names, or open and close blocks.
const LINES: &[&str] = &[
    "",
    "; a comment",
    "LD V0, 5",
    "ADD V1, B",
    "JP A",
    "DB 1, 2",
    "DB B, 300",
    "DB 3",
    "DA 'ab'",
    "DW A",
    "A: CLS",
    "A: LD V2, C",
    "A:",
    "OPTION SCHIP11",
    "DB C / (B - 2)",
    "LD V0",
    "IFDEF A",
    "IFUND B",
    "ELSE",
    "ENDIF",
    "ENDIF",
    "END",
    "ORG #300",
    "ORG 512 + B",
    "ALIGN OFF",
    "ALIGN ON",
    "B EQU 2",
    "B EQU 3",
    "C = B * 2",
    "DS B",
    "DEFINE A",
    "DS 3000",
];

/// Returns the next number of the sequence, below 65,536.
pub(crate) fn next(state: &mut u32) -> u32 {
    *state = state.wrapping_mul(1_664_525).wrapping_add(1_013_904_223);
    *state / 65_536
}

/// Returns a generated line of `LINES`, which is one of the first 16 three times out of four.
fn some_line(state: &mut u32) -> &'static str {
    let pick = next(state) % 16;
    let is_moving = next(state) % 4 == 0;
    let place = pick + 16 * u32::from(is_moving);
    LINES.get(place as usize).copied().unwrap_or("")
}

/// Appends all answers of a source except for its work.
fn push_answers(alloc: Global, out: &mut Reply, source: &Source) -> Result<(), AllocError> {
    out.debug(&source.faults(alloc)?);
    out.debug(&source.symbols(alloc)?);
    out.characters(&source.listing(alloc)?);
    out.characters(source.image().unwrap_or(b" no image"));
    Ok(())
}

/// Whether a source returns the same answers as a new source with the same lines.
fn answers_alike(alloc: Global, source: &Source, lines: &[&str]) -> Result<bool, AllocError> {
    let mut text = Reply::new(alloc);
    for line in lines {
        text.text(line);
        text.text("\n");
    }
    let (mut ours, mut theirs) = (Reply::new(alloc), Reply::new(alloc));
    push_answers(alloc, &mut ours, source)?;
    if let Ok(fresh) = opened(alloc, "open", text.text.as_bytes()) {
        push_answers(alloc, &mut theirs, &*fresh)?;
    }
    Ok(ours.is_whole && ours.text == theirs.text)
}

/// A source, its lines, and the number of edits of each kind so far.
#[derive(Drop)]
struct Edited {
    source: Box<Source>,
    lines: Vec<&'static str>,
    replaced: u64,
    inserted: u64,
    deleted: u64,
}

impl Edited {
    /// Makes a generated edit in the source and in its lines, and returns whether the source accepted it.
    fn edit_once(&mut self, alloc: Global, state: &mut u32) -> Result<bool, AllocError> {
        let line = some_line(state);
        let count = self.lines.len();
        let place = next(state) as usize % (count + 1);
        let kind = next(state) % 8;
        let word = if place == count || (kind == 0 && count < MOST_LINES) {
            "ins"
        } else if kind == 1 || count > MOST_LINES {
            "del"
        } else {
            "rep"
        };
        self.edit_lines(word, place, line)?;
        let number = place.saturating_add(1);
        Ok(edited(alloc, &mut *self.source, word, number, line.as_bytes()).is_ok())
    }

    /// Makes the edit that a command states in the lines, and counts the edit.
    fn edit_lines(
        &mut self,
        word: &str,
        place: usize,
        line: &'static str,
    ) -> Result<(), AllocError> {
        match word {
            "rep" => {
                self.replaced = self.replaced.saturating_add(1);
                if let Some(old) = self.lines.get_mut(place) {
                    *old = line;
                }
            }
            "del" => {
                self.deleted = self.deleted.saturating_add(1);
                if place < self.lines.len() {
                    self.lines.remove(place);
                }
            }
            _ => {
                self.inserted = self.inserted.saturating_add(1);
                let place = place.min(self.lines.len());
                self.lines.insert(place, line)?;
            }
        }
        Ok(())
    }

    /// Makes `count` edits, and returns the number, counted from 0, of the first edit that is refused or
    /// after which an answer differs.
    fn first_difference(
        &mut self,
        alloc: Global,
        seed: u32,
        count: u32,
    ) -> Result<Option<u32>, AllocError> {
        let mut state = seed;
        for number in 0..count {
            let is_made = self.edit_once(alloc, &mut state)?;
            if !is_made || !answers_alike(alloc, &*self.source, &self.lines)? {
                return Ok(Some(number));
            }
        }
        Ok(None)
    }
}

/// Answers `edits`.
pub(crate) fn answer(alloc: Global, out: &mut Reply, rest: &str) -> Result<(), Refused> {
    let (seed, count) = split_word(rest);
    let (seed, count) = (number(seed)?, number(count)?);
    let mut run = Edited {
        source: boxed(alloc, Source::new(alloc))?,
        lines: Vec::new(alloc),
        replaced: 0,
        inserted: 0,
        deleted: 0,
    };
    match run.first_difference(alloc, seed, count)? {
        Some(place) => out.show(&format_args!("differs after edit {place}")),
        None => out.show(&format_args!(
            "ok {} replaced, {} inserted, {} deleted",
            run.replaced, run.inserted, run.deleted
        )),
    }
    Ok(())
}
