//! The search for a table. It executes steps from rows, lowest address first, until they add nothing new.

ghost use Rattle.std.specs.Prelude.{◌≤◌, length};
ghost use Rattle.chip_lang.specs.declared.limits.TheConstants.{IMAGE_BYTES};

use crate::bits::{insert, next};
use crate::byte_set::{ByteSet, block, single};
use crate::finder::index::{Index, MOST_ROWS, Place};
use crate::finder::stacks::Stacks;
use crate::finder::waiting::Waiting;
use crate::finder::widening::{hurry, marks_of, widen};
use crate::index_set::{BYTES, INDEX_WORDS, IndexSet, PAST, SETS_WORDS};
use crate::known::Known;
use crate::outcome::{Outcome, Stored, Successor, Way};
use crate::table::{Left, Row, Table};
use crate::transfer::Before;
use chip_lang::instr::{Instr, decode};
use chip_lang::limits::{IMAGE_BYTES, IMAGE_START, MEMORY_BYTES};
use chip_machine::limits::LAST_WORD;
use chip_machine::{Machine, Quirks, Stop};
use std::alloc::{AllocError, Global};

/// How often a row may grow before its sets are extended to the next constant of the program.
const PATIENCE: u32 = 8;

/// The maximum number of possible words at an address of the code.
const MOST_WORDS: u32 = 256;

/// The maximum number of rows at one address that are distinguished by I, if loops are unrolled.
const MOST_TURNS: u16 = 256;

/// The options of a search.
#[derive(Clone, Copy)]
struct Manner {
    /// Whether sets are extended to the next constant of the program once a row has grown often.
    hurries: bool,
    /// Whether rows are distinguished by I if it has only one possible value, so that each iteration of a
    /// loop that changes I has its own row.
    unrolls: bool,
}

/// The options to try in this order, until every crash is excluded. A hurried search ends soon, but its
/// sets may grow too far.
const MANNERS: [Manner; 3] = [
    Manner {
        hurries: true,
        unrolls: false,
    },
    Manner {
        hurries: false,
        unrolls: false,
    },
    Manner {
        hurries: true,
        unrolls: true,
    },
];

/// What a search records about a row, in addition to the contents of the table.
#[derive(Clone, Copy)]
struct Note {
    /// The number of the row's call stack.
    stack: u32,
    /// The number of times that the row has grown.
    joins: u32,
    /// The lowest and the highest address from which the row's steps load bytes. If the lowest address is the
    /// larger one, the steps load no bytes.
    least: usize,
    greatest: usize,
}

/// A table under construction.
#[derive(Drop)]
pub(crate) struct Search {
    alloc: Global,
    quirks: Quirks,
    pub(crate) table: Table,
    notes: Vec<Note>,
    index: Index,
    stacks: Stacks,
    waiting: Waiting,
    /// The addresses of bytes whose sets have grown since rows were last put on the worklist for them.
    grown: IndexSet,
    /// The constants of the program and their neighbours. In a hurried search, sets are extended up to these.
    /// `None` if the search doesn't hurry.
    marks: Option<ByteSet>,
    /// For each address, the number of rows that are distinguished by I. Empty if loops aren't unrolled.
    turns: Vec<u16>,
}

/// Returns the label by which VF distinguishes rows at one place: 0, 1, or 2 for anything else.
fn label(known: &Known) -> u32 {
    match block(&known.registers, 15) {
        [1, 0, 0, 0] => 0,
        [2, 0, 0, 0] => 1,
        _ => 2,
    }
}

/// Returns the call stack after a step.
fn frames_after(alloc: Global, frames: &[u16], way: Way) -> Result<Vec<u16>, AllocError> {
    match way {
        Way::Same => Vec::from_slice(alloc, frames),
        Way::Call(back) => {
            let mut longer = Vec::from_slice(alloc, frames)?;
            longer.push(back)?;
            Ok(longer)
        }
        Way::Return => match frames {
            [first @ .., _] => Vec::from_slice(alloc, first),
            [] => Ok(Vec::new(alloc)),
        },
    }
}

/// Returns the only address in a set, or `None` if the set contains any other number.
fn only_address(set: &IndexSet) -> Option<u32> {
    let first = next(set, 0);
    let is_alone = first < PAST && next(set, first + 1) > PAST;
    is_alone.then_some(first as u32)
}

/// Returns the number of bytes of a set.
fn count(set: &ByteSet) -> u32 {
    let mut count: u32 = 0;
    for word in set {
        count = count.saturating_add(word.count_ones());
    }
    count
}

/// Returns the greatest number in a set, or 0 if the set is empty.
fn last(set: &IndexSet) -> usize {
    for back in 0..INDEX_WORDS {
        let word = set[INDEX_WORDS - 1 - back];
        if word != 0 {
            return (64 * (INDEX_WORDS - back) - 1).saturating_sub(word.leading_zeros() as usize);
        }
    }
    0
}

/// Returns the lowest and the highest address that an instruction loads bytes from.
fn loaded_from(instr: Instr, index: &IndexSet) -> (usize, usize) {
    match instr {
        Instr::LoadRegisters(x) => (
            next(index, 0),
            last(index).saturating_add(x.number() as usize),
        ),
        Instr::LoadFlags(_) => (PAST, BYTES),
        _ => (BYTES, 0),
    }
}

impl Search {
    /// Puts a row on the worklist.
    fn wait(&mut self, number: usize) {
        if let Some(row) = self.table.rows.get(number)
            && let Ok(number) = u32::try_from(number)
        {
            self.waiting.put(row.pc, number);
        }
    }

    /// Adds further possibilities to what is known in a row.
    fn join(&mut self, number: usize, known: &Known) {
        let Some(row) = self.table.rows.get_mut(number) else {
            return;
        };
        if known.is_within(&row.known) {
            return;
        }
        let old = row.known.registers;
        widen(&mut row.known, known);
        if let Some(note) = self.notes.get_mut(number) {
            note.joins = note.joins.saturating_add(1);
            if let Some(marks) = &self.marks
                && note.joins > PATIENCE
            {
                hurry(&mut row.known, &old, marks);
            }
        }
        self.wait(number);
    }

    /// Adds a row, and puts it on the worklist. Returns its number, or `None` if there are too many rows.
    fn add_row(
        &mut self,
        place: Place,
        frames: Vec<u16>,
        known: &Known,
    ) -> Result<Option<u32>, AllocError> {
        let number = self.table.rows.len();
        if number >= MOST_ROWS {
            return Ok(None);
        }
        self.index.insert(place, number as u32);
        self.table.rows.push(Row {
            pc: place.pc,
            frames,
            known: *known,
            leads: Vec::new(self.alloc),
        })?;
        self.notes.push(Note {
            stack: place.stack,
            joins: 0,
            least: BYTES,
            greatest: 0,
        })?;
        self.waiting.add()?;
        self.wait(number);
        Ok(Some(number as u32))
    }

    /// Returns the place of the row that a step leads to, given the number of the call stack after the step.
    fn place_of(&mut self, stack: u32, successor: &Successor) -> Place {
        let flag = label(&successor.known);
        let mut place = Place {
            pc: successor.pc,
            stack,
            label: flag,
        };
        let Some(turns) = self.turns.get_mut(successor.pc as usize) else {
            return place;
        };
        if let Some(address) = only_address(&successor.known.index) {
            // Labels 0 to 2 don't contain an address.
            place.label = address
                .saturating_add(1)
                .saturating_mul(4)
                .saturating_add(flag);
            if self.index.get(&place).is_none() {
                if *turns == MOST_TURNS {
                    place.label = flag;
                } else {
                    *turns = turns.saturating_add(1);
                }
            }
        }
        place
    }

    /// Returns the row that a step from a row leads to, after adding what is known there. Returns `None`
    /// if that would exceed a limit of the search.
    fn row_for(&mut self, from: usize, successor: &Successor) -> Result<Option<u32>, AllocError> {
        let Some(note) = self.notes.get(from) else {
            return Ok(None);
        };
        let Some(stack) = self.stacks.after(note.stack, successor.way)? else {
            return Ok(None);
        };
        let place = self.place_of(stack, successor);
        if let Some(number) = self.index.get(&place) {
            self.join(number as usize, &successor.known);
            return Ok(Some(number));
        }
        let Some(row) = self.table.rows.get(from) else {
            return Ok(None);
        };
        let frames = frames_after(self.alloc, &row.frames, successor.way)?;
        self.add_row(place, frames, &successor.known)
    }

    /// Adds what a step from a row leads to. Returns whether the search stayed within its limits.
    fn lead(&mut self, from: usize, successor: &Successor) -> Result<bool, AllocError> {
        let Some(number) = self.row_for(from, successor)? else {
            return Ok(false);
        };
        if let Some(row) = self.table.rows.get_mut(from)
            && !row.leads.contains(&number)
        {
            row.leads.push(number)?;
        }
        Ok(true)
    }

    /// Adds the bytes that a step stores to the table's memory.
    fn store(&mut self, stored: &Stored) {
        let mut from = next(&stored.at, 0);
        while from <= PAST {
            for place in 0..stored.values.len() {
                self.store_at(from.saturating_add(place), &stored.values[place]);
            }
            from = next(&stored.at, from + 1);
        }
    }

    /// Adds bytes to the set of possible bytes at an address.
    fn store_at(&mut self, at: usize, values: &ByteSet) {
        for word in 0..4 {
            let place = at.saturating_mul(4).saturating_add(word);
            if let Some(bits) = self.table.memory.get_mut(place) {
                let more = *bits | values[word];
                if more != *bits {
                    *bits = more;
                    if at < BYTES {
                        insert(&mut self.grown, at);
                    }
                }
            }
        }
    }

    /// Adds a stop to those found before, ordered by address.
    fn stop(&mut self, pc: u16, stop: Stop) -> Result<(), AllocError> {
        if self.table.has_left(pc, stop) {
            return Ok(());
        }
        let left = &mut self.table.left;
        match left.iter().position(|other| pc < other.pc) {
            Some(place) => left.insert(place, Left { pc, stop })?,
            None => left.push(Left { pc, stop })?,
        }
        Ok(())
    }

    /// Returns what an instruction may do from a row.
    fn outcome_of(&self, row: &Row, instr: Instr) -> Result<Option<Outcome>, AllocError> {
        if row.pc as usize > LAST_WORD || self.table.memory.len() != SETS_WORDS {
            return Ok(None);
        }
        let before = Before {
            memory: &self.table.memory,
            quirks: self.quirks,
            pc: row.pc,
            frames: &row.frames,
            known: row.known,
        };
        Ok(Some(before.execute(self.alloc, instr)?))
    }

    /// Adds what a word may do from a row. Returns whether the search stayed within its limits.
    fn take(&mut self, number: usize, word: u16) -> Result<bool, AllocError> {
        let Some(row) = self.table.rows.get(number) else {
            return Ok(true);
        };
        let pc = row.pc;
        let Some(instr) = decode(word) else {
            self.stop(pc, Stop::NoInstruction)?;
            return Ok(true);
        };
        let Some(out) = self.outcome_of(row, instr)? else {
            return Ok(false);
        };
        let (least, greatest) = loaded_from(instr, &row.known.index);
        if let Some(note) = self.notes.get_mut(number) {
            note.least = note.least.min(least);
            note.greatest = note.greatest.max(greatest);
        }
        if let Some(stop) = out.stop {
            self.stop(pc, stop)?;
        }
        if let Some(stored) = &out.stored {
            self.store(stored);
        }
        for successor in &out.next {
            if !self.lead(number, successor)? {
                return Ok(false);
            }
        }
        Ok(true)
    }

    /// Returns the set of possible bytes at an address.
    fn bytes_at(&self, at: usize) -> ByteSet {
        if at < MEMORY_BYTES && self.table.memory.len() == SETS_WORDS {
            block(&self.table.memory, at)
        } else {
            [0; 4]
        }
    }

    /// Executes the steps from a row. Returns whether the search stayed within its limits.
    fn step_from(&mut self, number: usize) -> Result<bool, AllocError> {
        let Some(row) = self.table.rows.get(number) else {
            return Ok(true);
        };
        let pc = row.pc;
        if pc as usize > LAST_WORD {
            self.stop(pc, Stop::PcOutOfRange)?;
            return Ok(true);
        }
        let highs = self.bytes_at(pc as usize);
        let lows = self.bytes_at(pc as usize + 1);
        if count(&highs).saturating_mul(count(&lows)) > MOST_WORDS {
            return Ok(false);
        }
        let mut high = next(&highs, 0);
        while high < 256 {
            let mut low = next(&lows, 0);
            while low < 256 {
                if !self.take(number, (high * 256 + low) as u16)? {
                    return Ok(false);
                }
                low = next(&lows, low + 1);
            }
            high = next(&highs, high + 1);
        }
        Ok(true)
    }

    /// Whether a row needs a byte whose set has grown: a byte of its word, or a byte that it loads.
    fn asks_for_grown(&self, number: usize) -> bool {
        let Some(row) = self.table.rows.get(number) else {
            return false;
        };
        let Some(note) = self.notes.get(number) else {
            return false;
        };
        next(&self.grown, row.pc as usize) <= row.pc as usize + 1
            || next(&self.grown, note.least) <= note.greatest
    }

    /// Puts the rows that need a byte whose set has grown on the worklist. Returns whether any set has grown.
    fn wait_for_grown(&mut self) -> bool {
        if next(&self.grown, 0) >= BYTES {
            return false;
        }
        for number in 0..self.table.rows.len() {
            if self.asks_for_grown(number) {
                self.wait(number);
            }
        }
        self.grown = [0; INDEX_WORDS];
        true
    }

    /// Executes steps until the worklist is empty. Returns whether that happened within the given number of
    /// steps and within the limits of the search.
    fn run(&mut self, most_steps: usize) -> Result<bool, AllocError> {
        for _ in 0..most_steps {
            match self.waiting.take() {
                Some(number) => {
                    if !self.step_from(number as usize)? {
                        return Ok(false);
                    }
                }
                None => {
                    if !self.wait_for_grown() {
                        return Ok(true);
                    }
                }
            }
        }
        Ok(false)
    }

    /// Returns a search that starts with the state before the first step.
    fn new(
        alloc: Global,
        image: &[u8],
        quirks: Quirks,
        manner: Manner,
    ) -> Result<Search, AllocError>
        requires { length image.now ≤ IMAGE_BYTES }
    {
        let Ok(machine) = Machine::start_with(alloc, image, &[0], quirks) else {
            return Err(AllocError);
        };
        let table = Table {
            rows: Vec::new(alloc),
            memory: vec![in alloc; 0; SETS_WORDS]?,
            left: Vec::new(alloc),
        };
        let mut search = Search {
            alloc,
            quirks,
            table,
            notes: Vec::new(alloc),
            index: Index::new(alloc)?,
            stacks: Stacks::new(alloc)?,
            waiting: Waiting::new(alloc)?,
            grown: [0; INDEX_WORDS],
            marks: manner.hurries.then(|| marks_of(image)),
            turns: if manner.unrolls {
                vec![in alloc; 0; MEMORY_BYTES]?
            } else {
                Vec::new(alloc)
            },
        };
        for (at, byte) in machine.memory().iter().enumerate() {
            search.store_at(at, &single(*byte));
        }
        for at in MEMORY_BYTES..BYTES {
            search.store_at(at, &single(0));
        }
        search.grown = [0; INDEX_WORDS];
        let start = Place {
            pc: IMAGE_START as u16,
            stack: 0,
            label: label(&Known::start()),
        };
        search.add_row(start, Vec::new(alloc), &Known::start())?;
        Ok(search)
    }
}

/// Returns the table of a finished search.
fn table_of(search: Search) -> Table {
    let Search {
        alloc: _,
        quirks: _,
        table,
        notes: _,
        index: _,
        stacks: _,
        waiting: _,
        grown: _,
        marks: _,
        turns: _,
    } = search;
    table
}

/// Returns the number of crashes among the stops that a table doesn't exclude.
fn crashes(table: &Table) -> usize {
    let mut count: usize = 0;
    for left in &table.left {
        if left.stop != Stop::Exit {
            count = count.saturating_add(1);
        }
    }
    count
}

/// Returns a table for an image, or `None` if the first options lead to none within a number of steps. If
/// several options lead to a table, returns the one with the fewest crashes that aren't excluded.
pub(crate) fn find(
    alloc: Global,
    image: &[u8],
    quirks: Quirks,
    most_steps: usize,
) -> Result<Option<Table>, AllocError>
    requires { length image.now ≤ IMAGE_BYTES }
{
    let mut best = None;
    let mut fewest = usize::MAX;
    for manner in MANNERS {
        let mut search = Search::new(alloc, image, quirks, manner)?;
        if search.run(most_steps)? {
            let left = crashes(&search.table);
            if left < fewest {
                fewest = left;
                best = Some(table_of(search));
            }
        }
        if best.is_none() || fewest == 0 {
            break;
        }
    }
    Ok(best)
}
