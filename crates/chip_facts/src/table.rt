//! Tables of rows. A row records what is known when the machine is at an address with a call stack. If a
//! table passes the test that it is closed, each reached state lies in one of its rows.

ghost use Rattle.std.specs.Prelude.{◌≡◌, ◌<◌, ◌+◌, ◌*◌, ℕ, Any, Contains, IfOk, IfSome, IsTrue, Result, length};
ghost use Rattle.chip_lang.specs.Decoding.{decode_of};
ghost use Rattle.chip_machine.specs.State.{Core, State};
ghost use Rattle.chip_machine.specs.declared.stop.Stop.{Stop};
ghost use Rattle.chip_machine.specs.Step.{effect_of_word, perform};
ghost use Rattle.chip_facts.specs.Sets.{Holds};
ghost use Rattle.chip_facts.specs.inner.Steps.{IsNext, IsStored, Meets, frames_by};
ghost use Rattle.chip_facts.specs.inner.Tables.{IsAllowed, IsClosed, IsInTable};
ghost use Rattle.chip_facts.specs.inner.Transfer.{IsAt};

use crate::bits::{is_within, next};
use crate::byte_set::block;
use crate::index_set::{BYTES, NUMBERS, SETS_WORDS};
use crate::known::Known;
use crate::outcome::{Outcome, Stored, Successor, Way};
use crate::transfer::Before;
use chip_lang::instr::decode;
use chip_machine::limits::LAST_WORD;
use chip_machine::{Quirks, Stop};
use std::alloc::{AllocError, Global};

/// A stop that isn't excluded.
#[derive(Clone, Copy)]
pub struct Left {
    /// The address at which the machine stops.
    pub pc: u16,
    pub stop: Stop,
}

/// What is known when the machine is at an address with a call stack.
#[derive(Drop)]
pub struct Row {
    pub(crate) pc: u16,
    pub(crate) frames: Vec<u16>,
    pub(crate) known: Known,
    /// The numbers of the rows that steps from this row lead to.
    pub(crate) leads: Vec<u32>,
}

/// Facts about all reached states.
#[derive(Drop)]
pub(crate) struct Table {
    pub(crate) rows: Vec<Row>,
    /// The bytes that each byte of the memory may have, followed by those that each flag register may have.
    pub(crate) memory: Vec<u64>,
    pub(crate) left: Vec<Left>,
}

/// Whether `then` is the call stack after a step from `frames`.
fn are_frames(then: &[u16], way: Way, frames: &[u16]) -> bool
    ensures { IsTrue result → then.now ≡ frames_by way frames.now }
{
    match way {
        Way::Same => then == frames,
        Way::Call(back) => match then {
            [first @ .., last] => first == frames && *last == back,
            [] => false,
        },
        Way::Return => match frames {
            [first @ .., _] => then == first,
            [] => then.is_empty(),
        },
    }
}

impl Table {
    /// Whether a stop is in the list of stops that aren't excluded.
    pub(crate) fn has_left(&self, pc: u16, stop: Stop) -> bool
        ensures { IsTrue result → Contains self.now.left.items (record { pc = pc; stop = stop }) }
    {
        for left in &self.left {
            if left.pc == pc && left.stop == stop {
                return true;
            }
        }
        false
    }

    /// Whether one of the given rows covers the state that a step leads to.
    pub(crate) fn has_row(&self, leads: &[u32], frames: &[u16], successor: &Successor) -> bool
        ensures { IsTrue result → (c : Core) → IsNext frames.now c successor.now
            → IsInTable self.now.rows.items c }
    {
        for number in leads {
            let Some(row) = self.rows.get(*number as usize) else {
                return false;
            };
            if row.pc == successor.pc
                && are_frames(&row.frames, successor.way, frames)
                && successor.known.is_within(&row.known)
            {
                return true;
            }
        }
        false
    }

    /// Whether the table allows every byte of a set at an address.
    fn has_bytes(&self, at: usize, values: &[u64; 4]) -> bool
        requires { length self.now.memory.items ≡ SETS_WORDS }
        ensures { IsTrue result → (b : ℕ) → Holds values.now b
            → (b < 256) × Holds self.now.memory.items (256 * at + b) }
    {
        at < BYTES && is_within(values, &block(&self.memory, at))
    }

    /// Whether the table allows the bytes that a step stores.
    fn has_stored(&self, stored: &Stored) -> bool
        requires { length self.now.memory.items ≡ SETS_WORDS }
        ensures { IsTrue result → (at byte : ℕ) → IsStored stored.now at byte
            → (byte < 256) × Holds self.now.memory.items (256 * at + byte) }
    {
        let mut from = next(&stored.at, 0);
        while from < NUMBERS {
            for place in 0..stored.values.len() {
                if !self.has_bytes(from + place, &stored.values[place]) {
                    return false;
                }
            }
            from = next(&stored.at, from + 1);
        }
        true
    }

    /// Whether a stop, if there is one, is in the list of stops that aren't excluded.
    fn has_stop(&self, pc: u16, stop: Option<Stop>) -> bool
        ensures { IsTrue result → IfSome stop (λ why.
            Contains self.now.left.items (record { pc = pc; stop = why })) }
    {
        match stop {
            Some(why) => self.has_left(pc, why),
            None => true,
        }
    }

    /// Whether the table allows the bytes that a step stores, if it stores any.
    fn has_changes(&self, stored: &Option<Stored>) -> bool
        requires { length self.now.memory.items ≡ SETS_WORDS }
        ensures { IsTrue result → IfSome stored.now (λ stored. (at byte : ℕ) → IsStored stored at byte
            → (byte < 256) × Holds self.now.memory.items (256 * at + byte)) }
    {
        match stored {
            Some(stored) => self.has_stored(stored),
            None => true,
        }
    }

    /// Whether the given rows cover all states that a step leads to.
    fn has_next(&self, leads: &[u32], frames: &[u16], next: &[Successor]) -> bool
        ensures { IsTrue result → (c : Core) → Any (IsNext frames.now c) next.now
            → IsInTable self.now.rows.items c }
    {
        for successor in next {
            if !self.has_row(leads, frames, successor) {
                return false;
            }
        }
        true
    }

    /// Whether the table, with the given rows, covers everything that a step may do.
    fn has_outcome(&self, before: &Before<'_>, leads: &[u32], out: &Outcome) -> bool
        requires { length self.now.memory.items ≡ SETS_WORDS }
        ensures { IsTrue result → before.now.memory.now ≡ self.now.memory.items
            → (s : State) → IsAt before.now s → (ended : Result State Stop)
            → Meets before.now.frames.now out.now s ended
            → IsAllowed self.now before.now.quirks before.now.pc ended }
    {
        self.has_stop(before.pc, out.stop)
            && self.has_changes(&out.stored)
            && self.has_next(leads, before.frames, &out.next)
    }

    /// Whether the table, with the given rows, covers everything that a word may do.
    fn has_word(
        &self,
        alloc: Global,
        before: &Before<'_>,
        leads: &[u32],
        word: u16,
    ) -> Result<bool, AllocError>
        requires size { length self.now.memory.items ≡ SETS_WORDS }
        requires same { before.now.memory.now ≡ self.now.memory.items }
        requires pc { before.now.pc < 4095 }
        ensures { IfOk result (λ has. IsTrue has → (s : State) → IsAt before.now s → (keys : ℕ)
            → IsAllowed self.now before.now.quirks before.now.pc
            (perform keys s (effect_of_word (decode_of word) s.core))) }
    {
        match decode(word) {
            Some(instr) => {
                let out = before.execute(alloc, instr)?;
                Ok(self.has_outcome(before, leads, &out))
            }
            None => Ok(self.has_left(before.pc, Stop::NoInstruction)),
        }
    }

    /// Whether each step from a row leads to a row of the table, or to a stop that isn't excluded.
    pub(crate) fn is_closed_at(
        &self,
        alloc: Global,
        quirks: Quirks,
        row: &Row,
    ) -> Result<bool, AllocError>
        requires { length self.now.memory.items ≡ SETS_WORDS }
        ensures { IfOk result (λ closed. IsTrue closed → IsClosed self.now quirks row.now) }
    {
        let pc = row.pc as usize;
        if pc > LAST_WORD {
            return Ok(self.has_left(row.pc, Stop::PcOutOfRange));
        }
        let before = Before {
            memory: &self.memory,
            quirks,
            pc: row.pc,
            frames: &row.frames,
            known: row.known,
        };
        let highs = block(&self.memory, pc);
        let lows = block(&self.memory, pc + 1);
        let mut high = next(&highs, 0);
        while high < 256 {
            if !self.has_words(alloc, &before, &row.leads, high as u16, &lows)? {
                return Ok(false);
            }
            high = next(&highs, high + 1);
        }
        Ok(true)
    }

    /// Whether the table, with the given rows, covers everything that the words with a high byte may do.
    fn has_words(
        &self,
        alloc: Global,
        before: &Before<'_>,
        leads: &[u32],
        high: u16,
        lows: &[u64; 4],
    ) -> Result<bool, AllocError>
        requires size { length self.now.memory.items ≡ SETS_WORDS }
        requires same { before.now.memory.now ≡ self.now.memory.items }
        requires pc { before.now.pc < 4095 }
        requires byte { high < 256 }
        ensures { IfOk result (λ has. IsTrue has → (low : ℕ) → low < 256 → Holds lows.now low
            → (s : State) → IsAt before.now s → (keys : ℕ)
            → IsAllowed self.now before.now.quirks before.now.pc
            (perform keys s (effect_of_word (decode_of (high * 256 + low)) s.core))) }
    {
        let mut low = next(lows, 0);
        while low < 256 {
            if !self.has_word(alloc, before, leads, high * 256 + low as u16)? {
                return Ok(false);
            }
            low = next(lows, low + 1);
        }
        Ok(true)
    }
}
