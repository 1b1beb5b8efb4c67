//! The bytes of the memory that are forgotten: the bytes of a window that were stored and, as far
//! as the search saw, not needed later. This choice is unverified.

use crate::backdrop::BytePatch;
use crate::limits::{MOST_STATES_FOR_BYTES, STATES_FOR_A_SEARCH, STEPS_TRIED};
use crate::ways::next_instr;
use chip_lang::instr::Instr;
use chip_machine::forgotten::WINDOW_BYTES;
use chip_machine::limits::MEMORY_BYTES;
use chip_machine::{Forgotten, Machine, Touch};
use std::alloc::{AllocError, Global};

/// Returns the number of bytes at I that the next step of a machine stores.
fn bytes_stored(machine: &Machine) -> u16 {
    let Some(instr) = next_instr(machine) else {
        return 0;
    };
    match instr {
        Instr::StoreDecimal(_) => 3,
        Instr::StoreRegisters(last) => u16::from(last.number()) + 1,
        _ => 0,
    }
}

/// The observed uses of a byte of the memory.
#[derive(Clone, Copy, PartialEq, Eq)]
enum Seen {
    /// The byte was not stored.
    Unused,
    /// The byte was stored.
    Stored,
    /// The byte was needed while it was forgotten.
    Needed,
}

/// A window of the memory, and the observed uses of each byte.
#[derive(Drop)]
pub(crate) struct Window {
    seen: Vec<Seen>,
    /// The bytes that are forgotten.
    bytes: Forgotten,
    /// The number of states kept by searches that restarted because of the bytes, plus the cost of
    /// the restarts, in states.
    spent: usize,
    /// Whether bytes are no longer forgotten.
    is_closed: bool,
}

impl Window {
    /// Returns the window with the most bytes that a machine stores in a trial run. In this run, all
    /// these keys go down and up again, and the timers tick after each step so that no wait is long.
    pub(crate) fn new(alloc: Global, start: &Machine, keys: u16) -> Result<Window, AllocError> {
        let mut seen = Vec::with_capacity(alloc, MEMORY_BYTES)?;
        seen.resize(MEMORY_BYTES, Seen::Unused)?;
        let mut window = Window {
            seen,
            bytes: Forgotten::nothing(),
            spent: 0,
            is_closed: false,
        };
        let mut machine = start.copy_of()?;
        window.try_run(&mut machine, keys);
        window.choose();
        Ok(window)
    }

    /// Notes which bytes a machine stores in a trial run.
    fn try_run(&mut self, machine: &mut Machine, keys: u16) {
        let mut touch = Touch::new();
        for step in 0..STEPS_TRIED {
            let _is_new = self.note_next(machine);
            let down = if step % 32 < 16 { 0 } else { keys };
            machine.step(down, true, &mut touch);
        }
    }

    /// Notes which bytes the next step of a machine stores. Returns whether any of them is new.
    fn note_next(&mut self, machine: &Machine) -> bool {
        let index = machine.index();
        let mut is_new = false;
        for place in 0..bytes_stored(machine) {
            is_new |= self.note_stored(index.saturating_add(place));
        }
        is_new
    }

    /// Notes that a byte is stored. Returns whether this is new.
    fn note_stored(&mut self, at: u16) -> bool {
        match self.seen.get_mut(at as usize) {
            Some(seen) if *seen == Seen::Unused => {
                *seen = Seen::Stored;
                true
            }
            _ => false,
        }
    }

    /// Returns the bytes that are forgotten.
    pub(crate) fn bytes(&self) -> Forgotten {
        self.bytes
    }

    /// Notes that bytes change while `states` states are kept. Returns whether the search should
    /// restart with other bytes.
    pub(crate) fn note(&mut self, bytes: &[BytePatch], states: usize) -> bool {
        let mut is_new = false;
        for patch in bytes {
            is_new |= self.note_stored(patch.at);
        }
        is_new && self.is_to_change(states)
    }

    /// Notes which bytes the next step of a machine stores while `states` states are kept. Returns
    /// whether the search should restart with other bytes.
    pub(crate) fn note_stores(&mut self, machine: &Machine, states: usize) -> bool {
        self.note_next(machine) && self.is_to_change(states)
    }

    /// Whether a search that keeps `states` states should restart with other bytes.
    fn is_to_change(&mut self, states: usize) -> bool {
        !self.is_closed && self.best() != self.bytes && self.affords(states)
    }

    /// Notes that a step needed some of the forgotten bytes while `states` states are kept. Returns
    /// whether this is new for any of them.
    pub(crate) fn note_needed(&mut self, needed: Forgotten, states: usize) -> bool {
        let mut is_new = false;
        for place in 0..WINDOW_BYTES {
            let at = usize::from(needed.window()) + usize::from(place);
            if needed.has_byte(at)
                && let Some(seen) = self.seen.get_mut(at)
            {
                is_new |= *seen != Seen::Needed;
                *seen = Seen::Needed;
            }
        }
        if !self.affords(states) {
            self.is_closed = true;
        }
        is_new
    }

    /// Whether a search that keeps `states` states may restart because of the bytes. If so, notes
    /// the cost.
    fn affords(&mut self, states: usize) -> bool {
        let spent = self
            .spent
            .saturating_add(states)
            .saturating_add(STATES_FOR_A_SEARCH);
        if spent > MOST_STATES_FOR_BYTES {
            return false;
        }
        self.spent = spent;
        true
    }

    /// Chooses the best bytes according to the observed uses, and forgets them from now on.
    pub(crate) fn choose(&mut self) {
        self.bytes = if self.is_closed {
            Forgotten::nothing()
        } else {
            self.best()
        };
    }

    /// Returns the bytes of the window in which the most bytes were stored and not needed; if there
    /// are several such windows, of the first.
    fn best(&self) -> Forgotten {
        let mut best = 0;
        let mut most: u16 = 0;
        let mut count: u16 = 0;
        for start in (0..MEMORY_BYTES as u16).rev() {
            if self.is_stored(start.saturating_add(WINDOW_BYTES)) {
                count = count.saturating_sub(1);
            }
            if self.is_stored(start) {
                count = count.saturating_add(1);
                if count >= most {
                    most = count;
                    best = start;
                }
            }
        }
        self.stored_from(best)
    }

    /// Returns the bytes of a window that were stored and not needed.
    fn stored_from(&self, start: u16) -> Forgotten {
        let mut bytes = Forgotten::nothing();
        for place in 0..WINDOW_BYTES {
            let at = start.saturating_add(place);
            if self.is_stored(at) {
                bytes = bytes.with(Forgotten::bytes(at, 1));
            }
        }
        bytes
    }

    fn is_stored(&self, at: u16) -> bool {
        let seen = self.seen.get(at as usize);
        seen.is_some_and(|seen| *seen == Seen::Stored)
    }
}
