//! Guesses about which parts of a state no later step needs. Nothing is claimed about them: a step that
//! needs such a part refutes a guess, and the search begins anew.

use crate::backdrop::BytePatch;
use crate::limits::{STEPS_OF_TRIALS, TRIAL_SHARE};
use crate::setting::Setting;
use crate::trial::Trial;
use crate::window::Window;
use chip_machine::limits::MEMORY_BYTES;
use chip_machine::{Forgotten, Machine};
use std::alloc::{AllocError, Global};

/// For each address, the forgotten parts of a state whose next step is there and can tell keys apart, or
/// `None` if there was no such state yet. Also the bytes that are forgotten of all states.
#[derive(Drop)]
pub(crate) struct Guesses {
    parts: Vec<Option<Forgotten>>,
    window: Window,
    trial: Trial,
    /// The number of steps that trials may still take.
    steps_left: u32,
    /// Whether a step refuted a guess, or the search has to begin anew with another window.
    pub(crate) is_refuted: bool,
    /// Whether nothing is forgotten of any state.
    gives_up: bool,
}

impl Guesses {
    /// Forgets all parts and bytes of each state of a search from a machine, with these keys.
    pub(crate) fn new(alloc: Global, start: &Machine, keys: u16) -> Result<Guesses, AllocError> {
        let mut parts = Vec::with_capacity(alloc, MEMORY_BYTES)?;
        parts.resize(MEMORY_BYTES, None)?;
        Ok(Guesses {
            parts,
            window: Window::new(alloc, start, keys)?,
            trial: Trial::new(alloc),
            steps_left: STEPS_OF_TRIALS,
            is_refuted: false,
            gives_up: false,
        })
    }

    /// Returns the guesses for another search, with the bytes that are best by what was seen.
    pub(crate) fn again(self) -> Guesses {
        let mut guesses = self;
        guesses.is_refuted = false;
        guesses.window.choose();
        guesses
    }

    /// Returns what is forgotten of the state of a machine whose next step can tell keys apart, never the
    /// bytes of that step. At an address that has no guess yet, a trial makes one.
    pub(crate) fn at(&mut self, setting: &Setting<'_>, machine: &Machine) -> Forgotten {
        if self.gives_up {
            return Forgotten::nothing();
        }
        let address = machine.pc();
        if matches!(self.parts.get(usize::from(address)), Some(None)) {
            self.try_from(setting, machine);
        }
        let bytes = self.window.bytes().without(Forgotten::bytes(address, 2));
        match self.parts.get_mut(usize::from(address)) {
            Some(parts) => bytes.with(*parts.get_or_insert(Forgotten::all())),
            None => Forgotten::nothing(),
        }
    }

    /// Makes guesses by a trial from a machine, unless memory runs out.
    fn try_from(&mut self, setting: &Setting<'_>, machine: &Machine) {
        let parts = Forgotten::all().with(self.window.bytes());
        let steps = self.steps_left / TRIAL_SHARE;
        self.steps_left = self.steps_left.saturating_sub(steps);
        if let Ok(trusted) = self.trial.run(setting, machine, parts, steps) {
            self.trial.guess(&mut self.parts, trusted);
        }
    }

    /// Notes that bytes of the memory change while `states` states are kept.
    pub(crate) fn note_changed(&mut self, bytes: &[BytePatch], states: usize) {
        if self.window.note(bytes, states) {
            self.is_refuted = true;
        }
    }

    /// Notes which bytes the next step of a machine stores while `states` states are kept. Returns
    /// whether the search has to begin anew with other bytes.
    pub(crate) fn note_stores(&mut self, machine: &Machine, states: usize) -> bool {
        let is_better = self.window.note_stores(machine, states);
        self.is_refuted |= is_better;
        is_better
    }

    /// Notes that a step needed some forgotten bytes while `states` states are kept. The next search
    /// forgets these bytes in no state. Returns whether this is new for any of them.
    pub(crate) fn note_needed(&mut self, needed: Forgotten, states: usize) -> bool {
        self.is_refuted = true;
        self.window.note_needed(needed, states)
    }

    /// Forgets nothing of any state from now on, so that no step can refute a guess.
    pub(crate) fn give_up(&mut self) {
        self.is_refuted = true;
        self.gives_up = true;
    }

    /// Forgets less of the states at an address, because some parts may be needed. Returns whether
    /// anything changed.
    pub(crate) fn lower(&mut self, address: u16, needed: Forgotten) -> bool {
        self.is_refuted = true;
        let Some(Some(guess)) = self.parts.get_mut(address as usize) else {
            return false;
        };
        let rest = guess.without(needed);
        let is_less = rest != *guess;
        *guess = rest;
        is_less
    }
}
