//! Trials: runs that show which parts later steps need. Nothing is claimed about what they find.

use crate::setting::Setting;
use crate::ways::delay_register;
use chip_machine::limits::DIGITS_END;
use chip_machine::{Forgotten, Machine, Touch};
use std::alloc::{AllocError, Global};

/// The number of parts of a state that aren't bytes.
const PARTS_TRIED: u32 = 19;

/// A step of a trial.
#[derive(Clone, Copy)]
struct Passed {
    address: u16,
    /// Whether the step can tell keys or values of the delay timer apart.
    is_keyed: bool,
    /// Whether I is past the digits before the step.
    is_past_digits: bool,
    /// Whether the step is trusted, and its address has no guess yet.
    is_new: bool,
    /// The parts that the step needs, or a property that is evaluated before it.
    needed: Forgotten,
    /// The number of changes before those of this step.
    changes: usize,
}

/// What is forgotten after a step if one part is before it, if that isn't the same part.
#[derive(Clone, Copy)]
struct Change {
    part: Forgotten,
    after: Forgotten,
}

/// A run in which keys go down and up, and what each of its steps does with each part.
#[derive(Drop)]
pub(crate) struct Trial {
    passed: Vec<Passed>,
    changes: Vec<Change>,
}

impl Trial {
    /// Returns a trial without a step.
    pub(crate) fn new(alloc: Global) -> Trial {
        Trial {
            passed: Vec::new(alloc),
            changes: Vec::new(alloc),
        }
    }

    /// Makes steps of a copy of a machine, where these parts and bytes can be forgotten. The timers tick in
    /// each of them so that no wait is long. Returns how many of them, from the first on, are trusted
    /// because enough others follow.
    pub(crate) fn run(
        &mut self,
        setting: &Setting<'_>,
        start: &Machine,
        parts: Forgotten,
        steps: u32,
    ) -> Result<usize, AllocError> {
        self.passed.clear();
        self.changes.clear();
        let mut machine = start.copy_of()?;
        let mut touch = Touch::new();
        for step in 0..steps {
            if machine.stopped().is_some() {
                return Ok(self.passed.len());
            }
            // The second term shifts the phase, so that no short loop always meets the same keys.
            let is_up = (step / 4 + step / 61) % 2 == 0;
            let keys = if is_up { 0 } else { setting.allowed };
            self.note(setting, &mut machine, keys, parts)?;
            machine.step(keys, true, &mut touch);
        }
        Ok(self.passed.len() / 2)
    }

    /// Notes what the next step of a machine does, with these keys down, to each of some parts.
    fn note(
        &mut self,
        setting: &Setting<'_>,
        machine: &mut Machine,
        keys: u16,
        parts: Forgotten,
    ) -> Result<(), AllocError> {
        let changes = self.changes.len();
        let mut needed = setting.asked_of(machine, Forgotten::all());
        for number in 0..PARTS_TRIED {
            let part = parts.alone(number);
            match machine.forgotten_after(part, keys) {
                Ok(after) if after == part => {}
                Ok(after) if after.is_within(parts) => self.changes.push(Change { part, after })?,
                _ => needed = needed.with(part),
            }
        }
        let is_timed = setting.free && delay_register(machine).is_some();
        self.passed.push(Passed {
            address: machine.pc(),
            is_keyed: is_timed || machine.key_choices(setting.allowed) != 0,
            is_past_digits: machine.index() >= DIGITS_END,
            is_new: false,
            needed,
            changes,
        })?;
        Ok(())
    }

    /// Guesses what is forgotten where a step of the run can tell keys or values of the delay timer apart
    /// and there is no guess yet: all parts that no later step of the run needs. Trusts only the first
    /// `trusted` steps.
    pub(crate) fn guess(&mut self, guesses: &mut [Option<Forgotten>], trusted: usize) {
        for place in 0..trusted {
            if let Some(passed) = self.passed.get_mut(place) {
                passed.is_new = matches!(guesses.get(usize::from(passed.address)), Some(None));
            }
        }
        let (mut needed, mut end) = (Forgotten::nothing(), self.changes.len());
        for passed in self.passed.iter().rev() {
            needed = self.needed_before(passed, end, needed);
            end = passed.changes;
            if let Some(guess) = guesses.get_mut(usize::from(passed.address))
                && passed.is_keyed
            {
                if needed.has_far() && passed.is_past_digits {
                    needed = needed.with(Forgotten::index());
                }
                let forgotten = guess.unwrap_or(Forgotten::all());
                needed = needed.with(Forgotten::all().without(forgotten));
                if passed.is_new {
                    *guess = Some(Forgotten::all().without(needed));
                }
            }
        }
    }

    /// Returns the parts that a step and later ones need, given the number of changes up to those of this
    /// step, and the parts that later ones need.
    fn needed_before(&self, passed: &Passed, end: usize, later: Forgotten) -> Forgotten {
        let mut before = later;
        for number in passed.changes..end {
            if let Some(change) = self.changes.get(number) {
                before = before.without(change.part);
                if !change.after.shared_with(later).is_nothing() {
                    before = before.with(change.part);
                }
            }
        }
        before.with(passed.needed)
    }
}
