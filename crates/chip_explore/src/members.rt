//! The states that a search keeps.

ghost use Rattle.std.specs.Prelude.{◌≡◌, ◌<◌, ◌≤◌, ◌+◌, ◌-◌, ◌^◌, [], ℕ, length, slice_index, slice_index_or, Some, IfOk, IsTrue, true, false};
ghost use Rattle.chip_machine.specs.State.{IsProper};
ghost use Rattle.chip_explore.specs.Executed.{is_at_one};
ghost use Rattle.chip_explore.specs.inner.Kept.{state_at};
ghost use Rattle.chip_explore.specs.inner.Delays.{delay_register, read_as};
ghost use Rattle.chip_explore.specs.inner.Cover.{phase, view_of, Adds, Goes, HasPlace, Holds, IsAt, IsTaken, IsWhole, Joins};

use crate::executed::Executed;
use crate::kept::{Base, Kept};
use crate::limits::END;
use crate::setting::Setting;
use chip_machine::{Forgotten, Machine};
use std::alloc::{AllocError, Global};

/// The kept states, each with its forgotten parts, the least step at which it was reached, and
/// whether it was taken up.
pub(crate) struct Members {
    pub(crate) start: Machine,
    /// The base that the states are compared with.
    pub(crate) base: Base,
    pub(crate) states: Vec<Kept>,
    pub(crate) forgotten: Vec<Forgotten>,
    pub(crate) steps: Vec<u64>,
    pub(crate) closed: Vec<bool>,
    /// The search is about steps below this step.
    pub(crate) limit: u64,
    /// The addresses at which the search saw steps executed.
    pub(crate) executed: Executed,
}

// Dropping is one call. A derived `Drop` would be expanded in every function that drops the members.
impl Drop for Members {
    fn drop(self) {
        let Members {
            start: _,
            base: _,
            states: _,
            forgotten: _,
            steps: _,
            closed: _,
            limit: _,
            executed: _,
        } = self;
    }
}

impl Members {
    /// Returns a collection without states, for a search about all steps.
    pub(crate) fn new(alloc: Global, start: &Machine, base: Base) -> Result<Members, AllocError>
        ensures start { IfOk result (λ members. members.start ≡ start.now) }
        ensures empty { IfOk result (λ members. members.steps.items ≡ []) }
        ensures none_closed { IfOk result (λ members. members.closed.items ≡ []) }
        ensures no_states { IfOk result (λ members. members.states.items ≡ []) }
        ensures no_parts { IfOk result (λ members. members.forgotten.items ≡ []) }
        ensures proper { IfOk result (λ members. IsProper members.start) }
        ensures noted { IfOk result (λ members. is_at_one members.executed start.now ≡ true) }
    {
        let executed = Executed::at(start);
        let start = start.copy_of()?;
        Ok(Members {
            start,
            base,
            states: Vec::new(alloc),
            forgotten: Vec::new(alloc),
            steps: Vec::new(alloc),
            closed: Vec::new(alloc),
            limit: END,
            executed,
        })
    }

    /// Loads the state at a place into a machine. Returns whether that was possible. `rows` is
    /// scratch space for the rows of the screen.
    pub(crate) fn load(
        &self,
        place: usize,
        machine: &mut Machine,
        rows: &mut Vec<u128>,
    ) -> Result<bool, AllocError>
        requires { place < length self.now.states.items }
        ensures { IfOk result (λ answer. IsTrue answer
            → machine.new ≡ state_at self.now.base self.now.states.items place) }
    {
        self.states[place].load(&self.base, machine, rows)
    }

    /// Loads into a machine the state after the next step of the state at a place. That step sets a
    /// register to the delay timer, which is assumed to have this value. Returns whether that was
    /// possible. `rows` is scratch space for the rows of the screen.
    pub(crate) fn load_read(
        &self,
        place: usize,
        register: u8,
        value: u8,
        machine: &mut Machine,
        rows: &mut Vec<u128>,
    ) -> Result<bool, AllocError>
        requires kept { place < length self.now.states.items }
        requires range { register < 16 }
        requires reads { delay_register (state_at self.now.base self.now.states.items place)
            ≡ Some register }
        ensures { IfOk result (λ answer. IsTrue answer
            → machine.new ≡ read_as value (state_at self.now.base self.now.states.items place)) }
    {
        self.states[place].load_read(register, value, &self.base, machine, rows)
    }

    /// Returns the least step at which the state at a place was reached.
    pub(crate) fn step(&self, place: usize) -> u64
        requires { place < length self.now.steps.items }
        ensures { result ≡ slice_index self.now.steps.items place }
    {
        self.steps[place]
    }

    /// Whether a place contains a state that was reached at a step and hasn't been taken up yet.
    pub(crate) fn is_open(&self, place: usize, step: u64) -> bool
        ensures { IsTrue result → place < length self.now.steps.items }
    {
        place < self.steps.len()
            && place < self.closed.len()
            && self.steps[place] == step
            && !self.closed[place]
    }

    /// Whether a place contains a state that is like this one except for the forgotten parts of the kept state, with
    /// the ticks as at a step. The forgotten parts of this state are among those of the kept state. If true, this is
    /// proved; if false, it may still hold. `probe` is scratch space for the state.
    pub(crate) fn is_at(
        &self,
        setting: &Setting<'_>,
        place: usize,
        forgotten: Forgotten,
        machine: &Machine,
        step: u64,
        probe: &mut Base,
    ) -> Result<bool, AllocError>
        requires holds { Holds setting.now self.now }
        ensures { IfOk result (λ answer. IsTrue answer
            → IsAt setting.now (view_of self.now) place forgotten machine.now step) }
    {
        if place >= self.steps.len() || !forgotten.is_within(self.forgotten[place]) {
            return Ok(false);
        }
        if setting.phase(self.steps[place]) != setting.phase(step) {
            return Ok(false);
        }
        if !self.load(place, &mut probe.machine, &mut probe.rows)? {
            return Ok(false);
        }
        Ok(probe.machine.is_alike(machine, self.forgotten[place]))
    }

    /// Keeps the state of a machine, which was reached at a step, without the parts that are to be
    /// forgotten. Returns whether `kept` is that state. `probe` is scratch space for the state.
    /// Allocates all memory before the first change.
    pub(crate) fn add(
        &mut self,
        setting: &Setting<'_>,
        kept: Kept,
        parts: Forgotten,
        machine: &Machine,
        step: u64,
        probe: &mut Base,
    ) -> Result<bool, AllocError>
        requires { Holds setting.now self.old }
        ensures adds { Adds setting.now self.old self.new 1 }
        ensures joins { IfOk result (λ answer. IsTrue answer
            → Joins setting.now (view_of self.new) parts machine.now step) }
    {
        let is_same = kept.is_of(&self.base, machine, probe)?;
        if !is_same {
            return Ok(false);
        }
        self.states.reserve(1)?;
        self.forgotten.reserve(1)?;
        self.closed.reserve(1)?;
        self.steps.reserve(1)?;
        let _ = self.states.push(kept);
        let _ = self.forgotten.push(parts);
        let _ = self.closed.push(false);
        let _ = self.steps.push(step);
        Ok(true)
    }

    /// Notes that a state was reached at an earlier step, so that it is taken up again.
    pub(crate) fn lower(&mut self, setting: &Setting<'_>, place: usize, step: u64)
        requires there { HasPlace setting.now self.old place }
        requires early { step ≤ slice_index self.old.steps.items place }
        requires phased { phase setting.now (slice_index self.old.steps.items place)
            ≡ phase setting.now step }
        ensures goes { Goes setting.now self.old self.new }
        ensures step { slice_index self.new.steps.items place ≡ step }
        ensures count { length self.new.steps.items ≡ length self.old.steps.items }
    {
        self.closed[place] = false;
        self.steps[place] = step;
    }

    /// Notes that a state was taken up.
    pub(crate) fn close(&mut self, setting: &Setting<'_>, place: usize)
        requires there { HasPlace setting.now self.old place }
        requires taken { IsTaken setting.now (view_of self.old) place }
        ensures goes { Goes setting.now self.old self.new }
        ensures count { length self.new.steps.items ≡ length self.old.steps.items }
    {
        self.closed[place] = true;
    }

    /// Restricts the search to the steps below a limit.
    pub(crate) fn lower_limit(&mut self, setting: &Setting<'_>, limit: u64)
        requires holds { Holds setting.now self.old }
        ensures goes { Goes setting.now self.old self.new }
        ensures limit { self.new.limit ≤ limit }
        ensures count { length self.new.steps.items ≡ length self.old.steps.items }
    {
        let least = self.limit.min(limit);
        self.limit = least;
    }

    /// Returns the last step up to which all states were taken up.
    pub(crate) fn covered(&self) -> u64
        requires { 0 < self.now.limit }
        ensures below { result < self.now.limit }
        ensures end { result < 2 ^ 64 - 1 }
        ensures closed { (j : ℕ) → j < length self.now.steps.items
            → slice_index self.now.steps.items j < result
            → slice_index_or self.now.closed.items j false ≡ true }
    {
        let mut covered = self.limit - 1;
        for place in 0..self.steps.len() {
            let is_closed = place < self.closed.len() && self.closed[place];
            if !is_closed && self.steps[place] < covered {
                covered = self.steps[place];
            }
        }
        covered
    }

    /// Returns the result of `covered`, or 0 if the search is about no step.
    pub(crate) fn covered_or_none(&self) -> u64 {
        if self.limit == 0 { 0 } else { self.covered() }
    }

    /// Whether the search is about all steps below `END` and each state was taken up. If true, this is
    /// proved; if false, it may still hold.
    pub(crate) fn is_whole(&self, setting: &Setting<'_>) -> bool
        requires { Holds setting.now self.now }
        ensures { IsTrue result → IsWhole setting.now self.now }
    {
        self.limit == END && self.covered() + 1 == END
    }
}
