//! Ranks of the kept states. The ranks show that the goals can be reached from each state.

ghost use Rattle.std.specs.Prelude.{◌≡◌, ◌<◌, ◌+◌, ◌-◌, ◌^◌, ℕ, List, length, slice_index, IfOk, IfSome, IsTrue};
ghost use Rattle.chip_explore.specs.inner.Cover.{forgotten_at, view_of, HasPlace, Holds, IsAt};
ghost use Rattle.chip_explore.specs.inner.Ranks.{Climbs, IsAtGoals, IsRanked};

use crate::climb::Way;
use crate::limits::MOST_QUIET_STEPS;
use crate::search::Search;
use crate::setting::Setting;
use crate::sum::Sums;
use std::alloc::AllocError;

impl Search {
    /// Whether the state at a place meets the goals and hasn't stopped. If so, the runner has that
    /// state afterwards.
    pub(crate) fn is_at_goals(
        &mut self,
        setting: &Setting<'_>,
        place: usize,
    ) -> Result<bool, AllocError>
        requires { HasPlace setting.now self.old.members place }
        ensures same { self.new.members ≡ self.old.members }
        ensures met { IfOk result (λ answer. IsTrue answer → IsAtGoals setting.now
            (forgotten_at (view_of self.old.members) place)
            ((view_of self.old.members).member place)) }
    {
        let runner = &mut self.runner;
        if !self
            .members
            .load(place, &mut runner.machine, &mut runner.rows)?
        {
            return Ok(false);
        }
        let machine = &runner.machine;
        Ok(
            machine.stopped().is_none()
                && setting.are_known(machine, self.members.forgotten[place])
                && setting.meets_goals(machine),
        )
    }

    /// Loads into the runner the state after the next step of the state at a place, with these keys
    /// down. Returns whether that was possible.
    pub(crate) fn step_from(
        &mut self,
        setting: &Setting<'_>,
        place: usize,
        keys: u16,
    ) -> Result<bool, AllocError>
        requires { HasPlace setting.now self.old.members place }
        ensures same { self.new.members ≡ self.old.members }
        ensures below { IfOk result (λ answer. IsTrue answer
            → slice_index self.old.members.steps.items place < 2 ^ 64 - 1) }
        ensures path { IfOk result (λ answer. IsTrue answer
            → (ranks : List ℕ) (rank most : ℕ)
            → Climbs setting.now (view_of self.old.members) ranks rank most
            self.new.runner.forgotten self.new.runner.machine
            (slice_index self.old.members.steps.items place + 1)
            → Climbs setting.now (view_of self.old.members) ranks rank (most + 1)
            (forgotten_at (view_of self.old.members) place)
            ((view_of self.old.members).member place)
            (slice_index self.old.members.steps.items place)) }
    {
        let step = self.members.step(place);
        let runner = &mut self.runner;
        if keys & setting.allowed != keys
            || step == u64::MAX
            || !self
                .members
                .load(place, &mut runner.machine, &mut runner.rows)?
            || runner.machine.draws() == u64::MAX
            || setting.timed_register(&runner.machine).is_some()
        {
            return Ok(false);
        }
        let Ok(after) = runner
            .machine
            .forgotten_after(self.members.forgotten[place], keys)
        else {
            return Ok(false);
        };
        runner.forgotten = after;
        runner
            .machine
            .step(keys, setting.tick_at(step), &mut runner.touch);
        Ok(true)
    }

    /// Returns the place of a kept state that is like the runner's state at a step, if one is known.
    pub(crate) fn place_of(
        &mut self,
        setting: &Setting<'_>,
        step: u64,
    ) -> Result<Option<usize>, AllocError>
        requires holds { Holds setting.now self.old.members }
        ensures same { self.new.members ≡ self.old.members }
        ensures place { IfOk result (λ answer. IfSome answer (λ place. IsAt setting.now
            (view_of self.old.members) place self.old.runner.forgotten self.old.runner.machine
            step)) }
    {
        let parts = self.finder.parts_to_forget(setting, &self.runner);
        if !self.runner.forgotten.is_within(parts) {
            return Ok(None);
        }
        self.runner.erase(parts, &self.members.base);
        let machine = &self.runner.machine;
        let sums = Sums::of(machine, parts, setting.phase(step));
        let Some(place) = self.finder.place(sums.state) else {
            return Ok(None);
        };
        if self
            .members
            .is_at(setting, place, parts, machine, step, &mut self.probe)?
        {
            Ok(Some(place))
        } else {
            Ok(None)
        }
    }

    /// Whether some steps from the state at a place, with these keys down in the first step, lead to the goals or to a
    /// state of a smaller rank. If true, this is proved; if false, it may still hold.
    fn is_ranked(
        &mut self,
        setting: &Setting<'_>,
        ranks: &[u32],
        place: usize,
        keys: u16,
    ) -> Result<bool, AllocError>
        requires { HasPlace setting.now self.old.members place }
        ensures same { self.new.members ≡ self.old.members }
        ensures ranked { IfOk result (λ answer. IsTrue answer
            → IsRanked setting.now (view_of self.old.members) ranks.now place) }
    {
        if place >= ranks.len() {
            return Ok(false);
        }
        if self.is_at_goals(setting, place)? {
            return Ok(true);
        }
        let step = self.members.step(place);
        if !self.step_from(setting, place, keys)? {
            return Ok(false);
        }
        let climb = self.runner.climb(setting, step + 1, MOST_QUIET_STEPS);
        match climb.way {
            Way::AtGoals => Ok(true),
            Way::Lost => Ok(false),
            Way::Joined => match self.place_of(setting, climb.step)? {
                Some(next) => {
                    if next >= ranks.len() || ranks[next] >= ranks[place] {
                        return Ok(false);
                    }
                    Ok(true)
                }
                None => Ok(false),
            },
        }
    }

    /// Whether `is_ranked` holds for each state, with the keys at its place. If true, this is
    /// proved; if false, it may still hold.
    pub(crate) fn are_ranked(
        &mut self,
        setting: &Setting<'_>,
        ranks: &[u32],
        keys: &[u16],
    ) -> Result<bool, AllocError>
        requires holds { Holds setting.now self.old.members }
        ensures same { self.new.members ≡ self.old.members }
        ensures ranked { IfOk result (λ answer. IsTrue answer
            → (place : ℕ) → place < length self.old.members.steps.items
            → IsRanked setting.now (view_of self.old.members) ranks.now place) }
    {
        for place in 0..self.members.steps.len() {
            if place >= keys.len() || !self.is_ranked(setting, ranks, place, keys[place])? {
                return Ok(false);
            }
        }
        Ok(true)
    }
}
