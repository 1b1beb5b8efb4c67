//! The search over all key scripts.

ghost use Rattle.std.specs.Prelude.{◌≡◌, ◌<◌, ◌≤◌, ◌+◌, ◌-◌, ◌^◌, ◌⊎◌, ℕ, length, IfOk, IfSome, OnOk, IsTrue, true};
ghost use Rattle.chip_machine.specs.Step as spec;
ghost use Rattle.chip_explore.specs.Answers.{most_ways};
ghost use Rattle.chip_explore.specs.inner.Cover.{forgotten_at, view_of, Adds, Ends, GoesUpTo, HasChoices, HasPlace, HasStep, HasValues, HasWays, Holds, IsFine, Joins, Leads, LeadsAs, Safe};

use crate::backdrop::Backdrops;
use crate::finder::{Finder, Origin, Turn};
use crate::kept::{Base, Kept};
use crate::keys::{alone, is_down};
use crate::leg::{End, Runner};
use crate::limits::{RANK_BYTES, STATE_BYTES, STATES_TOLD, TURNS_ASKED, WAY_BYTES};
use crate::members::Members;
use crate::setting::Setting;
use crate::sources::Trail;
use crate::sum::Sums;
use crate::watcher::Watcher;
use crate::ways::{Reading, Ways};
use chip_machine::Forgotten;
use std::alloc::AllocError;

/// A search in progress.
#[derive(Drop)]
pub(crate) struct Search {
    pub(crate) members: Members,
    pub(crate) runner: Runner,
    pub(crate) finder: Finder,
    pub(crate) backdrops: Backdrops,
    /// Scratch space for a state.
    pub(crate) probe: Base,
    /// The step at which each run ends.
    pub(crate) end: u64,
}

impl Search {
    /// Keeps the runner's state at a step, unless a state like it is kept already.
    fn join(&mut self, setting: &Setting<'_>, step: u64, origin: Origin) -> Result<(), AllocError>
        requires holds { Holds setting.now self.old.members }
        requires fine { IsFine setting.now self.old.members.executed self.old.runner.forgotten
            self.old.runner.machine }
        ensures adds { Adds setting.now self.old.members self.new.members 1 }
        ensures ends { OnOk result (Ends setting.now (view_of self.new.members)
            self.old.runner.forgotten self.old.runner.machine step) }
    {
        let forgotten = self.runner.forgotten;
        let parts = self.finder.parts_to_forget(setting, &self.runner);
        if !forgotten.is_within(parts) {
            self.members.lower_limit(setting, step);
            let read = forgotten.without(parts);
            self.refute(setting, Trail { origin, to: step }, read);
            return Ok(());
        }
        self.runner.erase(parts, &self.members.base);
        let joined = self.join_erased(setting, parts, step, origin);
        self.finder
            .note_changed(&mut self.backdrops, &self.members.states);
        joined
    }

    /// Keeps this state, with these parts and bytes forgotten, unless a state like it is kept already.
    fn join_erased(
        &mut self,
        setting: &Setting<'_>,
        parts: Forgotten,
        step: u64,
        origin: Origin,
    ) -> Result<(), AllocError>
        requires holds { Holds setting.now self.old.members }
        ensures adds { Adds setting.now self.old.members self.new.members 1 }
        ensures joins { OnOk result ((self.new.members.limit ≤ step)
            ⊎ Joins setting.now (view_of self.new.members) parts self.old.runner.machine step) }
    {
        let machine = &self.runner.machine;
        let sums = Sums::of(machine, parts, setting.phase(step));
        if let Some(place) = self.finder.place(sums.state)
            && self
                .members
                .is_at(setting, place, parts, machine, step, &mut self.probe)?
        {
            let before = self.members.step(place);
            if step < before {
                self.members.lower(setting, place, step);
                return self
                    .finder
                    .note_earlier(Turn { step, place }, before, origin);
            }
            return Ok(());
        }
        let place = self.members.steps.len();
        let kept = Kept::of(
            &self.members.base,
            machine,
            &mut self.backdrops,
            sums.backdrop,
        )?;
        if !self
            .members
            .add(setting, kept, parts, machine, step, &mut self.probe)?
        {
            self.members.lower_limit(setting, step);
            return Ok(());
        }
        self.finder.note(sums.state, Turn { step, place }, origin)
    }

    /// Lets the runner make steps, starting with step `from`, and keeps the state in which they
    /// end. If the steps reach the end of the search, or if memory runs out, the search is
    /// restricted to the steps below that point.
    pub(crate) fn run_on(
        &mut self,
        setting: &Setting<'_>,
        from: u64,
        origin: Origin,
    ) -> Result<(), AllocError>
        requires holds { Holds setting.now self.old.members }
        ensures adds { Adds setting.now self.old.members self.new.members 1 }
        ensures safe { Safe setting.now (view_of self.new.members) self.old.runner.forgotten
            self.old.runner.machine from }
    {
        let members = &mut self.members;
        let limit = members.limit.min(self.end);
        let leg = self.runner.run(setting, limit, from, &mut members.executed);
        match leg.end {
            End::Past => self.members.lower_limit(setting, leg.step),
            End::Wanted => {
                self.members.lower_limit(setting, leg.step);
                self.finder.hit = Some(origin);
            }
            End::Halted => {
                if let Some(cause) = self.runner.machine.stopped() {
                    self.finder.seen.note(cause, leg.step);
                }
            }
            End::Joined => {
                let joined = self.join(setting, leg.step, origin);
                if joined.is_err() {
                    self.members.lower_limit(setting, leg.step);
                }
                return joined;
            }
            End::Read => {
                self.members.lower_limit(setting, leg.step);
                if !(setting.is_strict && self.finder.has_bound(setting, &self.runner)) {
                    let to = leg.step;
                    self.refute(setting, Trail { origin, to }, self.runner.read);
                }
            }
        }
        Ok(())
    }

    /// Makes the next step of a state with these keys down, and continues from there. Returns
    /// whether that was possible; if not, the search is restricted to the steps below that step.
    fn follow(
        &mut self,
        setting: &Setting<'_>,
        place: usize,
        step: u64,
        keys: u16,
    ) -> Result<bool, AllocError>
        requires { HasStep setting.now self.old.members place step }
        ensures adds { Adds setting.now self.old.members self.new.members 1 }
        ensures leads { IfOk result (λ answer. IsTrue answer
            → Leads setting.now self.old.members self.new.members place step keys) }
    {
        let runner = &mut self.runner;
        let origin = self.finder.origin(place, step, keys);
        if !self
            .members
            .load(place, &mut runner.machine, &mut runner.rows)?
        {
            self.members.lower_limit(setting, step);
            return Ok(false);
        }
        match runner
            .machine
            .forgotten_after(self.members.forgotten[place], keys)
        {
            Ok(after) => runner.forgotten = after,
            Err(read) => {
                self.members.lower_limit(setting, step);
                self.refute(setting, Trail { origin, to: step }, read);
                return Ok(false);
            }
        }
        runner
            .machine
            .step(keys, setting.tick_at(step), &mut runner.touch);
        self.run_on(setting, step + 1, origin)?;
        Ok(true)
    }

    /// Continues from the state after the next step of a state, which sets a register to the delay
    /// timer, assuming that the timer has this value. Returns whether that was possible; if not,
    /// the search is restricted to the steps below that step.
    fn follow_as(
        &mut self,
        setting: &Setting<'_>,
        place: usize,
        step: u64,
        read: Reading,
        value: u8,
    ) -> Result<bool, AllocError>
        requires there { HasStep setting.now self.old.members place step }
        requires reads { HasValues setting.now (forgotten_at (view_of self.old.members) place)
            ((view_of self.old.members).member place) read }
        ensures adds { Adds setting.now self.old.members self.new.members 1 }
        ensures leads { IfOk result (λ answer. IsTrue answer
            → LeadsAs setting.now self.old.members self.new.members place step value) }
    {
        let runner = &mut self.runner;
        let origin = self.finder.origin_by(place, step, value);
        if !self.members.load_read(
            place,
            read.register,
            value,
            &mut runner.machine,
            &mut runner.rows,
        )? {
            self.members.lower_limit(setting, step);
            return Ok(false);
        }
        runner.forgotten = read.after;
        self.run_on(setting, step + 1, origin)?;
        Ok(true)
    }

    /// Calls `follow_as` with each value up to the bound, unless too many states are kept. Returns
    /// whether that was possible.
    fn follow_values(
        &mut self,
        setting: &Setting<'_>,
        place: usize,
        step: u64,
        read: Reading,
        most_states: usize,
    ) -> Result<bool, AllocError>
        requires there { HasStep setting.now self.old.members place step }
        requires reads { HasValues setting.now (forgotten_at (view_of self.old.members) place)
            ((view_of self.old.members).member place) read }
        requires few { length self.old.members.steps.items ≤ most_states }
        ensures grows { GoesUpTo setting.now self.old.members self.new.members (most_states + 1) }
        ensures leads { IfOk result (λ answer. IsTrue answer
            → (value : ℕ) → value ≤ read.bound
            → LeadsAs setting.now self.old.members self.new.members place step value) }
    {
        for value in 0..u16::from(read.bound) + 1 {
            if self.members.steps.len() > most_states {
                self.members.lower_limit(setting, step);
                return Ok(false);
            }
            if !self.follow_as(setting, place, step, read, value as u8)? {
                return Ok(false);
            }
        }
        Ok(true)
    }

    /// Makes the next step of a state with each of these keys down alone, and continues from there.
    /// Returns whether that was possible.
    fn follow_each(
        &mut self,
        setting: &Setting<'_>,
        place: usize,
        step: u64,
        choices: u16,
    ) -> Result<bool, AllocError>
        requires { HasStep setting.now self.old.members place step }
        ensures adds { Adds setting.now self.old.members self.new.members 16 }
        ensures leads { IfOk result (λ answer. IsTrue answer
            → (key : ℕ) → key < 16 → spec.is_key_down choices key ≡ true
            → Leads setting.now self.old.members self.new.members place step (2 ^ key)) }
    {
        for key in 0..16u32 {
            if !is_down(choices, key) {
                continue;
            }
            if !self.follow(setting, place, step, alone(key))? {
                return Ok(false);
            }
        }
        Ok(true)
    }

    /// Returns the ways in which the next step of a state can go, or `None` if the state can't be loaded,
    /// has drawn the largest countable number of random bytes, or needs something that is forgotten.
    fn ways(
        &mut self,
        setting: &Setting<'_>,
        place: usize,
        step: u64,
    ) -> Result<Option<Ways>, AllocError>
        requires { HasPlace setting.now self.old.members place }
        ensures same { self.new.members ≡ self.old.members }
        ensures ways { IfOk result (λ answer. IfSome answer
            (λ ways. HasWays setting.now (forgotten_at (view_of self.old.members) place)
            ((view_of self.old.members).member place) ways)) }
    {
        let runner = &mut self.runner;
        if !self
            .members
            .load(place, &mut runner.machine, &mut runner.rows)?
            || runner.machine.draws() == u64::MAX
        {
            return Ok(None);
        }
        let forgotten = self.members.forgotten[place];
        if !setting.are_goals_known(&runner.machine, forgotten) {
            let read = setting.asked_of(&runner.machine, forgotten);
            let origin = self.finder.origin(place, step, 0);
            self.refute(setting, Trail { origin, to: step }, read);
            return Ok(None);
        }
        match runner.machine.forgotten_after(forgotten, 0) {
            Ok(after) => match setting.timed_register(&runner.machine) {
                Some(register) => Ok(Some(Ways::Values(Reading {
                    register,
                    bound: runner.machine.delay(),
                    after,
                }))),
                None => Ok(Some(Ways::Keys(runner.machine.key_choices(setting.allowed)))),
            },
            Err(read) => {
                let origin = self.finder.origin(place, step, 0);
                self.refute(setting, Trail { origin, to: step }, read);
                Ok(None)
            }
        }
    }

    /// Makes the next step of a state with each choice of some keys, and notes that the state was taken up.
    fn take_up_keys(
        &mut self,
        setting: &Setting<'_>,
        place: usize,
        step: u64,
        choices: u16,
    ) -> Result<(), AllocError>
        requires there { HasStep setting.now self.old.members place step }
        requires choices { HasChoices setting.now (forgotten_at (view_of self.old.members) place)
            ((view_of self.old.members).member place) choices }
        ensures { Adds setting.now self.old.members self.new.members most_ways }
    {
        if !self.follow(setting, place, step, 0)? {
            return Ok(());
        }
        if !self.follow_each(setting, place, step, choices)? {
            return Ok(());
        }
        if self.members.step(place) == step {
            self.members.close(setting, place);
        }
        Ok(())
    }

    /// Makes the next step of a state with each value of the delay timer, and notes that the state was taken up.
    fn take_up_values(
        &mut self,
        setting: &Setting<'_>,
        place: usize,
        step: u64,
        read: Reading,
        most_states: usize,
    ) -> Result<(), AllocError>
        requires there { HasStep setting.now self.old.members place step }
        requires reads { HasValues setting.now (forgotten_at (view_of self.old.members) place)
            ((view_of self.old.members).member place) read }
        requires few { length self.old.members.steps.items ≤ most_states }
        ensures { GoesUpTo setting.now self.old.members self.new.members (most_states + 1) }
    {
        if !self.follow_values(setting, place, step, read, most_states)? {
            return Ok(());
        }
        if self.members.step(place) == step {
            self.members.close(setting, place);
        }
        Ok(())
    }

    /// Makes the next step of a state in each of its ways, unless the limit is reached.
    pub(crate) fn take_up(
        &mut self,
        setting: &Setting<'_>,
        place: usize,
        most_states: usize,
    ) -> Result<(), AllocError>
        requires there { HasPlace setting.now self.old.members place }
        requires few { length self.old.members.steps.items ≤ most_states }
        ensures { GoesUpTo setting.now self.old.members self.new.members (most_states + most_ways) }
    {
        let step = self.members.step(place);
        if step >= self.members.limit {
            return Ok(());
        }
        match self.ways(setting, place, step)? {
            Some(Ways::Keys(choices)) => self.take_up_keys(setting, place, step, choices),
            Some(Ways::Values(read)) => {
                self.take_up_values(setting, place, step, read, most_states)
            }
            None => {
                self.members.lower_limit(setting, step);
                Ok(())
            }
        }
    }

    /// Takes up the state of a turn, unless it was taken up already.
    fn take_turn(
        &mut self,
        setting: &Setting<'_>,
        turn: Turn,
        most_states: usize,
    ) -> Result<(), AllocError>
        requires holds { Holds setting.now self.old.members }
        requires few { length self.old.members.steps.items ≤ most_states }
        ensures { GoesUpTo setting.now self.old.members self.new.members (most_states + most_ways) }
    {
        if !self.members.is_open(turn.place, turn.step) {
            return Ok(());
        }
        self.take_up(setting, turn.place, most_states)
    }

    /// The approximate number of bytes that the states take.
    pub(crate) fn room(&self) -> u64 {
        (self.members.states.len() as u64)
            .saturating_mul(STATE_BYTES)
            .saturating_add(self.backdrops.room)
    }

    /// The approximate number of bytes that the states take together with the ways between them,
    /// which a search for goals follows backward.
    pub(crate) fn room_for_ways(&self) -> u64 {
        let states = (self.members.states.len() as u64).saturating_mul(RANK_BYTES);
        let ways = self.finder.ways.saturating_mul(WAY_BYTES);
        self.room().saturating_add(states).saturating_add(ways)
    }

    /// Takes up states until none is left, or until a limit is reached.
    pub(crate) fn run<W: Watcher>(
        &mut self,
        setting: &Setting<'_>,
        most_states: usize,
        most_bytes: u64,
        watcher: &mut W,
    ) -> Result<(), AllocError>
        requires holds { Holds setting.now self.old.members }
        requires begun { length self.old.members.steps.items ≤ 1 }
        ensures { GoesUpTo setting.now self.old.members self.new.members (most_states + most_ways) }
    {
        let mut told = 0;
        for turns in 0..u64::MAX {
            let Some(turn) = self.finder.next() else {
                return Ok(());
            };
            let states = self.members.states.len();
            if self.finder.is_left(setting, states, turn.step) || states > most_states {
                return Ok(());
            }
            if turn.step >= self.members.limit {
                return Ok(());
            }
            if self.room() > most_bytes {
                self.finder.is_at_memory = true;
                return Ok(());
            }
            if turns % TURNS_ASKED == 0 && !watcher.goes_on() {
                self.finder.is_stopped = true;
                return Ok(());
            }
            let done = turns.saturating_add(self.members.states.len() as u64) / STATES_TOLD;
            if done > told {
                told = done;
                watcher.note(turn.step, self.members.states.len(), self.room());
            }
            self.take_turn(setting, turn, most_states)?;
        }
        Ok(())
    }
}
