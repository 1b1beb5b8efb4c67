//! Finds the guesses that a step refuted. What the step needed may come from other parts, on the way from
//! the kept states. Nothing is claimed about this.

ghost use Rattle.std.specs.Prelude.{◌≡◌, ◌<◌};

use crate::executed::Executed;
use crate::finder::Origin;
use crate::leg::End;
use crate::limits::{MOST_QUIET_STEPS, STATES_FOR_A_SEARCH};
use crate::search::Search;
use crate::setting::Setting;
use chip_machine::Forgotten;
use chip_machine::forgotten::PARTS;
use chip_machine::limits::DIGITS_END;
use std::alloc::AllocError;

/// A sequence of steps from a kept state.
#[derive(Clone, Copy)]
pub(crate) struct Trail {
    /// How the first step was made.
    pub(crate) origin: Origin,
    /// The number of the step after the last one.
    pub(crate) to: u64,
}

/// The forgotten parts that a step needs.
#[derive(Clone, Copy)]
struct Need {
    /// The number of the step.
    step: u64,
    needed: Forgotten,
}

impl Search {
    /// Notes that the step after a trail needed some forgotten parts and bytes. From now on, the parts
    /// that they come from are known in the last state before it in which they were forgotten, and in the
    /// states before that one, as long as parts that were forgotten there lead to them. If there is no such
    /// state, nothing is forgotten any more. After the first such step of a search, an earlier one may have
    /// led to that already.
    pub(crate) fn refute(&mut self, setting: &Setting<'_>, trail: Trail, needed: Forgotten)
        requires { 0 < setting.now.rate }
        ensures { self.new.members ≡ self.old.members }
    {
        let guesses = &mut self.finder.guesses;
        let is_first = !guesses.is_refuted;
        let states = self.members.states.len();
        if is_first && guesses.note_stores(&self.runner.machine, states) {
            return;
        }
        let mut trail = trail;
        let mut needed = needed;
        let mut is_lowered = false;
        for _state in 0..=self.finder.origins.len() {
            let Some(place) = trail.origin.parent() else {
                break;
            };
            let sources = match self.sources(setting, place, trail, needed) {
                Ok(sources) => sources,
                Err(_) => None,
            };
            if is_lowered && sources.is_none() {
                return;
            }
            needed = sources.unwrap_or(needed);
            let is_less = self.knows_more(place, needed, is_first && !is_lowered);
            if is_less && !is_lowered && states > STATES_FOR_A_SEARCH {
                self.refute_next(setting, place, trail, needed);
            }
            if !is_less && (is_lowered || !is_first) {
                return;
            }
            is_lowered |= is_less;
            let Some(next) = self.trail_to(place) else {
                break;
            };
            trail = next;
        }
        if is_first && !is_lowered {
            self.finder.guesses.give_up();
        }
    }

    /// Returns the steps by which the state at a place was reached first, if they are known.
    fn trail_to(&self, place: usize) -> Option<Trail> {
        let origin = self.finder.origins.get(place).copied()?;
        let to = self.members.steps.get(place).copied()?;
        Some(Trail { origin, to })
    }

    /// Notes what the steps of a trail from the state at a place, and the steps after it, need next if
    /// some parts of that state are known. Otherwise the next search would find this out only after
    /// keeping as many states.
    fn refute_next(&mut self, setting: &Setting<'_>, place: usize, trail: Trail, known: Forgotten)
        requires { 0 < setting.now.rate }
        ensures { self.new.members ≡ self.old.members }
    {
        let mut known = known;
        for _part in 0..PARTS {
            let Ok(Some(next)) = self.next_need(setting, place, trail, known) else {
                return;
            };
            let trail = Trail {
                to: next.step,
                ..trail
            };
            let Ok(sources) = self.sources(setting, place, trail, next.needed) else {
                return;
            };
            let sources = sources.unwrap_or(next.needed);
            if !self.knows_more(place, sources, false) {
                return;
            }
            known = known.with(sources);
        }
    }

    /// Returns what these steps next need of what is then forgotten, if anything is found.
    fn next_need(
        &mut self,
        setting: &Setting<'_>,
        place: usize,
        trail: Trail,
        known: Forgotten,
    ) -> Result<Option<Need>, AllocError>
        requires { 0 < setting.now.rate }
        ensures { self.new.members ≡ self.old.members }
    {
        if place >= self.members.forgotten.len() {
            return Ok(None);
        }
        let forgotten = self.members.forgotten[place].without(known);
        let Some(after) = self.first_by(setting, place, trail, forgotten)? else {
            return Ok(None);
        };
        let runner = &mut self.runner;
        runner.forgotten = after;
        let from = u64::from(trail.origin.step) + 1;
        let leg = runner.run(setting, self.end, from, &mut Executed::none());
        let needed = match leg.end {
            End::Read => runner.read,
            End::Joined if !runner.is_quiet => {
                let parts = self.finder.guesses.at(setting, &runner.machine);
                runner.forgotten.without(parts)
            }
            _ => Forgotten::nothing(),
        };
        Ok(
            (!needed.is_nothing()).then_some(Need {
                step: leg.step,
                needed,
            }),
        )
    }

    /// Forgets less of the states at the address of the state at a place, and fewer bytes of all states.
    /// Returns whether anything changed. If it is needed where I points, and I is past the digits in this
    /// state, the value of I becomes known there too.
    fn knows_more(&mut self, place: usize, needed: Forgotten, is_first: bool) -> bool
        ensures { self.new.members ≡ self.old.members }
    {
        if place >= self.members.states.len() {
            return false;
        }
        let states = self.members.states.len();
        let has_bytes = needed.has_bytes() && is_first;
        let is_new = has_bytes && self.finder.guesses.note_needed(needed, states);
        let state = &self.members.states[place];
        let whole = if needed.has_far() && state.index >= DIGITS_END {
            needed.with(Forgotten::index())
        } else {
            needed
        };
        self.finder.guesses.lower(state.pc, whole) || is_new
    }

    /// Returns those forgotten parts of the state at a place that determine some parts forgotten at the
    /// end of a trail from there, if there are any.
    fn sources(
        &mut self,
        setting: &Setting<'_>,
        place: usize,
        trail: Trail,
        needed: Forgotten,
    ) -> Result<Option<Forgotten>, AllocError>
        requires { 0 < setting.now.rate }
        ensures { self.new.members ≡ self.old.members }
    {
        let from = u64::from(trail.origin.step);
        if trail.to <= from || place >= self.members.forgotten.len() {
            return Ok(Some(needed));
        }
        let forgotten = self.members.forgotten[place];
        if needed.is_nothing() {
            return Ok(Some(forgotten));
        }
        let mut sources = Forgotten::nothing();
        for number in 0..PARTS {
            let part = forgotten.alone(number);
            if !part.is_nothing() {
                let after = self.forgotten_by(setting, place, trail, part)?;
                if !after.shared_with(needed).is_nothing() {
                    sources = sources.with(part);
                }
            }
        }
        Ok((!sources.is_nothing()).then_some(sources))
    }

    /// Returns what is forgotten at the end of a trail if `part` is forgotten in the state at a place
    /// before it.
    fn forgotten_by(
        &mut self,
        setting: &Setting<'_>,
        place: usize,
        trail: Trail,
        part: Forgotten,
    ) -> Result<Forgotten, AllocError>
        requires { 0 < setting.now.rate }
        ensures { self.new.members ≡ self.old.members }
    {
        let Some(mut forgotten) = self.first_by(setting, place, trail, part)? else {
            return Ok(part);
        };
        let runner = &mut self.runner;
        let from = u64::from(trail.origin.step) + 1;
        let most = from + u64::from(MOST_QUIET_STEPS);
        for step in from..trail.to.min(most) {
            let Ok(after) = runner.machine.forgotten_after(forgotten, 0) else {
                return Ok(forgotten);
            };
            forgotten = after;
            runner
                .machine
                .step(0, setting.tick_at(step), &mut runner.touch);
        }
        Ok(forgotten)
    }

    /// Gives the runner the state after the first step of a trail, and returns what is then forgotten, or
    /// `None` if that isn't possible.
    fn first_by(
        &mut self,
        setting: &Setting<'_>,
        place: usize,
        trail: Trail,
        part: Forgotten,
    ) -> Result<Option<Forgotten>, AllocError>
        requires { 0 < setting.now.rate }
        ensures { self.new.members ≡ self.old.members }
    {
        let Origin {
            step,
            keys,
            value,
            ..
        } = trail.origin;
        let runner = &mut self.runner;
        if place >= self.members.states.len()
            || !self
                .members
                .load(place, &mut runner.machine, &mut runner.rows)?
        {
            return Ok(None);
        }
        let Ok(after) = runner.machine.forgotten_after(part, keys) else {
            return Ok(None);
        };
        let Some(register) = setting.timed_register(&runner.machine) else {
            runner
                .machine
                .step(keys, setting.tick_at(u64::from(step)), &mut runner.touch);
            return Ok(Some(after));
        };
        let is_loaded = self.members.load_read(
            place,
            register,
            value,
            &mut runner.machine,
            &mut runner.rows,
        )?;
        Ok(is_loaded.then_some(after))
    }
}
