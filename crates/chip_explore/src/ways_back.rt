//! Ways back from the goals, over the steps that can tell keys apart. They are unverified, because
//! the ranks computed from them are checked.

ghost use Rattle.std.specs.Prelude.{◌≡◌};
ghost use Rattle.chip_explore.specs.inner.Cover.{HasPlace, Holds};

use crate::climb::Way;
use crate::finder::Origin;
use crate::keys::{alone, is_down};
use crate::leg::Runner;
use crate::limits::MOST_QUIET_STEPS;
use crate::search::Search;
use crate::setting::Setting;
use std::alloc::{AllocError, Global};

/// A way from one state to another.
#[derive(Clone, Copy)]
struct Back {
    /// The place of the state where the way starts.
    from: u32,
    /// The keys that are down on this way.
    keys: u16,
    /// The number of another way to the same state, or 0 if there is none.
    other: u32,
}

/// How the goals are reached from the kept states.
#[derive(Drop)]
pub(crate) struct WaysBack {
    /// The rank of each state, or 0 if no way to the goals is known.
    pub(crate) ranks: Vec<u32>,
    /// For each state, the keys that are down in the first step of its way to the goals.
    pub(crate) keys: Vec<u16>,
    /// The places of the states that have a rank, in the order of their ranks.
    ranked: Vec<u32>,
    /// For each state, the number of a way that leads to it, counted from 1.
    ways_to: Vec<u32>,
    ways: Vec<Back>,
}

/// The step from which on no way to the goals is known, and how it was reached.
#[derive(Clone, Copy)]
pub(crate) struct Loss {
    pub(crate) origin: Origin,
    pub(crate) step: u64,
}

impl WaysBack {
    /// Returns an empty collection of ways between this many states.
    fn none(alloc: Global, states: usize) -> Result<WaysBack, AllocError> {
        let mut ranks = Vec::with_capacity(alloc, states)?;
        ranks.resize(states, 0)?;
        let mut keys = Vec::with_capacity(alloc, states)?;
        keys.resize(states, 0)?;
        let mut ways_to = Vec::with_capacity(alloc, states)?;
        ways_to.resize(states, 0)?;
        Ok(WaysBack {
            ranks,
            keys,
            ranked: Vec::new(alloc),
            ways_to,
            ways: Vec::new(alloc),
        })
    }

    /// Returns the ways between the states that a search keeps.
    pub(crate) fn of(
        alloc: Global,
        search: &mut Search,
        setting: &Setting<'_>,
    ) -> Result<WaysBack, AllocError>
        requires { Holds setting.now search.old.members }
        ensures { search.new.members ≡ search.old.members }
    {
        let states = search.members.steps.len();
        let mut ways = WaysBack::none(alloc, states)?;
        for place in 0..states {
            ways.note_from(search, setting, place)?;
        }
        ways.go_back(states)?;
        Ok(ways)
    }

    /// Returns the rank of the state at a place.
    pub(crate) fn rank(&self, place: usize) -> u32 {
        self.ranks.get(place).copied().unwrap_or(0)
    }

    /// Gives a state a rank and keys, if it has no rank yet.
    fn rise(&mut self, place: usize, rank: u32, keys: u16) -> Result<(), AllocError> {
        if place < self.ranks.len()
            && place < self.keys.len()
            && self.ranks[place] == 0
            && let Ok(number) = u32::try_from(place)
        {
            self.ranked.push(number)?;
            self.ranks[place] = rank;
            self.keys[place] = keys;
        }
        Ok(())
    }

    /// Adds a way from one state to another.
    fn note(&mut self, from: usize, to: usize, keys: u16) -> Result<(), AllocError> {
        if to < self.ways_to.len()
            && let Ok(from) = u32::try_from(from)
            && let Ok(number) = u32::try_from(self.ways.len())
        {
            let other = self.ways_to[to];
            self.ways.push(Back { from, keys, other })?;
            self.ways_to[to] = number.saturating_add(1);
        }
        Ok(())
    }

    /// Adds each way from a state.
    fn note_from(
        &mut self,
        search: &mut Search,
        setting: &Setting<'_>,
        place: usize,
    ) -> Result<(), AllocError>
        requires { HasPlace setting.now search.old.members place }
        ensures { search.new.members ≡ search.old.members }
    {
        if search.is_at_goals(setting, place)? {
            self.rise(place, 1, 0)?;
        }
        let choices = search.runner.machine.key_choices(setting.allowed);
        self.note_way(search, setting, place, 0)?;
        for key in 0..16u32 {
            if is_down(choices, key) {
                self.note_way(search, setting, place, alone(key))?;
            }
        }
        Ok(())
    }

    /// Adds the way from a state with these keys down.
    fn note_way(
        &mut self,
        search: &mut Search,
        setting: &Setting<'_>,
        place: usize,
        keys: u16,
    ) -> Result<(), AllocError>
        requires { HasPlace setting.now search.old.members place }
        ensures { search.new.members ≡ search.old.members }
    {
        let step = search.members.step(place);
        if !search.step_from(setting, place, keys)? {
            return Ok(());
        }
        let climb = search.runner.climb(setting, step + 1, MOST_QUIET_STEPS);
        match climb.way {
            Way::AtGoals => self.rise(place, 1, keys),
            Way::Joined => match search.place_of(setting, climb.step)? {
                Some(to) => self.note(place, to, keys),
                None => Ok(()),
            },
            Way::Lost => Ok(()),
        }
    }

    /// Gives ranks to the states that lead to states with ranks.
    fn go_back(&mut self, states: usize) -> Result<(), AllocError> {
        for done in 0..states {
            if done >= self.ranked.len() {
                break;
            }
            let place = self.ranked[done] as usize;
            let rank = self.rank(place).saturating_add(1);
            let mut number = self.ways_to.get(place).copied().unwrap_or(0);
            for _way in 0..self.ways.len() {
                if number == 0 || number as usize > self.ways.len() {
                    break;
                }
                let way = self.ways[number as usize - 1];
                self.rise(way.from as usize, rank, way.keys)?;
                number = way.other;
            }
        }
        Ok(())
    }

    /// Finds the least step from which on no way to the goals is known, among the steps after the start
    /// and after each state from which a way is known.
    pub(crate) fn first_loss(
        &self,
        alloc: Global,
        search: &mut Search,
        setting: &Setting<'_>,
    ) -> Result<Option<Loss>, AllocError>
        requires { Holds setting.now search.old.members }
        ensures { search.new.members ≡ search.old.members }
    {
        search.runner = Runner::new(alloc, &search.members.start)?;
        let mut first = None;
        if let Some(step) = self.lost_from(search, setting, 0)? {
            let origin = Origin::START;
            first = Some(Loss { origin, step });
        }
        for place in 0..search.members.steps.len() {
            if self.rank(place) != 0 {
                self.note_loss(search, setting, place, &mut first)?;
            }
        }
        Ok(first)
    }

    /// Records the least such step after a state, if it is less than the least step recorded so far.
    fn note_loss(
        &self,
        search: &mut Search,
        setting: &Setting<'_>,
        place: usize,
        first: &mut Option<Loss>,
    ) -> Result<(), AllocError>
        requires { HasPlace setting.now search.old.members place }
        ensures { search.new.members ≡ search.old.members }
    {
        let step = search.members.step(place);
        let _is_at_goals = search.is_at_goals(setting, place)?;
        let choices = search.runner.machine.key_choices(setting.allowed);
        for key in 0..17u32 {
            let is_choice = key == 16 || is_down(choices, key);
            let keys = if key == 16 { 0 } else { alone(key) };
            if is_choice
                && search.step_from(setting, place, keys)?
                && let Some(lost) = self.lost_from(search, setting, step + 1)?
                && !first.is_some_and(|loss| loss.step <= lost)
            {
                let origin = search.finder.origin(place, step, keys);
                *first = Some(Loss { origin, step: lost });
            }
        }
        Ok(())
    }

    /// Returns the step from which on no way to the goals is known from the runner's state at a step.
    /// Returns `None` if that doesn't happen before the next step that can tell keys apart.
    fn lost_from(
        &self,
        search: &mut Search,
        setting: &Setting<'_>,
        from: u64,
    ) -> Result<Option<u64>, AllocError>
        requires { Holds setting.now search.old.members }
        ensures { search.new.members ≡ search.old.members }
    {
        let mut lost = from;
        let mut climb = search.runner.climb(setting, from, MOST_QUIET_STEPS);
        for _goal in 0..=MOST_QUIET_STEPS {
            if climb.way != Way::AtGoals {
                break;
            }
            lost = climb.step.saturating_add(1);
            let Some(next) = search.runner.climb_on(setting, climb) else {
                return Ok(None);
            };
            climb = next;
        }
        if climb.way != Way::Joined {
            return Ok(None);
        }
        match search.place_of(setting, climb.step)? {
            Some(to) if self.rank(to) == 0 => Ok(Some(lost)),
            _ => Ok(None),
        }
    }
}
