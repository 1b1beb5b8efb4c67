//! The order in which states are taken up, where one may be found, and how each was reached. Nothing is
//! claimed about this, because what it answers is checked.

use crate::backdrop::{Backdrop, Backdrops};
use crate::guesses::Guesses;
use crate::kept::Kept;
use crate::leg::Runner;
use crate::limits::{MOST_PRESSES, MOST_WAYS};
use crate::seen::Seen;
use crate::setting::Setting;
use chip_machine::Forgotten;
use chip_replay::LAST_STEP;
use std::alloc::{AllocError, Global};
use std::collections::{BTreeSet, HashMap};

/// A state that is to be taken up.
#[derive(Clone, Copy, PartialEq, Eq, PartialOrd, Ord)]
pub(crate) struct Turn {
    pub(crate) step: u64,
    pub(crate) place: usize,
}

/// Which state is taken up next.
#[derive(Clone, Copy, PartialEq, Eq)]
pub(crate) enum Order {
    /// A state with the least step. The step of what is found is then a first one.
    LeastStep,
    /// A state with the greatest step, until the target is met.
    GreatestStep,
}

/// How a state was reached.
#[derive(Clone, Copy)]
pub(crate) struct Origin {
    /// The place of the state before the last step that could tell keys apart, or a number past all
    /// places if there was none.
    parent: u32,
    /// The number of that step.
    pub(crate) step: u32,
    /// The keys that were down in that step, key k at bit k.
    pub(crate) keys: u16,
    /// The number of such steps on the way in which keys were down.
    presses: u16,
    /// The value of the delay timer that the step read, if it can tell these values apart.
    pub(crate) value: u8,
}

impl Origin {
    /// The origin of a state before which no step can tell keys apart.
    pub(crate) const START: Origin = Origin {
        parent: u32::MAX,
        step: 0,
        keys: 0,
        presses: 0,
        value: 0,
    };

    /// Returns the place of the state before that step, if there was one.
    pub(crate) fn parent(self) -> Option<usize> {
        (self.parent != u32::MAX).then_some(self.parent as usize)
    }
}

/// The untrusted part of a search.
#[derive(Drop)]
pub(crate) struct Finder {
    order: Order,
    places: HashMap<u64, u32>,
    turns: BTreeSet<Turn>,
    pub(crate) origins: Vec<Origin>,
    /// How the target was met, if it was.
    pub(crate) hit: Option<Origin>,
    /// The other causes for which the machine stopped.
    pub(crate) seen: Seen,
    /// Whether a delay timer was above 0 while the ticks were free.
    pub(crate) is_timer_set: bool,
    /// Whether the watcher ended the search.
    pub(crate) is_stopped: bool,
    /// Whether the search ended because it held too many bytes.
    pub(crate) is_at_memory: bool,
    /// The number of ways in which the search went on from states.
    pub(crate) ways: u64,
    /// The guesses about what can be forgotten.
    pub(crate) guesses: Guesses,
}

impl Finder {
    /// Returns a finder that knows no state, given the causes that were met before.
    pub(crate) fn new(alloc: Global, order: Order, seen: Seen, guesses: Guesses) -> Finder {
        Finder {
            order,
            places: HashMap::new(alloc),
            turns: BTreeSet::new(alloc),
            origins: Vec::new(alloc),
            hit: None,
            seen,
            is_timer_set: false,
            is_stopped: false,
            is_at_memory: false,
            ways: 0,
            guesses,
        }
    }

    /// Whether a step refuted what the search assumes.
    pub(crate) fn is_refuted(&self, setting: &Setting<'_>) -> bool {
        self.guesses.is_refuted || self.is_timer_set && setting.is_strict
    }

    /// Whether a search with this many states ends before it takes up a state that was reached at a step.
    /// The reason is that it has refuted what it assumes, has met what it waits for, or, with free ticks,
    /// keeps too many states or has gone on from them in too many ways.
    pub(crate) fn is_left(&self, setting: &Setting<'_>, states: usize, step: u64) -> bool {
        let most = setting.most_timed;
        let is_full = states > most || self.ways / MOST_WAYS > most as u64;
        self.is_refuted(setting)
            || self.is_timer_set && is_full
            || setting.awaited.is_any() && self.seen.has_all(&setting.awaited, step)
    }

    /// Whether the runner's delay timer is a bound above 0. If so, notes that.
    pub(crate) fn has_bound(&mut self, setting: &Setting<'_>, runner: &Runner) -> bool {
        let has_bound = setting.free && runner.machine.delay() != 0;
        self.is_timer_set |= has_bound;
        has_bound
    }

    /// Returns the parts to forget of the runner's state: the ones already forgotten, if its next step
    /// goes on in one way. Notes a delay timer above 0 while the ticks are free.
    pub(crate) fn parts_to_forget(&mut self, setting: &Setting<'_>, runner: &Runner) -> Forgotten {
        let _has_bound = self.has_bound(setting, runner);
        if runner.is_quiet {
            runner.forgotten
        } else {
            self.guesses.at(setting, &runner.machine)
        }
    }

    /// Notes which bytes of the memory changed in the last of the states, if it is the first state with
    /// its backdrop.
    pub(crate) fn note_changed(&mut self, backdrops: &mut Backdrops, states: &[Kept]) {
        if backdrops.is_new
            && let Some(kept) = states.last()
        {
            let backdrop: &Backdrop = &kept.backdrop;
            self.guesses.note_changed(&backdrop.bytes, states.len());
        }
        backdrops.is_new = false;
    }

    /// Returns the place of a state with this sum, if one is known.
    pub(crate) fn place(&self, sum: u64) -> Option<usize> {
        match self.places.get(&sum) {
            Some(place) => Some(*place as usize),
            None => None,
        }
    }

    /// Returns the step at which each run ends: the end of the steps that are asked for and, if the
    /// greatest step comes first, of the steps that a script may have.
    pub(crate) fn end(&self, steps: u64) -> u64 {
        match self.order {
            Order::LeastStep => steps,
            Order::GreatestStep => steps.min(u64::from(LAST_STEP) + 1),
        }
    }

    /// Returns how a state is reached by a step of the state at a place with these keys down.
    pub(crate) fn origin(&mut self, place: usize, step: u64, keys: u16) -> Origin {
        self.ways = self.ways.saturating_add(1);
        let before = match self.origins.get(place) {
            Some(origin) => origin.presses,
            None => 0,
        };
        Origin {
            parent: u32::try_from(place).unwrap_or(u32::MAX),
            step: u32::try_from(step).unwrap_or(u32::MAX),
            keys,
            presses: before.saturating_add(u16::from(keys != 0)),
            value: 0,
        }
    }

    /// Returns how a state is reached by a step of a state that reads this value of the delay timer.
    pub(crate) fn origin_by(&mut self, place: usize, step: u64, value: u8) -> Origin {
        Origin {
            value,
            ..self.origin(place, step, 0)
        }
    }

    /// Notes a new state.
    pub(crate) fn note(&mut self, sum: u64, turn: Turn, origin: Origin) -> Result<(), AllocError> {
        if let Ok(place) = u32::try_from(turn.place) {
            self.places.insert(sum, place)?;
        }
        self.origins.push(origin)?;
        self.open(turn, origin)
    }

    /// Notes that a state, which was reached in this way, is to be taken up. If the greatest step comes
    /// first, leaves out a state whose script has its maximal length.
    fn open(&mut self, turn: Turn, origin: Origin) -> Result<(), AllocError> {
        if self.order == Order::LeastStep || origin.presses < MOST_PRESSES {
            self.turns.insert(turn)?;
        }
        Ok(())
    }

    /// Notes that a state was reached earlier than at a step. If the greatest step comes first, a state
    /// that was taken up is not taken up again: scripts through it are those by which it was reached first.
    pub(crate) fn note_earlier(
        &mut self,
        turn: Turn,
        before: u64,
        origin: Origin,
    ) -> Result<(), AllocError> {
        let known = Turn {
            step: before,
            place: turn.place,
        };
        if self.order == Order::GreatestStep && !self.turns.remove(&known) {
            return Ok(());
        }
        if turn.place < self.origins.len() {
            self.origins[turn.place] = origin;
        }
        self.open(turn, origin)
    }

    /// Returns the next state to be taken up, if there is one.
    pub(crate) fn next(&mut self) -> Option<Turn> {
        match self.order {
            Order::LeastStep => self.turns.pop_first(),
            Order::GreatestStep if self.hit.is_some() => None,
            Order::GreatestStep => self.turns.pop_last(),
        }
    }
}
