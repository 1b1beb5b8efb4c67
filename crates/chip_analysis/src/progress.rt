//! The messages on standard error during and after a search, and the time limit of a search.

ghost use Rattle.std.specs.Prelude.{◌≡◌};
ghost use Rattle.chip_analysis.specs.inner.Counts.{word_of};

use crate::note::{Note, write_note};
use chip_arguments::SearchArguments;
use chip_explore::{Explored, KeyEvent, Outcome, Watcher};
use chip_host::Shown;
use chip_replay::{LAST_STEP, MOST_EVENTS};
use std::io;
use std::io::Write;
use std::time::{Clock, Duration, Instant};

/// A message of a command, as opposed to its answers.
#[derive(Clone, Copy)]
pub(crate) enum News<'n> {
    /// The file with this name was written.
    Written(&'n str),
    /// The key file with this name was written, but other commands don't accept it because it is too long.
    WrittenLong(&'n str),
    /// The file with this name couldn't be written.
    Unwritten(&'n str, &'n io::Error),
    /// The source with this name states no property.
    NothingStated(&'n str),
    /// The time limit of a search is reached.
    OutOfTime,
    /// A search ended because it kept this many states. Written only if progress is shown.
    OutOfStates(u32),
    /// A search ended because it used this many megabytes.
    OutOfMemory(u32),
    /// A note about a line of the source with this name, or about the whole source if the number is
    /// 0. Written only if progress is shown.
    Noted {
        name: &'n str,
        line: usize,
        note: Note<'n>,
    },
}

impl<'n> News<'n> {
    /// The message for a key file to which these events, in step order, were written.
    pub(crate) fn of_keys(name: &'n str, events: &[KeyEvent]) -> News<'n> {
        let is_late = events.last().is_some_and(|event| event.step > LAST_STEP);
        if is_late || events.len() > MOST_EVENTS {
            News::WrittenLong(name)
        } else {
            News::Written(name)
        }
    }
}

/// The bound at which a search ended without a final answer.
#[derive(Clone, Copy, PartialEq, Eq)]
pub(crate) enum Bound {
    Seconds,
    Memory,
    States,
}

impl Bound {
    /// The bound at which a search with these arguments ended early, if it did.
    pub(crate) fn of(explored: &Explored, arguments: &SearchArguments<'_>) -> Option<Bound> {
        let is_open = matches!(explored.outcome, Outcome::Within(_) | Outcome::Later { .. });
        if explored.is_stopped {
            Some(Bound::Seconds)
        } else if is_open && explored.is_at_memory {
            Some(Bound::Memory)
        } else if is_open && explored.states > arguments.states as usize {
            Some(Bound::States)
        } else {
            None
        }
    }

    /// The message for a search with these arguments that ended at the bound.
    pub(crate) fn news<'n>(self, arguments: &SearchArguments<'_>) -> News<'n> {
        match self {
            Bound::Seconds => News::OutOfTime,
            Bound::Memory => News::OutOfMemory(arguments.memory),
            Bound::States => News::OutOfStates(arguments.states),
        }
    }

    /// The name of the bound, as it appears in JSON.
    pub(crate) fn word(self) -> &'static [u8]
        ensures { result.now ≡ word_of self }
    {
        match self {
            Bound::Seconds => b"seconds",
            Bound::Memory => b"memory",
            Bound::States => b"states",
        }
    }
}

/// A watcher of searches that can also write messages.
pub(crate) trait Teller: Watcher {
    fn tell(&mut self, news: News<'_>);

    /// Records that a search begins. `searches` is the number of searches left, including this one.
    /// The search ends when its share of the remaining time is used up.
    fn begin(&mut self, searches: usize);
}

/// Messages on standard error, and the times at which searches end. Failures of standard error are ignored.
#[derive(Drop)]
pub(crate) struct Progress<'e, E, C> {
    errors: &'e mut E,
    is_shown: bool,
    clock: &'e C,
    /// The time at which all searches end, if there is a limit.
    end: Option<Instant>,
    /// The time at which the current search ends, if there is a limit.
    end_of_share: Option<Instant>,
}

impl<'e, E: Write, C: Clock> Progress<'e, E, C> {
    /// Returns a teller whose searches end after this many seconds. There is no limit if `seconds`
    /// is None or the clock can't be read.
    pub(crate) fn new(
        errors: &'e mut E,
        is_shown: bool,
        clock: &'e C,
        seconds: Option<u32>,
    ) -> Progress<'e, E, C> {
        let end = match seconds {
            Some(seconds) => match Instant::now(clock) {
                Ok(now) => now.checked_add(Duration::from_secs(u64::from(seconds))),
                Err(_) => None,
            },
            None => None,
        };
        Progress {
            errors,
            is_shown,
            clock,
            end,
            end_of_share: end,
        }
    }

    /// Returns the time at which the next search ends, if this many searches are left. If the clock
    /// can't be read, the search may use all the remaining time.
    fn share_of(&self, searches: usize) -> Option<Instant> {
        let end = self.end?;
        let Ok(now) = Instant::now(self.clock) else {
            return Some(end);
        };
        let left = end.saturating_duration_since(now);
        let parts = u64::from(left.subsec_millis());
        let milliseconds = left.as_secs().saturating_mul(1_000).saturating_add(parts);
        now.checked_add(Duration::from_millis(milliseconds / (searches.max(1) as u64)))
    }
}

impl<'e, E: Write, C: Clock> Watcher for Progress<'e, E, C> {
    fn note(&mut self, step: u64, states: usize, bytes: u64) {
        if self.is_shown {
            let megabytes = bytes / 1_000_000;
            let _ = writeln!(
                self.errors,
                "chipbench: step {step}, {states} states, about {megabytes} MB"
            );
        }
    }

    fn goes_on(&mut self) -> bool {
        let Some(end) = self.end_of_share else {
            return true;
        };
        match Instant::now(self.clock) {
            Ok(now) => now < end,
            Err(_) => true,
        }
    }
}

impl<'e, E: Write, C: Clock> Teller for Progress<'e, E, C> {
    fn begin(&mut self, searches: usize) {
        self.end_of_share = self.share_of(searches);
    }

    fn tell(&mut self, news: News<'_>) {
        let _ = match news {
            News::Noted { .. } | News::OutOfStates(_) if !self.is_shown => Ok(()),
            News::Noted { name, line, note } => write_note(self.errors, name, line, note),
            News::OutOfStates(states) => writeln!(
                self.errors,
                "chipbench: a search ended because it kept {states} states; raise that with --states"
            ),
            News::OutOfMemory(megabytes) => writeln!(
                self.errors,
                "chipbench: a search ended because it took {megabytes} MB; raise that with --memory"
            ),
            News::Written(name) => writeln!(self.errors, "chipbench: wrote {}", Shown(name)),
            News::WrittenLong(name) => writeln!(
                self.errors,
                "chipbench: wrote {}, which other commands don't take: they take at most {MOST_EVENTS} key events, up to step {LAST_STEP}",
                Shown(name)
            ),
            News::Unwritten(name, error) => writeln!(
                self.errors,
                "chipbench: cannot write {}\nreason: {error}",
                Shown(name)
            ),
            News::NothingStated(name) => writeln!(
                self.errors,
                "chipbench: {} states no property: a line such as `;! always V0 <= 9` does",
                Shown(name)
            ),
            News::OutOfTime => writeln!(self.errors, "chipbench: out of time"),
        };
    }
}
