//! A search that starts from a machine and runs until it ends.

ghost use Rattle.std.specs.Prelude.{◌≡◌, ◌<◌, ◌≤◌, ◌+◌, ◌-◌, [], length, IfOk};
ghost use Rattle.chip_explore.specs.Answers.{most_ways};
ghost use Rattle.chip_explore.specs.inner.Cover.{view_of, GoesUpTo, Holds, IsSearched, IsSearchedAs, Safe};

use crate::backdrop::Backdrops;
use crate::executed::Executed;
use crate::finder::{Finder, Order, Origin};
use crate::guesses::Guesses;
use crate::kept::Base;
use crate::leg::Runner;
use crate::limits::MOST_ATTEMPTS;
use crate::members::Members;
use crate::question::Bounds;
use crate::search::Search;
use crate::seen::Seen;
use crate::setting::Setting;
use crate::watcher::Watcher;
use chip_machine::Machine;
use std::alloc::{AllocError, Global};

/// The state and step at which a search begins.
#[derive(Clone, Copy)]
pub(crate) struct Beginning<'m> {
    pub(crate) machine: &'m Machine,
    /// The number of the machine's next step.
    pub(crate) step: u64,
}

/// A search that took up states until none was left, or until it reached a limit.
#[derive(Drop)]
pub(crate) struct Searched<'a> {
    pub(crate) search: Search,
    /// The setting of the search.
    pub(crate) setting: Setting<'a>,
    /// Whether memory ran out.
    pub(crate) is_short: bool,
}

impl<'a> Searched<'a> {
    /// Whether another search may find more.
    fn is_refuted(&self) -> bool {
        self.search.finder.is_refuted(&self.setting) && !self.search.finder.is_stopped
    }

    /// Returns the guesses of the search about what can be forgotten.
    fn guesses(self) -> Guesses {
        let search = self.search;
        let finder = search.finder;
        finder.guesses.again()
    }
}

/// Returns the first state whose next step can tell keys apart. Most other states differ little from this
/// one.
fn base_for(alloc: Global, start: &Machine, setting: &Setting<'_>) -> Result<Base, AllocError>
    requires { 0 < setting.now.rate }
{
    let mut runner = Runner::new(alloc, start)?;
    let _leg = runner.run(setting, u64::MAX, 0, &mut Executed::none());
    Base::of(alloc, &runner.machine)
}

/// Runs one search. Fails if memory runs out at its start.
pub(crate) fn search_from<'a, W: Watcher>(
    alloc: Global,
    beginning: &Beginning<'_>,
    setting: &Setting<'a>,
    bounds: &Bounds,
    watcher: &mut W,
    finder: Finder,
) -> Result<Searched<'a>, AllocError>
    requires rate { 0 < setting.now.rate }
    ensures setting { IfOk result (λ searched. searched.setting ≡ setting.now) }
    ensures searched { IfOk result (λ searched. IsSearched setting.now searched.search.members
        beginning.now.machine.now beginning.now.step) }
    ensures few { IfOk result (λ searched. length searched.search.members.steps.items
        ≤ bounds.now.states + most_ways) }
{
    let start = beginning.machine;
    let end = finder.end(bounds.steps);
    let mut search = Search {
        members: Members::new(alloc, start, base_for(alloc, start, setting)?)?,
        runner: Runner::new(alloc, start)?,
        finder,
        backdrops: Backdrops::new(alloc),
        probe: Base::of(alloc, start)?,
        end,
    };
    let is_short = search_all(&mut search, beginning.step, setting, bounds, watcher).is_err();
    Ok(Searched {
        search,
        setting: setting.again(),
        is_short,
    })
}

/// Keeps the first state, and takes up states from that one on.
fn search_all<W: Watcher>(
    search: &mut Search,
    from: u64,
    setting: &Setting<'_>,
    bounds: &Bounds,
    watcher: &mut W,
) -> Result<(), AllocError>
    requires holds { Holds setting.now search.old.members }
    requires none { search.old.members.steps.items ≡ [] }
    ensures grows { GoesUpTo setting.now search.old.members search.new.members
        (bounds.now.states + most_ways) }
    ensures begun { Safe setting.now (view_of search.new.members) search.old.runner.forgotten
        search.old.runner.machine from }
{
    search.run_on(setting, from, Origin::START)?;
    search.run(setting, bounds.states, bounds.memory, watcher)
}

/// Takes up states by the least step first, and restarts when a step refutes a guess.
pub(crate) fn search_anew<'a, W: Watcher>(
    alloc: Global,
    beginning: &Beginning<'_>,
    setting: &Setting<'a>,
    bounds: &Bounds,
    watcher: &mut W,
) -> Result<Searched<'a>, AllocError>
    requires { 0 < setting.now.rate }
    ensures { IfOk result (λ searched. IsSearchedAs setting.now searched.setting
        searched.search.members beginning.now.machine.now beginning.now.step) }
{
    let guesses = Guesses::new(alloc, beginning.machine, setting.allowed)?;
    let finder = Finder::new(alloc, Order::LeastStep, Seen::none(), guesses);
    let mut last = search_from(alloc, beginning, setting, bounds, watcher, finder)?;
    for _attempt in 0..MOST_ATTEMPTS {
        if !last.is_refuted() {
            break;
        }
        let free = last.setting.free && !last.search.finder.is_timer_set;
        let known = setting.with_ticks(free, true, setting.awaited);
        let finder = Finder::new(alloc, Order::LeastStep, Seen::none(), last.guesses());
        last = search_from(alloc, beginning, &known, bounds, watcher, finder)?;
    }
    Ok(last)
}
