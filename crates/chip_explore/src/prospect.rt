//! Whether goals can be reached from each state that a player can reach, and the answer.

ghost use Rattle.std.specs.Prelude.{◌≡◌, ◌<◌, ◌≤◌, ℕ, IfOk, IsTrue, is_some, false};
ghost use Rattle.chip_machine.specs.State.{State};
ghost use Rattle.chip_machine.specs.Step.{step_of};
ghost use Rattle.chip_replay.specs.Run.{run};
ghost use Rattle.chip_explore.specs.Prospects.{are_met, outcome_of, AlwaysCan, Foresees, IsDeadEnd};
ghost use Rattle.chip_explore.specs.Scripts.{IsScript};
ghost use Rattle.chip_explore.specs.inner.Cover.{IsSearched, IsWhole};

use crate::causes::Causes;
use crate::confirm::machine_under;
use crate::executed::Executed;
use crate::limits::{END, FAR};
use crate::property::Property;
use crate::question::{Bounds, Explored, Outcome};
use crate::script::{KeyEvent, script_to};
use crate::search::Search;
use crate::searching::{Beginning, search_anew};
use crate::seen::Seen;
use crate::setting::Setting;
use crate::target::{Met, Target};
use crate::watcher::Watcher;
use crate::ways_back::{Loss, WaysBack};
use chip_machine::Machine;
use chip_machine::laws::alike_steps;
use std::alloc::{AllocError, Global};

/// The question whether, from each state that a player can reach, some way of playing leads to some goals.
#[derive(Clone, Copy)]
pub struct Pursuit<'a> {
    /// The timers tick at each step whose number plus 1 is a multiple of this. At least 1.
    pub rate: u32,
    /// The keys that may be down, key k at bit k.
    pub allowed: u16,
    /// The properties to be met, all at once.
    pub goals: &'a [Property],
}

/// The answer to this question.
#[derive(Drop)]
pub enum Prospect {
    /// From each state that a player can reach at a step below `FAR`, some way of playing leads to the goals.
    Always,
    /// With these key events, in the order of their steps, the machine is in a dead end at `step`:
    /// no way of playing leads from there to the goals.
    DeadEnd { events: Vec<KeyEvent>, step: u32 },
    /// The search reached this step without an answer.
    Within(u64),
}

/// The answer, and how the search went.
#[derive(Drop)]
pub struct Foreseen {
    pub prospect: Prospect,
    /// How many states the search kept.
    pub states: usize,
    /// Whether memory ran out before the search was done, so that the answer may be weaker.
    pub is_short: bool,
    /// Whether the watcher ended the search before it was done, so that the answer may be weaker.
    pub is_stopped: bool,
    /// Whether a search ended because it held more bytes than `Bounds::memory` allows, so that the
    /// answer may be weaker.
    pub is_at_memory: bool,
}

impl Prospect {
    /// Returns the outcome that printers take: a dead end becomes `Found`, and `Always` becomes `Never`.
    fn outcome(self) -> Outcome
        ensures { result ≡ outcome_of self }
    {
        match self {
            Prospect::Always => Outcome::Never,
            Prospect::DeadEnd { events, step } => Outcome::Found {
                events,
                step,
                met: Met::Property(0),
            },
            Prospect::Within(step) => Outcome::Within(step),
        }
    }
}

impl Foreseen {
    /// Returns the answer as an answer of `explore`.
    pub fn explored(self) -> Explored
        ensures outcome { result.outcome ≡ outcome_of self.prospect }
        ensures speed { result.is_at_any_speed ≡ false }
    {
        let is_short = self.is_short;
        let is_stopped = self.is_stopped;
        let is_at_memory = self.is_at_memory;
        let states = self.states;
        Explored {
            states,
            is_stopped,
            is_at_memory,
            ..Explored::at_once(self.prospect.outcome(), Executed::none(), is_short)
        }
    }

    /// Returns an answer with the facts about its search.
    fn of(search: &Search, is_short: bool, prospect: Prospect) -> Foreseen
        ensures { result.prospect ≡ prospect }
    {
        Foreseen {
            prospect,
            states: search.members.steps.len(),
            is_short,
            is_stopped: search.finder.is_stopped,
            is_at_memory: search.finder.is_at_memory,
        }
    }

    /// Returns the answer after a search for the goals, which may have ended early.
    fn after(self, verdict: Verdict) -> Foreseen
        ensures { result.prospect ≡ self.prospect }
    {
        let is_short = self.is_short || verdict.is_short;
        let is_stopped = self.is_stopped || verdict.is_stopped;
        let is_at_memory = self.is_at_memory || verdict.is_at_memory;
        Foreseen {
            is_short,
            is_stopped,
            is_at_memory,
            ..self
        }
    }
}

/// Whether, from each state that a machine reaches under the allowed keys, some way of playing leads to the goals. The
/// machine must not have drawn a random byte. A first search, by the least step, looks for stops that don't meet the
/// goals. If that search is complete, the function looks for the goals from each of its states.
pub fn foresee<W: Watcher>(
    alloc: Global,
    start: &Machine,
    pursuit: &Pursuit<'_>,
    bounds: &Bounds,
    watcher: &mut W,
) -> Foreseen
    requires rate { 0 < pursuit.now.rate }
    requires fresh { start.now.core.draws ≡ 0 }
    ensures { Foresees pursuit.now.rate pursuit.now.allowed pursuit.now.goals.now start.now
        result.prospect }
{
    let setting = Setting {
        rate: pursuit.rate,
        allowed: pursuit.allowed,
        target: Target {
            causes: Causes::none(),
            address: None,
            properties: &[],
        },
        goals: pursuit.goals,
        free: true,
        is_strict: true,
        most_timed: bounds.states,
        awaited: Seen::none(),
    };
    match foreseen_by(alloc, start, &setting, bounds, watcher) {
        Ok(foreseen) => foreseen,
        Err(_) => Foreseen {
            prospect: Prospect::Within(0),
            states: 0,
            is_short: true,
            is_stopped: false,
            is_at_memory: false,
        },
    }
}

fn foreseen_by<W: Watcher>(
    alloc: Global,
    start: &Machine,
    setting: &Setting<'_>,
    bounds: &Bounds,
    watcher: &mut W,
) -> Result<Foreseen, AllocError>
    requires rate { 0 < setting.now.rate }
    requires fresh { start.now.core.draws ≡ 0 }
    ensures { IfOk result (λ foreseen. Foresees setting.now.rate setting.now.allowed
        setting.now.goals.now start.now foreseen.prospect) }
{
    let beginning = Beginning {
        machine: start,
        step: 0,
    };
    let searched = search_anew(alloc, &beginning, setting, bounds, watcher)?;
    let is_short = searched.is_short;
    let known = searched.setting;
    let mut search = searched.search;
    let covered = search
        .members
        .covered_or_none()
        .min(bounds.steps.saturating_sub(1));
    let is_whole = search.members.is_whole(&known);
    if is_whole && search.room_for_ways() > bounds.memory {
        search.finder.is_at_memory = true;
        return Ok(Foreseen::of(&search, is_short, Prospect::Within(covered)));
    }
    let loss = if is_whole {
        let ways = WaysBack::of(alloc, &mut search, &known)?;
        if always_can(&mut search, &known, &ways)? {
            return Ok(Foreseen::of(&search, is_short, Prospect::Always));
        }
        ways.first_loss(alloc, &mut search, &known)?
    } else {
        stop_found(&search)
    };
    let Some(way) = way_to(alloc, &search, loss)? else {
        return Ok(Foreseen::of(&search, is_short, Prospect::Within(covered)));
    };
    let within = Foreseen::of(&search, is_short, Prospect::Within(covered));
    drop(search);
    let verdict = judge(alloc, start, setting, bounds, watcher, &way)?;
    if !verdict.is_lost {
        return Ok(within.after(verdict));
    }
    let Way { events, step } = way;
    Ok(Foreseen {
        prospect: Prospect::DeadEnd { events, step },
        ..within
    })
}

/// Whether the ranks show that the goals can be reached from each state that a complete search
/// passed. If true, this is proved; if false, it may still hold.
fn always_can(
    search: &mut Search,
    setting: &Setting<'_>,
    ways: &WaysBack,
) -> Result<bool, AllocError>
    requires fresh { search.old.members.start.core.draws ≡ 0 }
    requires searched { IsSearched setting.now search.old.members search.old.members.start 0 }
    requires whole { IsWhole setting.now search.old.members }
    ensures same { search.new.members ≡ search.old.members }
    ensures always { IfOk result (λ answer. IsTrue answer → (n : ℕ) → n < FAR
        → AlwaysCan setting.now.rate setting.now.allowed setting.now.goals.now
        search.old.members.start n) }
{
    alike_steps();
    search.are_ranked(setting, &ways.ranks, &ways.keys)
}

/// How a search met a stop that doesn't meet the goals, if it did.
fn stop_found(search: &Search) -> Option<Loss> {
    let step = search.members.limit;
    search.finder.hit.map(|origin| Loss { origin, step })
}

/// A way of playing up to a step.
#[derive(Drop)]
struct Way {
    events: Vec<KeyEvent>,
    step: u32,
}

/// Returns the way to a loss, or `None` if events can't express it.
fn way_to(alloc: Global, search: &Search, loss: Option<Loss>) -> Result<Option<Way>, AllocError> {
    let Some(Loss { origin, step }) = loss else {
        return Ok(None);
    };
    if step > u64::from(u32::MAX) {
        return Ok(None);
    }
    Ok(Some(Way {
        events: script_to(alloc, &search.finder, origin)?,
        step: step as u32,
    }))
}

/// The verdict on the state that a way leads to.
#[derive(Clone, Copy)]
struct Verdict {
    /// Whether no way of playing leads from that state to the goals.
    is_lost: bool,
    /// Whether memory ran out before the search for the goals was done.
    is_short: bool,
    /// Whether the watcher ended that search before it was done.
    is_stopped: bool,
    /// Whether that search ended because it held too many bytes.
    is_at_memory: bool,
}

impl Verdict {
    /// Returns the verdict on a state for which no search is needed.
    fn at_once(is_lost: bool) -> Verdict
        ensures { result.is_lost ≡ is_lost }
    {
        Verdict {
            is_lost,
            is_short: false,
            is_stopped: false,
            is_at_memory: false,
        }
    }
}

/// Judges the state that a machine reaches by a way. If the verdict is lost, no way of playing
/// leads from that state to the goals.
fn judge<W: Watcher>(
    alloc: Global,
    start: &Machine,
    setting: &Setting<'_>,
    bounds: &Bounds,
    watcher: &mut W,
    way: &Way,
) -> Result<Verdict, AllocError>
    requires rate { 0 < setting.now.rate }
    requires fresh { start.now.core.draws ≡ 0 }
    ensures { IfOk result (λ verdict. IsTrue verdict.is_lost → (n : ℕ) → n < END
        → IsDeadEnd setting.now.rate setting.now.allowed setting.now.goals.now start.now
        way.now.events.items way.now.step n) }
{
    let Some(machine) = machine_under(alloc, start, setting, &way.events, way.step)? else {
        return Ok(Verdict::at_once(false));
    };
    if machine.stopped().is_some() {
        return Ok(Verdict::at_once(!setting.meets_goals(&machine)));
    }
    let beginning = Beginning {
        machine: &machine,
        step: u64::from(way.step),
    };
    seek_goals(alloc, &beginning, setting, bounds, watcher)
}

/// Searches for the goals from a machine at a step. If the verdict is lost, no way of playing leads to the goals.
fn seek_goals<W: Watcher>(
    alloc: Global,
    beginning: &Beginning<'_>,
    setting: &Setting<'_>,
    bounds: &Bounds,
    watcher: &mut W,
) -> Result<Verdict, AllocError>
    requires rate { 0 < setting.now.rate }
    requires going { is_some beginning.now.machine.now.core.stopped ≡ false }
    ensures { IfOk result (λ verdict. IsTrue verdict.is_lost → (start : State) (keys : ℕ → ℕ)
        → start.core.draws ≡ 0 → IsScript setting.now.allowed keys
        → run step_of setting.now.rate keys start beginning.now.step ≡ beginning.now.machine.now
        → (t : ℕ) → beginning.now.step ≤ t → t < END
        → are_met setting.now.goals.now (run step_of setting.now.rate keys start t) ≡ false) }
{
    alike_steps();
    if setting.goals.is_empty() {
        return Ok(Verdict::at_once(false));
    }
    let sought = setting.for_goals();
    let searched = search_anew(alloc, beginning, &sought, bounds, watcher)?;
    Ok(Verdict {
        is_lost: searched.search.members.is_whole(&searched.setting),
        is_short: searched.is_short,
        is_stopped: searched.search.finder.is_stopped,
        is_at_memory: searched.search.finder.is_at_memory,
    })
}
