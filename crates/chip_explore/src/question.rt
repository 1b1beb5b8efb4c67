//! A question about all key scripts, and its answer.

ghost use Rattle.std.specs.Prelude.{◌≡◌, ◌<◌, ◌≤◌, ◌+◌, ◌-◌, ◌*◌, ◌⊎◌, [], length, min, IfOk, IfSome, IsSome, true, false};
ghost use Rattle.chip_explore.specs.Answers.{Answers, AreExecuted, EndsBy, IsFirst, Meets, most_ways};
ghost use Rattle.chip_explore.specs.declared.question.Outcome.TheVariants.{Within};
ghost use Rattle.chip_explore.specs.inner.Cover.{IsSearched};
ghost use Rattle.chip_explore.specs.inner.Told.{Begins, Covers, Says, Tells, later_of};
ghost use Rattle.chip_explore.specs.Speeds.{AvoidsAtAnySpeed, NeverAtAnySpeed};

use crate::confirm::machine_under;
use crate::executed::Executed;
use crate::finder::{Finder, Order};
use crate::guesses::Guesses;
use crate::limits::{END, FREE_SHARE, MOST_ATTEMPTS};
use crate::members::Members;
use crate::script::{KeyEvent, script_to};
use crate::search::Search;
use crate::searching::{Beginning, search_from};
use crate::seen::Seen;
use crate::setting::Setting;
use crate::target::{Met, Target};
use crate::watcher::Watcher;
use chip_machine::Machine;
use chip_machine::laws::alike_steps;
use std::alloc::{AllocError, Global};

/// The question whether any player can make a machine meet a target.
#[derive(Clone, Copy)]
pub struct Question<'a> {
    /// The timers tick at each step whose number plus 1 is a multiple of this. At least 1.
    pub rate: u32,
    /// The keys that may be down, key k at bit k.
    pub allowed: u16,
    pub target: Target<'a>,
}

/// How a search treats the ticks of the timers. Its answer means the same at the rate in each case.
#[derive(Clone, Copy, PartialEq, Eq)]
pub enum Ticks {
    /// Only at the rate, so that every step that the search sees is a step at the rate.
    AtRate,
    /// First as if the timers might or might not tick after any step, with a part of the allowed
    /// states. If that search has no answer, a search at the rate follows.
    Free,
    /// Like `Free`, but with all states.
    FreeWithAll,
}

/// The limits of a search.
#[derive(Clone, Copy)]
pub struct Bounds {
    /// The search ends at this step. No answer is about this step or a later one, except `Never`.
    pub steps: u64,
    /// No state is taken up once more than this many are kept.
    pub states: usize,
    /// The search ends when it holds more than this many bytes.
    pub memory: u64,
    /// Whether a search that ends because of `states` or `memory` is followed by one that takes up
    /// the deepest states first, within the same bounds. The answer may then contain a script that
    /// isn't the earliest one.
    pub is_deep: bool,
    pub ticks: Ticks,
}

/// The answer of a search.
#[derive(Drop)]
pub enum Outcome {
    /// With these key events, in the order of their steps, the machine meets the target at `step`,
    /// as `met` states. No key script makes it meet the target earlier.
    Found {
        events: Vec<KeyEvent>,
        step: u32,
        met: Met,
    },
    /// With these key events, the machine meets the target at `step`, as `met` states. No key
    /// script makes it meet the target at a step up to `covered`.
    Later {
        events: Vec<KeyEvent>,
        step: u32,
        met: Met,
        covered: u64,
    },
    /// No key script makes the machine meet the target at a step up to this step.
    Within(u64),
    /// No key script makes the machine meet the target at any step below `END`.
    Never,
}

/// The answer of a search, and facts about the search.
#[derive(Drop)]
pub struct Explored {
    pub outcome: Outcome,
    /// The stop causes, other than the wanted ones, that the search met.
    pub seen: Seen,
    /// The largest number of states that the search kept, plus those of a deep search after it.
    pub states: usize,
    /// The addresses at which the search saw steps executed: those of each step, under any key script, at which the
    /// target isn't met according to the outcome, and maybe those of later steps.
    pub executed: Executed,
    /// Whether memory ran out before the search was done, so that the outcome may be weaker.
    pub is_short: bool,
    /// Whether the watcher ended the search before it was done, so that the outcome may be weaker.
    pub is_stopped: bool,
    /// Whether the search ended because it held more bytes than `Bounds::memory` allows, so that
    /// the outcome may be weaker.
    pub is_at_memory: bool,
    /// Whether no key script makes the machine meet the target at any step below `END`, whenever the
    /// timers tick.
    pub is_at_any_speed: bool,
    /// Whether the search had free ticks and a delay timer above 0, so that less may be met at the rate.
    pub(crate) is_timed: bool,
}

impl Bounds {
    /// Returns the last step that an answer is about.
    fn last(&self) -> u64
        ensures { result ≡ self.now.steps - 1 }
    {
        self.steps.saturating_sub(1)
    }

    /// Returns how many states a search may keep once the ticks are free and a delay timer was above 0.
    fn most_timed(&self) -> usize {
        match self.ticks {
            Ticks::Free => self.states / FREE_SHARE,
            Ticks::AtRate | Ticks::FreeWithAll => self.states,
        }
    }
}

impl Outcome {
    /// Turns the outcome of a deep search into one after a search that covered the steps up to `covered`.
    fn after(self, covered: u64) -> Outcome
        ensures { result ≡ later_of covered self }
    {
        match self {
            Outcome::Found { events, step, met }
            | Outcome::Later {
                events,
                step,
                met,
                ..
            } => Outcome::Later {
                events,
                step,
                met,
                covered,
            },
            Outcome::Within(_) | Outcome::Never => Outcome::Within(covered),
        }
    }
}

impl Explored {
    /// Returns the answer of a search that kept no state.
    pub(crate) fn at_once(outcome: Outcome, executed: Executed, is_short: bool) -> Explored
        ensures outcome { result.outcome ≡ outcome }
        ensures executed { result.executed ≡ executed }
        ensures states { result.states ≡ 0 }
        ensures speed { result.is_at_any_speed ≡ false }
    {
        Explored {
            outcome,
            seen: Seen::none(),
            states: 0,
            executed,
            is_short,
            is_stopped: false,
            is_at_memory: false,
            is_at_any_speed: false,
            is_timed: false,
        }
    }

    /// Returns the answer of a search that has ended.
    fn after(search: &Search, outcome: Outcome, is_short: bool) -> Explored
        ensures outcome { result.outcome ≡ outcome }
        ensures executed { result.executed ≡ search.now.members.executed }
        ensures states { result.states ≡ length search.now.members.steps.items }
        ensures speed { result.is_at_any_speed ≡ false }
    {
        Explored {
            seen: search.finder.seen,
            states: search.members.steps.len(),
            is_stopped: search.finder.is_stopped,
            is_at_memory: search.finder.is_at_memory,
            is_timed: search.finder.is_timer_set,
            ..Explored::at_once(outcome, search.members.executed, is_short)
        }
    }

    /// Whether this answer is complete for a search with these bounds.
    fn is_whole(&self, bounds: &Bounds) -> bool {
        match self.outcome {
            Outcome::Never | Outcome::Found { .. } => true,
            Outcome::Within(covered) => covered == bounds.last(),
            Outcome::Later { .. } => false,
        }
    }

    /// Whether a search at the rate has to follow this search with free ticks, because this answer isn't complete, or
    /// because other causes were met, whose least steps at the rate are reported.
    fn needs_rate(&self, bounds: &Bounds) -> bool {
        self.is_timed && !self.is_stopped && (!self.is_whole(bounds) || self.seen.is_any())
    }

    /// Whether this answer of a search with free ticks is stronger than the outcome of a search at
    /// the rate.
    fn says_more_than(&self, rated: &Outcome) -> bool {
        match (&self.outcome, rated) {
            (Outcome::Never, _) => true,
            (Outcome::Within(covered), Outcome::Within(step)) => covered > step,
            (Outcome::Found { .. }, Outcome::Within(_)) => true,
            _ => false,
        }
    }

    /// Returns the answer of this search, which covered the steps up to `covered`, combined with
    /// the result of a deep search after it.
    fn deepened_by(self, deep: Explored, covered: u64) -> Explored
        ensures outcome { result.outcome ≡ later_of covered deep.outcome }
        ensures executed { result.executed ≡ self.executed }
        ensures seen { result.seen ≡ deep.seen }
        ensures states { result.states ≡ min (self.states + deep.states) usize.MAX }
        ensures speed { result.is_at_any_speed ≡ false }
    {
        Explored {
            seen: deep.seen,
            states: self.states.saturating_add(deep.states),
            is_stopped: deep.is_stopped,
            is_at_memory: self.is_at_memory || deep.is_at_memory,
            ..Explored::at_once(deep.outcome.after(covered), self.executed, deep.is_short)
        }
    }

    /// Returns the other causes whose first step at the rate is still unknown, if everything else
    /// is answered; otherwise none.
    fn awaited(&self, bounds: &Bounds) -> Seen {
        if self.is_whole(bounds) {
            self.seen
        } else {
            Seen::none()
        }
    }

    /// The step up to which the target is avoided, if a deep search has to follow: the bounds ask
    /// for one, and this search ended at its limit of states or of bytes.
    fn covered_where_full(&self, bounds: &Bounds) -> Option<u64>
        ensures within { IfSome result (λ covered. self.now.outcome ≡ Within covered) }
        ensures deep { IsSome result → bounds.now.is_deep ≡ true }
        ensures full { IsSome result
            → (self.now.is_at_memory ≡ true) ⊎ (bounds.now.states < self.now.states) }
        ensures left { IfSome result (λ covered. covered < bounds.now.steps - 1) }
    {
        match self.outcome {
            Outcome::Within(covered)
                if bounds.is_deep
                    && !self.is_short
                    && !self.is_stopped
                    && (self.is_at_memory || bounds.states < self.states)
                    && covered < bounds.last() => { Some(covered) }
            _ => None,
        }
    }
}

/// Finds out whether some key script, with allowed keys only, makes a machine meet the target. The machine must not
/// have drawn a random byte. States are taken up by the least step first, and then by the greatest, if the bounds ask
/// for it. The ticks are free at first, if the bounds ask for it.
pub fn explore<W: Watcher>(
    alloc: Global,
    start: &Machine,
    question: &Question<'_>,
    bounds: &Bounds,
    watcher: &mut W,
) -> Explored
    requires rate { 0 < question.now.rate }
    requires fresh { start.now.core.draws ≡ 0 }
    ensures answers { Answers question.now.rate question.now.allowed question.now.target start.now
        result.outcome }
    ensures executed { AreExecuted question.now.rate question.now.allowed result.executed start.now
        result.outcome }
    ensures first { bounds.now.is_deep ≡ false → IsFirst result.outcome }
    ensures ends { EndsBy (bounds.now.steps - 1) result.outcome }
    ensures few { bounds.now.is_deep ≡ false → result.states ≤ bounds.now.states + most_ways }
    ensures few_by_both { result.states ≤ 2 * (bounds.now.states + most_ways) }
    ensures any_speed { result.is_at_any_speed ≡ true
        → NeverAtAnySpeed question.now.allowed question.now.target start.now }
{
    if let Some(met) = question.target.met_in(start) {
        let outcome = Outcome::Found {
            events: Vec::new(alloc),
            step: 0,
            met,
        };
        return Explored::at_once(outcome, Executed::none(), false);
    }
    let setting = Setting {
        rate: question.rate,
        allowed: question.allowed,
        target: question.target.again(),
        goals: &[],
        free: true,
        is_strict: bounds.ticks == Ticks::AtRate || question.target.names_delay(),
        most_timed: bounds.most_timed(),
        awaited: Seen::none(),
    };
    let Ok(first) = search_by_step(alloc, start, &setting, bounds, watcher) else {
        return Explored::at_once(Outcome::Within(0), Executed::at(start), true);
    };
    match first.covered_where_full(bounds) {
        Some(covered) => deepened(alloc, start, &setting, bounds, watcher, first, covered),
        None => first,
    }
}

/// The answer of one search, and its assumptions.
#[derive(Drop)]
struct Attempt {
    explored: Explored,
    /// Whether the ticks are free.
    free: bool,
    /// The guesses about what can be forgotten.
    guesses: Guesses,
    /// Whether a step refuted a guess, so that another search may find more.
    is_refuted: bool,
}

/// Searches with free ticks, and then at the rate if that is needed.
fn search_by_step<W: Watcher>(
    alloc: Global,
    start: &Machine,
    setting: &Setting<'_>,
    bounds: &Bounds,
    watcher: &mut W,
) -> Result<Explored, AllocError>
    requires { Begins setting.now start.now }
    ensures { IfOk result (λ explored. Tells setting.now bounds.now start.now explored) }
{
    let order = Order::LeastStep;
    let free = search(alloc, start, setting, bounds, watcher, order, Seen::none())?;
    if free.needs_rate(bounds) {
        Ok(rated(alloc, start, setting, bounds, watcher, free))
    } else {
        Ok(free)
    }
}

/// Combines a search with free ticks and a later search at the rate. If the first search answered
/// everything, the second one ends once it has met the other causes that the first one met.
fn rated<W: Watcher>(
    alloc: Global,
    start: &Machine,
    setting: &Setting<'_>,
    bounds: &Bounds,
    watcher: &mut W,
    free: Explored,
) -> Explored
    requires begins { Begins setting.now start.now }
    requires free { Tells setting.now bounds.now start.now free }
    ensures { Tells setting.now bounds.now start.now result }
{
    let known = setting.with_ticks(false, setting.is_strict, free.awaited(bounds));
    let order = Order::LeastStep;
    let Ok(rated) = search(alloc, start, &known, bounds, watcher, order, Seen::none()) else {
        return Explored {
            is_short: !free.is_at_any_speed,
            ..free
        };
    };
    let states = free.states.max(rated.states);
    if free.says_more_than(&rated.outcome) {
        Explored {
            seen: rated.seen,
            states,
            is_short: rated.is_short && !free.is_at_any_speed,
            is_stopped: rated.is_stopped,
            is_at_memory: free.is_at_memory || rated.is_at_memory,
            ..free
        }
    } else {
        Explored { states, ..rated }
    }
}

/// Returns the answer of a search that covered the steps up to `covered`, combined with a second search that takes up
/// the deepest states first. The steps that the second search covers don't count.
fn deepened<W: Watcher>(
    alloc: Global,
    start: &Machine,
    setting: &Setting<'_>,
    bounds: &Bounds,
    watcher: &mut W,
    first: Explored,
    covered: u64,
) -> Explored
    requires begins { Begins setting.now start.now }
    requires covers { Covers setting.now first.executed start.now covered }
    requires short { covered ≤ bounds.now.steps - 1 }
    requires few { first.states ≤ bounds.now.states + most_ways }
    requires deep { bounds.now.is_deep ≡ true }
    ensures says { Says setting.now bounds.now result.executed start.now result.outcome }
    ensures few { result.states ≤ 2 * (bounds.now.states + most_ways) }
    ensures speed { result.is_at_any_speed ≡ false }
{
    let order = Order::GreatestStep;
    let seen = first.seen;
    let known = setting.with_ticks(true, true, setting.awaited);
    match search(alloc, start, &known, bounds, watcher, order, seen) {
        Ok(deep) => first.deepened_by(deep, covered),
        Err(_) => Explored {
            outcome: Outcome::Within(covered),
            is_short: true,
            is_at_any_speed: false,
            ..first
        },
    }
}

/// Searches in an order, given the causes that were met before. Restarts when a step refutes an
/// assumption of the search.
fn search<W: Watcher>(
    alloc: Global,
    start: &Machine,
    setting: &Setting<'_>,
    bounds: &Bounds,
    watcher: &mut W,
    order: Order,
    seen: Seen,
) -> Result<Explored, AllocError>
    requires { Begins setting.now start.now }
    ensures { IfOk result (λ explored. Tells setting.now bounds.now start.now explored) }
{
    let guesses = Guesses::new(alloc, start, setting.allowed)?;
    let mut last = search_once(alloc, start, setting, bounds, watcher, order, seen, guesses)?;
    for _attempt in 0..MOST_ATTEMPTS {
        if !last.is_refuted || last.explored.is_stopped {
            break;
        }
        let known = setting.with_ticks(last.free, setting.is_strict, setting.awaited);
        let explored = last.explored;
        let guesses = last.guesses;
        last = match search_once(alloc, start, &known, bounds, watcher, order, seen, guesses) {
            Ok(next) => next,
            Err(_) => {
                return Ok(Explored {
                    is_short: true,
                    ..explored
                });
            }
        };
    }
    Ok(last.explored)
}

/// Runs one search. Fails if memory runs out at its start.
fn search_once<W: Watcher>(
    alloc: Global,
    start: &Machine,
    setting: &Setting<'_>,
    bounds: &Bounds,
    watcher: &mut W,
    order: Order,
    seen: Seen,
    guesses: Guesses,
) -> Result<Attempt, AllocError>
    requires { Begins setting.now start.now }
    ensures { IfOk result (λ attempt. Tells setting.now bounds.now start.now attempt.explored) }
{
    let finder = Finder::new(alloc, order, seen, guesses);
    let beginning = Beginning {
        machine: start,
        step: 0,
    };
    let searched = search_from(alloc, &beginning, setting, bounds, watcher, finder)?;
    let is_short = searched.is_short;
    let search = searched.search;
    let explored = explored_by(alloc, setting, &search, bounds, is_short);
    let finder = search.finder;
    Ok(Attempt {
        explored,
        free: setting.free && !(finder.is_timer_set && setting.is_strict),
        is_refuted: finder.is_refuted(setting),
        guesses: finder.guesses.again(),
    })
}

/// Returns a step up to which no key script makes the machine meet the target.
fn covered_by(setting: &Setting<'_>, members: &Members) -> u64
    requires positive { 0 < members.now.limit }
    requires fresh { members.now.start.core.draws ≡ 0 }
    requires searched { IsSearched setting.now members.now members.now.start 0 }
    ensures below { result < members.now.limit }
    ensures covers { Covers setting.now members.now.executed members.now.start result }
    ensures any_speed { setting.now.free ≡ true → AvoidsAtAnySpeed setting.now.allowed
        setting.now.target members.now.start result }
{
    alike_steps();
    members.covered()
}

/// Returns the step up to which an answer states that no key script makes the machine meet the
/// target: the covered step, but at most the last step that was asked for.
fn told_up_to(setting: &Setting<'_>, members: &Members, covered: u64, last: u64) -> u64
    requires below { covered < members.now.limit }
    requires covers { Covers setting.now members.now.executed members.now.start covered }
    ensures below { result < members.now.limit }
    ensures short { result ≤ last }
    ensures covers { Covers setting.now members.now.executed members.now.start result }
{
    covered.min(last)
}

/// Returns the answer that follows from the kept states.
fn explored_by(
    alloc: Global,
    setting: &Setting<'_>,
    search: &Search,
    bounds: &Bounds,
    is_short: bool,
) -> Explored
    requires begins { Begins setting.now search.now.members.start }
    requires searched { IsSearched setting.now search.now.members search.now.members.start 0 }
    ensures says { Says setting.now bounds.now result.executed search.now.members.start
        result.outcome }
    ensures states { result.states ≡ length search.now.members.steps.items }
    ensures any_speed { result.is_at_any_speed ≡ true → NeverAtAnySpeed setting.now.allowed
        setting.now.target search.now.members.start }
{
    let members = &search.members;
    if members.limit == 0 {
        return Explored::after(search, Outcome::Within(0), is_short);
    }
    let covered = covered_by(setting, members);
    if covered + 1 == END {
        return Explored {
            is_at_any_speed: setting.free,
            is_at_memory: false,
            ..Explored::after(search, Outcome::Never, false)
        };
    }
    let covered = told_up_to(setting, members, covered, bounds.last());
    match found_after(alloc, setting, members, &search.finder, covered, bounds) {
        Ok(Some(outcome)) => Explored::after(search, outcome, false),
        Ok(None) => Explored::after(search, Outcome::Within(covered), is_short),
        Err(_) => Explored::after(search, Outcome::Within(covered), true),
    }
}

/// Returns the result of the search at the step after the covered steps, or at a later step if an
/// answer may contain a script that isn't the earliest one.
fn found_after(
    alloc: Global,
    setting: &Setting<'_>,
    members: &Members,
    finder: &Finder,
    covered: u64,
    bounds: &Bounds,
) -> Result<Option<Outcome>, AllocError>
    requires rate { 0 < setting.now.rate }
    requires below { covered < members.now.limit }
    requires short { covered ≤ bounds.now.steps - 1 }
    requires covers { Covers setting.now members.now.executed members.now.start covered }
    ensures { IfOk result (λ answer. IfSome answer (λ outcome. Says setting.now bounds.now
        members.now.executed members.now.start outcome)) }
{
    if let Some(origin) = finder.hit
        && members.limit <= bounds.last().min(u64::from(u32::MAX))
    {
        let step = members.limit as u32;
        let events = script_to(alloc, finder, origin)?;
        if let Some(met) = met_by(alloc, setting, members, &events, step)? {
            if covered + 1 == members.limit {
                return Ok(Some(Outcome::Found { events, step, met }));
            }
            if bounds.is_deep {
                return Ok(Some(Outcome::Later {
                    events,
                    step,
                    met,
                    covered,
                }));
            }
        }
    }
    Ok(None)
}

/// How the machine meets the target at a step with these events, or `None` if it doesn't.
fn met_by(
    alloc: Global,
    setting: &Setting<'_>,
    members: &Members,
    events: &[KeyEvent],
    step: u32,
) -> Result<Option<Met>, AllocError>
    requires { 0 < setting.now.rate }
    ensures { IfOk result (λ answer. IfSome answer (λ met. Meets setting.now.rate
        setting.now.allowed setting.now.target members.now.start events.now step met)) }
{
    match machine_under(alloc, &members.start, setting, events, step)? {
        Some(machine) => Ok(setting.target.met_in(&machine)),
        None => Ok(None),
    }
}
