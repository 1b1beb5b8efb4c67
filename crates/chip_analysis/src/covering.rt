//! `check --cover`: finds the addresses of a source's image that key scripts execute.
ghost use Rattle.std.specs.Prelude.{◌≡◌, ◌↔◌, ◌<◌, IfOk, IsErr, IsTrue};
ghost use Rattle.chip_machine.specs.Start.{start_of};
ghost use Rattle.chip_analysis.specs.Exploring.{usual_keys};
ghost use Rattle.chip_analysis.specs.Checking.{IsCoverage};
ghost use Rattle.chip_analysis.specs.inner.Covering.{IsCoverageOf, covered_step};

use crate::exploring::{bytes_of, machine_of};
use crate::sets::ALL_KEYS;
use chip_arguments::{USUAL_MEMORY, USUAL_STATES};
use chip_explore::{
    Bounds, Causes, END, Executed, Explored, Outcome, Question, Target, Ticks, Watcher, explore,
};
use chip_machine::Machine;
use chip_session::Settings;
use chip_warnings::Coverage;
use std::alloc::{AllocError, Global};

/// The addresses of an image that key scripts execute.
#[derive(Drop)]
pub(crate) struct Covered {
    executed: Executed,
    /// The step up to which the addresses are known. None if they are known for all steps.
    within: Option<u64>,
}

impl Covered {
    /// Searches all scripts of the sixteen keys under these settings, with the default bounds of
    /// `explore`. Returns the addresses that the scripts execute. Fails if memory runs out.
    pub(crate) fn of<W: Watcher>(
        alloc: Global,
        image: &[u8],
        settings: &Settings,
        watcher: &mut W,
    ) -> Result<Covered, AllocError>
        ensures { IfOk result (λ covered. IsCoverage settings.now.rate usual_keys covered.executed
            (start_of image.now settings.now.tape settings.now.quirks) covered.within) }
    {
        let start = machine_of(alloc, image, settings.tape(), settings.quirks())?;
        Covered::from_start(alloc, &start, settings.rate(), watcher)
    }

    // Runs this search from a start state.
    fn from_start<W: Watcher>(
        alloc: Global,
        start: &Machine,
        rate: u32,
        watcher: &mut W,
    ) -> Result<Covered, AllocError>
        requires rate { 0 < rate }
        requires fresh { start.now.core.draws ≡ 0 }
        ensures { IfOk result (λ covered. IsCoverage rate usual_keys covered.executed start.now
            covered.within) }
    {
        let question = Question {
            rate,
            allowed: ALL_KEYS,
            target: Target {
                causes: Causes::none(),
                address: None,
                properties: &[],
            },
        };
        let bounds = Bounds {
            steps: END,
            states: USUAL_STATES as usize,
            memory: bytes_of(USUAL_MEMORY),
            is_deep: false,
            ticks: Ticks::AtRate,
        };
        Covered::seen_by(explore(alloc, start, &question, &bounds, watcher))
    }

    // Returns the addresses that a search executed. Fails if memory ran out during the search.
    fn seen_by(explored: Explored) -> Result<Covered, AllocError>
        ensures executed { IfOk result (λ covered. covered.executed ≡ explored.executed) }
        ensures within { IfOk result (λ covered. covered.within ≡ covered_step explored.outcome) }
        ensures short { IsErr result ↔ IsTrue explored.is_short }
    {
        if explored.is_short {
            return Err(AllocError);
        }
        Ok(Covered {
            within: covered_by(&explored.outcome),
            executed: explored.executed,
        })
    }

    // Returns the coverage as the warnings need it.
    fn coverage(&self) -> Coverage<'_>
        ensures executed { result.executed.now ≡ self.now.executed }
        ensures within { result.within ≡ self.now.within }
    {
        Coverage {
            executed: self.executed.addresses(),
            within: self.within,
        }
    }
}

/// Returns the coverage as the warnings need it, if there is any.
pub(crate) fn coverage_in(covered: &Option<Covered>) -> Option<Coverage<'_>>
    ensures { IsCoverageOf covered.now result }
{
    match covered {
        Some(covered) => Some(covered.coverage()),
        None => None,
    }
}

// Returns the step up to which a search knows the executed addresses. None if it knows them for all steps.
fn covered_by(outcome: &Outcome) -> Option<u64>
    ensures { result ≡ covered_step outcome.now }
{
    match outcome {
        Outcome::Never => None,
        Outcome::Within(step) | Outcome::Later { covered: step, .. } => Some(*step),
        Outcome::Found { step, .. } => Some(u64::from(*step).saturating_sub(1)),
    }
}
