//! A sequence of steps with no keys down, up to a state that meets the goals.

ghost use Rattle.std.specs.Prelude.{◌≡◌, ◌<◌, ◌-◌, ◌^◌, ℕ, List, IfSome, IsNone};
ghost use Rattle.chip_explore.specs.inner.Cover.{View};
ghost use Rattle.chip_explore.specs.inner.Ranks.{Arrives, Climbs, IsOpen, IsWay};

use crate::leg::Runner;
use crate::setting::Setting;

/// How a sequence of steps ended.
#[derive(Clone, Copy, PartialEq, Eq)]
pub(crate) enum Way {
    /// The machine meets the goals and hasn't stopped.
    AtGoals,
    /// The next step can tell keys or values of the delay timer apart, or the sequence has its maximal
    /// length.
    Joined,
    /// The machine has stopped, or something that the next step, the properties or the goals need is
    /// forgotten.
    Lost,
}

/// Where a sequence of steps ended, and how.
#[derive(Clone, Copy)]
pub(crate) struct Climb {
    pub(crate) step: u64,
    pub(crate) way: Way,
    /// How many more steps the sequence may have.
    pub(crate) left: u32,
}

impl Runner {
    /// Makes at most `most` steps, starting with step `from`. Ends at a state that meets the goals,
    /// at a stop, or at a state whose next step can tell keys or values of the delay timer apart.
    pub(crate) fn climb(&mut self, setting: &Setting<'_>, from: u64, most: u32) -> Climb
        requires rate { 0 < setting.now.rate }
        ensures path { (v : View) (ranks : List ℕ) (rank : ℕ)
            → Arrives setting.now v ranks rank self.new.forgotten self.new.machine result.step
            → Climbs setting.now v ranks rank most self.old.forgotten self.old.machine from }
        ensures way { IsWay setting.now self.new.forgotten self.new.machine result.way }
    {
        let mut step = from;
        let mut left = most;
        loop {
            if let Some(way) = self.way(setting, step, left) {
                return Climb { step, way, left };
            }
            match self.machine.forgotten_after(self.forgotten, 0) {
                Ok(after) => {
                    self.machine.step(0, setting.tick_at(step), &mut self.touch);
                    self.forgotten = after;
                    step += 1;
                    left -= 1;
                }
                Err(_) => {
                    let way = Way::Lost;
                    return Climb { step, way, left };
                }
            }
        }
    }

    /// Continues from a state that meets the goals. Returns `None` if its next step can tell keys
    /// or values of the delay timer apart, or if the sequence has its maximal length.
    pub(crate) fn climb_on(&mut self, setting: &Setting<'_>, climb: Climb) -> Option<Climb>
        requires { 0 < setting.now.rate }
    {
        if climb.left == 0
            || climb.step == u64::MAX
            || self.machine.key_choices(setting.allowed) != 0
            || setting.timed_register(&self.machine).is_some()
        {
            return None;
        }
        let Ok(after) = self.machine.forgotten_after(self.forgotten, 0) else {
            return None;
        };
        self.forgotten = after;
        self.machine
            .step(0, setting.tick_at(climb.step), &mut self.touch);
        Some(self.climb(setting, climb.step + 1, climb.left - 1))
    }

    /// How the sequence ends at a step, or `None` if it continues.
    fn way(&mut self, setting: &Setting<'_>, step: u64, left: u32) -> Option<Way>
        ensures same { self.new.machine ≡ self.old.machine }
        ensures forgotten { self.new.forgotten ≡ self.old.forgotten }
        ensures some { IfSome result (λ way. IsWay setting.now self.old.forgotten
            self.old.machine way) }
        ensures open { IsNone result → IsOpen setting.now self.old.machine }
        ensures below { IsNone result → step < 2 ^ 64 - 1 }
        ensures left { IsNone result → 0 < left }
    {
        if step == u64::MAX
            || self.machine.stopped().is_some()
            || !setting.are_known(&self.machine, self.forgotten)
        {
            return Some(Way::Lost);
        }
        if setting.meets_goals(&self.machine) {
            return Some(Way::AtGoals);
        }
        if left == 0 || self.machine.draws() == u64::MAX {
            return Some(Way::Joined);
        }
        self.is_quiet = self.machine.key_choices(setting.allowed) == 0
            && setting.timed_register(&self.machine).is_none();
        if self.is_quiet {
            None
        } else {
            Some(Way::Joined)
        }
    }
}
