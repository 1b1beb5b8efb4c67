//! The question that a search answers, and how it treats the timers.

ghost use Rattle.std.specs.Prelude.{◌≡◌, ◌<◌, ◌-◌, ◌^◌, None, IfSome};
ghost use Rattle.chip_explore.specs.inner.Cover.{meets_goals, phase, tick_at, AsksSame};
ghost use Rattle.chip_explore.specs.inner.Delays.{timed_register};
ghost use Rattle.chip_explore.specs.inner.Known.{are_goals_known, are_known};

use crate::causes::Causes;
use crate::known::Known;
use crate::property::Property;
use crate::seen::Seen;
use crate::target::Target;
use crate::ways::delay_register;
use chip_machine::{Forgotten, Machine};

/// The question that a search answers, and how it treats the timers.
#[derive(Clone, Copy)]
pub(crate) struct Setting<'a> {
    /// The timers tick at each step whose number plus 1 is a multiple of this.
    pub(crate) rate: u32,
    /// The keys that may be down, key k at bit k.
    pub(crate) allowed: u16,
    pub(crate) target: Target<'a>,
    /// The properties that each machine that stops has to meet.
    pub(crate) goals: &'a [Property],
    /// Whether the timers may tick after any step. If so, the delay timer of a state is an upper
    /// bound of the delay timer in a run, and no step of the search ticks.
    pub(crate) free: bool,
    /// Whether a state whose delay timer is above 0 refutes free ticks.
    pub(crate) is_strict: bool,
    /// The number of states that may be kept once the ticks are free and a delay timer was above 0.
    pub(crate) most_timed: usize,
    /// The causes that end the search once it has met all of them, if there are any.
    pub(crate) awaited: Seen,
}

impl<'a> Setting<'a> {
    /// Returns the same question with other ticks and other awaited causes.
    pub(crate) fn with_ticks(&self, free: bool, is_strict: bool, awaited: Seen) -> Setting<'a>
        ensures same { AsksSame self.now result }
        ensures free { result.free ≡ free }
    {
        Setting {
            rate: self.rate,
            allowed: self.allowed,
            target: self.target.again(),
            goals: self.goals,
            free,
            is_strict,
            most_timed: self.most_timed,
            awaited,
        }
    }

    /// Returns a copy.
    pub(crate) fn again(&self) -> Setting<'a>
        ensures { result ≡ self.now }
    {
        Setting {
            rate: self.rate,
            allowed: self.allowed,
            target: self.target.again(),
            goals: self.goals,
            free: self.free,
            is_strict: self.is_strict,
            most_timed: self.most_timed,
            awaited: self.awaited,
        }
    }

    /// Returns the setting of a search for the goals.
    pub(crate) fn for_goals(&self) -> Setting<'a>
        ensures rate { result.rate ≡ self.now.rate }
        ensures allowed { result.allowed ≡ self.now.allowed }
        ensures target { result.target.properties.now ≡ self.now.goals.now }
        ensures address { result.target.address ≡ None }
    {
        Setting {
            rate: self.rate,
            allowed: self.allowed,
            target: Target {
                causes: Causes::none(),
                address: None,
                properties: self.goals,
            },
            goals: &[],
            free: true,
            is_strict: true,
            most_timed: self.most_timed,
            awaited: Seen::none(),
        }
    }

    /// Returns the part of a step's number that decides when the timers tick.
    pub(crate) fn phase(&self, step: u64) -> u64
        requires { 0 < self.now.rate }
        ensures { result ≡ phase self.now step }
    {
        if self.free {
            0
        } else {
            step % u64::from(self.rate)
        }
    }

    /// Whether the timers tick in a step.
    pub(crate) fn tick_at(&self, step: u64) -> bool
        requires rate { 0 < self.now.rate }
        requires in_range { step < 2 ^ 64 - 1 }
        ensures { result ≡ tick_at self.now step }
    {
        if self.free {
            false
        } else {
            (step + 1) % u64::from(self.rate) == 0
        }
    }

    /// Whether a machine with these forgotten parts still has every value that the properties and the
    /// goals use.
    #[inline]
    pub(crate) fn are_known(&self, machine: &Machine, forgotten: Forgotten) -> bool
        ensures { result ≡ are_known self.now forgotten machine.now }
    {
        let known = Known {
            forgotten,
            has_delay: !self.free || machine.delay() == 0,
            pc: machine.pc(),
        };
        known.has_properties(machine.pc(), self.target.properties)
            && self.are_goals_known(machine, forgotten)
    }

    /// Whether the machine still has every value that the goals use.
    pub(crate) fn are_goals_known(&self, machine: &Machine, forgotten: Forgotten) -> bool
        ensures { result ≡ are_goals_known self.now forgotten machine.now }
    {
        let known = Known {
            forgotten,
            has_delay: !self.free || machine.delay() == 0,
            pc: machine.pc(),
        };
        known.has_properties(machine.pc(), self.goals)
    }

    /// Whether a machine meets all goals.
    pub(crate) fn meets_goals(&self, machine: &Machine) -> bool
        ensures { result ≡ meets_goals self.now machine.now }
    {
        self.goals.iter().all(|goal| goal.is_met(machine))
    }

    /// Returns the forgotten parts that the properties and the goals use.
    #[inline(never)]
    pub(crate) fn asked_of(&self, machine: &Machine, forgotten: Forgotten) -> Forgotten {
        let mut asked = Forgotten::nothing();
        for properties in [self.target.properties, self.goals] {
            for property in properties {
                if property.is_at(machine.pc()) {
                    asked = asked.with(property.named(forgotten, machine.pc()));
                }
            }
        }
        asked
    }

    /// Returns the register that the next step of a machine sets to the delay timer, if the timer may
    /// have one of several values.
    pub(crate) fn timed_register(&self, machine: &Machine) -> Option<u8>
        ensures value { result ≡ timed_register self.now machine.now }
        ensures range { IfSome result (λ register. register < 16) }
    {
        if self.free && machine.delay() != 0 {
            delay_register(machine)
        } else {
            None
        }
    }
}
