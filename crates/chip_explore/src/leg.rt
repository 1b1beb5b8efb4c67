//! Sequences of steps that tell neither keys nor values of the delay timer apart, and during which
//! neither the steps nor the properties need anything that is forgotten.

ghost use Rattle.std.specs.Prelude.{◌≡◌, ◌<◌, ◌-◌, length, IfOk, IfSome, IsNone};
ghost use Rattle.chip_machine.specs.Relevant.{Alike};
ghost use Rattle.chip_explore.specs.inner.Cover.{Ends, Grows, IsEnd, Moves, Safe, View};

use crate::executed::Executed;
use crate::kept::Base;
use crate::limits::MOST_QUIET_STEPS;
use crate::setting::Setting;
use chip_machine::limits::MEMORY_BYTES;
use chip_machine::{Forgotten, Machine, Touch};
use std::alloc::{AllocError, Global};

/// Why a sequence of steps ended.
#[derive(Clone, Copy)]
pub(crate) enum End {
    /// The limit was reached.
    Past,
    /// The machine meets the target, or has stopped without meeting the goals.
    Wanted,
    /// The machine has stopped for a cause that isn't wanted, and meets the goals.
    Halted,
    /// The next step can tell keys or values of the delay timer apart, or the sequence has its maximal
    /// length.
    Joined,
    /// The next step, or a property that is evaluated in this state, needs something that is forgotten.
    Read,
}

/// Where a sequence of steps ended, and why.
#[derive(Clone, Copy)]
pub(crate) struct Leg {
    pub(crate) step: u64,
    pub(crate) end: End,
}

/// A machine that runs.
#[derive(Drop)]
pub(crate) struct Runner {
    pub(crate) machine: Machine,
    /// The forgotten parts of its state.
    pub(crate) forgotten: Forgotten,
    /// The forgotten parts that were needed when its last sequence of steps ended.
    pub(crate) read: Forgotten,
    /// Whether its next step tells neither keys nor values of the delay timer apart.
    pub(crate) is_quiet: bool,
    pub(crate) touch: Touch,
    /// Scratch space for the rows of a screen.
    pub(crate) rows: Vec<u128>,
}

impl Runner {
    /// Returns a copy of a machine, with nothing forgotten.
    pub(crate) fn new(alloc: Global, machine: &Machine) -> Result<Runner, AllocError>
        ensures machine { IfOk result (λ runner. runner.machine ≡ machine.now) }
        ensures nothing { IfOk result (λ runner. runner.forgotten ≡ 0) }
    {
        let machine = machine.copy_of()?;
        Ok(Runner {
            machine,
            forgotten: Forgotten::nothing(),
            read: Forgotten::nothing(),
            is_quiet: true,
            touch: Touch::new(),
            rows: Vec::new(alloc),
        })
    }

    /// Makes steps, starting with step `from`. Ends at the limit, at a stop, or at a state whose
    /// next step can tell keys or values of the delay timer apart or needs something that is
    /// forgotten. Notes the addresses of these steps and of that next step.
    pub(crate) fn run(
        &mut self,
        setting: &Setting<'_>,
        limit: u64,
        from: u64,
        executed: &mut Executed,
    ) -> Leg
        requires rate { 0 < setting.now.rate }
        ensures grows { Grows executed.old executed.new }
        ensures path { (v : View) → Grows executed.new v.executed
            → Ends setting.now v self.new.forgotten self.new.machine result.step
            → Safe setting.now v self.old.forgotten self.old.machine from }
        ensures end { IsEnd setting.now executed.new limit self.new.forgotten self.new.machine
            result.step result.end }
    {
        let mut step = from;
        let mut left = MOST_QUIET_STEPS;
        loop {
            if let Some(end) = self.end(setting, limit, step, left, executed) {
                return Leg { step, end };
            }
            match self.machine.forgotten_after(self.forgotten, 0) {
                Ok(after) => {
                    self.machine.step(0, setting.tick_at(step), &mut self.touch);
                    self.forgotten = after;
                    step += 1;
                    left -= 1;
                }
                Err(read) => {
                    self.read = read;
                    let end = End::Read;
                    return Leg { step, end };
                }
            }
        }
    }

    /// Overwrites the bytes that are to be forgotten with those of a base, so that states that
    /// differ only in these bytes become equal.
    pub(crate) fn erase(&mut self, parts: Forgotten, base: &Base)
        ensures alike { Alike parts self.new.machine self.old.machine }
        ensures same { self.new.forgotten ≡ self.old.forgotten }
    {
        erase(&mut self.machine, parts, base.machine.memory());
    }

    /// Why the sequence ends at a step, or `None` if it continues. If the machine makes a step,
    /// notes the step's address.
    fn end(
        &mut self,
        setting: &Setting<'_>,
        limit: u64,
        step: u64,
        left: u32,
        executed: &mut Executed,
    ) -> Option<End>
        ensures same { self.new.machine ≡ self.old.machine }
        ensures forgotten { self.new.forgotten ≡ self.old.forgotten }
        ensures grows { Grows executed.old executed.new }
        ensures some { IfSome result (λ end. IsEnd setting.now executed.new limit
            self.old.forgotten self.old.machine step end) }
        ensures moves { IsNone result → Moves setting.now executed.new self.old.forgotten
            self.old.machine }
        ensures below { IsNone result → step < limit }
        ensures left { IsNone result → 0 < left }
    {
        if step >= limit {
            return Some(End::Past);
        }
        let is_going = self.machine.stopped().is_none();
        if is_going && !setting.are_known(&self.machine, self.forgotten) {
            self.read = setting.asked_of(&self.machine, self.forgotten);
            return Some(End::Read);
        }
        if setting.target.met_in(&self.machine).is_some() {
            return Some(End::Wanted);
        }
        if !is_going {
            return Some(if setting.meets_goals(&self.machine) {
                End::Halted
            } else {
                End::Wanted
            });
        }
        executed.note(self.machine.pc());
        if left == 0 || self.machine.draws() == u64::MAX {
            return Some(End::Joined);
        }
        self.is_quiet = self.machine.key_choices(setting.allowed) == 0
            && setting.timed_register(&self.machine).is_none();
        if self.is_quiet {
            None
        } else {
            Some(End::Joined)
        }
    }
}

/// Overwrites the bytes that are to be forgotten with those of another memory.
fn erase(machine: &mut Machine, parts: Forgotten, memory: &[u8])
    requires { length memory.now ≡ MEMORY_BYTES }
    ensures { Alike parts machine.new machine.old }
{
    let size = machine.memory().len();
    if !parts.has_bytes() {
        return;
    }
    let (_, bytes) = parts.numbers();
    for place in 0..u64::BITS.saturating_sub(bytes.leading_zeros()) {
        let at = usize::from(parts.window()) + place as usize;
        if at < size && parts.has_byte(at) {
            machine.poke(at as u16, memory[at]);
        }
    }
}
