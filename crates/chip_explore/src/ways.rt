//! The ways in which the next step of a state can go.

ghost use Rattle.std.specs.Prelude.{◌≡◌, ◌<◌, IfSome};
ghost use Rattle.chip_machine.specs.Forgotten.{next_instr};
ghost use Rattle.chip_explore.specs.inner.Delays.{delay_register};

use chip_lang::instr::{Instr, decode};
use chip_machine::limits::LAST_WORD;
use chip_machine::{Forgotten, Machine};

/// A step that sets a register to a delay timer for which only a bound is known.
#[derive(Clone, Copy)]
pub(crate) struct Reading {
    /// The register, 0 to 15.
    pub(crate) register: u8,
    pub(crate) bound: u8,
    /// The parts that are forgotten after the step.
    pub(crate) after: Forgotten,
}

/// The ways in which the next step of a state can go.
#[derive(Clone, Copy)]
pub(crate) enum Ways {
    /// With none of these keys down, and with each of them alone.
    Keys(u16),
    /// With each value of the delay timer up to a bound.
    Values(Reading),
}

/// Returns the next instruction of a machine, or `None` if there is none at pc.
#[inline]
pub(crate) fn next_instr(machine: &Machine) -> Option<Instr>
    ensures { result ≡ next_instr machine.now }
{
    let at = machine.pc() as usize;
    if at > LAST_WORD {
        return None;
    }
    let memory = machine.memory();
    decode(u16::from(memory[at]) * 256 + u16::from(memory[at + 1]))
}

/// Returns the register that the next step of a machine sets to the delay timer, if any.
pub(crate) fn delay_register(machine: &Machine) -> Option<u8>
    ensures value { result ≡ delay_register machine.now }
    ensures range { IfSome result (λ register. register < 16) }
{
    if machine.stopped().is_some() {
        return None;
    }
    let Some(instr) = next_instr(machine) else {
        return None;
    };
    match instr {
        Instr::ReadDelay(register) => Some(register.number()),
        _ => None,
    }
}
