//! Implements `Traced` for the machine, so that a replay can run it.

ghost use Rattle.std.specs.Prelude.{◌+◌, ◌<◌, IsTrue, slice_index};

use crate::traced::Traced;
use chip_machine::keys::HeldKeys;
use chip_machine::machine::Machine;
use chip_machine::touch::Touch;
use std::alloc::AllocError;

impl Traced for Machine {
    ghost use Rattle.std.specs.Prelude.{refl};
    ghost use Rattle.chip_machine.specs.State.{IsProper, memory_of, with_memory as machine_with_memory};
    ghost use Rattle.chip_machine.specs.Step.{step_of as machine_step, touches as machine_touches};
    ghost use Rattle.chip_replay.specs.inner.MachineFrame.{machine_framed, machine_step_keeps};

    ghost step_of = { machine_step };

    ghost touches = { machine_touches };

    ghost memory = { memory_of };

    ghost with_memory = { machine_with_memory };

    ghost is_proper = { IsProper };

    fn step(&mut self, keys: u16, tick: bool, touch: &mut Touch) {
        self.step(keys, tick, touch);
    }

    #[inline(always)]
    fn steps<K: HeldKeys>(
        &mut self,
        keys: &mut K,
        rate: u32,
        from: u32,
        count: u32,
        first_touch: &mut [u32],
    ) {
        self.steps(keys, rate, from, count, first_touch);
    }

    #[inline(always)]
    fn is_still(&self) -> bool {
        self.stopped().is_some()
    }

    fn stays(&self, keys: Option<u16>, first_touch: &[u32], at: u32) -> bool {
        self.is_still() || self.is_idle(keys) && is_noted(first_touch, self.pc(), at)
    }

    fn poke(&mut self, at: u16, byte: u8) {
        self.poke(at, byte);
    }

    fn exchange(&mut self, at: u16, old: &[u8], new: &[u8]) {
        self.exchange(at, old, new);
    }

    fn copy_of(&self) -> Result<Self, AllocError> {
        self.copy_of()
    }

    fn copy_from(&mut self, other: &Machine) -> Result<(), AllocError> {
        self.copy_from(other)
    }

    ghost memory_of_changed = { λ s m. refl };

    ghost changed_to_same = { λ s. refl };

    ghost changed_twice = { λ s m n. refl };

    ghost proper_size = { λ s proper. proper.memory_size };

    ghost proper_changed = { λ s m proper size. record { memory_size = size } };

    ghost step_keeps = { machine_step_keeps };

    ghost frame_law = { machine_framed };
}

/// True only if steps before `at` touched both bytes of the word at an address.
fn is_noted(first_touch: &[u32], address: u16, at: u32) -> bool
    ensures { IsTrue result → (slice_index first_touch.now address < at)
        × (slice_index first_touch.now (address + 1) < at) }
{
    match first_touch.get(usize::from(address)..=usize::from(address) + 1) {
        Some([high, low]) => *high < at && *low < at,
        _ => false,
    }
}
