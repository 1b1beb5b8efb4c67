//! A small machine for a replay. The machine defines only a single step, so it uses the default
//! `steps` of the trait.

ghost use Rattle.std.specs.Prelude.{◌≡◌};

use chip_machine::Touch;
use chip_machine::limits::MEMORY_BYTES;
use chip_replay::Traced;
use std::alloc::{AllocError, Global};
use std::cell::Cell;
use std::marker::Model;
use std::rc::Rc;

/// A machine whose step adds the byte at the counter to the sum, and 1 to the counter. A machine and
/// its copies share one count of their steps.
#[derive(Drop)]
pub(crate) struct Toy {
    alloc: Global,
    bytes: Vec<u8>,
    counter: u64,
    sum: u8,
    made: Rc<Cell<u64>>,
}

impl Model for Toy {
    ghost use Rattle.std.specs.Prelude.{◌≡◌, length};
    ghost use Rattle.chip_replay.specs.Limits.{memory_size};
    ghost use Rattle.chip_calls.specs.Toy.{ToyState, toy_code};

    ghost Value = { ToyState };

    ghost coded = { toy_code };

    ghost view = { λ t. record { bytes = t.bytes.items; counter = t.counter; sum = t.sum } };

    ghost invariant = { λ t. length t.bytes.items ≡ memory_size };
}

impl Toy {
    ghost use Rattle.std.specs.Prelude.{IfOk, replicate};

    /// Returns a machine with a memory of zeros. The machine and its copies count their steps in `made`.
    pub(crate) fn new(alloc: Global, made: Rc<Cell<u64>>) -> Result<Toy, AllocError>
        ensures { IfOk result (λ toy. toy
            ≡ record { bytes = replicate MEMORY_BYTES 0; counter = 0; sum = 0 }) }
    {
        Ok(Toy {
            alloc,
            bytes: vec![in alloc; 0; MEMORY_BYTES]?,
            counter: 0,
            sum: 0,
            made,
        })
    }

    /// Returns the sum.
    pub(crate) fn sum(&self) -> u8 {
        self.sum
    }
}

impl Traced for Toy {
    ghost use Rattle.std.specs.Prelude.{refl};
    ghost use Rattle.chip_calls.specs.Toy.{IsToy, toy_memory, toy_with_memory, toy_touches, toy_after, toy_framed};

    ghost step_of = { toy_after };

    ghost touches = { toy_touches };

    ghost memory = { toy_memory };

    ghost with_memory = { toy_with_memory };

    ghost is_proper = { IsToy };

    ghost memory_of_changed = { λ s m. refl };

    ghost changed_to_same = { λ s. refl };

    ghost changed_twice = { λ s m n. refl };

    ghost proper_size = { λ s proper. proper };

    ghost proper_changed = { λ s m proper size. size };

    ghost step_keeps = { λ s keys tick proper. proper };

    ghost frame_law = { toy_framed };

    fn step(&mut self, _keys: u16, _tick: bool, touch: &mut Touch) {
        let at = self.counter % MEMORY_BYTES as u64;
        touch.clear();
        touch.add(at as u16);
        self.sum = self.sum.wrapping_add(self.bytes[at as usize]);
        self.counter = self.counter.wrapping_add(1);
        self.made.set(self.made.get().saturating_add(1));
    }

    fn poke(&mut self, at: u16, byte: u8) {
        self.bytes[at as usize] = byte;
    }

    fn exchange(&mut self, at: u16, old: &[u8], new: &[u8]) {
        for i in 0..new.len() {
            if old[i] != new[i] {
                self.bytes[at as usize + i] = new[i];
            }
        }
    }

    fn copy_of(&self) -> Result<Toy, AllocError> {
        Ok(Toy {
            alloc: self.alloc,
            bytes: self.bytes.clone()?,
            counter: self.counter,
            sum: self.sum,
            made: self.made.clone()?,
        })
    }
}
