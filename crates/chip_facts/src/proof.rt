//! The check that a table contains each reached state.

ghost use Rattle.std.specs.Prelude.{◌≡◌, ◌≤◌, ◌<◌, ◌*◌, ◌+◌, ℕ, All, IfOk, IsTrue, length, slice_index};
ghost use Rattle.chip_lang.specs.declared.limits.TheConstants.{IMAGE_BYTES};
ghost use Rattle.chip_machine.specs.State.{State};
ghost use Rattle.chip_facts.specs.Reached.{IsReached};
ghost use Rattle.chip_facts.specs.Sets.{Holds};
ghost use Rattle.chip_facts.specs.inner.Tables.{IsClosed, IsHeld};

use crate::bits::contains;
use crate::index_set::{BYTES, SETS_WORDS};
use crate::known::Known;
use crate::outcome::{Successor, Way};
use crate::table::Table;
use chip_lang::limits::{IMAGE_BYTES, IMAGE_START, MEMORY_BYTES};
use chip_machine::{Machine, Quirks};
use std::alloc::{AllocError, Global};

impl Table {
    /// Whether the table allows the memory and the flag registers at the start.
    fn has_memory(&self, memory: &[u8]) -> bool
        requires sets { length self.now.memory.items ≡ SETS_WORDS }
        requires bytes { length memory.now ≡ 4096 }
        ensures small { (at : ℕ) → slice_index memory.now at < 256 }
        ensures memory { IsTrue result → (at : ℕ) → at < 4096
            → Holds self.now.memory.items (256 * at + slice_index memory.now at) }
        ensures flags { IsTrue result → (at : ℕ) → 4096 ≤ at → at < 4104
            → Holds self.now.memory.items (256 * at) }
    {
        for at in 0..MEMORY_BYTES {
            if !contains(&self.memory, 256 * at + memory[at] as usize) {
                return false;
            }
        }
        for at in MEMORY_BYTES..BYTES {
            if !contains(&self.memory, 256 * at) {
                return false;
            }
        }
        true
    }

    /// Whether all steps from all rows lead back into the table.
    fn is_closed(&self, alloc: Global, quirks: Quirks) -> Result<bool, AllocError>
        requires { length self.now.memory.items ≡ SETS_WORDS }
        ensures { IfOk result (λ closed. IsTrue closed → All (IsClosed self.now quirks) self.now.rows.items) }
    {
        for row in &self.rows {
            if !self.is_closed_at(alloc, quirks, row)? {
                return Ok(false);
            }
        }
        Ok(true)
    }

    /// Whether each state that can be reached from an image is in the table.
    pub(crate) fn is_proof(
        &self,
        alloc: Global,
        image: &[u8],
        quirks: Quirks,
    ) -> Result<bool, AllocError>
        requires { length image.now ≤ IMAGE_BYTES }
        ensures { IfOk result (λ proof. IsTrue proof → (s : State) → IsReached image.now quirks s
            → IsHeld self.now quirks s) }
    {
        if self.memory.len() != SETS_WORDS {
            return Ok(false);
        }
        let Ok(machine) = Machine::start_with(alloc, image, &[0], quirks) else {
            return Err(AllocError);
        };
        let start = Successor {
            pc: IMAGE_START as u16,
            way: Way::Same,
            known: Known::start(),
        };
        if !self.has_memory(machine.memory()) || !self.has_row(&[0], &[], &start) {
            return Ok(false);
        }
        self.is_closed(alloc, quirks)
    }
}
