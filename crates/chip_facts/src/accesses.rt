//! The rows of the instruction table that load or store bytes, including those of the flag registers.

ghost use Rattle.std.specs.Prelude.{◌≡◌, ◌<◌, ◌≤◌, ◌+◌, ◌*◌, [], ℕ, Bool, Any, length, slice_index_or, IfOk, IsTrue, Some, if◌then◌else◌, nat_le};
ghost use Rattle.chip_machine.specs.State.{Core, State};
ghost use Rattle.chip_machine.specs.Step.{Stops, Changes, effect, index_past, next, store_flags, load_flags};
ghost use Rattle.chip_facts.specs.Sets.{Holds};
ghost use Rattle.chip_facts.specs.inner.Indexes.{HoldsIndex};
ghost use Rattle.chip_facts.specs.inner.Knowing.{IsKnown};
ghost use Rattle.chip_facts.specs.inner.Steps.{IsNext};
ghost use Rattle.chip_facts.specs.inner.Transfer.{Gives, GoesOn, IsAt, drawn_bytes};

use crate::byte_set::{ByteSet, block, digit, single, up_to};
use crate::index_set::{
    Access, IndexSet, PAST, SETS_WORDS, fitting, fitting_between, loaded, only, sums,
};
use crate::known::Known;
use crate::outcome::{Outcome, Stored};
use crate::transfer::Before;
use chip_lang::instr::Instr;
use chip_lang::number::{Nibble, Reg};
use chip_machine::limits::{FLAGS, SPRITE_BYTES};
use chip_machine::{IndexMove, LowSixteen, Stop};
use std::alloc::{AllocError, Global};

#[tactic(auto, unfolding(chip_machine::specs::Step::effect))]
impl Before<'_> {
    /// Returns the values of I after V0 to Vx are moved to or from memory at one of these addresses.
    fn index_after(&self, index: &IndexSet, x: Reg) -> IndexSet
        ensures { (i : ℕ) → i < 65536 → HoldsIndex index.now i
            → HoldsIndex result (index_past self.now.quirks.index_move x i) }
    {
        match self.quirks.index_move {
            IndexMove::Stays => *index,
            IndexMove::AtLast => sums(index, &single(x.number())),
            IndexMove::PastLast => sums(index, &single(x.number() + 1)),
        }
    }

    /// Returns the bytes that registers may have after V0 to Vx are loaded from consecutive bytes that start
    /// at one of the given addresses.
    fn loaded_sets(&self, at: &IndexSet, x: Reg) -> [u64; 64]
        requires { length self.now.memory.now ≡ SETS_WORDS }
        ensures loaded { (y i b : ℕ) → y ≤ x → i ≤ 4096 → i + y < 4104 → b < 256 → Holds at.now i
            → Holds self.now.memory.now (256 * (i + y) + b) → Holds result (256 * y + b) }
        ensures others { (y b : ℕ) → x < y → y < 16 → b < 256
            → Holds self.now.known.registers (256 * y + b) → Holds result (256 * y + b) }
    {
        let mut known = self.known;
        for y in 0..x.number() as usize + 1 {
            known.put(y, &loaded(self.memory, at, y));
        }
        known.registers
    }

    /// Returns the bytes that each of V0 to Vx may have.
    fn first_sets(&self, alloc: Global, x: Reg) -> Result<Vec<ByteSet>, AllocError>
        ensures count { IfOk result (λ sets. length sets.items ≡ x + 1) }
        ensures each { IfOk result (λ sets. (y b : ℕ) → y ≤ x → b < 256
            → Holds self.now.known.registers (256 * y + b) → Holds (slice_index_or sets.items y []) b) }
    {
        let mut sets = Vec::new(alloc);
        for y in 0..x.number() as usize + 1 {
            sets.push(block(&self.known.registers, y))?;
        }
        Ok(sets)
    }

    /// Returns the outcome that accesses bytes starting at one of the given addresses, if there is one. Then pc
    /// moves to the next instruction, with what is known there.
    fn accesses(
        &self,
        alloc: Global,
        access: &Access,
        known: Known,
        stored: Option<Stored>,
    ) -> Result<Outcome, AllocError>
        requires { self.now.pc < 4095 }
        ensures next { IfOk result (λ out. IsTrue access.now.any → (s : State) (new : Core)
            → IsAt self.now s → GoesOn known s.core new → Any (IsNext self.now.frames.now new) out.next.items) }
        ensures short { IfOk result (λ out. IsTrue access.now.is_short
            → out.stop ≡ Some Stop.AddressOutOfRange) }
        ensures stored { IfOk result (λ out. out.stored ≡ stored) }
    {
        let mut next = Vec::new(alloc);
        if access.any {
            next.push(self.past(2, known))?;
        }
        let stop = if access.is_short {
            Some(Stop::AddressOutOfRange)
        } else {
            None
        };
        Ok(Outcome { stop, next, stored })
    }

    /// `FX65`, `LD Vx, [I]`.
    pub(crate) fn loads_registers(&self, alloc: Global, x: Reg) -> Result<Outcome, AllocError>
        requires pc { self.now.pc < 4095 }
        requires size { length self.now.memory.now ≡ SETS_WORDS }
        ensures { IfOk result (λ out. Gives self.now out (effect (Instr.LoadRegisters x))) }
    {
        let access = fitting(&self.known.index, x.number() as usize + 1);
        let mut known = self.known;
        known.registers = self.loaded_sets(&access.set, x);
        known.index = self.index_after(&access.set, x);
        self.accesses(alloc, &access, known, None)
    }

    /// `FX55`, `LD [I], Vx`.
    pub(crate) fn stores_registers(&self, alloc: Global, x: Reg) -> Result<Outcome, AllocError>
        requires { self.now.pc < 4095 }
        ensures { IfOk result (λ out. Gives self.now out (effect (Instr.StoreRegisters x))) }
    {
        let access = fitting(&self.known.index, x.number() as usize + 1);
        let known = self.with_index(self.index_after(&access.set, x));
        let stored = Stored {
            at: access.set,
            values: self.first_sets(alloc, x)?,
        };
        self.accesses(alloc, &access, known, Some(stored))
    }

    /// `FX33`, `LD B, Vx`.
    pub(crate) fn stores_decimal(&self, alloc: Global, x: Reg) -> Result<Outcome, AllocError>
        requires { self.now.pc < 4095 }
        ensures { IfOk result (λ out. Gives self.now out (effect (Instr.StoreDecimal x))) }
    {
        let values = self.known.values(x);
        let access = fitting(&self.known.index, 3);
        let known = self.with_index(access.set);
        let digits = [digit(&values, 100), digit(&values, 10), digit(&values, 1)];
        let stored = Stored {
            at: access.set,
            values: Vec::from_array(alloc, digits)?,
        };
        self.accesses(alloc, &access, known, Some(stored))
    }

    /// `FX75`, `LD R, Vx`, if it is an instruction.
    pub(crate) fn stores_flags(&self, alloc: Global, x: Reg) -> Result<Outcome, AllocError>
        requires { self.now.pc < 4095 }
        ensures { IfOk result (λ out. Gives self.now out (λ c.
            if nat_le (length c.flags) x then Stops Stop.NoFlag else Changes (next (store_flags x c)))) }
    {
        if x.number() as usize >= FLAGS {
            return Ok(Outcome::stops(alloc, Stop::NoFlag));
        }
        let at = only(PAST);
        let access = Access {
            set: at,
            any: true,
            is_short: false,
        };
        let stored = Stored {
            at,
            values: self.first_sets(alloc, x)?,
        };
        self.accesses(alloc, &access, self.known, Some(stored))
    }

    /// `FX85`, `LD Vx, R`, if it is an instruction.
    pub(crate) fn loads_flags(&self, alloc: Global, x: Reg) -> Result<Outcome, AllocError>
        requires pc { self.now.pc < 4095 }
        requires size { length self.now.memory.now ≡ SETS_WORDS }
        ensures { IfOk result (λ out. Gives self.now out (λ c.
            if nat_le (length c.flags) x then Stops Stop.NoFlag else Changes (next (load_flags x c)))) }
    {
        if x.number() as usize >= FLAGS {
            return Ok(Outcome::stops(alloc, Stop::NoFlag));
        }
        let mut known = self.known;
        known.registers = self.loaded_sets(&only(PAST), x);
        self.on(alloc, known)
    }

    /// Returns the minimum and the maximum number of bytes of a sprite of n rows, for the sizes that the
    /// screen may have. If nothing is drawn, a sprite has no bytes.
    fn sprite_counts(&self, n: Nibble) -> (usize, usize)
        ensures least { (c : Core) → IsKnown self.now.known c → c.quirks ≡ self.now.quirks
            → result.0 ≤ drawn_bytes n c }
        ensures most { (c : Core) → IsKnown self.now.known c → c.quirks ≡ self.now.quirks
            → drawn_bytes n c ≤ result.1 }
        ensures bounds { (result.0 ≤ 32) × (result.1 ≤ 32) }
    {
        let rows = n.number() as usize;
        if rows > 0 {
            return (rows, rows);
        }
        let low = match self.quirks.low_sixteen {
            LowSixteen::Nothing => 0,
            LowSixteen::Narrow => 16,
            LowSixteen::Wide => SPRITE_BYTES,
        };
        let least = if self.known.may_be_low {
            low
        } else {
            SPRITE_BYTES
        };
        let most = if self.known.may_be_high {
            SPRITE_BYTES
        } else {
            low
        };
        (least, most)
    }

    /// `DXYN`, `DRW Vx, Vy, n`. VF may be 0 or 1.
    pub(crate) fn draws(
        &self,
        alloc: Global,
        x: Reg,
        y: Reg,
        n: Nibble,
    ) -> Result<Outcome, AllocError>
        requires { self.now.pc < 4095 }
        ensures { IfOk result (λ out. Gives self.now out (effect (Instr.Draw x y n))) }
    {
        let (least, most) = self.sprite_counts(n);
        let access = fitting_between(&self.known.index, least, most);
        let mut known = self.known;
        known.index = access.set;
        known.set_flag(&up_to(1));
        self.accesses(alloc, &access, known, None)
    }
}
