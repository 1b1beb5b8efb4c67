//! The rows of the instruction table that don't access memory: those that change registers, I, timers, the
//! screen, pc or the call stack, and those that read the keys.

ghost use Rattle.std.specs.Prelude.{◌≡◌, ◌<◌, ◌+◌, ◌*◌, ◌%◌, ℕ, Bool, Ok, IfOk, if◌then◌else◌};
ghost use Rattle.chip_machine.specs.State.{Core, State};
ghost use Rattle.chip_machine.specs.Step.{Effect, Changes, Keyed, effect, reg, with_reg, with_flag, with_index, next, skip_if, resized, with_logic};
ghost use Rattle.chip_facts.specs.Sets.{Holds};
ghost use Rattle.chip_facts.specs.inner.Indexes.{HoldsIndex};
ghost use Rattle.chip_facts.specs.inner.Knowing.{IsKnown, second_of};
ghost use Rattle.chip_facts.specs.inner.Operations.{value_of, flag_of};
ghost use Rattle.chip_facts.specs.inner.Steps.{Meets};
ghost use Rattle.chip_facts.specs.inner.Transfer.{Gives, IsAt, IsOn};

use crate::bits::contains;
use crate::byte_set::{ByteSet, bound, single, up_to};
use crate::index_set::{IndexSet, digits, sums};
use crate::known::{Known, Second};
use crate::operation::Operation;
use crate::outcome::{Outcome, Successor, Way, to_either};
use crate::transfer::Before;
use chip_lang::instr::Instr;
use chip_lang::number::{Addr, Reg};
use chip_machine::Stop;
use chip_machine::limits::FRAMES;
use std::alloc::{AllocError, Global};

#[tactic(auto, unfolding(chip_machine::specs::Step::effect))]
impl Before<'_> {
    /// Returns what is known after a register is set to one of these bytes.
    pub(crate) fn with(&self, x: Reg, values: &ByteSet) -> Known
        ensures { (c : Core) (b : ℕ) → IsKnown self.now.known c → Holds values.now b
            → IsKnown result (with_reg x b c) }
    {
        let mut known = self.known;
        known.set(x, values);
        known
    }

    /// Returns what is known after I is set to one of these values.
    pub(crate) fn with_index(&self, index: IndexSet) -> Known
        ensures { (c : Core) (i : ℕ) → IsKnown self.now.known c → i < 65536 → HoldsIndex index i
            → IsKnown result (with_index i c) }
    {
        let mut known = self.known;
        known.index = index;
        known
    }

    /// Returns the outcome that moves pc to the next instruction, with what is then known.
    pub(crate) fn on(&self, alloc: Global, known: Known) -> Result<Outcome, AllocError>
        requires { self.now.pc < 4095 }
        ensures { IfOk result (λ out. (s : State) (new : Core) → IsAt self.now s
            → IsOn known s.core new → Meets self.now.frames.now out s (Ok (record s { core = new }))) }
    {
        let successor = self.past(2, known);
        Outcome::to(alloc, successor)
    }

    /// Returns the outcome that sets a register to the result of an operation without a flag. VF becomes
    /// 0 if `clears` is true, and otherwise stays.
    pub(crate) fn plain(
        &self,
        alloc: Global,
        operation: Operation,
        x: Reg,
        second: &Second,
        clears: bool,
    ) -> Result<Outcome, AllocError>
        requires pc { self.now.pc < 4095 }
        ensures { IfOk result (λ out. ((a b : ℕ) → flag_of operation a b ≡ 0)
            → Gives self.now out (λ c. let value = value_of operation (reg c x) (second_of second.now c) in
            Changes (next (if clears then with_flag x value 0 c else with_reg x value c)))) }
    {
        match self.known.operated(operation, 0, x, second) {
            Some(mut known) => {
                if clears {
                    known.set_flag(&single(0));
                }
                self.on(alloc, known)
            }
            None => Ok(Outcome::stops(alloc, Stop::Exit)),
        }
    }

    /// `2NNN`, `CALL a`.
    pub(crate) fn call(&self, alloc: Global, address: Addr) -> Result<Outcome, AllocError>
        requires { self.now.pc < 4095 }
        ensures { IfOk result (λ out. Gives self.now out (effect (Instr.Call address))) }
    {
        if self.frames.len() == FRAMES {
            return Ok(Outcome::stops(alloc, Stop::FramesFull));
        }
        let successor = Successor {
            pc: address.number(),
            way: Way::Call(self.pc + 2),
            known: self.known,
        };
        Outcome::to(alloc, successor)
    }

    /// `00EE`, `RET`.
    pub(crate) fn returns(&self, alloc: Global) -> Result<Outcome, AllocError>
        ensures { IfOk result (λ out. Gives self.now out (effect Instr.Return)) }
    {
        if self.frames.len() == 0 {
            return Ok(Outcome::stops(alloc, Stop::NoFrame));
        }
        let successor = Successor {
            pc: self.frames[self.frames.len() - 1],
            way: Way::Return,
            known: self.known,
        };
        Outcome::to(alloc, successor)
    }

    /// `1NNN`, `JP a`.
    pub(crate) fn jump(&self, alloc: Global, address: Addr) -> Result<Outcome, AllocError>
        ensures { IfOk result (λ out. Gives self.now out (effect (Instr.Jump address))) }
    {
        let successor = Successor {
            pc: address.number(),
            way: Way::Same,
            known: self.known,
        };
        Outcome::to(alloc, successor)
    }

    /// `EX9E`, `SKP Vx`, and `EXA1`, `SKNP Vx`. Any keys may be down.
    pub(crate) fn asks_key(&self, alloc: Global) -> Result<Outcome, AllocError>
        requires { self.now.pc < 4095 }
        ensures { IfOk result (λ out. (test : ℕ → Core → Bool)
            → Gives self.now out (λ c. Keyed (λ keys. skip_if (test keys c) c))) }
    {
        let next = self.past(2, self.known);
        let skipped = self.past(4, self.known);
        to_either(alloc, &next, &skipped)
    }

    /// `FX0A`, `LD Vx, K`. The machine waits, or a key is down.
    pub(crate) fn waits_key(&self, alloc: Global, x: Reg) -> Result<Outcome, AllocError>
        requires { self.now.pc < 4095 }
        ensures { IfOk result (λ out. Gives self.now out (effect (Instr.WaitKey x))) }
    {
        let waiting = self.past(0, self.known);
        let known = self.with(x, &up_to(15));
        let next = self.past(2, known);
        to_either(alloc, &waiting, &next)
    }

    /// `FX15`, `LD DT, Vx`.
    pub(crate) fn sets_delay(&self, alloc: Global, x: Reg) -> Result<Outcome, AllocError>
        requires { self.now.pc < 4095 }
        ensures { IfOk result (λ out. Gives self.now out (effect (Instr.SetDelay x))) }
    {
        let mut known = self.known;
        known.delay = bound(&self.known.values(x));
        self.on(alloc, known)
    }

    /// `FX1E`, `ADD I, Vx`.
    pub(crate) fn adds_index(&self, alloc: Global, x: Reg) -> Result<Outcome, AllocError>
        requires { self.now.pc < 4095 }
        ensures { IfOk result (λ out. Gives self.now out (effect (Instr.AddIndex x))) }
    {
        let mut known = self.with_index(sums(&self.known.index, &self.known.values(x)));
        if self.quirks.flags_overflow {
            known.set_flag(&up_to(1));
        }
        self.on(alloc, known)
    }

    /// `00FE`, `LOW`, and `00FF`, `HIGH`, if they are instructions.
    pub(crate) fn resizes(&self, alloc: Global, high: bool) -> Result<Outcome, AllocError>
        requires { self.now.pc < 4095 }
        ensures { IfOk result (λ out. Gives self.now out (λ c. Changes (next (resized high c)))) }
    {
        let mut known = self.known;
        known.may_be_low = !high;
        known.may_be_high = high;
        self.on(alloc, known)
    }

    /// Returns the outcome that sets a register to the result of a logical operation.
    pub(crate) fn logic(
        &self,
        alloc: Global,
        operation: Operation,
        x: Reg,
        y: Reg,
    ) -> Result<Outcome, AllocError>
        requires { self.now.pc < 4095 }
        ensures { IfOk result (λ out. ((a b : ℕ) → flag_of operation a b ≡ 0)
            → Gives self.now out (λ c. Changes
            (next (with_logic x (value_of operation (reg c x) (reg c y)) c)))) }
    {
        let clears = self.quirks.clears_flag;
        self.plain(alloc, operation, x, &Second::Register(y), clears)
    }

    /// Returns the outcome that sets I to the address of the digit whose number is in a register.
    pub(crate) fn points_at_digit(
        &self,
        alloc: Global,
        x: Reg,
        first: usize,
        size: usize,
    ) -> Result<Outcome, AllocError>
        requires pc { self.now.pc < 4095 }
        requires room { first + size * 15 < 4096 }
        ensures { IfOk result (λ out. Gives self.now out (λ c. Changes
            (next (with_index (first + size * (reg c x % 16)) c)))) }
    {
        let known = self.with_index(digits(&self.known.values(x), first, size));
        self.on(alloc, known)
    }
}
