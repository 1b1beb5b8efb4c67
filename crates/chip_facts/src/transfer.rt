//! The possible results of each instruction from a state, given what is known about the state.

ghost use Rattle.std.specs.Prelude.{◌≡◌, ◌<◌, ◌+◌, ◌==◌, ℕ, not, length, IfOk, if◌then◌else◌, MatchOption};
ghost use Rattle.chip_machine.specs.State.{Core, State};
ghost use Rattle.chip_machine.specs.Step.{Changes, Effect, effect, reg, with_flag, next, go_to, offset_register, skip_if, shifted_register, super_only};
ghost use Rattle.chip_facts.specs.inner.Knowing.{second_of};
ghost use Rattle.chip_facts.specs.inner.Operations.{value_of, flag_of};
ghost use Rattle.chip_facts.specs.inner.Steps.{IsNext};
ghost use Rattle.chip_facts.specs.inner.Transfer.{Gives, IsAt};

use crate::bits::contains;
use crate::byte_set::{block, masked, single, up_to};
use crate::index_set::{SETS_WORDS, only};
use crate::known::{Known, Second};
use crate::operation::Operation;
use crate::outcome::{Outcome, Successor, Way, both};
use chip_lang::instr::Instr;
use chip_lang::number::{Addr, Reg};
use chip_machine::{Quirks, Stop};
use std::alloc::{AllocError, Global};

/// What is known before a step: the address of the machine, its call stack, the possible values of its
/// parts, and the possible bytes of its memory.
#[derive(Clone, Copy)]
pub(crate) struct Before<'a> {
    pub(crate) memory: &'a [u64],
    pub(crate) quirks: Quirks,
    pub(crate) pc: u16,
    pub(crate) frames: &'a [u16],
    pub(crate) known: Known,
}

impl Before<'_> {
    /// Returns the successor at an address `by` bytes after pc.
    pub(crate) fn past(&self, by: u16, known: Known) -> Successor
        requires { self.now.pc + by < 65536 }
        ensures pc { result.pc ≡ self.now.pc + by }
        ensures known { result.known ≡ known }
        ensures way { result.way ≡ Way.Same }
    {
        Successor {
            pc: self.pc + by,
            way: Way::Same,
            known,
        }
    }

    /// Returns the successor if an operation computes this flag, which is put into VF, or `None` if it never
    /// computes this flag.
    fn flagged(&self, operation: Operation, flag: u8, x: Reg, second: &Second) -> Option<Successor>
        requires { self.now.pc < 4095 }
        ensures small { (s : State) → IsAt self.now s → second_of second.now s.core < 256 }
        ensures is { (s : State) → IsAt self.now s
            → flag_of operation (reg s.core x) (second_of second.now s.core) ≡ flag
            → MatchOption result ⊥ (IsNext self.now.frames.now (next (with_flag x
            (value_of operation (reg s.core x) (second_of second.now s.core)) flag s.core))) }
    {
        let mut known = self.known.operated(operation, flag, x, second)?;
        known.set_flag(&single(flag));
        Some(self.past(2, known))
    }

    /// Returns the successor if a comparison of two bytes has this result, at the next instruction or at the
    /// one after it. Returns `None` if the comparison never has this result.
    fn compared(&self, flag: u8, x: Reg, second: &Second, skips: bool) -> Option<Successor>
        requires { self.now.pc < 4095 }
        ensures small { (s : State) → IsAt self.now s → second_of second.now s.core < 256 }
        ensures is { (s : State) → IsAt self.now s
            → flag_of Operation.Compare (reg s.core x) (second_of second.now s.core) ≡ flag
            → MatchOption result ⊥ (IsNext self.now.frames.now (skip_if skips s.core)) }
    {
        let known = self.known.operated(Operation::Compare, flag, x, second)?;
        Some(self.past(if skips { 4 } else { 2 }, known))
    }

    /// Returns the outcome that sets a register and VF to the results of an operation.
    fn arithmetic(
        &self,
        alloc: Global,
        operation: Operation,
        x: Reg,
        second: &Second,
    ) -> Result<Outcome, AllocError>
        requires { self.now.pc < 4095 }
        ensures { IfOk result (λ out. Gives self.now out (λ c. Changes
            (next (with_flag x (value_of operation (reg c x) (second_of second.now c))
            (flag_of operation (reg c x) (second_of second.now c)) c)))) }
    {
        let zero = self.flagged(operation, 0, x, second);
        let one = self.flagged(operation, 1, x, second);
        let next = both(alloc, &zero, &one)?;
        Ok(Outcome::leads(next))
    }

    /// Returns the outcome that skips the next instruction if two bytes are equal, or if they differ.
    fn skips(
        &self,
        alloc: Global,
        x: Reg,
        second: &Second,
        if_same: bool,
    ) -> Result<Outcome, AllocError>
        requires { self.now.pc < 4095 }
        ensures { IfOk result (λ out. Gives self.now out (λ c. Changes
            (skip_if (if if_same then (reg c x == second_of second.now c)
            else not (reg c x == second_of second.now c)) c))) }
    {
        let other = self.compared(0, x, second, !if_same);
        let same = self.compared(1, x, second, if_same);
        let next = both(alloc, &other, &same)?;
        Ok(Outcome::leads(next))
    }

    /// Returns the number of the register that a jump adds to an address.
    fn offset_number(&self, address: Addr) -> usize
        ensures number { (c : Core) → c.quirks ≡ self.now.quirks → offset_register address c ≡ result }
        ensures range { result < 16 }
    {
        if self.quirks.jumps_by_first {
            0
        } else {
            address.number() as usize / 256
        }
    }

    /// Returns the successor of a jump if the register with a number has this byte.
    fn jumped(&self, address: Addr, x: usize, byte: u8) -> Successor
        requires { x < 16 }
        ensures { (s : State) → IsAt self.now s → reg s.core x ≡ byte
            → IsNext self.now.frames.now (go_to (address + byte) s.core) result }
    {
        let mut known = self.known;
        known.put(x, &single(byte));
        Successor {
            pc: address.number() + byte as u16,
            way: Way::Same,
            known,
        }
    }

    /// `BNNN`, `JP V0, a`.
    fn jumps_offset(&self, alloc: Global, address: Addr) -> Result<Outcome, AllocError>
        ensures { IfOk result (λ out. Gives self.now out (effect (Instr.JumpOffset address))) }
    {
        let x = self.offset_number(address);
        let values = block(&self.known.registers, x);
        let mut next = Vec::new(alloc);
        for v in 0..256u16 {
            if contains(&values, v as usize) {
                next.push(self.jumped(address, x, v as u8))?;
            }
        }
        Ok(Outcome::leads(next))
    }

    /// Returns the register whose value a shift shifts.
    fn shifted(&self, x: Reg, y: Reg) -> Second
        ensures { (c : Core) → c.quirks ≡ self.now.quirks
            → second_of result c ≡ reg c (shifted_register x y c) }
    {
        if self.quirks.shifts_second {
            Second::Register(y)
        } else {
            Second::Register(x)
        }
    }

    /// Returns what an instruction of SUPER-CHIP may do. On other machines, its word is not an instruction.
    fn if_super(
        &self,
        alloc: Global,
        outcome: Result<Outcome, AllocError>,
    ) -> Result<Outcome, AllocError>
        ensures { (effect : Core → Effect) → IfOk outcome (λ out. Gives self.now out effect)
            → IfOk result (λ out. Gives self.now out (λ c. super_only c (effect c))) }
    {
        if self.quirks.has_super_instructions {
            outcome
        } else {
            Ok(Outcome::stops(alloc, Stop::NoInstruction))
        }
    }

    /// Returns what an instruction may do.
    pub(crate) fn execute(&self, alloc: Global, instr: Instr) -> Result<Outcome, AllocError>
        requires pc { self.now.pc < 4095 }
        requires size { length self.now.memory.now ≡ SETS_WORDS }
        ensures { IfOk result (λ out. Gives self.now out (effect instr)) }
    {
        match instr {
            Instr::ScrollDown(_) => self.if_super(alloc, self.on(alloc, self.known)),
            Instr::ClearScreen => self.on(alloc, self.known),
            Instr::Return => self.returns(alloc),
            Instr::ScrollRight => self.if_super(alloc, self.on(alloc, self.known)),
            Instr::ScrollLeft => self.if_super(alloc, self.on(alloc, self.known)),
            Instr::Exit => self.if_super(alloc, Ok(Outcome::stops(alloc, Stop::Exit))),
            Instr::LowSize => self.if_super(alloc, self.resizes(alloc, false)),
            Instr::HighSize => self.if_super(alloc, self.resizes(alloc, true)),
            Instr::Jump(address) => self.jump(alloc, address),
            Instr::Call(address) => self.call(alloc, address),
            Instr::SkipIfByte(x, byte) => self.skips(alloc, x, &Second::Byte(byte), true),
            Instr::SkipUnlessByte(x, byte) => self.skips(alloc, x, &Second::Byte(byte), false),
            Instr::SkipIfEqual(x, y) => self.skips(alloc, x, &Second::Register(y), true),
            Instr::SkipUnlessEqual(x, y) => self.skips(alloc, x, &Second::Register(y), false),
            Instr::LoadByte(x, byte) => {
                self.plain(alloc, Operation::Second, x, &Second::Byte(byte), false)
            }
            Instr::AddByte(x, byte) => {
                self.plain(alloc, Operation::Sum, x, &Second::Byte(byte), false)
            }
            Instr::Copy(x, y) => {
                self.plain(alloc, Operation::Second, x, &Second::Register(y), false)
            }
            Instr::Or(x, y) => self.logic(alloc, Operation::Or, x, y),
            Instr::And(x, y) => self.logic(alloc, Operation::And, x, y),
            Instr::Xor(x, y) => self.logic(alloc, Operation::Xor, x, y),
            Instr::Add(x, y) => self.arithmetic(alloc, Operation::Add, x, &Second::Register(y)),
            Instr::Subtract(x, y) => {
                self.arithmetic(alloc, Operation::Subtract, x, &Second::Register(y))
            }
            Instr::SubtractFrom(x, y) => {
                self.arithmetic(alloc, Operation::SubtractFrom, x, &Second::Register(y))
            }
            Instr::ShiftRight(x, y) => {
                self.arithmetic(alloc, Operation::ShiftRight, x, &self.shifted(x, y))
            }
            Instr::ShiftLeft(x, y) => {
                self.arithmetic(alloc, Operation::ShiftLeft, x, &self.shifted(x, y))
            }
            Instr::LoadIndex(address) => {
                self.on(alloc, self.with_index(only(address.number() as usize)))
            }
            Instr::JumpOffset(address) => self.jumps_offset(alloc, address),
            Instr::Random(x, byte) => self.on(alloc, self.with(x, &masked(byte))),
            Instr::Draw(x, y, n) => self.draws(alloc, x, y, n),
            Instr::SkipIfKey(_) => self.asks_key(alloc),
            Instr::SkipUnlessKey(_) => self.asks_key(alloc),
            Instr::ReadDelay(x) => self.on(alloc, self.with(x, &up_to(self.known.delay))),
            Instr::WaitKey(x) => self.waits_key(alloc, x),
            Instr::SetDelay(x) => self.sets_delay(alloc, x),
            Instr::SetSound(_) => self.on(alloc, self.known),
            Instr::AddIndex(x) => self.adds_index(alloc, x),
            Instr::SmallDigit(x) => self.points_at_digit(alloc, x, 0, 5),
            Instr::BigDigit(x) => { self.if_super(alloc, self.points_at_digit(alloc, x, 80, 10)) }
            Instr::StoreDecimal(x) => self.stores_decimal(alloc, x),
            Instr::StoreRegisters(x) => self.stores_registers(alloc, x),
            Instr::LoadRegisters(x) => self.loads_registers(alloc, x),
            Instr::StoreFlags(x) => self.if_super(alloc, self.stores_flags(alloc, x)),
            Instr::LoadFlags(x) => self.if_super(alloc, self.loads_flags(alloc, x)),
        }
    }
}
