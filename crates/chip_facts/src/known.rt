//! What is known about the registers, I, the delay timer and the size of the screen.

ghost use Rattle.std.specs.Prelude.{◌≡◌, ◌≢◌, ◌<◌, ◌+◌, ◌*◌, ℕ, IsTrue, MatchOption, false, replicate};
ghost use Rattle.chip_machine.specs.State.{Core};
ghost use Rattle.chip_machine.specs.Step.{reg, with_reg};
ghost use Rattle.chip_facts.specs.Sets.{has, Holds};
ghost use Rattle.chip_facts.specs.inner.Knowing.{IsKnown, second_of};
ghost use Rattle.chip_facts.specs.inner.Operations.{value_of, flag_of};

use crate::bits::{insert, is_within};
use crate::byte_set::{ByteSet, block, single};
use crate::index_set::{IndexSet, only};
use crate::operation::{Operation, pairs_made};
use chip_lang::number::Reg;

/// The second byte of an operation.
#[derive(Clone, Copy)]
pub(crate) enum Second {
    Register(Reg),
    Byte(u8),
}

/// What is known about the registers, I, the delay timer and the size of the screen.
#[derive(Clone, Copy)]
pub(crate) struct Known {
    /// Register x may have byte b if bit 256 * x + b is set.
    pub(crate) registers: [u64; 64],
    pub(crate) index: IndexSet,
    /// An upper bound of the delay timer.
    pub(crate) delay: u8,
    pub(crate) may_be_low: bool,
    pub(crate) may_be_high: bool,
}

impl Known {
    /// Returns the bytes that a register may have.
    pub(crate) fn values(&self, x: Reg) -> ByteSet
        ensures each { (b : ℕ) → b < 256 → has result b ≡ has self.now.registers (256 * x + b) }
        ensures range { x < 16 }
    {
        block(&self.registers, x.number() as usize)
    }

    /// Records that the register with a number is set to one of these bytes.
    pub(crate) fn put(&mut self, x: usize, values: &ByteSet)
        requires { x < 16 }
        ensures known { (c : Core) (b : ℕ) → IsKnown self.old c → Holds values.now b
            → IsKnown self.new (with_reg x b c) }
        ensures there { (b : ℕ) → Holds values.now b → Holds self.new.registers (256 * x + b) }
        ensures others { (y b : ℕ) → y ≢ x → b < 256 → Holds self.old.registers (256 * y + b)
            → Holds self.new.registers (256 * y + b) }
        ensures rest { self.new ≡ record self.old { registers = self.new.registers } }
    {
        let at = 4 * x;
        self.registers[at] = values[0];
        self.registers[at + 1] = values[1];
        self.registers[at + 2] = values[2];
        self.registers[at + 3] = values[3];
    }

    /// Records that a register is set to one of these bytes.
    pub(crate) fn set(&mut self, x: Reg, values: &ByteSet)
        ensures { (c : Core) (b : ℕ) → IsKnown self.old c → Holds values.now b
            → IsKnown self.new (with_reg x b c) }
    {
        self.put(x.number() as usize, values);
    }

    /// Records that VF is set to one of these bytes.
    pub(crate) fn set_flag(&mut self, values: &ByteSet)
        ensures { (c : Core) (b : ℕ) → IsKnown self.old c → Holds values.now b
            → IsKnown self.new (with_reg 15 b c) }
    {
        self.put(15, values);
    }

    /// Returns what is known after an operation on a register and a byte of a set that sets the flag to this
    /// value. Returns `None` if the operation never does.
    fn operated_with(
        &self,
        operation: Operation,
        flag: u8,
        x: Reg,
        seconds: &ByteSet,
    ) -> Option<Known>
        ensures { (c : Core) (b : ℕ) → IsKnown self.now c → b < 256 → Holds seconds.now b
            → flag_of operation (reg c x) b ≡ flag
            → MatchOption result ⊥ (λ k. IsKnown k (with_reg x (value_of operation (reg c x) b) c)) }
    {
        let made = pairs_made(operation, flag, &self.values(x), seconds, false);
        if !made.any {
            return None;
        }
        let mut known = *self;
        known.set(x, &made.values);
        Some(known)
    }

    /// Returns what is known after an operation on two registers that sets the flag to this value, or `None` if
    /// the operation never does. The flag also limits the values of the second register.
    fn operated_by(&self, operation: Operation, flag: u8, x: Reg, y: Reg) -> Option<Known>
        ensures { (c : Core) → IsKnown self.now c → flag_of operation (reg c x) (reg c y) ≡ flag
            → MatchOption result ⊥
            (λ k. IsKnown k (with_reg x (value_of operation (reg c x) (reg c y)) c)) }
    {
        let same = x.number() == y.number();
        let made = pairs_made(operation, flag, &self.values(x), &self.values(y), same);
        if !made.any {
            return None;
        }
        let mut known = *self;
        known.set(y, &made.seconds);
        known.set(x, &made.values);
        Some(known)
    }

    /// Returns what is known after an operation on a register and a second byte that sets the flag to this
    /// value, or `None` if the operation never does.
    pub(crate) fn operated(
        &self,
        operation: Operation,
        flag: u8,
        x: Reg,
        second: &Second,
    ) -> Option<Known>
        ensures small { (c : Core) → IsKnown self.now c → second_of second.now c < 256 }
        ensures is { (c : Core) → IsKnown self.now c
            → flag_of operation (reg c x) (second_of second.now c) ≡ flag
            → MatchOption result ⊥
            (λ k. IsKnown k (with_reg x (value_of operation (reg c x) (second_of second.now c)) c)) }
    {
        match *second {
            Second::Register(y) => self.operated_by(operation, flag, x, y),
            Second::Byte(byte) => self.operated_with(operation, flag, x, &single(byte)),
        }
    }

    /// Whether `other` is true of each core that `self` is true of.
    pub(crate) fn is_within(&self, other: &Known) -> bool
        ensures { IsTrue result → (c : Core) → IsKnown self.now c → IsKnown other.now c }
    {
        self.delay <= other.delay
            && (!self.may_be_low || other.may_be_low)
            && (!self.may_be_high || other.may_be_high)
            && is_within(&self.registers, &other.registers)
            && is_within(&self.index, &other.index)
    }
}

impl Known {
    /// Returns what is known before the first step.
    pub(crate) fn start() -> Known
        ensures { (c : Core) → c.registers ≡ replicate 16 0 → c.index ≡ 0 → c.delay ≡ 0
            → c.high ≡ false → IsKnown result c }
    {
        let mut registers = [0; 64];
        for x in 0..16 {
            insert(&mut registers, 256 * x);
        }
        Known {
            registers,
            index: only(0),
            delay: 0,
            may_be_low: true,
            may_be_high: false,
        }
    }
}
