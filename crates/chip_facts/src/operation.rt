//! The results of instructions on two bytes.

ghost use Rattle.std.specs.Prelude.{◌≡◌, ◌<◌, ℕ, IfSome, IsTrue};
ghost use Rattle.chip_facts.specs.Sets.{Holds};
ghost use Rattle.chip_facts.specs.inner.Operations.{value_of, flag_of, IsMade};

use crate::bits::{contains, insert, next};
use crate::byte_set::{ByteSet, NONE, lowered, raised, unite};

/// The operation of an instruction on the byte of a register and a second byte.
#[derive(Clone, Copy)]
pub(crate) enum Operation {
    /// The second byte.
    Second,
    Or,
    And,
    Xor,
    /// The sum modulo 256, without a flag.
    Sum,
    Add,
    Subtract,
    SubtractFrom,
    ShiftRight,
    ShiftLeft,
    /// The first byte. The flag is 1 if both bytes are equal, otherwise 0.
    Compare,
}

impl Operation {
    #[inline]
    pub(crate) fn value(self, first: u8, second: u8) -> u8
        ensures { result ≡ value_of self first second }
    {
        match self {
            Operation::Second => second,
            Operation::Or => first | second,
            Operation::And => first & second,
            Operation::Xor => first ^ second,
            Operation::Sum | Operation::Add => first.wrapping_add(second),
            Operation::Subtract => first.wrapping_sub(second),
            Operation::SubtractFrom => second.wrapping_sub(first),
            Operation::ShiftRight => second / 2,
            Operation::ShiftLeft => (second as u16 * 2 % 256) as u8,
            Operation::Compare => first,
        }
    }

    /// Returns VF after the operation or, for a comparison, 1 if the bytes are equal and otherwise 0. Returns
    /// 0 for an operation without a flag.
    #[inline]
    pub(crate) fn flag(self, first: u8, second: u8) -> u8
        ensures { result ≡ flag_of self first second }
    {
        match self {
            Operation::Add => u8::from(first as u16 + second as u16 > 255),
            Operation::Subtract => u8::from(second <= first),
            Operation::SubtractFrom => u8::from(first <= second),
            Operation::ShiftRight => second % 2,
            Operation::ShiftLeft => second / 128,
            Operation::Compare => u8::from(first == second),
            _ => 0,
        }
    }
}

/// The results of an operation on those pairs from two sets that set the flag to a certain value.
#[derive(Drop)]
pub(crate) struct Pairs {
    /// Whether there is such a pair.
    pub(crate) any: bool,
    pub(crate) values: ByteSet,
    /// The second bytes of these pairs.
    pub(crate) seconds: ByteSet,
}

/// Returns the results of an operation on a second byte and those bytes in a set that set the flag to this
/// value, by shifting the whole set. `None` if a shift can't compute the operation.
fn made_at_once(operation: Operation, flag: u8, firsts: &ByteSet, second: u8) -> Option<ByteSet>
    ensures { IfSome result (λ made. (a : ℕ) → a < 256 → Holds firsts.now a
        → flag_of operation a second ≡ flag → Holds made (value_of operation a second)) }
{
    let by = second as usize;
    match operation {
        Operation::Add if flag == 0 => Some(raised(firsts, by)),
        Operation::Add => Some(lowered(firsts, 256 - by)),
        Operation::Subtract if flag == 0 => Some(raised(firsts, 256 - by)),
        Operation::Subtract => Some(lowered(firsts, by)),
        _ => None,
    }
}

impl Pairs {
    #[inline]
    fn add(&mut self, operation: Operation, flag: u8, first: u8, second: u8)
        ensures kept { (v b : ℕ) → IsMade self.old v b → IsMade self.new v b }
        ensures added { flag_of operation first second ≡ flag
            → IsMade self.new (value_of operation first second) second }
    {
        if operation.flag(first, second) == flag {
            self.any = true;
            insert(&mut self.values, operation.value(first, second) as usize);
            insert(&mut self.seconds, second as usize);
        }
    }

    /// Adds the pairs of each byte in a set and a second byte, one after the other.
    fn add_each(&mut self, operation: Operation, flag: u8, firsts: &ByteSet, second: u8)
        ensures kept { (v b : ℕ) → IsMade self.old v b → IsMade self.new v b }
        ensures added { (a : ℕ) → a < 256 → Holds firsts.now a → flag_of operation a second ≡ flag
            → IsMade self.new (value_of operation a second) second }
    {
        let mut a = next(firsts, 0);
        while a < 256 {
            self.add(operation, flag, a as u8, second);
            a = next(firsts, a + 1);
        }
    }

    /// Adds the results of an operation with a second byte.
    fn add_made(&mut self, made: &ByteSet, second: u8)
        ensures kept { (v b : ℕ) → IsMade self.old v b → IsMade self.new v b }
        ensures added { (v : ℕ) → v < 256 → Holds made.now v → IsMade self.new v second }
    {
        if next(made, 0) < 256 {
            self.any = true;
            unite(&mut self.values, made);
            insert(&mut self.seconds, second as usize);
        }
    }

    /// Adds the pairs of each byte in a set and a second byte.
    fn add_all(&mut self, operation: Operation, flag: u8, firsts: &ByteSet, second: u8)
        ensures kept { (v b : ℕ) → IsMade self.old v b → IsMade self.new v b }
        ensures added { (a : ℕ) → a < 256 → Holds firsts.now a → flag_of operation a second ≡ flag
            → IsMade self.new (value_of operation a second) second }
    {
        match made_at_once(operation, flag, firsts, second) {
            Some(made) => self.add_made(&made, second),
            None => self.add_each(operation, flag, firsts, second),
        }
    }
}

/// Returns the results of an operation on those pairs from two sets that set the flag to this value, by
/// trying each pair. If `same` is true, both bytes are equal, so tries only pairs of a byte with itself.
fn pairs_tried(
    operation: Operation,
    flag: u8,
    firsts: &ByteSet,
    seconds: &ByteSet,
    same: bool,
) -> Pairs
    ensures { (a b : ℕ) → a < 256 → b < 256 → Holds firsts.now a → Holds seconds.now b
        → (IsTrue same → a ≡ b) → flag_of operation a b ≡ flag
        → IsMade result (value_of operation a b) b }
{
    let mut made = Pairs {
        any: false,
        values: NONE,
        seconds: NONE,
    };
    let mut b = next(seconds, 0);
    while b < 256 {
        if !same {
            made.add_all(operation, flag, firsts, b as u8);
        } else if contains(firsts, b) {
            made.add(operation, flag, b as u8, b as u8);
        }
        b = next(seconds, b + 1);
    }
    made
}

/// Whether a set contains at least two bytes.
fn has_several(set: &ByteSet) -> bool {
    next(set, next(set, 0).saturating_add(1)) < 256
}

/// Returns the results of an operation on those pairs from two sets that set the flag to this value. If
/// `same` is true, both bytes come from one register, so only pairs of a byte with itself count.
pub(crate) fn pairs_made(
    operation: Operation,
    flag: u8,
    firsts: &ByteSet,
    seconds: &ByteSet,
    same: bool,
) -> Pairs
    ensures { (a b : ℕ) → a < 256 → b < 256 → Holds firsts.now a → Holds seconds.now b
        → (IsTrue same → a ≡ b) → flag_of operation a b ≡ flag
        → IsMade result (value_of operation a b) b }
{
    match operation {
        Operation::Second => Pairs {
            any: true,
            values: *seconds,
            seconds: *seconds,
        },
        Operation::Compare => {
            if flag == 1 {
                pairs_tried(operation, flag, firsts, seconds, true)
            } else if !same && has_several(firsts) && has_several(seconds) {
                Pairs {
                    any: true,
                    values: *firsts,
                    seconds: *seconds,
                }
            } else {
                pairs_tried(operation, flag, firsts, seconds, same)
            }
        }
        _ => pairs_tried(operation, flag, firsts, seconds, same),
    }
}
