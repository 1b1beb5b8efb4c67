//! Sets of values of I.

ghost use Rattle.std.specs.Prelude.{◌≡◌, ◌<◌, ◌≤◌, ◌+◌, ◌*◌, ◌%◌, ℕ, IsTrue, length, min};
ghost use Rattle.chip_facts.specs.Sets.{Holds};
ghost use Rattle.chip_facts.specs.inner.Indexes.{HoldsIndex};

use crate::bits::{contains, insert, next};
use crate::byte_set::{ByteSet, NONE, block, unite};
use chip_lang::limits::MEMORY_BYTES;
use chip_machine::limits::FLAGS;

/// The number of words of a set of values of I.
pub(crate) const INDEX_WORDS: usize = 65;

/// A set of values of I: address a is bit a, and the next bit stands for all values past the memory.
pub(crate) type IndexSet = [u64; INDEX_WORDS];

/// The number of distinct numbers that such a set can contain.
pub(crate) const NUMBERS: usize = 64 * INDEX_WORDS;

/// The number that stands for all values past the memory.
pub(crate) const PAST: usize = MEMORY_BYTES;

/// The number of bytes: those of the memory followed by the flag registers.
pub(crate) const BYTES: usize = MEMORY_BYTES + FLAGS;

/// The number of words of the sets of all bytes.
pub(crate) const SETS_WORDS: usize = 4 * BYTES;

/// The empty set.
const NOWHERE: IndexSet = [0; INDEX_WORDS];

/// Returns the set of one value.
pub(crate) fn only(at: usize) -> IndexSet
    requires { at < 65536 }
    ensures { HoldsIndex result at }
{
    let mut set = NOWHERE;
    insert(&mut set, at.min(PAST));
    set
}

/// Returns the addresses of the digits whose numbers are the low four bits of the bytes in a set.
pub(crate) fn digits(values: &ByteSet, first: usize, size: usize) -> IndexSet
    requires { first + size * 15 < 4096 }
    ensures { (b : ℕ) → b < 256 → Holds values.now b → HoldsIndex result (first + size * (b % 16)) }
{
    let mut set = NOWHERE;
    let mut b = next(values, 0);
    while b < 256 {
        let at = first + size * (b % 16);
        prove!(at < PAST);
        insert(&mut set, at);
        b = next(values, b + 1);
    }
    set
}

/// Adds the sums of an address and each byte of `values` to a set.
fn add_sums(set: &mut IndexSet, at: usize, values: &ByteSet)
    requires { at < 4096 }
    ensures kept { (n : ℕ) → Holds set.old n → Holds set.new n }
    ensures sums { (b : ℕ) → b < 256 → Holds values.now b → HoldsIndex set.new (at + b) }
{
    let mut b = next(values, 0);
    while b < 256 {
        insert(set, (at + b).min(PAST));
        b = next(values, b + 1);
    }
}

/// Returns the values past the memory, and all sums of such a value and a byte, modulo 65,536.
fn wrapped() -> IndexSet
    ensures past { Holds result 4096 }
    ensures low { (n : ℕ) → n < 255 → Holds result n }
{
    let mut set = NOWHERE;
    insert(&mut set, PAST);
    for at in 0..255 {
        insert(&mut set, at);
    }
    set
}

/// Returns the sums of a value of I and a byte, modulo 65,536.
pub(crate) fn sums(index: &IndexSet, values: &ByteSet) -> IndexSet
    ensures { (i b : ℕ) → i < 65536 → b < 256 → HoldsIndex index.now i → Holds values.now b
        → HoldsIndex result ((i + b) % 65536) }
{
    let mut set = if contains(index, PAST) {
        wrapped()
    } else {
        NOWHERE
    };
    let mut at = next(index, 0);
    while at < PAST {
        add_sums(&mut set, at, values);
        at = next(index, at + 1);
    }
    set
}

/// The values in a set from which a given number of bytes can be accessed.
#[derive(Drop)]
pub(crate) struct Access {
    pub(crate) set: IndexSet,
    /// Whether there is such a value.
    pub(crate) any: bool,
    /// Whether the set contains a value from which fewer bytes can be accessed.
    pub(crate) is_short: bool,
}

/// Separates the values of I from which `count` bytes can be accessed from the other values.
pub(crate) fn fitting(index: &IndexSet, count: usize) -> Access
    requires some { 0 < count }
    requires few { count ≤ 32 }
    ensures fits { (i : ℕ) → i + count ≤ 4096 → Holds index.now i
        → Holds result.set i × IsTrue result.any }
    ensures others { (i : ℕ) → i < 65536 → 4096 < i + count → HoldsIndex index.now i → IsTrue result.is_short }
{
    if next(index, PAST + 1 - count) > PAST {
        return Access {
            set: *index,
            any: true,
            is_short: false,
        };
    }
    let mut set = NOWHERE;
    let mut any = false;
    let mut at = next(index, 0);
    while at <= PAST - count {
        insert(&mut set, at);
        any = true;
        at = next(index, at + 1);
    }
    Access {
        set,
        any,
        is_short: true,
    }
}

/// Separates the values of I from which at least `least` bytes can be accessed, and reports whether there
/// are values from which `most` bytes can't be accessed. Zero bytes can be accessed from every value.
pub(crate) fn fitting_between(index: &IndexSet, least: usize, most: usize) -> Access
    requires few { least ≤ 32 }
    requires most { most ≤ 32 }
    ensures none { least ≡ 0 → (i : ℕ) → Holds index.now i → Holds result.set i × IsTrue result.any }
    ensures fits { (i : ℕ) → 0 < least → i + least ≤ 4096 → Holds index.now i
        → Holds result.set i × IsTrue result.any }
    ensures others { (i : ℕ) → i < 65536 → 0 < most → 4096 < i + most → HoldsIndex index.now i
        → IsTrue result.is_short }
{
    let is_short = most > 0 && fitting(index, most).is_short;
    if least == 0 {
        return Access {
            set: *index,
            any: true,
            is_short,
        };
    }
    let Access {
        set,
        any,
        is_short: _,
    } = fitting(index, least);
    Access { set, any, is_short }
}

/// Returns the possible bytes at an offset from one of the given addresses, given the sets of all bytes.
pub(crate) fn loaded(memory: &[u64], index: &IndexSet, offset: usize) -> ByteSet
    requires size { length memory.now ≡ SETS_WORDS }
    requires offset { offset < 16 }
    ensures { (i b : ℕ) → i ≤ 4096 → i + offset < 4104 → b < 256 → Holds index.now i
        → Holds memory.now (256 * (i + offset) + b) → Holds result b }
{
    let mut set = NONE;
    let mut at = next(index, 0);
    while at <= PAST {
        if at + offset < BYTES {
            unite(&mut set, &block(memory, at + offset));
        }
        at = next(index, at + 1);
    }
    set
}
