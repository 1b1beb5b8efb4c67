//! Sets of bytes.

ghost use Rattle.std.specs.Prelude.{◌≡◌, ◌<◌, ◌≤◌, ◌+◌, ◌-◌, ◌*◌, ◌/◌, ◌%◌, ℕ, bit_and, length};
ghost use Rattle.std.specs.Int.{bit_at};
ghost use Rattle.chip_facts.specs.Sets.{has, Holds};

use crate::bits::{insert, next};

/// A set of bytes, byte b at bit b.
pub(crate) type ByteSet = [u64; 4];

/// The empty set.
pub(crate) const NONE: ByteSet = [0; 4];

/// Returns the set that contains only one byte.
pub(crate) fn single(byte: u8) -> ByteSet
    ensures { Holds result byte }
{
    let mut set = NONE;
    insert(&mut set, byte as usize);
    set
}

/// Returns the bytes from 0 to `most`.
pub(crate) fn up_to(most: u8) -> ByteSet
    ensures { (b : ℕ) → b ≤ most → Holds result b }
{
    let mut set = NONE;
    for b in 0..most as usize + 1 {
        insert(&mut set, b);
    }
    set
}

/// Returns all bytes that are possible after a mask is applied.
pub(crate) fn masked(mask: u8) -> ByteSet
    ensures { (b : ℕ) → b < 256 → Holds result (bit_and b mask) }
{
    let mut set = NONE;
    for b in 0..256u16 {
        insert(&mut set, (b as u8 & mask) as usize);
    }
    set
}

/// Returns an upper bound of the bytes in a set.
pub(crate) fn bound(set: &ByteSet) -> u8
    ensures { (b : ℕ) → b < 256 → Holds set.now b → b ≤ result }
{
    let mut most = 0;
    let mut b = next(set, 0);
    while b < 256 {
        most = b as u8;
        b = next(set, b + 1);
    }
    most
}

/// Returns the set at an index in a sequence of sets.
pub(crate) fn block(words: &[u64], place: usize) -> ByteSet
    requires { 4 * place + 3 < length words.now }
    ensures { (b : ℕ) → b < 256 → has result b ≡ has words.now (256 * place + b) }
{
    let at = 4 * place;
    [words[at], words[at + 1], words[at + 2], words[at + 3]]
}

/// Adds the bytes in another set to a set.
pub(crate) fn unite(set: &mut ByteSet, other: &ByteSet)
    ensures others { (b : ℕ) → Holds set.old b → Holds set.new b }
    ensures there { (b : ℕ) → b < 256 → Holds other.now b → Holds set.new b }
{
    for i in 0..4 {
        set[i] |= other[i];
    }
}

/// Returns word `i` of the sums of a number and each byte in a set.
fn raised_word(set: &ByteSet, by: usize, i: usize) -> u64
    requires { i < 4 }
    ensures { (a : ℕ) → (a + by) / 64 ≡ i → Holds set.now a → bit_at result ((a + by) % 64) ≡ 1 }
{
    let words = by / 64;
    let bits = by % 64;
    if i < words {
        return 0;
    }
    let word = set[i - words] << bits;
    if i == words || bits == 0 {
        return word;
    }
    word | set[i - words - 1] >> (64 - bits)
}

/// Returns the sums of a number and each byte in a set, except those above 255.
pub(crate) fn raised(set: &ByteSet, by: usize) -> ByteSet
    ensures { (a : ℕ) → a + by < 256 → Holds set.now a → Holds result (a + by) }
{
    [
        raised_word(set, by, 0),
        raised_word(set, by, 1),
        raised_word(set, by, 2),
        raised_word(set, by, 3),
    ]
}

/// Returns word `i` of the differences of each byte in a set and a number.
fn lowered_word(set: &ByteSet, by: usize, i: usize) -> u64
    requires small { i < 4 }
    requires by { by ≤ 256 }
    ensures { (a : ℕ) → by ≤ a → (a - by) / 64 ≡ i → Holds set.now a → bit_at result ((a - by) % 64) ≡ 1 }
{
    let from = i + by / 64;
    let bits = by % 64;
    if from > 3 {
        return 0;
    }
    let word = set[from] >> bits;
    if from == 3 || bits == 0 {
        return word;
    }
    word | set[from + 1] << (64 - bits)
}

/// Returns the differences of each byte in a set and a number, except those below 0.
pub(crate) fn lowered(set: &ByteSet, by: usize) -> ByteSet
    requires { by ≤ 256 }
    ensures { (a : ℕ) → by ≤ a → Holds set.now a → Holds result (a - by) }
{
    [
        lowered_word(set, by, 0),
        lowered_word(set, by, 1),
        lowered_word(set, by, 2),
        lowered_word(set, by, 3),
    ]
}

/// Returns a decimal digit of each byte in a set: hundreds, tens or ones if `by` is 100, 10 or 1.
pub(crate) fn digit(values: &ByteSet, by: u8) -> ByteSet
    requires { 0 < by }
    ensures { (b : ℕ) → b < 256 → Holds values.now b → Holds result (b / by % 10) }
{
    let mut set = NONE;
    let mut b = next(values, 0);
    while b < 256 {
        insert(&mut set, (b as u8 / by % 10) as usize);
        b = next(values, b + 1);
    }
    set
}
