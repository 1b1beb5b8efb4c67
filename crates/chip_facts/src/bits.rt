//! Sets of numbers, with one bit per number, in a sequence of words.

ghost use Rattle.std.specs.Prelude.{◌≡◌, ◌≤◌, ◌<◌, ◌*◌, ℕ, false, true, IsTrue, length};
ghost use Rattle.std.specs.Int.{bit_at};
ghost use Rattle.chip_facts.specs.Sets.{has, Holds, IsWithin};

/// Whether number n is in a set.
#[inline]
pub(crate) fn contains(words: &[u64], n: usize) -> bool
    requires { n < 64 * length words.now }
    ensures { result ≡ has words.now n }
{
    words[n / 64] >> (n % 64) & 1 == 1
}

/// Adds number n to a set.
#[inline]
pub(crate) fn insert(words: &mut [u64], n: usize)
    requires { n < 64 * length words.old }
    ensures there { Holds words.new n }
    ensures others { (m : ℕ) → Holds words.old m → Holds words.new m }
{
    words[n / 64] |= 1 << (n % 64);
}

/// Removes number n from a set.
#[inline]
pub(crate) fn remove(words: &mut [u64], n: usize)
    requires { n < 64 * length words.old }
{
    words[n / 64] &= !(1 << (n % 64));
}

/// Returns the first set bit of a word at `from` or later, or 64 if there is no such bit.
#[inline]
fn first_bit(word: u64, from: usize) -> usize
    requires { from < 64 }
    ensures least { from ≤ result }
    ensures most { result ≤ 64 }
    ensures none { (i : ℕ) → from ≤ i → i < result → bit_at word i ≡ 0 }
{
    let rest = word >> from;
    if rest == 0 {
        return 64;
    }
    from + rest.trailing_zeros() as usize
}

/// Returns the lowest number in a set that is at least `from`. If there is none, returns a number that is
/// too large for a set with this many words.
#[inline]
pub(crate) fn next(words: &[u64], from: usize) -> usize
    requires { length words.now < 65536 }
    ensures least { from ≤ result }
    ensures most { from ≤ 64 * length words.now → result ≤ 64 * length words.now }
    ensures none { (n : ℕ) → from ≤ n → n < result → has words.now n ≡ false }
{
    if from / 64 >= words.len() {
        return from;
    }
    let place = first_bit(words[from / 64], from % 64);
    if place < 64 {
        return from / 64 * 64 + place;
    }
    for i in from / 64 + 1..words.len() {
        if words[i] != 0 {
            return 64 * i + first_bit(words[i], 0);
        }
    }
    64 * words.len()
}

/// Whether each number in a set is also in another set.
#[inline]
pub(crate) fn is_within(words: &[u64], others: &[u64]) -> bool
    requires { length words.now ≡ length others.now }
    ensures { IsTrue result → IsWithin words.now others.now }
{
    for i in 0..words.len() {
        if words[i] | others[i] != others[i] {
            return false;
        }
    }
    true
}
