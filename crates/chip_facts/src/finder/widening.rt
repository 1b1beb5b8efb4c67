//! The growth of sets. What is known is joined, and sets that keep growing are extended further at once.

use crate::bits::{contains, insert, next};
use crate::byte_set::{ByteSet, block};
use crate::known::Known;

/// The maximum distance between two bytes of a set that counts as one step of its growth.
const MOST_DISTANCE: usize = 64;

/// Returns the constants of the instructions of an image, and their neighbours.
pub(crate) fn marks_of(image: &[u8]) -> ByteSet {
    let mut marks = [0; 4];
    insert(&mut marks, 0);
    insert(&mut marks, 255);
    for i in 0..image.len() {
        if i + 1 < image.len() && matches!(image[i] >> 4, 3 | 4 | 6 | 12) {
            let byte = image[i + 1];
            insert(&mut marks, byte as usize);
            insert(&mut marks, byte.wrapping_add(1) as usize);
            insert(&mut marks, byte.wrapping_sub(1) as usize);
        }
    }
    marks
}

/// Returns the bytes of a set that another set doesn't contain.
fn added(old: &ByteSet, new: &ByteSet) -> ByteSet {
    let mut set = *new;
    for i in 0..4 {
        set[i] &= !old[i];
    }
    set
}

/// Adds the bytes that a register's set is expected to grow to. If a new byte has a distance from an old
/// byte, adds the bytes that follow at this distance, up to a mark.
fn extrapolate(old: &ByteSet, new: &mut ByteSet, marks: &ByteSet) {
    let fresh = added(old, new);
    let mut byte = next(&fresh, 0);
    while byte < 256 {
        for distance in 1..MOST_DISTANCE + 1 {
            if byte >= distance && contains(old, byte - distance) {
                grow_up(new, marks, byte, distance);
                break;
            }
            if byte + distance < 256 && contains(old, byte + distance) {
                grow_down(new, marks, byte, distance);
                break;
            }
        }
        byte = next(&fresh, byte + 1);
    }
}

/// Adds the bytes upwards from `from` at a distance from each other, up to a mark.
fn grow_up(set: &mut ByteSet, marks: &ByteSet, from: usize, distance: usize) {
    let mut byte = from;
    for _ in 0..256 {
        if byte >= 256 {
            return;
        }
        insert(set, byte);
        if contains(marks, byte) {
            return;
        }
        byte = byte.saturating_add(distance);
    }
}

/// Adds the bytes downwards from `from` at a distance from each other, down to a mark.
fn grow_down(set: &mut ByteSet, marks: &ByteSet, from: usize, distance: usize) {
    let mut byte = from;
    for _ in 0..256 {
        if byte >= 256 {
            return;
        }
        insert(set, byte);
        if contains(marks, byte) || byte < distance {
            return;
        }
        byte -= distance;
    }
}

/// Adds the possibilities of `other` to what is known.
pub(crate) fn widen(known: &mut Known, other: &Known) {
    for i in 0..64 {
        known.registers[i] |= other.registers[i];
    }
    for i in 0..65 {
        known.index[i] |= other.index[i];
    }
    known.delay = known.delay.max(other.delay);
    known.may_be_low = known.may_be_low || other.may_be_low;
    known.may_be_high = known.may_be_high || other.may_be_high;
}

/// Extends the sets of registers that have grown.
pub(crate) fn hurry(known: &mut Known, old: &[u64; 64], marks: &ByteSet) {
    for x in 0..16 {
        let before = block(old, x);
        let mut after = block(&known.registers, x);
        if before != after {
            extrapolate(&before, &mut after, marks);
            known.put(x, &after);
        }
    }
}
