//! The code of a line and its place in the image.
ghost use Rattle.std.specs.Prelude.{◌≡◌, ℕ, true, ◌+◌, ◌-◌, ◌<◌, ◌≤◌, ◌++◌, drop, if◌then◌else◌, length, slice_index, take};
ghost use Rattle.chip_lang.specs.Code.{bytes_coded, code_length, code_of, fault_coded};
ghost use Rattle.chip_lang.specs.Meter.{one_more};
ghost use Rattle.chip_lang.specs.declared.limits.TheConstants.{IMAGE_BYTES, MEMORY_BYTES};
ghost use Rattle.chip_asm.specs.inner.Codes.{IsCopied, IsWritten, is_coded, kept_bytes, kept_fault};
ghost use Rattle.chip_asm.specs.inner.Infos.{IsInfo};
ghost use Rattle.chip_asm.specs.inner.Placements.{is_accepted};
ghost use Rattle.chip_asm.specs.inner.Records.{reading_in};
ghost use Rattle.chip_symbols.specs.Names.{values_of};

use crate::kept_line::BoxedLine;
use crate::line_info::Uses;
use crate::placement::Placement;
use chip_lang::limits::IMAGE_START;
use chip_lang::{Fault, Meter, encode_into};
use chip_symbols::{OneName, Scope, Table};
use std::ops::Range;

/// The range of image indexes of a line's bytes.
pub(crate) fn places_of(placement: &Placement) -> Range<usize>
    requires { IMAGE_START ≤ placement.now.here }
    ensures start { result.start ≡ placement.now.here - IMAGE_START }
    ensures end { result.end ≡ placement.now.here - IMAGE_START + placement.now.size }
{
    let first = placement.address() - IMAGE_START;
    first..first + placement.size as usize
}

/// The bytes of a line in the image.
pub(crate) fn bytes_at<'a>(image: &'a [u8], placement: &Placement) -> &'a [u8]
    requires low { IMAGE_START ≤ placement.now.here }
    requires high { placement.now.here + placement.now.size ≤ MEMORY_BYTES }
    requires whole { length image.now ≡ IMAGE_BYTES }
    ensures long { length result.now ≡ placement.now.size }
    ensures each { (k : ℕ) → k < placement.now.size → slice_index result.now k
        ≡ slice_index image.now (placement.now.here - IMAGE_START + k) }
{
    &image[places_of(placement)]
}

/// The byte at an index, or 0 past the end.
pub(crate) fn byte_or_zero(bytes: &[u8], index: usize) -> u8
    ensures { result ≡ slice_index bytes.now index }
{
    match bytes.get(index) {
        Some(byte) => *byte,
        None => 0,
    }
}

/// Encodes a line into `bytes`: its own bytes, and zeros after them. If the line has a fault, all
/// bytes become zeros, and the fault is returned.
#[inline(always)]
fn encode_kept(
    meter: &mut Meter,
    names: &Table,
    kept: &BoxedLine,
    bytes: &mut [u8],
) -> Option<Fault>
    requires info { IsInfo names.now.keys kept.now.info kept.now.several (reading_in kept.now) }
    requires room { code_length (reading_in kept.now) ≤ length bytes.old }
    ensures bytes { (k : ℕ) → slice_index bytes.new k
        ≡ slice_index (bytes_coded (code_of (reading_in kept.now) (values_of names.now.symbols))) k }
    ensures fault { result
        ≡ fault_coded (code_of (reading_in kept.now) (values_of names.now.symbols)) }
    ensures counted { meter.new ≡ record meter.old { encoded = one_more meter.old.encoded } }
    ensures not_lowered { meter.old.encoded ≤ meter.new.encoded }
{
    let line = kept.line();
    match kept.info().uses {
        Uses::One(id) => encode_into(meter, line, &OneName::new(names, id), bytes),
        _ => encode_into(meter, line, &Scope::new(names, kept.numbers()), bytes),
    }
}

/// Encodes a line at its place in an image, and returns the fault of the code, if it has one.
/// Writes zeros there if the line isn't accepted or has no code.
pub(crate) fn write_line(
    meter: &mut Meter,
    names: &Table,
    kept: &BoxedLine,
    placement: &Placement,
    image: &mut [u8],
) -> Option<Fault>
    requires info { IsInfo names.now.keys kept.now.info kept.now.several (reading_in kept.now) }
    requires low { IMAGE_START ≤ placement.now.here }
    requires high { placement.now.here + placement.now.size ≤ length image.old + IMAGE_START }
    requires room { is_accepted placement.now.status ≡ true
        → code_length (reading_in kept.now) ≤ placement.now.size }
    ensures written { IsWritten placement.now (kept_bytes names.now kept.now placement.now)
        image.old image.new }
    ensures fault { result ≡ kept_fault names.now kept.now placement.now }
    ensures encoded { meter.new.encoded
        ≤ meter.old.encoded + (if is_coded kept.now placement.now then 1 else 0) }
    ensures not_lowered { meter.old.encoded ≤ meter.new.encoded }
    ensures parsed { meter.new.parsed ≡ meter.old.parsed }
{
    let bytes = &mut image[places_of(placement)];
    if placement.status.is_accepted() && kept.info().is_coded {
        encode_kept(meter, names, kept, bytes)
    } else {
        bytes.fill(0);
        None
    }
}

/// Overwrites the items from index `at` on with these items.
#[inline(never)]
pub(crate) fn copy_to<T: Copy>(all: &mut [T], at: usize, items: &[T])
    requires { at + length items.now ≤ length all.old }
    ensures { all.new ≡ take at all.old ++ (items.now ++ drop (at + length items.now) all.old) }
{
    all[at..at + items.len()].copy_from_slice(items);
}

/// Copies the two bytes of an instruction from one place to another.
#[inline(always)]
pub(crate) fn copy_two(image: &mut [u8], to: usize, from: &[u8], at: usize)
    requires to { to + 2 ≤ length image.old }
    requires at { at + 2 ≤ length from.now }
    ensures { image.new
        ≡ take to image.old ++ (take 2 (drop at from.now) ++ drop (to + 2) image.old) }
{
    let (first, second) = (from[at], from[at + 1]);
    image[to] = first;
    image[to + 1] = second;
}

/// Copies the code of a line from its place in one image to its place in another, up to the smaller
/// of its two sizes.
#[inline(never)]
pub(crate) fn copy_code(was: &Placement, now: &Placement, from: &[u8], image: &mut [u8])
    requires was_low { IMAGE_START ≤ was.now.here }
    requires was_high { was.now.here + was.now.size ≤ length from.now + IMAGE_START }
    requires low { IMAGE_START ≤ now.now.here }
    requires high { now.now.here + now.now.size ≤ length image.old + IMAGE_START }
    ensures { IsCopied was.now now.now from.now image.old image.new }
{
    let size = was.size.min(now.size) as usize;
    if size == 0 {
        return;
    }
    let at = was.address() - IMAGE_START;
    let to = now.address() - IMAGE_START;
    if size == 2 {
        copy_two(image, to, from, at);
    } else {
        copy_to(image, to, &from[at..at + size]);
    }
}

/// Moves an accepted line, copies its code to its new place, and returns the address after the
/// line. The size can have changed only if the line is data.
#[inline(always)]
pub(crate) fn move_line(
    line: &mut Placement,
    short: bool,
    here: usize,
    size: usize,
    from: &[u8],
    image: &mut [u8],
) -> usize
    requires was { (IMAGE_START ≤ line.old.here)
        × (line.old.here + line.old.size ≤ length from.now + IMAGE_START) }
    requires low { IMAGE_START ≤ here }
    requires high { here + size ≤ MEMORY_BYTES }
    requires whole { length image.old ≡ IMAGE_BYTES }
    requires short { short ≡ true → (size ≡ 2 → ⊥) → size ≡ 0 }
    requires same { short ≡ true → line.old.size ≡ size }
    ensures line { line.new ≡ record line.old { here = here; size = size } }
    ensures image { IsCopied line.old line.new from.now image.old image.new }
    ensures behind { result ≡ here + size }
{
    let was = *line;
    line.here = here as u16;
    if !short {
        line.size = size as u16;
        copy_code(&was, line, from, image);
        return here + size;
    }
    if size == 2 {
        copy_two(image, here - IMAGE_START, from, was.address() - IMAGE_START);
        return here + 2;
    }
    here
}

/// Copies the first `end` bytes of an image into another one, and sets all other bytes there to
/// zero.
pub(crate) fn copy_front(image: &mut [u8], from: &[u8], end: usize)
    requires long { length image.old ≡ length from.now }
    requires end { end ≤ length from.now }
    ensures front { (k : ℕ) → k < end → slice_index image.new k ≡ slice_index from.now k }
    ensures zeros { (k : ℕ) → end ≤ k → slice_index image.new k ≡ 0 }
{
    image[..end].copy_from_slice(&from[..end]);
    image[end..].fill(0);
}
