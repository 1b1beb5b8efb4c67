//! The addresses that a step touched.

ghost use Rattle.std.specs.Prelude.{◌≡◌, ℕ, ◌+◌, ◌<◌, ◌≤◌, ◌↔◌, [], ◌∷◌, ◌++◌, All, length, min, IsTrue, IfSome, slice_get, slice_index, slice_set};
ghost use Rattle.std.specs.Bool.{OnTrue, OnFalse};
ghost use Rattle.std.specs.List.{range_with_len};
ghost use Rattle.chip_machine.specs.Step.{span_at};
ghost use Rattle.chip_machine.specs.Touched.{IsNoted, is_among};

use crate::limits::{MEMORY_BYTES, SPRITE_BYTES, TOUCHES};
use std::marker::Model;

/// The addresses that a step read or wrote.
#[derive(Drop)]
pub struct Touch {
    addresses: [u16; TOUCHES],
    count: usize,
    /// The first of the newest addresses. They are consecutive, and are written out only when other
    /// addresses follow.
    row_start: u16,
    row_len: usize,
}

impl Model for Touch {
    ghost use Rattle.std.specs.Prelude.{ℕ, List, ◌<◌, ◌≤◌, ◌+◌, ◌++◌, take, All};
    ghost use Rattle.std.specs.List.{range_with_len};
    ghost use Rattle.chip_lang.specs.declared.limits.TheConstants.{MEMORY_BYTES};
    ghost use Rattle.chip_machine.specs.declared.limits.TheConstants.{TOUCHES};

    ghost Value = { List ℕ };

    ghost view = { λ t. take t.count t.addresses ++ range_with_len t.row_start t.row_len };

    ghost invariant = { λ t. (t.count + t.row_len ≤ TOUCHES)
        × (t.row_start + t.row_len ≤ MEMORY_BYTES)
        × All (λ at. at < MEMORY_BYTES) (take t.count t.addresses) };
}

/// The consecutive addresses that an instruction accesses, or none.
#[derive(Drop)]
pub(crate) struct Span {
    start: u16,
    len: usize,
}

impl Model for Span {
    ghost use Rattle.std.specs.Prelude.{ℕ, List, ◌≤◌, ◌+◌};
    ghost use Rattle.std.specs.List.{range_with_len};
    ghost use Rattle.chip_lang.specs.declared.limits.TheConstants.{MEMORY_BYTES};
    ghost use Rattle.chip_machine.specs.declared.limits.TheConstants.{SPRITE_BYTES};

    ghost Value = { List ℕ };

    ghost view = { λ s. range_with_len s.start s.len };

    ghost invariant = { λ s. (s.len ≤ SPRITE_BYTES) × (s.start + s.len ≤ MEMORY_BYTES) };
}

impl Span {
    /// Returns a span without addresses.
    #[inline(always)]
    pub(crate) fn none() -> Self
        ensures { result ≡ [] }
    {
        Span { start: 0, len: 0 }
    }

    /// Returns the addresses of `len` bytes, starting at `start`.
    #[inline(always)]
    pub(crate) fn new(start: u16, len: usize) -> Self
        requires few { len ≤ SPRITE_BYTES }
        requires in_memory { start + len ≤ MEMORY_BYTES }
        ensures { result ≡ span_at start len }
    {
        Span { start, len }
    }

    /// Records a step at the addresses, like `Touch::note`.
    #[inline(always)]
    pub(crate) fn note(&self, first_touch: &mut [u32], number: u32)
        requires { length first_touch.old ≡ MEMORY_BYTES }
        ensures { IsNoted (is_among self.now) number first_touch.old first_touch.new }
    {
        note_row(first_touch, self.start as usize, self.len, number);
    }
}

impl Touch {
    /// Returns an empty list of addresses.
    pub fn new() -> Self
        ensures { result ≡ [] }
    {
        Touch {
            addresses: [0; TOUCHES],
            count: 0,
            row_start: 0,
            row_len: 0,
        }
    }

    /// Removes all addresses.
    pub fn clear(&mut self)
        ensures { self.new ≡ [] }
    {
        self.count = 0;
        self.row_len = 0;
    }

    /// The number of addresses in the list, 0 to `TOUCHES`.
    pub fn len(&self) -> usize
        ensures value { result ≡ length self.now }
        ensures at_most { result ≤ TOUCHES }
    {
        self.count + self.row_len
    }

    /// Whether the list contains no address.
    pub fn is_empty(&self) -> bool
        ensures { IsTrue result ↔ (self.now ≡ []) }
    {
        self.len() == 0
    }

    /// The address at an index, in the order in which the addresses were added, or `None` if `place` is
    /// not below the length.
    pub fn get(&self, place: usize) -> Option<u16>
        ensures value { result ≡ slice_get self.now place }
        ensures in_memory { IfSome result (λ at. at < MEMORY_BYTES) }
    {
        if place < self.count {
            Some(self.addresses[place])
        } else if place - self.count < self.row_len {
            Some(self.row_start + (place - self.count) as u16)
        } else {
            None
        }
    }

    /// Adds an address, and returns whether it was added. An address isn't added if the list already
    /// contains `TOUCHES` addresses, or if the address is past the end of the memory.
    pub fn add(&mut self, at: u16) -> bool
        ensures room { IsTrue result ↔ ((length self.old < TOUCHES) × (at < MEMORY_BYTES)) }
        ensures added { OnTrue result (self.new ≡ self.old ++ at ∷ []) }
        ensures unchanged { OnFalse result (self.new ≡ self.old) }
    {
        if self.len() == TOUCHES || at as usize >= MEMORY_BYTES {
            return false;
        }
        self.add_span(at, 1);
        true
    }

    /// Records a step at the addresses. For each address, the table keeps the lowest number of a step that
    /// was recorded there.
    #[inline(always)]
    pub fn note(&self, first_touch: &mut [u32], number: u32)
        requires { length first_touch.old ≡ MEMORY_BYTES }
        ensures { IsNoted (is_among self.now) number first_touch.old first_touch.new }
    {
        note_list(first_touch, &self.addresses[..self.count], number);
        note_row(first_touch, self.row_start as usize, self.row_len, number);
    }

    /// Adds the addresses that an instruction accesses, after those of its word.
    pub(crate) fn add_all(&mut self, span: Span)
        requires { length self.old ≤ 2 }
        ensures { self.new ≡ self.old ++ span }
    {
        self.add_span(span.start, span.len);
    }

    /// Adds the addresses of `bytes` bytes, starting at `at`.
    pub(crate) fn add_span(&mut self, at: u16, bytes: usize)
        requires in_memory { at + bytes ≤ MEMORY_BYTES }
        requires room { length self.old + bytes ≤ TOUCHES }
        ensures { self.new ≡ self.old ++ range_with_len at bytes }
    {
        let end = self.count + self.row_len;
        count_up(&mut self.addresses[self.count..end], self.row_start);
        self.count = end;
        self.row_start = at;
        self.row_len = bytes;
    }
}

/// Fills a slice with consecutive numbers, starting at `start`.
fn count_up(numbers: &mut [u16], start: u16)
    requires { start + length numbers.old ≤ MEMORY_BYTES }
    ensures { numbers.new ≡ range_with_len start (length numbers.old) }
{
    for (place, number) in numbers.iter_mut().enumerate() {
        *number = start + place as u16;
    }
}

/// Records a step at an address.
#[inline(always)]
pub(crate) fn note_at(first_touch: &mut [u32], at: usize, number: u32)
    requires { at < length first_touch.old }
    ensures { first_touch.new
        ≡ slice_set first_touch.old at (min (slice_index first_touch.old at) number) }
{
    if number < first_touch[at] {
        first_touch[at] = number;
    }
}

/// Records a step at the addresses of a list.
#[inline(always)]
fn note_list(first_touch: &mut [u32], addresses: &[u16], number: u32)
    requires table { length first_touch.old ≡ MEMORY_BYTES }
    requires in_memory { All (λ at. at < MEMORY_BYTES) addresses.now }
    ensures { IsNoted (is_among addresses.now) number first_touch.old first_touch.new }
{
    for at in addresses {
        note_at(first_touch, *at as usize, number);
    }
}

/// Records a step at `len` consecutive addresses.
#[inline(always)]
fn note_row(first_touch: &mut [u32], start: usize, len: usize, number: u32)
    requires table { length first_touch.old ≡ MEMORY_BYTES }
    requires in_memory { start + len ≤ MEMORY_BYTES }
    ensures { IsNoted (is_among (range_with_len start len)) number first_touch.old first_touch.new }
{
    note_all(&mut first_touch[start..start + len], number);
}

/// Records a step at each address of a part of the table.
#[inline(always)]
fn note_all(part: &mut [u32], number: u32)
    ensures { (k : ℕ) → k < length part.old
        → slice_index part.new k ≡ min (slice_index part.old k) number }
{
    for known in part.iter_mut() {
        *known = (*known).min(number);
    }
}
