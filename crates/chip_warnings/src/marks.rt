//! The addresses that the instructions of a source name, and the purpose of each.

ghost use Rattle.std.specs.Prelude.{◌≡◌, ◌<◌, ◌≤◌, ◌+◌, ◌&&◌, ◌||◌, ℕ, IfOk, length, nat_lt, slice_index, is_some};
ghost use Rattle.std.specs.List.{list_any};
ghost use Rattle.chip_lang.specs.declared.limits.TheConstants.{MEMORY_BYTES};
ghost use Rattle.chip_warnings.specs.Seen.{base_of, is_code};
ghost use Rattle.chip_warnings.specs.Marked.{is_among, is_data_at, is_store, marked_by, names_at, places_named, places_of, has_store};
ghost use Rattle.chip_warnings.specs.inner.Noted.{flag, marked_in};

use crate::instruction::{jumps_by_table, leads_to_one, points, stores};
use crate::seen::Seen;
use chip_lang::limits::MEMORY_BYTES;
use std::alloc::{AllocError, Global};

/// The memory addresses that the instructions of a source name, the addresses where the source's data
/// begins, and whether the source writes to memory.
#[derive(Drop)]
pub(crate) struct Marks {
    /// For each address, whether a JP or CALL goes there, or a JP V0 may go there.
    jumped: Vec<bool>,
    /// For each address, whether some `LD I, a` names that address.
    pointed: Vec<bool>,
    /// For each address, the number of the line of data that begins there, or 0 if none does.
    data: Vec<usize>,
    /// Whether an instruction writes to memory.
    writes: bool,
    /// Whether the source may overwrite its instructions.
    pub(crate) writes_code: bool,
}

impl Marks {
    /// Returns the marks of the lines of a source.
    pub(crate) fn of(alloc: Global, lines: &[Seen]) -> Result<Marks, AllocError>
        ensures { IfOk result (λ marks. marked_in marks ≡ marked_by lines.now) }
    {
        let pointed = places_named(alloc, lines, Naming::Point)?;
        let jumped = places_named(alloc, lines, Naming::Jump)?;
        let data = places_of_data(alloc, lines)?;
        let writes = has_store(lines);
        let is_code_pointed = has_code_pointed(&pointed, lines);
        Ok(Marks {
            jumped,
            pointed,
            data,
            writes,
            writes_code: writes && is_code_pointed,
        })
    }

    /// Whether a JP or CALL goes to an address, or a JP V0 may go there.
    pub(crate) fn is_jumped(&self, address: usize) -> bool
        ensures { result ≡ (marked_in self.now).jumped address }
    {
        is_set(&self.jumped, address)
    }

    /// The number of the line of data that begins at an address. `None` if no data begins there, or if
    /// the program may have written there.
    pub(crate) fn data_at(&self, address: usize) -> Option<usize>
        ensures { is_some result ≡ (marked_in self.now).data_at address }
    {
        if self.writes && is_set(&self.pointed, address) {
            return None;
        }
        match self.data.get(address) {
            Some(number) if *number > 0 => Some(*number),
            _ => None,
        }
    }
}

/// The purpose for which an instruction names addresses.
#[derive(Clone, Copy)]
pub(crate) enum Naming {
    /// The instruction may go to the addresses.
    Jump,
    /// The instruction points at bytes at the addresses.
    Point,
}

/// Returns for each address whether some instruction names it for the purpose `naming`.
fn places_named(alloc: Global, lines: &[Seen], naming: Naming) -> Result<Vec<bool>, AllocError>
    ensures { IfOk result (λ flags.
        (a : ℕ) → flag flags.items a ≡ list_any (names_at naming a) lines.now) }
{
    let mut flags = vec![in alloc; false; MEMORY_BYTES]?;
    for seen in lines {
        mark(&mut flags, seen.says.target(), places_of(naming, seen));
    }
    Ok(flags)
}

/// Returns for each address the number of the line of data that begins there, or 0 if none does.
fn places_of_data(alloc: Global, lines: &[Seen]) -> Result<Vec<usize>, AllocError>
    ensures { IfOk result (λ numbers.
        (a : ℕ) → nat_lt 0 (slice_index numbers.items a) ≡ list_any (is_data_at a) lines.now) }
{
    let mut numbers = vec![in alloc; 0; MEMORY_BYTES]?;
    for (index, seen) in lines.iter().enumerate() {
        note_data(&mut numbers, index.saturating_add(1), seen);
    }
    Ok(numbers)
}

/// Stores the number of a line at the line's address, if the line is data and the address lies in memory.
fn note_data(numbers: &mut [usize], number: usize, seen: &Seen)
    requires size { length numbers.old ≡ MEMORY_BYTES }
    requires counted { 0 < number }
    ensures size { length numbers.new ≡ MEMORY_BYTES }
    ensures set { (a : ℕ) → nat_lt 0 (slice_index numbers.new a)
        ≡ (nat_lt 0 (slice_index numbers.old a) || is_data_at a seen.now) }
{
    if seen.says.is_data() && seen.address < numbers.len() {
        numbers[seen.address] = number;
    }
}

/// The number of consecutive addresses that an instruction names for a purpose, starting at the address in its word.
fn places_of(naming: Naming, seen: &Seen) -> usize
    ensures value { result ≡ places_of (places_named naming) (base_of seen.now.says) }
    ensures bound { result ≤ 256 }
{
    match (naming, seen.says.base()) {
        (Naming::Jump, Some(base)) if leads_to_one(base) => 1,
        (Naming::Jump, Some(base)) if jumps_by_table(base) => 256,
        (Naming::Point, Some(base)) if points(base) => 1,
        _ => 0,
    }
}

/// Whether some line is an instruction that writes to memory.
fn has_store(lines: &[Seen]) -> bool
    ensures { result ≡ has_store lines.now }
{
    lines.iter().any(is_store)
}

/// Whether a line is an instruction that writes to memory.
fn is_store(seen: &Seen) -> bool
    ensures { result ≡ is_store seen.now }
{
    match seen.says.base() {
        Some(base) => stores(base),
        None => false,
    }
}

/// Whether some line is an instruction with a byte at a flagged address.
fn has_code_pointed(flags: &[bool], lines: &[Seen]) -> bool
    ensures { result ≡ list_any (λ s. is_code s.says
        && (flag flags.now s.address || flag flags.now (s.address + 1))) lines.now }
{
    lines.iter().any(|seen| is_code_pointed(flags, seen))
}

/// Whether a line is an instruction with a byte at a flagged address.
fn is_code_pointed(flags: &[bool], seen: &Seen) -> bool
    ensures { result ≡ (is_code seen.now.says
        && (flag flags.now seen.now.address || flag flags.now (seen.now.address + 1))) }
{
    seen.says.is_code()
        && seen.address < flags.len()
        && (is_set(flags, seen.address) || is_set(flags, seen.address + 1))
}

/// Whether an address is flagged. Addresses past the last flag aren't flagged.
fn is_set(flags: &[bool], address: usize) -> bool
    ensures { result ≡ flag flags.now address }
{
    address < flags.len() && flags[address]
}

/// Sets the flags of the `count` addresses that start at `first`, except for addresses past the last flag.
fn mark(flags: &mut [bool], first: usize, count: usize)
    requires size { length flags.old ≡ MEMORY_BYTES }
    requires first { first < 4096 }
    requires count { count ≤ 256 }
    ensures size { length flags.new ≡ MEMORY_BYTES }
    ensures set { (a : ℕ) → flag flags.new a ≡ (flag flags.old a || is_among first count a) }
{
    for index in first..(first + count).min(flags.len()) {
        flags[index] = true;
    }
}
