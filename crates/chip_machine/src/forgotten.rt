//! The parts of a machine that a search forgets, and how a step changes the set of forgotten parts.

ghost use Rattle.std.specs.Prelude.{◌≡◌, ◌≢◌, ℕ, ◌+◌, ◌/◌, ◌<◌, ◌≤◌, [], ◌∷◌, true, false, not, Some, IsTrue, IfOk, IfSome, if◌then◌else◌};
ghost use Rattle.std.specs.List.{list_all};
ghost use Rattle.chip_machine.specs.Forgotten.{draws, far_part, flag_part, first_registers, has_byte, has_part, index_part, is_forgotten_by, is_in_row, loaded, needs, register_part, screen_part, sets, spoils, spoilt, stored, stored_part, uses, AreKept, AreWithin};
ghost use Rattle.chip_machine.specs.Step.{effect};
ghost use Rattle.chip_machine.specs.inner.Accesses.{from_or, loads, stores};
ghost use Rattle.chip_machine.specs.inner.Masks.{mask_of, IsSpoiltBy};

use crate::processor::Processor;
use crate::quirks::Quirks;
use chip_lang::instr::Instr;
use chip_lang::number::{Addr, Reg};
use std::marker::Model;

/// The mask of I.
const INDEX: u32 = 1;

/// The mask of the screen.
const SCREEN: u32 = 1 << 1;

/// The mask of the part that records whether I points at digits, even if the value of I is forgotten.
const FAR: u32 = 1 << 2;

/// The mask of VF.
const FLAG: u32 = 1 << 18;

/// The mask of all registers.
const REGISTERS: u32 = 0x7fff8;

/// The number of bytes of memory that can be forgotten at once, which is the size of one window.
pub const WINDOW_BYTES: u16 = 64;

/// The number of part numbers, including those of bytes.
pub const PARTS: u32 = PART_BITS + WINDOW_BYTES as u32;

/// The number of part numbers that come before those of bytes.
const PART_BITS: u32 = 32;

/// A set of forgotten parts and bytes: any of I, the screen and the registers, and any bytes of memory
/// within one window.
#[derive(Clone, Copy, PartialEq, Eq)]
pub struct Forgotten {
    /// I is bit 0, the screen is bit 1, whether I points at digits is bit 2, and Vx is bit x + 3.
    parts: u32,
    /// The first address of the window.
    window: u16,
    /// The byte at the first address of the window is bit 0, the next byte is bit 1, and so on.
    bytes: u64,
}

impl Model for Forgotten {
    ghost use Rattle.std.specs.Prelude.{ℕ};

    ghost Value = { ℕ };

    ghost use Rattle.chip_machine.specs.inner.Packed.{packed, unpacked, unpacked_packed, AreSmall};

    ghost view = { λ f. packed f.parts f.window f.bytes };

    ghost invariant = { λ f. AreSmall f.parts f.window };

    ghost inverse = { unpacked };

    ghost inverse_ok = { unpacked_packed };
}

impl Forgotten {
    /// The empty set.
    pub fn nothing() -> Forgotten
        ensures { result ≡ 0 }
    {
        Forgotten::parts_alone(0)
    }

    /// The set of I, the screen and all registers, without any byte.
    pub fn all() -> Forgotten {
        Forgotten::parts_alone(INDEX | SCREEN | FAR | REGISTERS)
    }

    /// The set that contains only I.
    pub fn index() -> Forgotten {
        Forgotten::parts_alone(INDEX | FAR)
    }

    /// The set that contains only the screen.
    pub fn screen() -> Forgotten {
        Forgotten::parts_alone(SCREEN)
    }

    /// The set that contains only one register.
    pub fn register(x: Reg) -> Forgotten {
        Forgotten::parts_alone(register(x))
    }

    /// The set of `count` bytes starting at an address. If `count` is above `WINDOW_BYTES`, only the first
    /// `WINDOW_BYTES` bytes are in the set.
    pub fn bytes(at: u16, count: u16) -> Forgotten {
        let missing = WINDOW_BYTES.saturating_sub(count);
        let bytes = u64::MAX.checked_shr(u32::from(missing)).unwrap_or(0);
        Forgotten {
            parts: 0,
            window: at,
            bytes,
        }
    }

    fn parts_alone(parts: u32) -> Forgotten
        ensures { result ≡ parts }
    {
        Forgotten {
            parts,
            window: 0,
            bytes: 0,
        }
    }

    /// True only if each part and byte of this set is also in `others`.
    pub fn is_within(self, others: Forgotten) -> bool
        ensures { IsTrue result → AreWithin self others }
    {
        let has_parts = self.parts | others.parts == others.parts;
        has_parts && self.has_bytes_within(others)
    }

    /// True only if each byte of this set is also in `others`.
    #[inline(always)]
    fn has_bytes_within(self, others: Forgotten) -> bool
        ensures { IsTrue result → (at : ℕ) → has_byte self at ≡ true → has_byte others at ≡ true }
    {
        if self.bytes == 0 {
            return true;
        }
        if self.window != others.window {
            return false;
        }
        self.bytes | others.bytes == others.bytes
    }

    /// The parts and bytes of this set that aren't in `others`.
    pub fn without(self, others: Forgotten) -> Forgotten {
        Forgotten {
            parts: self.parts & !others.parts,
            window: self.window,
            bytes: self.bytes & !others.bytes_from(self.window),
        }
    }

    /// The parts and bytes of this set that are also in `others`.
    pub fn shared_with(self, others: Forgotten) -> Forgotten {
        Forgotten {
            parts: self.parts & others.parts,
            window: self.window,
            bytes: self.bytes & others.bytes_from(self.window),
        }
    }

    /// The union of this set and `others`, without the bytes of `others` that lie outside the window. The
    /// window is that of this set if this set contains bytes, otherwise that of `others`.
    pub fn with(self, others: Forgotten) -> Forgotten {
        let window = if self.bytes == 0 {
            others.window
        } else {
            self.window
        };
        Forgotten {
            parts: self.parts | others.parts,
            window,
            bytes: self.bytes | others.bytes_from(window),
        }
    }

    /// The set of only the part or byte with this number if it is in this set; otherwise the empty set.
    pub fn alone(self, number: u32) -> Forgotten {
        let mut one = Forgotten {
            parts: 0,
            window: self.window,
            bytes: 0,
        };
        if number < PART_BITS {
            one.parts = self.parts & 1 << number;
        } else if number < PARTS {
            one.bytes = self.bytes & 1 << (number - PART_BITS);
        }
        one
    }

    /// Whether the set is empty.
    pub fn is_nothing(self) -> bool {
        self.parts == 0 && self.bytes == 0
    }

    /// The bits of the bytes, moved to another window. Bytes outside that window are lost.
    fn bytes_from(self, window: u16) -> u64 {
        let moved = if window >= self.window {
            self.bytes.checked_shr(u32::from(window - self.window))
        } else {
            self.bytes.checked_shl(u32::from(self.window - window))
        };
        moved.unwrap_or(0)
    }

    /// The first address of the window.
    pub fn window(self) -> u16 {
        self.window
    }

    /// Two numbers that distinguish this set from others. The contract claims nothing about them.
    pub fn numbers(self) -> (u64, u64) {
        let window = if self.bytes == 0 {
            0
        } else {
            u64::from(self.window)
        };
        (u64::from(self.parts) + (window << 32), self.bytes)
    }

    /// False only if no byte of the memory is in the set.
    #[inline(always)]
    pub fn has_bytes(self) -> bool
        ensures { result ≡ false → (at : ℕ) → has_byte self at ≡ false }
    {
        self.bytes != 0
    }

    /// Whether the byte at an address is in the set.
    #[inline(always)]
    pub fn has_byte(self, at: usize) -> bool
        ensures { result ≡ has_byte self at }
    {
        let window = self.window as usize;
        if at < window {
            return false;
        }
        let place = at - window;
        if place >= WINDOW_BYTES as usize {
            return false;
        }
        self.bytes >> place & 1 == 1
    }

    /// False only if none of the `count` bytes starting at an address is in the set.
    #[inline(always)]
    pub fn has_one_of(self, at: u16, count: u16) -> bool
        ensures { result ≡ false → AreKept self at count }
    {
        self.has_bytes() && self.has_one_between(at, count)
    }

    fn has_one_between(self, at: u16, count: u16) -> bool
        ensures { result ≡ false → AreKept self at count }
    {
        for place in 0..count {
            if self.has_byte(at as usize + place as usize) {
                return true;
            }
        }
        false
    }

    fn without_byte(self, at: usize) -> Forgotten
        ensures parts { (part : ℕ) → has_part result part ≡ has_part self part }
        ensures bytes { (k : ℕ) → has_byte self k ≡ true → k ≢ at → has_byte result k ≡ true }
    {
        let window = self.window as usize;
        if at < window {
            return self;
        }
        let place = at - window;
        if place >= WINDOW_BYTES as usize {
            return self;
        }
        Forgotten {
            bytes: self.bytes & !(1 << place),
            ..self
        }
    }

    /// Whether I is in the set.
    pub fn has_index(self) -> bool
        ensures { result ≡ has_part self index_part }
    {
        self.parts & 1 == 1
    }

    /// Whether the set contains the part that records whether I points at digits.
    pub fn has_far(self) -> bool
        ensures { result ≡ has_part self far_part }
    {
        self.parts >> 2 & 1 == 1
    }

    /// Whether the screen is in the set.
    pub fn has_screen(self) -> bool
        ensures { result ≡ has_part self screen_part }
    {
        self.parts >> 1 & 1 == 1
    }

    /// Whether a register is in the set.
    pub fn has_register(self, x: u8) -> bool
        ensures { x < 16 → result ≡ has_part self (register_part x) }
    {
        x < 16 && self.parts >> (x + 3) & 1 == 1
    }

    /// Whether no register is in the set.
    pub(crate) fn has_no_register(self) -> bool {
        self.parts & REGISTERS == 0
    }

    /// Returns what is forgotten after an instruction. `moved` is true if the instruction changed pc. If
    /// the instruction needs some of the forgotten parts, returns an error that contains those parts.
    #[inline(always)]
    pub(crate) fn after(
        self,
        instr: Instr,
        quirks: Quirks,
        moved: bool,
    ) -> Result<Forgotten, Forgotten>
        ensures unneeded { IfOk result (λ _.
            list_all (λ part. not (has_part self part)) (needs quirks instr) ≡ true) }
        ensures after { IfOk result (λ after. (part : ℕ)
            → is_forgotten_by self (sets quirks moved instr) (spoilt quirks self instr) part ≡ true
            → has_part after part ≡ true) }
        ensures bytes { IfOk result (λ after. (at : ℕ) → has_byte after at ≡ has_byte self at) }
    {
        let set = set_by(&instr, quirks, moved);
        let spoilt = self.spoilt_by(&instr, quirks);
        let needed = self.parts & needs_of(&instr, quirks);
        if needed != 0 {
            return Err(Forgotten::parts_alone(needed));
        }
        Ok(Forgotten {
            parts: self.parts & !set | spoilt,
            ..self
        })
    }

    /// The parts that an instruction spoils, if it uses a part of this set; otherwise none.
    #[inline(always)]
    fn spoilt_by(&self, instr: &Instr, quirks: Quirks) -> u32
        ensures { IsSpoiltBy result self.now (uses quirks instr.now) (spoils quirks instr.now) }
    {
        if self.parts & uses_of(instr, quirks) == 0 {
            0
        } else {
            spoils_of(instr, quirks)
        }
    }

    /// Returns this set, which is what else is forgotten after an instruction, updated for the bytes at I
    /// that the instruction reads and writes. `before` is what was forgotten before the instruction. The
    /// error contains the forgotten bytes that the instruction draws, or a forgotten register that it
    /// stores outside the window.
    #[inline]
    pub(crate) fn after_bytes(
        self,
        before: Forgotten,
        instr: &Instr,
        processor: &Processor,
    ) -> Result<Forgotten, Forgotten>
        ensures drawn { IfOk result (λ _. draws (Some instr.now) ≡ true
            → AreKept self processor.now.index (loaded (effect instr.now processor.now))) }
        ensures parts { IfOk result (λ after. (part : ℕ) → has_part self part ≡ true
            → has_part after part ≡ true) }
        ensures bytes { IfOk result (λ after. (at : ℕ) → has_byte self at ≡ true
            → is_in_row processor.now.index (stored (effect instr.now processor.now)) at ≡ false
            → has_byte after at ≡ true) }
        ensures loaded { IfOk result (λ after. (place : ℕ)
            → place < loaded (effect instr.now processor.now)
            → has_byte self (processor.now.index + place) ≡ true
            → has_part after (register_part place) ≡ true) }
        ensures stored { IfOk result (λ after. (place : ℕ)
            → place < stored (effect instr.now processor.now)
            → has_part before (stored_part (Some instr.now) place) ≡ true
            → has_byte after (processor.now.index + place) ≡ true) }
    {
        let loaded = self.after_load(instr, processor)?;
        let written = bytes_stored(instr, processor);
        if written == 0 {
            return Ok(loaded);
        }
        loaded.with_stored(before, processor.index(), written, digits_of(instr))
    }

    /// Returns this set, updated for the bytes at I that an instruction reads.
    #[inline(always)]
    fn after_load(self, instr: &Instr, processor: &Processor) -> Result<Forgotten, Forgotten>
        ensures drawn { IfOk result (λ _. draws (Some instr.now) ≡ true
            → AreKept self processor.now.index (loads processor.now instr.now)) }
        ensures parts { IfOk result (λ after. (part : ℕ) → has_part self part ≡ true
            → has_part after part ≡ true) }
        ensures bytes { IfOk result (λ after. (at : ℕ) → has_byte after at ≡ has_byte self at) }
        ensures loaded { IfOk result (λ after. (place : ℕ) → place < loads processor.now instr.now
            → has_byte self (processor.now.index + place) ≡ true
            → has_part after (register_part place) ≡ true) }
    {
        if !self.has_bytes() {
            return Ok(self);
        }
        let read = bytes_loaded(instr, processor);
        if !self.has_one_of(processor.index(), read) {
            return Ok(self);
        }
        match *instr {
            Instr::LoadRegisters(x) => Ok(self.with_loaded(processor.index(), x)),
            _ => Err(self.shared_with(Forgotten::bytes(processor.index(), read))),
        }
    }

    /// The set after V0 to Vx are loaded from an address.
    fn with_loaded(self, at: u16, x: Reg) -> Forgotten
        ensures parts { (part : ℕ) → has_part self part ≡ true → has_part result part ≡ true }
        ensures bytes { (k : ℕ) → has_byte result k ≡ has_byte self k }
        ensures loaded { (place : ℕ) → place < x + 1 → has_byte self (at + place) ≡ true
            → has_part result (register_part place) ≡ true }
    {
        let mut rest = self;
        for place in 0..u16::from(x.number()) + 1 {
            if self.has_byte(at as usize + place as usize) {
                rest = rest.with_register(place as u8);
            }
        }
        rest
    }

    fn with_register(self, x: u8) -> Forgotten
        requires { x < 16 }
        ensures parts { (part : ℕ) → has_part self part ≡ true → has_part result part ≡ true }
        ensures bytes { (k : ℕ) → has_byte result k ≡ has_byte self k }
        ensures register { has_part result (register_part x) ≡ true }
    {
        Forgotten {
            parts: self.parts | 1 << (x + 3),
            ..self
        }
    }

    /// The set after `count` bytes are stored at an address, either from V0 on or all from one register.
    /// Returns an error with a forgotten register if the byte that it is stored in lies outside the
    /// window.
    fn with_stored(
        self,
        before: Forgotten,
        at: u16,
        count: u16,
        digits_of: Option<u8>,
    ) -> Result<Forgotten, Forgotten>
        requires few { count ≤ 16 }
        requires range { IfSome digits_of (λ x. x < 16) }
        ensures parts { IfOk result (λ after. (part : ℕ)
            → has_part after part ≡ has_part self part) }
        ensures bytes { IfOk result (λ after. (k : ℕ) → has_byte self k ≡ true
            → is_in_row at count k ≡ false → has_byte after k ≡ true) }
        ensures stored { IfOk result (λ after. (place : ℕ) → place < count
            → has_part before (register_part (from_or digits_of place)) ≡ true
            → has_byte after (at + place) ≡ true) }
    {
        let mut rest = self;
        for place in 0..count {
            let register = from_or(digits_of, place as u8);
            let address = at as usize + place as usize;
            match rest.with_stored_byte(address, before.has_register(register)) {
                Some(after) => rest = after,
                None => return Err(before.shared_with(Forgotten::parts_alone(1 << (register + 3)))),
            }
        }
        Ok(rest)
    }

    /// The set after a byte, forgotten or not, is stored; `None` if the window can't cover the byte.
    fn with_stored_byte(self, at: usize, is_forgotten: bool) -> Option<Forgotten>
        ensures parts { IfSome result (λ after. (part : ℕ)
            → has_part after part ≡ has_part self part) }
        ensures bytes { IfSome result (λ after. (k : ℕ) → has_byte self k ≡ true → k ≢ at
            → has_byte after k ≡ true) }
        ensures stored { IfSome result (λ after. is_forgotten ≡ true
            → has_byte after at ≡ true) }
    {
        if is_forgotten {
            self.with_byte(at)
        } else {
            Some(self.without_byte(at))
        }
    }

    /// The set with one more byte; `None` if the window can't cover that byte.
    fn with_byte(self, at: usize) -> Option<Forgotten>
        ensures parts { IfSome result (λ after. (part : ℕ)
            → has_part after part ≡ has_part self part) }
        ensures bytes { IfSome result (λ after. (k : ℕ) → has_byte self k ≡ true
            → has_byte after k ≡ true) }
        ensures byte { IfSome result (λ after. has_byte after at ≡ true) }
    {
        let window = self.window as usize;
        if at < window {
            return None;
        }
        let place = at - window;
        if place >= WINDOW_BYTES as usize {
            return None;
        }
        Some(Forgotten {
            bytes: self.bytes | 1 << place,
            ..self
        })
    }
}

/// The given register, or the register with the number `place` if none is given.
fn from_or(register: Option<u8>, place: u8) -> u8
    ensures { result ≡ from_or register place }
{
    match register {
        Some(x) => x,
        None => place,
    }
}

/// The register whose decimal digits an instruction stores, if it stores any.
fn digits_of(instr: &Instr) -> Option<u8>
    ensures stored { (place : ℕ) → stored_part (Some instr.now) place
        ≡ register_part (from_or result place) }
    ensures range { IfSome result (λ x. x < 16) }
{
    match *instr {
        Instr::StoreDecimal(x) => Some(x.number()),
        _ => None,
    }
}

/// The number of bytes at I that an instruction reads.
#[tactic(auto, unfolding(crate::specs::inner::Accesses::loads))]
fn bytes_loaded(instr: &Instr, processor: &Processor) -> u16
    ensures { result ≡ loads processor.now instr.now }
{
    match *instr {
        Instr::Draw(_x, _y, n) => {
            if processor.draws_nothing(n) {
                0
            } else {
                processor.sprite_bytes(n) as u16
            }
        }
        Instr::LoadRegisters(x) => u16::from(x.number()) + 1,
        _ => 0,
    }
}

/// The number of bytes at I that an instruction writes.
#[tactic(auto, unfolding(crate::specs::inner::Accesses::stores))]
fn bytes_stored(instr: &Instr, processor: &Processor) -> u16
    ensures count { result ≡ stores processor.now instr.now }
    ensures few { result ≤ 16 }
{
    match *instr {
        Instr::StoreDecimal(_x) => 3,
        Instr::StoreRegisters(x) => {
            processor.registers()[..usize::from(x.number()) + 1].len() as u16
        }
        _ => 0,
    }
}

/// The parts that an instruction sets.
#[inline(always)]
#[tactic(auto, unfolding(crate::specs::Forgotten::sets))]
fn set_by(instr: &Instr, quirks: Quirks, moved: bool) -> u32
    ensures { result ≡ mask_of (sets quirks moved instr.now) }
{
    match *instr {
        Instr::ClearScreen => SCREEN,
        Instr::LowSize | Instr::HighSize => set_by_size(quirks),
        Instr::LoadByte(x, _) | Instr::Copy(x, _) | Instr::Random(x, _) => register(x),
        Instr::Or(x, _) | Instr::And(x, _) | Instr::Xor(x, _) => set_by_logic(x, quirks),
        Instr::Add(x, _) | Instr::Subtract(x, _) | Instr::SubtractFrom(x, _) => FLAG | register(x),
        Instr::ShiftRight(x, _) | Instr::ShiftLeft(x, _) => FLAG | register(x),
        Instr::LoadIndex(_) | Instr::SmallDigit(_) | Instr::BigDigit(_) => INDEX | FAR,
        Instr::Draw(_x, _y, _n) => FLAG,
        Instr::ReadDelay(x) => register(x),
        Instr::WaitKey(x) => { if moved { register(x) } else { 0 } }
        Instr::AddIndex(_x) => { if quirks.flags_overflow { FLAG } else { 0 } }
        Instr::LoadRegisters(x) | Instr::LoadFlags(x) => first_registers(x),
        _ => 0,
    }
}

/// The parts that an instruction needs.
#[inline(always)]
#[tactic(auto, unfolding(crate::specs::Forgotten::needs))]
fn needs_of(instr: &Instr, quirks: Quirks) -> u32
    ensures { result ≡ mask_of (needs quirks instr.now) }
{
    match *instr {
        Instr::SkipIfByte(x, _) | Instr::SkipUnlessByte(x, _) => register(x),
        Instr::SkipIfEqual(x, y) | Instr::SkipUnlessEqual(x, y) => registers(x, y),
        Instr::JumpOffset(address) => offset_register(address, quirks),
        Instr::Draw(_x, _y, _n) => FAR,
        Instr::SkipIfKey(x) | Instr::SkipUnlessKey(x) | Instr::SetDelay(x) => register(x),
        Instr::StoreDecimal(_) | Instr::StoreRegisters(_) | Instr::LoadRegisters(_) => INDEX | FAR,
        Instr::StoreFlags(x) => first_registers(x),
        _ => 0,
    }
}

/// The parts that an instruction uses.
#[inline(always)]
#[tactic(auto, unfolding(crate::specs::Forgotten::uses))]
fn uses_of(instr: &Instr, quirks: Quirks) -> u32
    ensures { result ≡ mask_of (uses quirks instr.now) }
{
    match *instr {
        Instr::Copy(_x, y) => register(y),
        Instr::Or(x, y) | Instr::And(x, y) | Instr::Xor(x, y) => registers(x, y),
        Instr::Add(x, y) | Instr::Subtract(x, y) | Instr::SubtractFrom(x, y) => registers(x, y),
        Instr::ShiftRight(x, y) | Instr::ShiftLeft(x, y) => shifted(x, y, quirks),
        Instr::Draw(x, y, _n) => INDEX | (SCREEN | registers(x, y)),
        Instr::AddIndex(x) => INDEX | register(x),
        Instr::SmallDigit(x) | Instr::BigDigit(x) => register(x),
        _ => 0,
    }
}

/// The parts that an instruction spoils if it uses a forgotten part.
#[tactic(auto, unfolding(crate::specs::Forgotten::spoils))]
fn spoils_of(instr: &Instr, quirks: Quirks) -> u32
    ensures { result ≡ mask_of (spoils quirks instr.now) }
{
    match *instr {
        Instr::Copy(x, _) => register(x),
        Instr::Or(x, _) | Instr::And(x, _) | Instr::Xor(x, _) => register(x),
        Instr::Add(x, _) | Instr::Subtract(x, _) | Instr::SubtractFrom(x, _) => FLAG | register(x),
        Instr::ShiftRight(x, _) | Instr::ShiftLeft(x, _) => FLAG | register(x),
        Instr::Draw(_x, _y, _n) => FLAG | SCREEN,
        Instr::AddIndex(_x) => spoilt_by_sum(quirks),
        Instr::SmallDigit(_) | Instr::BigDigit(_) => INDEX,
        _ => 0,
    }
}

/// The mask of the register that a shift of Vx and Vy uses.
#[inline(always)]
fn shifted(x: Reg, y: Reg, quirks: Quirks) -> u32
    ensures { result
        ≡ mask_of (register_part (if quirks.shifts_second then y else x) ∷ []) }
{
    if quirks.shifts_second {
        register(y)
    } else {
        register(x)
    }
}

/// The mask of the register that a jump with an offset needs: V0, or the register named by the top
/// digit of the address.
#[inline(always)]
fn offset_register(address: Addr, quirks: Quirks) -> u32
    ensures { result ≡ mask_of
        (register_part (if quirks.jumps_by_first then 0 else address / 256) ∷ []) }
{
    if quirks.jumps_by_first {
        1 << 3
    } else {
        1 << (address.number() / 256 + 3)
    }
}

/// The parts that an addition to I spoils. VF is one of them if the quirks make the addition set VF to
/// whether the sum is above 0FFF.
#[inline(always)]
fn spoilt_by_sum(quirks: Quirks) -> u32
    ensures { result ≡ mask_of (if quirks.flags_overflow then flag_part ∷ index_part ∷ far_part ∷ []
        else index_part ∷ far_part ∷ []) }
{
    if quirks.flags_overflow {
        FLAG | (INDEX | FAR)
    } else {
        INDEX | FAR
    }
}

/// The parts that a change of the screen's size sets.
#[inline(always)]
fn set_by_size(quirks: Quirks) -> u32
    ensures { result ≡ mask_of (if quirks.clears_at_size then screen_part ∷ [] else []) }
{
    if quirks.clears_at_size { SCREEN } else { 0 }
}

/// The parts that a logical operation into Vx sets.
#[inline(always)]
fn set_by_logic(x: Reg, quirks: Quirks) -> u32
    ensures { result ≡ mask_of (if quirks.clears_flag then flag_part ∷ register_part x ∷ []
        else register_part x ∷ []) }
{
    if quirks.clears_flag {
        FLAG | register(x)
    } else {
        register(x)
    }
}

/// The mask of one register.
#[inline(always)]
fn register(x: Reg) -> u32
    ensures { result ≡ mask_of (register_part x ∷ []) }
{
    1 << (x.number() + 3)
}

/// The mask of two registers.
#[inline(always)]
fn registers(x: Reg, y: Reg) -> u32
    ensures { result ≡ mask_of (register_part x ∷ register_part y ∷ []) }
{
    1 << (x.number() + 3) | 1 << (y.number() + 3)
}

/// The mask of V0 to Vx.
#[inline(always)]
fn first_registers(x: Reg) -> u32
    ensures { result ≡ mask_of (first_registers x) }
{
    (16 << x.number()) - 8
}
