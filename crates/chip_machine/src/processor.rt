//! The whole machine except its memory.

ghost use Rattle.std.specs.Prelude.{◌≡◌, ◌+◌, ◌*◌, ◌/◌, ◌-◌, ◌<◌, ◌≤◌, ◌^◌, ◌%◌, length, slice_index, OnOk, OnErr, IfOk, IfErr, IsOk, ◌↔◌, ◌==◌, ◌&&◌, not, false, if◌then◌else◌, IsTrue, ℕ, List};
ghost use Rattle.chip_machine.specs.Step.{reg, with_reg, with_flag, go_to, skip_if, next, call, return, with_index, random_byte, drawn, store_flags, load_flags, load_registers, index_past, shifted_register, offset_register, with_logic, with_sum, ticked, resized, scrolled_by, draws_nothing, has_wide_sixteen, with_lit, with_sprite, Effect, Stops, super_only};
ghost use Rattle.chip_machine.specs.inner.KeyRows.{choices_of};
ghost use Rattle.chip_machine.specs.Points.{is_lit, IsOnScreen, lights};
ghost use Rattle.chip_machine.specs.Sprite.{sprite_bytes};
ghost use Rattle.chip_machine.specs.Scroll.{scrolled_down, scrolled_right, scrolled_left};
ghost use Rattle.std.specs.FinSet as set;
ghost use Rattle.chip_machine.specs.Forgotten.{has_part, register_part};
ghost use Rattle.chip_machine.specs.Relevant.{Alike, AreNear, others};
ghost use Rattle.chip_machine.specs.State.{State};
ghost use Rattle.chip_machine.specs.Restored.{core_with_parts};
ghost use Rattle.chip_machine.specs.inner.Stored.{in_rows};
ghost use Rattle.chip_machine.specs.Start.{IsTape, start_core};

use crate::forgotten::Forgotten;
use crate::limits::{
    DIGITS_END, FLAGS, FRAMES, IMAGE_START, LAST_WORD, MEMORY_BYTES, SPRITE_BYTES, TAPE_BYTES,
};
use crate::parts::Parts;
use crate::quirks::{IndexMove, LowSixteen, Quirks};
use crate::screen::Screen;
use crate::sprite::scale_of;
use crate::stop::Stop;
use chip_lang::instr::Instr;
use chip_lang::number::{Addr, Nibble, Reg};
use std::alloc::{AllocError, Global};
use std::marker::Model;
use std::rc::RcSlice;

/// The registers and everything else in a machine except its memory.
#[derive(Drop)]
pub(crate) struct Processor {
    // declared before the registers, so that the compiler knows that a store to them leaves pc unchanged
    pc: u16,
    index: u16,
    registers: [u8; 16],
    frames: [u16; FRAMES],
    depth: usize,
    delay: u8,
    sound: u8,
    flags: [u8; FLAGS],
    /// Shared with the copies of this machine.
    tape: RcSlice<u8>,
    draws: u64,
    /// The position of the next random byte on the tape.
    place: usize,
    screen: Screen,
    high: bool,
    stopped: Option<Stop>,
    quirks: Quirks,
}

impl Model for Processor {
    ghost use Rattle.std.specs.Prelude.{◌≡◌, ◌<◌, ◌≤◌, ◌%◌, length, take};
    ghost use Rattle.std.specs.Rc.{rc_slice_items};
    ghost use Rattle.chip_machine.specs.State.{Core};
    ghost use Rattle.chip_machine.specs.inner.Codes.{core_code};
    ghost use Rattle.chip_machine.specs.declared.limits.TheConstants.{FRAMES, TAPE_BYTES};

    ghost Value = { Core };

    ghost coded = { core_code };

    ghost view = { λ p. record {
      registers = p.registers;
      index = p.index;
      pc = p.pc;
      frames = take p.depth p.frames;
      delay = p.delay;
      sound = p.sound;
      flags = p.flags;
      tape = rc_slice_items p.tape;
      draws = p.draws;
      lit = p.screen;
      high = p.high;
      stopped = p.stopped;
      quirks = p.quirks;
    } };

    ghost invariant = { λ p. (p.depth ≤ FRAMES)
        × (0 < length (rc_slice_items p.tape))
        × (length (rc_slice_items p.tape) ≤ TAPE_BYTES)
        × (p.place ≡ p.draws % length (rc_slice_items p.tape)) };
}

impl Processor {
    /// Returns the processor at the start: pc points at the image, and everything else is 0. Fails only if
    /// memory runs out.
    pub(crate) fn new(alloc: Global, tape: &[u8], quirks: Quirks) -> Result<Self, AllocError>
        requires { IsTape tape.now }
        ensures { IfOk result (λ processor. processor ≡ start_core tape.now quirks) }
    {
        let tape = RcSlice::from_slice(alloc, tape)?;
        let screen = Screen::new(alloc)?;
        Ok(Processor {
            registers: [0; 16],
            index: 0,
            pc: IMAGE_START as u16,
            frames: [0; FRAMES],
            depth: 0,
            delay: 0,
            sound: 0,
            flags: [0; FLAGS],
            tape,
            draws: 0,
            place: 0,
            screen,
            high: false,
            stopped: None,
            quirks,
        })
    }

    /// Returns a copy. Fails only if memory runs out.
    pub(crate) fn copy_of(&self) -> Result<Self, AllocError>
        ensures { IfOk result (λ copy. copy ≡ self.now) }
    {
        Ok(Processor {
            registers: self.registers,
            index: self.index,
            pc: self.pc,
            frames: self.frames,
            depth: self.depth,
            delay: self.delay,
            sound: self.sound,
            flags: self.flags,
            tape: self.tape.clone()?,
            draws: self.draws,
            place: self.place,
            screen: self.screen.copy_of()?,
            high: self.high,
            stopped: self.stopped,
            quirks: self.quirks,
        })
    }

    /// Copies the state of another processor into this one. If memory runs out, fails and changes nothing.
    pub(crate) fn copy_from(&mut self, other: &Processor) -> Result<(), AllocError>
        ensures ok { OnOk result (self.new ≡ other.now) }
        ensures err { OnErr result (self.new ≡ self.old) }
    {
        self.tape = other.tape.clone()?;
        self.registers = other.registers;
        self.index = other.index;
        self.pc = other.pc;
        self.frames = other.frames;
        self.depth = other.depth;
        self.delay = other.delay;
        self.sound = other.sound;
        self.flags = other.flags;
        self.draws = other.draws;
        self.place = other.place;
        self.screen.copy_from(&other.screen);
        self.high = other.high;
        self.stopped = other.stopped;
        self.quirks = other.quirks;
        Ok(())
    }

    /// The position of the next random byte on the tape.
    pub(crate) fn place(&self) -> usize
        ensures place { result ≡ self.now.draws % length self.now.tape }
        ensures in_range { result < TAPE_BYTES }
    {
        self.place
    }

    /// Restores these parts, sets the sound timer to 0 and clears the stop cause.
    pub(crate) fn restore(&mut self, parts: &Parts)
        requires { parts.now.depth ≤ FRAMES }
        ensures { self.new ≡ core_with_parts parts.now self.old }
    {
        self.registers = parts.registers;
        self.index = parts.index;
        self.pc = parts.pc;
        self.frames = parts.frames;
        self.depth = parts.depth as usize;
        self.delay = parts.delay;
        self.sound = 0;
        self.flags = parts.flags;
        self.draws = u64::from(parts.draws);
        self.place = parts.draws as usize % self.tape.len();
        self.high = parts.high;
        self.stopped = None;
    }

    /// Replaces the screen's pixels with these rows.
    pub(crate) fn set_rows(&mut self, rows: &[u128])
        requires { length rows.now ≡ 64 }
        ensures { self.new ≡ with_lit (in_rows rows.now) self.old }
    {
        self.screen.set_rows(rows);
    }

    /// True only if this processor and `other` agree in everything that later steps depend on, given the
    /// forgotten parts.
    pub(crate) fn is_alike(&self, other: &Processor, forgotten: Forgotten) -> bool
        ensures { IsTrue result → (memory : List ℕ) → length memory ≡ MEMORY_BYTES
            → Alike forgotten (record { core = self.now; memory = memory })
            (record { core = other.now; memory = memory }) }
    {
        self.has_same_others(other)
            && (forgotten.has_index() || self.index == other.index)
            && (forgotten.has_far() || are_near(self.index, other.index))
            && have_same_values(self.registers(), other.registers(), forgotten)
            && (forgotten.has_screen() || self.screen.is_same(&other.screen))
    }

    /// True only if this processor and `other` agree in everything that can't be forgotten.
    fn has_same_others(&self, other: &Processor) -> bool
        ensures others { IsTrue result → others self.now ≡ others other.now }
        ensures draws { IsTrue result → self.now.draws % length self.now.tape
            ≡ other.now.draws % length other.now.tape }
    {
        self.pc == other.pc
            && self.frames() == other.frames()
            && self.delay == other.delay
            && self.flags == other.flags
            && self.tape == other.tape
            && self.place == other.place
            && self.high == other.high
            && self.stopped == other.stopped
            && self.quirks.is_same(other.quirks)
    }

    /// The value of a register.
    pub(crate) fn reg(&self, x: Reg) -> u8
        ensures { result ≡ reg self.now x }
    {
        self.registers[x.number() as usize]
    }

    /// Sets a register.
    pub(crate) fn set(&mut self, x: Reg, value: u8)
        ensures { self.new ≡ with_reg x value self.old }
    {
        self.registers[x.number() as usize] = value;
    }

    /// Sets a register and then VF, which is written last.
    pub(crate) fn set_with_flag(&mut self, x: Reg, value: u8, flag: u8)
        ensures { self.new ≡ with_flag x value flag self.old }
    {
        self.registers[x.number() as usize] = value;
        self.registers[15] = flag;
    }

    /// Returns a stop if the machine lacks the instructions that SUPER-CHIP added.
    pub(crate) fn needs_super_instructions(&self) -> Result<(), Stop>
        ensures ok { OnOk result ((effect : Effect) → super_only self.now effect ≡ effect) }
        ensures why { IfErr result (λ why. (effect : Effect)
            → super_only self.now effect ≡ Stops why) }
    {
        if self.quirks.has_super_instructions {
            Ok(())
        } else {
            Err(Stop::NoInstruction)
        }
    }

    /// The value that a shift of Vx and Vy shifts: that of Vx or of Vy, depending on the quirks.
    pub(crate) fn shifted(&self, x: Reg, y: Reg) -> u8
        ensures { result ≡ reg self.now (shifted_register x y self.now) }
    {
        if self.quirks.shifts_second {
            self.reg(y)
        } else {
            self.reg(x)
        }
    }

    /// The value that a jump adds to its address: that of V0, or of the register that the top digit of the
    /// address names.
    pub(crate) fn jump_offset(&self, address: Addr) -> u8
        ensures { result ≡ reg self.now (offset_register address self.now) }
    {
        if self.quirks.jumps_by_first {
            self.registers[0]
        } else {
            self.registers[address.number() as usize / 256]
        }
    }

    /// The quirks of the machine.
    #[inline(always)]
    pub(crate) fn quirks(&self) -> Quirks
        ensures { result ≡ self.now.quirks }
    {
        self.quirks
    }

    /// Sets a register to the result of a logical operation. VF stays or becomes 0, depending on the quirks.
    pub(crate) fn set_logic(&mut self, x: Reg, value: u8)
        ensures { self.new ≡ with_logic x value self.old }
    {
        if self.quirks.clears_flag {
            self.set_with_flag(x, value, 0);
        } else {
            self.set(x, value);
        }
    }

    /// Adds a number to I. Depending on the quirks, VF stays or is set to whether the sum is above 0FFF.
    pub(crate) fn add_index(&mut self, value: u8)
        ensures { self.new ≡ with_sum value self.old }
    {
        let sum = u32::from(self.index) + u32::from(value);
        self.index = self.index.wrapping_add(u16::from(value));
        if self.quirks.flags_overflow {
            self.registers[15] = u8::from(sum > 0x0FFF);
        }
    }

    /// Updates I after V0 to Vx were moved to or from memory. I stays or advances, depending on the quirks.
    pub(crate) fn finish_move(&mut self, x: Reg)
        ensures { self.new
            ≡ with_index (index_past self.old.quirks.index_move x self.old.index) self.old }
    {
        match self.quirks.index_move {
            IndexMove::Stays => {}
            IndexMove::AtLast => self.index = self.index.wrapping_add(u16::from(x.number())),
            IndexMove::PastLast => self.index = self.index.wrapping_add(u16::from(x.number()) + 1),
        }
    }

    /// Whether a sprite draws nothing. True if the row count is 0 in the low size, unless the quirks make
    /// that sixteen rows.
    pub(crate) fn draws_nothing(&self, n: Nibble) -> bool
        ensures { result ≡ draws_nothing n self.now }
    {
        n.number() == 0
            && !self.high
            && match self.quirks.low_sixteen {
                LowSixteen::Nothing => true,
                LowSixteen::Narrow | LowSixteen::Wide => false,
            }
    }

    /// The number of bytes of a sprite of `n` rows. If `n` is 0, the sprite has sixteen rows, which may be
    /// wide.
    pub(crate) fn sprite_bytes(&self, n: Nibble) -> usize
        ensures value { result ≡ sprite_bytes (has_wide_sixteen self.now) n }
        ensures few { result ≤ SPRITE_BYTES }
    {
        match n.number() {
            0 if self.has_wide_sixteen() => SPRITE_BYTES,
            0 => 16,
            rows => rows as usize,
        }
    }

    /// Whether each row of a sixteen-row sprite is 16 pixels wide.
    fn has_wide_sixteen(&self) -> bool
        ensures { result ≡ has_wide_sixteen self.now }
    {
        self.high
            || match self.quirks.low_sixteen {
                LowSixteen::Wide => true,
                LowSixteen::Nothing | LowSixteen::Narrow => false,
            }
    }

    /// The number of stored rows or columns that a scroll by `n` moves pixels.
    pub(crate) fn scrolled_by(&self, n: u8) -> usize
        ensures value { result ≡ scrolled_by n self.now }
        ensures few { result ≤ 2 * n }
    {
        if self.quirks.scrolls_whole {
            scale_of(self.high) * n as usize
        } else {
            n as usize
        }
    }

    /// The allowed keys that an instruction can distinguish.
    #[inline(always)]
    pub(crate) fn choices(&self, allowed: u16, instr: Instr) -> u16
        ensures { result ≡ choices_of allowed instr self.now }
    {
        match instr {
            Instr::SkipIfKey(x) => allowed & self.key_of(x),
            Instr::SkipUnlessKey(x) => allowed & self.key_of(x),
            Instr::WaitKey(_x) => allowed,
            _ => 0,
        }
    }

    /// The mask of the key that a register names.
    #[inline(always)]
    fn key_of(&self, x: Reg) -> u16
        ensures { result ≡ 2 ^ (reg self.now x % 16) }
    {
        1 << (self.reg(x) % 16)
    }

    /// Sets pc to an address.
    pub(crate) fn go_to(&mut self, address: u16)
        ensures { self.new ≡ go_to address self.old }
    {
        self.pc = address;
    }

    /// Moves pc to the next instruction.
    pub(crate) fn advance(&mut self)
        requires { self.old.pc ≤ LAST_WORD }
        ensures { self.new ≡ next self.old }
    {
        self.pc += 2;
    }

    /// Moves pc to the next instruction, or past that instruction if `test` is true.
    pub(crate) fn skip_if(&mut self, test: bool)
        requires { self.old.pc ≤ LAST_WORD }
        ensures { self.new ≡ skip_if test self.old }
    {
        self.pc += if test { 4 } else { 2 };
    }

    /// V0 to VF.
    pub(crate) fn registers(&self) -> &[u8]
        ensures value { result.now ≡ self.now.registers }
        ensures size { length result.now ≡ 16 }
    {
        &self.registers
    }

    /// The register I.
    pub(crate) fn index(&self) -> u16
        ensures { result ≡ self.now.index }
    {
        self.index
    }

    /// Sets the register I.
    pub(crate) fn set_index(&mut self, value: u16)
        ensures { self.new ≡ with_index value self.old }
    {
        self.index = value;
    }

    /// Sets the delay timer.
    pub(crate) fn set_delay(&mut self, value: u8)
        ensures { self.new ≡ record self.old { delay = value } }
    {
        self.delay = value;
    }

    /// Sets the sound timer.
    pub(crate) fn set_sound(&mut self, value: u8)
        ensures { self.new ≡ record self.old { sound = value } }
    {
        self.sound = value;
    }

    /// The value of the delay timer.
    pub(crate) fn delay(&self) -> u8
        ensures { result ≡ self.now.delay }
    {
        self.delay
    }

    /// The return addresses of the open calls, the oldest first.
    pub(crate) fn frames(&self) -> &[u16]
        ensures value { result.now ≡ self.now.frames }
        ensures at_most { length result.now ≤ FRAMES }
    {
        &self.frames[..self.depth]
    }

    /// Calls the code at an address.
    pub(crate) fn call(&mut self, address: u16)
        requires next { self.old.pc ≤ LAST_WORD }
        requires room { length self.old.frames < FRAMES }
        ensures { self.new ≡ call address self.old }
    {
        self.frames[self.depth] = self.pc + 2;
        self.depth += 1;
        self.pc = address;
    }

    /// Jumps to the newest return address, and removes it from the call stack.
    pub(crate) fn leave(&mut self)
        requires { 0 < length self.old.frames }
        ensures { self.new ≡ return self.old }
    {
        self.depth -= 1;
        self.pc = self.frames[self.depth];
    }

    /// Returns the next random byte and counts it as used.
    pub(crate) fn draw_random(&mut self) -> u8
        ensures value { result ≡ random_byte self.old }
        ensures after { self.new ≡ drawn self.old }
    {
        let tape = self.tape.as_slice();
        let drawn = tape[self.place];
        if self.draws < u64::MAX {
            self.draws += 1;
            self.place = next_place(self.place, tape.len());
        }
        drawn
    }

    /// Copies the registers up to x into the flag registers.
    pub(crate) fn store_flags(&mut self, x: Reg)
        requires { x < FLAGS }
        ensures { self.new ≡ store_flags x self.old }
    {
        let count = x.number() as usize + 1;
        let registers = self.registers;
        self.flags[..count].copy_from_slice(&registers[..count]);
    }

    /// Copies the flag registers up to x into the registers.
    pub(crate) fn load_flags(&mut self, x: Reg)
        requires { x < FLAGS }
        ensures { self.new ≡ load_flags x self.old }
    {
        let count = x.number() as usize + 1;
        let flags = self.flags;
        self.registers[..count].copy_from_slice(&flags[..count]);
    }

    /// Sets the first registers to these bytes, starting with V0.
    pub(crate) fn load(&mut self, bytes: &[u8])
        requires { length bytes.now ≤ 16 }
        ensures { self.new ≡ load_registers self.old bytes.now }
    {
        self.registers[..bytes.len()].copy_from_slice(bytes);
    }

    /// Whether a pixel of the screen is lit.
    pub(crate) fn lit(&self, column: usize, row: usize) -> bool
        ensures member { result ≡ is_lit self.now.lit column row }
        ensures on_screen { IsOnScreen self.now.lit }
    {
        self.screen.lit(column, row)
    }

    /// The pixels of a row of the screen; the leftmost pixel is the highest bit.
    pub(crate) fn row(&self, row: usize) -> u128
        ensures points { (column : ℕ) → column < 128
            → lights result column ≡ is_lit self.now.lit column row }
        ensures dark { (result ≡ 0)
            ↔ ((column : ℕ) → column < 128 → is_lit self.now.lit column row ≡ false) }
    {
        self.screen.row(row)
    }

    /// Whether the screen has its high size.
    pub(crate) fn high(&self) -> bool
        ensures { result ≡ self.now.high }
    {
        self.high
    }

    /// Sets the size of the screen. The pixels stay or become dark, depending on the quirks.
    pub(crate) fn resize(&mut self, high: bool)
        ensures { self.new ≡ resized high self.old }
    {
        if self.quirks.clears_at_size {
            self.screen.clear();
        }
        self.high = high;
    }

    /// Makes every pixel dark.
    pub(crate) fn clear(&mut self)
        ensures { self.new ≡ with_lit set.empty self.old }
    {
        self.screen.clear();
    }

    /// Moves every pixel down by this many rows.
    pub(crate) fn scroll_down(&mut self, rows: usize)
        ensures { self.new ≡ with_lit (scrolled_down rows self.old.lit) self.old }
    {
        self.screen.scroll_down(rows);
    }

    /// Moves every pixel right by this many columns.
    pub(crate) fn scroll_right(&mut self, columns: usize)
        requires { columns ≤ 8 }
        ensures { self.new ≡ with_lit (scrolled_right columns self.old.lit) self.old }
    {
        self.screen.scroll_right(columns);
    }

    /// Moves every pixel left by this many columns.
    pub(crate) fn scroll_left(&mut self, columns: usize)
        requires { columns ≤ 8 }
        ensures { self.new ≡ with_lit (scrolled_left columns self.old.lit) self.old }
    {
        self.screen.scroll_left(columns);
    }

    /// Clears VF.
    pub(crate) fn clear_flag(&mut self)
        ensures { self.new ≡ with_reg 15 0 self.old }
    {
        self.registers[15] = 0;
    }

    /// Draws a sprite, whose number of rows follows from its length, and sets VF to whether it covers a
    /// pixel that was lit.
    #[inline(always)]
    pub(crate) fn draw(&mut self, x: u8, y: u8, sprite: &[u8])
        ensures { (n : ℕ) → n < 16
            → length sprite.now ≡ sprite_bytes (has_wide_sixteen self.old) n
            → self.new ≡ with_sprite x y n sprite.now self.old }
    {
        let hit = self.screen.draw(self.quirks.wraps, self.high, x, y, sprite);
        self.registers[15] = u8::from(hit);
    }

    /// The address of the next instruction.
    pub(crate) fn pc(&self) -> u16
        ensures { result ≡ self.now.pc }
    {
        self.pc
    }

    /// Why the machine stopped, if it did.
    pub(crate) fn stopped(&self) -> Option<Stop>
        ensures { result ≡ self.now.stopped }
    {
        self.stopped
    }

    /// Stops the machine.
    pub(crate) fn stop(&mut self, why: Stop)
        ensures { self.new ≡ record self.old { stopped = Some why } }
    {
        self.stopped = Some(why);
    }

    /// Subtracts 1 from each timer above 0.
    pub(crate) fn tick(&mut self)
        ensures { self.new ≡ ticked self.old }
    {
        self.delay = self.delay.saturating_sub(1);
        self.sound = self.sound.saturating_sub(1);
    }

    /// The value of the sound timer.
    pub(crate) fn sound(&self) -> u8
        ensures { result ≡ self.now.sound }
    {
        self.sound
    }

    /// The eight flag registers.
    pub(crate) fn flags(&self) -> &[u8]
        ensures value { result.now ≡ self.now.flags }
        ensures size { length result.now ≡ FLAGS }
    {
        &self.flags
    }

    /// The number of random bytes used.
    pub(crate) fn draws(&self) -> u64
        ensures { result ≡ self.now.draws }
    {
        self.draws
    }
}

/// True only if two values of I are equal or both point at digits.
fn are_near(mine: u16, theirs: u16) -> bool
    ensures { IsTrue result → AreNear mine theirs }
{
    mine == theirs || mine < DIGITS_END && theirs < DIGITS_END
}

/// True only if two machines have equal values in each register that isn't forgotten.
#[inline]
fn have_same_values(mine: &[u8], theirs: &[u8], forgotten: Forgotten) -> bool
    requires sixteen { length mine.now ≡ 16 }
    requires as_many { length theirs.now ≡ 16 }
    ensures { IsTrue result → (x : ℕ) → has_part forgotten (register_part x) ≡ false
        → slice_index mine.now x ≡ slice_index theirs.now x }
{
    if forgotten.has_no_register() {
        return mine == theirs;
    }
    for x in 0..16_u8 {
        let differs = mine[x as usize] != theirs[x as usize];
        if differs && !forgotten.has_register(x) {
            return false;
        }
    }
    true
}

/// The next position on a tape. The last position is followed by the first.
#[inline(always)]
fn next_place(place: usize, tape_len: usize) -> usize
    requires { place < tape_len }
    ensures { (draws : ℕ) → place ≡ draws % tape_len → result ≡ (draws + 1) % tape_len }
{
    if place + 1 == tape_len { 0 } else { place + 1 }
}
