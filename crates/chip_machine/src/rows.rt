//! One method for each row of the instruction table.

ghost use Rattle.std.specs.Prelude.{◌≡◌, ◌≤◌, length};
ghost use Rattle.chip_machine.specs.Step.{effect, Changes, Stops};
ghost use Rattle.chip_machine.specs.inner.Performs.{Accessing, Changing, Asking};

use crate::keys::{is_down, least_down};
use crate::limits::{FLAGS, FRAMES, LAST_WORD, MEMORY_BYTES};
use crate::memory::{load, store};
use crate::processor::Processor;
use crate::stop::Stop;
use crate::touch::Span;
use chip_lang::instr::Instr;
use chip_lang::number::{Addr, Nibble, Reg};

#[tactic(auto, unfolding(crate::specs::Step::effect))]
impl Processor {
    /// `1NNN`, `JP a`: jumps to a.
    pub(crate) fn row_jump(&mut self, address: Addr)
        ensures { effect (Instr.Jump address) self.old ≡ Changes self.new }
    {
        self.go_to(address.number());
    }

    /// `3XKK`, `SE Vx, kk`: skips the next instruction if Vx is kk.
    pub(crate) fn row_skip_if_byte(&mut self, x: Reg, byte: u8)
        requires { self.old.pc ≤ LAST_WORD }
        ensures { effect (Instr.SkipIfByte x byte) self.old ≡ Changes self.new }
    {
        let same = self.reg(x) == byte;
        self.skip_if(same);
    }

    /// `4XKK`, `SNE Vx, kk`: skips the next instruction if Vx is not kk.
    pub(crate) fn row_skip_unless_byte(&mut self, x: Reg, byte: u8)
        requires { self.old.pc ≤ LAST_WORD }
        ensures { effect (Instr.SkipUnlessByte x byte) self.old ≡ Changes self.new }
    {
        let same = self.reg(x) == byte;
        self.skip_if(!same);
    }

    /// `5XY0`, `SE Vx, Vy`: skips the next instruction if Vx is Vy.
    pub(crate) fn row_skip_if_equal(&mut self, x: Reg, y: Reg)
        requires { self.old.pc ≤ LAST_WORD }
        ensures { effect (Instr.SkipIfEqual x y) self.old ≡ Changes self.new }
    {
        let same = self.reg(x) == self.reg(y);
        self.skip_if(same);
    }

    /// `9XY0`, `SNE Vx, Vy`: skips the next instruction if Vx is not Vy.
    pub(crate) fn row_skip_unless_equal(&mut self, x: Reg, y: Reg)
        requires { self.old.pc ≤ LAST_WORD }
        ensures { effect (Instr.SkipUnlessEqual x y) self.old ≡ Changes self.new }
    {
        let same = self.reg(x) == self.reg(y);
        self.skip_if(!same);
    }

    /// `6XKK`, `LD Vx, kk`: Vx becomes kk.
    pub(crate) fn row_load_byte(&mut self, x: Reg, byte: u8)
        requires { self.old.pc ≤ LAST_WORD }
        ensures { effect (Instr.LoadByte x byte) self.old ≡ Changes self.new }
    {
        self.set(x, byte);
        self.advance();
    }

    /// `7XKK`, `ADD Vx, kk`: adds kk to Vx and leaves VF unchanged, unless Vx is VF.
    pub(crate) fn row_add_byte(&mut self, x: Reg, byte: u8)
        requires { self.old.pc ≤ LAST_WORD }
        ensures { effect (Instr.AddByte x byte) self.old ≡ Changes self.new }
    {
        let sum = self.reg(x).wrapping_add(byte);
        self.set(x, sum);
        self.advance();
    }

    /// `8XY0`, `LD Vx, Vy`: Vx becomes Vy.
    pub(crate) fn row_copy(&mut self, x: Reg, y: Reg)
        requires { self.old.pc ≤ LAST_WORD }
        ensures { effect (Instr.Copy x y) self.old ≡ Changes self.new }
    {
        let value = self.reg(y);
        self.set(x, value);
        self.advance();
    }

    /// `8XY1`, `OR Vx, Vy`: Vx becomes the bitwise or of Vx and Vy; VF stays or becomes 0.
    pub(crate) fn row_or(&mut self, x: Reg, y: Reg)
        requires { self.old.pc ≤ LAST_WORD }
        ensures { effect (Instr.Or x y) self.old ≡ Changes self.new }
    {
        let value = self.reg(x) | self.reg(y);
        self.set_logic(x, value);
        self.advance();
    }

    /// `8XY2`, `AND Vx, Vy`: Vx becomes the bitwise and of Vx and Vy; VF stays or becomes 0.
    pub(crate) fn row_and(&mut self, x: Reg, y: Reg)
        requires { self.old.pc ≤ LAST_WORD }
        ensures { effect (Instr.And x y) self.old ≡ Changes self.new }
    {
        let value = self.reg(x) & self.reg(y);
        self.set_logic(x, value);
        self.advance();
    }

    /// `8XY3`, `XOR Vx, Vy`: Vx becomes the exclusive or of Vx and Vy; VF stays or becomes 0.
    pub(crate) fn row_xor(&mut self, x: Reg, y: Reg)
        requires { self.old.pc ≤ LAST_WORD }
        ensures { effect (Instr.Xor x y) self.old ≡ Changes self.new }
    {
        let value = self.reg(x) ^ self.reg(y);
        self.set_logic(x, value);
        self.advance();
    }

    /// `8XY4`, `ADD Vx, Vy`: adds Vy to Vx; VF becomes 1 if the sum is above 255, otherwise 0.
    pub(crate) fn row_add(&mut self, x: Reg, y: Reg)
        requires { self.old.pc ≤ LAST_WORD }
        ensures { effect (Instr.Add x y) self.old ≡ Changes self.new }
    {
        let left = self.reg(x);
        let right = self.reg(y);
        let passes = left > u8::MAX - right;
        self.set_with_flag(x, left.wrapping_add(right), u8::from(passes));
        self.advance();
    }

    /// `8XY5`, `SUB Vx, Vy`: subtracts Vy from Vx; VF becomes 1 if Vx was at least Vy, otherwise 0.
    pub(crate) fn row_subtract(&mut self, x: Reg, y: Reg)
        requires { self.old.pc ≤ LAST_WORD }
        ensures { effect (Instr.Subtract x y) self.old ≡ Changes self.new }
    {
        let left = self.reg(x);
        let right = self.reg(y);
        self.set_with_flag(x, left.wrapping_sub(right), u8::from(left >= right));
        self.advance();
    }

    /// `8XY7`, `SUBN Vx, Vy`: Vx becomes Vy minus Vx; VF becomes 1 if Vy was at least Vx, otherwise 0.
    pub(crate) fn row_subtract_from(&mut self, x: Reg, y: Reg)
        requires { self.old.pc ≤ LAST_WORD }
        ensures { effect (Instr.SubtractFrom x y) self.old ≡ Changes self.new }
    {
        let left = self.reg(x);
        let right = self.reg(y);
        self.set_with_flag(x, right.wrapping_sub(left), u8::from(right >= left));
        self.advance();
    }

    /// `8XY6`, `SHR Vx, Vy`: Vx becomes Vx or Vy shifted right by one bit, and VF becomes the bit that was
    /// shifted out.
    pub(crate) fn row_shift_right(&mut self, x: Reg, y: Reg)
        requires { self.old.pc ≤ LAST_WORD }
        ensures { effect (Instr.ShiftRight x y) self.old ≡ Changes self.new }
    {
        let value = self.shifted(x, y);
        self.set_with_flag(x, value >> 1, value % 2);
        self.advance();
    }

    /// `8XYE`, `SHL Vx, Vy`: Vx becomes Vx or Vy shifted left by one bit, and VF becomes the bit that was
    /// shifted out.
    pub(crate) fn row_shift_left(&mut self, x: Reg, y: Reg)
        requires { self.old.pc ≤ LAST_WORD }
        ensures { effect (Instr.ShiftLeft x y) self.old ≡ Changes self.new }
    {
        let value = self.shifted(x, y);
        self.set_with_flag(x, value << 1, value >> 7);
        self.advance();
    }

    /// `ANNN`, `LD I, a`: I becomes a.
    pub(crate) fn row_load_index(&mut self, address: Addr)
        requires { self.old.pc ≤ LAST_WORD }
        ensures { effect (Instr.LoadIndex address) self.old ≡ Changes self.new }
    {
        self.set_index(address.number());
        self.advance();
    }

    /// `BNNN`, `JP V0, a`: jumps to a + Vx, where x is 0 or the top digit of a.
    pub(crate) fn row_jump_offset(&mut self, address: Addr)
        ensures { effect (Instr.JumpOffset address) self.old ≡ Changes self.new }
    {
        let offset = self.jump_offset(address);
        self.go_to(address.number() + u16::from(offset));
    }

    /// `CXKK`, `RND Vx, kk`: Vx becomes the next random byte, masked with kk.
    pub(crate) fn row_random(&mut self, x: Reg, byte: u8)
        requires { self.old.pc ≤ LAST_WORD }
        ensures { effect (Instr.Random x byte) self.old ≡ Changes self.new }
    {
        let drawn = self.draw_random();
        self.set(x, drawn & byte);
        self.advance();
    }

    /// `FX07`, `LD Vx, DT`: Vx becomes the delay timer.
    pub(crate) fn row_read_delay(&mut self, x: Reg)
        requires { self.old.pc ≤ LAST_WORD }
        ensures { effect (Instr.ReadDelay x) self.old ≡ Changes self.new }
    {
        let value = self.delay();
        self.set(x, value);
        self.advance();
    }

    /// `FX15`, `LD DT, Vx`: the delay timer becomes Vx.
    pub(crate) fn row_set_delay(&mut self, x: Reg)
        requires { self.old.pc ≤ LAST_WORD }
        ensures { effect (Instr.SetDelay x) self.old ≡ Changes self.new }
    {
        let value = self.reg(x);
        self.set_delay(value);
        self.advance();
    }

    /// `FX18`, `LD ST, Vx`: the sound timer becomes Vx.
    pub(crate) fn row_set_sound(&mut self, x: Reg)
        requires { self.old.pc ≤ LAST_WORD }
        ensures { effect (Instr.SetSound x) self.old ≡ Changes self.new }
    {
        let value = self.reg(x);
        self.set_sound(value);
        self.advance();
    }

    /// `FX1E`, `ADD I, Vx`: adds Vx to I; VF stays or is set to whether the sum is above 0FFF.
    pub(crate) fn row_add_index(&mut self, x: Reg)
        requires { self.old.pc ≤ LAST_WORD }
        ensures { effect (Instr.AddIndex x) self.old ≡ Changes self.new }
    {
        let value = self.reg(x);
        self.add_index(value);
        self.advance();
    }

    /// `FX29`, `LD F, Vx`: I points at a small digit.
    pub(crate) fn row_small_digit(&mut self, x: Reg)
        requires { self.old.pc ≤ LAST_WORD }
        ensures { effect (Instr.SmallDigit x) self.old ≡ Changes self.new }
    {
        let digit = u16::from(self.reg(x) % 16);
        self.set_index(5 * digit);
        self.advance();
    }

    /// `FX30`, `LD HF, Vx`: I points at a large digit.
    pub(crate) fn row_big_digit(&mut self, x: Reg) -> Result<(), Stop>
        requires { self.old.pc ≤ LAST_WORD }
        ensures { Changing (effect (Instr.BigDigit x) self.old) self.old self.new result }
    {
        self.needs_super_instructions()?;
        let digit = u16::from(self.reg(x) % 16);
        self.set_index(80 + 10 * digit);
        self.advance();
        Ok(())
    }

    /// `00CN`, `SCD n`: scrolls down by n rows, which are stored rows or rows of the size.
    pub(crate) fn row_scroll_down(&mut self, n: Nibble) -> Result<(), Stop>
        requires { self.old.pc ≤ LAST_WORD }
        ensures { Changing (effect (Instr.ScrollDown n) self.old) self.old self.new result }
    {
        self.needs_super_instructions()?;
        let rows = self.scrolled_by(n.number());
        self.scroll_down(rows);
        self.advance();
        Ok(())
    }

    /// `00E0`, `CLS`: makes all pixels dark.
    pub(crate) fn row_clear_screen(&mut self)
        requires { self.old.pc ≤ LAST_WORD }
        ensures { effect Instr.ClearScreen self.old ≡ Changes self.new }
    {
        self.clear();
        self.advance();
    }

    /// `00FB`, `SCR`: scrolls right by 4 columns, which are stored columns or columns of the size.
    pub(crate) fn row_scroll_right(&mut self) -> Result<(), Stop>
        requires { self.old.pc ≤ LAST_WORD }
        ensures { Changing (effect Instr.ScrollRight self.old) self.old self.new result }
    {
        self.needs_super_instructions()?;
        let columns = self.scrolled_by(4);
        self.scroll_right(columns);
        self.advance();
        Ok(())
    }

    /// `00FC`, `SCL`: scrolls left by 4 columns, which are stored columns or columns of the size.
    pub(crate) fn row_scroll_left(&mut self) -> Result<(), Stop>
        requires { self.old.pc ≤ LAST_WORD }
        ensures { Changing (effect Instr.ScrollLeft self.old) self.old self.new result }
    {
        self.needs_super_instructions()?;
        let columns = self.scrolled_by(4);
        self.scroll_left(columns);
        self.advance();
        Ok(())
    }

    /// `00FD`, `EXIT`: ends the program.
    pub(crate) fn row_exit(&self) -> Stop
        ensures { effect Instr.Exit self.now ≡ Stops result }
    {
        match self.needs_super_instructions() {
            Ok(()) => Stop::Exit,
            Err(why) => why,
        }
    }

    /// `00FE`, `LOW`: switches to the low size; the pixels stay or become dark.
    pub(crate) fn row_low_size(&mut self) -> Result<(), Stop>
        requires { self.old.pc ≤ LAST_WORD }
        ensures { Changing (effect Instr.LowSize self.old) self.old self.new result }
    {
        self.needs_super_instructions()?;
        self.resize(false);
        self.advance();
        Ok(())
    }

    /// `00FF`, `HIGH`: switches to the high size; the pixels stay or become dark.
    pub(crate) fn row_high_size(&mut self) -> Result<(), Stop>
        requires { self.old.pc ≤ LAST_WORD }
        ensures { Changing (effect Instr.HighSize self.old) self.old self.new result }
    {
        self.needs_super_instructions()?;
        self.resize(true);
        self.advance();
        Ok(())
    }

    /// `00EE`, `RET`: returns to the newest return address, and removes it from the call stack.
    pub(crate) fn row_return(&mut self) -> Result<(), Stop>
        ensures { Changing (effect Instr.Return self.old) self.old self.new result }
    {
        if self.frames().is_empty() {
            return Err(Stop::NoFrame);
        }
        self.leave();
        Ok(())
    }

    /// `2NNN`, `CALL a`: adds the next address to the call stack, and jumps to a.
    pub(crate) fn row_call(&mut self, address: Addr) -> Result<(), Stop>
        requires { self.old.pc ≤ LAST_WORD }
        ensures { Changing (effect (Instr.Call address) self.old) self.old self.new result }
    {
        if self.frames().len() == FRAMES {
            return Err(Stop::FramesFull);
        }
        self.call(address.number());
        Ok(())
    }

    /// `FX75`, `LD R, Vx`: copies V0 to Vx into the flag registers.
    pub(crate) fn row_store_flags(&mut self, x: Reg) -> Result<(), Stop>
        requires { self.old.pc ≤ LAST_WORD }
        ensures { Changing (effect (Instr.StoreFlags x) self.old) self.old self.new result }
    {
        self.needs_super_instructions()?;
        if x.number() as usize >= self.flags().len() {
            return Err(Stop::NoFlag);
        }
        self.store_flags(x);
        self.advance();
        Ok(())
    }

    /// `FX85`, `LD Vx, R`: copies the first flag registers into V0 to Vx.
    pub(crate) fn row_load_flags(&mut self, x: Reg) -> Result<(), Stop>
        requires { self.old.pc ≤ LAST_WORD }
        ensures { Changing (effect (Instr.LoadFlags x) self.old) self.old self.new result }
    {
        self.needs_super_instructions()?;
        if x.number() as usize >= self.flags().len() {
            return Err(Stop::NoFlag);
        }
        self.load_flags(x);
        self.advance();
        Ok(())
    }

    /// `EX9E`, `SKP Vx`: skips the next instruction if the key is down.
    pub(crate) fn row_skip_if_key(&mut self, x: Reg, keys: u16)
        requires { self.old.pc ≤ LAST_WORD }
        ensures { Asking (effect (Instr.SkipIfKey x) self.old) keys self.old self.new }
    {
        let down = is_down(keys, self.reg(x) % 16);
        self.skip_if(down);
    }

    /// `EXA1`, `SKNP Vx`: skips the next instruction if the key is up.
    pub(crate) fn row_skip_unless_key(&mut self, x: Reg, keys: u16)
        requires { self.old.pc ≤ LAST_WORD }
        ensures { Asking (effect (Instr.SkipUnlessKey x) self.old) keys self.old self.new }
    {
        let down = is_down(keys, self.reg(x) % 16);
        self.skip_if(!down);
    }

    /// `FX0A`, `LD Vx, K`: Vx becomes the lowest key that is down; the machine waits if no key is down.
    pub(crate) fn row_wait_key(&mut self, x: Reg, keys: u16)
        requires { self.old.pc ≤ LAST_WORD }
        ensures { Asking (effect (Instr.WaitKey x) self.old) keys self.old self.new }
    {
        if let Some(key) = least_down(keys) {
            self.set(x, key);
            self.advance();
        }
    }

    /// `DXYN`, `DRW Vx, Vy, n`: draws the sprite at I; VF becomes 1 if it covers a lit pixel, otherwise 0.
    /// If n is 0, it may draw nothing.
    #[inline(always)]
    pub(crate) fn row_draw(
        &mut self,
        x: Reg,
        y: Reg,
        n: Nibble,
        memory: &[u8],
    ) -> Result<Span, Stop>
        requires size { length memory.now ≡ MEMORY_BYTES }
        requires pc { self.old.pc ≤ LAST_WORD }
        ensures { Accessing (effect (Instr.Draw x y n) self.old) self.old self.new memory.now
            memory.now result }
    {
        if self.draws_nothing(n) {
            self.clear_flag();
            self.advance();
            return Ok(Span::none());
        }
        let count = self.sprite_bytes(n);
        let sprite = load(memory, self.index(), count)?;
        let read = Span::new(self.index(), count);
        let left = self.reg(x);
        let top = self.reg(y);
        self.draw(left, top, sprite);
        self.advance();
        Ok(read)
    }

    /// `FX33`, `LD B, Vx`: stores the three decimal digits of Vx at I.
    #[inline(always)]
    pub(crate) fn row_store_decimal(&mut self, x: Reg, memory: &mut [u8]) -> Result<Span, Stop>
        requires size { length memory.old ≡ MEMORY_BYTES }
        requires pc { self.old.pc ≤ LAST_WORD }
        ensures { Accessing (effect (Instr.StoreDecimal x) self.old) self.old self.new memory.old
            memory.new result }
    {
        let value = self.reg(x);
        let tens = value / 10;
        let digits = [tens / 10, tens % 10, value % 10];
        let at = self.index();
        store(memory, at, &digits)?;
        let span = Span::new(at, digits.len());
        self.advance();
        Ok(span)
    }

    /// `FX55`, `LD [I], Vx`: stores V0 to Vx at I; I stays or advances.
    #[inline(always)]
    pub(crate) fn row_store_registers(&mut self, x: Reg, memory: &mut [u8]) -> Result<Span, Stop>
        requires size { length memory.old ≡ MEMORY_BYTES }
        requires pc { self.old.pc ≤ LAST_WORD }
        ensures { Accessing (effect (Instr.StoreRegisters x) self.old) self.old self.new memory.old
            memory.new result }
    {
        let count = x.number() as usize + 1;
        let registers = self.registers();
        store(memory, self.index(), &registers[..count])?;
        let span = Span::new(self.index(), count);
        self.finish_move(x);
        self.advance();
        Ok(span)
    }

    /// `FX65`, `LD Vx, [I]`: loads V0 to Vx from I; I stays or advances.
    #[inline(always)]
    pub(crate) fn row_load_registers(&mut self, x: Reg, memory: &[u8]) -> Result<Span, Stop>
        requires size { length memory.now ≡ MEMORY_BYTES }
        requires pc { self.old.pc ≤ LAST_WORD }
        ensures { Accessing (effect (Instr.LoadRegisters x) self.old) self.old self.new memory.now
            memory.now result }
    {
        let count = x.number() as usize + 1;
        let bytes = load(memory, self.index(), count)?;
        let span = Span::new(self.index(), count);
        self.load(bytes);
        self.finish_move(x);
        self.advance();
        Ok(span)
    }
}
