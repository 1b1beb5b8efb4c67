//! The effect of one instruction.

ghost use Rattle.std.specs.Prelude.{◌≡◌, ◌+◌, ◌-◌, ◌<◌, ◌≤◌, ◌^◌, [], length, OnErr, IfOk};
ghost use Rattle.chip_machine.specs.Step.{effect, accessed};
ghost use Rattle.chip_machine.specs.inner.Performs.{Performs};

use crate::keys::HeldKeys;
use crate::limits::{LAST_WORD, MEMORY_BYTES};
use crate::processor::Processor;
use crate::stop::Stop;
use crate::touch::Span;
use chip_lang::instr::Instr;

/// Executes an instruction in a step. Returns the span of bytes that it accesses at I, or why the
/// machine stops.
#[inline(always)]
pub(crate) fn execute<K: HeldKeys>(
    processor: &mut Processor,
    memory: &mut [u8],
    instr: Instr,
    keys: &mut K,
    step: u32,
) -> Result<Span, Stop>
    requires size { length memory.old ≡ MEMORY_BYTES }
    requires pc { processor.old.pc ≤ LAST_WORD }
    requires in_range { step < 2 ^ 32 - 1 }
    requires ready { K.is_ready keys.old step }
    ensures done { Performs (K.held keys.old step) (effect instr processor.old) processor.old
        processor.new memory.old memory.new result }
    ensures touched { IfOk result (λ span. span
        ≡ accessed processor.old.index (effect instr processor.old)) }
    ensures untouched { OnErr result (accessed processor.old.index (effect instr processor.old)
        ≡ []) }
    ensures keys { K.held keys.new ≡ K.held keys.old }
    ensures ready { K.is_ready keys.old (step + 1) → K.is_ready keys.new (step + 1) }
{
    match instr {
        Instr::ScrollDown(n) => processor.row_scroll_down(n)?,
        Instr::ClearScreen => processor.row_clear_screen(),
        Instr::Return => processor.row_return()?,
        Instr::ScrollRight => processor.row_scroll_right()?,
        Instr::ScrollLeft => processor.row_scroll_left()?,
        Instr::Exit => return Err(processor.row_exit()),
        Instr::LowSize => processor.row_low_size()?,
        Instr::HighSize => processor.row_high_size()?,
        Instr::Jump(address) => processor.row_jump(address),
        Instr::Call(address) => processor.row_call(address)?,
        Instr::SkipIfByte(x, byte) => processor.row_skip_if_byte(x, byte),
        Instr::SkipUnlessByte(x, byte) => processor.row_skip_unless_byte(x, byte),
        Instr::SkipIfEqual(x, y) => processor.row_skip_if_equal(x, y),
        Instr::LoadByte(x, byte) => processor.row_load_byte(x, byte),
        Instr::AddByte(x, byte) => processor.row_add_byte(x, byte),
        Instr::Copy(x, y) => processor.row_copy(x, y),
        Instr::Or(x, y) => processor.row_or(x, y),
        Instr::And(x, y) => processor.row_and(x, y),
        Instr::Xor(x, y) => processor.row_xor(x, y),
        Instr::Add(x, y) => processor.row_add(x, y),
        Instr::Subtract(x, y) => processor.row_subtract(x, y),
        Instr::ShiftRight(x, y) => processor.row_shift_right(x, y),
        Instr::SubtractFrom(x, y) => processor.row_subtract_from(x, y),
        Instr::ShiftLeft(x, y) => processor.row_shift_left(x, y),
        Instr::SkipUnlessEqual(x, y) => processor.row_skip_unless_equal(x, y),
        Instr::LoadIndex(address) => processor.row_load_index(address),
        Instr::JumpOffset(address) => processor.row_jump_offset(address),
        Instr::Random(x, byte) => processor.row_random(x, byte),
        Instr::Draw(x, y, n) => return processor.row_draw(x, y, n, memory),
        Instr::SkipIfKey(x) => processor.row_skip_if_key(x, keys.at(step)),
        Instr::SkipUnlessKey(x) => processor.row_skip_unless_key(x, keys.at(step)),
        Instr::ReadDelay(x) => processor.row_read_delay(x),
        Instr::WaitKey(x) => processor.row_wait_key(x, keys.at(step)),
        Instr::SetDelay(x) => processor.row_set_delay(x),
        Instr::SetSound(x) => processor.row_set_sound(x),
        Instr::AddIndex(x) => processor.row_add_index(x),
        Instr::SmallDigit(x) => processor.row_small_digit(x),
        Instr::BigDigit(x) => processor.row_big_digit(x)?,
        Instr::StoreDecimal(x) => return processor.row_store_decimal(x, memory),
        Instr::StoreRegisters(x) => return processor.row_store_registers(x, memory),
        Instr::LoadRegisters(x) => return processor.row_load_registers(x, memory),
        Instr::StoreFlags(x) => processor.row_store_flags(x)?,
        Instr::LoadFlags(x) => processor.row_load_flags(x)?,
    }
    Ok(Span::none())
}
