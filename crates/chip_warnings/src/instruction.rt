//! The effects of instructions that warnings depend on, given the word of a form.
ghost use Rattle.std.specs.Prelude.{◌≡◌};
ghost use Rattle.chip_lang.specs.Decoding.{decode_of};
ghost use Rattle.chip_warnings.specs.Instructions.{draws, goes_elsewhere, is_super_instruction, jumps_by_table, leads_to_one, may_skip, points, stores};

use chip_lang::{Instr, decode};

/// Whether an instruction goes somewhere other than to the next one: JP, RET, EXIT.
pub(crate) fn goes_elsewhere(base: u16) -> bool
    ensures { result ≡ goes_elsewhere (decode_of base) }
{
    matches!(
        decode(base),
        Some(Instr::Jump(_) | Instr::Return | Instr::Exit)
    )
}

/// Whether an instruction may skip the next one: SE, SNE, SKP, SKNP.
pub(crate) fn may_skip(base: u16) -> bool
    ensures { result ≡ may_skip (decode_of base) }
{
    matches!(
        decode(base),
        Some(
            Instr::SkipIfByte(_, _)
                | Instr::SkipUnlessByte(_, _)
                | Instr::SkipIfEqual(_, _)
                | Instr::SkipUnlessEqual(_, _)
                | Instr::SkipIfKey(_)
                | Instr::SkipUnlessKey(_)
        )
    )
}

/// Whether an instruction leads to one address: JP, CALL.
pub(crate) fn leads_to_one(base: u16) -> bool
    ensures { result ≡ leads_to_one (decode_of base) }
{
    matches!(decode(base), Some(Instr::Jump(_) | Instr::Call(_)))
}

/// Whether an instruction leads to one of 256 addresses, so that a jump table may follow it: JP V0.
pub(crate) fn jumps_by_table(base: u16) -> bool
    ensures { result ≡ jumps_by_table (decode_of base) }
{
    matches!(decode(base), Some(Instr::JumpOffset(_)))
}

/// Whether an instruction points at bytes: LD I.
pub(crate) fn points(base: u16) -> bool
    ensures { result ≡ points (decode_of base) }
{
    matches!(decode(base), Some(Instr::LoadIndex(_)))
}

/// Whether an instruction writes to memory: LD B, Vx and LD [I], Vx.
pub(crate) fn stores(base: u16) -> bool
    ensures { result ≡ stores (decode_of base) }
{
    matches!(
        decode(base),
        Some(Instr::StoreDecimal(_) | Instr::StoreRegisters(_))
    )
}

/// Whether a word is an instruction whose random byte can be other than 0: RND with a mask other than 0.
pub(crate) fn draws(word: u16) -> bool
    ensures { result ≡ draws (decode_of word) }
{
    match decode(word) {
        Some(Instr::Random(_, mask)) => mask != 0,
        _ => false,
    }
}

/// Whether SUPER-CHIP added an instruction: SCD, SCR, SCL, EXIT, LOW, HIGH, LD HF, LD R.
pub(crate) fn is_super_instruction(base: u16) -> bool
    ensures { result ≡ is_super_instruction (decode_of base) }
{
    matches!(
        decode(base),
        Some(
            Instr::ScrollDown(_)
                | Instr::ScrollRight
                | Instr::ScrollLeft
                | Instr::Exit
                | Instr::LowSize
                | Instr::HighSize
                | Instr::BigDigit(_)
                | Instr::StoreFlags(_)
                | Instr::LoadFlags(_)
        )
    )
}
