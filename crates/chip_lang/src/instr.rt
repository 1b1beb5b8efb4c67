//! Instructions and the words that encode them.

ghost use Rattle.std.specs.Prelude.{◌≡◌, ◌<◌, ◌+◌, ◌*◌, ◌/◌, ◌%◌, Some};
ghost use Rattle.chip_lang.specs.Decoding.{decode_of};
ghost use Rattle.chip_lang.specs.Table.{fields_in};
ghost use Rattle.chip_lang.specs.inner.ByDigits.{instr_with, fields};
ghost use Rattle.chip_lang.specs.declared.instr.Instr.{Instr};

use crate::number::{Addr, Nibble, Reg};

/// An instruction. Each row of the table has a variant, but both forms of a shift share one.
#[derive(Clone, Copy)]
pub enum Instr {
    /// `SCD n`: scroll down.
    ScrollDown(Nibble),
    /// `CLS`.
    ClearScreen,
    /// `RET`.
    Return,
    /// `SCR`: scroll right by 4.
    ScrollRight,
    /// `SCL`: scroll left by 4.
    ScrollLeft,
    /// `EXIT`.
    Exit,
    /// `LOW`.
    LowSize,
    /// `HIGH`.
    HighSize,
    /// `JP a`.
    Jump(Addr),
    /// `CALL a`.
    Call(Addr),
    /// `SE Vx, kk`.
    SkipIfByte(Reg, u8),
    /// `SNE Vx, kk`.
    SkipUnlessByte(Reg, u8),
    /// `SE Vx, Vy`.
    SkipIfEqual(Reg, Reg),
    /// `LD Vx, kk`.
    LoadByte(Reg, u8),
    /// `ADD Vx, kk`.
    AddByte(Reg, u8),
    /// `LD Vx, Vy`.
    Copy(Reg, Reg),
    /// `OR Vx, Vy`.
    Or(Reg, Reg),
    /// `AND Vx, Vy`.
    And(Reg, Reg),
    /// `XOR Vx, Vy`.
    Xor(Reg, Reg),
    /// `ADD Vx, Vy`.
    Add(Reg, Reg),
    /// `SUB Vx, Vy`.
    Subtract(Reg, Reg),
    /// `SHR Vx, Vy`.
    ShiftRight(Reg, Reg),
    /// `SUBN Vx, Vy`.
    SubtractFrom(Reg, Reg),
    /// `SHL Vx, Vy`.
    ShiftLeft(Reg, Reg),
    /// `SNE Vx, Vy`.
    SkipUnlessEqual(Reg, Reg),
    /// `LD I, a`.
    LoadIndex(Addr),
    /// `JP V0, a`.
    JumpOffset(Addr),
    /// `RND Vx, kk`.
    Random(Reg, u8),
    /// `DRW Vx, Vy, n`.
    Draw(Reg, Reg, Nibble),
    /// `SKP Vx`.
    SkipIfKey(Reg),
    /// `SKNP Vx`.
    SkipUnlessKey(Reg),
    /// `LD Vx, DT`.
    ReadDelay(Reg),
    /// `LD Vx, K`.
    WaitKey(Reg),
    /// `LD DT, Vx`.
    SetDelay(Reg),
    /// `LD ST, Vx`.
    SetSound(Reg),
    /// `ADD I, Vx`.
    AddIndex(Reg),
    /// `LD F, Vx`.
    SmallDigit(Reg),
    /// `LD HF, Vx`.
    BigDigit(Reg),
    /// `LD B, Vx`.
    StoreDecimal(Reg),
    /// `LD [I], Vx`.
    StoreRegisters(Reg),
    /// `LD Vx, [I]`.
    LoadRegisters(Reg),
    /// `LD R, Vx`.
    StoreFlags(Reg),
    /// `LD Vx, R`.
    LoadFlags(Reg),
}

/// The word of an instruction, which is the only word that decodes to it.
#[tactic(auto, using(crate::proofs::Decoding::scroll_at), unfolding(crate::specs::inner::ByDigits::instr_with))]
pub fn word(instr: Instr) -> u16
    ensures { decode_of result ≡ Some instr }
{
    match instr {
        Instr::ScrollDown(n) => of_system(0xC0 + n.number()),
        Instr::ClearScreen => of_system(0xE0),
        Instr::Return => of_system(0xEE),
        Instr::ScrollRight => of_system(0xFB),
        Instr::ScrollLeft => of_system(0xFC),
        Instr::Exit => of_system(0xFD),
        Instr::LowSize => of_system(0xFE),
        Instr::HighSize => of_system(0xFF),
        Instr::Jump(a) => with_address(1, a),
        Instr::Call(a) => with_address(2, a),
        Instr::SkipIfByte(x, byte) => with_byte(3, x, byte),
        Instr::SkipUnlessByte(x, byte) => with_byte(4, x, byte),
        Instr::SkipIfEqual(x, y) => with_registers(5, x, y, 0),
        Instr::LoadByte(x, byte) => with_byte(6, x, byte),
        Instr::AddByte(x, byte) => with_byte(7, x, byte),
        Instr::Copy(x, y) => with_registers(8, x, y, 0),
        Instr::Or(x, y) => with_registers(8, x, y, 1),
        Instr::And(x, y) => with_registers(8, x, y, 2),
        Instr::Xor(x, y) => with_registers(8, x, y, 3),
        Instr::Add(x, y) => with_registers(8, x, y, 4),
        Instr::Subtract(x, y) => with_registers(8, x, y, 5),
        Instr::ShiftRight(x, y) => with_registers(8, x, y, 6),
        Instr::SubtractFrom(x, y) => with_registers(8, x, y, 7),
        Instr::ShiftLeft(x, y) => with_registers(8, x, y, 14),
        Instr::SkipUnlessEqual(x, y) => with_registers(9, x, y, 0),
        Instr::LoadIndex(a) => with_address(10, a),
        Instr::JumpOffset(a) => with_address(11, a),
        Instr::Random(x, byte) => with_byte(12, x, byte),
        Instr::Draw(x, y, n) => with_registers(13, x, y, n.number()),
        Instr::SkipIfKey(x) => with_byte(14, x, 0x9E),
        Instr::SkipUnlessKey(x) => with_byte(14, x, 0xA1),
        Instr::ReadDelay(x) => with_byte(15, x, 0x07),
        Instr::WaitKey(x) => with_byte(15, x, 0x0A),
        Instr::SetDelay(x) => with_byte(15, x, 0x15),
        Instr::SetSound(x) => with_byte(15, x, 0x18),
        Instr::AddIndex(x) => with_byte(15, x, 0x1E),
        Instr::SmallDigit(x) => with_byte(15, x, 0x29),
        Instr::BigDigit(x) => with_byte(15, x, 0x30),
        Instr::StoreDecimal(x) => with_byte(15, x, 0x33),
        Instr::StoreRegisters(x) => with_byte(15, x, 0x55),
        Instr::LoadRegisters(x) => with_byte(15, x, 0x65),
        Instr::StoreFlags(x) => with_byte(15, x, 0x75),
        Instr::LoadFlags(x) => with_byte(15, x, 0x85),
    }
}

/// The word 00KK.
#[tactic(auto, using(crate::proofs::Decoding::of_system))]
fn of_system(byte: u8) -> u16
    ensures { decode_of result ≡ instr_with 0 (fields 0 (byte / 16) (byte % 16) byte byte) }
{
    u16::from(byte)
}

/// The word with this first digit and this address.
#[tactic(auto, using(crate::proofs::Decoding::of_address))]
fn with_address(top: u16, a: Addr) -> u16
    requires { top < 16 }
    ensures { decode_of result
        ≡ instr_with top (fields (a / 256) (a / 16 % 16) (a % 16) (a % 256) a) }
{
    top * 4096 + a.number()
}

/// The word with this first digit, this register and this byte.
#[tactic(auto, using(crate::proofs::Decoding::of_byte))]
fn with_byte(top: u16, x: Reg, byte: u8) -> u16
    requires { top < 16 }
    ensures { decode_of result
        ≡ instr_with top (fields x (byte / 16) (byte % 16) byte (256 * x + byte)) }
{
    top * 4096 + u16::from(x.number()) * 256 + u16::from(byte)
}

/// The word with this first digit, these registers and this last digit.
#[tactic(auto, using(crate::proofs::Decoding::of_registers))]
fn with_registers(top: u16, x: Reg, y: Reg, n: u8) -> u16
    requires top { top < 16 }
    requires n { n < 16 }
    ensures { decode_of result
        ≡ instr_with top (fields x y n (16 * y + n) (256 * x + (16 * y + n))) }
{
    top * 4096 + u16::from(x.number()) * 256 + u16::from(y.number()) * 16 + u16::from(n)
}

/// The instruction that a word decodes to; none if the word isn't an instruction.
#[inline(always)]
#[tactic(auto, using(crate::proofs::Decoding::decode_by_digits))]
pub fn decode(w: u16) -> Option<Instr>
    ensures { result ≡ decode_of w }
{
    instr_of(w)
}

#[inline(always)]
#[tactic(auto, unfolding(crate::specs::inner::ByDigits::instr_with))]
fn instr_of(w: u16) -> Option<Instr>
    ensures { result ≡ instr_with (w / 4096) (fields_in w) }
{
    let x = Reg::new((w / 256 % 16) as u8)?;
    let y = Reg::new((w / 16 % 16) as u8)?;
    let n = Nibble::new((w % 16) as u8)?;
    let byte = (w % 256) as u8;
    let a = Addr::new(w % 4096)?;
    match w / 4096 {
        0 => system(x, y, n, byte),
        1 => Some(Instr::Jump(a)),
        2 => Some(Instr::Call(a)),
        3 => Some(Instr::SkipIfByte(x, byte)),
        4 => Some(Instr::SkipUnlessByte(x, byte)),
        5 => (n.number() == 0).then_some(Instr::SkipIfEqual(x, y)),
        6 => Some(Instr::LoadByte(x, byte)),
        7 => Some(Instr::AddByte(x, byte)),
        8 => arithmetic(x, y, n),
        9 => (n.number() == 0).then_some(Instr::SkipUnlessEqual(x, y)),
        10 => Some(Instr::LoadIndex(a)),
        11 => Some(Instr::JumpOffset(a)),
        12 => Some(Instr::Random(x, byte)),
        13 => Some(Instr::Draw(x, y, n)),
        14 => key(x, byte),
        15 => transfer(x, byte),
        _ => None,
    }
}

#[tactic(auto, unfolding(crate::specs::inner::ByDigits::instr_with))]
fn system(x: Reg, y: Reg, n: Nibble, byte: u8) -> Option<Instr>
    ensures { result ≡ instr_with 0 (fields x y n byte 0) }
{
    if x.number() != 0 {
        None
    } else if y.number() == 12 {
        Some(Instr::ScrollDown(n))
    } else {
        system_byte(byte)
    }
}

#[tactic(auto, unfolding(crate::specs::inner::ByDigits::instr_with))]
fn system_byte(byte: u8) -> Option<Instr>
    ensures { result ≡ instr_with 0 (fields 0 0 0 byte 0) }
{
    match byte {
        0xE0 => Some(Instr::ClearScreen),
        0xEE => Some(Instr::Return),
        0xFB => Some(Instr::ScrollRight),
        0xFC => Some(Instr::ScrollLeft),
        0xFD => Some(Instr::Exit),
        0xFE => Some(Instr::LowSize),
        0xFF => Some(Instr::HighSize),
        _ => None,
    }
}

#[tactic(auto, unfolding(crate::specs::inner::ByDigits::instr_with))]
fn arithmetic(x: Reg, y: Reg, n: Nibble) -> Option<Instr>
    ensures { result ≡ instr_with 8 (fields x y n 0 0) }
{
    match n.number() {
        0 => Some(Instr::Copy(x, y)),
        1 => Some(Instr::Or(x, y)),
        2 => Some(Instr::And(x, y)),
        3 => Some(Instr::Xor(x, y)),
        4 => Some(Instr::Add(x, y)),
        5 => Some(Instr::Subtract(x, y)),
        6 => Some(Instr::ShiftRight(x, y)),
        7 => Some(Instr::SubtractFrom(x, y)),
        14 => Some(Instr::ShiftLeft(x, y)),
        _ => None,
    }
}

#[tactic(auto, unfolding(crate::specs::inner::ByDigits::instr_with))]
fn key(x: Reg, byte: u8) -> Option<Instr>
    ensures { result ≡ instr_with 14 (fields x 0 0 byte 0) }
{
    match byte {
        0x9E => Some(Instr::SkipIfKey(x)),
        0xA1 => Some(Instr::SkipUnlessKey(x)),
        _ => None,
    }
}

#[tactic(auto, unfolding(crate::specs::inner::ByDigits::instr_with))]
fn transfer(x: Reg, byte: u8) -> Option<Instr>
    ensures { result ≡ instr_with 15 (fields x 0 0 byte 0) }
{
    match byte {
        0x07 => Some(Instr::ReadDelay(x)),
        0x0A => Some(Instr::WaitKey(x)),
        0x15 => Some(Instr::SetDelay(x)),
        0x18 => Some(Instr::SetSound(x)),
        0x1E => Some(Instr::AddIndex(x)),
        0x29 => Some(Instr::SmallDigit(x)),
        0x30 => Some(Instr::BigDigit(x)),
        0x33 => Some(Instr::StoreDecimal(x)),
        0x55 => Some(Instr::StoreRegisters(x)),
        0x65 => Some(Instr::LoadRegisters(x)),
        0x75 => Some(Instr::StoreFlags(x)),
        0x85 => Some(Instr::LoadFlags(x)),
        _ => None,
    }
}
