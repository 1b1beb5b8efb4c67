//! Numbers written as digits.

ghost use Rattle.std.specs.Prelude.{◌≡◌, ◌*◌, ◌<◌, ◌++◌, length, replicate, slice_index, OnOk};
ghost use Rattle.std.specs.Fmt.{decimal};
ghost use Rattle.hex.specs.Hex.{lower_digits};
ghost use Rattle.chip_trace.specs.Digits.{hex_byte, hex_word, hex_sum, spaced};

use itoa::Buffer;
use std::alloc::AllocError;

/// The hexadecimal digit of a number below 16. Uses only arithmetic, so that a compiler can vectorize it.
#[inline(always)]
#[tactic(auto, using(crate::proofs::DigitLemmas::hex_digit_is))]
pub fn hex_digit(value: u8) -> u8
    requires { value < 16 }
    ensures { result ≡ slice_index lower_digits value }
{
    value + b'0' + if value > 9 { 39 } else { 0 }
}

/// A byte in two hexadecimal digits.
#[inline(always)]
pub fn byte_digits(byte: u8) -> [u8; 2]
    ensures { result ≡ hex_byte byte }
{
    chip_lang::byte_digits(byte)
}

/// A number of 16 bits in four hexadecimal digits.
#[inline(always)]
pub fn word_digits(word: u16) -> [u8; 4]
    ensures { result ≡ hex_word word }
{
    let [a, b] = byte_digits((word / 256) as u8);
    let [c, d] = byte_digits((word % 256) as u8);
    [a, b, c, d]
}

/// Adds a byte in two hexadecimal digits.
#[inline(always)]
pub(crate) fn push_byte(text: &mut Vec<u8>, byte: u8) -> Result<(), AllocError>
    ensures { OnOk result (text.new.items ≡ text.old.items ++ hex_byte byte) }
{
    text.extend_from_slice(&byte_digits(byte))
}

/// Adds a number of 16 bits in four hexadecimal digits.
#[inline(always)]
pub(crate) fn push_word(text: &mut Vec<u8>, word: u16) -> Result<(), AllocError>
    ensures { OnOk result (text.new.items ≡ text.old.items ++ hex_word word) }
{
    text.extend_from_slice(&word_digits(word))
}

/// Adds a number of 64 bits in sixteen hexadecimal digits.
pub(crate) fn push_sum(text: &mut Vec<u8>, sum: u64) -> Result<(), AllocError>
    ensures { OnOk result (text.new.items ≡ text.old.items ++ hex_sum sum) }
{
    push_word(text, (sum / 0x1_0000_0000_0000) as u16)?;
    push_word(text, (sum / 0x1_0000_0000 % 0x1_0000) as u16)?;
    push_word(text, (sum / 0x1_0000 % 0x1_0000) as u16)?;
    push_word(text, (sum % 0x1_0000) as u16)
}

/// Adds a number in decimal.
///
/// # Errors
///
/// Out of memory.
pub fn push_decimal(text: &mut Vec<u8>, number: u64) -> Result<(), AllocError>
    ensures { OnOk result (text.new.items ≡ text.old.items ++ decimal number) }
{
    if number < 10_000 {
        return push_short(text, number as u16);
    }
    let mut digits = Buffer::new();
    text.extend_from_slice(digits.format(number).as_bytes())
}

/// Adds a number of up to four digits in decimal. Computes the digits here, because copying digits that
/// itoa has just written into its buffer is slow.
#[inline(always)]
fn push_short(text: &mut Vec<u8>, number: u16) -> Result<(), AllocError>
    requires { number < 10000 }
    ensures { OnOk result (text.new.items ≡ text.old.items ++ decimal number) }
{
    if number < 10 {
        text.push(b'0' + number as u8)?;
        return Ok(());
    }
    let (front, back) = ((number / 100) as u8, (number % 100) as u8);
    let (c, d) = (b'0' + back / 10, b'0' + back % 10);
    if number < 100 {
        return text.extend_from_slice(&[c, d]);
    }
    if number < 1000 {
        return text.extend_from_slice(&[b'0' + front, c, d]);
    }
    text.extend_from_slice(&[b'0' + front / 10, b'0' + front % 10, c, d])
}

/// Adds a byte in decimal.
#[inline(always)]
pub(crate) fn push_small(text: &mut Vec<u8>, number: u8) -> Result<(), AllocError>
    ensures { OnOk result (text.new.items ≡ text.old.items ++ decimal number) }
{
    push_short(text, u16::from(number))
}

/// Adds bytes in hexadecimal, with a space before each byte.
///
/// # Errors
///
/// Out of memory.
pub fn push_spaced_bytes(text: &mut Vec<u8>, bytes: &[u8]) -> Result<(), AllocError>
    ensures { OnOk result (text.new.items ≡ text.old.items ++ spaced hex_byte bytes.now) }
{
    let start = text.len();
    let Some(added) = bytes.len().checked_mul(3) else {
        return Err(AllocError);
    };
    let Some(end) = start.checked_add(added) else {
        return Err(AllocError);
    };
    text.resize(end, b' ')?;
    write_spaced_bytes(bytes, &mut text[start..]);
    Ok(())
}

/// Overwrites spaces with bytes in hexadecimal, and leaves one space before each byte.
#[inline(always)]
pub(crate) fn write_spaced_bytes(bytes: &[u8], text: &mut [u8])
    requires { text.old ≡ replicate (3 * length bytes.now) 32 }
    ensures { text.new ≡ spaced hex_byte bytes.now }
{
    'bytes: for i in 0..bytes.len() {
        let [high, low] = byte_digits(bytes[i]);
        text[3 * i + 1] = high;
        text[3 * i + 2] = low;
    }
}
