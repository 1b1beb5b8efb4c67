//! Parts of answers.

ghost use Rattle.std.specs.Prelude.{◌≡◌, ◌*◌, ◌++◌, length, OnOk};
ghost use Rattle.std.specs.Fmt.{signed_decimal};
ghost use Rattle.hex.specs.Hex.{encode_lower};
ghost use Rattle.chip_trace.specs.Digits.{hex_word, spaced};

use chip_trace::{byte_digits, hex_digit, push_decimal, word_digits};
use itoa::Buffer;
use std::alloc::AllocError;

/// The number of bytes whose digits are computed at once.
const BLOCK_BYTES: usize = 32;

/// Appends bytes in lowercase hexadecimal.
pub(crate) fn push_hex(out: &mut Vec<u8>, bytes: &[u8]) -> Result<(), AllocError>
    ensures { OnOk result (out.new.items ≡ out.old.items ++ encode_lower bytes.now) }
{
    let start = out.len();
    let Some(added) = bytes.len().checked_mul(2) else {
        return Err(AllocError);
    };
    let Some(end) = start.checked_add(added) else {
        return Err(AllocError);
    };
    out.resize(end, 0)?;
    write_hex(bytes, &mut out[start..]);
    Ok(())
}

/// Fills `digits` with the bytes in lowercase hexadecimal.
pub(crate) fn write_hex(bytes: &[u8], digits: &mut [u8])
    requires { length digits.old ≡ 2 * length bytes.now }
    ensures { digits.new ≡ encode_lower bytes.now }
{
    let count = bytes.len() / BLOCK_BYTES;
    'whole: for block in 0..count {
        let (first, end) = (block * BLOCK_BYTES, (block + 1) * BLOCK_BYTES);
        write_block(&bytes[first..end], &mut digits[2 * first..2 * end]);
    }
    'bytes: for i in count * BLOCK_BYTES..bytes.len() {
        let [high, low] = byte_digits(bytes[i]);
        digits[2 * i] = high;
        digits[2 * i + 1] = low;
    }
}

/// Writes the bytes of one block in lowercase hexadecimal. All digits are computed before the first
/// one is written, so that the compiler can compute many at once.
#[inline(always)]
fn write_block(bytes: &[u8], digits: &mut [u8])
    requires bytes { length bytes.now ≡ BLOCK_BYTES }
    requires digits { length digits.old ≡ 2 * BLOCK_BYTES }
    ensures { digits.new ≡ encode_lower bytes.now }
{
    let (mut high, mut low) = ([0; BLOCK_BYTES], [0; BLOCK_BYTES]);
    'digits: for i in 0..BLOCK_BYTES {
        high[i] = hex_digit(bytes[i] / 16);
        low[i] = hex_digit(bytes[i] % 16);
    }
    'places: for i in 0..BLOCK_BYTES {
        digits[2 * i] = high[i];
        digits[2 * i + 1] = low[i];
    }
}

/// Appends a number in decimal, with a minus sign if it is negative.
pub(crate) fn push_signed(out: &mut Vec<u8>, number: i32) -> Result<(), AllocError>
    ensures { OnOk result (out.new.items ≡ out.old.items ++ signed_decimal number) }
{
    if number >= 0 {
        return push_decimal(out, number as u64);
    }
    let mut digits = Buffer::new();
    out.extend_from_slice(digits.format(number).as_bytes())
}

/// Appends 16-bit numbers in hexadecimal, each after a space.
pub(crate) fn push_spaced_words(out: &mut Vec<u8>, words: &[u16]) -> Result<(), AllocError>
    ensures { OnOk result (out.new.items ≡ out.old.items ++ spaced hex_word words.now) }
{
    for word in words {
        let [a, b, c, d] = word_digits(*word);
        out.extend_from_slice(&[b' ', a, b, c, d])?;
    }
    Ok(())
}
