//! The rows of a listing.
ghost use Rattle.std.specs.Prelude.{◌≡◌, ◌+◌, ◌<◌, ◌≤◌, ◌++◌, ◌∷◌, [], OnOk, length};
ghost use Rattle.std.specs.Fmt.{decimal, signed_decimal};
ghost use Rattle.std.specs.Option.{option_copied};
ghost use Rattle.chip_asm.specs.Listing.{at_right, at_left, address_shown, bytes_shown, field_shown, more_shown, row, row_by};

use crate::codes::byte_or_zero;
use crate::kept_line::BoxedLine;
use crate::line_view::LineView;
use chip_lang::{Fault, byte_digits, word_digits};
use itoa::Buffer;
use std::alloc::AllocError;

// Spaces that fill the field of a row.
const SPACES: [u8; 12] = [b' '; 12];

/// The digit of a number below 10.
fn digit(value: usize) -> u8
    requires { value ≤ 9 }
    ensures { result ≡ 48 + value }
{
    b'0' + value as u8
}

/// A number below 10,000 in decimal, right-aligned in four columns.
fn number_text(number: usize) -> [u8; 4]
    requires { number < 10000 }
    ensures text { result ≡ at_right 4 (decimal number) }
    ensures places { length result ≡ 4 }
{
    let (tens, ones) = (number / 10, digit(number % 10));
    if tens == 0 {
        return [b' ', b' ', b' ', ones];
    }
    let (hundreds, second) = (tens / 10, digit(tens % 10));
    if hundreds == 0 {
        return [b' ', b' ', second, ones];
    }
    let (thousands, third) = (hundreds / 10, digit(hundreds % 10));
    if thousands == 0 {
        return [b' ', third, second, ones];
    }
    [digit(thousands), third, second, ones]
}

/// The address of a line in four hexadecimal digits; four dashes if the line isn't active.
fn address_text(active: bool, here: u16) -> [u8; 4]
    ensures text { result ≡ address_shown active here }
    ensures places { length result ≡ 4 }
{
    if active { word_digits(here) } else { *b"----" }
}

/// Appends a sign and digits, left-aligned in the field, then the sign `more` and a space.
fn push_left(out: &mut Vec<u8>, sign: u8, digits: &[u8], more: u8) -> Result<(), AllocError>
    ensures { OnOk result (out.new.items
        ≡ out.old.items ++ (at_left 12 (sign ∷ digits.now) ++ more ∷ 32 ∷ [])) }
{
    out.push(sign)?;
    out.extend_from_slice(digits)?;
    out.extend_from_slice(&SPACES[..11usize.saturating_sub(digits.len())])?;
    out.extend_from_slice(&[more, b' '])?;
    Ok(())
}

/// Appends the first `count` bytes, with zeros past the last byte, left-aligned in the field, then
/// the sign `more` and a space. Most lines have no bytes, or the two bytes of an instruction.
fn push_bytes(out: &mut Vec<u8>, count: usize, bytes: &[u8], more: u8) -> Result<(), AllocError>
    requires { count ≤ 6 }
    ensures { OnOk result (out.new.items
        ≡ out.old.items ++ (at_left 12 (bytes_shown count bytes.now) ++ more ∷ 32 ∷ [])) }
{
    if count == 0 {
        return out.extend_from_slice(&[
            b' ', b' ', b' ', b' ', b' ', b' ', b' ', b' ', b' ', b' ', b' ', b' ', more, b' ',
        ]);
    }
    if count == 2 {
        let [a, b] = byte_digits(byte_or_zero(bytes, 0));
        let [c, d] = byte_digits(byte_or_zero(bytes, 1));
        return out.extend_from_slice(&[
            a, b, c, d, b' ', b' ', b' ', b' ', b' ', b' ', b' ', b' ', more, b' ',
        ]);
    }
    let mut digits = SPACES;
    for index in 0..count {
        let [high, low] = byte_digits(byte_or_zero(bytes, index));
        digits[2 * index] = high;
        digits[2 * index + 1] = low;
    }
    out.extend_from_slice(&digits)?;
    out.extend_from_slice(&[more, b' '])?;
    Ok(())
}

/// Appends the field of a line, the sign after the field, and a space. The text of a value, if
/// there is one, replaces the bytes of a line without a fault.
fn push_field(
    out: &mut Vec<u8>,
    fault: Option<Fault>,
    value: Option<&[u8]>,
    bytes: &[u8],
) -> Result<(), AllocError>
    ensures { OnOk result (out.new.items
        ≡ out.old.items ++ (at_left 12 (field_shown fault (option_copied value.entry) bytes.now)
        ++ more_shown fault (length bytes.now) ∷ 32 ∷ [])) }
{
    let more = if fault.is_none() && bytes.len() > 6 {
        b'+'
    } else {
        b' '
    };
    if let Some(fault) = fault {
        let mut digits = Buffer::new();
        return push_left(out, b'F', digits.format(fault.number()).as_bytes(), more);
    }
    match value {
        Some(text) => push_left(out, b'=', text, more),
        None => push_bytes(out, bytes.len().min(6), bytes, more),
    }
}

impl<'a> LineView<'a> {
    /// Appends the line's row of the listing. The text of a value, if there is one, replaces the
    /// bytes of a line without a fault.
    #[tactic(auto, unfolding(crate::specs::Listing::row))]
    pub fn push_row(&self, out: &mut Vec<u8>, value: Option<&[u8]>) -> Result<(), AllocError>
        ensures { OnOk result (out.new.items ≡ out.old.items ++ row (option_copied value.entry) self.now) }
    {
        let [a, b, c, d] = number_text(self.number);
        let [e, f, g, h] = address_text(self.placement.is_active(), self.placement.here);
        out.extend_from_slice(&[a, b, c, d, b' ', e, f, g, h, b' '])?;
        push_field(out, self.placement.status.fault(), value, self.bytes)?;
        out.extend_from_slice(self.text)?;
        out.push(b'\n')?;
        Ok(())
    }

    /// Appends the line's row of the listing, with the value of a definition in decimal.
    pub fn push_decimal_row(&self, out: &mut Vec<u8>) -> Result<(), AllocError>
        ensures { OnOk result (out.new.items ≡ out.old.items ++ row_by signed_decimal self.now) }
    {
        match self.definition() {
            Some(value) => {
                let mut digits = Buffer::new();
                self.push_row(out, Some(digits.format(value).as_bytes()))
            }
            None => self.push_row(out, None),
        }
    }
}

// The number of bytes in a row of the listing besides the line's text, if the line's number has at
// most four digits.
const BESIDE_TEXT: usize = 25;

/// The smallest possible number of bytes in the listing of these lines.
pub(crate) fn listing_bytes(lines: &[BoxedLine]) -> usize {
    let mut bytes = lines.len().saturating_mul(BESIDE_TEXT);
    for kept in lines {
        bytes = bytes.saturating_add(kept.text().len());
    }
    bytes
}
