//! The source text of a word.

ghost use Rattle.std.specs.Prelude.{◌≡◌, ◌∷◌, ◌++◌, ◌<◌, ◌/◌, ◌%◌, ◌==◌, [], None, if◌then◌else◌, codes, IfOk, OnOk, string_bytes};
ghost use Rattle.chip_lang.specs.declared.form.Pattern.TheVariants.{Vx, Vy, Byte, Address};
ghost use Rattle.chip_lang.specs.Show.{two_hex_digits, four_hex_digits, small_decimal, register_digit, operands_text, form_text, show_of};
ghost use Rattle.chip_lang.specs.Table.{fields_in};
ghost use Rattle.chip_lang.specs.inner.ByDigits.{form_with};

use std::alloc::{AllocError, Global};

// The longest source texts, such as `DRW V0, V0, 10`, have this many bytes.
const LONGEST_TEXT: usize = 14;

// The digit in each register's name.
const REGISTER_DIGITS: [u8; 16] = *b"0123456789ABCDEF";

// The two hexadecimal digits of each byte. Those of byte `b` begin at index 2 * `b`.
const DIGIT_PAIRS: [u8; 512] = *b"000102030405060708090a0b0c0d0e0f\
    101112131415161718191a1b1c1d1e1f\
    202122232425262728292a2b2c2d2e2f\
    303132333435363738393a3b3c3d3e3f\
    404142434445464748494a4b4c4d4e4f\
    505152535455565758595a5b5c5d5e5f\
    606162636465666768696a6b6c6d6e6f\
    707172737475767778797a7b7c7d7e7f\
    808182838485868788898a8b8c8d8e8f\
    909192939495969798999a9b9c9d9e9f\
    a0a1a2a3a4a5a6a7a8a9aaabacadaeaf\
    b0b1b2b3b4b5b6b7b8b9babbbcbdbebf\
    c0c1c2c3c4c5c6c7c8c9cacbcccdcecf\
    d0d1d2d3d4d5d6d7d8d9dadbdcdddedf\
    e0e1e2e3e4e5e6e7e8e9eaebecedeeef\
    f0f1f2f3f4f5f6f7f8f9fafbfcfdfeff";

/// The source text of a word: registers as `V0` to `VF`, a byte as `#kk`, an address as `#nnn`, and
/// a nibble in decimal. The text of a word that isn't an instruction is `DW #wwww`. Reading the
/// text as a line and encoding that line returns the same word. Fails only if memory runs out.
pub fn show(alloc: Global, word: u16) -> Result<String, AllocError>
    ensures text { IfOk result (λ text. string_bytes text ≡ show_of word) }
{
    let mut bytes = Vec::with_capacity(alloc, LONGEST_TEXT)?;
    push_shown(&mut bytes, word)?;
    let Ok(text) = String::from_utf8(bytes) else {
        unreachable!();
    };
    Ok(text)
}

/// Appends the source text of a word, as `show` returns it. Fails only if memory runs out, possibly
/// after a part of the text has been appended.
#[tactic(auto, using(crate::proofs::ShownForm::text_by_digits), unfolding(crate::specs::inner::ByDigits::form_with))]
pub fn push_shown(text: &mut Vec<u8>, word: u16) -> Result<(), AllocError>
    ensures text { OnOk result (text.new.items ≡ text.old.items ++ show_of word) }
{
    match word / 4096 {
        0 => push_system(text, word),
        1 => push_with_address(text, b"JP", word),
        2 => push_with_address(text, b"CALL", word),
        3 => push_with_byte(text, b"SE", word),
        4 => push_with_byte(text, b"SNE", word),
        5 => push_comparison(text, b"SE", word),
        6 => push_with_byte(text, b"LD", word),
        7 => push_with_byte(text, b"ADD", word),
        8 => push_arithmetic(text, word),
        9 => push_comparison(text, b"SNE", word),
        10 => push_with_address(text, b"LD I,", word),
        11 => push_with_address(text, b"JP V0,", word),
        12 => push_with_byte(text, b"RND", word),
        13 => {
            push_with_registers(text, b"DRW", word)?;
            push_small_decimal(text, b", ", word % 16)
        }
        14 => push_key(text, word),
        15 => push_transfer(text, word),
        _ => push_data(text, word),
    }
}

/// Appends the text of a word whose first digit is 0.
#[tactic(auto, unfolding(crate::specs::inner::ByDigits::form_with))]
fn push_system(text: &mut Vec<u8>, word: u16) -> Result<(), AllocError>
    ensures { OnOk result (text.new.items
        ≡ text.old.items ++ form_text (form_with 0 (fields_in word)) word) }
{
    if word / 256 % 16 != 0 {
        return push_data(text, word);
    }
    if word / 16 % 16 == 12 {
        return push_small_decimal(text, b"SCD ", word % 16);
    }
    match word % 256 {
        0xE0 => text.extend_from_slice(b"CLS"),
        0xEE => text.extend_from_slice(b"RET"),
        0xFB => text.extend_from_slice(b"SCR"),
        0xFC => text.extend_from_slice(b"SCL"),
        0xFD => text.extend_from_slice(b"EXIT"),
        0xFE => text.extend_from_slice(b"LOW"),
        0xFF => text.extend_from_slice(b"HIGH"),
        _ => push_data(text, word),
    }
}

/// Appends the text of a word whose first digit is 8.
#[tactic(auto, unfolding(crate::specs::inner::ByDigits::form_with))]
fn push_arithmetic(text: &mut Vec<u8>, word: u16) -> Result<(), AllocError>
    ensures { OnOk result (text.new.items
        ≡ text.old.items ++ form_text (form_with 8 (fields_in word)) word) }
{
    match word % 16 {
        0 => push_with_registers(text, b"LD", word),
        1 => push_with_registers(text, b"OR", word),
        2 => push_with_registers(text, b"AND", word),
        3 => push_with_registers(text, b"XOR", word),
        4 => push_with_registers(text, b"ADD", word),
        5 => push_with_registers(text, b"SUB", word),
        6 => push_shift(text, b"SHR", word),
        7 => push_with_registers(text, b"SUBN", word),
        14 => push_shift(text, b"SHL", word),
        _ => push_data(text, word),
    }
}

/// Appends the text of a word whose first digit is 14 (`E`).
#[tactic(auto, unfolding(crate::specs::inner::ByDigits::form_with))]
fn push_key(text: &mut Vec<u8>, word: u16) -> Result<(), AllocError>
    ensures { OnOk result (text.new.items
        ≡ text.old.items ++ form_text (form_with 14 (fields_in word)) word) }
{
    match word % 256 {
        0x9E => push_with_register(text, b"SKP", word, b""),
        0xA1 => push_with_register(text, b"SKNP", word, b""),
        _ => push_data(text, word),
    }
}

/// Appends the text of a word whose first digit is 15 (`F`).
#[tactic(auto, unfolding(crate::specs::inner::ByDigits::form_with))]
fn push_transfer(text: &mut Vec<u8>, word: u16) -> Result<(), AllocError>
    ensures { OnOk result (text.new.items
        ≡ text.old.items ++ form_text (form_with 15 (fields_in word)) word) }
{
    match word % 256 {
        0x07 => push_with_register(text, b"LD", word, b", DT"),
        0x0A => push_with_register(text, b"LD", word, b", K"),
        0x15 => push_with_register(text, b"LD DT,", word, b""),
        0x18 => push_with_register(text, b"LD ST,", word, b""),
        0x1E => push_with_register(text, b"ADD I,", word, b""),
        0x29 => push_with_register(text, b"LD F,", word, b""),
        0x30 => push_with_register(text, b"LD HF,", word, b""),
        0x33 => push_with_register(text, b"LD B,", word, b""),
        0x55 => push_with_register(text, b"LD [I],", word, b""),
        0x65 => push_with_register(text, b"LD", word, b", [I]"),
        0x75 => push_with_register(text, b"LD R,", word, b""),
        0x85 => push_with_register(text, b"LD", word, b", R"),
        _ => push_data(text, word),
    }
}

/// Appends a name and two registers if the word's last digit is 0, or else `DW #wwww`.
#[inline(always)]
fn push_comparison(text: &mut Vec<u8>, name: &[u8], word: u16) -> Result<(), AllocError>
    ensures { OnOk result (text.new.items ≡ text.old.items
        ++ (if word % 16 == 0 then name.now ++ operands_text (codes " ") (Vx ∷ Vy ∷ []) word
        else form_text None word)) }
{
    if word % 16 == 0 {
        push_with_registers(text, name, word)
    } else {
        push_data(text, word)
    }
}

/// Appends a name and the register X of a word. Also appends the register Y unless it is V0.
#[inline(always)]
fn push_shift(text: &mut Vec<u8>, name: &[u8], word: u16) -> Result<(), AllocError>
    ensures { OnOk result (text.new.items ≡ text.old.items
        ++ (name.now
        ++ operands_text (codes " ") (if word / 16 % 16 == 0 then Vx ∷ [] else Vx ∷ Vy ∷ []) word)) }
{
    if word / 16 % 16 == 0 {
        push_with_register(text, name, word, b"")
    } else {
        push_with_registers(text, name, word)
    }
}

/// Appends the text `before`, the register X of a word, and the text `after`.
#[inline(always)]
fn push_with_register(
    text: &mut Vec<u8>,
    before: &[u8],
    word: u16,
    after: &[u8],
) -> Result<(), AllocError>
    ensures { OnOk result (text.new.items ≡ text.old.items
        ++ (before.now ++ operands_text (codes " ") (Vx ∷ []) word ++ after.now)) }
{
    text.extend_from_slice(before)?;
    text.extend_from_slice(&[b' ', b'V', register_digit(word / 256 % 16)])?;
    text.extend_from_slice(after)
}

/// Appends a name and the registers X and Y of a word.
#[inline(always)]
fn push_with_registers(text: &mut Vec<u8>, name: &[u8], word: u16) -> Result<(), AllocError>
    ensures { OnOk result (text.new.items
        ≡ text.old.items ++ (name.now ++ operands_text (codes " ") (Vx ∷ Vy ∷ []) word)) }
{
    let x = register_digit(word / 256 % 16);
    let y = register_digit(word / 16 % 16);
    text.extend_from_slice(name)?;
    text.extend_from_slice(&[b' ', b'V', x, b',', b' ', b'V', y])
}

/// Appends a name, and the register X and the byte of a word.
#[inline(always)]
fn push_with_byte(text: &mut Vec<u8>, name: &[u8], word: u16) -> Result<(), AllocError>
    ensures { OnOk result (text.new.items
        ≡ text.old.items ++ (name.now ++ operands_text (codes " ") (Vx ∷ Byte ∷ []) word)) }
{
    let x = register_digit(word / 256 % 16);
    let [high, low] = byte_digits((word % 256) as u8);
    text.extend_from_slice(name)?;
    text.extend_from_slice(&[b' ', b'V', x, b',', b' ', b'#', high, low])
}

/// Appends the text `before` and the address of a word.
#[inline(always)]
fn push_with_address(text: &mut Vec<u8>, before: &[u8], word: u16) -> Result<(), AllocError>
    ensures { OnOk result (text.new.items
        ≡ text.old.items ++ (before.now ++ operands_text (codes " ") (Address ∷ []) word)) }
{
    let [_, a, b, c] = word_digits(word % 4096);
    text.extend_from_slice(before)?;
    text.extend_from_slice(&[b' ', b'#', a, b, c])
}

/// Appends the text `before` and a number below 16 in decimal.
#[inline(always)]
fn push_small_decimal(text: &mut Vec<u8>, before: &[u8], number: u16) -> Result<(), AllocError>
    requires { number < 16 }
    ensures { OnOk result (text.new.items
        ≡ text.old.items ++ (before.now ++ small_decimal number)) }
{
    text.extend_from_slice(before)?;
    if number < 10 {
        text.extend_from_slice(&[b'0' + number as u8])
    } else {
        text.extend_from_slice(&[b'1', b'0' + (number as u8 - 10)])
    }
}

/// Appends `DW #wwww`.
fn push_data(text: &mut Vec<u8>, word: u16) -> Result<(), AllocError>
    ensures { OnOk result (text.new.items ≡ text.old.items ++ form_text None word) }
{
    let [a, b, c, d] = word_digits(word);
    text.extend_from_slice(&[b'D', b'W', b' ', b'#', a, b, c, d])
}

/// The digit of a register's name, in upper case, for a number below 16.
#[tactic(auto, using(crate::proofs::ShownDigits::register_digit_is))]
fn register_digit(digit: u16) -> u8
    requires { digit < 16 }
    ensures { result ≡ register_digit digit }
{
    REGISTER_DIGITS[usize::from(digit)]
}

/// A byte as two hexadecimal digits in lower case.
#[inline(always)]
#[tactic(auto, using(crate::proofs::ShownDigits::digit_pair))]
pub fn byte_digits(byte: u8) -> [u8; 2]
    ensures { result ≡ two_hex_digits byte }
{
    let pair = 2 * usize::from(byte);
    [DIGIT_PAIRS[pair], DIGIT_PAIRS[pair + 1]]
}

/// A number of 16 bits as four hexadecimal digits in lower case.
#[inline(always)]
#[tactic(auto, using(crate::proofs::ShownDigits::four_digits))]
pub fn word_digits(word: u16) -> [u8; 4]
    ensures { result ≡ four_hex_digits word }
{
    let [a, b] = byte_digits((word / 256) as u8);
    let [c, d] = byte_digits((word % 256) as u8);
    [a, b, c, d]
}
