//! A source text that is built from an image.

ghost use Rattle.std.specs.Prelude.{◌≡◌, ◌≤◌, ◌<◌, ◌++◌, None, Some, IfOk, OnOk, length, codes};
ghost use Rattle.std.specs.Str.Lines.{lines};
ghost use Rattle.std.specs.List.{list_all};
ghost use Rattle.std.specs.FinMap as map;
ghost use Rattle.chip_lang.specs.Line.{reading_of};
ghost use Rattle.chip_lang.specs.SeenLine.{seen_line};
ghost use Rattle.chip_lang.specs.Show.{hex_digit, four_hex_digits, two_hex_digits};
ghost use Rattle.chip_asm.specs.Lines.{open_fault};
ghost use Rattle.chip_asm.specs.Program.{image_of};
ghost use Rattle.chip_views.specs.Dis.{is_visible, is_plain, is_word, result_of, gives_word, word_text, line_text, source_of_image};

use chip_asm::limits::LINE_BYTES;
use chip_lang::{Body, Coded, Line, Meter, Names, encode, read_line, show};
use chip_machine::limits::IMAGE_BYTES;
use std::alloc::{AllocError, Global};

// A table without names.
struct NoNames;

impl Names for NoNames {
    ghost symbols = { λ _. map.empty };

    fn value(&self, _name: &[u8]) -> Option<i32> {
        None
    }
}

/// Returns a source text for an image of at most 3,584 bytes. Each word becomes a line: the instruction that
/// the word encodes, or `DW #wwww` if there is none. An odd last byte becomes the lines `ALIGN OFF` and
/// `DB #bb`. The text opens, has no fault, and assembles to the same image.
///
/// # Errors
///
/// Out of memory.
pub fn source_of_image(alloc: Global, image: &[u8]) -> Result<Vec<u8>, AllocError>
    requires { length image.now ≤ IMAGE_BYTES }
    ensures text { IfOk result (λ text. text.items ≡ source_of_image image.now) }
    ensures opens { IfOk result (λ text. open_fault text.items ≡ None) }
    ensures image { IfOk result (λ text. image_of (lines text.items) ≡ Some image.now) }
{
    let text = text_of_image(alloc, image)?;
    Ok(text)
}

fn text_of_image(alloc: Global, image: &[u8]) -> Result<Vec<u8>, AllocError>
    ensures { IfOk result (λ text. text.items ≡ source_of_image image.now) }
{
    let mut text = Vec::new(alloc);
    let mut rest = image;
    while let [high, low, more @ ..] = rest {
        push_word_line(alloc, &mut text, 256 * u16::from(*high) + u16::from(*low))?;
        rest = more;
    }
    if let [byte] = rest {
        push_byte_lines(&mut text, *byte)?;
    }
    Ok(text)
}

// Appends the line for a word, with a newline.
#[tactic(auto, unfolding(crate::specs::Dis::word_text))]
fn push_word_line(alloc: Global, text: &mut Vec<u8>, word: u16) -> Result<(), AllocError>
    ensures { OnOk result (text.new.items ≡ text.old.items ++ line_text (word_text word)) }
{
    let shown = show(alloc, word)?;
    if is_plain(shown.as_bytes()) && gives_word(alloc, shown.as_bytes(), word)? {
        text.extend_from_slice(shown.as_bytes())?;
    } else {
        push_data_word(text, word)?;
    }
    text.push(b'\n')?;
    Ok(())
}

// Whether a line isn't too long and consists of printable ASCII characters only.
fn is_plain(text: &[u8]) -> bool
    ensures { result ≡ is_plain text.now }
{
    text.len() <= LINE_BYTES && is_visible(text)
}

// Whether a text consists of printable ASCII characters only.
fn is_visible(text: &[u8]) -> bool
    ensures { result ≡ list_all is_visible text.now }
{
    text.iter().all(|byte| 32 <= *byte && *byte <= 126)
}

// Whether a line contains an instruction and no label, and the instruction's code is the given word.
fn gives_word(alloc: Global, text: &[u8], word: u16) -> Result<bool, AllocError>
    ensures { IfOk result (λ gives. gives ≡ gives_word word (reading_of text.now)) }
{
    let mut meter = Meter::new();
    let line = read_line(alloc, &mut meter, text)?;
    line_gives_word(alloc, &mut meter, &line, word)
}

fn line_gives_word(
    alloc: Global,
    meter: &mut Meter,
    line: &Line,
    word: u16,
) -> Result<bool, AllocError>
    ensures { IfOk result (λ gives. gives ≡ gives_word word (seen_line line.now)) }
{
    match line {
        Line::Read {
            label: None,
            body: Body::Code(_, _),
        } => {
            let coded = encode(alloc, meter, line, &NoNames)?;
            Ok(is_word(&coded, word))
        }
        _ => Ok(false),
    }
}

// Whether a code is the two bytes of a word.
fn is_word(coded: &Coded, word: u16) -> bool
    ensures { result ≡ is_word word (result_of coded.now) }
{
    match coded {
        Coded::Bytes(bytes) => {
            let high = (word / 256) as u8;
            let low = (word % 256) as u8;
            bytes.get() == [high, low].as_slice()
        }
        Coded::Faulty(_) => false,
    }
}

fn push_data_word(text: &mut Vec<u8>, word: u16) -> Result<(), AllocError>
    ensures { OnOk result (text.new.items ≡ text.old.items ++ codes "DW #" ++ four_hex_digits word) }
{
    text.extend_from_slice(b"DW #")?;
    push_word(text, word)
}

/// Appends a word as four hexadecimal digits.
pub(crate) fn push_word(text: &mut Vec<u8>, word: u16) -> Result<(), AllocError>
    ensures { OnOk result (text.new.items ≡ text.old.items ++ four_hex_digits word) }
{
    text.extend_from_slice(&[
        hex_digit(word / 4096 % 16),
        hex_digit(word / 256 % 16),
        hex_digit(word / 16 % 16),
        hex_digit(word % 16),
    ])
}

// Appends the lines for an odd last byte.
fn push_byte_lines(text: &mut Vec<u8>, byte: u8) -> Result<(), AllocError>
    ensures { OnOk result (text.new.items
        ≡ text.old.items ++ line_text (codes "ALIGN OFF")
        ++ line_text (codes "DB #" ++ two_hex_digits byte)) }
{
    let byte = u16::from(byte);
    text.extend_from_slice(b"ALIGN OFF\nDB #")?;
    text.push(hex_digit(byte / 16 % 16))?;
    text.push(hex_digit(byte % 16))?;
    text.push(b'\n')?;
    Ok(())
}

fn hex_digit(value: u16) -> u8
    requires { value < 16 }
    ensures { result ≡ hex_digit value }
{
    if value < 10 {
        48 + value as u8
    } else {
        87 + value as u8
    }
}
