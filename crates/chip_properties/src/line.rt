//! Lines that state properties.

ghost use Rattle.std.specs.Prelude.{◌≡◌, ◌≤◌, IfOk, IfSome, length};
ghost use Rattle.std.specs.List.{prefix_len};
ghost use Rattle.std.specs.Option.{option_copied};
ghost use Rattle.chip_lang.specs.Token.{is_blank};
ghost use Rattle.chip_properties.specs.Lines.{mark_end, property_text_of, trimmed, words_in};

use chip_lang::{Bytes, Lexeme, lexemes};
use std::alloc::{AllocError, Global};

/// Returns the text of a line's property: the text after `;!`, without blanks at both ends. Returns
/// `None` if the first bytes of the line other than blanks aren't `;!`.
pub fn property_text(line: &[u8]) -> Option<&[u8]>
    ensures { option_copied result ≡ property_text_of line.now }
{
    let start = mark_end(line)?;
    Some(trimmed(&line[start..]))
}

/// Returns the words of the property on a line, in upper case: the names in it and the language's
/// own words. The list is empty if the line states no property.
///
/// # Errors
///
/// Out of memory.
pub fn names_used(alloc: Global, line: &[u8]) -> Result<Vec<Bytes>, AllocError>
    ensures { IfOk result (λ words. words.items ≡ words_in line.now) }
{
    let mut words = Vec::new(alloc);
    let Some(start) = mark_end(line) else {
        return Ok(words);
    };
    let tokens = lexemes(alloc, &line[start..])?;
    for token in &tokens {
        if let Lexeme::Word(word) = token {
            let word = Bytes::from_slice(alloc, word.get())?;
            words.push(word)?;
        }
    }
    Ok(words)
}

/// Returns the place in a line at which the text of a property begins, after `;!`.
pub(crate) fn mark_end(line: &[u8]) -> Option<usize>
    ensures value { result ≡ mark_end line.now }
    ensures within { IfSome result (λ end. end ≤ length line.now) }
{
    let blanks = front_blanks(line);
    match &line[blanks..] {
        [b';', b'!', ..] => Some(blanks + 2),
        _ => None,
    }
}

/// Returns the number of blanks at the front of some bytes.
fn front_blanks(bytes: &[u8]) -> usize
    ensures value { result ≡ prefix_len is_blank bytes.now }
    ensures within { result ≤ length bytes.now }
{
    for (index, byte) in bytes.iter().enumerate() {
        if !is_blank(*byte) {
            return index;
        }
    }
    bytes.len()
}

fn is_blank(byte: u8) -> bool
    ensures { result ≡ is_blank byte }
{
    matches!(byte, b' ' | 9 | 12 | 13 | 26)
}

/// Returns bytes without the blanks at both ends.
#[tactic(auto, using(crate::proofs::Ends::trim_steps))]
fn trimmed(bytes: &[u8]) -> &[u8]
    ensures { result.now ≡ trimmed bytes.now }
{
    let mut rest = &bytes[front_blanks(bytes)..];
    while let Some((last, front)) = rest.split_last() {
        if !is_blank(*last) {
            break;
        }
        rest = front;
    }
    rest
}
