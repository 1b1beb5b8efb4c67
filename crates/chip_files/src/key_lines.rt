//! The lines of a file of key events.
ghost use Rattle.std.specs.Prelude.{◌≡◌, ◌==◌, ◌<◌, ◌≤◌, ◌∷◌, ◌++◌, IfOk, OnOk, length};
ghost use Rattle.std.specs.List.{before_first, list_all, position_or_len};
ghost use Rattle.std.specs.Str.Lines.{lines, strip_carriage_return};
ghost use Rattle.chip_files.specs.KeyLines.{is_space, is_key_letter, key_command, said, from_second_word, skip_spaces, skip_word, with_sign};

use memchr::memchr;
use std::alloc::{AllocError, Global};

/// Returns the first line of `bytes` and the bytes after that line. The line excludes the newline that
/// ends it, and a carriage return before that newline.
pub fn first_line(bytes: &[u8]) -> (&[u8], &[u8])
    requires { 0 < length bytes.now }
    ensures first { lines bytes.now ≡ result.0.now ∷ lines result.1.now }
    ensures shorter { length result.1.now < length bytes.now }
{
    let end = place_of(b'\n', bytes);
    if end < bytes.len() {
        (without_carriage_return(&bytes[..end]), &bytes[end + 1..])
    } else {
        (bytes, &[])
    }
}

/// Returns the script command for a line of the file: `kins S K down` for `S K down`, and `kins S K up`
/// for `S K up`. K may also be a letter A to F, in either case, and the command then has a `#` before
/// the letter. A semicolon begins a comment. For a line that is blank or only a comment, the command is
/// empty.
///
/// # Errors
///
/// Out of memory.
#[tactic(auto, unfolding(crate::specs::KeyLines::key_command))]
pub fn key_command(alloc: Global, line: &[u8]) -> Result<Vec<u8>, AllocError>
    ensures { IfOk result (λ command. command.items ≡ key_command line.now) }
{
    let text = said(line);
    let mut command = Vec::new(alloc);
    if !is_blank(text) {
        command.extend_from_slice(b"kins ")?;
        let key = from_second_word(text);
        command.extend_from_slice(&text[..text.len() - key.len()])?;
        push_key(&mut command, key)?;
    }
    Ok(command)
}

// Appends a text that begins with a key, after a `#` if the key is a letter.
#[tactic(auto, unfolding(crate::specs::KeyLines::with_sign))]
fn push_key(command: &mut Vec<u8>, text: &[u8]) -> Result<(), AllocError>
    ensures { OnOk result (command.new.items ≡ command.old.items ++ with_sign text.now) }
{
    if is_key_letter(&text[..place_of(b' ', text)]) {
        command.push(b'#')?;
    }
    command.extend_from_slice(text)?;
    Ok(())
}

// Whether a word is one letter A to F, in either case.
#[tactic(auto, unfolding(crate::specs::KeyLines::is_key_letter))]
fn is_key_letter(word: &[u8]) -> bool
    ensures { result ≡ is_key_letter word.now }
{
    match word {
        [letter] => (b'A' <= *letter && *letter <= b'F') || (b'a' <= *letter && *letter <= b'f'),
        _ => false,
    }
}

// The part of a text from its second word on; empty if it has no second word.
#[tactic(auto, unfolding(crate::specs::KeyLines::from_second_word))]
fn from_second_word(text: &[u8]) -> &[u8]
    ensures value { result.now ≡ from_second_word text.now }
    ensures within { length result.now ≤ length text.now }
{
    skip_spaces(skip_word(skip_spaces(text)))
}

// A text without the spaces at its start.
fn skip_spaces(text: &[u8]) -> &[u8]
    ensures value { result.now ≡ skip_spaces text.now }
    ensures within { length result.now ≤ length text.now }
{
    let mut rest = text;
    while let [b' ', tail @ ..] = rest {
        rest = tail;
    }
    rest
}

// The part of a text from its first space on; empty if it has no space.
fn skip_word(text: &[u8]) -> &[u8]
    ensures value { result.now ≡ skip_word text.now }
    ensures within { length result.now ≤ length text.now }
{
    &text[place_of(b' ', text)..]
}

// The part of a line before its comment.
fn said(line: &[u8]) -> &[u8]
    ensures { result.now ≡ said line.now }
{
    &line[..place_of(b';', line)]
}

// Whether a text consists of spaces only.
fn is_blank(text: &[u8]) -> bool
    ensures { result ≡ list_all is_space text.now }
{
    text.iter().all(|byte| *byte == b' ')
}

// A line without the carriage return at its end, if it has one.
fn without_carriage_return(line: &[u8]) -> &[u8]
    ensures { result.now ≡ strip_carriage_return line.now }
{
    match line {
        [front @ .., b'\r'] => front,
        _ => line,
    }
}

// The index of the first occurrence of a byte in a text, or the text's length if the byte doesn't occur.
fn place_of(wanted: u8, text: &[u8]) -> usize
    ensures value { result ≡ position_or_len (λ byte. byte == wanted) text.now }
    ensures within { result ≤ length text.now }
{
    match memchr(wanted, text) {
        Some(place) => place,
        None => text.len(),
    }
}
