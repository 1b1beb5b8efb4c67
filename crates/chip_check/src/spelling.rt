//! Finds names that contain a byte that no name can contain.

ghost use Rattle.std.specs.Prelude.{◌≤◌, length};

/// The first byte that no name can contain, in the name that begins a line and is defined by `:`,
/// `=` or EQU.
pub(crate) fn wrong_byte(line: &[u8]) -> Option<u8> {
    let line = line.trim_ascii_start();
    let (name, rest) = line.split_at(name_end(line));
    let is_whole = name.last().is_some_and(is_name_byte);
    let is_defined = match rest.trim_ascii_start() {
        [b':', ..] => true,
        [b'=', ..] | [b'E' | b'e', b'Q' | b'q', b'U' | b'u', ..] => is_whole,
        _ => false,
    };
    match name.first() {
        Some(b'A'..=b'Z' | b'a'..=b'z' | b'_') if is_defined => first_wrong(name),
        _ => None,
    }
}

/// The number of bytes in a line before the first byte that can't belong even to a misspelled name.
fn name_end(line: &[u8]) -> usize
    ensures { result ≤ length line.now }
{
    for (index, byte) in line.iter().enumerate() {
        if matches!(byte, 0..=b' ') || b":=;,'\"([<>+*&|^".contains(byte) {
            return index;
        }
    }
    line.len()
}

/// The first byte of an ASCII name that is not a letter, a digit or `_`.
fn first_wrong(name: &[u8]) -> Option<u8> {
    for byte in name {
        if !is_name_byte(byte) && byte.is_ascii() {
            return Some(*byte);
        }
    }
    None
}

/// Whether a byte is a letter, a digit or `_`.
fn is_name_byte(byte: &u8) -> bool {
    byte.is_ascii_alphanumeric() || *byte == b'_'
}
