//! The kinds of lines in a file of cases that can be recognized from the line alone.

ghost use Rattle.std.specs.Prelude.{◌≡◌, ◌≤◌, length};
ghost use Rattle.std.specs.List.{after_first, before_first, position_or_len};
ghost use Rattle.chip_cases.specs.Lines.{begins_part, is_case, is_command, is_skipped, is_space, is_refused};

/// Whether a line is empty or a comment, which begins with `#`.
pub(crate) fn is_skipped(line: &[u8]) -> bool
    ensures { result ≡ is_skipped line.now }
{
    match line {
        [] => true,
        [first, ..] => *first == b'#',
    }
}

/// Whether a line is a command: `> COMMAND` or `! COMMAND`.
pub(crate) fn is_command(line: &[u8]) -> bool
    ensures { result ≡ is_command line.now }
{
    let mark = split_word(line).0;
    mark == b">".as_slice() || mark == b"!".as_slice()
}

/// Whether the first word of a line is `!`, which marks a command for which a refusal is expected.
pub(crate) fn is_refused(line: &[u8]) -> bool
    ensures { result ≡ is_refused line.now }
{
    split_word(line).0 == b"!".as_slice()
}

/// Whether a line is the first line of a case: `case NAME`.
pub(crate) fn is_case(line: &[u8]) -> bool
    ensures { result ≡ is_case line.now }
{
    split_word(line).0 == b"case".as_slice()
}

/// Whether a line begins a new part of the file, which is a command or a case.
pub(crate) fn begins_part(line: &[u8]) -> bool
    ensures { result ≡ begins_part line.now }
{
    is_command(line) || is_case(line)
}

/// Returns the bytes before the first space and the bytes after it. If there is no space, these are
/// the whole line and an empty slice.
pub(crate) fn split_word(line: &[u8]) -> (&[u8], &[u8])
    ensures word { result.0.now ≡ before_first is_space line.now }
    ensures rest { result.1.now ≡ after_first is_space line.now }
{
    let len = word_len(line);
    if len < line.len() {
        (&line[..len], &line[len + 1..])
    } else {
        (line, &[])
    }
}

// The index of the first space, or the length of the line if there is no space.
fn word_len(line: &[u8]) -> usize
    ensures value { result ≡ position_or_len is_space line.now }
    ensures within { result ≤ length line.now }
{
    for (i, byte) in line.iter().enumerate() {
        if *byte == b' ' {
            return i;
        }
    }
    line.len()
}
