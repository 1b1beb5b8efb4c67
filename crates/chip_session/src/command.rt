//! The commands of a script.
ghost use Rattle.std.specs.Prelude.{◌≡◌, ◌≤◌, ◌^◌, ◌++◌, length, None, Some, if◌then◌else◌};
ghost use Rattle.std.specs.Char.{digit_value, is_digit};
ghost use Rattle.std.specs.Str.Parse.{digits_value};
ghost use Rattle.std.specs.List.{list_all, before_first, after_first, position_or_len};
ghost use Rattle.chip_session.specs.Commands.{command_of, is_space, skip_spaces, numeral, number_spelled, command_in, worded, key_edits, source_questions, machine_questions, read_by, nothing, front_number, next_words, one_number, two_numbers, three_numbers, key_state, key_event};
ghost use Rattle.chip_session.specs.CommandView.{Reads};
ghost use Rattle.chip_session.specs.Transcript.{fault_code};

use crate::edit::Edit;
use crate::limits::COMMAND_BYTES;
use crate::question::Question;

/// A command of a script.
#[derive(Clone, Copy)]
pub enum Command<'a> {
    /// A line that is empty or contains only spaces.
    Blank,
    Edit(Edit<'a>),
    Ask(Question),
}

/// The reason why a line is not a command.
#[derive(Clone, Copy, PartialEq, Eq)]
pub enum CommandFault {
    /// C1: the command doesn't exist, or its operands are wrong.
    Unknown,
    /// C2: the line is longer than `COMMAND_BYTES` bytes.
    TooLong,
}

impl CommandFault {
    /// The code that follows `no` in the answer to the line.
    pub fn code(self) -> &'static [u8]
        ensures { result.now ≡ fault_code self }
    {
        match self {
            CommandFault::Unknown => b"C1",
            CommandFault::TooLong => b"C2",
        }
    }
}

/// Returns the command on a line of a script.
///
/// # Errors
///
/// The line is longer than `COMMAND_BYTES` bytes, or it is not a command.
pub fn read_command(line: &[u8]) -> Result<Command<'_>, CommandFault>
    ensures { Reads result (command_of line.now) }
{
    if line.len() > COMMAND_BYTES {
        return Err(CommandFault::TooLong);
    }
    if is_blank(line) {
        return Ok(Command::Blank);
    }
    let (word, rest) = split_word(line);
    command_named(word, skip_spaces(rest))
}

// Returns the command for a first word, given the text after that word and its spaces.
#[tactic(auto, unfolding(crate::specs::Commands::line_edits))]
fn command_named<'a>(word: &[u8], operands: &'a [u8]) -> Result<Command<'a>, CommandFault>
    ensures { Reads result (worded word.now operands.now) }
{
    if word == b"ins".as_slice() {
        return match front_number(operands) {
            Some(line) => Ok(Command::Edit(Edit::Insert {
                line,
                text: after_word(operands),
            })),
            None => Err(CommandFault::Unknown),
        };
    }
    if word == b"rep".as_slice() {
        return match front_number(operands) {
            Some(line) => Ok(Command::Edit(Edit::Replace {
                line,
                text: after_word(operands),
            })),
            None => Err(CommandFault::Unknown),
        };
    }
    if word == b"del".as_slice() {
        return match one_number(operands) {
            Some(line) => Ok(Command::Edit(Edit::Delete { line })),
            None => Err(CommandFault::Unknown),
        };
    }
    key_edit(word, operands)
}

// Returns the edit of the key events, or the question, that a first word begins.
#[tactic(auto, unfolding(crate::specs::Commands::key_edits))]
fn key_edit<'a>(word: &[u8], operands: &'a [u8]) -> Result<Command<'a>, CommandFault>
    ensures { Reads result
        (command_in (key_edits ++ (source_questions ++ machine_questions)) word.now operands.now) }
{
    if word == b"kins".as_slice() {
        return match key_event(operands) {
            Some((step, (key, down))) => Ok(Command::Edit(Edit::InsertKey { step, key, down })),
            None => Err(CommandFault::Unknown),
        };
    }
    if word == b"krep".as_slice() {
        return match key_event(operands) {
            Some((step, (key, down))) => Ok(Command::Edit(Edit::ReplaceKey { step, key, down })),
            None => Err(CommandFault::Unknown),
        };
    }
    if word == b"kdel".as_slice() {
        return match two_numbers(operands) {
            Some((step, key)) => Ok(Command::Edit(Edit::DeleteKey { step, key })),
            None => Err(CommandFault::Unknown),
        };
    }
    source_question(word, operands)
}

// Returns the question about the source or the machine that a first word begins.
#[tactic(auto, unfolding(crate::specs::Commands::source_questions))]
fn source_question<'a>(word: &[u8], operands: &'a [u8]) -> Result<Command<'a>, CommandFault>
    ensures { Reads result
        (command_in (source_questions ++ machine_questions) word.now operands.now) }
{
    if word == b"image".as_slice() {
        return without_words(operands, Question::Image);
    }
    if word == b"syms".as_slice() {
        return without_words(operands, Question::Symbols);
    }
    if word == b"list".as_slice() {
        return without_words(operands, Question::Listing);
    }
    if word == b"faults".as_slice() {
        return without_words(operands, Question::Faults);
    }
    machine_question(word, operands)
}

fn without_words<'a>(operands: &'a [u8], question: Question) -> Result<Command<'a>, CommandFault>
    ensures { Reads result (read_by (nothing question) operands.now) }
{
    if operands.is_empty() {
        Ok(Command::Ask(question))
    } else {
        Err(CommandFault::Unknown)
    }
}

// Returns the question about the machine that a first word begins.
#[tactic(auto, unfolding(crate::specs::Commands::machine_questions))]
fn machine_question<'a>(word: &[u8], operands: &'a [u8]) -> Result<Command<'a>, CommandFault>
    ensures { Reads result (command_in machine_questions word.now operands.now) }
{
    if word == b"regs".as_slice() {
        return match one_number(operands) {
            Some(step) => Ok(Command::Ask(Question::Registers { step })),
            None => Err(CommandFault::Unknown),
        };
    }
    if word == b"mem".as_slice() {
        return match three_numbers(operands) {
            Some((step, (at, count))) => Ok(Command::Ask(Question::Memory { step, at, count })),
            None => Err(CommandFault::Unknown),
        };
    }
    if word == b"screen".as_slice() {
        return match one_number(operands) {
            Some(step) => Ok(Command::Ask(Question::Screen { step })),
            None => Err(CommandFault::Unknown),
        };
    }
    if word == b"dis".as_slice() {
        return match three_numbers(operands) {
            Some((step, (at, count))) => Ok(Command::Ask(Question::Disassembly {
                step,
                at,
                count,
            })),
            None => Err(CommandFault::Unknown),
        };
    }
    Err(CommandFault::Unknown)
}

// The number at the start of the operands.
fn front_number(operands: &[u8]) -> Option<u32>
    ensures { result ≡ front_number operands.now }
{
    number_of(split_word(operands).0)
}

// The text after the first word and the spaces that follow it.
fn next_words(operands: &[u8]) -> &[u8]
    ensures { result.now ≡ next_words operands.now }
{
    skip_spaces(after_word(operands))
}

// The text after the first word and the single space that follows it.
fn after_word(operands: &[u8]) -> &[u8]
    ensures { result.now ≡ after_first is_space operands.now }
{
    split_word(operands).1
}

#[tactic(auto, unfolding(crate::specs::Commands::one_number))]
fn one_number(operands: &[u8]) -> Option<u32>
    ensures { result ≡ one_number operands.now }
{
    let (word, rest) = split_word(operands);
    if skip_spaces(rest).is_empty() {
        number_of(word)
    } else {
        None
    }
}

#[tactic(auto, unfolding(crate::specs::Commands::two_numbers))]
fn two_numbers(operands: &[u8]) -> Option<(u32, u32)>
    ensures { result ≡ two_numbers operands.now }
{
    let first = front_number(operands)?;
    let second = one_number(next_words(operands))?;
    Some((first, second))
}

#[tactic(auto, unfolding(crate::specs::Commands::three_numbers))]
fn three_numbers(operands: &[u8]) -> Option<(u32, (u32, u32))>
    ensures { result ≡ three_numbers operands.now }
{
    let first = front_number(operands)?;
    let others = two_numbers(next_words(operands))?;
    Some((first, others))
}

// Returns true for `down` and false for `up`.
#[tactic(auto, unfolding(crate::specs::Commands::key_state))]
fn key_state(operands: &[u8]) -> Option<bool>
    ensures { result ≡ key_state operands.now }
{
    if !next_words(operands).is_empty() {
        return None;
    }
    let word = split_word(operands).0;
    if word == b"down".as_slice() {
        Some(true)
    } else if word == b"up".as_slice() {
        Some(false)
    } else {
        None
    }
}

// Returns a step, a key, and whether the key is down.
#[tactic(auto, unfolding(crate::specs::Commands::key_event))]
fn key_event(operands: &[u8]) -> Option<(u32, (u32, bool))>
    ensures { result ≡ key_event operands.now }
{
    let step = front_number(operands)?;
    let rest = next_words(operands);
    let key = front_number(rest)?;
    let down = key_state(next_words(rest))?;
    Some((step, (key, down)))
}

#[tactic(auto, using(crate::proofs::ScriptLemmas::blank_skipped))]
fn is_blank(text: &[u8]) -> bool
    ensures { result ≡ list_all is_space text.now }
{
    skip_spaces(text).is_empty()
}

// Returns the text before the first space, and the text after that space.
fn split_word(text: &[u8]) -> (&[u8], &[u8])
    ensures word { result.0.now ≡ before_first is_space text.now }
    ensures rest { result.1.now ≡ after_first is_space text.now }
{
    let len = word_len(text);
    if len < text.len() {
        (&text[..len], &text[len + 1..])
    } else {
        (text, &[])
    }
}

// The index of the first space, or the length if there is none.
fn word_len(text: &[u8]) -> usize
    ensures value { result ≡ position_or_len is_space text.now }
    ensures within { result ≤ length text.now }
{
    for (i, byte) in text.iter().enumerate() {
        if *byte == b' ' {
            return i;
        }
    }
    text.len()
}

fn skip_spaces(text: &[u8]) -> &[u8]
    ensures { result.now ≡ skip_spaces text.now }
{
    let mut rest = text;
    while let [b' ', tail @ ..] = rest {
        rest = tail;
    }
    rest
}

/// The number that a word spells: 1 to 9 decimal digits, or `#` and 1 to 7 hexadecimal digits.
pub fn number_of(word: &[u8]) -> Option<u32>
    ensures { result ≡ number_spelled word.now }
{
    match word {
        [b'#', digits @ ..] => numeral(digits, 16, 7),
        _ => numeral(word, 10, 9),
    }
}

// Returns the number that a text of 1 to `most` digits spells in a base.
fn numeral(digits: &[u8], base: u32, most: usize) -> Option<u32>
    requires base { base ≤ 36 }
    requires room { base ^ most ≤ 2 ^ 32 }
    requires some { 1 ≤ base }
    ensures { result ≡ numeral base most digits.now }
{
    if digits.is_empty() || digits.len() > most {
        return None;
    }
    value_of(digits, base)
}

// Returns the number that the digits spell in a base, if all of them are digits of that base.
fn value_of(digits: &[u8], base: u32) -> Option<u32>
    requires some { 1 ≤ base }
    requires room { base ^ length digits.now ≤ 2 ^ 32 }
    ensures { result ≡ (if list_all (λ byte. is_digit byte base) digits.now
        then Some (digits_value base digits.now) else None) }
{
    let mut value = 0;
    for byte in digits {
        let digit = digit_value(*byte);
        if digit >= base {
            return None;
        }
        value = value * base + digit;
    }
    Some(value)
}

// The value of a digit in any base up to 36; returns 36 for a byte that is not a digit.
fn digit_value(byte: u8) -> u32
    ensures { result ≡ digit_value byte }
{
    match byte {
        b'0'..=b'9' => u32::from(byte - b'0'),
        b'A'..=b'Z' => u32::from(byte - b'A') + 10,
        b'a'..=b'z' => u32::from(byte - b'a') + 10,
        _ => 36,
    }
}
