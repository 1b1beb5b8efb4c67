//! The lines of help for a fault.

use crate::forms::{near_heading, push_forms, stands_alone};
use crate::hint::{Hint, push_formatted, push_help, push_note, push_sentence};
use crate::known::{Known, Skipped};
use crate::missing::missing_word;
use crate::mistakes::push_mistake;
use crate::operand_advice::{NO_HERE, NO_REMAINDER, ORIGIN, out_of_range, wrong_operands};
use crate::other_assemblers::{Radix, other_number, other_word};
use crate::place::tokens_after;
use crate::reserved::push_meaning;
use crate::spelling::wrong_byte;
use crate::words::{Word, has_twice, is_one_of, is_register, is_special, statement_of, words_of};
use chip_asm::{LineView, OpenError, Source};
use chip_lang::limits::{IMAGE_BYTES, IMAGE_START, NAME_BYTES};
use chip_lang::{Fault, Kind, Line, Token};
use chip_properties::near::{REGISTERS, is_like_register, undefined_sentence};
use std::alloc::{AllocError, Global};

/// A line with a fault, and its tokens in upper case.
#[derive(Clone, Copy)]
struct FaultyLine<'a> {
    line: &'a LineView<'a>,
    /// The text that begins at the place of the fault.
    text: &'a [u8],
    words: &'a [Word<'a>],
    /// The words that begin at or after the place of the fault.
    rest: &'a [Word<'a>],
}

/// The lines of help for a fault at a place of a line with these tokens.
pub(crate) fn advice_on(
    alloc: Global,
    known: &Known,
    line: &LineView<'_>,
    tokens: &[Token],
    fault: Fault,
    place: usize,
) -> Result<Vec<Hint>, AllocError> {
    let text = line.text();
    let upper = text.to_ascii_uppercase(alloc)?;
    let words = words_of(alloc, &upper, tokens)?;
    let before = words
        .len()
        .saturating_sub(tokens_after(place, tokens).len());
    let (_, text) = text.split_at(place.min(text.len()));
    let rest = words.get(before..).unwrap_or(&[]);
    let words = words.as_slice();
    let faulty = FaultyLine {
        line,
        text,
        words,
        rest,
    };
    let mut hints = Vec::new(alloc);
    if let Some(note) = known.note_on(line.number()) {
        push_note(alloc, &mut hints, &[note.as_bytes()])?;
    }
    push_fault_advice(alloc, &mut hints, known, fault, faulty)?;
    Ok(hints)
}

fn push_fault_advice(
    alloc: Global,
    hints: &mut Vec<Hint>,
    known: &Known,
    fault: Fault,
    faulty: FaultyLine<'_>,
) -> Result<(), AllocError> {
    match fault {
        Fault::UndefinedName => undefined_name(alloc, hints, known, faulty),
        Fault::OutOfRange => {
            out_of_range(alloc, hints, known, faulty.line.reading())?;
            push_address_help(alloc, hints, known, statement_of(faulty.words))
        }
        Fault::DefinedTwice => defined_twice(alloc, hints, known, faulty.rest),
        _ => push_line_advice(alloc, hints, fault, faulty),
    }
}

/// Adds help for the line if it uses the name of an address where a smaller value belongs.
fn push_address_help(
    alloc: Global,
    hints: &mut Vec<Hint>,
    known: &Known,
    statement: &[Word<'_>],
) -> Result<(), AllocError> {
    match statement {
        [Word { text: b"LD", .. }, register, _, name] if is_register(register.text) => {
            match known.find(name.text) {
                Some(symbol) if symbol.value >= IMAGE_START as i32 => {
                    let end = format!(in alloc;
                        ", then LD V0, [I] reads the byte at address {}",
                        symbol.value
                    )?;
                    push_help(alloc, hints, &[b"LD I, ", name.text, end.as_bytes()])
                }
                _ => Ok(()),
            }
        }
        [Word { text: b"DRW", .. }, _, _, _, _, name] if known.find(name.text).is_some() =>
            push_help(
                alloc,
                hints,
                &[
                    b"the third operand is the number of rows; LD I, ",
                    name.text,
                    b" points I to the sprite",
                ],
            ),
        _ => Ok(()),
    }
}

/// Adds help for a fault that depends on its own line only.
fn push_line_advice(
    alloc: Global,
    hints: &mut Vec<Hint>,
    fault: Fault,
    faulty: FaultyLine<'_>,
) -> Result<(), AllocError> {
    match fault {
        Fault::BadCharacter | Fault::UnfinishedString | Fault::UnknownWord | Fault::WrongOperands
            if has_twice(b"/", faulty.words) => {
            push_help(alloc, hints, &[b"a comment begins with `;`"])
        }
        Fault::BadCharacter => bad_character(alloc, hints, faulty),
        Fault::UnknownWord => unknown_word(alloc, hints, faulty),
        Fault::WrongOperands => wrong_operands(alloc, hints, faulty.words, faulty.rest),
        Fault::BadName => bad_name(alloc, hints, faulty.rest),
        Fault::NotInProfile => not_in_profile(alloc, hints, faulty.rest),
        Fault::PastMemory => push_formatted(
            alloc,
            hints,
            format_args!(
                "code and data have at most {IMAGE_BYTES} bytes, from address {IMAGE_START} on"
            ),
        ),
        other => push_sentence(alloc, hints, sentence_for(other)),
    }
}

/// The help for a fault, if it is the same for every line.
fn sentence_for(fault: Fault) -> Option<&'static str> {
    match fault {
        Fault::UnfinishedString => Some("a text ends with the quote that it begins with"),
        Fault::NumberTooLarge => Some("a word is at most 65535, and a byte at most 255"),
        Fault::DivisionByZero => Some("the value after `/` is 0 here"),
        Fault::OrgBelowHere => Some(
            "ORG only goes forward; choose a value at or above the address of this line",
        ),
        Fault::StrayBranch => Some("no IFDEF or IFUND is open here, or it has an ELSE already"),
        Fault::UnclosedIf => Some("write ENDIF after the last line that belongs to it"),
        _ => None,
    }
}

/// Adds help for bytes that begin no token.
fn bad_character(
    alloc: Global,
    hints: &mut Vec<Hint>,
    faulty: FaultyLine<'_>,
) -> Result<(), AllocError> {
    let sentence = sentence_for_file(faulty.line.text());
    if sentence.is_some() {
        return push_sentence(alloc, hints, sentence);
    }
    if let Some(byte) = wrong_byte(faulty.line.text()) {
        return push_wrong_byte(alloc, hints, byte);
    }
    if let [first, ..] = statement_of(faulty.words) {
        let sentence = sentence_for_statement(faulty.text, first.text);
        if sentence.is_some() {
            return push_sentence(alloc, hints, sentence);
        }
    }
    match (faulty.rest, other_number(faulty.rest)) {
        (_, Some((radix, digits))) => {
            push_other_number(alloc, hints, radix, digits)?;
            push_binary_note(alloc, hints, &faulty)
        }
        ([Word { text: b".", .. }, word, ..], None) if other_word(word.text).is_some() => {
            push_other_word(alloc, hints, word.text)
        }
        _ => push_sentence(
            alloc,
            hints,
            sentence_for_character(faulty.text, faulty.rest),
        ),
    }
}

/// The help for a byte that begins no token, if the first word of the statement explains the fault
/// better than the byte does. `text` is the line from that byte on.
fn sentence_for_statement(text: &[u8], first: &[u8]) -> Option<&'static str> {
    match (first, text) {
        (b"*", _) => Some(ORIGIN),
        (_, [b'!', ..]) => missing_word(first),
        (
            b"JP" | b"CALL",
            [b'0'..=b'9', b'b' | b'f'] | [b'0'..=b'9', b'b' | b'f', b' ' | b';', ..],
        ) => { Some("a label is a name and not a number, as in LOOP: and JP LOOP") }
        _ => None,
    }
}

/// The help for a line that shows that the file is not plain text.
fn sentence_for_file(line: &[u8]) -> Option<&'static str> {
    if line.starts_with(&[239, 187, 191]) {
        return Some("the file begins with a byte order mark; save it without one");
    }
    for byte in line {
        if *byte < 9 {
            return Some("this file isn't text; `chipbench dis` shows an image as a source");
        }
    }
    None
}

/// Whether a text begins with `front`, ignoring the case of letters.
fn begins_with(text: &[u8], front: &[u8]) -> bool {
    match text.get(..front.len()) {
        Some(first) => first.eq_ignore_ascii_case(front),
        None => false,
    }
}

/// The help for a byte that begins no token. `text` is the line from that byte on, and `rest`
/// contains the words of `text`.
fn sentence_for_character(text: &[u8], rest: &[Word<'_>]) -> Option<&'static str> {
    match (text, rest) {
        ([b'#', ..], _) if begins_with(text, b"#define") => {
            Some("EQU names a value, as in SIZE EQU 5; a comment begins with `;`")
        }
        ([b'#', ..], _) if begins_with(text, b"#include") => Some(
            "a source is one file; copy the lines of the other file into it",
        ),
        ([b'#', ..], _) => {
            Some("`#` begins a hexadecimal number, as in `#1F`; a comment begins with `;`")
        }
        ([b'.'] | [b'.', b' ' | b',' | b';', ..], _) => Some(NO_HERE),
        ([b'$'] | [b'$', b' ' | b',' | b';', ..], _) => Some(
            "`$` begins a binary number, as in `$101`; to use the address of this line, give the line a label, as in HALT: JP HALT",
        ),
        ([b'$', ..], _) => Some("`$` begins a binary number, as in `$101`"),
        ([b'@', b'A'..=b'Z' | b'a'..=b'z' | b'_', ..], _) => {
            Some("write the label without `@`, which begins an octal number, as in `@17`")
        }
        ([b'@', ..], _) => Some("`@` begins an octal number, as in `@17`"),
        ([b'%', b'0'..=b'9', ..], _) => Some("a binary number begins with `$`, as in `$101`"),
        ([b'%', b'A'..=b'Z' | b'a'..=b'z', ..], _) => Some("this assembler has no macros"),
        ([b'%', ..], _) => Some(NO_REMAINDER),
        ([b'!', ..], _) => missing_word(b"CMP"),
        ([b'.', ..], [_, word, ..]) if word.kind == Kind::Word => {
            Some("write the directive or the label without the full stop")
        }
        ([b'.', b'.', b'V' | b'v', ..], _) => {
            Some("LD V2, [I] loads V0 to V2, and LD [I], V2 stores them")
        }
        ([b'.', b'.' | b'1', ..], _) => {
            Some("a binary number begins with `$`, and a full stop in it is a 0: $..11....")
        }
        ([b'.', ..], _) => Some("a number is whole, without a fraction"),
        ([b'0'..=b'9', ..], _) => {
            Some("a name begins with a letter or `_`, and a number has only digits")
        }
        ([b'{' | b'}', ..], _) => Some(
            "this assembler has no blocks in braces; write a loop as a label and a JP back to it",
        ),
        ([128..=255, ..], _) => {
            Some("only texts and comments can contain characters outside ASCII")
        }
        _ => None,
    }
}

/// Adds help for a byte that a name can't contain, in the name that a line defines.
fn push_wrong_byte(alloc: Global, hints: &mut Vec<Hint>, byte: u8) -> Result<(), AllocError> {
    let parts: &[&[u8]] = &[
        b"a name consists of letters, digits and `_`, and can't contain `",
        &[byte],
        b"`",
    ];
    push_help(alloc, hints, parts)
}

/// Adds help that shows how to write a number of another assembler that has these digits.
fn push_other_number(
    alloc: Global,
    hints: &mut Vec<Hint>,
    radix: &Radix,
    digits: &[u8],
) -> Result<(), AllocError> {
    let Radix { name, sign, .. } = radix;
    let front = format!(in alloc; "{name} number begins with `{sign}`: {sign}")?;
    push_help(alloc, hints, &[front.as_bytes(), digits])
}

/// If the number at fault begins with `$`, adds the value of the line's first number that begins with `$`.
fn push_binary_note(
    alloc: Global,
    hints: &mut Vec<Hint>,
    faulty: &FaultyLine<'_>,
) -> Result<(), AllocError> {
    if !faulty.text.starts_with(b"$") {
        return Ok(());
    }
    for word in faulty.words {
        if let (Kind::Number(value), [b'$', digits @ ..]) = (word.kind, word.text) {
            let middle = format!(in alloc; " on this line is binary, {value}; #")?;
            let end = format!(in alloc; " is {}", hexadecimal_value(digits))?;
            let parts: &[&[u8]] = &[word.text, middle.as_bytes(), digits, end.as_bytes()];
            return push_note(alloc, hints, parts);
        }
    }
    Ok(())
}

/// The value of a binary number's digits, read as hexadecimal. A full stop counts as a 0.
fn hexadecimal_value(digits: &[u8]) -> u64 {
    let mut value = 0u64;
    for digit in digits {
        let unit = if *digit == b'1' { 1 } else { 0 };
        value = value.saturating_mul(16).saturating_add(unit);
    }
    value
}

/// Whether the first word at fault is a label and follows another label.
fn has_second_label(faulty: &FaultyLine<'_>) -> bool {
    match faulty.rest {
        [_, colon, ..] => colon.text == b":".as_slice() && faulty.rest.len() < faulty.words.len(),
        _ => false,
    }
}

/// Adds help for an unknown word that begins a statement.
fn unknown_word(
    alloc: Global,
    hints: &mut Vec<Hint>,
    faulty: FaultyLine<'_>,
) -> Result<(), AllocError> {
    let Some(Word { text: word, .. }) = faulty.rest.first() else {
        return Ok(());
    };
    if let Some(byte) = wrong_byte(faulty.line.text()) {
        return push_wrong_byte(alloc, hints, byte);
    }
    if push_mistake(alloc, hints, faulty.rest)? {
        return Ok(());
    }
    if has_second_label(&faulty) {
        return push_help(
            alloc,
            hints,
            &[b"a line has one label; put the other one on a line of its own"],
        );
    }
    if is_register(word) || is_special(word) {
        return push_example(alloc, hints, word, faulty.rest);
    }
    let (written, behind) = faulty.text.split_at(word.len().min(faulty.text.len()));
    let is_label = reads_as_label(alloc, faulty.words, written, behind)?;
    let before = hints.len();
    match missing_word(word) {
        Some(_) if is_label && faulty.words.len() > 1 => {}
        Some(sentence) => push_help(alloc, hints, &[sentence.as_bytes()])?,
        None => push_meant(alloc, hints, word, is_label)?,
    }
    match faulty.rest {
        _ if is_label => push_help(
            alloc,
            hints,
            &[b"a label ends with a colon: ", written, b":"],
        ),
        [first, second, colon, ..] if hints.len() == before && colon.text == b":".as_slice() => {
            push_help(
                alloc,
                hints,
                &[
                    b"a name can't contain a blank: ",
                    first.text,
                    b"_",
                    second.text,
                    b":",
                ],
            )
        }
        _ => Ok(()),
    }
}

/// Adds an example for a statement that begins with a register or another part of the machine.
/// `rest` contains the words of the statement.
fn push_example<'a>(
    alloc: Global,
    hints: &mut Vec<Hint>,
    word: &'a [u8],
    rest: &[Word<'a>],
) -> Result<(), AllocError> {
    let register: &'a [u8] = match rest {
        [_, second, ..] if is_register(second.text) => second.text,
        _ => b"V0",
    };
    let front = b"begin with an instruction, as in LD ".as_slice();
    if word == b"K".as_slice() {
        push_help(alloc, hints, &[front, register, b", K"])
    } else if is_register(word) || word == b"I".as_slice() {
        push_help(alloc, hints, &[front, word, b", 5"])
    } else {
        push_help(alloc, hints, &[front, word, b", ", register])
    }
}

/// Adds help for a word that was probably meant as an instruction or a directive. If the word may
/// also be a label, help is added only if the instruction or directive can have no operands.
fn push_meant(
    alloc: Global,
    hints: &mut Vec<Hint>,
    word: &[u8],
    is_label: bool,
) -> Result<(), AllocError> {
    let other = other_word(word);
    match other.or(near_heading(word)) {
        Some(meant) if is_label && !stands_alone(meant.as_bytes()) => Ok(()),
        Some(meant) if other.is_some() => push_written(alloc, hints, word, meant),
        Some(meant) => push_help(alloc, hints, &[b"did you mean ", meant.as_bytes(), b"?"]),
        None => Ok(()),
    }
}

/// Adds help for a full stop and a word of another assembler.
fn push_other_word(alloc: Global, hints: &mut Vec<Hint>, word: &[u8]) -> Result<(), AllocError> {
    match other_word(word) {
        Some(ours) => {
            let dotted = [b".".as_slice(), word].concat(alloc)?;
            push_written(alloc, hints, &dotted, ours)
        }
        None => Ok(()),
    }
}

/// Adds help that shows how a word of another assembler is written here.
fn push_written(
    alloc: Global,
    hints: &mut Vec<Hint>,
    word: &[u8],
    ours: &str,
) -> Result<(), AllocError> {
    push_help(
        alloc,
        hints,
        &[word, b" is written ", ours.as_bytes(), b" here"],
    )
}

/// Whether a line of these words would be valid with a colon after the first word. `written` is the
/// first word in its original case, and `behind` the text after it.
fn reads_as_label(
    alloc: Global,
    words: &[Word<'_>],
    written: &[u8],
    behind: &[u8],
) -> Result<bool, AllocError> {
    // the colon replaces the blank between the two words, so that the line doesn't become longer
    let behind = match words {
        [_] => b"".as_slice(),
        [_, next, ..] if next.kind == Kind::Word => behind.get(1..).unwrap_or(&[]),
        _ => return Ok(false),
    };
    let changed = [written, b":", behind].concat(alloc)?;
    match Source::open_bytes(alloc, changed) {
        Ok(source) => Ok(
            source
                .line(1)
                .is_some_and(|line| matches!(line.reading(), Line::Read { .. })),
        ),
        Err(OpenError::OutOfMemory) => Err(AllocError),
        Err(_) => Ok(false),
    }
}

/// Adds help for a word that can't be a name, which is the first word in `rest`.
fn bad_name(alloc: Global, hints: &mut Vec<Hint>, rest: &[Word<'_>]) -> Result<(), AllocError> {
    if push_mistake(alloc, hints, rest)? {
        return Ok(());
    }
    match rest {
        [word, more @ ..]
            if (is_register(word.text) || word.text == b"I".as_slice()) && is_assignment(more) =>
            push_help(
                alloc,
                hints,
                &[
                    word.text,
                    b" is a register; LD gives it a value, as in LD ",
                    word.text,
                    b", 5",
                ],
            ),
        [word, ..] if push_meaning(alloc, hints, word.text)? => Ok(()),
        _ => push_formatted(
            alloc,
            hints,
            format_args!("a name has at most {NAME_BYTES} bytes"),
        ),
    }
}

/// Whether the words begin with `=`, `:=`, EQU or `: EQU`.
fn is_assignment(words: &[Word<'_>]) -> bool {
    match words {
        [Word { text: b":", .. }, equ, ..] | [equ, ..] => is_one_of(equ.text, &["=", "EQU"]),
        [] => false,
    }
}

/// Adds help for a name that already has a value, which is the first word in `rest`.
fn defined_twice(
    alloc: Global,
    hints: &mut Vec<Hint>,
    known: &Known,
    rest: &[Word<'_>],
) -> Result<(), AllocError> {
    let Some(Word { text: name, .. }) = rest.first() else {
        return Ok(());
    };
    match known.line_of(name) {
        Some(line) => push_line_note(alloc, hints, name, " is defined on line ", line, ""),
        None => Ok(()),
    }
}

/// Adds help for a name without a value.
fn undefined_name(
    alloc: Global,
    hints: &mut Vec<Hint>,
    known: &Known,
    faulty: FaultyLine<'_>,
) -> Result<(), AllocError> {
    let Some(Word { text: name, .. }) = faulty.rest.first() else {
        return Ok(());
    };
    match (known.line_of(name), known.lost_line_of(name)) {
        (Some(line), _) => push_line_note(
            alloc,
            hints,
            name,
            " is defined on line ",
            line,
            "; ORG, DS and EQU only see earlier lines",
        ),
        (_, Some(line)) if line != faulty.line.number() => push_line_note(
            alloc,
            hints,
            name,
            " is on line ",
            line,
            ", which has a fault of its own",
        ),
        _ => match known.skipped_line_of(name) {
            Some(skipped) => push_skipped_note(alloc, hints, name, skipped),
            None => unknown_name(alloc, hints, known, name, faulty.words, faulty.rest),
        },
    }
}

/// Adds a note that explains why the line that begins with a name isn't active.
fn push_skipped_note(
    alloc: Global,
    hints: &mut Vec<Hint>,
    name: &[u8],
    skipped: &Skipped,
) -> Result<(), AllocError> {
    let Skipped { line, end, .. } = skipped;
    let why = match *end {
        0 => format!(in alloc;
            " is on line {line}, which isn't active: an IF above leaves it out"
        )?,
        _ => format!(in alloc; " is on line {line}, after the END on line {end}")?,
    };
    push_note(alloc, hints, &[name, why.as_bytes()])
}

/// Adds a note about the line of a name: the name, the text `verb`, the line's number, and the text
/// `end`.
fn push_line_note(
    alloc: Global,
    hints: &mut Vec<Hint>,
    name: &[u8],
    verb: &str,
    line: usize,
    end: &str,
) -> Result<(), AllocError> {
    let line = format!(in alloc; "{verb}{line}{end}")?;
    push_note(alloc, hints, &[name, line.as_bytes()])
}

/// Adds help for a name that begins no other line. `words` are the words of its line, and `rest`
/// begins with the name.
fn unknown_name(
    alloc: Global,
    hints: &mut Vec<Hint>,
    known: &Known,
    name: &[u8],
    words: &[Word<'_>],
    rest: &[Word<'_>],
) -> Result<(), AllocError> {
    if let Some(near) = known.near_name(name) {
        push_help(alloc, hints, &[b"did you mean ", near, b"?"])
    } else if is_like_register(name) {
        push_help(alloc, hints, &[REGISTERS])
    } else if let Some((radix, digits)) = other_number(rest) {
        push_other_number(alloc, hints, radix, digits)
    } else if push_mistake(alloc, hints, statement_of(words))? {
        Ok(())
    } else {
        push_help(alloc, hints, &[undefined_sentence(alloc, name)?.as_slice()])
    }
}

/// Adds help for a directive that this assembler doesn't support.
fn not_in_profile(
    alloc: Global,
    hints: &mut Vec<Hint>,
    rest: &[Word<'_>],
) -> Result<(), AllocError> {
    let Some((word, more)) = rest.split_first() else {
        return Ok(());
    };
    if word.text == b"INCLUDE".as_slice() {
        push_help(
            alloc,
            hints,
            &[b"a source is one file; copy the lines of the other file into it"],
        )
    } else {
        push_forms(alloc, hints, word.text, more)
    }
}
