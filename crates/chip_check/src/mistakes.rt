//! Whole lines in the syntax of other languages, and how to write them here.

use crate::forms::is_reserved;
use crate::hint::{Hint, push_help};
use crate::words::{Word, is_atom, is_register};
use chip_lang::Kind;
use chip_properties::near::is_like_register;
use std::alloc::{AllocError, Global};

/// Statements that are not valid here, and what to write instead. In a statement, `v` stands for a
/// register, `n` for a number or a name, `o` for a register, a number or a name, `h` for a text of one
/// hexadecimal digit, `t` for any text, and a final `*` for any words. In the help, `{0}` is the first word
/// that matched `v`, `n`, `o` or `h`, and `{1}` is the second one; an `h` is shown as the digit's value.
const MISTAKES: &[(&str, &str)] = &[
    // values that have to go through a register
    ("LD v , KEY", "the key wait is written K: LD {0}, K"),
    ("LD v , KEYS", "the key wait is written K: LD {0}, K"),
    (
        "LD DT , n",
        "put the number into a register first: LD V0, {0}, then LD DT, V0",
    ),
    (
        "LD ST , n",
        "put the number into a register first: LD V0, {0}, then LD ST, V0",
    ),
    (
        "LD F , h",
        "put the digit's value into a register first: LD V0, {0}, then LD F, V0",
    ),
    (
        "LD F , t",
        "the machine only has sprites of the digits 0 to F; draw other letters in the source, in DB lines as in examples/breaker.asm",
    ),
    (
        "LD HF , t",
        "the machine only has large sprites of the digits 0 to 9: LD V0, 5, then LD HF, V0",
    ),
    (
        "LD F , n",
        "put the number into a register first: LD V0, {0}, then LD F, V0",
    ),
    (
        "LD HF , n",
        "put the number into a register first: LD V0, {0}, then LD HF, V0",
    ),
    (
        "LD B , n",
        "put the number into a register first: LD V0, {0}, then LD B, V0",
    ),
    (
        "SKP KEY",
        "put the key's number into a register first: LD V0, 5, then SKP V0",
    ),
    (
        "SKP n",
        "put the key's number into a register first: LD V0, {0}, then SKP V0",
    ),
    (
        "SKNP KEY",
        "put the key's number into a register first: LD V0, 5, then SKNP V0",
    ),
    (
        "SKNP n",
        "put the key's number into a register first: LD V0, {0}, then SKNP V0",
    ),
    (
        "AND v , n",
        "put the number into a register first: LD VE, {1}, then AND {0}, VE",
    ),
    (
        "OR v , n",
        "put the number into a register first: LD VE, {1}, then OR {0}, VE",
    ),
    (
        "XOR v , n",
        "put the number into a register first: LD VE, {1}, then XOR {0}, VE",
    ),
    (
        "SE DT , n",
        "put the timer into a register first: LD V0, DT, then SE V0, {0}",
    ),
    (
        "SNE DT , n",
        "put the timer into a register first: LD V0, DT, then SNE V0, {0}",
    ),
    (
        "SE DT , v",
        "put the timer into a register first: LD VE, DT, then SE VE, {0}",
    ),
    (
        "SNE DT , v",
        "put the timer into a register first: LD VE, DT, then SNE VE, {0}",
    ),
    (
        "SE v , DT",
        "put the timer into a register first: LD VE, DT, then SE {0}, VE",
    ),
    (
        "SNE v , DT",
        "put the timer into a register first: LD VE, DT, then SNE {0}, VE",
    ),
    (
        "SE ST , *",
        "the sound timer can't be read; the delay timer DT can: LD V0, DT",
    ),
    (
        "SNE ST , *",
        "the sound timer can't be read; the delay timer DT can: LD V0, DT",
    ),
    (
        "SHL v , n",
        "SHL {0} shifts by one bit; write it once for each bit",
    ),
    (
        "SHR v , n",
        "SHR {0} shifts by one bit; write it once for each bit",
    ),
    (
        "INC I",
        "put the number into a register first: LD VE, 1, then ADD I, VE",
    ),
    ("LD v , TIMER", "the delay timer is DT: LD {0}, DT"),
    ("LD v , DELAY", "the delay timer is DT: LD {0}, DT"),
    ("DELAY v", "the delay timer is DT: LD DT, {0}"),
    ("SOUND v", "the sound timer is ST: LD ST, {0}"),
    ("WAITKEY v", "the key wait is written K: LD {0}, K"),
    (
        "SKIP v , o",
        "SE skips the next line if two values are equal, and SNE if they differ: SE {0}, {1}",
    ),
    // several registers, and the sprites of digits
    ("LD v - v , [ I ]", "LD {1}, [I] loads V0 to {1}"),
    ("LD [ I ] , v - v", "LD [I], {1} stores V0 to {1}"),
    (
        "LD I , HEX v",
        "LD F, {0} points I to the sprite of the digit in {0}",
    ),
    (
        "LD I , BIGHEX v",
        "LD HF, {0} points I to the large sprite of the digit in {0}",
    ),
    (
        "LD I , FONT *",
        "LD F, Vx points I to the sprite of the digit in Vx",
    ),
    (
        "LD I , v",
        "I takes an address; ADD I, {0} adds {0} to I, and LD F, {0} points I to the sprite of a digit",
    ),
    (
        "ADD I , n",
        "put the number into a register first: LD VE, {0}, then ADD I, VE",
    ),
    (
        "LD v , ST",
        "the sound timer can't be read; the delay timer DT can: LD {0}, DT",
    ),
    // parts of an address
    (
        "LD v , < n",
        "the low byte of an address is {1} & 255: LD {0}, {1} & 255",
    ),
    (
        "LD v , > n",
        "the high byte of an address is {1} / 256: LD {0}, {1} / 256",
    ),
    (
        "LD v , LOW n",
        "the low byte of an address is {1} & 255: LD {0}, {1} & 255",
    ),
    (
        "LD v , HIGH n",
        "the high byte of an address is {1} / 256: LD {0}, {1} / 256",
    ),
    (
        "LD I , n + v",
        "ADD adds a register to I: LD I, {0}, then ADD I, {1}",
    ),
    ("JP n + V0", "write V0 before the address: JP V0, {0}"),
    (
        "JP n + v",
        "JP can only add V0: LD V0, {1}, then JP V0, {0}",
    ),
    (
        "CALL n ( *",
        "CALL takes no arguments; put them into registers first, then CALL {0}",
    ),
    // random numbers
    (
        "LD v , RANDOM n",
        "RND gives a register a random value: RND {0}, {1}",
    ),
    (
        "LD v , RND n",
        "RND gives a register a random value: RND {0}, {1}",
    ),
    (
        "LD v , RND , n",
        "RND gives a register a random value: RND {0}, {1}",
    ),
    (
        "LD v , RND *",
        "RND gives a register a random value: RND {0}, 255",
    ),
    (
        "LD v , RANDOM",
        "RND gives a register a random value: RND {0}, 255",
    ),
    (
        "LD v , RAND",
        "RND gives a register a random value: RND {0}, 255",
    ),
    // instructions under other names
    (
        "NOT v",
        "XOR with 255 flips all bits: LD VE, 255, then XOR {0}, VE",
    ),
    (
        "NEG v",
        "SUBN subtracts from 0: LD VE, 0, then SUBN {0}, VE",
    ),
    (
        "SCROLL - DOWN n",
        "scroll-down is written SCD here: SCD {0}",
    ),
    ("SCROLL - RIGHT", "scroll-right is written SCR here"),
    ("SCROLL - LEFT", "scroll-left is written SCL here"),
    (
        "SCROLL - UP n",
        "scroll-up is an instruction of XO-CHIP; SCD, SCR and SCL scroll the screen down, right and left",
    ),
    (
        "SCROLL - *",
        "SCD, SCR and SCL scroll the screen down, right and left",
    ),
    (
        "SAVE v - v",
        "save with two registers is an instruction of XO-CHIP; LD [I], {1} stores V0 to {1}",
    ),
    (
        "LOAD v - v",
        "load with two registers is an instruction of XO-CHIP; LD {1}, [I] loads V0 to {1}",
    ),
    ("SAVE v", "SAVE is written LD here: LD [I], {0}"),
    ("LOAD v", "LOAD is written LD here: LD {0}, [I]"),
    // assignments
    (
        "v : = KEY",
        "{0} is a register; LD gives it a value, as in LD {0}, K",
    ),
    (
        "v : = DELAY",
        "{0} is a register; LD gives it a value, as in LD {0}, DT",
    ),
    (
        "v : = RANDOM n",
        "{0} is a register; RND gives it a random value, as in RND {0}, {1}",
    ),
    (
        "v : = o",
        "{0} is a register; LD gives it a value, as in LD {0}, {1}",
    ),
    (
        "v = o",
        "{0} is a register; LD gives it a value, as in LD {0}, {1}",
    ),
    (
        "v EQU o",
        "{0} is a register; LD gives it a value, as in LD {0}, {1}",
    ),
    (
        "v = - v",
        "SUBN subtracts the other way round, as in SUBN {0}, {1}",
    ),
    (
        "I : = HEX v",
        "LD F, {0} points I to the sprite of the digit in {0}",
    ),
    (
        "I : = BIGHEX v",
        "LD HF, {0} points I to the large sprite of the digit in {0}",
    ),
    (
        "I : = LONG n",
        "i := long is an instruction of XO-CHIP; LD I takes an address up to 4095, as in LD I, {0}",
    ),
    (
        "I : = n",
        "I is a register; LD gives it a value, as in LD I, {0}",
    ),
    (
        "I = n",
        "I is a register; LD gives it a value, as in LD I, {0}",
    ),
    (
        "DT : = v",
        "DT is a register; LD gives it a value, as in LD DT, {0}",
    ),
    (
        "DT = v",
        "DT is a register; LD gives it a value, as in LD DT, {0}",
    ),
    (
        "ST : = v",
        "ST is a register; LD gives it a value, as in LD ST, {0}",
    ),
    (
        "ST = v",
        "ST is a register; LD gives it a value, as in LD ST, {0}",
    ),
    ("DELAY : = v", "the delay timer is DT: LD DT, {0}"),
    ("BUZZER : = v", "the sound timer is ST: LD ST, {0}"),
    (
        "PITCH : = v",
        "the machine is a SUPER-CHIP 1.1, which has no instructions of XO-CHIP",
    ),
    (
        "n : = v",
        "a name can't stand for a register; write {1} itself",
    ),
    (
        "n = v",
        "a name can't stand for a register; write {1} itself",
    ),
    (
        "n EQU v",
        "a name can't stand for a register; write {1} itself",
    ),
    ("v + = o", "begin with an instruction, as in ADD {0}, {1}"),
    ("v + +", "begin with an instruction, as in ADD {0}, 1"),
    ("v - = v", "begin with an instruction, as in SUB {0}, {1}"),
    ("v - = n", "begin with an instruction, as in ADD {0}, -{1}"),
    ("v - -", "begin with an instruction, as in ADD {0}, -1"),
    ("v | = v", "begin with an instruction, as in OR {0}, {1}"),
    ("v & = v", "begin with an instruction, as in AND {0}, {1}"),
    ("v ^ = v", "begin with an instruction, as in XOR {0}, {1}"),
    ("v > > = v", "begin with an instruction, as in SHR {0}, {1}"),
    ("v < < = v", "begin with an instruction, as in SHL {0}, {1}"),
    ("I + = v", "begin with an instruction, as in ADD I, {0}"),
    // colons
    (
        ": ALIAS *",
        "a register can't have another name; write the register itself",
    ),
    (": CONST n n", "EQU gives a name a value, as in {0} EQU {1}"),
    (": CALC n *", "EQU gives a name a value, as in {0} EQU 5"),
    (": BYTE *", "BYTE is written DB here"),
    (
        ": MACRO *",
        "this assembler has no macros; CALL runs a subroutine, which ends with RET",
    ),
    (": ORG *", "write ORG without a colon"),
    (
        ": n *",
        "write the colon after the label and not before it: {0}:",
    ),
];

/// If a line of these words is a known mistake, adds help that states what to write instead. Returns
/// whether help was added.
pub(crate) fn push_mistake(
    alloc: Global,
    hints: &mut Vec<Hint>,
    words: &[Word<'_>],
) -> Result<bool, AllocError> {
    for (statement, help) in MISTAKES {
        if is_written(*statement, words) {
            let sentence = filled(alloc, *help, *statement, words)?;
            push_help(alloc, hints, &[sentence.as_slice()])?;
            return Ok(true);
        }
    }
    Ok(false)
}

/// Whether the words match a statement of `MISTAKES`.
fn is_written(statement: &str, words: &[Word<'_>]) -> bool {
    let mut place = 0usize;
    for wanted in statement.split(' ') {
        if wanted == "*" {
            return true;
        }
        match words.get(place) {
            Some(word) if is_wanted(wanted.as_bytes(), word) => place = place.saturating_add(1),
            _ => return false,
        }
    }
    place == words.len()
}

/// Whether a word matches one word of a statement of `MISTAKES`.
fn is_wanted(wanted: &[u8], word: &Word<'_>) -> bool {
    match wanted {
        b"v" => is_register(word.text),
        b"n" => is_value(word),
        b"o" => is_register(word.text) || is_value(word),
        b"h" => digit_in(word).is_some(),
        b"t" => word.kind == Kind::Text,
        _ => wanted == word.text,
    }
}

/// Whether a word is a number, a text or a possible name.
fn is_value(word: &Word<'_>) -> bool {
    is_atom(word) && !is_reserved(word.text) && !is_like_register(word.text)
}

/// The values of hexadecimal digits, in decimal.
const VALUES: [&str; 16] = [
    "0", "1", "2", "3", "4", "5", "6", "7", "8", "9", "10", "11", "12", "13", "14", "15",
];

/// The value of a text of one hexadecimal digit, in decimal; nothing for other tokens.
fn digit_in(word: &Word<'_>) -> Option<&'static [u8]> {
    let value = match (word.kind, word.text) {
        (Kind::Text, [_, digit @ b'0'..=b'9', _]) => *digit - b'0',
        (Kind::Text, [_, digit @ b'A'..=b'F', _]) => *digit - b'A' + 10,
        _ => return None,
    };
    VALUES
        .get(usize::from(value))
        .map(|written| written.as_bytes())
}

/// The sentence `help`, with words of the line in place of `{0}` and `{1}`.
fn filled(
    alloc: Global,
    help: &str,
    statement: &str,
    words: &[Word<'_>],
) -> Result<Vec<u8>, AllocError> {
    let mut sentence = Vec::new(alloc);
    for part in help.split('{') {
        match part.as_bytes() {
            [b'0', b'}', rest @ ..] => {
                sentence.extend_from_slice(written_at(0, statement, words))?;
                sentence.extend_from_slice(rest)?;
            }
            [b'1', b'}', rest @ ..] => {
                sentence.extend_from_slice(written_at(1, statement, words))?;
                sentence.extend_from_slice(rest)?;
            }
            whole => sentence.extend_from_slice(whole)?,
        }
    }
    Ok(sentence)
}

/// The word that is shown for the first `v`, `n`, `o` or `h` of a statement after `before` others;
/// empty if there are too few.
fn written_at<'a>(before: usize, statement: &str, words: &[Word<'a>]) -> &'a [u8] {
    let mut left = before;
    for (wanted, word) in statement.split(' ').zip(words) {
        if matches!(wanted, "v" | "n" | "o" | "h") {
            if left == 0 {
                return match wanted {
                    "h" => digit_in(word).unwrap_or(word.text),
                    _ => word.text,
                };
            }
            left -= 1;
        }
    }
    b""
}
