//! The meanings of reserved words.

use crate::hint::{Hint, push_help};
use crate::words::is_register;
use std::alloc::{AllocError, Global};

/// Reserved words, each with its effect and a name to use instead.
const MEANINGS: &[(&str, &str, &str)] = &[
    ("I", "is the address register", "INDEX"),
    ("DT", "is the delay timer", "DELAY"),
    ("ST", "is the sound timer", "SOUND"),
    ("K", "is the key that LD Vx, K waits for", "KEY"),
    ("F", "is the sprite of a digit, in LD F, Vx", "FLAG"),
    ("HF", "is the large sprite of a digit, in LD HF, Vx", "HALF"),
    (
        "B",
        "stands for the decimal digits of a register, in LD B, Vx",
        "BALL",
    ),
    ("R", "stands for the flags that LD R, Vx keeps", "ROW"),
    ("CLS", "clears the screen", "CLEAR"),
    ("RET", "returns from a subroutine", "RETURN"),
    ("JP", "jumps", "JUMP"),
    ("CALL", "calls a subroutine", "CALLED"),
    ("SE", "skips the next line if two values are equal", "SAME"),
    ("SNE", "skips the next line if two values differ", "OTHER"),
    ("LD", "gives a register a value", "LOAD"),
    ("ADD", "adds", "SUM"),
    ("OR", "sets bits of a register", "EITHER"),
    ("AND", "keeps bits of a register", "BOTH"),
    ("XOR", "flips bits of a register", "FLIP"),
    ("SUB", "subtracts", "DIFFERENCE"),
    ("SUBN", "subtracts the other way round", "DIFFERENCE"),
    ("SHR", "shifts a register to the right", "HALVE"),
    ("SHL", "shifts a register to the left", "DOUBLE"),
    ("RND", "gives a register a random value", "RANDOM"),
    ("DRW", "draws a sprite", "DRAW"),
    ("SKP", "skips the next line if a key is down", "PRESSED"),
    ("SKNP", "skips the next line if a key is up", "RELEASED"),
    ("SCD", "scrolls the screen down", "SCROLL"),
    ("SCR", "scrolls the screen to the right", "SCROLL"),
    ("SCL", "scrolls the screen to the left", "SCROLL"),
    ("EXIT", "stops the machine", "LEAVE"),
    ("LOW", "gives the screen its low size", "LOWEST"),
    ("HIGH", "gives the screen its high size", "HIGHEST"),
    ("SYS", "calls a routine of the machine", "SYSTEM"),
    ("EQU", "gives a name a value", "EQUAL"),
    ("ORG", "sets the address of the next line", "ORIGIN"),
    ("ALIGN", "turns alignment on or off", "ALIGNED"),
    ("DB", "places bytes", "BYTES"),
    ("DW", "places words", "WORDS"),
    ("DA", "places a text", "TEXT"),
    ("DS", "leaves room", "SPACE"),
    (
        "IFDEF",
        "begins lines for a name that is defined",
        "DEFINED",
    ),
    (
        "IFUND",
        "begins lines for a name that is not defined",
        "UNDEFINED",
    ),
    ("ELSE", "begins the lines for the other case", "OTHERWISE"),
    ("ENDIF", "ends the lines of an IFDEF or IFUND", "FINISH"),
    ("END", "ends the source", "FINISH"),
    ("OPTION", "is a directive that has no effect here", "CHOICE"),
    ("USED", "is a directive that has no effect here", "IN_USE"),
    (
        "XREF",
        "is a directive that has no effect here",
        "REFERENCE",
    ),
    ("DEFINE", "gives a name the value 0", "DEFINED"),
    ("INCLUDE", "is a directive of other assemblers", "INCLUDED"),
    ("UNDEF", "is a directive of other assemblers", "UNDEFINED"),
];

/// Adds the effect of a word and a name to use instead, if the word is reserved. Returns whether it is.
pub(crate) fn push_meaning(
    alloc: Global,
    hints: &mut Vec<Hint>,
    word: &[u8],
) -> Result<bool, AllocError> {
    for (reserved, does, name) in MEANINGS {
        if word == reserved.as_bytes() {
            push_other_name(alloc, hints, word, *does, *name)?;
            return Ok(true);
        }
    }
    let is_reserved = is_register(word);
    if is_reserved {
        push_other_name(alloc, hints, word, "is a register", "SPEED")?;
    }
    Ok(is_reserved)
}

/// Adds the effect of a word, and a name to use instead.
fn push_other_name(
    alloc: Global,
    hints: &mut Vec<Hint>,
    word: &[u8],
    does: &str,
    name: &str,
) -> Result<(), AllocError> {
    let parts: &[&[u8]] = &[
        word,
        b" ",
        does.as_bytes(),
        b"; choose another name, such as ",
        name.as_bytes(),
    ];
    push_help(alloc, hints, parts)
}
