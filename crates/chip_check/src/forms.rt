//! The forms of instructions and directives, as lines of help show them.

use crate::hint::{Hint, push_help};
use crate::words::{Word, is_comma, is_one_of, is_register, is_special};
use chip_properties::near::{fewest_edits, most_edits};
use std::alloc::{AllocError, Global};

/// The instructions and directives with their forms. A form is the word and its operands: `Vx` and
/// `Vy` are registers, `nibble` is a value from 0 to 15, `byte` is a value from -128 to 255, and
/// `addr` is a value from 0 to 4095.
const HEADINGS: &[(&str, &[&str])] = &[
    ("CLS", &["CLS"]),
    ("RET", &["RET"]),
    ("JP", &["JP addr", "JP V0, addr"]),
    ("CALL", &["CALL addr"]),
    ("SE", &["SE Vx, byte", "SE Vx, Vy"]),
    ("SNE", &["SNE Vx, byte", "SNE Vx, Vy"]),
    (
        "LD",
        &[
            "LD Vx, byte",
            "LD Vx, Vy",
            "LD I, addr",
            "LD Vx, DT",
            "LD Vx, K",
            "LD DT, Vx",
            "LD ST, Vx",
            "LD F, Vx",
            "LD B, Vx",
            "LD [I], Vx",
            "LD Vx, [I]",
            "LD HF, Vx",
            "LD R, Vx",
            "LD Vx, R",
        ],
    ),
    ("ADD", &["ADD Vx, byte", "ADD Vx, Vy", "ADD I, Vx"]),
    ("OR", &["OR Vx, Vy"]),
    ("AND", &["AND Vx, Vy"]),
    ("XOR", &["XOR Vx, Vy"]),
    ("SUB", &["SUB Vx, Vy"]),
    ("SUBN", &["SUBN Vx, Vy"]),
    ("SHR", &["SHR Vx", "SHR Vx, Vy"]),
    ("SHL", &["SHL Vx", "SHL Vx, Vy"]),
    ("RND", &["RND Vx, byte"]),
    ("DRW", &["DRW Vx, Vy, nibble"]),
    ("SKP", &["SKP Vx"]),
    ("SKNP", &["SKNP Vx"]),
    ("SCD", &["SCD nibble"]),
    ("SCR", &["SCR"]),
    ("SCL", &["SCL"]),
    ("EXIT", &["EXIT"]),
    ("LOW", &["LOW"]),
    ("HIGH", &["HIGH"]),
    ("SYS", &["SYS addr"]),
    ("EQU", &["EQU value"]),
    ("ORG", &["ORG value"]),
    ("ALIGN", &["ALIGN ON", "ALIGN OFF"]),
    ("DB", &["DB value, .."]),
    ("DW", &["DW value, .."]),
    ("DA", &["DA 'text'"]),
    ("DS", &["DS value"]),
    ("IFDEF", &["IFDEF name"]),
    ("IFUND", &["IFUND name"]),
    ("ELSE", &["ELSE"]),
    ("ENDIF", &["ENDIF"]),
    ("END", &["END"]),
    (
        "OPTION",
        &[
            "OPTION BINARY",
            "OPTION CHIP8",
            "OPTION CHIP48",
            "OPTION SCHIP10",
            "OPTION SCHIP11",
        ],
    ),
    ("XREF", &["XREF name"]),
    ("DEFINE", &["DEFINE name"]),
];

/// The maximum number of forms in a line of help.
const MOST_SHOWN: usize = 5;

/// The highest possible nearness of a form. The first operand counts twice, and no form has more
/// than three operands.
const NEAREST: usize = 4;

/// The forms of an instruction or a directive; empty for other words.
fn forms_of(word: &[u8]) -> &'static [&'static str] {
    for (heading, forms) in HEADINGS {
        if heading.as_bytes() == word {
            return *forms;
        }
    }
    &[]
}

/// Whether an instruction or a directive can have no operands.
pub(crate) fn stands_alone(word: &[u8]) -> bool {
    is_one_of(word, forms_of(word))
}

/// Whether a word is an instruction or a directive.
pub(crate) fn is_heading(word: &[u8]) -> bool {
    !forms_of(word).is_empty()
}

/// Whether a word has a predefined meaning, so that it can't be a name.
pub(crate) fn is_reserved(word: &[u8]) -> bool {
    is_register(word)
        || is_special(word)
        || is_heading(word)
        || is_one_of(word, &["USED", "INCLUDE", "UNDEF"])
}

/// The instruction or directive whose spelling is closest to a word, if one is close enough.
pub(crate) fn near_heading(word: &[u8]) -> Option<&str> {
    let mut most = most_edits(word);
    let mut nearest = None;
    for (heading, _) in HEADINGS {
        if let Some(edits) = fewest_edits(most, word, heading.as_bytes()) {
            nearest = Some(*heading);
            if edits <= 1 {
                break;
            }
            most = edits - 1;
        }
    }
    nearest
}

/// Adds the first forms of an instruction or a directive, ordered by how well they fit these
/// operands. Adds nothing for other words.
pub(crate) fn push_forms(
    alloc: Global,
    hints: &mut Vec<Hint>,
    word: &[u8],
    operands: &[Word<'_>],
) -> Result<(), AllocError> {
    let forms = forms_by_nearness(alloc, word, operands)?;
    push_first_forms(alloc, hints, word, &forms)
}

/// Adds the first of these forms of an instruction or a directive.
fn push_first_forms(
    alloc: Global,
    hints: &mut Vec<Hint>,
    word: &[u8],
    forms: &[&str],
) -> Result<(), AllocError> {
    match forms {
        [] => Ok(()),
        [_] if stands_alone(word) => push_help(alloc, hints, &[word, b" takes no operands"]),
        _ => {
            let shown = forms.get(..MOST_SHOWN).unwrap_or(forms).join(alloc, " | ")?;
            let more = if forms.len() > MOST_SHOWN {
                " | .."
            } else {
                ""
            };
            let parts: &[&[u8]] = &[word, b" takes: ", shown.as_bytes(), more.as_bytes()];
            push_help(alloc, hints, parts)
        }
    }
}

/// The forms of an instruction or a directive, with the best fit for the operands of the line
/// first; empty for other words.
fn forms_by_nearness(
    alloc: Global,
    word: &[u8],
    operands: &[Word<'_>],
) -> Result<Vec<&'static str>, AllocError> {
    let mut forms = Vec::new(alloc);
    for missing in 0..=NEAREST {
        for form in forms_of(word) {
            if nearness(*form, operands) == NEAREST - missing {
                forms.push(*form)?;
            }
        }
    }
    Ok(forms)
}

/// The number of operands that fit a form at their positions; the first operand counts twice.
fn nearness(form: &str, operands: &[Word<'_>]) -> usize {
    let Some((_, wanted)) = form.split_once(' ') else {
        return 0;
    };
    let mut near = 0usize;
    let mut weight = 2;
    for (wants, given) in wanted.split(", ").zip(operands.split(is_comma)) {
        if fits(wants.as_bytes(), given) {
            near = near.saturating_add(weight);
        }
        weight = 1;
    }
    near
}

/// The placeholders for an expression in a form.
const VALUES: &[&str] = &["nibble", "byte", "addr", "value"];

/// Whether an operand fits the operand `wants` of a form.
fn fits(wants: &[u8], given: &[Word<'_>]) -> bool {
    match given {
        [] => false,
        [gives] => fits_word(wants, gives.text),
        [
            Word { text: b"[", .. },
            Word { text: b"I", .. },
            Word { text: b"]", .. },
        ] if matches!(wants, b"[I]") => true,
        _ => is_one_of(wants, VALUES),
    }
}

/// Whether an operand of a single token fits the operand `wants` of a form.
fn fits_word(wants: &[u8], gives: &[u8]) -> bool {
    match wants {
        b"Vx" | b"Vy" => is_register(gives),
        _ if is_one_of(wants, VALUES) => !is_reserved(gives),
        _ => wants == gives,
    }
}
