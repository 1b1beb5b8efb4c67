//! The lines of help for operands.

use crate::forms::{is_heading, is_reserved, push_forms, stands_alone};
use crate::hint::{Hint, push_formatted, push_help, push_sentence};
use crate::known::Known;
use crate::mistakes::push_mistake;
use crate::place::out_operand;
use crate::reserved::push_meaning;
use crate::words::{
    Word, has_twice, is_atom, is_comma, is_one_of, is_register, is_special, statement_of,
};
use chip_lang::{Body, Expr, Kind, Line, Operand, Pattern, eval};
use chip_properties::near::{REGISTERS, is_like_register};
use std::alloc::{AllocError, Global};

/// Adds help for operands that fit no form. `words` are the words of the line, and `rest` the words
/// that begin at or after the place of the fault.
pub(crate) fn wrong_operands(
    alloc: Global,
    hints: &mut Vec<Hint>,
    words: &[Word<'_>],
    rest: &[Word<'_>],
) -> Result<(), AllocError> {
    let statement = statement_of(words);
    if push_mistake(alloc, hints, words)? || push_mistake(alloc, hints, statement)? {
        return Ok(());
    }
    if rest.len() == statement.len() {
        return wrong_front(alloc, hints, rest);
    }
    let (heading, operands) = parts_of(statement);
    if let [word] = rest
        && takes_name(heading, word.text)
        && push_meaning(alloc, hints, word.text)?
    {
        return Ok(());
    }
    let sentence = sentence_for(heading, words, rest);
    push_sentence(alloc, hints, sentence)?;
    push_split_binary(alloc, hints, rest)?;
    if operands.iter().any(|word| is_like_register(word.text)) {
        push_help(alloc, hints, &[REGISTERS])
    } else if sentence.is_some() && !rest.is_empty() {
        Ok(())
    } else {
        forms_help(alloc, hints, heading, operands)
    }
}

/// Adds the whole binary number, if the words at fault begin with its two parts, split by a blank.
fn push_split_binary(
    alloc: Global,
    hints: &mut Vec<Hint>,
    rest: &[Word<'_>],
) -> Result<(), AllocError> {
    match rest {
        [front, end, ..] if front.text.starts_with(b"$") && is_binary(end.text) => push_help(
            alloc,
            hints,
            &[
                b"or, if this is one binary number, remove the blank: ",
                front.text,
                end.text,
            ],
        ),
        _ => Ok(()),
    }
}

/// Whether a word consists only of binary digits.
fn is_binary(word: &[u8]) -> bool {
    word.iter().all(|byte| matches!(byte, b'0' | b'1'))
}

/// Whether a reserved word after an instruction or a directive was probably meant as a name.
fn takes_name(heading: &[u8], word: &[u8]) -> bool {
    let is_part = is_register(word) || is_special(word);
    is_one_of(heading, &["IFDEF", "IFUND"])
        || !is_part && !stands_alone(heading) && !is_one_of(heading, &["ALIGN", "DA"])
}

/// The instruction or directive of a statement, and the words of its operands.
fn parts_of<'a>(statement: &'a [Word<'a>]) -> (&'a [u8], &'a [Word<'a>]) {
    match statement {
        [_, equ, operands @ ..] if is_one_of(equ.text, &["EQU", "="]) => (b"EQU", operands),
        [heading, operands @ ..] => (heading.text, operands),
        [] => (b"", statement),
    }
}

/// Adds the forms of an instruction or a directive. For a SUB of a number, also adds how to write it with ADD.
fn forms_help(
    alloc: Global,
    hints: &mut Vec<Hint>,
    heading: &[u8],
    operands: &[Word<'_>],
) -> Result<(), AllocError> {
    push_forms(alloc, hints, heading, operands)?;
    if heading == b"SUB".as_slice()
        && operands
            .iter()
            .any(|word| matches!(word.kind, Kind::Number(_)))
    {
        push_help(alloc, hints, &[b"ADD subtracts a number, as in ADD V0, -5"])
    } else {
        Ok(())
    }
}

/// Adds help for a statement whose first word is at fault.
fn wrong_front(alloc: Global, hints: &mut Vec<Hint>, rest: &[Word<'_>]) -> Result<(), AllocError> {
    match rest {
        [Word { text: b"EQU", .. }, ..] => push_help(
            alloc,
            hints,
            &[b"write a name before EQU, as in SIZE EQU 5"],
        ),
        [Word { text: b"*", .. }, Word { text: b"=", .. }, ..] => push_help(
            alloc,
            hints,
            &[ORIGIN.as_bytes()],
        ),
        [Word { text: b":", .. }, ..] => {
            push_help(
                alloc,
                hints,
                &[b"write the colon after the label and not before it"],
            )
        }
        [first, ..] if first.kind == Kind::Word => push_help(
            alloc,
            hints,
            &[
                first.text,
                b" takes no label; put the label on a line of its own",
            ],
        ),
        [Word { text: b"/", .. }, ..] | [Word { text: b"-", .. }, Word { text: b"-", .. }, ..] =>
            push_help(alloc, hints, &[b"a comment begins with `;`"]),
        _ => push_help(
            alloc,
            hints,
            &[b"a line begins with a label, an instruction or a directive"],
        ),
    }
}

/// Directives whose operands are not expressions.
const WITHOUT_EXPRESSION: &[&str] = &["ALIGN", "DA", "IFDEF", "IFUND", "ELSE", "ENDIF", "END"];

/// Directives that have one expression as their operand.
const OF_ONE_EXPRESSION: &[&str] = &["ORG", "DS", "EQU"];

/// The help for the operand at fault, which is the first operand in `rest`.
fn sentence_for(heading: &[u8], words: &[Word<'_>], rest: &[Word<'_>]) -> Option<&'static str> {
    let operand = rest.split(is_comma).next().unwrap_or(rest);
    if has_twice(b"<", words) || has_twice(b">", words) {
        Some("a shift is one sign, `<` or `>`")
    } else if operand.is_empty() {
        Some(sentence_for_missing(words, rest))
    } else if heading == b"DEFINE".as_slice() {
        Some("DEFINE gives 0; EQU gives another value, as in SIZE EQU 5")
    } else if is_part(operand) || is_one_of(heading, WITHOUT_EXPRESSION) {
        None
    } else {
        sentence_for_front(heading, operand).or(sentence_for_expression(operand))
    }
}

/// The help for a missing operand.
fn sentence_for_missing(words: &[Word<'_>], rest: &[Word<'_>]) -> &'static str {
    if !rest.is_empty() {
        return "an operand is missing before this comma";
    }
    match words {
        [.., last] if is_comma(last) => "an operand is missing after the last comma",
        _ => "an operand is missing at the end",
    }
}

/// Whether an operand is a register, another part of the machine or `[I]`.
fn is_part(operand: &[Word<'_>]) -> bool {
    match operand {
        [word] => is_register(word.text) || is_special(word.text),
        [Word { text: b"[", .. }, Word { text: b"I", .. }, _] => true,
        _ => false,
    }
}

/// The help for an instruction or a directive among the operands.
const ONE_INSTRUCTION: &str = "a line has one instruction; put the second one on a line of its own";

/// The help for the sign that stands for the address of the line in other assemblers.
pub(crate) const NO_HERE: &str =
    "no sign means the address of the line; give the line a label, as in HALT: JP HALT";

/// The help for a sign or a word that computes the remainder of a division in other languages.
pub(crate) const NO_REMAINDER: &str =
    "no operator gives the remainder of a division; `& 7` gives the remainder of a division by 8";

/// The help for an operand, as far as its first tokens decide it.
fn sentence_for_front(heading: &[u8], operand: &[Word<'_>]) -> Option<&'static str> {
    match operand {
        [first, ..] if first.kind == Kind::Text && first.text.len() != 3 => {
            Some("`DA` takes one text of any length; elsewhere a text has one byte")
        }
        [_, Word { text: b":", .. }, ..] => Some(
            "write a colon only after a name that the line defines",
        ),
        [_, Word { text: b"MOD", .. }, ..] => Some(NO_REMAINDER),
        [Word { text: b"*", .. }] => Some(NO_HERE),
        [Word { text: b"(", .. }, Word { text: b"I", .. }, ..] => Some(
            "the bytes at I are written `[I]`, as in LD [I], V0",
        ),
        [_, second, ..] if is_heading(second.text) => Some(ONE_INSTRUCTION),
        [first, Word { text: b"=", .. }, ..] if is_register(first.text) => Some(
            "write a comma between two operands",
        ),
        [first, second, ..]
            if is_atom(first) && is_atom(second) && !is_one_of(heading, OF_ONE_EXPRESSION) => {
            Some("a comma is missing between two operands")
        }
        _ => None,
    }
}

/// The help for tokens that are not an expression.
fn sentence_for_expression(operand: &[Word<'_>]) -> Option<&'static str> {
    for word in operand {
        let sentence = sentence_for_word(word.text);
        if sentence.is_some() {
            return sentence;
        }
    }
    sentence_for_parentheses(operand)
}

/// The help for a token that no expression can contain.
fn sentence_for_word(word: &[u8]) -> Option<&'static str> {
    if matches!(word, b"[") {
        Some("only `[I]` reaches memory; LD I sets the address")
    } else if is_register(word) {
        Some("an expression can't contain a register; ADD and SUB compute with registers")
    } else if is_heading(word) {
        Some(ONE_INSTRUCTION)
    } else if is_reserved(word) {
        Some("a reserved word has no value; an expression has names, numbers and operators")
    } else {
        None
    }
}

/// The help for unbalanced parentheses.
fn sentence_for_parentheses(operand: &[Word<'_>]) -> Option<&'static str> {
    let mut open = 0usize;
    for word in operand {
        match word.text {
            b"(" => open = open.saturating_add(1),
            b")" if open == 0 => return Some("each `)` needs its `(`"),
            b")" => open -= 1,
            _ => {}
        }
    }
    (open > 0).then_some("each `(` needs its `)`")
}

/// The help for the `*` that other assemblers write for the address of the next line.
pub(crate) const ORIGIN: &str = "ORG sets the address of the next line, as in ORG #200";

/// The values that an operand can have: `low` to `high`, inclusive.
#[derive(Clone, Copy)]
struct Bounds {
    low: i32,
    high: i32,
}

const NIBBLE: Bounds = Bounds { low: 0, high: 15 };

const BYTE: Bounds = Bounds {
    low: -128,
    high: 255,
};

const WORD: Bounds = Bounds {
    low: -32768,
    high: 65535,
};

const ADDRESS: Bounds = Bounds { low: 0, high: 4095 };

/// The values that an operand of a form can have.
fn bounds_of(pattern: Option<&Pattern>) -> Bounds {
    match pattern {
        Some(Pattern::Nibble) => NIBBLE,
        Some(Pattern::Address) => ADDRESS,
        _ => BYTE,
    }
}

/// Adds the value and the range of a line's first operand that is out of range.
pub(crate) fn out_of_range(
    alloc: Global,
    hints: &mut Vec<Hint>,
    known: &Known,
    line: &Line,
) -> Result<(), AllocError> {
    let Line::Read { body, .. } = line else {
        return Ok(());
    };
    let index = out_operand(line, known);
    match body {
        Body::Ds(_) => push_help(alloc, hints, &[b"DS takes 0 or more"]),
        Body::Db(values) => push_bounds(alloc, hints, known, values.get(index), BYTE),
        Body::Dw(values) => push_bounds(alloc, hints, known, values.get(index), WORD),
        Body::Code(form, operands) => {
            let bounds = bounds_of(form.patterns.get(index));
            push_bounds(alloc, hints, known, value_of(operands.get(index)), bounds)
        }
        _ => Ok(()),
    }
}

/// The expression of an operand; nothing if the operand is not an expression.
fn value_of(operand: Option<&Operand>) -> Option<&Expr> {
    match operand {
        Some(Operand::Value(value)) => Some(value),
        _ => None,
    }
}

/// Adds the value of an operand and the range that the value must lie in.
fn push_bounds(
    alloc: Global,
    hints: &mut Vec<Hint>,
    known: &Known,
    operand: Option<&Expr>,
    bounds: Bounds,
) -> Result<(), AllocError> {
    let Some(operand) = operand else {
        return Ok(());
    };
    let Ok(value) = eval(operand, known) else {
        return Ok(());
    };
    let Bounds { low, high } = bounds;
    push_formatted(
        alloc,
        hints,
        format_args!("the value is {value}, and has to lie from {low} to {high}"),
    )
}
