//! Words with a fixed meaning: directives, parts of the machine and registers.

ghost use Rattle.std.specs.Prelude.{◌≡◌, map, option_map};
ghost use Rattle.chip_lang.specs.Named.{find_word};
ghost use Rattle.chip_lang.specs.Form.{row_of_form};
ghost use Rattle.chip_lang.specs.Reserved.{is_mnemonic};
ghost use Rattle.chip_lang.specs.inner.NamedForms.{forms_of};
ghost use Rattle.chip_lang.specs.inner.Keywords.{row_of, rows_ending_in, meaning_of, meaning_in, meaning};
ghost use Rattle.chip_lang.specs.Keyword.{directive_of, special_of, register_of, register_named};

use crate::directive::Directive;
use crate::form::{
    ADD, AND, CALL, CLS, DRW, EXIT, Form, HIGH, JP, LD, LOW, OR, RET, RND, SCD, SCL, SCR, SE, SHL,
    SHR, SKNP, SKP, SNE, SUB, SUBN, SYS, Special, XOR,
};
use crate::number::Reg;

/// The meaning of a reserved word that isn't a register.
#[derive(Clone, Copy)]
pub(crate) enum Keyword {
    /// An instruction, by its forms.
    Instruction(&'static [Form]),
    /// A directive.
    Directive(Directive),
    /// A part of the machine.
    Special(Special),
}

/// A word in upper case and its meaning.
#[derive(Clone, Copy)]
pub(crate) struct Named(pub(crate) &'static [u8], pub(crate) Keyword);

// All reserved words except registers, grouped by last letter, from A to W. No word ends in another byte.
const WORDS: &[&[Named]] = &[
    &[Named(b"DA", Keyword::Directive(Directive::Da))],
    &[
        Named(b"SUB", Keyword::Instruction(SUB)),
        Named(b"DB", Keyword::Directive(Directive::Db)),
        Named(b"B", Keyword::Special(Special::Decimal)),
    ],
    &[],
    &[
        Named(b"LD", Keyword::Instruction(LD)),
        Named(b"ADD", Keyword::Instruction(ADD)),
        Named(b"AND", Keyword::Instruction(AND)),
        Named(b"RND", Keyword::Instruction(RND)),
        Named(b"SCD", Keyword::Instruction(SCD)),
        Named(b"END", Keyword::Directive(Directive::End)),
        Named(b"IFUND", Keyword::Directive(Directive::Ifund)),
        Named(b"USED", Keyword::Directive(Directive::Used)),
    ],
    &[
        Named(b"SE", Keyword::Instruction(SE)),
        Named(b"SNE", Keyword::Instruction(SNE)),
        Named(b"ELSE", Keyword::Directive(Directive::Else)),
        Named(b"DEFINE", Keyword::Directive(Directive::Define)),
        Named(b"INCLUDE", Keyword::Directive(Directive::Include)),
    ],
    &[
        Named(b"F", Keyword::Special(Special::SmallDigit)),
        Named(b"HF", Keyword::Special(Special::BigDigit)),
        Named(b"IFDEF", Keyword::Directive(Directive::Ifdef)),
        Named(b"ENDIF", Keyword::Directive(Directive::Endif)),
        Named(b"XREF", Keyword::Directive(Directive::Xref)),
        Named(b"UNDEF", Keyword::Directive(Directive::Undef)),
    ],
    &[Named(b"ORG", Keyword::Directive(Directive::Org))],
    &[Named(b"HIGH", Keyword::Instruction(HIGH))],
    &[Named(b"I", Keyword::Special(Special::Index))],
    &[],
    &[Named(b"K", Keyword::Special(Special::Key))],
    &[
        Named(b"CALL", Keyword::Instruction(CALL)),
        Named(b"SHL", Keyword::Instruction(SHL)),
        Named(b"SCL", Keyword::Instruction(SCL)),
    ],
    &[],
    &[
        Named(b"SUBN", Keyword::Instruction(SUBN)),
        Named(b"ALIGN", Keyword::Directive(Directive::Align)),
        Named(b"OPTION", Keyword::Directive(Directive::Options)),
    ],
    &[],
    &[
        Named(b"JP", Keyword::Instruction(JP)),
        Named(b"SKP", Keyword::Instruction(SKP)),
        Named(b"SKNP", Keyword::Instruction(SKNP)),
    ],
    &[],
    &[
        Named(b"OR", Keyword::Instruction(OR)),
        Named(b"XOR", Keyword::Instruction(XOR)),
        Named(b"SHR", Keyword::Instruction(SHR)),
        Named(b"SCR", Keyword::Instruction(SCR)),
        Named(b"R", Keyword::Special(Special::Flags)),
    ],
    &[
        Named(b"CLS", Keyword::Instruction(CLS)),
        Named(b"SYS", Keyword::Instruction(SYS)),
        Named(b"DS", Keyword::Directive(Directive::Ds)),
    ],
    &[
        Named(b"RET", Keyword::Instruction(RET)),
        Named(b"EXIT", Keyword::Instruction(EXIT)),
        Named(b"DT", Keyword::Special(Special::DelayTimer)),
        Named(b"ST", Keyword::Special(Special::SoundTimer)),
    ],
    &[Named(b"EQU", Keyword::Directive(Directive::Equ))],
    &[],
    &[
        Named(b"DRW", Keyword::Instruction(DRW)),
        Named(b"LOW", Keyword::Instruction(LOW)),
        Named(b"DW", Keyword::Directive(Directive::Dw)),
    ],
];

/// The words that end in the byte `last`. `words` contains a group for each last letter, starting
/// with A. A byte below `A` is treated as `A`; no word ends in such a byte.
#[tactic(auto, using(crate::proofs::Keywords::rows_at))]
fn words_ending_in(last: u8, words: &[&'static [Named]]) -> &'static [Named]
    ensures { map row_of result.now
        ≡ rows_ending_in last (map (λ group. map row_of group.now) words.now) }
{
    match words.get(usize::from(last.saturating_sub(b'A'))) {
        Some(words) => words,
        None => &[],
    }
}

/// The meaning of a word in these rows; none if the rows don't contain the word.
fn find_in(rows: &[Named], word: &[u8]) -> Option<Keyword>
    ensures { option_map meaning_of result ≡ find_word (map row_of rows.now) word.now }
{
    for Named(text, meaning) in rows {
        if *text == word {
            return Some(*meaning);
        }
    }
    None
}

/// The meaning of a word in upper case, if it is reserved and isn't a register.
pub(crate) fn keyword_of(word: &[u8]) -> Option<Keyword>
    ensures { meaning_in result ≡ meaning word.now }
{
    match word.last() {
        Some(last) => find_in(words_ending_in(*last, WORDS), word),
        None => None,
    }
}

/// The directive that a word in upper case names.
pub fn directive_of(word: &[u8]) -> Option<Directive>
    ensures { result ≡ directive_of word.now }
{
    match keyword_of(word) {
        Some(Keyword::Directive(directive)) => Some(directive),
        _ => None,
    }
}

/// The directive that a word in upper case names, if any, and the forms of the instruction that the
/// word names. The list of forms is empty if the word names no instruction.
pub(crate) fn front_named(word: &[u8]) -> (Option<Directive>, &'static [Form])
    ensures directive { result.0 ≡ directive_of word.now }
    ensures forms { map row_of_form result.1.now ≡ forms_of word.now }
{
    match keyword_of(word) {
        Some(Keyword::Directive(directive)) => (Some(directive), &[]),
        Some(Keyword::Instruction(forms)) => (None, forms),
        Some(Keyword::Special(_)) => (None, &[]),
        None => (None, &[]),
    }
}

/// The part of the machine that a word in upper case names.
pub fn special_of(word: &[u8]) -> Option<Special>
    ensures { result ≡ special_of word.now }
{
    match keyword_of(word) {
        Some(Keyword::Special(special)) => Some(special),
        _ => None,
    }
}

/// Whether any form has this name, which is in upper case.
pub(crate) fn is_mnemonic(word: &[u8]) -> bool
    ensures { result ≡ is_mnemonic word.now }
{
    matches!(keyword_of(word), Some(Keyword::Instruction(_)))
}

/// The register that a word in upper case names: `V0` to `VF`.
#[tactic(auto, unfolding(crate::specs::Keyword::register_of))]
pub fn register_of(word: &[u8]) -> Option<Reg>
    ensures { result ≡ register_of word.now }
{
    match word {
        [letter, digit] => register_named(*letter, *digit),
        _ => None,
    }
}

#[tactic(auto, unfolding(crate::specs::Token::digit_value))]
fn register_named(letter: u8, digit: u8) -> Option<Reg>
    ensures { result ≡ register_named letter digit }
{
    if letter != b'V' {
        return None;
    }
    match digit {
        b'0'..=b'9' => Reg::new(digit - b'0'),
        b'A'..=b'F' => Reg::new(digit - 55),
        _ => None,
    }
}
