//! Chooses the place at which the fault of a property is shown, and the help for the fault.

ghost use Rattle.std.specs.Prelude.{◌≤◌, IfOk, length};
ghost use Rattle.chip_properties.specs.Lines.{StandsAt};

use crate::fault::{FaultCode, Found, PropertyFault};
use crate::limits::{MOST_COMPARISONS, MOST_PROPERTIES, MOST_TERMS};
use crate::near::{REGISTERS, fewest_edits, is_like_register, most_edits, undefined_sentence};
use crate::other_words::{
    IMPLICATION, hexadecimal_help, is_conditional, is_unequal, other_kind, text_help, word_help,
};
use crate::place_last::place_help;
use crate::reader::Reader;
use crate::stated::Kind;
use crate::tokens::respelled;
use crate::words::{is_property_word, item_of_word, kind_of_word};
use chip_asm::Source;
use chip_lang::limits::OPEN_PARENTHESES;
use chip_lang::{Fault, Lexeme, Span, Token, is_sign_of, is_the, lexemes, tokens};
use std::alloc::{AllocError, Global};

/// Returns a fault of the property of a line. The text of the property begins at `start` in the line.
pub(crate) fn fault_found(
    reader: &Reader<'_>,
    number: usize,
    line: &[u8],
    start: usize,
    found: Found,
) -> Result<PropertyFault, AllocError>
    requires { start ≤ length line.now }
    ensures { IfOk result (λ fault. StandsAt number line.now fault) }
{
    let alloc = reader.alloc;
    let text = respelled(alloc, &line[start..])?;
    let parts = lexemes(alloc, &text)?;
    let found = narrowed(reader.source, &parts, found);
    let span = span_of(&tokens(alloc, &text)?, line, start, found);
    let help = match text_help(&line[span.start..span.end]) {
        Some(help) => Vec::from_slice(alloc, help)?,
        None => longer_help(
            reader,
            &line[start..],
            &line[span.start..span.end],
            &parts,
            found,
        )?,
    };
    Ok(PropertyFault {
        line: number,
        code: found.code,
        span,
        help,
    })
}

/// Returns the range of a line that contains the tokens of a fault. The text of the property begins
/// at `start`. If the text has no tokens, the range is the mark before it; if the fault is past the
/// last token, the empty range after the last token.
fn span_of(tokens: &[Token], line: &[u8], start: usize, found: Found) -> Span
    ensures rises { result.start ≤ result.end }
    ensures inside { result.end ≤ length line.now }
{
    let (first, end) = match (tokens.get(found.first), tokens.last()) {
        (Some(first), Some(last)) => match tokens.get(found.end.saturating_sub(1)) {
            Some(token) => (first.start, token.end.max(first.end)),
            None => (first.start, last.end),
        },
        (None, Some(last)) => (last.end, last.end),
        (_, None) => (0, 0),
    };
    let first = match tokens.is_empty() {
        true => start.saturating_sub(2),
        false => start.saturating_add(first),
    };
    let end = start.saturating_add(end).min(line.len());
    Span {
        start: first.min(end),
        end,
    }
}

/// Returns a fault at fewer tokens, or with a different code, if that fault is more precise.
fn narrowed(source: &Source, tokens: &[Lexeme], found: Found) -> Found {
    match found.code {
        FaultCode::NoComparison => match first_bad(tokens) {
            Some(bad) => bad,
            None if kind_meant(source, tokens).is_some() => Found::at(found.code, 0),
            None => misplaced(tokens, found),
        },
        FaultCode::UndefinedName => undefined(source, tokens, found),
        FaultCode::NothingStated => Found::at(found.code, 0),
        _ => found,
    }
}

/// Returns a fault at the first bad token, if there is one.
fn first_bad(tokens: &[Lexeme]) -> Option<Found> {
    for (index, token) in tokens.iter().enumerate() {
        match token {
            Lexeme::Bad(Fault::NumberTooLarge) => {
                return Some(Found::at(FaultCode::OutOfRange, index));
            }
            Lexeme::Bad(_) => return Some(Found::at(FaultCode::NoComparison, index)),
            _ => {}
        }
    }
    None
}

/// If the first word of a property was meant as the word for a kind, returns both words. Returns `None` if the first
/// word is a name of the source or a word of properties, or if a sign follows it as after a value.
fn kind_meant<'a>(source: &Source, tokens: &'a [Lexeme]) -> Option<(&'a [u8], &'static str)> {
    let (Lexeme::Word(word), rest) = tokens.split_first()? else {
        return None;
    };
    let word = word.get();
    let is_value = match rest.first() {
        Some(Lexeme::Sign(sign)) => !matches!(sign, b'(' | b'[' | b':' | b','),
        _ => false,
    };
    if is_value || is_property_word(word) || source.symbol(word).is_some() {
        return None;
    }
    Some((word, other_kind(word)?))
}

/// Returns a fault at the first of these tokens that a property can't use. If there is none, narrows the fault to a
/// sign at the front or to the token after a value, if that token can't come there.
fn misplaced(tokens: &[Lexeme], found: Found) -> Found {
    for index in found.first..found.end.min(tokens.len()) {
        if why_not_asked(&tokens[index]).is_some() {
            return Found::at(FaultCode::NotAsked, index);
        }
    }
    let second = found.first.saturating_add(1);
    match (tokens.get(found.first), tokens.get(second)) {
        (Some(Lexeme::Sign(b'(' | b'[')), _) => found,
        (Some(Lexeme::Sign(_)), _) => Found::at(found.code, found.first),
        (Some(_), Some(Lexeme::Sign(b'+' | b'*' | b'('))) => found,
        (Some(_), Some(_)) if second < found.end => Found::at(found.code, second),
        _ => found,
    }
}

/// Returns a fault at the first of these tokens that is a name without a value.
fn undefined(source: &Source, tokens: &[Lexeme], found: Found) -> Found {
    for index in found.first..found.end.min(tokens.len()) {
        if let Lexeme::Word(word) = &tokens[index]
            && source.symbol(word.get()).is_none()
        {
            let code = match word.get() == b"DRAWS".as_slice() {
                true => FaultCode::NotAsked,
                false => FaultCode::UndefinedName,
            };
            return Found::at(code, index);
        }
    }
    found
}

/// If a token is the word for a value that a property can't use, returns the reason.
fn why_not_asked(token: &Lexeme) -> Option<&'static [u8]> {
    if is_the(b"ST", token) {
        Some(b"the search ignores ST; use DT or a register")
    } else if is_the(b"K", token) {
        Some(b"KEYS is 1 where the next instruction asks for a key")
    } else if is_the(b"DRAWS", token) {
        Some(
            b"the search doesn't record how many random bytes were used; use the register that RND sets",
        )
    } else {
        None
    }
}

/// Returns the reason why a property can't use the value that a token names, or an empty text.
fn why_not(token: &Lexeme) -> &'static [u8] {
    if is_the(b"HERE", token) {
        b"here needs a line of the source; write at and a name or a number"
    } else {
        why_not_asked(token).unwrap_or(b"")
    }
}

/// Returns help for a fault of a property with this text, which shows these bytes, or an empty text.
fn longer_help(
    reader: &Reader<'_>,
    text: &[u8],
    shown: &[u8],
    tokens: &[Lexeme],
    found: Found,
) -> Result<Vec<u8>, AllocError> {
    if let Some(help) = hexadecimal_help(reader.alloc, shown)? {
        return Ok(help);
    }
    match place_help(reader, text, tokens, found)? {
        Some(help) => Ok(help),
        None => help_for(reader, tokens, found),
    }
}

/// Returns help for a fault at some tokens, or an empty text.
fn help_for(reader: &Reader<'_>, tokens: &[Lexeme], found: Found) -> Result<Vec<u8>, AllocError> {
    let alloc = reader.alloc;
    let (before, rest) = tokens.split_at(found.first.min(tokens.len()));
    if found.code == FaultCode::NoComparison
        && before.is_empty()
        && let Some((word, kind)) = kind_meant(reader.source, tokens)
    {
        return kind_help(alloc, word, kind);
    }
    let help: &[u8] = match (found.code, rest.first()) {
        (FaultCode::UndefinedName, Some(Lexeme::Word(word)))
            if item_of_word(word.get()).is_some() => { NAMES_ALONE }
        (FaultCode::NothingStated, _) =>
            b"write a condition, as in V0 <= 8, or a place, as in never at BUG",
        (FaultCode::NoComparison, Some(token)) => {
            help_on_phrase(token, before, rest).unwrap_or(help_at(token, before, rest))
        }
        (FaultCode::UndefinedName, Some(Lexeme::Word(word))) => {
            return near_help(reader, word.get());
        }
        (FaultCode::OutOfRange, _) => {
            b"a value is 0 or more, an address at most 4095, a column at most 127, a row at most 63"
        }
        (FaultCode::NotAsked, Some(token)) => why_not(token),
        (FaultCode::TooMany, _) => {
            let text = format!(in alloc;
                "at most {MOST_COMPARISONS} comparisons, {MOST_TERMS} terms in a sum, \
                {MOST_PROPERTIES} properties and {OPEN_PARENTHESES} open parentheses"
            )?;
            return Ok(text.into_bytes());
        }
        _ => b"",
    };
    Vec::from_slice(alloc, help)
}

/// Returns help for a word that was meant as the word for a kind: the right spelling of that word.
fn kind_help(alloc: Global, word: &[u8], kind: &str) -> Result<Vec<u8>, AllocError> {
    let written = format!(in alloc; " is written {kind} here, as in ;! {kind} V0 < 3")?;
    [word, written.as_bytes()].concat(alloc)
}

/// Returns help for a token that belongs to a phrase of other languages. `rest` begins with the token.
fn help_on_phrase(token: &Lexeme, before: &[Lexeme], rest: &[Lexeme]) -> Option<&'static [u8]> {
    let is_arrow = matches!(token, Lexeme::Sign(b'=' | b'-')) && second_is(b'>', rest);
    if is_conditional(token)
        || before.iter().any(|word| is_conditional(word))
        || is_arrow && has_relation(before)
    {
        Some(IMPLICATION)
    } else if let [Lexeme::Word(first)] = before
        && kind_of_word(first.get()).is_some()
        && let Lexeme::Word(word) = token
        && is_item_word(word.get())
        && has_relation(rest)
    {
        Some(b"the option names the kind already; write only the condition, as in --never 'V0 = 3'")
    } else if is_unequal(token, before, rest) {
        Some(b"write <> or != for unequal")
    } else if !has_relation(before) && before.iter().any(|word| is_the(b"PIXEL", word)) {
        Some(b"write PIXEL(3, 4) for the pixel in column 3 and row 4")
    } else if is_last(b"LINE", before) {
        Some(
            b"a place is a label or an address: label that line, or write here in the line above it",
        )
    } else if is_the(b"IN", token) && has_relation(before) {
        Some(b"write at before a place, as in V0 < 5 at LOOP")
    } else if is_last(b"AT", before) && (second_is(b'+', rest) || second_is(b'-', rest)) {
        Some(b"put a calculation into parentheses, as in at (LOOP + 2)")
    } else if let Lexeme::Word(word) = token {
        word_help(word.get())
    } else {
        None
    }
}

/// Whether these tokens end with this word.
fn is_last(word: &[u8], tokens: &[Lexeme]) -> bool {
    tokens.last().is_some_and(|last| is_the(word, last))
}

/// Whether the second of these tokens is this sign.
fn second_is(sign: u8, tokens: &[Lexeme]) -> bool {
    tokens.get(1).is_some_and(|next| is_sign_of(sign, next))
}

/// Help for a register among names and numbers.
const NAMES_ALONE: &[u8] =
    b"parentheses and brackets take only names and numbers, as in V0 <= (SIZE - 1)";

/// Returns help for a token that can't follow the tokens before it, or an empty text. `rest` begins with the token.
fn help_at(token: &Lexeme, before: &[Lexeme], rest: &[Lexeme]) -> &'static [u8] {
    let last = before.last();
    let follows = |sign: u8| last.is_some_and(|last| is_sign_of(sign, last));
    match token {
        Lexeme::Sign(b',') if has_relation(before) && has_relation(rest) => {
            b"write and between two comparisons"
        }
        Lexeme::Sign(b'(') if has_relation(rest) && !follows(b'(') => {
            b"write comparisons without parentheses around them, as in V0 = 5 and V1 < 3"
        }
        _ if follows(b'[') => b"brackets take an address, a name or a number, as in [LIVES]",
        _ if follows(b'(') => NAMES_ALONE,
        Lexeme::Sign(b'&') if stands_between(b'&', before, rest) => {
            b"write and between two comparisons"
        }
        Lexeme::Sign(b'|') if stands_between(b'|', before, rest) => {
            b"write or between two comparisons"
        }
        Lexeme::Sign(b':') => b"write no colon, as in ;! always V0 < 3",
        Lexeme::Sign(b'=') if follows(b'=') => b"write = for equal",
        Lexeme::Sign(b'<') if follows(b'=') => b"write <=",
        Lexeme::Sign(b'>') if follows(b'=') => b"write >=",
        Lexeme::Sign(b'=' | b'<' | b'>') if has_relation(before) => {
            b"write two comparisons, with and between them"
        }
        Lexeme::Sign(b'-') if ends_with_sign(before) => {
            b"no value is negative: a register is 0 to 255, and holds 255 for -1"
        }
        Lexeme::Sign(b'-') => b"instead of subtracting, add on the other side of the relation",
        Lexeme::Sign(b'/') if second_is(b'/', rest) => b"a comment begins with ;",
        Lexeme::Sign(b'/' | b'&' | b'|' | b'^') if ends_with_item(before) => {
            b"registers are only added, and multiplied by numbers, as in 2 * V0 + V1"
        }
        Lexeme::Sign(b'/' | b'&' | b'|' | b'^' | b'~' | b'\\' | b'*') => {
            b"put a calculation with names and numbers into parentheses"
        }
        Lexeme::Number(_) | Lexeme::Word(_) if follows(b'*') || second_is(b'*', rest) => {
            b"write the number before the *, as in 2 * V0"
        }
        Lexeme::Word(word) => help_at_word(word.get(), before, rest),
        _ => b"",
    }
}

/// Whether a sign was meant to join two comparisons: it is written twice, or there is a relation on
/// each side of it. `rest` begins with the sign.
fn stands_between(sign: u8, before: &[Lexeme], rest: &[Lexeme]) -> bool {
    second_is(sign, rest) || has_relation(before) && has_relation(rest)
}

/// Whether these tokens contain a relation.
fn has_relation(tokens: &[Lexeme]) -> bool {
    tokens
        .iter()
        .any(|token| matches!(token, Lexeme::Sign(b'=' | b'<' | b'>')))
}

/// Returns help for a word that can't follow the tokens before it, or an empty text. `rest` begins
/// with the word.
fn help_at_word(word: &[u8], before: &[Lexeme], rest: &[Lexeme]) -> &'static [u8] {
    let follows_at = is_last(b"AT", before);
    if is_stop_word(word) && !follows_at && !has_relation(before) && !has_relation(rest) {
        b"explore asks whether the game can crash or stop; a property asks for values"
    } else if word == b"AND".as_slice() || word == b"OR".as_slice() {
        b"a condition can't mix and with or; write two properties"
    } else if word == b"HERE".as_slice() && follows_at {
        b"write here without at"
    } else if word == b"HERE".as_slice() || word == b"AT".as_slice() {
        b"write a comparison before the place, and an address after at"
    } else if let Some(kind) = kind_of_word(word)
        && !ends_with_sign(before)
    {
        help_at_kind(kind)
    } else if is_item_word(word) && !follows_at && !has_relation(before) && !has_relation(rest) {
        b"a comparison has two sides, as in V0 <= 8"
    } else if is_property_word(word) {
        b"put a name with this spelling in parentheses"
    } else if rest.len() == 1 && !is_item_word(word) {
        b"write at before a place, as in never at BUG"
    } else {
        b""
    }
}

/// The words that authors use to ask for a crash or an end, in upper case.
const STOP_WORDS: &[&[u8]] = &[
    b"CRASH", b"CRASHES", b"HALTS", b"STOPS", b"STOPPED", b"S1", b"S2", b"S3", b"S4", b"S5", b"S6",
    b"S7",
];

fn is_stop_word(word: &[u8]) -> bool {
    STOP_WORDS.iter().any(|known| *known == word)
}

/// Whether these tokens end with an item that a property can use.
fn ends_with_item(tokens: &[Lexeme]) -> bool {
    match tokens.last() {
        Some(Lexeme::Word(word)) => is_item_word(word.get()),
        _ => false,
    }
}

/// Whether a word in upper case begins an item that a property can use.
fn is_item_word(word: &[u8]) -> bool {
    item_of_word(word).is_some() || word == b"PIXEL".as_slice()
}

/// Whether these tokens end with a sign that comes before a value.
fn ends_with_sign(tokens: &[Lexeme]) -> bool {
    matches!(
        tokens.last(),
        Some(Lexeme::Sign(b'=' | b'<' | b'>' | b'+' | b'*' | b'(' | b'['))
    )
}

/// Returns help for a word for a kind that doesn't come first.
fn help_at_kind(kind: Kind) -> &'static [u8] {
    match kind {
        Kind::Always => b"put always first, as in ;! always V0 < 3",
        Kind::Never => b"put never first, as in ;! never V0 = 3",
        Kind::Ever => b"put ever first, as in ;! ever V0 = 3",
        Kind::Can => b"put can first, as in ;! can V0 = 3",
    }
}

/// Returns help for a word that isn't a name of the source: the nearest name, if any name is near.
fn near_help(reader: &Reader<'_>, word: &[u8]) -> Result<Vec<u8>, AllocError> {
    let mut help = Vec::new(reader.alloc);
    let mut most = most_edits(word);
    for place in 0..reader.source.symbol_count() {
        if let Some((name, _)) = reader.source.symbol_at(place) {
            if let Some(edits) = fewest_edits(most, word, name) {
                help.clear();
                help.extend_from_slice(b"did you mean ")?;
                help.extend_from_slice(name)?;
                help.push(b'?')?;
                if edits <= 1 {
                    break;
                }
                most = edits - 1;
            }
        }
    }
    if !help.is_empty() {
        Ok(help)
    } else if is_like_register(word) {
        Vec::from_slice(reader.alloc, REGISTERS)
    } else {
        undefined_sentence(reader.alloc, word)
    }
}
