//! Help for a property that continues after its place.

use crate::fault::{Failure, FaultCode, Found};
use crate::other_words::is_conditional;
use crate::reader::Reader;
use crate::separator::Separator;
use crate::tokens::{property_tokens, respelled};
use crate::words::kind_of_word;
use chip_lang::{Lexeme, Token, is_sign_of, is_the, tokens};
use std::alloc::{AllocError, Global};

/// Returns help for a property with this text and these tokens that continues after its place: the
/// property with the place moved to its end. Returns `None` if that text can't be read either.
pub(crate) fn place_help(
    reader: &Reader<'_>,
    text: &[u8],
    parts: &[Lexeme],
    found: Found,
) -> Result<Option<Vec<u8>>, AllocError> {
    if found.code != FaultCode::NoComparison || parts.iter().any(|part| is_conditional(part)) {
        return Ok(None);
    }
    let Some(place) = place_in(parts) else {
        return Ok(None);
    };
    let written = with_place_last(reader.alloc, text, parts, place)?;
    let tokens = property_tokens(reader.alloc, &written)?;
    match reader.stated(None, &tokens) {
        Ok(_) => {
            let sentence = b"a place stands last: write ".as_slice();
            Ok(Some([sentence, &written].concat(reader.alloc)?))
        }
        Err(Failure::OutOfMemory) => Err(AllocError),
        Err(Failure::Fault(_)) => Ok(None),
    }
}

/// The tokens of a place, from index `first` up to, but not including, index `end`.
#[derive(Clone, Copy)]
struct Place {
    first: usize,
    end: usize,
}

/// Returns the first place among tokens, if other tokens follow it.
fn place_in(parts: &[Lexeme]) -> Option<Place> {
    let first = Separator::Place.count_before(parts);
    let (_, rest) = parts.split_at(first);
    let count = match rest {
        [word, ..] if is_the(b"HERE", word) => 1,
        [_, open, ..] if is_sign_of(b'(', open) => {
            let close = rest.iter().position(|part| is_sign_of(b')', part))?;
            close.saturating_add(1)
        }
        [_, _, ..] => 2,
        _ => return None,
    };
    let end = first.saturating_add(count);
    (end < parts.len()).then_some(Place { first, end })
}

/// Returns the text of a property with its place moved to the end.
fn with_place_last(
    alloc: Global,
    text: &[u8],
    parts: &[Lexeme],
    place: Place,
) -> Result<Vec<u8>, AllocError> {
    let spans = tokens(alloc, &respelled(alloc, text)?)?;
    let Place { first, end } = place;
    let next = parts.get(end);
    let is_joint = next.is_some_and(|next| is_the(b"AND", next) || is_the(b"OR", next));
    let is_mark = next.is_some_and(|next| is_sign_of(b',', next) || is_sign_of(b':', next));
    let behind = match is_joint || is_mark {
        true => end.saturating_add(1),
        false => end,
    };
    let joint = match (has_condition(parts, first), is_joint) {
        (false, _) => b"".as_slice(),
        (true, true) => text_of(text, &spans, end, behind),
        (true, false) => b"and",
    };
    let pieces = [
        text_of(text, &spans, 0, first),
        joint,
        text_of(text, &spans, behind, spans.len()),
        text_of(text, &spans, first, end),
    ];
    let mut written = Vec::new(alloc);
    for piece in pieces {
        if !piece.is_empty() && !written.is_empty() {
            written.push(b' ')?;
        }
        written.extend_from_slice(piece)?;
    }
    Ok(written)
}

/// Whether anything other than the word for a kind comes before a place.
fn has_condition(parts: &[Lexeme], first: usize) -> bool {
    match parts.first() {
        Some(Lexeme::Word(word)) if kind_of_word(word.get()).is_some() => first > 1,
        _ => first > 0,
    }
}

/// Returns the text of the tokens from index `first` up to, but not including, index `end`.
fn text_of<'t>(text: &'t [u8], tokens: &[Token], first: usize, end: usize) -> &'t [u8] {
    match (tokens.get(first), tokens.get(end.saturating_sub(1))) {
        (Some(begin), Some(last)) if first < end => text.get(begin.start..last.end).unwrap_or(&[]),
        _ => &[],
    }
}
