//! Notes for a user at a terminal, about properties, places and lines that have less effect than they seem to.

use crate::note::Note;
use crate::progress::{News, Teller};
use crate::ranges::never_changes;
use chip_arguments::ExploreArguments;
use chip_asm::{LineView, Source};
use chip_explore::{Item, Property, Sum, Target};
use chip_lang::{Body, Line};
use chip_properties::{Stated, names_used, properties_of, property_text};
use std::alloc::Global;
use std::str;

/// Reports the notes about the properties and lines of a source. Reports nothing if memory runs out.
pub(crate) fn tell_notes<T: Teller>(alloc: Global, name: &[u8], source: &Source, teller: &mut T) {
    let name = str::from_utf8(name).unwrap_or("");
    if let Ok(properties) = properties_of(alloc, source) {
        tell_properties(alloc, name, source, &properties.stated, teller);
    }
    tell_lines(alloc, name, source, teller);
}

/// Reports which lines of a source have `;!` after a statement, and whether END hides lines.
/// Reports nothing if memory runs out.
pub(crate) fn tell_lines<T: Teller>(alloc: Global, name: &str, source: &Source, teller: &mut T) {
    for number in 1..=source.lines() {
        if let Some(line) = source.line(number)
            && hides_property(alloc, &line)
        {
            tell_of(name, number, Note::Hidden, teller);
        }
    }
    if let Some((number, note)) = note_on_end(source) {
        tell_of(name, number, note, teller);
    }
}

/// Returns the number of the line with END, and a note about it. Returns None if there is no END,
/// or if all lines after it are empty or comments.
pub(crate) fn note_on_end<'n>(source: &Source) -> Option<(usize, Note<'n>)> {
    for number in 1..=source.lines() {
        if let Some(line) = source.line(number)
            && line.is_active()
            && is_end(&line)
        {
            return match note_on_hidden(source, number) {
                Some(note) => Some((number, note)),
                None => None,
            };
        }
    }
    None
}

/// Returns the note about the lines after END. None if all of them are empty or comments.
fn note_on_hidden<'n>(source: &Source, end: usize) -> Option<Note<'n>> {
    let mut note = None;
    for number in end.saturating_add(1)..=source.lines() {
        if let Some(line) = source.line(number) {
            if property_text(line.text()).is_some() {
                return Some(Note::PropertiesBehindEnd);
            }
            if !is_comment(line.text()) {
                note = Some(Note::BehindEnd);
            }
        }
    }
    note
}

/// Reports which properties of a source have a place at which no line begins, or a comparison that
/// has the same answer in every state. Reports nothing if memory runs out.
pub(crate) fn tell_properties<T: Teller>(
    alloc: Global,
    name: &str,
    source: &Source,
    stated: &[Stated],
    teller: &mut T,
) {
    for one in stated {
        if let Some(address) = one.property.place
            && let Some(note) = note_on_place(false, source, address)
        {
            tell_of(name, one.line, note, teller);
        }
        if has_constant(&one.property) {
            tell_constant(alloc, name, one.line, source, teller);
        } else {
            tell_fixed(name, one.line, source, &one.property, teller);
        }
    }
}

/// Reports which places in the arguments of a search are addresses at which no line, or no word of
/// the image, begins. Also reports which comparisons have the same answer in every state.
pub(crate) fn tell_target<T: Teller>(
    arguments: &ExploreArguments<'_>,
    source: &Source,
    target: &Target<'_>,
    teller: &mut T,
) {
    let name = arguments.search.source;
    if let Some(address) = target.address
        && let Some(note) = note_on_place(arguments.is_image, source, address)
    {
        tell_of(name, 0, note, teller);
        let place = arguments.place.unwrap_or("");
        if place
            .as_bytes()
            .iter()
            .all(|byte| matches!(byte, b'0'..=b'9'))
        {
            tell_of(name, 0, Note::Decimal(place), teller);
        }
    }
    for property in target.properties {
        if let Some(address) = property.place
            && let Some(note) = note_on_place(arguments.is_image, source, address)
        {
            tell_of(name, 0, note, teller);
        }
        tell_fixed(name, 0, source, property, teller);
    }
}

/// Returns the note about an address at which no line, or no word of an image, begins. None for any
/// other address.
fn note_on_place<'n>(is_image: bool, source: &Source, address: u16) -> Option<Note<'n>> {
    let wanted = usize::from(address);
    let mut nearest: Option<(usize, usize)> = None;
    let mut least = usize::MAX;
    let mut first = usize::MAX;
    let mut last = 0;
    for number in 1..=source.lines() {
        if let Some(line) = source.line(number)
            && line.is_active()
            && line.size() > 0
        {
            let begin = line.address();
            first = first.min(begin);
            last = last.max(begin);
            let distance = begin.abs_diff(wanted);
            if distance < least {
                least = distance;
                nearest = Some((number, begin));
            }
        }
    }
    match nearest {
        Some(_) if least == 0 => None,
        Some(_) if is_image => Some(Note::NoWordAt {
            address,
            first,
            last,
        }),
        Some((number, begin)) => Some(Note::NoLineAt {
            address,
            number,
            begin,
        }),
        None => None,
    }
}

/// Whether a property has a comparison that contains only numbers.
fn has_constant(property: &Property) -> bool {
    property.condition.comparisons.iter().any(|comparison| {
        comparison.left.terms.is_empty() && comparison.right.terms.is_empty()
    })
}

/// Reports the bounds of a property's first comparison that has the same answer in every state, and which of its
/// words are also names in the source. `number` is the line number of the property, or 0 for an argument.
fn tell_fixed<T: Teller>(
    name: &str,
    number: usize,
    source: &Source,
    property: &Property,
    teller: &mut T,
) {
    for comparison in &property.condition.comparisons {
        if let Some(fixed) = never_changes(comparison) {
            tell_of(name, number, Note::Fixed(fixed), teller);
            tell_words(name, number, source, &comparison.left, teller);
            tell_words(name, number, source, &comparison.right, teller);
            return;
        }
    }
}

/// Reports which words on one side of a comparison are also names in the source.
fn tell_words<T: Teller>(name: &str, number: usize, source: &Source, side: &Sum, teller: &mut T) {
    for term in &side.terms {
        if let Some(word) = word_of(term.item)
            && source.symbol(word.as_bytes()).is_some()
        {
            tell_of(name, number, Note::Word(word), teller);
        }
    }
}

/// Returns the word for an item in properties, if the word can also be a name in a source.
fn word_of(item: Item) -> Option<&'static str> {
    match item {
        Item::AsksKeys => Some("KEYS"),
        Item::Depth => Some("DEPTH"),
        Item::Place => Some("PC"),
        _ => None,
    }
}

/// Reports that a line's property compares only numbers. If it names a label, the note shows the first one's address.
fn tell_constant<T: Teller>(
    alloc: Global,
    name: &str,
    number: usize,
    source: &Source,
    teller: &mut T,
) {
    let Some(line) = source.line(number) else {
        return;
    };
    let Ok(words) = names_used(alloc, line.text()) else {
        return;
    };
    for word in &words {
        if let Some(symbol) = source.symbol(word.get())
            && is_label(source, symbol.line)
            && let Ok(label) = str::from_utf8(word.get())
        {
            let value = symbol.value;
            tell_of(name, number, Note::Label { label, value }, teller);
            return;
        }
    }
    tell_of(name, number, Note::Constant, teller);
}

/// Whether the name that a line defines is a label.
fn is_label(source: &Source, number: usize) -> bool {
    match source.line(number) {
        Some(line) => !matches!(
            line.reading(),
            Line::Read {
                body: Body::Equ(_),
                ..
            }
        ),
        None => false,
    }
}

/// Whether a line is empty or a comment.
fn is_comment(line: &[u8]) -> bool {
    matches!(line.trim_ascii_start(), [] | [b';', ..])
}

/// Whether a line is an END directive.
fn is_end(line: &LineView<'_>) -> bool {
    matches!(
        line.reading(),
        Line::Read {
            body: Body::End,
            ..
        }
    )
}

/// Whether `;!` follows the statement or the label of a line, where it has no effect.
fn hides_property(alloc: Global, line: &LineView<'_>) -> bool {
    let Ok(tokens) = line.tokens(alloc) else {
        return false;
    };
    let Some(last) = tokens.last() else {
        return false;
    };
    let behind = line.text().get(last.end..).unwrap_or(&[]);
    line.is_active() && behind.trim_ascii_start().starts_with(b";!")
}

/// Reports a note about a line of a source, or about the whole source if the number is 0.
fn tell_of<T: Teller>(name: &str, line: usize, note: Note<'_>, teller: &mut T) {
    teller.tell(News::Noted { name, line, note });
}
