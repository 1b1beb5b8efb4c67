//! Words that have a meaning in a property.

ghost use Rattle.std.specs.Prelude.{◌≡◌};
ghost use Rattle.chip_properties.specs.Words.{is_property_word, item_of_word, kind_of_word};

use crate::stated::Kind;
use chip_explore::Item;
use chip_lang::register_of;

/// Whether a word in upper case has a meaning in a property. A name with this spelling must be put in
/// parentheses there.
pub(crate) fn is_property_word(word: &[u8]) -> bool
    ensures { result ≡ is_property_word word.now }
{
    kind_of_word(word).is_some()
        || word == b"HERE".as_slice()
        || word == b"AT".as_slice()
        || word == b"PC".as_slice()
        || word == b"DEPTH".as_slice()
        || word == b"KEYS".as_slice()
        || word == b"PIXEL".as_slice()
}

/// Returns the kind of property whose word a word in upper case is.
pub(crate) fn kind_of_word(word: &[u8]) -> Option<Kind>
    ensures { result ≡ kind_of_word word.now }
{
    if word == b"ALWAYS".as_slice() {
        Some(Kind::Always)
    } else if word == b"NEVER".as_slice() {
        Some(Kind::Never)
    } else if word == b"EVER".as_slice() {
        Some(Kind::Ever)
    } else if word == b"CAN".as_slice() {
        Some(Kind::Can)
    } else {
        None
    }
}

/// Returns the item that a word in upper case names.
pub(crate) fn item_of_word(word: &[u8]) -> Option<Item>
    ensures { result ≡ item_of_word word.now }
{
    if let Some(register) = register_of(word) {
        Some(Item::Register(register))
    } else if word == b"I".as_slice() {
        Some(Item::Index)
    } else if word == b"PC".as_slice() {
        Some(Item::Place)
    } else if word == b"DT".as_slice() {
        Some(Item::Delay)
    } else if word == b"DEPTH".as_slice() {
        Some(Item::Depth)
    } else if word == b"HIGH".as_slice() {
        Some(Item::High)
    } else if word == b"KEYS".as_slice() {
        Some(Item::AsksKeys)
    } else {
        None
    }
}
