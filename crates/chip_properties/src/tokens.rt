//! The tokens of a property.

ghost use Rattle.std.specs.Prelude.{◌≡◌, IfOk};
ghost use Rattle.chip_properties.specs.Tokens.{property_tokens, respelled};

use chip_lang::{Lexeme, lexemes};
use std::alloc::{AllocError, Global};

/// Returns the tokens of a property's text, in which `!=` is `<>`.
pub(crate) fn property_tokens(alloc: Global, text: &[u8]) -> Result<Vec<Lexeme>, AllocError>
    ensures { IfOk result (λ tokens. tokens.items ≡ property_tokens text.now) }
{
    let text = respelled(alloc, text)?;
    lexemes(alloc, &text)
}

/// Returns a text with `<>` in place of each `!=`, so that each byte keeps its place.
pub(crate) fn respelled(alloc: Global, text: &[u8]) -> Result<Vec<u8>, AllocError>
    ensures { IfOk result (λ bytes. bytes.items ≡ respelled text.now) }
{
    let mut bytes = Vec::with_capacity(alloc, text.len())?;
    let mut rest = text;
    while let Some((first, others)) = rest.split_first() {
        match others.split_first() {
            Some((b'=', more)) if *first == b'!' => {
                bytes.extend_from_slice(b"<>")?;
                rest = more;
            }
            _ => {
                bytes.push(*first)?;
                rest = others;
            }
        }
    }
    Ok(bytes)
}
