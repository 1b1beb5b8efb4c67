//! A range of the tokens of a property.

ghost use Rattle.std.specs.Prelude.{◌≡◌, ◌≤◌, ◌<◌, ◌+◌, IfSome, drop, length, option_map, take};
ghost use Rattle.chip_properties.specs.computed.Separated.{before_first, from_first, after_first, enclosed};
ghost use Rattle.chip_properties.specs.inner.Parts.{tokens_in};

use crate::fault::{Failure, FaultCode, Found};
use crate::separator::Separator;
use chip_lang::{Lexeme, is_sign_of};

/// A range of the tokens of a property, and the number of tokens before it.
#[derive(Clone, Copy)]
pub(crate) struct Part<'a> {
    pub(crate) tokens: &'a [Lexeme],
    before: usize,
}

impl<'a> Part<'a> {
    /// Returns all tokens of a property.
    pub(crate) fn all(tokens: &'a [Lexeme]) -> Self
        ensures { result.tokens.now ≡ tokens.now }
    {
        Part { tokens, before: 0 }
    }

    /// Returns the first `count` tokens.
    fn up_to(self, count: usize) -> Self
        requires { count ≤ length self.tokens.now }
        ensures { result.tokens.now ≡ take count self.entry.tokens.now }
    {
        Part {
            tokens: &self.tokens[..count],
            before: self.before,
        }
    }

    /// Returns the tokens after the first `count` ones.
    pub(crate) fn after(self, count: usize) -> Self
        requires { count ≤ length self.tokens.now }
        ensures { result.tokens.now ≡ drop count self.entry.tokens.now }
    {
        Part {
            tokens: &self.tokens[count..],
            before: self.before.saturating_add(count),
        }
    }

    /// Returns the tokens before the first separator, and the tokens from that separator on.
    pub(crate) fn split_at(self, separator: Separator) -> (Self, Self)
        ensures front { result.0.tokens.now ≡ before_first separator self.entry.tokens.now }
        ensures back { result.1.tokens.now ≡ from_first separator self.entry.tokens.now }
    {
        let count = separator.count_before(self.tokens);
        (self.up_to(count), self.after(count))
    }

    /// Returns the tokens before the first separator, and the tokens after it if there is one.
    #[tactic(auto, using(crate::proofs::Pieces::tail_after))]
    pub(crate) fn split_around(self, separator: Separator) -> (Self, Option<Self>)
        ensures front { result.0.tokens.now ≡ before_first separator self.entry.tokens.now }
        ensures back { option_map tokens_in result.1
            ≡ after_first separator self.entry.tokens.now }
        ensures shorter { IfSome result.1
            (λ back. length back.tokens.now < length self.entry.tokens.now) }
    {
        let count = separator.count_before(self.tokens);
        if count < self.tokens.len() {
            (self.up_to(count), Some(self.after(count + 1)))
        } else {
            (self, None)
        }
    }

    /// Returns the tokens between two signs, if the part begins and ends with these signs.
    pub(crate) fn between(self, begin: u8, end: u8) -> Option<Self>
        ensures { option_map tokens_in result ≡ enclosed begin end self.entry.tokens.now }
    {
        let (first, rest) = self.tokens.split_first()?;
        let (last, inside) = rest.split_last()?;
        if is_sign_of(begin, first) && is_sign_of(end, last) {
            Some(Part {
                tokens: inside,
                before: self.before.saturating_add(1),
            })
        } else {
            None
        }
    }

    /// Returns a fault at all tokens of the part.
    pub(crate) fn fault(self, code: FaultCode) -> Failure {
        Failure::Fault(Found {
            code,
            first: self.before,
            end: self.before.saturating_add(self.tokens.len()),
        })
    }

    /// Returns a fault at the first token of the part.
    pub(crate) fn fault_at_first(self, code: FaultCode) -> Failure {
        Failure::Fault(Found {
            code,
            first: self.before,
            end: self.before.saturating_add(1),
        })
    }
}
