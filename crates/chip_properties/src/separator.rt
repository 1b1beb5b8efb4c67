//! Separators between the parts of a property.

ghost use Rattle.std.specs.Prelude.{◌≡◌, ◌≤◌, ◌<◌, ◌+◌, ◌^◌, length};
ghost use Rattle.chip_properties.specs.Nesting.{is_deep, level_after};
ghost use Rattle.chip_properties.specs.computed.Separated.{count_before, separates};

use chip_lang::limits::OPEN_PARENTHESES;
use chip_lang::{Lexeme, is_sign_of, is_the};

/// A separator between parts of a property, outside of parentheses and brackets.
#[derive(Clone, Copy)]
pub(crate) enum Separator {
    /// `here` or `at`, which begins the place.
    Place,
    /// `and`.
    And,
    /// `or`.
    Or,
    /// A sign that a relation begins with.
    Relation,
    /// `+`.
    Plus,
    /// `*`.
    Times,
    /// `,`.
    Comma,
}

impl Separator {
    /// Whether a token is this separator.
    fn is(self, token: &Lexeme) -> bool
        ensures { result ≡ separates self token.now }
    {
        match self {
            Separator::Place => is_the(b"HERE", token) || is_the(b"AT", token),
            Separator::And => is_the(b"AND", token),
            Separator::Or => is_the(b"OR", token),
            Separator::Relation => {
                is_sign_of(b'=', token) || is_sign_of(b'<', token) || is_sign_of(b'>', token)
            }
            Separator::Plus => is_sign_of(b'+', token),
            Separator::Times => is_sign_of(b'*', token),
            Separator::Comma => is_sign_of(b',', token),
        }
    }

    /// Returns the number of tokens before the first separator, or of all tokens if there is none.
    pub(crate) fn count_before(self, tokens: &[Lexeme]) -> usize
        ensures value { result ≡ count_before self 0 tokens.now }
        ensures within { result ≤ length tokens.now }
    {
        let mut depth = 0;
        for (index, token) in tokens.iter().enumerate() {
            if depth == 0 && self.is(token) {
                return index;
            }
            depth = level_after(depth, token);
        }
        tokens.len()
    }
}

/// Returns the number of open parentheses and brackets after a token, given the number before it.
fn level_after(depth: usize, token: &Lexeme) -> usize
    requires { depth + 1 < 2 ^ 64 }
    ensures value { result ≡ level_after depth token.now }
    ensures bound { result ≤ depth + 1 }
{
    if is_sign_of(b'(', token) || is_sign_of(b'[', token) {
        depth + 1
    } else if is_sign_of(b')', token) || is_sign_of(b']', token) {
        depth.saturating_sub(1)
    } else {
        depth
    }
}

/// Whether more than `OPEN_PARENTHESES` parentheses and brackets are open at once.
pub(crate) fn is_deep(tokens: &[Lexeme]) -> bool
    ensures { result ≡ is_deep 0 tokens.now }
{
    let mut depth = 0;
    for token in tokens {
        depth = level_after(depth, token);
        if depth > OPEN_PARENTHESES {
            return true;
        }
    }
    false
}
