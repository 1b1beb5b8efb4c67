//! Relations.

ghost use Rattle.std.specs.Prelude.{◌≡◌, ◌≤◌, IfSome, drop, length, option_map};
ghost use Rattle.chip_properties.specs.computed.Reading.{relation_in};

use chip_explore::Relation;
use chip_lang::{Lexeme, is_sign_of};

/// Returns the relation that tokens begin with, and the number of its tokens.
pub(crate) fn relation_in_front(tokens: &[Lexeme]) -> Option<(Relation, usize)>
    ensures value { option_map (λ found. (found.0, drop found.1 tokens.now)) result
        ≡ relation_in tokens.now }
    ensures within { IfSome result (λ found. found.1 ≤ length tokens.now) }
{
    let (first, rest) = tokens.split_first()?;
    let follows = |sign: u8| match rest.first() {
        Some(second) => is_sign_of(sign, second),
        None => false,
    };
    if is_sign_of(b'=', first) {
        Some((Relation::Equal, 1))
    } else if is_sign_of(b'<', first) {
        if follows(b'>') {
            Some((Relation::Unequal, 2))
        } else if follows(b'=') {
            Some((Relation::LessOrEqual, 2))
        } else {
            Some((Relation::Less, 1))
        }
    } else if is_sign_of(b'>', first) {
        if follows(b'=') {
            Some((Relation::GreaterOrEqual, 2))
        } else {
            Some((Relation::Greater, 1))
        }
    } else {
        None
    }
}
