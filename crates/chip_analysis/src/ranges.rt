//! The values that the sums of a property can have in any state.

use chip_explore::{Comparison, Item, Relation, Sum};
use chip_machine::limits::FRAMES;

/// The smallest and the greatest value of a sum.
#[derive(Clone, Copy)]
struct Range {
    least: u64,
    most: u64,
}

/// The bounds that prove that a comparison has the same answer in every state.
#[derive(Clone, Copy)]
pub(crate) struct Fixed {
    /// Whether the left side is the side that is never greater.
    is_left_less: bool,
    /// The upper bound of that side.
    pub(crate) most: u64,
    /// The lower bound of the other side.
    pub(crate) least: u64,
}

impl Fixed {
    /// Returns the names of the sides, beginning with the side that is never greater.
    pub(crate) fn sides(self) -> (&'static str, &'static str) {
        if self.is_left_less {
            ("left", "right")
        } else {
            ("right", "left")
        }
    }
}

/// Returns the bounds that prove that a comparison has the same answer in every state. None if the
/// ranges of its sides don't prove it.
pub(crate) fn never_changes(comparison: &Comparison) -> Option<Fixed> {
    let (left, right) = (range_of(&comparison.left), range_of(&comparison.right));
    // If the greatest value of one side equals the smallest value of the other, the answer is only
    // fixed for these relations.
    let (is_left_closed, is_right_closed) = match comparison.relation {
        Relation::Equal | Relation::Unequal => (false, false),
        Relation::LessOrEqual | Relation::Greater => (true, false),
        Relation::Less | Relation::GreaterOrEqual => (false, true),
    };
    if left.most < right.least || is_left_closed && left.most == right.least {
        Some(Fixed {
            is_left_less: true,
            most: left.most,
            least: right.least,
        })
    } else if right.most < left.least || is_right_closed && right.most == left.least {
        Some(Fixed {
            is_left_less: false,
            most: right.most,
            least: left.least,
        })
    } else {
        None
    }
}

/// Returns the smallest and the greatest value of a sum.
fn range_of(sum: &Sum) -> Range {
    let least = u64::from(sum.constant);
    let mut most = least;
    for term in &sum.terms {
        let value = u64::from(term.factor).saturating_mul(most_of(term.item));
        most = most.saturating_add(value);
    }
    Range { least, most }
}

/// Returns the greatest value of an item in a property.
fn most_of(item: Item) -> u64 {
    match item {
        Item::Register(_) | Item::Delay | Item::Byte(_) => 255,
        Item::Index | Item::Place => 65535,
        Item::Depth => FRAMES as u64,
        Item::High | Item::AsksKeys | Item::Pixel { .. } => 1,
    }
}
