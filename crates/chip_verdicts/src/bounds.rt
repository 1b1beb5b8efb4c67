//! Relations between two numbers for which only bounds are known.

ghost use Rattle.std.specs.Prelude.{◌≡◌, ◌==◌, ℕ, nat_lt};
ghost use Rattle.chip_explore.specs.Property.{is_related};
ghost use Rattle.chip_verdicts.specs.inner.Possible.{IsPossible, IsWithin};

use crate::possible::Possible;
use chip_explore::Relation;

/// Bounds of a number, which may be equal to either bound.
#[derive(Clone, Copy)]
pub(crate) struct Bounds {
    pub(crate) least: u128,
    pub(crate) most: u128,
}

impl Bounds {
    /// Returns the bounds of a number that is known exactly.
    pub(crate) fn exactly(number: u128) -> Bounds
        ensures { IsWithin result number }
    {
        Bounds {
            least: number,
            most: number,
        }
    }

    /// Returns the possible results of the test whether a number is less than another number.
    fn is_less(self, other: Bounds) -> Possible
        ensures { (a b : ℕ) → IsWithin self a → IsWithin other b → IsPossible result (nat_lt a b) }
    {
        Possible {
            may_hold: self.least < other.most,
            may_fail: self.most >= other.least,
        }
    }

    /// Returns the possible results of the test whether two numbers are equal.
    fn is_equal(self, other: Bounds) -> Possible
        ensures { (a b : ℕ) → IsWithin self a → IsWithin other b → IsPossible result (a == b) }
    {
        Possible {
            may_hold: self.least <= other.most && other.least <= self.most,
            may_fail: self.least < other.most || other.least < self.most,
        }
    }
}

/// Returns the possible results of the test whether two numbers are in a relation.
pub(crate) fn related(relation: Relation, left: Bounds, right: Bounds) -> Possible
    ensures { (a b : ℕ) → IsWithin left a → IsWithin right b
        → IsPossible result (is_related relation a b) }
{
    match relation {
        Relation::Equal => left.is_equal(right),
        Relation::Unequal => left.is_equal(right).negated(),
        Relation::Less => left.is_less(right),
        Relation::LessOrEqual => right.is_less(left).negated(),
        Relation::Greater => right.is_less(left),
        Relation::GreaterOrEqual => left.is_less(right).negated(),
    }
}

/// Returns the relation with its sides exchanged.
pub(crate) fn mirrored(relation: Relation) -> Relation
    ensures { (a b : ℕ) → is_related result b a ≡ is_related relation a b }
{
    match relation {
        Relation::Equal | Relation::Unequal => relation,
        Relation::Less => Relation::Greater,
        Relation::LessOrEqual => Relation::GreaterOrEqual,
        Relation::Greater => Relation::Less,
        Relation::GreaterOrEqual => Relation::LessOrEqual,
    }
}
