//! Whether a property may be met in a state of a row.

ghost use Rattle.std.specs.Prelude.{◌≡◌, ◌≤◌, ◌<◌, ◌+◌, ◌*◌, ◌^◌, ◌∷◌, [], ℕ, IsTrue, IfSome, true};
ghost use Rattle.std.specs.List.{list_all, list_any};
ghost use Rattle.chip_machine.specs.State.{State};
ghost use Rattle.chip_explore.specs.Property.{compares, holds_in, is_at, is_met, is_related, sum_in, value_in};
ghost use Rattle.chip_verdicts.specs.inner.Possible.{IsPossible, IsSeen, IsWithin, is_as_wanted};

use crate::bounds::{Bounds, mirrored, related};
use crate::possible::{NEITHER, Possible};
use crate::view::View;
use chip_explore::{Comparison, Condition, Item, Property, Relation, Sum, Term};

/// Returns the product of a factor and a value.
fn product(factor: u32, value: u16) -> u64
    ensures value { result ≡ factor * value }
    ensures small { result < 2 ^ 48 }
{
    u64::from(factor) * u64::from(value)
}

/// Returns the only term of a sum, or `None` if the sum doesn't have exactly one term.
fn only_term(sum: &Sum) -> Option<&Term>
    ensures { IfSome result (λ term. sum.now.terms.items ≡ term.now ∷ []) }
{
    match &sum.terms[..] {
        [term] => Some(term),
        _ => None,
    }
}

/// Returns the first item in a comparison, or `None` if the comparison contains no item.
fn first_item(comparison: &Comparison) -> Option<&Item> {
    match (&comparison.left.terms[..], &comparison.right.terms[..]) {
        ([term, ..], _) | (_, [term, ..]) => Some(&term.item),
        _ => None,
    }
}

impl View<'_> {
    /// Returns a lower bound of a sum.
    fn least_sum(&self, sum: &Sum) -> u128
        ensures { (s : State) → IsSeen self.now s → result ≤ sum_in s sum.now }
    {
        let mut total = u128::from(sum.constant);
        for term in &sum.terms {
            total += u128::from(product(term.factor, self.least(&term.item)));
        }
        total
    }

    /// Returns an upper bound of a sum.
    fn most_sum(&self, sum: &Sum) -> u128
        ensures { (s : State) → IsSeen self.now s → sum_in s sum.now ≤ result }
    {
        let mut total = u128::from(sum.constant);
        for term in &sum.terms {
            total += u128::from(product(term.factor, self.most(&term.item)));
        }
        total
    }

    /// Returns the bounds of a sum.
    fn bounds(&self, sum: &Sum) -> Bounds
        ensures { (s : State) → IsSeen self.now s → IsWithin result (sum_in s sum.now) }
    {
        Bounds {
            least: self.least_sum(sum),
            most: self.most_sum(sum),
        }
    }

    /// Returns the possible results of comparing a number with the sum of a constant and a term, by trying
    /// each value of the term's item.
    fn term_related(
        &self,
        constant: u32,
        term: &Term,
        relation: Relation,
        other: Bounds,
    ) -> Possible
        ensures { (s : State) → IsSeen self.now s → (b : ℕ) → IsWithin other b
            → IsPossible result (is_related relation (constant + term.now.factor * value_in s term.now.item) b) }
    {
        let least = u32::from(self.least(&term.item));
        let most = u32::from(self.most(&term.item));
        let mut possible = NEITHER;
        for value in least..most + 1 {
            if self.may_be(&term.item, value as u16) {
                let sum = u128::from(constant) + u128::from(product(term.factor, value as u16));
                possible = possible.united(related(relation, Bounds::exactly(sum), other));
            }
        }
        possible
    }

    /// Returns the possible results of comparing two sums. If a side has only one term, tries each value of
    /// that term's item.
    fn sums_related(&self, left: &Sum, relation: Relation, right: &Sum) -> Possible
        ensures { (s : State) → IsSeen self.now s
            → IsPossible result (is_related relation (sum_in s left.now) (sum_in s right.now)) }
    {
        if let Some(term) = only_term(left) {
            let other = self.bounds(right);
            return self.term_related(left.constant, term, relation, other);
        }
        let bounds = self.bounds(left);
        match only_term(right) {
            Some(term) => self.term_related(right.constant, term, mirrored(relation), bounds),
            None => related(relation, bounds, self.bounds(right)),
        }
    }

    /// Returns the possible results of a comparison.
    fn compared(&self, comparison: &Comparison) -> Possible
        ensures { (s : State) → IsSeen self.now s
            → IsPossible result (compares s comparison.now) }
    {
        self.sums_related(&comparison.left, comparison.relation, &comparison.right)
    }

    /// Returns the possible results of the test whether all comparisons hold.
    fn all_hold(&self, comparisons: &[Comparison]) -> Possible
        ensures { (s : State) → IsSeen self.now s
            → IsPossible result (list_all (compares s) comparisons.now) }
    {
        let mut possible = Possible {
            may_hold: true,
            may_fail: false,
        };
        for comparison in comparisons {
            possible = possible.and(self.compared(comparison));
        }
        possible
    }

    /// Returns the possible results of the test whether at least one comparison holds.
    fn any_holds(&self, comparisons: &[Comparison]) -> Possible
        ensures { (s : State) → IsSeen self.now s
            → IsPossible result (list_any (compares s) comparisons.now) }
    {
        let mut possible = Possible {
            may_hold: false,
            may_fail: true,
        };
        for comparison in comparisons {
            possible = possible.or(self.compared(comparison));
        }
        possible
    }

    /// Returns the possible results of a condition.
    fn holds(&self, condition: &Condition) -> Possible
        ensures { (s : State) → IsSeen self.now s
            → IsPossible result (holds_in s condition.now) }
    {
        if condition.is_all {
            self.all_hold(&condition.comparisons)
        } else {
            self.any_holds(&condition.comparisons)
        }
    }

    /// Whether a property with this place is evaluated in the row.
    fn is_asked(&self, place: Option<u16>) -> bool
        ensures { (s : State) → IsSeen self.now s → is_at place s.core.pc ≡ true → IsTrue result }
    {
        match place {
            Some(place) => place == self.row.pc(),
            None => true,
        }
    }

    /// Whether the condition of a property may have the wanted result, which is to hold or to fail.
    fn may_be_wanted(&self, property: &Property) -> bool
        ensures { (s : State) → IsSeen self.now s → is_as_wanted s property.now ≡ true → IsTrue result }
    {
        let possible = self.holds(&property.condition);
        if property.wanted {
            possible.may_hold
        } else {
            possible.may_fail
        }
    }

    /// Whether the condition of a property may have the wanted result, for some value of an item. Tries each
    /// value of the item, so that all comparisons that contain the item are evaluated with the same value.
    fn may_be_wanted_by(&self, property: &Property, item: &Item) -> bool
        ensures { (s : State) → IsSeen self.now s → is_as_wanted s property.now ≡ true → IsTrue result }
    {
        let least = u32::from(self.least(item));
        let most = u32::from(self.most(item));
        for value in least..most + 1 {
            if self.may_be(item, value as u16)
                && self.fixed_at(item, value as u16).may_be_wanted(property)
            {
                return true;
            }
        }
        false
    }
    /// Whether a property may be met in a state of the view.
    pub(crate) fn may_meet(&self, property: &Property) -> bool
        ensures { (s : State) → IsSeen self.now s → is_met s property.now ≡ true → IsTrue result }
    {
        if !self.is_asked(property.place) || !self.may_be_wanted(property) {
            return false;
        }
        for comparison in &property.condition.comparisons {
            if let Some(item) = first_item(comparison)
                && !self.may_be_wanted_by(property, item)
            {
                return false;
            }
        }
        true
    }
}
