//! The values that an item of a property may have in the states of a row.

ghost use Rattle.std.specs.Prelude.{◌≡◌, ◌≤◌, IfSome, IsTrue, MatchOption};
ghost use Rattle.chip_machine.specs.State.{State};
ghost use Rattle.chip_explore.specs.Property.{value_in};
ghost use Rattle.chip_facts.specs.Rows.{IsInRow};
ghost use Rattle.chip_verdicts.specs.inner.Possible.{IsSeen};

use chip_explore::Item;
use chip_facts::{Facts, Row};

/// An item and its value.
#[derive(Clone, Copy)]
pub(crate) struct Fixed {
    pub(crate) item: Item,
    pub(crate) value: u16,
}

/// The states of a row of the table of facts, or only those of them in which an item has a fixed value.
#[derive(Clone, Copy)]
pub(crate) struct View<'f> {
    pub(crate) facts: &'f Facts,
    pub(crate) row: &'f Row,
    /// The number of open calls in the row.
    pub(crate) depth: u16,
    pub(crate) fixed: Option<Fixed>,
}

/// Returns the view of a row, or `None` if its call stack is too deep for a view.
pub(crate) fn view_of<'f>(facts: &'f Facts, row: &'f Row) -> Option<View<'f>>
    ensures { (s : State) → IsInRow facts.now row.now s
        → MatchOption result (Unit {0}) (λ view. IsSeen view s) }
{
    let depth = row.depth();
    if depth > u16::MAX as usize {
        return None;
    }
    Some(View {
        facts,
        row,
        depth: depth as u16,
        fixed: None,
    })
}

impl<'f> View<'f> {
    /// Returns the view of the states in which an item has this value.
    pub(crate) fn fixed_at(&self, item: &Item, value: u16) -> View<'f>
        ensures { (s : State) → IsSeen self.now s → value_in s item.now ≡ value → IsSeen result s }
    {
        View {
            facts: self.facts,
            row: self.row,
            depth: self.depth,
            fixed: Some(Fixed { item: *item, value }),
        }
    }

    /// Returns the value of an item if it is fixed, or `None` if it isn't.
    fn fixed_value(&self, item: &Item) -> Option<u16>
        ensures { IfSome result (λ value. (s : State) → IsSeen self.now s → value_in s item.now ≡ value) }
    {
        match &self.fixed {
            Some(fixed) if fixed.item == *item => Some(fixed.value),
            _ => None,
        }
    }

    /// Whether an item may have a value in a state of the row.
    fn may_be_in_row(&self, item: &Item, value: u16) -> bool
        ensures { (s : State) → IsSeen self.now s → value_in s item.now ≡ value → IsTrue result }
    {
        match *item {
            Item::Register(x) => value < 256 && self.row.may_have(x, value as u8),
            Item::Index => self.row.may_point_at(value),
            Item::Place => value == self.row.pc(),
            Item::Delay => value <= u16::from(self.row.delay_bound()),
            Item::Depth => value == self.depth,
            Item::High => value < 2 && self.row.may_have_size(value == 1),
            Item::AsksKeys | Item::Pixel { .. } => value < 2,
            Item::Byte(at) => value < 256 && self.facts.may_have(at, value as u8),
        }
    }

    /// Whether an item may have a value in a state of the view.
    pub(crate) fn may_be(&self, item: &Item, value: u16) -> bool
        ensures { (s : State) → IsSeen self.now s → value_in s item.now ≡ value → IsTrue result }
    {
        match self.fixed_value(item) {
            Some(fixed) => value == fixed,
            None => self.may_be_in_row(item, value),
        }
    }

    /// Returns an upper bound of the value of an item in the states of the row.
    fn limit(&self, item: &Item) -> u16
        ensures { (s : State) → IsSeen self.now s → value_in s item.now ≤ result }
    {
        match *item {
            Item::Register(_) | Item::Byte(_) => 255,
            Item::Index => u16::MAX,
            Item::Place => self.row.pc(),
            Item::Delay => u16::from(self.row.delay_bound()),
            Item::Depth => self.depth,
            Item::High | Item::AsksKeys | Item::Pixel { .. } => 1,
        }
    }

    /// Returns a lower bound of the values of an item, by trying values upwards from 0.
    fn least_tried(&self, item: &Item) -> u16
        ensures { (s : State) → IsSeen self.now s → result ≤ value_in s item.now }
    {
        for value in 0..u16::MAX {
            if self.may_be(item, value) {
                return value;
            }
        }
        u16::MAX
    }

    /// Returns an upper bound of the values of an item, by trying values downwards from its limit.
    fn most_tried(&self, item: &Item) -> u16
        ensures { (s : State) → IsSeen self.now s → value_in s item.now ≤ result }
    {
        let limit = self.limit(item);
        for below in 0..limit {
            let value = limit - below;
            if self.may_be(item, value) {
                return value;
            }
        }
        0
    }

    /// Returns a lower bound of the values of an item.
    pub(crate) fn least(&self, item: &Item) -> u16
        ensures { (s : State) → IsSeen self.now s → result ≤ value_in s item.now }
    {
        match self.fixed_value(item) {
            Some(value) => value,
            None => self.least_tried(item),
        }
    }

    /// Returns an upper bound of the values of an item.
    pub(crate) fn most(&self, item: &Item) -> u16
        ensures { (s : State) → IsSeen self.now s → value_in s item.now ≤ result }
    {
        match self.fixed_value(item) {
            Some(value) => value,
            None => self.most_tried(item),
        }
    }
}
