//! The known values of a state in which some parts are forgotten.

ghost use Rattle.std.specs.Prelude.{◌≡◌};
ghost use Rattle.std.specs.List.{list_all};
ghost use Rattle.chip_explore.specs.inner.Known.{is_comparison_known, is_item_known, is_property_known, is_sum_known};

use crate::property::{Comparison, Condition, Item, Property, Sum};
use chip_machine::Forgotten;

/// Which values of a state are known.
#[derive(Clone, Copy)]
pub(crate) struct Known {
    /// The forgotten parts of the state.
    pub(crate) forgotten: Forgotten,
    /// Whether the delay timer has the value of a run, and not only an upper bound.
    pub(crate) has_delay: bool,
    /// The address of the next instruction.
    pub(crate) pc: u16,
}

impl Known {
    fn has_item(&self, item: Item) -> bool
        ensures { result ≡ is_item_known self.now item }
    {
        match item {
            Item::Register(x) => !self.forgotten.has_register(x.number()),
            Item::Index => !self.forgotten.has_index(),
            Item::Pixel { .. } => !self.forgotten.has_screen(),
            Item::Delay => self.has_delay,
            Item::Byte(at) => !self.forgotten.has_byte(usize::from(at)),
            Item::AsksKeys => {
                let at = usize::from(self.pc);
                !self.forgotten.has_byte(at) && !self.forgotten.has_byte(at + 1)
            }
            Item::Place | Item::Depth | Item::High => true,
        }
    }

    fn has_sum(&self, sum: &Sum) -> bool
        ensures { result ≡ is_sum_known self.now sum.now }
    {
        sum.terms.iter().all(|term| self.has_item(term.item))
    }

    fn has_comparison(&self, comparison: &Comparison) -> bool
        ensures { result ≡ is_comparison_known self.now comparison.now }
    {
        self.has_sum(&comparison.left) && self.has_sum(&comparison.right)
    }

    fn has_condition(&self, condition: &Condition) -> bool
        ensures { result ≡ list_all (λ c. is_comparison_known self.now c)
            condition.now.comparisons.items }
    {
        condition
            .comparisons
            .iter()
            .all(|comparison| self.has_comparison(comparison))
    }

    fn has_property(&self, pc: u16, property: &Property) -> bool
        ensures { result ≡ is_property_known self.now pc property.now }
    {
        !property.is_at(pc) || self.has_condition(&property.condition)
    }

    /// Whether all values that the properties evaluated at `pc` use are known.
    pub(crate) fn has_properties(&self, pc: u16, properties: &[Property]) -> bool
        ensures { result ≡ list_all (λ p. is_property_known self.now pc p) properties.now }
    {
        properties
            .iter()
            .all(|property| self.has_property(pc, property))
    }
}
