//! The states that a search looks for.

ghost use Rattle.std.specs.Prelude.{◌≡◌, Some, IfSome, option_map, position};
ghost use Rattle.chip_explore.specs.Property.{is_met};
ghost use Rattle.chip_explore.specs.Target.{met_in};

use crate::causes::Causes;
use crate::property::Property;
use chip_machine::{Machine, Stop};

/// The states that a search looks for: a stop for one of the causes or, on a machine that hasn't
/// stopped, pc at the address or a property that is met.
#[derive(Clone, Copy)]
pub struct Target<'a> {
    pub causes: Causes,
    pub address: Option<u16>,
    pub properties: &'a [Property],
}

/// How a machine meets a target.
#[derive(Clone, Copy)]
pub enum Met {
    /// The machine has stopped for this wanted cause.
    Cause(Stop),
    /// The machine has not stopped, and pc is at the address.
    Address,
    /// The machine has not stopped, and meets the property at this place of the list. No property
    /// before that one is met.
    Property(usize),
}

impl<'a> Target<'a> {
    /// Returns a copy.
    pub(crate) fn again(&self) -> Target<'a>
        ensures { result ≡ self.now }
    {
        Target {
            causes: self.causes,
            address: self.address,
            properties: self.properties,
        }
    }

    /// How a machine meets this target, or `None` if it doesn't.
    pub(crate) fn met_in(&self, machine: &Machine) -> Option<Met>
        ensures value { result ≡ met_in self.now machine.now }
        ensures some { IfSome result (λ met. met_in self.now machine.now ≡ Some met) }
    {
        match machine.stopped() {
            Some(cause) if self.causes.contains(cause) => Some(Met::Cause(cause)),
            Some(_) => None,
            None => match self.address {
                Some(address) if machine.pc() == address => Some(Met::Address),
                _ => self.property_met(machine),
            },
        }
    }

    /// Returns the first property that a machine meets, if any.
    fn property_met(&self, machine: &Machine) -> Option<Met>
        ensures { result ≡ option_map Met.Property
            (position (is_met machine.now) self.now.properties.now) }
    {
        match self.first_met(machine) {
            Some(place) => Some(Met::Property(place)),
            None => None,
        }
    }

    fn first_met(&self, machine: &Machine) -> Option<usize>
        ensures { result ≡ position (λ p. is_met machine.now p) self.now.properties.now }
    {
        self.properties
            .iter()
            .position(|property| property.is_met(machine))
    }

    /// Whether any of the properties names the delay timer.
    pub(crate) fn names_delay(&self) -> bool {
        self.properties
            .iter()
            .any(|property| property.names_delay())
    }
}
