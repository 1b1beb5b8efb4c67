//! The addresses at which a search saw steps executed.

ghost use Rattle.std.specs.Prelude.{◌≡◌, true};
ghost use Rattle.chip_explore.specs.Executed.{is_among, is_at_one};
ghost use Rattle.chip_explore.specs.inner.Cover.{Grows};

use chip_machine::Machine;
use chip_machine::limits::MEMORY_BYTES;
use std::marker::Model;

/// The addresses at which a search saw a step executed, with some of the allowed keys down.
#[derive(Clone, Copy)]
pub struct Executed {
    /// Whether a step was executed at an address, for each byte of the memory.
    addresses: [bool; MEMORY_BYTES],
}

impl Model for Executed {
    ghost use Rattle.std.specs.Prelude.{Bool, List};

    ghost Value = { List Bool };

    ghost view = { λ e. e.addresses };

    ghost inverse = { λ addresses. record { addresses = addresses } };
}

impl Executed {
    /// Returns the empty set of addresses.
    pub(crate) fn none() -> Executed {
        Executed {
            addresses: [false; MEMORY_BYTES],
        }
    }

    /// Returns a set with the address of a machine's next step, or the empty set if the machine has stopped.
    pub(crate) fn at(machine: &Machine) -> Executed
        ensures { is_at_one result machine.now ≡ true }
    {
        let mut executed = Executed::none();
        if machine.stopped().is_none() {
            executed.note(machine.pc());
        }
        executed
    }

    /// Adds an address at which a step is executed.
    pub(crate) fn note(&mut self, address: u16)
        ensures grows { Grows self.old self.new }
        ensures noted { is_among self.new address ≡ true }
    {
        if (address as usize) < MEMORY_BYTES {
            self.addresses[address as usize] = true;
        }
    }

    /// For each address, whether a step was executed there.
    pub fn addresses(&self) -> &[bool]
        ensures { result.now ≡ self.now }
    {
        &self.addresses
    }

    /// Whether a step was executed at an address. Addresses past the memory, where each step stops
    /// the machine, always count as executed.
    pub fn contains(&self, address: u16) -> bool
        ensures { result ≡ is_among self.now address }
    {
        match self.addresses.get(address as usize) {
            Some(is_executed) => *is_executed,
            None => true,
        }
    }
}
