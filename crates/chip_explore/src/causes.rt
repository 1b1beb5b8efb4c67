//! Sets of stop causes.

ghost use Rattle.std.specs.Prelude.{◌≡◌, ◌-◌, ◌^◌, bit_or};
ghost use Rattle.chip_machine.specs.Numbers.{stop_number};
ghost use Rattle.chip_explore.specs.Causes.{is_wanted, with_number};

use chip_machine::Stop;
use std::marker::Model;

/// A set of stop causes.
#[derive(Clone, Copy)]
pub struct Causes {
    /// Sk at bit k.
    mask: u16,
}

impl Model for Causes {
    ghost use Rattle.std.specs.Prelude.{ℕ};

    ghost Value = { ℕ };

    ghost view = { λ c. c.mask };

    ghost inverse = { λ n. record { mask = n } };
}

impl Causes {
    /// Returns the empty set.
    pub fn none() -> Causes
        ensures { result ≡ 0 }
    {
        Causes { mask: 0 }
    }

    /// Returns the causes at the set bits of a mask, Sk at bit k.
    pub fn of_mask(mask: u16) -> Causes
        ensures { result ≡ mask }
    {
        Causes { mask }
    }

    /// Returns S2 to S7: every cause except the end of the program.
    pub fn faults() -> Causes
        ensures { result ≡ 2 ^ 8 - 2 ^ 2 }
    {
        Causes { mask: 0xfc }
    }

    /// Returns these causes and Sk, given its number k, or `None` if no cause has that number.
    pub fn with_number(self, number: u8) -> Option<Causes>
        ensures { result ≡ with_number self number }
    {
        match number {
            1..=7 => Some(Causes {
                mask: self.mask | 1 << number,
            }),
            _ => None,
        }
    }

    /// Returns these causes and one more.
    pub fn with(self, cause: Stop) -> Causes
        ensures { result ≡ bit_or self (2 ^ stop_number cause) }
    {
        Causes {
            mask: self.mask | 1 << cause.number(),
        }
    }

    /// Whether the set contains a cause.
    pub fn contains(self, cause: Stop) -> bool
        ensures { result ≡ is_wanted self cause }
    {
        self.mask >> cause.number() & 1 == 1
    }
}
