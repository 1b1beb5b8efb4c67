//! Sums.

ghost use Rattle.std.specs.Prelude.{◌≡◌};
ghost use Rattle.chip_properties.specs.Language.{a_number, times};
ghost use Rattle.chip_properties.specs.SeenProperty.{seen_sum};
ghost use Rattle.chip_properties.specs.computed.Reading.{no_sum, with_addend};
ghost use Rattle.chip_properties.specs.inner.Reads.{IsReadAs};

use crate::fault::{Failure, FaultCode};
use crate::part::Part;
use chip_explore::{Item, Sum, Term};
use std::alloc::Global;

/// Returns the empty sum.
pub(crate) fn no_sum(alloc: Global) -> Sum
    ensures { seen_sum result ≡ no_sum }
{
    Sum {
        constant: 0,
        terms: Vec::new(alloc),
    }
}

/// Adds a number to a sum, if the sum's numbers together have at most 32 bits.
pub(crate) fn with_number(sum: Sum, part: Part<'_>, number: u32) -> Result<Sum, Failure>
    ensures { IsReadAs seen_sum (with_addend (seen_sum sum) (a_number number)) result }
{
    let Sum { constant, terms } = sum;
    match constant.checked_add(number) {
        Some(constant) => Ok(Sum { constant, terms }),
        None => Err(part.fault(FaultCode::OutOfRange)),
    }
}

/// Adds an item with a factor to a sum.
pub(crate) fn with_term(sum: Sum, factor: u32, item: Item) -> Result<Sum, Failure>
    ensures { IsReadAs seen_sum (with_addend (seen_sum sum) (times factor item)) result }
{
    let Sum {
        constant,
        mut terms,
    } = sum;
    terms.reserve(1)?;
    terms.push_reserved(Term { factor, item });
    Ok(Sum { constant, terms })
}
