//! The possible results of a step from a state, given what is known about the state.

ghost use Rattle.std.specs.Prelude.{◌≡◌, [], ◌∷◌, ◌++◌, IfOk, None, Some, option_to_list};

use crate::byte_set::ByteSet;
use crate::index_set::IndexSet;
use crate::known::Known;
use chip_machine::Stop;
use std::alloc::{AllocError, Global};

/// The effect of a step on the call stack.
#[derive(Clone, Copy)]
pub(crate) enum Way {
    Same,
    /// One more return address is added to the call stack.
    Call(u16),
    Return,
}

/// A place that a step may lead to, and what is known there.
#[derive(Clone, Copy)]
pub(crate) struct Successor {
    pub(crate) pc: u16,
    pub(crate) way: Way,
    pub(crate) known: Known,
}

/// The bytes that a step may store consecutively, starting at one of several addresses. The flag registers
/// follow the memory.
#[derive(Drop)]
pub(crate) struct Stored {
    pub(crate) at: IndexSet,
    pub(crate) values: Vec<ByteSet>,
}

/// The possible results of a step.
#[derive(Drop)]
pub(crate) struct Outcome {
    pub(crate) stop: Option<Stop>,
    pub(crate) next: Vec<Successor>,
    pub(crate) stored: Option<Stored>,
}

impl Outcome {
    /// Returns the outcome that stops the machine.
    pub(crate) fn stops(alloc: Global, why: Stop) -> Outcome
        ensures { result.stop ≡ Some why }
    {
        Outcome {
            stop: Some(why),
            next: Vec::new(alloc),
            stored: None,
        }
    }

    /// Returns the outcome that leads to one of these successors.
    pub(crate) fn leads(next: Vec<Successor>) -> Outcome
        ensures next { result.next ≡ next }
        ensures stored { result.stored ≡ None }
    {
        Outcome {
            stop: None,
            next,
            stored: None,
        }
    }

    /// Returns the outcome that leads to this successor.
    pub(crate) fn to(alloc: Global, successor: Successor) -> Result<Outcome, AllocError>
        ensures next { IfOk result (λ out. out.next.items ≡ successor ∷ []) }
        ensures stored { IfOk result (λ out. out.stored ≡ None) }
    {
        let mut next = Vec::new(alloc);
        next.push(successor)?;
        Ok(Outcome::leads(next))
    }
}

/// Returns the outcome that leads to one of two successors.
pub(crate) fn to_either(
    alloc: Global,
    first: &Successor,
    second: &Successor,
) -> Result<Outcome, AllocError>
    ensures next { IfOk result (λ out. out.next.items ≡ first.now ∷ (second.now ∷ [])) }
    ensures stored { IfOk result (λ out. out.stored ≡ None) }
{
    let mut next = Vec::new(alloc);
    next.push(*first)?;
    next.push(*second)?;
    Ok(Outcome::leads(next))
}

/// Returns the successors that exist, in order.
pub(crate) fn both(
    alloc: Global,
    first: &Option<Successor>,
    second: &Option<Successor>,
) -> Result<Vec<Successor>, AllocError>
    ensures { IfOk result (λ next. next.items ≡ option_to_list first.now ++ option_to_list second.now) }
{
    let mut next = Vec::new(alloc);
    if let Some(successor) = first {
        next.push(*successor)?;
    }
    if let Some(successor) = second {
        next.push(*successor)?;
    }
    Ok(next)
}
