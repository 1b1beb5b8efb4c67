//! The addresses that a search over all key scripts found to be executed.

ghost use Rattle.std.specs.Prelude.{◌≡◌, ◌&&◌, not, true, slice_index_or};
ghost use Rattle.chip_warnings.specs.Seen.{is_code};

use crate::seen::Seen;

/// The addresses of an image that key scripts execute, as found by a search over all key scripts.
#[derive(Clone, Copy)]
pub struct Coverage<'a> {
    /// For each address, whether some key script executes a step there. Addresses past the end of
    /// the slice count as executed.
    pub executed: &'a [bool],
    /// The step up to which the search went, or `None` if the search went to the end.
    pub within: Option<u64>,
}

impl<'a> Coverage<'a> {
    /// Whether a line is an instruction, and no key script executes a step at the line's address.
    pub(crate) fn leaves_out(&self, seen: &Seen) -> bool
        ensures { result ≡ (is_code seen.now.says
            && not (slice_index_or self.now.executed.now seen.now.address true)) }
    {
        seen.says.is_code() && is_never_at(self.executed, seen.address)
    }
}

/// Whether no step is executed at an address. Addresses past the end of `executed` count as executed.
pub(crate) fn is_never_at(executed: &[bool], address: usize) -> bool
    ensures { result ≡ not (slice_index_or executed.now address true) }
{
    matches!(executed.get(address), Some(false))
}
