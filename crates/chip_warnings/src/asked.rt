//! The input that the warnings of a source depend on, besides the lines of the source.

use crate::coverage::Coverage;
use chip_machine::Quirks;

/// The warnings that are switched off, the machine that the source is for, and what is known about the
/// addresses that the machine executes.
#[derive(Clone, Copy)]
pub struct Asked<'a> {
    /// The set of warnings that are switched off: bit k stands for Wk, and bit 9 + k for Pk.
    pub allowed: u16,
    /// The quirks of the machine.
    pub quirks: Quirks,
    /// Whether a tape of random bytes is given. Without one, RND gives 0.
    pub has_tape: bool,
    /// The addresses that a search found to be executed. If the field is `None`, no line has W8.
    pub coverage: Option<Coverage<'a>>,
    /// For each address, whether the machine can execute a step there with some keys, random bytes and
    /// speed. If the field is `None`, no line has W3.
    pub reachable: Option<&'a [bool]>,
}
