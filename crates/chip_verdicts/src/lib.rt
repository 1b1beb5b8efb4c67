//! Determines which targets of a search the facts exclude.
#![tactic(auto)]

mod bounds;
mod laws;
mod possible;
mod property;
mod verdict;
mod view;

pub use laws::never_met_is_never;
pub use verdict::excludes;
