//! Finds a table. No proof depends on this module, because `Table::is_proof` checks its result.

mod index;
mod search;
mod stacks;
mod waiting;
mod widening;

pub(crate) use search::find;
