//! The symbols of a source: names, each with a number and a value, updated by each edit.
#![tactic(auto)]

mod name_hasher;
mod table;
mod values;

pub use name_hasher::NameHasher;
pub use table::{NameId, OneName, Scope, Symbol, Table};
