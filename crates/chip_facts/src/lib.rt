//! Facts about all states that a machine can reach with any keys, any random bytes and any speed.
#![tactic(auto)]

// The proved modules, which check whether a table is closed.
mod accesses;
mod bits;
mod byte_set;
mod facts;
mod index_set;
mod known;
mod operation;
mod outcome;
mod proof;
mod rows;
mod table;
mod transfer;
mod view;

// The module that finds a table. No contract claims anything about it.
mod finder;

pub use facts::{Facts, facts_of};
pub use table::{Left, Row};
