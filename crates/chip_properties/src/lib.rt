//! The language of `;!` lines, in which the author of a game states its properties.
#![tactic(auto)]

mod advice;
mod fault;
pub mod limits;
mod line;
pub mod near;
mod other_words;
mod part;
mod place_last;
mod properties;
mod reader;
mod relation;
mod separator;
mod stated;
mod sums;
mod tokens;
mod words;

pub use fault::{FaultCode, PropertyFault};
pub use line::{names_used, property_text};
pub use properties::{Properties, properties_of, property_of_text};
pub use stated::{Kind, Stated};
