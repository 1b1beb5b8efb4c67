//! Prints the faults and warnings of a source as compilers do (place, sentence, line, and help) and
//! as JSON, and prints the answers to its properties.
#![tactic(auto)]

mod advice;
mod answer;
mod check;
mod finding;
mod foreign;
mod forms;
mod hint;
mod json;
mod known;
mod missing;
mod mistakes;
mod operand_advice;
mod other_assemblers;
mod parts;
mod place;
mod printing;
mod property;
mod quoted;
mod report;
mod reserved;
mod spelling;
mod words;

pub use answer::{PropertyAnswer, PropertyPlace, Scope, is_bad};
pub use check::{check_json, check_text, fault_text, unopened_json, unopened_report};
pub use json::push_quoted;
pub use property::push_property_fault;
pub use quoted::push_as_shown;
