//! The trace of a run: a line for each step, and its comparison with the trace of another emulator.
#![tactic(auto)]

mod column;
mod columns;
mod difference;
mod digits;
mod form;
mod header;
mod json;
mod limits;
mod line;
mod machine_line;
mod report;
mod sums;
mod trace;

pub use column::Column;
pub use columns::Columns;
pub use difference::{Difference, first_difference};
pub use digits::{byte_digits, hex_digit, push_decimal, push_spaced_bytes, word_digits};
pub use form::Form;
pub use header::HeaderError;
pub use machine_line::names_machine;
pub use report::difference_text;
pub use sums::row_bytes;
pub use trace::Trace;
