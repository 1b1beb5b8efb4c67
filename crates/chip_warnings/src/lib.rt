//! Warnings: things in a source that its author may not mean.
#![tactic(auto)]

mod asked;
mod coverage;
mod flow;
mod instruction;
mod marks;
mod report;
mod seen;
mod survey;
mod text;
mod warning;

pub use asked::Asked;
pub use coverage::Coverage;
pub use report::warnings;
pub use warning::{Warning, WarningCode};
