//! Files of cases, which are sessions of the workbench together with the expected answers.
#![tactic(auto)]

mod case;
mod difference;
mod fault;
mod line;
mod matching;
mod place;
mod reading;
mod update;

pub use case::{Case, CaseSource, Placed, Setup, Step};
pub use difference::difference_text;
pub use fault::{CaseFault, FileFault};
pub use matching::{is_answered, is_refusal};
pub use reading::{misplaced_refusal, read_cases};
pub use update::{Given, updated_text};
