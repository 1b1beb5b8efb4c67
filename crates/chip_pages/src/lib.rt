//! The pages that `explain` prints, one for each code that the workbench prints and for each word of a
//! script; and the text of the licences.
#![tactic(auto)]

mod explain;
mod licences;
mod pages;

pub use explain::{contents, page_on, page_text};
pub use licences::licence_text;
pub use pages::{Example, Page, word_pages};
