//! Whole sources of the Chipper assembler: layout, names, faults and image, updated after each
//! edit.
#![tactic(auto)]

mod assemble;
mod block;
mod codes;
mod cut;
mod edit;
mod kept;
mod kept_line;
pub mod laws;
mod layout;
pub mod limits;
mod line_info;
mod line_text;
mod line_view;
mod listing;
mod pass;
mod placement;
mod refusal;
mod source;

pub use chip_symbols::{NameHasher, Symbol};
pub use line_view::LineView;
pub use refusal::{OpenError, Refusal};
pub use source::Source;
