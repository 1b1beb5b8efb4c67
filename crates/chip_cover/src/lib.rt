//! The listing of a source with a mark before each executed line.
#![tactic(auto)]

mod marks;

pub use marks::marked_listing;
