//! Views of images, screens and sources: a source text for an image, pictures of the screen, and the
//! names and the listing of a source with values in hexadecimal.
#![tactic(auto)]

mod bitmap;
mod checksum;
mod dis;
mod hexadecimal;
pub mod laws;
mod picture;
mod png;

pub use bitmap::{screen_pbm, screen_pbm_scaled};
pub use dis::source_of_image;
pub use hexadecimal::{hex_listing, hex_symbols};
pub use picture::{Letters, screen_text};
pub use png::{screen_png, screen_png_scaled};
