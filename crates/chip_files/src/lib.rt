//! Reading files, writing files, and the lines of a file of key events.
#![tactic(auto)]

mod image_file;
mod key_lines;
mod reading;

pub use image_file::{STANDARD_INPUT, write_file};
pub use key_lines::{first_line, key_command};
pub use reading::{find_folder, read_file, read_most};
