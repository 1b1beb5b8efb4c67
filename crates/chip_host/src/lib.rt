//! The input and output of the commands: what they read from the system that the program runs on, what they
//! print, and how they end.
#![tactic(auto)]

mod ending;
mod file_access;
pub mod laws;
pub mod limits;
mod printing;
mod reading;
mod system;

pub use ending::{Code, Ending, Failure, Report, Shown, TapeFault, TestFault};
pub use file_access::FileAccess;
pub use printing::{Answer, deliver, faults, print, refuse_source, unopened_text};
pub use reading::{
    AskedRun, KeyFile, MOST_SOURCE, as_source, file_name, read_asked, read_given, read_source,
    settings_of, tell_text,
};
pub use system::{Host, System};
