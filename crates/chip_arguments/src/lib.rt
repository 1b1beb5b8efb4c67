//! The arguments of the program, parsed into plain data.
#![tactic(auto)]

mod arguments;
mod command_line;
mod commands;
pub mod laws;
mod limits;

pub use command_line::{
    CheckArguments, ColorChoice, CommandLine, ExploreArguments, PictureArguments, ProveArguments,
    RunArguments, SearchArguments, SettingArguments, TestArguments, TraceArguments, not_text,
    number, parse_arguments, seed,
};
pub use commands::{VERSION, commands_with};
pub use limits::{USUAL_MEMORY, USUAL_STATES};
