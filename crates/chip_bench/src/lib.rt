//! The program that uses sessions: what each command reads and prints, and how the program ends.
#![tactic(auto)]

mod case_report;
mod case_run;
mod case_setup;
mod entry;
mod held_writer;
mod opening;
mod output;
mod picturing;
mod stopping;
mod terminal;
mod testing;
mod tracing;
mod usage;

pub use chip_arguments::{
    CommandLine, ExploreArguments, PictureArguments, ProveArguments, RunArguments, SearchArguments,
    SettingArguments, TestArguments, TraceArguments, parse_arguments,
};
pub use chip_host::{Host, System};
pub use chip_session::{
    Bench, Command, CommandFault, Counted, Edit, Letters, OpenError, PictureForm, Question,
    Refusal, ServeError, SetError, Settings, StateQuestion, read_command, serve, tape_of,
};
pub use entry::{program, refuse_arguments};
pub use held_writer::HeldWriter;
