//! A session over a source and its machine: edits, questions, and scripts that contain both.
#![tactic(auto)]

mod answer;
mod ask;
mod bench;
mod command;
mod counted;
mod edit;
mod image_run;
mod key_file;
pub mod laws;
pub mod limits;
mod machine_answer;
mod observer;
mod picture;
mod question;
mod refusal;
mod server;
mod settings;
mod tape;
mod text;

pub use answer::{faults_answer, listing_answer, symbols_answer};
pub use bench::Bench;
pub use chip_asm::OpenError;
pub use chip_views::Letters;
pub use command::{Command, CommandFault, number_of, read_command};
pub use counted::Counted;
pub use edit::Edit;
pub use key_file::{KeyFileError, insert_keys};
pub use observer::{Nobody, Observer};
pub use picture::PictureForm;
pub use question::{Question, StateQuestion};
pub use refusal::{Refusal, Refused};
pub use server::{ServeError, WriteFailed, refuse, respond, serve, serve_observed, write_all};
pub use settings::{SetError, Settings};
pub use tape::tape_of;
