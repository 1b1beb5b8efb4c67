//! The answer to a command, which is written part by part.

use std::alloc::{AllocError, Global};
use std::fmt::{Debug, Display};

/// Why a command has no answer.
#[derive(Drop)]
pub(crate) enum Refused {
    /// The layer has no such command, or the arguments of the command are invalid.
    BadCommand,
    OutOfMemory,
}

impl From<AllocError> for Refused {
    fn from(_error: AllocError) -> Refused {
        Refused::OutOfMemory
    }
}

/// The answer to a command. Adding a part reports no error: if memory runs out, `is_whole` is false at
/// the end, because some parts are missing.
#[derive(Drop)]
pub(crate) struct Reply {
    pub(crate) text: String,
    pub(crate) is_whole: bool,
}

impl Reply {
    pub(crate) fn new(alloc: Global) -> Reply {
        Reply {
            text: String::new(alloc),
            is_whole: true,
        }
    }

    /// Appends a text.
    pub(crate) fn text(&mut self, text: &str) {
        let added = self.text.push_str(text);
        self.is_whole &= added.is_ok();
    }

    /// Appends the text that `Display` shows for a value, such as the value of `format_args!`.
    pub(crate) fn show<T: Display>(&mut self, value: &T) {
        let added = write!(self.text, "{value}");
        self.is_whole &= added.is_ok();
    }

    /// Appends the text that `Debug` shows for a value.
    pub(crate) fn debug<T: Debug>(&mut self, value: &T) {
        let added = write!(self.text, "{value:?}");
        self.is_whole &= added.is_ok();
    }

    /// Appends numbers with blanks between them.
    pub(crate) fn numbers(&mut self, numbers: &[u64]) {
        let mut blank = "";
        for number in numbers {
            self.show(&format_args!("{blank}{number}"));
            blank = " ";
        }
    }

    /// Appends bytes in hexadecimal.
    pub(crate) fn bytes(&mut self, bytes: &[u8]) {
        for byte in bytes {
            self.show(&format_args!("{byte:02x}"));
        }
    }

    /// Appends bytes as characters.
    pub(crate) fn characters(&mut self, bytes: &[u8]) {
        for byte in bytes {
            let added = self.text.push(char::from(*byte));
            self.is_whole &= added.is_ok();
        }
    }

    /// Appends a name, or `none`.
    pub(crate) fn name(&mut self, name: Option<&[u8]>) {
        self.characters(name.unwrap_or(b"none"));
    }
}
