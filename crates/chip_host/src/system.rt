//! The system that the program runs on: memory, files, and a description of the system.
ghost use Rattle.std.specs.Prelude.{◌≤◌, length, IfOk, IfErr, OnOk};
ghost use Rattle.chip_host.specs.Endings.{IsFileWritten, IsUnread, IsUnreadWithin};

use crate::ending::{Ending, Failure};
use crate::file_access::FileAccess;
use std::alloc::Global;
use std::io;

/// A description of the system that the program runs on.
#[derive(Clone, Copy)]
pub struct Host {
    /// The seed for the hashes of the names in a session's source. No answer depends on the seed.
    pub name_seed: u64,
    /// Whether the output supports colours, as a terminal does.
    pub takes_color: bool,
    /// Whether somebody reads the messages on standard error as they appear, as at a terminal.
    pub has_reader: bool,
    /// Whether somebody types the input, as at a terminal.
    pub is_typed: bool,
}

/// The system that the program runs on.
#[derive(Drop)]
pub struct System<'s, F> {
    pub alloc: Global,
    pub files: &'s F,
    pub host: Host,
}

impl<'s, F: FileAccess> System<'s, F> {
    /// Returns the bytes of a file, at most `most`.
    pub fn read<'a>(&self, name: &'a str, most: u32) -> Result<Vec<u8>, Failure<'a>>
        ensures { IfErr result (IsUnread name.entry) }
    {
        match self.files.read(self.alloc, name, most) {
            Ok(bytes) => Ok(bytes),
            Err(error) if error.kind() == io::ErrorKind::OutOfMemory => Err(Failure::OutOfMemory),
            Err(error) => Err(Failure::CannotRead(name, error)),
        }
    }

    /// Returns the bytes of a file. Fails if the file contains more than `most` bytes.
    pub fn read_within<'a>(&self, name: &'a str, most: u32) -> Result<Vec<u8>, Failure<'a>>
        ensures ok { IfOk result (λ bytes. length bytes.items ≤ most) }
        ensures err { IfErr result (IsUnreadWithin most name.entry) }
    {
        let bytes = self.read(name, most.saturating_add(1))?;
        if bytes.len() > most as usize {
            return Err(Failure::TooLong(name, most));
        }
        Ok(bytes)
    }

    /// Writes a file atomically. A file with one of the names in `taken` isn't changed.
    pub fn write<'a>(
        &self,
        taken: &[Option<&str>],
        name: &'a str,
        bytes: &[u8],
    ) -> Result<Ending, Failure<'a>>
        ensures ended { IsFileWritten name.entry result }
        ensures written { OnOk result (F.wrote self.now.files.now name.entry.now bytes.now) }
    {
        match self.files.write(self.alloc, taken, name, bytes) {
            Ok(()) => Ok(Ending::Done),
            Err(error) if error.kind() == io::ErrorKind::OutOfMemory => Err(Failure::OutOfMemory),
            Err(error) => Err(Failure::CannotWrite(name, error)),
        }
    }
}
