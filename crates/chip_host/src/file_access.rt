//! The access of commands to files.
ghost use Rattle.std.specs.Prelude.{ℕ, List, OnOk};

use chip_files::{find_folder, read_file, write_file};
use std::alloc::Global;
use std::io;
use std::rt::Files;

/// Files that can be read and written as a whole. Commands need no other part of `Files`.
pub trait FileAccess {
    // These bytes were written to a file with this name. Only a successful write proves this.
    ghost wrote: { Self → (name bytes : List ℕ) → Type 0 };

    /// Returns the contents of the file `name`, up to `most` bytes.
    fn read(&self, alloc: Global, name: &str, most: u32) -> io::Result<Vec<u8>>;

    /// Checks that the folder `name` exists. Fails with the reason if no folder is found.
    fn find_folder(&self, name: &str) -> io::Result<()>;

    /// Writes the file `name` atomically. A file with a name in `taken` isn't written. For a source, `taken`
    /// contains the name that `file_name` returns.
    fn write(
        &self,
        alloc: Global,
        taken: &[Option<&str>],
        name: &str,
        bytes: &[u8],
    ) -> io::Result<()>
        ensures { OnOk result (wrote self.now name.now bytes.now) };
}

impl<F: Files> FileAccess for F {
    // No contract states which bytes a file of the system receives.
    ghost wrote = { λ files name bytes. Unit {0} };

    fn read(&self, alloc: Global, name: &str, most: u32) -> io::Result<Vec<u8>> {
        read_file(alloc, self, name, most)
    }

    fn find_folder(&self, name: &str) -> io::Result<()> {
        find_folder(self, name)
    }

    fn write(
        &self,
        alloc: Global,
        taken: &[Option<&str>],
        name: &str,
        bytes: &[u8],
    ) -> io::Result<()> {
        write_file(alloc, self, taken, name, bytes)
    }
}
