//! Reading a file or a stream, up to a number of bytes.
ghost use Rattle.std.specs.Prelude.{◌≡◌, ◌++◌, IfOk, IfSome, OnOk, take};

use std::alloc::Global;
use std::fs::OpenFile;
use std::io::Read;
use std::rt::Files;
use std::{fs, io};

/// Returns the contents of the file `name`, up to `most` bytes.
pub fn read_file<F: Files>(alloc: Global, files: &F, name: &str, most: u32) -> io::Result<Vec<u8>> {
    read_whole(alloc, fs::open(files, name)?, most)
}

/// Succeeds if `name` is a folder. Fails with `NotADirectory` if it is something else, and with the
/// system's error if it can't be found.
pub fn find_folder<F: Files>(files: &F, name: &str) -> io::Result<()> {
    if fs::metadata(files, name)?.is_dir() {
        Ok(())
    } else {
        Err(io::Error::from(io::ErrorKind::NotADirectory))
    }
}

// Returns the contents of a file, up to `most` bytes. If the file reports its length, the function allocates
// memory for all of them at once.
fn read_whole<F: OpenFile + Read + Drop>(alloc: Global, file: F, most: u32) -> io::Result<Vec<u8>>
    ensures { IfOk result (λ bytes. IfSome (F.remaining file)
        (λ all. bytes.items ≡ take most all)) }
{
    let length = match file.metadata() {
        Ok(metadata) => metadata.len().min(u64::from(most)),
        Err(_) => 0,
    };
    // Allocate one extra byte, so that reading finds the end of the file without another allocation.
    let mut bytes = Vec::with_capacity(alloc, length as usize + 1)?;
    read_most(file, &mut bytes, most)?;
    Ok(bytes)
}

/// Appends the contents of a reader to `bytes`, up to `most` bytes.
pub fn read_most<R: Read + Drop>(reader: R, bytes: &mut Vec<u8>, most: u32) -> io::Result<()>
    ensures { OnOk result (IfSome (R.remaining reader)
        (λ all. bytes.new.items ≡ bytes.old.items ++ take most all)) }
{
    reader.take(u64::from(most)).read_to_end(bytes)?;
    Ok(())
}
