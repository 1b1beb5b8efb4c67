//! Writing a file atomically.
ghost use Rattle.std.specs.Prelude.{OnOk};
ghost use Rattle.std.specs.Io.KnownBytes.{Appends};

use std::alloc::Global;
use std::fs::{File, Metadata, OpenFile, OpenOptions, Permissions};
use std::io::{ErrorKind, Write};
use std::os::unix::fs::MetadataExt;
use std::path::{Path, PathBuf};
use std::rt::Files;
use std::{fs, io};

// The maximum number of links to follow one after another, the same as in Linux.
const MOST_LINKS: u32 = 40;

/// The name that means the standard input in a list of file names.
pub const STANDARD_INPUT: &str = "/dev/stdin";

/// Writes `bytes` to the file `name` atomically. After an error, the file has its old content, or is
/// still missing if there was none before.
///
/// `taken` names the files that the command reads or has written. The call fails with `InvalidInput`
/// if `name` is one of these files. If `taken` contains `STANDARD_INPUT`, the file that is the
/// standard input counts too.
///
/// The call writes the bytes to a new file in the same folder, for example `chipbench.part1`. Once the
/// bytes are on the disk, it renames that file to `name`; after an error, it removes the file. It
/// replaces an existing file only if that file may be written, and keeps the permissions. If `name` is
/// a link, its target is replaced or created.
///
/// Some files can't be replaced by a new one: a file with several names, a file of another owner or
/// group, and anything that isn't a regular file, such as a terminal or a pipe. These files are written
/// in place, and an error may leave some of the bytes in them.
pub fn write_file<F: Files>(
    alloc: Global,
    files: &F,
    taken: &[Option<&str>],
    name: &str,
    bytes: &[u8],
) -> io::Result<()> {
    match OpenOptions::new().write(true).open(files, name) {
        Ok(old) => write_over(alloc, files, taken, old, name, bytes),
        Err(error) if error.kind() == ErrorKind::NotFound => {
            let place = followed(alloc, files, name)?;
            let part = Part::new(alloc, files, place.as_str())?;
            part.put(files, place.as_str(), None, bytes)
        }
        Err(error) => Err(error),
    }
}

// Writes the bytes to an existing file, which is open as `old`: replaces the file, or writes it in place.
fn write_over<F: Files>(
    alloc: Global,
    files: &F,
    taken: &[Option<&str>],
    mut old: F::File,
    name: &str,
    bytes: &[u8],
) -> io::Result<()> {
    let metadata = old.metadata()?;
    if is_taken(files, taken, &metadata)? {
        let why = "the command reads or writes it already";
        return Err(io::Error::new(ErrorKind::InvalidInput, why));
    }
    if !metadata.is_file() {
        return write_down(&mut old, bytes);
    }
    let place = followed(alloc, files, name)?;
    if metadata.nlink() > 1 || !leads_to(files, place.as_str(), &metadata) {
        return write_in_place(old, bytes);
    }
    let part = Part::new(alloc, files, place.as_str())?;
    if part.is_of_owner(&metadata) {
        part.put(files, place.as_str(), Some(metadata.permissions()), bytes)
    } else {
        part.take_away(files);
        write_in_place(old, bytes)
    }
}

// Whether the open file, whose metadata is `open`, is one of the files in `taken`.
fn is_taken<F: Files>(files: &F, taken: &[Option<&str>], open: &Metadata) -> io::Result<bool> {
    for name in taken {
        if let Some(name) = name
            && is_named(files, name, open)?
        {
            return Ok(true);
        }
    }
    Ok(false)
}

// Whether the open file, whose metadata is `open`, has the name `name`. The standard input counts only if
// it is a file, because a terminal is both read and written. If the system doesn't report what the standard
// input is, the answer is no.
fn is_named<F: Files>(files: &F, name: &str, open: &Metadata) -> io::Result<bool> {
    let is_input = name == STANDARD_INPUT;
    match fs::metadata(files, name) {
        Ok(named) => Ok(is_same(open, &named) && (open.is_file() || !is_input)),
        Err(_) if is_input => Ok(false),
        Err(error) => Err(error),
    }
}

// Whether both are the metadata of one file, whatever its names are. Files outside the operating
// system's file system have no inode numbers, so they never count as the same file.
fn is_same(one: &Metadata, other: &Metadata) -> bool {
    one.ino() != 0 && one.ino() == other.ino() && one.dev() == other.dev()
}

// Returns the name that `name` leads to after every link is followed. No file of that name needs to exist.
// Fails with `FilesystemLoop` if there are more than `MOST_LINKS` links.
fn followed<F: Files>(alloc: Global, files: &F, name: &str) -> io::Result<PathBuf> {
    let mut place = PathBuf::from_str(alloc, name)?;
    for _ in 0..=MOST_LINKS {
        match fs::symlink_metadata(files, &place) {
            Ok(metadata) if metadata.is_symlink() => {}
            _ => return Ok(place),
        }
        let target = files.read_link(alloc, place.as_str())?;
        place.pop();
        place.push(&target)?;
    }
    Err(io::Error::from(ErrorKind::FilesystemLoop))
}

// Whether `place` names the open file itself, whose metadata is `open`, and not a link to the file.
fn leads_to<F: Files>(files: &F, place: &str, open: &Metadata) -> bool {
    match fs::symlink_metadata(files, place) {
        Ok(metadata) => is_same(&metadata, open),
        Err(_) => false,
    }
}

// Writes all the bytes, and nothing else.
fn write_down<W: Write>(file: &mut W, bytes: &[u8]) -> io::Result<()>
    ensures { OnOk result (Appends (W.contents file.old) (W.contents file.new) bytes.now) }
{
    file.write_all(bytes)
}

fn write_in_place<F: OpenFile + Write + Drop>(mut file: F, bytes: &[u8]) -> io::Result<()> {
    write_down(&mut file, bytes)?;
    file.set_len(bytes.len() as u64)?;
    file.sync_all()
}

// A new file with its own name, in the folder of the file that it will replace or become.
#[derive(Drop)]
struct Part<F: Drop> {
    name: PathBuf,
    file: F,
}

impl<F: OpenFile + Write + Drop> Part<F> {
    // Creates the first of `chipbench.part1`, `chipbench.part2` and so on that doesn't exist. Existing
    // files are never opened, so a file that a killed run left behind stays there and does no harm.
    fn new<S: Files<File = F>>(alloc: Global, files: &S, place: &str) -> io::Result<Self> {
        for number in 1..=u32::MAX {
            let own_name = format!(in alloc; "chipbench.part{number}")?;
            let name = Path::new(place).with_file_name(alloc, own_name.as_str())?;
            match File::create_new(files, &name) {
                Ok(file) => return Ok(Part { name, file }),
                Err(error) if error.kind() == ErrorKind::AlreadyExists => {}
                Err(error) => return Err(error),
            }
        }
        Err(io::Error::from(ErrorKind::AlreadyExists))
    }

    fn is_of_owner(&self, other: &Metadata) -> bool {
        match self.file.metadata() {
            Ok(metadata) => metadata.uid() == other.uid() && metadata.gid() == other.gid(),
            Err(_) => false,
        }
    }

    fn take_away<S: Files>(self, files: &S) {
        let _ = fs::remove_file(files, &self.name);
    }

    // Writes the bytes to the new file and renames the file to `place`, or removes it after an error.
    fn put<S: Files>(
        self,
        files: &S,
        place: &str,
        permissions: Option<Permissions>,
        bytes: &[u8],
    ) -> io::Result<()> {
        let Part { name, file } = self;
        let is_put = match fill(file, permissions, bytes) {
            Ok(()) => fs::rename(files, &name, place),
            Err(error) => Err(error),
        };
        if is_put.is_ok() {
            sync_folder(files, place);
        } else {
            let _ = fs::remove_file(files, &name);
        }
        is_put
    }
}

// Writes the bytes to the disk and closes the file.
fn fill<F: OpenFile + Write + Drop>(
    mut file: F,
    permissions: Option<Permissions>,
    bytes: &[u8],
) -> io::Result<()> {
    // Set the permissions first, so that only those who may read the old file can read the bytes.
    if let Some(permissions) = permissions {
        file.set_permissions(permissions)?;
    }
    write_down(&mut file, bytes)?;
    file.sync_all()
}

// Writes the new name to the disk, if the system allows syncing a folder. Errors are ignored, because the
// file is written either way.
fn sync_folder<F: Files>(files: &F, place: &str) {
    let folder = match Path::new(place).parent() {
        Some(folder) if !folder.as_str().is_empty() => folder.as_str(),
        _ => ".",
    };
    if let Ok(folder) = fs::open(files, folder) {
        let _ = folder.sync_all();
    }
}
