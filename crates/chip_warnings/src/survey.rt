//! The survey of a source, which is built before the lines are checked for warnings.

ghost use Rattle.std.specs.Prelude.{◌≡◌, ◌<◌, ◌∷◌, [], List, ℕ, IfOk, OnOk, Some, slice_get, vec_len};
ghost use Rattle.chip_lang.specs.SeenLine.{seen_line};
ghost use Rattle.chip_lang.specs.Uses.{names_used};
ghost use Rattle.chip_warnings.specs.Seen.{is_meant, is_unused, is_used, names_asked, names_of_line, seen_lines, seen_of};
ghost use Rattle.chip_warnings.specs.Marked.{marked_by};
ghost use Rattle.chip_warnings.specs.inner.Noted.{Has, Knows, marked_in};

use crate::marks::Marks;
use crate::seen::{Seen, begins, says_of};
use chip_asm::{LineView, NameHasher, Source};
use chip_lang::limits::IMAGE_START;
use chip_lang::{Body, Line, defines, used_names};
use chip_properties::names_used;
use indexmap::IndexSet;
use std::alloc::{AllocError, Global};

/// Names in upper case.
type Names = IndexSet<Vec<u8>, NameHasher>;

/// The lines of a source, and the addresses that the lines name.
#[derive(Drop)]
pub(crate) struct Survey {
    lines: Vec<Seen>,
    pub(crate) marks: Marks,
}

impl Survey {
    /// Returns the survey of a source without faults.
    pub(crate) fn of(alloc: Global, source: &Source) -> Result<Survey, AllocError>
        ensures lines { IfOk result (λ survey.
            survey.lines.items ≡ seen_lines source.now.lines) }
        ensures marks { IfOk result (λ survey.
            marked_in survey.marks ≡ marked_by (seen_lines source.now.lines)) }
    {
        let used = names_of(alloc, source)?;
        let lines = lines_of(alloc, source, &used)?;
        let marks = Marks::of(alloc, &lines)?;
        Ok(Survey { lines, marks })
    }

    /// The line at the index `place`, counted from 0.
    pub(crate) fn line(&self, place: usize) -> Seen
        requires { place < vec_len self.now.lines }
        ensures { slice_get self.now.lines.items place ≡ Some result }
    {
        self.lines[place]
    }
}

/// Returns the names that the lines of a source use.
fn names_of(alloc: Global, source: &Source) -> Result<Names, AllocError>
    ensures { IfOk result (λ used.
        (name : List ℕ) → Has used name (is_used source.now.lines name)) }
{
    let mut used = IndexSet::with_hasher(alloc, NameHasher::new(0));
    for place in 0..source.lines() {
        if let Some(line) = source.line(place + 1) {
            note_line(alloc, &mut used, &line)?;
        }
    }
    Ok(used)
}

/// Adds the names that a line uses to `used`.
fn note_line(alloc: Global, used: &mut Names, line: &LineView<'_>) -> Result<(), AllocError>
    ensures { OnOk result (Knows (names_of_line line.now.text) used.old used.new) }
{
    note_expressions(alloc, used, line.reading())?;
    note_asked(alloc, used, line.reading())?;
    let words = names_used(alloc, line.text())?;
    for word in &words {
        note_name(alloc, used, word.get())?;
    }
    Ok(())
}

/// Adds the names in the expressions of a line to `used`.
fn note_expressions(alloc: Global, used: &mut Names, line: &Line) -> Result<(), AllocError>
    ensures { OnOk result (Knows (names_used (seen_line line.now)) used.old used.new) }
{
    let mut names = used_names(line);
    while let Some(name) = names.next() {
        note_name(alloc, used, name)?;
    }
    Ok(())
}

/// Adds the name after the IFDEF or IFUND of a line to `used`, if the line has one.
fn note_asked(alloc: Global, used: &mut Names, line: &Line) -> Result<(), AllocError>
    ensures { OnOk result (Knows (names_asked (seen_line line.now)) used.old used.new) }
{
    match line {
        Line::Read {
            body: Body::Ifdef(name) | Body::Ifund(name),
            ..
        } => note_name(alloc, used, name.get()),
        _ => Ok(()),
    }
}

/// Adds a name to `used`, unless `used` already contains it.
fn note_name(alloc: Global, used: &mut Names, name: &[u8]) -> Result<(), AllocError>
    ensures { OnOk result (Knows (name.now ∷ []) used.old used.new) }
{
    if !used.contains(name) {
        used.insert(Vec::from_slice(alloc, name)?)?;
    }
    Ok(())
}

/// Returns the lines of a source, given the names that the source uses.
fn lines_of(alloc: Global, source: &Source, used: &Names) -> Result<Vec<Seen>, AllocError>
    requires { (name : List ℕ) → Has used.now name (is_used source.now.lines name) }
    ensures { IfOk result (λ lines. lines.items ≡ seen_lines source.now.lines) }
{
    let mut lines = Vec::with_capacity(alloc, source.lines())?;
    for place in 0..source.lines() {
        if let Some(line) = source.line(place + 1) {
            lines.push(seen_of(&line, used))?;
        }
    }
    Ok(lines)
}

/// Returns a line of a source, given the names that the source uses.
fn seen_of(line: &LineView<'_>, used: &Names) -> Seen
    ensures { (texts : List (List ℕ))
        → ((name : List ℕ) → Has used.now name (is_used texts name))
        → result ≡ seen_of texts line.now }
{
    Seen {
        number: line.number(),
        address: line.address(),
        begins: begins(line),
        unused: is_unused(line, used),
        says: says_of(line),
    }
}

/// Whether an active line defines a name that is never used and isn't meant to stay. A label at the start
/// of the image counts as used.
fn is_unused(line: &LineView<'_>, used: &Names) -> bool
    ensures { (texts : List (List ℕ))
        → ((name : List ℕ) → Has used.now name (is_used texts name))
        → result ≡ is_unused texts line.now }
{
    if !line.is_active() || begins(line) && line.address() == IMAGE_START {
        return false;
    }
    match defines(line.reading()) {
        Some(name) => !used.contains(name) && !is_meant(name),
        None => false,
    }
}

/// Whether a name is meant to stay even if no line uses it, because it begins with `_`.
fn is_meant(name: &[u8]) -> bool
    ensures { result ≡ is_meant name.now }
{
    matches!(name, [b'_', ..])
}
