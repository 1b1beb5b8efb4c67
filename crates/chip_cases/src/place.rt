//! A place in a file of cases.

ghost use Rattle.std.specs.Prelude.{◌≡◌, ◌<◌, ◌∷◌, length};
ghost use Rattle.std.specs.Str.Lines.{lines};

use chip_files::first_line;

/// A place in a file: after one of its lines, or before the first.
#[derive(Clone, Copy)]
pub(crate) struct Place<'a> {
    /// The bytes of the file after this place.
    pub(crate) rest: &'a [u8],
    /// The number of the line before this place, counted from 1; 0 before the first line.
    pub(crate) number: usize,
}

impl<'a> Place<'a> {
    /// Returns the place before the first line.
    pub(crate) fn start(text: &'a [u8]) -> Place<'a>
        ensures { result.rest.now ≡ text.entry.now }
    {
        Place {
            rest: text,
            number: 0,
        }
    }

    /// Returns the next line and the place after it.
    pub(crate) fn next_line(self) -> (&'a [u8], Place<'a>)
        requires { 0 < length self.rest.now }
        ensures first { lines self.entry.rest.now ≡ result.0.now ∷ lines result.1.rest.now }
        ensures shorter { length result.1.rest.now < length self.entry.rest.now }
    {
        let (line, rest) = first_line(self.rest);
        let number = self.number.saturating_add(1);
        (line, Place { rest, number })
    }
}
