//! A case: a source, settings, key events, and commands with their expected answers.

/// A text in a file of cases, with the number of its line, counted from 1.
#[derive(Clone, Copy)]
pub struct Placed<'a> {
    pub line: usize,
    pub text: &'a [u8],
}

/// The source at the start of a case.
#[derive(Clone, Copy)]
pub enum CaseSource<'a> {
    /// The empty source.
    Empty,
    /// The lines between `source` and `end`.
    Lines(&'a [u8]),
    /// The source in the file with this name.
    File(Placed<'a>),
    /// The source that `dis` prints for the image in the file with this name.
    Image(Placed<'a>),
}

/// The source, the key events and the settings of a case, as its lines state them. Anything that no
/// line states has the default that the program uses if no option is given.
#[derive(Clone, Copy)]
pub struct Setup<'a> {
    pub source: CaseSource<'a>,
    /// The name of the file of key events.
    pub keys: Option<Placed<'a>>,
    pub profile: Option<Placed<'a>>,
    pub quirks: Option<Placed<'a>>,
    pub rate: Option<Placed<'a>>,
    pub tape: Option<Placed<'a>>,
    pub seed: Option<Placed<'a>>,
    pub every: Option<Placed<'a>>,
}

impl Setup<'static> {
    /// The empty source, without key events or settings.
    pub(crate) const NONE: Setup<'static> = Setup {
        source: CaseSource::Empty,
        keys: None,
        profile: None,
        quirks: None,
        rate: None,
        tape: None,
        seed: None,
        every: None,
    };
}

/// A command and its expected answer, which is in the lines below the command.
#[derive(Drop)]
pub struct Step<'a> {
    /// The number of the command's line, counted from 1.
    pub line: usize,
    /// The command, without the mark before it.
    pub command: &'a [u8],
    /// Whether a refusal is expected, which means that the mark is `!` rather than `>`.
    pub is_refused: bool,
    /// The expected lines, without comments and empty lines. `...` matches any number of lines.
    pub expected: Vec<&'a [u8]>,
}

/// A case of a file: a setup, and commands with their expected answers.
#[derive(Drop)]
pub struct Case<'a> {
    /// The number of the line `case NAME`, or 1 in a file without such a line.
    pub line: usize,
    /// The name of the case; empty in a file without a `case` line.
    pub name: &'a [u8],
    pub setup: Setup<'a>,
    pub steps: Vec<Step<'a>>,
}
