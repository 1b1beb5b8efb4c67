//! The names that lines of help look up in a source.

ghost use Rattle.std.specs.Prelude.{◌≡◌, ◌++◌, ◌∷◌, [], IfOk, OnOk};
ghost use Rattle.chip_symbols.specs.Names.{lookup_name, values_of};
ghost use Rattle.chip_asm.specs.Program.{symbols_of};
ghost use Rattle.chip_check.specs.inner.Known.{Agree, listed};

use crate::foreign::Tally;
use crate::words::{Word, words_of};
use chip_asm::{LineView, NameHasher, Source, Symbol};
use chip_lang::{Body, Bytes, Kind, Line, Names};
use chip_properties::near::{fewest_edits, most_edits};
use indexmap::IndexMap;
use std::alloc::{AllocError, Global};

/// A name that begins a faulty line, which therefore doesn't define the name.
#[derive(Drop)]
pub(crate) struct Lost {
    name: Vec<u8>,
    line: usize,
}

/// A name that begins a line that isn't active.
#[derive(Drop)]
pub(crate) struct Skipped {
    name: Vec<u8>,
    /// The number of the line that the name begins.
    pub(crate) line: usize,
    /// The number of the line of the END above, or 0 if an IF excludes the line.
    pub(crate) end: usize,
}

/// Symbols by name, in upper case.
type Symbols = IndexMap<Vec<u8>, Symbol, NameHasher>;

/// The names of a source.
#[derive(Drop)]
pub(crate) struct Known {
    /// The names with a value, in line order.
    symbols: Symbols,
    /// The names that begin a faulty line, in line order.
    lost: Vec<Lost>,
    /// The names that begin a line that isn't active, in line order.
    skipped: Vec<Skipped>,
    /// The number of faulty lines that look like Octo, and the number of those that look like another assembler.
    tally: Tally,
}

/// The maximum number of pairs of a faulty line and a name. If a source has more pairs, the
/// spellings of names aren't compared, because that would take too long.
const MOST_PAIRS: usize = 100_000;

impl Names for Known {
    ghost symbols = { λ k. values_of (listed k.symbols.entries) };

    #[tactic(auto, using(crate::proofs::KnownNames::known_names))]
    fn value(&self, name: &[u8]) -> Option<i32> {
        match self.find(name) {
            Some(symbol) => Some(symbol.value),
            None => None,
        }
    }
}

impl Known {
    /// The names of a source.
    pub(crate) fn of(alloc: Global, source: &Source) -> Result<Known, AllocError>
        ensures { IfOk result (λ known.
            Agree (listed known.symbols.entries) (symbols_of source.now.lines)) }
    {
        let listed = source.symbols(alloc)?;
        let symbols = by_name(alloc, &listed)?;
        let mut tally = Tally::new();
        let lost = lost_names(alloc, source, &mut tally)?;
        let skipped = skipped_names(alloc, source)?;
        Ok(Known {
            symbols,
            lost,
            skipped,
            tally,
        })
    }

    /// The value and the line of a name in upper case.
    pub(crate) fn find(&self, name: &[u8]) -> Option<Symbol>
        ensures { result ≡ lookup_name (listed self.now.symbols.entries) name.now }
    {
        match self.symbols.get(name) {
            Some(symbol) => Some(*symbol),
            None => None,
        }
    }

    /// The number of the line that defines a name, which is given in upper case.
    pub(crate) fn line_of(&self, name: &[u8]) -> Option<usize> {
        match self.find(name) {
            Some(symbol) => Some(symbol.line),
            None => None,
        }
    }

    /// The number of the first faulty line that begins with a name.
    pub(crate) fn lost_line_of(&self, name: &[u8]) -> Option<usize> {
        for lost in &self.lost {
            if lost.name.as_slice() == name {
                return Some(lost.line);
            }
        }
        None
    }

    /// The first inactive line that begins with a name.
    pub(crate) fn skipped_line_of(&self, name: &[u8]) -> Option<&Skipped> {
        self.skipped
            .iter()
            .find(|skipped| skipped.name.as_slice() == name)
    }

    /// The note about the whole source, if the line with this number has the first fault.
    pub(crate) fn note_on(&self, number: usize) -> Option<&'static str> {
        self.tally.note_on(number)
    }

    /// The name whose spelling is closest to a word, if one is close enough.
    pub(crate) fn near_name(&self, word: &[u8]) -> Option<&[u8]> {
        if self.lost.len().saturating_mul(self.symbols.len()) > MOST_PAIRS {
            return None;
        }
        let mut most = most_edits(word);
        let mut nearest = None;
        for (given, _) in &self.symbols {
            if let Some(edits) = fewest_edits(most, word, given) {
                nearest = Some(given.as_slice());
                if edits <= 1 {
                    break;
                }
                most = edits - 1;
            }
        }
        nearest
    }
}

/// Symbols by name. If several symbols have the same name, the first one is used.
fn by_name(alloc: Global, symbols: &[(Bytes, Symbol)]) -> Result<Symbols, AllocError>
    ensures { IfOk result (λ found. Agree (listed found.entries) symbols.now) }
{
    let mut found = IndexMap::with_hasher(alloc, NameHasher::new(0));
    for (name, symbol) in symbols {
        add_last(alloc, &mut found, name.get(), *symbol)?;
    }
    Ok(found)
}

/// Adds the symbol for a name, unless the name already has one.
fn add_last(
    alloc: Global,
    symbols: &mut Symbols,
    name: &[u8],
    symbol: Symbol,
) -> Result<(), AllocError>
    ensures { OnOk result (Agree (listed symbols.new.entries)
        (listed symbols.old.entries ++ (name.now, symbol) ∷ [])) }
{
    match symbols.get(name) {
        Some(_) => Ok(()),
        None => {
            symbols.insert(Vec::from_slice(alloc, name)?, symbol)?;
            Ok(())
        }
    }
}

/// The names that begin faulty lines, in line order. Counts each of these lines in `tally`.
fn lost_names(alloc: Global, source: &Source, tally: &mut Tally) -> Result<Vec<Lost>, AllocError> {
    let mut lost = Vec::new(alloc);
    if source.image().is_some() {
        return Ok(lost);
    }
    for place in 0..source.lines() {
        if let Some(line) = source.line(place + 1)
            && line.fault().is_some()
        {
            push_front_name(alloc, &mut lost, tally, &line)?;
        }
    }
    Ok(lost)
}

/// Adds the word that begins a faulty line, or the word after DEFINE, and counts the line.
fn push_front_name(
    alloc: Global,
    lost: &mut Vec<Lost>,
    tally: &mut Tally,
    line: &LineView<'_>,
) -> Result<(), AllocError> {
    let upper = line.text().to_ascii_uppercase(alloc)?;
    let words = words_of(alloc, &upper, &line.tokens(alloc)?)?;
    tally.add(line.number(), &words);
    if let Some(name) = front_name(&words) {
        let name = Vec::from_slice(alloc, name)?;
        let line = line.number();
        lost.push(Lost { name, line })?;
    }
    Ok(())
}

/// The word that begins a line, or the word after DEFINE.
fn front_name<'a>(words: &[Word<'a>]) -> Option<&'a [u8]> {
    match words {
        [first, name, ..] if first.text == b"DEFINE".as_slice() => Some(name.text),
        [name, ..] if name.kind == Kind::Word => Some(name.text),
        _ => None,
    }
}

/// The names that begin inactive lines, in line order.
fn skipped_names(alloc: Global, source: &Source) -> Result<Vec<Skipped>, AllocError> {
    let mut skipped = Vec::new(alloc);
    if source.image().is_some() {
        return Ok(skipped);
    }
    let mut end = 0;
    for place in 0..source.lines() {
        if let Some(line) = source.line(place + 1) {
            if !line.is_active() {
                push_skipped(alloc, &mut skipped, &line, end)?;
            } else if is_end(&line) {
                end = line.number();
            }
        }
    }
    Ok(skipped)
}

/// Whether a line is an END directive.
fn is_end(line: &LineView<'_>) -> bool {
    matches!(
        line.reading(),
        Line::Read {
            body: Body::End,
            ..
        }
    )
}

/// Adds the name that begins an inactive line. `end` is the number of the line with END, or 0.
fn push_skipped(
    alloc: Global,
    skipped: &mut Vec<Skipped>,
    line: &LineView<'_>,
    end: usize,
) -> Result<(), AllocError> {
    let upper = line.text().to_ascii_uppercase(alloc)?;
    let words = words_of(alloc, &upper, &line.tokens(alloc)?)?;
    if let Some(name) = front_name(&words) {
        let name = Vec::from_slice(alloc, name)?;
        let line = line.number();
        skipped.push(Skipped { name, line, end })?;
    }
    Ok(())
}
