//! Facts stored about a line in addition to its reading, for steps over all lines.
ghost use Rattle.std.specs.Prelude.{◌≡◌, ◌+◌, ◌++◌, ◌-◌, ◌<◌, ◌≤◌, ◌^◌, ◌%◌, ◌&&◌, if◌then◌else◌, nat_eq, List, IfOk, IfSome, OnOk, true, false};
ghost use Rattle.chip_lang.specs.Line.{Reading};
ghost use Rattle.chip_lang.specs.SeenLine.{seen_body, seen_line};
ghost use Rattle.chip_lang.specs.Uses.{name_defined, names_used};
ghost use Rattle.chip_lang.specs.declared.limits.TheConstants.{MEMORY_BYTES};
ghost use Rattle.chip_asm.specs.Layout.{body_of, is_padded, own_size};
ghost use Rattle.chip_symbols.specs.Names.{Name};
ghost use Rattle.chip_asm.specs.inner.Infos.{AreAlike, IsInfo, IsNumberOf, IsPlain, IsSpaceOf, is_steady, numbers_of, has_code};
ghost use Rattle.chip_symbols.specs.Tables.{AreNumbers, Extends};

use chip_lang::limits::MEMORY_BYTES;
use chip_lang::{Body, Line, UsedNames, defines, used_names};
use chip_symbols::{NameId, Table};
use std::alloc::{AllocError, Global};

/// The names in a line's expressions.
#[derive(Clone, Copy)]
pub(crate) enum Uses {
    /// No name.
    Nothing,
    /// Only this name, once.
    One(NameId),
    /// Several names, or one name several times.
    Several,
}

/// The space that a line takes.
#[derive(Clone, Copy)]
pub(crate) enum Space {
    /// Two bytes if the line has its own bytes, or else none.
    Short,
    /// Data of this many bytes, and whether one more byte is added if the data would end at an odd address.
    Data(u16, bool),
    /// The first pass needs more than the line's size and its name.
    Asked,
}

/// The facts about a line that steps over all lines need.
#[derive(Clone, Copy)]
pub(crate) struct LineInfo {
    /// The space that the line takes.
    pub(crate) space: Space,
    /// Whether the line has its own bytes.
    pub(crate) is_coded: bool,
    /// Whether the line opens no block, ends no source and switches no alignment.
    pub(crate) is_steady: bool,
    /// The name that the line defines, if the line is accepted.
    pub(crate) defines: Option<NameId>,
    /// The names that the line uses.
    pub(crate) uses: Uses,
}

/// The number of a statement's own bytes, without padding.
pub(crate) fn size_of_body(body: &Body, value: i32) -> usize
    ensures size { result ≡ own_size (seen_body body.now) value }
    ensures bound { result < 2 ^ 64 - 1 }
{
    match body {
        Body::Code(_, _) => 2,
        Body::Db(exprs) => exprs.len(),
        Body::Dw(exprs) => 2 * exprs.len(),
        Body::Da(bytes) => bytes.get().len(),
        Body::Ds(_) => value.unsigned_abs() as usize,
        _ => 0,
    }
}

pub(crate) fn is_data(body: &Body) -> bool
    ensures { result ≡ is_padded (seen_body body.now) }
{
    matches!(body, Body::Db(_) | Body::Da(_) | Body::Ds(_))
}

/// The space that a line takes.
fn space_of(line: &Line) -> Space
    ensures { IsSpaceOf result (seen_line line.now) }
{
    let Line::Read { body, .. } = line else {
        return Space::Asked;
    };
    match body {
        Body::Empty | Body::Options | Body::Used | Body::Xref | Body::Code(_, _) => Space::Short,
        Body::Dw(exprs) if exprs.len() == 1 => Space::Short,
        Body::Db(_) | Body::Dw(_) | Body::Da(_) => match u16::try_from(size_of_body(body, 0)) {
            Ok(size) => Space::Data(size, is_data(body)),
            Err(_) => Space::Asked,
        },
        _ => Space::Asked,
    }
}

/// Whether the line has its own bytes.
fn has_code(line: &Line) -> bool
    ensures { result ≡ has_code (body_of (seen_line line.now)) }
{
    matches!(
        line,
        Line::Read {
            body: Body::Db(_) | Body::Dw(_) | Body::Da(_) | Body::Code(_, _),
            ..
        }
    )
}

/// Whether the line opens no block, ends no source and switches no alignment.
fn is_steady(line: &Line) -> bool
    ensures { result ≡ is_steady (body_of (seen_line line.now)) }
{
    !matches!(
        line,
        Line::Read {
            body: Body::Ifdef(_) | Body::Ifund(_) | Body::End | Body::Align(_),
            ..
        }
    )
}

/// The number of the name that a line defines, if it defines one. Fails only if memory runs out.
fn number_defined(
    alloc: Global,
    table: &mut Table,
    line: &Line,
) -> Result<Option<NameId>, AllocError>
    ensures keys { Extends table.old.keys table.new.keys }
    ensures symbols { table.new.symbols ≡ table.old.symbols }
    ensures before { table.new.before ≡ table.old.before }
    ensures is { IfOk result (λ id. IsNumberOf table.new.keys id
        (name_defined (seen_line line.now))) }
{
    match defines(line) {
        Some(name) => {
            let id = table.number(alloc, name)?;
            Ok(Some(id))
        }
        None => Ok(None),
    }
}

/// Appends the numbers of names. Fails only if memory runs out.
fn push_numbers(
    alloc: Global,
    table: &mut Table,
    mut names: UsedNames,
    numbers: &mut Vec<NameId>,
) -> Result<(), AllocError>
    ensures keys { Extends table.old.keys table.new.keys }
    ensures symbols { table.new.symbols ≡ table.old.symbols }
    ensures before { table.new.before ≡ table.old.before }
    ensures are { (front : List Name) → AreNumbers table.old.keys numbers.old.items front
        → OnOk result (AreNumbers table.new.keys numbers.new.items (front ++ names.entry)) }
{
    while let Some(name) = names.next() {
        let id = table.number(alloc, name)?;
        numbers.push(id)?;
    }
    Ok(())
}

/// The names that a line uses, and the numbers of the names if there are several, or of the name
/// that its IFDEF or IFUND tests. Fails only if memory runs out.
fn uses_of(alloc: Global, table: &mut Table, line: &Line) -> Result<(Uses, Vec<NameId>), AllocError>
    ensures keys { Extends table.old.keys table.new.keys }
    ensures symbols { table.new.symbols ≡ table.old.symbols }
    ensures before { table.new.before ≡ table.old.before }
    ensures are { IfOk result (λ used. AreNumbers table.new.keys
        (numbers_of used.0 used.1.items) (names_used (seen_line line.now))) }
{
    let mut numbers = Vec::new(alloc);
    let mut names = used_names(line);
    let Some(name) = names.next() else {
        if let Line::Read {
            body: Body::Ifdef(asked) | Body::Ifund(asked),
            ..
        } = line
        {
            let id = table.number(alloc, asked.get())?;
            numbers.push(id)?;
        }
        return Ok((Uses::Nothing, numbers));
    };
    if names.next().is_none() {
        let id = table.number(alloc, name)?;
        return Ok((Uses::One(id), numbers));
    }
    push_numbers(alloc, table, used_names(line), &mut numbers)?;
    Ok((Uses::Several, numbers))
}

/// The size of a statement at an address, with one more byte if `is_padded` is true and the
/// statement would end at an odd address.
pub(crate) fn padded_size(size: usize, is_padded: bool, here: usize) -> usize
    requires here { here ≤ MEMORY_BYTES }
    requires size { size < 2 ^ 64 - 1 }
    ensures { result ≡ size + (if is_padded && nat_eq ((here + size) % 2) 1 then 1 else 0) }
{
    if is_padded && (here + size % 2) % 2 == 1 {
        size + 1
    } else {
        size
    }
}

/// The facts about a line whose names have numbers.
#[derive(Drop)]
pub(crate) struct Numbered {
    pub(crate) info: LineInfo,
    /// The numbers of the names that the line uses, if it uses several, or of the name that its
    /// IFDEF or IFUND tests.
    pub(crate) several: Vec<NameId>,
}

impl LineInfo {
    /// The facts about a line that is blank or only a comment.
    pub(crate) const NOTHING: LineInfo = LineInfo {
        space: Space::Short,
        is_coded: false,
        is_steady: true,
        defines: None,
        uses: Uses::Nothing,
    };

    /// The facts about a line, whose names are given numbers. Fails only if memory runs out.
    pub(crate) fn of(alloc: Global, table: &mut Table, line: &Line) -> Result<Numbered, AllocError>
        ensures keys { Extends table.old.keys table.new.keys }
        ensures symbols { table.new.symbols ≡ table.old.symbols }
        ensures before { table.new.before ≡ table.old.before }
        ensures is { IfOk result (λ made. IsInfo table.new.keys made.info made.several.items
            (seen_line line.now)) }
    {
        let defines = number_defined(alloc, table, line)?;
        let (uses, several) = uses_of(alloc, table, line)?;
        let info = LineInfo {
            space: space_of(line),
            is_coded: has_code(line),
            is_steady: is_steady(line),
            defines,
            uses,
        };
        Ok(Numbered { info, several })
    }

    /// The size of a line at an address, active or not, and the name that the line then defines.
    /// None if the first pass needs more facts about the line, or if there is no room for it. If
    /// the line is active, also none if `short` is true and the line isn't short, or if `short` is
    /// false and the line isn't data.
    #[inline(always)]
    pub(crate) fn plain(
        self,
        active: bool,
        short: bool,
        aligning: bool,
        here: usize,
    ) -> Option<(usize, Option<NameId>)>
        requires { here ≤ MEMORY_BYTES }
        ensures is { (keys : List Name) (several : List NameId) (line : Reading)
            → IsInfo keys self several line
            → IfSome result (λ made. IsPlain keys active aligning here line made.0 made.1) }
        ensures fits { IfSome result (λ made. here + made.0 ≤ MEMORY_BYTES) }
        ensures short { short ≡ true
            → IfSome result (λ made. (made.0 ≡ 2 → ⊥) → made.0 ≡ 0) }
        ensures unpadded { (keys : List Name) (several : List NameId) (line : Reading)
            → IsInfo keys self several line → active ≡ true → short ≡ true
            → IfSome result (λ made. is_padded (body_of line) ≡ false) }
    {
        match self.space {
            Space::Asked => None,
            _ if !active => Some((0, None)),
            Space::Short if short && here <= MEMORY_BYTES - 2 => {
                Some((if self.is_coded { 2 } else { 0 }, self.defines))
            }
            Space::Data(size, is_padded) if !short => {
                let size = padded_size(size as usize, is_padded && aligning, here);
                if size > MEMORY_BYTES - here {
                    return None;
                }
                Some((size, self.defines))
            }
            _ => None,
        }
    }

    /// Whether two lines define the same name and take the same space, and the first pass needs nothing else about
    /// them. Replacing one by the other then changes only the line's bytes and its fault.
    pub(crate) fn is_alike(self, other: LineInfo) -> bool
        ensures { (keys : List Name) (few several : List NameId) (old new : Reading)
            → IsInfo keys self few old → IsInfo keys other several new → result ≡ true
            → AreAlike old new }
    {
        let is_same_space = match (self.space, other.space) {
            (Space::Short, Space::Short) => self.is_coded == other.is_coded,
            (Space::Data(one, padded), Space::Data(two, other_padded)) => {
                one == two && padded == other_padded
            }
            _ => false,
        };
        is_same_space && self.defines == other.defines
    }
}
