//! The places that execution reaches, line by line.

ghost use Rattle.std.specs.Prelude.{◌≡◌, ◌∷◌, ◌||◌, [], List, ℕ, Bool, Some, false, not, is_some};
ghost use Rattle.chip_warnings.specs.Instructions.{goes_elsewhere, may_skip};
ghost use Rattle.chip_warnings.specs.Reach.{base_before, comes_next, flow_after, reach_at, reach_past};
ghost use Rattle.chip_warnings.specs.Seen.{holds_of, is_draw};
ghost use Rattle.chip_warnings.specs.Warned.{draws_first, falls_into_data, has_warning, is_at_odd_address, is_not_in_profile, is_unreachable, jumps_to_data, splits_rows};
ghost use Rattle.chip_warnings.specs.inner.Noted.{marked_in};

use crate::asked::Asked;
use crate::coverage::is_never_at;
use crate::instruction::{
    goes_elsewhere, is_super_instruction, jumps_by_table, leads_to_one, may_skip,
};
use crate::marks::Marks;
use crate::seen::{Says, Seen};
use crate::warning::WarningCode;
use chip_lang::limits::IMAGE_START;
use chip_machine::Quirks;

/// Whether execution reaches a place.
#[derive(Clone, Copy)]
pub(crate) enum Reach {
    /// Execution reaches the place, from the instruction above or by a jump.
    Comes,
    /// The instruction above goes elsewhere, and no jump leads to the place.
    Never,
    /// The answer is unknown.
    Unsure,
}

/// The information about a line that comes from the lines above it.
#[derive(Clone, Copy)]
pub(crate) struct Flow {
    /// The last line with bytes.
    pub(crate) last: Option<Seen>,
    /// Whether a label or ORG follows the last line with bytes.
    begins: bool,
    /// Whether execution reaches the place after the last line with bytes.
    reach: Reach,
    /// Whether a line above draws a random byte.
    has_drawn: bool,
}

impl Flow {
    /// Returns the flow at the first line. The program begins at the start of the image.
    pub(crate) fn start() -> Flow
        ensures { (jumped : ℕ → Bool) → result ≡ flow_after jumped [] }
    {
        Flow {
            last: None,
            begins: false,
            reach: Reach::Comes,
            has_drawn: false,
        }
    }

    /// Returns the flow at the line after `seen`.
    pub(crate) fn after(&self, marks: &Marks, seen: &Seen) -> Flow
        ensures { (above : List Seen)
            → self.now ≡ flow_after (marked_in marks.now).jumped above
            → result ≡ flow_after (marked_in marks.now).jumped (seen.now ∷ above) }
    {
        match seen.says {
            Says::Nothing => Flow {
                last: self.last,
                begins: seen.begins || self.begins,
                reach: self.reach,
                has_drawn: self.has_drawn,
            },
            Says::Code { base, .. } => self.past(seen, self.reach_past(marks, seen, base)),
            _ => self.past(seen, Reach::Unsure),
        }
    }

    /// Returns the flow directly after a line with bytes.
    fn past(&self, seen: &Seen, reach: Reach) -> Flow
        ensures { result ≡ record {
          last = Some seen.now;
          begins = false;
          reach = reach;
          has_drawn = is_draw seen.now.says || self.now.has_drawn;
        } }
    {
        Flow {
            last: Some(*seen),
            begins: false,
            reach,
            has_drawn: seen.says.is_draw() || self.has_drawn,
        }
    }

    /// Whether execution reaches the place after an instruction.
    fn reach_past(&self, marks: &Marks, seen: &Seen, base: u16) -> Reach
        ensures { result ≡ reach_past
            (holds_of may_skip (base_before self.now.last seen.now.address)) base
            (reach_at (marked_in marks.now).jumped self.now seen.now) }
    {
        if !matches!(self.reach_at(marks, seen), Reach::Comes) {
            return Reach::Unsure;
        }
        let may_be_skipped = match self.base_before(seen.address) {
            Some(above) => may_skip(above),
            None => false,
        };
        if goes_elsewhere(base) && !may_be_skipped {
            Reach::Never
        } else if jumps_by_table(base) {
            Reach::Unsure
        } else {
            Reach::Comes
        }
    }

    /// Whether execution reaches an instruction.
    fn reach_at(&self, marks: &Marks, seen: &Seen) -> Reach
        ensures { result ≡ reach_at (marked_in marks.now).jumped self.now seen.now }
    {
        if seen.begins || self.begins || marks.is_jumped(seen.address) {
            Reach::Comes
        } else if self.comes_next(seen.address) {
            self.reach
        } else {
            Reach::Unsure
        }
    }

    /// Whether an address is two bytes after the start of the last line with bytes: the next address if that
    /// line is an instruction. If there is no such line, whether the address is the start of the image.
    fn comes_next(&self, address: usize) -> bool
        ensures { result ≡ comes_next self.now.last address }
    {
        match self.last {
            None => address == IMAGE_START,
            Some(last) => last.is_two_before(address),
        }
    }

    /// The word of the form of the instruction directly before an address, or `None` if no instruction is
    /// there.
    fn base_before(&self, address: usize) -> Option<u16>
        ensures { result ≡ base_before self.now.last address }
    {
        let last = self.last?;
        if last.is_two_before(address) {
            last.says.base()
        } else {
            None
        }
    }

    /// Whether a line has a warning of the kind `code`.
    pub(crate) fn has(
        &self,
        code: WarningCode,
        asked: &Asked<'_>,
        marks: &Marks,
        seen: &Seen,
    ) -> bool
        ensures { result ≡ has_warning asked.now (marked_in marks.now) self.now seen.now code }
    {
        match code {
            WarningCode::SplitRows => self.splits_rows(seen),
            WarningCode::UnusedName => seen.unused,
            WarningCode::Unreachable => self.is_unreachable(asked, marks, seen),
            WarningCode::FallsIntoData => self.falls_into_data(marks, seen),
            WarningCode::JumpsToData => data_line(marks, seen).is_some(),
            WarningCode::OddAddress => self.is_at_odd_address(seen),
            WarningCode::NotInProfile => is_not_in_profile(asked.quirks, seen),
            WarningCode::NeverExecuted => match asked.coverage {
                Some(coverage) => {
                    coverage.leaves_out(seen) && !self.is_unreachable(asked, marks, seen)
                }
                None => false,
            },
            WarningCode::AlwaysZero => self.draws_first(seen) && !asked.has_tape,
            WarningCode::Property(_) => false,
        }
    }

    /// Whether a line is an instruction that nothing reaches.
    fn is_unreachable(&self, asked: &Asked<'_>, marks: &Marks, seen: &Seen) -> bool
        ensures { result ≡ is_unreachable asked.now.reachable (marked_in marks.now) self.now seen.now }
    {
        seen.says.is_code()
            && matches!(self.reach_at(marks, seen), Reach::Never)
            && !marks.writes_code
            && match asked.reachable {
                Some(reachable) => is_never_at(reachable, seen.address),
                None => false,
            }
    }

    /// Whether a line is the first one that draws a random byte.
    fn draws_first(&self, seen: &Seen) -> bool
        ensures { result ≡ draws_first self.now seen.now }
    {
        seen.says.is_draw() && !self.has_drawn
    }

    /// Whether ALIGN puts a zero byte between the rows above and the rows of a line.
    fn splits_rows(&self, seen: &Seen) -> bool
        ensures { result ≡ splits_rows self.now seen.now }
    {
        if self.begins || seen.begins {
            return false;
        }
        match self.last {
            Some(last) => last.splits(seen),
            None => false,
        }
    }

    /// Whether execution runs from the instruction above into a line of data.
    fn falls_into_data(&self, marks: &Marks, seen: &Seen) -> bool
        ensures { result ≡ falls_into_data (marked_in marks.now) self.now seen.now }
    {
        seen.says.is_data()
            && matches!(self.reach, Reach::Comes)
            && self.is_run_past(seen.address)
            && !marks.writes_code
    }

    /// Whether an instruction that doesn't go elsewhere is directly before an address.
    fn is_run_past(&self, address: usize) -> bool
        ensures { result ≡ holds_of (λ instr. not (goes_elsewhere instr))
            (base_before self.now.last address) }
    {
        match self.base_before(address) {
            Some(base) => !goes_elsewhere(base),
            None => false,
        }
    }

    /// Whether a line is an instruction at an odd address, with no instruction directly before it.
    fn is_at_odd_address(&self, seen: &Seen) -> bool
        ensures { result ≡ is_at_odd_address self.now seen.now }
    {
        seen.says.is_code() && seen.address % 2 == 1 && self.base_before(seen.address).is_none()
    }
}

/// The number of the data line to which a JP or CALL leads. `None` if `seen` isn't a JP or CALL to data.
pub(crate) fn data_line(marks: &Marks, seen: &Seen) -> Option<usize>
    ensures { is_some result ≡ jumps_to_data (marked_in marks.now) seen.now }
{
    match seen.says.base() {
        Some(base) if leads_to_one(base) => marks.data_at(seen.says.target()),
        _ => None,
    }
}

/// Whether a line is an instruction that the machine doesn't have.
fn is_not_in_profile(quirks: Quirks, seen: &Seen) -> bool
    ensures { result ≡ is_not_in_profile quirks seen.now }
{
    if quirks.has_super_instructions {
        return false;
    }
    match seen.says.base() {
        Some(base) => is_super_instruction(base),
        None => false,
    }
}
