//! The first pass: one line after another.
ghost use Rattle.std.specs.Prelude.{ℕ, ◌≡◌, reverse, ◌+◌, ◌-◌, ◌≤◌, ◌<◌, ◌^◌, List, [], ◌∷◌, ◌++◌, IfSome, length, Option, None, Some, Ok, true, false, not, ◌&&◌, ◌||◌, if◌then◌else◌, option_to_list, vec_capacity};
ghost use Rattle.std.specs.List.{list_all};
ghost use Rattle.chip_asm.specs.declared.block.Block.{Block};
ghost use Rattle.chip_asm.specs.inner.Blocks.{AreNested};
ghost use Rattle.chip_asm.specs.inner.KeptLine.{IsKnownUnder};
ghost use Rattle.chip_symbols.specs.Tables.{KeepsBefore};
ghost use Rattle.chip_symbols.specs.Names.{Name, is_redefinition};
ghost use Rattle.chip_asm.specs.Layout.{value_at, full_size, body_of, condition_of, is_end_body, symbol_given};
ghost use Rattle.chip_asm.specs.computed.Walk.{fault_of_value};
ghost use Rattle.chip_lang.specs.SeenLine.{seen_line, seen_body};
ghost use Rattle.chip_lang.specs.Line.{Reading, empty as empty_body};
ghost use Rattle.chip_lang.specs.Uses.{name_defined};
ghost use Rattle.chip_asm.specs.declared.limits.TheConstants.{MOST_LINES};
ghost use Rattle.chip_lang.specs.declared.limits.TheConstants.{MEMORY_BYTES};

use crate::block::{Block, all_hold, move_blocks};
use crate::codes::{copy_code, move_line};
use crate::kept_line::BoxedLine;
use crate::layout::Tally;
use crate::line_info::{is_data, padded_size, size_of_body};
use crate::placement::{Placement, Status};
use chip_lang::limits::MEMORY_BYTES;
use chip_lang::{Body, Fault, Line, Names, eval};
use chip_symbols::{NameId, Scope, Symbol, Table};

/// The state of the pass between two lines.
#[derive(Drop)]
pub(crate) struct Pass {
    pub(crate) here: usize,
    pub(crate) aligning: bool,
    pub(crate) ended: bool,
    /// Whether the next line is active, if it is neither ELSE nor ENDIF.
    pub(crate) active: bool,
    pub(crate) blocks: Vec<Block>,
    pub(crate) names: Table,
    ghost within: { here ≤ MEMORY_BYTES },
}

/// The statement of a line; for an unreadable line, the empty statement, which the caller passes.
fn body_or<'a>(line: &'a Line, empty: &'a Body) -> &'a Body
    requires { seen_body empty.now ≡ empty_body }
    ensures { seen_body result.now ≡ body_of (seen_line line.now) }
{
    match line {
        Line::Bad(_) => empty,
        Line::Read { body, .. } => body,
    }
}

impl Pass {
    ghost use Rattle.chip_asm.specs.Layout.{Placed, has_ended};
    ghost use Rattle.chip_asm.specs.computed.Walk.{address, is_aligning, enclosing, is_active, is_misplaced, first_fault, symbols, place, placed};
    ghost use Rattle.chip_asm.specs.inner.Infos.{IsNumberOf};
    ghost use Rattle.chip_asm.specs.declared.placement.Status.TheVariants.{Pending};
    ghost use Rattle.chip_asm.specs.inner.Placements.{found, is_accepted, Follows, placement_of, next_address, next_aligning};
    ghost use Rattle.chip_asm.specs.inner.Passes.{Change, HasRoom, IsUnderWay};

    /// The pass at an address, after lines that define these names and leave no block open. The
    /// list of blocks is emptied, and its room is reused.
    pub(crate) fn resume(here: usize, names: Table, blocks: Vec<Block>) -> Self
        ensures follows { (before : List Placed) → here ≡ address before → here ≤ MEMORY_BYTES
            → is_aligning before ≡ true → has_ended before ≡ false → enclosing before ≡ []
            → names.symbols ≡ symbols before → Follows result before }
        ensures names { result.names ≡ names }
        ensures room { (left : ℕ) → left ≤ vec_capacity blocks
            → length names.symbols + left ≤ names.room → HasRoom result left }
    {
        let mut blocks = blocks;
        blocks.clear();
        Pass {
            here: here.min(MEMORY_BYTES),
            aligning: true,
            ended: false,
            active: true,
            blocks,
            names,
        }
    }

    #[tactic(auto, unfolding(crate::specs::computed::Walk::is_active))]
    fn is_active(&self, body: &Body) -> bool
        ensures { (before : List Placed) → Follows self.now before
            → result ≡ is_active before (seen_body body.now) }
    {
        if self.ended {
            return false;
        }
        match body {
            Body::Else | Body::Endif => match self.blocks.last() {
                Some(block) => block.active,
                None => true,
            },
            _ => self.active,
        }
    }

    fn is_misplaced(&self, body: &Body) -> bool
        ensures { (before : List Placed) → Follows self.now before
            → result ≡ is_misplaced before (seen_body body.now) }
    {
        match body {
            Body::Else => match self.blocks.last() {
                Some(block) => block.has_else,
                None => true,
            },
            Body::Endif => self.blocks.is_empty(),
            _ => false,
        }
    }

    /// The value of the expression of an EQU, ORG or DS line under the names so far, or the fault
    /// of that expression; 0 for any other line. `known` is the value if the caller knows it.
    #[tactic(auto, unfolding(crate::specs::Layout::value_at))]
    fn value_at(&self, known: Option<i32>, body: &Body, numbers: &[NameId]) -> Result<i32, Fault>
        requires { IfSome known (λ value. value_at self.now.names.symbols (seen_body body.now) ≡ Ok value) }
        ensures { result ≡ value_at self.now.names.symbols (seen_body body.now) }
    {
        if let Some(value) = known {
            return Ok(value);
        }
        match body {
            Body::Equ(expr) | Body::Org(expr) | Body::Ds(expr) => {
                eval(expr, &Scope::new(&self.names, numbers))
            }
            _ => Ok(0),
        }
    }

    /// Whether the name with this number, if a number is given, already has a symbol.
    fn is_redefinition(&self, defines: Option<NameId>) -> bool
        requires { IfSome defines (λ id. id.number < length self.now.names.keys) }
        ensures { (name : Option Name) → IsNumberOf self.now.names.keys defines name
            → result ≡ is_redefinition self.now.names.symbols name }
    {
        match defines {
            Some(id) => self.names.is_defined(id),
            None => false,
        }
    }

    fn full_size(&self, body: &Body, value: i32) -> usize
        ensures size { result
            ≡ full_size self.now.aligning self.now.here (seen_body body.now) value }
        ensures bound { result < 2 ^ 64 }
    {
        padded_size(
            size_of_body(body, value),
            self.aligning && is_data(body),
            self.here,
        )
    }

    #[tactic(auto, unfolding(crate::specs::computed::Walk::fault_of_value))]
    fn fault_of_value(&self, body: &Body, value: Result<i32, Fault>) -> Option<Fault>
        ensures { result
            ≡ fault_of_value self.now.aligning self.now.here (seen_body body.now) value }
    {
        let value = match value {
            Ok(value) => value,
            Err(fault) => return Some(fault),
        };
        match body {
            Body::Ds(_) if value < 0 => Some(Fault::OutOfRange),
            Body::Org(_) if value < self.here as i32 => Some(Fault::OrgBelowHere),
            Body::Org(_) if value > MEMORY_BYTES as i32 => Some(Fault::PastMemory),
            Body::Org(_) => None,
            _ if self.full_size(body, value) > MEMORY_BYTES - self.here => Some(Fault::PastMemory),
            _ => None,
        }
    }

    /// The first fault of the line if it is active, except the fault of an IF without ENDIF.
    #[tactic(auto, unfolding(crate::specs::computed::Walk::first_fault))]
    fn fault_of(
        &self,
        active: bool,
        line: &Line,
        defines: Option<NameId>,
        value: Result<i32, Fault>,
    ) -> Option<Fault>
        requires { IsNumberOf self.now.names.keys defines (name_defined (seen_line line.now)) }
        ensures fault { (before : List Placed) → Follows self.now before
            → value ≡ value_at (symbols before) (body_of (seen_line line.now))
            → result ≡ (if active then first_fault before (seen_line line.now) else None) }
        ensures new_name { active ≡ true → result ≡ None
            → is_redefinition self.now.names.symbols (name_defined (seen_line line.now)) ≡ false }
        ensures fits { active ≡ true → result ≡ None
            → fault_of_value self.now.aligning self.now.here (body_of (seen_line line.now)) value
            ≡ None }
    {
        match line {
            _ if !active => None,
            Line::Bad(fault) => Some(*fault),
            Line::Read { body, .. } => {
                if self.is_misplaced(body) {
                    Some(Fault::StrayBranch)
                } else if self.is_redefinition(defines) {
                    Some(Fault::DefinedTwice)
                } else {
                    self.fault_of_value(body, value)
                }
            }
        }
    }

    /// The size of the line if it is accepted, or else 0.
    #[tactic(auto, unfolding(crate::specs::computed::Walk::fault_of_value))]
    fn size_of(&self, accepted: bool, body: &Body, value: i32) -> usize
        requires { accepted ≡ true
            → fault_of_value self.now.aligning self.now.here (seen_body body.now) (Ok value)
            ≡ None }
        ensures bound { result ≤ MEMORY_BYTES }
        ensures size { result
            ≡ (if accepted then full_size self.now.aligning self.now.here (seen_body body.now) value
            else 0) }
    {
        if accepted {
            self.full_size(body, value)
        } else {
            0
        }
    }

    /// The placement of the next line. `known` is the value of its expression if the caller knows it.
    fn place(
        &self,
        known: Option<i32>,
        line: &Line,
        defines: Option<NameId>,
        numbers: &[NameId],
    ) -> Placement
        requires known { IsKnownUnder self.now.names.symbols known (seen_line line.now) }
        requires defines { IsNumberOf self.now.names.keys defines
            (name_defined (seen_line line.now)) }
        ensures placed { (before : List Placed) → Follows self.now before
            → found result ≡ placement_of (place before (seen_line line.now)) }
        ensures new_name { is_accepted result.status ≡ true
            → is_redefinition self.now.names.symbols (name_defined (seen_line line.now)) ≡ false }
        ensures fits { is_accepted result.status ≡ true
            → fault_of_value self.now.aligning self.now.here (body_of (seen_line line.now))
            (Ok result.value) ≡ None }
        ensures size { result.size
            ≡ (if is_accepted result.status
            then full_size self.now.aligning self.now.here
            (body_of (seen_line line.now)) result.value
            else 0) }
        ensures pending { is_accepted result.status ≡ true → result.status ≡ Pending }
    {
        let empty = Body::Empty;
        let body = body_or(line, &empty);
        let active = self.is_active(body);
        let read = self.value_at(known, body, numbers);
        let value = read.unwrap_or(0);
        let fault = self.fault_of(active, line, defines, read);
        let status = Status::first(active, fault);
        let size = self.size_of(status.is_accepted(), body, value);
        Placement {
            value,
            here: self.here as u16,
            size: size as u16,
            status,
        }
    }

    /// Runs the pass over the line at a place and returns its placement; an accepted line still has to be encoded.
    /// `known` is the value of the line's expression if the caller knows it. Otherwise the pass is fastest if `numbers`
    /// contains the numbers of the names that the line uses or tests.
    #[inline(never)]
    pub(crate) fn step(
        &mut self,
        at: usize,
        known: Option<i32>,
        line: &Line,
        defines: Option<NameId>,
        numbers: &[NameId],
    ) -> Placement
        requires within { at < MOST_LINES }
        requires known { IsKnownUnder self.old.names.symbols known (seen_line line.now) }
        requires defines { IsNumberOf self.old.names.keys defines
            (name_defined (seen_line line.now)) }
        requires room { HasRoom self.old 1 }
        ensures keeps { KeepsBefore self.old.names self.new.names }
        ensures room { (left : ℕ) → HasRoom self.old (left + 1) → HasRoom self.new left }
        ensures found { (before : List Placed) → Follows self.old before
            → found result ≡ placement_of (place before (seen_line line.now)) }
        ensures passed { (lines : List Reading) → Follows self.old (placed lines)
            → at ≡ length lines
            → Follows self.new (placed (lines ++ seen_line line.now ∷ [])) }
        ensures pending { is_accepted result.status ≡ true → result.status ≡ Pending }
    {
        let empty = Body::Empty;
        let body = body_or(line, &empty);
        let placement = self.place(known, line, defines, numbers);
        let (active, accepted) = (placement.is_active(), placement.status.is_accepted());
        let number = at + 1;
        let opened = Block {
            number,
            active,
            holds: self.condition(body, numbers),
            has_else: false,
        };
        self.define(accepted, number, line, defines, placement.value);
        move_blocks(&mut self.blocks, body, opened);
        let size = placement.size as usize;
        self.advance(body, active, accepted, placement.value, size);
        self.note_active();
        placement
    }

    /// Records whether the next line is active, if it is neither ELSE nor ENDIF.
    fn note_active(&mut self)
        ensures active { (nearest : List Block) → self.new.blocks.items ≡ reverse nearest
            → (self.new.ended ≡ false → AreNested nearest)
            → self.new.active ≡ (not self.new.ended && list_all (λ b. b.holds) self.new.blocks.items) }
        ensures rest { self.new ≡ record self.old { active = self.new.active } }
    {
        self.active = !self.ended && all_hold(&self.blocks);
    }

    /// Places lines from `first` on until one needs more than its size and its name (EQU, ORG, DS,
    /// IF ..), has a fault or has no room, and returns the place after the last line placed. If a
    /// line was accepted and still is, its code is copied from the image before the edit. If a line
    /// is accepted now but wasn't before, it waits for its code.
    #[inline(never)]
    pub(crate) fn run(
        &mut self,
        lines: &[BoxedLine],
        placements: &mut [Placement],
        tally: &mut Tally,
        from: &[u8],
        image: &mut [u8],
        first: usize,
    ) -> usize
        requires { (e : Change) × IsUnderWay e lines.now self.old placements.old tally.old from.now
            image.old first }
        ensures after { first ≤ result }
        ensures within { result ≤ length lines.now }
        ensures under_way { (e : Change)
            → IsUnderWay e lines.now self.old placements.old tally.old from.now image.old first
            → IsUnderWay e lines.now self.new placements.new tally.new from.now image.new result }
    {
        if !self.active {
            return self.run_as(false, false, lines, placements, tally, from, image, first);
        }
        let mut place = first;
        loop {
            let next = self.run_as(true, true, lines, placements, tally, from, image, place);
            place = self.run_as(true, false, lines, placements, tally, from, image, next);
            if place == next {
                return place;
            }
        }
    }

    /// Places lines as `run` does, but only inactive lines, only short lines or only data. Each of
    /// these three kinds has its own loop.
    #[inline(always)]
    fn run_as(
        &mut self,
        active: bool,
        short: bool,
        lines: &[BoxedLine],
        placements: &mut [Placement],
        tally: &mut Tally,
        from: &[u8],
        image: &mut [u8],
        first: usize,
    ) -> usize
        requires active { active ≡ self.old.active }
        requires under_way { (e : Change) × IsUnderWay e lines.now self.old placements.old tally.old
            from.now image.old first }
        ensures after { first ≤ result }
        ensures within { result ≤ length lines.now }
        ensures active { self.new.active ≡ active }
        ensures under_way { (e : Change)
            → IsUnderWay e lines.now self.old placements.old tally.old from.now image.old first
            → IsUnderWay e lines.now self.new placements.new tally.new from.now image.new result }
    {
        let mut here = self.here;
        let mut place = first;
        while place < lines.len() {
            let info = lines[place].info();
            let Some((size, defines)) = info.plain(active, short, self.aligning, here) else {
                break;
            };
            let symbol = Symbol {
                value: here as i32,
                line: place + 1,
            };
            if !self.names.define_new(defines, symbol) {
                break;
            }
            let was = placements[place];
            if active && was.status.is_accepted() {
                let now = &mut placements[place];
                here = move_line(now, short, here, size, from, image);
            } else {
                let new = Placement {
                    value: 0,
                    here: here as u16,
                    size: size as u16,
                    status: Status::bare(active, info.is_coded),
                };
                tally.put(placements, place, new);
                here += size;
            }
            place += 1;
        }
        self.here = here;
        place
    }

    /// Whether the condition of an IF line holds; false for any other line.
    fn condition(&self, body: &Body, numbers: &[NameId]) -> bool
        ensures { result ≡ condition_of self.now.names.symbols (seen_body body.now) }
    {
        let names = Scope::new(&self.names, numbers);
        match body {
            Body::Ifdef(name) => names.value(name.get()).is_some(),
            Body::Ifund(name) => names.value(name.get()).is_none(),
            _ => false,
        }
    }

    /// Adds the symbol of the name that a line defines, if the line is accepted.
    fn define(
        &mut self,
        accepted: bool,
        number: usize,
        line: &Line,
        defines: Option<NameId>,
        value: i32,
    )
        requires defines { IsNumberOf self.old.names.keys defines
            (name_defined (seen_line line.now)) }
        requires new { accepted ≡ true
            → is_redefinition self.old.names.symbols (name_defined (seen_line line.now)) ≡ false }
        requires room { length self.old.names.symbols < self.old.names.room }
        ensures names { self.new.names.symbols
            ≡ self.old.names.symbols ++ option_to_list (if accepted
            then symbol_given number self.old.here value (seen_line line.now)
            else None) }
        ensures keeps { KeepsBefore self.old.names self.new.names }
        ensures rest { self.new ≡ record self.old { names = self.new.names } }
    {
        let Some(id) = defines else {
            return;
        };
        if !accepted {
            return;
        }
        let empty = Body::Empty;
        let value = match body_or(line, &empty) {
            Body::Equ(_) => value,
            Body::Define => 0,
            _ => self.here as i32,
        };
        self.names.define(
            id,
            Symbol {
                value,
                line: number,
            },
        );
    }

    /// Advances past a line of this size.
    #[tactic(auto, unfolding(crate::specs::computed::Walk::fault_of_value))]
    fn advance(&mut self, body: &Body, active: bool, accepted: bool, value: i32, size: usize)
        requires fits { accepted ≡ true
            → fault_of_value self.old.aligning self.old.here (seen_body body.now) (Ok value)
            ≡ None }
        requires size { size
            ≡ (if accepted then full_size self.old.aligning self.old.here (seen_body body.now) value
            else 0) }
        ensures here { self.new.here
            ≡ next_address accepted self.old.here (seen_body body.now) value size }
        ensures aligning { self.new.aligning
            ≡ next_aligning accepted self.old.aligning (seen_body body.now) }
        ensures ended { self.new.ended
            ≡ ((active && is_end_body (seen_body body.now)) || self.old.ended) }
        ensures blocks { self.new.blocks ≡ self.old.blocks }
        ensures names { self.new.names ≡ self.old.names }
    {
        match body {
            Body::Org(_) => {
                if accepted {
                    self.here = value.unsigned_abs() as usize;
                }
            }
            Body::Align(on) => {
                if accepted {
                    self.aligning = *on;
                }
            }
            Body::End => self.ended = self.ended || active,
            _ => self.here += size,
        }
    }
}
