//! Quirks, the ways in which CHIP-8 machines differ.

ghost use Rattle.std.specs.Prelude.{◌≡◌, ◌<◌, IsTrue, map, option_copied};
ghost use Rattle.chip_machine.specs.QuirkList.{choice_named, choices_asked, first_named, has_choice, number_of, with_choice, with_choices, with_quirk};
ghost use Rattle.chip_machine.specs.inner.FirstPart.{IsFirstPart};

use memchr::memchr;

/// The value that `FX55` and `FX65` leave in I.
#[derive(Clone, Copy, PartialEq, Eq)]
pub enum IndexMove {
    /// I is unchanged.
    Stays,
    /// I is the address of the last register's byte, I + x.
    AtLast,
    /// I is the address after that byte, I + x + 1.
    PastLast,
}

/// The sprite that `DXY0` draws in the low size.
#[derive(Clone, Copy, PartialEq, Eq)]
pub enum LowSixteen {
    /// No pixel.
    Nothing,
    /// Sixteen rows of 8 pixels.
    Narrow,
    /// Sixteen rows of 16 pixels.
    Wide,
}

/// The ways in which CHIP-8 machines differ. Each field chooses between effects of the instructions
/// that its comment names.
#[derive(Clone, Copy, PartialEq, Eq)]
pub struct Quirks {
    /// `8XY6` and `8XYE` shift Vy and put the result into Vx, instead of shifting Vx.
    pub shifts_second: bool,
    /// `FX55` and `FX65` leave I unchanged, at I + x, or at I + x + 1.
    pub index_move: IndexMove,
    /// `BNNN` adds V0, instead of the register that the address's top digit names.
    pub jumps_by_first: bool,
    /// `8XY1`, `8XY2` and `8XY3` set VF to 0, instead of leaving it unchanged.
    pub clears_flag: bool,
    /// `DXYN` wraps anything past an edge to the opposite side, instead of clipping it.
    pub wraps: bool,
    /// `DXY0` in the low size draws nothing, sixteen rows of 8 pixels, or sixteen rows of 16 pixels.
    pub low_sixteen: LowSixteen,
    /// `00CN`, `00FB` and `00FC` in the low size scroll by pixels of that size, instead of stored pixels.
    pub scrolls_whole: bool,
    /// `00FE` and `00FF` make all pixels dark, instead of leaving them unchanged.
    pub clears_at_size: bool,
    /// `FX1E` sets VF to 1 if I + Vx is above `0FFF` and otherwise to 0, instead of leaving VF unchanged.
    pub flags_overflow: bool,
    /// `00CN`, `00FB` to `00FF`, `FX30`, `FX75` and `FX85` are instructions, as on a SUPER-CHIP.
    pub has_super_instructions: bool,
}

/// A value chosen for one quirk.
#[derive(Clone, Copy, PartialEq, Eq)]
pub enum Choice {
    ShiftsSecond(bool),
    IndexMove(IndexMove),
    JumpsByFirst(bool),
    ClearsFlag(bool),
    Wraps(bool),
    LowSixteen(LowSixteen),
    ScrollsWhole(bool),
    ClearsAtSize(bool),
    FlagsOverflow(bool),
    HasSuperInstructions(bool),
}

/// The choices, each with the name that users write.
pub const CHOICES: [(&str, Choice); 22] = [
    ("shift=vx", Choice::ShiftsSecond(false)),
    ("shift=vy", Choice::ShiftsSecond(true)),
    ("memory=keep", Choice::IndexMove(IndexMove::Stays)),
    ("memory=x", Choice::IndexMove(IndexMove::AtLast)),
    ("memory=x+1", Choice::IndexMove(IndexMove::PastLast)),
    ("jump=vx", Choice::JumpsByFirst(false)),
    ("jump=v0", Choice::JumpsByFirst(true)),
    ("logic=keep", Choice::ClearsFlag(false)),
    ("logic=clear", Choice::ClearsFlag(true)),
    ("edges=clip", Choice::Wraps(false)),
    ("edges=wrap", Choice::Wraps(true)),
    ("dxy0=none", Choice::LowSixteen(LowSixteen::Nothing)),
    ("dxy0=8x16", Choice::LowSixteen(LowSixteen::Narrow)),
    ("dxy0=16x16", Choice::LowSixteen(LowSixteen::Wide)),
    ("scroll=stored", Choice::ScrollsWhole(false)),
    ("scroll=whole", Choice::ScrollsWhole(true)),
    ("size=keep", Choice::ClearsAtSize(false)),
    ("size=clear", Choice::ClearsAtSize(true)),
    ("fx1e=keep", Choice::FlagsOverflow(false)),
    ("fx1e=flag", Choice::FlagsOverflow(true)),
    ("instructions=super", Choice::HasSuperInstructions(true)),
    ("instructions=base", Choice::HasSuperInstructions(false)),
];

/// The quirks, each with its values, as help and messages list them.
pub const QUIRKS: [&str; 10] = [
    "shift=vx|vy",
    "memory=keep|x|x+1",
    "jump=vx|v0",
    "logic=keep|clear",
    "edges=clip|wrap",
    "dxy0=none|8x16|16x16",
    "scroll=stored|whole",
    "size=keep|clear",
    "fx1e=keep|flag",
    "instructions=super|base",
];

/// Quirks, and a mask of the quirks that were chosen, with quirk k at bit k.
#[derive(Clone, Copy)]
pub struct Chosen {
    pub quirks: Quirks,
    pub taken: u16,
}

impl Choice {
    /// The choice with a name such as `shift=vy`, or `None` if no choice has that name.
    fn from_name(name: &[u8]) -> Option<Choice>
        ensures { result ≡ choice_named name.now }
    {
        first_named(&CHOICES, name)
    }

    /// The number of the quirk that this choice sets, 0 to 9.
    fn number(self) -> u32
        ensures value { result ≡ number_of self }
        ensures few { result < 10 }
    {
        match self {
            Choice::ShiftsSecond(_) => 0,
            Choice::IndexMove(_) => 1,
            Choice::JumpsByFirst(_) => 2,
            Choice::ClearsFlag(_) => 3,
            Choice::Wraps(_) => 4,
            Choice::LowSixteen(_) => 5,
            Choice::ScrollsWhole(_) => 6,
            Choice::ClearsAtSize(_) => 7,
            Choice::FlagsOverflow(_) => 8,
            Choice::HasSuperInstructions(_) => 9,
        }
    }

    /// The given quirks with this choice applied.
    fn put_in(self, quirks: Quirks) -> Quirks
        ensures { result ≡ with_quirk self quirks }
    {
        let mut changed = quirks;
        match self {
            Choice::ShiftsSecond(value) => changed.shifts_second = value,
            Choice::IndexMove(value) => changed.index_move = value,
            Choice::JumpsByFirst(value) => changed.jumps_by_first = value,
            Choice::ClearsFlag(value) => changed.clears_flag = value,
            Choice::Wraps(value) => changed.wraps = value,
            Choice::LowSixteen(value) => changed.low_sixteen = value,
            Choice::ScrollsWhole(value) => changed.scrolls_whole = value,
            Choice::ClearsAtSize(value) => changed.clears_at_size = value,
            Choice::FlagsOverflow(value) => changed.flags_overflow = value,
            Choice::HasSuperInstructions(value) => changed.has_super_instructions = value,
        }
        changed
    }
}

impl Quirks {
    /// The quirks of the profile `schip`.
    pub const SCHIP: Quirks = Quirks {
        shifts_second: false,
        index_move: IndexMove::Stays,
        jumps_by_first: false,
        clears_flag: false,
        wraps: false,
        low_sixteen: LowSixteen::Narrow,
        scrolls_whole: false,
        clears_at_size: false,
        flags_overflow: false,
        has_super_instructions: true,
    };

    /// True only if `other` contains the same quirks.
    pub(crate) fn is_same(self, other: Quirks) -> bool
        ensures { IsTrue result → self ≡ other }
    {
        self == other
    }

    /// Whether these quirks include a choice.
    pub fn has(self, choice: Choice) -> bool
        ensures { result ≡ has_choice self choice }
    {
        match choice {
            Choice::ShiftsSecond(value) => self.shifts_second == value,
            Choice::IndexMove(value) => self.index_move == value,
            Choice::JumpsByFirst(value) => self.jumps_by_first == value,
            Choice::ClearsFlag(value) => self.clears_flag == value,
            Choice::Wraps(value) => self.wraps == value,
            Choice::LowSixteen(value) => self.low_sixteen == value,
            Choice::ScrollsWhole(value) => self.scrolls_whole == value,
            Choice::ClearsAtSize(value) => self.clears_at_size == value,
            Choice::FlagsOverflow(value) => self.flags_overflow == value,
            Choice::HasSuperInstructions(value) => self.has_super_instructions == value,
        }
    }

    /// These quirks with the choices of a list applied, if a list is given; `None` if the list is invalid.
    pub fn asked(self, list: Option<&str>) -> Option<Quirks>
        ensures { result ≡ choices_asked (option_copied list.entry) self }
    {
        match list {
            Some(list) => self.with_choices(list.as_bytes()),
            None => Some(self),
        }
    }

    /// These quirks with the choices of a comma-separated list applied; `None` if an item is not a choice,
    /// or if a quirk is chosen twice.
    pub fn with_choices(self, list: &[u8]) -> Option<Quirks>
        ensures { result ≡ with_choices list.now self }
    {
        let mut chosen = Some(Chosen {
            quirks: self,
            taken: 0,
        });
        let mut rest = list;
        loop {
            let (part, more) = first_part(rest);
            chosen = with_choice(chosen, Choice::from_name(part));
            match more {
                Some(next) => rest = next,
                None => return Some(chosen?.quirks),
            }
        }
    }
}

/// The first choice in a list that has this name.
fn first_named(choices: &[(&str, Choice)], name: &[u8]) -> Option<Choice>
    ensures { result ≡ first_named name.now (map (λ c. (c.0.now, c.1)) choices.now) }
{
    for i in 0..choices.len() {
        let choice = &choices[i];
        if choice.0.as_bytes() == name {
            return Some(choice.1);
        }
    }
    None
}

/// The part before the first comma, and the rest after that comma if there is one.
fn first_part(text: &[u8]) -> (&[u8], Option<&[u8]>)
    ensures { IsFirstPart text.now result.0.now (option_copied result.1) }
{
    match memchr(b',', text) {
        Some(place) => (&text[..place], Some(&text[place + 1..])),
        None => (text, None),
    }
}

/// The quirks with one more choice; `None` if there is no choice or its quirk was already chosen.
fn with_choice(chosen: Option<Chosen>, choice: Option<Choice>) -> Option<Chosen>
    ensures { result ≡ with_choice chosen choice }
{
    match (chosen, choice) {
        (Some(chosen), Some(choice)) if chosen.taken >> choice.number() & 1 != 1 => Some(Chosen {
            quirks: choice.put_in(chosen.quirks),
            taken: chosen.taken | 1 << choice.number(),
        }),
        _ => None,
    }
}
