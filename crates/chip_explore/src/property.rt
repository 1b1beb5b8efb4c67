//! Properties of a machine's state, which an author states about a game.

ghost use Rattle.std.specs.Prelude.{◌≡◌, ◌<◌, ◌*◌, ◌^◌};
ghost use Rattle.std.specs.List.{list_all, list_any};
ghost use Rattle.chip_machine.specs.Forgotten.{next_instr};
ghost use Rattle.chip_machine.specs.Points as spec;
ghost use Rattle.chip_explore.specs.Property as property;
ghost use Rattle.chip_explore.specs.Property.{compares, holds_in, is_at, is_met, is_related, stored, sum_in, value_in};

use crate::ways::next_instr;
use chip_lang::instr::Instr;
use chip_lang::number::Reg;
use chip_machine::{Forgotten, Machine};

/// A value of a state that a property may name.
#[derive(Clone, Copy, PartialEq, Eq)]
pub enum Item {
    /// A register.
    Register(Reg),
    /// The register I.
    Index,
    /// The program counter, pc.
    Place,
    /// The delay timer.
    Delay,
    /// The number of open calls.
    Depth,
    /// 1 if the screen has its high size, otherwise 0.
    High,
    /// 1 if the next instruction is SKP, SKNP or LD Vx, K, otherwise 0.
    AsksKeys,
    /// The byte at an address, or 0 past the end of the memory.
    Byte(u16),
    /// 1 if the pixel at a column and a row is lit, otherwise 0. Columns and rows are counted in
    /// pixels of the screen's current size.
    Pixel { x: u8, y: u8 },
}

/// An item with its factor.
#[derive(Clone, Copy, PartialEq, Eq)]
pub struct Term {
    pub factor: u32,
    pub item: Item,
}

/// A number and some terms, added without bound.
#[derive(Drop)]
pub struct Sum {
    pub constant: u32,
    pub terms: Vec<Term>,
}

/// How the left side of a comparison has to be related to the right side.
#[derive(Clone, Copy, PartialEq, Eq)]
pub enum Relation {
    Equal,
    Unequal,
    Less,
    LessOrEqual,
    Greater,
    GreaterOrEqual,
}

/// Two sums that are compared.
#[derive(Drop)]
pub struct Comparison {
    pub left: Sum,
    pub relation: Relation,
    pub right: Sum,
}

/// A list of comparisons. Either all of them or at least one must hold.
#[derive(Drop)]
pub struct Condition {
    /// Whether all comparisons must hold, as they do in an empty list; otherwise at least one must hold.
    pub is_all: bool,
    pub comparisons: Vec<Comparison>,
}

/// A kind of state to look for: the machine makes a step, at `place` if it is given, and the
/// condition holds or fails, as `wanted` states.
#[derive(Drop)]
pub struct Property {
    pub condition: Condition,
    /// The address at which the property is evaluated, or `None` to evaluate it before each step.
    pub place: Option<u16>,
    /// Whether the condition has to hold; otherwise it has to fail.
    pub wanted: bool,
}

impl Item {
    /// Returns the value of the item in a machine's state.
    fn value(self, machine: &Machine) -> u16
        ensures { result ≡ value_in machine.now self }
    {
        match self {
            Item::Register(x) => u16::from(machine.reg(x)),
            Item::Index => machine.index(),
            Item::Place => machine.pc(),
            Item::Delay => u16::from(machine.delay()),
            Item::Depth => machine.frames().len() as u16,
            Item::High => u16::from(machine.high()),
            Item::AsksKeys => u16::from(asks_keys(machine)),
            Item::Byte(at) => u16::from(machine.byte_at(at).unwrap_or(0)),
            Item::Pixel { x, y } => u16::from(is_lit(machine, x, y)),
        }
    }

    /// Returns the forgotten parts that the item names, for a machine at `pc`.
    fn named(self, forgotten: Forgotten, pc: u16) -> Forgotten {
        let named = match self {
            Item::Register(x) => Forgotten::register(x),
            Item::Index => Forgotten::index(),
            Item::Pixel { .. } => Forgotten::screen(),
            Item::Byte(at) => Forgotten::bytes(at, 1),
            Item::AsksKeys => Forgotten::bytes(pc, 2),
            Item::Place | Item::Delay | Item::Depth | Item::High => Forgotten::nothing(),
        };
        forgotten.shared_with(named)
    }
}

/// Whether the next instruction of a machine is SKP, SKNP or LD Vx, K.
fn asks_keys(machine: &Machine) -> bool
    ensures { result ≡ property.asks_keys (next_instr machine.now) }
{
    matches!(
        next_instr(machine),
        Some(Instr::SkipIfKey(_) | Instr::SkipUnlessKey(_) | Instr::WaitKey(_))
    )
}

/// Whether the pixel at a column and a row is lit. Columns and rows are counted in pixels of the screen's current size.
fn is_lit(machine: &Machine, x: u8, y: u8) -> bool
    ensures { result ≡ (spec.is_lit machine.now.core.lit (stored machine.now.core.high x)
        (stored machine.now.core.high y)) }
{
    if machine.high() {
        machine.lit(usize::from(x), usize::from(y))
    } else {
        machine.lit(2 * usize::from(x), 2 * usize::from(y))
    }
}

impl Term {
    fn value(self, machine: &Machine) -> u64
        ensures value { result ≡ self.factor * value_in machine.now self.item }
        ensures small { result < 2 ^ 48 }
    {
        u64::from(self.factor) * u64::from(self.item.value(machine))
    }
}

impl Sum {
    fn value(&self, machine: &Machine) -> u128
        ensures { result ≡ sum_in machine.now self.now }
    {
        let mut sum = u128::from(self.constant);
        for term in &self.terms {
            sum += u128::from(term.value(machine));
        }
        sum
    }

    fn names_delay(&self) -> bool {
        self.terms.iter().any(|term| term.item == Item::Delay)
    }

    fn named(&self, forgotten: Forgotten, pc: u16) -> Forgotten {
        let mut named = Forgotten::nothing();
        for term in &self.terms {
            named = named.with(term.item.named(forgotten, pc));
        }
        named
    }
}

impl Relation {
    /// Whether two numbers are related in this way.
    fn relates(self, left: u128, right: u128) -> bool
        ensures { result ≡ is_related self left right }
    {
        match self {
            Relation::Equal => left == right,
            Relation::Unequal => left != right,
            Relation::Less => left < right,
            Relation::LessOrEqual => left <= right,
            Relation::Greater => left > right,
            Relation::GreaterOrEqual => left >= right,
        }
    }
}

impl Comparison {
    fn holds(&self, machine: &Machine) -> bool
        ensures { result ≡ compares machine.now self.now }
    {
        let left = self.left.value(machine);
        let right = self.right.value(machine);
        self.relation.relates(left, right)
    }
}

impl Condition {
    fn holds(&self, machine: &Machine) -> bool
        ensures { result ≡ holds_in machine.now self.now }
    {
        if self.is_all {
            self.all_hold(machine)
        } else {
            self.any_holds(machine)
        }
    }

    fn all_hold(&self, machine: &Machine) -> bool
        ensures { result ≡ list_all (λ c. compares machine.now c) self.now.comparisons.items }
    {
        self.comparisons
            .iter()
            .all(|comparison| comparison.holds(machine))
    }

    fn any_holds(&self, machine: &Machine) -> bool
        ensures { result ≡ list_any (λ c. compares machine.now c) self.now.comparisons.items }
    {
        self.comparisons
            .iter()
            .any(|comparison| comparison.holds(machine))
    }
}

impl Property {
    /// Whether the property is evaluated at `pc`.
    pub(crate) fn is_at(&self, pc: u16) -> bool
        ensures { result ≡ is_at self.now.place pc }
    {
        match self.place {
            Some(place) => pc == place,
            None => true,
        }
    }

    /// Whether a machine that makes a step meets the property.
    pub(crate) fn is_met(&self, machine: &Machine) -> bool
        ensures { result ≡ is_met machine.now self.now }
    {
        self.is_at(machine.pc()) && self.condition.holds(machine) == self.wanted
    }

    /// Whether the property names the delay timer.
    pub(crate) fn names_delay(&self) -> bool {
        self.condition.comparisons.iter().any(|comparison| {
            comparison.left.names_delay() || comparison.right.names_delay()
        })
    }

    /// Returns the forgotten parts that the property names, for a machine at `pc`.
    pub(crate) fn named(&self, forgotten: Forgotten, pc: u16) -> Forgotten {
        let mut named = Forgotten::nothing();
        for comparison in &self.condition.comparisons {
            named = named
                .with(comparison.left.named(forgotten, pc))
                .with(comparison.right.named(forgotten, pc));
        }
        named
    }
}
