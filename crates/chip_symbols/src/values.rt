//! The current values of names, and the values before an edit.
ghost use Rattle.std.specs.Prelude.{◌≡◌, ◌<◌, ◌++◌, [], ◌∷◌, None, OnOk, false, true, not, if◌then◌else◌, length, slice_index_or, slice_set};
ghost use Rattle.std.specs.Option.{option_eq};
ghost use Rattle.std.specs.Ordering.{int_eq};
ghost use Rattle.chip_symbols.specs.inner.Entries.{AreNoted};

use std::alloc::{AllocError, Global};
use std::marker::Model;

/// The value of each name, or none, at the name's number, both now and before an edit.
#[derive(Drop)]
pub(crate) struct Values {
    pub(crate) current: Vec<Option<i32>>,
    pub(crate) past: Vec<Option<i32>>,
    /// For each number, whether its two values differ.
    pub(crate) differs: Vec<bool>,
    /// The number of true items in `differs`.
    pub(crate) different: usize,
}

impl Model for Values {
    ghost use Rattle.chip_symbols.specs.inner.Entries.{AreCompared, ValueLists, has_room};

    ghost Value = { ValueLists };

    ghost view = { λ v. record {
      current = v.current.items;
      past = v.past.items;
      has_room = has_room v.current v.past v.differs;
    } };

    ghost invariant = { λ v. AreCompared v.current.items v.past.items v.differs.items v.different };
}

impl Values {
    /// The values of no names.
    pub(crate) fn new(alloc: Global) -> Self
        ensures now { result.current ≡ [] }
        ensures past { result.past ≡ [] }
    {
        Values {
            current: Vec::new(alloc),
            past: Vec::new(alloc),
            differs: Vec::new(alloc),
            different: 0,
        }
    }

    /// Reserves room for one more name. Fails only if memory runs out.
    pub(crate) fn reserve(&mut self) -> Result<(), AllocError>
        ensures now { self.new.current ≡ self.old.current }
        ensures past { self.new.past ≡ self.old.past }
        ensures room { OnOk result (self.new.has_room ≡ true) }
    {
        self.current.reserve(1)?;
        self.past.reserve(1)?;
        self.differs.reserve(1)
    }

    /// Adds a name that has no value.
    pub(crate) fn add(&mut self)
        requires { self.old.has_room ≡ true }
        ensures now { self.new.current ≡ self.old.current ++ None ∷ [] }
        ensures past { self.new.past ≡ self.old.past ++ None ∷ [] }
    {
        self.current.push_reserved(None);
        self.past.push_reserved(None);
        self.differs.push_reserved(false);
    }

    /// The value at a number; none if the name with that number has no value.
    #[inline(always)]
    pub(crate) fn get(&self, number: usize) -> Option<i32>
        requires { number < length self.now.current }
        ensures { result ≡ slice_index_or self.now.current number None }
    {
        self.current[number]
    }

    /// Sets the value at a number, which may be none.
    #[inline(always)]
    pub(crate) fn set(&mut self, number: usize, value: Option<i32>)
        requires { number < length self.old.current }
        ensures now { self.new.current ≡ slice_set self.old.current number value }
        ensures past { self.new.past ≡ self.old.past }
    {
        let differs = self.past[number] != value;
        let others = self.different - one_of(self.differs[number]);
        self.current[number] = value;
        self.differs[number] = differs;
        self.different = others + one_of(differs);
    }

    /// Makes the current values the values before the edit.
    pub(crate) fn settle(&mut self)
        ensures now { self.new.current ≡ self.old.current }
        ensures past { self.new.past ≡ self.old.current }
    {
        if self.different > 0 {
            self.past.copy_from_slice(&self.current);
            self.differs.fill(false);
            self.different = 0;
        }
    }

    /// Whether any number has a different value than before the edit, or has gained or lost its value.
    pub(crate) fn has_differences(&self) -> bool
        ensures { result ≡ false → self.now.past ≡ self.now.current }
    {
        self.different > 0
    }

    /// Whether the two values at a number differ.
    pub(crate) fn differ(&self, number: usize) -> bool
        requires { number < length self.now.current }
        ensures { result ≡ not (option_eq int_eq (slice_index_or self.now.past number None)
            (slice_index_or self.now.current number None)) }
    {
        self.differs[number]
    }

    /// For each number, whether its two values differ.
    pub(crate) fn noted(&self) -> &[bool]
        ensures { AreNoted self.now.current self.now.past result.now }
    {
        &self.differs
    }
}

/// 1 for true, 0 for false.
fn one_of(is: bool) -> usize
    ensures { result ≡ (if is then 1 else 0) }
{
    if is { 1 } else { 0 }
}
