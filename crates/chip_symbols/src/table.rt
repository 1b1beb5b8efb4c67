//! The symbols of a source.
ghost use Rattle.std.specs.Prelude.{◌≡◌, ◌+◌, ◌++◌, [], ◌∷◌, ◌<◌, ◌≤◌, All, List, true, false, not, OnOk, OnErr, IfOk, IfSome, None, Some, Option, is_some, length, map, option_map, slice_get, vec_capacity};
ghost use Rattle.std.specs.List.{list_all};
ghost use Rattle.std.specs.Str.{bytes_eq};
ghost use Rattle.chip_lang.specs.Line.{upper};
ghost use Rattle.chip_lang.specs.Uses.{has_same_value};
ghost use Rattle.chip_symbols.specs.Names.{Name, lookup_name, values_of, is_redefinition};
ghost use Rattle.chip_symbols.specs.Tables.{AreDifferences, AreOver, AreUpTo, Extends, IsNumber, KeepsBefore, key_at, name_of, names_at, symbols_of, value_among};
ghost use Rattle.chip_symbols.specs.inner.Entries.{AreApart, AreDefined, EndsBy, IsFront, IsPastNext};

use crate::name_hasher::NameHasher;
use crate::values::Values;
use chip_lang::short_bytes::upper;
use chip_lang::{Bytes, Names};
use indexmap::IndexSet;
use std::alloc::{AllocError, Global};
use std::cell::Cell;
use std::marker::Model;

/// The value of a name, and the number of the line that defines the name.
#[derive(Clone, Copy, Debug, PartialEq, Eq)]
pub struct Symbol {
    /// The value of the name.
    pub value: i32,
    /// The number of the line, counted from 1.
    pub line: usize,
}

/// The number of a name. A name keeps its number as long as the table exists.
#[derive(Clone, Copy, PartialEq, Eq)]
pub struct NameId {
    /// The number, counted from 0.
    pub number: u32,
}

/// A name that a line defines, with its symbol.
#[derive(Clone, Copy)]
pub(crate) struct Entry {
    pub(crate) id: NameId,
    pub(crate) symbol: Symbol,
}

/// Removes the entries of the lines past `number`, and the values of their names.
fn take_back(entries: &mut Vec<Entry>, values: &mut Values, number: usize)
    requires { All (λ e. e.id.number < length values.old.current) entries.old.items }
    ensures defined { (keys : List Name) → AreApart keys
        → AreDefined keys entries.old.items values.old.current
        → AreDefined keys entries.new.items values.new.current }
    ensures past { values.new.past ≡ values.old.past }
    ensures room { vec_capacity entries.new ≡ vec_capacity entries.old }
    ensures front { IsFront entries.new.items entries.old.items }
    ensures ends { EndsBy number entries.new.items }
    ensures stops { IsPastNext number entries.new.items entries.old.items }
{
    while let Some(entry) = entries.last() {
        if entry.symbol.line <= number {
            break;
        }
        let index = entry.id.number as usize;
        values.set(index, None);
        entries.pop();
    }
}

/// The table of symbols. Names are in upper case. A name gets a number as soon as a line uses or
/// defines it, and keeps that number. The symbols are in line order, and the value of each name is
/// stored at the name's number.
#[derive(Drop)]
pub struct Table {
    keys: IndexSet<Vec<u8>, NameHasher>,
    hasher: NameHasher,
    entries: Vec<Entry>,
    values: Values,
}

impl Model for Table {
    ghost use Rattle.std.specs.Prelude.{length, map, vec_capacity, ◌≡◌};
    ghost use Rattle.std.specs.FinMap.{from_entries};
    ghost use Rattle.chip_symbols.specs.Tables.{Tables, tables_code};
    ghost use Rattle.chip_symbols.specs.inner.Entries.{AreApart, AreDefined, symbols_in, valued_in};

    ghost Value = { Tables };

    ghost coded = { tables_code };

    ghost view = { λ t. record {
      keys = map (λ k. k.items) t.keys.keys;
      symbols = symbols_in (map (λ k. k.items) t.keys.keys) t.entries.items;
      before = from_entries (valued_in (map (λ k. k.items) t.keys.keys) t.values.past);
      room = vec_capacity t.entries;
    } };

    ghost invariant = { λ t. AreApart (map (λ k. k.items) t.keys.keys)
        × (AreDefined (map (λ k. k.items) t.keys.keys) t.entries.items t.values.current
        × (length t.values.past ≡ length t.values.current)) };
}

impl Table {
    ghost use Rattle.chip_symbols.specs.declared.table.Symbol.{Symbol};

    /// A table without names, which hashes names with this hasher.
    pub fn new(alloc: Global, hasher: NameHasher) -> Self
        ensures keys { result.keys ≡ [] }
        ensures symbols { result.symbols ≡ [] }
    {
        Table {
            keys: IndexSet::with_hasher(alloc, hasher),
            hasher,
            entries: Vec::new(alloc),
            values: Values::new(alloc),
        }
    }

    /// The number of a name. A name without a number gets a new one. Fails only if memory runs out
    /// or a number needs more than 32 bits.
    pub fn number(&mut self, alloc: Global, name: &[u8]) -> Result<NameId, AllocError>
        ensures keys { Extends self.old.keys self.new.keys }
        ensures symbols { self.new.symbols ≡ self.old.symbols }
        ensures before { self.new.before ≡ self.old.before }
        ensures id { IfOk result (λ id. IsNumber self.new.keys id name.now) }
    {
        let index = match self.keys.get_index_of(name) {
            Some(index) => index,
            None => self.add(alloc, name)?,
        };
        match u32::try_from(index) {
            Ok(number) => Ok(NameId { number }),
            Err(_) => Err(AllocError),
        }
    }

    /// Adds a name that isn't in the table, and returns its index. Fails only if memory runs out.
    fn add(&mut self, alloc: Global, name: &[u8]) -> Result<usize, AllocError>
        ensures keys { Extends self.old.keys self.new.keys }
        ensures symbols { self.new.symbols ≡ self.old.symbols }
        ensures before { self.new.before ≡ self.old.before }
        ensures within { IfOk result (λ index. index < length self.new.keys) }
        ensures named { IfOk result (λ index. key_at self.new.keys index ≡ name.now) }
    {
        let key = Vec::from_slice(alloc, name)?;
        self.values.reserve()?;
        let (index, is_new) = self.keys.insert_full(key)?;
        if is_new {
            self.values.add();
        }
        Ok(index)
    }

    /// Reserves room for the symbols of this many more lines. Fails only if memory runs out.
    fn reserve(&mut self, lines: usize) -> Result<(), AllocError>
        ensures keys { self.new.keys ≡ self.old.keys }
        ensures symbols { self.new.symbols ≡ self.old.symbols }
        ensures before { self.new.before ≡ self.old.before }
        ensures room { OnOk result (length self.new.symbols + lines ≤ self.new.room) }
    {
        self.entries.reserve(lines)
    }

    /// Begins an edit that doesn't change the lines up to `number`: keeps only the symbols of those
    /// lines, reserves room for the symbols of `lines` more lines, and stores the values before the
    /// edit. Fails only if memory runs out, and then keeps all symbols.
    pub fn begin(&mut self, number: usize, lines: usize) -> Result<(), AllocError>
        ensures room { OnOk result (length self.new.symbols + lines ≤ self.new.room) }
        ensures keys { self.new.keys ≡ self.old.keys }
        ensures before { OnOk result (self.new.before ≡ values_of self.old.symbols) }
        ensures symbols { OnOk result ((early later : List (Name × Symbol))
            → self.old.symbols ≡ early ++ later → AreUpTo number early → AreOver number later
            → self.new.symbols ≡ early) }
        ensures same { OnErr result (self.new.symbols ≡ self.old.symbols) }
    {
        self.reserve(lines)?;
        self.values.settle();
        take_back(&mut self.entries, &mut self.values, number);
        Ok(())
    }

    /// Whether the name with this number has a symbol.
    pub fn is_defined(&self, id: NameId) -> bool
        requires { id.number < length self.now.keys }
        ensures { result
            ≡ is_some (lookup_name self.now.symbols (key_at self.now.keys id.number)) }
    {
        self.values.get(id.number as usize).is_some()
    }

    /// Whether any name may have a different value than before the edit, or may have gained or lost
    /// its value.
    pub fn has_differences(&self) -> bool
        ensures { result ≡ false → self.now.before ≡ values_of self.now.symbols }
    {
        self.values.has_differences()
    }

    /// For the number of each name, whether the name has a different value than before the edit, or
    /// has gained or lost its value.
    pub fn differences(&self) -> &[bool]
        ensures { AreDifferences self.now result.now }
    {
        self.values.noted()
    }

    /// Whether the name with this number has the same value as before the edit, or had no value and
    /// still has none.
    pub fn keeps_value(&self, id: NameId) -> bool
        requires { id.number < length self.now.keys }
        ensures { result
            ≡ has_same_value self.now.before (values_of self.now.symbols)
            (key_at self.now.keys id.number) }
    {
        !self.values.differ(id.number as usize)
    }

    /// Whether each name with one of these numbers has the same value as before the edit, or had no
    /// value and still has none.
    pub fn keep_values(&self, numbers: &[NameId]) -> bool
        requires { All (λ id. id.number < length self.now.keys) numbers.now }
        ensures { result
            ≡ list_all (has_same_value self.now.before (values_of self.now.symbols))
            (names_at self.now.keys numbers.now) }
    {
        let Some((id, numbers)) = numbers.split_first() else {
            return true;
        };
        self.keeps_value(*id) && self.keep_values(numbers)
    }

    /// The value and the line of a name, which may be in either case; none if it has no symbol.
    pub fn symbol_in_any_case(&self, name: &[u8]) -> Option<Symbol>
        ensures { result ≡ lookup_name self.now.symbols (map upper name.now) }
    {
        for entry in &self.entries {
            if is_spelled(name, self.name(entry.id)) {
                return Some(entry.symbol);
            }
        }
        None
    }

    /// The value of a name; none if it has no value.
    #[inline(never)]
    fn value_of(&self, name: &[u8]) -> Option<i32>
        ensures { result ≡ value_among self.now.symbols name.now }
    {
        let index = self.keys.get_index_of(name)?;
        self.values.get(index)
    }

    /// The name with this number.
    #[inline(always)]
    fn name(&self, id: NameId) -> &[u8]
        requires { id.number < length self.now.keys }
        ensures { result.now ≡ key_at self.now.keys id.number }
    {
        match self.keys.get_index(id.number as usize) {
            Some(key) => key,
            None => unreachable!(),
        }
    }

    /// The names with a symbol, in line order, each with its value and line. Fails only if memory
    /// runs out.
    pub fn symbols(&self, alloc: Global) -> Result<Vec<(Bytes, Symbol)>, AllocError>
        ensures { IfOk result (λ symbols. symbols.items ≡ self.now.symbols) }
    {
        let mut symbols = Vec::with_capacity(alloc, self.entries.len())?;
        for entry in &self.entries {
            let name = Bytes::from_slice(alloc, self.name(entry.id))?;
            symbols.push((name, entry.symbol))?;
        }
        Ok(symbols)
    }

    /// The number of names that have a symbol.
    pub fn symbol_count(&self) -> usize
        ensures { result ≡ length self.now.symbols }
    {
        self.entries.len()
    }

    /// The name at an index in line order, with its value and line; none past the last name.
    pub fn symbol_at(&self, place: usize) -> Option<(&[u8], Symbol)>
        ensures { option_map (λ found. (found.0.now, found.1)) result
            ≡ slice_get self.now.symbols place }
    {
        let entry = self.entries.get(place)?;
        Some((self.name(entry.id), entry.symbol))
    }

    /// The hasher of the names.
    pub fn hasher(&self) -> NameHasher {
        self.hasher
    }

    /// The number of names in the table, each of which has a number.
    pub fn count(&self) -> usize
        ensures { result ≡ length self.now.keys }
    {
        self.keys.len()
    }

    /// A table with the same symbols and no other names. Fails only if memory runs out.
    pub fn with_symbols_alone(&self, alloc: Global) -> Result<Table, AllocError>
        ensures { IfOk result (λ table. table.symbols ≡ self.now.symbols) }
    {
        let mut table = Table::new(alloc, self.hasher);
        for entry in &self.entries {
            let id = table.number(alloc, self.name(entry.id))?;
            table.reserve(1)?;
            table.define(id, entry.symbol);
        }
        Ok(table)
    }

    /// Adds the symbol of a name, if a name is given. Returns false and changes nothing if the name
    /// already has a symbol.
    #[inline(always)]
    pub fn define_new(&mut self, defines: Option<NameId>, symbol: Symbol) -> bool
        requires within { IfSome defines (λ id. id.number < length self.old.keys) }
        requires room { length self.old.symbols < self.old.room }
        ensures new { result
            ≡ not (is_redefinition self.old.symbols (name_of self.old.keys defines)) }
        ensures symbols { result ≡ true
            → self.new.symbols ≡ self.old.symbols ++ symbols_of self.old.keys defines symbol }
        ensures same { result ≡ false → self.new ≡ self.old }
        ensures keeps { KeepsBefore self.old self.new }
    {
        let Some(id) = defines else {
            return true;
        };
        if self.is_defined(id) {
            return false;
        }
        self.define(id, symbol);
        true
    }

    /// Adds the symbol of a name that has no symbol yet.
    #[inline(never)]
    pub fn define(&mut self, id: NameId, symbol: Symbol)
        requires within { id.number < length self.old.keys }
        requires new { lookup_name self.old.symbols (key_at self.old.keys id.number) ≡ None }
        requires room { length self.old.symbols < self.old.room }
        ensures symbols { self.new.symbols
            ≡ self.old.symbols ++ (key_at self.old.keys id.number, symbol) ∷ [] }
        ensures keeps { KeepsBefore self.old self.new }
    {
        self.entries.push_reserved(Entry { id, symbol });
        self.values.set(id.number as usize, Some(symbol.value));
    }
}

/// Whether a text, which may be in either case, spells a name.
fn is_spelled(text: &[u8], name: &[u8]) -> bool
    ensures { result ≡ bytes_eq (map upper text.now) name.now }
{
    let Some((byte, text)) = text.split_first() else {
        return name.is_empty();
    };
    let Some((letter, name)) = name.split_first() else {
        return false;
    };
    upper(*byte) == *letter && is_spelled(text, name)
}

/// A table that looks up the names of a line, mostly in their order.
#[derive(Drop)]
pub struct Scope<'a> {
    table: &'a Table,
    /// The numbers of the line's names.
    numbers: &'a [NameId],
    /// The index, among the numbers, of the name that is likely to be looked up next.
    place: Cell<usize>,
}

impl<'a> Model for Scope<'a> {
    ghost use Rattle.chip_symbols.specs.Tables.{Tables, tables_code};

    ghost Value = { Tables };

    ghost coded = { tables_code };

    ghost view = { λ s. s.table.now };
}

impl<'a> Scope<'a> {
    /// A table, and the numbers of the names that will be looked up in it, mostly in this order.
    pub fn new(table: &'a Table, numbers: &'a [NameId]) -> Self
        ensures { result ≡ table.now }
    {
        Scope {
            table,
            numbers,
            place: Cell::new(0),
        }
    }

    /// The number at an index, if it is the number of the name.
    #[inline(always)]
    fn number_at(&self, place: usize, name: &[u8]) -> Option<NameId>
        ensures { IfSome result (λ id. IsNumber self.now.keys id name.now) }
    {
        let table = self.table;
        let id = self.numbers.get(place)?;
        let key = table.keys.get_index(id.number as usize)?;
        if name != key.as_slice() {
            return None;
        }
        Some(*id)
    }
}

impl<'a> Names for Scope<'a> {
    ghost symbols = { λ s. values_of s.symbols };

    fn value(&self, name: &[u8]) -> Option<i32> {
        let table = self.table;
        let place = self.place.get();
        self.place.set(place.wrapping_add(1));
        match self.number_at(place, name) {
            Some(id) => table.values.get(id.number as usize),
            None => table.value_of(name),
        }
    }
}

/// A table in which mostly one name is looked up. The value of that name is found beforehand.
#[derive(Drop)]
pub struct OneName<'a> {
    table: &'a Table,
    name: &'a [u8],
    value: Option<i32>,
}

impl<'a> Model for OneName<'a> {
    ghost use Rattle.std.specs.Prelude.{◌≡◌};
    ghost use Rattle.chip_symbols.specs.Tables.{Tables, tables_code, value_among};

    ghost Value = { Tables };

    ghost coded = { tables_code };

    ghost view = { λ o. o.table.now };

    ghost invariant = { λ o. o.value ≡ value_among o.table.now.symbols o.name.now };
}

impl<'a> OneName<'a> {
    /// A table, and the number of the name that will mostly be looked up in it.
    #[inline(always)]
    pub fn new(table: &'a Table, id: NameId) -> Self
        requires { id.number < length table.now.keys }
        ensures { result ≡ table.now }
    {
        OneName {
            table,
            name: table.name(id),
            value: table.values.get(id.number as usize),
        }
    }
}

impl<'a> Names for OneName<'a> {
    ghost symbols = { λ o. values_of o.symbols };

    #[inline(always)]
    fn value(&self, name: &[u8]) -> Option<i32> {
        if name == self.name {
            return self.value;
        }
        self.table.value_of(name)
    }
}
