//! Expressions of several tokens, in postfix order.

ghost use Rattle.std.specs.Prelude.{◌≡◌, [], ◌∷◌, ◌++◌, ◌<◌, ◌≤◌, IfOk, OnOk, OnErr, vec_len, vec_capacity};
ghost use Rattle.chip_lang.specs.Expression.{name, number, unary, binary};
ghost use Rattle.chip_lang.specs.Uses.{names_in};
ghost use Rattle.chip_lang.specs.inner.Postfix.{top, popped, stack_of};

use crate::expr::{Operator, Prefix};
use crate::short_bytes::ShortBytes;
use std::alloc::{AllocError, Global};
use std::marker::Model;

/// A part of an expression. The names are stored in a list beside the items, and an item refers to
/// a name by its number in that list.
#[derive(Clone, Copy)]
pub(crate) enum Item {
    /// A number.
    Number(i32),
    /// A name, by its number.
    Name(usize),
    /// The sign before an operand. The items before this one end with that operand.
    Unary(Prefix),
    /// The sign between two operands. The items before this one end with both operands.
    Binary(Operator),
    /// The sign between an operand and this number. The items before this one end with that
    /// operand.
    WithNumber(Operator, i32),
    /// The sign between an operand and the name with this number. The items before this one end
    /// with that operand.
    WithName(Operator, usize),
}

/// Makes room for one more item. Fails only if memory runs out.
#[cold]
#[inline(never)]
fn grow(items: &mut Vec<Item>) -> Result<(), AllocError>
    ensures ok { OnOk result (vec_len items.new < vec_capacity items.new) }
    ensures err { OnErr result (vec_capacity items.new ≡ vec_capacity items.old) }
    ensures same { items.new.items ≡ items.old.items }
    ensures length { vec_len items.new ≡ vec_len items.old }
{
    items.reserve(1)
}

/// Appends an item. Fails only if memory runs out.
#[inline(always)]
fn push_item(items: &mut Vec<Item>, item: Item) -> Result<(), AllocError>
    requires { vec_len items.old ≤ vec_capacity items.old }
    ensures ok { OnOk result (items.new.items ≡ items.old.items ++ item ∷ []) }
    ensures err { OnErr result (items.new.items ≡ items.old.items) }
    ensures room { vec_len items.new ≤ vec_capacity items.new }
{
    if items.len() == items.capacity() {
        grow(items)?;
    }
    items.push_reserved(item);
    Ok(())
}

/// Appends a name. Most expressions with a name have only one, so the first name reserves room for one.
fn add_name(names: &mut Vec<ShortBytes>, name: ShortBytes) -> Result<(), AllocError>
    ensures ok { OnOk result (names.new.items ≡ names.old.items ++ name ∷ []) }
    ensures err { OnErr result (names.new.items ≡ names.old.items) }
{
    if names.is_empty() {
        names.reserve_exact(1)?;
    }
    names.push(name)?;
    Ok(())
}

/// Items in postfix order, in which operands come before their sign, and their names in upper case,
/// left to right.
#[derive(Drop)]
pub(crate) struct Parts {
    items: Vec<Item>,
    names: Vec<ShortBytes>,
}

/// An expression of several tokens, which contracts see as a tree. Few expressions have more than
/// one token, so the parts are boxed to keep the other expressions small.
#[derive(Drop)]
pub struct Postfix {
    parts: Box<Parts>,
}

impl Model for Postfix {
    ghost use Rattle.chip_lang.specs.inner.Postfix.{top, stack_of, tree_code, IsWhole};
    ghost use Rattle.chip_lang.specs.Expression.{Tree};

    ghost Value = { Tree };

    ghost coded = { tree_code };

    ghost view = { λ p. top (stack_of p.parts.value.names.items p.parts.value.items.items) };

    ghost invariant = { λ p. IsWhole p.parts.value.names.items p.parts.value.items.items };
}

impl Postfix {
    /// The items, and the names from left to right.
    #[tactic(auto, using(crate::proofs::NamesUsed::names_whole))]
    pub(crate) fn parts(&self) -> (&[Item], &[ShortBytes])
        ensures tree { top (stack_of result.1.now result.0.now) ≡ self.now }
        ensures whole { popped (stack_of result.1.now result.0.now) ≡ [] }
        ensures names { result.1.now ≡ names_in self.now }
    {
        (&self.parts.items, &self.parts.names)
    }
}

/// The items of an expression that is being parsed. Contracts see them as the stack of trees that
/// the items build.
#[derive(Drop)]
pub(crate) struct Builder {
    alloc: Global,
    items: Vec<Item>,
    names: Vec<ShortBytes>,
}

impl Model for Builder {
    ghost use Rattle.std.specs.Prelude.{List, ◌≤◌, vec_len, vec_capacity};
    ghost use Rattle.chip_lang.specs.inner.Postfix.{stack_of, stack_code, AreNumbered};
    ghost use Rattle.chip_lang.specs.Expression.{Tree};

    ghost Value = { List Tree };

    ghost coded = { stack_code };

    ghost view = { λ b. stack_of b.names.items b.items.items };

    ghost invariant = { λ b. AreNumbered b.names.items b.items.items
        × (vec_len b.items ≤ vec_capacity b.items) };
}

impl Builder {
    /// An empty builder with room for this many items. Fails only if memory runs out.
    pub fn new(alloc: Global, room: usize) -> Result<Builder, AllocError>
        ensures { IfOk result (λ builder. builder ≡ []) }
    {
        let items = Vec::with_capacity(alloc, room)?;
        Ok(Builder {
            alloc,
            items,
            names: Vec::new(alloc),
        })
    }

    /// Appends a number.
    #[tactic(auto, using(crate::proofs::Numbered::numbered_items, std::proofs::lemmas::List::Sums::fold_push))]
    pub fn push_number(&mut self, value: i32) -> Result<(), AllocError>
        ensures { OnOk result (self.new ≡ number value ∷ self.old) }
    {
        push_item(&mut self.items, Item::Number(value))?;
        Ok(())
    }

    /// Appends a name, which is in upper case.
    #[tactic(auto, using(crate::proofs::Numbered::numbered_items, std::proofs::lemmas::List::Sums::fold_push))]
    pub fn push_name(&mut self, word: &[u8]) -> Result<(), AllocError>
        ensures { OnOk result (self.new ≡ name word.now ∷ self.old) }
    {
        let name = ShortBytes::from_slice(self.alloc, word)?;
        self.items.reserve(1)?;
        let number = self.names.len();
        add_name(&mut self.names, name)?;
        self.items.push_reserved(Item::Name(number));
        Ok(())
    }

    /// Appends the sign before an operand.
    #[tactic(auto, using(crate::proofs::Numbered::numbered_items, std::proofs::lemmas::List::Sums::fold_push))]
    pub fn push_unary(&mut self, sign: Prefix) -> Result<(), AllocError>
        ensures { OnOk result (self.new ≡ unary sign (top self.old) ∷ popped self.old) }
    {
        push_item(&mut self.items, Item::Unary(sign))?;
        Ok(())
    }

    /// Appends the sign between two operands. If the second operand is a single token, the sign and
    /// that token become one item.
    #[tactic(auto, using(crate::proofs::Numbered::numbered_items, std::proofs::lemmas::List::Sums::fold_push))]
    pub fn push_binary(&mut self, sign: Operator) -> Result<(), AllocError>
        ensures { OnOk result (self.new ≡ binary sign (top (popped self.old)) (top self.old)
            ∷ popped (popped self.old)) }
    {
        match self.items.pop() {
            Some(Item::Number(value)) => self.items.push_reserved(Item::WithNumber(sign, value)),
            Some(Item::Name(number)) => self.items.push_reserved(Item::WithName(sign, number)),
            Some(last) => {
                self.items.push_reserved(last);
                push_item(&mut self.items, Item::Binary(sign))?;
            }
            None => push_item(&mut self.items, Item::Binary(sign))?,
        }
        Ok(())
    }

    /// The expression that all items form, stored without spare capacity. Fails only if memory runs
    /// out.
    pub fn finish(self) -> Result<Postfix, AllocError>
        requires { popped self ≡ [] }
        ensures { IfOk result (λ postfix. postfix ≡ top self) }
    {
        let Builder {
            alloc,
            mut items,
            mut names,
        } = self;
        items.shrink_to_fit();
        names.shrink_to_fit();
        let parts = Box::new(alloc, Parts { items, names })?;
        Ok(Postfix { parts })
    }
}
