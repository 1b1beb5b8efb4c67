//! The value of an expression.

ghost use Rattle.std.specs.Prelude.{◌≡◌, ◌*ℤ◌, pos, ◌^◌, ◌<◌, ℕ, ℤ, neg_ℤ, ◌≤◌, ◌-◌, [], ◌∷◌, List, IfOk, IfErr, IfSome, Ok, Err, length};
ghost use Rattle.chip_lang.specs.Tree.{tree_of, name};
ghost use Rattle.chip_lang.specs.Uses.{constant};
ghost use Rattle.chip_lang.specs.Value.{Symbols, value, value_of_name, or_fault, no_names, apply, apply_prefix, shift_left, shift_right, divide};
ghost use Rattle.chip_lang.specs.inner.LastValue.{last_value};
ghost use Rattle.chip_lang.specs.inner.Postfix.{top, popped, numbered, stack_of};

use crate::expr::{Expr, Operator, Prefix};
use crate::fault::Fault;
use crate::names::Names;
use crate::postfix::{Item, Postfix};
use crate::short_bytes::ShortBytes;

/// The value of an expression, or the first fault from the left.
#[inline(always)]
pub fn eval<N: Names>(expr: &Expr, names: &N) -> Result<i32, Fault>
    ensures { result ≡ value (tree_of expr.now) (N.symbols names.now) }
{
    match expr {
        Expr::Number(number) => Ok(*number),
        Expr::Name(name) => value_of_name(names, name.get()),
        Expr::Compound(compound) => eval_compound(compound, names),
    }
}

#[inline(always)]
fn value_of_name<N: Names>(names: &N, name: &[u8]) -> Result<i32, Fault>
    ensures { result ≡ or_fault (value_of_name (N.symbols names.now) name.now)
        Fault.UndefinedName }
{
    names.value(name).ok_or(Fault::UndefinedName)
}

/// The names of an expression, and a table with their values.
#[derive(Drop)]
struct Meanings<'a, N: Names> {
    words: &'a [ShortBytes],
    names: &'a N,
}

impl<'a, N: Names> Meanings<'a, N> {
    /// The value of the name with this number, or the fault of a name without a value.
    #[inline(always)]
    fn value(&self, number: usize) -> Result<i32, Fault>
        ensures { result
            ≡ value (name (numbered self.now.words.now number)) (N.symbols self.now.names.now) }
    {
        match self.words.get(number) {
            Some(word) => value_of_name(self.names, word.get()),
            None => value_of_name(self.names, &[]),
        }
    }
}

/// The value of an expression of several tokens. Because this function is separate, the inlined
/// code for expressions of one token stays small.
#[inline(never)]
fn eval_compound<N: Names>(compound: &Postfix, names: &N) -> Result<i32, Fault>
    ensures { result ≡ value compound.now (N.symbols names.now) }
{
    let (items, words) = compound.parts();
    let meanings = Meanings { words, names };
    eval_items(items, &meanings)
}

/// The value of the tree that the items build, or its first fault. One turn of the loop evaluates all items of an
/// expression. A sign without a left operand would use 0, but no expression contains one.
#[inline(always)]
fn eval_items<N: Names>(items: &[Item], meanings: &Meanings<N>) -> Result<i32, Fault>
    requires whole { popped (stack_of meanings.now.words.now items.now) ≡ [] }
    ensures { result ≡ value (top (stack_of meanings.now.words.now items.now))
        (N.symbols meanings.now.names.now) }
{
    let mut top = 0;
    let mut rest = items;
    while !rest.is_empty() {
        (top, rest) = eval_right(0, top, rest, meanings)?;
    }
    Ok(top)
}

/// Evaluates the items up to the sign whose left operand is `left`. The right operand of that sign
/// begins with the value `first`. Returns the result of the sign and the items after it; if there
/// is no such sign, returns the value of the right operand and no items. The items are evaluated
/// from the left, so the first fault found is the fault of the expression.
fn eval_right<'a, N: Names>(
    left: i32,
    first: i32,
    items: &'a [Item],
    meanings: &Meanings<N>,
) -> Result<(i32, &'a [Item]), Fault>
    ensures value { IfOk result (λ found. (under : List ℤ)
        → last_value meanings.now.words.now (N.symbols meanings.now.names.now)
        (first ∷ left ∷ under) items.now
        ≡ last_value meanings.now.words.now (N.symbols meanings.now.names.now)
        (found.0 ∷ under) found.1.now) }
    ensures fault { IfErr result (λ fault. (under : List ℤ)
        → last_value meanings.now.words.now (N.symbols meanings.now.names.now)
        (first ∷ left ∷ under) items.now ≡ Err fault) }
    ensures shorter { IfOk result (λ found. length found.1.now ≤ length items.now - 1) }
{
    let mut right = first;
    let mut rest = items;
    while let Some((item, after)) = rest.split_first() {
        rest = after;
        match item {
            Item::WithNumber(sign, number) => right = apply(*sign, right, *number)?,
            Item::WithName(sign, number) => right = apply(*sign, right, meanings.value(*number)?)?,
            Item::Unary(sign) => right = apply_prefix(*sign, right)?,
            Item::Binary(sign) => return Ok((apply(*sign, left, right)?, after)),
            Item::Number(number) => (right, rest) = eval_right(right, *number, after, meanings)?,
            Item::Name(number) => {
                (right, rest) = eval_right(right, meanings.value(*number)?, after, meanings)?;
            }
        }
    }
    Ok((right, rest))
}

/// A table without names.
struct NoNames;

#[tactic(auto, using(crate::proofs::Constants::no_value))]
impl Names for NoNames {
    ghost symbols = { λ _. no_names };

    fn value(&self, _name: &[u8]) -> Option<i32> {
        None
    }
}

/// The value of a constant expression, which is the same under all tables of names; none if the
/// expression contains a name or has a fault.
#[tactic(auto, using(crate::proofs::Constants::constants))]
pub fn constant(expr: &Expr) -> Option<i32>
    ensures value { result ≡ constant (tree_of expr.now) }
    ensures always { (symbols : Symbols)
        → IfSome result (λ number. value (tree_of expr.now) symbols ≡ Ok number) }
{
    eval(expr, &NoNames).ok()
}

fn apply_prefix(sign: Prefix, value: i32) -> Result<i32, Fault>
    ensures { result ≡ apply_prefix sign value }
{
    match sign {
        Prefix::Plus => Ok(value),
        Prefix::Minus => value.checked_neg().ok_or(Fault::Overflow),
        Prefix::Not => Ok(!value),
    }
}

#[inline(always)]
fn apply(sign: Operator, a: i32, b: i32) -> Result<i32, Fault>
    ensures { result ≡ apply sign a b }
{
    match sign {
        Operator::ShiftLeft => shift_left(a, b),
        Operator::ShiftRight => shift_right(a, b),
        Operator::Multiply => a.checked_mul(b).ok_or(Fault::Overflow),
        Operator::Divide => divide(a, b),
        Operator::Add => a.checked_add(b).ok_or(Fault::Overflow),
        Operator::Subtract => a.checked_sub(b).ok_or(Fault::Overflow),
        Operator::And => Ok(a & b),
        Operator::Or => Ok(a | b),
        Operator::Xor => Ok(a ^ b),
    }
}

fn divide(a: i32, b: i32) -> Result<i32, Fault>
    ensures { result ≡ divide a b }
{
    if b == 0 {
        return Err(Fault::DivisionByZero);
    }
    a.checked_div(b).ok_or(Fault::Overflow)
}

fn shift_left(a: i32, b: i32) -> Result<i32, Fault>
    ensures { result ≡ shift_left a b }
{
    let Ok(n) = u32::try_from(b) else {
        return Err(Fault::Overflow);
    };
    if n > 31 {
        return Err(Fault::Overflow);
    }
    let shifted = i64::from(a) * power_of_two(n);
    i32::try_from(shifted).map_err(|_| Fault::Overflow)
}

fn power_of_two(n: u32) -> i64
    requires { n < 32 }
    ensures value { result ≡ pos (2 ^ n) }
    ensures bound { 2 ^ n < 2 ^ 32 }
{
    i64::from(1u32 << n)
}

fn shift_right(a: i32, b: i32) -> Result<i32, Fault>
    ensures { result ≡ shift_right a b }
{
    if b < 0 || b > 31 {
        return Err(Fault::Overflow);
    }
    Ok(a >> b)
}
