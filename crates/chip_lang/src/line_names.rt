//! The names that a line uses and defines.

ghost use Rattle.std.specs.Prelude.{◌≡◌, ◌∷◌, [], ◌++◌, map, drop, slice_get, MatchOption};
ghost use Rattle.std.specs.List.{flat_map};
ghost use Rattle.std.specs.Option.{option_copied};
ghost use Rattle.chip_lang.specs.SeenLine.{seen_line};
ghost use Rattle.chip_lang.specs.Tree.{tree_of};
ghost use Rattle.chip_lang.specs.Operand.{operand_of};
ghost use Rattle.chip_lang.specs.Uses.{names_in, names_in_operand, names_used, name_defined};

use crate::expr::Expr;
use crate::form::Operand;
use crate::line::{Body, Line};
use crate::short_bytes::ShortBytes;
use std::marker::Model;
use std::slice;

/// The name that a label, EQU, `=` or DEFINE defines, in upper case. None for a line with a reading
/// fault.
pub fn defines(line: &Line) -> Option<&[u8]>
    ensures { option_copied result ≡ name_defined (seen_line line.now) }
{
    match line {
        Line::Bad(_) => None,
        Line::Read { label, .. } => match label {
            Some(name) => Some(name.get()),
            None => None,
        },
    }
}

/// The names in the expressions of a line, left to right. A name that occurs twice is returned
/// twice. Iterating over all names takes time linear in the length of the line.
pub fn used_names(line: &Line) -> UsedNames<'_>
    ensures { result ≡ names_used (seen_line line.now) }
{
    match line {
        Line::Bad(_) => UsedNames::of_exprs(&[]),
        Line::Read { body, .. } => match body {
            Body::Equ(expr) | Body::Org(expr) | Body::Ds(expr) => {
                UsedNames::of_exprs(slice::from_ref(expr))
            }
            Body::Db(exprs) | Body::Dw(exprs) => UsedNames::of_exprs(exprs),
            Body::Code(_, operands) => UsedNames {
                names: &[],
                exprs: &[],
                operands,
            },
            _ => UsedNames::of_exprs(&[]),
        },
    }
}

/// The name at an index, counted from 0, among the names in the expressions of a line, left to
/// right. A name that occurs twice has two indexes. None if the index is past the last name.
#[tactic(auto, using(crate::proofs::NamesUsed::names_left))]
pub fn uses(line: &Line, place: usize) -> Option<&[u8]>
    ensures { option_copied result ≡ slice_get (names_used (seen_line line.now)) place }
{
    let mut names = used_names(line);
    for _ in 0..place {
        names.next()?;
    }
    names.next()
}

/// The names in a line's expressions that `next` hasn't returned yet, left to right.
#[derive(Drop)]
pub struct UsedNames<'a> {
    names: &'a [ShortBytes],
    exprs: &'a [Expr],
    operands: &'a [Operand],
}

impl<'a> Model for UsedNames<'a> {
    ghost use Rattle.std.specs.Prelude.{List, ℕ, ◌++◌, map};
    ghost use Rattle.std.specs.List.{flat_map};
    ghost use Rattle.chip_lang.specs.Tree.{tree_of};
    ghost use Rattle.chip_lang.specs.Operand.{operand_of};
    ghost use Rattle.chip_lang.specs.Uses.{names_in, names_in_operand};

    ghost Value = { List (List ℕ) };

    ghost view = { λ left. left.names.now
        ++ (flat_map names_in (map tree_of left.exprs.now)
        ++ flat_map names_in_operand (map operand_of left.operands.now)) };
}

impl<'a> UsedNames<'a> {
    fn of_exprs(exprs: &'a [Expr]) -> UsedNames<'a>
        ensures { result ≡ flat_map names_in (map tree_of exprs.now) }
    {
        UsedNames {
            names: &[],
            exprs,
            operands: &[],
        }
    }

    /// Returns the next name and removes it from the list; none if no name is left.
    #[tactic(auto, using(crate::proofs::NamesUsed::names_left))]
    pub fn next(&mut self) -> Option<&'a [u8]>
        ensures next { option_copied result ≡ slice_get self.old 0 }
        ensures rest { self.new ≡ drop 1 self.old }
    {
        if let Some((name, names)) = self.names.split_first() {
            self.names = names;
            return Some(name.get());
        }
        if let Some((name, names, exprs)) = name_in_each(self.exprs) {
            self.names = names;
            self.exprs = exprs;
            return Some(name);
        }
        let (name, names, operands) = name_in_operands(self.operands)?;
        self.names = names;
        self.exprs = &[];
        self.operands = operands;
        Some(name)
    }
}

/// The first name in a list of expressions, the names after it in the same expression, and the
/// expressions after that expression. None if the list contains no name.
#[tactic(auto, using(crate::proofs::NamesUsed::names_left))]
fn name_in_each(exprs: &[Expr]) -> Option<(&[u8], &[ShortBytes], &[Expr])>
    ensures { MatchOption result (flat_map names_in (map tree_of exprs.now) ≡ [])
        (λ found. flat_map names_in (map tree_of exprs.now) ≡ found.0.now
        ∷ (found.1.now ++ flat_map names_in (map tree_of found.2.now))) }
{
    let mut rest = exprs;
    while let Some((expr, after)) = rest.split_first() {
        if let Some((name, names)) = name_in(expr) {
            return Some((name, names, after));
        }
        rest = after;
    }
    None
}

/// The first name in a list of operands, the names after it in the same operand, and the operands
/// after that operand. None if the list contains no name.
#[tactic(auto, using(crate::proofs::NamesUsed::names_left))]
fn name_in_operands(operands: &[Operand]) -> Option<(&[u8], &[ShortBytes], &[Operand])>
    ensures { MatchOption result
        (flat_map names_in_operand (map operand_of operands.now) ≡ [])
        (λ found. flat_map names_in_operand (map operand_of operands.now) ≡ found.0.now
        ∷ (found.1.now
        ++ flat_map names_in_operand (map operand_of found.2.now))) }
{
    let mut rest = operands;
    while let Some((operand, after)) = rest.split_first() {
        if let Operand::Value(expr) = operand
            && let Some((name, names)) = name_in(expr)
        {
            return Some((name, names, after));
        }
        rest = after;
    }
    None
}

/// The first name in an expression, and the names after it. None if the expression contains no name.
fn name_in(expr: &Expr) -> Option<(&[u8], &[ShortBytes])>
    ensures { MatchOption result (names_in (tree_of expr.now) ≡ [])
        (λ found. names_in (tree_of expr.now) ≡ found.0.now ∷ found.1.now) }
{
    match expr {
        Expr::Number(_) => None,
        Expr::Name(name) => Some((name.get(), &[])),
        Expr::Compound(compound) => {
            let (name, names) = compound.parts().1.split_first()?;
            Some((name.get(), names))
        }
    }
}
