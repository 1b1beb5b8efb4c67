//! Expressions and their signs.

use crate::bytes::Bytes;
use crate::postfix::Postfix;

/// A sign before an operand.
#[derive(Clone, Copy, PartialEq, Eq)]
pub enum Prefix {
    /// `+`.
    Plus,
    /// `-`.
    Minus,
    /// `~`: inverts each bit.
    Not,
}

/// A sign between two operands.
#[derive(Clone, Copy, PartialEq, Eq)]
pub enum Operator {
    /// `<`: multiplies by a power of two.
    ShiftLeft,
    /// `>`: divides by a power of two and rounds down.
    ShiftRight,
    /// `*`.
    Multiply,
    /// `/`: divides and rounds towards zero.
    Divide,
    /// `+`.
    Add,
    /// `-`.
    Subtract,
    /// `&`.
    And,
    /// `|`.
    Or,
    /// `^` or the backslash.
    Xor,
}

/// An expression.
#[derive(Drop)]
pub enum Expr {
    /// A number, or the byte of a text of one byte.
    Number(i32),
    /// A name, in upper case.
    Name(Bytes),
    /// An expression of several tokens.
    Compound(Postfix),
}
