//! The language of the Chipper assembler: instructions and their words, tokens, expressions, the
//! reading of a line, and the code of a line.
//!
//! [`read_line`] returns the only reading of a line's text. [`encode`] returns the code of a
//! reading under a table of [`Names`], and [`encode_into`] writes that code into a buffer.
//! [`word`], [`decode`] and [`show`] convert between instructions, words and source text. The files
//! in `specs/` define the result of each function.
#![tactic(auto)]

pub mod bytes;
pub mod code;
mod directive;
pub mod expr;
pub mod fault;
pub mod fault_place;
pub mod form;
mod front;
pub mod instr;
mod keyword;
pub mod laws;
mod lexeme;
pub mod limits;
pub mod line;
pub mod line_names;
pub mod meter;
pub mod names;
pub mod number;
mod operands;
mod parse;
mod postfix;
mod shape;
pub mod short_bytes;
mod source_text;
mod statement;
pub mod token;
pub mod value;

pub use crate::bytes::Bytes;
pub use crate::code::{Coded, encode, encode_into};
pub use crate::expr::{Expr, Operator, Prefix};
pub use crate::fault::Fault;
pub use crate::fault_place::{Span, fault_span, mnemonic_of, name_of_token};
pub use crate::form::{Form, Operand, Pattern, Special};
pub use crate::front::is_reserved;
pub use crate::instr::{Instr, decode, word};
pub use crate::keyword::register_of;
pub use crate::lexeme::{Lexeme, is_sign_of, is_the, lexemes};
pub use crate::line::{Body, Line, read_line, read_nothing};
pub use crate::line_names::{UsedNames, defines, used_names, uses};
pub use crate::meter::Meter;
pub use crate::names::Names;
pub use crate::number::{Addr, Nibble, Reg};
pub use crate::parse::parse_expression;
pub use crate::postfix::Postfix;
pub use crate::source_text::{byte_digits, push_shown, show, word_digits};
pub use crate::token::{Kind, Token, tokens};
pub use crate::value::{constant, eval};
