//! The parser of expressions.

ghost use Rattle.std.specs.Prelude.{[], ◌∷◌, ◌≡◌, ◌<◌, ◌≤◌, ◌+◌, ◌*◌, ℕ, length, IfOk, IfSome, IfNone, Some, None, true, if◌then◌else◌};
ghost use Rattle.chip_lang.specs.Grammar.{IsExpression};
ghost use Rattle.chip_lang.specs.computed.Parse.{expression_of, parse, further};
ghost use Rattle.chip_lang.specs.inner.Atom.{atom_of};
ghost use Rattle.chip_lang.specs.inner.Postfix.{top, popped};
ghost use Rattle.chip_lang.specs.inner.Seen.{seen, seen_whole};
ghost use Rattle.chip_lang.specs.Tree.{Tree, tree_of};

use crate::expr::Expr;
use crate::front::{
    closed, free_name, is_reserved, level_in_front, operator_in_front, prefix_in_front, text_number,
};
use crate::lexeme::Lexeme;
use crate::postfix::Builder;
use std::alloc::{AllocError, Global};

/// The tokens after a parsed expression, which is on top of the builder. None if there is no
/// expression; the contents of the builder then have no meaning.
type Found<'a> = Option<&'a [Lexeme]>;

/// The expression that the tokens form; none if they form no expression. Fails only if memory runs
/// out.
pub fn parse_expression(alloc: Global, tokens: &[Lexeme]) -> Result<Option<Expr>, AllocError>
    ensures value { IfOk result (λ found. seen_whole found ≡ expression_of tokens.now) }
    ensures found { IfOk result (λ found. IfSome found (λ e. IsExpression tokens.now (tree_of e))) }
    ensures none { IfOk result
        (λ found. IfNone found ((e : Tree) → IsExpression tokens.now e → ⊥)) }
{
    if let [token] = tokens {
        return expression_of_token(alloc, token);
    }
    let mut builder = Builder::new(alloc, usual_items(tokens.len()))?;
    let Some(rest) = parse_level(&mut builder, tokens, 7)? else {
        return Ok(None);
    };
    if rest.is_empty() {
        Ok(Some(Expr::Compound(builder.finish()?)))
    } else {
        Ok(None)
    }
}

/// The number of items in most expressions of this many tokens: one for each operand, if each
/// operand is one token.
fn usual_items(tokens: usize) -> usize {
    (tokens / 2).saturating_add(1)
}

/// The expression that one token forms; none if it forms no expression. Most expressions have one
/// token.
#[tactic(auto, using(crate::proofs::OneToken::expression_of_one))]
fn expression_of_token(alloc: Global, token: &Lexeme) -> Result<Option<Expr>, AllocError>
    ensures { IfOk result (λ found. seen_whole found ≡ expression_of (token.now ∷ [])) }
{
    match token {
        Lexeme::Word(word) => Ok(free_name(alloc, word.get())?.map(Expr::Name)),
        Lexeme::Number(number) => Ok(Some(Expr::Number(*number))),
        Lexeme::Text(text) => Ok(text_number(text.get()).map(Expr::Number)),
        Lexeme::Sign(_) | Lexeme::Bad(_) => Ok(None),
    }
}

/// Parses an expression of a level. Skips each level that has no operator at the front of the
/// remaining tokens.
#[cycle(parser)]
fn parse_level<'a>(
    builder: &mut Builder,
    tokens: &'a [Lexeme],
    level: u32,
) -> Result<Found<'a>, AllocError>
    requires { level ≤ 7 }
    ensures value { IfOk result (λ found. (n : ℕ) → 9 * length tokens.now + level < n
        → seen (top builder.new) found ≡ parse n level tokens.now) }
    ensures kept { IfOk result
        (λ found. IfSome found (λ _. popped builder.new ≡ builder.old)) }
    ensures shorter { IfOk result
        (λ found. IfSome found (λ rest. length rest.now < length tokens.now)) }
{
    if level == 0 {
        return parse_atom(builder, tokens);
    }
    let Some(first) = parse_prefixed(builder, tokens)? else {
        return Ok(None);
    };
    let mut rest = first;
    let mut done = 1;
    let mut next = level_in_front(rest);
    while done < next && next <= level {
        let Some(more) = parse_further(builder, rest, next)? else {
            return Ok(None);
        };
        rest = more;
        done = next;
        next = level_in_front(rest);
    }
    Ok(Some(rest))
}

/// Parses an operand with the signs before it.
#[cycle(parser)]
fn parse_prefixed<'a>(builder: &mut Builder, tokens: &'a [Lexeme]) -> Result<Found<'a>, AllocError>
    ensures value { IfOk result (λ found. (n : ℕ) → 9 * length tokens.now + 1 < n
        → seen (top builder.new) found ≡ parse n 1 tokens.now) }
    ensures kept { IfOk result
        (λ found. IfSome found (λ _. popped builder.new ≡ builder.old)) }
    ensures shorter { IfOk result
        (λ found. IfSome found (λ rest. length rest.now < length tokens.now)) }
{
    let Some(sign) = prefix_in_front(tokens) else {
        return parse_atom(builder, tokens);
    };
    let Some(rest) = parse_prefixed(builder, &tokens[1..])? else {
        return Ok(None);
    };
    builder.push_unary(sign)?;
    Ok(Some(rest))
}

#[cycle(parser)]
fn parse_atom<'a>(builder: &mut Builder, tokens: &'a [Lexeme]) -> Result<Found<'a>, AllocError>
    ensures value { IfOk result (λ found. (n : ℕ) → 9 * length tokens.now < n
        → seen (top builder.new) found ≡ parse n 0 tokens.now) }
    ensures kept { IfOk result
        (λ found. IfSome found (λ _. popped builder.new ≡ builder.old)) }
    ensures shorter { IfOk result
        (λ found. IfSome found (λ rest. length rest.now < length tokens.now)) }
{
    let Some((first, rest)) = tokens.split_first() else {
        return Ok(None);
    };
    if let Lexeme::Sign(b'(') = first {
        let Some(rest) = parse_level(builder, rest, 7)? else {
            return Ok(None);
        };
        return Ok(closed(rest));
    }
    if push_operand(builder, first)? {
        Ok(Some(rest))
    } else {
        Ok(None)
    }
}

/// Appends the expression that one token forms and returns true. Returns false if the token forms
/// no expression; the contents of the builder then have no meaning.
fn push_operand(builder: &mut Builder, token: &Lexeme) -> Result<bool, AllocError>
    ensures value { IfOk result
        (λ found. (if found then Some (top builder.new) else None) ≡ atom_of token.now) }
    ensures kept { IfOk result (λ found. found ≡ true → popped builder.new ≡ builder.old) }
{
    match token {
        Lexeme::Word(word) => {
            if is_reserved(word.get()) {
                return Ok(false);
            }
            builder.push_name(word.get())?;
        }
        Lexeme::Number(number) => builder.push_number(*number)?,
        Lexeme::Text(text) => {
            let Some(number) = text_number(text.get()) else {
                return Ok(false);
            };
            builder.push_number(number)?;
        }
        Lexeme::Sign(_) | Lexeme::Bad(_) => return Ok(false),
    }
    Ok(true)
}

/// Parses the operators of a level and their right sides. The left side is on top of the builder.
#[cycle(parser)]
fn parse_further<'a>(
    builder: &mut Builder,
    tokens: &'a [Lexeme],
    level: u32,
) -> Result<Found<'a>, AllocError>
    requires low { 2 ≤ level }
    requires high { level ≤ 7 }
    ensures value { IfOk result (λ found. (n : ℕ) → 9 * length tokens.now + 8 < n
        → seen (top builder.new) found ≡ further n level (top builder.old) tokens.now) }
    ensures kept { IfOk result
        (λ found. IfSome found (λ _. popped builder.new ≡ popped builder.old)) }
    ensures shorter { IfOk result
        (λ found. IfSome found (λ rest. length rest.now ≤ length tokens.now)) }
{
    let mut rest = tokens;
    while let Some(sign) = operator_in_front(rest, level) {
        let Some(more) = parse_level(builder, &rest[1..], level - 1)? else {
            return Ok(None);
        };
        builder.push_binary(sign)?;
        rest = more;
    }
    Ok(Some(rest))
}
