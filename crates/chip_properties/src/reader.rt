//! Reads properties.

ghost use Rattle.std.specs.Prelude.{◌≡◌, ◌<◌, ◌≤◌, IfOk, IfSome, length};
ghost use Rattle.chip_properties.specs.SeenProperty.{seen_sum, seen_comparison, seen_comparisons, seen_condition, seen_property, seen_stated};
ghost use Rattle.chip_properties.specs.computed.Reading.{added_in, comparison_in, comparisons_in, condition_in, given_in, is_item, item_in, kind_in_front, number_in, number_below_in, pixel_in, place_in, property_in, stated_in, sum_in, value_in};
ghost use Rattle.chip_properties.specs.inner.Reads.{IsRead, IsReadAs, symbols_read};

use crate::fault::{Failure, FaultCode};
use crate::limits::{MOST_COMPARISONS, MOST_TERMS, SCREEN_HEIGHT, SCREEN_WIDTH};
use crate::part::Part;
use crate::relation::relation_in_front;
use crate::separator::{Separator, is_deep};
use crate::stated::Kind;
use crate::sums::{no_sum, with_number, with_term};
use crate::words::{is_property_word, item_of_word, kind_of_word};
use chip_asm::Source;
use chip_explore::{Comparison, Condition, Item, Property, Sum};
use chip_lang::limits::MEMORY_BYTES;
use chip_lang::{Fault, Lexeme, eval, is_sign_of, is_the, parse_expression};
use std::alloc::Global;

/// The context in which a property is read: the source, which determines the values of names, and
/// the address of the property's line, if the property is on a line.
#[derive(Drop)]
pub(crate) struct Reader<'a> {
    pub(crate) alloc: Global,
    pub(crate) source: &'a Source,
    pub(crate) here: Option<usize>,
}

impl<'a> Reader<'a> {
    /// Returns the property that tokens state, with its kind. If no kind is given, the property may
    /// begin with the word for one, and is `Always` otherwise.
    pub(crate) fn stated(
        &self,
        kind: Option<Kind>,
        tokens: &[Lexeme],
    ) -> Result<(Kind, Property), Failure>
        ensures { IsReadAs seen_stated
            (stated_in (symbols_read self.now) self.now.here kind tokens.now) result }
    {
        let part = Part::all(tokens);
        if let Some(kind) = kind {
            return Ok((kind, self.property(kind, part)?));
        }
        match kind_in_front(tokens) {
            Some(kind) => Ok((kind, self.property(kind, part.after(1))?)),
            None => Ok((Kind::Always, self.property(Kind::Always, part)?)),
        }
    }

    /// Returns the property of a kind that tokens state, without the word for its kind.
    fn property(&self, kind: Kind, part: Part<'_>) -> Result<Property, Failure>
        ensures { IsReadAs seen_property
            (property_in (symbols_read self.now) self.now.here kind part.entry.tokens.now) result }
    {
        if is_deep(part.tokens) {
            return Err(part.fault(FaultCode::TooMany));
        }
        let (front, back) = part.split_at(Separator::Place);
        let condition = self.given_condition(kind, front, back)?;
        let place = self.place(back)?;
        Ok(Property {
            condition,
            place,
            wanted: kind != Kind::Always,
        })
    }

    /// Reads the condition before a place, which may be left out.
    fn given_condition(
        &self,
        kind: Kind,
        front: Part<'_>,
        back: Part<'_>,
    ) -> Result<Condition, Failure>
        ensures { IsReadAs seen_condition
            (given_in (symbols_read self.now) kind front.entry.tokens.now back.entry.tokens.now)
            result }
    {
        if !front.tokens.is_empty() {
            self.condition(front)
        } else if back.tokens.is_empty() {
            Err(back.fault(FaultCode::NothingStated))
        } else if kind == Kind::Always {
            Err(back.fault_at_first(FaultCode::NoComparison))
        } else {
            Ok(Condition {
                is_all: true,
                comparisons: Vec::new(self.alloc),
            })
        }
    }

    /// Reads the place of a property.
    fn place(&self, part: Part<'_>) -> Result<Option<u16>, Failure>
        ensures { IsRead (place_in (symbols_read self.now) self.now.here part.entry.tokens.now)
            result }
    {
        match part.tokens {
            [] => Ok(None),
            [word] if is_the(b"HERE", word) => match self.here {
                Some(address) if address < MEMORY_BYTES => Ok(Some(address as u16)),
                Some(_) => Err(part.fault(FaultCode::OutOfRange)),
                None => Err(part.fault(FaultCode::NotAsked)),
            },
            [word, _, ..] if is_the(b"AT", word) => {
                let address = self.value(part.after(1))?;
                if address < MEMORY_BYTES as u32 {
                    Ok(Some(address as u16))
                } else {
                    Err(part.after(1).fault(FaultCode::OutOfRange))
                }
            }
            _ => Err(part.fault(FaultCode::NoComparison)),
        }
    }

    /// Reads comparisons with `and` or with `or` between them.
    fn condition(&self, part: Part<'_>) -> Result<Condition, Failure>
        ensures { IsReadAs seen_condition
            (condition_in (symbols_read self.now) part.entry.tokens.now) result }
    {
        let is_all = Separator::Or.count_before(part.tokens) == part.tokens.len();
        let joint = if is_all {
            Separator::And
        } else {
            Separator::Or
        };
        let comparisons = self.comparisons(joint, part)?;
        Ok(Condition {
            is_all,
            comparisons,
        })
    }

    /// Reads comparisons with a separator between them.
    fn comparisons(&self, joint: Separator, part: Part<'_>) -> Result<Vec<Comparison>, Failure>
        ensures { IsReadAs seen_comparisons
            (comparisons_in (symbols_read self.now) joint part.entry.tokens.now) result }
    {
        let mut comparisons = Vec::new(self.alloc);
        let mut rest = Some(part);
        while let Some(tokens) = rest {
            if comparisons.len() == MOST_COMPARISONS {
                return Err(tokens.fault_at_first(FaultCode::TooMany));
            }
            let (piece, more) = tokens.split_around(joint);
            let comparison = self.comparison(piece)?;
            comparisons.reserve(1)?;
            comparisons.push_reserved(comparison);
            rest = more;
        }
        Ok(comparisons)
    }

    /// Reads two sums with a relation between them.
    fn comparison(&self, part: Part<'_>) -> Result<Comparison, Failure>
        ensures { IsReadAs seen_comparison
            (comparison_in (symbols_read self.now) part.entry.tokens.now) result }
    {
        let (front, back) = part.split_at(Separator::Relation);
        let Some((relation, count)) = relation_in_front(back.tokens) else {
            return Err(part.fault(FaultCode::NoComparison));
        };
        let left = self.sum(front)?;
        let right = self.sum(back.after(count))?;
        Ok(Comparison {
            left,
            relation,
            right,
        })
    }

    /// Reads numbers and terms with plus signs between them.
    fn sum(&self, part: Part<'_>) -> Result<Sum, Failure>
        ensures { IsReadAs seen_sum (sum_in (symbols_read self.now) part.entry.tokens.now) result }
    {
        let mut sum = no_sum(self.alloc);
        let mut count = 0;
        let mut rest = Some(part);
        while let Some(tokens) = rest {
            if count == MOST_TERMS {
                return Err(tokens.fault_at_first(FaultCode::TooMany));
            }
            let (piece, more) = tokens.split_around(Separator::Plus);
            sum = self.added(sum, piece)?;
            count += 1;
            rest = more;
        }
        Ok(sum)
    }

    /// Adds some tokens to a sum: a number, an item, or an item with a factor.
    fn added(&self, sum: Sum, part: Part<'_>) -> Result<Sum, Failure>
        ensures { IsReadAs seen_sum
            (added_in (symbols_read self.now) (seen_sum sum) part.entry.tokens.now) result }
    {
        let (front, back) = part.split_around(Separator::Times);
        match back {
            Some(back) => {
                let factor = self.value(front)?;
                let item = self.item(back)?;
                with_term(sum, factor, item)
            }
            None if is_item(front.tokens) => {
                let item = self.item(front)?;
                with_term(sum, 1, item)
            }
            None => {
                let number = self.value(front)?;
                with_number(sum, part, number)
            }
        }
    }

    /// Reads an item that a property can use.
    fn item(&self, part: Part<'_>) -> Result<Item, Failure>
        ensures { IsRead (item_in (symbols_read self.now) part.entry.tokens.now) result }
    {
        match part.tokens {
            [Lexeme::Word(word)] => match item_of_word(word.get()) {
                Some(item) => Ok(item),
                None => Err(part.fault(FaultCode::NoComparison)),
            },
            [word, _, ..] if is_the(b"PIXEL", word) => self.pixel(part.after(1)),
            _ => match part.between(b'[', b']') {
                Some(inside) => {
                    let address = self.number_below(inside, MEMORY_BYTES as u32)?;
                    Ok(Item::Byte(address as u16))
                }
                None => Err(part.fault(FaultCode::NoComparison)),
            },
        }
    }

    /// Reads a column and a row in parentheses.
    fn pixel(&self, part: Part<'_>) -> Result<Item, Failure>
        ensures { IsRead (pixel_in (symbols_read self.now) part.entry.tokens.now) result }
    {
        let Some(inside) = part.between(b'(', b')') else {
            return Err(part.fault(FaultCode::NoComparison));
        };
        let (column, Some(row)) = inside.split_around(Separator::Comma) else {
            return Err(part.fault(FaultCode::NoComparison));
        };
        let x = self.number_below(column, SCREEN_WIDTH)?;
        let y = self.number_below(row, SCREEN_HEIGHT)?;
        Ok(Item::Pixel {
            x: x as u8,
            y: y as u8,
        })
    }

    /// Returns the value of a number, a name, or an expression in parentheses.
    fn value(&self, part: Part<'_>) -> Result<u32, Failure>
        ensures { IsRead (value_in (symbols_read self.now) part.entry.tokens.now) result }
    {
        match part.tokens {
            [Lexeme::Word(word)] if is_property_word(word.get()) => {
                Err(part.fault(FaultCode::NoComparison))
            }
            [_] => self.number(part),
            _ => match part.between(b'(', b')') {
                Some(inside) => self.number(inside),
                None => Err(part.fault(FaultCode::NoComparison)),
            },
        }
    }

    /// Returns the value of an expression, which must be below a limit.
    fn number_below(&self, part: Part<'_>, limit: u32) -> Result<u32, Failure>
        ensures ok { IsRead
            (number_below_in limit (symbols_read self.now) part.entry.tokens.now) result }
        ensures bound { IfOk result (λ n. n < limit) }
    {
        let number = self.number(part)?;
        if number < limit {
            Ok(number)
        } else {
            Err(part.fault(FaultCode::OutOfRange))
        }
    }

    /// Returns the value of an expression, which must not be below 0.
    fn number(&self, part: Part<'_>) -> Result<u32, Failure>
        ensures { IsRead (number_in (symbols_read self.now) part.entry.tokens.now) result }
    {
        let Some(expression) = parse_expression(self.alloc, part.tokens)? else {
            return Err(part.fault(FaultCode::NoComparison));
        };
        match eval(&expression, self.source) {
            Ok(value) => match u32::try_from(value) {
                Ok(number) => Ok(number),
                Err(_) => Err(part.fault(FaultCode::OutOfRange)),
            },
            Err(Fault::UndefinedName) => Err(part.fault(FaultCode::UndefinedName)),
            Err(_) => Err(part.fault(FaultCode::OutOfRange)),
        }
    }
}

/// Whether tokens begin like an item that a property can use.
fn is_item(tokens: &[Lexeme]) -> bool
    ensures { result ≡ is_item tokens.now }
{
    match tokens {
        [Lexeme::Word(word)] => item_of_word(word.get()).is_some(),
        [first, _, ..] => is_the(b"PIXEL", first) || is_sign_of(b'[', first),
        _ => false,
    }
}

/// Returns the kind whose word tokens begin with, if any.
fn kind_in_front(tokens: &[Lexeme]) -> Option<Kind>
    ensures value { result ≡ kind_in_front tokens.now }
    ensures some { IfSome result (λ _. 1 ≤ length tokens.now) }
{
    match tokens.first() {
        Some(Lexeme::Word(word)) => kind_of_word(word.get()),
        _ => None,
    }
}
