// Single tokens at the front of those that are left.
ghost use Rattle.std.specs.Prelude.{◌≡◌, ◌<◌, ◌≤◌, length, Ok, IfOk};
ghost use Rattle.alloy_syntax.specs.Readers.{next_is, after, place_at, expect, spelled_at, name_at, path_at, number_at, value_from, with_digit, is_mark, multiplicity_of, mark_at, after_mark, names_at, others, colon_after_names};
ghost use Rattle.alloy_syntax.specs.Gives.{Gives};

use crate::parse_stop::{ParseStop, Tokens};
use crate::tree::{Multiplicity, MultiplicityWord, Name, Number};
use crate::{Class, is_class};
use alloy_lex::{Place, Text};
use std::alloc::Global;

/// Whether the next token is that terminal.
#[tactic(auto, unfolding(crate::specs::Readers::next_is))]
pub fn next_is(tokens: Tokens, class: Class) -> bool
    ensures { result ≡ next_is class tokens.entry.left.now }
{
    match tokens.left {
        [] => false,
        [next, ..] => is_class(next.class, class),
    }
}

/// The tokens behind the next one.
pub fn after<'a>(tokens: Tokens<'a>) -> Tokens<'a>
    ensures value { result.left.now ≡ after tokens.entry.left.now }
    ensures shorter { length result.left.now ≤ length tokens.entry.left.now }
    ensures fewer { 0 < length tokens.entry.left.now → length result.left.now < length tokens.entry.left.now }
{
    match tokens.left {
        [] => tokens,
        [_, rest @ ..] => Tokens { left: rest },
    }
}

/// Where the next token stands.
pub fn place_at(tokens: Tokens) -> Place
    ensures { result ≡ place_at tokens.entry.left.now }
{
    match tokens.left {
        [] => Place { line: 1, column: 1 },
        [next, ..] => next.place,
    }
}

/// A token of that class, by its place.
#[tactic(auto, unfolding(crate::specs::Readers::expect))]
pub fn expect<'a>(tokens: Tokens<'a>, class: Class) -> Result<(Place, Tokens<'a>), ParseStop<'a>>
    ensures value { Gives (λ x. (x.0, x.1.left.now)) result (expect class tokens.entry.left.now) }
    ensures shorter { IfOk result (λ x. length x.1.left.now < length tokens.entry.left.now) }
{
    match tokens.left {
        [] => Err(ParseStop::Refused(tokens)),
        [next, rest @ ..] => {
            if is_class(next.class, class) {
                Ok((next.place, Tokens { left: rest }))
            } else {
                Err(ParseStop::Refused(tokens))
            }
        }
    }
}

// What a token of that class spells, as a name.
#[tactic(auto, unfolding(crate::specs::Readers::spelled_at))]
fn spelled<'a>(
    alloc: Global,
    tokens: Tokens<'a>,
    class: Class,
) -> Result<(Name, Tokens<'a>), ParseStop<'a>>
    ensures value { Gives (λ x. (x.0, x.1.left.now)) result (spelled_at class tokens.entry.left.now) }
    ensures shorter { IfOk result (λ x. length x.1.left.now < length tokens.entry.left.now) }
{
    match tokens.left {
        [] => Err(ParseStop::Refused(tokens)),
        [next, rest @ ..] => {
            if !is_class(next.class, class) {
                return Err(ParseStop::Refused(tokens));
            }
            let name = Name {
                text: Text::of(alloc, next.text.text())?,
                place: next.place,
            };
            Ok((name, Tokens { left: rest }))
        }
    }
}

/// A name.
pub fn name<'a>(alloc: Global, tokens: Tokens<'a>) -> Result<(Name, Tokens<'a>), ParseStop<'a>>
    ensures value { Gives (λ x. (x.0, x.1.left.now)) result (name_at tokens.entry.left.now) }
    ensures shorter { IfOk result (λ x. length x.1.left.now < length tokens.entry.left.now) }
{
    spelled(alloc, tokens, Class::Name)
}

/// A path, as a name with its slash.
pub fn path<'a>(alloc: Global, tokens: Tokens<'a>) -> Result<(Name, Tokens<'a>), ParseStop<'a>>
    ensures value { Gives (λ x. (x.0, x.1.left.now)) result (path_at tokens.entry.left.now) }
    ensures shorter { IfOk result (λ x. length x.1.left.now < length tokens.entry.left.now) }
{
    spelled(alloc, tokens, Class::Path)
}

/// A number.
#[tactic(auto, unfolding(crate::specs::Readers::number_at))]
pub fn number<'a>(tokens: Tokens<'a>) -> Result<(Number, Tokens<'a>), ParseStop<'a>>
    ensures value { Gives (λ x. (x.0, x.1.left.now)) result (number_at tokens.entry.left.now) }
    ensures shorter { IfOk result (λ x. length x.1.left.now < length tokens.entry.left.now) }
{
    match tokens.left {
        [] => Err(ParseStop::Refused(tokens)),
        [next, rest @ ..] => {
            if !is_class(next.class, Class::Number) {
                return Err(ParseStop::Refused(tokens));
            }
            let number = Number {
                value: value_of(next.text.text().as_bytes()),
                place: next.place,
            };
            Ok((number, Tokens { left: rest }))
        }
    }
}

// The value of these digits, or 1,001 where it is greater.
fn value_of(digits: &[u8]) -> u16
    ensures { result ≡ value_from 0 digits.now }
{
    let mut value = 0;
    let mut rest = digits;
    'each: while let [digit, others @ ..] = rest {
        value = with_digit(value, *digit);
        rest = others;
    }
    value
}

fn with_digit(value: u16, digit: u8) -> u16
    requires { value ≤ 1001 }
    ensures value { result ≡ with_digit value digit }
    ensures few { result ≤ 1001 }
{
    (10 * value + u16::from(digit.saturating_sub(b'0'))).min(1001)
}

/// Whether the next token is a multiplicity word.
#[tactic(auto, unfolding(crate::specs::Readers::is_mark))]
pub fn is_mark(tokens: Tokens) -> bool
    ensures { result ≡ is_mark tokens.entry.left.now }
{
    next_is(tokens, Class::Set)
        || next_is(tokens, Class::One)
        || next_is(tokens, Class::Lone)
        || next_is(tokens, Class::Some)
}

fn multiplicity_of(tokens: Tokens) -> Multiplicity
    ensures { result ≡ multiplicity_of tokens.entry.left.now }
{
    if next_is(tokens, Class::Set) {
        Multiplicity::Set
    } else if next_is(tokens, Class::One) {
        Multiplicity::One
    } else if next_is(tokens, Class::Lone) {
        Multiplicity::Lone
    } else {
        Multiplicity::Some
    }
}

/// A multiplicity word, if the next token is one.
#[tactic(auto, unfolding(crate::specs::Readers::mark_at))]
pub fn mark_at(tokens: Tokens) -> Option<MultiplicityWord>
    ensures { result ≡ mark_at tokens.entry.left.now }
{
    if is_mark(tokens) {
        Some(MultiplicityWord {
            multiplicity: multiplicity_of(tokens),
            place: place_at(tokens),
        })
    } else {
        None
    }
}

/// The tokens behind a multiplicity word, if the next token is one.
#[tactic(auto, unfolding(crate::specs::Readers::after_mark))]
pub fn after_mark<'a>(tokens: Tokens<'a>) -> Tokens<'a>
    ensures value { result.left.now ≡ after_mark tokens.entry.left.now }
    ensures shorter { length result.left.now ≤ length tokens.entry.left.now }
{
    if is_mark(tokens) {
        after(tokens)
    } else {
        tokens
    }
}

/// The same list, in no more memory than it fills.
pub fn fitted<T: Drop>(list: Vec<T>) -> Vec<T>
    ensures { result.items ≡ list.items }
{
    let mut list = list;
    list.shrink_to_fit();
    list
}

/// Names with commas between them.
#[tactic(auto, unfolding(crate::specs::Readers::names_at, crate::specs::Readers::listed))]
pub fn names<'a>(
    alloc: Global,
    tokens: Tokens<'a>,
) -> Result<(Vec<Name>, Tokens<'a>), ParseStop<'a>>
    ensures value { Gives (λ x. (x.0.items, x.1.left.now)) result (names_at tokens.entry.left.now) }
    ensures shorter { IfOk result (λ x. length x.1.left.now < length tokens.entry.left.now) }
{
    let (first, rest) = name(alloc, tokens)?;
    more_names(alloc, first, rest)
}

#[tactic(auto, unfolding(crate::specs::Readers::others))]
fn more_names<'a>(
    alloc: Global,
    first: Name,
    tokens: Tokens<'a>,
) -> Result<(Vec<Name>, Tokens<'a>), ParseStop<'a>>
    ensures value { Gives (λ x. (x.0.items, x.1.left.now)) result (others name_at first tokens.entry.left.now) }
    ensures shorter { IfOk result (λ x. length x.1.left.now ≤ length tokens.entry.left.now) }
{
    let mut all = Vec::new(alloc);
    all.push(first)?;
    let mut rest = tokens;
    'each: while next_is(rest, Class::Comma) {
        let (another, behind) = name(alloc, after(rest))?;
        all.push(another)?;
        rest = behind;
    }
    Ok((fitted(all), rest))
}

/// Whether names with commas and then a colon stand there.
#[tactic(auto, unfolding(crate::specs::Readers::colon_after_names))]
pub fn colon_after_names(tokens: Tokens) -> bool
    ensures { result ≡ colon_after_names tokens.entry.left.now }
{
    let mut rest = tokens;
    'each: while let [name, mark, others @ ..] = rest.left {
        if !is_class(name.class, Class::Name) {
            return false;
        }
        if is_class(mark.class, Class::Colon) {
            return true;
        }
        if !is_class(mark.class, Class::Comma) {
            return false;
        }
        rest = Tokens { left: others };
    }
    false
}
