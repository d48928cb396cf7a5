// Readers of a field's bound. Each takes where the bound stands; how many brackets more may nest (`room`) stands in the rules.
ghost use Rattle.std.specs.Prelude.{◌≡◌, ◌<◌, ◌≤◌, length, map, IfOk, if◌then◌else◌, Ok, true};
ghost use Rattle.alloy_syntax.specs.Readers.{place_at};
ghost use Rattle.alloy_syntax.specs.Bounds as spec;
ghost use Rattle.alloy_syntax.specs.View.{arrow_view};
ghost use Rattle.alloy_syntax.specs.Gives.{Gives};
ghost use Rattle.alloy_parse.specs.Bounds.{standing_view, word_view, bounded, operand_view, named_over, operands_over, ReadsBound};

use crate::expressions::rules::Read;
use alloy_lex::Place;
use alloy_syntax::Class;
use alloy_syntax::cursor::{
    after, after_mark, expect, fitted, is_mark, mark_at, name, next_is, place_at,
};
use alloy_syntax::parse_stop::{ParseStop, Tokens};
use alloy_syntax::reading::Form;
use alloy_syntax::tree::{Bound, BoundArrow};
use std::alloc::Global;

/// Where a part of a field's bound stands.
#[derive(Clone, Copy)]
pub enum Standing<'a> {
    /// It may yet be the whole bound.
    Whole,
    Part,
    /// It is a side of an arrow that has a multiplicity word, the first of which these tokens begin with.
    Beside(Tokens<'a>),
}

/// A bound that was read: its tree, the tokens from its first multiplicity word, and whether it has an arrow.
#[derive(Drop)]
pub struct ReadBound<'a> {
    pub bound: Bound,
    pub marked: Option<Tokens<'a>>,
    pub has_arrow: bool,
}

// What stands before an arrow: where its bound stands, a word on the left, and whether an arrow is there.
#[derive(Clone, Copy)]
struct Before<'a> {
    standing: Standing<'a>,
    marked: Option<Tokens<'a>>,
    has_arrow: bool,
}

#[tactic(auto, unfolding(alloy_syntax::specs::Bounds::is_whole))]
fn is_whole(standing: Standing) -> bool
    ensures { result ≡ spec.is_whole (standing_view standing.entry) }
{
    match standing {
        Standing::Whole => true,
        Standing::Part | Standing::Beside(_) => false,
    }
}

// The word of the arrow round a bound.
#[tactic(auto, unfolding(alloy_syntax::specs::Bounds::word_round))]
fn word_round<'a>(standing: Standing<'a>) -> Option<Tokens<'a>>
    ensures { word_view result ≡ spec.word_round (standing_view standing.entry) }
{
    match standing {
        Standing::Whole | Standing::Part => None,
        Standing::Beside(word) => Some(word),
    }
}

// Where an operand of `+` stands.
#[tactic(auto, unfolding(alloy_syntax::specs::Bounds::operand_in))]
fn operand_in<'a>(standing: Standing<'a>) -> Standing<'a>
    ensures { standing_view result ≡ spec.operand_in (standing_view standing.entry) }
{
    match standing {
        Standing::Whole | Standing::Part => Standing::Part,
        Standing::Beside(word) => Standing::Beside(word),
    }
}

// Where the right side of an arrow stands, the first of whose words is that.
#[tactic(auto, unfolding(alloy_syntax::specs::Bounds::standing_beside))]
fn standing_beside<'a>(marked: Option<Tokens<'a>>) -> Standing<'a>
    ensures { standing_view result ≡ spec.standing_beside (word_view marked.entry) }
{
    match marked {
        None => Standing::Part,
        Some(word) => Standing::Beside(word),
    }
}

// The first multiplicity word beside an arrow.
#[tactic(auto, unfolding(alloy_syntax::specs::Bounds::word_beside))]
fn word_beside<'a>(tokens: Tokens<'a>) -> Option<Tokens<'a>>
    ensures { word_view result ≡ spec.word_beside tokens.entry.left.now }
{
    if is_mark(tokens) {
        return Some(tokens);
    }
    let behind = after(tokens);
    if is_mark(behind) { Some(behind) } else { None }
}

// A word that may not stand there.
fn refuse_word<'a>(marked: Option<Tokens<'a>>) -> Result<(), ParseStop<'a>>
    ensures { Gives (λ x. tt) result (spec.refuse_word true (word_view marked.entry)) }
{
    match marked {
        None => Ok(()),
        Some(word) => Err(ParseStop::Unsupported(Form::ArrowMultiplicity, word)),
    }
}

// A word that may stand there only where that is said.
fn refuse_unless<'a>(allowed: bool, marked: Option<Tokens<'a>>) -> Result<(), ParseStop<'a>>
    ensures { Gives (λ x. tt) result (if allowed then Ok tt else spec.refuse_word true (word_view marked.entry)) }
{
    if allowed { Ok(()) } else { refuse_word(marked) }
}

// An arrow, or a multiplicity word before one.
#[tactic(auto, unfolding(alloy_syntax::specs::Bounds::begins_bound_arrow))]
fn begins_bound_arrow(tokens: Tokens) -> bool
    ensures { result ≡ spec.begins_bound_arrow tokens.entry.left.now }
{
    next_is(tokens, Class::Arrow) || is_mark(tokens)
}

/// A name, or the opening bracket of a bound.
#[tactic(auto, unfolding(alloy_syntax::specs::Bounds::begins_bound))]
pub fn begins_bound(tokens: Tokens) -> bool
    ensures { result ≡ spec.begins_bound tokens.entry.left.now }
{
    next_is(tokens, Class::LeftParen) || next_is(tokens, Class::Name)
}

// A name.
fn named<'a>(alloc: Global, tokens: Tokens<'a>) -> Read<'a, ReadBound<'a>>
    ensures value { Gives (λ x. (bounded x.0, x.1.left.now)) result (named_over tokens.entry.left.now) }
    ensures shorter { IfOk result (λ x. length x.1.left.now < length tokens.entry.left.now) }
{
    let (name, rest) = name(alloc, tokens)?;
    let read = ReadBound {
        bound: Bound::Named(name),
        marked: None,
        has_arrow: false,
    };
    Ok((read, rest))
}

/// The rules for bounds, where so many brackets more may nest: over a reader of what stands in them, so that each is proved
/// by itself.
#[derive(Clone, Copy)]
pub struct Rules<F> {
    pub alloc: Global,
    pub room: u32,
    /// Reads what stands in brackets.
    pub reader: F,
}

impl<F: for<'a> Fn(Global, Tokens<'a>, u32, Standing<'a>) -> Read<'a, ReadBound<'a>>> Rules<F> {
    // What stands in brackets.
    fn inside<'a>(&self, tokens: Tokens<'a>, standing: Standing<'a>) -> Read<'a, ReadBound<'a>>
        requires { ReadsBound self.now.room (F.pre self.now.reader) (F.post self.now.reader) }
        ensures value { Gives (λ x. (bounded x.0, x.1.left.now)) result (spec.bound_within true self.now.room (standing_view standing.entry) tokens.entry.left.now) }
        ensures shorter { IfOk result (λ x. length x.1.left.now < length tokens.entry.left.now) }
    {
        (self.reader)(self.alloc, tokens, self.room, standing)
    }

    // A name, or a bound in brackets.
    #[tactic(auto, unfolding(alloy_syntax::specs::Bounds::side_over))]
    fn side<'a>(&self, tokens: Tokens<'a>, standing: Standing<'a>) -> Read<'a, ReadBound<'a>>
        requires { ReadsBound self.now.room (F.pre self.now.reader) (F.post self.now.reader) }
        ensures value { Gives (λ x. (bounded x.0, x.1.left.now)) result (spec.side_over (spec.bound_within true self.now.room) (standing_view standing.entry) tokens.entry.left.now) }
        ensures shorter { IfOk result (λ x. length x.1.left.now < length tokens.entry.left.now) }
    {
        if !next_is(tokens, Class::LeftParen) {
            return named(self.alloc, tokens);
        }
        let (inner, rest) = self.inside(after(tokens), standing)?;
        let bound = Box::new(self.alloc, inner.bound)?;
        let (_, rest) = expect(rest, Class::RightParen)?;
        let read = ReadBound {
            bound: Bound::Bracketed(place_at(tokens), bound),
            marked: inner.marked,
            has_arrow: inner.has_arrow,
        };
        Ok((read, rest))
    }

    // An arrow with its right side.
    #[tactic(auto, unfolding(alloy_syntax::specs::Bounds::bound_arrow_over))]
    fn arrow<'a>(&self, tokens: Tokens<'a>, before: Before<'a>) -> Read<'a, BoundArrow>
        requires { ReadsBound self.now.room (F.pre self.now.reader) (F.post self.now.reader) }
        ensures value { Gives (λ x. (arrow_view x.0, x.1.left.now)) result (spec.bound_arrow_over true (spec.bound_within true self.now.room) (standing_view before.entry.standing) (word_view before.entry.marked) before.entry.has_arrow tokens.entry.left.now) }
        ensures shorter { IfOk result (λ x. length x.1.left.now < length tokens.entry.left.now) }
    {
        let (place, rest) = expect(after_mark(tokens), Class::Arrow)?;
        refuse_word(word_round(before.standing))?;
        refuse_word(before.marked)?;
        let left = mark_at(tokens);
        let right = mark_at(rest);
        let marked = word_beside(tokens);
        refuse_unless(is_whole(before.standing) && !before.has_arrow, marked)?;
        let (side, rest) = self.side(after_mark(rest), standing_beside(marked))?;
        let arrow = BoundArrow {
            left,
            place,
            right,
            side: side.bound,
        };
        Ok((arrow, rest))
    }

    // The first arrow, with the first word beside it, and the others.
    #[tactic(auto, unfolding(alloy_syntax::specs::Bounds::more_bound_arrows))]
    fn more_arrows<'a>(
        &self,
        first: BoundArrow,
        marked: Option<Tokens<'a>>,
        tokens: Tokens<'a>,
        standing: Standing<'a>,
    ) -> Read<'a, Vec<BoundArrow>>
        requires { ReadsBound self.now.room (F.pre self.now.reader) (F.post self.now.reader) }
        ensures value { Gives (λ x. (map arrow_view x.0.items, x.1.left.now)) result (spec.more_bound_arrows true (spec.bound_within true self.now.room) (standing_view standing.entry) (word_view marked.entry) (arrow_view first) tokens.entry.left.now) }
        ensures shorter { IfOk result (λ x. length x.1.left.now ≤ length tokens.entry.left.now) }
    {
        let before = Before {
            standing,
            marked,
            has_arrow: true,
        };
        let mut all = Vec::new(self.alloc);
        all.push(first)?;
        let mut rest = tokens;
        'each: while begins_bound_arrow(rest) {
            let (another, behind) = self.arrow(rest, before)?;
            all.push(another)?;
            rest = behind;
        }
        Ok((fitted(all), rest))
    }

    // Sides with arrows between them.
    #[tactic(auto, unfolding(alloy_syntax::specs::Bounds::bound_arrows_over))]
    fn arrows<'a>(&self, tokens: Tokens<'a>, standing: Standing<'a>) -> Read<'a, ReadBound<'a>>
        requires { ReadsBound self.now.room (F.pre self.now.reader) (F.post self.now.reader) }
        ensures value { Gives (λ x. (bounded x.0, x.1.left.now)) result (spec.bound_arrows_over true (spec.bound_within true self.now.room) (standing_view standing.entry) tokens.entry.left.now) }
        ensures shorter { IfOk result (λ x. length x.1.left.now < length tokens.entry.left.now) }
    {
        let (first, rest) = self.side(tokens, standing)?;
        if !begins_bound_arrow(rest) {
            return Ok((first, rest));
        }
        let before = Before {
            standing,
            marked: first.marked,
            has_arrow: first.has_arrow,
        };
        let left = Box::new(self.alloc, first.bound)?;
        let marked = word_beside(rest);
        let (arrow, rest) = self.arrow(rest, before)?;
        let (arrows, rest) = self.more_arrows(arrow, marked, rest, standing)?;
        let read = ReadBound {
            bound: Bound::Arrows(left, arrows),
            marked,
            has_arrow: true,
        };
        Ok((read, rest))
    }

    // An operand behind its `+`.
    #[tactic(auto, unfolding(alloy_syntax::specs::Bounds::operand_over))]
    fn operand<'a>(&self, tokens: Tokens<'a>, standing: Standing<'a>) -> Read<'a, ReadBound<'a>>
        requires { ReadsBound self.now.room (F.pre self.now.reader) (F.post self.now.reader) }
        ensures value { Gives (λ x. ((place_at tokens.entry.left.now, bounded x.0), x.1.left.now)) result (spec.operand_over true (spec.bound_within true self.now.room) (standing_view standing.entry) tokens.entry.left.now) }
        ensures shorter { IfOk result (λ x. length x.1.left.now < length tokens.entry.left.now) }
    {
        self.arrows(after(tokens), operand_in(standing))
    }

    // The operands behind the first, with the places of the `+` before them, and whether one of them has an arrow.
    #[tactic(auto, unfolding(crate::specs::Bounds::operands_over))]
    fn operands<'a>(
        &self,
        tokens: Tokens<'a>,
        standing: Standing<'a>,
    ) -> Result<(Vec<(Place, Bound)>, bool, Tokens<'a>), ParseStop<'a>>
        requires { ReadsBound self.now.room (F.pre self.now.reader) (F.post self.now.reader) }
        ensures value { Gives (λ x. ((map operand_view x.0.items, x.1), x.2.left.now)) result (operands_over (spec.bound_within true self.now.room) (standing_view standing.entry) tokens.entry.left.now) }
        ensures shorter { IfOk result (λ x. length x.2.left.now ≤ length tokens.entry.left.now) }
    {
        let mut all = Vec::new(self.alloc);
        let mut has_arrow = false;
        let mut rest = tokens;
        'each: while next_is(rest, Class::Plus) {
            let (another, behind) = self.operand(rest, standing)?;
            all.push((place_at(rest), another.bound))?;
            has_arrow |= another.has_arrow;
            rest = behind;
        }
        Ok((fitted(all), has_arrow, rest))
    }

    /// Operands with `+` between them.
    #[tactic(auto, unfolding(alloy_syntax::specs::Bounds::bound_over, crate::specs::Bounds::operands_over))]
    pub fn bound<'a>(&self, tokens: Tokens<'a>, standing: Standing<'a>) -> Read<'a, ReadBound<'a>>
        requires { ReadsBound self.now.room (F.pre self.now.reader) (F.post self.now.reader) }
        ensures value { Gives (λ x. (bounded x.0, x.1.left.now)) result (spec.bound_over true (spec.bound_within true self.now.room) (standing_view standing.entry) tokens.entry.left.now) }
        ensures shorter { IfOk result (λ x. length x.1.left.now < length tokens.entry.left.now) }
    {
        let (first, rest) = self.arrows(tokens, standing)?;
        if !next_is(rest, Class::Plus) {
            return Ok((first, rest));
        }
        refuse_word(first.marked)?;
        let left = Box::new(self.alloc, first.bound)?;
        let (others, has_arrow, rest) = self.operands(rest, standing)?;
        let read = ReadBound {
            bound: Bound::Union(left, others),
            marked: None,
            has_arrow: first.has_arrow || has_arrow,
        };
        Ok((read, rest))
    }
}

/// A bound, under which so many brackets more may nest.
#[tactic(auto, using(crate::proofs::Depth::bound_at_zero, crate::proofs::Depth::bound_above))]
pub fn bound_within<'a>(
    alloc: Global,
    tokens: Tokens<'a>,
    room: u32,
    standing: Standing<'a>,
) -> Result<(ReadBound<'a>, Tokens<'a>), ParseStop<'a>>
    ensures value { Gives (λ x. (bounded x.0, x.1.left.now)) result (spec.bound_within true room (standing_view standing.entry) tokens.entry.left.now) }
    ensures shorter { IfOk result (λ x. length x.1.left.now < length tokens.entry.left.now) }
{
    if room > 0 {
        let rules = Rules {
            alloc,
            room: room - 1,
            reader: bound_within,
        };
        return rules.bound(tokens, standing);
    }
    if begins_bound(tokens) {
        Err(ParseStop::Deep(tokens))
    } else {
        Err(ParseStop::Refused(tokens))
    }
}
