// What stands between the levels of operators: implications, negations, comparisons and sizes.
ghost use Rattle.std.specs.Prelude.{◌≡◌, ◌<◌, true, length, IfOk};
ghost use Rattle.alloy_syntax.specs.Gives.{Gives};
ghost use Rattle.alloy_parse.specs.Nodes.Reader.{ReadsWithin};
ghost use Rattle.alloy_syntax.specs.View.{view};
ghost use Rattle.alloy_parse.specs.Behind.{compared_with, right_side, otherwise};
ghost use Rattle.alloy_syntax.specs.Nodes.{within, size_over, sum_over, counted_over, comparison_over, negation_over, implication_over, implied_over, node_over};

use crate::expressions::rules::{Read, Rules};
use crate::expressions::signs::{
    begins_comparison, begins_declaration, comparing, counting_of, is_counting, quantifier_of,
};
use alloy_lex::Place;
use alloy_syntax::Class;
use alloy_syntax::cursor::{after, next_is, place_at};
use alloy_syntax::parse_stop::Tokens;
use alloy_syntax::reading::{Around, Inside, Level};
use alloy_syntax::tree::{Comparing, Node, Prefix, Quantifier};
use std::alloc::Global;

impl<F: for<'a> Fn(Global, Tokens<'a>, u32, Around, Inside) -> Read<'a, Node>> Rules<F> {
    #[cycle(levels)]
    #[tactic(auto, unfolding(alloy_syntax::specs::Nodes::size_over, alloy_syntax::specs::Nodes::override_over))]
    pub fn size<'a>(&self, tokens: Tokens<'a>, around: Around) -> Read<'a, Node>
        requires { ReadsWithin self.now.room (F.pre self.now.reader) (F.post self.now.reader) }
        ensures value { Gives (λ x. (view x.0, x.1.left.now)) result (size_over (within true self.now.room) around tokens.entry.left.now) }
        ensures shorter { IfOk result (λ x. length x.1.left.now < length tokens.entry.left.now) }
    {
        if next_is(tokens, Class::Hash) {
            return self.prefixed(tokens, around, Prefix::Size, Inside::Size);
        }
        self.chain(tokens, around, Level::Override)
    }

    // An expression: with `+` and `-` between them.
    #[tactic(auto, unfolding(alloy_syntax::specs::Nodes::sum_over))]
    pub fn sum<'a>(&self, tokens: Tokens<'a>, around: Around) -> Read<'a, Node>
        requires { ReadsWithin self.now.room (F.pre self.now.reader) (F.post self.now.reader) }
        ensures value { Gives (λ x. (view x.0, x.1.left.now)) result (sum_over (within true self.now.room) around tokens.entry.left.now) }
        ensures shorter { IfOk result (λ x. length x.1.left.now < length tokens.entry.left.now) }
    {
        self.chain(tokens, around, Level::Sum)
    }

    #[cycle(levels)]
    #[tactic(auto, unfolding(alloy_syntax::specs::Nodes::counted_over, alloy_syntax::specs::Nodes::sum_over))]
    fn counted<'a>(&self, tokens: Tokens<'a>, around: Around) -> Read<'a, Node>
        requires { ReadsWithin self.now.room (F.pre self.now.reader) (F.post self.now.reader) }
        ensures value { Gives (λ x. (view x.0, x.1.left.now)) result (counted_over (within true self.now.room) around tokens.entry.left.now) }
        ensures shorter { IfOk result (λ x. length x.1.left.now < length tokens.entry.left.now) }
    {
        if is_counting(tokens) {
            return self.prefixed(tokens, around, counting_of(tokens), Inside::Sum);
        }
        self.chain(tokens, around, Level::Sum)
    }

    #[cycle(levels)]
    #[tactic(auto, unfolding(alloy_syntax::specs::Nodes::comparison_over))]
    fn comparison<'a>(&self, tokens: Tokens<'a>, around: Around) -> Read<'a, Node>
        requires { ReadsWithin self.now.room (F.pre self.now.reader) (F.post self.now.reader) }
        ensures value { Gives (λ x. (view x.0, x.1.left.now)) result (comparison_over (within true self.now.room) around tokens.entry.left.now) }
        ensures shorter { IfOk result (λ x. length x.1.left.now < length tokens.entry.left.now) }
    {
        let (left, rest) = self.counted(tokens, around)?;
        if !begins_comparison(rest, around) {
            return Ok((left, rest));
        }
        self.compared_with(left, rest, around)
    }

    // The left side, with the comparison and its right side.
    #[cycle(levels)]
    fn compared_with<'a>(&self, left: Node, tokens: Tokens<'a>, around: Around) -> Read<'a, Node>
        requires { ReadsWithin self.now.room (F.pre self.now.reader) (F.post self.now.reader) }
        ensures value { Gives (λ x. (view x.0, x.1.left.now)) result (compared_with (within true self.now.room) around (view left) tokens.entry.left.now) }
        ensures shorter { IfOk result (λ x. length x.1.left.now < length tokens.entry.left.now) }
    {
        let left = Box::new(self.alloc, left)?;
        let (comparing, rest) = comparing(tokens)?;
        self.right_side(left, comparing, rest, around)
    }

    // The right side of a comparison.
    #[cycle(levels)]
    fn right_side<'a>(
        &self,
        left: Box<Node>,
        comparing: Comparing,
        tokens: Tokens<'a>,
        around: Around,
    ) -> Read<'a, Node>
        requires { ReadsWithin self.now.room (F.pre self.now.reader) (F.post self.now.reader) }
        ensures value { Gives (λ x. (view x.0, x.1.left.now)) result (right_side (within true self.now.room) around (view left.value) comparing tokens.entry.left.now) }
        ensures shorter { IfOk result (λ x. length x.1.left.now < length tokens.entry.left.now) }
    {
        let (right, rest) = self.counted(tokens, around)?;
        let right = Box::new(self.alloc, right)?;
        Ok((Node::Compared(left, comparing, right), rest))
    }

    #[cycle(levels)]
    #[tactic(auto, unfolding(alloy_syntax::specs::Nodes::negation_over))]
    pub fn negation<'a>(&self, tokens: Tokens<'a>, around: Around) -> Read<'a, Node>
        requires { ReadsWithin self.now.room (F.pre self.now.reader) (F.post self.now.reader) }
        ensures value { Gives (λ x. (view x.0, x.1.left.now)) result (negation_over (within true self.now.room) around tokens.entry.left.now) }
        ensures shorter { IfOk result (λ x. length x.1.left.now < length tokens.entry.left.now) }
    {
        if next_is(tokens, Class::Not) {
            return self.prefixed(tokens, around, Prefix::Not, Inside::Negation);
        }
        let place = place_at(tokens);
        let rest = after(tokens);
        if next_is(tokens, Class::All) {
            return self.inside(rest, around, Inside::Quantified(Quantifier::All, place));
        }
        if next_is(tokens, Class::Let) {
            return self.inside(rest, around, Inside::Let(place));
        }
        if is_counting(tokens) && begins_declaration(rest, around) {
            return self.inside(
                rest,
                around,
                Inside::Quantified(quantifier_of(tokens), place),
            );
        }
        self.comparison(tokens, around)
    }

    #[cycle(levels)]
    #[tactic(auto, unfolding(alloy_syntax::specs::Nodes::implication_over, alloy_syntax::specs::Nodes::and_over))]
    pub fn implication<'a>(&self, tokens: Tokens<'a>, around: Around) -> Read<'a, Node>
        requires { ReadsWithin self.now.room (F.pre self.now.reader) (F.post self.now.reader) }
        ensures value { Gives (λ x. (view x.0, x.1.left.now)) result (implication_over (within true self.now.room) around tokens.entry.left.now) }
        ensures shorter { IfOk result (λ x. length x.1.left.now < length tokens.entry.left.now) }
    {
        let (left, rest) = self.chain(tokens, around, Level::And)?;
        if !next_is(rest, Class::Implies) {
            return Ok((left, rest));
        }
        self.implied(left, place_at(rest), after(rest), around)
    }

    // What stands behind `=>`, where a nearer `else` belongs to a nearer `=>`.
    #[tactic(auto, unfolding(alloy_syntax::specs::Nodes::implied_over))]
    fn implied<'a>(
        &self,
        left: Node,
        place: Place,
        tokens: Tokens<'a>,
        around: Around,
    ) -> Read<'a, Node>
        requires { ReadsWithin self.now.room (F.pre self.now.reader) (F.post self.now.reader) }
        ensures value { Gives (λ x. (view x.0, x.1.left.now)) result (implied_over (within true self.now.room) around (view left) place tokens.entry.left.now) }
        ensures shorter { IfOk result (λ x. length x.1.left.now < length tokens.entry.left.now) }
    {
        let left = Box::new(self.alloc, left)?;
        let (then, rest) = self.inside(tokens, around, Inside::Implied)?;
        let then = Box::new(self.alloc, then)?;
        if !next_is(rest, Class::Else) {
            return Ok((Node::Implies(left, place, then), rest));
        }
        self.otherwise(left, place, then, after(rest), around)
    }

    // What stands behind `else`.
    fn otherwise<'a>(
        &self,
        left: Box<Node>,
        place: Place,
        then_part: Box<Node>,
        tokens: Tokens<'a>,
        around: Around,
    ) -> Read<'a, Node>
        requires { ReadsWithin self.now.room (F.pre self.now.reader) (F.post self.now.reader) }
        ensures value { Gives (λ x. (view x.0, x.1.left.now)) result (otherwise (within true self.now.room) around (view left.value) place (view then_part.value) tokens.entry.left.now) }
        ensures shorter { IfOk result (λ x. length x.1.left.now < length tokens.entry.left.now) }
    {
        let (last, rest) = self.inside(tokens, around, Inside::Implied)?;
        let last = Box::new(self.alloc, last)?;
        Ok((Node::ImpliesElse(left, place, then_part, last), rest))
    }

    // What the grammar calls a node: with `||` between them.
    #[tactic(auto, unfolding(alloy_syntax::specs::Nodes::node_over))]
    pub fn node<'a>(&self, tokens: Tokens<'a>, around: Around) -> Read<'a, Node>
        requires { ReadsWithin self.now.room (F.pre self.now.reader) (F.post self.now.reader) }
        ensures value { Gives (λ x. (view x.0, x.1.left.now)) result (node_over (within true self.now.room) around tokens.entry.left.now) }
        ensures shorter { IfOk result (λ x. length x.1.left.now < length tokens.entry.left.now) }
    {
        self.chain(tokens, around, Level::Or)
    }
}
