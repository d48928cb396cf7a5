// Blocks, names and what stands in brackets; prefixes, and the joins and brackets behind an expression.
ghost use Rattle.std.specs.Prelude.{◌≡◌, ◌<◌, ◌≤◌, true, length, map, IfOk};
ghost use Rattle.alloy_syntax.specs.Gives.{Gives};
ghost use Rattle.alloy_parse.specs.Nodes.Reader.{ReadsWithin};
ghost use Rattle.alloy_parse.specs.Behind.{stepped};
ghost use Rattle.alloy_syntax.specs.View.{view, views, step_view, block_view};
ghost use Rattle.alloy_syntax.specs.Readers.{many, others};
ghost use Rattle.alloy_syntax.specs.Nodes.{within, is_inner, block_over, block_tree, paren_over, primary_over, behind_prefix, tight_over, path_over, begins_step, step_over, brackets_over, arguments_over};

use crate::expressions::rules::{Read, Rules};
use crate::expressions::signs::{
    begins_step, constant_of, is_comprehension, is_constant, is_inner, is_tightening, tightening_of,
};
use alloy_syntax::Class;
use alloy_syntax::cursor::{
    after, expect, fitted, name, next_is, number, path as path_name, place_at,
};
use alloy_syntax::parse_stop::{ParseStop, Tokens};
use alloy_syntax::reading::{Around, Form, Inside};
use alloy_syntax::tree::{Block, Node, Prefix, Step};
use std::alloc::Global;

impl<F: for<'a> Fn(Global, Tokens<'a>, u32, Around, Inside) -> Read<'a, Node>> Rules<F> {
    /// Formulas in braces. So many constructs may nest in it, less one.
    #[tactic(auto, unfolding(alloy_syntax::specs::Nodes::block_over))]
    pub fn block<'a>(&self, tokens: Tokens<'a>) -> Read<'a, Block>
        requires { ReadsWithin self.now.room (F.pre self.now.reader) (F.post self.now.reader) }
        ensures value { Gives (λ x. (block_view x.0, x.1.left.now)) result (block_over (within true self.now.room) tokens.entry.left.now) }
        ensures shorter { IfOk result (λ x. length x.1.left.now < length tokens.entry.left.now) }
    {
        if is_comprehension(tokens) {
            return Err(ParseStop::Unsupported(Form::Comprehension, tokens));
        }
        let (place, rest) = expect(tokens, Class::LeftBrace)?;
        let (formulas, rest) = self.formulas(rest)?;
        let (_, rest) = expect(rest, Class::RightBrace)?;
        Ok((Block { place, formulas }, rest))
    }

    fn formulas<'a>(&self, tokens: Tokens<'a>) -> Read<'a, Vec<Node>>
        requires { ReadsWithin self.now.room (F.pre self.now.reader) (F.post self.now.reader) }
        ensures value { Gives (λ x. (views x.0.items, x.1.left.now)) result (many is_inner ((within true self.now.room) Around.Braces Inside.Node) tokens.entry.left.now) }
        ensures shorter { IfOk result (λ x. length x.1.left.now ≤ length tokens.entry.left.now) }
    {
        let mut all = Vec::new(self.alloc);
        let mut rest = tokens;
        'each: while is_inner(rest) {
            let (another, behind) = self.inside(rest, Around::Braces, Inside::Node)?;
            all.push(another)?;
            rest = behind;
        }
        Ok((fitted(all), rest))
    }

    #[tactic(auto, unfolding(alloy_syntax::specs::Nodes::block_tree))]
    pub fn block_node<'a>(&self, tokens: Tokens<'a>) -> Read<'a, Node>
        requires { ReadsWithin self.now.room (F.pre self.now.reader) (F.post self.now.reader) }
        ensures value { Gives (λ x. (view x.0, x.1.left.now)) result (block_tree (within true self.now.room) tokens.entry.left.now) }
        ensures shorter { IfOk result (λ x. length x.1.left.now < length tokens.entry.left.now) }
    {
        let (block, rest) = self.block(tokens)?;
        let Block { place, formulas } = block;
        Ok((Node::Block(place, formulas), rest))
    }

    #[tactic(auto, unfolding(alloy_syntax::specs::Nodes::paren_over))]
    fn paren<'a>(&self, tokens: Tokens<'a>) -> Read<'a, Node>
        requires { ReadsWithin self.now.room (F.pre self.now.reader) (F.post self.now.reader) }
        ensures value { Gives (λ x. (view x.0, x.1.left.now)) result (paren_over (within true self.now.room) tokens.entry.left.now) }
        ensures shorter { IfOk result (λ x. length x.1.left.now < length tokens.entry.left.now) }
    {
        let (place, rest) = expect(tokens, Class::LeftParen)?;
        let (inner, rest) = self.inside(rest, Around::Parens, Inside::Node)?;
        let inner = Box::new(self.alloc, inner)?;
        let (_, rest) = expect(rest, Class::RightParen)?;
        Ok((Node::Bracketed(place, inner), rest))
    }

    #[tactic(auto, using(crate::proofs::Nodes::NextTokens::constant_is_there), unfolding(alloy_syntax::specs::Nodes::primary_over))]
    fn primary<'a>(&self, tokens: Tokens<'a>) -> Read<'a, Node>
        requires { ReadsWithin self.now.room (F.pre self.now.reader) (F.post self.now.reader) }
        ensures value { Gives (λ x. (view x.0, x.1.left.now)) result (primary_over (within true self.now.room) tokens.entry.left.now) }
        ensures shorter { IfOk result (λ x. length x.1.left.now < length tokens.entry.left.now) }
    {
        if next_is(tokens, Class::Name) {
            let (name, rest) = name(self.alloc, tokens)?;
            return Ok((Node::Named(name), rest));
        }
        if next_is(tokens, Class::Path) {
            let (name, rest) = path_name(self.alloc, tokens)?;
            return Ok((Node::Named(name), rest));
        }
        if next_is(tokens, Class::Number) {
            let (number, rest) = number(tokens)?;
            return Ok((Node::Numbered(number), rest));
        }
        if is_constant(tokens) {
            return Ok((
                Node::Constant(constant_of(tokens), place_at(tokens)),
                after(tokens),
            ));
        }
        if next_is(tokens, Class::LeftParen) {
            return self.paren(tokens);
        }
        self.block_node(tokens)
    }

    // What stands behind a prefix.
    #[tactic(auto, unfolding(alloy_syntax::specs::Nodes::behind_prefix))]
    pub fn prefixed<'a>(
        &self,
        tokens: Tokens<'a>,
        around: Around,
        prefix: Prefix,
        part: Inside,
    ) -> Read<'a, Node>
        requires { ReadsWithin self.now.room (F.pre self.now.reader) (F.post self.now.reader) }
        ensures value { Gives (λ x. (view x.0, x.1.left.now)) result (behind_prefix prefix ((within true self.now.room) around part) tokens.entry.left.now) }
        ensures shorter { IfOk result (λ x. length x.1.left.now < length tokens.entry.left.now) }
    {
        let (operand, rest) = self.inside(after(tokens), around, part)?;
        let operand = Box::new(self.alloc, operand)?;
        Ok((Node::Prefixed(prefix, place_at(tokens), operand), rest))
    }

    #[tactic(auto, unfolding(alloy_syntax::specs::Nodes::tight_over))]
    pub fn tight<'a>(&self, tokens: Tokens<'a>, around: Around) -> Read<'a, Node>
        requires { ReadsWithin self.now.room (F.pre self.now.reader) (F.post self.now.reader) }
        ensures value { Gives (λ x. (view x.0, x.1.left.now)) result (tight_over (within true self.now.room) around tokens.entry.left.now) }
        ensures shorter { IfOk result (λ x. length x.1.left.now < length tokens.entry.left.now) }
    {
        if is_tightening(tokens) {
            return self.prefixed(tokens, around, tightening_of(tokens), Inside::Tight);
        }
        self.primary(tokens)
    }

    #[tactic(auto, unfolding(alloy_syntax::specs::Nodes::path_over))]
    pub fn path<'a>(&self, tokens: Tokens<'a>, around: Around) -> Read<'a, Node>
        requires { ReadsWithin self.now.room (F.pre self.now.reader) (F.post self.now.reader) }
        ensures value { Gives (λ x. (view x.0, x.1.left.now)) result (path_over (within true self.now.room) around tokens.entry.left.now) }
        ensures shorter { IfOk result (λ x. length x.1.left.now < length tokens.entry.left.now) }
    {
        let (first, rest) = self.tight(tokens, around)?;
        if !begins_step(rest) {
            return Ok((first, rest));
        }
        self.stepped(first, rest, around)
    }

    // An expression, with the joins and brackets behind it.
    fn stepped<'a>(&self, first: Node, tokens: Tokens<'a>, around: Around) -> Read<'a, Node>
        requires { ReadsWithin self.now.room (F.pre self.now.reader) (F.post self.now.reader) }
        ensures value { Gives (λ x. (view x.0, x.1.left.now)) result (stepped (within true self.now.room) around (view first) tokens.entry.left.now) }
        ensures shorter { IfOk result (λ x. length x.1.left.now ≤ length tokens.entry.left.now) }
    {
        let first = Box::new(self.alloc, first)?;
        let (steps, rest) = self.steps(tokens, around)?;
        Ok((Node::Path(first, steps), rest))
    }

    fn steps<'a>(&self, tokens: Tokens<'a>, around: Around) -> Read<'a, Vec<Step>>
        requires { ReadsWithin self.now.room (F.pre self.now.reader) (F.post self.now.reader) }
        ensures value { Gives (λ x. (map step_view x.0.items, x.1.left.now)) result (many begins_step (step_over (within true self.now.room) around) tokens.entry.left.now) }
        ensures shorter { IfOk result (λ x. length x.1.left.now ≤ length tokens.entry.left.now) }
    {
        let mut all = Vec::new(self.alloc);
        let mut rest = tokens;
        'each: while begins_step(rest) {
            let (another, behind) = self.step(rest, around)?;
            all.push(another)?;
            rest = behind;
        }
        Ok((fitted(all), rest))
    }

    #[tactic(auto, unfolding(alloy_syntax::specs::Nodes::step_over))]
    fn step<'a>(&self, tokens: Tokens<'a>, around: Around) -> Read<'a, Step>
        requires { ReadsWithin self.now.room (F.pre self.now.reader) (F.post self.now.reader) }
        ensures value { Gives (λ x. (step_view x.0, x.1.left.now)) result (step_over (within true self.now.room) around tokens.entry.left.now) }
        ensures shorter { IfOk result (λ x. length x.1.left.now < length tokens.entry.left.now) }
    {
        if next_is(tokens, Class::Dot) {
            let (operand, rest) = self.tight(after(tokens), around)?;
            return Ok((Step::Join(place_at(tokens), operand), rest));
        }
        self.brackets(tokens)
    }

    #[tactic(auto, unfolding(alloy_syntax::specs::Nodes::brackets_over))]
    fn brackets<'a>(&self, tokens: Tokens<'a>) -> Read<'a, Step>
        requires { ReadsWithin self.now.room (F.pre self.now.reader) (F.post self.now.reader) }
        ensures value { Gives (λ x. (step_view x.0, x.1.left.now)) result (brackets_over (within true self.now.room) tokens.entry.left.now) }
        ensures shorter { IfOk result (λ x. length x.1.left.now < length tokens.entry.left.now) }
    {
        let (place, rest) = expect(tokens, Class::LeftBracket)?;
        let (arguments, rest) = self.arguments(rest)?;
        let (_, rest) = expect(rest, Class::RightBracket)?;
        Ok((Step::Brackets(place, arguments), rest))
    }

    #[tactic(auto, unfolding(alloy_syntax::specs::Nodes::arguments_over, alloy_syntax::specs::Readers::listed))]
    fn arguments<'a>(&self, tokens: Tokens<'a>) -> Read<'a, Vec<Node>>
        requires { ReadsWithin self.now.room (F.pre self.now.reader) (F.post self.now.reader) }
        ensures value { Gives (λ x. (views x.0.items, x.1.left.now)) result (arguments_over (within true self.now.room) tokens.entry.left.now) }
        ensures shorter { IfOk result (λ x. length x.1.left.now ≤ length tokens.entry.left.now) }
    {
        if next_is(tokens, Class::RightBracket) {
            return Ok((Vec::new(self.alloc), tokens));
        }
        let (first, rest) = self.inside(tokens, Around::Brackets, Inside::Node)?;
        self.more_arguments(first, rest)
    }

    #[tactic(auto, unfolding(alloy_syntax::specs::Readers::others))]
    fn more_arguments<'a>(&self, first: Node, tokens: Tokens<'a>) -> Read<'a, Vec<Node>>
        requires { ReadsWithin self.now.room (F.pre self.now.reader) (F.post self.now.reader) }
        ensures value { Gives (λ x. (views x.0.items, x.1.left.now)) result (others ((within true self.now.room) Around.Brackets Inside.Node) (view first) tokens.entry.left.now) }
        ensures shorter { IfOk result (λ x. length x.1.left.now ≤ length tokens.entry.left.now) }
    {
        let mut all = Vec::new(self.alloc);
        all.push(first)?;
        let mut rest = tokens;
        'each: while next_is(rest, Class::Comma) {
            let (another, behind) = self.inside(after(rest), Around::Brackets, Inside::Node)?;
            all.push(another)?;
            rest = behind;
        }
        Ok((fitted(all), rest))
    }
}
