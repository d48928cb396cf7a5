// Arrows, and what stands between them: `<:` and `:>` with their operands. Its operands are paths, so it is in no cycle.
ghost use Rattle.std.specs.Prelude.{◌≡◌, ◌<◌, ◌≤◌, true, length, map, IfOk};
ghost use Rattle.alloy_syntax.specs.Gives.{Gives};
ghost use Rattle.alloy_syntax.specs.View.{view, link_view};
ghost use Rattle.alloy_syntax.specs.Readers.{many};
ghost use Rattle.alloy_syntax.specs.declared.reading.Level.TheVariants as level;
ghost use Rattle.alloy_syntax.specs.Nodes.{within, begins_link, link_over, path_over, restrict_over, begins_arrow, arrow_over, arrows_over};
ghost use Rattle.alloy_parse.specs.Nodes.Reader.{ReadsWithin};
ghost use Rattle.alloy_parse.specs.Behind.{linked, arrowed};

use crate::expressions::rules::{Read, Rules};
use crate::expressions::signs::{begins_arrow, begins_link, operator_of};
use alloy_syntax::cursor::{after, fitted, is_mark, place_at};
use alloy_syntax::parse_stop::{ParseStop, Tokens};
use alloy_syntax::reading::{Around, Form, Inside, Level};
use alloy_syntax::tree::{Link, Node, Operator};
use std::alloc::Global;

impl<F: for<'a> Fn(Global, Tokens<'a>, u32, Around, Inside) -> Read<'a, Node>> Rules<F> {
    #[tactic(auto, unfolding(alloy_syntax::specs::Nodes::arrows_over))]
    pub fn arrows<'a>(&self, tokens: Tokens<'a>, around: Around) -> Read<'a, Node>
        requires { ReadsWithin self.now.room (F.pre self.now.reader) (F.post self.now.reader) }
        ensures value { Gives (λ x. (view x.0, x.1.left.now)) result (arrows_over (within true self.now.room) around tokens.entry.left.now) }
        ensures shorter { IfOk result (λ x. length x.1.left.now < length tokens.entry.left.now) }
    {
        let (first, rest) = self.restriction(tokens, around)?;
        if !begins_arrow(rest) {
            return Ok((first, rest));
        }
        self.arrowed(first, rest, around)
    }

    // The first operand, with the arrows and operands behind it.
    fn arrowed<'a>(&self, first: Node, tokens: Tokens<'a>, around: Around) -> Read<'a, Node>
        requires { ReadsWithin self.now.room (F.pre self.now.reader) (F.post self.now.reader) }
        ensures value { Gives (λ x. (view x.0, x.1.left.now)) result (arrowed (within true self.now.room) around (view first) tokens.entry.left.now) }
        ensures shorter { IfOk result (λ x. length x.1.left.now ≤ length tokens.entry.left.now) }
    {
        let first = Box::new(self.alloc, first)?;
        let (links, rest) = self.arrow_links(tokens, around)?;
        Ok((Node::Chain(first, links), rest))
    }

    fn arrow_links<'a>(&self, tokens: Tokens<'a>, around: Around) -> Read<'a, Vec<Link>>
        requires { ReadsWithin self.now.room (F.pre self.now.reader) (F.post self.now.reader) }
        ensures value { Gives (λ x. (map link_view x.0.items, x.1.left.now)) result (many begins_arrow (arrow_over (within true self.now.room) around) tokens.entry.left.now) }
        ensures shorter { IfOk result (λ x. length x.1.left.now ≤ length tokens.entry.left.now) }
    {
        let mut all = Vec::new(self.alloc);
        let mut rest = tokens;
        'each: while begins_arrow(rest) {
            let (another, behind) = self.arrow_link(rest, around)?;
            all.push(another)?;
            rest = behind;
        }
        Ok((fitted(all), rest))
    }

    #[tactic(auto, unfolding(alloy_syntax::specs::Nodes::arrow_over))]
    fn arrow_link<'a>(&self, tokens: Tokens<'a>, around: Around) -> Read<'a, Link>
        requires { ReadsWithin self.now.room (F.pre self.now.reader) (F.post self.now.reader) }
        ensures value { Gives (λ x. (link_view x.0, x.1.left.now)) result (arrow_over (within true self.now.room) around tokens.entry.left.now) }
        ensures shorter { IfOk result (λ x. length x.1.left.now < length tokens.entry.left.now) }
    {
        if is_mark(tokens) {
            return Err(ParseStop::Unsupported(Form::ArrowMultiplicity, tokens));
        }
        let rest = after(tokens);
        if is_mark(rest) {
            return Err(ParseStop::Unsupported(Form::ArrowMultiplicity, rest));
        }
        let (operand, rest) = self.restriction(rest, around)?;
        let link = Link {
            operator: Operator::Product,
            place: place_at(tokens),
            operand,
        };
        Ok((link, rest))
    }

    // Paths with `<:` and `:>` between them; one alone stands for itself.
    #[tactic(auto, unfolding(alloy_syntax::specs::Nodes::restrict_over, alloy_syntax::specs::Nodes::chained))]
    fn restriction<'a>(&self, tokens: Tokens<'a>, around: Around) -> Read<'a, Node>
        requires { ReadsWithin self.now.room (F.pre self.now.reader) (F.post self.now.reader) }
        ensures value { Gives (λ x. (view x.0, x.1.left.now)) result (restrict_over (within true self.now.room) around tokens.entry.left.now) }
        ensures shorter { IfOk result (λ x. length x.1.left.now < length tokens.entry.left.now) }
    {
        let (first, rest) = self.path(tokens, around)?;
        if !begins_link(rest, Level::Restrict) {
            return Ok((first, rest));
        }
        self.restricted(first, rest, around)
    }

    // The first path, with the `<:`, `:>` and paths behind it.
    fn restricted<'a>(&self, first: Node, tokens: Tokens<'a>, around: Around) -> Read<'a, Node>
        requires { ReadsWithin self.now.room (F.pre self.now.reader) (F.post self.now.reader) }
        ensures value { Gives (λ x. (view x.0, x.1.left.now)) result (linked level.Restrict (path_over (within true self.now.room) around) (view first) tokens.entry.left.now) }
        ensures shorter { IfOk result (λ x. length x.1.left.now ≤ length tokens.entry.left.now) }
    {
        let first = Box::new(self.alloc, first)?;
        let (links, rest) = self.path_links(tokens, around)?;
        Ok((Node::Chain(first, links), rest))
    }

    fn path_links<'a>(&self, tokens: Tokens<'a>, around: Around) -> Read<'a, Vec<Link>>
        requires { ReadsWithin self.now.room (F.pre self.now.reader) (F.post self.now.reader) }
        ensures value { Gives (λ x. (map link_view x.0.items, x.1.left.now)) result (many (begins_link level.Restrict) (link_over level.Restrict (path_over (within true self.now.room) around)) tokens.entry.left.now) }
        ensures shorter { IfOk result (λ x. length x.1.left.now ≤ length tokens.entry.left.now) }
    {
        let mut all = Vec::new(self.alloc);
        let mut rest = tokens;
        'each: while begins_link(rest, Level::Restrict) {
            let (another, behind) = self.path_link(rest, around)?;
            all.push(another)?;
            rest = behind;
        }
        Ok((fitted(all), rest))
    }

    #[tactic(auto, unfolding(alloy_syntax::specs::Nodes::link_over))]
    fn path_link<'a>(&self, tokens: Tokens<'a>, around: Around) -> Read<'a, Link>
        requires { ReadsWithin self.now.room (F.pre self.now.reader) (F.post self.now.reader) }
        ensures value { Gives (λ x. (link_view x.0, x.1.left.now)) result (link_over level.Restrict (path_over (within true self.now.room) around) tokens.entry.left.now) }
        ensures shorter { IfOk result (λ x. length x.1.left.now < length tokens.entry.left.now) }
    {
        let (operand, rest) = self.path(after(tokens), around)?;
        let link = Link {
            operator: operator_of(tokens, Level::Restrict),
            place: place_at(tokens),
            operand,
        };
        Ok((link, rest))
    }
}
