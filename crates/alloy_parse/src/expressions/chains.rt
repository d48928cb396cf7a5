// Chains: operands with the operators of one level between them, from `||` down to `<:` and `:>`.
ghost use Rattle.std.specs.Prelude.{◌≡◌, ◌<◌, ◌≤◌, true, length, map, IfOk};
ghost use Rattle.alloy_syntax.specs.Gives.{Gives};
ghost use Rattle.alloy_syntax.specs.View.{view, link_view};
ghost use Rattle.alloy_syntax.specs.Readers.{many};
ghost use Rattle.alloy_syntax.specs.Nodes.{within, begins_link, chained, link_over};
ghost use Rattle.alloy_parse.specs.Nodes.Reader.{ReadsWithin};
ghost use Rattle.alloy_parse.specs.Nodes.Levels.{operand_over};
ghost use Rattle.alloy_parse.specs.Behind.{linked};

use crate::expressions::rules::{Read, Rules};
use crate::expressions::signs::{begins_link, operator_of};
use alloy_syntax::cursor::{after, fitted, place_at};
use alloy_syntax::parse_stop::Tokens;
use alloy_syntax::reading::{Around, Inside, Level};
use alloy_syntax::tree::{Link, Node};
use std::alloc::Global;

impl<F: for<'a> Fn(Global, Tokens<'a>, u32, Around, Inside) -> Read<'a, Node>> Rules<F> {
    /// Operands with the operators of that level between them; one alone stands for itself.
    #[cycle(levels)]
    #[tactic(auto, unfolding(alloy_syntax::specs::Nodes::chained))]
    pub fn chain<'a>(&self, tokens: Tokens<'a>, around: Around, level: Level) -> Read<'a, Node>
        requires { ReadsWithin self.now.room (F.pre self.now.reader) (F.post self.now.reader) }
        ensures value { Gives (λ x. (view x.0, x.1.left.now)) result (chained level (operand_over level (within true self.now.room) around) tokens.entry.left.now) }
        ensures shorter { IfOk result (λ x. length x.1.left.now < length tokens.entry.left.now) }
    {
        let (first, rest) = self.operand(tokens, around, level)?;
        if !begins_link(rest, level) {
            return Ok((first, rest));
        }
        self.linked(first, rest, around, level)
    }

    // The first operand, with the operators and operands behind it.
    #[cycle(levels)]
    fn linked<'a>(
        &self,
        first: Node,
        tokens: Tokens<'a>,
        around: Around,
        level: Level,
    ) -> Read<'a, Node>
        requires { ReadsWithin self.now.room (F.pre self.now.reader) (F.post self.now.reader) }
        ensures value { Gives (λ x. (view x.0, x.1.left.now)) result (linked level (operand_over level (within true self.now.room) around) (view first) tokens.entry.left.now) }
        ensures shorter { IfOk result (λ x. length x.1.left.now ≤ length tokens.entry.left.now) }
    {
        let first = Box::new(self.alloc, first)?;
        let (links, rest) = self.links(tokens, around, level)?;
        Ok((Node::Chain(first, links), rest))
    }

    #[cycle(levels)]
    fn links<'a>(&self, tokens: Tokens<'a>, around: Around, level: Level) -> Read<'a, Vec<Link>>
        requires { ReadsWithin self.now.room (F.pre self.now.reader) (F.post self.now.reader) }
        ensures value { Gives (λ x. (map link_view x.0.items, x.1.left.now)) result (many (begins_link level) (link_over level (operand_over level (within true self.now.room) around)) tokens.entry.left.now) }
        ensures shorter { IfOk result (λ x. length x.1.left.now ≤ length tokens.entry.left.now) }
    {
        let mut all = Vec::new(self.alloc);
        let mut rest = tokens;
        'each: while begins_link(rest, level) {
            let (another, behind) = self.link(rest, around, level)?;
            all.push(another)?;
            rest = behind;
        }
        Ok((fitted(all), rest))
    }

    #[cycle(levels)]
    #[tactic(auto, unfolding(alloy_syntax::specs::Nodes::link_over))]
    fn link<'a>(&self, tokens: Tokens<'a>, around: Around, level: Level) -> Read<'a, Link>
        requires { ReadsWithin self.now.room (F.pre self.now.reader) (F.post self.now.reader) }
        ensures value { Gives (λ x. (link_view x.0, x.1.left.now)) result (link_over level (operand_over level (within true self.now.room) around) tokens.entry.left.now) }
        ensures shorter { IfOk result (λ x. length x.1.left.now < length tokens.entry.left.now) }
    {
        let (read, rest) = self.operand(after(tokens), around, level)?;
        let link = Link {
            operator: operator_of(tokens, level),
            place: place_at(tokens),
            operand: read,
        };
        Ok((link, rest))
    }

    // An operand of that level.
    #[cycle(levels)]
    #[tactic(auto, unfolding(alloy_syntax::specs::Nodes::iff_over, alloy_syntax::specs::Nodes::meet_over))]
    fn operand<'a>(&self, tokens: Tokens<'a>, around: Around, level: Level) -> Read<'a, Node>
        requires { ReadsWithin self.now.room (F.pre self.now.reader) (F.post self.now.reader) }
        ensures value { Gives (λ x. (view x.0, x.1.left.now)) result (operand_over level (within true self.now.room) around tokens.entry.left.now) }
        ensures shorter { IfOk result (λ x. length x.1.left.now < length tokens.entry.left.now) }
    {
        match level {
            Level::Or => self.chain(tokens, around, Level::Iff),
            Level::Iff => self.implication(tokens, around),
            Level::And => self.negation(tokens, around),
            Level::Sum => self.size(tokens, around),
            Level::Override => self.chain(tokens, around, Level::Meet),
            Level::Meet => self.arrows(tokens, around),
            Level::Restrict => self.path(tokens, around),
        }
    }
}
