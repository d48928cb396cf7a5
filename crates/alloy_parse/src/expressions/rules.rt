// The rules of the grammar, over a reader of what stands under one construct more: so each is proved by itself.
ghost use Rattle.std.specs.Prelude.{◌≡◌, ◌<◌, true, length, IfOk};
ghost use Rattle.alloy_syntax.specs.View.{view};
ghost use Rattle.alloy_syntax.specs.Nodes.{within, inside_over};
ghost use Rattle.alloy_syntax.specs.Gives.{Gives};
ghost use Rattle.alloy_parse.specs.Nodes.Reader.{ReadsWithin};

use alloy_syntax::parse_stop::{ParseStop, Tokens};
use alloy_syntax::reading::{Around, Inside};
use alloy_syntax::tree::Node;
use std::alloc::Global;

/// What is read at the front, and the tokens behind it; or why there is nothing.
pub type Read<'a, T> = Result<(T, Tokens<'a>), ParseStop<'a>>;

/// The rules, where so many constructs more may nest.
#[derive(Clone, Copy)]
pub struct Rules<F> {
    pub alloc: Global,
    pub room: u32,
    /// Reads what stands under one construct more.
    pub reader: F,
}

impl<F: for<'a> Fn(Global, Tokens<'a>, u32, Around, Inside) -> Read<'a, Node>> Rules<F> {
    /// What stands under one construct more.
    pub fn inside<'a>(&self, tokens: Tokens<'a>, around: Around, part: Inside) -> Read<'a, Node>
        requires { ReadsWithin self.now.room (F.pre self.now.reader) (F.post self.now.reader) }
        ensures value { Gives (λ x. (view x.0, x.1.left.now)) result (within true self.now.room around part tokens.entry.left.now) }
        ensures shorter { IfOk result (λ x. length x.1.left.now < length tokens.entry.left.now) }
    {
        (self.reader)(self.alloc, tokens, self.room, around, part)
    }

    /// What stands there by the rule of that part.
    #[tactic(auto, unfolding(alloy_syntax::specs::Nodes::inside_over))]
    pub fn below<'a>(&self, tokens: Tokens<'a>, around: Around, part: Inside) -> Read<'a, Node>
        requires { ReadsWithin self.now.room (F.pre self.now.reader) (F.post self.now.reader) }
        ensures value { Gives (λ x. (view x.0, x.1.left.now)) result (inside_over true (within true self.now.room) around part tokens.entry.left.now) }
        ensures shorter { IfOk result (λ x. length x.1.left.now < length tokens.entry.left.now) }
    {
        match part {
            Inside::Node => self.node(tokens, around),
            Inside::Negation => self.negation(tokens, around),
            Inside::Implied => self.implication(tokens, around),
            Inside::Sum => self.sum(tokens, around),
            Inside::Size => self.size(tokens, around),
            Inside::Tight => self.tight(tokens, around),
            Inside::Quantified(quantifier, place) => self.quantified(
                tokens, around, quantifier, place,
            ),
            Inside::Let(place) => self.bound_by_let(tokens, around, place),
        }
    }
}
