// Quantifiers and `let`: what they declare, and their bodies.
ghost use Rattle.std.specs.Prelude.{◌≡◌, ◌<◌, ◌≤◌, true, length, map, IfOk};
ghost use Rattle.alloy_syntax.specs.Gives.{Gives};
ghost use Rattle.alloy_parse.specs.Nodes.Reader.{ReadsWithin};
ghost use Rattle.alloy_syntax.specs.View.{view, declaration_view, binding_view};
ghost use Rattle.alloy_syntax.specs.Readers.{others};
ghost use Rattle.alloy_syntax.specs.Nodes.{within, quantified_over, body_over, declarations_over, more_declarations, another_declaration, declaration_over, let_over, bindings_over, binding_over};

use crate::expressions::rules::{Read, Rules};
use crate::expressions::signs::{after_disj, is_single};
use crate::expressions::variables::variables;
use alloy_lex::Place;
use alloy_syntax::Class;
use alloy_syntax::cursor::{after, after_mark, expect, fitted, mark_at, name, next_is};
use alloy_syntax::parse_stop::{ParseStop, Tokens};
use alloy_syntax::reading::{Around, Form, Inside};
use alloy_syntax::tree::{Binding, Declaration, Node, Quantifier};
use std::alloc::Global;

impl<F: for<'a> Fn(Global, Tokens<'a>, u32, Around, Inside) -> Read<'a, Node>> Rules<F> {
    #[tactic(auto, unfolding(alloy_syntax::specs::Nodes::quantified_over))]
    pub fn quantified<'a>(
        &self,
        tokens: Tokens<'a>,
        around: Around,
        quantifier: Quantifier,
        place: Place,
    ) -> Read<'a, Node>
        requires { ReadsWithin self.now.room (F.pre self.now.reader) (F.post self.now.reader) }
        ensures value { Gives (λ x. (view x.0, x.1.left.now)) result (quantified_over true (within true self.now.room) around quantifier place tokens.entry.left.now) }
        ensures shorter { IfOk result (λ x. length x.1.left.now < length tokens.entry.left.now) }
    {
        let (declared, rest) = self.declarations(tokens, is_single(quantifier))?;
        let (body, rest) = self.body(rest, around)?;
        let body = Box::new(self.alloc, body)?;
        Ok((Node::Quantified(quantifier, place, declared, body), rest))
    }

    #[tactic(auto, unfolding(alloy_syntax::specs::Nodes::body_over))]
    pub fn body<'a>(&self, tokens: Tokens<'a>, around: Around) -> Read<'a, Node>
        requires { ReadsWithin self.now.room (F.pre self.now.reader) (F.post self.now.reader) }
        ensures value { Gives (λ x. (view x.0, x.1.left.now)) result (body_over (within true self.now.room) around tokens.entry.left.now) }
        ensures shorter { IfOk result (λ x. length x.1.left.now < length tokens.entry.left.now) }
    {
        if next_is(tokens, Class::Bar) {
            return self.node(after(tokens), around);
        }
        self.block_node(tokens)
    }

    /// Declarations with commas between them, of one variable alone where that is said. So many constructs may nest in them.
    #[tactic(auto, unfolding(alloy_syntax::specs::Nodes::declarations_over))]
    pub fn declarations<'a>(&self, tokens: Tokens<'a>, single: bool) -> Read<'a, Vec<Declaration>>
        requires { ReadsWithin self.now.room (F.pre self.now.reader) (F.post self.now.reader) }
        ensures value { Gives (λ x. (map declaration_view x.0.items, x.1.left.now)) result (declarations_over (within true self.now.room) single tokens.entry.left.now) }
        ensures shorter { IfOk result (λ x. length x.1.left.now < length tokens.entry.left.now) }
    {
        let (first, rest) = self.declaration(tokens, single)?;
        self.more_declarations(first, rest, single)
    }

    #[tactic(auto, unfolding(alloy_syntax::specs::Nodes::more_declarations))]
    fn more_declarations<'a>(
        &self,
        first: Declaration,
        tokens: Tokens<'a>,
        single: bool,
    ) -> Read<'a, Vec<Declaration>>
        requires { ReadsWithin self.now.room (F.pre self.now.reader) (F.post self.now.reader) }
        ensures value { Gives (λ x. (map declaration_view x.0.items, x.1.left.now)) result (more_declarations (within true self.now.room) single (declaration_view first) tokens.entry.left.now) }
        ensures shorter { IfOk result (λ x. length x.1.left.now ≤ length tokens.entry.left.now) }
    {
        let mut all = Vec::new(self.alloc);
        all.push(first)?;
        let mut rest = tokens;
        'each: while next_is(rest, Class::Comma) {
            let (another, behind) = self.another_declaration(rest, single)?;
            all.push(another)?;
            rest = behind;
        }
        Ok((fitted(all), rest))
    }

    #[tactic(auto, unfolding(alloy_syntax::specs::Nodes::another_declaration))]
    fn another_declaration<'a>(&self, tokens: Tokens<'a>, single: bool) -> Read<'a, Declaration>
        requires { ReadsWithin self.now.room (F.pre self.now.reader) (F.post self.now.reader) }
        ensures value { Gives (λ x. (declaration_view x.0, x.1.left.now)) result (another_declaration (within true self.now.room) single tokens.entry.left.now) }
        ensures shorter { IfOk result (λ x. length x.1.left.now < length tokens.entry.left.now) }
    {
        let rest = after(tokens);
        if single {
            let second = after_disj(rest);
            let _name = name(self.alloc, second)?;
            return Err(ParseStop::Unsupported(Form::Several, second));
        }
        self.declaration(rest, false)
    }

    #[tactic(auto, unfolding(alloy_syntax::specs::Nodes::declaration_over))]
    pub fn declaration<'a>(&self, tokens: Tokens<'a>, single: bool) -> Read<'a, Declaration>
        requires { ReadsWithin self.now.room (F.pre self.now.reader) (F.post self.now.reader) }
        ensures value { Gives (λ x. (declaration_view x.0, x.1.left.now)) result (declaration_over (within true self.now.room) single tokens.entry.left.now) }
        ensures shorter { IfOk result (λ x. length x.1.left.now < length tokens.entry.left.now) }
    {
        let (names, rest) = variables(self.alloc, tokens, single)?;
        let (domain, behind) = self.sum(after_mark(rest), Around::Parens)?;
        let declaration = Declaration {
            disjoint: next_is(tokens, Class::Disj),
            names,
            mark: mark_at(rest),
            domain,
        };
        Ok((declaration, behind))
    }

    #[tactic(auto, unfolding(alloy_syntax::specs::Nodes::let_over))]
    pub fn bound_by_let<'a>(
        &self,
        tokens: Tokens<'a>,
        around: Around,
        place: Place,
    ) -> Read<'a, Node>
        requires { ReadsWithin self.now.room (F.pre self.now.reader) (F.post self.now.reader) }
        ensures value { Gives (λ x. (view x.0, x.1.left.now)) result (let_over (within true self.now.room) around place tokens.entry.left.now) }
        ensures shorter { IfOk result (λ x. length x.1.left.now < length tokens.entry.left.now) }
    {
        let (bindings, rest) = self.bindings(tokens)?;
        let (body, rest) = self.body(rest, around)?;
        Ok((
            Node::Let(place, bindings, Box::new(self.alloc, body)?),
            rest,
        ))
    }

    #[tactic(auto, unfolding(alloy_syntax::specs::Nodes::bindings_over, alloy_syntax::specs::Readers::listed))]
    fn bindings<'a>(&self, tokens: Tokens<'a>) -> Read<'a, Vec<Binding>>
        requires { ReadsWithin self.now.room (F.pre self.now.reader) (F.post self.now.reader) }
        ensures value { Gives (λ x. (map binding_view x.0.items, x.1.left.now)) result (bindings_over (within true self.now.room) tokens.entry.left.now) }
        ensures shorter { IfOk result (λ x. length x.1.left.now < length tokens.entry.left.now) }
    {
        let (first, rest) = self.binding(tokens)?;
        self.more_bindings(first, rest)
    }

    #[tactic(auto, unfolding(alloy_syntax::specs::Readers::others))]
    fn more_bindings<'a>(&self, first: Binding, tokens: Tokens<'a>) -> Read<'a, Vec<Binding>>
        requires { ReadsWithin self.now.room (F.pre self.now.reader) (F.post self.now.reader) }
        ensures value { Gives (λ x. (map binding_view x.0.items, x.1.left.now)) result (others (binding_over (within true self.now.room)) (binding_view first) tokens.entry.left.now) }
        ensures shorter { IfOk result (λ x. length x.1.left.now ≤ length tokens.entry.left.now) }
    {
        let mut all = Vec::new(self.alloc);
        all.push(first)?;
        let mut rest = tokens;
        'each: while next_is(rest, Class::Comma) {
            let (another, behind) = self.binding(after(rest))?;
            all.push(another)?;
            rest = behind;
        }
        Ok((fitted(all), rest))
    }

    #[tactic(auto, unfolding(alloy_syntax::specs::Nodes::binding_over))]
    fn binding<'a>(&self, tokens: Tokens<'a>) -> Read<'a, Binding>
        requires { ReadsWithin self.now.room (F.pre self.now.reader) (F.post self.now.reader) }
        ensures value { Gives (λ x. (binding_view x.0, x.1.left.now)) result (binding_over (within true self.now.room) tokens.entry.left.now) }
        ensures shorter { IfOk result (λ x. length x.1.left.now < length tokens.entry.left.now) }
    {
        let (name, rest) = name(self.alloc, tokens)?;
        let (_, rest) = expect(rest, Class::Equal)?;
        let (value, rest) = self.sum(rest, Around::Parens)?;
        Ok((Binding { name, value }, rest))
    }
}
