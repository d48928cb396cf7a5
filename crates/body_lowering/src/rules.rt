// The rules for parts, over what lowers the parts inside of them: so each is proved by itself.
ghost use Rattle.std.specs.Prelude.{◌≡◌, ◌≤◌, ◌-◌, map, IfOk, OnOk};
ghost use Rattle.rel_formula.specs.Kernel.{conjunction, formulas_of};
ghost use Rattle.rel_formula.specs.View.{expression_tree, formula_tree};
ghost use Rattle.named_model.specs.View.{phrase_view, phrases_view, meaning_view, named_view};
ghost use Rattle.body_lowering.specs.Kernel.View.{part_view};
ghost use Rattle.lowering_rules.specs.Parts as rules;
ghost use Rattle.lowering_rules.specs.Parts.{relation, expression_in, formula_in, prefix_lowered, comparison_lowered};
ghost use Rattle.lowering_rules.specs.Binders.{arguments};
ghost use Rattle.lowering_rules.specs.Lowering.{base_within, calls_within, lowered, formulas_lowered, expressions_lowered, meaning_lowered, referent_lowered};
ghost use Rattle.body_lowering.specs.Locals.{locals_view};
ghost use Rattle.body_lowering.specs.Lowers.{LowersWithin};

use crate::kernel_parts::Part;
use crate::kernel_parts::connectives::implication;
use crate::kernel_parts::expressions::constant;
use crate::locals::Local;
use crate::names::referred;
use crate::operations::{choice, compared, prefixed};
use crate::room::{Depth, Room};
use alloy_syntax::tree::{Comparing, Prefix};
use lowering_rules::LowerStop;
use named_model::Named;
use named_model::named::Meaning;
use named_model::phrase::{Phrase, Referent};
use rel_formula::{Expression, Formula};
use std::alloc::Global;

/// The rules for parts.
#[derive(Clone, Copy)]
pub struct Rules<F> {
    pub alloc: Global,
    /// Lowers what stands inside of a part.
    pub lower: F,
}

impl<
    F: Fn(Global, &Named, Depth, &mut Vec<Local>, &mut Room, &Phrase) -> Result<Part, LowerStop>,
> Rules<F> {
    /// What a part inside of another one becomes.
    pub fn lower(
        &self,
        model: &Named,
        at: Depth,
        locals: &mut Vec<Local>,
        room: &mut Room,
        phrase: &Phrase,
    ) -> Result<Part, LowerStop>
        requires { LowersWithin at.levels (F.pre self.now.lower) (F.post self.now.lower) }
        ensures value { IfOk result (λ p. part_view p ≡ lowered (base_within at.calls (named_view model.now)) (locals_view locals.old.items) at.binders (phrase_view phrase.now)) }
        ensures locals { OnOk result (locals_view locals.new.items ≡ locals_view locals.old.items) }
    {
        (self.lower)(self.alloc, model, at, locals, room, phrase)
    }

    /// What a part becomes by the rule for it.
    pub fn below(
        &self,
        model: &Named,
        at: Depth,
        locals: &mut Vec<Local>,
        room: &mut Room,
        phrase: &Phrase,
    ) -> Result<Part, LowerStop>
        requires levels { 8 ≤ at.levels }
        requires lowers { LowersWithin (at.levels - 8) (F.pre self.now.lower) (F.post self.now.lower) }
        ensures value { IfOk result (λ p. part_view p ≡ lowered (base_within at.calls (named_view model.now)) (locals_view locals.old.items) at.binders (phrase_view phrase.now)) }
        ensures locals { OnOk result (locals_view locals.new.items ≡ locals_view locals.old.items) }
    {
        // A part inside of another one counts as eight levels: it takes more of the stack than a node does.
        let below = Depth {
            levels: at.levels - 8,
            ..at
        };
        match phrase {
            Phrase::Refers(_, referent) => {
                refers(self.alloc, model, at, locals, room, *referent)
            }
            Phrase::Called(_, callee, given) => {
                self.call(model, below, locals, room, *callee, given)
            }
            Phrase::Numbered(number) => Ok(Part::Number(number.value)),
            Phrase::Constant(word, _) => Ok(Part::Relation(constant(*word))),
            Phrase::Bracketed(_, inner) => self.lower(model, below, locals, room, inner),
            Phrase::Block(_, parts) => self.block(model, below, locals, room, parts),
            Phrase::Prefixed(prefix, _, inner) => {
                self.prefix_of(model, below, locals, room, *prefix, inner)
            }
            Phrase::Chain(first, links) => self.chain(model, below, locals, room, first, links),
            Phrase::Path(head, steps) => self.path(model, below, locals, room, head, steps),
            Phrase::Compared(left, comparing, right) => {
                self.comparison(model, below, locals, room, *comparing, left, right)
            }
            Phrase::Implies(left, _, right) => {
                self.implies(model, below, locals, room, left, right)
            }
            Phrase::ImpliesElse(left, _, right, other) => {
                self.implies_else(model, below, locals, room, left, right, other)
            }
            Phrase::Quantified(quantifier, _, domains, inner) => {
                self.quantify(model, below, locals, room, *quantifier, domains, inner)
            }
            Phrase::Let(_, given, inner) => {
                self.bound_by_let(model, below, locals, room, given, inner)
            }
        }
    }

    /// The expression that a part becomes.
    pub fn expression(
        &self,
        model: &Named,
        at: Depth,
        locals: &mut Vec<Local>,
        room: &mut Room,
        phrase: &Phrase,
    ) -> Result<Expression, LowerStop>
        requires { LowersWithin at.levels (F.pre self.now.lower) (F.post self.now.lower) }
        ensures value { IfOk result (λ e. expression_tree e ≡ expression_in (lowered (base_within at.calls (named_view model.now)) (locals_view locals.old.items) at.binders (phrase_view phrase.now))) }
        ensures locals { OnOk result (locals_view locals.new.items ≡ locals_view locals.old.items) }
    {
        let part = self.lower(model, at, locals, room, phrase)?;
        Ok(part.into_expression())
    }

    /// The formula that a part becomes.
    pub fn formula(
        &self,
        model: &Named,
        at: Depth,
        locals: &mut Vec<Local>,
        room: &mut Room,
        phrase: &Phrase,
    ) -> Result<Formula, LowerStop>
        requires { LowersWithin at.levels (F.pre self.now.lower) (F.post self.now.lower) }
        ensures value { IfOk result (λ f. formula_tree f ≡ formula_in (lowered (base_within at.calls (named_view model.now)) (locals_view locals.old.items) at.binders (phrase_view phrase.now))) }
        ensures locals { OnOk result (locals_view locals.new.items ≡ locals_view locals.old.items) }
    {
        let part = self.lower(model, at, locals, room, phrase)?;
        Ok(part.into_formula(self.alloc))
    }

    /// What formulas become that see the same names.
    pub fn formulas(
        &self,
        model: &Named,
        at: Depth,
        locals: &mut Vec<Local>,
        room: &mut Room,
        phrases: &[Phrase],
    ) -> Result<Vec<Formula>, LowerStop>
        requires { LowersWithin at.levels (F.pre self.now.lower) (F.post self.now.lower) }
        ensures value { IfOk result (λ fs. formulas_of (map formula_tree fs.items) ≡ formulas_lowered (base_within at.calls (named_view model.now)) (locals_view locals.old.items) at.binders (phrases_view phrases.now)) }
        ensures locals { OnOk result (locals_view locals.new.items ≡ locals_view locals.old.items) }
    {
        let mut formulas = Vec::new(self.alloc);
        for phrase in phrases {
            let another = self.formula(model, at, locals, room, phrase)?;
            formulas.push(another)?;
        }
        Ok(formulas)
    }

    // What formulas become as one.
    fn block(
        &self,
        model: &Named,
        at: Depth,
        locals: &mut Vec<Local>,
        room: &mut Room,
        phrases: &[Phrase],
    ) -> Result<Part, LowerStop>
        requires { LowersWithin at.levels (F.pre self.now.lower) (F.post self.now.lower) }
        ensures value { IfOk result (λ p. part_view p ≡ rules.formula (conjunction (formulas_lowered (base_within at.calls (named_view model.now)) (locals_view locals.old.items) at.binders (phrases_view phrases.now)))) }
        ensures locals { OnOk result (locals_view locals.new.items ≡ locals_view locals.old.items) }
    {
        let formulas = self.formulas(model, at, locals, room, phrases)?;
        Ok(Part::Formula(Formula::all_of(formulas)))
    }

    // A call of the predicate or function of a number.
    fn call(
        &self,
        model: &Named,
        at: Depth,
        locals: &mut Vec<Local>,
        room: &mut Room,
        callee: usize,
        given: &[Phrase],
    ) -> Result<Part, LowerStop>
        requires { LowersWithin at.levels (F.pre self.now.lower) (F.post self.now.lower) }
        ensures value { IfOk result (λ p. part_view p ≡ calls_within at.calls (named_view model.now) callee at.binders (expressions_lowered (base_within at.calls (named_view model.now)) (locals_view locals.old.items) at.binders (phrases_view given.now))) }
        ensures locals { OnOk result (locals_view locals.new.items ≡ locals_view locals.old.items) }
    {
        if at.calls == 0 {
            return Ok(Part::Relation(Expression::None));
        }
        let inside = Depth {
            calls: at.calls - 1,
            ..at
        };
        match model.callees.get(callee) {
            None => Ok(Part::Relation(Expression::None)),
            Some(callee) => {
                let mut given = self.arguments(model, at, locals, room, given)?;
                Ok(self.meaning(model, inside, &mut given, room, &callee.meaning)?)
            }
        }
    }

    // What arguments are as local names.
    fn arguments(
        &self,
        model: &Named,
        at: Depth,
        locals: &mut Vec<Local>,
        room: &mut Room,
        phrases: &[Phrase],
    ) -> Result<Vec<Local>, LowerStop>
        requires { LowersWithin at.levels (F.pre self.now.lower) (F.post self.now.lower) }
        ensures value { IfOk result (λ given. locals_view given.items ≡ arguments at.binders (expressions_lowered (base_within at.calls (named_view model.now)) (locals_view locals.old.items) at.binders (phrases_view phrases.now))) }
        ensures locals { OnOk result (locals_view locals.new.items ≡ locals_view locals.old.items) }
    {
        let mut given = Vec::new(self.alloc);
        for phrase in phrases {
            let expression = self.expression(model, at, locals, room, phrase)?;
            given.push(Local {
                depth: at.binders,
                expression,
            })?;
        }
        Ok(given)
    }

    /// What the body of a predicate or function becomes, where the local names are what stands for its parameters.
    pub fn meaning(
        &self,
        model: &Named,
        at: Depth,
        locals: &mut Vec<Local>,
        room: &mut Room,
        meaning: &Meaning,
    ) -> Result<Part, LowerStop>
        requires { LowersWithin at.levels (F.pre self.now.lower) (F.post self.now.lower) }
        ensures value { IfOk result (λ p. part_view p ≡ meaning_lowered (base_within at.calls (named_view model.now)) (locals_view locals.old.items) at.binders (meaning_view meaning.now)) }
        ensures locals { OnOk result (locals_view locals.new.items ≡ locals_view locals.old.items) }
    {
        match meaning {
            Meaning::Formulas(parts) => self.block(model, at, locals, room, parts),
            Meaning::Value(_, body) => self.lower(model, at, locals, room, body),
        }
    }

    fn prefix_of(
        &self,
        model: &Named,
        at: Depth,
        locals: &mut Vec<Local>,
        room: &mut Room,
        prefix: Prefix,
        inner: &Phrase,
    ) -> Result<Part, LowerStop>
        requires { LowersWithin at.levels (F.pre self.now.lower) (F.post self.now.lower) }
        ensures value { IfOk result (λ p. part_view p ≡ prefix_lowered prefix (lowered (base_within at.calls (named_view model.now)) (locals_view locals.old.items) at.binders (phrase_view inner.now))) }
        ensures locals { OnOk result (locals_view locals.new.items ≡ locals_view locals.old.items) }
    {
        let part = self.lower(model, at, locals, room, inner)?;
        Ok(prefixed(self.alloc, room, at.levels, prefix, part)?)
    }

    fn comparison(
        &self,
        model: &Named,
        at: Depth,
        locals: &mut Vec<Local>,
        room: &mut Room,
        comparing: Comparing,
        left: &Phrase,
        right: &Phrase,
    ) -> Result<Part, LowerStop>
        requires { LowersWithin at.levels (F.pre self.now.lower) (F.post self.now.lower) }
        ensures value { IfOk result (λ p. part_view p ≡ comparison_lowered comparing (lowered (base_within at.calls (named_view model.now)) (locals_view locals.old.items) at.binders (phrase_view left.now)) (lowered (base_within at.calls (named_view model.now)) (locals_view locals.old.items) at.binders (phrase_view right.now))) }
        ensures locals { OnOk result (locals_view locals.new.items ≡ locals_view locals.old.items) }
    {
        let left = self.lower(model, at, locals, room, left)?;
        let right = self.lower(model, at, locals, room, right)?;
        Ok(compared(self.alloc, room, at.levels, comparing, left, right)?)
    }

    fn implies(
        &self,
        model: &Named,
        at: Depth,
        locals: &mut Vec<Local>,
        room: &mut Room,
        left: &Phrase,
        right: &Phrase,
    ) -> Result<Part, LowerStop>
        requires { LowersWithin at.levels (F.pre self.now.lower) (F.post self.now.lower) }
        ensures value { IfOk result (λ p. part_view p ≡ rules.formula (rules.implication (formula_in (lowered (base_within at.calls (named_view model.now)) (locals_view locals.old.items) at.binders (phrase_view left.now))) (formula_in (lowered (base_within at.calls (named_view model.now)) (locals_view locals.old.items) at.binders (phrase_view right.now))))) }
        ensures locals { OnOk result (locals_view locals.new.items ≡ locals_view locals.old.items) }
    {
        let left = self.formula(model, at, locals, room, left)?;
        let right = self.formula(model, at, locals, room, right)?;
        Ok(Part::Formula(implication(self.alloc, left, right)?))
    }

    fn implies_else(
        &self,
        model: &Named,
        at: Depth,
        locals: &mut Vec<Local>,
        room: &mut Room,
        left: &Phrase,
        right: &Phrase,
        other: &Phrase,
    ) -> Result<Part, LowerStop>
        requires { LowersWithin at.levels (F.pre self.now.lower) (F.post self.now.lower) }
        ensures value { IfOk result (λ p. part_view p ≡ rules.formula (rules.choice (formula_in (lowered (base_within at.calls (named_view model.now)) (locals_view locals.old.items) at.binders (phrase_view left.now))) (formula_in (lowered (base_within at.calls (named_view model.now)) (locals_view locals.old.items) at.binders (phrase_view right.now))) (formula_in (lowered (base_within at.calls (named_view model.now)) (locals_view locals.old.items) at.binders (phrase_view other.now))))) }
        ensures locals { OnOk result (locals_view locals.new.items ≡ locals_view locals.old.items) }
    {
        let left = self.formula(model, at, locals, room, left)?;
        let right = self.formula(model, at, locals, room, right)?;
        let other = self.formula(model, at, locals, room, other)?;
        Ok(Part::Formula(choice(self.alloc, room, at.levels, left, right, other)?))
    }
}

// What a name becomes.
fn refers(
    alloc: Global,
    model: &Named,
    at: Depth,
    locals: &[Local],
    room: &mut Room,
    referent: Referent,
) -> Result<Part, LowerStop>
    ensures { IfOk result (λ p. part_view p ≡ relation (referent_lowered (base_within at.calls (named_view model.now)) (locals_view locals.now) at.binders referent)) }
{
    let signatures = model.signatures.len();
    let e = referred(alloc, signatures, at, locals, room, referent)?;
    Ok(Part::Relation(e))
}
