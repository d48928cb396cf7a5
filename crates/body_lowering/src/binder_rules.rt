// The rules for variables, and for names of values.
ghost use Rattle.std.specs.Prelude.{◌≡◌, ◌+◌, ◌*◌, ◌++◌, map, IfOk, OnOk};
ghost use Rattle.rel_formula.specs.View.{expression_tree, formula_tree};
ghost use Rattle.named_model.specs.Phrase.{domains_of};
ghost use Rattle.named_model.specs.View.{phrase_view, phrases_view, domain_view, named_view};
ghost use Rattle.body_lowering.specs.Kernel.View.{part_view};
ghost use Rattle.lowering_rules.specs.Parts as rules;
ghost use Rattle.lowering_rules.specs.Parts.{expression_in, formula_in};
ghost use Rattle.lowering_rules.specs.Binders.{behind_variables, behind_domains, variables_in, domain_of_each, differences_in, quantified_by};
ghost use Rattle.lowering_rules.specs.Lowering.{base_within, lowered, domains_lowered, behind_values};
ghost use Rattle.body_lowering.specs.Locals.{locals_view};
ghost use Rattle.body_lowering.specs.Nodes.{nodes_of};
ghost use Rattle.body_lowering.specs.Lowers.{LowersWithin};

use crate::charges::charge_copies;
use crate::kernel_parts::Part;
use crate::kernel_parts::binders::add_domains;
use crate::locals::{Local, enter_variables};
use crate::parts::Variables;
use crate::quantifiers::{bind, differences, number};
use crate::room::{Depth, Room};
use crate::rules::Rules;
use alloy_syntax::tree::Quantifier;
use lowering_rules::LowerStop;
use named_model::Named;
use named_model::phrase::{Domain, Phrase};
use rel_formula::{Expression, Formula};
use std::alloc::Global;

impl<
    F: Fn(Global, &Named, Depth, &mut Vec<Local>, &mut Room, &Phrase) -> Result<Part, LowerStop>,
> Rules<F> {
    /// A quantifier over the variables of domains, each of which sees the variables before.
    pub fn quantify(
        &self,
        model: &Named,
        at: Depth,
        locals: &mut Vec<Local>,
        room: &mut Room,
        quantifier: Quantifier,
        domains: &[Domain],
        inner: &Phrase,
    ) -> Result<Part, LowerStop>
        requires { LowersWithin at.levels (F.pre self.now.lower) (F.post self.now.lower) }
        ensures value { IfOk result (λ p. part_view p ≡ rules.formula (quantified_by quantifier (domains_lowered (base_within at.calls (named_view model.now)) (locals_view locals.old.items) at.binders (domains_of (map domain_view domains.now))) (differences_in (at.binders + variables_in (domains_of (map domain_view domains.now))) at.binders (domains_of (map domain_view domains.now))) (formula_in (lowered (base_within at.calls (named_view model.now)) (behind_domains at.binders (domains_of (map domain_view domains.now)) (locals_view locals.old.items)) (at.binders + variables_in (domains_of (map domain_view domains.now))) (phrase_view inner.now))))) }
        ensures locals { OnOk result (locals_view locals.new.items ≡ locals_view locals.old.items) }
    {
        let kept = locals.len();
        let variables = self.variables_of(model, at, locals, room, domains)?;
        let inside = Depth {
            binders: variables.binders,
            levels: at.levels.saturating_sub(variables.binders - at.binders),
            ..at
        };
        let body = self.formula(model, inside, locals, room, inner)?;
        locals.truncate(kept);
        Ok(Part::Formula(bind(
            self.alloc,
            room,
            at.levels,
            quantifier,
            variables.domains,
            variables.apart,
            body,
        )?))
    }

    /// Enters the variables of these domains, each of which sees the variables before.
    pub fn variables_of(
        &self,
        model: &Named,
        at: Depth,
        locals: &mut Vec<Local>,
        room: &mut Room,
        domains: &[Domain],
    ) -> Result<Variables, LowerStop>
        requires { LowersWithin at.levels (F.pre self.now.lower) (F.post self.now.lower) }
        ensures domains { IfOk result (λ v. map expression_tree v.domains.items ≡ domains_lowered (base_within at.calls (named_view model.now)) (locals_view locals.old.items) at.binders (domains_of (map domain_view domains.now))) }
        ensures apart { IfOk result (λ v. map formula_tree v.apart.items ≡ differences_in (at.binders + variables_in (domains_of (map domain_view domains.now))) at.binders (domains_of (map domain_view domains.now))) }
        ensures binders { IfOk result (λ v. v.binders ≡ at.binders + variables_in (domains_of (map domain_view domains.now))) }
        ensures locals { OnOk result (locals_view locals.new.items ≡ behind_domains at.binders (domains_of (map domain_view domains.now)) (locals_view locals.old.items)) }
    {
        let mut all = Vec::new(self.alloc);
        let binders = self.add_all(model, at, locals, room, &mut all, domains)?;
        let apart = differences(self.alloc, room, binders, at.binders, domains)?;
        Ok(Variables {
            domains: all,
            apart,
            binders,
        })
    }

    // Adds the domain of each variable, and enters it; the number of binders behind them.
    fn add_all(
        &self,
        model: &Named,
        at: Depth,
        locals: &mut Vec<Local>,
        room: &mut Room,
        all: &mut Vec<Expression>,
        domains: &[Domain],
    ) -> Result<u32, LowerStop>
        requires { LowersWithin at.levels (F.pre self.now.lower) (F.post self.now.lower) }
        ensures value { OnOk result (map expression_tree all.new.items ≡ map expression_tree all.old.items ++ domains_lowered (base_within at.calls (named_view model.now)) (locals_view locals.old.items) at.binders (domains_of (map domain_view domains.now))) }
        ensures binders { IfOk result (λ binders. binders ≡ at.binders + variables_in (domains_of (map domain_view domains.now))) }
        ensures locals { OnOk result (locals_view locals.new.items ≡ behind_domains at.binders (domains_of (map domain_view domains.now)) (locals_view locals.old.items)) }
    {
        let mut binders = at.binders;
        for domain in domains {
            let here = Depth { binders, ..at };
            binders = self.add_domain(model, here, locals, room, all, domain)?;
        }
        Ok(binders)
    }

    // Adds the domain of each variable of one declaration, and enters them; the number of binders behind them.
    fn add_domain(
        &self,
        model: &Named,
        at: Depth,
        locals: &mut Vec<Local>,
        room: &mut Room,
        all: &mut Vec<Expression>,
        domain: &Domain,
    ) -> Result<u32, LowerStop>
        requires { LowersWithin at.levels (F.pre self.now.lower) (F.post self.now.lower) }
        ensures value { OnOk result (map expression_tree all.new.items ≡ map expression_tree all.old.items ++ domain_of_each 0 (expression_in (lowered (base_within at.calls (named_view model.now)) (locals_view locals.old.items) at.binders (domain_view domain.now).domain)) (domain_view domain.now).count) }
        ensures binders { IfOk result (λ binders. binders ≡ at.binders + (domain_view domain.now).count) }
        ensures locals { OnOk result (locals_view locals.new.items ≡ behind_variables at.binders (domain_view domain.now).count (locals_view locals.old.items)) }
    {
        let e = self.expression(model, at, locals, room, &domain.domain)?;
        Ok(enter(self.alloc, at, locals, room, all, &e, domain.count)?)
    }

    /// What a part becomes behind the names of values.
    pub fn bound_by_let(
        &self,
        model: &Named,
        at: Depth,
        locals: &mut Vec<Local>,
        room: &mut Room,
        given: &[Phrase],
        inner: &Phrase,
    ) -> Result<Part, LowerStop>
        requires { LowersWithin at.levels (F.pre self.now.lower) (F.post self.now.lower) }
        ensures value { IfOk result (λ p. part_view p ≡ lowered (base_within at.calls (named_view model.now)) (behind_values (base_within at.calls (named_view model.now)) (locals_view locals.old.items) at.binders (phrases_view given.now)) at.binders (phrase_view inner.now)) }
        ensures locals { OnOk result (locals_view locals.new.items ≡ locals_view locals.old.items) }
    {
        let kept = locals.len();
        self.values(model, at, locals, room, given)?;
        let part = self.lower(model, at, locals, room, inner)?;
        locals.truncate(kept);
        Ok(part)
    }

    // Enters the names of values, each of which sees the names before.
    fn values(
        &self,
        model: &Named,
        at: Depth,
        locals: &mut Vec<Local>,
        room: &mut Room,
        phrases: &[Phrase],
    ) -> Result<(), LowerStop>
        requires { LowersWithin at.levels (F.pre self.now.lower) (F.post self.now.lower) }
        ensures { OnOk result (locals_view locals.new.items ≡ behind_values (base_within at.calls (named_view model.now)) (locals_view locals.old.items) at.binders (phrases_view phrases.now)) }
    {
        for phrase in phrases {
            let expression = self.expression(model, at, locals, room, phrase)?;
            locals.push(Local {
                depth: at.binders,
                expression,
            })?;
        }
        Ok(())
    }
}

// Adds the domain of each of so many variables, and enters them; the number of binders behind them. A node for each domain and one
// for each variable are taken beside those of the copies.
fn enter(
    alloc: Global,
    at: Depth,
    locals: &mut Vec<Local>,
    room: &mut Room,
    all: &mut Vec<Expression>,
    domain: &Expression,
    count: usize,
) -> Result<u32, LowerStop>
    ensures value { OnOk result (map expression_tree all.new.items ≡ map expression_tree all.old.items ++ domain_of_each 0 (expression_tree domain.now) count) }
    ensures binders { IfOk result (λ binders. binders ≡ at.binders + count) }
    ensures locals { OnOk result (locals_view locals.new.items ≡ behind_variables at.binders count (locals_view locals.old.items)) }
    ensures taken { OnOk result (room.new.nodes + count + count * (nodes_of (expression_tree domain.now) + 1) ≡ room.old.nodes) }
{
    let count = number(count)?;
    charge_copies(room, at.levels, domain, count)?;
    add_domains(alloc, all, domain, count)?;
    Ok(enter_variables(locals, room, at.binders, count)?)
}
