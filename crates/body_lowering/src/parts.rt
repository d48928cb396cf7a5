// Parts of bodies.
ghost use Rattle.std.specs.Prelude.{◌≡◌, ◌+◌, map, IfOk, OnOk};
ghost use Rattle.rel_formula.specs.Kernel.{formulas_of};
ghost use Rattle.rel_formula.specs.View.{expression_tree, formula_tree};
ghost use Rattle.named_model.specs.Phrase.{domains_of};
ghost use Rattle.named_model.specs.View.{phrase_view, phrases_view, domain_view, meaning_view, named_view};
ghost use Rattle.body_lowering.specs.Kernel.View.{part_view};
ghost use Rattle.lowering_rules.specs.Parts.{formula_in};
ghost use Rattle.lowering_rules.specs.Binders.{behind_domains, variables_in, differences_in};
ghost use Rattle.lowering_rules.specs.Lowering.{base_within, lowered, formulas_lowered, domains_lowered, meaning_lowered};
ghost use Rattle.body_lowering.specs.Locals.{locals_view};

use crate::kernel_parts::Part;
use crate::locals::Local;
use crate::room::{Depth, Room};
use crate::rules::Rules;
use lowering_rules::LowerStop;
use named_model::Named;
use named_model::named::Meaning;
use named_model::phrase::{Domain, Phrase};
use rel_formula::{Expression, Formula};
use std::alloc::Global;

/// What a part becomes where it stands, with these local names, the last of which is innermost. The names are left as they
/// were, where memory suffices.
pub fn lower(
    alloc: Global,
    model: &Named,
    at: Depth,
    locals: &mut Vec<Local>,
    room: &mut Room,
    phrase: &Phrase,
) -> Result<Part, LowerStop>
    ensures value { IfOk result (λ p. part_view p ≡ lowered (base_within at.calls (named_view model.now)) (locals_view locals.old.items) at.binders (phrase_view phrase.now)) }
    ensures locals { OnOk result (locals_view locals.new.items ≡ locals_view locals.old.items) }
{
    // No part adds more than six nodes beside copies.
    room.take(6)?;
    if at.levels < 8 {
        return Err(LowerStop::TooLarge);
    }
    let rules = Rules { alloc, lower };
    rules.below(model, at, locals, room, phrase)
}

/// The formula that a part becomes.
pub fn formula(
    alloc: Global,
    model: &Named,
    at: Depth,
    locals: &mut Vec<Local>,
    room: &mut Room,
    phrase: &Phrase,
) -> Result<Formula, LowerStop>
    ensures value { IfOk result (λ f. formula_tree f ≡ formula_in (lowered (base_within at.calls (named_view model.now)) (locals_view locals.old.items) at.binders (phrase_view phrase.now))) }
    ensures locals { OnOk result (locals_view locals.new.items ≡ locals_view locals.old.items) }
{
    let rules = Rules { alloc, lower };
    rules.formula(model, at, locals, room, phrase)
}

/// What formulas become that see the same names.
pub fn formulas(
    alloc: Global,
    model: &Named,
    at: Depth,
    locals: &mut Vec<Local>,
    room: &mut Room,
    phrases: &[Phrase],
) -> Result<Vec<Formula>, LowerStop>
    ensures value { IfOk result (λ fs. formulas_of (map formula_tree fs.items) ≡ formulas_lowered (base_within at.calls (named_view model.now)) (locals_view locals.old.items) at.binders (phrases_view phrases.now)) }
    ensures locals { OnOk result (locals_view locals.new.items ≡ locals_view locals.old.items) }
{
    let rules = Rules { alloc, lower };
    rules.formulas(model, at, locals, room, phrases)
}

/// What the body of a predicate or function becomes, where the local names are what stands for its parameters.
pub fn meaning(
    alloc: Global,
    model: &Named,
    at: Depth,
    locals: &mut Vec<Local>,
    room: &mut Room,
    meaning: &Meaning,
) -> Result<Part, LowerStop>
    ensures value { IfOk result (λ p. part_view p ≡ meaning_lowered (base_within at.calls (named_view model.now)) (locals_view locals.old.items) at.binders (meaning_view meaning.now)) }
    ensures locals { OnOk result (locals_view locals.new.items ≡ locals_view locals.old.items) }
{
    let rules = Rules { alloc, lower };
    rules.meaning(model, at, locals, room, meaning)
}

/// Variables that were entered: their domains, the outermost first, what is said of disjoint ones, and the number of binders
/// behind them.
#[derive(Drop)]
pub struct Variables {
    pub domains: Vec<Expression>,
    pub apart: Vec<Formula>,
    pub binders: u32,
}

/// Enters the variables of these domains, each of which sees the variables before.
pub(crate) fn variables_of(
    alloc: Global,
    model: &Named,
    at: Depth,
    locals: &mut Vec<Local>,
    room: &mut Room,
    domains: &[Domain],
) -> Result<Variables, LowerStop>
    ensures domains { IfOk result (λ v. map expression_tree v.domains.items ≡ domains_lowered (base_within at.calls (named_view model.now)) (locals_view locals.old.items) at.binders (domains_of (map domain_view domains.now))) }
    ensures apart { IfOk result (λ v. map formula_tree v.apart.items ≡ differences_in (at.binders + variables_in (domains_of (map domain_view domains.now))) at.binders (domains_of (map domain_view domains.now))) }
    ensures binders { IfOk result (λ v. v.binders ≡ at.binders + variables_in (domains_of (map domain_view domains.now))) }
    ensures locals { OnOk result (locals_view locals.new.items ≡ behind_domains at.binders (domains_of (map domain_view domains.now)) (locals_view locals.old.items)) }
{
    let rules = Rules { alloc, lower };
    rules.variables_of(model, at, locals, room, domains)
}
