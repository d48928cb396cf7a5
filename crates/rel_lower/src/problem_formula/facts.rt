// What facts say.
ghost use Rattle.std.specs.Prelude.{◌≡◌, IfOk, map};
ghost use Rattle.rel_formula.specs.View.{formula_tree};
ghost use Rattle.named_model.specs.View.{named_view};
ghost use Rattle.lowering_rules.specs.Lowering.{base_of};
ghost use Rattle.lowering_rules.specs.Formula.{fact_says};
ghost use Rattle.rel_lower.specs.Signatures.Said.{Says};

use body_lowering::{Room, bodies};
use lowering_rules::LowerStop;
use named_model::Named;
use rel_formula::Formula;
use std::alloc::Global;

/// Adds what these facts say, in this order. Facts are numbered from 1.
pub fn add_facts(
    alloc: Global,
    formulas: &mut Vec<Formula>,
    model: &Named,
    room: &mut Room,
    facts: &[usize],
) -> Result<(), LowerStop>
    ensures { IfOk result (λ _. Says formulas.old.items formulas.new.items (map (fact_says (named_view model.now) (base_of (named_view model.now))) facts.now)) }
{
    for fact in facts {
        let formula = fact_formula(alloc, model, room, *fact)?;
        formulas.push(formula)?;
    }
    Ok(())
}

// What the fact of that number says; nothing, where there is none.
fn fact_formula(
    alloc: Global,
    model: &Named,
    room: &mut Room,
    fact: usize,
) -> Result<Formula, LowerStop>
    ensures { IfOk result (λ f. formula_tree f ≡ fact_says (named_view model.now) (base_of (named_view model.now)) fact) }
{
    match model.facts.get(fact.saturating_sub(1)) {
        None => Ok(Formula::all_of(Vec::new(alloc))),
        Some(said) => bodies::block(alloc, model, room, &said.formulas),
    }
}
