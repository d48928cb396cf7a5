// Whole bodies, with all calls of a model.
ghost use Rattle.std.specs.Prelude.{◌≡◌, [], Some, IfOk, map};
ghost use Rattle.alloy_syntax.specs.declared.tree.Quantifier.TheVariants as quantifier;
ghost use Rattle.rel_formula.specs.View.{expression_tree, formula_tree};
ghost use Rattle.named_model.specs.View.{phrase_view, phrases_view, callee_view, meaning_view, named_view};
ghost use Rattle.lowering_rules.specs.Parts.{expression_in, formula_in};
ghost use Rattle.lowering_rules.specs.Binders.{quantified_by};
ghost use Rattle.lowering_rules.specs.Lowering.{base_of, base_within, lowered, meaning_lowered};
ghost use Rattle.lowering_rules.specs.Formula.{block_says, predicate_says};
ghost use Rattle.body_lowering.specs.Locals.{locals_view};

use crate::locals::Local;
use crate::parts::{Variables, formulas, lower, meaning, variables_of};
use crate::quantifiers::bind;
use crate::room::{Depth, Room};
use alloy_syntax::tree::Quantifier;
use lowering_rules::{LowerStop, TooLarge};
use named_model::Named;
use named_model::named::{Callee, Meaning};
use named_model::phrase::Phrase;
use rel_formula::{Expression, Formula};
use std::alloc::Global;

// Where a body stands, under so many binders.
fn outside(model: &Named, binders: u32) -> Depth
    ensures calls { base_within result.calls (named_view model.now) ≡ base_of (named_view model.now) }
    ensures binders { result.binders ≡ binders }
{
    Depth {
        binders,
        calls: model.callees.len(),
        levels: 2048,
    }
}

/// What an expression becomes that stands under so many binders and sees no local names.
pub fn expression(
    alloc: Global,
    model: &Named,
    room: &mut Room,
    binders: u32,
    phrase: &Phrase,
) -> Result<Expression, LowerStop>
    ensures { IfOk result (λ e. expression_tree e ≡ expression_in (lowered (base_of (named_view model.now)) [] binders (phrase_view phrase.now))) }
{
    let at = outside(model, binders);
    let part = lower(alloc, model, at, &mut Vec::new(alloc), room, phrase)?;
    Ok(part.into_expression())
}

/// What the formulas of a fact, an assertion or a command become, as one.
pub fn block(
    alloc: Global,
    model: &Named,
    room: &mut Room,
    phrases: &[Phrase],
) -> Result<Formula, LowerStop>
    ensures { IfOk result (λ f. formula_tree f ≡ block_says (base_of (named_view model.now)) (phrases_view phrases.now)) }
{
    let at = outside(model, 0);
    let formulas = formulas(alloc, model, at, &mut Vec::new(alloc), room, phrases)?;
    Ok(Formula::all_of(formulas))
}

/// That some atoms of the domains of the parameters make the body of a predicate true.
pub fn predicate(
    alloc: Global,
    model: &Named,
    room: &mut Room,
    callee: &Callee,
) -> Result<Formula, LowerStop>
    ensures { IfOk result (λ f. formula_tree f ≡ predicate_says (base_of (named_view model.now)) (Some (callee_view callee.now))) }
{
    let at = outside(model, 0);
    let mut locals = Vec::new(alloc);
    let variables = variables_of(alloc, model, at, &mut locals, room, &callee.parameters)?;
    Ok(run(
        alloc,
        model,
        at,
        &mut locals,
        room,
        variables,
        &callee.meaning,
    )?)
}

// That some atoms of the domains of these variables make the body true. Each variable is a level above the body.
fn run(
    alloc: Global,
    model: &Named,
    at: Depth,
    locals: &mut Vec<Local>,
    room: &mut Room,
    variables: Variables,
    body: &Meaning,
) -> Result<Formula, LowerStop>
    ensures { IfOk result (λ f. formula_tree f ≡ quantified_by quantifier.Some (map expression_tree variables.domains.items) (map formula_tree variables.apart.items) (formula_in (meaning_lowered (base_within at.calls (named_view model.now)) (locals_view locals.old.items) variables.binders (meaning_view body.now)))) }
{
    let inside = Depth {
        binders: variables.binders,
        levels: at.levels.checked_sub(variables.binders).ok_or(TooLarge)?,
        ..at
    };
    let body = meaning(alloc, model, inside, locals, room, body)?;
    Ok(bind(
        alloc,
        room,
        at.levels,
        Quantifier::Some,
        variables.domains,
        variables.apart,
        body.into_formula(alloc),
    )?)
}
