// The problem of a command.
ghost use Rattle.std.specs.Prelude.{◌≡◌, ◌≤◌, ◌<◌, ◌^◌, ℕ, Some, length, MatchResult};
ghost use Rattle.named_model.specs.View.{command_view, named_view};
ghost use Rattle.lowering_rules.specs.Formula.{all_facts};
ghost use Rattle.lowering_rules.specs.Problem as problem;
ghost use Rattle.lowering_rules.specs.Problem.{Commands, ProblemOf, IsRefusal};
ghost use Rattle.rel_formula.specs.Bounds.{IsProblem};
ghost use Rattle.rel_lower.specs.Lowered.{IsTyped, IsLowered};

use crate::commands::{command_at, numbers, of_sizes};
use crate::field_bounds::laws::{sizes_are_few, typed_fields_have_lists};
use crate::field_bounds::relations::relations;
use crate::laws::typed_problems_are_formed;
use crate::problem_formula::formula_of;
use crate::relations::{differing, tops};
use lowering_rules::LowerFault;
use lowering_rules::laws::problems_are_small;
use model_sizes::sizes::sizes;
use model_sizes::{Size, Sizes};
use named_model::Named;
use named_model::named::Command;
use rel_formula::Problem;
use rel_terms::terms;
use std::alloc::Global;

/// The problem of the command of that number, from 1 on, with all facts; or the first reason why there is none.
pub fn lower(alloc: Global, model: &Named, command: u32) -> Result<Problem, LowerFault>
    requires { IsTyped (named_view model.now) }
    ensures { MatchResult result (IsLowered (named_view model.now) command (all_facts (named_view model.now))) (IsRefusal (named_view model.now) command (all_facts (named_view model.now))) }
{
    let facts = numbers(alloc, model.facts.len())?;
    lower_with(alloc, model, command, &facts)
}

/// The problem of the command of that number, from 1 on, with the facts of these numbers, from 1 on; or the first reason why
/// there is none.
pub fn lower_with(
    alloc: Global,
    model: &Named,
    command: u32,
    facts: &[usize],
) -> Result<Problem, LowerFault>
    requires { IsTyped (named_view model.now) }
    ensures { MatchResult result (IsLowered (named_view model.now) command facts.now) (IsRefusal (named_view model.now) command facts.now) }
{
    let Some(declared) = command_at(model, command) else {
        return Err(LowerFault::NoCommand);
    };
    let sizes = match sizes(alloc, model, command) {
        Ok(sizes) => sizes,
        Err(fault) => return Err(of_sizes(fault)),
    };
    Ok(under_sizes(alloc, model, command, declared, sizes.as_slice(), facts)?)
}

// The problem under these sizes.
fn under_sizes(
    alloc: Global,
    model: &Named,
    number: u32,
    command: &Command,
    sizes: &[Size],
    facts: &[usize],
) -> Result<Problem, LowerFault>
    requires typed { IsTyped (named_view model.now) }
    requires commands { Commands (named_view model.now) number (command_view command.now) sizes.now }
    ensures { MatchResult result (IsLowered (named_view model.now) number facts.now) (IsRefusal (named_view model.now) number facts.now) }
{
    problems_are_small();
    let problem = bounded(alloc, model, number, command, sizes, facts)?;
    match terms(alloc, &problem)? {
        Some(_) => Ok(problem),
        None => Err(LowerFault::TooManyTerms),
    }
}

// The problem, however many terms its formula has.
fn bounded(
    alloc: Global,
    model: &Named,
    number: u32,
    command: &Command,
    sizes: &[Size],
    facts: &[usize],
) -> Result<Problem, LowerFault>
    requires typed { IsTyped (named_view model.now) }
    requires commands { Commands (named_view model.now) number (command_view command.now) sizes.now }
    ensures { MatchResult result (λ p. IsProblem p × ProblemOf (named_view model.now) number facts.now p) (IsRefusal (named_view model.now) number facts.now) }
{
    sizes_are_few();
    typed_fields_have_lists();
    typed_problems_are_formed();
    let all = relations(alloc, model, sizes)?;
    let relations = differing(all)?;
    let tops = tops(alloc, model)?;
    let formula = formula_of(alloc, model, command, facts)?;
    Ok(Problem::of(alloc, relations, tops, formula)?)
}
