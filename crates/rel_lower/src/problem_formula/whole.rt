// The formula of a problem.
ghost use Rattle.std.specs.Prelude.{◌≡◌, IfOk, option_map};
ghost use Rattle.rel_formula.specs.View.{formula_tree};
ghost use Rattle.named_model.specs.View.{command_view, named_view, scope_view};
ghost use Rattle.model_sizes.specs.Sizes.{listings_of};
ghost use Rattle.lowering_rules.specs.Formula as formula;

use crate::field_formulas::fields::add_fields;
use crate::problem_formula::commands::command_formula;
use crate::problem_formula::facts::add_facts;
use crate::signature_formulas::signatures::add_signatures;
use body_lowering::Room;
use lowering_rules::LowerStop;
use named_model::Named;
use named_model::named::{Command, Listing};
use rel_formula::Formula;
use std::alloc::Global;

/// The formula of the problem of a model and a command with these facts, which are numbered from 1: what is said of each
/// signature and each field, what the facts say, and what the command says. It is too large where it would take more nodes
/// than `Room::new()` has, or more levels than a body may have; a relation's number above 255 is answered as want of memory.
pub fn formula_of(
    alloc: Global,
    model: &Named,
    command: &Command,
    facts: &[usize],
) -> Result<Formula, LowerStop>
    ensures { IfOk result (λ f. formula_tree f ≡ formula.formula_of (named_view model.now) (command_view command.now) facts.now) }
{
    let mut room = Room::new();
    let mut formulas = Vec::new(alloc);
    add_signatures(alloc, &mut formulas, &model.signatures, listings(command))?;
    add_fields(alloc, &mut formulas, model, &mut room)?;
    add_facts(alloc, &mut formulas, model, &mut room, facts)?;
    formulas.push(command_formula(alloc, model, &mut room, command)?)?;
    Ok(Formula::all_of(formulas))
}

// The sizes that a command's scope lists.
fn listings<'a>(command: &'a Command) -> &'a [Listing]
    ensures { result.now ≡ listings_of (option_map scope_view command.now.scope) }
{
    match &command.scope {
        None => &[],
        Some(scope) => &scope.listings,
    }
}
