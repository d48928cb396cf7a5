// What a command says.
ghost use Rattle.std.specs.Prelude.{◌≡◌, IfOk, slice_get, slice_index_or};
ghost use Rattle.rel_formula.specs.View.{formula_tree};
ghost use Rattle.named_model.specs.Phrase.{no_phrases};
ghost use Rattle.named_model.specs.View.{command_view, target_view, named_view};
ghost use Rattle.lowering_rules.specs.Lowering.{base_of};
ghost use Rattle.lowering_rules.specs.Formula.{block_says, command_says, is_check, predicate_says, target_says};

use alloy_syntax::tree::CommandKind;
use body_lowering::kernel_parts::connectives::negation_if;
use body_lowering::{Room, bodies};
use lowering_rules::LowerStop;
use named_model::Named;
use named_model::named::{Command, Target};
use rel_formula::Formula;
use std::alloc::Global;

/// What a command says: that what it runs is true, or that what it checks is not.
pub fn command_formula(
    alloc: Global,
    model: &Named,
    room: &mut Room,
    command: &Command,
) -> Result<Formula, LowerStop>
    ensures { IfOk result (λ f. formula_tree f ≡ command_says (named_view model.now) (base_of (named_view model.now)) (command_view command.now)) }
{
    let target = target_formula(alloc, model, room, &command.target)?;
    Ok(negation_if(alloc, is_check(command.kind), target)?)
}

// Whether the command is a `check`.
fn is_check(kind: CommandKind) -> bool
    ensures { result ≡ is_check kind }
{
    matches!(kind, CommandKind::Check)
}

// That what a command runs or checks is true; a predicate or an assertion that isn't there says nothing.
fn target_formula(
    alloc: Global,
    model: &Named,
    room: &mut Room,
    target: &Target,
) -> Result<Formula, LowerStop>
    ensures { IfOk result (λ f. formula_tree f ≡ target_says (named_view model.now) (base_of (named_view model.now)) (target_view target.now)) }
{
    match target {
        Target::Block(formulas) => bodies::block(alloc, model, room, formulas),
        Target::Predicate(number) => predicate_formula(alloc, model, room, *number),
        Target::Assertion(number) => assertion_formula(alloc, model, room, *number),
    }
}

fn predicate_formula(
    alloc: Global,
    model: &Named,
    room: &mut Room,
    number: usize,
) -> Result<Formula, LowerStop>
    ensures { IfOk result (λ f. formula_tree f ≡ predicate_says (base_of (named_view model.now)) (slice_get (named_view model.now).callees number)) }
{
    match model.callees.get(number) {
        None => Ok(Formula::all_of(Vec::new(alloc))),
        Some(callee) => bodies::predicate(alloc, model, room, callee),
    }
}

fn assertion_formula(
    alloc: Global,
    model: &Named,
    room: &mut Room,
    number: usize,
) -> Result<Formula, LowerStop>
    ensures { IfOk result (λ f. formula_tree f ≡ block_says (base_of (named_view model.now)) (slice_index_or (named_view model.now).assertions number no_phrases)) }
{
    match model.assertions.get(number) {
        None => Ok(Formula::all_of(Vec::new(alloc))),
        Some(said) => bodies::block(alloc, model, room, &said.formulas),
    }
}
