// What checking gives of each thing that a model declares.
ghost use Rattle.std.specs.Prelude.{◌≡◌, ◌≢◌, ◌++◌, [], ◌∷◌, map, Err, IfOk, OnOk};
ghost use Rattle.named_model.specs.Model.{NamedTree, CommandTree};
ghost use Rattle.named_model.specs.View.{field_view, callee_view, formulas_view, target_view, command_view, named_view};
ghost use Rattle.model_types.specs.declared.fault.TypeFault.TheVariants.{Memory};
ghost use Rattle.model_types.specs.Typing.{formulas_settled};
ghost use Rattle.model_types.specs.Models.{field_checked, callee_settled, target_settled, declared_in};
ghost use Rattle.overload_resolution.specs.Settling.Told.{Gives};
ghost use Rattle.overload_resolution.specs.Scopes.Declaring.{declared_by, AreTables};
ghost use Rattle.alloy_types.specs.Outcomes.{AreOutcomes, outcome_view};

use crate::callees::callee_settled;
use crate::commands::target_settled;
use crate::fields::field_checked;
use crate::known_callees::declared;
use model_types::TypeFault;
use named_model::named::{Callee, Command, Field, Formulas, Named, Target};
use overload_resolution::settled_parts::formulas;
use overload_resolution::typed_scopes::{Locals, Scope, Setting};
use std::alloc::{AllocError, Global};

// Of each thing that a model declares, by its number, what it is with its shared names settled, or its fault.
#[derive(Drop)]
pub struct Outcomes {
    pub fields: Vec<Result<(), TypeFault>>,
    pub callees: Vec<Result<Callee, TypeFault>>,
    pub facts: Vec<Result<Formulas, TypeFault>>,
    pub assertions: Vec<Result<Formulas, TypeFault>>,
    pub targets: Vec<Result<Target, TypeFault>>,
}

// The outcomes of a model.
pub fn outcomes_of(alloc: Global, model: &Named) -> Result<Outcomes, AllocError>
    ensures { IfOk result (AreOutcomes (named_view model.now) (declared_in (named_view model.now))) }
{
    let mut scope = Scope::new(alloc);
    let setting = declared(alloc, &mut scope, model)?;
    outcomes_over(alloc, &setting, &mut scope, model)
}

// The outcomes of a model over what is declared.
fn outcomes_over(
    alloc: Global,
    setting: &Setting,
    scope: &mut Scope,
    model: &Named,
) -> Result<Outcomes, AllocError>
    requires { AreTables setting.now }
    ensures { IfOk result (AreOutcomes (named_view model.now) (declared_by setting.now)) }
{
    let fields = of_fields(alloc, setting, scope, &model.fields)?;
    let callees = of_callees(alloc, setting, scope, &model.callees)?;
    let facts = of_formulas(alloc, setting, scope, &model.facts)?;
    let assertions = of_formulas(alloc, setting, scope, &model.assertions)?;
    let targets = of_commands(alloc, setting, scope, &model.callees, &model.commands)?;
    Ok(Outcomes {
        fields,
        callees,
        facts,
        assertions,
        targets,
    })
}

// The outcome of each field.
fn of_fields(
    alloc: Global,
    setting: &Setting,
    scope: &mut Scope,
    fields: &[Field],
) -> Result<Vec<Result<(), TypeFault>>, AllocError>
    requires { AreTables setting.now }
    ensures { IfOk result (λ found. found.items ≡ map (field_checked (declared_by setting.now)) (map field_view fields.now)) }
{
    let mut found = Vec::new(alloc);
    for field in fields {
        let outcome = field_checked(alloc, setting, scope, field);
        push_outcome(&mut found, outcome)?;
    }
    Ok(found)
}

fn of_callees(
    alloc: Global,
    setting: &Setting,
    scope: &mut Scope,
    callees: &[Callee],
) -> Result<Vec<Result<Callee, TypeFault>>, AllocError>
    requires { AreTables setting.now }
    ensures { IfOk result (λ found. map (outcome_view callee_view) found.items ≡ map (callee_settled (declared_by setting.now)) (map callee_view callees.now)) }
{
    let mut found = Vec::new(alloc);
    for callee in callees {
        let outcome = callee_settled(alloc, setting, scope, callee);
        push_outcome(&mut found, outcome)?;
    }
    Ok(found)
}

fn of_formulas(
    alloc: Global,
    setting: &Setting,
    scope: &mut Scope,
    blocks: &[Formulas],
) -> Result<Vec<Result<Formulas, TypeFault>>, AllocError>
    requires { AreTables setting.now }
    ensures { IfOk result (λ found. map (outcome_view formulas_view) found.items ≡ map (formulas_settled (declared_by setting.now) []) (map formulas_view blocks.now)) }
{
    let mut found = Vec::new(alloc);
    for block in blocks {
        let outcome = block_settled(alloc, setting, scope, block);
        push_outcome(&mut found, outcome)?;
    }
    Ok(found)
}

fn of_commands(
    alloc: Global,
    setting: &Setting,
    scope: &mut Scope,
    callees: &[Callee],
    commands: &[Command],
) -> Result<Vec<Result<Target, TypeFault>>, AllocError>
    requires { AreTables setting.now }
    ensures { IfOk result (λ found. (m : NamedTree) → m.callees ≡ map callee_view callees.now → map (outcome_view target_view) found.items ≡ map (λ (c : CommandTree). target_settled m (declared_by setting.now) c.target) (map command_view commands.now)) }
{
    let mut found = Vec::new(alloc);
    for command in commands {
        let outcome = target_settled(alloc, setting, scope, callees, &command.target);
        push_outcome(&mut found, outcome)?;
    }
    Ok(found)
}

// The formulas of a fact or an assertion with their shared names settled.
fn block_settled(
    alloc: Global,
    setting: &Setting,
    scope: &mut Scope,
    block: &Formulas,
) -> Result<Formulas, TypeFault>
    requires { AreTables setting.now }
    ensures { Gives formulas_view result (formulas_settled (declared_by setting.now) [] (formulas_view block.now)) }
{
    scope.locals = Locals::new(alloc);
    Ok(Formulas {
        formulas: formulas(alloc, setting, scope, &block.formulas)?,
    })
}

// An outcome more, which is no want of memory.
fn push_outcome<T: Drop>(
    found: &mut Vec<Result<T, TypeFault>>,
    outcome: Result<T, TypeFault>,
) -> Result<(), AllocError>
    ensures pushed { OnOk result (found.new.items ≡ found.old.items ++ outcome ∷ []) }
    ensures outcome { OnOk result (outcome ≢ Err Memory) }
{
    if matches!(outcome, Err(TypeFault::Memory)) {
        return Err(AllocError);
    }
    Ok(found.push(outcome)?)
}
