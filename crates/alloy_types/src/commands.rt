// What commands run or check.
ghost use Rattle.std.specs.Prelude.{◌≡◌, [], map, slice_get};
ghost use Rattle.named_model.specs.Model.{NamedTree};
ghost use Rattle.named_model.specs.Phrase.{domains_of};
ghost use Rattle.named_model.specs.View.{domain_view, callee_view, target_view};
ghost use Rattle.model_types.specs.Models.{domains_known, domains_unary, run_checked, target_settled};
ghost use Rattle.alloy_types.specs.Calls.Groups.{group_view};
ghost use Rattle.overload_resolution.specs.Settling.Told.{Gives};
ghost use Rattle.overload_resolution.specs.Scopes.Declaring.{declared_by, AreTables};
ghost use Rattle.alloy_types.specs.Meanings.{group_unary, groups_unary};

use crate::known_callees::{Group, groups_in};
use model_types::TypeFault;
use model_types::part_sorts::places::first_place;
use named_model::named::{Callee, Target};
use named_model::phrase::Domain;
use overload_resolution::settled_parts::formulas;
use overload_resolution::shared_names::walk::is_in_domains;
use overload_resolution::typed_scopes::{Locals, Scope, Setting};
use std::alloc::Global;

// What a command runs or checks, with its shared names settled; the parameters of a predicate that is run have to be sets.
pub fn target_settled(
    alloc: Global,
    setting: &Setting,
    scope: &mut Scope,
    callees: &[Callee],
    target: &Target,
) -> Result<Target, TypeFault>
    requires { AreTables setting.now }
    ensures { (m : NamedTree) → m.callees ≡ map callee_view callees.now → Gives target_view result (target_settled m (declared_by setting.now) (target_view target.now)) }
{
    match target {
        Target::Block(phrases) => {
            scope.locals = Locals::new(alloc);
            Ok(Target::Block(formulas(alloc, setting, scope, phrases)?))
        }
        Target::Predicate(number) => {
            run_checked(alloc, setting, scope, callees, *number)?;
            Ok(Target::Predicate(*number))
        }
        Target::Assertion(number) => Ok(Target::Assertion(*number)),
    }
}

// The same of the predicate of a number; where there is none, nothing has to be a set.
fn run_checked(
    alloc: Global,
    setting: &Setting,
    scope: &mut Scope,
    callees: &[Callee],
    number: usize,
) -> Result<(), TypeFault>
    requires { AreTables setting.now }
    ensures { Gives (λ done. done) result (run_checked (declared_by setting.now) (slice_get (map callee_view callees.now) number)) }
{
    match callees.get(number) {
        Some(callee) => parameters_unary(alloc, setting, scope, &callee.parameters),
        None => Ok(()),
    }
}

// Whether the parameters of a predicate are sets, as far as their domains have an arity.
fn parameters_unary(
    alloc: Global,
    setting: &Setting,
    scope: &mut Scope,
    parameters: &[Domain],
) -> Result<(), TypeFault>
    requires { AreTables setting.now }
    ensures { Gives (λ done. done) result (domains_unary (domains_known (declared_by setting.now) [] (domains_of (map domain_view parameters.now)))) }
{
    let asked = is_in_domains(parameters);
    let groups = groups_in(alloc, setting, scope, asked, parameters)?;
    groups_unary(&groups, parameters)
}

// Whether the parameters of groups are sets, as far as these have an arity.
fn groups_unary(groups: &[Group], parameters: &[Domain]) -> Result<(), TypeFault>
    ensures { result ≡ groups_unary (map group_view groups.now) (map domain_view parameters.now) }
{
    for (number, group) in groups.iter().enumerate() {
        if number < parameters.len() {
            group_unary(group, &parameters[number])?;
        }
    }
    Ok(())
}

// Whether the parameters of one group are sets.
fn group_unary(group: &Group, parameter: &Domain) -> Result<(), TypeFault>
    ensures { result ≡ group_unary (group_view group.now) (domain_view parameter.now) }
{
    match &group.relation {
        Some((_, arity)) if *arity != 1 => Err(TypeFault::NotUnary {
            place: first_place(&parameter.domain),
        }),
        _ => Ok(()),
    }
}
