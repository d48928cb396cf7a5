// Types, where they are asked for.
ghost use Rattle.std.specs.Prelude.{◌≡◌, ◌≤◌, ◌++◌, List, length, IfOk, OnOk};
ghost use Rattle.named_model.specs.Phrase.{no_steps, step_first};
ghost use Rattle.named_model.specs.View.{phrase_view, phrases_view, step_view};
ghost use Rattle.model_types.specs.Bounding as bounding;
ghost use Rattle.model_types.specs.Bounding.{operator_type};
ghost use Rattle.model_types.specs.Typing as typing;
ghost use Rattle.model_types.specs.Typing.{types_in, type_in, local_types, onto};
ghost use Rattle.model_types.specs.Bounds.Same.{AreSame};
ghost use Rattle.overload_resolution.specs.Scopes.Declaring.{declared_by, AreTables};
ghost use Rattle.overload_resolution.specs.Scopes.Zipped.{IsInside};
ghost use Rattle.overload_resolution.specs.Settling.Inside.{AreSameWhere, AreAlikeWhere};
ghost use Rattle.overload_resolution.specs.Settling.Single.{type_behind};

use crate::expression_types::{brackets_type, type_of, types_of};
use crate::typed_scopes::scope::Scope;
use crate::typed_scopes::setting::Setting;
use alloy_syntax::tree::Operator;
use model_types::bounding_types::BoundingType;
use model_types::bounding_types::operators::{join_type, operator_type};
use named_model::phrase::{Phrase, Step};
use std::alloc::{AllocError, Global};

/// The type of a part, where it is asked for.
pub fn type_where(
    alloc: Global,
    setting: &Setting,
    scope: &mut Scope,
    asked: bool,
    phrase: &Phrase,
) -> Result<BoundingType, AllocError>
    requires { AreTables setting.now }
    ensures value { IfOk result (λ t. AreSameWhere asked t (type_in (declared_by setting.now) scope.old.locals (phrase_view phrase.now))) }
    ensures locals { scope.new.locals ≡ scope.old.locals }
{
    if !asked {
        return Ok(BoundingType::new(alloc));
    }
    type_inside(alloc, setting, scope, phrase)
}

/// The type of a part.
pub fn type_inside(
    alloc: Global,
    setting: &Setting,
    scope: &mut Scope,
    phrase: &Phrase,
) -> Result<BoundingType, AllocError>
    requires { AreTables setting.now }
    ensures value { IfOk result (λ t. AreSame t (type_in (declared_by setting.now) scope.old.locals (phrase_view phrase.now))) }
    ensures locals { scope.new.locals ≡ scope.old.locals }
{
    let locals = scope.locals.types();
    type_of(
        alloc,
        &mut scope.work,
        &setting.types,
        setting.calls,
        locals,
        phrase,
    )
}

/// The type of a chain with an operand more, where it is asked for.
pub fn type_with(
    alloc: Global,
    setting: &Setting,
    scope: &mut Scope,
    asked: bool,
    operator: Operator,
    a: BoundingType,
    operand: &Phrase,
) -> Result<BoundingType, AllocError>
    requires { AreTables setting.now }
    ensures value { IfOk result (λ t. AreSameWhere asked t (operator_type operator a (type_in (declared_by setting.now) scope.old.locals (phrase_view operand.now)))) }
    ensures locals { scope.new.locals ≡ scope.old.locals }
{
    if !asked {
        return Ok(a);
    }
    let b = type_inside(alloc, setting, scope, operand)?;
    operator_type(alloc, &mut scope.work, operator, a, &b)
}

/// The type of a path with a step more, where it is asked for.
pub fn type_after(
    alloc: Global,
    setting: &Setting,
    scope: &mut Scope,
    asked: bool,
    a: BoundingType,
    step: &Step,
) -> Result<BoundingType, AllocError>
    requires { AreTables setting.now }
    ensures value { IfOk result (λ t. AreSameWhere asked t (type_behind (declared_by setting.now) scope.old.locals a (step_first (step_view step.now) no_steps))) }
    ensures locals { scope.new.locals ≡ scope.old.locals }
{
    if !asked {
        return Ok(a);
    }
    match step {
        Step::Join(_, operand) => {
            let b = type_inside(alloc, setting, scope, operand)?;
            join_type(alloc, &mut scope.work, &a, &b)
        }
        Step::Brackets(_, arguments) => in_brackets(alloc, setting, scope, a, arguments),
    }
}

// The type of joins with what stands in brackets.
fn in_brackets(
    alloc: Global,
    setting: &Setting,
    scope: &mut Scope,
    a: BoundingType,
    arguments: &[Phrase],
) -> Result<BoundingType, AllocError>
    requires { AreTables setting.now }
    ensures value { IfOk result (λ t. AreSame t (bounding.brackets_type a (bounding.types_of (types_in (declared_by setting.now)) (local_types scope.old.locals) (phrases_view arguments.now)))) }
    ensures locals { scope.new.locals ≡ scope.old.locals }
{
    let locals = scope.locals.types();
    let others = types_of(
        alloc,
        &mut scope.work,
        &setting.types,
        setting.calls,
        locals,
        arguments,
    )?;
    brackets_type(alloc, &mut scope.work, a, &others)
}

/// Enters so many local names of an arity, the type of which is that of a part, where it is asked for.
pub fn enter_all(
    alloc: Global,
    setting: &Setting,
    scope: &mut Scope,
    asked: bool,
    count: usize,
    arity: usize,
    phrase: &Phrase,
) -> Result<(), AllocError>
    requires { AreTables setting.now }
    ensures alike { OnOk result (AreAlikeWhere asked scope.new.locals (onto count (record { arity = arity; type = type_in (declared_by setting.now) scope.old.locals (phrase_view phrase.now) }) scope.old.locals)) }
    ensures inside { IsInside scope.new.locals scope.old.locals }
{
    let of = type_where(alloc, setting, scope, asked, phrase)?;
    for _ in 0..count {
        let copy = copied(alloc, scope, &of)?;
        scope.locals.enter(arity, copy)?;
    }
    Ok(())
}

// The same lists.
fn copied(alloc: Global, scope: &mut Scope, a: &BoundingType) -> Result<BoundingType, AllocError>
    ensures value { IfOk result (λ t. AreSame t a.now) }
    ensures locals { scope.new.locals ≡ scope.old.locals }
{
    operator_type(
        alloc,
        &mut scope.work,
        Operator::Union,
        BoundingType::new(alloc),
        a,
    )
}

/// Leaves the innermost local names, until so many are left. With no more than that nothing happens.
pub fn leave_until(scope: &mut Scope, depth: usize)
    ensures left { (inner outer : List typing.Local) → scope.old.locals ≡ inner ++ outer → length outer ≡ depth → scope.new.locals ≡ outer }
    ensures short { length scope.old.locals ≤ depth → scope.new.locals ≡ scope.old.locals }
{
    'each: while scope.locals.depth() > depth {
        scope.locals.leave();
    }
}
