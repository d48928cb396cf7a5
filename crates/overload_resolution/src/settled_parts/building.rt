// What is built of settled parts, which come as they were answered: the first fault in order, or the part and what it is.
ghost use Rattle.std.specs.Prelude.{◌≡◌, ◌++◌, ◌∷◌, [], IfOk, OnOk};
ghost use Rattle.named_model.specs.View.{phrase_view, link_view, step_view};
ghost use Rattle.named_model.specs.Phrase.{no_steps, step_first};
ghost use Rattle.model_types.specs.Bounding.{operator_type};
ghost use Rattle.model_types.specs.Typing.{formula_from, type_in};
ghost use Rattle.model_types.specs.Parts.Kinds.{kind_view};
ghost use Rattle.overload_resolution.specs.Settling.Told.{Gives};
ghost use Rattle.overload_resolution.specs.Settling.Built.{seen, relation_built, domain_built, bracketed_built, block_built, prefixed_built, chain_built, path_built, compared_built, implies_built, else_built, quantified_built, let_built, connected_built, combined_built, join_built, join_step, brackets_built, brackets_step};
ghost use Rattle.overload_resolution.specs.Settling.Inside.{AreSameWhere};
ghost use Rattle.overload_resolution.specs.Settling.Single.{type_behind};
ghost use Rattle.overload_resolution.specs.Scopes.Declaring.{declared_by, AreTables};
ghost use Rattle.overload_resolution.specs.Scopes.Given.{settled_view};
ghost use Rattle.overload_resolution.specs.Parts.Given.{relation_view};
ghost use Rattle.overload_resolution.specs.Parts.Views.{phrases_seen, domains_seen, arguments_view, linked_view, links_seen, stepped_view, steps_seen, bracketed_view};

use crate::typed_scopes::types::{type_after, type_with};
use crate::typed_scopes::{Scope, Setting};
use alloy_lex::Place;
use alloy_syntax::tree::{Comparing, Prefix, Quantifier};
use model_types::TypeFault;
use model_types::bounding_types::BoundingType;
use model_types::part_sorts::Kind;
use model_types::part_sorts::arities::{brackets_arity, joined_arity, operator_arity};
use model_types::part_sorts::comparisons::{fits_left, may_stand_left};
use model_types::part_sorts::kinds::{as_formula, as_relation, prefix_kind};
use model_types::part_sorts::places::first_place;
use named_model::phrase::{Domain, Link, Phrase, Step};
use std::alloc::{AllocError, Global};

/// Arguments, with their arities and the places where they begin.
#[derive(Drop)]
pub struct Arguments {
    pub phrases: Vec<Phrase>,
    pub arities: Vec<(usize, Place)>,
}

/// Puts an argument behind others.
pub fn put_argument(
    all: &mut Arguments,
    argument: Phrase,
    arity: usize,
    place: Place,
) -> Result<(), AllocError>
    ensures phrases { OnOk result (all.new.phrases.items ≡ all.old.phrases.items ++ argument ∷ []) }
    ensures arities { OnOk result (all.new.arities.items ≡ all.old.arities.items ++ (arity, place) ∷ []) }
{
    all.phrases.push(argument)?;
    all.arities.push((arity, place))?;
    Ok(())
}

/// Puts a link behind others, and answers the type of the chain with it, where it is asked for.
pub fn put_link(
    alloc: Global,
    setting: &Setting,
    scope: &mut Scope,
    asked: bool,
    of: BoundingType,
    link: Link,
    all: &mut Vec<Link>,
) -> Result<BoundingType, AllocError>
    requires { AreTables setting.now }
    ensures typed { IfOk result (λ t. AreSameWhere asked t (operator_type link.operator of (type_in (declared_by setting.now) scope.old.locals (phrase_view link.operand)))) }
    ensures items { OnOk result (all.new.items ≡ all.old.items ++ link ∷ []) }
    ensures locals { scope.new.locals ≡ scope.old.locals }
{
    let operator = link.operator;
    let next = type_with(alloc, setting, scope, asked, operator, of, &link.operand)?;
    all.push(link)?;
    Ok(next)
}

/// The same of a step.
pub fn put_step(
    alloc: Global,
    setting: &Setting,
    scope: &mut Scope,
    asked: bool,
    of: BoundingType,
    step: Step,
    all: &mut Vec<Step>,
) -> Result<BoundingType, AllocError>
    requires { AreTables setting.now }
    ensures typed { IfOk result (λ t. AreSameWhere asked t (type_behind (declared_by setting.now) scope.old.locals of (step_first (step_view step) no_steps))) }
    ensures items { OnOk result (all.new.items ≡ all.old.items ++ step ∷ []) }
    ensures locals { scope.new.locals ≡ scope.old.locals }
{
    let next = type_after(alloc, setting, scope, asked, of, &step)?;
    all.push(step)?;
    Ok(next)
}

/// A part that has to be a formula.
pub fn formula_of(
    phrase: &Phrase,
    settled: Result<(Phrase, Kind), TypeFault>,
) -> Result<Phrase, TypeFault>
    ensures { Gives phrase_view result (formula_from (phrase_view phrase.now) (seen settled_view settled)) }
{
    let (formula, kind) = settled?;
    as_formula(first_place(phrase), kind)?;
    Ok(formula)
}

/// A part that has to be a relation, and its arity.
pub fn relation_of(
    phrase: &Phrase,
    settled: Result<(Phrase, Kind), TypeFault>,
) -> Result<(Phrase, usize), TypeFault>
    ensures { Gives relation_view result (relation_built (phrase_view phrase.now) (seen settled_view settled)) }
{
    let (relation, kind) = settled?;
    let arity = as_relation(first_place(phrase), kind)?;
    Ok((relation, arity))
}

/// A domain, which has to be unary where it is a quantifier's, and its arity.
pub fn domain_of(
    single: bool,
    phrase: &Phrase,
    relation: Result<(Phrase, usize), TypeFault>,
) -> Result<(Phrase, usize), TypeFault>
    ensures { Gives relation_view result (domain_built single (phrase_view phrase.now) (seen relation_view relation)) }
{
    let (domain, arity) = relation?;
    if single && arity != 1 {
        return Err(TypeFault::NotUnary {
            place: first_place(phrase),
        });
    }
    Ok((domain, arity))
}

/// A part in round brackets.
pub fn bracketed_of(
    alloc: Global,
    place: Place,
    settled: Result<(Phrase, Kind), TypeFault>,
) -> Result<(Phrase, Kind), TypeFault>
    ensures { Gives settled_view result (bracketed_built place (seen settled_view settled)) }
{
    let (inner, kind) = settled?;
    Ok((Phrase::Bracketed(place, Box::new(alloc, inner)?), kind))
}

/// Formulas as one.
pub fn block_of(
    place: Place,
    formulas: Result<Vec<Phrase>, TypeFault>,
) -> Result<(Phrase, Kind), TypeFault>
    ensures { Gives settled_view result (block_built place (seen phrases_seen formulas)) }
{
    let formulas = formulas?;
    Ok((Phrase::Block(place, formulas), Kind::Formula))
}

/// A part behind an operator.
pub fn prefixed_of(
    alloc: Global,
    prefix: Prefix,
    place: Place,
    phrase: &Phrase,
    settled: Result<(Phrase, Kind), TypeFault>,
) -> Result<(Phrase, Kind), TypeFault>
    ensures { Gives settled_view result (prefixed_built prefix place (phrase_view phrase.now) (seen settled_view settled)) }
{
    let (inner, kind) = settled?;
    let kind = prefix_kind(prefix, place, first_place(phrase), kind)?;
    Ok((
        Phrase::Prefixed(prefix, place, Box::new(alloc, inner)?),
        kind,
    ))
}

/// A chain of operands.
pub fn chain_of(
    alloc: Global,
    first: Phrase,
    others: Result<(Vec<Link>, Kind), TypeFault>,
) -> Result<(Phrase, Kind), TypeFault>
    ensures { Gives settled_view result (chain_built (phrase_view first) (seen links_seen others)) }
{
    let (others, kind) = others?;
    Ok((Phrase::Chain(Box::new(alloc, first)?, others), kind))
}

/// A path of steps.
pub fn path_of(
    alloc: Global,
    head: Phrase,
    steps: Result<(Vec<Step>, Kind), TypeFault>,
) -> Result<(Phrase, Kind), TypeFault>
    ensures { Gives settled_view result (path_built (phrase_view head) (seen steps_seen steps)) }
{
    let (steps, kind) = steps?;
    Ok((Phrase::Path(Box::new(alloc, head)?, steps), kind))
}

/// A comparison, the left side of which begins at the place.
pub fn compared_of(
    alloc: Global,
    left: Place,
    first: (Phrase, Kind),
    comparing: Comparing,
    right: &Phrase,
    second: Result<(Phrase, Kind), TypeFault>,
) -> Result<(Phrase, Kind), TypeFault>
    ensures { Gives settled_view result (compared_built left (settled_view first) comparing (phrase_view right.now) (seen settled_view second)) }
{
    let (first, kind) = first;
    may_stand_left(comparing.comparison, left, kind)?;
    let (second, other) = second?;
    fits_left(comparing.place, first_place(right), kind, other)?;
    let first = Box::new(alloc, first)?;
    let second = Box::new(alloc, second)?;
    Ok((Phrase::Compared(first, comparing, second), Kind::Formula))
}

/// What follows from a premise.
pub fn implies_of(
    alloc: Global,
    premise: Phrase,
    place: Place,
    right: Result<Phrase, TypeFault>,
) -> Result<(Phrase, Kind), TypeFault>
    ensures { Gives settled_view result (implies_built (phrase_view premise) place (seen phrase_view right)) }
{
    let right = right?;
    let premise = Box::new(alloc, premise)?;
    let right = Box::new(alloc, right)?;
    Ok((Phrase::Implies(premise, place, right), Kind::Formula))
}

/// The same with a part behind `else`.
pub fn else_of(
    alloc: Global,
    premise: Phrase,
    place: Place,
    second: Result<Phrase, TypeFault>,
    other: Result<Phrase, TypeFault>,
) -> Result<(Phrase, Kind), TypeFault>
    ensures { Gives settled_view result (else_built (phrase_view premise) place (seen phrase_view second) (seen phrase_view other)) }
{
    let second = second?;
    let other = other?;
    let premise = Box::new(alloc, premise)?;
    let second = Box::new(alloc, second)?;
    let other = Box::new(alloc, other)?;
    Ok((
        Phrase::ImpliesElse(premise, place, second, other),
        Kind::Formula,
    ))
}

/// A quantifier over variables.
pub fn quantified_of(
    alloc: Global,
    quantifier: Quantifier,
    place: Place,
    variables: Vec<Domain>,
    inner: Result<Phrase, TypeFault>,
) -> Result<(Phrase, Kind), TypeFault>
    ensures { Gives settled_view result (quantified_built quantifier place (domains_seen variables) (seen phrase_view inner)) }
{
    let inner = Box::new(alloc, inner?)?;
    Ok((
        Phrase::Quantified(quantifier, place, variables, inner),
        Kind::Formula,
    ))
}

/// A part inside the names of a `let`.
pub fn let_of(
    alloc: Global,
    place: Place,
    values: Vec<Phrase>,
    inner: Result<Phrase, TypeFault>,
) -> Result<(Phrase, Kind), TypeFault>
    ensures { Gives settled_view result (let_built place (phrases_seen values) (seen phrase_view inner)) }
{
    let inner = Box::new(alloc, inner?)?;
    Ok((Phrase::Let(place, values, inner), Kind::Formula))
}

/// A connective with the formula behind it, where what stands before it is of this kind; and what the chain so far is.
pub fn connected(
    left: Place,
    kind: Kind,
    link: &Link,
    operand: Result<Phrase, TypeFault>,
) -> Result<(Link, Kind), TypeFault>
    ensures { Gives linked_view result (connected_built left (kind_view kind) (link_view link.now) (seen phrase_view operand)) }
{
    as_formula(left, kind)?;
    let another = Link {
        operator: link.operator,
        place: link.place,
        operand: operand?,
    };
    Ok((another, Kind::Formula))
}

/// The same of an operator between relations.
pub fn combined(
    left: Place,
    kind: Kind,
    link: &Link,
    operand: Result<(Phrase, Kind), TypeFault>,
) -> Result<(Link, Kind), TypeFault>
    ensures { Gives linked_view result (combined_built left (kind_view kind) (link_view link.now) (seen settled_view operand)) }
{
    let first = as_relation(left, kind)?;
    let (operand, kind) = operand?;
    let begins = first_place(&link.operand);
    let second = as_relation(begins, kind)?;
    let arity = operator_arity(link.operator, link.place, left, begins, first, second)?;
    let another = Link {
        operator: link.operator,
        place: link.place,
        operand,
    };
    Ok((another, Kind::Relation(arity)))
}

/// A part behind a join, where what stands before it is of this kind; and what the path so far is.
pub fn joined(
    left: Place,
    kind: Kind,
    place: Place,
    phrase: &Phrase,
    operand: Result<(Phrase, Kind), TypeFault>,
) -> Result<(Phrase, Kind), TypeFault>
    ensures { Gives settled_view result (join_built left (kind_view kind) place (phrase_view phrase.now) (seen settled_view operand)) }
{
    let first = as_relation(left, kind)?;
    let (operand, kind) = operand?;
    let second = as_relation(first_place(phrase), kind)?;
    let arity = joined_arity(place, first, second)?;
    Ok((operand, Kind::Relation(arity)))
}

/// The same of arguments in brackets.
pub fn bracketed(
    left: Place,
    kind: Kind,
    place: Place,
    arguments: Result<Arguments, TypeFault>,
) -> Result<(Vec<Phrase>, Kind), TypeFault>
    ensures { Gives bracketed_view result (brackets_built left (kind_view kind) place (seen arguments_view arguments)) }
{
    let first = as_relation(left, kind)?;
    let others = arguments?;
    let arity = brackets_arity(place, first, &others.arities)?;
    Ok((others.phrases, Kind::Relation(arity)))
}

/// A join as a step.
pub fn join_step(
    place: Place,
    joined: Result<(Phrase, Kind), TypeFault>,
) -> Result<(Step, Kind), TypeFault>
    ensures { Gives stepped_view result (join_step place (seen settled_view joined)) }
{
    let (operand, kind) = joined?;
    Ok((Step::Join(place, operand), kind))
}

/// Brackets as a step.
pub fn brackets_step(
    place: Place,
    bracketed: Result<(Vec<Phrase>, Kind), TypeFault>,
) -> Result<(Step, Kind), TypeFault>
    ensures { Gives stepped_view result (brackets_step place (seen bracketed_view bracketed)) }
{
    let (others, kind) = bracketed?;
    Ok((Step::Brackets(place, others), kind))
}
