// Quantifiers over several variables, each of which has a binder of its own.
ghost use Rattle.std.specs.Prelude.{◌≡◌, ◌≤◌, ◌<◌, ◌+◌, ◌-◌, ◌++◌, [], IfOk, map};
ghost use Rattle.alloy_syntax.specs.declared.tree.Quantifier.TheVariants.{One};
ghost use Rattle.rel_formula.specs.Kernel as kernel;
ghost use Rattle.rel_formula.specs.View.{expression_tree, formula_tree};
ghost use Rattle.lowering_rules.specs.Binders as binders;
ghost use Rattle.lowering_rules.specs.Binders.{under, variables, variable, bound_by, quantified_by};
ghost use Rattle.body_lowering.specs.Kernel.Binding.{unequal_to};

use crate::kernel_parts::connectives::{both, implication, negation};
use crate::kernel_parts::shifts::shifted;
use alloy_syntax::tree::Quantifier;
use rel_formula::{Comparison, Expression, Formula, Quantifier as Binder};
use std::alloc::{AllocError, Global};

/// A quantifier over variables with these domains, the outermost first, each under the binders of those before it; `apart`
/// says which variables differ.
pub fn quantified(
    alloc: Global,
    quantifier: Quantifier,
    domains: Vec<Expression>,
    apart: Vec<Formula>,
    body: Formula,
) -> Result<Formula, AllocError>
    ensures { IfOk result (λ f. formula_tree f ≡ quantified_by quantifier (map expression_tree domains.items) (map formula_tree apart.items) (formula_tree body)) }
{
    match quantifier {
        Quantifier::All => {
            let body = where_all(alloc, apart, body)?;
            Ok(bound_by(alloc, Binder::All, domains, body)?)
        }
        Quantifier::Some => {
            let body = where_some(alloc, apart, body)?;
            Ok(bound_by(alloc, Binder::Exists, domains, body)?)
        }
        Quantifier::No => {
            let body = where_some(alloc, apart, body)?;
            let some = bound_by(alloc, Binder::Exists, domains, body)?;
            Ok(negation(alloc, some)?)
        }
        Quantifier::Lone => {
            let body = where_some(alloc, apart, body)?;
            Ok(bound_by(alloc, Binder::Lone, domains, body)?)
        }
        Quantifier::One => {
            let body = where_some(alloc, apart, body)?;
            Ok(bound_to_one(alloc, domains, body)?)
        }
    }
}

// For just one choice of the variables.
fn bound_to_one(
    alloc: Global,
    domains: Vec<Expression>,
    body: Formula,
) -> Result<Formula, AllocError>
    ensures { IfOk result (λ f. formula_tree f ≡ quantified_by One (map expression_tree domains.items) [] (formula_tree body)) }
{
    let some = bound_to_some(alloc, &domains, &body)?;
    let lone = bound_by(alloc, Binder::Lone, domains, body)?;
    Ok(both(alloc, some, lone)?)
}

// For some choice of the variables, with a copy of all.
fn bound_to_some(
    alloc: Global,
    domains: &[Expression],
    body: &Formula,
) -> Result<Formula, AllocError>
    ensures { IfOk result (λ f. formula_tree f ≡ bound_by kernel.for_some (map expression_tree domains.now) (formula_tree body.now)) }
{
    let domains = copies(alloc, domains)?;
    let body = body.copy(alloc)?;
    Ok(bound_by(alloc, Binder::Exists, domains, body)?)
}

// Equal expressions.
fn copies(alloc: Global, expressions: &[Expression]) -> Result<Vec<Expression>, AllocError>
    ensures { IfOk result (λ es. map expression_tree es.items ≡ map expression_tree expressions.now) }
{
    let mut copies = Vec::new(alloc);
    for expression in expressions {
        copies.push(expression.copy(alloc)?)?;
    }
    Ok(copies)
}

/// The formula behind a binder for each of these domains, the outermost first.
pub(crate) fn bound_by(
    alloc: Global,
    binder: Binder,
    domains: Vec<Expression>,
    body: Formula,
) -> Result<Formula, AllocError>
    ensures { IfOk result (λ f. formula_tree f ≡ bound_by (kernel.quantified binder) (map expression_tree domains.items) (formula_tree body)) }
{
    let mut domains = domains;
    let mut formula = body;
    while let Some(domain) = domains.pop() {
        formula = with_binder(alloc, binder, domain, formula)?;
    }
    Ok(formula)
}

// The formula behind one binder.
fn with_binder(
    alloc: Global,
    binder: Binder,
    domain: Expression,
    body: Formula,
) -> Result<Formula, AllocError>
    ensures { IfOk result (λ f. formula_tree f ≡ kernel.quantified binder (expression_tree domain) (formula_tree body)) }
{
    Ok(Formula::Quantified(binder, domain, Box::new(alloc, body)?))
}

/// The body of `all`, where these are true of the variables.
pub(crate) fn where_all(
    alloc: Global,
    apart: Vec<Formula>,
    body: Formula,
) -> Result<Formula, AllocError>
    ensures { IfOk result (λ f. formula_tree f ≡ binders.where_all (map formula_tree apart.items) (formula_tree body)) }
{
    if apart.is_empty() {
        return Ok(body);
    }
    Ok(implication(alloc, Formula::all_of(apart), body)?)
}

/// The body of the other quantifiers, where these are true of the variables.
pub(crate) fn where_some(
    alloc: Global,
    apart: Vec<Formula>,
    body: Formula,
) -> Result<Formula, AllocError>
    ensures { IfOk result (λ f. formula_tree f ≡ binders.where_some (map formula_tree apart.items) (formula_tree body)) }
{
    if apart.is_empty() {
        return Ok(body);
    }
    let mut parts = apart;
    parts.push(body)?;
    Ok(Formula::all_of(parts))
}

/// Adds that each of `count` variables differs from those behind it, under `depth` binders, where the first of them has the
/// binder at the level `first`, counted inward from 0.
pub fn add_differences(
    alloc: Global,
    formulas: &mut Vec<Formula>,
    depth: u32,
    first: u32,
    count: u32,
) -> Result<(), AllocError>
    requires { first + count ≤ depth }
    ensures { IfOk result (λ _. map formula_tree formulas.new.items ≡ map formula_tree formulas.old.items ++ binders.differences (map (under depth) (variables first count))) }
{
    let end = first + count;
    for level in first..end {
        add_differences_from(alloc, formulas, depth, level, end)?;
    }
    Ok(())
}

// Adds that the variable of one level differs from those of the levels behind it, before `end`.
fn add_differences_from(
    alloc: Global,
    formulas: &mut Vec<Formula>,
    depth: u32,
    level: u32,
    end: u32,
) -> Result<(), AllocError>
    requires before { level < end }
    requires inside { end ≤ depth }
    ensures { IfOk result (λ _. map formula_tree formulas.new.items ≡ map formula_tree formulas.old.items ++ map (unequal_to depth level) (variables (level + 1) (end - level - 1))) }
{
    for other in level + 1..end {
        formulas.push(difference(alloc, depth, level, other)?)?;
    }
    Ok(())
}

// That the variables of two levels differ.
fn difference(alloc: Global, depth: u32, level: u32, other: u32) -> Result<Formula, AllocError>
    requires level { level < depth }
    requires other { other < depth }
    ensures { IfOk result (λ f. formula_tree f ≡ unequal_to depth level (variable other)) }
{
    let left = Expression::Var(depth - 1 - level);
    let right = Expression::Var(depth - 1 - other);
    let equal = Formula::Compared(Comparison::Equal, left, right);
    Ok(negation(alloc, equal)?)
}

/// Adds the domain of each of `count` variables, as it is under the binders of those before it.
pub fn add_domains(
    alloc: Global,
    domains: &mut Vec<Expression>,
    domain: &Expression,
    count: u32,
) -> Result<(), AllocError>
    ensures { IfOk result (λ _. map expression_tree domains.new.items ≡ map expression_tree domains.old.items ++ binders.domain_of_each 0 (expression_tree domain.now) count) }
{
    for before in 0..count {
        domains.push(shifted(alloc, domain, before)?)?;
    }
    Ok(())
}
