// That the definitions of the kernel are those of the field: values and truths over small sets, worked out by hand.
ghost use Rattle.std.specs.Prelude.{◌≡◌, ◌<◌, ◌∷◌, [], All, IfOk};
ghost use Rattle.rel_formula.specs.Kernel.{rel, var, minus, within};
ghost use Rattle.rel_formula.specs.Shape.{IsWellFormed, IsProper, arity_of};
ghost use Rattle.rel_formula.specs.View.{expression_tree, formula_tree};

use crate::tables::{COMPARED, gives_atoms, gives_pairs, holds_beside_atoms, truth_of};
use rel_formula::{Comparison, Expression, Formula, Quantifier};
use sample_problems::{no_formulas, truism, two};
use std::alloc::{AllocError, Global};
use std::test::Fail;
use tuple_core::{Operator, UnaryOperator};

#[test]
fn constants(rt: HostRuntime) -> Result<(), Fail> {
    assert!(rt; gives_atoms(rt.alloc(), Expression::None, &[])?);
    assert!(rt; gives_atoms(rt.alloc(), Expression::Univ, &[0, 1, 2])?);
    assert!(rt; gives_pairs(rt.alloc(), Expression::Iden, &[[0, 0], [1, 1], [2, 2]])?);
    Ok(())
}

#[test]
fn a_relation(rt: HostRuntime) -> Result<(), Fail> {
    assert!(rt; gives_atoms(rt.alloc(), Expression::Rel(1), &[1, 2])?);
    Ok(())
}

// The set of the first atom alone, or of the third: A without B, or B without A.
fn set_of_one(alloc: Global, of: u8, without: u8) -> Result<Expression, AllocError>
    ensures { IfOk result (λ e. expression_tree e ≡ minus (rel of) (rel without)) }
{
    let (a, b) = two(alloc, Expression::Rel(of), Expression::Rel(without))?;
    Ok(Expression::Binary(Operator::Minus, a, b))
}

// The variable's value is the set to compare with, where the inner one is the first atom.
fn is_compared(alloc: Global, variable: u32) -> Result<Formula, AllocError>
    requires { variable < 2 }
    ensures { IfOk result (λ f. IsProper (1 ∷ 1 ∷ 2 ∷ 2 ∷ 1 ∷ []) 1 (formula_tree f)) }
{
    let equal = Formula::Compared(
        Comparison::Equal,
        Expression::Var(variable),
        Expression::Rel(COMPARED),
    );
    let first = set_of_one(alloc, 0, 1)?;
    Ok(Formula::Quantified(Quantifier::Exists, first, Box::new(alloc, equal)?))
}

// Whether the value of the variable is the set of the atoms at these places, where the inner one is the first atom and the outer
// one the third.
fn variable_gives(alloc: Global, variable: u32, places: &[u16]) -> Result<bool, Fail>
    requires { variable < 2 }
{
    let inner = is_compared(alloc, variable)?;
    let third = set_of_one(alloc, 1, 0)?;
    holds_beside_atoms(
        alloc,
        places,
        Formula::Quantified(Quantifier::Exists, third, Box::new(alloc, inner)?),
    )
}

#[test]
fn variables(rt: HostRuntime) -> Result<(), Fail> {
    assert!(rt; variable_gives(rt.alloc(), 0, &[0])?);
    assert!(rt; variable_gives(rt.alloc(), 1, &[2])?);
    Ok(())
}

// Two relations as operands.
fn operands(alloc: Global, a: u8, b: u8) -> Result<(Box<Expression>, Box<Expression>), AllocError>
    ensures { IfOk result (λ p. (expression_tree p.0.value ≡ rel a) × (expression_tree p.1.value ≡ rel b)) }
{
    two(alloc, Expression::Rel(a), Expression::Rel(b))
}

#[test]
fn a_union(rt: HostRuntime) -> Result<(), Fail> {
    let (a, b) = operands(rt.alloc(), 0, 1)?;
    assert!(rt;
        gives_atoms(
            rt.alloc(),
            Expression::Binary(Operator::Union, a, b),
            &[0, 1, 2]
        )?
    );
    Ok(())
}

#[test]
fn a_difference(rt: HostRuntime) -> Result<(), Fail> {
    let (a, b) = operands(rt.alloc(), 0, 1)?;
    assert!(rt; gives_atoms(rt.alloc(), Expression::Binary(Operator::Minus, a, b), &[0])?);
    Ok(())
}

#[test]
fn an_intersection(rt: HostRuntime) -> Result<(), Fail> {
    let (a, b) = operands(rt.alloc(), 0, 1)?;
    assert!(rt; gives_atoms(rt.alloc(), Expression::Binary(Operator::Meet, a, b), &[1])?);
    Ok(())
}

#[test]
fn a_product(rt: HostRuntime) -> Result<(), Fail> {
    let (a, b) = operands(rt.alloc(), 0, 1)?;
    let pairs = [[0, 1], [0, 2], [1, 1], [1, 2]];
    assert!(rt;
        gives_pairs(
            rt.alloc(),
            Expression::Binary(Operator::Product, a, b),
            pairs.as_slice()
        )?
    );
    Ok(())
}

#[test]
fn a_join(rt: HostRuntime) -> Result<(), Fail> {
    let (a, b) = operands(rt.alloc(), 2, 3)?;
    assert!(rt;
        gives_pairs(
            rt.alloc(),
            Expression::Binary(Operator::Join, a, b),
            &[[0, 0], [0, 1]]
        )?
    );
    Ok(())
}

#[test]
fn an_override(rt: HostRuntime) -> Result<(), Fail> {
    let (a, b) = operands(rt.alloc(), 2, 3)?;
    let pairs = [[0, 1], [1, 0], [1, 1]];
    assert!(rt;
        gives_pairs(
            rt.alloc(),
            Expression::Binary(Operator::Override, a, b),
            pairs.as_slice()
        )?
    );
    Ok(())
}

#[test]
fn a_restricted_domain(rt: HostRuntime) -> Result<(), Fail> {
    let (a, b) = operands(rt.alloc(), 1, 2)?;
    assert!(rt;
        gives_pairs(
            rt.alloc(),
            Expression::Binary(Operator::Dom, a, b),
            &[[1, 2]]
        )?
    );
    Ok(())
}

#[test]
fn a_restricted_range(rt: HostRuntime) -> Result<(), Fail> {
    let (a, b) = operands(rt.alloc(), 2, 0)?;
    assert!(rt;
        gives_pairs(
            rt.alloc(),
            Expression::Binary(Operator::Ran, a, b),
            &[[0, 1]]
        )?
    );
    Ok(())
}

#[test]
fn turned_pairs(rt: HostRuntime) -> Result<(), Fail> {
    let pairs = Box::new(rt.alloc(), Expression::Rel(3))?;
    assert!(rt;
        gives_pairs(
            rt.alloc(),
            Expression::Unary(UnaryOperator::Transpose, pairs),
            &[[0, 1], [1, 1]]
        )?
    );
    Ok(())
}

#[test]
fn chained_pairs(rt: HostRuntime) -> Result<(), Fail> {
    let pairs = Box::new(rt.alloc(), Expression::Rel(2))?;
    let chains = [[0, 1], [0, 2], [1, 2]];
    assert!(rt;
        gives_pairs(
            rt.alloc(),
            Expression::Unary(UnaryOperator::Closure, pairs),
            chains.as_slice()
        )?
    );
    Ok(())
}

#[test]
fn inclusions(rt: HostRuntime) -> Result<(), Fail> {
    assert!(rt;
        truth_of(
            rt.alloc(),
            Formula::Compared(Comparison::In, Expression::Rel(0), Expression::Univ)
        )?
    );
    assert!(rt;
        !truth_of(
            rt.alloc(),
            Formula::Compared(Comparison::In, Expression::Rel(0), Expression::Rel(1))
        )?
    );
    Ok(())
}

#[test]
fn equalities(rt: HostRuntime) -> Result<(), Fail> {
    assert!(rt;
        truth_of(
            rt.alloc(),
            Formula::Compared(Comparison::Equal, Expression::Rel(2), Expression::Rel(2))
        )?
    );
    assert!(rt;
        !truth_of(
            rt.alloc(),
            Formula::Compared(Comparison::Equal, Expression::Rel(0), Expression::Univ)
        )?
    );
    Ok(())
}

#[test]
fn least_numbers_of_tuples(rt: HostRuntime) -> Result<(), Fail> {
    assert!(rt; truth_of(rt.alloc(), Formula::AtLeast(2, Expression::Rel(0)))?);
    assert!(rt; !truth_of(rt.alloc(), Formula::AtLeast(3, Expression::Rel(0)))?);
    assert!(rt; truth_of(rt.alloc(), Formula::AtLeast(0, Expression::None))?);
    Ok(())
}

#[test]
fn a_negation(rt: HostRuntime) -> Result<(), Fail> {
    let within = Formula::Compared(Comparison::In, Expression::Rel(0), Expression::Rel(1));
    let within = Box::new(rt.alloc(), within)?;
    assert!(rt; truth_of(rt.alloc(), Formula::Not(within))?);
    Ok(())
}

// The inner variable is in the second set.
fn inner_within(alloc: Global) -> Result<Box<Formula>, AllocError>
    ensures { IfOk result (λ f. formula_tree f.value ≡ within (var 0) (rel 1)) }
{
    Ok(Box::new(
        alloc,
        Formula::Compared(Comparison::In, Expression::Var(0), Expression::Rel(1)),
    )?)
}

// Whether that is so of all atoms of a set, of some, or of at most one.
fn holds_of_all(alloc: Global, set: Expression) -> Result<bool, Fail>
    requires well { IsWellFormed (1 ∷ 1 ∷ 2 ∷ 2 ∷ 1 ∷ []) 0 (expression_tree set) }
    requires arity { arity_of (1 ∷ 1 ∷ 2 ∷ 2 ∷ 1 ∷ []) (expression_tree set) ≡ 1 }
{
    let inner = inner_within(alloc)?;
    truth_of(alloc, Formula::Quantified(Quantifier::All, set, inner))
}

fn holds_of_some(alloc: Global, set: Expression) -> Result<bool, Fail>
    requires well { IsWellFormed (1 ∷ 1 ∷ 2 ∷ 2 ∷ 1 ∷ []) 0 (expression_tree set) }
    requires arity { arity_of (1 ∷ 1 ∷ 2 ∷ 2 ∷ 1 ∷ []) (expression_tree set) ≡ 1 }
{
    let inner = inner_within(alloc)?;
    truth_of(alloc, Formula::Quantified(Quantifier::Exists, set, inner))
}

fn holds_of_at_most_one(alloc: Global, set: Expression) -> Result<bool, Fail>
    requires well { IsWellFormed (1 ∷ 1 ∷ 2 ∷ 2 ∷ 1 ∷ []) 0 (expression_tree set) }
    requires arity { arity_of (1 ∷ 1 ∷ 2 ∷ 2 ∷ 1 ∷ []) (expression_tree set) ≡ 1 }
{
    let inner = inner_within(alloc)?;
    truth_of(alloc, Formula::Quantified(Quantifier::Lone, set, inner))
}

#[test]
fn a_universal_quantifier(rt: HostRuntime) -> Result<(), Fail> {
    assert!(rt; holds_of_all(rt.alloc(), Expression::Rel(1))?);
    assert!(rt; !holds_of_all(rt.alloc(), Expression::Rel(0))?);
    Ok(())
}

#[test]
fn an_existential_quantifier(rt: HostRuntime) -> Result<(), Fail> {
    assert!(rt; holds_of_some(rt.alloc(), Expression::Rel(0))?);
    assert!(rt; !holds_of_some(rt.alloc(), Expression::None)?);
    Ok(())
}

#[test]
fn at_most_one(rt: HostRuntime) -> Result<(), Fail> {
    assert!(rt; holds_of_at_most_one(rt.alloc(), Expression::Rel(0))?);
    assert!(rt; !holds_of_at_most_one(rt.alloc(), Expression::Rel(1))?);
    Ok(())
}

// The formula that is never true.
fn contradiction(alloc: Global) -> Formula
    ensures { IsProper (1 ∷ 1 ∷ 2 ∷ 2 ∷ 1 ∷ []) 0 (formula_tree result) }
{
    Formula::any_of(no_formulas(alloc))
}

#[test]
fn lists_without_formulas(rt: HostRuntime) -> Result<(), Fail> {
    assert!(rt; truth_of(rt.alloc(), truism(rt.alloc()))?);
    assert!(rt; !truth_of(rt.alloc(), contradiction(rt.alloc()))?);
    Ok(())
}

// A false formula and a true one.
fn false_and_true(alloc: Global) -> Result<Vec<Formula>, AllocError>
    ensures { IfOk result (λ fs. All (λ f. IsProper (1 ∷ 1 ∷ 2 ∷ 2 ∷ 1 ∷ []) 0 (formula_tree f)) fs.items) }
{
    let some = Formula::AtLeast(1, Expression::Rel(0));
    let none = Formula::Compared(Comparison::In, Expression::Rel(0), Expression::None);
    Ok(vec![in alloc; none, some]?)
}

fn hold_all(alloc: Global) -> Result<bool, Fail> {
    let formulas = false_and_true(alloc)?;
    truth_of(alloc, Formula::all_of(formulas))
}

fn holds_any(alloc: Global) -> Result<bool, Fail> {
    let formulas = false_and_true(alloc)?;
    truth_of(alloc, Formula::any_of(formulas))
}

#[test]
fn lists_of_formulas(rt: HostRuntime) -> Result<(), Fail> {
    assert!(rt; !hold_all(rt.alloc())?);
    assert!(rt; holds_any(rt.alloc())?);
    Ok(())
}
