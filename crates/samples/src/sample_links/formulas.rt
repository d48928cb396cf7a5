// Formulas about a set of atoms, relation 0, and arrows among atoms, relation 1.
ghost use Rattle.std.specs.Prelude.{◌≡◌, ◌∷◌, [], All, IfOk};
ghost use Rattle.rel_formula.specs.Kernel.{rel, var, join};
ghost use Rattle.rel_formula.specs.Shape.{IsProper};
ghost use Rattle.rel_formula.specs.View.{expression_tree, formula_tree};

use rel_formula::{Comparison, Expression, Formula, Quantifier};
use std::alloc::{AllocError, Global};
use tuple_core::{Operator, UnaryOperator};

/// There are fewer arrows than so many: `#next < count`.
pub fn fewer_arrows(alloc: Global, count: u32) -> Result<Formula, AllocError>
    ensures { IfOk result (λ f. IsProper (1 ∷ 2 ∷ []) 0 (formula_tree f)) }
{
    let enough = Box::new(alloc, Formula::AtLeast(count, Expression::Rel(1)))?;
    Ok(Formula::Not(enough))
}

/// An arrow leads on from each atom of the set: `all x: A | some x.next`.
pub fn each_leads_on(alloc: Global) -> Result<Formula, AllocError>
    ensures { IfOk result (λ f. IsProper (1 ∷ 2 ∷ []) 0 (formula_tree f)) }
{
    let body = Box::new(alloc, Formula::AtLeast(1, after(alloc)?))?;
    Ok(Formula::Quantified(Quantifier::All, Expression::Rel(0), body))
}

/// Arrows lead on from at most one atom of the set, and there is one: `lone x: A | some x.next`, `some next`.
pub fn one_leads_on(alloc: Global) -> Result<Formula, AllocError>
    ensures { IfOk result (λ f. IsProper (1 ∷ 2 ∷ []) 0 (formula_tree f)) }
{
    let body = Box::new(alloc, Formula::AtLeast(1, after(alloc)?))?;
    with_some(
        alloc,
        Formula::Quantified(Quantifier::Lone, Expression::Rel(0), body),
    )
}

/// There are arrows, and all are among the atoms of the set: `next in A -> A`, `some next`.
pub fn arrows_of_the_set(alloc: Global) -> Result<Formula, AllocError>
    ensures { IfOk result (λ f. IsProper (1 ∷ 2 ∷ []) 0 (formula_tree f)) }
{
    let first = Box::new(alloc, Expression::Rel(0))?;
    let second = Box::new(alloc, Expression::Rel(0))?;
    with_some(
        alloc,
        Formula::Compared(
            Comparison::In,
            Expression::Rel(1),
            Expression::Binary(Operator::Product, first, second),
        ),
    )
}

/// There are arrows, and no cycle of them: `^next in univ -> univ - iden`, `some next`.
pub fn no_cycle(alloc: Global) -> Result<Formula, AllocError>
    ensures { IfOk result (λ f. IsProper (1 ∷ 2 ∷ []) 0 (formula_tree f)) }
{
    let relation = Box::new(alloc, Expression::Rel(1))?;
    let first = Box::new(alloc, Expression::Univ)?;
    let second = Box::new(alloc, Expression::Univ)?;
    let all = Box::new(alloc, Expression::Binary(Operator::Product, first, second))?;
    let same = Box::new(alloc, Expression::Iden)?;
    with_some(
        alloc,
        Formula::Compared(
            Comparison::In,
            Expression::Unary(UnaryOperator::Closure, relation),
            Expression::Binary(Operator::Minus, all, same),
        ),
    )
}

/// There are arrows, and each also turned round: `next = ~next`, `some next`.
pub fn all_turned(alloc: Global) -> Result<Formula, AllocError>
    ensures { IfOk result (λ f. IsProper (1 ∷ 2 ∷ []) 0 (formula_tree f)) }
{
    let relation = Box::new(alloc, Expression::Rel(1))?;
    with_some(
        alloc,
        Formula::Compared(
            Comparison::Equal,
            Expression::Rel(1),
            Expression::Unary(UnaryOperator::Transpose, relation),
        ),
    )
}

// `x.next`, where x is the atom of the binder.
fn after(alloc: Global) -> Result<Expression, AllocError>
    ensures { IfOk result (λ e. expression_tree e ≡ join (var 0) (rel 1)) }
{
    let atom = Box::new(alloc, Expression::Var(0))?;
    let relation = Box::new(alloc, Expression::Rel(1))?;
    Ok(Expression::Binary(Operator::Join, atom, relation))
}

// The formula, and that there is an arrow.
fn with_some(alloc: Global, formula: Formula) -> Result<Formula, AllocError>
    requires { IsProper (1 ∷ 2 ∷ []) 0 (formula_tree formula) }
    ensures { IfOk result (λ f. IsProper (1 ∷ 2 ∷ []) 0 (formula_tree f)) }
{
    let some = Formula::AtLeast(1, Expression::Rel(1));
    Ok(all_of(vec![in alloc; formula, some]?))
}

// Each of these is true.
fn all_of(parts: Vec<Formula>) -> Formula
    requires { All (λ f. IsProper (1 ∷ 2 ∷ []) 0 (formula_tree f)) parts.items }
    ensures { IsProper (1 ∷ 2 ∷ []) 0 (formula_tree result) }
{
    Formula::all_of(parts)
}
