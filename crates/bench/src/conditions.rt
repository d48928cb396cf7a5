// What is asked of a set of atoms, relation 0, and of a relation over them, relation 1.
ghost use Rattle.std.specs.Prelude.{◌≡◌, ◌∷◌, [], All, IfOk};
ghost use Rattle.rel_formula.specs.Kernel.{rel, var, transpose, join, closure, iden, within};
ghost use Rattle.rel_formula.specs.Shape.{IsProper};
ghost use Rattle.rel_formula.specs.View.{expression_tree, formula_tree};

use rel_formula::{Comparison, Expression, Formula, Quantifier};
use std::alloc::{AllocError, Global};
use tuple_core::{Operator, UnaryOperator};

/// The relation holds compositions of itself and of itself turned round: `f.f in f && f.~f in f && ~f.f in f`.
pub fn compositions(alloc: Global) -> Result<Formula, AllocError>
    ensures { IfOk result (λ f. IsProper (1 ∷ 2 ∷ []) 0 (formula_tree f)) }
{
    Ok(Formula::all_of(three_compositions(alloc)?))
}

/// The relation has no cycle: `^f in univ -> univ - iden`.
pub fn no_cycle(alloc: Global) -> Result<Formula, AllocError>
    ensures { IfOk result (λ f. IsProper (1 ∷ 2 ∷ []) 0 (formula_tree f)) }
{
    let relation = Box::new(alloc, Expression::Rel(1))?;
    let first = Box::new(alloc, Expression::Univ)?;
    let second = Box::new(alloc, Expression::Univ)?;
    let all = Box::new(alloc, Expression::Binary(Operator::Product, first, second))?;
    let same = Box::new(alloc, Expression::Iden)?;
    Ok(Formula::Compared(
        Comparison::In,
        Expression::Unary(UnaryOperator::Closure, relation),
        Expression::Binary(Operator::Minus, all, same),
    ))
}

/// Some atom reaches none but itself: `some x: A | ^(x.f) in iden`.
pub fn some_image(alloc: Global) -> Result<Formula, AllocError>
    ensures { IfOk result (λ f. IsProper (1 ∷ 3 ∷ []) 0 (formula_tree f)) }
{
    let body = Box::new(alloc, is_its_own(alloc, 0)?)?;
    Ok(Formula::Quantified(Quantifier::Exists, Expression::Rel(0), body))
}

/// Two atoms have one image, of such: `some x, y: A | x.f = y.f && ^(x.f) in iden`.
pub fn equal_images(alloc: Global) -> Result<Formula, AllocError>
    ensures { IfOk result (λ f. IsProper (1 ∷ 3 ∷ []) 0 (formula_tree f)) }
{
    let both = Formula::all_of(equal_and_its_own(alloc)?);
    Ok(some_two(alloc, both)?)
}

// Two atoms, the same or not, are so.
fn some_two(alloc: Global, body: Formula) -> Result<Formula, AllocError>
    requires { IsProper (1 ∷ 3 ∷ []) 2 (formula_tree body) }
    ensures { IfOk result (λ f. IsProper (1 ∷ 3 ∷ []) 0 (formula_tree f)) }
{
    let inner = Box::new(alloc, body)?;
    let outer = Box::new(
        alloc,
        Formula::Quantified(Quantifier::Exists, Expression::Rel(0), inner),
    )?;
    Ok(Formula::Quantified(Quantifier::Exists, Expression::Rel(0), outer))
}

// `f.f in f`, `f.~f in f` and `~f.f in f`.
fn three_compositions(alloc: Global) -> Result<Vec<Formula>, AllocError>
    ensures { IfOk result (λ fs. All (λ f. IsProper (1 ∷ 2 ∷ []) 0 (formula_tree f)) fs.items) }
{
    let on = composed(alloc, Expression::Rel(1), Expression::Rel(1))?;
    let to = composed(alloc, Expression::Rel(1), turned(alloc)?)?;
    let from = composed(alloc, turned(alloc)?, Expression::Rel(1))?;
    Ok(vec![in alloc; on, to, from]?)
}

// The composition of two relations lies in `f`.
fn composed(alloc: Global, left: Expression, right: Expression) -> Result<Formula, AllocError>
    ensures { IfOk result (λ f. formula_tree f ≡ within (join (expression_tree left) (expression_tree right)) (rel 1)) }
{
    let left = Box::new(alloc, left)?;
    let right = Box::new(alloc, right)?;
    Ok(Formula::Compared(
        Comparison::In,
        Expression::Binary(Operator::Join, left, right),
        Expression::Rel(1),
    ))
}

// `~f`.
fn turned(alloc: Global) -> Result<Expression, AllocError>
    ensures { IfOk result (λ e. expression_tree e ≡ transpose (rel 1)) }
{
    Ok(Expression::Unary(
        UnaryOperator::Transpose,
        Box::new(alloc, Expression::Rel(1))?,
    ))
}

// `x.f`, where x is the atom of this binder.
fn image(alloc: Global, binder: u32) -> Result<Expression, AllocError>
    ensures { IfOk result (λ e. expression_tree e ≡ join (var binder) (rel 1)) }
{
    let atom = Box::new(alloc, Expression::Var(binder))?;
    let relation = Box::new(alloc, Expression::Rel(1))?;
    Ok(Expression::Binary(Operator::Join, atom, relation))
}

// `^(x.f) in iden`.
fn is_its_own(alloc: Global, binder: u32) -> Result<Formula, AllocError>
    ensures { IfOk result (λ f. formula_tree f ≡ within (closure (join (var binder) (rel 1))) iden) }
{
    let pairs = Box::new(alloc, image(alloc, binder)?)?;
    Ok(Formula::Compared(
        Comparison::In,
        Expression::Unary(UnaryOperator::Closure, pairs),
        Expression::Iden,
    ))
}

// `x.f = y.f` and `^(x.f) in iden`, where x is the outer binder and y the inner one.
fn equal_and_its_own(alloc: Global) -> Result<Vec<Formula>, AllocError>
    ensures { IfOk result (λ fs. All (λ f. IsProper (1 ∷ 3 ∷ []) 2 (formula_tree f)) fs.items) }
{
    let equal = Formula::Compared(Comparison::Equal, image(alloc, 1)?, image(alloc, 0)?);
    let own = is_its_own(alloc, 1)?;
    Ok(vec![in alloc; equal, own]?)
}
