// Expressions of expressions.
ghost use Rattle.std.specs.Prelude.{◌≡◌, IfOk};
ghost use Rattle.rel_formula.specs.Kernel as kernel;
ghost use Rattle.rel_formula.specs.View.{expression_tree};
ghost use Rattle.lowering_rules.specs.Parts.{constant_lowered};

use alloy_syntax::tree::Constant;
use rel_formula::Expression;
use std::alloc::{AllocError, Global};
use tuple_core::{Operator, UnaryOperator};

/// The relation of a constant's name.
pub fn constant(constant: Constant) -> Expression
    ensures { expression_tree result ≡ constant_lowered constant }
{
    match constant {
        Constant::None => Expression::None,
        Constant::Univ => Expression::Univ,
        Constant::Iden => Expression::Iden,
    }
}

/// What an operator makes of two expressions.
pub(crate) fn binary(
    alloc: Global,
    operator: Operator,
    a: Expression,
    b: Expression,
) -> Result<Expression, AllocError>
    ensures { IfOk result (λ e. expression_tree e ≡ kernel.binary operator (expression_tree a) (expression_tree b)) }
{
    Ok(Expression::Binary(operator, Box::new(alloc, a)?, Box::new(alloc, b)?))
}

/// What an operator makes of one expression.
pub(crate) fn unary(
    alloc: Global,
    operator: UnaryOperator,
    a: Expression,
) -> Result<Expression, AllocError>
    ensures { IfOk result (λ e. expression_tree e ≡ kernel.unary operator (expression_tree a)) }
{
    Ok(Expression::Unary(operator, Box::new(alloc, a)?))
}

/// The tuples of either.
pub fn union(alloc: Global, a: Expression, b: Expression) -> Result<Expression, AllocError>
    ensures { IfOk result (λ e. expression_tree e ≡ kernel.union (expression_tree a) (expression_tree b)) }
{
    binary(alloc, Operator::Union, a, b)
}

/// The tuples of both.
pub fn meet(alloc: Global, a: Expression, b: Expression) -> Result<Expression, AllocError>
    ensures { IfOk result (λ e. expression_tree e ≡ kernel.meet (expression_tree a) (expression_tree b)) }
{
    binary(alloc, Operator::Meet, a, b)
}

/// Each tuple of the first followed by each of the second.
pub fn product(alloc: Global, a: Expression, b: Expression) -> Result<Expression, AllocError>
    ensures { IfOk result (λ e. expression_tree e ≡ kernel.product (expression_tree a) (expression_tree b)) }
{
    binary(alloc, Operator::Product, a, b)
}

/// The join of the first with the second.
pub fn join(alloc: Global, a: Expression, b: Expression) -> Result<Expression, AllocError>
    ensures { IfOk result (λ e. expression_tree e ≡ kernel.join (expression_tree a) (expression_tree b)) }
{
    binary(alloc, Operator::Join, a, b)
}

/// The pairs of the closure, and each atom beside itself.
pub(crate) fn reflexive_closure(alloc: Global, a: Expression) -> Result<Expression, AllocError>
    ensures { IfOk result (λ e. expression_tree e ≡ kernel.union (kernel.closure (expression_tree a)) kernel.iden) }
{
    let walks = unary(alloc, UnaryOperator::Closure, a)?;
    Ok(union(alloc, walks, Expression::Iden)?)
}
