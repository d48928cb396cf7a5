// Expressions under more binders.
ghost use Rattle.std.specs.Prelude.{◌≡◌, ◌+◌, IfOk};
ghost use Rattle.rel_formula.specs.Kernel.{var};
ghost use Rattle.rel_formula.specs.View.{expression_tree};
ghost use Rattle.lowering_rules.specs.Shifted.{shifted};

use crate::kernel_parts::expressions::{binary, unary};
use rel_formula::Expression;
use std::alloc::{AllocError, Global};

/// The expression under so many binders more. A variable whose number would have more than 32 bits is answered as want of
/// memory.
pub fn shifted(alloc: Global, e: &Expression, by: u32) -> Result<Expression, AllocError>
    ensures { IfOk result (λ f. expression_tree f ≡ shifted by (expression_tree e.now)) }
{
    match e {
        Expression::Rel(r) => Ok(Expression::Rel(*r)),
        Expression::Var(i) => variable(*i, by),
        Expression::None => Ok(Expression::None),
        Expression::Univ => Ok(Expression::Univ),
        Expression::Iden => Ok(Expression::Iden),
        Expression::Binary(operator, a, b) => {
            let left = shifted(alloc, a, by)?;
            let right = shifted(alloc, b, by)?;
            Ok(binary(alloc, *operator, left, right)?)
        }
        Expression::Unary(operator, a) => Ok(unary(alloc, *operator, shifted(alloc, a, by)?)?),
    }
}

// The variable outside so many binders more.
fn variable(number: u32, by: u32) -> Result<Expression, AllocError>
    ensures { IfOk result (λ f. expression_tree f ≡ var (number + by)) }
{
    match number.checked_add(by) {
        Some(number) => Ok(Expression::Var(number)),
        None => Err(AllocError),
    }
}
