// What prefixes and operators make of their operands.
ghost use Rattle.std.specs.Prelude.{◌≡◌, IfOk, map};
ghost use Rattle.rel_formula.specs.Kernel.{binary, formulas_of};
ghost use Rattle.rel_formula.specs.View.{formula_tree};
ghost use Rattle.lowering_rules.specs.Parts as parts;
ghost use Rattle.lowering_rules.specs.Parts.{expression_in, prefix_lowered, operator_lowered, list_lowered, join_lowered};
ghost use Rattle.body_lowering.specs.Kernel.View.{part_view};

use crate::kernel_parts::connectives::{both, either, equivalence, negation};
use crate::kernel_parts::counts::{lone_of, no_of, one_of, some_of};
use crate::kernel_parts::expressions::{binary, join, reflexive_closure, unary};
use crate::kernel_parts::part::Part;
use alloy_syntax::tree::{Operator, Prefix};
use rel_formula::Formula;
use std::alloc::{AllocError, Global};
use tuple_core::UnaryOperator;

/// What a prefix makes of its operand.
pub fn prefixed(alloc: Global, prefix: Prefix, x: Part) -> Result<Part, AllocError>
    ensures { IfOk result (λ p. part_view p ≡ prefix_lowered prefix (part_view x)) }
{
    match prefix {
        Prefix::Not => Ok(Part::Formula(negation(alloc, x.into_formula(alloc))?)),
        Prefix::No => Ok(Part::Formula(no_of(alloc, x.into_expression())?)),
        Prefix::Some => Ok(Part::Formula(some_of(x.into_expression()))),
        Prefix::Lone => Ok(Part::Formula(lone_of(alloc, x.into_expression())?)),
        Prefix::One => Ok(Part::Formula(one_of(alloc, x.into_expression())?)),
        Prefix::Size => Ok(Part::Size(x.into_expression())),
        Prefix::Transpose => Ok(Part::Relation(unary(
            alloc,
            UnaryOperator::Transpose,
            x.into_expression(),
        )?)),
        Prefix::Closure => Ok(Part::Relation(unary(
            alloc,
            UnaryOperator::Closure,
            x.into_expression(),
        )?)),
        Prefix::ReflexiveClosure => Ok(Part::Relation(reflexive_closure(
            alloc,
            x.into_expression(),
        )?)),
    }
}

/// What an operator makes of two operands.
pub fn operated(alloc: Global, operator: Operator, x: Part, y: Part) -> Result<Part, AllocError>
    ensures { IfOk result (λ p. part_view p ≡ operator_lowered operator (part_view x) (part_view y)) }
{
    match operator {
        Operator::Union => combined(alloc, tuple_core::Operator::Union, x, y),
        Operator::Minus => combined(alloc, tuple_core::Operator::Minus, x, y),
        Operator::Override => combined(alloc, tuple_core::Operator::Override, x, y),
        Operator::Meet => combined(alloc, tuple_core::Operator::Meet, x, y),
        Operator::Product => combined(alloc, tuple_core::Operator::Product, x, y),
        Operator::Domain => combined(alloc, tuple_core::Operator::Dom, x, y),
        Operator::Range => combined(alloc, tuple_core::Operator::Ran, x, y),
        Operator::Iff => Ok(Part::Formula(equivalence(
            alloc,
            x.into_formula(alloc),
            y.into_formula(alloc),
        )?)),
        Operator::And => Ok(Part::Formula(both(
            alloc,
            x.into_formula(alloc),
            y.into_formula(alloc),
        )?)),
        Operator::Or => Ok(Part::Formula(either(
            alloc,
            x.into_formula(alloc),
            y.into_formula(alloc),
        )?)),
    }
}

// What an operator makes of two relations.
fn combined(
    alloc: Global,
    operator: tuple_core::Operator,
    x: Part,
    y: Part,
) -> Result<Part, AllocError>
    ensures { IfOk result (λ p. part_view p ≡ parts.relation (binary operator (expression_in (part_view x)) (expression_in (part_view y)))) }
{
    let e = binary(alloc, operator, x.into_expression(), y.into_expression())?;
    Ok(Part::Relation(e))
}

/// Whether a chain of the operator is one list.
pub fn joins_all(operator: Operator) -> bool
    ensures { result ≡ parts.joins_all operator }
{
    matches!(operator, Operator::And | Operator::Or)
}

/// What a chain of `&&` or of `||` makes of its operands.
pub fn list_of(operator: Operator, operands: Vec<Formula>) -> Part
    ensures { part_view result ≡ list_lowered operator (formulas_of (map formula_tree operands.items)) }
{
    match operator {
        Operator::Or => Part::Formula(Formula::any_of(operands)),
        _ => Part::Formula(Formula::all_of(operands)),
    }
}

/// What `.` makes of two operands.
pub fn joined(alloc: Global, x: Part, y: Part) -> Result<Part, AllocError>
    ensures { IfOk result (λ p. part_view p ≡ join_lowered (part_view x) (part_view y)) }
{
    Ok(Part::Relation(join(alloc, x.into_expression(), y.into_expression())?))
}
