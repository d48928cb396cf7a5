// What comparisons make of their operands.
ghost use Rattle.std.specs.Prelude.{◌≡◌, IfOk};
ghost use Rattle.rel_formula.specs.View.{expression_tree, formula_tree};
ghost use Rattle.lowering_rules.specs.Parts as parts;
ghost use Rattle.lowering_rules.specs.Parts.{comparison_lowered, expression_in, formula};
ghost use Rattle.body_lowering.specs.Kernel.View.{part_view};

use crate::kernel_parts::connectives::negation_if;
use crate::kernel_parts::counts::{at_least, at_most, exactly, less_than, more_than};
use crate::kernel_parts::part::Part;
use alloy_syntax::tree::{Comparing, Comparison};
use rel_formula::{Expression, Formula};
use std::alloc::{AllocError, Global};

/// What a comparison says of two operands.
pub fn compared(
    alloc: Global,
    comparing: Comparing,
    left: Part,
    right: Part,
) -> Result<Part, AllocError>
    ensures { IfOk result (λ p. part_view p ≡ comparison_lowered comparing (part_view left) (part_view right)) }
{
    match left {
        Part::Size(e) => sized(alloc, comparing, e, right.into_number()),
        Part::Relation(a) => related(alloc, comparing, a, right),
        Part::Formula(_) => related(alloc, comparing, Expression::None, right),
        Part::Number(_) => related(alloc, comparing, Expression::None, right),
    }
}

// What a comparison says of the number of tuples, which may be negated.
fn sized(
    alloc: Global,
    comparing: Comparing,
    e: Expression,
    number: u16,
) -> Result<Part, AllocError>
    ensures { IfOk result (λ p. part_view p ≡ formula (parts.negation_if comparing.negated (parts.size_compared comparing.comparison (expression_tree e) number))) }
{
    let plain = size_compared(alloc, comparing.comparison, e, number)?;
    Ok(Part::Formula(negation_if(alloc, comparing.negated, plain)?))
}

// What a comparison says of a relation and an operand.
fn related(
    alloc: Global,
    comparing: Comparing,
    a: Expression,
    right: Part,
) -> Result<Part, AllocError>
    ensures { IfOk result (λ p. part_view p ≡ formula (parts.negation_if comparing.negated (parts.relations_compared comparing.comparison (expression_tree a) (expression_in (part_view right))))) }
{
    let plain = relations_compared(alloc, comparing.comparison, a, right.into_expression());
    Ok(Part::Formula(negation_if(alloc, comparing.negated, plain)?))
}

/// What a comparison says of the number of tuples.
pub(crate) fn size_compared(
    alloc: Global,
    comparison: Comparison,
    e: Expression,
    number: u16,
) -> Result<Formula, AllocError>
    ensures { IfOk result (λ f. formula_tree f ≡ parts.size_compared comparison (expression_tree e) number) }
{
    match comparison {
        Comparison::AtLeast => Ok(at_least(number, e)),
        Comparison::Greater => Ok(more_than(number, e)),
        Comparison::Less => less_than(alloc, number, e),
        Comparison::AtMost => at_most(alloc, number, e),
        Comparison::Equal => exactly(alloc, number, e),
        Comparison::In => Ok(Formula::all_of(Vec::new(alloc))),
    }
}

/// What a comparison says of two relations.
pub(crate) fn relations_compared(
    alloc: Global,
    comparison: Comparison,
    a: Expression,
    b: Expression,
) -> Formula
    ensures { formula_tree result ≡ parts.relations_compared comparison (expression_tree a) (expression_tree b) }
{
    match comparison {
        Comparison::In => Formula::Compared(rel_formula::Comparison::In, a, b),
        Comparison::Equal => Formula::Compared(rel_formula::Comparison::Equal, a, b),
        _ => Formula::all_of(Vec::new(alloc)),
    }
}
