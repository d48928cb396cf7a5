// Operands, and formulas over any relations.
ghost use Rattle.std.specs.Prelude.{◌≡◌, ℕ, List, All, IfOk};
ghost use Rattle.rel_formula.specs.Shape.{IsProper};
ghost use Rattle.rel_formula.specs.View.{expression_tree, formula_tree};

use rel_formula::{Expression, Formula};
use std::alloc::{AllocError, Global};

/// Two operands.
pub fn two(
    alloc: Global,
    a: Expression,
    b: Expression,
) -> Result<(Box<Expression>, Box<Expression>), AllocError>
    ensures { IfOk result (λ p. (expression_tree p.0.value ≡ expression_tree a) × (expression_tree p.1.value ≡ expression_tree b)) }
{
    Ok((Box::new(alloc, a)?, Box::new(alloc, b)?))
}

/// The list without formulas.
pub fn no_formulas(alloc: Global) -> Vec<Formula>
    ensures { (ns : List ℕ) → All (λ f. IsProper ns 0 (formula_tree f)) result.items }
{
    Vec::new(alloc)
}

/// The formula that is always true.
pub fn truism(alloc: Global) -> Formula
    ensures { (ns : List ℕ) → IsProper ns 0 (formula_tree result) }
{
    Formula::all_of(no_formulas(alloc))
}
