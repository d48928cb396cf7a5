// A table of formulas about two sets, relations 0 and 1.
ghost use Rattle.std.specs.Prelude.{◌<◌, ◌∷◌, [], All, IfOk};
ghost use Rattle.rel_formula.specs.Shape.{IsProper};
ghost use Rattle.rel_formula.specs.View.{formula_tree};

use rel_formula::{Comparison, Expression, Formula};
use std::alloc::{AllocError, Global};

// The formula of this number: 6 and 7 are of two parts, and 0 is of none.
pub fn formula(alloc: Global, number: u32) -> Result<Formula, AllocError>
    ensures { IfOk result (λ f. IsProper (1 ∷ 1 ∷ []) 0 (formula_tree f)) }
{
    match number {
        0 => Ok(all_of(Vec::new(alloc))),
        1 => Ok(fewer(alloc, 2, 0)?),
        2 => Ok(Formula::AtLeast(1, Expression::Rel(0))),
        3 => Ok(Formula::Compared(Comparison::Equal, Expression::Rel(0), Expression::Rel(1))),
        4 => Ok(Formula::Compared(Comparison::In, Expression::Rel(0), Expression::Rel(1))),
        5 => Ok(fewer(alloc, 1, 0)?),
        6 => Ok(any_of(none_or_three(alloc)?)),
        _ => Ok(all_of(none_or_three(alloc)?)),
    }
}

// The set of this number, the first or the second, has fewer atoms.
fn fewer(alloc: Global, count: u32, set: u8) -> Result<Formula, AllocError>
    requires { set < 2 }
    ensures { IfOk result (λ f. IsProper (1 ∷ 1 ∷ []) 0 (formula_tree f)) }
{
    let enough = Box::new(alloc, Formula::AtLeast(count, Expression::Rel(set)))?;
    Ok(Formula::Not(enough))
}

// The first set is empty; and the second has three atoms.
fn none_or_three(alloc: Global) -> Result<Vec<Formula>, AllocError>
    ensures { IfOk result (λ fs. All (λ f. IsProper (1 ∷ 1 ∷ []) 0 (formula_tree f)) fs.items) }
{
    let none = fewer(alloc, 1, 0)?;
    let three = Formula::AtLeast(3, Expression::Rel(1));
    Ok(vec![in alloc; none, three]?)
}

// Each of these is true.
fn all_of(parts: Vec<Formula>) -> Formula
    requires { All (λ f. IsProper (1 ∷ 1 ∷ []) 0 (formula_tree f)) parts.items }
    ensures { IsProper (1 ∷ 1 ∷ []) 0 (formula_tree result) }
{
    Formula::all_of(parts)
}

// Some of these is true.
fn any_of(parts: Vec<Formula>) -> Formula
    requires { All (λ f. IsProper (1 ∷ 1 ∷ []) 0 (formula_tree f)) parts.items }
    ensures { IsProper (1 ∷ 1 ∷ []) 0 (formula_tree result) }
{
    Formula::any_of(parts)
}
