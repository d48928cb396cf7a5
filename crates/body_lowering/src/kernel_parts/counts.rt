// Formulas about the number of tuples that an expression has.
ghost use Rattle.std.specs.Prelude.{◌≡◌, IfOk, option_map, option_to_list};
ghost use Rattle.rel_formula.specs.Kernel.{at_least, negation};
ghost use Rattle.rel_formula.specs.View.{expression_tree, formula_tree};
ghost use Rattle.lowering_rules.specs.Parts as parts;

use crate::kernel_parts::connectives::{both, negation};
use alloy_syntax::tree::{Multiplicity, MultiplicityWord};
use rel_formula::{Expression, Formula};
use std::alloc::{AllocError, Global};

/// So many tuples or more.
pub fn at_least(number: u16, e: Expression) -> Formula
    ensures { formula_tree result ≡ at_least number (expression_tree e) }
{
    Formula::AtLeast(u32::from(number), e)
}

/// More tuples than so many.
pub(crate) fn more_than(number: u16, e: Expression) -> Formula
    ensures { formula_tree result ≡ parts.more_than number (expression_tree e) }
{
    Formula::AtLeast(u32::from(number) + 1, e)
}

/// Fewer tuples than so many.
pub(crate) fn less_than(alloc: Global, number: u16, e: Expression) -> Result<Formula, AllocError>
    ensures { IfOk result (λ f. formula_tree f ≡ negation (at_least number (expression_tree e))) }
{
    Ok(negation(alloc, at_least(number, e))?)
}

/// So many tuples or fewer.
pub fn at_most(alloc: Global, number: u16, e: Expression) -> Result<Formula, AllocError>
    ensures { IfOk result (λ f. formula_tree f ≡ parts.at_most number (expression_tree e)) }
{
    Ok(negation(alloc, more_than(number, e))?)
}

/// Just so many tuples.
pub fn exactly(alloc: Global, number: u16, e: Expression) -> Result<Formula, AllocError>
    ensures { IfOk result (λ f. formula_tree f ≡ parts.exactly number (expression_tree e)) }
{
    let copy = e.copy(alloc)?;
    let most = at_most(alloc, number, copy)?;
    Ok(both(alloc, at_least(number, e), most)?)
}

/// A tuple or more.
pub(crate) fn some_of(e: Expression) -> Formula
    ensures { formula_tree result ≡ parts.some_of (expression_tree e) }
{
    at_least(1, e)
}

/// No tuple.
pub fn no_of(alloc: Global, e: Expression) -> Result<Formula, AllocError>
    ensures { IfOk result (λ f. formula_tree f ≡ parts.no_of (expression_tree e)) }
{
    less_than(alloc, 1, e)
}

/// At most one tuple.
pub(crate) fn lone_of(alloc: Global, e: Expression) -> Result<Formula, AllocError>
    ensures { IfOk result (λ f. formula_tree f ≡ parts.lone_of (expression_tree e)) }
{
    less_than(alloc, 2, e)
}

/// Just one tuple.
pub fn one_of(alloc: Global, e: Expression) -> Result<Formula, AllocError>
    ensures { IfOk result (λ f. formula_tree f ≡ parts.one_of (expression_tree e)) }
{
    let copy = e.copy(alloc)?;
    let lone = lone_of(alloc, copy)?;
    Ok(both(alloc, some_of(e), lone)?)
}

/// What a multiplicity word says of an expression: `set`, and no word, nothing.
pub fn marked(
    alloc: Global,
    mark: Option<MultiplicityWord>,
    e: Expression,
) -> Result<Option<Formula>, AllocError>
    ensures { IfOk result (λ f. option_to_list (option_map formula_tree f) ≡ parts.marked mark (expression_tree e)) }
{
    let Some(mark) = mark else {
        return Ok(None);
    };
    match mark.multiplicity {
        Multiplicity::Set => Ok(None),
        Multiplicity::Some => Ok(Some(some_of(e))),
        Multiplicity::Lone => Ok(Some(lone_of(alloc, e)?)),
        Multiplicity::One => Ok(Some(one_of(alloc, e)?)),
    }
}
