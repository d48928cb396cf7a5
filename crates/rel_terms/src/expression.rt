// The upper value of an expression, and the number of its terms.
ghost use Rattle.std.specs.Prelude.{◌≡◌, ℕ, length, map, reverse, IfOk};
ghost use Rattle.rel_formula.specs.View.{expression_tree};
ghost use Rattle.rel_formula.specs.Bounds.{IsProblem};
ghost use Rattle.rel_formula.specs.Shape.{arity_of, IsWellFormed};
ghost use Rattle.rel_formula.specs.Instance.{InSome};
ghost use Rattle.tuple_core.specs.Rows.{IsSetOf};
ghost use Rattle.rel_terms.specs.Upper.{InUpperSet, upper_structure};
ghost use Rattle.rel_terms.specs.Terms.{InUpperAt, ExpressionHas};
ghost use Rattle.rel_terms.specs.Counting.{IsCounted, arities_of};

use crate::operators::{combined, identity, single, turned_pairs, whole};
use crate::tally::Tally;
use rel_formula::{Expression, Problem};
use std::alloc::{AllocError, Global};
use tuple_core::{Atom, TupleSet};

// The upper value of an expression, where `universe` is what the top-level signatures may have together and `env` has the
// variables' atoms, the innermost last. Its terms are added. Where that goes above the limit, the set says nothing.
pub fn upper(
    alloc: Global,
    problem: &Problem,
    universe: &TupleSet,
    env: &[Atom],
    tally: &mut Tally,
    e: &Expression,
) -> Result<TupleSet, AllocError>
    requires problem { IsProblem problem.now }
    requires universe { IsSetOf universe.now 1 (InSome problem.now.tops (InUpperSet problem.now)) }
    requires formed { IsWellFormed (arities_of problem.now) (length env.now) (expression_tree e.now) }
    ensures { IfOk result (λ v. IsCounted v (arity_of (arities_of problem.now) (expression_tree e.now)) (InUpperAt (upper_structure problem.now) (reverse env.now) (expression_tree e.now)) (ExpressionHas (upper_structure problem.now) (reverse env.now) (expression_tree e.now)) tally.old.terms tally.new.terms) }
{
    tally.look()?;
    match e {
        Expression::Rel(r) => Ok(whole(alloc, tally, &problem.relations()[*r as usize].upper)?),
        Expression::Var(i) => Ok(single(alloc, tally, env[env.len() - 1 - *i as usize])?),
        Expression::None => Ok(TupleSet::new(alloc, 1)),
        Expression::Univ => Ok(whole(alloc, tally, universe)?),
        Expression::Iden => Ok(identity(alloc, tally, universe)?),
        Expression::Binary(operator, a, b) => {
            let left = upper(alloc, problem, universe, env, tally, a)?;
            let right = upper(alloc, problem, universe, env, tally, b)?;
            Ok(combined(alloc, tally, *operator, left, &right)?)
        }
        Expression::Unary(operator, a) => {
            let pairs = upper(alloc, problem, universe, env, tally, a)?;
            Ok(turned_pairs(alloc, tally, *operator, &pairs)?)
        }
    }
}
