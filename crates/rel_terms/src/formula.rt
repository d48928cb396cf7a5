// The number of terms of a formula, and of a problem.
ghost use Rattle.std.specs.Prelude.{◌≡◌, ◌≤◌, ◌<◌, ◌+◌, ◌^◌, ◌∷◌, ℕ, List, All, Contains, length, map, reverse, IfOk, IfSome, IfNone};
ghost use Rattle.rel_formula.specs.View.{expression_tree, formula_tree};
ghost use Rattle.rel_formula.specs.Kernel.{compared, at_least, formulas_of};
ghost use Rattle.rel_formula.specs.Bounds.{IsProblem};
ghost use Rattle.rel_formula.specs.Shape.{IsProper, IsWellFormed};
ghost use Rattle.rel_formula.specs.Instance.{InSome};
ghost use Rattle.tuple_core.specs.Rows.{IsSetOf};
ghost use Rattle.rel_terms.specs.Numbers.{Is, ◌⊕◌};
ghost use Rattle.rel_terms.specs.Upper.{InUpperSet, upper_structure};
ghost use Rattle.rel_terms.specs.Terms.{FormulaHas, FormulasHave, HasTerms, compared_terms, each_terms};
ghost use Rattle.rel_terms.specs.Counting.{Adds, RowsHave, arities_of};

use crate::expression::upper;
use crate::tally::Tally;
use rel_formula::{Comparison, Expression, Formula, Problem, Quantifier};
use std::alloc::{AllocError, Global};
use tuple_core::{Atom, Tuple, TupleSet};

/// The number of terms of a problem, and `None` where it is above 262,144. It takes time and memory by that limit, and not
/// by the number: a sum stops as soon as it is above, and no more than 268,435,456 nodes of expressions and formulas are
/// looked at; where more would be, it answers want of memory.
pub fn terms(alloc: Global, problem: &Problem) -> Result<Option<u32>, AllocError>
    ensures some { IfOk result (λ answer. IfSome answer (λ n. HasTerms problem.now n × (n ≤ 2 ^ 18))) }
    ensures none { IfOk result (λ answer. IfNone answer ((n : ℕ) → HasTerms problem.now n → 2 ^ 18 < n)) }
{
    let universe = universe(alloc, problem)?;
    let mut env = Vec::new(alloc);
    let mut tally = Tally::new();
    add_formula(
        alloc,
        problem,
        &universe,
        &mut env,
        &mut tally,
        problem.formula(),
    )?;
    Ok(tally.told())
}

// What the top-level signatures may have together.
fn universe(alloc: Global, problem: &Problem) -> Result<TupleSet, AllocError>
    ensures universe { IfOk result (λ v. IsSetOf v 1 (InSome problem.now.tops (InUpperSet problem.now))) }
    ensures problem { IsProblem problem.now }
{
    let relations = problem.relations();
    let mut universe = TupleSet::new(alloc, 1);
    for top in problem.tops() {
        universe = universe.union(alloc, &relations[*top as usize].upper)?;
    }
    Ok(universe)
}

// Adds the terms of a formula; `env` is as before in the end.
#[cycle(add_formula)]
fn add_formula(
    alloc: Global,
    problem: &Problem,
    universe: &TupleSet,
    env: &mut Vec<Atom>,
    tally: &mut Tally,
    f: &Formula,
) -> Result<(), AllocError>
    requires problem { IsProblem problem.now }
    requires universe { IsSetOf universe.now 1 (InSome problem.now.tops (InUpperSet problem.now)) }
    requires proper { IsProper (arities_of problem.now) (length env.old.items) (formula_tree f.now) }
    ensures adds { IfOk result (λ _. Adds (FormulaHas (upper_structure problem.now) (reverse env.old.items) (formula_tree f.now)) tally.old.terms tally.new.terms) }
    ensures env { IfOk result (λ _. env.new.items ≡ env.old.items) }
{
    tally.look()?;
    match f {
        Formula::Compared(comparison, a, b) => Ok(add_compared(
            alloc,
            problem,
            universe,
            env.as_slice(),
            tally,
            *comparison,
            a,
            b,
        )?),
        Formula::AtLeast(n, e) => {
            Ok(add_at_least(alloc, problem, universe, env.as_slice(), tally, *n, e)?)
        }
        Formula::Not(g) => {
            tally.add(1);
            Ok(add_formula(alloc, problem, universe, env, tally, g)?)
        }
        Formula::Junction(_, parts) => Ok(add_parts(alloc, problem, universe, env, tally, parts)?),
        Formula::Quantified(quantifier, e, g) => {
            let domain = upper(alloc, problem, universe, env.as_slice(), tally, e)?;
            let more = terms_for_each(*quantifier);
            Ok(add_for_each(alloc, problem, universe, env, tally, domain.rows(), more, g)?)
        }
    }
}

// Adds one term, and those of each formula.
#[cycle(add_formula)]
fn add_parts(
    alloc: Global,
    problem: &Problem,
    universe: &TupleSet,
    env: &mut Vec<Atom>,
    tally: &mut Tally,
    parts: &[Formula],
) -> Result<(), AllocError>
    requires problem { IsProblem problem.now }
    requires universe { IsSetOf universe.now 1 (InSome problem.now.tops (InUpperSet problem.now)) }
    requires proper { All (λ f. IsProper (arities_of problem.now) (length env.old.items) (formula_tree f)) parts.now }
    ensures adds { IfOk result (λ _. Adds (Is 1 ⊕ FormulasHave (upper_structure problem.now) (reverse env.old.items) (formulas_of (map formula_tree parts.now))) tally.old.terms tally.new.terms) }
    ensures env { IfOk result (λ _. env.new.items ≡ env.old.items) }
{
    tally.add(1);
    for part in parts {
        if tally.is_above() {
            return Ok(());
        }
        add_formula(alloc, problem, universe, env, tally, part)?;
    }
    Ok(())
}

// Adds the terms of a formula at the atom of each of these tuples, and so many more for each.
#[cycle(add_formula)]
fn add_for_each(
    alloc: Global,
    problem: &Problem,
    universe: &TupleSet,
    env: &mut Vec<Atom>,
    tally: &mut Tally,
    rows: &[Tuple],
    more: usize,
    f: &Formula,
) -> Result<(), AllocError>
    requires problem { IsProblem problem.now }
    requires universe { IsSetOf universe.now 1 (InSome problem.now.tops (InUpperSet problem.now)) }
    requires proper { IsProper (arities_of problem.now) (length env.old.items + 1) (formula_tree f.now) }
    ensures adds { IfOk result (λ _. Adds (RowsHave (upper_structure problem.now) (reverse env.old.items) more (formula_tree f.now) rows.now) tally.old.terms tally.new.terms) }
    ensures env { IfOk result (λ _. env.new.items ≡ env.old.items) }
{
    for row in rows {
        if tally.is_above() {
            return Ok(());
        }
        add_at(alloc, problem, universe, env, tally, row.first(), more, f)?;
    }
    Ok(())
}

// Adds the terms of a formula where the innermost variable is this atom, and so many more.
#[cycle(add_formula)]
fn add_at(
    alloc: Global,
    problem: &Problem,
    universe: &TupleSet,
    env: &mut Vec<Atom>,
    tally: &mut Tally,
    atom: Atom,
    more: usize,
    f: &Formula,
) -> Result<(), AllocError>
    requires problem { IsProblem problem.now }
    requires universe { IsSetOf universe.now 1 (InSome problem.now.tops (InUpperSet problem.now)) }
    requires proper { IsProper (arities_of problem.now) (length env.old.items + 1) (formula_tree f.now) }
    ensures adds { IfOk result (λ _. Adds (Is more ⊕ FormulaHas (upper_structure problem.now) (atom ∷ reverse env.old.items) (formula_tree f.now)) tally.old.terms tally.new.terms) }
    ensures env { IfOk result (λ _. env.new.items ≡ env.old.items) }
{
    tally.add(more);
    env.push(atom)?;
    add_formula(alloc, problem, universe, env, tally, f)?;
    env.pop();
    Ok(())
}

// Adds the terms of a comparison.
fn add_compared(
    alloc: Global,
    problem: &Problem,
    universe: &TupleSet,
    env: &[Atom],
    tally: &mut Tally,
    comparison: Comparison,
    a: &Expression,
    b: &Expression,
) -> Result<(), AllocError>
    requires problem { IsProblem problem.now }
    requires universe { IsSetOf universe.now 1 (InSome problem.now.tops (InUpperSet problem.now)) }
    requires left { IsWellFormed (arities_of problem.now) (length env.now) (expression_tree a.now) }
    requires right { IsWellFormed (arities_of problem.now) (length env.now) (expression_tree b.now) }
    ensures { IfOk result (λ _. Adds (FormulaHas (upper_structure problem.now) (reverse env.now) (compared comparison (expression_tree a.now) (expression_tree b.now))) tally.old.terms tally.new.terms) }
{
    let left = upper(alloc, problem, universe, env, tally, a)?;
    let right = upper(alloc, problem, universe, env, tally, b)?;
    add_sizes(tally, comparison, &left, &right);
    Ok(())
}

// Adds what a comparison of two sets adds itself.
fn add_sizes(tally: &mut Tally, comparison: Comparison, left: &TupleSet, right: &TupleSet)
    ensures { Adds (compared_terms comparison (Contains left.now.rows) (Contains right.now.rows)) tally.old.terms tally.new.terms }
{
    match comparison {
        Comparison::In => tally.add_size(left),
        Comparison::Equal => {
            tally.add_size(left);
            tally.add_size(right);
        }
    }
}

// What a quantifier adds for each atom.
fn terms_for_each(quantifier: Quantifier) -> usize
    ensures { result ≡ each_terms quantifier }
{
    match quantifier {
        Quantifier::All | Quantifier::Exists => 1,
        Quantifier::Lone => 2,
    }
}

// Adds the terms of a count of tuples.
fn add_at_least(
    alloc: Global,
    problem: &Problem,
    universe: &TupleSet,
    env: &[Atom],
    tally: &mut Tally,
    n: u32,
    e: &Expression,
) -> Result<(), AllocError>
    requires problem { IsProblem problem.now }
    requires universe { IsSetOf universe.now 1 (InSome problem.now.tops (InUpperSet problem.now)) }
    requires formed { IsWellFormed (arities_of problem.now) (length env.now) (expression_tree e.now) }
    ensures { IfOk result (λ _. Adds (FormulaHas (upper_structure problem.now) (reverse env.now) (at_least n (expression_tree e.now))) tally.old.terms tally.new.terms) }
{
    let set = upper(alloc, problem, universe, env, tally, e)?;
    tally.add_product(set.rows().len(), n as usize + 1);
    Ok(())
}
