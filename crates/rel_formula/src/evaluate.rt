// The plain evaluator: the value of an expression and the truth of a formula, over the relations' sets of tuples.
ghost use Rattle.std.specs.Prelude.{◌≡◌, ◌+◌, [], ◌∷◌, All, AllPairs, Any, Contains, List, length, map, reverse, IfOk, IsTrue, ◌↔◌};
ghost use Rattle.rel_formula.specs.View.{expression_tree, formula_tree};
ghost use Rattle.rel_formula.specs.Meaning.{InValue, AreEqual, Compares, HasAtLeast, Truth};
ghost use Rattle.rel_formula.specs.Evaluation.{HoldsOf, IsTrueAt, AreNotBothTrue, IsTrueAtRows};
ghost use Rattle.rel_formula.specs.Shape.{arity_of, IsWellFormed, IsProper};
ghost use Rattle.rel_formula.specs.Tables.{arities, tabled};
ghost use Rattle.rel_formula.specs.Sizes.{HasSize};
ghost use Rattle.tuple_core.specs.declared.atom.Atom.{Atom as AtomRecord};
ghost use Rattle.tuple_core.specs.Rows.{IsSetOf};

use crate::connectives::{Comparison, Connective, Quantifier};
use crate::formula::{Expression, Formula};
use crate::tables::Tables;
use std::alloc::{AllocError, Global};
use tuple_core::{Atom, Tuple, TupleSet};

/// The value of an expression, where `tables` are the relations' values and `env` has the variables' atoms, the innermost
/// last.
pub fn value(
    alloc: Global,
    tables: &Tables,
    env: &[Atom],
    e: &Expression,
) -> Result<TupleSet, AllocError>
    requires { IsWellFormed (arities tables.now) (length env.now) (expression_tree e.now) }
    ensures { IfOk result (λ v. IsSetOf v (arity_of (arities tables.now) (expression_tree e.now)) (InValue (tabled tables.now) (reverse env.now) (expression_tree e.now))) }
{
    match e {
        Expression::Rel(r) => Ok(tables.values()[*r as usize].copy(alloc)?),
        Expression::Var(i) => Ok(single(alloc, env[env.len() - 1 - *i as usize])?),
        Expression::None => Ok(TupleSet::new(alloc, 1)),
        Expression::Univ => Ok(tables.universe().copy(alloc)?),
        Expression::Iden => Ok(identity(alloc, tables.universe())?),
        Expression::Binary(operator, a, b) => {
            let left = value(alloc, tables, env, a)?;
            let right = value(alloc, tables, env, b)?;
            Ok(left.combine(alloc, *operator, &right)?)
        }
        Expression::Unary(operator, a) => {
            let pairs = value(alloc, tables, env, a)?;
            Ok(pairs.turn(alloc, *operator)?)
        }
    }
}

// The set of this atom alone.
fn single(alloc: Global, atom: Atom) -> Result<TupleSet, AllocError>
    ensures { IfOk result (λ v. IsSetOf v 1 (λ t. t ≡ atom ∷ [])) }
{
    let mut set = TupleSet::new(alloc, 1);
    set.insert(Tuple::single(atom))?;
    Ok(set)
}

// Each atom of the universe beside itself.
fn identity(alloc: Global, universe: &TupleSet) -> Result<TupleSet, AllocError>
    requires { universe.now.arity ≡ 1 }
    ensures { IfOk result (λ v. IsSetOf v 2 (λ t. (a : AtomRecord) × Contains universe.now.rows (a ∷ []) × (t ≡ a ∷ a ∷ []))) }
{
    let mut pairs = TupleSet::new(alloc, 2);
    for row in universe.rows() {
        let atom = row.first();
        pairs.insert(Tuple::of(&[atom, atom]))?;
    }
    Ok(pairs)
}

/// Whether a formula is true, where `tables` are the relations' values and `env` has the variables' atoms, the innermost
/// last; `env` is as before in the end.
#[cycle(truth)]
pub fn truth(
    alloc: Global,
    tables: &Tables,
    env: &mut Vec<Atom>,
    f: &Formula,
) -> Result<bool, AllocError>
    requires proper { IsProper (arities tables.now) (length env.old.items) (formula_tree f.now) }
    ensures truth { IfOk result (λ b. IsTrue b ↔ Truth (tabled tables.now) (reverse env.old.items) (formula_tree f.now)) }
    ensures env { IfOk result (λ _. env.new.items ≡ env.old.items) }
{
    match f {
        Formula::Compared(comparison, a, b) => {
            Ok(compares(alloc, tables, env.as_slice(), *comparison, a, b)?)
        }
        Formula::AtLeast(n, e) => Ok(has_at_least(alloc, tables, env.as_slice(), *n, e)?),
        Formula::Not(g) => {
            let holds = truth(alloc, tables, env, g)?;
            Ok(!holds)
        }
        Formula::Junction(connective, parts) => {
            Ok(true_of(alloc, tables, env, *connective, parts)?)
        }
        Formula::Quantified(quantifier, e, g) => {
            let domain = value(alloc, tables, env.as_slice(), e)?;
            Ok(true_for(alloc, tables, env, *quantifier, domain.rows(), g)?)
        }
    }
}

// Whether all formulas are true, or some.
#[cycle(truth)]
fn true_of(
    alloc: Global,
    tables: &Tables,
    env: &mut Vec<Atom>,
    connective: Connective,
    parts: &[Formula],
) -> Result<bool, AllocError>
    requires proper { All (λ f. IsProper (arities tables.now) (length env.old.items) (formula_tree f)) parts.now }
    ensures truth { IfOk result (λ b. IsTrue b ↔ HoldsOf connective (λ f. Truth (tabled tables.now) (reverse env.old.items) (formula_tree f)) parts.now) }
    ensures env { IfOk result (λ _. env.new.items ≡ env.old.items) }
{
    match connective {
        Connective::And => Ok(all_true(alloc, tables, env, parts)?),
        Connective::Or => Ok(any_true(alloc, tables, env, parts)?),
    }
}

// Whether each formula is true.
#[cycle(truth)]
fn all_true(
    alloc: Global,
    tables: &Tables,
    env: &mut Vec<Atom>,
    parts: &[Formula],
) -> Result<bool, AllocError>
    requires proper { All (λ f. IsProper (arities tables.now) (length env.old.items) (formula_tree f)) parts.now }
    ensures truth { IfOk result (λ b. IsTrue b ↔ All (λ f. Truth (tabled tables.now) (reverse env.old.items) (formula_tree f)) parts.now) }
    ensures env { IfOk result (λ _. env.new.items ≡ env.old.items) }
{
    for part in parts {
        let holds = truth(alloc, tables, env, part)?;
        if !holds {
            return Ok(false);
        }
    }
    Ok(true)
}

// Whether some formula is true.
#[cycle(truth)]
fn any_true(
    alloc: Global,
    tables: &Tables,
    env: &mut Vec<Atom>,
    parts: &[Formula],
) -> Result<bool, AllocError>
    requires proper { All (λ f. IsProper (arities tables.now) (length env.old.items) (formula_tree f)) parts.now }
    ensures truth { IfOk result (λ b. IsTrue b ↔ Any (λ f. Truth (tabled tables.now) (reverse env.old.items) (formula_tree f)) parts.now) }
    ensures env { IfOk result (λ _. env.new.items ≡ env.old.items) }
{
    for part in parts {
        let holds = truth(alloc, tables, env, part)?;
        if holds {
            return Ok(true);
        }
    }
    Ok(false)
}

// Whether the formula is true at the atoms of all of these tuples, of some, or of no two.
#[cycle(truth)]
fn true_for(
    alloc: Global,
    tables: &Tables,
    env: &mut Vec<Atom>,
    quantifier: Quantifier,
    rows: &[Tuple],
    f: &Formula,
) -> Result<bool, AllocError>
    requires proper { IsProper (arities tables.now) (length env.old.items + 1) (formula_tree f.now) }
    requires single { All (λ row. length row ≡ 1) rows.now }
    ensures truth { IfOk result (λ b. IsTrue b ↔ IsTrueAtRows quantifier (tabled tables.now) (reverse env.old.items) (formula_tree f.now) rows.now) }
    ensures env { IfOk result (λ _. env.new.items ≡ env.old.items) }
{
    match quantifier {
        Quantifier::All => Ok(true_for_all(alloc, tables, env, rows, f)?),
        Quantifier::Exists => Ok(true_for_some(alloc, tables, env, rows, f)?),
        Quantifier::Lone => Ok(true_for_at_most_one(alloc, tables, env, rows, f)?),
    }
}

// Whether the formula is true at the atom of each of these tuples.
#[cycle(truth)]
fn true_for_all(
    alloc: Global,
    tables: &Tables,
    env: &mut Vec<Atom>,
    rows: &[Tuple],
    f: &Formula,
) -> Result<bool, AllocError>
    requires proper { IsProper (arities tables.now) (length env.old.items + 1) (formula_tree f.now) }
    requires single { All (λ row. length row ≡ 1) rows.now }
    ensures truth { IfOk result (λ b. IsTrue b ↔ All (IsTrueAt (tabled tables.now) (reverse env.old.items) (formula_tree f.now)) rows.now) }
    ensures env { IfOk result (λ _. env.new.items ≡ env.old.items) }
{
    for row in rows {
        let holds = true_at(alloc, tables, env, row, f)?;
        if !holds {
            return Ok(false);
        }
    }
    Ok(true)
}

// Whether the formula is true at the atom of some of these tuples.
#[cycle(truth)]
fn true_for_some(
    alloc: Global,
    tables: &Tables,
    env: &mut Vec<Atom>,
    rows: &[Tuple],
    f: &Formula,
) -> Result<bool, AllocError>
    requires proper { IsProper (arities tables.now) (length env.old.items + 1) (formula_tree f.now) }
    requires single { All (λ row. length row ≡ 1) rows.now }
    ensures truth { IfOk result (λ b. IsTrue b ↔ Any (IsTrueAt (tabled tables.now) (reverse env.old.items) (formula_tree f.now)) rows.now) }
    ensures env { IfOk result (λ _. env.new.items ≡ env.old.items) }
{
    for row in rows {
        let holds = true_at(alloc, tables, env, row, f)?;
        if holds {
            return Ok(true);
        }
    }
    Ok(false)
}

// Whether the formula is true at the atoms of no two of these tuples.
#[cycle(truth)]
fn true_for_at_most_one(
    alloc: Global,
    tables: &Tables,
    env: &mut Vec<Atom>,
    rows: &[Tuple],
    f: &Formula,
) -> Result<bool, AllocError>
    requires proper { IsProper (arities tables.now) (length env.old.items + 1) (formula_tree f.now) }
    requires single { All (λ row. length row ≡ 1) rows.now }
    ensures truth { IfOk result (λ b. IsTrue b ↔ AllPairs (AreNotBothTrue (tabled tables.now) (reverse env.old.items) (formula_tree f.now)) rows.now) }
    ensures env { IfOk result (λ _. env.new.items ≡ env.old.items) }
{
    let mut found = false;
    for row in rows {
        let holds = true_at(alloc, tables, env, row, f)?;
        if holds {
            if found {
                return Ok(false);
            }
            found = true;
        }
    }
    Ok(true)
}

// Whether the formula is true where the innermost variable is the atom of this tuple.
#[cycle(truth)]
fn true_at(
    alloc: Global,
    tables: &Tables,
    env: &mut Vec<Atom>,
    row: &Tuple,
    f: &Formula,
) -> Result<bool, AllocError>
    requires proper { IsProper (arities tables.now) (length env.old.items + 1) (formula_tree f.now) }
    requires single { length row.now ≡ 1 }
    ensures truth { IfOk result (λ b. IsTrue b ↔ IsTrueAt (tabled tables.now) (reverse env.old.items) (formula_tree f.now) row.now) }
    ensures env { IfOk result (λ _. env.new.items ≡ env.old.items) }
{
    env.push(row.first())?;
    let holds = truth(alloc, tables, env, f)?;
    env.pop();
    Ok(holds)
}

// Whether the values of the two expressions compare so.
fn compares(
    alloc: Global,
    tables: &Tables,
    env: &[Atom],
    comparison: Comparison,
    a: &Expression,
    b: &Expression,
) -> Result<bool, AllocError>
    requires left { IsWellFormed (arities tables.now) (length env.now) (expression_tree a.now) }
    requires right { IsWellFormed (arities tables.now) (length env.now) (expression_tree b.now) }
    ensures { IfOk result (λ is. IsTrue is ↔ Compares comparison (InValue (tabled tables.now) (reverse env.now) (expression_tree a.now)) (InValue (tabled tables.now) (reverse env.now) (expression_tree b.now))) }
{
    let left = value(alloc, tables, env, a)?;
    let right = value(alloc, tables, env, b)?;
    match comparison {
        Comparison::In => Ok(left.is_subset(&right)),
        Comparison::Equal => Ok(are_equal(&left, &right)),
    }
}

// Whether the sets have the same tuples.
fn are_equal(left: &TupleSet, right: &TupleSet) -> bool
    ensures { IsTrue result ↔ AreEqual (Contains left.now.rows) (Contains right.now.rows) }
{
    let within = left.is_subset(right);
    let around = right.is_subset(left);
    within && around
}

// Whether the value has so many tuples or more.
fn has_at_least(
    alloc: Global,
    tables: &Tables,
    env: &[Atom],
    n: u32,
    e: &Expression,
) -> Result<bool, AllocError>
    requires { IsWellFormed (arities tables.now) (length env.now) (expression_tree e.now) }
    ensures { IfOk result (λ is. IsTrue is ↔ HasAtLeast n (InValue (tabled tables.now) (reverse env.now) (expression_tree e.now))) }
{
    Ok(size(alloc, tables, env, e)? >= n as usize)
}

// How many tuples the value has. The set of a relation is counted where it is.
fn size(alloc: Global, tables: &Tables, env: &[Atom], e: &Expression) -> Result<usize, AllocError>
    requires { IsWellFormed (arities tables.now) (length env.now) (expression_tree e.now) }
    ensures { IfOk result (λ size. HasSize (InValue (tabled tables.now) (reverse env.now) (expression_tree e.now)) size) }
{
    match e {
        Expression::Rel(r) => Ok(count(&tables.values()[*r as usize])),
        _ => Ok(count(&value(alloc, tables, env, e)?)),
    }
}

// How many tuples there are.
fn count(set: &TupleSet) -> usize
    ensures { HasSize (Contains set.now.rows) result }
{
    set.rows().len()
}
