// What is asked of a number of sets of the same atoms, relations 1 and on; relation 0 has all of the atoms.
ghost use Rattle.std.specs.Prelude.{◌+◌, ◌≤◌, All, IfOk, OnOk};
ghost use Rattle.rel_formula.specs.View.{formula_tree};
ghost use Rattle.bench_search.specs.Sets.{IsAbout, IsAsked};

use rel_formula::{Comparison, Expression, Formula};
use std::alloc::{AllocError, Global};
use tuple_core::Operator;

/// Of each two sets one is in the other; the first four are not empty, and no two of them are equal; and the first and the
/// last share no atom.
pub fn asked(alloc: Global, sets: u8) -> Result<Formula, AllocError>
    requires some { 5 ≤ sets }
    requires few { sets ≤ 20 }
    ensures { IfOk result (λ f. IsAsked (sets + 1) (formula_tree f)) }
{
    let mut parts = Vec::new(alloc);
    for set in 1..sets + 1 {
        add_comparisons(alloc, &mut parts, set, sets)?;
    }
    for set in 1..5 {
        parts.push(Formula::AtLeast(1, Expression::Rel(set)))?;
        add_differences(alloc, &mut parts, set, sets)?;
    }
    parts.push(apart(alloc, 1, sets, sets)?)?;
    Ok(all_of(parts, sets))
}

// Each of these is true.
fn all_of(parts: Vec<Formula>, sets: u8) -> Formula
    requires { All (λ f. IsAbout (sets + 1) (formula_tree f)) parts.items }
    ensures { IsAbout (sets + 1) (formula_tree result) }
{
    let _sets = sets; // for the proof
    Formula::all_of(parts)
}

// Adds that the set is in each later one, or that one in it.
fn add_comparisons(
    alloc: Global,
    parts: &mut Vec<Formula>,
    set: u8,
    sets: u8,
) -> Result<(), AllocError>
    requires few { sets ≤ 20 }
    requires set { set ≤ sets }
    requires parts { All (λ f. IsAbout (sets + 1) (formula_tree f)) parts.old.items }
    ensures { OnOk result (All (λ f. IsAbout (sets + 1) (formula_tree f)) parts.new.items) }
{
    for other in set + 1..sets + 1 {
        parts.push(comparable(alloc, set, other, sets)?)?;
    }
    Ok(())
}

// Adds that the set isn't equal to a later one of the first four.
fn add_differences(
    alloc: Global,
    parts: &mut Vec<Formula>,
    set: u8,
    sets: u8,
) -> Result<(), AllocError>
    requires some { 5 ≤ sets }
    requires few { sets ≤ 20 }
    requires set { set ≤ 4 }
    requires parts { All (λ f. IsAbout (sets + 1) (formula_tree f)) parts.old.items }
    ensures { OnOk result (All (λ f. IsAbout (sets + 1) (formula_tree f)) parts.new.items) }
{
    for other in set + 1..5 {
        parts.push(different(alloc, set, other, sets)?)?;
    }
    Ok(())
}

// One of the sets is in the other.
fn comparable(alloc: Global, one: u8, other: u8, sets: u8) -> Result<Formula, AllocError>
    requires one { one ≤ sets }
    requires other { other ≤ sets }
    ensures { IfOk result (λ f. IsAbout (sets + 1) (formula_tree f)) }
{
    let _sets = sets; // for the proof
    let up = Formula::Compared(Comparison::In, Expression::Rel(one), Expression::Rel(other));
    let down = Formula::Compared(Comparison::In, Expression::Rel(other), Expression::Rel(one));
    let either = vec![in alloc; up, down]?;
    Ok(Formula::any_of(either))
}

// The sets are not equal.
fn different(alloc: Global, one: u8, other: u8, sets: u8) -> Result<Formula, AllocError>
    requires one { one ≤ sets }
    requires other { other ≤ sets }
    ensures { IfOk result (λ f. IsAbout (sets + 1) (formula_tree f)) }
{
    let _sets = sets; // for the proof
    let equal = Formula::Compared(
        Comparison::Equal,
        Expression::Rel(one),
        Expression::Rel(other),
    );
    Ok(Formula::Not(Box::new(alloc, equal)?))
}

// The sets share no atom.
fn apart(alloc: Global, one: u8, other: u8, sets: u8) -> Result<Formula, AllocError>
    requires one { one ≤ sets }
    requires other { other ≤ sets }
    ensures { IfOk result (λ f. IsAbout (sets + 1) (formula_tree f)) }
{
    let _sets = sets; // for the proof
    let left = Box::new(alloc, Expression::Rel(one))?;
    let right = Box::new(alloc, Expression::Rel(other))?;
    let shared = Formula::AtLeast(1, Expression::Binary(Operator::Meet, left, right));
    Ok(Formula::Not(Box::new(alloc, shared)?))
}
