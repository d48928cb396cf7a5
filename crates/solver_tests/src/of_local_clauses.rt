// That the clauses are those worked out by hand.
use cnf_core::{Clause, Lit};
use rel_formula::{Expression, Formula, Problem};
use sample_problems::{chosen, set_of};
use std::alloc::{AllocError, Global};
use std::test::Fail;
use translation_rules::local_clauses::{absence_in, descent_locals, units_of};

// A literal as in DIMACS.
fn number_of(lit: &Lit) -> i64 {
    let var = i64::from(lit.var);
    if lit.positive { var } else { -var }
}

// Adds the literals of a clause, and 0 behind them.
fn add_numbers(numbers: &mut Vec<i64>, clause: &Clause) -> Result<(), AllocError> {
    for lit in clause.lits() {
        numbers.push(number_of(lit))?;
    }
    numbers.push(0)?;
    Ok(())
}

// Whether the clauses are these, each with 0 behind it.
fn are_listed(alloc: Global, clauses: &[Clause], numbers: &[i64]) -> Result<bool, AllocError> {
    let mut found = Vec::new(alloc);
    for clause in clauses {
        add_numbers(&mut found, clause)?;
    }
    Ok(found.as_slice() == numbers)
}

#[test]
fn two_units(rt: HostRuntime) -> Result<(), Fail> {
    let units = units_of(rt.alloc(), &[4, 0])?;
    assert!(rt; are_listed(rt.alloc(), units.as_slice(), &[5, 0, 1, 0])?);
    Ok(())
}

#[test]
fn no_units(rt: HostRuntime) -> Result<(), Fail> {
    let units = units_of(rt.alloc(), &[])?;
    assert!(rt; units.is_empty());
    Ok(())
}

#[test]
fn an_absence(rt: HostRuntime) -> Result<(), Fail> {
    let absence = absence_in(rt.alloc(), &[1, 3])?;
    assert!(rt; are_listed(rt.alloc(), &[absence], &[-2, -4, 0])?);
    Ok(())
}

#[test]
fn an_absence_in_no_cells(rt: HostRuntime) -> Result<(), Fail> {
    let absence = absence_in(rt.alloc(), &[])?;
    assert!(rt; absence.lits().is_empty());
    Ok(())
}

// Any set of four atoms, which has some.
fn four_cells(alloc: Global) -> Result<Problem, Fail> {
    set_of(
        alloc,
        &[0, 1, 2, 3],
        Formula::AtLeast(1, Expression::Rel(0)),
    )
}

// Whether the clauses of the descent from a scenario above a floor are these.
fn descends_by(
    alloc: Global,
    problem: &Problem,
    floor: &[u32],
    scenario: &[u32],
    numbers: &[i64],
) -> Result<bool, AllocError> {
    let floor = chosen(alloc, problem, floor)?;
    let scenario = chosen(alloc, problem, scenario)?;
    let local = descent_locals(alloc, problem, &floor, &scenario)?;
    are_listed(alloc, local.as_slice(), numbers)
}

// Of four cells the floor has the first, and the scenario the first and the third.
#[test]
fn one_descent(rt: HostRuntime) -> Result<(), Fail> {
    let problem = four_cells(rt.alloc())?;
    let first = [-2, 0, -4, 0, 1, 0, -3, 0];
    assert!(rt; descends_by(rt.alloc(), &problem, &[0], &[0, 2], &first)?);
    let last = [-2, 0, -3, 0, -4, 0, 1, 0, 0];
    assert!(rt; descends_by(rt.alloc(), &problem, &[0], &[0], &last)?);
    Ok(())
}
