// That the clauses can be satisfied exactly where no swap makes a scenario earlier: problems of a few cells, scenario by scenario.
use crate::valuations::is_satisfied;
use cnf_core::Cnf;
use rel_formula::{Expression, Formula, Problem};
use sample_problems::{at, scenario_of, set_between, two_sets_of};
use std::alloc::{AllocError, Global};
use std::process::Abort;
use std::test::Fail;
use swap_symmetry::is_settled;
use translation::swap_clauses::{swap_clauses, swap_clauses_of};
use tuple_core::Atom;

// Whether some valuation with these cells satisfies the formula.
fn can_be_satisfied(rt: &impl Abort, formula: &Cnf, cells: u32, bits: u32) -> Result<bool, Fail> {
    let vars = formula.vars();
    if cells >= 20 || vars >= 20 {
        return Err(Fail::new("too many variables"));
    }
    for valuation in 0..1u32 << vars {
        if valuation % (1u32 << cells) == bits && is_satisfied(rt, formula, valuation) {
            return Ok(true);
        }
    }
    Ok(false)
}

// The pairs of the atoms at these places.
fn swaps_of(alloc: Global, pairs: &[[u16; 2]]) -> Result<Vec<(Atom, Atom)>, AllocError> {
    let mut swaps = Vec::new(alloc);
    for pair in pairs {
        swaps.push((at(pair[0]), at(pair[1])))?;
    }
    Ok(swaps)
}

// The clauses of these pairs of places, with fresh variables behind those of the cells.
fn clauses_of(alloc: Global, problem: &Problem, pairs: &[[u16; 2]]) -> Result<Cnf, Fail> {
    let swaps = swaps_of(alloc, pairs)?;
    if swaps.len() > 64 {
        return Err(Fail::new("too many pairs"));
    }
    Ok(swap_clauses(alloc, problem, problem.cells() + 1, swaps.as_slice())?)
}

// Whether the clauses tell a settled scenario, of these bits, from one that isn't.
fn tells_at(
    rt: &impl Abort,
    alloc: Global,
    problem: &Problem,
    formula: &Cnf,
    bits: u32,
) -> Result<bool, Fail> {
    let scenario = scenario_of(alloc, problem, bits)?;
    Ok(can_be_satisfied(rt, formula, problem.cells(), bits)? == is_settled(problem, &scenario))
}

// Whether the clauses of these pairs, which are all neighbours, tell the settled scenarios from the others; the problem is to
// have so many cells.
fn tells_settled(
    rt: &impl Abort,
    alloc: Global,
    problem: &Problem,
    cells: u32,
    pairs: &[[u16; 2]],
) -> Result<bool, Fail> {
    if problem.cells() != cells || cells >= 20 {
        return Ok(false);
    }
    let formula = clauses_of(alloc, problem, pairs)?;
    for bits in 0..1u32 << cells {
        if !tells_at(rt, alloc, problem, &formula, bits)? {
            return Ok(false);
        }
    }
    Ok(true)
}

// A set of at least one atom between these bounds.
fn some_between(alloc: Global, lower: &[u16], upper: &[u16]) -> Result<Problem, Fail> {
    let some = Formula::AtLeast(1, Expression::Rel(0));
    set_between(alloc, lower, upper, some)
}

// Whether it is so for such a set.
fn tells_of_a_set(
    rt: &impl Abort,
    alloc: Global,
    lower: &[u16],
    upper: &[u16],
    cells: u32,
    pairs: &[[u16; 2]],
) -> Result<bool, Fail> {
    let problem = some_between(alloc, lower, upper)?;
    tells_settled(rt, alloc, &problem, cells, pairs)
}

// Whether it is so for any two sets of the atoms at these places.
fn tells_of_two_sets(
    rt: &impl Abort,
    alloc: Global,
    places: &[u16],
    cells: u32,
    pairs: &[[u16; 2]],
) -> Result<bool, Fail> {
    let problem = two_sets_of(alloc, places)?;
    tells_settled(rt, alloc, &problem, cells, pairs)
}

// The clauses of the swap of the first two of three atoms, with fresh variables from 7 on.
fn first_swap(alloc: Global) -> Result<Cnf, Fail> {
    let problem = some_between(alloc, &[], &[0, 1, 2])?;
    if problem.cells() != 3 {
        return Err(Fail::new("not three cells"));
    }
    Ok(swap_clauses_of(alloc, &problem, 7, at(0), at(1))?)
}

// Only the second of the two without the first gets earlier.
#[test]
fn one_swap(rt: HostRuntime) -> Result<(), Fail> {
    let formula = first_swap(rt.alloc())?;
    assert_eq!(rt; (formula.vars(), formula.len()), (8, 4));
    for bits in 0..8u32 {
        assert_eq!(rt;
            can_be_satisfied(&rt, &formula, 3, bits)?,
            bits % 4 != 2,
            "at {bits}"
        );
    }
    Ok(())
}

#[test]
fn two_sets(rt: HostRuntime) -> Result<(), Fail> {
    let alloc = rt.alloc();
    assert!(rt; tells_of_two_sets(&rt, alloc, &[0, 1], 4, &[[0, 1]])?);
    assert!(rt; tells_of_two_sets(&rt, alloc, &[0, 1, 2], 6, &[[0, 1], [1, 2]])?);
    Ok(())
}

#[test]
fn sets_of_atoms(rt: HostRuntime) -> Result<(), Fail> {
    let alloc = rt.alloc();
    assert!(rt; tells_of_a_set(&rt, alloc, &[], &[0, 1], 2, &[[0, 1]])?);
    assert!(rt; tells_of_a_set(&rt, alloc, &[], &[0, 2, 5], 3, &[[0, 2], [2, 5]])?);
    assert!(rt; tells_of_a_set(&rt, alloc, &[], &[0, 1, 2, 3], 4, &[[0, 1], [1, 2], [2, 3]])?);
    Ok(())
}

// A swap that takes a cell to none.
#[test]
fn bounds_that_a_swap_changes(rt: HostRuntime) -> Result<(), Fail> {
    assert!(rt; tells_of_a_set(&rt, rt.alloc(), &[0], &[0, 1, 2], 2, &[[0, 1], [1, 2]])?);
    Ok(())
}
