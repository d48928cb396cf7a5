// That the definitions are those of the field: small sets and problems, worked out by hand.
ghost use Rattle.std.specs.Prelude.{◌≡◌, ◌∷◌, [], IfOk, IsTrue};
ghost use Rattle.rel_formula.specs.Bounds.{IsAtomOf};
ghost use Rattle.rel_formula.specs.Instance.{AreCells};
ghost use Rattle.rel_formula.specs.Renaming.{IsSymmetric};
ghost use Rattle.rel_formula.specs.Shape.{IsProper};
ghost use Rattle.rel_formula.specs.View.{formula_tree};

use rel_formula::{Cell, Expression, Formula, Problem, Scenario, Tables, holds};
use sample_problems::{at, atoms, chosen, set_between, set_of, truism};
use std::alloc::{AllocError, Global};
use std::process::Abort;
use std::test::Fail;
use tuple_core::{Atom, Tuple};

// Whether the chosen scenario is an instance.
fn is_instance(alloc: Global, problem: &Problem, numbers: &[u32]) -> Result<bool, AllocError> {
    let scenario = chosen(alloc, problem, numbers)?;
    holds(alloc, problem, &scenario)
}

// Whether these scenarios are instances.
fn has_instances(
    rt: &impl Abort,
    alloc: Global,
    problem: &Problem,
    rows: &[([u32; 2], bool)],
) -> Result<(), Fail> {
    for (numbers, expected) in rows {
        assert_eq!(*rt; is_instance(alloc, problem, numbers)?, *expected);
    }
    Ok(())
}

// The same of a set of atoms between these bounds, and a formula about it.
fn has_instances_between(
    rt: &impl Abort,
    alloc: Global,
    bounds: (&[u16], &[u16]),
    formula: Formula,
    rows: &[([u32; 2], bool)],
) -> Result<(), Fail>
    requires { IsProper (1 ∷ []) 0 (formula_tree formula) }
{
    let (lower, upper) = bounds;
    let problem = set_between(alloc, lower, upper, formula)?;
    has_instances(rt, alloc, &problem, rows)
}

#[test]
fn instances_of_a_formula(rt: HostRuntime) -> Result<(), Fail> {
    let some = Formula::AtLeast(1, Expression::Rel(0));
    let rows = [
        ([7, 7], false),
        ([7, 0], true),
        ([1, 7], true),
        ([1, 0], true),
    ];
    has_instances_between(&rt, rt.alloc(), (&[], &[0, 1]), some, &rows)
}

#[test]
fn instances_of_no_formula(rt: HostRuntime) -> Result<(), Fail> {
    let all = truism(rt.alloc());
    let rows = [
        ([7, 7], true),
        ([7, 0], true),
        ([1, 7], true),
        ([1, 0], true),
    ];
    has_instances_between(&rt, rt.alloc(), (&[], &[0, 1]), all, &rows)
}

#[test]
fn instances_above_a_lower_bound(rt: HostRuntime) -> Result<(), Fail> {
    let two = Formula::AtLeast(2, Expression::Univ);
    let rows = [
        ([7, 7], false),
        ([7, 0], true),
        ([1, 7], true),
        ([1, 0], true),
    ];
    has_instances_between(&rt, rt.alloc(), (&[0], &[0, 1, 2]), two, &rows)
}

// Any set of three atoms, from place 2 to 4, that has the last one and at least so many of them.
fn set_with_one(alloc: Global, least: u32) -> Result<Problem, Fail> {
    let formula = Formula::AtLeast(least, Expression::Rel(0));
    set_between(alloc, &[4], &[2, 3, 4], formula)
}

fn has_parts(rt: &impl Abort, alloc: Global, problem: &Problem) -> Result<(), Fail> {
    assert_eq!(*rt;
        (
            problem.cells(),
            problem.all_cells().len(),
            problem.tops().len(),
            problem.relations().len()
        ),
        (2, 2, 1, 1)
    );
    assert!(*rt; *problem.atoms() == atoms(alloc, &[2, 3, 4])?);
    Ok(())
}

fn tuples_have_numbers_of_cells(rt: &impl Abort, problem: &Problem) {
    for (place, number) in [(2, Some(0)), (3, Some(1)), (4, None), (5, None)] {
        let tuple = Tuple::single(at(place));
        assert_eq!(*rt; problem.number_of(&Cell { relation: 0, tuple }), number);
    }
}

fn cells_have_their_numbers(rt: &impl Abort, problem: &Problem) {
    for number in 0..problem.cells() {
        assert_eq!(*rt; problem.number_of(&problem.cell(number)), Some(number));
    }
}

fn has_cells(rt: &impl Abort, alloc: Global, problem: &Problem) -> Result<(), Fail> {
    tuples_have_numbers_of_cells(rt, problem);
    cells_have_their_numbers(rt, problem);
    has_parts(rt, alloc, problem)
}

#[test]
fn a_problem_has_its_cells(rt: HostRuntime) -> Result<(), Fail> {
    let problem = set_with_one(rt.alloc(), 0)?;
    has_cells(&rt, rt.alloc(), &problem)
}

// Whether a copy of such a problem has the same parts.
fn is_copied(
    rt: &impl Abort,
    alloc: Global,
    problem: &Problem,
    copy: &Problem,
) -> Result<(), Fail> {
    let names = (copy.relations().first(), problem.relations().first());
    assert!(*rt; matches!(names, (Some(of), Some(from)) if of.name == from.name));
    has_cells(rt, alloc, copy)?;
    has_instances(rt, alloc, copy, &[([0, 0], true), ([7, 7], false)])
}

fn copies(rt: &impl Abort, alloc: Global, problem: &Problem) -> Result<(), Fail> {
    let copy = problem.copy(alloc)?;
    is_copied(rt, alloc, problem, &copy)
}

#[test]
fn a_copy_has_the_same_parts(rt: HostRuntime) -> Result<(), Fail> {
    let problem = set_with_one(rt.alloc(), 2)?;
    copies(&rt, rt.alloc(), &problem)
}

// Any set of the atoms at places 1 and 4, with at least one of them.
fn any_of_two(alloc: Global) -> Result<Problem, Fail>
    ensures { IfOk result IsSymmetric }
{
    set_of(alloc, &[1, 4], Formula::AtLeast(1, Expression::Rel(0)))
}

fn swaps_cells(rt: &impl Abort, problem: &Problem) {
    assert!(*rt; problem.cells() == 2);
    let both = problem.swapped(0, at(1), at(4));
    let neither = problem.swapped(1, at(1), at(7));
    let outside = problem.swapped(0, at(1), at(7));
    assert_eq!(*rt; (both, neither, outside), (Some(1), Some(1), None));
}

#[test]
fn swapped_cells(rt: HostRuntime) -> Result<(), Fail> {
    let problem = any_of_two(rt.alloc())?;
    swaps_cells(&rt, &problem);
    Ok(())
}

// Whether the atom is one of the problem.
fn has_atom(problem: &Problem, atom: Atom) -> bool
    ensures { IsTrue result → IsAtomOf problem.now atom }
{
    problem.atoms().contains(&Tuple::single(atom))
}

// Exchanges two atoms of the problem. It fails where one isn't there.
fn exchange(
    scenario: &mut Scenario,
    problem: &Problem,
    first: Atom,
    second: Atom,
) -> Result<(), Fail>
    requires cells { AreCells problem.now scenario.old }
    requires symmetric { IsSymmetric problem.now }
    requires tops { first.top ≡ second.top }
{
    if !has_atom(problem, first) {
        return Err(Fail::new("no first atom"));
    }
    if !has_atom(problem, second) {
        return Err(Fail::new("no second atom"));
    }
    scenario.swap_atoms(problem, first, second);
    Ok(())
}

// A chosen scenario of that problem, with its two atoms exchanged.
fn exchanged(alloc: Global, numbers: &[u32]) -> Result<Scenario, Fail> {
    let problem = any_of_two(alloc)?;
    let mut scenario = chosen(alloc, &problem, numbers)?;
    exchange(&mut scenario, &problem, at(1), at(4))?;
    Ok(scenario)
}

#[test]
fn swapped_scenarios(rt: HostRuntime) -> Result<(), Fail> {
    let scenario = exchanged(rt.alloc(), &[1])?;
    assert_eq!(rt; scenario.numbers(), [0].as_slice());
    let scenario = exchanged(rt.alloc(), &[0, 1])?;
    assert_eq!(rt; scenario.numbers(), [0, 1].as_slice());
    Ok(())
}

// The scenario that comes of these numbers, where each is new or not.
fn inserted(
    rt: &impl Abort,
    alloc: Global,
    numbers: &[(u32, bool)],
) -> Result<Scenario, AllocError> {
    let mut scenario = Scenario::new(alloc);
    assert!(rt; scenario.is_empty());
    for (number, is_new) in numbers {
        assert_eq!(*rt; scenario.insert(*number)?, *is_new);
    }
    Ok(scenario)
}

#[test]
fn scenarios(rt: HostRuntime) -> Result<(), Fail> {
    let numbers = [(5, true), (2, true), (5, false), (9, true)];
    let scenario = inserted(&rt, rt.alloc(), &numbers)?;
    assert_eq!(rt;
        (scenario.len(), scenario.has(5), scenario.has(6)),
        (3, true, false)
    );
    let copy = scenario.copy(rt.alloc())?;
    assert_eq!(rt; copy.numbers(), [2, 5, 9].as_slice());
    Ok(())
}

#[test]
fn told_tables(rt: HostRuntime) -> Result<(), Fail> {
    let values = vec![in rt.alloc(); atoms(rt.alloc(), &[0, 1])?]?;
    let tables = Tables::new(values, atoms(rt.alloc(), &[0, 1, 2])?);
    assert_eq!(rt; (tables.values().len(), tables.universe().len()), (1, 3));
    Ok(())
}
