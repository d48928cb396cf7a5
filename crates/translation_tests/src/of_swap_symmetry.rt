// That the order and the settled scenarios are those of the field: a problem worked out by hand.
ghost use Rattle.rel_formula.specs.Renaming.{IsSymmetric};

use rel_formula::{Expression, Formula, Problem};
use sample_problems::{arrows, chosen, two_sets_of};
use std::alloc::{AllocError, Global};
use std::test::Fail;
use swap_symmetry::{
    SwapImages, earlier, is_settled, is_settled_beside, settle, settle_beside, settle_by,
};

// The atoms at these places, all of which are there, and any arrows among them.
fn arrows_among(alloc: Global, places: &[u16]) -> Result<Problem, Fail> {
    let some = Formula::AtLeast(2, Expression::Rel(1));
    arrows(alloc, places, places, some)
}

// Whether the scenario of these numbers is settled.
fn settled(alloc: Global, problem: &Problem, numbers: &[u32]) -> Result<bool, AllocError> {
    let scenario = chosen(alloc, problem, numbers)?;
    Ok(is_settled(problem, &scenario))
}

// Whether the second scenario is settled beside the first.
fn settled_beside(
    alloc: Global,
    problem: &Problem,
    floor: &[u32],
    numbers: &[u32],
) -> Result<bool, AllocError> {
    let floor = chosen(alloc, problem, floor)?;
    let scenario = chosen(alloc, problem, numbers)?;
    Ok(is_settled_beside(problem, &floor, &scenario))
}

// Whether the first scenario is earlier.
fn is_earlier(
    alloc: Global,
    problem: &Problem,
    first: &[u32],
    second: &[u32],
) -> Result<bool, AllocError> {
    let first = chosen(alloc, problem, first)?;
    let second = chosen(alloc, problem, second)?;
    Ok(earlier(problem, &first, &second))
}

// Whether each of these scenarios is settled or none is, as is wanted.
fn each_is(
    alloc: Global,
    problem: &Problem,
    sets: &[[u32; 2]],
    wanted: bool,
) -> Result<bool, AllocError> {
    for numbers in sets {
        if settled(alloc, problem, numbers)? != wanted {
            return Ok(false);
        }
    }
    Ok(true)
}

// Whether of the arrows among the atoms at these places, which are so many cells, the first scenarios are settled, and none of
// the others is.
fn are_told_apart(
    alloc: Global,
    places: &[u16],
    cells: u32,
    first: &[[u32; 2]],
    others: &[[u32; 2]],
) -> Result<bool, Fail> {
    let problem = arrows_among(alloc, places)?;
    if problem.cells() != cells {
        return Ok(false);
    }
    Ok(each_is(alloc, &problem, first, true)? && each_is(alloc, &problem, others, false)?)
}

// Three atoms in a row: of the six ways to put them, two are settled.
#[test]
fn rows_of_three(rt: HostRuntime) -> Result<(), Fail> {
    let settled = [[1, 5], [1, 6]];
    let others = [[2, 3], [2, 7], [3, 7], [5, 6]];
    assert!(rt; are_told_apart(rt.alloc(), &[0, 1, 2], 9, &settled, &others)?);
    Ok(())
}

// The atom at place 2 is the neighbour of that at place 5: between them there is no other.
#[test]
fn neighbours_with_a_gap(rt: HostRuntime) -> Result<(), Fail> {
    let settled = [[0, 0], [1, 1], [0, 3]];
    let others = [[2, 2], [3, 3]];
    assert!(rt; are_told_apart(rt.alloc(), &[2, 5], 4, &settled, &others)?);
    Ok(())
}

// Whether the arrows among three atoms of these numbers are settled beside one arrow.
fn settled_beside_one(alloc: Global, floor: u32, numbers: &[u32]) -> Result<bool, Fail> {
    let problem = arrows_among(alloc, &[0, 1, 2])?;
    Ok(settled_beside(alloc, &problem, &[floor], numbers)?)
}

// Beside a floor only atoms that stand in none of its cells are swapped.
#[test]
fn beside_a_floor(rt: HostRuntime) -> Result<(), Fail> {
    for (floor, other, settled) in [(8, 4, false), (8, 0, true), (4, 8, true), (0, 8, false)] {
        let found = settled_beside_one(rt.alloc(), floor, &[floor, other])?;
        assert_eq!(rt; found, settled, "{other} beside {floor}");
    }
    Ok(())
}

// Whether the arrows of the first numbers among three atoms are earlier than those of the others.
fn are_earlier(alloc: Global, first: &[u32], second: &[u32]) -> Result<bool, Fail> {
    let problem = arrows_among(alloc, &[0, 1, 2])?;
    Ok(is_earlier(alloc, &problem, first, second)?)
}

#[test]
fn order(rt: HostRuntime) -> Result<(), Fail> {
    let alloc = rt.alloc();
    assert!(rt; are_earlier(alloc, &[1, 5], &[1, 6])?);
    assert!(rt; !are_earlier(alloc, &[1, 6], &[1, 5])?);
    assert!(rt; !are_earlier(alloc, &[1, 6], &[1, 6])?);
    assert!(rt; are_earlier(alloc, &[1, 6], &[1])?);
    Ok(())
}

// Whether the scenario of the first numbers, made settled, is that of the others.
fn becomes(
    alloc: Global,
    problem: &Problem,
    numbers: &[u32],
    wanted: &[u32],
) -> Result<bool, AllocError>
    requires { IsSymmetric problem.now }
{
    let mut scenario = chosen(alloc, problem, numbers)?;
    settle(problem, &mut scenario);
    Ok(scenario.numbers() == wanted)
}

// Whether the second scenario, made settled beside the first, is the third, and so by the table of images.
fn becomes_beside(
    alloc: Global,
    problem: &Problem,
    floor: &[u32],
    numbers: &[u32],
    wanted: &[u32],
) -> Result<bool, AllocError>
    requires { IsSymmetric problem.now }
{
    let floor = chosen(alloc, problem, floor)?;
    let mut scenario = chosen(alloc, problem, numbers)?;
    settle_beside(problem, &floor, &mut scenario);
    let images = SwapImages::of(alloc, problem)?;
    let mut other = chosen(alloc, problem, numbers)?;
    settle_by(problem, &images, &floor, &mut other);
    Ok(scenario.numbers() == wanted && other.numbers() == wanted)
}

// Whether it is so for two sets, P and Q, of the atoms at these places: the cells are P of the atoms, and then Q of the atoms.
fn settles(alloc: Global, places: &[u16], numbers: &[u32], wanted: &[u32]) -> Result<bool, Fail> {
    let problem = two_sets_of(alloc, places)?;
    Ok(becomes(alloc, &problem, numbers, wanted)?)
}

// And beside one cell of the sets of three atoms.
fn settles_beside(
    alloc: Global,
    floor: u32,
    numbers: &[u32],
    wanted: &[u32],
) -> Result<bool, Fail> {
    let problem = two_sets_of(alloc, &[0, 1, 2])?;
    Ok(becomes_beside(alloc, &problem, &[floor], numbers, wanted)?)
}

// Whether the scenario of the sets of two atoms is settled.
fn is_settled_of_two(alloc: Global, numbers: &[u32]) -> Result<bool, Fail> {
    let problem = two_sets_of(alloc, &[0, 1])?;
    Ok(settled(alloc, &problem, numbers)?)
}

#[test]
fn settled_two_sets(rt: HostRuntime) -> Result<(), Fail> {
    assert!(rt; is_settled_of_two(rt.alloc(), &[0, 3])?);
    assert!(rt; !is_settled_of_two(rt.alloc(), &[3])?);
    Ok(())
}

#[test]
fn settling_two_sets(rt: HostRuntime) -> Result<(), Fail> {
    assert!(rt; settles(rt.alloc(), &[0, 1], &[3], &[2])?);
    assert!(rt; settles(rt.alloc(), &[0, 1], &[0, 3], &[0, 3])?);
    Ok(())
}

// Three swaps, one after another.
#[test]
fn settling_step_by_step(rt: HostRuntime) -> Result<(), Fail> {
    assert!(rt; settles(rt.alloc(), &[0, 1, 2], &[2, 4], &[0, 4])?);
    assert!(rt; settles(rt.alloc(), &[0, 1, 2], &[1, 2, 5], &[0, 1, 3])?);
    Ok(())
}

// Atoms that stand in the floor stay where they are.
#[test]
fn settling_beside_a_floor(rt: HostRuntime) -> Result<(), Fail> {
    let alloc = rt.alloc();
    assert!(rt; settles_beside(alloc, 0, &[0, 5], &[0, 4])?);
    assert!(rt; settles_beside(alloc, 1, &[1, 5], &[1, 5])?);
    assert!(rt; settles_beside(alloc, 2, &[2, 4], &[2, 3])?);
    Ok(())
}
