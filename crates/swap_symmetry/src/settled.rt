// Settled scenarios.
ghost use Rattle.std.specs.Prelude.{◌≡◌, ◌↔◌, ◌<◌, ℕ, List, map, length, slice_get, Some, None, All, Contains, IsTrue, IfSome};
ghost use Rattle.tuple_core.specs.declared.atom.Atom.{Atom as AtomRecord};
ghost use Rattle.rel_formula.specs.Bounds.{IsProblem, cell_of, cells_of};
ghost use Rattle.rel_formula.specs.Instance.{StandsIn};
ghost use Rattle.swap_symmetry.specs.Images.{pair_in, IsSwapRow, AreImages};
ghost use Rattle.swap_symmetry.specs.Swaps.{AreNeighbours, IsTakenInto, SwapIsEarlier, IsFreeOf, IsSettled, IsSettledBeside};

use crate::images::{SwapImages, SwapRow, image_of};
use rel_formula::{Problem, Scenario};
use tuple_core::Atom;

/// Whether no swap of two neighbouring atoms of one top-level signature makes the scenario earlier.
pub fn is_settled(problem: &Problem, scenario: &Scenario) -> bool
    ensures { IsTrue result ↔ IsSettled problem.now scenario.now }
{
    is_settled_without(problem, None, &[], scenario)
}

/// Whether no swap of two neighbouring atoms that stand in no cell of the floor makes the scenario earlier.
pub fn is_settled_beside(problem: &Problem, floor: &Scenario, scenario: &Scenario) -> bool
    ensures { IsTrue result ↔ IsSettledBeside problem.now floor.now scenario.now }
{
    is_settled_without(problem, None, floor.numbers(), scenario)
}

/// Whether no swap of two neighbouring atoms that stand in no cell of the floor makes the scenario earlier, by the problem's table.
pub fn is_settled_by(
    problem: &Problem,
    images: &SwapImages,
    floor: &Scenario,
    scenario: &Scenario,
) -> bool
    requires images { AreImages problem.now images.now }
    ensures { IsTrue result ↔ IsSettledBeside problem.now floor.now scenario.now }
{
    is_settled_without(problem, Some(images), floor.numbers(), scenario)
}

// Whether no swap of neighbours that stand in none of these cells makes the scenario earlier.
fn is_settled_without(
    problem: &Problem,
    images: Option<&SwapImages>,
    floor: &[u32],
    scenario: &Scenario,
) -> bool
    requires images { IfSome images (λ table. AreImages problem.now table.now) }
    ensures { IsTrue result ↔ IsSettledBeside problem.now floor.now scenario.now }
{
    earlier_swap(problem, images, floor, scenario).is_none()
}

// A swap of neighbours that stand in none of these cells, which makes the scenario earlier, if there is one. It is looked for in
// the table, where that is given.
pub(crate) fn earlier_swap(
    problem: &Problem,
    images: Option<&SwapImages>,
    floor: &[u32],
    scenario: &Scenario,
) -> Option<(Atom, Atom)>
    requires images { IfSome images (λ table. AreImages problem.now table.now) }
    ensures well { IsProblem problem.now }
    ensures some { IfSome result (λ pair. AreNeighbours problem.now pair.0 pair.1 × IsFreeOf problem.now floor.now pair.0 pair.1 × SwapIsEarlier problem.now pair.0 pair.1 (Contains scenario.now)) }
    ensures none { (result ≡ None) → IsSettledBeside problem.now floor.now scenario.now }
{
    match images {
        Some(images) => earlier_row(problem, images.rows(), floor, scenario),
        None => earlier_neighbours(problem, floor, scenario),
    }
}

// Such a swap among those of the rows of the problem's table.
fn earlier_row(
    problem: &Problem,
    rows: &[SwapRow],
    floor: &[u32],
    scenario: &Scenario,
) -> Option<(Atom, Atom)>
    requires exactly { (a b : AtomRecord) → Contains (map pair_in rows.now) (a, b) ↔ AreNeighbours problem.now a b }
    requires rows { All (IsSwapRow problem.now) rows.now }
    ensures well { IsProblem problem.now }
    ensures some { IfSome result (λ pair. AreNeighbours problem.now pair.0 pair.1 × IsFreeOf problem.now floor.now pair.0 pair.1 × SwapIsEarlier problem.now pair.0 pair.1 (Contains scenario.now)) }
    ensures none { (result ≡ None) → IsSettledBeside problem.now floor.now scenario.now }
{
    let _ = problem.relations(); // for the proof
    for row in rows {
        if free_swap_is_earlier(problem, Some(row), floor, scenario, row.first, row.second) {
            return Some((row.first, row.second));
        }
    }
    None
}

// Such a swap among those of atoms that stand one after the other.
fn earlier_neighbours(problem: &Problem, floor: &[u32], scenario: &Scenario) -> Option<(Atom, Atom)>
    ensures well { IsProblem problem.now }
    ensures some { IfSome result (λ pair. AreNeighbours problem.now pair.0 pair.1 × IsFreeOf problem.now floor.now pair.0 pair.1 × SwapIsEarlier problem.now pair.0 pair.1 (Contains scenario.now)) }
    ensures none { (result ≡ None) → IsSettledBeside problem.now floor.now scenario.now }
{
    let atoms = problem.atoms().rows();
    for place in 1..atoms.len() {
        let first = atoms[place - 1].first();
        let second = atoms[place].first();
        if first.top == second.top
            && free_swap_is_earlier(problem, None, floor, scenario, first, second)
        {
            return Some((first, second));
        }
    }
    None
}

// Whether the swap, whose row may be given, leaves the floor alone and makes the scenario earlier.
fn free_swap_is_earlier(
    problem: &Problem,
    row: Option<&SwapRow>,
    floor: &[u32],
    scenario: &Scenario,
    first: Atom,
    second: Atom,
) -> bool
    requires row { IfSome row (λ r. (pair_in r.now ≡ (first, second)) × IsSwapRow problem.now r.now) }
    ensures { IsTrue result ↔ (IsFreeOf problem.now floor.now first second × SwapIsEarlier problem.now first second (Contains scenario.now)) }
{
    !stands_in(problem, floor, first)
        && !stands_in(problem, floor, second)
        && swap_is_earlier(problem, row, scenario, first, second)
}

// Whether the atom stands in one of these cells.
fn stands_in(problem: &Problem, numbers: &[u32], atom: Atom) -> bool
    ensures { IsTrue result ↔ StandsIn problem.now numbers.now atom }
{
    for number in numbers {
        if cell_has(problem, *number, atom) {
            return true;
        }
    }
    false
}

// Whether there is a cell of this number, and the atom stands in it.
fn cell_has(problem: &Problem, number: u32, atom: Atom) -> bool
    ensures { IsTrue result ↔ ((r : ℕ) × (t : List AtomRecord) × (slice_get (cells_of problem.now) number ≡ Some (cell_of r t)) × Contains t atom) }
{
    let cells = problem.all_cells();
    (number as usize) < cells.len() && cells[number as usize].tuple.atoms().contains(&atom)
}

// Whether the swap makes the scenario earlier.
fn swap_is_earlier(
    problem: &Problem,
    row: Option<&SwapRow>,
    scenario: &Scenario,
    first: Atom,
    second: Atom,
) -> bool
    requires row { IfSome row (λ r. (pair_in r.now ≡ (first, second)) × IsSwapRow problem.now r.now) }
    ensures { IsTrue result ↔ SwapIsEarlier problem.now first second (Contains scenario.now) }
{
    for number in 0..problem.cells() {
        let here = is_taken_into(problem, row, scenario, first, second, number);
        if here != scenario.has(number) {
            return here;
        }
    }
    false
}

// Whether the swap takes the cell of this number to one that the scenario has.
fn is_taken_into(
    problem: &Problem,
    row: Option<&SwapRow>,
    scenario: &Scenario,
    first: Atom,
    second: Atom,
    number: u32,
) -> bool
    requires row { IfSome row (λ r. (pair_in r.now ≡ (first, second)) × IsSwapRow problem.now r.now) }
    requires number { number < length (cells_of problem.now) }
    ensures { IsTrue result ↔ IsTakenInto problem.now first second (Contains scenario.now) number }
{
    match image_of(problem, row, first, second, number) {
        Some(taken) => scenario.has(taken),
        None => false,
    }
}
