// What some instance has.
ghost use Rattle.std.specs.Prelude.{◌↔◌, ◌<◌, ◌≤◌, length, IfOk, IsTrue};
ghost use Rattle.rel_formula.specs.Bounds.{cells_of};
ghost use Rattle.translation_rules.specs.Offers.{AreOffers, IsOffer, IsPossible};

use crate::exhaustive_search::instances::instances_above;
use rel_formula::{Problem, Scenario};
use std::alloc::{AllocError, Global};

/// Whether some instance contains the floor. The problem has at most 12 cells.
pub fn has_instance_above(
    alloc: Global,
    problem: &Problem,
    floor: &Scenario,
) -> Result<bool, AllocError>
    requires { length (cells_of problem.now) ≤ 12 }
    ensures { IfOk result (λ has. IsTrue has ↔ IsPossible problem.now floor.now) }
{
    let instances = instances_above(alloc, problem, floor)?;
    Ok(!instances.is_empty())
}

/// The cells outside the scenario that some instance has with it, in order. The problem has at most 12 cells.
pub fn all_offers(
    alloc: Global,
    problem: &Problem,
    scenario: &Scenario,
) -> Result<Vec<u32>, AllocError>
    requires { length (cells_of problem.now) ≤ 12 }
    ensures { IfOk result (λ cells. AreOffers problem.now scenario.now cells.items) }
{
    let mut cells = Vec::new(alloc);
    for cell in 0..problem.cells() {
        if is_offer(alloc, problem, scenario, cell)? {
            cells.push(cell)?;
        }
    }
    Ok(cells)
}

// Whether the scenario does not have the cell, and some instance has it with the scenario.
fn is_offer(
    alloc: Global,
    problem: &Problem,
    scenario: &Scenario,
    cell: u32,
) -> Result<bool, AllocError>
    requires few { length (cells_of problem.now) ≤ 12 }
    requires cell { cell < length (cells_of problem.now) }
    ensures { IfOk result (λ is. IsTrue is ↔ IsOffer problem.now scenario.now cell) }
{
    if scenario.has(cell) {
        return Ok(false);
    }
    let mut with = scenario.copy(alloc)?;
    with.insert(cell)?;
    let possible = has_instance_above(alloc, problem, &with)?;
    Ok(possible)
}
