// The instances of a problem with few cells.
ghost use Rattle.std.specs.Prelude.{◌≢◌, ◌↔◌, ◌≤◌, ℕ, List, length, AllPairs, Contains, IfOk};
ghost use Rattle.rel_formula.specs.Bounds.{cells_of};
ghost use Rattle.rel_formula.specs.Instance.{IsInstance, Includes};

use crate::exhaustive_search::minimal::includes;
use crate::exhaustive_search::subsets::all_subsets;
use rel_formula::{Problem, Scenario, holds};
use std::alloc::{AllocError, Global};

/// The instances that contain the floor, each once. The problem has at most 12 cells.
pub fn instances_above(
    alloc: Global,
    problem: &Problem,
    floor: &Scenario,
) -> Result<Vec<Scenario>, AllocError>
    requires { length (cells_of problem.now) ≤ 12 }
    ensures all { IfOk result (λ instances. (s : List ℕ) → Contains instances.items s ↔ (IsInstance problem.now s × Includes s floor.now)) }
    ensures once { IfOk result (λ instances. AllPairs (λ s t. s ≢ t) instances.items) }
    ensures few { IfOk result (λ instances. length instances.items ≤ 4096) }
{
    let all = all_instances(alloc, problem)?;
    let mut above = Vec::new(alloc);
    for scenario in &all {
        if includes(scenario, floor) {
            above.push(scenario.copy(alloc)?)?;
        }
    }
    Ok(above)
}

/// All instances, each once. The problem has at most 12 cells.
pub fn all_instances(alloc: Global, problem: &Problem) -> Result<Vec<Scenario>, AllocError>
    requires { length (cells_of problem.now) ≤ 12 }
    ensures all { IfOk result (λ instances. (s : List ℕ) → Contains instances.items s ↔ IsInstance problem.now s) }
    ensures once { IfOk result (λ instances. AllPairs (λ s t. s ≢ t) instances.items) }
    ensures few { IfOk result (λ instances. length instances.items ≤ 4096) }
{
    let sets = all_subsets(alloc, problem.cells())?;
    let mut instances = Vec::new(alloc);
    for scenario in &sets {
        if holds(alloc, problem, scenario)? {
            instances.push(scenario.copy(alloc)?)?;
        }
    }
    Ok(instances)
}
