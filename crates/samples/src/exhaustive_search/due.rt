// The scenarios that are due.
ghost use Rattle.std.specs.Prelude.{◌≡◌, ◌≢◌, ◌↔◌, ◌≤◌, [], ℕ, List, length, AllPairs, Contains, IfOk, IsTrue};
ghost use Rattle.rel_formula.specs.Bounds.{cells_of};
ghost use Rattle.rel_formula.specs.Instance.{IsInstance, Includes};
ghost use Rattle.swap_symmetry.specs.Due.{IsDue};

use crate::exhaustive_search::instances::instances_above;
use crate::exhaustive_search::minimal::is_minimal_among;
use rel_formula::{Problem, Scenario};
use std::alloc::{AllocError, Global};
use swap_symmetry::is_settled_beside;

/// The scenarios that are due at the empty floor, each once. The problem has at most 12 cells.
pub fn all_due(alloc: Global, problem: &Problem) -> Result<Vec<Scenario>, AllocError>
    requires { length (cells_of problem.now) ≤ 12 }
    ensures all { IfOk result (λ due. (s : List ℕ) → Contains due.items s ↔ IsDue problem.now [] s) }
    ensures once { IfOk result (λ due. AllPairs (λ s t. s ≢ t) due.items) }
    ensures few { IfOk result (λ due. length due.items ≤ 4096) }
{
    let bottom = Scenario::new(alloc);
    let due = all_due_at(alloc, problem, &bottom)?;
    Ok(due)
}

/// The scenarios that are due at a floor, each once. The problem has at most 12 cells.
pub fn all_due_at(
    alloc: Global,
    problem: &Problem,
    floor: &Scenario,
) -> Result<Vec<Scenario>, AllocError>
    requires { length (cells_of problem.now) ≤ 12 }
    ensures all { IfOk result (λ due. (s : List ℕ) → Contains due.items s ↔ IsDue problem.now floor.now s) }
    ensures once { IfOk result (λ due. AllPairs (λ s t. s ≢ t) due.items) }
    ensures few { IfOk result (λ due. length due.items ≤ 4096) }
{
    let instances = instances_above(alloc, problem, floor)?;
    let mut due = Vec::new(alloc);
    for scenario in &instances {
        if is_due(problem, floor, &instances, scenario) {
            due.push(scenario.copy(alloc)?)?;
        }
    }
    Ok(due)
}

// Whether an instance that contains the floor is minimal above it and settled beside it, where these are all that contain it.
fn is_due(problem: &Problem, floor: &Scenario, instances: &[Scenario], scenario: &Scenario) -> bool
    requires instances { (s : List ℕ) → Contains instances.now s ↔ (IsInstance problem.now s × Includes s floor.now) }
    requires one { IsInstance problem.now scenario.now }
    requires above { Includes scenario.now floor.now }
    ensures { IsTrue result ↔ IsDue problem.now floor.now scenario.now }
{
    is_minimal_among(instances, scenario) && is_settled_beside(problem, floor, scenario)
}
