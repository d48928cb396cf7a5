// The clauses of one search of a descent.
ghost use Rattle.std.specs.Prelude.{◌≡◌, ◌<◌, ◌≤◌, ◌++◌, ◌∷◌, [], map, IfOk, OnOk};
ghost use Rattle.std.specs.List.{range_with_len};
ghost use Rattle.cnf_core.specs.Literal.{negation_of};
ghost use Rattle.rel_formula.specs.Instance.{AreCells};
ghost use Rattle.translation_rules.specs.Locals.{literal_of};
ghost use Rattle.translation_rules.specs.Descents as spec;

use crate::local_clauses::clauses::{absence_in, absent, add_units, clause_of};
use cnf_core::Clause;
use rel_formula::{Problem, Scenario};
use std::alloc::{AllocError, Global};

/// The clauses which say that a scenario has the floor's cells and is a proper part of this one: each cell outside is absent,
/// each cell of the floor is there, and some other cell is absent. Floor and scenario are of the problem's cells.
pub fn descent_locals(
    alloc: Global,
    problem: &Problem,
    floor: &Scenario,
    scenario: &Scenario,
) -> Result<Vec<Clause>, AllocError>
    requires floor { AreCells problem.now floor.now }
    requires scenario { AreCells problem.now scenario.now }
    ensures { IfOk result (λ clauses. clauses.items ≡ spec.descent_locals problem.now floor.now scenario.now) }
{
    let mut clauses = Vec::new(alloc);
    add_absences(alloc, &mut clauses, problem.cells(), scenario)?;
    add_units(alloc, &mut clauses, floor.numbers())?;
    let others = outside(alloc, floor, scenario.numbers())?;
    clauses.push(absence_in(alloc, others.as_slice())?)?;
    Ok(clauses)
}

// Adds for each cell below a number and outside a scenario the clause which says that it is absent.
fn add_absences(
    alloc: Global,
    clauses: &mut Vec<Clause>,
    cells: u32,
    scenario: &Scenario,
) -> Result<(), AllocError>
    requires { cells ≤ 4096 }
    ensures { OnOk result (clauses.new.items ≡ clauses.old.items ++ map (λ cell. negation_of (literal_of cell) ∷ []) (spec.outside scenario.now (range_with_len 0 cells))) }
{
    for cell in 0..cells {
        if !scenario.has(cell) {
            clauses.push(clause_of(alloc, &[absent(cell)])?)?;
        }
    }
    Ok(())
}

// Those of these cells that the scenario has not.
fn outside(alloc: Global, scenario: &Scenario, cells: &[u32]) -> Result<Vec<u32>, AllocError>
    ensures { IfOk result (λ others. others.items ≡ spec.outside scenario.now cells.now) }
{
    let mut others = Vec::new(alloc);
    for cell in cells {
        if !scenario.has(*cell) {
            others.push(*cell)?;
        }
    }
    Ok(others)
}
