// The clauses of a search at a floor.
ghost use Rattle.std.specs.Prelude.{◌≡◌, ◌<◌, ◌++◌, map, length, All, IfOk, OnOk};
ghost use Rattle.std.specs.List.{list_any};
ghost use Rattle.tuple_core.specs.Swap.{atom_eq};
ghost use Rattle.rel_formula.specs.Bounds.{cells_of};
ghost use Rattle.rel_formula.specs.Instance.{AreCells};
ghost use Rattle.translation_rules.specs.Free as spec;
ghost use Rattle.translation_rules.specs.Translation.{clauses_of_swaps};
ghost use Rattle.translation_rules.specs.Locals.{absence_in as absence_clause, locals_of as locals_at};

use cnf_core::{Clause, Cnf};
use rel_formula::{Problem, Scenario};
use std::alloc::{AllocError, Global};
use translation::Translation;
use translation_rules::local_clauses::{absence_in, units_of};
use tuple_core::Atom;

/// The clauses of a search at a floor: those of the swaps that are free of the floor, in the order of the swaps; for each cell
/// of the floor, that it is there; and for each blocked scenario, that some cell of it is absent.
pub fn locals_of(
    alloc: Global,
    translation: &Translation,
    floor: &Scenario,
    blocked: &[Scenario],
) -> Result<Vec<Clause>, AllocError>
    requires floor { AreCells translation.now.problem floor.now }
    requires blocked { All (AreCells translation.now.problem) blocked.now }
    ensures { IfOk result (λ clauses. clauses.items ≡ locals_at translation.now floor.now blocked.now) }
{
    let problem = translation.problem();
    let mut clauses = free_clauses(alloc, translation, floor.numbers())?;
    let _ = problem.relations(); // for the proof
    let mut units = units_of(alloc, floor.numbers())?;
    clauses.append(&mut units)?;
    add_absences(alloc, &mut clauses, problem, blocked)?;
    Ok(clauses)
}

// The clauses of the swaps that are free of a floor.
fn free_clauses(
    alloc: Global,
    translation: &Translation,
    floor: &[u32],
) -> Result<Vec<Clause>, AllocError>
    requires { AreCells translation.now.problem floor.now }
    ensures { IfOk result (λ clauses. clauses.items ≡ clauses_of_swaps (spec.is_free_of translation.now.problem floor.now) translation.now.swaps) }
{
    let problem = translation.problem();
    let mut clauses = Vec::new(alloc);
    for (place, pair) in translation.pairs().iter().enumerate() {
        if is_free(problem, floor, pair.0, pair.1) {
            add_clauses(alloc, &mut clauses, translation.swap(place as u32))?;
        }
    }
    Ok(clauses)
}

// Adds the clauses of a formula.
fn add_clauses(alloc: Global, clauses: &mut Vec<Clause>, cnf: &Cnf) -> Result<(), AllocError>
    ensures { OnOk result (clauses.new.items ≡ clauses.old.items ++ cnf.now.clauses) }
{
    for number in 0..cnf.len() {
        clauses.push(cnf.clause(number + 1).copy(alloc)?)?;
    }
    Ok(())
}

// Adds for each scenario the clause which says that some cell of it is absent.
fn add_absences(
    alloc: Global,
    clauses: &mut Vec<Clause>,
    problem: &Problem,
    blocked: &[Scenario],
) -> Result<(), AllocError>
    requires { All (AreCells problem.now) blocked.now }
    ensures { OnOk result (clauses.new.items ≡ clauses.old.items ++ map absence_clause blocked.now) }
{
    let _ = problem.relations(); // for the proof
    for scenario in blocked {
        clauses.push(absence_in(alloc, scenario.numbers())?)?;
    }
    Ok(())
}

// Whether neither atom stands in the floor.
fn is_free(problem: &Problem, floor: &[u32], first: Atom, second: Atom) -> bool
    requires { AreCells problem.now floor.now }
    ensures { result ≡ spec.is_free_of problem.now floor.now first second }
{
    !stands_in(problem, floor, first) && !stands_in(problem, floor, second)
}

// Whether the atom stands in a cell of the floor.
fn stands_in(problem: &Problem, floor: &[u32], atom: Atom) -> bool
    requires { AreCells problem.now floor.now }
    ensures { result ≡ spec.stands_in problem.now floor.now atom }
{
    for number in floor {
        if cell_has(problem, *number, atom) {
            return true;
        }
    }
    false
}

// Whether the atom stands in the cell of this number.
fn cell_has(problem: &Problem, number: u32, atom: Atom) -> bool
    requires { number < length (cells_of problem.now) }
    ensures { result ≡ list_any (atom_eq atom) (spec.tuple_at problem.now number) }
{
    let cells = problem.all_cells();
    cells[number as usize].tuple.atoms().contains(&atom)
}
