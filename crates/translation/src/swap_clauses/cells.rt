// The clauses of one swap: a chain of comparisons of cells with their images.
ghost use Rattle.std.specs.Prelude.{◌≡◌, ◌↔◌, ◌+◌, ◌<◌, ◌≤◌, ◌^◌, ℕ, Some, length, IfOk, IsTrue};
ghost use Rattle.refutation_check.specs.SearchLog.{IsVarOf};
ghost use Rattle.rel_formula.specs.Bounds.{cells_of};
ghost use Rattle.translation.specs.SwapChains.Chain.{ComparesCell, ForbidsSwap};

use crate::swap_clauses::comparison::{add_clause, add_comparison, true_at};
use cnf_core::Clause;
use rel_formula::Problem;
use std::alloc::{AllocError, Global};
use tuple_core::Atom;

/// Adds that the swap makes the chosen cells no earlier, with fresh variables from this one on, and gives the last of them.
pub(crate) fn add_swap(
    alloc: Global,
    clauses: &mut Vec<Clause>,
    problem: &Problem,
    first_variable: u32,
    first: Atom,
    second: Atom,
) -> Result<u32, AllocError>
    requires above { length (cells_of problem.now) < first_variable }
    requires room { first_variable + length (cells_of problem.now) + 1 < 2 ^ 31 }
    requires fresh { (var : ℕ) → IsVarOf clauses.old.items var → var < first_variable }
    ensures { IfOk result (λ last. ForbidsSwap problem.now first second first_variable last clauses.old.items clauses.new.items) }
{
    let mut so_far = first_variable;
    add_clause(alloc, clauses, &[true_at(so_far)])?;
    for cell in 0..problem.cells() {
        so_far = add_cell(alloc, clauses, problem, so_far, cell, first, second)?;
    }
    Ok(so_far)
}

// Adds the comparison of a cell with its image, unless the two are one, or were compared as the image of the other; gives
// the variable that says whether all cells are alike so far.
fn add_cell(
    alloc: Global,
    clauses: &mut Vec<Clause>,
    problem: &Problem,
    so_far: u32,
    cell: u32,
    first: Atom,
    second: Atom,
) -> Result<u32, AllocError>
    requires cell { cell < length (cells_of problem.now) }
    requires above { length (cells_of problem.now) < so_far }
    requires room { so_far + 1 < 2 ^ 31 }
    requires fresh { (var : ℕ) → IsVarOf clauses.old.items var → var ≤ so_far }
    ensures { IfOk result (λ next. ComparesCell problem.now first second cell so_far next clauses.old.items clauses.new.items) }
{
    let _ = problem.relations(); // for the proof
    let image = problem.swapped(cell, first, second);
    if !comes_later(image, cell) {
        return Ok(so_far);
    }
    add_comparison(alloc, clauses, so_far, cell, image)?;
    Ok(so_far + 1)
}

// Whether there is no image, or it comes after the cell.
fn comes_later(image: Option<u32>, cell: u32) -> bool
    ensures { IsTrue result ↔ ((m : ℕ) → image ≡ Some m → cell < m) }
{
    match image {
        None => true,
        Some(image) => cell < image,
    }
}
