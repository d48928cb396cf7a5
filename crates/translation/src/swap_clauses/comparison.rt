// The clauses of one comparison.
ghost use Rattle.std.specs.Prelude.{◌≡◌, true, false, ◌+◌, ◌<◌, ◌≤◌, ◌^◌, ◌≢◌, ◌∷◌, [], ℕ, All, OnOk, IfSome};
ghost use Rattle.cnf_core.specs.Literal.{IsVariable};
ghost use Rattle.translation_rules.specs.Translation.{var_of};
ghost use Rattle.translation.specs.SwapChains.Comparison.{AddsClause, Compares};

use cnf_core::{Clause, Lit};
use std::alloc::{AllocError, Global};

/// Adds the clause of these literals, where it isn't true of itself.
pub(crate) fn add_clause(
    alloc: Global,
    clauses: &mut Vec<Clause>,
    lits: &[Lit],
) -> Result<(), AllocError>
    requires { All (λ l. IsVariable l.var) lits.now }
    ensures { OnOk result (AddsClause lits.now clauses.old.items clauses.new.items) }
{
    match Clause::of(alloc, lits)? {
        Some(clause) => Ok(clauses.push(clause)?),
        None => Ok(()),
    }
}

/// Adds that, where the variable `so_far` is true, the image of a cell is chosen only if the cell is, and the next variable
/// is true if both are chosen or neither is. Where there is no image, it counts as not chosen.
pub(crate) fn add_comparison(
    alloc: Global,
    clauses: &mut Vec<Clause>,
    so_far: u32,
    cell: u32,
    image: Option<u32>,
) -> Result<(), AllocError>
    requires so_far { 1 ≤ so_far }
    requires room { so_far + 1 < 2 ^ 31 }
    requires cell { cell + 1 < 2 ^ 31 }
    requires image { IfSome image (λ m. m + 1 < 2 ^ 31) }
    ensures { OnOk result (Compares so_far cell image clauses.old.items clauses.new.items) }
{
    let not_so_far = false_at(so_far);
    let here = true_at(cell + 1);
    let alike = true_at(so_far + 1);
    add_clause(alloc, clauses, &[not_so_far, here, alike])?;
    match image {
        None => Ok(()),
        Some(image) => {
            let not_there = false_at(image + 1);
            add_clause(alloc, clauses, &[not_so_far, not_there, here])?;
            Ok(add_clause(alloc, clauses, &[not_so_far, not_there, alike])?)
        }
    }
}

/// The literal that is true where the variable is.
pub(crate) fn true_at(var: u32) -> Lit
    ensures { result ≡ record { var = var; positive = true } }
{
    Lit {
        var,
        positive: true,
    }
}

// The literal that is true where the variable isn't.
fn false_at(var: u32) -> Lit
    ensures { result ≡ record { var = var; positive = false } }
{
    Lit {
        var,
        positive: false,
    }
}
