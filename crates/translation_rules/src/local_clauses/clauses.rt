// Clauses about the cells of a floor or of a scenario.
ghost use Rattle.std.specs.Prelude.{◌≡◌, ◌<◌, ◌++◌, ◌∷◌, [], map, All, AllPairs, IfOk, OnOk};
ghost use Rattle.cnf_core.specs.Literal.{IsClause, IsVariable, negation_of};
ghost use Rattle.translation_rules.specs.Translation.{var_of};
ghost use Rattle.translation_rules.specs.Locals as spec;

use cnf_core::{Clause, Lit};
use std::alloc::{AllocError, Global};

/// For each of these cells, whose numbers are below 2,147,483,647, the clause which says that it is there.
pub fn units_of(alloc: Global, cells: &[u32]) -> Result<Vec<Clause>, AllocError>
    requires { All (λ cell. IsVariable (var_of cell)) cells.now }
    ensures { IfOk result (λ clauses. clauses.items ≡ spec.units_of cells.now) }
{
    let mut clauses = Vec::new(alloc);
    add_units(alloc, &mut clauses, cells)?;
    Ok(clauses)
}

/// The clause which says that some of these cells is absent. Their numbers rise, and are below 2,147,483,647.
pub fn absence_in(alloc: Global, cells: &[u32]) -> Result<Clause, AllocError>
    requires variables { All (λ cell. IsVariable (var_of cell)) cells.now }
    requires rising { AllPairs (λ m n. m < n) cells.now }
    ensures { IfOk result (λ clause. clause ≡ spec.absence_in cells.now) }
{
    let mut lits = Vec::new(alloc);
    for cell in cells {
        lits.push(absent(*cell))?;
    }
    Ok(clause_of(alloc, lits.as_slice())?)
}

/// Adds for each of these cells the clause which says that it is there.
pub(crate) fn add_units(
    alloc: Global,
    clauses: &mut Vec<Clause>,
    cells: &[u32],
) -> Result<(), AllocError>
    requires { All (λ cell. IsVariable (var_of cell)) cells.now }
    ensures { OnOk result (clauses.new.items ≡ clauses.old.items ++ spec.units_of cells.now) }
{
    for cell in cells {
        clauses.push(clause_of(alloc, &[present(*cell)])?)?;
    }
    Ok(())
}

/// The literal which says that the cell is there.
pub(crate) fn present(cell: u32) -> Lit
    requires { IsVariable (var_of cell) }
    ensures { result ≡ spec.literal_of cell }
{
    Lit {
        var: cell + 1,
        positive: true,
    }
}

/// The literal which says that the cell is absent.
pub(crate) fn absent(cell: u32) -> Lit
    requires { IsVariable (var_of cell) }
    ensures { result ≡ negation_of (spec.literal_of cell) }
{
    Lit {
        var: cell + 1,
        positive: false,
    }
}

/// The clause of literals that stand in the order of a clause.
pub(crate) fn clause_of(alloc: Global, lits: &[Lit]) -> Result<Clause, AllocError>
    requires { IsClause lits.now }
    ensures { IfOk result (λ clause. clause ≡ lits.now) }
{
    match Clause::of(alloc, lits)? {
        Some(clause) => Ok(clause),
        None => unreachable!(),
    }
}
