// The clauses of one swap, and of several.
ghost use Rattle.std.specs.Prelude.{◌≡◌, ◌↔◌, ◌⊎◌, ◌+◌, ◌*◌, ◌<◌, ◌≤◌, ◌^◌, ℕ, List, length, All, Contains, IfOk};
ghost use Rattle.cnf_core.specs.Literal.{HasVarsUpTo};
ghost use Rattle.refutation_check.specs.SearchLog.{IsVarOf};
ghost use Rattle.rel_formula.specs.Bounds.{cells_of};
ghost use Rattle.swap_symmetry.specs.Swaps.{SwapIsEarlier, NoSwapIsEarlier};
ghost use Rattle.translation_rules.specs.Translation.{IsSatisfiableAt, IsCellVar};

use crate::swap_clauses::cells::add_swap;
use cnf_core::{Clause, Cnf};
use rel_formula::Problem;
use std::alloc::{AllocError, Global};
use tuple_core::Atom;

/// The clauses which say that the swap of two atoms makes no scenario earlier.
///
/// They speak of the variables of cells, and of fresh ones from `first_variable` on, which is above the number of cells and at
/// most 1,073,741,823. The last of the fresh ones is the number of variables.
pub fn swap_clauses_of(
    alloc: Global,
    problem: &Problem,
    first_variable: u32,
    first: Atom,
    second: Atom,
) -> Result<Cnf, AllocError>
    requires above { length (cells_of problem.now) < first_variable }
    requires room { first_variable < 2 ^ 30 }
    ensures says { IfOk result (λ f. (s : List ℕ) → (¬ SwapIsEarlier problem.now first second (Contains s)) ↔ IsSatisfiableAt problem.now s f.clauses) }
    ensures variables { IfOk result (λ f. (var : ℕ) → IsVarOf f.clauses var → IsCellVar problem.now var ⊎ ((first_variable ≤ var) × (var ≤ f.vars))) }
    ensures few_variables { IfOk result (λ f. (first_variable ≤ f.vars) × (f.vars ≤ first_variable + length (cells_of problem.now))) }
    ensures few_clauses { IfOk result (λ f. length f.clauses ≤ 3 * length (cells_of problem.now) + 1) }
{
    let _ = problem.cells(); // for the proof
    let mut clauses = Vec::new(alloc);
    let last = add_swap(alloc, &mut clauses, problem, first_variable, first, second)?;
    Ok(formula_of(alloc, last, clauses)?)
}

/// The clauses which say that none of the swaps of these pairs of atoms makes a scenario earlier.
///
/// They are those of each pair in turn, over fresh variables of its own from `first_variable` on, which is above the number of
/// cells and at most 1,073,741,823. There are at most 64 pairs.
pub fn swap_clauses(
    alloc: Global,
    problem: &Problem,
    first_variable: u32,
    pairs: &[(Atom, Atom)],
) -> Result<Cnf, AllocError>
    requires above { length (cells_of problem.now) < first_variable }
    requires room { first_variable < 2 ^ 30 }
    requires pairs { length pairs.now ≤ 64 }
    ensures says { IfOk result (λ f. (s : List ℕ) → NoSwapIsEarlier problem.now (λ a b. Contains pairs.now (a, b)) (Contains s) ↔ IsSatisfiableAt problem.now s f.clauses) }
    ensures variables { IfOk result (λ f. (var : ℕ) → IsVarOf f.clauses var → IsCellVar problem.now var ⊎ ((first_variable ≤ var) × (var ≤ f.vars))) }
    ensures few_variables { IfOk result (λ f. (first_variable ≤ f.vars + 1) × (f.vars < first_variable + length pairs.now * (length (cells_of problem.now) + 1))) }
    ensures few_clauses { IfOk result (λ f. length f.clauses ≤ length pairs.now * (3 * length (cells_of problem.now) + 1)) }
{
    let _ = problem.cells(); // for the proof
    let mut clauses = Vec::new(alloc);
    let mut next = first_variable;
    for pair in pairs {
        next = add_swap(alloc, &mut clauses, problem, next, pair.0, pair.1)? + 1;
    }
    Ok(formula_of(alloc, next - 1, clauses)?)
}

// The formula of these clauses.
fn formula_of(alloc: Global, vars: u32, clauses: Vec<Clause>) -> Result<Cnf, AllocError>
    requires vars { vars < 2 ^ 31 }
    requires within { All (HasVarsUpTo vars) clauses.items }
    requires few { length clauses.items < 2 ^ 30 }
    ensures { IfOk result (λ f. f ≡ record { vars = vars; clauses = clauses.items }) }
{
    let mut formula = Cnf::new(alloc, vars);
    for clause in clauses {
        formula.push(clause)?;
    }
    Ok(formula)
}
