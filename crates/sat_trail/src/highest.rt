// The highest variable of clauses.
ghost use Rattle.std.specs.Prelude.{◌≤◌, ◌<◌, ◌^◌, ℕ, map};
ghost use Rattle.cnf_core.specs.Literal.{HasVarsUpTo};
ghost use Rattle.sat_trail.specs.Trailed.{IsVarLimit};

use cnf_core::{Clause, Lit};
use refutation_check::Step;

// The highest variable of a clause, or the given one where that is higher.
fn highest_in(lits: &[Lit], given: u32) -> u32
    ensures at_least { given ≤ result }
    ensures within { HasVarsUpTo result lits.now }
    ensures least { (n : ℕ) → given ≤ n → HasVarsUpTo n lits.now → result ≤ n }
{
    let mut highest = given;
    for lit in lits {
        if lit.var > highest {
            highest = lit.var;
        }
    }
    highest
}

/// The highest variable of the clauses, or the given one where that is higher.
pub(crate) fn highest_of(clauses: &[Clause], given: u32) -> u32
    requires { given < 2 ^ 31 }
    ensures limit { IsVarLimit given clauses.now result }
    ensures small { result < 2 ^ 31 }
{
    let mut highest = given;
    for clause in clauses {
        highest = highest_in(clause.lits(), highest);
    }
    highest
}

/// The highest variable of the clauses of the steps, or the given one where that is higher.
pub(crate) fn highest_in_steps(steps: &[Step], given: u32) -> u32
    requires { given < 2 ^ 31 }
    ensures limit { IsVarLimit given (map (λ s. s.clause) steps.now) result }
    ensures small { result < 2 ^ 31 }
{
    let mut highest = given;
    for step in steps {
        highest = highest_in(step.clause.lits(), highest);
    }
    highest
}
