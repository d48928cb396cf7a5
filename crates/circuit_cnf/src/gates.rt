// The clauses of single gates.
ghost use Rattle.std.specs.Prelude.{◌≡◌, ◌∷◌, [], ◌&&◌, All, OnOk};
ghost use Rattle.cnf_core.specs.Literal.{IsVariable};
ghost use Rattle.cnf_core.specs.Valuation.{literal_value};
ghost use Rattle.circuit_cnf.specs.Encoding.{IsPushed, Adds};

use cnf_core::{Clause, Lit};
use std::alloc::{AllocError, Global};

/// Adds the clause of these literals, where it isn't true of itself.
pub(crate) fn add_clause(
    alloc: Global,
    clauses: &mut Vec<Clause>,
    lits: &[Lit],
) -> Result<(), AllocError>
    requires { All (λ l. IsVariable l.var) lits.now }
    ensures { OnOk result (IsPushed lits.now clauses.old.items clauses.new.items) }
{
    match Clause::of(alloc, lits)? {
        Some(clause) => Ok(clauses.push(clause)?),
        None => Ok(()),
    }
}

/// Adds that the one literal is true exactly where both others are.
pub(crate) fn add_conjunction(
    alloc: Global,
    clauses: &mut Vec<Clause>,
    both: Lit,
    a: Lit,
    b: Lit,
) -> Result<(), AllocError>
    requires { All (λ l. IsVariable l.var) (both ∷ a ∷ b ∷ []) }
    ensures { OnOk result (Adds 3 (both ∷ a ∷ b ∷ []) (λ v. literal_value v both ≡ (literal_value v a && literal_value v b)) clauses.old.items clauses.new.items) }
{
    let not_both = both.negation();
    add_clause(alloc, clauses, &[not_both, a])?;
    add_clause(alloc, clauses, &[not_both, b])?;
    Ok(add_clause(alloc, clauses, &[both, a.negation(), b.negation()])?)
}
