// Clauses, formulas and valuations at small values.
ghost use Rattle.std.specs.Prelude.{◌≤◌, All, IfOk};
ghost use Rattle.cnf_core.specs.Literal.{HasVarsUpTo};

use cnf_core::{Clause, Cnf, Lit, Valuation};
use std::alloc::Global;
use std::test::Fail;

const A: Lit = Lit {
    var: 1,
    positive: true,
};

const NOT_A: Lit = Lit {
    var: 1,
    positive: false,
};

const B: Lit = Lit {
    var: 2,
    positive: true,
};

const NOT_C: Lit = Lit {
    var: 2_147_483_647,
    positive: false,
};

// The clause of these literals over two variables.
fn clause_of(alloc: Global, lits: &[Lit]) -> Result<Clause, Fail>
    requires { All (λ l. (1 ≤ l.var) × (l.var ≤ 2)) lits.now }
    ensures { IfOk result (HasVarsUpTo 2) }
{
    match Clause::of(alloc, lits)? {
        Some(clause) => Ok(clause),
        None => Err("a tautology")?,
    }
}

#[test]
fn clauses_are_sorted_and_have_each_literal_once(rt: HostRuntime) -> Result<(), Fail> {
    let alloc = rt.alloc();
    let clause = Clause::of(alloc, &[NOT_C, B, NOT_A, B])?.ok_or("a tautology")?;
    assert_eq!(rt; clause.lits(), [NOT_A, B, NOT_C].as_slice());
    Ok(())
}

#[test]
fn copies_of_clauses_have_the_same_literals(rt: HostRuntime) -> Result<(), Fail> {
    let alloc = rt.alloc();
    let clause = Clause::of(alloc, &[NOT_C, B, NOT_A, B])?.ok_or("a tautology")?;
    assert_eq!(rt; clause.copy(alloc)?.lits(), clause.lits());
    Ok(())
}

#[test]
fn a_clause_may_be_empty_and_is_no_tautology(rt: HostRuntime) -> Result<(), Fail> {
    let alloc = rt.alloc();
    let empty = Clause::of(alloc, &[])?.ok_or("a tautology")?;
    assert_eq!(rt; empty.lits().len(), 0);
    assert!(rt; Clause::of(alloc, &[A, B, A.negation()])?.is_none());
    Ok(())
}

#[test]
fn formulas_number_their_clauses_from_one(rt: HostRuntime) -> Result<(), Fail> {
    let alloc = rt.alloc();
    let mut formula = Cnf::new(alloc, 2);
    formula.push(clause_of(alloc, &[B, A])?)?;
    formula.push(clause_of(alloc, &[NOT_A])?)?;
    assert_eq!(rt; (formula.vars(), formula.len()), (2, 2));
    assert_eq!(rt; formula.clause(1).lits(), [A, B].as_slice());
    assert_eq!(rt; formula.clause(2).lits(), [NOT_A].as_slice());
    Ok(())
}

#[test]
fn valuations_list_their_values_from_one(rt: HostRuntime) -> Result<(), Fail> {
    let valuation = Valuation::of([true, false].to_vec(rt.alloc())?);
    assert_eq!(rt; valuation.vars(), 2);
    assert_eq!(rt; (valuation.value(1), valuation.value(2)), (true, false));
    Ok(())
}
