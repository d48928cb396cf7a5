// Clauses in the store.
ghost use Rattle.std.specs.Prelude.{All};
ghost use Rattle.cnf_core.specs.Literal.{IsVariable};

use cnf_core::{Clause, Lit};
use std::alloc::Global;
use std::fmt::Write;
use std::process::Abort;
use std::test::Fail;
use unit_propagation::clause_store::{Store, code_of, literal_of};

const A: Lit = Lit {
    var: 1,
    positive: true,
};

const NOT_B: Lit = Lit {
    var: 2,
    positive: false,
};

const C: Lit = Lit {
    var: 2_147_483_647,
    positive: true,
};

// That each literal has its number, and each number its literal.
fn are_numbered(rt: &impl Abort, rows: &[(Lit, u32)]) {
    for (lit, code) in rows {
        assert!(rt; lit.var < 2_147_483_648);
        assert_eq!(rt; code_of(*lit), *code);
        assert_eq!(rt; literal_of(*code), *lit);
    }
}

#[test]
fn literals_have_their_numbers(rt: HostRuntime) {
    let rows = [
        (A, 3),
        (A.negation(), 2),
        (NOT_B, 4),
        (C, 4_294_967_295),
        (C.negation(), 4_294_967_294),
    ];
    are_numbered(&rt, &rows);
}

// Puts the clause of these literals at the end.
fn push(alloc: Global, store: &mut Store, lits: &[Lit]) -> Result<(), Fail>
    requires { All (λ l. IsVariable l.var) lits.now }
{
    if store.len() > 9 {
        Err("full")?
    }
    match Clause::of(alloc, lits)? {
        Some(clause) => Ok(store.push(&clause)?),
        None => Err("a tautology")?,
    }
}

// A bar before each clause, and its literals' numbers.
fn told(alloc: Global, store: &Store) -> Result<String, Fail> {
    let mut out = String::new(alloc);
    for number in 1..=store.len() {
        out.push('|')?;
        push_codes(&mut out, store.codes(number))?;
    }
    Ok(out)
}

fn push_codes(out: &mut String, codes: &[u32]) -> Result<(), Fail> {
    for code in codes {
        write!(out, " {code}")?;
    }
    Ok(())
}

#[test]
fn an_empty_store_has_no_clauses(rt: HostRuntime) -> Result<(), Fail> {
    assert_eq!(rt; Store::new(rt.alloc()).len(), 0);
    Ok(())
}

// A store of clauses of none, one and three literals.
fn three_clauses(alloc: Global) -> Result<Store, Fail> {
    let mut store = Store::new(alloc);
    push(alloc, &mut store, &[])?;
    push(alloc, &mut store, &[NOT_B])?;
    push(alloc, &mut store, &[C, A, NOT_B])?;
    Ok(store)
}

// Puts the clause of one literal in place of the last.
fn replace_last(alloc: Global, store: &mut Store) -> Result<(), Fail> {
    if store.len() == 0 {
        Err("no clause")?
    }
    store.pop();
    push(alloc, store, &[A])
}

#[test]
fn clauses_of_none_one_and_three_literals_are_stored(rt: HostRuntime) -> Result<(), Fail> {
    let mut store = three_clauses(rt.alloc())?;
    assert_eq!(rt; store.len(), 3);
    assert_eq!(rt; told(rt.alloc(), &store)?.as_str(), "|| 4| 3 4 4294967295");
    replace_last(rt.alloc(), &mut store)?;
    assert_eq!(rt; store.len(), 3);
    assert_eq!(rt; told(rt.alloc(), &store)?.as_str(), "|| 4| 3");
    Ok(())
}

#[test]
fn a_copy_has_the_same_clauses(rt: HostRuntime) -> Result<(), Fail> {
    let mut store = Store::new(rt.alloc());
    push(rt.alloc(), &mut store, &[C, A])?;
    let copy = store.copy(rt.alloc())?;
    assert_eq!(rt; told(rt.alloc(), &copy)?.as_str(), "| 3 4294967295");
    Ok(())
}
