// Whether clauses and steps are the same.
ghost use Rattle.std.specs.Prelude.{◌≡◌, ◌≤◌, ◌+◌, IsTrue, length, take, drop};
ghost use Rattle.cnf_core.specs.Literal.{HasVarsUpTo};

use cnf_core::{Clause, Cnf, Lit};
use refutation_check::{Log, Step};

/// Whether the two are one formula.
pub(crate) fn is_same_formula(formula: &Cnf, other: &Cnf) -> bool
    ensures { IsTrue result → formula.now ≡ other.now }
{
    formula.vars() == other.vars() && are_same(formula.clauses(), other.clauses())
}

/// Whether the two have the same steps.
pub(crate) fn is_same_log(log: &Log, other: &Log) -> bool
    ensures { IsTrue result → log.now ≡ other.now }
{
    let steps = log.steps();
    let others = other.steps();
    if steps.len() != others.len() {
        return false;
    }
    for (i, step) in steps.iter().enumerate() {
        if !is_same_step(step, &others[i]) {
            return false;
        }
    }
    true
}

/// How many of the first clauses are the same ones in the same order.
pub(crate) fn shared(clauses: &[Clause], others: &[Clause]) -> usize
    ensures first { result ≤ length clauses.now }
    ensures second { result ≤ length others.now }
    ensures same { take result clauses.now ≡ take result others.now }
{
    let most = clauses.len().min(others.len());
    for i in 0..most {
        if !is_same_clause(&clauses[i], &others[i]) {
            return i;
        }
    }
    most
}

/// Whether the clauses from this place on are the last of the others, which are so many more.
pub(crate) fn are_moved(clauses: &[Clause], others: &[Clause], place: usize, more: usize) -> bool
    requires place { place ≤ length clauses.now }
    requires more { length others.now ≡ length clauses.now + more }
    ensures { IsTrue result → drop place clauses.now ≡ drop (place + more) others.now }
{
    for i in place..clauses.len() {
        if !is_same_clause(&clauses[i], &others[i + more]) {
            return false;
        }
    }
    true
}

/// Whether the clause's variables are at most this one.
pub(crate) fn is_over(clause: &Clause, vars: u32) -> bool
    ensures { IsTrue result → HasVarsUpTo vars clause.now }
{
    for lit in clause.lits() {
        if lit.var > vars {
            return false;
        }
    }
    true
}

fn are_same(clauses: &[Clause], others: &[Clause]) -> bool
    ensures { IsTrue result → clauses.now ≡ others.now }
{
    clauses.len() == others.len() && shared(clauses, others) == clauses.len()
}

fn is_same_step(step: &Step, other: &Step) -> bool
    ensures { IsTrue result → step.now ≡ other.now }
{
    is_same_clause(&step.clause, &other.clause) && step.hints.numbers() == other.hints.numbers()
}

fn is_same_clause(clause: &Clause, other: &Clause) -> bool
    ensures { IsTrue result → clause.now ≡ other.now }
{
    are_same_lits(clause.lits(), other.lits())
}

fn are_same_lits(lits: &[Lit], others: &[Lit]) -> bool
    ensures { IsTrue result → lits.now ≡ others.now }
{
    if lits.len() != others.len() {
        return false;
    }
    for (i, lit) in lits.iter().enumerate() {
        if !is_same_lit(*lit, others[i]) {
            return false;
        }
    }
    true
}

fn is_same_lit(lit: Lit, other: Lit) -> bool
    ensures { IsTrue result → lit ≡ other }
{
    lit.var == other.var && lit.positive == other.positive
}
