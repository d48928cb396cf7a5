// Searches, their answers checked, and how large their logs are.
ghost use Rattle.std.specs.Prelude.{◌≡◌, ◌≤◌, ◌↔◌, ℕ, Bool, All, IfOk, IfSome, IsTrue, length};
ghost use Rattle.cnf_core.specs.Literal.{HasVarsUpTo, IsClause};
ghost use Rattle.cnf_core.specs.Valuation.{Satisfies, clause_value, value_of};
ghost use Rattle.refutation_check.specs.Chain.{IsRefutation};
ghost use Rattle.sat_core.specs.Answers.{log_of};
ghost use Rattle.bench_search.specs.Answers.{IsOver, IsTold, end_of};

use crate::dimacs::text_of;
use crate::effort::effort;
use crate::formulas::of_kind;
use crate::found::{End, Found, Searched};
use cnf_core::{Cnf, Lit, Valuation};
use refutation_check::{Log, Scratch, Verdict, accepted_is_entailed, check};
use sat_core::{Answer, StepCount, solve};
use std::alloc::{AllocError, Global};

/// The most steps of a search.
pub const BUDGET: u64 = 100_000_000;

/// What is found where this is done with clauses of this kind: `make`, `dimacs`, `solve`, `check` or `effort`. `None` where
/// there is no such kind, and where an answer isn't accepted.
pub fn found(
    alloc: Global,
    done: &str,
    kind: &str,
    size: u32,
    seed: u32,
) -> Result<Option<Found>, AllocError> {
    let Some(formula) = of_kind(alloc, kind, size, seed)? else {
        return Ok(None);
    };
    match done {
        "make" => Ok(Some(Found::Clauses {
            variables: formula.vars(),
            clauses: formula.len(),
        })),
        "dimacs" => Ok(Some(Found::Text(text_of(alloc, &formula, &[])?))),
        "solve" => Ok(Some(Found::Searched(searched(alloc, &formula)?))),
        "check" => Ok(checked(alloc, &formula)?.map(|searched| Found::Searched(searched))),
        "effort" => Ok(Some(Found::Effort(effort(alloc, &formula)?))),
        _ => Ok(None),
    }
}

// What the search comes to.
fn searched(alloc: Global, f: &Cnf) -> Result<Searched, AllocError>
    requires { length f.now.clauses ≤ 1000000 }
{
    let mut steps = StepCount::new();
    let answer = solve(alloc, f, &Log::new(alloc), &[], BUDGET, &mut steps)?;
    Ok(size_of(&answer))
}

// The same, where the answer is accepted.
fn checked(alloc: Global, f: &Cnf) -> Result<Option<Searched>, AllocError>
    requires { length f.now.clauses ≤ 1000000 }
    ensures { IfOk result (λ told. IfSome told (λ s. IsTold f.now.clauses s.end)) }
{
    let _vars = f.vars(); // for the proof
    let mut steps = StepCount::new();
    let answer = solve(alloc, f, &Log::new(alloc), &[], BUDGET, &mut steps)?;
    if is_right(alloc, f, &answer)? {
        return Ok(Some(size_of(&answer)));
    }
    Ok(None)
}

/// Whether the valuation satisfies the formula, or the log refutes it; true of a spent budget.
pub fn is_right(alloc: Global, f: &Cnf, answer: &Answer) -> Result<bool, AllocError>
    requires { IsOver f.now.vars answer.now }
    ensures { IfOk result (λ is. IsTrue is → IsTold f.now.clauses (end_of answer.now)) }
{
    match answer {
        Answer::Found { valuation, .. } => Ok(is_satisfied(f, valuation)),
        Answer::Refuted { log } => Ok(is_refuted(alloc, f, log)?),
        Answer::Spent { .. } => Ok(true),
    }
}

// Whether the log refutes the formula.
fn is_refuted(alloc: Global, f: &Cnf, log: &Log) -> Result<bool, AllocError>
    requires { All (λ s. HasVarsUpTo f.now.vars s.clause) log.now }
    ensures log { IfOk result (λ is. IsTrue is ↔ IsRefutation f.now.clauses log.now) }
    ensures none { IfOk result (λ is. IsTrue is → (v : ℕ → Bool) → ¬ Satisfies v f.now.clauses) }
{
    accepted_is_entailed();
    let mut scratch = Scratch::for_vars(alloc, f.vars())?;
    let verdict = check(f, log, &mut scratch);
    Ok(verdict == Verdict::Accepted)
}

// Whether the valuation makes a literal of each clause true.
fn is_satisfied(f: &Cnf, valuation: &Valuation) -> bool
    requires { f.now.vars ≤ length valuation.now }
    ensures { IsTrue result → Satisfies (value_of valuation.now) f.now.clauses }
{
    let _vars = f.vars(); // for the proof
    for i in 0..f.len() {
        if !is_true(f.clause(i + 1).lits(), valuation) {
            return false;
        }
    }
    true
}

// Whether the valuation makes a literal of the clause true.
fn is_true(lits: &[Lit], valuation: &Valuation) -> bool
    requires clause { IsClause lits.now }
    requires in_range { HasVarsUpTo (length valuation.now) lits.now }
    ensures { IsTrue result → IsTrue (clause_value (value_of valuation.now) lits.now) }
{
    for lit in lits {
        if valuation.value(lit.var) == lit.positive {
            return true;
        }
    }
    false
}

/// What the answer is, and how large its log is.
pub fn size_of(answer: &Answer) -> Searched
    ensures end { result.end ≡ end_of answer.now }
    ensures steps { result.steps ≡ length (log_of answer.now) }
{
    match answer {
        Answer::Found { log, .. } => measured(End::Found, log),
        Answer::Refuted { log } => measured(End::Refuted, log),
        Answer::Spent { log } => measured(End::Spent, log),
    }
}

// The sizes of a log.
fn measured(end: End, log: &Log) -> Searched
    ensures end { result.end ≡ end }
    ensures steps { result.steps ≡ length log.now }
{
    let mut literals = 0_u64;
    let mut hints = 0_u64;
    for step in log.steps() {
        literals = literals.saturating_add(step.clause.lits().len() as u64);
        hints = hints.saturating_add(step.hints.numbers().len() as u64);
    }
    Searched {
        end,
        steps: log.steps().len(),
        literals,
        hints,
    }
}
