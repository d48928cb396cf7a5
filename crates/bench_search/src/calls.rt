// Many calls with assumptions on the same clauses.
ghost use Rattle.std.specs.Prelude.{◌≡◌, ◌+◌, ◌≤◌, ◌++◌, All, IfOk, IfSome, IsTrue, length};
ghost use Rattle.cnf_core.specs.Literal.{HasVarsUpTo};
ghost use Rattle.bench_search.specs.Answers.{IsOver, IsTold, end_of};

use crate::dimacs::text_of;
use crate::formulas::{MOST, clause_of, generator, random, random_literal};
use crate::found::{Called, End, Found};
use crate::searches::{is_right, size_of};
use cnf_core::{Clause, Cnf};
use refutation_check::Log;
use sat_core::{Answer, StepCount, solve};
use std::alloc::{AllocError, Global};

// The most steps of a call.
const BUDGET: u64 = 100_000_000;

/// What is found where this is done with so many random clauses, two for each variable, and so many calls, each of which
/// assumes a literal for each hundred clauses: `make`, `solve` or `check`. `dimacs` gives the clauses with what the call of
/// this number assumes.
pub fn found(
    alloc: Global,
    done: &str,
    clauses: u32,
    calls: u32,
) -> Result<Option<Found>, AllocError> {
    if clauses < 100 || clauses > MOST {
        return Ok(None);
    }
    let Some(formula) = random(alloc, clauses / 2, clauses, 1)? else {
        return Ok(None);
    };
    match done {
        "make" => Ok(Some(Found::Clauses {
            variables: formula.vars(),
            clauses: formula.len(),
        })),
        "dimacs" => {
            let units = units_of(alloc, clauses / 2, calls)?;
            let text = text_of(alloc, &formula, units.as_slice())?;
            Ok(Some(Found::Text(text)))
        }
        "solve" => Ok(Some(Found::Called(called(alloc, &formula, calls)?))),
        "check" => Ok(checked(alloc, &formula, calls)?.map(|called| Found::Called(called))),
        _ => Ok(None),
    }
}

// What the call of this number assumes: a literal of each fiftieth variable.
fn units_of(alloc: Global, vars: u32, call: u32) -> Result<Vec<Clause>, AllocError>
    requires some { 50 ≤ vars }
    requires few { vars ≤ 1000000 }
    ensures few { IfOk result (λ units. length units.items ≤ 20000) }
    ensures vars { IfOk result (λ units. All (HasVarsUpTo vars) units.items) }
{
    let mut rng = generator(call.saturating_add(2));
    let mut units = Vec::new(alloc);
    for place in 0..vars / 50 {
        let lit = random_literal(&mut rng, (call % 50) + place * 50, vars);
        if let Some(unit) = clause_of(alloc, &[lit], vars)? {
            units.push(unit)?;
        }
    }
    Ok(units)
}

// What no call comes to.
fn none_called() -> Called {
    Called {
        found: 0,
        refuted: 0,
        spent: 0,
        steps: 0,
    }
}

// Counts what a call comes to.
fn count(called: &mut Called, answer: &Answer) {
    let size = size_of(answer);
    match size.end {
        End::Found => called.found = called.found.saturating_add(1),
        End::Refuted => called.refuted = called.refuted.saturating_add(1),
        End::Spent => called.spent = called.spent.saturating_add(1),
    }
    called.steps = called.steps.saturating_add(size.steps as u64);
}

// What so many calls come to.
fn called(alloc: Global, f: &Cnf, calls: u32) -> Result<Called, AllocError>
    requires some { 50 ≤ f.now.vars }
    requires few { f.now.vars ≤ 1000000 }
    requires few_clauses { length f.now.clauses ≤ 1000000 }
{
    let mut called = none_called();
    for call in 0..calls {
        let units = units_of(alloc, f.vars(), call)?;
        let mut steps = StepCount::new();
        let answer = solve(
            alloc,
            f,
            &Log::new(alloc),
            units.as_slice(),
            BUDGET,
            &mut steps,
        )?;
        count(&mut called, &answer);
    }
    Ok(called)
}

// The same, where each answer is accepted.
fn checked(alloc: Global, f: &Cnf, calls: u32) -> Result<Option<Called>, AllocError>
    requires some { 50 ≤ f.now.vars }
    requires few { f.now.vars ≤ 1000000 }
    requires few_clauses { length f.now.clauses ≤ 1000000 }
{
    let mut called = none_called();
    for call in 0..calls {
        let units = units_of(alloc, f.vars(), call)?;
        let mut steps = StepCount::new();
        let answer = solve(
            alloc,
            f,
            &Log::new(alloc),
            units.as_slice(),
            BUDGET,
            &mut steps,
        )?;
        if !is_right_with(alloc, f, units.as_slice(), &answer)? {
            return Ok(None);
        }
        count(&mut called, &answer);
    }
    Ok(Some(called))
}

// Whether the answer is one for the formula with further clauses behind its own, as `is_right` says.
fn is_right_with(
    alloc: Global,
    f: &Cnf,
    more: &[Clause],
    answer: &Answer,
) -> Result<bool, AllocError>
    requires few { length f.now.clauses ≤ 1000000 }
    requires few_more { length more.now ≤ 20000 }
    requires vars { All (HasVarsUpTo f.now.vars) more.now }
    requires answer { IsOver f.now.vars answer.now }
    ensures { IfOk result (λ is. IsTrue is → IsTold (f.now.clauses ++ more.now) (end_of answer.now)) }
{
    let whole = with(alloc, f, more)?;
    Ok(is_right(alloc, &whole, answer)?)
}

// The formula with further clauses behind its own.
fn with(alloc: Global, f: &Cnf, more: &[Clause]) -> Result<Cnf, AllocError>
    requires few { length f.now.clauses ≤ 1000000 }
    requires few_more { length more.now ≤ 20000 }
    requires vars { All (HasVarsUpTo f.now.vars) more.now }
    ensures vars { IfOk result (λ g. g.vars ≡ f.now.vars) }
    ensures clauses { IfOk result (λ g. g.clauses ≡ f.now.clauses ++ more.now) }
{
    let mut formula = Cnf::new(alloc, f.vars());
    for i in 0..f.len() {
        formula.push(f.clause(i + 1).copy(alloc)?)?;
    }
    for clause in more {
        formula.push(clause.copy(alloc)?)?;
    }
    Ok(formula)
}
