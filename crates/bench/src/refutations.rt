// Checking logs.
ghost use Rattle.std.specs.Prelude.{◌≡◌, ◌≤◌, All, IfOk, IfSome, length};
ghost use Rattle.cnf_core.specs.Literal.{HasVarsUpTo};

use cnf_core::{Clause, Cnf, Lit};
use refutation_check::{Hints, Log, Scratch, Step, Verdict, check};
use std::alloc::{AllocError, Global};

// How many variables imply each other in a row.
const LONG: u32 = 1000;

// How many further literals each clause has.
const WIDE: u32 = 20;

/// How many variables the formula has.
pub const VARS: u32 = LONG + WIDE;

/// Checks a log of so many steps, each with 999 hints to clauses of 22 literals, and gives the step that fails: 0, as none does.
pub fn failing_step(alloc: Global, steps: u32) -> Result<Option<u32>, AllocError> {
    let Some(formula) = formula_of(alloc)? else {
        return Ok(None);
    };
    let Some(log) = log_of(alloc, steps)? else {
        return Ok(None);
    };
    let mut scratch = Scratch::for_vars(alloc, VARS)?;
    match check(&formula, &log, &mut scratch) {
        Verdict::Refused { step, .. } => Ok(Some(step)),
        Verdict::Accepted | Verdict::NoEmptyClause => Ok(Some(0)),
    }
}

// The clause that one variable implies another, or one of the further literals holds.
fn implication(alloc: Global, from: u32, to: u32) -> Result<Option<Clause>, AllocError>
    requires from { 1 ≤ from }
    requires from_small { from ≤ 1000 }
    requires to { 1 ≤ to }
    requires to_small { to ≤ 1000 }
    ensures { IfOk result (λ made. IfSome made (HasVarsUpTo 1020)) }
{
    let mut lits = Vec::new(alloc);
    lits.push(Lit {
        var: from,
        positive: false,
    })?;
    lits.push(Lit {
        var: to,
        positive: true,
    })?;
    for i in 0..WIDE {
        lits.push(Lit {
            var: LONG + 1 + i,
            positive: true,
        })?;
    }
    Ok(Clause::of(alloc, lits.as_slice())?)
}

/// Each variable implies the next.
pub fn formula_of(alloc: Global) -> Result<Option<Cnf>, AllocError>
    ensures { IfOk result (λ made. IfSome made (λ f. f.vars ≡ 1020)) }
{
    let mut formula = Cnf::new(alloc, VARS);
    for i in 1..LONG {
        let Some(clause) = implication(alloc, i, i + 1)? else {
            return Ok(None);
        };
        formula.push(clause)?;
    }
    Ok(Some(formula))
}

// The step that the first variable implies the last.
fn step_of(alloc: Global) -> Result<Option<Step>, AllocError>
    ensures { IfOk result (λ made. IfSome made (λ s. HasVarsUpTo 1020 s.clause)) }
{
    let mut hints = Vec::new(alloc);
    for i in 1..LONG {
        hints.push(i)?;
    }
    let Some(clause) = implication(alloc, 1, LONG)? else {
        return Ok(None);
    };
    Ok(Some(Step {
        clause,
        hints: Hints::of(hints),
    }))
}

// As many steps, or a million.
fn few(steps: u32) -> u32
    ensures { result ≤ 1000000 }
{
    if steps < 1_000_000 { steps } else { 1_000_000 }
}

/// The step that the first variable implies the last, again and again: at most a million.
pub fn log_of(alloc: Global, steps: u32) -> Result<Option<Log>, AllocError>
    ensures { IfOk result (λ made. IfSome made (All (λ s. HasVarsUpTo 1020 s.clause))) }
{
    let mut log = Log::new(alloc);
    for made in 0..few(steps) {
        let _ = made; // for the proof
        let Some(step) = step_of(alloc)? else {
            return Ok(None);
        };
        log.push(step)?;
    }
    Ok(Some(log))
}
