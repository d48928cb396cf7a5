// What searches share.
ghost use Rattle.std.specs.Prelude.{IfOk, IfSome};
ghost use Rattle.refutation_check.specs.Chain.{IsAccepted};

use crate::refutations::{VARS, formula_of, log_of};
use clause_pool::{Pool, accepted_hints_name_members, free_of};
use cnf_core::Cnf;
use refutation_check::{Log, Scratch, Verdict, check};
use std::alloc::{AllocError, Global};

// How many steps of 999 hints and 22 literals a pool takes.
const STEPS: u32 = 1958;

/// Takes the free steps of a log of 1,958 steps so many times, and gives how many it found each time, where it was always as
/// many.
pub fn freed(alloc: Global, times: u32) -> Result<Option<u32>, AllocError> {
    let Some((formula, log)) = checked(alloc)? else {
        return Ok(None);
    };
    for _ in 0..times {
        if free_steps(alloc, &formula, &log)? != STEPS as usize {
            return Ok(None);
        }
    }
    Ok(Some(STEPS))
}

/// Shares these steps with so many new pools, and gives how many each took, where it was always as many.
pub fn shared(alloc: Global, times: u32) -> Result<Option<u32>, AllocError> {
    let Some((formula, log)) = checked(alloc)? else {
        return Ok(None);
    };
    for _ in 0..times {
        if taken(alloc, &formula, &log)? != STEPS {
            return Ok(None);
        }
    }
    Ok(Some(STEPS))
}

// The free steps of the log, where no clause is a local one.
fn free_steps(alloc: Global, formula: &Cnf, log: &Log) -> Result<usize, AllocError>
    requires { IsAccepted formula.now.clauses log.now }
{
    accepted_hints_name_members();
    let _steps = log.steps(); // for the proof
    let free = free_of(alloc, log, formula.len(), 0, 0)?;
    Ok(free.steps().len())
}

// How many steps a new pool takes of the log.
fn taken(alloc: Global, formula: &Cnf, log: &Log) -> Result<u32, AllocError>
    requires { IsAccepted formula.now.clauses log.now }
{
    let mut pool = Pool::new(alloc);
    Ok(pool.share(alloc, formula, 0, log)?)
}

// The formula and a log over it that the checker takes.
fn checked(alloc: Global) -> Result<Option<(Cnf, Log)>, AllocError>
    ensures { IfOk result (λ made. IfSome made (λ both. IsAccepted both.0.clauses both.1)) }
{
    let Some(formula) = formula_of(alloc)? else {
        return Ok(None);
    };
    let Some(log) = log_of(alloc, STEPS)? else {
        return Ok(None);
    };
    let mut scratch = Scratch::for_vars(alloc, VARS)?;
    match check(&formula, &log, &mut scratch) {
        Verdict::NoEmptyClause => Ok(Some((formula, log))),
        Verdict::Accepted | Verdict::Refused { .. } => Ok(None),
    }
}
