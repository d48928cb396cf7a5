// The steps of a search that rest on no local clause.
ghost use Rattle.std.specs.Prelude.{◌≡◌, ◌+◌, ◌≤◌, ◌<◌, ◌^◌, ◌++◌, ◌∷◌, [], All, IfOk, OnOk, Some, None, List, length, map, if◌then◌else◌};
ghost use Rattle.cnf_core.specs.declared.literal.Lit.{Lit};
ghost use Rattle.refutation_check.specs.declared.log.Step.{Step as LogStep};
ghost use Rattle.refutation_check.specs.Chain.{members_of, IsAccepted};
ghost use Rattle.refutation_check.specs.Renumbering.{free_steps, is_free, kept_number, not_local};
ghost use Rattle.clause_pool.specs.Freeing.{free_step};

use crate::renumbering::Renumbering;
use refutation_check::{Hints, Log, Step, free_steps_are_accepted};
use std::alloc::{AllocError, Global};

/// The steps of a search's log whose hints, followed down, name no local clause, in order. Hints number the
/// `clauses`, the `local` clauses, the steps of the `pool` and the log's own steps, from 1 on; those of the answer
/// leave out the local clauses and the steps that aren't in it. The three numbers and the number of steps are at
/// most 4,294,967,295 together. An accepted log's hints are from 1 on (`accepted_hints_name_members`).
pub fn free_of(
    alloc: Global,
    log: &Log,
    clauses: u32,
    local: u32,
    pool: u32,
) -> Result<Log, AllocError>
    requires hints { All (λ s. All (λ hint. 1 ≤ hint) s.hints) log.now }
    requires room { clauses + local + pool + length log.now < 2 ^ 32 }
    ensures steps { IfOk result (λ free. free ≡ free_steps (not_local clauses local pool) log.now) }
    ensures accepted { (given apart : List (List Lit)) (shared : List LogStep) → length given ≡ clauses → length apart ≡ local → length shared ≡ pool
        → IsAccepted (members_of (given ++ apart) shared) log.now → IfOk result (λ free. IsAccepted (members_of given shared) free) }
{
    free_steps_are_accepted();
    let mut kept = Renumbering::of(alloc, clauses, local, pool);
    let mut free = Log::new(alloc);
    let steps = log.steps();
    for step in steps {
        take_step(alloc, &mut kept, &mut free, step)?;
    }
    Ok(free)
}

// Puts the step at the end of the free ones where it is one, and marks whether it is.
fn take_step(
    alloc: Global,
    kept: &mut Renumbering,
    free: &mut Log,
    step: &Step,
) -> Result<(), AllocError>
    requires hints { All (λ hint. 1 ≤ hint) step.now.hints }
    requires room { length kept.old + 1 < 2 ^ 32 }
    requires few { length free.old + 1 < 2 ^ 30 }
    ensures free { OnOk result (free.new ≡ free.old ++ free_step kept.old step.now) }
    ensures kept { OnOk result (kept.new ≡ kept.old ++ is_free kept.old step.now.hints ∷ []) }
{
    match renumbered(alloc, kept, step.hints.numbers())? {
        None => kept.leave_out()?,
        Some(hints) => {
            let clause = step.clause.copy(alloc)?;
            free.push(Step { clause, hints })?;
            kept.keep()?;
        }
    }
    Ok(())
}

// The hints with the new numbers of what they name, or none where they name a member that isn't kept.
fn renumbered(alloc: Global, kept: &Renumbering, hints: &[u32]) -> Result<Option<Hints>, AllocError>
    requires { All (λ hint. 1 ≤ hint) hints.now }
    ensures { IfOk result (λ made. made ≡ (if is_free kept.now hints.now then Some (map (λ hint. kept_number hint kept.now) hints.now) else None)) }
{
    let mut numbers = Vec::with_capacity(alloc, hints.len())?;
    for hint in hints {
        match kept.new_number(*hint) {
            0 => return Ok(None),
            number => numbers.push(number)?,
        }
    }
    Ok(Some(Hints::of(numbers)))
}
