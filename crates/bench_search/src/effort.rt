// How much a search does: it goes as `solve` does without local clauses, over the same trail, and counts.
ghost use Rattle.std.specs.Prelude.{◌≡◌, ◌+◌, ◌<◌, ◌≤◌, ◌^◌, IfSome, OnOk, length};
ghost use Rattle.refutation_check.specs.Chain.{Refutes};
ghost use Rattle.unit_propagation.specs.Assignments.Trail.{falses_of};
ghost use Rattle.sat_trail.specs.Closed.{IsPropagated};

use crate::found::Effort;
use cnf_core::Cnf;
use refutation_check::Log;
use sat_trail::{Propagated, SavedPhases, Trail, learn};
use std::alloc::{AllocError, Global};

// The most conflicts that are counted.
const MOST_CONFLICTS: u32 = 100_000_000;

/// How many variables the search in these clauses decides, how many it is forced to, and from how many conflicts it learns.
pub fn effort(alloc: Global, f: &Cnf) -> Result<Effort, AllocError>
    requires { length f.now.clauses ≤ 1000000 }
{
    let mut trail = Trail::of(alloc, f, &Log::new(alloc), &[])?;
    let leaning = SavedPhases::towards(alloc, false);
    let mut effort = Effort {
        decided: 0,
        forced: 0,
        conflicts: 0,
    };
    for turn in 0..MOST_CONFLICTS {
        let _ = turn; // for the proof
        let Some(conflict) = descend(&mut trail, &leaning, &mut effort) else {
            return Ok(effort);
        };
        if !go_on(alloc, &mut trail, conflict)? {
            return Ok(effort);
        }
        effort.conflicts = effort.conflicts.saturating_add(1);
    }
    Ok(effort)
}

// Propagates and decides, until a clause is falsified: its number; or until each variable has a value.
fn descend(trail: &mut Trail, leaning: &SavedPhases, effort: &mut Effort) -> Option<u32>
    ensures conflict { IfSome result (Refutes trail.new.clauses (falses_of trail.new.assigned)) }
    ensures vars { trail.new.vars ≡ trail.old.vars }
    ensures clauses { trail.new.clauses ≡ trail.old.clauses }
{
    for turn in 0..trail.vars() + 1 {
        let _ = turn; // for the proof
        if let Propagated::Conflict(number) = propagate(trail, effort) {
            return Some(number);
        }
        if trail.decide_next(leaning).is_none() {
            return None;
        }
        effort.decided = effort.decided.saturating_add(1);
    }
    None
}

// Propagates, and counts what is forced.
fn propagate(trail: &mut Trail, effort: &mut Effort) -> Propagated
    ensures propagated { IsPropagated trail.new result }
    ensures vars { trail.new.vars ≡ trail.old.vars }
    ensures clauses { trail.new.clauses ≡ trail.old.clauses }
{
    let before = valued(trail);
    let propagated = trail.propagate();
    let after = valued(trail);
    effort.forced = effort
        .forced
        .saturating_add(u64::from(after.saturating_sub(before)));
    propagated
}

// How many variables have a value.
fn valued(trail: &Trail) -> u32 {
    let mut count = 0_u32;
    for var in 0..trail.vars() {
        if trail.value(var + 1).is_some() {
            count = count.saturating_add(1);
        }
    }
    count
}

// Learns from a conflict and goes back, as far as the learnt clause asks; false where that is empty.
fn go_on(alloc: Global, trail: &mut Trail, conflict: u32) -> Result<bool, AllocError>
    requires conflict { Refutes trail.old.clauses (falses_of trail.old.assigned) conflict }
    requires room { length trail.old.clauses + 1 < 2 ^ 30 }
    ensures { OnOk result (length trail.new.clauses ≤ length trail.old.clauses + 1) }
{
    let _level = trail.level(); // for the proof
    let step = learn(alloc, trail, conflict)?;
    if step.clause.lits().is_empty() {
        return Ok(false);
    }
    let level = trail.back_level(step.clause.lits());
    trail.back_to(level);
    trail.add(step)?;
    Ok(true)
}
