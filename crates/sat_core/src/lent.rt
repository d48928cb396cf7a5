// A search on a trail that is lent: descents and learning in turn.
ghost use Rattle.std.specs.Prelude.{◌≡◌, ◌+◌, ◌≤◌, ◌<◌, ◌^◌, ◌++◌, ◌∷◌, [], ℕ, List, All, IfOk, OnOk, length};
ghost use Rattle.refutation_check.specs.Chain.{members_of, IsChain, Refutes};
ghost use Rattle.unit_propagation.specs.Assignments.Trail.{falses_of};
ghost use Rattle.sat_trail.specs.Closed.{IsClosedBelow};
ghost use Rattle.sat_core.specs.Assuming.{AreTrue};
ghost use Rattle.sat_core.specs.Count.{raised};
ghost use Rattle.sat_core.specs.Lent.{steps_of, IsEnding, IsLearnt, IsStanding, StandsBehind};
ghost use Rattle.sat_core.specs.Search.{IsFound, IsFull, IsNext, HasNext, IsVarIn};

use crate::deciding::{DeadEnd, decide_to_end, values_of};
use crate::step_count::StepCount;
use cnf_core::{Lit, Valuation};
use refutation_check::{Log, Step};
use sat_trail::{SavedPhases, Trail, learn};
use std::alloc::{AllocError, Global};

/// What a search on a trail comes to, with the steps that were learnt: their hints are numbers of the trail.
#[derive(Debug, Drop)]
pub enum Ending {
    /// A valuation that satisfies the trail's clauses, and in which what is assumed is true.
    Found { valuation: Valuation, log: Log },
    /// The trail's clauses and what is assumed can't be satisfied: propagation alone shows it.
    Clash { log: Log },
    /// The budget was spent on steps, and there is one more.
    Spent { log: Log },
}

/// Searches on a trail for a valuation of its clauses, in which the assumed literals are true. These are decided before all others,
/// and a variable that is open is decided to the value to which it leans. At most `budget` steps are learnt; the trail's clauses and
/// the budget are at most 1,073,741,823 together.
///
/// The trail may stand anywhere: all its decisions are undone first. It has the clauses of the steps behind its own then, so where
/// none was learnt, it serves as before. It can be searched again with other assumed literals, or with clauses more.
pub fn solve_on(
    alloc: Global,
    trail: &mut Trail,
    assumed: &[Lit],
    budget: u64,
    leaning: &SavedPhases,
    count: &mut StepCount,
) -> Result<Ending, AllocError>
    requires in_range { All (IsVarIn trail.old.vars) assumed.now }
    requires few { length trail.old.clauses + budget < 2 ^ 30 }
    ensures vars { OnOk result (trail.new.vars ≡ trail.old.vars) }
    ensures clauses { IfOk result (λ e. trail.new.clauses ≡ members_of trail.old.clauses (steps_of e)) }
    ensures learnt { IfOk result (λ e. IsLearnt trail.old.clauses assumed.now (steps_of e)) }
    ensures budget { IfOk result (λ e. length (steps_of e) ≤ budget) }
    ensures end { IfOk result (IsEnding trail.old.vars trail.old.clauses assumed.now budget) }
    ensures count { IfOk result (λ e. count.new ≡ raised count.old (length (steps_of e))) }
    ensures spent { count.new ≤ count.old + budget }
{
    let _ = trail.level(); // for the proof
    trail.back_to(0);
    let mut depth = 0;
    search_on(alloc, trail, assumed, &mut depth, budget, leaning, count)
}

/// Searches as `solve_on` does, from where the trail stands: its decisions up to the level `depth` are assumed. Behind a valuation the
/// trail stands where the search can go on from, with clauses more.
pub fn search_on(
    alloc: Global,
    trail: &mut Trail,
    assumed: &[Lit],
    depth: &mut u32,
    budget: u64,
    leaning: &SavedPhases,
    count: &mut StepCount,
) -> Result<Ending, AllocError>
    requires in_range { All (IsVarIn trail.old.vars) assumed.now }
    requires stands { IsStanding assumed.now depth.old trail.old }
    requires few { length trail.old.clauses + budget < 2 ^ 30 }
    ensures vars { OnOk result (trail.new.vars ≡ trail.old.vars) }
    ensures clauses { IfOk result (λ e. trail.new.clauses ≡ members_of trail.old.clauses (steps_of e)) }
    ensures learnt { IfOk result (λ e. IsLearnt trail.old.clauses assumed.now (steps_of e)) }
    ensures budget { IfOk result (λ e. length (steps_of e) ≤ budget) }
    ensures end { IfOk result (IsEnding trail.old.vars trail.old.clauses assumed.now budget) }
    ensures stands { IfOk result (StandsBehind assumed.now depth.new trail.new) }
    ensures count { IfOk result (λ e. count.new ≡ raised count.old (length (steps_of e))) }
    ensures spent { count.new ≤ count.old + budget }
{
    let _ = count.steps(); // for the proof
    let mut log = Log::new(alloc);
    'learning: loop {
        let Some(end) = decide_to_end(trail, assumed, depth, leaning) else {
            let valuation = found(alloc, trail, assumed)?;
            return Ok(Ending::Found { valuation, log });
        };
        match end {
            DeadEnd::Conflict(number) => {
                let step = next_step(alloc, trail, number)?;
                if log.steps().len() as u64 == budget {
                    return Ok(Ending::Spent { log });
                }
                count.rise();
                keep(alloc, trail, &mut log, step)?;
            }
            DeadEnd::Clash => return Ok(Ending::Clash { log }),
        }
    }
}

// The values of a full trail in which all that is assumed is true.
fn found(alloc: Global, trail: &Trail, assumed: &[Lit]) -> Result<Valuation, AllocError>
    requires full { IsFull trail.now }
    requires assumed { AreTrue (falses_of trail.now.assigned) assumed.now }
    ensures { IfOk result (IsFound trail.now assumed.now) }
{
    let _assumed = assumed; // for the proof
    let _ = trail.vars(); // for the proof
    values_of(alloc, trail)
}

// The step that is learnt from the conflict of a stuck trail.
fn next_step(alloc: Global, trail: &Trail, conflict: u32) -> Result<Step, AllocError>
    requires conflict { Refutes trail.now.clauses (falses_of trail.now.assigned) conflict }
    requires closed_below { IsClosedBelow trail.now.clauses trail.now.assigned }
    requires deep { (hints : List ℕ) → ¬ IsChain trail.now.clauses [] hints }
    ensures { IfOk result (IsNext trail.now) }
{
    let _ = trail.level(); // for the proof
    let step = learn(alloc, trail, conflict)?;
    Ok(step)
}

// Keeps a step: the trail goes back to the second highest level of its clause, and has the clause too.
fn keep(alloc: Global, trail: &mut Trail, log: &mut Log, step: Step) -> Result<(), AllocError>
    requires step { IsNext trail.old step }
    requires closed_below { IsClosedBelow trail.old.clauses trail.old.assigned }
    requires log { length log.old + 1 < 2 ^ 30 }
    requires clauses { length trail.old.clauses + 1 < 2 ^ 30 }
    ensures log { OnOk result (log.new ≡ log.old ++ step ∷ []) }
    ensures trail { OnOk result (HasNext trail.old step trail.new) }
{
    let level = trail.back_level(step.clause.lits());
    log.push(step.copy(alloc)?)?;
    trail.back_to(level);
    trail.add(step)?;
    Ok(())
}
