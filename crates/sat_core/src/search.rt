// The search for a valuation of a formula and local clauses.
ghost use Rattle.std.specs.Prelude.{◌≡◌, ◌+◌, ◌≤◌, ◌<◌, ◌^◌, ◌++◌, [], ℕ, List, All, IfOk, OnOk, OnErr, length};
ghost use Rattle.cnf_core.specs.Literal.{HasVarsUpTo, IsVariable};
ghost use Rattle.refutation_check.specs.Chain.{members_of, IsAccepted, IsChain};
ghost use Rattle.refutation_check.specs.SearchLog.{IsSearchLog, HasVarsOf};
ghost use Rattle.sat_trail.specs.Trailed.{IsBase};
ghost use Rattle.sat_trail.specs.Closed.{IsClosed};
ghost use Rattle.sat_core.specs.Answers.{learnt_in, log_of, leaned_behind, HasEmptyOnlyLast, HasFewValues, IsRight, IsStopped, NamesNoUnits};
ghost use Rattle.sat_core.specs.Assuming.{IsSplit};
ghost use Rattle.sat_core.specs.Count.{raised};
ghost use Rattle.sat_core.specs.Kept.{IsEnd};
ghost use Rattle.sat_core.specs.Lent.{steps_of, IsEnding, IsLearnt};
ghost use Rattle.sat_core.specs.Search.{IsAnswerTo, IsSoFar, IsVarIn};
ghost use Rattle.cnf_core.specs.declared.literal.Lit.{Lit};

use crate::lent::{Ending, solve_on};
use crate::locals::{Locals, split};
use crate::step_count::StepCount;
use cnf_core::{Clause, Cnf, Lit, Valuation};
use refutation_check::{Log, Step};
use sat_trail::{Propagated, SavedPhases, Trail, learn};
use std::alloc::{AllocError, Global};

/// What a search comes to, with the steps that were learnt.
#[derive(Debug, Drop)]
pub enum Answer {
    /// A valuation that satisfies the formula and the local clauses.
    Found { valuation: Valuation, log: Log },
    /// The formula and the local clauses can't be satisfied: the last step of the log, and no other, is empty.
    Refuted { log: Log },
    /// The budget was spent on steps, and there is one more.
    Spent { log: Log },
}

/// Searches for a valuation of the formula and the local clauses. The pool is an accepted log over the
/// formula. At most `budget` steps are learnt; the clauses, the pool's steps and the budget are at most
/// 1,073,741,823 together. The hints of a step number the clauses of the formula, the local clauses, the
/// pool's steps and the steps of this log, in this order.
///
/// The literals of the local clauses of one literal are decided before all others: what is learnt carries the negations of
/// those that it needs, and only a last empty step names these clauses. Other variables are decided false.
pub fn solve(
    alloc: Global,
    f: &Cnf,
    pool: &Log,
    local: &[Clause],
    budget: u64,
    count: &mut StepCount,
) -> Result<Answer, AllocError>
    requires pool { IsAccepted f.now.clauses pool.now }
    requires few { length f.now.clauses + length local.now + length pool.now + budget < 2 ^ 30 }
    ensures log { IfOk result (λ a. IsSearchLog (members_of (f.now.clauses ++ local.now) pool.now) (log_of a)) }
    ensures in_range { (n : ℕ) → All (HasVarsUpTo n) f.now.clauses → All (HasVarsUpTo n) local.now → All (λ s. HasVarsUpTo n s.clause) pool.now → IfOk result (λ a. All (λ s. HasVarsUpTo n s.clause) (log_of a)) }
    ensures budget { IfOk result (λ a. length (log_of a) ≤ budget) }
    ensures answer { IfOk result (IsRight f.now.vars (f.now.clauses ++ local.now) pool.now budget) }
    ensures stopped { IfOk result (IsStopped (f.now.clauses ++ local.now) pool.now) }
    ensures units { IfOk result (λ a. NamesNoUnits (length f.now.clauses) local.now (log_of a)) }
    ensures last { IfOk result (λ a. HasEmptyOnlyLast (log_of a)) }
    ensures count { IfOk result (λ a. count.new ≡ raised count.old (learnt_in a)) }
    ensures spent { count.new ≤ count.old + budget }
{
    solve_towards(alloc, f, pool, local, budget, false, count)
}

/// Searches as `solve` does, and decides the variables that are open to this value: where it is true, the valuation that is
/// found makes many of them true.
pub fn solve_towards(
    alloc: Global,
    f: &Cnf,
    pool: &Log,
    local: &[Clause],
    budget: u64,
    value: bool,
    count: &mut StepCount,
) -> Result<Answer, AllocError>
    requires pool { IsAccepted f.now.clauses pool.now }
    requires few { length f.now.clauses + length local.now + length pool.now + budget < 2 ^ 30 }
    ensures log { IfOk result (λ a. IsSearchLog (members_of (f.now.clauses ++ local.now) pool.now) (log_of a)) }
    ensures in_range { (n : ℕ) → All (HasVarsUpTo n) f.now.clauses → All (HasVarsUpTo n) local.now → All (λ s. HasVarsUpTo n s.clause) pool.now → IfOk result (λ a. All (λ s. HasVarsUpTo n s.clause) (log_of a)) }
    ensures budget { IfOk result (λ a. length (log_of a) ≤ budget) }
    ensures answer { IfOk result (IsRight f.now.vars (f.now.clauses ++ local.now) pool.now budget) }
    ensures stopped { IfOk result (IsStopped (f.now.clauses ++ local.now) pool.now) }
    ensures units { IfOk result (λ a. NamesNoUnits (length f.now.clauses) local.now (log_of a)) }
    ensures last { IfOk result (λ a. HasEmptyOnlyLast (log_of a)) }
    ensures count { IfOk result (λ a. count.new ≡ raised count.old (learnt_in a)) }
    ensures spent { count.new ≤ count.old + budget }
{
    let base = Trail::over(alloc, f, f.vars())?;
    let mut leaning = SavedPhases::towards(alloc, value);
    solve_from(alloc, f, &base, pool, local, budget, &mut leaning, count)
}

/// Searches as `solve_towards` does, from a trail of the formula, which serves any number of searches. A variable that
/// is open is decided to the value to which it leans. What is found is leant to from then on.
pub fn solve_from(
    alloc: Global,
    f: &Cnf,
    base: &Trail,
    pool: &Log,
    local: &[Clause],
    budget: u64,
    leaning: &mut SavedPhases,
    count: &mut StepCount,
) -> Result<Answer, AllocError>
    requires base { IsBase f.now base.now }
    requires pool { IsAccepted f.now.clauses pool.now }
    requires few { length f.now.clauses + length local.now + length pool.now + budget < 2 ^ 30 }
    ensures log { IfOk result (λ a. IsSearchLog (members_of (f.now.clauses ++ local.now) pool.now) (log_of a)) }
    ensures in_range { (n : ℕ) → All (HasVarsUpTo n) f.now.clauses → All (HasVarsUpTo n) local.now → All (λ s. HasVarsUpTo n s.clause) pool.now → IfOk result (λ a. All (λ s. HasVarsUpTo n s.clause) (log_of a)) }
    ensures budget { IfOk result (λ a. length (log_of a) ≤ budget) }
    ensures answer { IfOk result (IsRight f.now.vars (f.now.clauses ++ local.now) pool.now budget) }
    ensures stopped { IfOk result (IsStopped (f.now.clauses ++ local.now) pool.now) }
    ensures units { IfOk result (λ a. NamesNoUnits (length f.now.clauses) local.now (log_of a)) }
    ensures last { IfOk result (λ a. HasEmptyOnlyLast (log_of a)) }
    ensures count { IfOk result (λ a. count.new ≡ raised count.old (learnt_in a)) }
    ensures spent { count.new ≤ count.old + budget }
    ensures leaning { IfOk result (λ a. leaning.new ≡ leaned_behind a leaning.old) }
    ensures err { OnErr result (leaning.new ≡ leaning.old) }
{
    let locals = split(alloc, f.len(), local)?;
    let others = locals.others.as_slice();
    let assumed = locals.assumed.as_slice();
    let mut trail = trail_of(alloc, f, base, pool, others, assumed)?;
    let ending = solve_on(alloc, &mut trail, assumed, budget, leaning, count)?;
    let answer = answer_of(alloc, f, base, pool, local, budget, &locals, &trail, ending)?;
    follow(alloc, leaning, &answer)?;
    Ok(answer)
}

// What was found is leant to from now on.
fn follow(alloc: Global, leaning: &mut SavedPhases, answer: &Answer) -> Result<(), AllocError>
    requires { HasFewValues answer.now }
    ensures done { OnOk result (leaning.new ≡ leaned_behind answer.now leaning.old) }
    ensures err { OnErr result (leaning.new ≡ leaning.old) }
{
    match answer {
        Answer::Found { valuation, .. } => leaning.follow(alloc, valuation),
        Answer::Refuted { .. } => Ok(()),
        Answer::Spent { .. } => Ok(()),
    }
}

// What the end of a search on a trail answers, with the numbers of all that was given. The trail was over the formula, the local
// clauses of more than one literal, and the pool.
fn answer_of(
    alloc: Global,
    f: &Cnf,
    base: &Trail,
    pool: &Log,
    local: &[Clause],
    budget: u64,
    locals: &Locals,
    trail: &Trail,
    ending: Ending,
) -> Result<Answer, AllocError>
    requires base { IsBase f.now base.now }
    requires pool { IsAccepted f.now.clauses pool.now }
    requires few { length f.now.clauses + length local.now + length pool.now + budget < 2 ^ 30 }
    requires split { IsSplit local.now locals.now.assumed.items locals.now.others.items locals.now.numbering.places.items }
    requires formula { locals.now.numbering.clauses ≡ length f.now.clauses }
    requires local { locals.now.numbering.local ≡ length local.now }
    requires vars { f.now.vars ≤ trail.now.vars }
    requires in_range { All (IsVarIn trail.now.vars) locals.now.assumed.items }
    requires learnt { IsLearnt (members_of (f.now.clauses ++ locals.now.others.items) pool.now) locals.now.assumed.items (steps_of ending) }
    requires budget { length (steps_of ending) ≤ budget }
    requires end { IsEnding trail.now.vars (members_of (f.now.clauses ++ locals.now.others.items) pool.now) locals.now.assumed.items budget ending }
    ensures answer { IfOk result (IsAnswerTo f.now local.now pool.now budget) }
    ensures learnt { IfOk result (λ a. learnt_in a ≡ length (steps_of ending)) }
{
    let _ = trail.vars(); // for the proof
    let numbering = &locals.numbering;
    match ending {
        Ending::Found { valuation, log } => {
            let log = numbering.log(alloc, &log)?;
            Ok(Answer::Found { valuation, log })
        }
        Ending::Clash { log } => {
            let log = numbering.log(alloc, &log)?;
            let answer = refuted(alloc, f, base, pool, local, budget, log)?;
            Ok(answer)
        }
        Ending::Spent { log } => {
            let log = numbering.log(alloc, &log)?;
            Ok(Answer::Spent { log })
        }
    }
}

// The refutation that a last step makes of the steps of a log, where the budget allows it.
pub(crate) fn refuted(
    alloc: Global,
    f: &Cnf,
    base: &Trail,
    pool: &Log,
    local: &[Clause],
    budget: u64,
    steps: Log,
) -> Result<Answer, AllocError>
    requires base { IsBase f.now base.now }
    requires pool { IsAccepted f.now.clauses pool.now }
    requires few { length f.now.clauses + length local.now + length pool.now + budget < 2 ^ 30 }
    requires budget { length steps ≤ budget }
    requires so_far { IsSoFar (members_of (f.now.clauses ++ local.now) pool.now) local.now (length f.now.clauses) steps }
    requires clash { (falses : List Lit) → ¬ IsClosed (members_of (members_of (f.now.clauses ++ local.now) pool.now) steps) falses }
    ensures answer { IfOk result (IsAnswerTo f.now local.now pool.now budget) }
    ensures learnt { IfOk result (λ a. learnt_in a ≡ length steps) }
    ensures end { IfOk result IsEnd }
{
    let step = last_step(alloc, f, base, pool, local, &steps)?;
    refuted_by(f, pool, local, budget, steps, step)
}

// The refutation that this last step makes of the steps of a log, where the budget allows it.
pub(crate) fn refuted_by(
    f: &Cnf,
    pool: &Log,
    local: &[Clause],
    budget: u64,
    steps: Log,
    last: Step,
) -> Result<Answer, AllocError>
    requires pool { IsAccepted f.now.clauses pool.now }
    requires few { length f.now.clauses + length local.now + length pool.now + budget < 2 ^ 30 }
    requires budget { length steps ≤ budget }
    requires so_far { IsSoFar (members_of (f.now.clauses ++ local.now) pool.now) local.now (length f.now.clauses) steps }
    requires empty { last.clause ≡ [] }
    requires chain { IsChain (members_of (members_of (f.now.clauses ++ local.now) pool.now) steps) last.clause last.hints }
    ensures answer { IfOk result (IsAnswerTo f.now local.now pool.now budget) }
    ensures learnt { IfOk result (λ a. learnt_in a ≡ length steps) }
    ensures end { IfOk result IsEnd }
{
    let _formula = f; // for the proof
    let _pool = pool; // for the proof
    let _local = local; // for the proof
    let mut log = steps;
    if log.steps().len() as u64 == budget {
        return Ok(Answer::Spent { log });
    }
    log.push(last)?;
    Ok(Answer::Refuted { log })
}

// The highest variable of the literals, or this one where it is higher.
fn highest_in(lits: &[Lit], first: u32) -> u32
    requires first { first < 2 ^ 31 }
    requires lits { All (λ l. IsVariable l.var) lits.now }
    ensures first { first ≤ result }
    ensures lits { All (λ l. l.var ≤ result) lits.now }
    ensures small { result < 2 ^ 31 }
{
    let mut highest = first;
    for lit in lits {
        highest = highest.max(lit.var);
    }
    highest
}

// The formula over more variables.
fn raised(alloc: Global, f: &Cnf, vars: u32) -> Result<Cnf, AllocError>
    requires more { f.now.vars ≤ vars }
    requires small { vars < 2 ^ 31 }
    ensures { IfOk result (λ g. g ≡ record { vars = vars; clauses = f.now.clauses }) }
{
    let mut formula = Cnf::new(alloc, vars);
    for i in 0..f.len() {
        formula.push(f.clause(i + 1).copy(alloc)?)?;
    }
    Ok(formula)
}

// The trail over the formula, these local clauses and the pool, with the variables of what is assumed too.
pub(crate) fn trail_of(
    alloc: Global,
    f: &Cnf,
    base: &Trail,
    pool: &Log,
    others: &[Clause],
    assumed: &[Lit],
) -> Result<Trail, AllocError>
    requires base { IsBase f.now base.now }
    requires few { length f.now.clauses + length others.now + length pool.now < 2 ^ 30 }
    requires assumed { All (λ l. IsVariable l.var) assumed.now }
    ensures clauses { IfOk result (λ t. t.clauses ≡ members_of (f.now.clauses ++ others.now) pool.now) }
    ensures vars { IfOk result (λ t. f.now.vars ≤ t.vars) }
    ensures in_range { IfOk result (λ t. All (IsVarIn t.vars) assumed.now) }
    ensures assigned { IfOk result (λ t. t.assigned ≡ []) }
{
    let highest = highest_in(assumed, f.vars());
    if highest <= base.vars() {
        return base.grown(alloc, f, pool, others);
    }
    let formula = raised(alloc, f, highest)?;
    Trail::of(alloc, &formula, pool, others)
}

// The empty step, a chain over all that was given, the local clauses of one literal too, and the steps that were learnt.
fn last_step(
    alloc: Global,
    f: &Cnf,
    base: &Trail,
    pool: &Log,
    local: &[Clause],
    log: &Log,
) -> Result<Step, AllocError>
    requires base { IsBase f.now base.now }
    requires few { length f.now.clauses + length local.now + length pool.now + length log.now < 2 ^ 30 }
    requires accepted { IsAccepted (members_of (f.now.clauses ++ local.now) pool.now) log.now }
    requires vars { HasVarsOf (members_of (f.now.clauses ++ local.now) pool.now) log.now }
    requires clash { (falses : List Lit) → ¬ IsClosed (members_of (members_of (f.now.clauses ++ local.now) pool.now) log.now) falses }
    ensures empty { IfOk result (λ s. s.clause ≡ []) }
    ensures chain { IfOk result (λ s. IsChain (members_of (members_of (f.now.clauses ++ local.now) pool.now) log.now) s.clause s.hints) }
{
    let mut trail = base.grown(alloc, f, pool, local)?;
    let _ = trail.vars(); // for the proof
    for step in log.steps() {
        trail.add(step.copy(alloc)?)?;
    }
    match trail.propagate() {
        Propagated::Conflict(number) => learn(alloc, &trail, number),
        Propagated::Closed => unreachable!(),
    }
}
