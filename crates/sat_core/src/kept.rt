// A search that is gone on with, clause by clause that is blocked.
ghost use Rattle.std.specs.Prelude.{◌≡◌, ◌+◌, ◌-◌, ◌≤◌, ◌<◌, ◌^◌, ◌++◌, ◌∷◌, [], ℕ, List, All, map, Contains, IfOk, IfSome, OnOk, MatchOption, OnErr, length};
ghost use Rattle.cnf_core.specs.declared.literal.Lit.{Lit};
ghost use Rattle.cnf_core.specs.Literal.{HasVarsUpTo};
ghost use Rattle.refutation_check.specs.declared.log.Step.{Step};
ghost use Rattle.refutation_check.specs.Chain.{members_of, IsAccepted, IsChain};
ghost use Rattle.refutation_check.specs.Lift.{lifted_hint};
ghost use Rattle.sat_trail.specs.Trailed.{IsBase};
ghost use Rattle.sat_core.specs.Answers.{leaned_behind};
ghost use Rattle.sat_core.specs.Count.{raised};
ghost use Rattle.sat_core.specs.Assuming.{IsClash, numbered};
ghost use Rattle.sat_core.specs.Kept.{told, told_by, number_in, numbers_from, AreWithin, IsKept, HasMore, IsEnd, IsLearntOf, IsLearntTo, IfBlocked, TellsNoFound};
ghost use Rattle.sat_core.specs.Lent.{steps_of, IsStanding, StandsBehind};
ghost use Rattle.sat_core.specs.Search.{IsAnswerTo};
ghost use Rattle.sat_core.specs.Trimmed.{IsUsedUp};

use crate::lent::{Ending, search_on};
use crate::locals::split;
use crate::marked_log::MarkedLog;
use crate::search::{Answer, refuted, refuted_by, trail_of};
use crate::step_count::StepCount;
use crate::trimmed::trimmed;
use cnf_core::{Clause, Cnf, Lit, Valuation};
use refutation_check::{Hints, Log, Step};
use sat_trail::{Propagated, SavedPhases, Trail, learn};
use std::alloc::{AllocError, Global};
use std::marker::Model;

/// What was learnt leads to.
#[derive(Drop)]
enum Learnt {
    /// A valuation.
    Found { valuation: Valuation },
    /// What is given and the steps can't hold: propagation alone shows it.
    Clash,
    /// As many steps as there may be, and one more.
    Spent,
}

/// A search for valuations of a formula, a pool and local clauses, which stays on its trail and keeps what it learns: it can be gone on
/// with where further local clauses were blocked. Its steps are told where a search ends without a valuation, or where they are asked for.
#[derive(Debug, Drop)]
pub struct KeptSearch {
    trail: Trail,
    depth: u32,
    assumed: Vec<Lit>,
    numbers: Vec<u32>,
    steps: MarkedLog,
}

impl Model for KeptSearch {
    ghost use Rattle.sat_core.specs.Kept.{Kept};

    ghost Value = { Kept };

    ghost view = { λ k. record { trail = k.trail; depth = k.depth; assumed = k.assumed.items; numbers = k.numbers.items; steps = k.steps } };
}

impl KeptSearch {
    /// A search of which nothing was learnt yet, from a trail of the formula. The clauses and the pool's steps are at most
    /// 1,073,741,823 together. The error comes only for want of memory.
    pub fn over(
        alloc: Global,
        f: &Cnf,
        base: &Trail,
        pool: &Log,
        local: &[Clause],
    ) -> Result<KeptSearch, AllocError>
        requires base { IsBase f.now base.now }
        requires few { length f.now.clauses + length local.now + length pool.now < 2 ^ 30 }
        ensures kept { IfOk result (IsKept f.now local.now pool.now) }
        ensures none { IfOk result (λ k. k.steps ≡ []) }
    {
        let locals = split(alloc, f.len(), local)?;
        let others = locals.others.as_slice();
        let trail = trail_of(alloc, f, base, pool, others, locals.assumed.as_slice())?;
        let count = f.len() + others.len() as u32 + pool.steps().len() as u32;
        let numbers = locals.numbering.first(alloc, count)?;
        Ok(KeptSearch {
            trail,
            depth: 0,
            assumed: locals.assumed,
            numbers,
            steps: MarkedLog::new(alloc),
        })
    }

    /// How many steps are kept.
    pub fn len(&self) -> u64
        ensures { result ≡ length self.now.steps }
    {
        self.steps.log().steps().len() as u64
    }

    /// Goes on with the search over these local clauses. With the steps that are kept there are at most `budget` afterwards; these, the
    /// clauses and the pool's steps are at most 1,073,741,823 together. What is kept stays in front. Where a valuation is found, the
    /// answer tells no step; where what is given is refuted, it tells the steps alone that the last one needs, each but the last named by
    /// a hint of a later one; where the budget is spent, it tells all that are kept. The error comes only for want of memory.
    pub fn go_on(
        &mut self,
        alloc: Global,
        f: &Cnf,
        base: &Trail,
        pool: &Log,
        local: &[Clause],
        budget: u64,
        leaning: &mut SavedPhases,
        count: &mut StepCount,
    ) -> Result<Answer, AllocError>
        requires kept { IsKept f.now local.now pool.now self.old }
        requires base { IsBase f.now base.now }
        requires pool { IsAccepted f.now.clauses pool.now }
        requires few { length f.now.clauses + length local.now + length pool.now + budget < 2 ^ 30 }
        requires room { length self.old.steps ≤ budget }
        ensures kept { OnOk result (IsKept f.now local.now pool.now self.new) }
        ensures more { OnOk result (length self.old.steps ≤ length self.new.steps) }
        ensures stays { OnOk result ((learnt : List Step) × (self.new.steps ≡ self.old.steps ++ learnt)) }
        ensures most { OnOk result (length self.new.steps ≤ budget) }
        ensures answer { IfOk result (IsAnswerTo f.now local.now pool.now budget) }
        ensures silent { IfOk result TellsNoFound }
        ensures used { IfOk result (IsUsedUp (length f.now.clauses + length local.now + length pool.now)) }
        ensures count { OnOk result (count.new ≡ raised count.old (length self.new.steps - length self.old.steps)) }
        ensures spent { count.new + length self.old.steps ≤ count.old + budget }
        ensures leaning { IfOk result (λ a. leaning.new ≡ leaned_behind a leaning.old) }
        ensures err { OnErr result (leaning.new ≡ leaning.old) }
    {
        let left = budget - self.len();
        match self.learn_on(alloc, f, pool, local, left, leaning, count)? {
            Learnt::Found { valuation } => {
                leaning.follow(alloc, &valuation)?;
                let log = Log::new(alloc);
                Ok(Answer::Found { valuation, log })
            }
            Learnt::Clash => self.refute(alloc, f, base, pool, local, budget),
            Learnt::Spent => self.spend(alloc, f, base, pool, local, budget),
        }
    }

    // Searches, and keeps what was learnt.
    fn learn_on(
        &mut self,
        alloc: Global,
        f: &Cnf,
        pool: &Log,
        local: &[Clause],
        left: u64,
        leaning: &SavedPhases,
        count: &mut StepCount,
    ) -> Result<Learnt, AllocError>
        requires kept { IsKept f.now local.now pool.now self.old }
        requires few { length f.now.clauses + length local.now + length pool.now + length self.old.steps + left < 2 ^ 30 }
        ensures kept { OnOk result (IsKept f.now local.now pool.now self.new) }
        ensures more { OnOk result (length self.old.steps ≤ length self.new.steps) }
        ensures stays { OnOk result ((learnt : List Step) × (self.new.steps ≡ self.old.steps ++ learnt)) }
        ensures most { OnOk result (length self.new.steps ≤ length self.old.steps + left) }
        ensures end { IfOk result (IsLearntTo f.now local.now pool.now (length self.old.steps + left) self.new) }
        ensures count { OnOk result (count.new ≡ raised count.old (length self.new.steps - length self.old.steps)) }
        ensures spent { count.new ≤ count.old + left }
    {
        let _ = self.trail.vars(); // for the proof
        let given = f.len() + local.len() as u32 + pool.steps().len() as u32;
        let first = given + self.len() as u32 + 1;
        let assumed = self.assumed.as_slice();
        let ending = search_on(
            alloc,
            &mut self.trail,
            assumed,
            &mut self.depth,
            left,
            leaning,
            count,
        )?;
        settle(&mut self.trail, &mut self.depth, assumed, &ending);
        keep_all(
            alloc,
            &mut self.numbers,
            &mut self.steps,
            first,
            log_of(&ending),
        )?;
        Ok(learnt_of(ending))
    }

    // The refutation of what is given, which propagation makes of the steps that are kept: those alone that its last step needs.
    fn refute(
        &self,
        alloc: Global,
        f: &Cnf,
        base: &Trail,
        pool: &Log,
        local: &[Clause],
        budget: u64,
    ) -> Result<Answer, AllocError>
        requires kept { IsKept f.now local.now pool.now self.now }
        requires base { IsBase f.now base.now }
        requires pool { IsAccepted f.now.clauses pool.now }
        requires few { length f.now.clauses + length local.now + length pool.now + budget < 2 ^ 30 }
        requires room { length self.now.steps ≤ budget }
        requires clash { IsClash self.now.trail.clauses self.now.assumed }
        ensures answer { IfOk result (IsAnswerTo f.now local.now pool.now budget) }
        ensures end { IfOk result IsEnd }
        ensures used { IfOk result (IsUsedUp (length f.now.clauses + length local.now + length pool.now)) }
    {
        match refuted_at_once(alloc, f, base, pool, local, budget)? {
            Some(answer) => Ok(answer),
            None => {
                let log = self.told(alloc)?;
                let answer = refuted(alloc, f, base, pool, local, budget, log)?;
                trimmed_answer(alloc, f, pool, local, budget, answer)
            }
        }
    }

    // What is answered where as many steps are kept as the budget has, and one more follows.
    fn spend(
        &self,
        alloc: Global,
        f: &Cnf,
        base: &Trail,
        pool: &Log,
        local: &[Clause],
        budget: u64,
    ) -> Result<Answer, AllocError>
        requires kept { IsKept f.now local.now pool.now self.now }
        requires base { IsBase f.now base.now }
        requires pool { IsAccepted f.now.clauses pool.now }
        requires few { length f.now.clauses + length local.now + length pool.now + budget < 2 ^ 30 }
        requires all { length self.now.steps ≡ budget }
        requires more { HasMore f.now local.now pool.now self.now }
        ensures answer { IfOk result (IsAnswerTo f.now local.now pool.now budget) }
        ensures end { IfOk result IsEnd }
        ensures used { IfOk result (IsUsedUp (length f.now.clauses + length local.now + length pool.now)) }
    {
        match refuted_at_once(alloc, f, base, pool, local, budget)? {
            Some(answer) => Ok(answer),
            None => {
                let log = self.told(alloc)?;
                Ok(Answer::Spent { log })
            }
        }
    }

    /// The steps that are kept, with hints that number the clauses of the formula, the local clauses, the pool's steps and these steps,
    /// in this order. The error comes only for want of memory.
    pub fn told(&self, alloc: Global) -> Result<Log, AllocError>
        requires { AreWithin (length self.now.numbers) self.now.steps }
        ensures { IfOk result (λ log. log ≡ told self.now) }
    {
        renumbered_log(alloc, self.numbers.as_slice(), self.steps.log())
    }

    /// Blocks what falsifies a clause of the formula's variables: it is a local clause from now on, behind so many others. It answers
    /// whether it is: a clause of one literal isn't blocked, nor one that a kept step contains, and all stays as it was. The clauses, the
    /// pool's steps and those that are kept are at most 1,073,741,822 together. The error comes only for want of memory.
    pub fn block(
        &mut self,
        alloc: Global,
        f: &Cnf,
        pool: &Log,
        local: &[Clause],
        place: u32,
        clause: &Clause,
    ) -> Result<bool, AllocError>
        requires kept { IsKept f.now local.now pool.now self.old }
        requires few { length f.now.clauses + length local.now + length pool.now + length self.old.steps + 1 < 2 ^ 30 }
        requires place { place ≤ length local.now }
        requires vars { HasVarsUpTo f.now.vars clause.now }
        ensures blocked { IfOk result (λ is. (first rest : List (List Lit)) → local.now ≡ first ++ rest → place ≡ length first → IfBlocked f.now (first ++ clause.now ∷ rest) pool.now clause.now self.old self.new is) }
        ensures steps { OnOk result (self.new.steps ≡ self.old.steps) }
    {
        if clause.lits().len() == 1 || self.steps.is_contained(clause) {
            return Ok(false);
        }
        let above = f.len() + place;
        let mut numbers = lifted(alloc, self.numbers.as_slice(), above)?;
        numbers.push(above + 1)?;
        self.trail.add_given(clause)?;
        self.numbers = numbers;
        Ok(true)
    }
}

// Where no valuation was found, nothing is decided from now on.
fn settle(trail: &mut Trail, depth: &mut u32, assumed: &[Lit], ending: &Ending)
    requires stands { StandsBehind assumed.now depth.old trail.old ending.now }
    ensures stands { IsStanding assumed.now depth.new trail.new }
    ensures vars { trail.new.vars ≡ trail.old.vars }
    ensures clauses { trail.new.clauses ≡ trail.old.clauses }
{
    let _assumed = assumed; // for the proof
    let _ = trail.level(); // for the proof
    if let Ending::Found { .. } = ending {
        return;
    }
    trail.back_to(0);
    *depth = 0;
}

// The steps that a search on a trail learnt.
fn log_of(ending: &Ending) -> &Log
    ensures { result.now ≡ steps_of ending.now }
{
    match ending {
        Ending::Found { log, .. } => log,
        Ending::Clash { log } => log,
        Ending::Spent { log } => log,
    }
}

// What its steps led to.
fn learnt_of(ending: Ending) -> Learnt
    ensures { IsLearntOf ending result }
{
    match ending {
        Ending::Found { valuation, .. } => Learnt::Found { valuation },
        Ending::Clash { .. } => Learnt::Clash,
        Ending::Spent { .. } => Learnt::Spent,
    }
}

// Puts steps behind others, which are numbered from this number on.
fn keep_all(
    alloc: Global,
    numbers: &mut Vec<u32>,
    steps: &mut MarkedLog,
    first: u32,
    log: &Log,
) -> Result<(), AllocError>
    requires first { first + length log.now < 2 ^ 31 }
    requires few { length steps.old + length log.now < 2 ^ 30 }
    ensures numbers { OnOk result (numbers.new.items ≡ numbers.old.items ++ numbers_from first (length log.now)) }
    ensures steps { OnOk result (steps.new ≡ steps.old ++ log.now) }
{
    for (place, step) in log.steps().iter().enumerate() {
        numbers.push(first + place as u32)?;
        steps.push(step.copy(alloc)?)?;
    }
    Ok(())
}

// The steps with these numbers in place of their hints.
fn renumbered_log(alloc: Global, numbers: &[u32], steps: &Log) -> Result<Log, AllocError>
    requires { AreWithin (length numbers.now) steps.now }
    ensures { IfOk result (λ log. log ≡ told_by numbers.now steps.now) }
{
    let mut log = Log::new(alloc);
    for step in steps.steps() {
        log.push(renumbered(alloc, numbers, step)?)?;
    }
    Ok(log)
}

// The step with these numbers in place of its hints, the first number for hint 1.
fn renumbered(alloc: Global, numbers: &[u32], step: &Step) -> Result<Step, AllocError>
    requires { All (λ hint. (1 ≤ hint) × (hint ≤ length numbers.now)) step.now.hints }
    ensures { IfOk result (λ s. s ≡ numbered (number_in numbers.now) step.now) }
{
    let mut hints = Vec::with_capacity(alloc, step.hints.numbers().len())?;
    for hint in step.hints.numbers() {
        hints.push(numbers[(*hint - 1) as usize])?;
    }
    let clause = step.clause.copy(alloc)?;
    Ok(Step {
        clause,
        hints: Hints::of(hints),
    })
}

// The numbers, with those above this one raised by one.
fn lifted(alloc: Global, numbers: &[u32], above: u32) -> Result<Vec<u32>, AllocError>
    requires { All (λ n. n < 2 ^ 30) numbers.now }
    ensures { IfOk result (λ new. new.items ≡ map (lifted_hint above 1) numbers.now) }
{
    let mut lifted = Vec::with_capacity(alloc, numbers.len() + 1)?;
    for number in numbers {
        lifted.push(lifted_one(*number, above))?;
    }
    Ok(lifted)
}

fn lifted_one(number: u32, above: u32) -> u32
    requires { number < 2 ^ 30 }
    ensures { result ≡ lifted_hint above 1 number }
{
    if number > above { number + 1 } else { number }
}

// The answer; of a refutation, the steps alone that the last one needs.
fn trimmed_answer(
    alloc: Global,
    f: &Cnf,
    pool: &Log,
    local: &[Clause],
    budget: u64,
    answer: Answer,
) -> Result<Answer, AllocError>
    requires few { length f.now.clauses + length local.now + length pool.now + budget < 2 ^ 30 }
    requires answer { IsAnswerTo f.now local.now pool.now budget answer }
    requires end { IsEnd answer }
    ensures answer { IfOk result (IsAnswerTo f.now local.now pool.now budget) }
    ensures end { IfOk result IsEnd }
    ensures used { IfOk result (IsUsedUp (length f.now.clauses + length local.now + length pool.now)) }
{
    let _budget = budget; // for the proof
    match answer {
        Answer::Found { valuation, log } => Ok(Answer::Found { valuation, log }),
        Answer::Refuted { log } => {
            let given = f.len() + local.len() as u32 + pool.steps().len() as u32;
            let log = trimmed(alloc, given, &log)?;
            Ok(Answer::Refuted { log })
        }
        Answer::Spent { log } => Ok(Answer::Spent { log }),
    }
}

// The answer where propagation refutes what is given without any step.
fn refuted_at_once(
    alloc: Global,
    f: &Cnf,
    base: &Trail,
    pool: &Log,
    local: &[Clause],
    budget: u64,
) -> Result<Option<Answer>, AllocError>
    requires base { IsBase f.now base.now }
    requires pool { IsAccepted f.now.clauses pool.now }
    requires few { length f.now.clauses + length local.now + length pool.now + budget < 2 ^ 30 }
    ensures answer { IfOk result (λ o. MatchOption o ((hints : List ℕ) → ¬ IsChain (members_of (f.now.clauses ++ local.now) pool.now) [] hints) (λ a. IsAnswerTo f.now local.now pool.now budget a × IsEnd a)) }
    ensures used { IfOk result (λ o. IfSome o (IsUsedUp (length f.now.clauses + length local.now + length pool.now))) }
{
    let mut trail = base.grown(alloc, f, pool, local)?;
    match trail.propagate() {
        Propagated::Conflict(number) => {
            let last = learn(alloc, &trail, number)?;
            let answer = refuted_by(f, pool, local, budget, Log::new(alloc), last)?;
            Ok(Some(answer))
        }
        Propagated::Closed => Ok(None),
    }
}
