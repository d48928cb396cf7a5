// The pool of the steps that searches share.
ghost use Rattle.std.specs.Prelude.{◌≡◌, ◌+◌, ◌-◌, ◌≤◌, ◌<◌, ◌^◌, ◌++◌, [], IfOk, OnErr, List, length, take};
ghost use Rattle.refutation_check.specs.declared.log.Step.{Step as LogStep};
ghost use Rattle.refutation_check.specs.Chain.{members_of, IsAccepted};
ghost use Rattle.refutation_check.specs.Pool.{most_pool_steps};
ghost use Rattle.clause_pool.specs.Limits.{numbers_in, most_pool_numbers, IsWithinLimits, IsLongestFit, moved_behind};

use crate::steps::{first_of, lifted_front};
use cnf_core::Cnf;
use refutation_check::{Log, Step};
use std::alloc::{AllocError, Global};
use std::marker::Model;

/// The steps that a pool has at most.
pub const MOST_STEPS: u32 = 20_000;

/// The literals and hints that a pool has at most, together.
pub const MOST_NUMBERS: u32 = 2_000_000;

/// At most 20,000 steps, with at most 2,000,000 literals and hints together. Contracts see the list of the steps.
#[derive(Debug, Drop)]
pub struct Pool {
    shared: Vec<Log>,
    steps: u32,
    numbers: u32,
}

impl Model for Pool {
    ghost use Rattle.std.specs.Prelude.{List};
    ghost use Rattle.refutation_check.specs.declared.log.Step.{Step};
    ghost use Rattle.clause_pool.specs.Pooled.{steps_of, IsCounted};

    ghost Value = { List Step };

    ghost view = { λ p. steps_of p.shared.items };

    ghost invariant = { λ p. IsCounted (steps_of p.shared.items) p.steps p.numbers };
}

impl Pool {
    /// A pool without steps.
    pub fn new(alloc: Global) -> Pool
        ensures { result ≡ [] }
    {
        Pool {
            shared: Vec::new(alloc),
            steps: 0,
            numbers: 0,
        }
    }

    /// The number of steps.
    pub fn len(&self) -> u32
        ensures len { result ≡ length self.now }
        ensures limits { IsWithinLimits self.now }
    {
        self.steps
    }

    /// The first `n` steps, where `n` is at most the number of steps.
    pub fn prefix(&self, alloc: Global, n: u32) -> Result<Log, AllocError>
        requires { n ≤ length self.now }
        ensures { IfOk result (λ log. log ≡ take n self.now) }
    {
        Ok(first_of(alloc, self.shared.as_slice(), n)?)
    }

    /// The steps that `share` appends, with the hints that they get: so a caller can keep them before they are shared.
    pub fn addition(&self, alloc: Global, f: &Cnf, at: u32, free: &Log) -> Result<Log, AllocError>
        requires at { at ≤ length self.now }
        requires free { IsAccepted (members_of f.now.clauses (take at self.now)) free.now }
        ensures steps { IfOk result (λ added. added ≡ take (length added) (moved_behind (length f.now.clauses) at self.now free.now)) }
        ensures longest { IfOk result (λ added. IsLongestFit self.now (moved_behind (length f.now.clauses) at self.now free.now) (length added)) }
    {
        let (count, _) = fitting(free.steps(), self.steps, self.numbers);
        Ok(lifted_front(alloc, free, count, f.len() + at, self.steps - at)?)
    }

    /// Appends as many of the steps, the first ones, as fit both limits, and answers how many they are. The steps go on
    /// from the pool's first `at` ones over the clauses of `f`; where others came behind those, hints are raised to make
    /// room for them. So the pool stays a log over these clauses alone. After an error it is as before.
    pub fn share(&mut self, alloc: Global, f: &Cnf, at: u32, free: &Log) -> Result<u32, AllocError>
        requires at { at ≤ length self.old }
        requires free { IsAccepted (members_of f.now.clauses (take at self.old)) free.now }
        ensures appended { IfOk result (λ n. self.new ≡ self.old ++ take n (moved_behind (length f.now.clauses) at self.old free.now)) }
        ensures longest { IfOk result (λ n. IsLongestFit self.old (moved_behind (length f.now.clauses) at self.old free.now) n) }
        ensures accepted { IsAccepted f.now.clauses self.old → IsAccepted f.now.clauses self.new }
        ensures err { OnErr result (self.new ≡ self.old) }
    {
        let (count, numbers) = fitting(free.steps(), self.steps, self.numbers);
        let raised = lifted_front(alloc, free, count, f.len() + at, self.steps - at)?;
        self.shared.push(raised)?;
        self.steps += count;
        self.numbers += numbers;
        Ok(count)
    }
}

// How many of the steps, the first ones, fit behind a pool of so many steps with so many literals and hints; and how
// many literals and hints they have.
fn fitting(steps: &[Step], pool_steps: u32, pool_numbers: u32) -> (u32, u32)
    requires steps { pool_steps ≤ most_pool_steps }
    requires numbers { pool_numbers ≤ most_pool_numbers }
    ensures longest { (pool : List LogStep) → length pool ≡ pool_steps → numbers_in pool ≡ pool_numbers → IsLongestFit pool steps.now result.0 }
    ensures numbers { result.1 ≡ numbers_in (take result.0 steps.now) }
{
    let mut numbers = 0;
    for (i, step) in steps.iter().enumerate() {
        let more = size_of(step);
        let room = MOST_NUMBERS - pool_numbers - numbers;
        if pool_steps as usize + i == MOST_STEPS as usize || more > room as usize {
            return (i as u32, numbers);
        }
        numbers += more as u32;
    }
    (steps.len() as u32, numbers)
}

// The literals and hints of a step.
fn size_of(step: &Step) -> usize
    ensures { result ≡ length step.now.clause + length step.now.hints }
{
    step.clause.lits().len() + step.hints.numbers().len()
}
