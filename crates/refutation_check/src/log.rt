// Logs: derived clauses with their hints.
ghost use Rattle.std.specs.Prelude.{◌≡◌, ◌+◌, ◌<◌, ◌^◌, ◌++◌, ◌∷◌, [], IfOk, OnOk, OnErr, length};
ghost use Rattle.cnf_core.specs.Literal.{IsClause};
ghost use Rattle.refutation_check.specs.Log.{IsLog};

use cnf_core::Clause;
use std::alloc::{AllocError, Global};
use std::marker::Model;

/// Numbers of clauses and earlier steps. Contracts see the list of them.
#[derive(Debug, Drop)]
pub struct Hints {
    numbers: Vec<u32>,
}

impl Model for Hints {
    ghost use Rattle.std.specs.Prelude.{List, ℕ};

    ghost Value = { List ℕ };

    ghost view = { λ h. h.numbers.items };
}

impl Hints {
    /// The hints with these numbers.
    pub fn of(numbers: Vec<u32>) -> Hints
        ensures { result ≡ numbers.items }
    {
        Hints { numbers }
    }

    /// The numbers, in order.
    pub fn numbers(&self) -> &[u32]
        ensures { result.now ≡ self.now }
    {
        self.numbers.as_slice()
    }

    /// Gives the numbers back.
    pub fn into_numbers(self) -> Vec<u32>
        ensures { result.items ≡ self }
    {
        self.numbers
    }

    /// Equal hints.
    pub fn copy(&self, alloc: Global) -> Result<Hints, AllocError>
        ensures { IfOk result (λ h. h ≡ self.now) }
    {
        let numbers = Vec::from_slice(alloc, self.numbers.as_slice())?;
        Ok(Hints { numbers })
    }
}

/// A derived clause, and the numbers of what it is derived from: the clauses of a formula are numbered
/// from 1, and the steps of a log on from there.
#[derive(Debug, Drop)]
pub struct Step {
    pub clause: Clause,
    pub hints: Hints,
}

impl Step {
    /// An equal step.
    pub fn copy(&self, alloc: Global) -> Result<Step, AllocError>
        ensures { IfOk result (λ s. s ≡ self.now) }
    {
        let clause = self.clause.copy(alloc)?;
        let hints = self.hints.copy(alloc)?;
        Ok(Step { clause, hints })
    }
}

/// At most 1,073,741,823 steps. Contracts see the list of them.
#[derive(Debug, Drop)]
pub struct Log {
    steps: Vec<Step>,
}

impl Model for Log {
    ghost use Rattle.std.specs.Prelude.{List};
    ghost use Rattle.refutation_check.specs.declared.log.Step.{Step};

    ghost Value = { List Step };

    ghost use Rattle.refutation_check.specs.Log.{IsLog};

    ghost view = { λ log. log.steps.items };

    ghost invariant = { λ log. IsLog log.steps.items };
}

impl Log {
    /// A log with no steps.
    pub fn new(alloc: Global) -> Log
        ensures { result ≡ [] }
    {
        Log {
            steps: Vec::new(alloc),
        }
    }

    /// Puts a step at the end. After an error the log is as before.
    pub fn push(&mut self, s: Step) -> Result<(), AllocError>
        requires room { length self.old + 1 < 2 ^ 30 }
        ensures ok { OnOk result (self.new ≡ self.old ++ s ∷ []) }
        ensures err { OnErr result (self.new ≡ self.old) }
    {
        let _ = s.clause.lits(); // for the proof
        self.steps.push(s)?;
        Ok(())
    }

    /// The steps, in order.
    pub fn steps(&self) -> &[Step]
        ensures steps { result.now ≡ self.now }
        ensures log { IsLog self.now }
    {
        self.steps.as_slice()
    }

    /// An equal log.
    pub fn copy(&self, alloc: Global) -> Result<Log, AllocError>
        ensures { IfOk result (λ log. log ≡ self.now) }
    {
        let steps = copies_of(alloc, self.steps.as_slice())?;
        Ok(Log { steps })
    }
}

fn copies_of(alloc: Global, steps: &[Step]) -> Result<Vec<Step>, AllocError>
    ensures { IfOk result (λ copies. copies.items ≡ steps.now) }
{
    let mut copies = Vec::new(alloc);
    for step in steps {
        copies.push(step.copy(alloc)?)?;
    }
    Ok(copies)
}
