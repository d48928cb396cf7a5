// The local clauses of a search, and how an answer numbers them.
ghost use Rattle.std.specs.Prelude.{◌≡◌, ◌+◌, ◌≤◌, ◌<◌, ◌^◌, ◌++◌, ◌∷◌, [], List, ℕ, All, IfOk, OnOk, length, map, slice_index_or};
ghost use Rattle.cnf_core.specs.declared.literal.Lit.{Lit};
ghost use Rattle.cnf_core.specs.Literal.{IsVariable};
ghost use Rattle.sat_core.specs.Assuming.{IsSplit, number_of, numbered};

use cnf_core::{Clause, Lit};
use refutation_check::{Hints, Log, Step};
use std::alloc::{AllocError, Global};

/// How the members of a trail are numbered in an answer: so many clauses of the formula, then so many local clauses, of which
/// those at these places are clauses of the trail, and then the steps.
#[derive(Drop)]
pub(crate) struct Numbering {
    clauses: u32,
    local: u32,
    places: Vec<u32>,
}

/// The local clauses of a search: the literals of those of one literal, and the others, with their places.
#[derive(Drop)]
pub(crate) struct Locals {
    pub assumed: Vec<Lit>,
    pub others: Vec<Clause>,
    pub numbering: Numbering,
}

// Puts the local clause at this place where it belongs.
fn put(
    alloc: Global,
    assumed: &mut Vec<Lit>,
    others: &mut Vec<Clause>,
    places: &mut Vec<u32>,
    clause: &Clause,
    place: u32,
) -> Result<(), AllocError>
    requires place { place + 1 < 2 ^ 30 }
    ensures split { OnOk result ((local : List (List Lit)) → length local ≡ place → IsSplit local assumed.old.items others.old.items places.old.items → IsSplit (local ++ clause.now ∷ []) assumed.new.items others.new.items places.new.items) }
    ensures vars { OnOk result (All (λ l. IsVariable l.var) assumed.old.items → All (λ l. IsVariable l.var) assumed.new.items) }
{
    let lits = clause.lits();
    if lits.len() == 1 {
        assumed.push(lits[0])?;
        return Ok(());
    }
    others.push(clause.copy(alloc)?)?;
    places.push(place + 1)?;
    Ok(())
}

/// Splits the local clauses, which come after so many clauses of the formula.
pub(crate) fn split(alloc: Global, clauses: u32, local: &[Clause]) -> Result<Locals, AllocError>
    requires { clauses + length local.now < 2 ^ 30 }
    ensures split { IfOk result (λ s. IsSplit local.now s.assumed.items s.others.items s.numbering.places.items) }
    ensures vars { IfOk result (λ s. All (λ l. IsVariable l.var) s.assumed.items) }
    ensures clauses { IfOk result (λ s. s.numbering.clauses ≡ clauses) }
    ensures local { IfOk result (λ s. s.numbering.local ≡ length local.now) }
{
    let mut assumed = Vec::new(alloc);
    let mut others = Vec::new(alloc);
    let mut places = Vec::new(alloc);
    for (i, clause) in local.iter().enumerate() {
        put(
            alloc,
            &mut assumed,
            &mut others,
            &mut places,
            clause,
            i as u32,
        )?;
    }
    let numbering = Numbering {
        clauses,
        local: local.len() as u32,
        places,
    };
    Ok(Locals {
        assumed,
        others,
        numbering,
    })
}

impl Numbering {
    // The number in an answer of the member that has this number on the trail.
    fn number(&self, hint: u32) -> u32
        requires hint { hint < 2 ^ 30 }
        requires clauses { self.now.clauses + self.now.local < 2 ^ 30 }
        requires places { All (λ place. place ≤ self.now.local) self.now.places.items }
        ensures { result ≡ number_of self.now.clauses self.now.local self.now.places.items hint }
    {
        if hint <= self.clauses {
            return hint;
        }
        match self.places.get((hint - self.clauses - 1) as usize) {
            Some(place) => self.clauses + *place,
            None => hint - self.places.len() as u32 + self.local,
        }
    }

    /// The numbers in an answer of so many members of a trail, from the first one on.
    pub(crate) fn first(&self, alloc: Global, count: u32) -> Result<Vec<u32>, AllocError>
        requires count { count < 2 ^ 30 }
        requires clauses { self.now.clauses + self.now.local < 2 ^ 30 }
        requires places { All (λ place. place ≤ self.now.local) self.now.places.items }
        ensures long { IfOk result (λ numbers. length numbers.items ≡ count) }
        ensures each { IfOk result (λ numbers. (i : ℕ) → i < count → slice_index_or numbers.items i 0 ≡ number_of self.now.clauses self.now.local self.now.places.items (i + 1)) }
    {
        let mut numbers = Vec::with_capacity(alloc, count as usize)?;
        for place in 0..count {
            numbers.push(self.number(place + 1))?;
        }
        Ok(numbers)
    }

    // The step with the numbers of an answer.
    fn step(&self, alloc: Global, step: &Step) -> Result<Step, AllocError>
        requires hints { All (λ hint. hint < 2 ^ 30) step.now.hints }
        requires clauses { self.now.clauses + self.now.local < 2 ^ 30 }
        requires places { All (λ place. place ≤ self.now.local) self.now.places.items }
        ensures { IfOk result (λ s. s ≡ numbered (number_of self.now.clauses self.now.local self.now.places.items) step.now) }
    {
        let mut numbers = Vec::with_capacity(alloc, step.hints.numbers().len())?;
        for hint in step.hints.numbers() {
            numbers.push(self.number(*hint))?;
        }
        let clause = step.clause.copy(alloc)?;
        Ok(Step {
            clause,
            hints: Hints::of(numbers),
        })
    }

    /// The steps with the numbers of an answer.
    pub(crate) fn log(&self, alloc: Global, log: &Log) -> Result<Log, AllocError>
        requires hints { All (λ s. All (λ hint. hint < 2 ^ 30) s.hints) log.now }
        requires clauses { self.now.clauses + self.now.local < 2 ^ 30 }
        requires places { All (λ place. place ≤ self.now.local) self.now.places.items }
        ensures { IfOk result (λ steps. steps ≡ map (numbered (number_of self.now.clauses self.now.local self.now.places.items)) log.now) }
    {
        let mut steps = Log::new(alloc);
        for step in log.steps() {
            steps.push(self.step(alloc, step)?)?;
        }
        Ok(steps)
    }
}
