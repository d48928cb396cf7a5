// Parts of a search: local clauses and what was derived with them.
ghost use Rattle.std.specs.Prelude.{◌≡◌, ◌+◌, ◌++◌, ◌∷◌, [], ◌<◌, ◌≤◌, ◌^◌, Some, IfOk, OnOk, length, drop, slice_get};
ghost use Rattle.refutation_check.specs.Shared.{shared_in};

use crate::log::Log;
use cnf_core::Clause;
use std::alloc::{AllocError, Global};
use std::marker::Model;
use std::sync::Arc;

/// Clauses that hold in one part of a search alone, and the log of what was derived with them: at most
/// 268,435,456 clauses and steps together. Contracts see both lists. Parts that were made of the same `LocalClauses`
/// share most of their clauses.
#[derive(Drop)]
pub struct Part {
    shared: Option<Arc<Clauses>>,
    own: Vec<Clause>,
    log: Log,
}

// Clauses that parts share.
#[derive(Drop)]
struct Clauses {
    clauses: Vec<Clause>,
}

impl Model for Part {
    ghost use Rattle.std.specs.Prelude.{◌+◌, ◌++◌, ◌≤◌, ◌^◌, length};
    ghost use Rattle.refutation_check.specs.Part.{Parted};
    ghost use Rattle.refutation_check.specs.Shared.{shared_in};

    ghost Value = { Parted };

    ghost view = { λ p. record { local = shared_in p.shared ++ p.own.items; log = p.log } };

    ghost invariant = { λ p. length (shared_in p.shared) + length p.own.items + length p.log ≤ 2 ^ 28 };
}

impl Model for Clauses {
    ghost use Rattle.std.specs.Prelude.{List};
    ghost use Rattle.cnf_core.specs.declared.literal.Lit.{Lit};

    ghost Value = { List (List Lit) };

    ghost view = { λ c. c.clauses.items };
}

impl Clauses {
    fn as_slice(&self) -> &[Clause]
        ensures { result.now ≡ self.now }
    {
        self.clauses.as_slice()
    }
}

impl Part {
    /// The part with these local clauses and this log.
    pub fn of(local: Vec<Clause>, log: Log) -> Part
        requires { length local.items + length log ≤ 2 ^ 28 }
        ensures { result ≡ record { local = local.items; log = log } }
    {
        Part {
            shared: None,
            own: local,
            log,
        }
    }

    /// How many clauses hold in this part alone.
    pub fn local_len(&self) -> usize
        ensures local { result ≡ length self.now.local }
        ensures few { length self.now.local + length self.now.log ≤ 2 ^ 28 }
    {
        slice_of(&self.shared).len() + self.own.len()
    }

    /// The clause that stands behind so many of those that hold in this part alone.
    pub fn local(&self, place: usize) -> &Clause
        requires { place < length self.now.local }
        ensures { slice_get self.now.local place ≡ Some result.now }
    {
        clause_at(slice_of(&self.shared), self.own.as_slice(), place)
    }

    /// What was derived, with the local clauses.
    pub fn log(&self) -> &Log
        ensures log { result.now ≡ self.now.log }
        ensures few { length self.now.local + length self.now.log ≤ 2 ^ 28 }
    {
        &self.log
    }

    /// The same local clauses with another log.
    pub fn with_log(self, log: Log) -> Part
        requires { length self.local + length log ≤ 2 ^ 28 }
        ensures { result ≡ record { local = self.local; log = log } }
    {
        Part {
            shared: self.shared,
            own: self.own,
            log,
        }
    }

    /// An equal part.
    pub fn copy(&self, alloc: Global) -> Result<Part, AllocError>
        ensures { IfOk result (λ p. p ≡ self.now) }
    {
        let shared = shared_again(&self.shared)?;
        let own = copies_of(alloc, self.own.as_slice())?;
        let log = self.log.copy(alloc)?;
        Ok(Part { shared, own, log })
    }
}

// The clauses that are shared, if any.
fn slice_of(shared: &Option<Arc<Clauses>>) -> &[Clause]
    ensures { result.now ≡ shared_in shared.now }
{
    match shared {
        Some(held) => held.as_slice(),
        None => &[],
    }
}

// The clause behind so many of those of two lists.
fn clause_at<'a>(first: &'a [Clause], second: &'a [Clause], place: usize) -> &'a Clause
    requires { place < length first.now + length second.now }
    ensures { slice_get (first.now ++ second.now) place ≡ Some result.now }
{
    if place < first.len() {
        &first[place]
    } else {
        &second[place - first.len()]
    }
}

// The same clauses, for one part more to share. It takes no memory.
fn shared_again(shared: &Option<Arc<Clauses>>) -> Result<Option<Arc<Clauses>>, AllocError>
    ensures { IfOk result (λ again. shared_in again ≡ shared_in shared.now) }
{
    match shared {
        None => Ok(None),
        Some(held) => Ok(Some(Arc::try_clone(held)?)),
    }
}

fn copies_of(alloc: Global, clauses: &[Clause]) -> Result<Vec<Clause>, AllocError>
    ensures { IfOk result (λ copies. copies.items ≡ clauses.now) }
{
    let mut copies = Vec::new(alloc);
    for clause in clauses {
        copies.push(clause.copy(alloc)?)?;
    }
    Ok(copies)
}

// How many clauses of its own a part that is made of `LocalClauses` has at most.
const MOST_OWN: usize = 64;

/// The local clauses of a search that goes on, to which one is added after the other. The parts that are made of them share them,
/// but for at most 64 each.
#[derive(Drop)]
pub struct LocalClauses {
    all: Vec<Clause>,
    shared: Arc<Clauses>,
}

impl Model for LocalClauses {
    ghost use Rattle.std.specs.Prelude.{◌≡◌, ◌≤◌, List, take, length};
    ghost use Rattle.cnf_core.specs.declared.literal.Lit.{Lit};

    ghost Value = { List (List Lit) };

    ghost view = { λ c. c.all.items };

    ghost invariant = { λ c. (length c.shared.value ≤ length c.all.items) × (take (length c.shared.value) c.all.items ≡ c.shared.value) };
}

impl LocalClauses {
    /// These clauses. The error comes only for want of memory.
    pub fn of(alloc: Global, clauses: Vec<Clause>) -> Result<LocalClauses, AllocError>
        ensures { IfOk result (λ c. c ≡ clauses.items) }
    {
        let shared = shared_copy(alloc, clauses.as_slice())?;
        Ok(LocalClauses {
            all: clauses,
            shared,
        })
    }

    /// The clauses, in order.
    pub fn as_slice(&self) -> &[Clause]
        ensures { result.now ≡ self.now }
    {
        self.all.as_slice()
    }

    /// Gives the clauses back.
    pub fn into_clauses(self) -> Vec<Clause>
        ensures { result.items ≡ self }
    {
        self.all
    }

    /// Adds a clause. The error comes only for want of memory.
    pub fn push(&mut self, clause: Clause) -> Result<(), AllocError>
        ensures { OnOk result (self.new ≡ self.old ++ clause ∷ []) }
    {
        self.all.push(clause)?;
        Ok(())
    }

    /// The part with these clauses and this log. The error comes only for want of memory.
    pub fn part(&mut self, alloc: Global, log: Log) -> Result<Part, AllocError>
        requires { length self.old + length log ≤ 2 ^ 28 }
        ensures part { IfOk result (λ p. p ≡ record { local = self.old; log = log }) }
        ensures same { self.new ≡ self.old }
    {
        self.share(alloc)?;
        let held = Arc::try_clone(&self.shared)?;
        let own = copies_of(alloc, behind(self.all.as_slice(), held.as_slice().len()))?;
        Ok(Part {
            shared: Some(held),
            own,
            log,
        })
    }

    // Shares all clauses where more than 64 of them aren't shared.
    fn share(&mut self, alloc: Global) -> Result<(), AllocError>
        ensures { self.new ≡ self.old }
    {
        if self.all.len() - self.shared.as_slice().len() <= MOST_OWN {
            return Ok(());
        }
        self.shared = shared_copy(alloc, self.all.as_slice())?;
        Ok(())
    }
}

// The clauses behind the first so many.
fn behind(clauses: &[Clause], n: usize) -> &[Clause]
    requires { n ≤ length clauses.now }
    ensures { result.now ≡ drop n clauses.now }
{
    &clauses[n..]
}

// An equal list of clauses, for parts to share.
fn shared_copy(alloc: Global, clauses: &[Clause]) -> Result<Arc<Clauses>, AllocError>
    ensures { IfOk result (λ c. c.value ≡ clauses.now) }
{
    let clauses = copies_of(alloc, clauses)?;
    Ok(Arc::new(alloc, Clauses { clauses })?)
}
