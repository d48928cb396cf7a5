// New numbers of the members of a search that are kept.
ghost use Rattle.std.specs.Prelude.{◌≡◌, ◌+◌, ◌-◌, ◌<◌, ◌≤◌, ◌^◌, ◌++◌, ◌∷◌, [], true, false, OnOk, OnErr, length, slice_index};
ghost use Rattle.refutation_check.specs.Renumbering.{not_local};
ghost use Rattle.clause_pool.specs.Freeing.{new_number};
ghost use Rattle.clause_pool.specs.Pooled.{marks_of, HasNewNumbers};

use std::alloc::{AllocError, Global};
use std::marker::Model;

/// Which members of a search are kept: its clauses and its pool steps, not its local clauses, and of its own steps
/// those that were told so. Contracts see one mark for each member.
#[derive(Drop)]
pub struct Renumbering {
    clauses: u32,
    local: u32,
    pool: u32,
    // the new number of each own step, or 0
    own: Vec<u32>,
    last: u32,
}

impl Model for Renumbering {
    ghost use Rattle.std.specs.Prelude.{◌+◌, ◌<◌, ◌^◌, ◌++◌, List, Bool, length};
    ghost use Rattle.refutation_check.specs.Renumbering.{not_local};
    ghost use Rattle.clause_pool.specs.Pooled.{marks_of, IsTable};

    ghost Value = { List Bool };

    ghost view = { λ r. not_local r.clauses r.local r.pool ++ marks_of r.own.items };

    ghost invariant = { λ r. (r.clauses + r.local + r.pool + length r.own.items < 2 ^ 32) × IsTable (r.clauses + r.pool) r.last r.own.items };
}

impl Renumbering {
    /// No own steps yet.
    pub fn of(alloc: Global, clauses: u32, local: u32, pool: u32) -> Renumbering
        requires { clauses + local + pool < 2 ^ 32 }
        ensures { result ≡ not_local clauses local pool }
    {
        Renumbering {
            clauses,
            local,
            pool,
            own: Vec::new(alloc),
            last: clauses + pool,
        }
    }

    /// The new number of a member, from 1, or 0 where it isn't kept.
    pub fn new_number(&self, hint: u32) -> u32
        requires { 1 ≤ hint }
        ensures { result ≡ new_number self.now hint }
    {
        new_number_of(
            hint,
            self.clauses,
            self.local,
            self.pool,
            self.own.as_slice(),
        )
    }

    /// The next own step is kept. After an error it is as before.
    pub fn keep(&mut self) -> Result<(), AllocError>
        requires { length self.old + 1 < 2 ^ 32 }
        ensures ok { OnOk result (self.new ≡ self.old ++ true ∷ []) }
        ensures err { OnErr result (self.new ≡ self.old) }
    {
        let number = self.last + 1;
        self.own.push(number)?;
        self.last = number;
        Ok(())
    }

    /// The next own step isn't kept. After an error it is as before.
    pub fn leave_out(&mut self) -> Result<(), AllocError>
        requires { length self.old + 1 < 2 ^ 32 }
        ensures ok { OnOk result (self.new ≡ self.old ++ false ∷ []) }
        ensures err { OnErr result (self.new ≡ self.old) }
    {
        self.own.push(0)?;
        Ok(())
    }
}

// The new number of a member, or 0, where the own steps have these.
fn new_number_of(hint: u32, clauses: u32, local: u32, pool: u32, own: &[u32]) -> u32
    requires from_one { 1 ≤ hint }
    requires room { clauses + local + pool < 2 ^ 32 }
    requires table { HasNewNumbers (clauses + pool) own.now }
    ensures { result ≡ new_number (not_local clauses local pool ++ marks_of own.now) hint }
{
    if hint <= clauses {
        hint
    } else if hint <= clauses + local {
        0
    } else if hint <= clauses + local + pool {
        hint - local
    } else {
        own_number(own, hint - clauses - local - pool)
    }
}

// The new number of the own step of this number, or 0.
fn own_number(own: &[u32], number: u32) -> u32
    requires { 1 ≤ number }
    ensures { result ≡ slice_index own.now (number - 1) }
{
    match own.get(number as usize - 1) {
        None => 0,
        Some(new) => *new,
    }
}
