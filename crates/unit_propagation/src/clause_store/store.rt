// Clauses one behind the other.
ghost use Rattle.std.specs.Prelude.{◌≡◌, ◌+◌, ◌-◌, ◌<◌, ◌≤◌, ◌^◌, ◌++◌, ◌∷◌, [], All, IfOk, OnOk, OnErr, length, map, slice_get, slice_index, slice_range, Some, take, vec_len, vec_capacity};
ghost use Rattle.cnf_core.specs.Literal.{IsClause};
ghost use Rattle.unit_propagation.specs.Clauses.Codes as codes;
ghost use Rattle.unit_propagation.specs.Clauses.Parts.{EndsAt, start_at};

use crate::clause_store::code::code_of;
use cnf_core::{Clause, Lit};
use std::alloc::{AllocError, Global};
use std::marker::Model;

/// Clauses, numbered from 1, in one list of the numbers of their literals. Contracts see the clauses.
#[derive(Debug, Drop)]
pub struct Store {
    codes: Vec<u32>,
    ends: Vec<u32>,
}

impl Model for Store {
    ghost use Rattle.std.specs.Prelude.{List};
    ghost use Rattle.cnf_core.specs.declared.literal.Lit.{Lit};

    ghost Value = { List (List Lit) };

    ghost use Rattle.unit_propagation.specs.Clauses.Stored.{IsStore, stored};

    ghost view = { stored };

    ghost invariant = { IsStore };
}

// Puts the numbers of the literals at the end. After an error the list is as before.
fn put_codes(into: &mut Vec<u32>, lits: &[Lit]) -> Result<(), AllocError>
    requires { All (λ l. l.var < 2 ^ 31) lits.now }
    ensures ok { OnOk result (into.new.items ≡ into.old.items ++ map codes.code_of lits.now) }
    ensures err { OnErr result (into.new.items ≡ into.old.items) }
{
    into.reserve(lits.len())?;
    for lit in lits {
        let _ = into.push(code_of(*lit));
    }
    Ok(())
}

// Puts an end where there is room for it.
fn put_end(ends: &mut Vec<u32>, end: u32)
    requires { vec_len ends.old < vec_capacity ends.old }
    ensures { ends.new.items ≡ ends.old.items ++ end ∷ [] }
{
    let _ = ends.push(end);
}

// Where the clause of this place, from 0, starts.
fn start_of(ends: &[u32], n: usize) -> u32
    requires { n < length ends.now }
    ensures { result ≡ start_at 0 ends.now n }
{
    if n == 0 { 0 } else { ends[n - 1] }
}

// The numbers of the literals of the clause of this place, from 0.
fn part<'a>(codes: &'a [u32], ends: &[u32], n: usize) -> &'a [u32]
    requires ends { EndsAt (length codes.now) 0 ends.now }
    requires in_range { n < length ends.now }
    ensures { result.now ≡ slice_range codes.now (start_at 0 ends.now n) (slice_index ends.now n) }
{
    let start = start_of(ends, n);
    &codes[start as usize..ends[n] as usize]
}

// Takes the last end away, with the numbers of the literals from where its clause starts.
fn cut_last(codes: &mut Vec<u32>, ends: &mut Vec<u32>)
    requires { 0 < length ends.old.items }
    ensures codes { codes.new.items ≡ take (start_at 0 ends.old.items (length ends.old.items - 1)) codes.old.items }
    ensures ends { ends.new.items ≡ take (length ends.old.items - 1) ends.old.items }
{
    let last = ends.len() - 1;
    let start = start_of(ends.as_slice(), last);
    codes.truncate(start as usize);
    ends.truncate(last);
}

impl Store {
    /// No clauses.
    pub fn new(alloc: Global) -> Store
        ensures { result ≡ [] }
    {
        Store {
            codes: Vec::new(alloc),
            ends: Vec::new(alloc),
        }
    }

    /// Equal clauses.
    pub fn copy(&self, alloc: Global) -> Result<Store, AllocError>
        ensures { IfOk result (λ s. s ≡ self.now) }
    {
        let codes = Vec::from_slice(alloc, self.codes.as_slice())?;
        let ends = Vec::from_slice(alloc, self.ends.as_slice())?;
        Ok(Store { codes, ends })
    }

    /// Puts a clause at the end. There are at most 1,073,741,823; at 4,294,967,295 literals it answers that
    /// memory is wanting. After an error the store is as before.
    pub fn push(&mut self, c: &Clause) -> Result<(), AllocError>
        requires { length self.old + 1 < 2 ^ 30 }
        ensures ok { OnOk result (self.new ≡ self.old ++ c.now ∷ []) }
        ensures err { OnErr result (self.new ≡ self.old) }
    {
        let lits = c.lits();
        if lits.len() > u32::MAX as usize - self.codes.len() {
            return Err(AllocError);
        }
        self.ends.reserve(1)?;
        put_codes(&mut self.codes, lits)?;
        put_end(&mut self.ends, self.codes.len() as u32);
        Ok(())
    }

    /// Takes the last clause away.
    pub fn pop(&mut self)
        requires { 0 < length self.old }
        ensures { self.new ≡ take (length self.old - 1) self.old }
    {
        cut_last(&mut self.codes, &mut self.ends);
    }

    /// The number of clauses.
    pub fn len(&self) -> u32
        ensures len { result ≡ length self.now }
        ensures clauses { All IsClause self.now }
        ensures few { result < 2 ^ 30 }
    {
        self.ends.len() as u32
    }

    /// The numbers of the literals of this clause, from 1 to the number of clauses.
    pub fn codes(&self, number: u32) -> &[u32]
        requires from_one { 1 ≤ number }
        requires in_range { number ≤ length self.now }
        ensures { slice_get self.now (number - 1) ≡ Some (codes.literals_of result.now) }
    {
        part(
            self.codes.as_slice(),
            self.ends.as_slice(),
            number as usize - 1,
        )
    }
}
