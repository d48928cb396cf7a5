// Formulas in conjunctive normal form.
ghost use Rattle.std.specs.Prelude.{◌≡◌, ◌+◌, ◌-◌, ◌<◌, ◌≤◌, ◌^◌, ◌++◌, ◌∷◌, [], ℕ, All, IfOk, OnOk, OnErr, length, take, slice_get, Some};
ghost use Rattle.cnf_core.specs.Literal.{HasVarsUpTo};
ghost use Rattle.cnf_core.specs.Formula.{IsFormula};

use crate::clause::Clause;
use std::alloc::{AllocError, Global};
use std::marker::Model;

/// A number of variables and at most 1,073,741,823 clauses over them. Contracts see both.
#[derive(Debug, Drop)]
pub struct Cnf {
    vars: u32,
    clauses: Vec<Clause>,
}

impl Model for Cnf {
    ghost use Rattle.cnf_core.specs.Formula.{Formula, IsFormula};

    ghost Value = { Formula };

    ghost view = { λ f. record { vars = f.vars; clauses = f.clauses.items } };

    ghost invariant = { λ f. IsFormula (record { vars = f.vars; clauses = f.clauses.items }) };
}

impl Cnf {
    /// No clauses over the variables from 1 to this one, which is at most 2,147,483,647.
    pub fn new(alloc: Global, vars: u32) -> Cnf
        requires { vars < 2 ^ 31 }
        ensures { result ≡ record { vars = vars; clauses = [] } }
    {
        Cnf {
            vars,
            clauses: Vec::new(alloc),
        }
    }

    /// These clauses over the variables from 1 to this one.
    pub fn of(vars: u32, clauses: Vec<Clause>) -> Cnf
        requires { IsFormula (record { vars = vars; clauses = clauses.items }) }
        ensures { result ≡ record { vars = vars; clauses = clauses.items } }
    {
        Cnf { vars, clauses }
    }

    /// Puts a clause at the end. After an error the formula is as before.
    pub fn push(&mut self, c: Clause) -> Result<(), AllocError>
        requires vars { HasVarsUpTo self.old.vars c }
        requires room { length self.old.clauses + 1 < 2 ^ 30 }
        ensures ok { OnOk result (self.new ≡ record self.old { clauses = self.old.clauses ++ c ∷ [] }) }
        ensures err { OnErr result (self.new ≡ self.old) }
    {
        let _ = c.lits(); // for the proof
        self.clauses.push(c)?;
        Ok(())
    }

    /// Puts copies of clauses at the end. After an error there are copies of the first of them.
    pub fn append(&mut self, alloc: Global, clauses: &[Clause]) -> Result<(), AllocError>
        requires vars { All (HasVarsUpTo self.old.vars) clauses.now }
        requires room { length self.old.clauses + length clauses.now < 2 ^ 30 }
        ensures ok { OnOk result (self.new ≡ record self.old { clauses = self.old.clauses ++ clauses.now }) }
        ensures err { OnErr result ((n : ℕ) × (self.new ≡ record self.old { clauses = self.old.clauses ++ take n clauses.now })) }
    {
        for clause in clauses {
            self.push(clause.copy(alloc)?)?;
        }
        Ok(())
    }

    /// An equal formula.
    pub fn copy(&self, alloc: Global) -> Result<Cnf, AllocError>
        ensures { IfOk result (λ f. f ≡ self.now) }
    {
        let clauses = copies_of(alloc, self.clauses.as_slice())?;
        Ok(Cnf {
            vars: self.vars,
            clauses,
        })
    }

    /// The number of variables.
    pub fn vars(&self) -> u32
        ensures vars { result ≡ self.now.vars }
        ensures formula { IsFormula self.now }
    {
        self.vars
    }

    /// The clauses, in order.
    pub fn clauses(&self) -> &[Clause]
        ensures clauses { result.now ≡ self.now.clauses }
        ensures formula { IsFormula self.now }
    {
        self.clauses.as_slice()
    }

    /// The number of clauses.
    pub fn len(&self) -> u32
        ensures len { result ≡ length self.now.clauses }
        ensures few { result < 2 ^ 30 }
    {
        self.clauses.len() as u32
    }

    /// The clause of this number, from 1 to the number of clauses.
    pub fn clause(&self, number: u32) -> &Clause
        requires from_one { 1 ≤ number }
        requires in_range { number ≤ length self.now.clauses }
        ensures clause { slice_get self.now.clauses (number - 1) ≡ Some result.now }
        ensures vars { HasVarsUpTo self.now.vars result.now }
    {
        &self.clauses[number as usize - 1]
    }
}

fn copies_of(alloc: Global, clauses: &[Clause]) -> Result<Vec<Clause>, AllocError>
    ensures { IfOk result (λ copies. copies.items ≡ clauses.now) }
{
    let mut copies = Vec::with_capacity(alloc, clauses.len())?;
    for clause in clauses {
        copies.push(clause.copy(alloc)?)?;
    }
    Ok(copies)
}
