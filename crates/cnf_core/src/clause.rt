// Clauses.
ghost use Rattle.std.specs.Prelude.{◌≡◌, ◌↔◌, All, IfOk, IfSome, IsNone};
ghost use Rattle.cnf_core.specs.Literal.{IsVariable, IsClause, IsTautology, HasSameLiterals};
ghost use Rattle.cnf_core.specs.Kept.{kept_literals};

use crate::literal::Lit;
use std::alloc::{AllocError, Global};
use std::marker::Model;
use std::slice;

/// Literals in the order of their variables, with no variable twice. Contracts see the list of them. A clause of one
/// literal takes no memory of its own.
#[derive(Debug, Drop)]
pub struct Clause {
    lits: Kept,
}

// How the literals of a clause are kept.
#[derive(Debug, Drop)]
enum Kept {
    One(Lit),
    Listed(Vec<Lit>),
}

impl Model for Clause {
    ghost use Rattle.std.specs.Prelude.{List};
    ghost use Rattle.cnf_core.specs.declared.literal.Lit.{Lit};

    ghost Value = { List Lit };

    ghost use Rattle.cnf_core.specs.Literal.{IsClause};
    ghost use Rattle.cnf_core.specs.Kept.{kept_literals};

    ghost view = { λ c. kept_literals c.lits };

    ghost invariant = { λ c. IsClause (kept_literals c.lits) };
}

impl Clause {
    /// The clause of exactly these literals, or none where a variable stands there with both signs.
    /// The variables are from 1 to 2,147,483,647.
    pub fn of(alloc: Global, lits: &[Lit]) -> Result<Option<Clause>, AllocError>
        requires { All (λ l. IsVariable l.var) lits.now }
        ensures none { IfOk result (λ made. IsNone made ↔ IsTautology lits.now) }
        ensures same { IfOk result (λ made. IfSome made (HasSameLiterals lits.now)) }
        ensures clause { IfOk result (λ made. IfSome made IsClause) }
    {
        let mut sorted = Vec::from_slice(alloc, lits)?;
        sorted.sort_by_key(|l| l.var)?;
        let mut kept: Vec<Lit> = Vec::with_capacity(alloc, sorted.len())?;
        for lit in sorted.iter() {
            match kept.last() {
                Some(last) if last.var == lit.var => {
                    if last.positive != lit.positive {
                        return Ok(None);
                    }
                }
                _ => kept.push(*lit)?,
            }
        }
        Ok(Some(Clause::in_order(kept)))
    }

    /// The clause of these literals, which are in the order of their variables.
    pub fn in_order(lits: Vec<Lit>) -> Clause
        requires { IsClause lits.items }
        ensures { result ≡ lits.items }
    {
        Clause {
            lits: Kept::of(lits),
        }
    }

    /// The literals, in the order of their variables.
    pub fn lits(&self) -> &[Lit]
        ensures lits { result.now ≡ self.now }
        ensures clause { IsClause self.now }
    {
        self.lits.as_slice()
    }

    /// An equal clause.
    pub fn copy(&self, alloc: Global) -> Result<Clause, AllocError>
        ensures { IfOk result (λ c. c ≡ self.now) }
    {
        let lits = self.lits.copy(alloc)?;
        Ok(Clause { lits })
    }
}

impl Kept {
    fn of(lits: Vec<Lit>) -> Kept
        ensures { kept_literals result ≡ lits.items }
    {
        if lits.len() == 1 {
            return Kept::One(lits[0]);
        }
        Kept::Listed(lits)
    }

    fn as_slice(&self) -> &[Lit]
        ensures { result.now ≡ kept_literals self.now }
    {
        match self {
            Kept::One(lit) => slice::from_ref(lit),
            Kept::Listed(lits) => lits.as_slice(),
        }
    }

    fn copy(&self, alloc: Global) -> Result<Kept, AllocError>
        ensures { IfOk result (λ kept. kept_literals kept ≡ kept_literals self.now) }
    {
        match self {
            Kept::One(lit) => Ok(Kept::One(*lit)),
            Kept::Listed(lits) => Ok(Kept::Listed(Vec::from_slice(alloc, lits.as_slice())?)),
        }
    }
}
