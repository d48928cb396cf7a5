// Literals that are taken for false while a step is checked.
ghost use Rattle.std.specs.Prelude.{◌≡◌, ◌≤◌, ◌<◌, ◌^◌, ◌++◌, ◌∷◌, [], ℕ, All, Contains, IfOk, None, length, vec_len, vec_capacity, slice_index_or};
ghost use Rattle.cnf_core.specs.Literal.{IsClause, HasVarsUpTo};
ghost use Rattle.refutation_check.specs.Marks.{Marks, IsSeen, IsWithin};
ghost use Rattle.refutation_check.specs.Assumed.{IsOpen};

use crate::marks::{Sight, look};
use cnf_core::Lit;
use std::alloc::{AllocError, Global};
use std::marker::Model;

/// Literals that are taken for false. The marks have the values of the variables, and the trail has the
/// literals, so that clearing takes the length of the trail.
#[derive(Debug, Drop)]
pub struct Assumptions {
    marks: Vec<Option<bool>>,
    trail: Vec<Lit>,
}

impl Model for Assumptions {
    ghost use Rattle.std.specs.Prelude.{◌-◌, length};
    ghost use Rattle.refutation_check.specs.Assumed.{Assumed};

    ghost Value = { Assumed };

    ghost use Rattle.refutation_check.specs.Kept.{IsKept};

    ghost view = { λ a. record { vars = length a.marks.items - 1; falses = a.trail.items } };

    ghost invariant = { IsKept };
}

impl Assumptions {
    /// No literal is false yet, and there is room for one of each variable.
    pub fn none(alloc: Global, vars: u32) -> Result<Assumptions, AllocError>
        requires { vars < 2 ^ 31 }
        ensures { IfOk result (λ a. a ≡ record { vars = vars; falses = [] }) }
    {
        let marks = vec![in alloc; None; vars as usize + 1]?;
        let trail = Vec::with_capacity(alloc, vars as usize + 1)?;
        Ok(Assumptions { marks, trail })
    }

    /// Takes an open literal for false.
    pub fn assume(&mut self, l: Lit)
        requires is_open { IsOpen self.old.falses l }
        requires in_range { l.var ≤ self.old.vars }
        ensures assumed { self.new ≡ record self.old { falses = self.old.falses ++ l ∷ [] } }
        ensures few { length self.new.falses ≤ 2 ^ 31 }
    {
        self.marks[l.var as usize] = Some(!l.positive);
        put(&mut self.trail, l);
    }

    /// Takes the literals of a clause for false, where none is yet.
    pub fn assume_all(&mut self, lits: &[Lit])
        requires none { self.old.falses ≡ [] }
        requires clause { IsClause lits.now }
        requires in_range { HasVarsUpTo self.old.vars lits.now }
        ensures assumed { self.new ≡ record self.old { falses = lits.now } }
        ensures few { length lits.now ≤ 2 ^ 31 }
    {
        for lit in lits {
            self.assume(*lit);
        }
    }

    /// What a clause is under the assumptions.
    pub fn look(&self, lits: &[Lit]) -> Sight
        requires clause { IsClause lits.now }
        requires in_range { HasVarsUpTo self.now.vars lits.now }
        ensures { IsSeen (Contains self.now.falses) lits.now result }
    {
        look(self.marks.as_slice(), lits)
    }

    /// No literal is false any more.
    pub fn clear(&mut self)
        ensures { self.new ≡ record self.old { falses = [] } }
    {
        unmark(&mut self.marks, &self.trail);
        self.trail.clear();
    }
}

// Puts a literal at the end of a trail that has room for it.
fn put(trail: &mut Vec<Lit>, l: Lit)
    requires { vec_len trail.old < vec_capacity trail.old }
    ensures items { trail.new.items ≡ trail.old.items ++ l ∷ [] }
    ensures capacity { vec_capacity trail.old ≤ vec_capacity trail.new }
{
    let _ = trail.push(l);
}

// Clears the marks of the literals, which are all marks.
fn unmark(marks: &mut Vec<Option<bool>>, trail: &[Lit])
    requires marked { Marks marks.old.items trail.now }
    requires in_range { IsWithin (length marks.old.items) trail.now }
    ensures none { (k : ℕ) → slice_index_or marks.new.items k None ≡ None }
    ensures long { length marks.new.items ≡ length marks.old.items }
{
    for lit in trail {
        marks[lit.var as usize] = None;
    }
}
