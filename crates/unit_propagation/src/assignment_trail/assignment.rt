// The trail: which literals are true, since when and why.
ghost use Rattle.std.specs.Prelude.{◌≡◌, List, ◌+◌, ◌/◌, ◌<◌, ◌≤◌, ◌^◌, ◌++◌, ◌∷◌, [], ℕ, All, Contains, IfOk, None, Some, length, slice_index_or, slice_set, take, vec_len, vec_capacity};
ghost use Rattle.cnf_core.specs.declared.literal.Lit.{Lit};
ghost use Rattle.unit_propagation.specs.declared.assignment_trail.assigned.Assigned.{Assigned};
ghost use Rattle.refutation_check.specs.Assumed.{IsOpen};
ghost use Rattle.cnf_core.specs.Literal.{IsClause, HasVarsUpTo};
ghost use Rattle.refutation_check.specs.Marks.{IsFalseIn, IsSeen, IsWithin, Marks};
ghost use Rattle.unit_propagation.specs.Assignments.Trail.{IsVarUpTo, falses_of, level_of as level_of_trail};
ghost use Rattle.unit_propagation.specs.Clauses.Codes.{literal_of as literal, literals_of};
ghost use Rattle.unit_propagation.specs.Assignments.Cutting.{AreFresh, IsMarking};
ghost use Rattle.unit_propagation.specs.Assignments.AssignmentState.{IsValueOf, IsConsistent};

use crate::assignment_trail::assigned::Assigned;
use crate::clause_store::literal_of;
use cnf_core::Lit;
use refutation_check::Sight;
use std::alloc::{AllocError, Global};
use std::marker::Model;

/// The literals that are true, in the order in which they became so, and the values and levels of the variables.
/// Contracts see these literals, and the number of the variables.
#[derive(Debug, Drop)]
pub struct Assignment {
    vars: u32,
    marks: Vec<Option<bool>>,
    levels: Vec<u32>,
    assigned: Vec<Assigned>,
}

impl Model for Assignment {
    ghost use Rattle.unit_propagation.specs.Assignments.AssignmentState.{AssignmentState};

    ghost Value = { AssignmentState };

    ghost use Rattle.unit_propagation.specs.Assignments.Held.{IsHeld};

    ghost view = { λ t. record { vars = t.vars; assigned = t.assigned.items } };

    ghost invariant = { IsHeld };
}

// The value of the literal of this number, by the values of the variables.
fn value_in(marks: &[Option<bool>], code: u32) -> Option<bool>
    requires { code / 2 < length marks.now }
    ensures { (falses : List Lit) → Marks marks.now falses → IsValueOf falses (literal code) result }
{
    match marks[(code / 2) as usize] {
        None => None,
        Some(value) if value == (code % 2 == 1) => Some(true),
        Some(_) => Some(false),
    }
}

// Looks once at each literal of a clause, by the numbers of its literals.
fn look_in(marks: &[Option<bool>], codes: &[u32]) -> Sight
    requires clause { IsClause (literals_of codes.now) }
    requires in_range { IsWithin (length marks.now) (literals_of codes.now) }
    ensures { IsSeen (IsFalseIn marks.now) (literals_of codes.now) result }
{
    let mut open: Option<Lit> = None;
    for code in codes {
        let lit = literal_of(*code);
        match marks[lit.var as usize] {
            Some(value) if value == lit.positive => return Sight::Neither,
            Some(_) => {}
            None if open.is_some() => return Sight::Neither,
            None => open = Some(lit),
        }
    }
    match open {
        None => Sight::Falsified,
        Some(lit) => Sight::Unit(lit),
    }
}

// Marks a literal as true, with its level, and puts it at the end, where there is room for it.
fn put(
    marks: &mut Vec<Option<bool>>,
    levels: &mut Vec<u32>,
    assigned: &mut Vec<Assigned>,
    a: Assigned,
)
    requires room { vec_len assigned.old < vec_capacity assigned.old }
    requires in_range { a.lit.var < length marks.old.items }
    requires in_levels { a.lit.var < length levels.old.items }
    ensures marks { marks.new.items ≡ slice_set marks.old.items a.lit.var (Some a.lit.positive) }
    ensures levels { levels.new.items ≡ slice_set levels.old.items a.lit.var a.level }
    ensures assigned { assigned.new.items ≡ assigned.old.items ++ a ∷ [] }
    ensures capacity { vec_capacity assigned.old ≤ vec_capacity assigned.new }
{
    marks[a.lit.var as usize] = Some(a.lit.positive);
    levels[a.lit.var as usize] = a.level;
    let _ = assigned.push(a);
}

// Undoes the newest literals, so that the oldest so many stay.
fn cut_to(marks: &mut Vec<Option<bool>>, assigned: &mut Vec<Assigned>, count: usize)
    requires fresh { AreFresh assigned.old.items }
    requires marking { IsMarking marks.old.items assigned.old.items }
    ensures assigned { assigned.new.items ≡ take count assigned.old.items }
    ensures marking { IsMarking marks.new.items assigned.new.items }
    ensures long { length marks.new.items ≡ length marks.old.items }
    ensures capacity { vec_capacity assigned.new ≡ vec_capacity assigned.old }
{
    'cutting: while assigned.len() > count {
        if let Some(a) = assigned.pop() {
            marks[a.lit.var as usize] = None;
        }
    }
}

// The level of the newest literal, or 0.
fn newest_level(assigned: &[Assigned]) -> u32
    ensures { result ≡ level_of_trail assigned.now }
{
    assigned.last().map_or(0, |a| a.level)
}

impl Assignment {
    /// No literal is true, of the variables up to this one, which is at most 2,147,483,647.
    pub fn none(alloc: Global, vars: u32) -> Result<Assignment, AllocError>
        requires { vars < 2 ^ 31 }
        ensures { IfOk result (λ t. t ≡ record { vars = vars; assigned = [] }) }
    {
        let marks = vec![in alloc; None; vars as usize + 1]?;
        let levels = vec![in alloc; 0; vars as usize + 1]?;
        let assigned = Vec::with_capacity(alloc, vars as usize + 1)?;
        Ok(Assignment {
            vars,
            marks,
            levels,
            assigned,
        })
    }

    /// The same literals are true, of as many variables.
    pub fn copy(&self, alloc: Global) -> Result<Assignment, AllocError>
        ensures { IfOk result (λ t. t ≡ self.now) }
    {
        let marks = Vec::from_slice(alloc, self.marks.as_slice())?;
        let levels = Vec::from_slice(alloc, self.levels.as_slice())?;
        let mut assigned = Vec::with_capacity(alloc, self.marks.len())?;
        assigned.extend_from_slice(self.assigned.as_slice())?;
        Ok(Assignment {
            vars: self.vars,
            marks,
            levels,
            assigned,
        })
    }

    /// The number of variables, at most 2,147,483,647.
    pub fn vars(&self) -> u32
        ensures vars { result ≡ self.now.vars }
        ensures small { result < 2 ^ 31 }
    {
        self.vars
    }

    /// The value of the literal of this number: whether it is true, or none where its variable is open.
    pub fn value(&self, code: u32) -> Option<bool>
        requires { code / 2 ≤ self.now.vars }
        ensures { IsValueOf (falses_of self.now.assigned) (literal code) result }
    {
        value_in(self.marks.as_slice(), code)
    }

    /// The level of the literal of this number, or of its opposite, where one of them is true.
    pub fn level_of(&self, code: u32) -> u32
        requires { code / 2 ≤ self.now.vars }
        ensures { (i : ℕ) (d : Assigned) → i < length self.now.assigned → (slice_index_or self.now.assigned i d).lit.var ≡ code / 2 → result ≡ (slice_index_or self.now.assigned i d).level }
    {
        self.levels[(code / 2) as usize]
    }

    /// What the clause of these literals is: falsified, or a unit with its literal open, or neither.
    pub fn look(&self, codes: &[u32]) -> Sight
        requires clause { IsClause (literals_of codes.now) }
        requires in_range { HasVarsUpTo self.now.vars (literals_of codes.now) }
        ensures { IsSeen (Contains (falses_of self.now.assigned)) (literals_of codes.now) result }
    {
        look_in(self.marks.as_slice(), codes)
    }

    /// Makes an open literal true. It takes no memory.
    pub fn assign(&mut self, a: Assigned)
        requires is_open { IsOpen (falses_of self.old.assigned) a.lit }
        requires in_range { IsVarUpTo self.old.vars a }
        ensures { self.new ≡ record self.old { assigned = self.old.assigned ++ a ∷ [] } }
    {
        put(&mut self.marks, &mut self.levels, &mut self.assigned, a);
    }

    /// The level of the newest literal, or 0.
    pub fn level(&self) -> u32
        ensures { result ≡ level_of_trail self.now.assigned }
    {
        newest_level(self.assigned.as_slice())
    }

    /// The literals that are true, the oldest first.
    pub fn literals(&self) -> &[Assigned]
        ensures { result.now ≡ self.now.assigned }
    {
        self.assigned.as_slice()
    }

    /// The number of literals that are true: at most one more than there are variables.
    pub fn len(&self) -> usize
        ensures len { result ≡ length self.now.assigned }
        ensures in_range { All (IsVarUpTo self.now.vars) self.now.assigned }
        ensures small { self.now.vars < 2 ^ 31 }
        ensures few { result ≤ self.now.vars + 1 }
        ensures consistent { IsConsistent (falses_of self.now.assigned) }
    {
        self.assigned.len()
    }

    /// The literal at this place, from 0, with its level and reason.
    pub fn at(&self, i: usize) -> Assigned
        requires { i < length self.now.assigned }
        ensures { (d : Assigned) → result ≡ slice_index_or self.now.assigned i d }
    {
        self.assigned[i]
    }

    /// Undoes the newest literals: the oldest so many stay.
    pub fn cut(&mut self, count: usize)
        ensures { self.new ≡ record self.old { assigned = take count self.old.assigned } }
    {
        cut_to(&mut self.marks, &mut self.assigned, count);
    }
}
