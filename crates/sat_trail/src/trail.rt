// The trail over clauses.
ghost use Rattle.std.specs.Prelude.{◌≡◌, ◌+◌, ◌*◌, ◌<◌, ◌≤◌, ◌^◌, ◌++◌, ◌∷◌, [], ℕ, List, All, IfOk, OnOk, OnErr, MatchOption, IfSome, None, false, length, map, max};
ghost use Rattle.cnf_core.specs.Literal.{HasVarsUpTo, IsClause};
ghost use Rattle.unit_propagation.specs.Clauses.Codes.{literals_of};
ghost use Rattle.refutation_check.specs.Chain.{Names, IsChain, members_of};
ghost use Rattle.refutation_check.specs.Assumed.{IsOpen};
ghost use Rattle.unit_propagation.specs.declared.assignment_trail.assigned.Assigned.{Assigned};
ghost use Rattle.unit_propagation.specs.Assignments.Trail.{IsTrail, IsVarUpTo, IsBackTo, ForcesMore, falses_of, level_of};
ghost use Rattle.sat_trail.specs.Trailed.{IsBase, IsVarLimit, IsValue};
ghost use Rattle.sat_trail.specs.Leaned.{leans_to};
ghost use Rattle.sat_trail.specs.Closed.{IsClosedBelow, IsPropagated};
ghost use Rattle.sat_trail.specs.Deciding.{HasAllValues, IsLowestOpen, IsOpenVar, decided};
ghost use Rattle.sat_trail.specs.Learnt.{IsAsserting, IsBackLevel};
ghost use Rattle.sat_trail.specs.Levels.{IsHighestBelowTwo};

use crate::deciding::{lowest_open, put_back_above, raise_met, take_open};
use crate::filling::append;
use crate::highest::{highest_in_steps, highest_of};
use crate::levels::{highest_below, level_below_two};
use crate::phases::SavedPhases;
use crate::rounds::propagate_all;
use cnf_core::{Clause, Cnf, Lit};
use refutation_check::{Log, Step};
use std::alloc::{AllocError, Global};
use std::marker::Model;
use unit_propagation::activity_order::ActivityOrder;
use unit_propagation::assignment_trail::{Assigned, Assignment};
use unit_propagation::clause_store::Store;
use unit_propagation::watch_lists::WatchLists;
use unit_propagation::watched_literals::{Pending, back_to};

/// What propagation came to.
#[derive(Clone, Copy, Debug, PartialEq, Eq)]
pub enum Propagated {
    /// No clause is falsified, and none is a unit with its literal open.
    Closed,
    /// The clause of this number is falsified.
    Conflict(u32),
}

/// Clauses, numbered from 1, and the literals that are true, each decided or forced by a clause. Contracts
/// see the number of variables, the clauses, and these literals, the oldest first.
///
/// Each clause of two or more literals has two watched literals. Where a watched literal is false and its consequences
/// are propagated, the other one is true, at a level that isn't above that of the false one, or the clause is marked.
///
/// The open variables wait to be decided, in an order by their activities. A clause that is added raises the activities of
/// the variables that its step met.
#[derive(Debug)]
pub struct Trail {
    store: Store,
    watches: WatchLists,
    assignment: Assignment,
    pending: Pending,
    propagated: usize,
    order: ActivityOrder,
    met_by: Vec<u32>,
}

// By hand, so that a caller's proof has one step wherever one is dropped.
impl Drop for Trail {
    fn drop(self) {
        let Trail {
            store: _,
            watches: _,
            assignment: _,
            pending: _,
            propagated: _,
            order: _,
            met_by: _,
        } = self;
    }
}

impl Model for Trail {
    ghost use Rattle.sat_trail.specs.Trailed.{Trailed};

    ghost Value = { Trailed };

    ghost use Rattle.sat_trail.specs.Kept.{IsKept};

    ghost view = { λ t. record { vars = t.assignment.vars; clauses = t.store; assigned = t.assignment.assigned } };

    ghost invariant = { IsKept };
}

impl Trail {
    /// No literal is true yet. The clauses are those of the formula, the local ones, and those of the steps,
    /// in this order: at most 1,073,741,823 together. The variables are those up to the highest one.
    pub fn of(alloc: Global, f: &Cnf, extra: &Log, local: &[Clause]) -> Result<Trail, AllocError>
        requires { length f.now.clauses + length local.now + length extra.now < 2 ^ 30 }
        ensures clauses { IfOk result (λ t. t.clauses ≡ members_of (f.now.clauses ++ local.now) extra.now) }
        ensures vars { IfOk result (λ t. IsVarLimit f.now.vars t.clauses t.vars) }
        ensures assigned { IfOk result (λ t. t.assigned ≡ []) }
    {
        let vars = highest_in_steps(extra.steps(), highest_of(local, f.vars()));
        let mut trail = Trail::none(alloc, vars)?;
        trail.fill_from(f)?;
        trail.fill_with(local)?;
        trail.fill_with_steps(extra.steps())?;
        Ok(trail)
    }

    /// The clauses of a formula, over its variables, and those up to this one. No literal is true yet.
    pub fn over(alloc: Global, f: &Cnf, vars: u32) -> Result<Trail, AllocError>
        requires { vars < 2 ^ 31 }
        ensures base { IfOk result (IsBase f.now) }
        ensures vars { IfOk result (λ t. t.vars ≡ max vars f.now.vars) }
    {
        let mut trail = Trail::none(alloc, vars.max(f.vars()))?;
        trail.fill_from(f)?;
        Ok(trail)
    }

    /// An equal trail.
    pub fn copy(&self, alloc: Global) -> Result<Trail, AllocError>
        ensures { IfOk result (λ t. t ≡ self.now) }
    {
        let store = self.store.copy(alloc)?;
        let watches = self.watches.copy(alloc)?;
        let assignment = self.assignment.copy(alloc)?;
        let pending = self.pending.copy(alloc)?;
        let order = self.order.copy(alloc)?;
        let met_by = Vec::from_slice(alloc, self.met_by.as_slice())?;
        Ok(Trail {
            store,
            watches,
            assignment,
            pending,
            propagated: self.propagated,
            order,
            met_by,
        })
    }

    /// The clauses that `of` makes, from a trail of the formula: a copy of it with the local clauses and those of the steps, or a
    /// new trail where these have other variables. The variables are those of this trail, up to the highest one of the clauses.
    pub fn grown(
        &self,
        alloc: Global,
        f: &Cnf,
        extra: &Log,
        local: &[Clause],
    ) -> Result<Trail, AllocError>
        requires base { IsBase f.now self.now }
        requires few { length f.now.clauses + length local.now + length extra.now < 2 ^ 30 }
        ensures clauses { IfOk result (λ t. t.clauses ≡ members_of (f.now.clauses ++ local.now) extra.now) }
        ensures vars { IfOk result (λ t. IsVarLimit self.now.vars t.clauses t.vars) }
        ensures assigned { IfOk result (λ t. t.assigned ≡ []) }
    {
        let highest = highest_of(local, f.vars());
        let last = highest_in_steps(extra.steps(), highest);
        if last > self.vars() {
            let made = Trail::of(alloc, f, extra, local)?;
            return Ok(made);
        }
        let mut trail = self.copy(alloc)?;
        trail.fill_with(local)?;
        trail.fill_with_steps(extra.steps())?;
        Ok(trail)
    }

    // No clauses, over the variables up to this one.
    fn none(alloc: Global, vars: u32) -> Result<Trail, AllocError>
        requires { vars < 2 ^ 31 }
        ensures { IfOk result (λ t. t ≡ record { vars = vars; clauses = []; assigned = [] }) }
    {
        let watches = WatchLists::new(alloc, 2 * vars as usize + 2)?;
        let assignment = Assignment::none(alloc, vars)?;
        let order = ActivityOrder::new(alloc, vars)?;
        let met_by = vec![in alloc; 0; vars as usize]?;
        Ok(Trail {
            store: Store::new(alloc),
            watches,
            assignment,
            pending: Pending::new(alloc),
            propagated: 0,
            order,
            met_by,
        })
    }

    // A clause more. After an error the trail is as before.
    fn put(&mut self, clause: &Clause, is_marked: bool) -> Result<(), AllocError>
        requires vars { HasVarsUpTo self.old.vars clause.now }
        requires few { length self.old.clauses + 1 < 2 ^ 30 }
        requires unmarked { is_marked ≡ false → self.old.assigned ≡ [] }
        ensures ok { OnOk result (self.new ≡ record self.old { clauses = self.old.clauses ++ clause.now ∷ [] }) }
        ensures err { OnErr result (self.new ≡ self.old) }
    {
        append(
            &mut self.store,
            &mut self.watches,
            &self.assignment,
            &mut self.pending,
            self.propagated,
            clause,
            is_marked,
        )?;
        Ok(())
    }

    fn fill_from(&mut self, f: &Cnf) -> Result<(), AllocError>
        requires vars { f.now.vars ≤ self.old.vars }
        requires few { length self.old.clauses + length f.now.clauses < 2 ^ 30 }
        requires empty { self.old.assigned ≡ [] }
        ensures { OnOk result (self.new ≡ record self.old { clauses = self.old.clauses ++ f.now.clauses }) }
    {
        for i in 0..f.len() {
            self.put(f.clause(i + 1), false)?;
        }
        Ok(())
    }

    fn fill_with(&mut self, clauses: &[Clause]) -> Result<(), AllocError>
        requires vars { All (HasVarsUpTo self.old.vars) clauses.now }
        requires few { length self.old.clauses + length clauses.now < 2 ^ 30 }
        requires empty { self.old.assigned ≡ [] }
        ensures { OnOk result (self.new ≡ record self.old { clauses = self.old.clauses ++ clauses.now }) }
    {
        for clause in clauses {
            self.put(clause, false)?;
        }
        Ok(())
    }

    fn fill_with_steps(&mut self, steps: &[Step]) -> Result<(), AllocError>
        requires vars { All (λ s. HasVarsUpTo self.old.vars s.clause) steps.now }
        requires few { length self.old.clauses + length steps.now < 2 ^ 30 }
        requires empty { self.old.assigned ≡ [] }
        ensures { OnOk result (self.new ≡ record self.old { clauses = self.old.clauses ++ map (λ s. s.clause) steps.now }) }
    {
        for step in steps {
            self.put(&step.clause, false)?;
        }
        Ok(())
    }

    /// The number of decisions that are in force.
    pub fn level(&self) -> u32
        ensures level { result ≡ level_of self.now.assigned }
        ensures trail { IsTrail self.now.clauses self.now.assigned }
        ensures low { result ≤ length self.now.assigned }
        ensures few { length self.now.assigned ≤ self.now.vars + 1 }
        ensures small { self.now.vars < 2 ^ 31 }
    {
        let _ = self.assignment.len(); // for the proof
        self.assignment.level()
    }

    /// The value of a variable, from 1 to the number of variables, or none where it is open.
    pub fn value(&self, var: u32) -> Option<bool>
        requires from_one { 1 ≤ var }
        requires in_range { var ≤ self.now.vars }
        ensures { IsValue (falses_of self.now.assigned) var result }
    {
        let _ = self.assignment.vars(); // for the proof
        self.assignment.value(2 * var + 1)
    }

    /// The number of variables, at most 2,147,483,647.
    pub fn vars(&self) -> u32
        ensures vars { result ≡ self.now.vars }
        ensures small { result < 2 ^ 31 }
        ensures clauses { All IsClause self.now.clauses }
        ensures within { All (HasVarsUpTo self.now.vars) self.now.clauses }
    {
        let _ = self.store.len(); // for the proof
        self.assignment.vars()
    }

    /// The literals that are true, the oldest first.
    pub(crate) fn assigned(&self) -> &[Assigned]
        ensures assigned { result.now ≡ self.now.assigned }
        ensures trail { IsTrail self.now.clauses self.now.assigned }
        ensures in_range { All (IsVarUpTo self.now.vars) self.now.assigned }
        ensures few { length self.now.assigned ≤ self.now.vars + 1 }
    {
        let _ = self.assignment.len(); // for the proof
        self.assignment.literals()
    }

    /// The numbers of the literals of the clause of this number, from 1 to the number of clauses.
    pub(crate) fn codes(&self, number: u32) -> &[u32]
        requires from_one { 1 ≤ number }
        requires in_range { number ≤ length self.now.clauses }
        ensures clause { Names self.now.clauses number (literals_of result.now) }
        ensures vars { HasVarsUpTo self.now.vars (literals_of result.now) }
    {
        self.store.codes(number)
    }

    /// The level to go back to for a clause that was learnt: the second highest level of its literals, or 0. A trail that
    /// was closed before each decision is still so there, with the clause too.
    pub fn back_level(&self, lits: &[Lit]) -> u32
        requires asserting { IsAsserting self.now.assigned lits.now }
        requires vars { HasVarsUpTo self.now.vars lits.now }
        ensures level { IsBackLevel self.now.assigned lits.now result }
        ensures closed { IsClosedBelow self.now.clauses self.now.assigned → (assigned : List Assigned) → IsBackTo result self.now.assigned assigned → IsClosedBelow (self.now.clauses ++ lits.now ∷ []) assigned }
    {
        let _ = self.level(); // for the proof
        let top = highest_below(&self.assignment, lits, u32::MAX);
        highest_below(&self.assignment, lits, top)
    }

    /// Undoes the levels above this one.
    pub fn back_to(&mut self, level: u32)
        ensures vars { self.new.vars ≡ self.old.vars }
        ensures clauses { self.new.clauses ≡ self.old.clauses }
        ensures assigned { IsBackTo level self.old.assigned self.new.assigned }
    {
        put_back_above(&mut self.order, &self.assignment, level);
        back_to(
            &self.store,
            &self.watches,
            &mut self.assignment,
            &self.pending,
            &mut self.propagated,
            level,
        );
    }

    // Raises the activities of the variables of the clauses that the hints of the newest clause's step name.
    fn raise_met(&mut self, hints: &[u32])
        requires { All (λ hint. (1 ≤ hint) × (hint ≤ length self.old.clauses)) hints.now }
        ensures { self.new ≡ self.old }
    {
        let step = self.store.len();
        raise_met(
            &mut self.order,
            self.met_by.as_mut_slice(),
            &self.store,
            hints,
            step,
        );
    }

    /// Adds a clause that follows from the others by its hints, and answers its number. Its variables are
    /// those of the trail, and there are at most 1,073,741,823 clauses with it. After an error the trail is
    /// as before. The variables of the clauses that the hints name are decided earlier from now on.
    pub fn add(&mut self, s: Step) -> Result<u32, AllocError>
        requires chain { IsChain self.old.clauses s.clause s.hints }
        requires vars { HasVarsUpTo self.old.vars s.clause }
        requires room { length self.old.clauses + 1 < 2 ^ 30 }
        ensures ok { OnOk result (self.new ≡ record self.old { clauses = self.old.clauses ++ s.clause ∷ [] }) }
        ensures number { IfOk result (λ n. n ≡ length self.new.clauses) }
        ensures err { OnErr result (self.new ≡ self.old) }
    {
        self.put(&s.clause, true)?;
        self.raise_met(s.hints.numbers());
        Ok(self.store.len())
    }

    /// Adds a clause that needn't follow from the others. The trail goes back to where two of its literals are open, no further than it has to,
    /// or to where nothing is decided: so what was closed before each decision is so with the clause too. After an error the clauses are as before.
    pub fn add_given(&mut self, clause: &Clause) -> Result<(), AllocError>
        requires vars { HasVarsUpTo self.old.vars clause.now }
        requires room { length self.old.clauses + 1 < 2 ^ 30 }
        ensures ok { OnOk result (self.new.clauses ≡ self.old.clauses ++ clause.now ∷ []) }
        ensures err { OnErr result (self.new.clauses ≡ self.old.clauses) }
        ensures vars { self.new.vars ≡ self.old.vars }
        ensures assigned { (level : ℕ) × IsBackTo level self.old.assigned self.new.assigned × IsHighestBelowTwo self.old.assigned clause.now level }
        ensures closed { IsClosedBelow self.old.clauses self.old.assigned → OnOk result (IsClosedBelow self.new.clauses self.new.assigned) }
    {
        let next = self.level() + 1;
        let level = level_below_two(&self.assignment, clause.lits(), next);
        self.back_to(level);
        self.put(clause, true)?;
        Ok(())
    }

    /// Makes an open literal true, on a new level.
    pub fn decide(&mut self, l: Lit)
        requires from_one { 1 ≤ l.var }
        requires in_range { l.var ≤ self.old.vars }
        requires is_open { IsOpen (falses_of self.old.assigned) l }
        ensures { self.new ≡ decided self.old l }
    {
        let level = self.level() + 1;
        self.assignment.assign(Assigned {
            lit: l,
            level,
            reason: None,
        });
    }

    /// Decides the open variable of the greatest activity, the lowest of those that have it, to the value that it leans to, on a
    /// new level; and answers the literal that is true then, or none where each variable has a value. It takes no memory.
    pub fn decide_next(&mut self, leaning: &SavedPhases) -> Option<Lit>
        ensures next { MatchOption result (HasAllValues self.old.vars (falses_of self.old.assigned)) (λ l. IsOpenVar self.old.vars (falses_of self.old.assigned) l.var) }
        ensures decided { MatchOption result (self.new ≡ self.old) (λ l. self.new ≡ decided self.old l) }
        ensures value { IfSome result (λ l. l.positive ≡ leans_to leaning.now l.var) }
        ensures few { length self.old.assigned ≤ self.old.vars + 1 }
    {
        let next_level = self.level() + 1;
        let var = take_open(&mut self.order, &self.assignment)?;
        let positive = leaning.value(var);
        let lit = Lit { var, positive };
        self.assignment.assign(Assigned {
            lit,
            level: next_level,
            reason: None,
        });
        Some(lit)
    }

    /// Decides the lowest open variable false, of those above `from` and up to `limit`, on a new level; and answers the literal that
    /// is true then, or none where each of them has a value.
    pub fn decide_low(&mut self, from: u32, limit: u32) -> Option<Lit>
        requires limit { limit ≤ self.old.vars }
        requires from { HasAllValues from (falses_of self.old.assigned) }
        ensures next { MatchOption result (HasAllValues limit (falses_of self.old.assigned)) (λ l. IsLowestOpen limit (falses_of self.old.assigned) l.var) }
        ensures decided { MatchOption result (self.new ≡ self.old) (λ l. self.new ≡ decided self.old l) }
        ensures value { IfSome result (λ l. l.positive ≡ false) }
        ensures few { length self.old.assigned ≤ self.old.vars + 1 }
    {
        let _ = self.level(); // for the proof
        let var = lowest_open(&self.assignment, from, limit)?;
        let low = Lit {
            var,
            positive: false,
        };
        self.decide(low);
        Some(low)
    }

    /// Makes true what the clauses force, until nothing is left or a clause is falsified. It takes no memory.
    pub fn propagate(&mut self) -> Propagated
        ensures propagated { IsPropagated self.new result }
        ensures vars { self.new.vars ≡ self.old.vars }
        ensures clauses { self.new.clauses ≡ self.old.clauses }
        ensures assigned { ForcesMore self.old.assigned self.new.assigned }
        ensures level { level_of self.new.assigned ≡ level_of self.old.assigned }
        ensures trail { IsTrail self.new.clauses self.new.assigned }
    {
        let _ = self.store.len(); // for the proof
        match propagate_all(
            &self.store,
            &mut self.watches,
            &mut self.assignment,
            &mut self.pending,
            &mut self.propagated,
        ) {
            Some(n) => Propagated::Conflict(n + 1),
            None => Propagated::Closed,
        }
    }
}
