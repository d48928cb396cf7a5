// What is learnt from a conflict.
ghost use Rattle.std.specs.Prelude.{◌≡◌, false, ◌<◌, ◌+◌, [], All, length, IfOk, OnOk, MatchBool};
ghost use Rattle.cnf_core.specs.Literal.{HasVarsUpTo};
ghost use Rattle.unit_propagation.specs.Clauses.Codes.{literals_of};
ghost use Rattle.refutation_check.specs.Chain.{Refutes, IsChain, IsNovel};
ghost use Rattle.refutation_check.specs.Marks.{IsWithin};
ghost use Rattle.refutation_check.specs.SearchLog.{IsVarOf};
ghost use Rattle.unit_propagation.specs.Assignments.Trail.{falses_of};
ghost use Rattle.sat_trail.specs.Closed.{IsClosedBelow};
ghost use Rattle.sat_trail.specs.Learnt.{IsAbove, IsAsserting, IsFlat};
ghost use Rattle.sat_trail.specs.Learning.{Learning, Marking, IsResolved, HasAnother, HasNoOther};

use crate::trail::Trail;
use cnf_core::{Clause, Lit};
use refutation_check::{Hints, Step};
use std::alloc::{AllocError, Global};
use unit_propagation::assignment_trail::Assigned;

// Marks the variables of a clause, by the numbers of its literals.
fn mark(seen: &mut Vec<bool>, codes: &[u32])
    requires { IsWithin (length seen.old.items) (literals_of codes.now) }
    ensures marking { Marking seen.old.items seen.new.items (literals_of codes.now) }
    ensures long { length seen.new.items ≡ length seen.old.items }
{
    for code in codes {
        seen[(*code / 2) as usize] = true;
    }
}

// Whether another literal of the level is marked. The newest is looked at first: the next one that is marked is near.
fn is_another(older: &[Assigned], seen: &[bool], level: u32) -> bool
    requires { All (λ a. a.lit.var < length seen.now) older.now }
    ensures { MatchBool result (HasAnother older.now seen.now level) (HasNoOther older.now seen.now level) }
{
    let mut n = older.len();
    'looking: while n > 0 {
        n -= 1;
        let a = older[n];
        if a.level == level && seen[a.lit.var as usize] {
            return true;
        }
    }
    false
}

// Whether a marked literal of the level is replaced by its reason, and not kept.
fn is_resolved(level: u32, older: &[Assigned], seen: &[bool], kept: &[Lit]) -> bool
    requires { All (λ a. a.lit.var < length seen.now) older.now }
    ensures { IsResolved older.now seen.now kept.now level result }
{
    if level == 0 {
        return true;
    }
    if kept.is_empty() {
        return is_another(older, seen, level);
    }
    false
}

// Goes over the n-th literal of the trail: where it is marked, it is kept, negated, or its reason is a hint.
fn visit(
    trail: &Trail,
    conflict: u32,
    seen: &mut Vec<bool>,
    kept: &mut Vec<Lit>,
    hints: &mut Vec<u32>,
    n: usize,
) -> Result<(), AllocError>
    requires in_range { n < length trail.now.assigned }
    requires long { length seen.old.items ≡ trail.now.vars + 1 }
    requires so_far { Learning trail.now.clauses trail.now.assigned conflict seen.old.items kept.old.items hints.old.items (n + 1) }
    ensures so_far { OnOk result (Learning trail.now.clauses trail.now.assigned conflict seen.new.items kept.new.items hints.new.items n) }
    ensures long { length seen.new.items ≡ trail.now.vars + 1 }
{
    let assigned = trail.assigned();
    let a = assigned[n];
    if seen[a.lit.var as usize] {
        match a.reason {
            Some(reason)
                if is_resolved(a.level, &assigned[..n], seen.as_slice(), kept.as_slice()) => {
                hints.push(reason)?;
                mark(seen, trail.codes(reason));
            }
            _ => kept.push(a.lit.negation())?,
        }
    }
    Ok(())
}

fn unmarked(alloc: Global, count: usize) -> Result<Vec<bool>, AllocError>
    ensures long { IfOk result (λ v. length v.items ≡ count) }
    ensures unmarked { IfOk result (λ v. All (λ b. b ≡ false) v.items) }
{
    vec![in alloc; false; count]
}

/// The clause at the first unique implication point of the conflict, with its hints, over the trail's
/// clauses. The conflict is the number of a falsified clause; where all of that clause is of level 0, the
/// clause that is learnt is empty.
pub fn learn(alloc: Global, trail: &Trail, conflict: u32) -> Result<Step, AllocError>
    requires { Refutes trail.now.clauses (falses_of trail.now.assigned) conflict }
    ensures chain { IfOk result (λ s. IsChain trail.now.clauses s.clause s.hints) }
    ensures vars { IfOk result (λ s. HasVarsUpTo trail.now.vars s.clause) }
    ensures given { IfOk result (λ s. All (λ l. IsVarOf trail.now.clauses l.var) s.clause) }
    ensures empty { IsFlat trail.now.clauses trail.now.assigned conflict → IfOk result (λ s. s.clause ≡ []) }
    ensures asserting { IsAbove trail.now.clauses trail.now.assigned conflict → IfOk result (λ s. IsAsserting trail.now.assigned s.clause) }
    ensures novel { IsAbove trail.now.clauses trail.now.assigned conflict → IsClosedBelow trail.now.clauses trail.now.assigned → IfOk result (λ s. IsNovel trail.now.clauses s.clause) }
{
    let mut seen = unmarked(alloc, trail.vars() as usize + 1)?;
    mark(&mut seen, trail.codes(conflict));
    let mut kept: Vec<Lit> = Vec::new(alloc);
    let mut hints: Vec<u32> = Vec::new(alloc);
    let mut n = trail.assigned().len();
    while n > 0 {
        n -= 1;
        visit(trail, conflict, &mut seen, &mut kept, &mut hints, n)?;
    }
    hints.reverse();
    hints.push(conflict)?;
    match Clause::of(alloc, kept.as_slice())? {
        Some(clause) => Ok(Step {
            clause,
            hints: Hints::of(hints),
        }),
        None => unreachable!(),
    }
}
