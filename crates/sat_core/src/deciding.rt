// Decisions, down to a valuation or a conflict.
ghost use Rattle.std.specs.Prelude.{◌≡◌, ◌+◌, ◌<◌, All, MatchBool, MatchOption, IfOk, length};
ghost use Rattle.unit_propagation.specs.Assignments.Trail.{IsTrail, falses_of};
ghost use Rattle.sat_trail.specs.Closed.{IsClosedBelow};
ghost use Rattle.sat_core.specs.Assuming.{AreTrue, IsAssumedFirst, IsClash};
ghost use Rattle.sat_core.specs.Search.{AreValues, IsDeadEnd, IsAssumedTo, IsFull, IsVarIn};

use cnf_core::{Lit, Valuation};
use sat_trail::{Propagated, SavedPhases, Trail};
use std::alloc::{AllocError, Global};

/// Why a descent can't go on.
#[derive(Drop)]
pub(crate) enum DeadEnd {
    /// The clause of this number is falsified, where more than what is assumed was decided.
    Conflict(u32),
    /// The clauses can't hold with what is assumed.
    Clash,
}

// Decides the assumed literal at this place where it is open, and propagates. True where it can't hold with the others.
fn assume_at(trail: &mut Trail, assumed: &[Lit], depth: &mut u32, place: usize) -> bool
    requires place { place < length assumed.now }
    requires in_range { All (IsVarIn trail.old.vars) assumed.now }
    requires so_far { IsAssumedTo assumed.now place depth.old trail.old }
    ensures end { MatchBool result (IsClash trail.new.clauses assumed.now) (IsAssumedTo assumed.now (place + 1) depth.new trail.new) }
    ensures first { IsAssumedFirst assumed.now depth.new trail.new.assigned }
    ensures trail { IsTrail trail.new.clauses trail.new.assigned }
    ensures vars { trail.new.vars ≡ trail.old.vars }
    ensures clauses { trail.new.clauses ≡ trail.old.clauses }
{
    let lit = assumed[place];
    match trail.value(lit.var) {
        Some(value) if value == lit.positive => false,
        Some(_) => true,
        None => {
            trail.decide(lit);
            *depth = trail.level();
            match trail.propagate() {
                Propagated::Conflict(_) => true,
                Propagated::Closed => false,
            }
        }
    }
}

// Decides what is assumed, in turn, and propagates, until all of it is true.
fn assume(trail: &mut Trail, assumed: &[Lit], depth: &mut u32) -> Option<DeadEnd>
    requires in_range { All (IsVarIn trail.old.vars) assumed.now }
    requires closed_below { IsClosedBelow trail.old.clauses trail.old.assigned }
    requires first { IsAssumedFirst assumed.now depth.old trail.old.assigned }
    ensures end { MatchOption result (IsAssumedTo assumed.now (length assumed.now) depth.new trail.new) (IsDeadEnd assumed.now trail.new) }
    ensures first { IsAssumedFirst assumed.now depth.new trail.new.assigned }
    ensures trail { IsTrail trail.new.clauses trail.new.assigned }
    ensures vars { trail.new.vars ≡ trail.old.vars }
    ensures clauses { trail.new.clauses ≡ trail.old.clauses }
{
    if let Propagated::Conflict(number) = trail.propagate() {
        if trail.level() > *depth {
            return Some(DeadEnd::Conflict(number));
        }
        return Some(DeadEnd::Clash);
    }
    for place in 0..assumed.len() {
        if assume_at(trail, assumed, depth, place) {
            return Some(DeadEnd::Clash);
        }
    }
    None
}

/// Decides what is assumed, then the open variables, and propagates, until each variable has a value, where it gives none, or a
/// clause or an assumed literal is false. The decisions up to the level `depth` are assumed.
pub(crate) fn decide_to_end(
    trail: &mut Trail,
    assumed: &[Lit],
    depth: &mut u32,
    leaning: &SavedPhases,
) -> Option<DeadEnd>
    requires in_range { All (IsVarIn trail.old.vars) assumed.now }
    requires closed_below { IsClosedBelow trail.old.clauses trail.old.assigned }
    requires first { IsAssumedFirst assumed.now depth.old trail.old.assigned }
    ensures end { MatchOption result (IsFull trail.new × IsClosedBelow trail.new.clauses trail.new.assigned × AreTrue (falses_of trail.new.assigned) assumed.now) (IsDeadEnd assumed.now trail.new) }
    ensures first { IsAssumedFirst assumed.now depth.new trail.new.assigned }
    ensures trail { IsTrail trail.new.clauses trail.new.assigned }
    ensures vars { trail.new.vars ≡ trail.old.vars }
    ensures clauses { trail.new.clauses ≡ trail.old.clauses }
{
    if let Some(end) = assume(trail, assumed, depth) {
        return Some(end);
    }
    *depth = (*depth).min(trail.level());
    'deciding: while let Some(_lit) = trail.decide_next(leaning) {
        if let Propagated::Conflict(number) = trail.propagate() {
            return Some(DeadEnd::Conflict(number));
        }
    }
    None
}

/// The values of the variables of a full trail.
pub(crate) fn values_of(alloc: Global, trail: &Trail) -> Result<Valuation, AllocError>
    requires { IsFull trail.now }
    ensures long { IfOk result (λ v. length v ≡ trail.now.vars) }
    ensures values { IfOk result (AreValues (falses_of trail.now.assigned)) }
{
    let mut values = Vec::new(alloc);
    for var in 0..trail.vars() {
        values.push(trail.value(var + 1).unwrap_or(false))?;
    }
    Ok(Valuation::of(values))
}
