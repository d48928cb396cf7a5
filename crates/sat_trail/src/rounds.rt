// Propagation, in rounds over what is marked.
ghost use Rattle.std.specs.Prelude.{◌≡◌, ◌+◌, ◌<◌, ◌≤◌, MatchBool, MatchOption, length};
ghost use Rattle.refutation_check.specs.Chain.{Refutes};
ghost use Rattle.unit_propagation.specs.Assignments.Trail.{ForcesMore, falses_of, level_of};
ghost use Rattle.unit_propagation.specs.Propagation.Walk.{IsReady};
ghost use Rattle.sat_trail.specs.Closed.{IsClosed};
ghost use Rattle.sat_trail.specs.Rounds.{AreQuiet, IsFollowed, IsOutcome};

use crate::settling::settle;
use refutation_check::Sight;
use unit_propagation::assignment_trail::{Assigned, Assignment};
use unit_propagation::clause_store::Store;
use unit_propagation::watch_lists::WatchLists;
use unit_propagation::watched_literals::{Pending, propagate_queue};

// What a round came to.
#[derive(Clone, Copy, Debug)]
enum Outcome {
    // The clause at this place is falsified.
    Conflict(u32),
    // No clause is falsified, and none is a unit with its literal open.
    Closed,
    // More literals are true.
    Grown,
}

// Looks at the clause at this place, and makes true what it forces. True where it is falsified.
fn follow(
    store: &Store,
    watches: &WatchLists,
    now: &mut Assignment,
    pending: &Pending,
    propagated: usize,
    level: u32,
    n: u32,
) -> bool
    requires ready { IsReady store.now watches.now now.old pending.now.flags propagated }
    requires level { level ≡ level_of now.old.assigned }
    requires in_range { n < length store.now }
    ensures ready { IsReady store.now watches.now now.new pending.now.flags propagated }
    ensures followed { MatchBool result (Refutes store.now (falses_of now.new.assigned) (n + 1)) (IsFollowed store.now now.old now.new n) }
    ensures vars { now.new.vars ≡ now.old.vars }
    ensures more { ForcesMore now.old.assigned now.new.assigned }
    ensures level { level_of now.new.assigned ≡ level_of now.old.assigned }
{
    let _ = store.len(); // for the proof
    match now.look(store.codes(n + 1)) {
        Sight::Falsified => true,
        Sight::Neither => false,
        Sight::Unit(lit) => {
            now.assign(Assigned {
                lit,
                level,
                reason: Some(n + 1),
            });
            false
        }
    }
}

// Looks at the marked clauses in turn, and makes true what they force: the place of one that is falsified, or none.
fn follow_marked(
    store: &Store,
    watches: &WatchLists,
    now: &mut Assignment,
    pending: &Pending,
    propagated: usize,
    level: u32,
) -> Option<u32>
    requires ready { IsReady store.now watches.now now.old pending.now.flags propagated }
    requires level { level ≡ level_of now.old.assigned }
    ensures ready { IsReady store.now watches.now now.new pending.now.flags propagated }
    ensures vars { now.new.vars ≡ now.old.vars }
    ensures more { ForcesMore now.old.assigned now.new.assigned }
    ensures level { level_of now.new.assigned ≡ level_of now.old.assigned }
    ensures found { MatchOption result (length now.new.assigned ≡ length now.old.assigned → AreQuiet store.now (falses_of now.new.assigned) pending.now.flags) (λ n. Refutes store.now (falses_of now.new.assigned) (n + 1)) }
{
    for n in pending.list() {
        if follow(store, watches, now, pending, propagated, level, *n) {
            return Some(*n);
        }
    }
    None
}

// Follows the watched literals that became false, and then the marked clauses.
fn round(
    store: &Store,
    watches: &mut WatchLists,
    now: &mut Assignment,
    pending: &mut Pending,
    propagated: &mut usize,
    level: u32,
) -> Outcome
    requires ready { IsReady store.now watches.old now.old pending.old.flags propagated.old }
    requires level { level ≡ level_of now.old.assigned }
    ensures ready { IsReady store.now watches.new now.new pending.new.flags propagated.new }
    ensures round { IsOutcome store.now now.old now.new result }
    ensures vars { now.new.vars ≡ now.old.vars }
    ensures more { ForcesMore now.old.assigned now.new.assigned }
    ensures level { level_of now.new.assigned ≡ level_of now.old.assigned }
{
    if let Some(n) = propagate_queue(store, watches, now, pending, propagated, level) {
        return Outcome::Conflict(n);
    }
    if let Some(n) = follow_marked(store, watches, now, pending, *propagated, level) {
        return Outcome::Conflict(n);
    }
    if *propagated < now.len() {
        return Outcome::Grown;
    }
    settle(store, watches, now, pending, *propagated);
    Outcome::Closed
}

/// Makes true what the clauses force, until nothing is left, or a clause is falsified: its place.
pub(crate) fn propagate_all(
    store: &Store,
    watches: &mut WatchLists,
    now: &mut Assignment,
    pending: &mut Pending,
    propagated: &mut usize,
) -> Option<u32>
    requires { IsReady store.now watches.old now.old pending.old.flags propagated.old }
    ensures ready { IsReady store.now watches.new now.new pending.new.flags propagated.new }
    ensures propagated { MatchOption result (IsClosed store.now (falses_of now.new.assigned)) (λ n. Refutes store.now (falses_of now.new.assigned) (n + 1)) }
    ensures vars { now.new.vars ≡ now.old.vars }
    ensures more { ForcesMore now.old.assigned now.new.assigned }
    ensures level { level_of now.new.assigned ≡ level_of now.old.assigned }
{
    let level = now.level();
    'rounds: loop {
        let _ = now.len(); // for the proof
        match round(store, watches, now, pending, propagated, level) {
            Outcome::Conflict(n) => return Some(n),
            Outcome::Closed => return None,
            Outcome::Grown => {}
        }
    }
}
