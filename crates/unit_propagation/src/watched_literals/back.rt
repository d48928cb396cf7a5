// Going back to a level.
ghost use Rattle.std.specs.Prelude.{◌≡◌, ◌≤◌, ◌<◌, ◌-◌, ℕ, List, length, slice_index_or};
ghost use Rattle.cnf_core.specs.declared.literal.Lit.{Lit};
ghost use Rattle.unit_propagation.specs.declared.assignment_trail.assigned.Assigned.{Assigned};
ghost use Rattle.unit_propagation.specs.Assignments.Trail.{IsTrail, IsBackTo};
ghost use Rattle.unit_propagation.specs.Propagation.Walk.{IsReady};

use crate::assignment_trail::Assignment;
use crate::clause_store::Store;
use crate::watch_lists::WatchLists;
use crate::watched_literals::pending::Pending;

// How many of the oldest literals are at most of this level.
fn count_up_to(now: &Assignment, level: u32) -> usize
    ensures within { result ≤ length now.now.assigned }
    ensures above { (j : ℕ) (d : Assigned) → result ≤ j → j < length now.now.assigned → level < (slice_index_or now.now.assigned j d).level }
    ensures last { 0 < result → (d : Assigned) → (slice_index_or now.now.assigned (result - 1) d).level ≤ level }
{
    let mut count = now.len();
    'looking: while count > 0 {
        if now.at(count - 1).level <= level {
            return count;
        }
        count -= 1;
    }
    0
}

/// Undoes the levels above this one, in one cut.
pub fn back_to(
    store: &Store,
    watches: &WatchLists,
    now: &mut Assignment,
    pending: &Pending,
    propagated: &mut usize,
    level: u32,
)
    requires { IsReady store.now watches.now now.old pending.now.flags propagated.old }
    ensures ready { IsReady store.now watches.now now.new pending.now.flags propagated.new }
    ensures vars { now.new.vars ≡ now.old.vars }
    ensures assigned { IsBackTo level now.old.assigned now.new.assigned }
{
    let count = count_up_to(now, level);
    now.cut(count);
    if *propagated > count {
        *propagated = count;
    }
}
