// Marks taken away where they are no longer needed.
ghost use Rattle.std.specs.Prelude.{◌≡◌, ◌+◌, ◌*◌, ◌/◌, ◌<◌, ◌≤◌, ◌^◌, IsTrue, length};
ghost use Rattle.unit_propagation.specs.Propagation.Walk.{IsReady};
ghost use Rattle.sat_trail.specs.Settling.{IsHeldUp, NeedsNoMark};

use unit_propagation::assignment_trail::Assignment;
use unit_propagation::clause_store::Store;
use unit_propagation::watch_lists::WatchLists;
use unit_propagation::watched_literals::Pending;

// Whether the other literal is true, at no higher level than that of the first one.
fn is_held_by(now: &Assignment, code: u32, other: u32) -> bool
    requires code { code / 2 ≤ now.now.vars }
    requires other { other / 2 ≤ now.now.vars }
    ensures { IsTrue result → IsHeldUp now.now.assigned code other }
{
    match now.value(other) {
        None => false,
        Some(false) => false,
        Some(true) => {
            if now.level_of(other) <= now.level_of(code) {
                return true;
            }
            false
        }
    }
}

// Whether the other literal is true, at no higher level, if the first one is false.
fn is_held_up(now: &Assignment, code: u32, other: u32) -> bool
    requires code { code / 2 ≤ now.now.vars }
    requires other { other / 2 ≤ now.now.vars }
    ensures { IsTrue result → IsHeldUp now.now.assigned code other }
{
    match now.value(code) {
        None => true,
        Some(true) => true,
        Some(false) => is_held_by(now, code, other),
    }
}

// Whether the rule of watched literals holds of the clause at this place without its mark.
fn is_settled(watches: &WatchLists, now: &Assignment, n: u32) -> bool
    requires in_range { 2 * n + 1 < length watches.now.codes }
    requires lists { length watches.now.lists ≡ 2 * now.now.vars + 2 }
    ensures { IsTrue result → NeedsNoMark watches.now.codes now.now.assigned n }
{
    let _ = watches.len(); // for the proof
    let one = watches.code(2 * n);
    let other = watches.code(2 * n + 1);
    if one < 2 {
        return false;
    }
    if other < 2 {
        return false;
    }
    if is_held_up(now, one, other) {
        return is_held_up(now, other, one);
    }
    false
}

// Takes away the mark of the clause at this place of the list, where the rule holds without it.
fn settle_at(
    store: &Store,
    watches: &WatchLists,
    now: &Assignment,
    pending: &mut Pending,
    propagated: usize,
    i: usize,
)
    requires ready { IsReady store.now watches.now now.now pending.old.flags propagated }
    requires in_range { i < length pending.old.list }
    ensures ready { IsReady store.now watches.now now.now pending.new.flags propagated }
    ensures long { length pending.old.list ≤ length pending.new.list + 1 }
{
    let _ = store.len(); // for the proof
    let n = pending.list()[i];
    if is_settled(watches, now, n) {
        let _n = pending.unmark(i);
    }
}

/// Takes away the marks of the clauses of which the rule holds without them.
pub(crate) fn settle(
    store: &Store,
    watches: &WatchLists,
    now: &Assignment,
    pending: &mut Pending,
    propagated: usize,
)
    requires { IsReady store.now watches.now now.now pending.old.flags propagated }
    ensures { IsReady store.now watches.now now.now pending.new.flags propagated }
{
    let mut i = pending.list().len();
    'settling: while i > 0 {
        i -= 1;
        settle_at(store, watches, now, pending, propagated, i);
    }
}
