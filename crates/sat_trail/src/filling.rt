// A trail made from clauses.
ghost use Rattle.std.specs.Prelude.{◌≡◌, ◌≢◌, ◌+◌, ◌*◌, ◌/◌, ◌<◌, ◌≤◌, ◌^◌, ◌++◌, ◌∷◌, [], All, Contains, IsTrue, IfSome, MatchBool, OnOk, OnErr, false, length};
ghost use Rattle.cnf_core.specs.Literal.{HasVarsUpTo};
ghost use Rattle.unit_propagation.specs.Watches.WatchState.{with_slot};
ghost use Rattle.unit_propagation.specs.Propagation.Rule.{IsMarked};
ghost use Rattle.unit_propagation.specs.Propagation.Walk.{IsReady};
ghost use Rattle.sat_trail.specs.Filling.{IsPair, IsFlagged};

use cnf_core::Clause;
use std::alloc::AllocError;
use unit_propagation::assignment_trail::Assignment;
use unit_propagation::clause_store::Store;
use unit_propagation::watch_lists::WatchLists;
use unit_propagation::watched_literals::Pending;

// The numbers that the two slots of a clause watch. Those of a short clause are 0 and 1, which are no literal's.
#[derive(Clone, Copy, Debug)]
struct Pair {
    one: u32,
    other: u32,
    is_short: bool,
}

// How good it is to watch this literal: best where it isn't false, else the better the higher its level. It is 0 for the
// literal that is watched already.
fn rank(now: &Assignment, code: u32, beside: u32) -> u64
    requires { code / 2 ≤ now.now.vars }
    ensures { 0 < result → code ≢ beside }
{
    if code == beside {
        return 0;
    }
    match now.value(code) {
        Some(false) => u64::from(now.level_of(code)) + 1,
        _ => u64::MAX,
    }
}

// The best literal of the clause to watch beside this one, or none where there is no other.
fn best(codes: &[u32], now: &Assignment, beside: u32) -> Option<u32>
    requires { All (λ c. c / 2 ≤ now.now.vars) codes.now }
    ensures { IfSome result (λ code. Contains codes.now code × (code ≢ beside)) }
{
    let mut best: Option<u32> = None;
    let mut highest = 0;
    for code in codes {
        let this = rank(now, *code, beside);
        if this == u64::MAX {
            return Some(*code);
        }
        if this > highest {
            best = Some(*code);
            highest = this;
        }
    }
    best
}

// Two literals of the clause to watch.
fn pair_of(codes: &[u32], now: &Assignment) -> Pair
    requires { All (λ c. c / 2 ≤ now.now.vars) codes.now }
    ensures { IsPair codes.now result }
{
    if let Some(one) = best(codes, now, 0) {
        if let Some(other) = best(codes, now, one) {
            return Pair {
                one,
                other,
                is_short: false,
            };
        }
    }
    Pair {
        one: 0,
        other: 1,
        is_short: true,
    }
}

// The slots and the mark of a clause more, at this place. After an error all is as before.
fn put_slots(
    watches: &mut WatchLists,
    pending: &mut Pending,
    n: u32,
    pair: Pair,
    is_marked: bool,
) -> Result<(), AllocError>
    requires place { n ≡ length pending.old.flags }
    requires few { n + 1 < 2 ^ 32 }
    requires one { pair.one < length watches.old.lists }
    requires other { pair.other < length watches.old.lists }
    requires small { length watches.old.codes + 2 < 2 ^ 32 }
    ensures watches { OnOk result (watches.new ≡ with_slot (with_slot watches.old pair.one) pair.other) }
    ensures flags { OnOk result (IsFlagged pending.old.flags pending.new.flags is_marked) }
    ensures same_watches { OnErr result (watches.new ≡ watches.old) }
    ensures same_flags { OnErr result (pending.new.flags ≡ pending.old.flags) }
{
    pending.push(false)?;
    match watches.push(pair.one, pair.other) {
        Ok(()) => {}
        Err(error) => {
            pending.pop();
            return Err(error);
        }
    }
    if is_marked {
        pending.mark(n);
    }
    Ok(())
}

/// A clause more, with two of its literals watched. After an error all is as before.
pub(crate) fn append(
    store: &mut Store,
    watches: &mut WatchLists,
    now: &Assignment,
    pending: &mut Pending,
    propagated: usize,
    clause: &Clause,
    is_marked: bool,
) -> Result<(), AllocError>
    requires ready { IsReady store.old watches.old now.now pending.old.flags propagated }
    requires vars { HasVarsUpTo now.now.vars clause.now }
    requires few { length store.old + 1 < 2 ^ 30 }
    requires unmarked { is_marked ≡ false → propagated ≡ 0 }
    ensures store { OnOk result (store.new ≡ store.old ++ clause.now ∷ []) }
    ensures ready { OnOk result (IsReady store.new watches.new now.now pending.new.flags propagated) }
    ensures same_store { OnErr result (store.new ≡ store.old) }
    ensures same { OnErr result (IsReady store.new watches.new now.now pending.new.flags propagated) }
{
    let n = store.len();
    store.push(clause)?;
    let pair = pair_of(store.codes(n + 1), now);
    let is_flagged = is_marked || pair.is_short;
    match put_slots(watches, pending, n, pair, is_flagged) {
        Ok(()) => Ok(()),
        Err(error) => {
            store.pop();
            Err(error)
        }
    }
}
