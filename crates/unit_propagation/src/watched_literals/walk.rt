// The walk over the slots that watch a literal that became false.
ghost use Rattle.std.specs.Prelude.{◌≡◌, MatchOption, ◌+◌, ◌-◌, ◌/◌, ◌<◌, ◌≤◌, ◌^◌, ◌++◌, ◌∷◌, [], ℕ, All, Contains, None, length, slice_index_or, slice_set, Some, if◌then◌else◌, IsTrue, IsFalse, true, false};
ghost use Rattle.std.specs.List.{remove};
ghost use Rattle.cnf_core.specs.Literal.{negation_of};
ghost use Rattle.unit_propagation.specs.Clauses.Codes.{literals_of, literal_of as literal};
ghost use Rattle.refutation_check.specs.Assumed.{IsOpen};
ghost use Rattle.refutation_check.specs.Chain.{Refutes};
ghost use Rattle.unit_propagation.specs.Propagation.Closed.{IsClosedBut};
ghost use Rattle.unit_propagation.specs.Watches.WatchState.{list_at};
ghost use Rattle.unit_propagation.specs.Assignments.Trail.{falses_of, level_of, ForcesMore};
ghost use Rattle.unit_propagation.specs.Propagation.Rule.{twin, watched};
ghost use Rattle.unit_propagation.specs.Propagation.Walk.{IsReplacement, IsWalking, IsAtSlot, IsFalseBut, IsStepped, IsWalked, IsReady, IsPropagated};

use crate::assignment_trail::{Assigned, Assignment};
use crate::clause_store::{Store, code_of, literal_of};
use crate::watch_lists::WatchLists;
use crate::watched_literals::pending::Pending;

// What became of a slot.
#[derive(Clone, Copy, Debug)]
enum Step {
    // It stays on its list.
    Kept,
    // It is on the list of another literal.
    Moved,
    // Its clause is falsified.
    Falsified,
}

// The other slot of the same clause.
fn twin_of(slot: u32) -> u32
    requires { slot + 1 < 2 ^ 32 }
    ensures { result ≡ twin slot }
{
    if slot % 2 == 0 { slot + 1 } else { slot - 1 }
}

// A literal of the clause that may be watched in place of a false one, or none.
fn replacement(codes: &[u32], now: &Assignment, other: u32) -> Option<u32>
    requires { All (λ c. c / 2 ≤ now.now.vars) codes.now }
    ensures { IsReplacement (falses_of now.now.assigned) now.now.vars (literals_of codes.now) other result }
{
    for code in codes {
        if *code != other {
            match now.value(*code) {
                Some(false) => {}
                _ => return Some(*code),
            }
        }
    }
    None
}

// What the other slot of the clause watches.
fn other_of(
    store: &Store,
    watches: &WatchLists,
    now: &Assignment,
    pending: &Pending,
    propagated: usize,
    gone: u32,
    at: u32,
    slot: u32,
) -> u32
    requires { IsAtSlot store.now watches.now now.now pending.now.flags propagated gone at slot }
    ensures code { result ≡ slice_index_or watches.now.codes (twin slot) 0 }
    ensures low { result / 2 ≤ now.now.vars }
{
    let _ = watches.len(); // for the proof
    watches.code(twin_of(slot))
}

// Marks a clause where the answer is yes.
fn mark_if(pending: &mut Pending, n: u32, is_high: bool)
    requires { n < length pending.old.flags }
    ensures { pending.new.flags ≡ (if is_high then slice_set pending.old.flags n true else pending.old.flags) }
{
    if is_high {
        pending.mark(n);
    }
}

// The other literal of the clause is true: the slot stays, and the clause is marked where that is so at a higher level.
fn keep(
    store: &Store,
    watches: &WatchLists,
    now: &Assignment,
    pending: &mut Pending,
    propagated: usize,
    gone: u32,
    at: u32,
    slot: u32,
)
    requires at_slot { IsAtSlot store.now watches.now now.now pending.old.flags propagated gone at slot }
    requires is_true { Contains (falses_of now.now.assigned) (negation_of (watched watches.now.codes (twin slot))) }
    ensures { IsWalking store.now watches.now now.now pending.new.flags propagated gone (at + 1) }
{
    let other = other_of(store, watches, now, pending, propagated, gone, at, slot);
    let _ = watches.len(); // for the proof
    let is_high = now.level_of(other) > now.at(propagated).level;
    mark_if(pending, slot / 2, is_high);
}

// All literals of the clause but the other one are false, and that one is open: it is made true, and the clause is
// marked where that is so at a higher level.
fn force(
    store: &Store,
    watches: &WatchLists,
    now: &mut Assignment,
    pending: &mut Pending,
    propagated: usize,
    gone: u32,
    at: u32,
    slot: u32,
    level: u32,
)
    requires at_slot { IsAtSlot store.now watches.now now.old pending.old.flags propagated gone at slot }
    requires is_open { IsOpen (falses_of now.old.assigned) (watched watches.now.codes (twin slot)) }
    requires others { IsFalseBut store.now (falses_of now.old.assigned) (slot / 2) (watched watches.now.codes (twin slot)) }
    requires level { level ≡ level_of now.old.assigned }
    ensures walking { IsWalking store.now watches.now now.new pending.new.flags propagated gone (at + 1) }
    ensures more { now.new ≡ record now.old { assigned = now.old.assigned ++ record { lit = watched watches.now.codes (twin slot); level = level; reason = Some (slot / 2 + 1) } ∷ [] } }
{
    let other = other_of(store, watches, now, pending, propagated, gone, at, slot);
    let _count = watches.len(); // for the proof
    let _clauses = store.len(); // for the proof
    let is_high = level > now.at(propagated).level;
    now.assign(Assigned {
        lit: literal_of(other),
        level,
        reason: Some(slot / 2 + 1),
    });
    mark_if(pending, slot / 2, is_high);
}

// Watches another literal of the clause in place of the false one, if there is one that isn't false.
fn replace(
    store: &Store,
    watches: &mut WatchLists,
    now: &Assignment,
    pending: &Pending,
    propagated: usize,
    gone: u32,
    at: u32,
    before: u32,
    slot: u32,
) -> bool
    requires at_slot { IsAtSlot store.now watches.old now.now pending.now.flags propagated gone at slot }
    requires before { 0 < at → slice_index_or (list_at watches.old.lists gone) (at - 1) 0 ≡ before }
    ensures walking { IsWalking store.now watches.new now.now pending.now.flags propagated gone at }
    ensures moved { IsTrue result → list_at watches.new.lists gone ≡ remove (list_at watches.old.lists gone) at }
    ensures stays { IsFalse result → watches.new ≡ watches.old }
    ensures others { IsFalse result → IsFalseBut store.now (falses_of now.now.assigned) (slot / 2) (watched watches.old.codes (twin slot)) }
{
    let other = other_of(store, watches, now, pending, propagated, gone, at, slot);
    let _count = watches.len(); // for the proof
    let _clauses = store.len(); // for the proof
    let _count_true = now.len(); // for the proof
    match replacement(store.codes(slot / 2 + 1), now, other) {
        Some(code) => {
            watches.bring(gone, at, before, slot, code);
            true
        }
        None => false,
    }
}

// Looks at one slot of a literal that became false.
fn look_at(
    store: &Store,
    watches: &mut WatchLists,
    now: &mut Assignment,
    pending: &mut Pending,
    propagated: usize,
    gone: u32,
    at: u32,
    before: u32,
    slot: u32,
    level: u32,
) -> Step
    requires at_slot { IsAtSlot store.now watches.old now.old pending.old.flags propagated gone at slot }
    requires before { 0 < at → slice_index_or (list_at watches.old.lists gone) (at - 1) 0 ≡ before }
    requires level { level ≡ level_of now.old.assigned }
    ensures stepped { IsStepped store.now watches.old watches.new now.new pending.new.flags propagated gone at slot result }
    ensures vars { now.new.vars ≡ now.old.vars }
    ensures more { ForcesMore now.old.assigned now.new.assigned }
    ensures level { level_of now.new.assigned ≡ level_of now.old.assigned }
{
    let other = other_of(store, watches, now, pending, propagated, gone, at, slot);
    match now.value(other) {
        Some(true) => {
            keep(store, watches, now, pending, propagated, gone, at, slot);
            Step::Kept
        }
        Some(false) => {
            let _ = watches.len(); // for the proof
            if replace(
                store, watches, now, pending, propagated, gone, at, before, slot,
            ) {
                return Step::Moved;
            }
            Step::Falsified
        }
        None => {
            if replace(
                store, watches, now, pending, propagated, gone, at, before, slot,
            ) {
                return Step::Moved;
            }
            force(
                store, watches, now, pending, propagated, gone, at, slot, level,
            );
            Step::Kept
        }
    }
}

// Propagates the consequences of a literal that became false: none, or the place of a clause that is falsified.
fn propagate_one(
    store: &Store,
    watches: &mut WatchLists,
    now: &mut Assignment,
    pending: &mut Pending,
    propagated: usize,
    gone: u32,
    level: u32,
) -> Option<u32>
    requires walking { IsWalking store.now watches.old now.old pending.old.flags propagated gone 0 }
    requires gone_low { 2 ≤ gone }
    requires gone_in { gone < length watches.old.lists }
    requires level { level ≡ level_of now.old.assigned }
    ensures walked { IsWalked store.now watches.new now.new pending.new.flags propagated gone result }
    ensures vars { now.new.vars ≡ now.old.vars }
    ensures more { ForcesMore now.old.assigned now.new.assigned }
    ensures level { level_of now.new.assigned ≡ level_of now.old.assigned }
{
    let mut at: u32 = 0;
    let mut before: u32 = 0;
    let mut link = watches.first(gone);
    'slots: while link != 0 {
        let slot = link - 1;
        let _count = watches.len(); // for the proof
        let next = watches.next(slot);
        match look_at(
            store, watches, now, pending, propagated, gone, at, before, slot, level,
        ) {
            Step::Kept => {
                before = slot;
                at += 1;
            }
            Step::Moved => {}
            Step::Falsified => return Some(slot / 2),
        }
        link = next;
    }
    let _count = watches.len(); // for the proof
    None
}

/// Propagates the consequences of all literals: none, or the place of a clause that is falsified. It takes no memory.
pub fn propagate_queue(
    store: &Store,
    watches: &mut WatchLists,
    now: &mut Assignment,
    pending: &mut Pending,
    propagated: &mut usize,
    level: u32,
) -> Option<u32>
    requires ready { IsReady store.now watches.old now.old pending.old.flags propagated.old }
    requires level { level ≡ level_of now.old.assigned }
    ensures closed { MatchOption result (IsClosedBut store.now (falses_of now.new.assigned) pending.new.flags) (λ n. Refutes store.now (falses_of now.new.assigned) (n + 1)) }
    ensures propagated { IsPropagated store.now watches.new now.new pending.new.flags propagated.new result }
    ensures vars { now.new.vars ≡ now.old.vars }
    ensures more { ForcesMore now.old.assigned now.new.assigned }
    ensures level { level_of now.new.assigned ≡ level_of now.old.assigned }
{
    'literals: while *propagated < now.len() {
        let a = now.at(*propagated);
        let gone = code_of(a.lit.negation());
        match propagate_one(store, watches, now, pending, *propagated, gone, level) {
            Some(n) => return Some(n),
            None => *propagated += 1,
        }
    }
    None
}
