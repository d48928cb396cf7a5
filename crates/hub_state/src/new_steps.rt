// What came into a key's pool behind the steps that a session has of it.
ghost use Rattle.std.specs.Prelude.{◌≡◌, ◌≤◌, ◌<◌, ◌+◌, ◌-◌, ◌^◌, ◌++◌, [], ℕ, length, take, drop, OnOk, if◌then◌else◌};
ghost use mathlib.Core.List.{IsPrefix};
ghost use Rattle.hub_state.specs.Held.{steps_added, steps_in};

use crate::journal_rules::{Entry, Event};
use refutation_check::{Log, Step};
use std::alloc::{AllocError, Global};

/// Puts behind steps that begin the key's pool, which has so many steps, all that come there behind them. The pool is what the
/// entries shared for the key.
pub(crate) fn put_behind(
    alloc: Global,
    entries: &[Entry],
    key: u32,
    steps: usize,
    have: &mut Log,
) -> Result<(), AllocError>
    requires steps { steps ≡ length (steps_in key entries.now) }
    requires few { steps < 2 ^ 30 }
    requires begins { IsPrefix have.old (steps_in key entries.now) }
    ensures whole { OnOk result (have.new ≡ steps_in key entries.now) }
    ensures grows { IsPrefix have.old have.new }
    ensures begins { IsPrefix have.new (steps_in key entries.now) }
{
    let (place, before) = place_of(entries, key, steps, have.steps().len());
    put_from(alloc, entries, place, key, before, have)
}

// How many of the entries, the first ones, added so many steps at most to the key's pool, and how many steps they added. It looks
// from the newest entry back.
fn place_of(entries: &[Entry], key: u32, steps: usize, most: usize) -> (usize, usize)
    requires { steps ≡ length (steps_in key entries.now) }
    ensures place { result.0 ≤ length entries.now }
    ensures before { result.1 ≡ length (steps_in key (take result.0 entries.now)) }
    ensures most { result.1 ≤ most }
{
    let mut place = entries.len();
    let mut before = steps;
    'looking: while before > most {
        place -= 1;
        before -= added_by(&entries[place], key).len();
    }
    (place, before)
}

// Puts behind steps that begin the key's pool what the entries from this place on added to it, but for those that are had. The
// entries before the place added so many steps, which are all had.
fn put_from(
    alloc: Global,
    entries: &[Entry],
    place: usize,
    key: u32,
    before: usize,
    have: &mut Log,
) -> Result<(), AllocError>
    requires place { place ≤ length entries.now }
    requires before { before ≡ length (steps_in key (take place entries.now)) }
    requires had { before ≤ length have.old }
    requires few { length (steps_in key entries.now) < 2 ^ 30 }
    requires begins { IsPrefix have.old (steps_in key entries.now) }
    ensures whole { OnOk result (have.new ≡ steps_in key entries.now) }
    ensures grows { IsPrefix have.old have.new }
    ensures begins { IsPrefix have.new (steps_in key entries.now) }
{
    let mut before = before;
    for at in place..entries.len() {
        let steps = added_by(&entries[at], key);
        put_beyond(alloc, have, steps, before)?;
        before += steps.len();
    }
    Ok(())
}

// The steps that the entry added to the key's pool.
fn added_by(entry: &Entry, key: u32) -> &[Step]
    ensures { result.now ≡ steps_added key entry.now }
{
    match &entry.event {
        Event::Shared { key: at, steps } => steps_for(*at == key, steps),
        _ => &[],
    }
}

// All steps, or none.
fn steps_for(all: bool, steps: &Log) -> &[Step]
    ensures { result.now ≡ (if all then steps.now else []) }
{
    if all { steps.steps() } else { &[] }
}

// Puts behind what is had, which has so many steps before these, those of them that aren't had.
fn put_beyond(
    alloc: Global,
    have: &mut Log,
    steps: &[Step],
    before: usize,
) -> Result<(), AllocError>
    requires had { before ≤ length have.old }
    requires few { before + length steps.now < 2 ^ 30 }
    ensures ok { OnOk result (have.new ≡ have.old ++ drop (length have.old - before) steps.now) }
    ensures part { (n : ℕ) × (have.new ≡ have.old ++ take n (drop (length have.old - before) steps.now)) }
{
    let rest = behind(steps, have.steps().len() - before);
    for step in rest {
        have.push(step.copy(alloc)?)?;
    }
    Ok(())
}

// The steps behind the first so many.
fn behind(steps: &[Step], n: usize) -> &[Step]
    ensures { result.now ≡ drop n steps.now }
{
    if n < steps.len() { &steps[n..] } else { &[] }
}
