// The lists of the slots that watch a literal.
ghost use Rattle.std.specs.Prelude.{◌≡◌, ◌≢◌, ◌+◌, ◌-◌, ◌<◌, ◌≤◌, ◌^◌, ◌++◌, ◌∷◌, [], ℕ, IfOk, OnOk, OnErr, length, replicate, slice_index_or, slice_set, vec_len, vec_capacity};
ghost use Rattle.unit_propagation.specs.Watches.WatchState.{list_at, link_at, moved, with_slot, IsListed};
ghost use Rattle.unit_propagation.specs.Watches.Steps.{unlinked_first, unlinked_slots};

use std::alloc::{AllocError, Global};
use std::marker::Model;

// A watched place of a clause: the number of the literal, and the link to the next place that has it.
#[derive(Clone, Copy, Debug)]
struct Slot {
    code: u32,
    next: u32,
}

/// For each number of a literal the list of the slots that watch it. Contracts see the number that each slot
/// watches, and the lists.
#[derive(Debug, Drop)]
pub struct WatchLists {
    first: Vec<u32>,
    slots: Vec<Slot>,
}

impl Model for WatchLists {
    ghost use Rattle.std.specs.Prelude.{map};
    ghost use Rattle.unit_propagation.specs.Watches.WatchState.{WatchState};

    ghost Value = { WatchState };

    ghost use Rattle.unit_propagation.specs.Watches.Linked.{lists_of};
    ghost use Rattle.unit_propagation.specs.Watches.Kept.{IsKept};

    ghost view = { λ w. record { codes = map (λ s. s.code) w.slots.items; lists = lists_of w.slots.items w.first.items } };

    ghost invariant = { IsKept };
}

fn no_links(alloc: Global, count: usize) -> Result<Vec<u32>, AllocError>
    ensures { IfOk result (λ v. v.items ≡ replicate count 0) }
{
    vec![in alloc; 0; count]
}

// One slot more at the end, where there is room for it, linked before its list.
fn put(first: &mut Vec<u32>, slots: &mut Vec<Slot>, code: u32)
    requires code { code < length first.old.items }
    requires small { length slots.old.items + 1 < 2 ^ 32 }
    requires room { vec_len slots.old < vec_capacity slots.old }
    ensures first { first.new.items ≡ slice_set first.old.items code (length slots.old.items + 1) }
    ensures slots { slots.new.items ≡ slots.old.items ++ record { code = code; next = slice_index_or first.old.items code 0 } ∷ [] }
    ensures len { vec_len slots.new ≡ vec_len slots.old + 1 }
    ensures capacity { vec_capacity slots.old ≤ vec_capacity slots.new }
{
    let next = first[code as usize];
    let _ = slots.push(Slot { code, next });
    first[code as usize] = slots.len() as u32;
}

// Takes a slot off a list, where the slot before it is known.
fn unlink(first: &mut Vec<u32>, slots: &mut Vec<Slot>, from: u32, at: u32, before: u32, slot: u32)
    requires from { from < length first.old.items }
    requires slot { slot < length slots.old.items }
    requires before { 0 < at → before < length slots.old.items }
    ensures first { first.new.items ≡ unlinked_first first.old.items slots.old.items from at slot }
    ensures slots { slots.new.items ≡ unlinked_slots slots.old.items at before slot }
{
    let next = slots[slot as usize].next;
    if at == 0 {
        first[from as usize] = next;
    } else {
        slots[before as usize].next = next;
    }
}

// Puts a slot at the front of a list.
fn relink(first: &mut Vec<u32>, slots: &mut Vec<Slot>, slot: u32, to: u32)
    requires to { to < length first.old.items }
    requires slot { slot < length slots.old.items }
    requires small { slot + 1 < 2 ^ 32 }
    ensures first { first.new.items ≡ slice_set first.old.items to (slot + 1) }
    ensures slots { slots.new.items ≡ slice_set slots.old.items slot (record { code = to; next = slice_index_or first.old.items to 0 }) }
{
    slots[slot as usize] = Slot {
        code: to,
        next: first[to as usize],
    };
    first[to as usize] = slot + 1;
}

impl WatchLists {
    /// No slots, and an empty list for each number below this one.
    pub fn new(alloc: Global, codes: usize) -> Result<WatchLists, AllocError>
        ensures { IfOk result (λ w. w ≡ record { codes = []; lists = replicate codes [] }) }
    {
        let first = no_links(alloc, codes)?;
        Ok(WatchLists {
            first,
            slots: Vec::new(alloc),
        })
    }

    /// Equal lists of the same slots.
    pub fn copy(&self, alloc: Global) -> Result<WatchLists, AllocError>
        ensures { IfOk result (λ w. w ≡ self.now) }
    {
        let first = Vec::from_slice(alloc, self.first.as_slice())?;
        let slots = Vec::from_slice(alloc, self.slots.as_slice())?;
        Ok(WatchLists { first, slots })
    }

    /// The number of slots.
    pub fn len(&self) -> u32
        ensures len { result ≡ length self.now.codes }
        ensures listed { IsListed self.now }
        ensures few { result < 2 ^ 32 }
    {
        self.slots.len() as u32
    }

    /// What a slot watches.
    pub fn code(&self, slot: u32) -> u32
        requires { slot < length self.now.codes }
        ensures { result ≡ slice_index_or self.now.codes slot 0 }
    {
        self.slots[slot as usize].code
    }

    /// The link to the first slot of a list.
    pub fn first(&self, code: u32) -> u32
        requires { code < length self.now.lists }
        ensures { result ≡ link_at (list_at self.now.lists code) 0 }
    {
        self.first[code as usize]
    }

    /// The link to the slot that follows this one on its list, where it is at this place.
    pub fn next(&self, slot: u32) -> u32
        requires { slot < length self.now.codes }
        ensures { (code k : ℕ) → code < length self.now.lists → k < length (list_at self.now.lists code) → slice_index_or (list_at self.now.lists code) k 0 ≡ slot → result ≡ link_at (list_at self.now.lists code) (k + 1) }
    {
        self.slots[slot as usize].next
    }

    /// Two slots more, those of a clause, which watch these numbers: each comes to the front of its list. After an error
    /// all is as before.
    pub fn push(&mut self, one: u32, other: u32) -> Result<(), AllocError>
        requires one { one < length self.old.lists }
        requires other { other < length self.old.lists }
        requires room { length self.old.codes + 2 < 2 ^ 32 }
        ensures ok { OnOk result (self.new ≡ with_slot (with_slot self.old one) other) }
        ensures err { OnErr result (self.new ≡ self.old) }
    {
        self.slots.reserve(2)?;
        put(&mut self.first, &mut self.slots, one);
        put(&mut self.first, &mut self.slots, other);
        Ok(())
    }

    /// Brings the slot at this place of the one list to the front of the other; `before` is the slot before it.
    pub fn bring(&mut self, from: u32, at: u32, before: u32, slot: u32, to: u32)
        requires from_in_range { from < length self.old.lists }
        requires to_in_range { to < length self.old.lists }
        requires other { from ≢ to }
        requires at_in_range { at < length (list_at self.old.lists from) }
        requires slot { slice_index_or (list_at self.old.lists from) at 0 ≡ slot }
        requires before { 0 < at → slice_index_or (list_at self.old.lists from) (at - 1) 0 ≡ before }
        ensures { self.new ≡ record { codes = slice_set self.old.codes slot to; lists = moved self.old.lists from at slot to } }
    {
        unlink(&mut self.first, &mut self.slots, from, at, before, slot);
        relink(&mut self.first, &mut self.slots, slot, to);
    }
}
