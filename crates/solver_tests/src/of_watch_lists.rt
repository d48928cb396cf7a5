// Slots and their lists.
ghost use Rattle.std.specs.Prelude.{◌≡◌, ◌-◌, ◌<◌, ◌∷◌, [], IfOk, length, slice_index_or};

use std::alloc::Global;
use std::process::Abort;
use std::test::Fail;
use unit_propagation::watch_lists::WatchLists;

// Slots 0, 2 and 3 watch the number 2, and slot 1 the number 3.
fn four_slots(alloc: Global) -> Result<WatchLists, Fail>
    ensures { IfOk result (λ w. w ≡ record { codes = 2 ∷ 3 ∷ 2 ∷ 2 ∷ []; lists = [] ∷ [] ∷ (3 ∷ 2 ∷ 0 ∷ []) ∷ (1 ∷ []) ∷ [] }) }
{
    let mut watches = WatchLists::new(alloc, 4)?;
    watches.push(2, 3)?;
    watches.push(2, 2)?;
    Ok(watches)
}

// The slots that watch this number, in order.
fn slots_of(alloc: Global, watches: &WatchLists, code: u32) -> Result<Vec<u32>, Fail>
    requires { code < length watches.now.lists }
{
    let mut slots = Vec::new(alloc);
    let mut link = watches.first(code);
    for _ in 0..watches.len() {
        if link == 0 || link > watches.len() {
            break;
        }
        slots.push(link - 1)?;
        link = watches.next(link - 1);
    }
    Ok(slots)
}

// That these slots watch this number, in this order.
fn has_slots(
    rt: &impl Abort,
    alloc: Global,
    watches: &WatchLists,
    code: u32,
    slots: &[u32],
) -> Result<(), Fail>
    requires { code < length watches.now.lists }
{
    let found = slots_of(alloc, watches, code)?;
    assert_eq!(rt; found.as_slice(), slots);
    Ok(())
}

// That where the slot at this place of the list of 2 comes to that of 3, the two lists are these.
fn moves(
    rt: &impl Abort,
    alloc: Global,
    at: u32,
    before: u32,
    slot: u32,
    lists: [&[u32]; 2],
) -> Result<(), Fail>
    requires in_range { at < 3 }
    requires slot { slice_index_or (3 ∷ 2 ∷ 0 ∷ []) at 0 ≡ slot }
    requires before { 0 < at → slice_index_or (3 ∷ 2 ∷ 0 ∷ []) (at - 1) 0 ≡ before }
{
    let [of_two, of_three] = lists;
    let mut watches = four_slots(alloc)?;
    watches.bring(2, at, before, slot, 3);
    has_slots(rt, alloc, &watches, 2, of_two)?;
    has_slots(rt, alloc, &watches, 3, of_three)
}

#[test]
fn slots_have_what_they_watch(rt: HostRuntime) -> Result<(), Fail> {
    let watches = four_slots(rt.alloc())?;
    let found = (watches.len(), watches.code(1), watches.code(3));
    assert_eq!(rt; found, (4, 3, 2));
    Ok(())
}

#[test]
fn slots_are_listed_under_what_they_watch(rt: HostRuntime) -> Result<(), Fail> {
    let watches = four_slots(rt.alloc())?;
    has_slots(&rt, rt.alloc(), &watches, 0, &[])?;
    has_slots(&rt, rt.alloc(), &watches, 2, &[3, 2, 0])?;
    has_slots(&rt, rt.alloc(), &watches, 3, &[1])
}

#[test]
fn the_first_slot_moves(rt: HostRuntime) -> Result<(), Fail> {
    moves(&rt, rt.alloc(), 0, 0, 3, [&[2, 0], &[3, 1]])
}

#[test]
fn a_slot_in_the_middle_moves(rt: HostRuntime) -> Result<(), Fail> {
    moves(&rt, rt.alloc(), 1, 3, 2, [&[3, 0], &[2, 1]])
}

#[test]
fn the_last_slot_moves(rt: HostRuntime) -> Result<(), Fail> {
    moves(&rt, rt.alloc(), 2, 2, 0, [&[3, 2], &[0, 1]])
}

#[test]
fn a_copy_has_the_same_lists(rt: HostRuntime) -> Result<(), Fail> {
    let copy = four_slots(rt.alloc())?.copy(rt.alloc())?;
    has_slots(&rt, rt.alloc(), &copy, 2, &[3, 2, 0])
}
