// A session's store from step to step.
ghost use Rattle.std.specs.Prelude.{◌≡◌, []};

use refutation_check::Log;
use rel_formula::Scenario;
use session_rules::{EndProof, Reply, Scenarios};
use session_state::session_store::SessionStore;
use std::alloc::{AllocError, Global};
use std::test::Fail;

// The scenario of these cells.
fn of(alloc: Global, cells: &[u32]) -> Result<Scenario, AllocError> {
    let mut scenario = Scenario::new(alloc);
    for cell in cells {
        scenario.insert(*cell)?;
    }
    Ok(scenario)
}

fn none(alloc: Global) -> Scenarios
    ensures { result ≡ [] }
{
    Scenarios::of(Vec::new(alloc))
}

// The reply is taken in, with no copies.
fn take(alloc: Global, store: &mut SessionStore, reply: Reply) -> Result<(), AllocError> {
    store.reserve(0)?;
    store.apply(reply, none(alloc));
    Ok(())
}

fn shown(alloc: Global, number: u32, cells: &[u32]) -> Result<Reply, AllocError> {
    Ok(Reply::Shown {
        number,
        scenario: of(alloc, cells)?,
    })
}

// An end with a proof of so many imported steps.
fn end(alloc: Global, number: u32, imported: u32) -> Result<Reply, AllocError> {
    let proof = EndProof::of(
        alloc,
        imported,
        none(alloc),
        Log::new(alloc),
        Log::new(alloc),
    )?;
    Ok(Reply::End { number, proof })
}

// A session that has shown two scenarios at the bottom.
fn with_two(alloc: Global) -> Result<SessionStore, AllocError> {
    let mut store = SessionStore::new(alloc, 7)?;
    take(alloc, &mut store, shown(alloc, 1, &[2])?)?;
    take(alloc, &mut store, shown(alloc, 2, &[1, 3])?)?;
    Ok(store)
}

// What happens to a store: the floor of the cells 1, 3 and 4 stands on top; the scenario of these cells is shown; the second
// scenario is the last, by a proof of so many imported steps; the top floor is left.
#[derive(Clone, Copy)]
enum Event {
    Up,
    Shown,
    End(u32),
    Back,
}

fn reply_of(alloc: Global, event: Event) -> Result<Reply, AllocError> {
    Ok(match event {
        Event::Up => Reply::Augmented {
            floor: of(alloc, &[1, 3, 4])?,
        },
        Event::Shown => shown(alloc, 1, &[1, 3, 4])?,
        Event::End(imported) => end(alloc, 2, imported)?,
        Event::Back => Reply::Back,
    })
}

// The store of two scenarios, after these events.
fn after(alloc: Global, events: &[Event]) -> Result<SessionStore, AllocError> {
    let mut store = with_two(alloc)?;
    for event in events {
        take(alloc, &mut store, reply_of(alloc, *event)?)?;
    }
    Ok(store)
}

// After these events, the number of scenarios shown at the top floor, and of the cells of the last one.
fn counts(alloc: Global, events: &[Event]) -> Result<(usize, usize), AllocError> {
    let store = after(alloc, events)?;
    let here = store.shown_here(alloc)?;
    let last = store.current().map_or(0, |s| s.len());
    Ok((here.len(), last))
}

// After these events, how many steps the proof of the top floor's end imports.
fn imported(alloc: Global, events: &[Event]) -> Result<Option<u32>, AllocError> {
    let store = after(alloc, events)?;
    Ok(store.proof().map(|proof| proof.imported()))
}

// After these events, how many floors there are above the bottom, and whether the top floor has no cells.
fn height(alloc: Global, events: &[Event]) -> Result<(usize, bool), AllocError> {
    let store = after(alloc, events)?;
    Ok((store.height(), store.floor().is_empty()))
}

#[test]
fn the_last_one_shown_is_current(rt: HostRuntime) -> Result<(), Fail> {
    let alloc = rt.alloc();
    assert_eq!(rt; counts(alloc, &[])?, (2, 2));
    assert_eq!(rt; with_two(alloc)?.budget(), 7);
    Ok(())
}

// Of two ends of one floor the first is kept.
#[test]
fn the_first_end_is_kept(rt: HostRuntime) -> Result<(), Fail> {
    let alloc = rt.alloc();
    let events = [Event::End(5), Event::End(6), Event::Up];
    assert_eq!(rt; imported(alloc, &events[..2])?, Some(5));
    assert_eq!(rt; imported(alloc, &events)?, None);
    Ok(())
}

// Each floor has its own list, also when it is come back to.
#[test]
fn a_floor_keeps_its_list(rt: HostRuntime) -> Result<(), Fail> {
    let alloc = rt.alloc();
    let events = [Event::Up, Event::Shown, Event::Back, Event::Up];
    assert_eq!(rt; counts(alloc, &events[..1])?, (0, 0));
    assert_eq!(rt; counts(alloc, &events[..3])?, (2, 2));
    assert_eq!(rt; counts(alloc, &events)?, (1, 3));
    Ok(())
}

#[test]
fn the_bottom_is_not_left(rt: HostRuntime) -> Result<(), Fail> {
    let alloc = rt.alloc();
    let events = [Event::Up, Event::Back, Event::Back];
    assert_eq!(rt; height(alloc, &events[..1])?, (1, false));
    assert_eq!(rt; height(alloc, &events)?, (0, true));
    Ok(())
}

// The reply is taken in, with a copy of each of these cells.
fn take_with(
    alloc: Global,
    store: &mut SessionStore,
    reply: Reply,
    cells: &[u32],
) -> Result<(), Fail> {
    let mut found = Vec::new(alloc);
    for cell in cells {
        found.push(of(alloc, &[*cell])?)?;
    }
    give(store, reply, found)
}

// The reply is taken in, with these copies.
fn give(store: &mut SessionStore, reply: Reply, found: Vec<Scenario>) -> Result<(), Fail> {
    if found.len() > 1000 {
        Err("too many copies")?;
    }
    store.reserve(found.len())?;
    store.apply(reply, Scenarios::of(found));
    Ok(())
}

// The copies found on the way to what is shown are kept with their floor; others are not.
#[test]
fn copies_are_kept_with_their_floor(rt: HostRuntime) -> Result<(), Fail> {
    let alloc = rt.alloc();
    let mut store = SessionStore::new(alloc, 7)?;
    take_with(alloc, &mut store, shown(alloc, 1, &[2])?, &[5, 6])?;
    assert_eq!(rt; store.copies_here(alloc)?.len(), 2);
    take_with(alloc, &mut store, Reply::Memory, &[9])?;
    assert_eq!(rt; store.copies_here(alloc)?.len(), 2);
    take(alloc, &mut store, reply_of(alloc, Event::Up)?)?;
    assert_eq!(rt; store.copies_here(alloc)?.len(), 0);
    Ok(())
}
