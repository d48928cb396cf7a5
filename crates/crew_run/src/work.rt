// The work of one worker.
ghost use Rattle.std.specs.Prelude.{◌≤◌, Some, []};
ghost use Rattle.crew_run.specs.Passing.{IsReady};
ghost use Rattle.crew_run.specs.Searching.{IsSearcher};

use crate::journal::CrewJournal;
use crate::reading::Reading;
use crate::round::{Searcher, searcher_of};
use crate::turns::{read_on, write_down};
use hub_lock::{Gate, Pass, Turns};
use sat_core::StepCount;
use std::alloc::{AllocError, Global};
use std::sync::Wait;
use translation::Translation;

/// A worker's right to take turns.
pub(crate) struct Worker {
    pub pass: Pass<CrewJournal>,
}

/// Rounds of a worker, until nothing is left to be found, or one spends the budget, or no more can be written down, or memory is
/// wanting.
pub(crate) fn work<R: Wait, G: Gate>(
    rt: &R,
    alloc: Global,
    lock: &Turns<CrewJournal>,
    worker: &mut Worker,
    translation: &Translation,
    budget: u64,
    most: u32,
    gate: &G,
)
    requires ready { IsReady lock.now (Some (record { translation = translation.now; budget = budget; most = most })) worker.old.pass }
    requires budget { budget ≤ 100000000 }
    requires most { most ≤ 1000000 }
    ensures { IsReady lock.now (Some (record { translation = translation.now; budget = budget; most = most })) worker.new.pass }
{
    let place = worker.pass.number() - 1;
    let Ok(mut searcher) = searcher_of(alloc, translation, place) else {
        return;
    };
    let _ = rounds(
        rt,
        alloc,
        lock,
        &mut worker.pass,
        &mut searcher,
        translation,
        budget,
        most,
        gate,
    );
}

// The rounds, each with a count of its own. None but the last leaves what the crew has told as it was, so these are enough.
fn rounds<R: Wait, G: Gate>(
    rt: &R,
    alloc: Global,
    lock: &Turns<CrewJournal>,
    pass: &mut Pass<CrewJournal>,
    searcher: &mut Searcher,
    translation: &Translation,
    budget: u64,
    most: u32,
    gate: &G,
) -> Result<(), AllocError>
    requires ready { IsReady lock.now (Some (record { translation = translation.now; budget = budget; most = most })) pass.old }
    requires searcher { IsSearcher translation.now [] searcher.old }
    requires budget { budget ≤ 100000000 }
    requires most { most ≤ 1000000 }
    ensures { IsReady lock.now (Some (record { translation = translation.now; budget = budget; most = most })) pass.new }
{
    let place = pass.number() - 1;
    let mut reading = Reading::new(alloc);
    for round in 0..most + 2 {
        gate.pass(place, round);
        let known = reading.told.len();
        if !read_on(rt, alloc, lock, pass, &mut reading)? {
            return Ok(());
        }
        searcher.block_all(alloc, translation, reading.told.as_slice(), known)?;
        let mut count = StepCount::new();
        let event = searcher.event(alloc, translation, &reading, budget, &mut count)?;
        let is_last = event.told().is_none();
        write_down(rt, lock, pass, reading.read, event)?;
        if is_last {
            return Ok(());
        }
    }
    Ok(())
}
