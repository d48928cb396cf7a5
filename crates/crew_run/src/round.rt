// One round of a worker.
ghost use Rattle.std.specs.Prelude.{◌≡◌, ◌≤◌, ◌+◌, [], take, length, All, IfOk, OnOk};
ghost use Rattle.rel_formula.specs.Instance.{AreCells};
ghost use Rattle.translation_rules.specs.Imports.{IsImport};
ghost use Rattle.session_state.specs.Rounds.Held.{IsHeldAt};
ghost use Rattle.session_state.specs.Rounds.Rounds.{parts_in, IsRoundAt, IsRightRound, IsStoppedRound};
ghost use Rattle.crew_run.specs.Searching.{IsSearcher, IsReadable, IsEventOf};

use crate::event::CrewEvent;
use crate::leaning::leaning_of;
use crate::reading::Reading;
use refutation_check::{Log, Part};
use rel_formula::Scenario;
use sat_core::StepCount;
use session_rules::Parts;
use session_rules::laws::a_refuting_part_makes_a_proof;
use session_state::search_rounds::{HeldSearch, RoundEnd, joined, proof_of};
use std::alloc::{AllocError, Global};
use translation::Translation;

/// What a worker searches with: the search that it holds, no imported steps, and the empty floor.
#[derive(Drop)]
pub(crate) struct Searcher {
    search: HeldSearch,
    pool: Log,
    floor: Scenario,
}

/// The searcher of the worker of this number, from 0, with nothing blocked.
pub(crate) fn searcher_of(
    alloc: Global,
    translation: &Translation,
    worker: u32,
) -> Result<Searcher, AllocError>
    ensures { IfOk result (IsSearcher translation.now []) }
{
    let leaning = leaning_of(alloc, worker, translation.problem().cells())?;
    let pool = Log::new(alloc);
    let floor = Scenario::new(alloc);
    let search = HeldSearch::at(alloc, translation, &pool, &floor, &[], leaning)?;
    Ok(Searcher {
        search,
        pool,
        floor,
    })
}

impl Searcher {
    // Blocks what is told behind the first so many scenarios, which are blocked.
    pub(crate) fn block_all(
        &mut self,
        alloc: Global,
        translation: &Translation,
        told: &[Scenario],
        known: usize,
    ) -> Result<(), AllocError>
        requires searcher { IsSearcher translation.now (take known told.now) self.old }
        requires known { known ≤ length told.now }
        requires cells { All (AreCells translation.now.problem) told.now }
        requires few { length told.now ≤ 1000000 }
        ensures { OnOk result (IsSearcher translation.now told.now self.new) }
    {
        block_behind(
            alloc,
            translation,
            &mut self.search,
            &self.pool,
            &self.floor,
            told,
            known,
        )?;
        Ok(())
    }

    // What one round comes to, with all that was read of the journal blocked. Its searches raise the count by no more than the budget.
    pub(crate) fn event(
        &mut self,
        alloc: Global,
        translation: &Translation,
        reading: &Reading,
        budget: u64,
        count: &mut StepCount,
    ) -> Result<CrewEvent, AllocError>
        requires searcher { IsSearcher translation.now reading.now.told.items self.old }
        requires read { IsReadable translation.now reading.now }
        requires budget { budget ≤ 100000000 }
        ensures searcher { OnOk result (IsSearcher translation.now reading.now.told.items self.new) }
        ensures event { IfOk result (IsEventOf translation.now budget reading.now) }
        ensures spent { count.new ≤ count.old + budget }
    {
        let end = self.search.round(
            alloc,
            translation,
            &self.pool,
            &self.floor,
            reading.found.as_slice(),
            reading.told.as_slice(),
            budget,
            count,
        )?;
        let event = event_of(alloc, translation, reading, budget, end)?;
        Ok(event)
    }
}

// Blocks in a search what is told behind the first so many scenarios, one behind the other.
fn block_behind(
    alloc: Global,
    translation: &Translation,
    search: &mut HeldSearch,
    pool: &Log,
    floor: &Scenario,
    told: &[Scenario],
    known: usize,
) -> Result<(), AllocError>
    requires held { IsHeldAt translation.now pool.now floor.now (take known told.now) search.old }
    requires import { IsImport translation.now pool.now }
    requires floor { AreCells translation.now.problem floor.now }
    requires known { known ≤ length told.now }
    requires cells { All (AreCells translation.now.problem) told.now }
    requires few { length told.now ≤ 1000000 }
    ensures { OnOk result (IsHeldAt translation.now pool.now floor.now told.now search.new) }
{
    for at in known..told.len() {
        search.block(alloc, translation, pool, floor, &told[..at], &told[at])?;
    }
    Ok(())
}

// The event of a round that came to this end.
fn event_of(
    alloc: Global,
    translation: &Translation,
    reading: &Reading,
    budget: u64,
    end: RoundEnd,
) -> Result<CrewEvent, AllocError>
    requires few { length reading.now.told.items + budget ≤ 200000000 }
    requires parts { IsRoundAt translation.now [] [] reading.now.told.items budget (parts_in end) }
    requires right { IsRightRound translation.now [] [] reading.now.found.items reading.now.told.items budget end }
    requires stopped { IsStoppedRound translation.now [] [] reading.now.found.items reading.now.told.items end }
    ensures { IfOk result (IsEventOf translation.now budget reading.now) }
{
    a_refuting_part_makes_a_proof();
    match end {
        RoundEnd::Due { scenario, parts: _ } => Ok(CrewEvent::Found(scenario)),
        RoundEnd::Copy {
            scenario,
            parts: _,
            left: _,
        } => Ok(CrewEvent::Copy(scenario)),
        RoundEnd::Refuted { part } => ended(alloc, reading.told.as_slice(), &part),
        RoundEnd::Spent { parts } => gave_up(reading.read, parts),
    }
}

// The end that a refuting search makes.
fn ended(alloc: Global, told: &[Scenario], part: &Part) -> Result<CrewEvent, AllocError>
    requires { length told.now + length part.now.log ≤ 210000000 }
    ensures { IfOk result (λ event. event ≡ CrewEvent.Ended (record { imported = 0; blocked = told.now; pool = []; log = part.now.log })) }
{
    let pool = Log::new(alloc);
    let blocked = joined(alloc, told, &[])?;
    let proof = proof_of(alloc, &pool, blocked, part)?;
    Ok(CrewEvent::Ended(proof))
}

// That a round with these parts spent the budget. A journal that is too long to be counted is want of memory.
fn gave_up(read: usize, parts: Vec<Part>) -> Result<CrewEvent, AllocError>
    ensures { IfOk result (λ event. event ≡ CrewEvent.GaveUp read parts.items) }
{
    let Ok(read) = u32::try_from(read) else {
        return Err(AllocError);
    };
    let parts = Parts::of(parts);
    Ok(CrewEvent::GaveUp { read, parts })
}
