// What a crew answers.
ghost use Rattle.std.specs.Prelude.{◌≡◌, ◌≤◌, ◌<◌, ℕ, All, IfOk, IsTrue};
ghost use Rattle.crew_run.specs.Crew.{HasEnded, HasGivenUp, IsCrewAnswer, IsCrewJournal};
ghost use Rattle.crew_run.specs.Passing.{EndsWith};

use crate::event::CrewEntry;
use crate::journal::CrewJournal;
use crate::reading::Reading;
use rel_formula::Scenario;
use session_rules::EndProof;
use session_rules::laws::a_proof_of_an_end_is_right;
use session_state::session_search::in_order;
use std::alloc::{AllocError, Global};
use translation::Translation;

/// What a crew answers.
#[derive(Drop)]
pub enum CrewAnswer {
    /// All that is due, the earlier ones first, and a proof that nothing is left but these and copies of them.
    Ended {
        scenarios: Vec<Scenario>,
        proof: EndProof,
    },
    /// Each worker has given up.
    Spent {
        journal: Vec<CrewEntry>,
    },
    /// The journal tells of as many scenarios as it may.
    Full {
        journal: Vec<CrewEntry>,
    },
}

/// What the journal of so many workers, which have stopped, answers. The error comes where memory is wanting, also where some worker
/// stopped for that.
pub(crate) fn answer_of(
    alloc: Global,
    journal: CrewJournal,
    translation: &Translation,
    workers: u32,
) -> Result<CrewAnswer, AllocError>
    requires numbers { All (λ e. (1 ≤ e.by) × (e.by ≤ workers)) journal.entries }
    requires translation { journal.task.translation ≡ translation.now }
    ensures { IfOk result (IsCrewAnswer journal.task.translation workers journal.task.budget journal.task.most) }
{
    if let Some(proof) = journal.end() {
        return listed(alloc, translation, journal.entries(), proof);
    }
    unended(journal, workers)
}

// What a journal that has ended lists.
fn listed(
    alloc: Global,
    translation: &Translation,
    entries: &[CrewEntry],
    proof: &EndProof,
) -> Result<CrewAnswer, AllocError>
    requires legal { (budget : ℕ) × (most : ℕ) × IsCrewJournal translation.now budget most entries.now }
    requires end { EndsWith entries.now proof.now }
    ensures { IfOk result (λ answer. (workers budget most : ℕ) → IsCrewAnswer translation.now workers budget most answer) }
{
    a_proof_of_an_end_is_right();
    let _ = translation.problem(); // for the proof
    let mut reading = Reading::new(alloc);
    reading.go_on(alloc, entries)?;
    let scenarios = in_order(alloc, reading.found.as_slice())?;
    let proof = proof.copy()?;
    Ok(CrewAnswer::Ended { scenarios, proof })
}

// What a journal that has not ended answers.
fn unended(journal: CrewJournal, workers: u32) -> Result<CrewAnswer, AllocError>
    requires numbers { All (λ e. (1 ≤ e.by) × (e.by ≤ workers)) journal.entries }
    requires open { ¬ HasEnded journal.entries }
    ensures { IfOk result (IsCrewAnswer journal.task.translation workers journal.task.budget journal.task.most) }
{
    let all_gave_up = have_given_up(journal.entries(), workers);
    if journal.is_full() {
        let journal = journal.into_entries();
        Ok(CrewAnswer::Full { journal })
    } else if all_gave_up {
        let journal = journal.into_entries();
        Ok(CrewAnswer::Spent { journal })
    } else {
        Err(AllocError)
    }
}

// Whether each worker, of so many, has given up.
fn have_given_up(entries: &[CrewEntry], workers: u32) -> bool
    ensures { IsTrue result → (by : ℕ) → 1 ≤ by → by ≤ workers → HasGivenUp entries.now by }
{
    for place in 0..workers {
        if !has_given_up(entries, place + 1) {
            return false;
        }
    }
    true
}

// Whether the worker of this number has given up.
fn has_given_up(entries: &[CrewEntry], by: u32) -> bool
    ensures { IsTrue result → HasGivenUp entries.now by }
{
    for entry in entries {
        if entry.by == by && entry.event.gave_up() {
            return true;
        }
    }
    false
}
