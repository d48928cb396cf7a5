// What is written down of what the workers come to.
ghost use Rattle.std.specs.Prelude.{◌≡◌, ◌≢◌, ◌⊎◌, ◌↔◌, ◌≤◌, ◌<◌, [], take, drop, length, All, Contains, IsTrue};
ghost use Rattle.crew_run.specs.Crew.{told, told_by, HasEnded, MayFollow};
ghost use Rattle.crew_run.specs.Passing.{Leaves};

use crate::event::{CrewEntry, CrewEvent};
use crate::journal::CrewJournal;
use rel_formula::Scenario;
use std::alloc::AllocError;

/// Adds an event which may follow the first entries, so many, behind which none is under this number; but not where the journal has
/// ended, or has no room for it, or tells the same already.
pub(crate) fn write(
    journal: &mut CrewJournal,
    by: u32,
    read: usize,
    event: CrewEvent,
) -> Result<(), AllocError>
    requires read { read ≤ length journal.old.entries }
    requires others { All (λ e. e.by ≢ by) (drop read journal.old.entries) }
    requires may { MayFollow journal.old.task.translation journal.old.task.budget (take read journal.old.entries) by event }
    ensures { Leaves by journal.old journal.new }
{
    if !takes(journal, read, &event) {
        let _ = journal.entries(); // for the proof
        return Ok(());
    }
    let added = journal.add(by, event);
    let _ = journal.entries(); // for the proof
    added
}

// Whether the journal takes the event: it hasn't ended; and where the event tells of a scenario, there is room for it, and the entries
// behind the first ones, so many, don't tell of it.
fn takes(journal: &CrewJournal, read: usize, event: &CrewEvent) -> bool
    requires { read ≤ length journal.now.entries }
    ensures open { IsTrue result → ¬ HasEnded journal.now.entries }
    ensures room { IsTrue result → (told_by event.now ≡ []) ⊎ (length (told journal.now.entries) < journal.now.task.most) }
    ensures new { IsTrue result → All (λ s. ¬ Contains (told (drop read journal.now.entries)) s) (told_by event.now) }
{
    if journal.end().is_some() {
        return false;
    }
    match event.told() {
        Some(scenario) => !journal.is_full() && !is_told(&journal.entries()[read..], scenario),
        None => true,
    }
}

// Whether the entries tell of the scenario.
fn is_told(entries: &[CrewEntry], scenario: &Scenario) -> bool
    ensures { IsTrue result ↔ Contains (told entries.now) scenario.now }
{
    for entry in entries {
        if tells(&entry.event, scenario) {
            return true;
        }
    }
    false
}

// Whether the event tells of the scenario.
fn tells(event: &CrewEvent, scenario: &Scenario) -> bool
    ensures { IsTrue result ↔ Contains (told_by event.now) scenario.now }
{
    match event.told() {
        Some(other) => other.numbers() == scenario.numbers(),
        None => false,
    }
}
