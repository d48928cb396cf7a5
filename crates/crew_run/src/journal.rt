// The journal of a crew.
ghost use Rattle.std.specs.Prelude.{◌≡◌, ◌⊎◌, ◌↔◌, ◌<◌, ◌≤◌, ◌++◌, ◌∷◌, [], length, IsTrue, MatchOption, OnOk, OnErr};
ghost use Rattle.crew_run.specs.Crew.{told, told_by, HasEnded, MayFollow};
ghost use Rattle.crew_run.specs.Passing.{EndsWith, IsJournalOf};

use crate::event::{CrewEntry, CrewEvent};
use hub_lock::Kept;
use session_rules::EndProof;
use std::alloc::{AllocError, Global};
use std::marker::Model;
use std::snapshot::Snapshot;
use translation::Translation;

/// What a crew is at: a translation, the budget of a round, and how many scenarios its journal may tell of. No value of this type is
/// ever made: it is what contracts of the turn lock speak of.
pub struct CrewTask {
    pub translation: Translation,
    pub budget: u64,
    pub most: u32,
}

/// What the workers have written down. Contracts see the task and the entries.
#[derive(Drop)]
pub(crate) struct CrewJournal {
    about: Snapshot<Translation>,
    budget: u64,
    most: u32,
    tells: u32,
    entries: Vec<CrewEntry>,
}

impl Model for CrewJournal {
    ghost use Rattle.std.specs.Prelude.{◌≡◌, length};
    ghost use Rattle.std.specs.Coded.{codes};
    ghost use Rattle.rel_formula.specs.Code.{formula_code};
    ghost use Rattle.crew_run.specs.Crew.{told, IsCrewJournal};
    ghost use Rattle.crew_run.specs.Passing.{Journaled};

    ghost Value = { Journaled };

    ghost coded = { Prim.hlevel (codes, formula_code) };

    ghost view = { λ j. record { task = record { translation = j.about.value; budget = j.budget; most = j.most }; entries = j.entries.items } };

    ghost invariant = { λ j. IsCrewJournal j.about.value j.budget j.most j.entries.items × (j.tells ≡ length (told j.entries.items)) };
}

impl Kept for CrewJournal {
    type Entry = CrewEntry;

    type Base = CrewTask;

    ghost by = { λ e. e.by };

    ghost entries = { λ j. j.entries };

    ghost base = { λ j. j.task };

    fn count(&self) -> u64 {
        self.entries.len() as u64
    }
}

impl CrewJournal {
    // Nothing is written down yet.
    pub(crate) fn new(
        alloc: Global,
        translation: &Translation,
        budget: u64,
        most: u32,
    ) -> CrewJournal
        ensures { result ≡ record { task = record { translation = translation.now; budget = budget; most = most }; entries = [] } }
    {
        CrewJournal {
            about: Snapshot::of(translation),
            budget,
            most,
            tells: 0,
            entries: Vec::new(alloc),
        }
    }

    // What was written down, in order.
    pub(crate) fn entries(&self) -> &[CrewEntry]
        ensures entries { result.now ≡ self.now.entries }
        ensures legal { IsJournalOf self.now.task self.now.entries }
    {
        self.entries.as_slice()
    }

    // Gives the entries back.
    pub(crate) fn into_entries(self) -> Vec<CrewEntry>
        ensures { result.items ≡ self.entries }
    {
        let CrewJournal {
            about: _,
            budget: _,
            most: _,
            tells: _,
            entries,
        } = self;
        entries
    }

    // Whether it tells of as many scenarios as it may.
    pub(crate) fn is_full(&self) -> bool
        ensures yes { IsTrue result → length (told self.now.entries) ≡ self.now.task.most }
        ensures no { ¬ IsTrue result → length (told self.now.entries) < self.now.task.most }
    {
        self.tells >= self.most
    }

    // The proof of an end, which is the last entry.
    pub(crate) fn end(&self) -> Option<&EndProof>
        ensures { MatchOption result (¬ HasEnded self.now.entries) (λ proof. EndsWith self.now.entries proof.now) }
    {
        match self.entries.last() {
            Some(entry) => entry.event.end(),
            None => None,
        }
    }

    // Adds an event that may follow, where the journal has not ended, and has room for the scenario that it tells of. After an error
    // the journal is as before.
    pub(crate) fn add(&mut self, by: u32, event: CrewEvent) -> Result<(), AllocError>
        requires may { MayFollow self.old.task.translation self.old.task.budget self.old.entries by event }
        requires open { ¬ HasEnded self.old.entries }
        requires room { (told_by event ≡ []) ⊎ (length (told self.old.entries) < self.old.task.most) }
        ensures ok { OnOk result (self.new ≡ record self.old { entries = self.old.entries ++ record { by = by; event = event } ∷ [] }) }
        ensures err { OnErr result (self.new ≡ self.old) }
    {
        let more = u32::from(event.told().is_some());
        self.entries.push(CrewEntry { by, event })?;
        self.tells += more;
        Ok(())
    }
}
