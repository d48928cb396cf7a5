// What a worker has read of the journal.
ghost use Rattle.std.specs.Prelude.{◌≡◌, ◌≤◌, ◌++◌, [], OnOk};
ghost use Rattle.crew_run.specs.Crew.{found_by, told_by};
ghost use Rattle.crew_run.specs.Passing.{HasRead, HasReadAll};

use crate::event::{CrewEntry, CrewEvent};
use rel_formula::Scenario;
use std::alloc::{AllocError, Global};

/// The scenarios that were found, and those with the copies that were met, by the first so many entries of the journal.
#[derive(Drop)]
pub(crate) struct Reading {
    pub found: Vec<Scenario>,
    pub told: Vec<Scenario>,
    pub read: usize,
}

impl Reading {
    // Nothing was read.
    pub(crate) fn new(alloc: Global) -> Reading
        ensures { (result.found.items ≡ []) × (result.told.items ≡ []) × (result.read ≡ 0) }
    {
        Reading {
            found: Vec::new(alloc),
            told: Vec::new(alloc),
            read: 0,
        }
    }

    // Reads on to the end.
    pub(crate) fn go_on(&mut self, alloc: Global, entries: &[CrewEntry]) -> Result<(), AllocError>
        requires { HasRead entries.now self.old }
        ensures { OnOk result (HasReadAll entries.now self.new) }
    {
        while self.read < entries.len() {
            self.take_in(alloc, &entries[self.read].event)?;
            self.read += 1;
        }
        Ok(())
    }

    // Takes in what an event tells.
    fn take_in(&mut self, alloc: Global, event: &CrewEvent) -> Result<(), AllocError>
        ensures found { OnOk result (self.new.found.items ≡ self.old.found.items ++ found_by event.now) }
        ensures told { OnOk result (self.new.told.items ≡ self.old.told.items ++ told_by event.now) }
        ensures read { OnOk result (self.new.read ≡ self.old.read) }
    {
        if let Some(scenario) = event.found() {
            self.found.push(scenario.copy(alloc)?)?;
        }
        if let Some(scenario) = event.told() {
            self.told.push(scenario.copy(alloc)?)?;
        }
        Ok(())
    }
}
