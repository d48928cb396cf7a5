// How many steps searches have learnt.
ghost use Rattle.std.specs.Prelude.{◌≡◌, ◌≤◌};
ghost use Rattle.sat_core.specs.Count.{last_count, raised};

use std::marker::Model;

/// How many steps searches have learnt from conflicts, with all that they didn't tell. Each search is handed a count and raises it by
/// one for each such step, and nothing else raises it: a caller that searches twice on one count raises it twice, whatever it tells
/// of the two, so a bound on the count bounds the work that was done on it. At its last value the count stands still.
#[derive(Debug, Drop)]
pub struct StepCount {
    steps: u64,
}

impl Model for StepCount {
    ghost use Rattle.std.specs.Prelude.{ℕ};

    ghost Value = { ℕ };

    ghost view = { λ c. c.steps };
}

impl StepCount {
    /// The count before any search.
    pub fn new() -> StepCount
        ensures { result ≡ 0 }
    {
        StepCount { steps: 0 }
    }

    /// How many steps were learnt.
    pub fn steps(&self) -> u64
        ensures steps { result ≡ self.now }
        ensures most { self.now ≤ last_count }
    {
        self.steps
    }

    /// Adds what another count has, such as that of searches in another thread.
    pub fn add(&mut self, other: StepCount)
        ensures { self.new ≡ raised self.old other }
    {
        self.steps = self.steps.saturating_add(other.steps);
    }

    /// One step more.
    pub(crate) fn rise(&mut self)
        ensures { self.new ≡ raised self.old 1 }
    {
        self.steps = self.steps.saturating_add(1);
    }
}
