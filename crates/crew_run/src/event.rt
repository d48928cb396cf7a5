// What workers write down.
ghost use Rattle.std.specs.Prelude.{◌≡◌, ◌≢◌, ◌∷◌, [], ℕ, List, IsTrue, MatchOption};
ghost use Rattle.refutation_check.specs.Part.{Parted};
ghost use Rattle.session_rules.specs.ProofOfEnd.{ProofOfEnd};
ghost use Rattle.crew_run.specs.Crew.{found_by, told_by};

use rel_formula::Scenario;
use session_rules::{EndProof, Parts};

/// What a worker came to.
#[derive(Drop)]
pub enum CrewEvent {
    /// A scenario that is due, and was not found before.
    Found(Scenario),
    /// A copy of a scenario that was found, which was not met before.
    Copy(Scenario),
    /// Once so many entries of the journal had been read, a round with these parts spent the whole budget.
    GaveUp { read: u32, parts: Parts },
    /// Nothing is left to be found.
    Ended(EndProof),
}

/// An event, and the number of the worker's pass.
#[derive(Drop)]
pub struct CrewEntry {
    pub by: u32,
    pub event: CrewEvent,
}

impl CrewEvent {
    /// The scenario that was found.
    pub fn found(&self) -> Option<&Scenario>
        ensures { MatchOption result (found_by self.now ≡ []) (λ s. found_by self.now ≡ s.now ∷ []) }
    {
        match self {
            CrewEvent::Found(scenario) => Some(scenario),
            _ => None,
        }
    }

    /// The scenario that the event tells of: one that was found, or a copy that was met.
    pub fn told(&self) -> Option<&Scenario>
        ensures { MatchOption result (told_by self.now ≡ []) (λ s. told_by self.now ≡ s.now ∷ []) }
    {
        match self {
            CrewEvent::Found(scenario) => Some(scenario),
            CrewEvent::Copy(scenario) => Some(scenario),
            _ => None,
        }
    }

    /// The proof of an end.
    pub fn end(&self) -> Option<&EndProof>
        ensures { MatchOption result ((proof : ProofOfEnd) → self.now ≢ CrewEvent.Ended proof) (λ proof. self.now ≡ CrewEvent.Ended proof.now) }
    {
        match self {
            CrewEvent::Ended(proof) => Some(proof),
            _ => None,
        }
    }

    /// Whether the worker gave up.
    pub fn gave_up(&self) -> bool
        ensures yes { IsTrue result → (read : ℕ) × (parts : List Parted) × (self.now ≡ CrewEvent.GaveUp read parts) }
        ensures no { ¬ IsTrue result → (read : ℕ) (parts : List Parted) → self.now ≢ CrewEvent.GaveUp read parts }
    {
        match self {
            CrewEvent::GaveUp { read: _, parts: _ } => true,
            _ => false,
        }
    }
}
