// Whether a problem has an instance.
ghost use Rattle.std.specs.Prelude.{◌≡◌, ◌≤◌, IfOk};
ghost use Rattle.decision_reports.specs.Decided.{IsDecision, decided_by};

use crate::decision_laws::nothing_due_is_no_instance;
use refutation_check::Log;
use rel_formula::Scenario;
use session_rules::{EndProof, Parts};
use session_state::search_rounds::{Found, KeptTrails, NextAt, StepCount, next_at};
use std::alloc::{AllocError, Global};
use translation::Translation;

/// What is decided of a problem. The problem of a `check` command is that its assertion is false, so there an instance is a
/// counterexample.
#[derive(Drop)]
pub enum Decision {
    /// There is no instance, as the proof shows.
    Holds { proof: EndProof },
    /// There is one, and this one is minimal and settled.
    Fails { scenario: Scenario },
    /// The budget was spent before there was an answer, on these parts of a search.
    Spent { parts: Parts },
}

/// Decides whether the translation's problem has an instance, with at most `budget` novel steps, which is at most 100,000,000.
///
/// It does what a session does for its first scenario: it searches for an instance that is settled, and goes down from what it
/// finds to a minimal one. The error comes only for want of memory.
pub fn decide(alloc: Global, translation: &Translation, budget: u64) -> Result<Decision, AllocError>
    requires { budget ≤ 100000000 }
    ensures { IfOk result (IsDecision translation.now budget) }
{
    nothing_due_is_no_instance();
    let _ = translation.problem().relations(); // for the proof
    let pool = Log::new(alloc);
    let floor = Scenario::new(alloc);
    let mut kept = KeptTrails::new(alloc);
    let mut count = StepCount::new();
    let next = next_at(
        alloc,
        translation,
        &pool,
        &floor,
        &[],
        &[],
        budget,
        &mut kept,
        &mut count,
    )?;
    Ok(decision_of(next))
}

// What is decided where this was found for the first scenario.
fn decision_of(next: NextAt) -> Decision
    ensures { result ≡ decided_by next.parts next.found }
{
    let NextAt {
        found,
        parts,
        copies: _,
    } = next;
    match found {
        Found::Shown { scenario } => Decision::Fails { scenario },
        Found::Ended { proof } => Decision::Holds { proof },
        Found::Spent => Decision::Spent { parts },
    }
}
