// The step that asks for the cells that the current scenario can be given.
ghost use Rattle.std.specs.Prelude.{◌≡◌, ◌≤◌, ◌+◌, IfOk};
ghost use Rattle.rel_formula.specs.Instance.{IsInstance};
ghost use Rattle.translation_rules.specs.Imports.{IsImport};
ghost use Rattle.session_rules.specs.States.{State, IsCurrent};
ghost use Rattle.session_words.specs.declared.steps.Step.TheVariants.{Offers as AsksForOffers};
ghost use Rattle.session_state.specs.Sessions.Fits.{FitsProblem, IsKept};
ghost use Rattle.session_state.specs.Sessions.Proposed.{IsProposal};

use crate::search_rounds::StepCount;
use crate::session_search::answer::{Proposal, at_once, searched, spent};
use crate::session_store::SessionStore;
use augmenter::{Offers, offers};
use refutation_check::Log;
use rel_formula::Scenario;
use session_rules::laws::{a_run_is_sound, nothing_done_is_work};
use session_rules::{CellNumbers, Parts, Refusal, Reply, Scenarios};
use std::alloc::{AllocError, Global};
use translation::Translation;

/// What a session proposes where it is asked for the cells that some instance adds to the current scenario.
pub(crate) fn offer(
    alloc: Global,
    store: &SessionStore,
    translation: &Translation,
    pool: &Log,
    count: &mut StepCount,
) -> Result<Proposal, AllocError>
    requires fits { FitsProblem translation.now.problem store.now }
    requires kept { IsKept store.now }
    requires import { IsImport translation.now pool.now }
    ensures proposal { IfOk result (IsProposal translation.now pool.now store.now.state AsksForOffers) }
    ensures spent { count.new ≤ count.old + store.now.state.budget }
{
    a_run_is_sound();
    nothing_done_is_work();
    match store.current() {
        Some(current) => offers_of(alloc, translation, pool, current, store.budget(), count),
        None => Ok(at_once(alloc, Reply::Refused(Refusal::NoScenario))),
    }
}

// What is proposed where this is the current scenario.
fn offers_of(
    alloc: Global,
    translation: &Translation,
    pool: &Log,
    current: &Scenario,
    budget: u32,
    count: &mut StepCount,
) -> Result<Proposal, AllocError>
    requires import { IsImport translation.now pool.now }
    requires current { IsInstance translation.now.problem current.now }
    requires budget { budget ≤ 100000 }
    ensures proposal { IfOk result (λ p. (s : State) → IsCurrent s current.now → s.budget ≡ budget → IsProposal translation.now pool.now s AsksForOffers p) }
    ensures spent { count.new ≤ count.old + budget }
{
    let told = offers(alloc, translation, pool, current, budget as u64, count)?;
    match told {
        Offers::Exactly { cells, parts } => {
            let cells = CellNumbers::of(cells);
            let parts = Parts::of(parts);
            Ok(searched(alloc, Reply::Offers { cells }, parts))
        }
        Offers::Spent { parts } => {
            let parts = Parts::of(parts);
            let none = Scenarios::of(Vec::new(alloc));
            spent(alloc, budget, parts, none)
        }
    }
}
