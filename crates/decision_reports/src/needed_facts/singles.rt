// Facts that are needed, one by one.
ghost use Rattle.std.specs.Prelude.{◌≡◌, ◌≤◌, ◌∷◌, ℕ, List, IfOk, MatchResult};
ghost use Rattle.named_model.specs.View.{named_view};
ghost use Rattle.rel_lower.specs.Lowered.{IsTyped};
ghost use Rattle.lowering_rules.specs.Problem.{IsWant};
ghost use Rattle.decision_reports.specs.FactSets.{IsCore};
ghost use Rattle.decision_reports.specs.Trials.{AreTried, HasWholeProblem, IsNext, IsNextOf};

use crate::needed_facts::numbers::facts_without;
use crate::needed_facts::trials::{Core, SpentFacts, Trial, try_some};
use lowering_rules::LowerFault;
use named_model::Named;
use rel_formula::Scenario;
use std::alloc::{AllocError, Global};

/// A core of which some facts, the first ones, are known to be needed: for each of them a scenario in which the others are true.
#[derive(Drop)]
pub struct Tried {
    pub core: Core,
    pub scenarios: Vec<Scenario>,
}

/// What the trial of one fact comes to.
#[derive(Drop)]
pub enum Next {
    Tried(Tried),
    Spent(SpentFacts),
}

/// Tries the core without this fact, which is the first behind those that are known to be needed.
pub fn try_without(
    alloc: Global,
    model: &Named,
    command: u32,
    tried: Tried,
    fact: usize,
    budget: u64,
) -> Result<Next, LowerFault>
    requires typed { IsTyped (named_view model.now) }
    requires whole { HasWholeProblem (named_view model.now) command }
    requires core { IsCore (named_view model.now) command tried.core }
    requires budget { budget ≤ 100000000 }
    ensures { MatchResult result (λ next. (rest : List ℕ) → AreTried (named_view model.now) command (fact ∷ rest) tried → IsNext (named_view model.now) command budget rest next) IsWant }
{
    let others = facts_without(alloc, &tried.core.facts, fact)?;
    let trial = try_some(alloc, model, command, others, budget)?;
    let next = next_of(tried, trial)?;
    Ok(next)
}

// What follows from a trial without the first fact behind those that are known to be needed.
fn next_of(tried: Tried, trial: Trial) -> Result<Next, AllocError>
    ensures { IfOk result (IsNextOf tried trial) }
{
    let Tried {
        core,
        mut scenarios,
    } = tried;
    match trial {
        Trial::Refuted(core) => Ok(Next::Tried(Tried { core, scenarios })),
        Trial::Satisfied(scenario) => {
            scenarios.push(scenario)?;
            Ok(Next::Tried(Tried { core, scenarios }))
        }
        Trial::Spent(facts) => Ok(Next::Spent(facts)),
    }
}
