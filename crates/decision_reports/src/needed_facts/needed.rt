// Which facts are needed.
ghost use Rattle.std.specs.Prelude.{◌≡◌, ◌≤◌, MatchResult};
ghost use Rattle.named_model.specs.View.{named_view};
ghost use Rattle.rel_lower.specs.Lowered.{IsTyped};
ghost use Rattle.lowering_rules.specs.Formula.{all_facts};
ghost use Rattle.lowering_rules.specs.Problem.{IsWant, IsRefusal};
ghost use Rattle.decision_reports.specs.FactSets.{IsCore, IsFactSet};
ghost use Rattle.decision_reports.specs.Trials.{HasWholeProblem, IsTrial};

use crate::needed_facts::blocks::narrowed;
use crate::needed_facts::numbers::numbers_to;
use crate::needed_facts::singles::{Next, Tried, try_without};
use crate::needed_facts::trials::{Core, SpentFacts, Trial, try_problem};
use lowering_rules::LowerFault;
use lowering_rules::laws::problems_are_symmetric;
use named_model::Named;
use rel_formula::Scenario;
use rel_lower::lower;
use session_rules::Scenarios;
use std::alloc::Global;

/// What is known of the facts of a model under a command.
pub enum FactSet {
    /// They can all be true, as in this scenario.
    Satisfiable { scenario: Scenario },
    /// They can't, and no more can these, all of which are needed for that: for each of them there is a scenario in which the others
    /// are true.
    Needs { core: Core, scenarios: Scenarios },
    /// A budget was spent: on all facts, or on all but one of some that can't all be true.
    Spent(SpentFacts),
}

// By hand, so that a caller's proof has one step wherever one is dropped.
impl Drop for FactSet {
    fn drop(self) {
        match self {
            FactSet::Satisfiable { scenario: _ } => {}
            FactSet::Needs {
                core: _,
                scenarios: _,
            } => {}
            FactSet::Spent(_) => {}
        }
    }
}

/// Finds facts that can't all be true under the command of this number, from 1 on, or a scenario in which all are.
///
/// Each search takes at most `budget` novel steps, which is at most 100,000,000. The facts that are found are irreducible, but
/// there may be fewer others. A fault is why there is no problem with all facts, or want of memory.
pub fn facts_of(
    alloc: Global,
    model: &Named,
    command: u32,
    budget: u64,
) -> Result<FactSet, LowerFault>
    requires typed { IsTyped (named_view model.now) }
    requires budget { budget ≤ 100000000 }
    ensures { MatchResult result (IsFactSet (named_view model.now) command budget) (IsRefusal (named_view model.now) command (all_facts (named_view model.now))) }
{
    problems_are_symmetric();
    let problem = lower(alloc, model, command)?;
    let _ = problem.relations(); // for the proof
    let facts = numbers_to(alloc, model.facts.len())?;
    let trial = try_problem(alloc, facts, problem, budget)?;
    Ok(set_of(alloc, model, command, trial, budget)?)
}

// What is known of all facts where this was found of them.
fn set_of(
    alloc: Global,
    model: &Named,
    command: u32,
    trial: Trial,
    budget: u64,
) -> Result<FactSet, LowerFault>
    requires typed { IsTyped (named_view model.now) }
    requires whole { HasWholeProblem (named_view model.now) command }
    requires trial { IsTrial (named_view model.now) command budget (all_facts (named_view model.now)) trial }
    requires budget { budget ≤ 100000000 }
    ensures { MatchResult result (IsFactSet (named_view model.now) command budget) IsWant }
{
    match trial {
        Trial::Satisfied(scenario) => Ok(FactSet::Satisfiable { scenario }),
        Trial::Spent(tried) => Ok(FactSet::Spent(tried)),
        Trial::Refuted(core) => irreducible(alloc, model, command, core, budget),
    }
}

// Some facts of the core that are needed, and without which none is: or a spent budget.
fn irreducible(
    alloc: Global,
    model: &Named,
    command: u32,
    core: Core,
    budget: u64,
) -> Result<FactSet, LowerFault>
    requires typed { IsTyped (named_view model.now) }
    requires whole { HasWholeProblem (named_view model.now) command }
    requires core { IsCore (named_view model.now) command core }
    requires budget { budget ≤ 100000000 }
    ensures { MatchResult result (IsFactSet (named_view model.now) command budget) IsWant }
{
    let core = narrowed(alloc, model, command, core, budget)?;
    let facts = Vec::from_slice(alloc, &core.facts)?;
    Ok(needed_of(alloc, model, command, core, &facts, budget)?)
}

// Those of the core's facts, which are these, that are needed, one by one.
fn needed_of(
    alloc: Global,
    model: &Named,
    command: u32,
    core: Core,
    facts: &[usize],
    budget: u64,
) -> Result<FactSet, LowerFault>
    requires typed { IsTyped (named_view model.now) }
    requires whole { HasWholeProblem (named_view model.now) command }
    requires core { IsCore (named_view model.now) command core }
    requires facts { facts.now ≡ core.facts.items }
    requires budget { budget ≤ 100000000 }
    ensures { MatchResult result (IsFactSet (named_view model.now) command budget) IsWant }
{
    let mut tried = Tried {
        core,
        scenarios: Vec::new(alloc),
    };
    for fact in facts {
        let next = try_without(alloc, model, command, tried, *fact, budget)?;
        match next {
            Next::Tried(later) => tried = later,
            Next::Spent(spent) => return Ok(FactSet::Spent(spent)),
        }
    }
    Ok(FactSet::Needs {
        core: tried.core,
        scenarios: Scenarios::of(tried.scenarios),
    })
}
