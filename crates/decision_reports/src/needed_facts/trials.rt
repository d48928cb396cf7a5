// One search with some of the facts.
ghost use Rattle.std.specs.Prelude.{◌≡◌, ◌≤◌, ℕ, IfOk, MatchResult};
ghost use Rattle.named_model.specs.Model.{NamedTree};
ghost use Rattle.named_model.specs.View.{named_view};
ghost use Rattle.rel_formula.specs.Renaming.{IsSymmetric};
ghost use Rattle.rel_lower.specs.Lowered.{IsTyped};
ghost use Rattle.rel_terms.specs.Terms.{IsTranslatable};
ghost use Rattle.lowering_rules.specs.Formula.{all_facts};
ghost use Rattle.lowering_rules.specs.Problem.{ProblemOf, IsWant};
ghost use Rattle.decision_reports.specs.SomeFacts.{AreSomeOf};
ghost use Rattle.decision_reports.specs.Trials.{HasWholeProblem, IsTrial, tried_by};

use crate::decision::{Decision, decide};
use lowering_rules::LowerFault;
use lowering_rules::laws::{problems_are_not_refused, problems_are_symmetric};
use named_model::Named;
use rel_formula::{Problem, Scenario};
use rel_lower::lower_with;
use session_rules::{EndProof, Parts};
use std::alloc::{AllocError, Global};
use translation::Translation;

/// Facts that can't all be true under a command, by their numbers, with a translation of the command's problem with just these,
/// and the proof that it has no instance.
#[derive(Drop)]
pub struct Core {
    pub facts: Vec<usize>,
    pub translation: Translation,
    pub proof: EndProof,
}

/// Facts on which a budget was spent, by their numbers, with a translation of the command's problem with just these, and the
/// parts of the search.
#[derive(Drop)]
pub struct SpentFacts {
    pub facts: Vec<usize>,
    pub translation: Translation,
    pub parts: Parts,
}

/// What a search finds of a command's problem with some facts.
#[derive(Drop)]
pub(crate) enum Trial {
    Refuted(Core),
    Satisfied(Scenario),
    Spent(SpentFacts),
}

/// Searches the problem of the command with these of its facts. As there is a problem with all facts, there is one with fewer: the
/// fault is want of memory or of room.
pub(crate) fn try_some(
    alloc: Global,
    model: &Named,
    command: u32,
    facts: Vec<usize>,
    budget: u64,
) -> Result<Trial, LowerFault>
    requires typed { IsTyped (named_view model.now) }
    requires whole { HasWholeProblem (named_view model.now) command }
    requires some { AreSomeOf (all_facts (named_view model.now)) facts.items }
    requires budget { budget ≤ 100000000 }
    ensures { MatchResult result (IsTrial (named_view model.now) command budget facts.items) IsWant }
{
    problems_are_not_refused();
    problems_are_symmetric();
    let problem = lower_with(alloc, model, command, &facts)?;
    Ok(try_problem(alloc, facts, problem, budget)?)
}

/// Searches this problem with these facts.
pub(crate) fn try_problem(
    alloc: Global,
    facts: Vec<usize>,
    problem: Problem,
    budget: u64,
) -> Result<Trial, AllocError>
    requires translatable { IsTranslatable problem }
    requires symmetric { IsSymmetric problem }
    requires budget { budget ≤ 100000000 }
    ensures { IfOk result (λ trial. (m : NamedTree) (n : ℕ) → AreSomeOf (all_facts m) facts.items → ProblemOf m n facts.items problem → IsTrial m n budget facts.items trial) }
{
    let translation = Translation::build(alloc, problem)?;
    let _ = translation.problem().relations(); // for the proof
    let decision = decide(alloc, &translation, budget)?;
    Ok(trial_of(facts, translation, decision))
}

// What was found of the problem with these facts, where this was decided.
fn trial_of(facts: Vec<usize>, translation: Translation, decision: Decision) -> Trial
    ensures { result ≡ tried_by facts translation decision }
{
    match decision {
        Decision::Holds { proof } => Trial::Refuted(Core {
            facts,
            translation,
            proof,
        }),
        Decision::Fails { scenario } => Trial::Satisfied(scenario),
        Decision::Spent { parts } => Trial::Spent(SpentFacts {
            facts,
            translation,
            parts,
        }),
    }
}
