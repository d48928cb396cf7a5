//! The decisions on `check` commands.
ghost use Rattle.std.specs.Prelude.{◌≡◌, ◌≤◌, ◌++◌, ℕ, List, length, codes, decimal, All, IfOk};
ghost use Rattle.std.specs.List.{AllZip};
ghost use Rattle.alloy_syntax.specs.declared.tree.CommandKind.TheVariants.{Check};
ghost use Rattle.named_model.specs.Model.{NamedTree};
ghost use Rattle.named_model.specs.View.{named_view};
ghost use Rattle.rel_lower.specs.Lowered.{IsTyped};
ghost use Rattle.decision_reports.specs.Decided.{IsDecision};
ghost use Rattle.rel_formula.specs.Instance.{AreCells};
ghost use Rattle.script_text.specs.Replies.{IsScenarioText};
ghost use Rattle.served_models.specs.Served.{IsProblemOf};
ghost use Rattle.decision_reports.specs.Taken.{CanBeRun, IsTaken};
ghost use Rattle.decision_reports.specs.Texts.{AreTexts};
ghost use Rattle.decision_reports.specs.Reports.{command_front, AreAssertionsOf, IsAssertionReport, IsDecisionOn, IsDecisionText};

use crate::decision::{Decision, decide};
use crate::taken_models::{TakenModel, TakenModels, read_taken};
use alloy_syntax::tree::CommandKind;
use itoa::Buffer;
use lowering_rules::LowerStop;
use lowering_rules::laws::{problems_are_not_refused, problems_are_symmetric};
use named_model::Named;
use rel_formula::{Problem, Scenario};
use script_format::ModelEntry;
use script_text::{fits_output, push_number_line, push_scenario};
use served_models::problem_of;
use std::alloc::{AllocError, Global};
use translation::Translation;

/// What is told of commands of a script's models.
#[derive(Drop)]
pub enum Report {
    /// What was found of each command.
    Told(Vec<u8>),
    /// A model can't be used: the line that refuses the first of these.
    Refused(Vec<u8>),
}

/// Decides each `check` command of models whose texts have at most 1,048,576 bytes, in order, each with this budget, which is at most
/// 100,000,000. No other command is used. All models are read, and all these commands lowered, before the first is decided; then
/// one translation is there at a time. The error comes for want of memory, which is told too where the text would be longer than
/// an output may be, or where a model has more commands than 32 bits can number, and for a formula that is too large to build.
pub fn assertions_of(
    alloc: Global,
    budget: u32,
    entries: &[ModelEntry],
) -> Result<Report, LowerStop>
    requires budget { budget ≤ 100000000 }
    requires small { All (λ x. length x.text ≤ 1048576) entries.now }
    ensures { IfOk result (IsAssertionReport budget entries.now) }
{
    match read_taken(alloc, CommandKind::Check, entries)? {
        TakenModels::Ready(models) => Ok(Report::Told(decisions_on(
            alloc, budget, entries, &models,
        )?)),
        TakenModels::Refused(line) => Ok(Report::Refused(line)),
    }
}

// The decisions on the models' commands, one model after the other.
fn decisions_on(
    alloc: Global,
    budget: u32,
    entries: &[ModelEntry],
    models: &[TakenModel],
) -> Result<Vec<u8>, LowerStop>
    requires budget { budget ≤ 100000000 }
    requires count { length models.now ≡ length entries.now }
    requires taken { AllZip (IsTaken Check) entries.now models.now }
    ensures { IfOk result (λ text. AreAssertionsOf budget entries.now text.items) }
{
    let mut text = Vec::new(alloc);
    for (place, entry) in entries.iter().enumerate() {
        let lines = decisions_in(alloc, budget, entry.name.text(), &models[place])?;
        fits_output(text.len(), lines.len())?;
        text.extend_from_slice(&lines)?;
    }
    Ok(text)
}

// The decisions on the commands of a model that are taken.
fn decisions_in(
    alloc: Global,
    budget: u32,
    name: &str,
    taken: &TakenModel,
) -> Result<Vec<u8>, LowerStop>
    requires budget { budget ≤ 100000000 }
    requires typed { IsTyped (named_view taken.now.model) }
    requires problems { All (CanBeRun (named_view taken.now.model)) taken.now.numbers.items }
    ensures { IfOk result (λ text. AreTexts (IsDecisionOn budget name.now (named_view taken.now.model)) taken.now.numbers.items text.items) }
{
    decisions_at(alloc, budget, name, &taken.model, &taken.numbers)
}

// The decisions on the model's commands of these numbers, one after the other.
fn decisions_at(
    alloc: Global,
    budget: u32,
    name: &str,
    model: &Named,
    numbers: &[u32],
) -> Result<Vec<u8>, LowerStop>
    requires budget { budget ≤ 100000000 }
    requires typed { IsTyped (named_view model.now) }
    requires problems { All (CanBeRun (named_view model.now)) numbers.now }
    ensures { IfOk result (λ text. AreTexts (IsDecisionOn budget name.now (named_view model.now)) numbers.now text.items) }
{
    let mut text = Vec::new(alloc);
    for number in numbers {
        let lines = decision_on(alloc, budget, name, model, *number)?;
        fits_output(text.len(), lines.len())?;
        text.extend_from_slice(&lines)?;
    }
    Ok(text)
}

// What is decided of a model's command that has a problem, and the lines that tell it.
fn decision_on(
    alloc: Global,
    budget: u32,
    name: &str,
    model: &Named,
    number: u32,
) -> Result<Vec<u8>, LowerStop>
    requires budget { budget ≤ 100000000 }
    requires typed { IsTyped (named_view model.now) }
    requires problem { CanBeRun (named_view model.now) number }
    ensures { IfOk result (λ text. IsDecisionOn budget name.now (named_view model.now) number text.items) }
{
    let translation = translation_of(alloc, model, number)?;
    lines_over(alloc, budget, name, number, &translation)
}

// What is decided over the translation of a command's problem, and the lines that tell it.
fn lines_over(
    alloc: Global,
    budget: u32,
    name: &str,
    number: u32,
    translation: &Translation,
) -> Result<Vec<u8>, LowerStop>
    requires { budget ≤ 100000000 }
    ensures { IfOk result (λ text. (m : NamedTree) → IsProblemOf m number translation.now.problem → IsDecisionOn budget name.now m number text.items) }
{
    let _ = translation.problem(); // for the proof
    let front = command_front(alloc, name, number)?;
    let decision = decide(alloc, translation, u64::from(budget))?;
    decision_text(alloc, front, budget, translation, &decision)
}

// The translation of the problem of a model's command that has one.
fn translation_of(alloc: Global, model: &Named, number: u32) -> Result<Translation, LowerStop>
    requires typed { IsTyped (named_view model.now) }
    requires problem { CanBeRun (named_view model.now) number }
    ensures { IfOk result (λ t. IsProblemOf (named_view model.now) number t.problem) }
{
    problems_are_symmetric();
    problems_are_not_refused();
    match problem_of(alloc, model, number)? {
        Ok(problem) => Ok(Translation::build(alloc, problem)?),
        Err(_) => unreachable!(),
    }
}

/// What the lines on a command begin with: the model's name and the command's number. The error comes only for want of memory.
pub fn command_front(alloc: Global, name: &str, number: u32) -> Result<Vec<u8>, AllocError>
    ensures { IfOk result (λ text. text.items ≡ command_front name.now number) }
{
    let mut buffer = Buffer::new();
    let mut text = Vec::from_slice(alloc, b"model ")?;
    text.extend_from_slice(name.as_bytes())?;
    text.extend_from_slice(b" command ")?;
    text.extend_from_slice(buffer.format(number).as_bytes())?;
    text.extend_from_slice(b" ")?;
    Ok(text)
}

// The lines that tell a decision over the translation, behind this front.
fn decision_text(
    alloc: Global,
    front: Vec<u8>,
    budget: u32,
    translation: &Translation,
    decision: &Decision,
) -> Result<Vec<u8>, LowerStop>
    requires { IsDecision translation.now budget decision.now }
    ensures { IfOk result (λ text. IsDecisionText translation.now.problem budget front.items decision.now text.items) }
{
    match decision {
        Decision::Holds { .. } => Ok(held(front)?),
        Decision::Fails { scenario } => {
            Ok(failed(alloc, front, translation.problem(), scenario)?)
        }
        Decision::Spent { .. } => Ok(spent(front, budget)?),
    }
}

// The line that tells that the command's assertion holds.
fn held(front: Vec<u8>) -> Result<Vec<u8>, AllocError>
    ensures { IfOk result (λ text. text.items ≡ front.items ++ codes "holds\n") }
{
    let mut text = front;
    text.extend_from_slice(b"holds\n")?;
    Ok(text)
}

// The lines that tell that it fails, and in which scenario.
fn failed(
    alloc: Global,
    front: Vec<u8>,
    problem: &Problem,
    scenario: &Scenario,
) -> Result<Vec<u8>, AllocError>
    requires { AreCells problem.now scenario.now }
    ensures { IfOk result (λ text. (lines : List ℕ) × IsScenarioText problem.now scenario.now lines × (text.items ≡ front.items ++ codes "fails\n" ++ lines)) }
{
    let mut text = front;
    text.extend_from_slice(b"fails\n")?;
    push_scenario(alloc, &mut text, problem, scenario)?;
    Ok(text)
}

// The line that tells that the budget was spent.
fn spent(front: Vec<u8>, budget: u32) -> Result<Vec<u8>, AllocError>
    ensures { IfOk result (λ text. text.items ≡ front.items ++ codes "spent " ++ decimal budget ++ codes "\n") }
{
    let mut text = front;
    push_number_line(&mut text, b"spent ", u64::from(budget))?;
    Ok(text)
}
