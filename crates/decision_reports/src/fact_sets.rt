//! Facts that can't all be true under `run` commands.
ghost use Rattle.std.specs.Prelude.{◌≡◌, ◌≤◌, ◌++◌, suc, length, codes, decimal, option_map, All, IfOk};
ghost use Rattle.std.specs.List.{AllZip, flat_map};
ghost use Rattle.alloy_syntax.specs.declared.tree.CommandKind.TheVariants.{Run};
ghost use Rattle.named_model.specs.Numbered.{name_of_fact};
ghost use Rattle.named_model.specs.View.{named_view};
ghost use Rattle.rel_lower.specs.Lowered.{IsTyped};
ghost use Rattle.lowering_rules.specs.Problem.{IsWant};
ghost use Rattle.lowering_rules.specs.Stops.{fault_of};
ghost use Rattle.decision_reports.specs.Taken.{CanBeRun, IsTaken};
ghost use Rattle.decision_reports.specs.Texts.{AreTexts};
ghost use Rattle.decision_reports.specs.Reports.{command_front};
ghost use Rattle.decision_reports.specs.FactReports.{AreFactSetsOf, IsFactReport, IsFactSetOn, core_text, fact_line, set_text};

use crate::assertions::{Report, command_front};
use crate::needed_facts::{FactSet, facts_of};
use crate::taken_models::{TakenModel, TakenModels, read_taken};
use alloy_lex::Text;
use alloy_syntax::tree::CommandKind;
use itoa::Buffer;
use lowering_rules::laws::problems_are_not_refused;
use lowering_rules::{LowerFault, LowerStop};
use named_model::Named;
use script_format::ModelEntry;
use script_text::{fits_output, push_number_line};
use std::alloc::{AllocError, Global};

/// Tells of each `run` command of models whose texts have at most 1,048,576 bytes, in order, whether all facts can be true under it,
/// or which can't, where each search has this budget, which is at most 100,000,000. No other command is used. All models are read,
/// and all these commands lowered, before the first search; then one command is searched at a time. The error comes for want of
/// memory, which is told too where the text would be longer than an output may be, or where a model has more commands than 32 bits
/// can number, and for a formula that is too large to build.
pub fn fact_sets_of(alloc: Global, budget: u32, entries: &[ModelEntry]) -> Result<Report, LowerStop>
    requires budget { budget ≤ 100000000 }
    requires small { All (λ x. length x.text ≤ 1048576) entries.now }
    ensures { IfOk result (IsFactReport budget entries.now) }
{
    let models = read_taken(alloc, CommandKind::Run, entries)?;
    match models {
        TakenModels::Ready(taken) => Ok(Report::Told(sets_on(alloc, budget, entries, &taken)?)),
        TakenModels::Refused(line) => Ok(Report::Refused(line)),
    }
}

// What is known of the facts under the models' commands, one model after the other.
fn sets_on(
    alloc: Global,
    budget: u32,
    entries: &[ModelEntry],
    models: &[TakenModel],
) -> Result<Vec<u8>, LowerStop>
    requires budget { budget ≤ 100000000 }
    requires taken { AllZip (IsTaken Run) entries.now models.now }
    requires count { length models.now ≡ length entries.now }
    ensures { IfOk result (λ text. AreFactSetsOf budget entries.now text.items) }
{
    let mut text = Vec::new(alloc);
    for (place, entry) in entries.iter().enumerate() {
        let lines = sets_in(alloc, budget, entry.name.text(), &models[place])?;
        fits_output(text.len(), lines.len())?;
        text.extend_from_slice(&lines)?;
    }
    Ok(text)
}

// What is known of the facts under the commands of a model that are taken.
fn sets_in(alloc: Global, budget: u32, name: &str, taken: &TakenModel) -> Result<Vec<u8>, LowerStop>
    requires budget { budget ≤ 100000000 }
    requires typed { IsTyped (named_view taken.now.model) }
    requires problems { All (CanBeRun (named_view taken.now.model)) taken.now.numbers.items }
    ensures { IfOk result (λ text. AreTexts (IsFactSetOn budget name.now (named_view taken.now.model)) taken.now.numbers.items text.items) }
{
    sets_at(alloc, budget, name, &taken.model, &taken.numbers)
}

// What is known of them under the model's commands of these numbers, one after the other.
fn sets_at(
    alloc: Global,
    budget: u32,
    name: &str,
    model: &Named,
    numbers: &[u32],
) -> Result<Vec<u8>, LowerStop>
    requires budget { budget ≤ 100000000 }
    requires typed { IsTyped (named_view model.now) }
    requires problems { All (CanBeRun (named_view model.now)) numbers.now }
    ensures { IfOk result (λ text. AreTexts (IsFactSetOn budget name.now (named_view model.now)) numbers.now text.items) }
{
    let mut text = Vec::new(alloc);
    for number in numbers {
        let lines = set_on(alloc, budget, name, model, *number)?;
        fits_output(text.len(), lines.len())?;
        text.extend_from_slice(&lines)?;
    }
    Ok(text)
}

// What is known of the facts under a command that can be run, and the lines that tell it.
fn set_on(
    alloc: Global,
    budget: u32,
    name: &str,
    model: &Named,
    number: u32,
) -> Result<Vec<u8>, LowerStop>
    requires budget { budget ≤ 100000000 }
    requires typed { IsTyped (named_view model.now) }
    requires problem { CanBeRun (named_view model.now) number }
    ensures { IfOk result (λ text. IsFactSetOn budget name.now (named_view model.now) number text.items) }
{
    problems_are_not_refused();
    match facts_of(alloc, model, number, u64::from(budget)) {
        Ok(set) => lines_of(alloc, budget, name, model, number, &set),
        Err(fault) => Err(stop_of(fault)),
    }
}

// The lines that tell what is known of the facts under a command.
fn lines_of(
    alloc: Global,
    budget: u32,
    name: &str,
    model: &Named,
    number: u32,
    set: &FactSet,
) -> Result<Vec<u8>, LowerStop>
    ensures { IfOk result (λ text. text.items ≡ command_front name.now number ++ set_text model.now.fact_names.items budget set.now) }
{
    let front = command_front(alloc, name, number)?;
    Ok(set_text(front, budget, model, set)?)
}

// The want that the fault is.
fn stop_of(fault: LowerFault) -> LowerStop
    requires { IsWant fault }
    ensures { fault_of result ≡ fault }
{
    match fault {
        LowerFault::TooLarge => LowerStop::TooLarge,
        _ => LowerStop::Memory,
    }
}

// The lines that tell what is known of facts, behind this front.
fn set_text(
    front: Vec<u8>,
    budget: u32,
    model: &Named,
    set: &FactSet,
) -> Result<Vec<u8>, AllocError>
    ensures { IfOk result (λ text. text.items ≡ front.items ++ set_text model.now.fact_names.items budget set.now) }
{
    match set {
        FactSet::Satisfiable { .. } => satisfiable(front),
        FactSet::Needs { core, .. } => needed(front, model, &core.facts),
        FactSet::Spent(_) => spent(front, budget),
    }
}

// The line that tells that all facts can be true.
fn satisfiable(front: Vec<u8>) -> Result<Vec<u8>, AllocError>
    ensures { IfOk result (λ text. text.items ≡ front.items ++ codes "satisfiable\n") }
{
    let mut text = front;
    text.extend_from_slice(b"satisfiable\n")?;
    Ok(text)
}

// The lines that tell facts that can't all be true.
fn needed(front: Vec<u8>, model: &Named, facts: &[usize]) -> Result<Vec<u8>, AllocError>
    ensures { IfOk result (λ text. text.items ≡ front.items ++ core_text model.now.fact_names.items facts.now) }
{
    let mut text = front;
    push_number_line(&mut text, b"needs ", facts.len() as u64)?;
    push_facts(&mut text, model, facts)?;
    Ok(text)
}

// Adds the lines of facts.
fn push_facts(text: &mut Vec<u8>, model: &Named, facts: &[usize]) -> Result<(), AllocError>
    ensures { IfOk result (λ _. text.new.items ≡ text.old.items ++ flat_map (fact_line model.now.fact_names.items) facts.now) }
{
    for fact in facts {
        push_fact(text, model, *fact)?;
    }
    Ok(())
}

// The line that tells that the budget was spent.
fn spent(front: Vec<u8>, budget: u32) -> Result<Vec<u8>, AllocError>
    ensures { IfOk result (λ text. text.items ≡ front.items ++ codes "spent " ++ decimal budget ++ codes "\n") }
{
    let mut text = front;
    push_number_line(&mut text, b"spent ", u64::from(budget))?;
    Ok(text)
}

// Adds the line of a fact.
fn push_fact(text: &mut Vec<u8>, model: &Named, fact: usize) -> Result<(), AllocError>
    ensures { IfOk result (λ _. text.new.items ≡ text.old.items ++ fact_line model.now.fact_names.items fact) }
{
    match name_of(model, fact) {
        Some(name) => Ok(push_named(text, fact, name.text())?),
        None => Ok(push_number_line(text, b"fact ", fact as u64)?),
    }
}

// Adds the line of a fact of this name.
fn push_named(text: &mut Vec<u8>, fact: usize, name: &str) -> Result<(), AllocError>
    ensures { IfOk result (λ _. text.new.items ≡ text.old.items ++ (codes "fact " ++ decimal fact ++ (codes " " ++ name.now ++ codes "\n"))) }
{
    let mut buffer = Buffer::new();
    text.extend_from_slice(b"fact ")?;
    text.extend_from_slice(buffer.format(fact).as_bytes())?;
    text.extend_from_slice(b" ")?;
    text.extend_from_slice(name.as_bytes())?;
    text.extend_from_slice(b"\n")?;
    Ok(())
}

// The name of the fact of this number, from 1 on, if it is there and has one.
fn name_of(model: &Named, fact: usize) -> Option<&Text>
    ensures { option_map (λ t. t.now) result ≡ name_of_fact model.now.fact_names.items fact }
{
    if fact == 0 {
        return None;
    }
    name_at(model, fact - 1)
}

// The name of the fact behind so many others, if it is there and has one.
fn name_at(model: &Named, others: usize) -> Option<&Text>
    ensures { option_map (λ t. t.now) result ≡ name_of_fact model.now.fact_names.items (suc others) }
{
    model.fact_names.get(others)?.as_ref()
}
