// What crews find of commands, in lines.
ghost use Rattle.std.specs.Prelude.{◌≡◌, ◌≤◌, ◌++◌, ℕ, List, length, All, IfOk};
ghost use Rattle.explorer_run.specs.Served.{IsServable};
ghost use Rattle.crew_run.specs.Crew.{IsCrewAnswer};
ghost use Rattle.decision_reports.specs.Texts.{AreTexts};
ghost use Rattle.explorer_cli.specs.CrewTexts.{heading, IsAnswerText};
ghost use Rattle.explorer_cli.specs.ServedCrews.{IsServedBlock, AreServable, AreServedTexts};

use crew_run::{CrewAnswer, crew};
use explorer_run::Gate;
use script_format::ModelEntry;
use script_text::{fits_output, push_all, push_number_line};
use served_models::ServedCommand;
use std::alloc::{AllocError, Global};
use std::sync::Wait;
use std::thread::Threads;
use translation::Translation;

/// Of the commands of models that are served, in order, what a crew of so many workers with this budget finds over a translation of
/// the command's problem, below a line with the model's name and the command's number. One crew works at a time, and one
/// translation is there. The gate is passed before each round, with the worker's place and the round's. The error comes only for want
/// of memory, which is told too where the text would be longer than an output may be.
pub fn text_of_crews<R: Threads + Wait + Sync, G: Gate + Sync>(
    rt: &R,
    alloc: Global,
    gate: &G,
    workers: u32,
    budget: u32,
    entries: &[ModelEntry],
    models: &[Vec<ServedCommand>],
) -> Result<Vec<u8>, AllocError>
    requires workers { (1 ≤ workers) × (workers ≤ 16) }
    requires budget { budget ≤ 100000 }
    requires count { length models.now ≡ length entries.now }
    requires servable { All AreServable models.now }
    ensures texts { IfOk result (λ text. AreServedTexts workers budget entries.now models.now text.items) }
{
    let mut text = Vec::new(alloc);
    for (place, entry) in entries.iter().enumerate() {
        let name = entry.name.text();
        let lines = blocks_of(rt, alloc, gate, workers, budget, name, &models[place])?;
        fits_output(text.len(), lines.len())?;
        text.extend_from_slice(&lines)?;
    }
    Ok(text)
}

// What crews find of the commands of one model.
fn blocks_of<R: Threads + Wait + Sync, G: Gate + Sync>(
    rt: &R,
    alloc: Global,
    gate: &G,
    workers: u32,
    budget: u32,
    name: &str,
    commands: &[ServedCommand],
) -> Result<Vec<u8>, AllocError>
    requires workers { (1 ≤ workers) × (workers ≤ 16) }
    requires budget { budget ≤ 100000 }
    requires servable { All (λ c. IsServable c.problem) commands.now }
    ensures texts { IfOk result (λ text. AreTexts (IsServedBlock workers budget name.now) commands.now text.items) }
{
    let mut text = Vec::new(alloc);
    for command in commands {
        let lines = block_of(rt, alloc, gate, workers, budget, name, command)?;
        fits_output(text.len(), lines.len())?;
        text.extend_from_slice(&lines)?;
    }
    Ok(text)
}

// What a crew finds of a command, below its line.
fn block_of<R: Threads + Wait + Sync, G: Gate + Sync>(
    rt: &R,
    alloc: Global,
    gate: &G,
    workers: u32,
    budget: u32,
    name: &str,
    command: &ServedCommand,
) -> Result<Vec<u8>, AllocError>
    requires workers { (1 ≤ workers) × (workers ≤ 16) }
    requires budget { budget ≤ 100000 }
    requires servable { IsServable command.now.problem }
    ensures text { IfOk result (λ text. IsServedBlock workers budget name.now command.now text.items) }
{
    let mut text = heading(alloc, name, command.number)?;
    let translation = Translation::build(alloc, command.problem.copy(alloc)?)?;
    let _ = translation.problem(); // for the proof
    let answer = crew(rt, alloc, &translation, workers, u64::from(budget), gate)?;
    push_answer(alloc, &mut text, &translation, budget, &answer)?;
    Ok(text)
}

// The line above what is told of a command.
fn heading(alloc: Global, name: &str, number: u32) -> Result<Vec<u8>, AllocError>
    ensures { IfOk result (λ text. text.items ≡ heading name.now number) }
{
    let mut text = Vec::from_slice(alloc, b"== ")?;
    text.extend_from_slice(name.as_bytes())?;
    push_number_line(&mut text, b" ", u64::from(number))?;
    Ok(text)
}

// Adds the lines that tell what a crew with this budget has answered over the translation.
fn push_answer(
    alloc: Global,
    out: &mut Vec<u8>,
    translation: &Translation,
    budget: u32,
    answer: &CrewAnswer,
) -> Result<(), AllocError>
    requires { (workers : ℕ) × IsCrewAnswer translation.now workers budget 1000000 answer.now }
    ensures { IfOk result (λ _. (lines : List ℕ) × IsAnswerText translation.now.problem budget answer.now lines × (out.new.items ≡ out.old.items ++ lines)) }
{
    match answer {
        CrewAnswer::Ended { scenarios, .. } => {
            Ok(push_all(alloc, out, translation.problem(), scenarios)?)
        }
        CrewAnswer::Spent { .. } => Ok(push_number_line(out, b"spent ", u64::from(budget))?),
        CrewAnswer::Full { .. } => Ok(out.extend_from_slice(b"full 1000000\n")?),
    }
}
