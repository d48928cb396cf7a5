// The sessions of a script.
ghost use Rattle.std.specs.Prelude.{◌≡◌, ◌≤◌, ◌<◌, ◌+◌, ◌^◌, ℕ, List, length, All, IfOk};
ghost use Rattle.std.specs.List.{AllZip};
ghost use Rattle.rel_formula.specs.Bounds.{Bounded};
ghost use Rattle.rel_formula.specs.Instance.{AreCells};
ghost use Rattle.translation.specs.Kept.{IsTranslation};
ghost use Rattle.explorer_run.specs.Served.{IsServable, AreServed, translations_of};
ghost use Rattle.script_text.specs.Limits.{most_output};
ghost use Rattle.script_text.specs.Printed.{all_printed};
ghost use Rattle.script_text.specs.Replies.{NamesCellsOf, PrintsRightProof, PrintsCheckableProof};
ghost use Rattle.explorer_cli.specs.Keys.{problems_of, IsScriptOf, WereServed, CanBeServed};
ghost use Rattle.explorer_cli.specs.Learnt.{allowed_of};
ghost use Rattle.explorer_cli.specs.Classes.{IsToldText, AreTranscriptTexts};

use crate::classed_sessions::classed_text;
use crate::keys::{key_of, problems_of};
use explorer_run::{Gate, Served, SessionScript, StepCount, Transcript, serve_sessions};
use script_format::SessionEntry;
use script_text::{fits_output, session_text};
use served_models::{Purpose, ServedCommand};
use std::alloc::{AllocError, Global};
use std::sync::Wait;
use std::thread::Threads;
use translation::Translation;

/// Sessions, in order, and what they were answered.
#[derive(Drop)]
pub struct Ran {
    pub scripts: Vec<SessionScript>,
    pub served: Served,
}

/// Serves sessions from the start with this budget, by so many workers, each on the problem of its command: those on one command
/// over one translation, and with what the others have learnt about it. The gate is passed before each command, with the
/// session's place and the command's. The count is raised by the steps that searches learn. The error comes only for want of memory.
pub fn run_sessions<R: Threads + Wait + Sync, G: Gate + Sync>(
    rt: &R,
    alloc: Global,
    gate: &G,
    workers: u32,
    budget: u32,
    sessions: &[SessionEntry],
    models: Vec<Vec<ServedCommand>>,
    count: &mut StepCount,
) -> Result<Ran, AllocError>
    requires workers { (1 ≤ workers) × (workers ≤ 16) }
    requires budget { budget ≤ 100000 }
    requires problems { (length (problems_of models.items) < 2 ^ 32) × All IsServable (problems_of models.items) }
    requires sessions { All (CanBeServed models.items) sessions.now }
    requires few { length sessions.now < 2 ^ 32 }
    ensures served { IfOk result (WereServed models.items budget sessions.now) }
    ensures learnt { count.new ≤ count.old + allowed_of budget sessions.now }
{
    let scripts = scripts_of(alloc, budget, &models, sessions)?;
    let problems = problems_of(alloc, models)?;
    let served = serve_sessions(rt, alloc, gate, problems, &scripts, workers, count)?;
    Ok(Ran { scripts, served })
}

// The sessions as they are served.
fn scripts_of(
    alloc: Global,
    budget: u32,
    models: &[Vec<ServedCommand>],
    sessions: &[SessionEntry],
) -> Result<Vec<SessionScript>, AllocError>
    requires few { length (problems_of models.now) < 2 ^ 32 }
    requires sessions { All (CanBeServed models.now) sessions.now }
    ensures { IfOk result (λ scripts. AllZip (IsScriptOf models.now budget) sessions.now scripts.items) }
{
    let mut scripts = Vec::new(alloc);
    for session in sessions {
        let script = script_of(alloc, budget, models, session)?;
        scripts.push(script)?;
    }
    Ok(scripts)
}

// A session as it is served.
fn script_of(
    alloc: Global,
    budget: u32,
    models: &[Vec<ServedCommand>],
    session: &SessionEntry,
) -> Result<SessionScript, AllocError>
    requires few { length (problems_of models.now) < 2 ^ 32 }
    requires session { CanBeServed models.now session.now }
    ensures { IfOk result (IsScriptOf models.now budget session.now) }
{
    let name = session.name.copy(alloc)?;
    let commands = session.commands.copy(alloc)?;
    Ok(SessionScript {
        name,
        key: key_of(models, session),
        budget,
        commands,
    })
}

/// The texts of what sessions were answered, one after the other, each over the translation of its key; lists at the bottom are
/// told as the purpose has it. The error comes only for want of memory, which is told too where the texts would be longer than an
/// output may be.
pub fn text_of_sessions(
    alloc: Global,
    purpose: Purpose,
    scripts: &[SessionScript],
    served: &Served,
) -> Result<Vec<u8>, AllocError>
    requires { (problems : List Bounded) × AreServed problems scripts.now served.now }
    ensures texts { IfOk result (λ text. AreTranscriptTexts purpose (translations_of served.now) scripts.now served.now.transcripts.items text.items) }
    ensures fits { IfOk result (λ text. length text.items ≤ most_output) }
{
    let mut text = Vec::new(alloc);
    for (place, script) in scripts.iter().enumerate() {
        let translation = &served.translations[script.key as usize];
        let transcript = &served.transcripts[place];
        let lines = told_text(alloc, purpose, script.name.text(), translation, transcript)?;
        fits_output(text.len(), lines.len())?;
        text.extend_from_slice(&lines)?;
    }
    Ok(text)
}

// The text of a session, as the purpose has it.
fn told_text(
    alloc: Global,
    purpose: Purpose,
    name: &str,
    translation: &Translation,
    transcript: &Transcript,
) -> Result<Vec<u8>, AllocError>
    requires floors { All (AreCells translation.now.problem) transcript.now.floors }
    requires cells { All (NamesCellsOf translation.now.problem) transcript.now.replies }
    requires proofs { AllZip (PrintsRightProof translation.now) transcript.now.floors transcript.now.replies }
    ensures text { IfOk result (λ text. IsToldText purpose translation.now.problem name.now transcript.now.floors (all_printed translation.now transcript.now.floors transcript.now.replies) text.items) }
    ensures checkable { IfOk result (λ _. AllZip (PrintsCheckableProof translation.now) transcript.now.floors transcript.now.replies) }
    ensures made { IsTranslation translation.now }
{
    let _ = translation.problem(); // for the proof
    match purpose {
        Purpose::Lists => session_text(alloc, name, translation, transcript),
        Purpose::Classes => classed_text(alloc, name, translation, transcript),
    }
}
